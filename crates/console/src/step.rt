// One line: read, done, and answered.
ghost use Rattle.std.specs.Prelude.{◌≡◌, ◌+◌, ◌≤◌, length};
ghost use Rattle.std.proofs.lemmas.List.Edits.{sets};
ghost use Rattle.table.specs.Formed.{table_of};
ghost use Rattle.model.specs.Console.{command_answer};
ghost use Rattle.print.specs.Numbers.{line_room};
ghost use Rattle.session.specs.Held.{arrays_of};
ghost use Rattle.session.specs.Maps.{maps, session, next, shown, is_list, Right, Stepped};
ghost use Rattle.console.specs.Rack.{held, Served, where_answer};
ghost use Rattle.console.specs.Kept.{rack_of};

use crate::Reply;
use crate::rack::Rack;
use model::answer::Answer;
use model::command::Command;
use model::given::Slot;
use print::{put_bucket, put_ok, put_place, put_refused};
use session::act::act;
use session::arrays::Arrays;
use session::state::{State, Step};
use table::FormedTable;

// An answer, printed; the `move` lines are listed apart.
fn reply(answer: Answer, out: &mut [u8], at: usize) -> Reply
    requires { at + line_room ≤ length out.old }
    ensures given { result ≡ record { at = at + length (shown answer); list = is_list answer } }
    ensures bytes { out.new ≡ sets out.old at (shown answer) }
{
    match answer {
        Answer::Refused { number } => Reply {
            at: put_refused(number, out, at),
            list: false,
        },
        Answer::Table { moved, intervals } => Reply {
            at: put_ok(moved, intervals, out, at),
            list: false,
        },
        Answer::Place { bin, position } => Reply {
            at: put_place(bin, position, out, at),
            list: false,
        },
        Answer::Bucket { bucket } => Reply {
            at: put_bucket(bucket, out, at),
            list: false,
        },
        Answer::Moves => Reply { at, list: true },
    }
}

// The reply to `where` on a map. The place behind it.
pub fn put_where(table: FormedTable, bucket: u32, out: &mut [u8], at: usize) -> usize
    requires { at + line_room ≤ length out.old }
    ensures place { result ≡ at + length (shown (where_answer (table_of table.entry) bucket)) }
    ensures bytes { out.new ≡ sets out.old at (shown (where_answer (table_of table.entry) bucket)) }
{
    match lookup::placed(table, bucket) {
        Ok(Slot { bin, position }) => put_place(bin, position, out, at),
        Err(refusal) => put_refused(refusal.number(), out, at),
    }
}

// What a command does to the arrays of the map and to those of the other table.
fn act_on(state: State, command: Command, map: &mut Arrays, other: &mut Arrays) -> Step
    requires { Right (maps state (arrays_of map.old) (arrays_of other.old)) }
    ensures { Stepped (maps state (arrays_of map.old) (arrays_of other.old)) command result (arrays_of map.new) (arrays_of other.new) }
{
    act(
        state,
        command,
        &mut map.tops,
        &mut map.ends,
        &mut map.blocks,
        &mut map.adjustments,
        &mut other.tops,
        &mut other.ends,
        &mut other.blocks,
        &mut other.adjustments,
    )
}

impl Rack {
    // What a command does, and its answer.
    fn act(&mut self, command: Command) -> Answer
        ensures maps { held (rack_of self.new) ≡ next (held (rack_of self.old)) command }
        ensures answer { result ≡ command_answer (session (held (rack_of self.old))) command }
    {
        let state = self.state;
        let done = if state.flipped {
            act_on(state, command, &mut self.second, &mut self.first)
        } else {
            act_on(state, command, &mut self.first, &mut self.second)
        };
        self.state = done.state;
        done.answer
    }

    // One line of a session: what it prints goes to `out` from `at` on.
    pub fn step(&mut self, line: &[u8], out: &mut [u8], at: usize) -> Reply
        requires { at + line_room ≤ length out.old }
        ensures { Served (rack_of self.old) line.now at out.old result (rack_of self.new) out.new }
    {
        let command = lines::read(line);
        let answer = self.act(command);
        reply(answer, out, at)
    }
}
