// The `where` lines of a block that stand one behind the other: they change no table, so they are answered without the session's state.
#![tactic(auto)]

ghost use Rattle.std.specs.Prelude.{◌≡◌, false, ◌≤◌, length};
ghost use Rattle.table.specs.Formed.{table_of};
ghost use Rattle.console.specs.Kept.{rack_of};
ghost use Rattle.buffers.specs.Machine.{lists};
ghost use Rattle.wheres.specs.Wheres.{Places, Went, on_to};

use buffers::program::Program;
use buffers::{LAST, OUT};
use console::step::put_where;
use lines::asked::{Asked, where_at};
use session::act::is_empty;
use table::FormedTable;

// The place of the next line of a block, and how many bytes are in the buffer.
#[derive(Clone, Copy)]
pub struct Spot {
    pub from: usize,
    pub put: usize,
}

// The `where` lines from a place on, answered on a map: until another line comes, or the buffer has no room for a reply.
fn answer_places(
    table: FormedTable,
    block: &[u8],
    from: usize,
    put: usize,
    out: &mut [u8; OUT],
) -> Spot
    requires { (from ≤ length block.now) × (put ≤ length out.old) }
    ensures { Places (table_of table.entry) block.now from put out.old result out.new }
{
    let mut line = from;
    let mut at = put;
    while at <= LAST {
        let Some(Asked { bucket, end }) = where_at(block, line) else {
            break;
        };
        at = put_where(table, bucket, out, at);
        line = end + 1;
    }
    Spot {
        from: line,
        put: at,
    }
}

// The same of a program with no list in progress: on its map, if it has one. Another line costs a look at its first byte.
pub fn answer_wheres(program: &Program, block: &[u8], put: usize, out: &mut [u8; OUT]) -> Spot
    requires { (lists program.now.machine ≡ false) × (program.now.machine.from ≤ length block.now) × (put ≤ length out.old) }
    ensures { Went program.now.machine (rack_of program.now.rack) block.now put out.old (on_to program.now.machine result.from) (rack_of program.now.rack) result.put out.new }
{
    let from = program.machine.from;
    if block.len() <= from {
        return Spot { from, put };
    }
    if block[from] != b'w' {
        return Spot { from, put };
    }
    let state = program.rack.state;
    if is_empty(state) {
        return Spot { from, put };
    }
    let h = state.current;
    let table = program.rack.map().table(h);
    answer_places(table, block, from, put, out)
}
