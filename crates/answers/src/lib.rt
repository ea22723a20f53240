// The lines of a block, answered by the machine.
#![tactic(auto)]

ghost use Rattle.std.specs.Prelude.{◌≡◌, false, ◌≤◌, length};
ghost use Rattle.console.specs.Kept.{rack_of};
ghost use Rattle.buffers.specs.Machine.{lists};
ghost use Rattle.answers.specs.Answers.{Answers};

use buffers::program::Program;
use buffers::{LAST, OUT};
use lines::feed_at;
use pages::After;
use wheres::answer_wheres;

// The lines of a block, each answered where it stands, behind `put` bytes in the buffer: until none is whole, a move list begins, or
// the buffer has no room for a reply.
pub fn answer(program: &mut Program, block: &[u8], put: usize, out: &mut [u8; OUT]) -> After
    requires { (lists program.old.machine ≡ false) × (program.old.machine.from ≤ length block.now) × (put ≤ length out.old) }
    ensures { Answers program.old.machine (rack_of program.old.rack) block.now put out.old program.new.machine (rack_of program.new.rack) result out.new }
{
    let mut at = put;
    while at <= LAST {
        let spot = answer_wheres(program, block, at, out);
        at = spot.put;
        program.machine.from = spot.from;
        if LAST < at {
            break;
        }
        let from = spot.from;
        let end = feed_at(block, from);
        if end == block.len() {
            return After {
                put: at,
                more: false,
            };
        }
        let line = &block[from..end];
        let reply = program.rack.step(line, out, spot.put);
        at = reply.at;
        program.machine.from = end + 1;
        if reply.list {
            program.machine.listing = Some(0);
            break;
        }
    }
    After {
        put: at,
        more: true,
    }
}
