// The program without its input and output: a machine that is given blocks of bytes, and puts what it prints into a buffer.
#![tactic(auto)]

ghost use Rattle.std.specs.Prelude.{◌≤◌, length};
ghost use Rattle.console.specs.Kept.{rack_of};
ghost use Rattle.machine.specs.Machine.{Turns};

use answers::answer;
use buffers::program::Program;
use buffers::{NUMBERS, OUT, keep};
use pages::{After, page};

// A turn of the machine, whose buffer is empty: until there is no room for a reply, or no line of the block is left.
pub fn turn(
    program: &mut Program,
    block: &mut [u8],
    rows: &mut [u32; NUMBERS],
    out: &mut [u8; OUT],
) -> After
    requires { (program.old.machine.from ≤ program.old.machine.size) × (program.old.machine.size ≤ length block.old) }
    ensures { Turns program.old.machine (rack_of program.old.rack) block.old program.new.machine (rack_of program.new.rack) result block.new out.new }
{
    let listed = page(program, rows, out);
    if listed.more {
        return listed;
    }
    let read = &block[..program.machine.size];
    let answered = answer(program, read, listed.put, out);
    if answered.more {
        return answered;
    }
    program.machine = keep(program.machine, block);
    After {
        put: answered.put,
        more: false,
    }
}
