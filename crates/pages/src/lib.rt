// A page of the move list in progress, put by the machine.
#![tactic(auto)]

ghost use Rattle.console.specs.Kept.{rack_of};
ghost use Rattle.pages.specs.Pages.{Pages};

use buffers::program::Program;
use buffers::{NUMBERS, OUT};

// After a turn: how many bytes it put into the buffer, and whether there is more to do.
#[derive(Clone, Copy)]
pub struct After {
    pub put: usize,
    pub more: bool,
}

// A page of the move list in progress, if there is one, put into the empty buffer.
pub fn page(program: &mut Program, rows: &mut [u32; NUMBERS], out: &mut [u8; OUT]) -> After
    ensures { Pages program.old.machine (rack_of program.old.rack) out.old program.new.machine (rack_of program.new.rack) result out.new }
{
    let Some(first) = program.machine.listing else {
        return After {
            put: 0,
            more: false,
        };
    };
    let page = program.rack.list(first, rows, out);
    let row = first + page.rows;
    let left = page.total - row;
    let more = 0 < left;
    program.machine.listing = if more { Some(row) } else { None };
    After {
        put: page.length,
        more,
    }
}
