// The program without its buffers: a machine, and the rack that it works on.
ghost use Rattle.console.specs.Kept.{rack_of};
ghost use Rattle.buffers.specs.Machine.{Sane};

use crate::Machine;
use console::rack::Rack;

// The next row of a list in progress is one of the rack's list, or the place behind its last.
#[derive(Drop)]
pub struct Program {
    pub machine: Machine,
    pub rack: Rack,
    pub ghost sane: { Sane machine (rack_of rack) },
}

impl Program {
    ghost use Rattle.buffers.specs.Machine.{Begins, BeginsWith};

    // No map yet, and nothing read.
    pub fn start() -> Program
        ensures begins { Begins result.machine (rack_of result.rack) }
        ensures tables { BeginsWith result.machine result.rack.state }
    {
        Program {
            machine: Machine {
                listing: None,
                from: 0,
                size: 0,
            },
            rack: Rack::empty(),
        }
    }
}
