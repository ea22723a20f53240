// The machine's state and the sizes of its buffers: it begins, a block is received, and an unfinished line is kept.
#![tactic(auto)]

pub mod program;

ghost use Rattle.std.specs.Prelude.{◌≡◌, ◌+◌, ◌≤◌, ◌<◌, length};
ghost use Rattle.model.specs.Table.{over};
ghost use Rattle.buffers.specs.Machine.{unfinished, keeping, Rests, Receives};

use print::{LINE, MOVE};

// The bytes kept of an unfinished line: more than a readable line has.
pub const KEPT: usize = 65;

// A block: what is kept of an unfinished line, and what is read behind it.
pub const BLOCK: usize = KEPT + 65_536;

// A page of the move list: its rows, and their numbers, five a row.
const ROWS: usize = 8_192;

pub const NUMBERS: usize = 5 * ROWS;

// The buffer: room for the lines of a page, and behind its last place for a reply.
pub const LAST: usize = MOVE * ROWS;

pub const OUT: usize = LAST + LINE;

// The next row of the move list in progress, if there is one; and the bytes of the block that are read and not yet answered: from
// place `from` to place `size`.
#[derive(Clone, Copy)]
pub struct Machine {
    pub listing: Option<u32>,
    pub from: usize,
    pub size: usize,
}

// What is read behind the bytes that are left, `got` bytes; or, where none are read, the input has ended: a line feed then ends an
// unfinished line.
pub fn receive(mut m: Machine, block: &mut [u8], got: usize) -> Machine
    requires { Rests m block.old × (m.from ≤ m.size) × (m.size < length block.old) × (m.size + got ≤ length block.old) }
    ensures { Receives m got block.old result block.new }
{
    let size = m.size;
    if 0 < got {
        m.size = size + got;
        return m;
    }
    if m.from < size {
        block[size] = b'\n';
        m.size = size + 1;
        return m;
    }
    m
}

// Moves the first bytes of an unfinished line to the front of the block: they say as much as all of it.
pub fn keep(mut m: Machine, block: &mut [u8]) -> Machine
    requires { (m.from ≤ m.size) × (m.size ≤ length block.old) }
    ensures value { result ≡ keeping m block.old }
    ensures block_after { block.new ≡ over (unfinished m block.old) block.old }
{
    let from = m.from;
    let kept = KEPT.min(m.size - from);
    block.copy_within(from..from + kept, 0);
    m.from = 0;
    m.size = kept;
    m
}
