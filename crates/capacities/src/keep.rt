// Saving and loading the map of document 01's history after (10, 3), and what is refused.
ghost use Rattle.std.specs.Prelude.{◌<◌};

use crate::calls::Lent;
use crate::print::line;
use model::limits::MAX_CAPACITY;
use model::table::Header;
use std::io;

// Its saved form: 12 + 4 * 2 + 8 * 2 bytes.
const FILE: [u8; 36] = [
    10, 0, 0, 0, 2, 0, 0, 0, 2, 0, 0, 0, 2, 0, 0, 0, 3, 0, 0, 0, 7, 0, 0, 0, 10, 0, 0, 0, 0, 0, 0,
    0, 1, 0, 0, 0,
];

// Saves to a buffer.
fn saved(rt: &impl Print, buffer: &mut [u8]) -> io::Result<()> {
    let lent = Lent {
        header: Header {
            buckets: 10,
            capacity: MAX_CAPACITY,
            block_count: 2,
            interval_count: 2,
        },
        tops: &[2, 3],
        ends: &[7, 10],
        blocks: &[0, 1],
        adjustments: &[0, 7],
    };
    lent.save(rt, "save", buffer)
}

// A buffer with four bytes to spare, one of the right length, and one a byte short (21). The bytes are shown.
pub fn saves(rt: &impl Print) -> io::Result<()> {
    saved(rt, &mut [255; 40])?;
    saved(rt, &mut [255; 36])?;
    saved(rt, &mut [255; 35])
}

// Loads; refusal, header; the first three entries of each array.
pub fn loaded(
    rt: &impl Print,
    words: &str,
    file: &[u8],
    capacity: u32,
    tops: &mut [u32],
) -> io::Result<()> {
    let mut ends = [9u32; 2081];
    let mut blocks = [9u32; 2081];
    let mut adjustments = [9u32; 2081];
    let reply = irr::load(
        file,
        capacity,
        tops,
        &mut ends,
        &mut blocks,
        &mut adjustments,
    );
    let h = reply.header;
    let numbers = [
        reply.refusal,
        h.buckets,
        h.capacity,
        h.block_count,
        h.interval_count,
    ];
    line(rt, words, &numbers)?;
    line(rt, "  ends", &ends[..3])?;
    line(rt, "  blocks", &blocks[..3])?;
    line(rt, "  adjustments", &adjustments[..3])
}

pub fn with_room(rt: &impl Print, words: &str, file: &[u8], capacity: u32) -> io::Result<()> {
    let mut tops = [9u32; 65];
    loaded(rt, words, file, capacity, &mut tops)?;
    line(rt, "  tops", &tops[..3])
}

fn ample(rt: &impl Print, words: &str, file: &[u8]) -> io::Result<()> {
    with_room(rt, words, file, MAX_CAPACITY)
}

// One byte of the file changed.
fn changed(rt: &impl Print, words: &str, at: usize, byte: u8) -> io::Result<()>
    requires { at < 36 }
{
    let mut file = FILE;
    file[at] = byte;
    ample(rt, words, &file)
}

// 21, then 11 by other lengths, then 11 to 15 by their contents.
pub fn loads(rt: &impl Print) -> io::Result<()> {
    ample(rt, "load", &FILE)?;
    loaded(rt, "load with 64 tops", &FILE, MAX_CAPACITY, &mut [9; 64])?;
    lengths(rt)?;
    contents(rt)?;
    blocks(rt)
}

fn lengths(rt: &impl Print) -> io::Result<()> {
    ample(rt, "load 1 byte", &[10])?;
    ample(rt, "load 11 bytes", &FILE[..11])?;
    ample(rt, "load 35 bytes", &FILE[..35])?;
    let mut longer = [0; 37];
    longer[..36].copy_from_slice(&FILE);
    ample(rt, "load 37 bytes", &longer)
}

fn contents(rt: &impl Print) -> io::Result<()> {
    changed(rt, "load with no bucket", 0, 0)?;
    changed(rt, "load with equal tops", 12, 3)?;
    changed(rt, "load with last end 9", 24, 9)?;
    changed(rt, "load with block 2 of 2", 32, 2)
}

fn blocks(rt: &impl Print) -> io::Result<()> {
    changed(rt, "load with first end 6", 20, 6)?;
    changed(rt, "load with block 1 twice", 28, 1)?;
    changed(rt, "load with a high byte", 3, 64)
}
