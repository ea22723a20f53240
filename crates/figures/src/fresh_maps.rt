// Fresh maps and room.
ghost use Rattle.std.specs.Prelude.{◌≤◌};

use crate::print::{line, numbers};
use model::limits::MAX_CAPACITY;
use model::reply::TableReply;
use std::io;

const MOST: u32 = 1_000_000_000;

const OVER: u32 = 1_000_000_001;

// Sizes asked for, with the capacity of document 01's figures: these, then refusals 1 and 2 at their edges.
const SIZES: [[u32; 2]; 10] = [
    [65_535, 65_535],
    [65_536, 65_536],
    [1_000_000_001, 1],
    [1_000_000_000, 65_535],
    [0, 1],
    [1, 0],
    [1, 1],
    [1, 2],
    [65_534, 65_535],
    [4_294_967_295, 4_294_967_295],
];

pub fn sizes(rt: &impl Print) -> io::Result<()> {
    for [buckets, bins] in SIZES {
        fresh(rt, buckets, bins, MAX_CAPACITY)?;
    }
    Ok(())
}

// sizes, capacity; the reply; the first two entries of each array: written, and kept
fn fresh(rt: &impl Print, buckets: u32, bins: u32, capacity: u32) -> io::Result<()> {
    let mut tops = [7u32; 65];
    let mut ends = [7u32; 2081];
    let mut blocks = [7u32; 2081];
    let mut adjustments = [7u32; 2081];
    let reply = irr::initial(
        buckets,
        bins,
        capacity,
        &mut tops,
        &mut ends,
        &mut blocks,
        &mut adjustments,
    );
    println!(rt; "fresh {buckets} {bins} {capacity}")?;
    replied(rt, reply)?;
    print!(rt; "  entries")?;
    for array in [&tops[..2], &ends[..2], &blocks[..2], &adjustments[..2]] {
        numbers(rt, array)?;
    }
    println!(rt)
}

// refusal, moved, header
fn replied(rt: &impl Print, reply: TableReply) -> io::Result<()> {
    let h = reply.header;
    let numbers = [
        reply.refusal,
        reply.moved,
        h.buckets,
        h.capacity,
        h.block_count,
        h.interval_count,
    ];
    line(rt, "  reply", &numbers)
}

// Fresh maps. Of (10, 2) a bin holds 5, of (11, 2) the first one 6, and the label has 8 positions more. 30 comes before 1 and 2;
// 1 and 2 come before 31.
pub fn maps(rt: &impl Print) -> io::Result<()> {
    fresh(rt, 10, 2, 13)?;
    fresh(rt, 10, 2, 12)?;
    fresh(rt, 11, 2, 14)?;
    fresh(rt, 11, 2, 13)?;
    fresh(rt, 12, 2, 13)?;
    fresh(rt, 12, 3, 13)?;
    fresh(rt, 10, 2, 0)?;
    fresh(rt, 10, 2, OVER)?;
    fresh(rt, 10, 2, u32::MAX)?;
    fresh(rt, 10, 2, MOST)?;
    labels(rt)?;
    most_maps(rt)?;
    order(rt)
}

// One bucket in one bin: a capacity of 1 to 8 has room for the label at most.
fn labels(rt: &impl Print) -> io::Result<()> {
    fresh(rt, 1, 1, 1)?;
    fresh(rt, 1, 1, 7)?;
    fresh(rt, 1, 1, 8)?;
    fresh(rt, 1, 1, 9)
}

// The most buckets, in one bin and in more. In 43 bins, P n is above a multiple of 2^32 by less than B.
fn most_maps(rt: &impl Print) -> io::Result<()> {
    fresh(rt, MOST, 1, MOST)?;
    fresh(rt, 999_999_993, 1, MOST)?;
    fresh(rt, 999_999_992, 1, MOST)?;
    fresh(rt, 999_999_992, 1, 999_999_999)?;
    fresh(rt, MOST, 43, MOST)?;
    fresh(rt, MOST, 1, 999_999_999)?;
    fresh(rt, MOST, 65_535, 15_268)?;
    fresh(rt, MOST, 65_535, 15_267)
}

fn order(rt: &impl Print) -> io::Result<()> {
    fresh(rt, 0, 2, 0)?;
    fresh(rt, 10, 0, OVER)?;
    fresh(rt, 1, 2, 0)?;
    fresh(rt, OVER, 1, 4)?;
    fresh(rt, 10, 0, 4)?;
    fresh(rt, 1, 2, 8)
}

// 21: one entry short in each array. The capacity and the sizes would be refused too.
pub fn rooms(rt: &impl Print) -> io::Result<()> {
    asked(rt, "room for all", 65, 2_081, 2_081, 2_081)?;
    asked(rt, "64 tops", 64, 2_081, 2_081, 2_081)?;
    asked(rt, "2080 ends", 65, 2_080, 2_081, 2_081)?;
    asked(rt, "2080 blocks", 65, 2_081, 2_080, 2_081)?;
    asked(rt, "2080 adjustments", 65, 2_081, 2_081, 2_080)
}

// So many entries of each array are lent.
fn asked(
    rt: &impl Print,
    words: &str,
    tops: usize,
    ends: usize,
    blocks: usize,
    adjustments: usize,
) -> io::Result<()>
    requires tops_bound { tops ≤ 65 }
    requires ends_bound { ends ≤ 2081 }
    requires blocks_bound { blocks ≤ 2081 }
    requires adjustments_bound { adjustments ≤ 2081 }
{
    let mut all_tops = [7u32; 65];
    let mut all_ends = [7u32; 2081];
    let mut all_blocks = [7u32; 2081];
    let mut all_adjustments = [7u32; 2081];
    let reply = irr::initial(
        0,
        0,
        0,
        &mut all_tops[..tops],
        &mut all_ends[..ends],
        &mut all_blocks[..blocks],
        &mut all_adjustments[..adjustments],
    );
    line(rt, words, &[reply.refusal])
}

// expansions; refusal, intervals. 9.
fn room(rt: &impl Print, expansions: u32) -> io::Result<()> {
    let reply = irr::room(expansions);
    line(rt, "room", &[expansions, reply.refusal, reply.intervals])
}

// Every number of expansions that is answered, and the next one. m(m + 1) fits in 32 bits for 65,535 and not for 65,536; modulo 2^32 it is 2 and 0 for the last two.
pub fn expansions(rt: &impl Print) -> io::Result<()> {
    for m in 0..66 {
        room(rt, m)?;
    }
    room(rt, 65_535)?;
    room(rt, 65_536)?;
    room(rt, 4_294_967_294)?;
    room(rt, 4_294_967_295)
}
