// Tables of the most blocks and intervals, and of one more: rule 11. Growths of that of the most blocks: 31 comes after 5.
ghost use Rattle.std.specs.Prelude.{◌≤◌};

use crate::calls::{Lent, header};
use crate::print::line;
use crate::read::place;
use std::io;

// One entry more than the most intervals.
const LONG: usize = 2_082;

// first, first + 1, .. in every entry, first being 0 or 1
fn rising(first: u32) -> [u32; LONG]
    requires { first ≤ 1 }
{
    let mut xs = [0u32; LONG];
    for (entry, x) in xs.iter_mut().zip(first..first + 2_082) {
        *entry = x;
    }
    xs
}

// Each block has one interval of one bucket.
fn blocks(rt: &impl Print, count: u32) -> io::Result<()> {
    let tops = rising(1);
    let blocks = rising(0);
    let lent = Lent {
        header: header(count, count, count),
        tops: &tops,
        ends: &tops,
        blocks: &blocks,
        adjustments: &blocks,
    };
    place(rt, "blocks", count, lent, 0)
}

// One block has all intervals, of one bucket each.
fn intervals(rt: &impl Print, count: u32) -> io::Result<()> {
    let ends = rising(1);
    let zeros = [0u32; LONG];
    let lent = Lent {
        header: header(count, 1, count),
        tops: &[1],
        ends: &ends,
        blocks: &zeros,
        adjustments: &zeros,
    };
    place(rt, "intervals", count, lent, 0)
}

// A growth of 65 blocks of one bin with one bucket each: capacity, sizes; the refusals of the growth and of its move list
fn grown(rt: &impl Print, capacity: u32, buckets: u32, bins: u32) -> io::Result<()> {
    let tops = rising(1);
    let blocks = rising(0);
    let lent = Lent {
        header: header(65, 65, 65),
        tops: &tops,
        ends: &tops,
        blocks: &blocks,
        adjustments: &blocks,
    };
    let lent = lent.with_capacity(capacity);
    let mut new_tops = [7u32; 65];
    let mut ends = [7u32; 2081];
    let mut new_blocks = [7u32; 2081];
    let mut adjustments = [7u32; 2081];
    let reply = irr::expand(
        lent.header,
        lent.tops,
        lent.ends,
        lent.blocks,
        lent.adjustments,
        buckets,
        bins,
        &mut new_tops,
        &mut ends,
        &mut new_blocks,
        &mut adjustments,
    );
    let listed = lent.relocations(buckets, bins, 0, &mut [7; 5]);
    let numbers = [capacity, buckets, bins, reply.refusal, listed.refusal];
    line(rt, "65 blocks grown", &numbers)
}

pub fn growths(rt: &impl Print) -> io::Result<()> {
    grown(rt, 9, 66, 65)?;
    grown(rt, 9, 132, 66)?;
    grown(rt, 10, 66, 65)
}

pub fn tables(rt: &impl Print) -> io::Result<()> {
    blocks(rt, 65)?;
    blocks(rt, 66)?;
    intervals(rt, 2_081)?;
    intervals(rt, 2_082)
}
