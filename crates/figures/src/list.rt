// Lists of buckets on the map of document 01's history after (14, 5): 33, 30, 32 and 6, each at its edge on both sides, and
// which of them comes first.
use crate::calls::{GROWN, Lent, WRONG, header};
use crate::print::line;
use std::io;

// The buckets; refusal; the lent result afterwards.
fn asked(
    rt: &impl Print,
    words: &str,
    lent: Lent<'_>,
    buckets: &[u32],
    res: &mut [u32],
) -> io::Result<()> {
    let reply = lent.places(buckets, res);
    line(rt, words, buckets)?;
    line(rt, "  reply", &[reply.refusal])?;
    line(rt, "  result", res)
}

fn places(rt: &impl Print, buckets: &[u32], res: &mut [u32]) -> io::Result<()> {
    asked(rt, "(14, 5) places", GROWN, buckets, res)
}

// A table that is refused by 11.
fn places_0(rt: &impl Print, buckets: &[u32], res: &mut [u32]) -> io::Result<()> {
    let lent = Lent {
        header: header(0, 4, 5),
        ..GROWN
    };
    asked(rt, "B 0, places", lent, buckets, res)
}

// The largest bin holds 3, and its label has 8 positions.
fn places_small(
    rt: &impl Print,
    words: &str,
    capacity: u32,
    buckets: &[u32],
    res: &mut [u32],
) -> io::Result<()> {
    asked(rt, words, GROWN.with_capacity(capacity), buckets, res)
}

// Every interval; one bucket twice, and intervals that are skipped.
fn accepted(rt: &impl Print) -> io::Result<()> {
    places(rt, &[5, 6, 9, 10, 11], &mut [9; 10])?;
    places(rt, &[3, 6, 8, 8, 13], &mut [9; 10])?;
    places(rt, &[3, 6, 8, 8, 13], &mut [9; 11])
}

// 33, also where the table is wrong, the list falls or a bucket is not below B.
fn rooms(rt: &impl Print) -> io::Result<()> {
    places(rt, &[3, 6, 8, 8, 13], &mut [9; 9])?;
    places(rt, &[3], &mut [9; 2])?;
    places(rt, &[3], &mut [9; 1])?;
    places(rt, &[3], &mut [9; 0])?;
    places_0(rt, &[3, 6], &mut [9; 3])?;
    places_0(rt, &[3, 6], &mut [9; 4])?;
    places(rt, &[6, 5], &mut [9; 3])?;
    places(rt, &[14], &mut [9; 1])
}

// 32: equal neighbours, and a fall by one at the first, a middle and the last pair. The table comes before it, it before 6.
fn falls(rt: &impl Print) -> io::Result<()> {
    places(rt, &[6, 6], &mut [9; 4])?;
    places(rt, &[6, 5], &mut [9; 4])?;
    places(rt, &[6, 5, 13, 13], &mut [9; 8])?;
    places(rt, &[3, 7, 6, 13], &mut [9; 8])?;
    places(rt, &[3, 6, 13, 12], &mut [9; 8])?;
    asked(
        rt,
        "last adjustment 12, places",
        WRONG,
        &[6, 5],
        &mut [9; 4],
    )?;
    places(rt, &[14, 13], &mut [9; 4])?;
    places(rt, &[6, 5, 14], &mut [9; 6])
}

// 30: 33 and 16 come before it, it before 32 and 6.
fn capacities(rt: &impl Print) -> io::Result<()> {
    places_small(rt, "capacity 11, places", 11, &[6, 6], &mut [9; 4])?;
    places_small(rt, "capacity 10, places", 10, &[6, 6], &mut [9; 4])?;
    places_small(rt, "capacity 10, places", 10, &[6, 5], &mut [9; 4])?;
    places_small(rt, "capacity 10, places", 10, &[6, 14], &mut [9; 4])?;
    places_small(rt, "capacity 10, places", 10, &[6, 5], &mut [9; 3])?;
    places_small(rt, "capacity 8, places", 8, &[6, 6], &mut [9; 4])?;
    places_small(rt, "capacity 0, places", 0, &[6, 5], &mut [9; 4])?;
    asked(
        rt,
        "capacity 10, last adjustment 12, places",
        WRONG.with_capacity(10),
        &[6, 5],
        &mut [9; 4],
    )
}

// 6.
fn ends(rt: &impl Print) -> io::Result<()> {
    places(rt, &[13], &mut [9; 2])?;
    places(rt, &[14], &mut [9; 2])?;
    places(rt, &[0, 13], &mut [9; 4])?;
    places(rt, &[0, 14], &mut [9; 4])?;
    places(rt, &[14, 14], &mut [9; 4])?;
    places(rt, &[0, 4_294_967_295], &mut [9; 4])
}

// No bucket.
fn none(rt: &impl Print) -> io::Result<()> {
    let one = [0u32; 1];
    places(rt, &one[..0], &mut [9; 0])?;
    places(rt, &one[..0], &mut [9; 3])?;
    places_0(rt, &one[..0], &mut [9; 0])
}

pub fn lists(rt: &impl Print) -> io::Result<()> {
    accepted(rt)?;
    rooms(rt)?;
    falls(rt)?;
    capacities(rt)?;
    ends(rt)?;
    none(rt)
}
