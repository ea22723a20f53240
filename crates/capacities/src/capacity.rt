// The capacity: 30 and 31 at their edges on both sides, and what is tested before and after them.
ghost use Rattle.std.specs.Prelude.{◌<◌};

use crate::calls::{Lent, placed};
use crate::keep::{loaded, with_room};
use model::table::Header;
use std::io;

// The most buckets and the greatest capacity, and one more.
const MOST: u32 = 1_000_000_000;

const OVER: u32 = 1_000_000_001;

// The table of (10, 2): 5 buckets in every bin, and the label's 8 positions.
const SMALL: Lent<'static> = Lent {
    header: Header {
        buckets: 10,
        capacity: MOST,
        block_count: 1,
        interval_count: 1,
    },
    tops: &[2],
    ends: &[10],
    blocks: &[0],
    adjustments: &[0],
};

const GROWN_HEADER: Header = Header {
    buckets: 12,
    capacity: MOST,
    block_count: 2,
    interval_count: 2,
};

// The table of (12, 3) that follows it, 4 in every bin.
const GROWN: Lent<'static> = Lent {
    header: GROWN_HEADER,
    tops: &[2, 3],
    ends: &[8, 12],
    blocks: &[0, 1],
    adjustments: &[0, 8],
};

// That table, with one thing changed.
const CHANGED: [(&str, Lent<'static>); 7] = [
    (" right", GROWN),
    (
        " no bucket",
        Lent {
            header: Header {
                buckets: 0,
                ..GROWN_HEADER
            },
            ..GROWN
        },
    ),
    (
        " equal tops",
        Lent {
            tops: &[3, 3],
            ..GROWN
        },
    ),
    (
        " last end 13",
        Lent {
            ends: &[8, 13],
            ..GROWN
        },
    ),
    (
        " block 2",
        Lent {
            blocks: &[0, 2],
            ..GROWN
        },
    ),
    (
        " first end 7",
        Lent {
            ends: &[7, 12],
            adjustments: &[0, 7],
            ..GROWN
        },
    ),
    (
        " adjustment 7",
        Lent {
            adjustments: &[0, 7],
            ..GROWN
        },
    ),
];

// Each call that reads a table. What it is asked is right, or is refused where the table is not.
fn calls(rt: &impl Print, lent: Lent<'_>) -> io::Result<()> {
    lent.reads(rt, 1, 9, &[3, 7])?;
    lent.reads(rt, u32::MAX, u32::MAX, &[7, 3])?;
    lent.save(rt, " save", &mut [255; 26])?;
    lent.save(rt, " save", &mut [255; 23])?;
    lent.grow(rt, 15, 5, 0)?;
    lent.grow(rt, 0, 5, u32::MAX)?;
    lent.grow(rt, 16, 3, u32::MAX)
}

// 30 of a lent table. 11 to 16 come before it, 1, 6, 7, 21 and 32 after it.
pub fn tables(rt: &impl Print) -> io::Result<()> {
    for capacity in [13, 12, 8, 0, OVER] {
        println!(rt; "(10, 2), capacity {capacity}")?;
        calls(rt, SMALL.with_capacity(capacity))?;
    }
    println!(rt; "(10, 2), capacity 12, adjustment 1")?;
    let wrong = Lent {
        adjustments: &[1],
        ..SMALL
    };
    calls(rt, wrong.with_capacity(12))?;
    changed_tables(rt, 12)?;
    changed_tables(rt, 11)
}

// Only a placing.
fn changed_tables(rt: &impl Print, p: u32) -> io::Result<()> {
    println!(rt; "(12, 3), capacity {p}")?;
    for (words, lent) in CHANGED {
        placed(rt, words, lent.with_capacity(p).place(0))?;
    }
    Ok(())
}

// A growth of (10, 2).
fn growth(rt: &impl Print, capacity: u32, buckets: u32, bins: u32) -> io::Result<()> {
    println!(rt; "(10, 2), capacity {capacity}")?;
    SMALL.with_capacity(capacity).grow(rt, buckets, bins, 0)
}

// 31 of a growth. 1 and 3 come before it, 9 after it.
pub fn growths(rt: &impl Print) -> io::Result<()> {
    growth(rt, 13, 12, 2)?;
    growth(rt, 14, 12, 2)?;
    growth(rt, 13, 12, 3)?;
    growth(rt, 13, 15, 3)?;
    growth(rt, 13, 16, 3)?;
    growth(rt, 13, OVER, 2)?;
    growth(rt, 13, 100, 1)?;
    SMALL.with_capacity(13).grow(rt, 12, 2, u32::MAX)?;
    SMALL.with_capacity(13).grow(rt, 12, 3, 3)
}

// The saved form of (10, 2).
const SMALL_FILE: [u8; 24] = [
    10, 0, 0, 0, 1, 0, 0, 0, 1, 0, 0, 0, 2, 0, 0, 0, 10, 0, 0, 0, 0, 0, 0, 0,
];

// That of (12, 3).
const GROWN_FILE: [u8; 36] = [
    12, 0, 0, 0, 2, 0, 0, 0, 2, 0, 0, 0, 2, 0, 0, 0, 3, 0, 0, 0, 8, 0, 0, 0, 12, 0, 0, 0, 0, 0, 0,
    0, 1, 0, 0, 0,
];

// One byte of the second changed, and its capacity one too small.
fn damaged(rt: &impl Print, words: &str, at: usize, byte: u8) -> io::Result<()>
    requires { at < 36 }
{
    let mut file = GROWN_FILE;
    file[at] = byte;
    with_room(rt, words, &file, 11)
}

// 30 of a file. 21 and 11 to 15 come before it.
pub fn files(rt: &impl Print) -> io::Result<()> {
    with_room(rt, "load (10, 2) with capacity 13", &SMALL_FILE, 13)?;
    with_room(rt, "load (10, 2) with capacity 12", &SMALL_FILE, 12)?;
    with_room(rt, "load (10, 2) with capacity 8", &SMALL_FILE, 8)?;
    with_room(rt, "load (10, 2) with capacity 0", &SMALL_FILE, 0)?;
    with_room(
        rt,
        "load (10, 2) with capacity 1000000000",
        &SMALL_FILE,
        MOST,
    )?;
    with_room(
        rt,
        "load (10, 2) with capacity 1000000001",
        &SMALL_FILE,
        OVER,
    )?;
    with_room(rt, "load (12, 3) with capacity 12", &GROWN_FILE, 12)?;
    with_room(rt, "load (12, 3) with capacity 11", &GROWN_FILE, 11)?;
    loaded(
        rt,
        "load (10, 2) with capacity 0 and 64 tops",
        &SMALL_FILE,
        0,
        &mut [9; 64],
    )?;
    with_room(rt, "load 35 bytes with capacity 11", &GROWN_FILE[..35], 11)?;
    wrong_files(rt)
}

fn wrong_files(rt: &impl Print) -> io::Result<()> {
    damaged(rt, "load with capacity 11 and no bucket", 0, 0)?;
    damaged(rt, "load with capacity 11 and equal tops", 12, 3)?;
    damaged(rt, "load with capacity 11 and last end 11", 24, 11)?;
    damaged(rt, "load with capacity 11 and block 2 of 2", 32, 2)?;
    damaged(rt, "load with capacity 11 and first end 7", 20, 7)
}
