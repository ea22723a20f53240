// Lent tables, right and wrong: rules 11 to 16, each at its edge on both sides, and 30 by the most buckets. The refusal is that of placing bucket 0.
ghost use Rattle.std.specs.Prelude.{◌≤◌};

use crate::calls::{Lent, header};
use crate::print::line;
use crate::read::place;
use std::io;

// The header's numbers but for the capacity, and the arrays.
#[derive(Clone, Copy)]
struct Case {
    buckets: u32,
    block_count: u32,
    interval_count: u32,
    tops: [u32; 2],
    ends: [u32; 2],
    blocks: [u32; 2],
    adjustments: [u32; 2],
}

const RIGHT: Case = Case {
    buckets: 10,
    block_count: 2,
    interval_count: 2,
    tops: [2, 3],
    ends: [7, 10],
    blocks: [0, 1],
    adjustments: [0, 7],
};

// One interval.
const FRESH: Case = Case {
    buckets: 0,
    block_count: 1,
    interval_count: 1,
    tops: [0, 0],
    ends: [0, 0],
    blocks: [0, 0],
    adjustments: [0, 0],
};

const CASES: [Case; 27] = [
    RIGHT,
    // 11: no bucket
    Case {
        buckets: 0,
        ..RIGHT
    },
    // no block
    Case {
        block_count: 0,
        ..RIGHT
    },
    // no interval
    Case {
        interval_count: 0,
        ..RIGHT
    },
    // one block more than tops lent
    Case {
        block_count: 3,
        ..RIGHT
    },
    // one interval more than entries lent
    Case {
        interval_count: 3,
        ..RIGHT
    },
    // most buckets
    Case {
        buckets: 1_000_000_000,
        tops: [2, 0],
        ends: [1_000_000_000, 0],
        ..FRESH
    },
    // in one bin, which they overfill
    Case {
        buckets: 1_000_000_000,
        tops: [1, 0],
        ends: [1_000_000_000, 0],
        ..FRESH
    },
    // most in one bin
    Case {
        buckets: 999_999_992,
        tops: [1, 0],
        ends: [999_999_992, 0],
        ..FRESH
    },
    // one bucket too many
    Case {
        buckets: 1_000_000_001,
        tops: [1, 0],
        ends: [1_000_000_001, 0],
        ..FRESH
    },
    // 12: equal tops
    Case {
        tops: [3, 3],
        ..RIGHT
    },
    // first top 0
    Case {
        tops: [0, 3],
        ..RIGHT
    },
    // most bins
    Case {
        buckets: 65_535,
        tops: [65_535, 0],
        ends: [65_535, 0],
        ..FRESH
    },
    // one bin too many
    Case {
        buckets: 65_536,
        tops: [65_536, 0],
        ends: [65_536, 0],
        ..FRESH
    },
    // as many bins as buckets
    Case {
        buckets: 3,
        tops: [3, 0],
        ends: [3, 0],
        ..FRESH
    },
    // more bins than buckets
    Case {
        buckets: 3,
        tops: [4, 0],
        ends: [3, 0],
        ..FRESH
    },
    // 13: equal ends
    Case {
        ends: [10, 10],
        ..RIGHT
    },
    // first end 0
    Case {
        ends: [0, 10],
        ..RIGHT
    },
    // last end below B
    Case {
        ends: [7, 9],
        ..RIGHT
    },
    // last end above B
    Case {
        ends: [7, 11],
        ..RIGHT
    },
    // 14: block 2 of 2
    Case {
        blocks: [0, 2],
        ..RIGHT
    },
    // 13 and 14
    Case {
        ends: [7, 9],
        blocks: [0, 2],
        ..RIGHT
    },
    // 15: first block one short
    Case {
        ends: [6, 10],
        adjustments: [0, 6],
        ..RIGHT
    },
    // last block empty
    Case {
        blocks: [0, 0],
        adjustments: [0, 0],
        ..RIGHT
    },
    // 16: one low
    Case {
        adjustments: [0, 6],
        ..RIGHT
    },
    // one high
    Case {
        adjustments: [0, 8],
        ..RIGHT
    },
    // first not 0
    Case {
        adjustments: [1, 7],
        ..RIGHT
    },
];

// its place in the list of cases, from 0; refusal, bin, position
pub fn tables(rt: &impl Print) -> io::Result<()> {
    for (i, case) in (0..27).zip(&CASES) {
        let lent = Lent {
            header: header(case.buckets, case.block_count, case.interval_count),
            tops: &case.tops,
            ends: &case.ends,
            blocks: &case.blocks,
            adjustments: &case.adjustments,
        };
        place(rt, "table", i, lent, 0)?;
    }
    short(rt, "one end too few", 1, 2, 2)?;
    short(rt, "one block too few", 2, 1, 2)?;
    short(rt, "one adjustment too few", 2, 2, 1)
}

// So many ends, blocks and adjustments of a right table are lent.
fn short(
    rt: &impl Print,
    words: &str,
    ends: usize,
    blocks: usize,
    adjustments: usize,
) -> io::Result<()>
    requires ends_bound { ends ≤ 2 }
    requires blocks_bound { blocks ≤ 2 }
    requires adjustments_bound { adjustments ≤ 2 }
{
    let lent = Lent {
        header: header(RIGHT.buckets, RIGHT.block_count, RIGHT.interval_count),
        tops: &RIGHT.tops,
        ends: &RIGHT.ends[..ends],
        blocks: &RIGHT.blocks[..blocks],
        adjustments: &RIGHT.adjustments[..adjustments],
    };
    let reply = lent.place(0);
    line(rt, words, &[reply.refusal, reply.bin, reply.position])
}
