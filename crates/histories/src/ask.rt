// The growths that are asked for.
use crate::limits::{MAX_BINS, MAX_BUCKETS};
use crate::random::Random;
use crate::size::Sizes;

// No random map has more buckets.
const MOST: u32 = 4_096;

// Which growths are asked for.
#[derive(Clone, Copy)]
pub enum Growths {
    // random ones, by at most so many buckets and bins
    Random { buckets: u32, bins: u32 },
    // those of `planned`
    Planned,
}

impl Growths {
    // Growth number i of a map.
    pub fn asked(self, map: Sizes, i: u32, random: &mut Random) -> Sizes {
        match self {
            Growths::Random { buckets, bins } => drawn(map, buckets, bins, random),
            Growths::Planned => planned(map, i),
        }
    }
}

// One bin at a time until there are 65 blocks, and one more, which is refused by 5. Then a bucket more for every bin, which
// makes an interval for every block but one, until that is refused by 8; then five buckets, and then one, until there are
// 2,081 intervals, and one bucket more is refused by 8.
fn planned(map: Sizes, i: u32) -> Sizes {
    match i {
        0..65 => map.more(0, 1),
        65..97 => map.more(map.bins, 0),
        97..107 => map.more(5, 0),
        _ => map.more(1, 0),
    }
}

// Buckets alone, bins alone, both, one of each, or what is refused.
fn drawn(map: Sizes, most_buckets: u32, most_bins: u32, random: &mut Random) -> Sizes {
    let choice = random.below(8);
    let buckets = random.below(most_buckets);
    let bins = random.below(most_bins);
    let refused = random.below(10);
    let one = map.more(1, 1);
    let Sizes { buckets, bins } = one.more(buckets, bins);
    let buckets = buckets.min(MOST);
    match choice {
        0 | 1 => Sizes { buckets, ..map },
        2 | 3 => Sizes { bins, ..map },
        4 | 5 => Sizes { buckets, bins },
        6 => Sizes {
            buckets: one.buckets.min(MOST),
            ..one
        },
        _ => wrong(map, refused),
    }
}

// Ten that are refused.
fn wrong(map: Sizes, choice: u32) -> Sizes {
    let Sizes { buckets, bins } = map;
    let less = buckets.saturating_sub(1);
    let (buckets, bins) = match choice {
        0 => (0, bins),
        1 => (MAX_BUCKETS + 1, bins),
        2 => (less, bins),
        3 => (less, bins.saturating_add(1)),
        4 => (less, bins),
        5 => (buckets, 0),
        6 => (buckets, MAX_BINS + 1),
        7 => (buckets, buckets.saturating_add(1)),
        8 => (buckets, bins.saturating_sub(1)),
        _ => (buckets, bins),
    };
    Sizes { buckets, bins }
}
