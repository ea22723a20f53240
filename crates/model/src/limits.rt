// Document 01, 'Words and sizes': the limits. specs/Limits.antt has the same numbers.

// B, the number of buckets, is 1 to this.
pub const MAX_BUCKETS: u32 = 1_000_000_000;

// P, the capacity, which is the number of positions in every bin (drawer), is 1 to this.
pub const MAX_CAPACITY: u32 = 1_000_000_000;

// The positions of a bin that hold its label: the first ones, so positions of buckets start here.
pub const LABEL: u32 = 8;

// n, the number of bins (drawers), is 1 to this.
pub const MAX_BINS: u32 = 65_535;

// G, the number of blocks (groups), is 1 to this: as a number, and as the length of an array with one entry a block.
pub const MAX_BLOCKS: u32 = 65;

pub const BLOCKS: usize = 65;

// k, the number of intervals (runs), is 1 to this: as a number, and as the length of an array with one entry an interval.
pub const MAX_INTERVALS: u32 = 2_081;

pub const INTERVALS: usize = 2_081;

// The most expansions (growths) that `room` answers for.
pub const MAX_EXPANSIONS: u32 = 64;
