// Document 01's limits, by their numbers and not by those of `model`: the test does not rest on what it tests.

// B, n, P, and the number of blocks, at most.
pub const MAX_BUCKETS: u32 = 1_000_000_000;

pub const MAX_BINS: u32 = 65_535;

pub const MAX_CAPACITY: u32 = 1_000_000_000;

pub const MAX_BLOCKS: u32 = 65;

// The positions of a bin's label.
pub const LABEL: u32 = 8;

// The entries of tops, and of each interval array, that are lent for a new table.
pub const BLOCKS: usize = 65;

pub const INTERVALS: usize = 2_081;
