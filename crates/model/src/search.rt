// The answer of the search over a table's intervals for a bucket.

// The interval of a bucket, by its place, and the bucket's rank.
#[derive(Clone, Copy)]
pub struct Located {
    pub interval: usize,
    pub rank: u32,
}
