// What travels with a table's four arrays: B, the capacity P of every bin (drawer), the number of blocks (groups) G and of
// intervals (runs) k.
#[repr(C)]
#[derive(Clone, Copy)]
pub struct Header {
    pub buckets: u32,
    pub capacity: u32,
    pub block_count: u32,
    pub interval_count: u32,
}

impl Header {
    // What a refusal replies in place of a header: zeros.
    pub const NONE: Header = Header {
        buckets: 0,
        capacity: 0,
        block_count: 0,
        interval_count: 0,
    };
}
