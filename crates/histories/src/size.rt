// The sizes of a map, B and n.
#[derive(Clone, Copy, PartialEq)]
pub struct Sizes {
    pub buckets: u32,
    pub bins: u32,
}

impl Sizes {
    pub fn more(self, buckets: u32, bins: u32) -> Self {
        Sizes {
            buckets: self.buckets.saturating_add(buckets),
            bins: self.bins.saturating_add(bins),
        }
    }

    // The due size of a bin.
    pub fn due(self, bin: u32) -> u32 {
        let bins = self.bins.max(1);
        let more = bin < self.buckets % bins;
        (self.buckets / bins).saturating_add(u32::from(more))
    }
}
