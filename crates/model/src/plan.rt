// What an expansion does with one old interval.

// document 01: a run stays, moves whole, or splits at a bucket; what moves has the adjustment
#[derive(Clone, Copy)]
pub enum Action {
    Stay,
    Move { adjustment: u32 },
    Split { bucket: u32, adjustment: u32 },
}

// The plan for an interval: its action, and the buckets moved up to its end.
#[derive(Clone, Copy)]
pub struct Plan {
    pub action: Action,
    pub moved: u32,
}
