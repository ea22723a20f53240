// Buckets that a growth moves together.
ghost use Rattle.std.specs.Prelude.{◌≤◌};
ghost use Rattle.model.specs.Limits.{max_buckets};
ghost use Rattle.table.specs.Placing.{Places};

use table::Placing;

// The buckets from `bucket` up to `end`, and how they are placed before the growth and after it.
#[derive(Clone, Copy)]
pub struct Span {
    pub old: Placing,
    pub new: Placing,
    pub bucket: u32,
    pub end: u32,
    pub ghost places: { Places old bucket × Places new bucket },
    pub ghost within: { (bucket ≤ end) × (end ≤ max_buckets) },
}
