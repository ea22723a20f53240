// How the buckets of one interval are placed, where many of them are.
ghost use Rattle.reciprocal.specs.Divides.{Divides};

use model::given::Slot;
use reciprocal::{Reciprocal, reciprocal_of};
use table::{Placing, slot_by};

// The interval's placing, and the reciprocal of its bins.
#[derive(Clone, Copy)]
pub(crate) struct Placer {
    pub(crate) placing: Placing,
    pub(crate) by: Reciprocal,
    pub(crate) ghost divides: { Divides by placing.bins },
}

impl Placer {
    ghost use Rattle.std.specs.Prelude.{◌≡◌, ◌≤◌};
    ghost use Rattle.table.specs.Placing.{Places, slot_of};

    pub(crate) fn new(placing: Placing) -> Placer
        requires { 1 ≤ placing.bins }
        ensures { result.placing ≡ placing }
    {
        Placer {
            placing,
            by: reciprocal_of(placing.bins),
        }
    }

    // The slot of a bucket.
    pub(crate) fn slot(self, bucket: u32) -> Slot
        requires { Places self.placing bucket }
        ensures { result ≡ slot_of self.placing bucket }
    {
        slot_by(self.placing, self.by, bucket)
    }
}
