// A table in lent memory that passes rules 11 to 16 of document 01.
ghost use Rattle.model.specs.Lent.{LentFormed};

use crate::{Placing, bin_count, placing_of};
use model::table::Header;

// Its header and its four arrays, whose entries past the counts are nobody's.
#[derive(Clone, Copy)]
pub struct FormedTable<'a> {
    pub header: Header,
    pub tops: &'a [u32],
    pub ends: &'a [u32],
    pub blocks: &'a [u32],
    pub adjustments: &'a [u32],
    pub ghost formed: { LentFormed header tops.now ends.now blocks.now adjustments.now },
}

impl<'a> FormedTable<'a> {
    ghost use Rattle.std.specs.Prelude.{◌≡◌, ◌<◌};
    ghost use Rattle.model.specs.Table.{bins as bins_of};
    ghost use Rattle.table.specs.Placing.{placing_at};
    ghost use Rattle.table.specs.Formed.{table_of, arrays_of};

    // n.
    pub fn bins(self) -> u32
        ensures { result ≡ bins_of (table_of self.entry) }
    {
        bin_count(self.header, self.tops)
    }

    // How the buckets of interval i are placed.
    pub fn placing(self, i: usize) -> Placing
        requires { i < self.header.interval_count }
        ensures { result ≡ placing_at (arrays_of self.entry) i }
    {
        placing_of(self.tops, self.blocks[i] as usize, self.adjustments[i])
    }
}
