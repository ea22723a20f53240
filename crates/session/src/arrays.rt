// The arrays of a table, whole.
use model::limits::{BLOCKS, INTERVALS};
use model::table::Header;
use table::FormedTable;

// One top a block, and one end, block and adjustment an interval. A header says how many of them are the table's.
#[derive(Drop)]
pub struct Arrays {
    pub tops: [u32; BLOCKS],
    pub ends: [u32; INTERVALS],
    pub blocks: [u32; INTERVALS],
    pub adjustments: [u32; INTERVALS],
}

impl Arrays {
    ghost use Rattle.std.specs.Prelude.{◌≡◌, false, replicate};
    ghost use Rattle.model.specs.Limits.{max_blocks, max_intervals};
    ghost use Rattle.model.specs.Refusal.{room_short};
    ghost use Rattle.model.specs.Table.{arrays, table};
    ghost use Rattle.model.specs.Sound.{Formed};
    ghost use Rattle.table.specs.Formed.{table_of};
    ghost use Rattle.session.specs.Held.{arrays_of};

    // Arrays of zeros: there is room for any table.
    pub fn zero() -> Arrays
        ensures room { room_short (arrays_of result) ≡ false }
        ensures zeros { arrays_of result ≡ arrays (replicate max_blocks 0) (replicate max_intervals 0) (replicate max_intervals 0) (replicate max_intervals 0) }
    {
        Arrays {
            tops: [0; BLOCKS],
            ends: [0; INTERVALS],
            blocks: [0; INTERVALS],
            adjustments: [0; INTERVALS],
        }
    }

    // The table that they and a header are, where it passes rules 11 to 16.
    pub fn table(&self, header: Header) -> FormedTable<'_>
        requires { Formed header (arrays_of self.now) }
        ensures { table_of result ≡ table header (arrays_of self.now) }
    {
        FormedTable {
            header,
            tops: &self.tops,
            ends: &self.ends,
            blocks: &self.blocks,
            adjustments: &self.adjustments,
        }
    }
}
