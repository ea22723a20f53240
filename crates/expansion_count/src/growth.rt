// A growth that is accepted, as the passes over it read it.
ghost use Rattle.model.specs.Table.{sizes};
ghost use Rattle.table.specs.Formed.{table_of};
ghost use Rattle.expansion_count.specs.Given.{Grows};

use crate::intervals_full;
use model::limits::BLOCKS;
use table::FormedTable;

// The old table and the sizes asked for. `olds` and `dues` are what each block has, and is due after the growth; `falls` says that
// some old block is due less, and `block_count` is the number of blocks after it.
#[derive(Clone, Copy)]
pub struct Growth<'a> {
    pub table: FormedTable<'a>,
    pub buckets: u32,
    pub bins: u32,
    pub olds: &'a [u32; BLOCKS],
    pub dues: &'a [u32; BLOCKS],
    pub falls: bool,
    pub block_count: u32,
    pub ghost grows: { Grows (table_of table) (sizes buckets bins) olds.now dues.now falls block_count },
}

impl<'a> Growth<'a> {
    ghost use Rattle.std.specs.Prelude.{◌≡◌};
    ghost use Rattle.model.specs.Refusal.{intervals_full};
    ghost use Rattle.model.specs.Expansion.{last_block};
    ghost use Rattle.expansion_count.specs.Growths.{old_table, new_sizes};

    // The last interval's block.
    pub fn last_block(&self) -> u32
        ensures { result ≡ last_block (old_table self.now).intervals }
    {
        self.table.blocks[self.table.header.interval_count as usize - 1]
    }

    // Whether the growth's table needs more intervals than a table may have.
    pub fn intervals_full(&self) -> bool
        ensures { result ≡ intervals_full (old_table self.now) (new_sizes self.now) }
    {
        intervals_full(
            self.table.header,
            self.table.ends,
            self.table.blocks,
            self.table.adjustments,
            self.buckets,
            self.olds,
            self.dues,
            self.falls,
            self.block_count,
        )
    }
}
