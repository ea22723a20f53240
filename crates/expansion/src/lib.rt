// A growth and its move list, of a table that is known to be formed.
#![tactic(auto)]

ghost use Rattle.std.specs.Prelude.{false, ◌≡◌};
ghost use Rattle.model.specs.Table.{sizes, arrays};
ghost use Rattle.model.specs.Refusal.{room_short};
ghost use Rattle.model.specs.Results.{table_told, relocations_told};
ghost use Rattle.table.specs.Formed.{table_of};
ghost use Rattle.expansion_count.specs.Growths.{old_table, new_sizes};
ghost use Rattle.expansion.specs.Replies.{GrowReply, MovesReply};

use expansion_count::Growth;
use expansion_plan::{blocks_after, dues_after, dues_before, growth_allowed, some_fall};
use expansion_table::write_expanded;
use model::given::{Grown, Page};
use model::limits::BLOCKS;
use model::refusal::Refusal;
use model::table::Header;
use relocations::{relocation_count, write_relocations};
use table::FormedTable;

// What each block has, and what it is due after a growth: one array behind the other, so that they are cleared at once.
#[derive(Clone, Copy)]
struct Shares {
    olds: [u32; BLOCKS],
    dues: [u32; BLOCKS],
}

// A growth that rules 1 to 5 and 31 accept. 8: its table needs too many intervals.
fn accepted(
    growth: &Growth,
    new_tops: &mut [u32],
    new_ends: &mut [u32],
    new_blocks: &mut [u32],
    new_adjustments: &mut [u32],
) -> Result<Grown, Refusal>
    requires { room_short (arrays new_tops.old new_ends.old new_blocks.old new_adjustments.old) ≡ false }
    ensures { GrowReply (old_table growth.now) (new_sizes growth.now)
        (arrays new_tops.old new_ends.old new_blocks.old new_adjustments.old) (arrays new_tops.new new_ends.new new_blocks.new new_adjustments.new)
        (table_told result) }
{
    let full = growth.intervals_full();
    if full {
        return Err(Refusal::IntervalsFull);
    }
    let written = write_expanded(growth, new_tops, new_ends, new_blocks, new_adjustments);
    Ok(Grown {
        moved: written.moved,
        header: Header {
            buckets: growth.buckets,
            capacity: growth.table.header.capacity,
            block_count: growth.block_count,
            interval_count: written.intervals,
        },
    })
}

// A growth into arrays with room for any table.
pub fn grown(
    table: FormedTable,
    buckets: u32,
    bins: u32,
    new_tops: &mut [u32],
    new_ends: &mut [u32],
    new_blocks: &mut [u32],
    new_adjustments: &mut [u32],
) -> Result<Grown, Refusal>
    requires { room_short (arrays new_tops.old new_ends.old new_blocks.old new_adjustments.old) ≡ false }
    ensures { GrowReply (table_of table.entry) (sizes buckets bins)
        (arrays new_tops.old new_ends.old new_blocks.old new_adjustments.old) (arrays new_tops.new new_ends.new new_blocks.new new_adjustments.new)
        (table_told result) }
{
    let header = table.header;
    let tops = table.tops;
    growth_allowed(header, tops, buckets, bins)?;
    let mut shares = Shares {
        olds: [0u32; BLOCKS],
        dues: [0u32; BLOCKS],
    };
    dues_before(header, tops, &mut shares.olds);
    dues_after(header, tops, buckets, bins, &mut shares.dues);
    let falls = some_fall(header, tops, buckets, bins);
    let block_count = blocks_after(header, tops, bins);
    let growth = Growth {
        table,
        buckets,
        bins,
        olds: &shares.olds,
        dues: &shares.dues,
        falls,
        block_count,
    };
    accepted(&growth, new_tops, new_ends, new_blocks, new_adjustments)
}

// A page of the move list. 9: it has fewer than `first` rows.
pub fn relocated(
    table: FormedTable,
    buckets: u32,
    bins: u32,
    first: u32,
    rows: &mut [u32],
) -> Result<Page, Refusal>
    ensures { MovesReply (table_of table.entry) (sizes buckets bins) first rows.old rows.new (relocations_told result) }
{
    growth_allowed(table.header, table.tops, buckets, bins)?;
    let total = relocation_count(table.header, table.tops, buckets, bins);
    if total < first {
        return Err(Refusal::OrderPast);
    }
    let written = write_relocations(table, buckets, bins, first, total - first, rows);
    Ok(Page { written, total })
}
