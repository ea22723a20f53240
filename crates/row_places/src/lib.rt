// The places of one row of the move list: its bucket is found by one walk of the old intervals.
#![tactic(auto)]

ghost use Rattle.std.specs.Prelude.{ℕ, ◌+◌, min, max, ◌≤◌, ◌<◌, [], ◌≡◌, length, get_or};
ghost use Rattle.model.specs.Limits.{max_blocks};
ghost use Rattle.model.specs.Table.{Shape, sizes};
ghost use Rattle.model.specs.Refusal.{first};
ghost use Rattle.model.specs.Calls.{growth_tests, rows_of};
ghost use Rattle.table.specs.Formed.{table_of, arrays_of};
ghost use Rattle.row_places.specs.Rows.{Listed, Drains, RowBucket, places_of};

mod whole;

use expansion_plan::block_dues;
use model::given::Slot;
use model::limits::BLOCKS;
use table::{FormedTable, Placing, slot_of};
pub use whole::{Row, row_of};

// The old blocks that a small array of dues does for: it is cleared by two stores.
const FEW: usize = 8;

// A bucket, and the interval that has it.
#[derive(Clone, Copy)]
struct Moved {
    interval: usize,
    bucket: u32,
}

// The old place of a row, and its new one.
#[derive(Clone, Copy)]
pub struct RowPlaces {
    pub old: Slot,
    pub new: Slot,
}

// From which bucket on an interval moves whose block is due `due`: the ranks below that stay.
fn cut(due: u32, start: u32, end: u32, adjustment: u32) -> u32
    requires { (adjustment ≤ start) × (start ≤ end) }
    ensures { result ≡ min end (max start (due + adjustment)) }
{
    if due <= start - adjustment {
        return start;
    }
    if end - adjustment <= due {
        return end;
    }
    due + adjustment
}

// The bucket of the row of the given order number. `left` is how many rows before it are of intervals from i on.
fn bucket_at(table: FormedTable, dues: &[u32], order: u32) -> Moved
    requires { (s : Shape) × Drains table.header (arrays_of table) s dues.now order }
    ensures { (s : Shape) → Drains table.entry.header (arrays_of table.entry) s dues.now order
        → RowBucket table.entry.header (arrays_of table.entry) s order result.interval result.bucket }
{
    let mut start: u32 = 0;
    let mut left = order;
    for i in 0..table.header.interval_count as usize {
        let end = table.ends[i];
        let first = cut(
            dues[table.blocks[i] as usize],
            start,
            end,
            table.adjustments[i],
        );
        if left < end - first {
            return Moved {
                interval: i,
                bucket: first + left,
            };
        }
        left -= end - first;
        start = end;
    }
    unreachable!()
}

// That bucket, by an array with room for the dues of N old blocks.
fn bucket_by<const N: usize>(table: FormedTable, buckets: u32, bins: u32, order: u32) -> Moved
    requires listed { Listed table.header (arrays_of table) (sizes buckets bins) order }
    requires block_count_in_bounds { (table.header.block_count ≤ N) × (N ≤ max_blocks) }
    ensures { RowBucket table.entry.header (arrays_of table.entry) (sizes buckets bins) order result.interval result.bucket }
{
    let mut dues = [0u32; N];
    block_dues(
        table.tops,
        table.header.block_count as usize,
        buckets,
        bins,
        &mut dues,
    );
    bucket_at(table, &dues, order)
}

// That bucket, by the smaller array that does.
fn bucket_of(table: FormedTable, buckets: u32, bins: u32, order: u32) -> Moved
    requires { Listed table.header (arrays_of table) (sizes buckets bins) order }
    ensures { RowBucket table.entry.header (arrays_of table.entry) (sizes buckets bins) order result.interval result.bucket }
{
    if table.header.block_count as usize <= FEW {
        bucket_by::<FEW>(table, buckets, bins, order)
    } else {
        bucket_by::<BLOCKS>(table, buckets, bins, order)
    }
}

// The places of a row whose bucket is found. In the new block its bucket has the row's order number for its rank.
fn places_at(table: FormedTable, bins: u32, moved: Moved, order: u32) -> RowPlaces
    requires { (buckets : ℕ) × Listed table.header (arrays_of table) (sizes buckets bins) order
        × RowBucket table.header (arrays_of table) (sizes buckets bins) order moved.interval moved.bucket }
    ensures { (buckets : ℕ) → Listed table.entry.header (arrays_of table.entry) (sizes buckets bins) order
        → RowBucket table.entry.header (arrays_of table.entry) (sizes buckets bins) order moved.interval moved.bucket
        → result ≡ places_of (get_or (rows_of table.entry.header (arrays_of table.entry) (sizes buckets bins)) order []) }
{
    let old_bins = table.bins();
    let new = Placing {
        first: old_bins,
        bins: bins - old_bins,
        adjustment: 0,
    };
    RowPlaces {
        old: slot_of(table.placing(moved.interval), moved.bucket),
        new: slot_of(new, order),
    }
}

// The places of the row of the given order number.
pub fn row_places(table: FormedTable, buckets: u32, bins: u32, order: u32) -> RowPlaces
    requires bins_value { first (growth_tests (table_of table) (sizes buckets bins)) ≡ 0 }
    requires order_in_bounds { order < length (rows_of table.header (arrays_of table) (sizes buckets bins)) }
    ensures { result ≡ places_of (get_or (rows_of table.entry.header (arrays_of table.entry) (sizes buckets bins)) order []) }
{
    let moved = bucket_of(table, buckets, bins, order);
    places_at(table, bins, moved, order)
}
