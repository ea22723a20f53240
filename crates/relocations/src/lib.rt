// The move list: the rows of the buckets that a growth moves.
#![tactic(auto)]

ghost use Rattle.std.specs.Prelude.{ℕ, ◌+◌, ◌-◌, ◌<◌, ◌≡◌, List, [], length};
ghost use Rattle.model.specs.Lent.{lent};
ghost use Rattle.model.specs.Basics.{joined};
ghost use Rattle.model.specs.Table.{arrays, interval, over, sizes};
ghost use Rattle.model.specs.Refusal.{first as first_of};
ghost use Rattle.model.specs.Sound.{Formed};
ghost use Rattle.model.specs.Expansion.{parts};
ghost use Rattle.model.specs.Relocations.{page};
ghost use Rattle.model.specs.Calls.{growth_tests};
ghost use Rattle.table.specs.Formed.{table_of};
ghost use Rattle.expansion_plan.specs.Shares.{TopsAsked};
ghost use Rattle.rows.specs.Spans.{span_rows};
ghost use Rattle.relocations.specs.Parts.{part_rows, paged, moves_of, ActionMoves, Moves};

use expansion_plan::{dues_after, plan_at};
use model::limits::BLOCKS;
use model::plan::Action;
use model::table::Header;
use rows::{Span, write_span};
use table::{FormedTable, Placing, bin_count, due_below};

// The rows of a span that moves, as far as the page from order number `first` on has them. A bucket's order number is its rank in
// the new block.
fn write_part(span: Span, first: u32, rows: &mut [u32])
    ensures { rows.new ≡ paged first (span.bucket - span.new.adjustment) (span_rows span) rows.old }
{
    let moved = span.bucket - span.new.adjustment;
    let skip = first.saturating_sub(moved);
    let at = moved.saturating_sub(first) as usize;
    let room = rows.len() / 5;
    if span.end - span.bucket <= skip || room <= at {
        return;
    }
    let start = span.bucket + skip;
    let count = (room - at).min((span.end - start) as usize);
    let part = Span {
        old: span.old,
        new: span.new,
        bucket: start,
        end: start + count as u32,
    };
    write_span(part, at, rows)
}

// The rows of an interval whose action is given. They do not depend on the number of its block, nor on that of the new one. As
// many rows come before them as the first of them has for its rank in the new block.
fn write_action(
    action: Action,
    start: u32,
    end: u32,
    old: Placing,
    first_bin: u32,
    bins: u32,
    first: u32,
    rows: &mut [u32],
)
    requires { (w : ℕ) × ActionMoves action start end old first_bin bins w }
    ensures { (w : ℕ) → ActionMoves action start end old first_bin bins w → (block g : ℕ) → block < g
        → rows.new
        ≡ paged first w
        (part_rows g old first_bin bins start (parts action (interval end block old.adjustment) g []))
        rows.old }
{
    let (bucket, adjustment) = match action {
        Action::Stay => return,
        Action::Move { adjustment } => (start, adjustment),
        Action::Split { bucket, adjustment } => (bucket, adjustment),
    };
    let new = Placing {
        first: first_bin,
        bins,
        adjustment,
    };
    let span = Span {
        old,
        new,
        bucket,
        end,
    };
    write_part(span, first, rows)
}

// The page from order number `first` on, where some old block is due less than it has: the old intervals from the left, of which
// each that moves or splits has rows, as long as the page is not full.
fn write_moved(table: FormedTable, bins: u32, dues: &[u32; BLOCKS], first: u32, rows: &mut [u32])
    requires { (buckets : ℕ) × Moves (table_of table) (sizes buckets bins) dues.now }
    ensures { (buckets : ℕ) → Moves (table_of table.entry) (sizes buckets bins) dues.now
        → rows.new
        ≡ over (joined (page first (length rows.old) (moves_of (table_of table.entry) (sizes buckets bins)))) rows.old }
{
    let old_bins = table.bins();
    let room = rows.len() / 5;
    let mut start: u32 = 0;
    let mut moved: u32 = 0;
    for i in 0..table.header.interval_count as usize {
        if room <= moved.saturating_sub(first) as usize {
            return;
        }
        let plan = plan_at(table, dues, i, start, moved);
        let end = table.ends[i];
        write_action(
            plan.action,
            start,
            end,
            table.placing(i),
            old_bins,
            bins - old_bins,
            first,
            rows,
        );
        start = end;
        moved = plan.moved;
    }
}

// How many rows there are: max(0, B - T).
pub fn relocation_count(h: Header, tops: &[u32], buckets: u32, bins: u32) -> u32
    requires { TopsAsked h tops.now (sizes buckets bins) }
    ensures { (ends blocks adjustments : List ℕ) → Formed h (arrays tops.now ends blocks adjustments)
        → result ≡ length (moves_of (lent h tops.now ends blocks adjustments) (sizes buckets bins)) }
{
    let old_bins = bin_count(h, tops);
    let due = due_below(buckets / bins, buckets % bins, old_bins);
    h.buckets.saturating_sub(due)
}

// The rows from order number `first` on, of which there are `left`, as many as fit whole; how many were written.
pub fn write_relocations(
    table: FormedTable,
    buckets: u32,
    bins: u32,
    first: u32,
    left: u32,
    rows: &mut [u32],
) -> u32
    requires bins_value { first_of (growth_tests (table_of table) (sizes buckets bins)) ≡ 0 }
    requires left_value { first + left ≡ length (moves_of (table_of table) (sizes buckets bins)) }
    ensures value { result ≡ length (page first (length rows.old) (moves_of (table_of table.entry) (sizes buckets bins))) }
    ensures rows_left { rows.new
        ≡ over (joined (page first (length rows.old) (moves_of (table_of table.entry) (sizes buckets bins)))) rows.old }
{
    if left == 0 {
        return 0;
    }
    let mut dues = [0u32; BLOCKS];
    dues_after(table.header, table.tops, buckets, bins, &mut dues);
    write_moved(table, bins, &dues, first, rows);
    (left as usize).min(rows.len() / 5) as u32
}
