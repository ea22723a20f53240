// The intervals of a growth by which some old block is due less. Every entry is written once: the last moved part gets its
// final end when it is written.
#![tactic(auto)]

ghost use Rattle.std.specs.Prelude.{List, [], ◌∷◌, ℕ, ◌+◌, ◌^◌, ◌<◌, ◌≤◌, ◌≡◌, length, get_or};
ghost use Rattle.model.specs.Table.{interval, sizes};
ghost use Rattle.model.specs.Expansion.{plan, drained};
ghost use Rattle.model.specs.Lent.{lent};
ghost use Rattle.table.specs.Formed.{arrays_of};
ghost use Rattle.expansion_plan.specs.Shares.{interval_at};
ghost use Rattle.expansion_count.specs.Given.{Some, Drains};
ghost use Rattle.expansion_count.specs.Made.{made, CountedDrained};
ghost use Rattle.expansion_drain.specs.Stored.{Room, Stored, staying, interval_of, DrainsInto};

use expansion_count::Written;
use expansion_plan::plan_interval;
use model::limits::BLOCKS;
use model::plan::{Action, Plan};
use model::table::Header;
use table::{FormedTable, before};

// document 01's run: its end, the first bucket past it; its block; its rank adjustment.
#[derive(Clone, Copy)]
pub struct Interval {
    pub end: u32,
    pub block: u32,
    pub adjustment: u32,
}

// Interval i of lent arrays.
fn lent_interval(ends: &[u32], blocks: &[u32], adjustments: &[u32], i: usize) -> Interval
    requires { (i < length ends.now) × (i < length blocks.now) × (i < length adjustments.now) }
    ensures { interval_of result ≡ interval (get_or ends.now i 0) (get_or blocks.now i 0) (get_or adjustments.now i 0) }
{
    Interval {
        end: ends[i],
        block: blocks[i],
        adjustment: adjustments[i],
    }
}

// Interval i of a table.
pub fn interval_at(table: FormedTable, i: usize) -> Interval
    requires { i < table.header.interval_count }
    ensures { interval_of result ≡ interval_at (arrays_of table.entry) i }
{
    lent_interval(table.ends, table.blocks, table.adjustments, i)
}

// Writes one interval at place o.
pub fn write_interval(
    interval: Interval,
    o: usize,
    ends: &mut [u32],
    blocks: &mut [u32],
    adjustments: &mut [u32],
)
    requires { Room (o + 1) ends.old blocks.old adjustments.old }
    ensures { Stored o (interval_of interval ∷ []) ends.old blocks.old adjustments.old ends.new blocks.new adjustments.new }
{
    ends[o] = interval.end;
    blocks[o] = interval.block;
    adjustments[o] = interval.adjustment;
}

// The same for an interval of the new block. Its stores stand in another order, so that the compiler does not make one of them
// and those of an interval that stays.
fn write_moved(
    interval: Interval,
    o: usize,
    ends: &mut [u32],
    blocks: &mut [u32],
    adjustments: &mut [u32],
)
    requires { Room (o + 1) ends.old blocks.old adjustments.old }
    ensures { Stored o (interval_of interval ∷ []) ends.old blocks.old adjustments.old ends.new blocks.new adjustments.new }
{
    adjustments[o] = interval.adjustment;
    blocks[o] = interval.block;
    ends[o] = interval.end;
}

// Writes two intervals, at places o and o + 1: the second one is of the new block.
fn write_two(
    interval: Interval,
    next: Interval,
    o: usize,
    ends: &mut [u32],
    blocks: &mut [u32],
    adjustments: &mut [u32],
)
    requires { Room (o + 2) ends.old blocks.old adjustments.old }
    ensures { Stored o (interval_of interval ∷ interval_of next ∷ []) ends.old blocks.old adjustments.old
        ends.new blocks.new adjustments.new }
{
    write_interval(interval, o, ends, blocks, adjustments);
    write_moved(next, o + 1, ends, blocks, adjustments);
}

// Writes an interval that stays, from place o on, where `moved` buckets have moved before it: `left` new buckets form an interval
// of block g behind it. The next place.
fn write_stay(
    interval: Interval,
    g: u32,
    moved: u32,
    left: u32,
    o: usize,
    ends: &mut [u32],
    blocks: &mut [u32],
    adjustments: &mut [u32],
) -> usize
    requires block_lt_g { (interval.block < g) × (moved ≤ interval.end) × (interval.end + left < 2 ^ 32) }
    requires room { Room (o + length (made (staying moved) (interval_of interval) g left)) ends.old blocks.old adjustments.old }
    ensures place { result ≡ o + length (made (staying moved) (interval_of interval) g left) }
    ensures stored { Stored o (made (staying moved) (interval_of interval) g left) ends.old blocks.old adjustments.old
        ends.new blocks.new adjustments.new }
{
    if left == 0 {
        write_interval(interval, o, ends, blocks, adjustments);
        return o + 1;
    }
    let fresh = Interval {
        end: interval.end + left,
        block: g,
        adjustment: interval.end - moved,
    };
    write_two(interval, fresh, o, ends, blocks, adjustments);
    o + 2
}

// Writes what the plan for an old interval makes of it, from place o on: what moves goes to block g. `left` new buckets lengthen
// what moves, or form an interval of block g behind one that stays. The next place.
fn write_parts(
    plan: Plan,
    interval: Interval,
    g: u32,
    left: u32,
    o: usize,
    ends: &mut [u32],
    blocks: &mut [u32],
    adjustments: &mut [u32],
) -> usize
    requires block_lt_g { (interval.block < g) × (plan.moved ≤ interval.end) × (interval.end + left < 2 ^ 32) }
    requires room { Room (o + length (made plan (interval_of interval) g left)) ends.old blocks.old adjustments.old }
    ensures place { result ≡ o + length (made plan (interval_of interval) g left) }
    ensures stored { Stored o (made plan (interval_of interval) g left) ends.old blocks.old adjustments.old
        ends.new blocks.new adjustments.new }
{
    let action = plan.action;
    let end = interval.end + left;
    match action {
        Action::Stay => write_stay(interval, g, plan.moved, left, o, ends, blocks, adjustments),
        Action::Move { adjustment } => {
            let moved = Interval {
                end,
                block: g,
                adjustment,
            };
            write_moved(moved, o, ends, blocks, adjustments);
            o + 1
        }
        Action::Split { bucket, adjustment } => {
            let kept = Interval {
                end: bucket,
                ..interval
            };
            let moved = Interval {
                end,
                block: g,
                adjustment,
            };
            write_two(kept, moved, o, ends, blocks, adjustments);
            o + 2
        }
    }
}

// The plan for an old interval, which starts at `start`, where `moved` buckets have moved before it. `dues` is what each block is
// due.
fn plan_of(interval: Interval, dues: &[u32; BLOCKS], start: u32, moved: u32) -> Plan
    requires { (interval.block < 65) × (interval.adjustment ≤ start) × (start < interval.end) × (moved ≤ start) }
    ensures { result ≡ plan (get_or dues.now interval.block 0) start (interval_of interval) moved }
{
    plan_interval(
        dues[interval.block as usize],
        start,
        interval.end,
        interval.adjustment,
        moved,
    )
}

// Some old block is due less: one pass over the old intervals, with the new buckets behind the last one. The place that it comes to
// is the number of intervals.
pub fn write_drained(
    h: Header,
    ends: &[u32],
    blocks: &[u32],
    adjustments: &[u32],
    buckets: u32,
    dues: &[u32; BLOCKS],
    new_ends: &mut [u32],
    new_blocks: &mut [u32],
    new_adjustments: &mut [u32],
) -> Written
    requires { Some
        (DrainsInto new_ends.old new_blocks.old new_adjustments.old h ends.now blocks.now adjustments.now buckets dues.now) }
    ensures { (tops : List ℕ) (bins : ℕ)
        → Drains h ends.now blocks.now adjustments.now buckets dues.now tops bins
        → CountedDrained (lent h tops ends.now blocks.now adjustments.now) (sizes buckets bins) result
        × Stored 0 (drained (lent h tops ends.now blocks.now adjustments.now) (sizes buckets bins))
        new_ends.old new_blocks.old new_adjustments.old
        new_ends.new new_blocks.new new_adjustments.new }
{
    let last = h.interval_count as usize - 1;
    let mut moved: u32 = 0;
    let mut o: usize = 0;
    for i in 0..last {
        let interval = lent_interval(ends, blocks, adjustments, i);
        let plan = plan_of(interval, dues, before(ends, i), moved);
        o = write_parts(
            plan,
            interval,
            h.block_count,
            0,
            o,
            new_ends,
            new_blocks,
            new_adjustments,
        );
        moved = plan.moved;
    }
    let interval = lent_interval(ends, blocks, adjustments, last);
    let plan = plan_of(interval, dues, before(ends, last), moved);
    let place = write_parts(
        plan,
        interval,
        h.block_count,
        buckets - h.buckets,
        o,
        new_ends,
        new_blocks,
        new_adjustments,
    );
    Written {
        intervals: place as u32,
        moved: plan.moved,
    }
}
