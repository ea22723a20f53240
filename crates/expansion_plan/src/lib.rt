// What a growth asks for and does, on a formed table: its refusals, the dues after it, and the plan for an interval.
#![tactic(auto)]

ghost use Rattle.std.specs.Prelude.{ℕ, ◌<◌, ◌≤◌, List, ◌≡◌, length, get_or, replicate};
ghost use Rattle.model.specs.Lent.{TopsFormed, lent};
ghost use Rattle.model.specs.Limits.{max_blocks};
ghost use Rattle.model.specs.Table.{Shape, arrays, interval, sizes};
ghost use Rattle.model.specs.Refusal.{first};
ghost use Rattle.model.specs.Sound.{Formed};
ghost use Rattle.model.specs.Expansion.{grown_tops, some_fall, plan};
ghost use Rattle.model.specs.Calls.{growth_tests};
ghost use Rattle.model.specs.Results.{refusal_of};
ghost use Rattle.model.specs.Basics.{before as entry_before};
ghost use Rattle.table.specs.Formed.{arrays_of};
ghost use Rattle.expansion_plan.specs.Shares.{TopsAsked, TopsWithin, Dues, DuesBefore, DuesAfter, interval_at};

use model::limits::{BLOCKS, MAX_BLOCKS};
use model::plan::{Action, Plan};
use model::refusal::Refusal;
use model::table::Header;
use sizes::{capacity_allowed, sizes_allowed};
use table::{FormedTable, bin_count, due_below};

// The growth breaks none of rules 1 to 5 and 31. 3: a size falls. 4: nothing changes. 5: a new block, and no room for it.
pub fn growth_allowed(h: Header, tops: &[u32], buckets: u32, bins: u32) -> Result<(), Refusal>
    requires { TopsFormed h tops.now }
    ensures { (ends blocks adjustments : List ℕ)
        → refusal_of result ≡ first (growth_tests (lent h tops.now ends blocks adjustments) (sizes buckets bins)) }
{
    sizes_allowed(buckets, bins)?;
    let old = bin_count(h, tops);
    if buckets < h.buckets || bins < old {
        return Err(Refusal::Shrinks);
    }
    if bins == old && buckets == h.buckets {
        return Err(Refusal::Unchanged);
    }
    if old < bins && h.block_count == MAX_BLOCKS {
        return Err(Refusal::BlocksFull);
    }
    capacity_allowed(h.capacity, buckets, bins)
}

// The number of blocks after the growth: one more if there are more bins.
pub fn blocks_after(h: Header, tops: &[u32], bins: u32) -> u32
    requires { TopsFormed h tops.now }
    ensures { (ends blocks adjustments : List ℕ) (s : Shape) → s.bins ≡ bins
        → result ≡ length (grown_tops (lent h tops.now ends blocks adjustments) s) }
{
    let old = bin_count(h, tops);
    if old < bins {
        return h.block_count + 1;
    }
    h.block_count
}

// What each of the first `count` blocks is due in a map of the given sizes, written over the first entries.
pub fn block_dues(tops: &[u32], count: usize, buckets: u32, bins: u32, dues: &mut [u32])
    requires tops_within { TopsWithin tops.now count bins }
    requires count_in_bounds { count ≤ length dues.old }
    ensures { Dues (sizes buckets bins) tops.now count dues.old dues.new }
{
    let quotient = buckets / bins;
    let remainder = buckets % bins;
    let mut below: u32 = 0;
    for j in 0..count {
        let through = due_below(quotient, remainder, tops[j]);
        dues[j] = through - below;
        below = through;
    }
}

// What each block has, written over zeros: a block of a formed table has its due.
pub fn dues_before(h: Header, tops: &[u32], olds: &mut [u32; BLOCKS])
    requires tops_formed { TopsFormed h tops.now }
    requires olds_value { olds.old ≡ replicate max_blocks 0 }
    ensures { (ends blocks adjustments : List ℕ) → Formed h (arrays tops.now ends blocks adjustments)
        → DuesBefore (lent h tops.now ends blocks adjustments) olds.new }
{
    let bins = bin_count(h, tops);
    block_dues(tops, h.block_count as usize, h.buckets, bins, olds);
}

// What each block is due after the growth, written over zeros: the new one what the old bins leave.
pub fn dues_after(h: Header, tops: &[u32], buckets: u32, bins: u32, dues: &mut [u32; BLOCKS])
    requires tops_asked { TopsAsked h tops.now (sizes buckets bins) }
    requires dues_value { dues.old ≡ replicate max_blocks 0 }
    ensures { (ends blocks adjustments : List ℕ)
        → DuesAfter (lent h tops.now ends blocks adjustments) (sizes buckets bins) dues.new }
{
    let old = bin_count(h, tops);
    block_dues(tops, h.block_count as usize, buckets, bins, dues);
    if old < bins {
        dues[h.block_count as usize] = buckets - due_below(buckets / bins, buckets % bins, old);
    }
}

// Whether some old block is due less than it has. None is then due more, so the old bins are due less than the old buckets.
pub fn some_fall(h: Header, tops: &[u32], buckets: u32, bins: u32) -> bool
    requires { TopsAsked h tops.now (sizes buckets bins) }
    ensures { (ends blocks adjustments : List ℕ) → Formed h (arrays tops.now ends blocks adjustments)
        → result ≡ some_fall (lent h tops.now ends blocks adjustments) (sizes buckets bins) }
{
    let old = bin_count(h, tops);
    due_below(buckets / bins, buckets % bins, old) < h.buckets
}

// The plan for an interval whose block is due `due`, where `moved` buckets have moved before it. It does not depend on which
// block that is.
pub fn plan_interval(due: u32, start: u32, end: u32, adjustment: u32, moved: u32) -> Plan
    requires { (adjustment ≤ start) × (start < end) × (moved ≤ start) }
    ensures { (block : ℕ) → result ≡ plan due start (interval end block adjustment) moved }
{
    if end - adjustment <= due {
        return Plan {
            action: Action::Stay,
            moved,
        };
    }
    if due <= start - adjustment {
        return Plan {
            action: Action::Move {
                adjustment: start - moved,
            },
            moved: moved + (end - start),
        };
    }
    let bucket = due + adjustment;
    Plan {
        action: Action::Split {
            bucket,
            adjustment: bucket - moved,
        },
        moved: moved + (end - bucket),
    }
}

// The plan for old interval i, which starts at `start`, where `moved` buckets have moved before it. `dues` is what each block is
// due.
pub fn plan_at(table: FormedTable, dues: &[u32; BLOCKS], i: usize, start: u32, moved: u32) -> Plan
    requires { (i < table.header.interval_count) × (start ≡ entry_before table.ends.now i) × (moved ≤ start) }
    ensures { result ≡ plan (get_or dues.now (get_or table.entry.blocks.now i 0) 0) start
        (interval_at (arrays_of table.entry) i) moved }
{
    plan_interval(
        dues[table.blocks[i] as usize],
        start,
        table.ends[i],
        table.adjustments[i],
        moved,
    )
}
