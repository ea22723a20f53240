// The check of a lent table: rules 11 to 16 of document 01, and 30. A rule's function says whether the table breaks it.
#![tactic(auto)]

mod laid_out;
mod lent;

ghost use Rattle.std.specs.Prelude.{◌≡◌, IfOk, ℕ, ◌≤◌, List, [], length};
ghost use Rattle.model.specs.Lent.{TopsFormed};
ghost use Rattle.model.specs.Table.{arrays};
ghost use Rattle.model.specs.Refusal.{rises, header_outside, arrays_short, tops_wrong, ends_wrong, blocks_wrong, holdings_wrong, capacity_wrong, first};
ghost use Rattle.model.specs.Sound.{Formed};
ghost use Rattle.model.specs.Calls.{table_tests};
ghost use Rattle.model.specs.Results.{refusal_of};
ghost use Rattle.soundness.specs.Passed.{TableOf, Counted, rule_tests, alone, TopsRight, Held};

use laid_out::LaidOut;
use lent::Lent;
use model::limits::{BLOCKS, MAX_BINS, MAX_BLOCKS, MAX_BUCKETS, MAX_CAPACITY, MAX_INTERVALS};
use model::refusal::Refusal;
use model::table::Header;
use sizes::{is_outside, overfull};
use table::{FormedTable, bin_count, due_below};

// 11: B, G or k outside its limits.
pub fn header_outside(h: Header) -> bool
    ensures { result ≡ header_outside h }
{
    if is_outside(MAX_BUCKETS, h.buckets) {
        return true;
    }
    if is_outside(MAX_BLOCKS, h.block_count) {
        return true;
    }
    is_outside(MAX_INTERVALS, h.interval_count)
}

// 11: a lent array shorter than its count.
pub fn arrays_short(
    h: Header,
    tops: &[u32],
    ends: &[u32],
    blocks: &[u32],
    adjustments: &[u32],
) -> bool
    ensures { result ≡ arrays_short h (arrays tops.now ends.now blocks.now adjustments.now) }
{
    let intervals = h.interval_count as usize;
    if tops.len() < h.block_count as usize {
        return true;
    }
    if ends.len() < intervals {
        return true;
    }
    if blocks.len() < intervals {
        return true;
    }
    adjustments.len() < intervals
}

// Whether the first n entries rise strictly, and the first of them is not 0.
fn rising(xs: &[u32], n: usize) -> bool
    requires { n ≤ length xs.now }
    ensures { result ≡ rises xs.now n }
{
    if n == 0 {
        return true;
    }
    let mut ok = 0 < xs[0];
    for i in 1..n {
        ok = ok & (xs[i - 1] < xs[i]);
    }
    ok
}

// 12: tops that don't rise strictly, a first top of 0, a last top above its limit or above B.
pub fn tops_wrong(h: Header, tops: &[u32]) -> bool
    requires { (1 ≤ h.block_count) × (h.block_count ≤ length tops.now) }
    ensures { result ≡ tops_wrong h tops.now }
{
    let count = h.block_count as usize;
    if !rising(tops, count) {
        return true;
    }
    let bins = tops[count - 1];
    if MAX_BINS < bins {
        return true;
    }
    h.buckets < bins
}

// 13: ends that don't rise strictly, a first end of 0, or a last end other than B.
fn ends_wrong(h: Header, ends: &[u32]) -> bool
    requires { (1 ≤ h.interval_count) × (h.interval_count ≤ length ends.now) }
    ensures { result ≡ ends_wrong h ends.now }
{
    let count = h.interval_count as usize;
    if !rising(ends, count) {
        return true;
    }
    ends[count - 1] != h.buckets
}

// 14: an interval's block not below G.
fn blocks_wrong(h: Header, blocks: &[u32]) -> bool
    requires { h.interval_count ≤ length blocks.now }
    ensures { result ≡ blocks_wrong h blocks.now }
{
    let mut ok = true;
    for i in 0..h.interval_count as usize {
        ok = ok & (blocks[i] < h.block_count);
    }
    !ok
}

// 15: a block whose intervals hold another number than its due. `sums` is what each block holds.
pub fn holdings_wrong(h: Header, tops: &[u32], sums: &[u32; BLOCKS]) -> bool
    requires { TopsRight h tops.now }
    ensures { (ends blocks : List ℕ) → Held h ends blocks sums.now → result ≡ holdings_wrong h (arrays tops.now ends blocks []) }
{
    let bins = tops[h.block_count as usize - 1];
    let quotient = h.buckets / bins;
    let remainder = h.buckets % bins;
    let mut below: u32 = 0;
    for j in 0..h.block_count as usize {
        let through = due_below(quotient, remainder, tops[j]);
        if sums[j] != through - below {
            return true;
        }
        below = through;
    }
    false
}

// Rules 12 to 16 of a table of one block and one interval that passes 11, in their order. Its counts are constants here, so that
// each rule is a few comparisons.
pub fn judged_alone(
    buckets: u32,
    capacity: u32,
    tops: &[u32],
    ends: &[u32],
    blocks: &[u32],
    adjustments: &[u32],
) -> Result<(), Refusal>
    requires { (Counted (alone buckets capacity) tops.now ends.now blocks.now) × (1 ≤ length adjustments.now) }
    ensures { refusal_of result ≡ first (rule_tests (alone buckets capacity) (arrays tops.now ends.now blocks.now adjustments.now)) }
{
    let header = Header {
        buckets,
        capacity,
        block_count: 1,
        interval_count: 1,
    };
    let lent = Lent {
        header,
        tops,
        ends,
        blocks,
        adjustments,
    };
    lent.layout_allowed()?;
    let laid = LaidOut {
        header,
        tops,
        ends,
        blocks,
        adjustments,
    };
    let mut sums = [0u32; BLOCKS];
    if laid.walked_from(0, 0, 0, &mut sums) {
        return Err(laid.adjustment_refusal());
    }
    if holdings_wrong(header, tops, &sums) {
        return Err(Refusal::HoldingsWrong);
    }
    Ok(())
}

// 30: P is 0 or above its limit, or some bin is overfull. In a map that passes rules 11 to 16 every bin has its due.
pub fn capacity_wrong(h: Header, tops: &[u32]) -> bool
    requires { TopsFormed h tops.now }
    ensures { (ends blocks adjustments : List ℕ) → Formed h (arrays tops.now ends blocks adjustments)
        → result ≡ capacity_wrong h (arrays tops.now ends blocks adjustments) }
{
    if is_outside(MAX_CAPACITY, h.capacity) {
        return true;
    }
    overfull(h.capacity, h.buckets, bin_count(h, tops))
}

// Rules 11 to 16 and 30, in their order. It is compiled once, and `check` into each of its callers: so only this answer comes back
// from a call, and no table.
#[inline(never)]
fn table_allowed(
    header: Header,
    tops: &[u32],
    ends: &[u32],
    blocks: &[u32],
    adjustments: &[u32],
) -> Result<(), Refusal>
    ensures { refusal_of result ≡ first (table_tests header (arrays tops.now ends.now blocks.now adjustments.now)) }
{
    if header_outside(header) || arrays_short(header, tops, ends, blocks, adjustments) {
        return Err(Refusal::HeaderWrong);
    }
    let lent = Lent {
        header,
        tops,
        ends,
        blocks,
        adjustments,
    };
    lent.rules_allowed()?;
    if capacity_wrong(header, tops) {
        return Err(Refusal::CapacityWrong);
    }
    Ok(())
}

// The same, and the table where it passes.
pub fn check<'a>(
    header: Header,
    tops: &'a [u32],
    ends: &'a [u32],
    blocks: &'a [u32],
    adjustments: &'a [u32],
) -> Result<FormedTable<'a>, Refusal>
    ensures refusal { refusal_of result ≡ first (table_tests header (arrays tops.now ends.now blocks.now adjustments.now)) }
    ensures table { IfOk result (λ t. TableOf header tops.now ends.now blocks.now adjustments.now t) }
{
    table_allowed(header, tops, ends, blocks, adjustments)?;
    Ok(FormedTable {
        header,
        tops,
        ends,
        blocks,
        adjustments,
    })
}
