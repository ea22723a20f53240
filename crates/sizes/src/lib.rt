// The sizes and the capacity asked for, the room for tables, and the initial table.
#![tactic(auto)]

ghost use Rattle.std.specs.Prelude.{◌≡◌, false, [], ◌∷◌, ℕ, ◌≤◌};
ghost use Rattle.model.specs.Table.{written, sizes, arrays};
ghost use Rattle.model.specs.Refusal.{first, outside, overfills, room_short};
ghost use Rattle.model.specs.Initial.{initial};
ghost use Rattle.model.specs.Calls.{size_tests, fresh_tests, room_reply};
ghost use Rattle.model.specs.Results.{refusal_of, room_told};

use model::limits::{BLOCKS, INTERVALS, LABEL, MAX_BINS, MAX_BUCKETS, MAX_EXPANSIONS};
use model::refusal::Refusal;

// 21: room for a new table below 65 tops or below 2,081 of any interval array.
pub fn room_short(tops: &[u32], ends: &[u32], blocks: &[u32], adjustments: &[u32]) -> bool
    ensures { result ≡ room_short (arrays tops.now ends.now blocks.now adjustments.now) }
{
    if tops.len() < BLOCKS {
        return true;
    }
    if ends.len() < INTERVALS {
        return true;
    }
    if blocks.len() < INTERVALS {
        return true;
    }
    adjustments.len() < INTERVALS
}

// The intervals to set aside for a number of expansions: m(m + 1) / 2 + 1. 9: more than 64 expansions.
pub fn room(expansions: u32) -> Result<u32, Refusal>
    ensures { room_told result ≡ room_reply expansions }
{
    if MAX_EXPANSIONS < expansions {
        return Err(Refusal::OrderPast);
    }
    Ok(expansions * (expansions + 1) / 2 + 1)
}

// Whether x is 0 or above its limit.
pub fn is_outside(limit: u32, x: u32) -> bool
    ensures { result ≡ outside limit x }
{
    x == 0 || limit < x
}

// 1: a size is 0 or above its limit. 2: n > B.
pub fn sizes_allowed(buckets: u32, bins: u32) -> Result<(), Refusal>
    ensures { refusal_of result ≡ first (size_tests (sizes buckets bins)) }
{
    if is_outside(MAX_BUCKETS, buckets) || is_outside(MAX_BINS, bins) {
        return Err(Refusal::SizeOutside);
    }
    if buckets < bins {
        return Err(Refusal::FewBuckets);
    }
    Ok(())
}

// Whether some bin of a map of the given sizes would be overfull: what it is due and its label have more positions than the
// capacity. The first bin is due the most, B / n rounded up, so it is asked whether all bins have fewer than all buckets and labels.
pub fn overfull(capacity: u32, buckets: u32, bins: u32) -> bool
    requires { 1 ≤ bins }
    ensures { result ≡ overfills capacity (sizes buckets bins) }
{
    (capacity as u64) * (bins as u64) < (buckets as u64) + (LABEL as u64) * (bins as u64)
}

// 31: some bin of the map asked for would be overfull.
pub fn capacity_allowed(capacity: u32, buckets: u32, bins: u32) -> Result<(), Refusal>
    requires { 1 ≤ bins }
    ensures { refusal_of result ≡ first ((31, overfills capacity (sizes buckets bins)) ∷ []) }
{
    if overfull(capacity, buckets, bins) {
        return Err(Refusal::Overfills);
    }
    Ok(())
}

// Of a fresh map, 1, 2 and 31.
pub fn fresh_allowed(buckets: u32, bins: u32, capacity: u32) -> Result<(), Refusal>
    ensures { refusal_of result ≡ first (fresh_tests (sizes buckets bins) capacity) }
{
    sizes_allowed(buckets, bins)?;
    capacity_allowed(capacity, buckets, bins)
}

// The initial table: one block, one interval.
pub fn write_initial(
    buckets: u32,
    bins: u32,
    tops: &mut [u32],
    ends: &mut [u32],
    blocks: &mut [u32],
    adjustments: &mut [u32],
)
    requires { room_short (arrays tops.old ends.old blocks.old adjustments.old) ≡ false }
    ensures { (capacity : ℕ) → arrays tops.new ends.new blocks.new adjustments.new ≡ written (initial (sizes buckets bins) capacity) (arrays tops.old ends.old blocks.old adjustments.old) }
{
    tops[0] = bins;
    ends[0] = buckets;
    blocks[0] = 0;
    adjustments[0] = 0;
}
