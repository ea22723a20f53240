// What every layer reads of a table: the entry before a place, the number of bins, what bins are due, and how the buckets of an
// interval are placed; and the copying of an array.
#![tactic(auto)]

mod formed;

ghost use Rattle.std.specs.Prelude.{ℕ, ◌+◌, ◌*◌, ◌^◌, min, ◌≤◌, ◌<◌, List, ◌≡◌, length, get_or, take};
ghost use Rattle.model.specs.Lent.{TopsFormed, lent};
ghost use Rattle.model.specs.Basics.{before as entry_before};
ghost use Rattle.model.specs.Table.{bins as bins_of, over};
ghost use Rattle.reciprocal.specs.Divides.{Divides};
ghost use Rattle.table.specs.Placing.{placing_of, Places, slot_of};

pub use formed::FormedTable;
use model::given::Slot;
use model::limits::LABEL;
use model::table::Header;
use reciprocal::{Reciprocal, quotient};

// How the buckets of an interval are placed: the first bin and the number of bins of its block, and its rank adjustment.
#[derive(Clone, Copy)]
pub struct Placing {
    pub first: u32,
    pub bins: u32,
    pub adjustment: u32,
}

// The entry before place i of xs; 0 stands before the first. The start of interval i, or the first bin of block i.
pub fn before(xs: &[u32], i: usize) -> u32
    requires { i ≤ length xs.now }
    ensures { result ≡ entry_before xs.now i }
{
    if i == 0 { 0 } else { xs[i - 1] }
}

// n: the last top.
pub fn bin_count(h: Header, tops: &[u32]) -> u32
    requires { TopsFormed h tops.now }
    ensures { (ends blocks adjustments : List ℕ) → result ≡ bins_of (lent h tops.now ends blocks adjustments) }
{
    before(tops, h.block_count as usize)
}

// What the bins below m are due, from the quotient and the remainder of B by n.
pub fn due_below(quotient: u32, remainder: u32, m: u32) -> u32
    requires { m * quotient + min m remainder < 2 ^ 32 }
    ensures { result ≡ m * quotient + min m remainder }
{
    let whole = m * quotient;
    if m < remainder {
        return whole + m;
    }
    whole + remainder
}

// How the buckets of an interval of the given block and adjustment are placed.
pub fn placing_of(tops: &[u32], block: usize, adjustment: u32) -> Placing
    requires { (block < length tops.now) × (entry_before tops.now block ≤ get_or tops.now block 0) }
    ensures value { result ≡ placing_of tops.now block adjustment }
    ensures bins_bound { result.first + result.bins < 2 ^ 32 }
{
    let first = before(tops, block);
    Placing {
        first,
        bins: tops[block] - first,
        adjustment,
    }
}

// The slot of a bucket: document 01's drawer and position of its rank, past the label.
pub fn slot_of(placing: Placing, bucket: u32) -> Slot
    requires { Places placing bucket }
    ensures { result ≡ slot_of placing bucket }
{
    let rank = bucket - placing.adjustment;
    Slot {
        bin: placing.first + rank % placing.bins,
        position: rank / placing.bins + LABEL,
    }
}

// The same by the reciprocal of the bins, for many buckets of one interval.
pub fn slot_by(placing: Placing, by: Reciprocal, bucket: u32) -> Slot
    requires { (Places placing bucket) × Divides by placing.bins }
    ensures { result ≡ slot_of placing bucket }
{
    let rank = bucket - placing.adjustment;
    let turns = quotient(rank, by);
    Slot {
        bin: placing.first + (rank - turns * placing.bins),
        position: turns + LABEL,
    }
}

// Copies the first `count` entries of an array over those of another.
pub fn copy(from: &[u32], count: usize, to: &mut [u32])
    requires { (count ≤ length from.now) × (count ≤ length to.old) }
    ensures { to.new ≡ over (take count from.now) to.old }
{
    to[..count].copy_from_slice(&from[..count]);
}
