// What reads a formed table. Nothing here checks it again.
#![tactic(auto)]

ghost use Rattle.std.specs.Prelude.{ℕ, ◌+◌, ◌^◌, ◌<◌, ◌≤◌, ◌⊎◌, List, ◌≡◌, length, get_or};
ghost use Rattle.model.specs.Lent.{lent, TopsFormed};
ghost use Rattle.model.specs.Limits.{max_buckets, label};
ghost use Rattle.model.specs.Table.{arrays, bins as bins_of, first_bin};
ghost use Rattle.model.specs.Place.{bin_of, position_of};
ghost use Rattle.model.specs.Search.{located, place_at, block_of_bin, holder, found_at};
ghost use Rattle.model.specs.Refusal.{first};
ghost use Rattle.model.specs.Results.{place_told, find_told, bin_size_told};
ghost use Rattle.model.specs.Sound.{Formed};
ghost use Rattle.model.specs.Calls.{find_answer, find_tests, bin_size_answer, bin_size_tests};
ghost use Rattle.table.specs.Formed.{table_of};
ghost use Rattle.lookup.specs.Search.{Among, Ends};

use model::given::Slot;
use model::limits::LABEL;
use model::refusal::Refusal;
use model::search::Located;
use model::table::Header;
use table::{FormedTable, before, bin_count, placing_of, slot_of};

// Intervals of a table: `count` of them from place `low` on.
#[derive(Clone, Copy)]
struct Span {
    low: usize,
    count: usize,
}

// 1 where a bucket is past an end, and 0 where it is not: by arithmetic, so that the search has no branch on it.
fn past(end: u32, bucket: u32) -> usize
    ensures { ((end ≤ bucket) × (result ≡ 1)) ⊎ ((bucket < end) × (result ≡ 0)) }
{
    ((bucket as u64 + 4_294_967_296 - end as u64) / 4_294_967_296) as usize
}

// At most three intervals of which the bucket's is one. A turn leaves a quarter of them: it reads three ends that do not wait for
// each other, so the search takes half the turns of one that halves.
fn narrow(ends: &[u32], bucket: u32) -> Span
    requires { Among ends.now (length ends.now) bucket 0 (length ends.now) × Ends ends.now (length ends.now) }
    ensures { (result.count ≤ 3) × Among ends.now (length ends.now) bucket result.low result.count }
{
    let mut low = 0;
    let mut count = ends.len();
    while 3 < count {
        let quarter = count / 4;
        count -= 3 * quarter;
        let first = past(ends[low + quarter - 1], bucket);
        let second = past(ends[low + 2 * quarter - 1], bucket);
        let third = past(ends[low + 3 * quarter - 1], bucket);
        low += quarter * (first + second + third);
    }
    Span { low, count }
}

// The interval of a bucket, and the bucket's rank.
fn locate(table: FormedTable, bucket: u32) -> Option<Located>
    ensures { result ≡ located (table_of table.entry) bucket }
{
    if table.header.buckets <= bucket {
        return None;
    }
    let ends = &table.ends[..table.header.interval_count as usize];
    let Span { mut low, mut count } = narrow(ends, bucket);
    while 1 < count {
        count -= 1;
        low += past(table.ends[low], bucket);
    }
    Some(Located {
        interval: low,
        rank: bucket - table.adjustments[low],
    })
}

// The place of a rank in a block.
fn place_in(tops: &[u32], block: usize, rank: u32) -> Slot
    requires { (block < length tops.now) × (first_bin tops.now block < get_or tops.now block 0) × (rank ≤ max_buckets) }
    ensures { result ≡ record { bin = bin_of tops.now block rank; position = position_of tops.now block rank } }
{
    slot_of(placing_of(tops, block, 0), rank)
}

// The bin and position of a bucket, or refusal 6.
pub fn placed(table: FormedTable, bucket: u32) -> Result<Slot, Refusal>
    ensures { place_told result ≡ place_at (table_of table.entry) bucket }
{
    let Some(Located { interval, rank }) = locate(table, bucket) else {
        return Err(Refusal::BucketPast);
    };
    Ok(place_in(table.tops, table.blocks[interval] as usize, rank))
}

// The number of buckets in a bin, or refusal 7. A bin of a formed table has its due size.
pub fn sized(h: Header, tops: &[u32], bin: u32) -> Result<u32, Refusal>
    requires { TopsFormed h tops.now }
    ensures { (ends blocks adjustments : List ℕ) → Formed h (arrays tops.now ends blocks adjustments)
        → bin_size_told result ≡ bin_size_answer (first (bin_size_tests (lent h tops.now ends blocks adjustments) bin))
        (lent h tops.now ends blocks adjustments) bin }
{
    let bins = bin_count(h, tops);
    if bins <= bin {
        return Err(Refusal::NoneThere);
    }
    let share = h.buckets / bins;
    if bin < h.buckets % bins {
        return Ok(share + 1);
    }
    Ok(share)
}

// The block of a bin: the first of the tops past it.
fn block_of_bin(tops: &[u32], bin: u32) -> usize
    ensures { result ≡ block_of_bin tops.now bin }
{
    tops.iter().position(|top| bin < *top).unwrap_or(tops.len())
}

// The first interval of a block whose ranks include the given one, which may be past every bucket's.
fn hold(table: FormedTable, block: u32, rank: u64) -> Option<usize>
    requires { rank + 2 ^ 32 ≤ 2 ^ 64 }
    ensures { result ≡ holder (table_of table.entry).intervals 0 0 block rank }
{
    let count = table.header.interval_count as usize;
    let mut i = 0;
    let mut start = 0;
    loop {
        if count <= i {
            break None;
        }
        let bucket = rank + table.adjustments[i] as u64;
        let end = table.ends[i] as u64;
        if table.blocks[i] == block && start <= bucket && bucket < end {
            break Some(i);
        }
        start = end;
        i += 1;
    }
}

// The bucket at a position of a bin below n, or refusal 7. The position is counted from the label's end.
fn bucket_at(table: FormedTable, bin: u32, past: u32) -> Result<u32, Refusal>
    requires { bin < bins_of (table_of table) }
    ensures { find_told result ≡ found_at (table_of table.entry) bin (past + label) }
{
    let block = block_of_bin(&table.tops[..table.header.block_count as usize], bin);
    let low = before(table.tops, block);
    let rank = past as u64 * (table.tops[block] - low) as u64 + (bin - low) as u64;
    let Some(i) = hold(table, block as u32, rank) else {
        return Err(Refusal::NoneThere);
    };
    Ok((rank + table.adjustments[i] as u64) as u32)
}

// The bucket at a position of a bin, or refusal 7.
pub fn found(table: FormedTable, bin: u32, position: u32) -> Result<u32, Refusal>
    ensures { find_told result ≡ find_answer (first (find_tests (table_of table.entry) bin position)) (table_of table.entry) bin position }
{
    if table.bins() <= bin {
        return Err(Refusal::NoneThere);
    }
    if position < LABEL {
        return Err(Refusal::NoneThere);
    }
    bucket_at(table, bin, position - LABEL)
}
