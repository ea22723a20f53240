// The places of a list of buckets in a formed table: one walk of its intervals.
#![tactic(auto)]

mod placer;

ghost use Rattle.std.specs.Prelude.{ℕ, ◌+◌, ◌-◌, ◌*◌, ◌<◌, ◌≤◌, ◌≡◌, false, length, get_or, leb, count_by};
ghost use Rattle.std.proofs.lemmas.List.Edits.{sets};
ghost use Rattle.model.specs.Table.{over};
ghost use Rattle.model.specs.Place.{places};
ghost use Rattle.model.specs.Refusal.{first, falls as falls_in};
ghost use Rattle.model.specs.Results.{refusal_of};
ghost use Rattle.model.specs.Calls.{answer, places_tests};
ghost use Rattle.lookup.specs.Search.{Among, Ends};
ghost use Rattle.table.specs.Formed.{table_of};
ghost use Rattle.table.specs.Placing.{Places};
ghost use Rattle.batch.specs.Slots.{slot_pair, Placeable, Placed, Stops};

use model::refusal::Refusal;
use placer::Placer;
use table::FormedTable;

// 32: a bucket smaller than the one before it. No branch on what is read, so that the compiler makes vector code of it.
fn falls(buckets: &[u32]) -> bool
    requires { 1 ≤ length buckets.now }
    ensures { result ≡ falls_in buckets.now }
{
    let mut rise = true;
    for next in 1..buckets.len() {
        rise = rise & (buckets[next - 1] <= buckets[next]);
    }
    !rise
}

// How many of the ends a bucket is past. The compiler makes no branch of what is read.
fn count_past(ends: &[u32], bucket: u32) -> usize
    ensures { result ≡ count_by (λ end. leb end bucket) ends.now }
{
    let mut count: usize = 0;
    for end in ends {
        if *end <= bucket {
            count += 1;
        }
    }
    count
}

// So many intervals are passed over at a time.
const STEP: usize = 8;

// The place of a bucket's interval, which of those with these ends is that at `from` or a later one.
fn interval_from(ends: &[u32], from: usize, bucket: u32) -> usize
    requires { Ends ends.now (length ends.now) × Among ends.now (length ends.now) bucket from (length ends.now - from) }
    ensures { (from ≤ result) × Among ends.now (length ends.now) bucket result 1 }
{
    let mut i = from;
    while i + STEP < ends.len() {
        if bucket < ends[i + STEP - 1] {
            return i + count_past(&ends[i..i + STEP - 1], bucket);
        }
        i += STEP;
    }
    i + count_past(&ends[i..ends.len() - 1], bucket)
}

// Writes the place of a bucket as that of number i.
fn write_place(placer: Placer, bucket: u32, i: usize, out: &mut [u32])
    requires places { Places placer.placing bucket }
    requires i_in_bounds { 2 * i + 2 ≤ length out.old }
    ensures { out.new ≡ sets out.old (2 * i) (slot_pair placer.placing bucket) }
{
    let slot = placer.slot(bucket);
    out[2 * i] = slot.bin;
    out[2 * i + 1] = slot.position;
}

// Writes the place of bucket number i.
fn write_bucket(placer: Placer, buckets: &[u32], i: usize, out: &mut [u32])
    requires { Placeable placer.placing buckets.now i out.old × (i < length buckets.now) }
    ensures { out.new ≡ sets out.old (2 * i) (slot_pair placer.placing (get_or buckets.now i 0)) }
{
    write_place(placer, buckets[i], i, out)
}

// Writes the places of the buckets from number `from` on, four at a time, as long as four are below `end`. Answers the number of
// the first that is left.
fn write_fours(placer: Placer, end: u32, buckets: &[u32], from: usize, out: &mut [u32]) -> usize
    requires { Placeable placer.placing buckets.now from out.old × (from ≤ length buckets.now) }
    ensures { Placed placer.placing end buckets.now from result out.old out.new }
{
    let mut i = from;
    while i + 3 < buckets.len() {
        if end <= buckets[i + 3] {
            return i;
        }
        write_bucket(placer, buckets, i, out);
        write_bucket(placer, buckets, i + 1, out);
        write_bucket(placer, buckets, i + 2, out);
        write_bucket(placer, buckets, i + 3, out);
        i += 4;
    }
    i
}

// The same one at a time, as long as one is below `end`. The compiler makes slower code of a `for` over the numbers here.
fn write_ones(placer: Placer, end: u32, buckets: &[u32], from: usize, out: &mut [u32]) -> usize
    requires { Placeable placer.placing buckets.now from out.old × (from ≤ length buckets.now) }
    ensures { Placed placer.placing end buckets.now from result out.old out.new
        × Stops end buckets.now result }
{
    let mut i = from;
    while i < buckets.len() {
        let bucket = buckets[i];
        if end <= bucket {
            return i;
        }
        write_place(placer, bucket, i, out);
        i += 1;
    }
    i
}

// Both: the places of all buckets from number `from` on that are below `end`.
fn write_interval(placer: Placer, end: u32, buckets: &[u32], from: usize, out: &mut [u32]) -> usize
    requires { Placeable placer.placing buckets.now from out.old × (from ≤ length buckets.now) }
    ensures { Placed placer.placing end buckets.now from result out.old out.new
        × Stops end buckets.now result }
{
    let left = write_fours(placer, end, buckets, from, out);
    write_ones(placer, end, buckets, left, out)
}

// Writes the places of buckets that do not fall and are below B. A bucket lies in the interval of the one before it or in a later
// one, so the walk never goes back.
fn write_places(table: FormedTable, buckets: &[u32], out: &mut [u32])
    requires buckets_value { (falls_in buckets.now ≡ false) × ((i : ℕ) → i < length buckets.now → get_or buckets.now i 0 < table.header.buckets) }
    requires buckets_in_bounds { 2 * length buckets.now ≤ length out.old }
    ensures { out.new ≡ over (places (table_of table.entry) buckets.now) out.old }
{
    let ends = &table.ends[..table.header.interval_count as usize];
    let mut interval = 0;
    let mut placed = 0;
    while placed < buckets.len() {
        interval = interval_from(ends, interval, buckets[placed]);
        let placer = Placer::new(table.placing(interval));
        placed = write_interval(placer, ends[interval], buckets, placed, out);
    }
}

// Writes the places of a list of buckets, or answers refusal 32 or 6. In a list that does not fall the last bucket is the largest.
pub fn placed_each(table: FormedTable, buckets: &[u32], out: &mut [u32]) -> Result<(), Refusal>
    requires { 2 * length buckets.now ≤ length out.old }
    ensures value { refusal_of result ≡ first (places_tests (table_of table.entry) buckets.now) }
    ensures out_left { out.new ≡ answer (refusal_of result) (over (places (table_of table.entry) buckets.now) out.old) out.old }
{
    let [.., last] = buckets else {
        return Ok(());
    };
    if falls(buckets) {
        return Err(Refusal::Falls);
    }
    if table.header.buckets <= *last {
        return Err(Refusal::BucketPast);
    }
    write_places(table, buckets, out);
    Ok(())
}
