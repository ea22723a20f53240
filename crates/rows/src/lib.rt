// The rows of buckets that move together, written: in runs or one by one.
#![tactic(auto)]

mod span;

ghost use Rattle.std.specs.Prelude.{◌+◌, ◌-◌, ◌*◌, ◌/◌, ◌%◌, ◌^◌, ◌<◌, ◌≤◌, ◌≡◌, [], ◌∷◌, length};
ghost use Rattle.std.proofs.lemmas.List.Edits.{sets};
ghost use Rattle.model.specs.Basics.{from};
ghost use Rattle.table.specs.Placing.{Places};
ghost use Rattle.rows.specs.Spans.{pair_row, run_row, span_rows, with_rows, Steps, Turned, Runs};

use model::given::Slot;
pub use span::Span;
use table::{Placing, slot_of};

// A block's turn through its bins: the place of its next bucket as a pair, the bin in the low 32 bits and the position in the
// high ones, and how many bins are left from that bin on.
#[derive(Clone, Copy)]
pub struct Turn {
    pub place: u64,
    pub left: u32,
}

// One in the high 32 bits of a pair.
const HIGH: u64 = 4294967296;

// Blocks of so many bins and more are wide: their rows are written in runs.
const WIDE: u32 = 8;

// The slot that a pair holds.
fn unpacked(pair: u64) -> Slot
    ensures { result ≡ record { bin = pair % 2 ^ 32; position = pair / 2 ^ 32 } }
{
    Slot {
        bin: (pair % HIGH) as u32,
        position: (pair / HIGH) as u32,
    }
}

// The slot of the next rank, in a block whose bins go from `first` to `last`: the next bin, and past the last one the first, a
// position higher.
fn next_slot(first: u32, last: u32, slot: Slot) -> Slot
    requires { slot.position + 1 < 2 ^ 32 }
    ensures { Steps first last slot result }
{
    if slot.bin < last {
        return Slot {
            bin: slot.bin + 1,
            ..slot
        };
    }
    Slot {
        bin: first,
        position: slot.position + 1,
    }
}

// One row, from entry `at` on: a bucket, its old slot and its new one.
fn write_row(rows: &mut [u32], at: usize, bucket: u32, old: Slot, new: Slot)
    requires { at + 5 ≤ length rows.old }
    ensures { rows.new ≡ sets rows.old at (bucket ∷ old.bin ∷ old.position ∷ new.bin ∷ new.position ∷ []) }
{
    rows[at] = bucket;
    rows[at + 1] = old.bin;
    rows[at + 2] = old.position;
    rows[at + 3] = new.bin;
    rows[at + 4] = new.position;
}

// A row from its two places as pairs.
fn write_places(rows: &mut [u32], at: usize, bucket: u32, here: u64, there: u64)
    requires { at + 5 ≤ length rows.old }
    ensures { rows.new ≡ sets rows.old at (pair_row bucket here there) }
{
    write_row(rows, at, bucket, unpacked(here), unpacked(there))
}

// A run: the rows of `count` buckets from `bucket` on, the first of which has the places `old` and `new`, from row number `at` on.
// From row to row both bins are one more, and both positions stay. The loop writes two rows a turn, after one by itself where
// their number is odd.
fn write_run(old: u64, new: u64, bucket: u32, count: u32, at: usize, rows: &mut [u32])
    requires count_bound { (bucket + count < 2 ^ 32) × (old + count < 2 ^ 64) × (new + count < 2 ^ 64) }
    requires count_in_bounds { 5 * (at + count) ≤ length rows.old }
    ensures { rows.new ≡ with_rows at (from (run_row bucket old new) bucket count) rows.old }
{
    let mut start = bucket;
    let mut here = old;
    let mut there = new;
    let mut entry = 5 * at;
    if count % 2 == 1 {
        write_places(rows, entry, start, here, there);
        start += 1;
        here += 1;
        there += 1;
        entry += 5;
    }
    for pair in 0..count / 2 {
        let x = start + 2 * pair;
        write_places(rows, entry, x, here, there);
        write_places(rows, entry + 5, x + 1, here + 1, there + 1);
        here += 2;
        there += 2;
        entry += 10;
    }
}

// The turn of a bucket, from its slot.
fn turn_of(placing: Placing, bucket: u32) -> Turn
    requires { Places placing bucket }
    ensures { Turned placing.first placing.bins (bucket - placing.adjustment) result }
{
    let slot = slot_of(placing, bucket);
    Turn {
        place: slot.bin as u64 + slot.position as u64 * HIGH,
        left: placing.first + placing.bins - slot.bin,
    }
}

// The turn after a run of so many buckets, at most as many as it has bins left, in a block of `bins` bins.
fn after_run(bins: u32, turn: Turn, run: u32) -> Turn
    requires { (run ≤ turn.left) × (turn.place + run + 2 ^ 32 < 2 ^ 64) }
    ensures { Runs bins run turn result }
{
    let place = turn.place + run as u64;
    if run < turn.left {
        return Turn {
            place,
            left: turn.left - run,
        };
    }
    Turn {
        place: place + HIGH - bins as u64,
        left: bins,
    }
}

// The rows of a span, from row number `at` on: run by run, each up to the sooner of the two blocks' last bins.
fn write_runs(span: Span, at: usize, rows: &mut [u32])
    requires { 5 * (at + (span.end - span.bucket)) ≤ length rows.old }
    ensures { rows.new ≡ with_rows at (span_rows span) rows.old }
{
    let mut here = turn_of(span.old, span.bucket);
    let mut there = turn_of(span.new, span.bucket);
    let mut x = span.bucket;
    let mut left = span.end - span.bucket;
    let mut row = at;
    while left > 0 {
        let run = left.min(here.left.min(there.left));
        write_run(here.place, there.place, x, run, row, rows);
        here = after_run(span.old.bins, here, run);
        there = after_run(span.new.bins, there, run);
        x += run;
        left -= run;
        row += run as usize;
    }
}

// The rows of a span, from row number `at` on: by slots that step from row to row.
fn write_slots(span: Span, at: usize, rows: &mut [u32])
    requires { 5 * (at + (span.end - span.bucket)) ≤ length rows.old }
    ensures { rows.new ≡ with_rows at (span_rows span) rows.old }
{
    let old_last = span.old.first + span.old.bins - 1;
    let new_last = span.new.first + span.new.bins - 1;
    let mut here = slot_of(span.old, span.bucket);
    let mut there = slot_of(span.new, span.bucket);
    let mut entry = 5 * at;
    for x in span.bucket..span.end {
        write_row(rows, entry, x, here, there);
        here = next_slot(span.old.first, old_last, here);
        there = next_slot(span.new.first, new_last, there);
        entry += 5;
    }
}

// The rows of a span, from row number `at` on: in runs where both blocks are wide. Past the first row nothing is divided.
pub fn write_span(span: Span, at: usize, rows: &mut [u32])
    requires { 5 * (at + (span.end - span.bucket)) ≤ length rows.old }
    ensures { rows.new ≡ with_rows at (span_rows span) rows.old }
{
    if span.old.bins.min(span.new.bins) >= WIDE {
        write_runs(span, at, rows)
    } else {
        write_slots(span, at, rows)
    }
}
