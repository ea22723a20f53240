// The rack sheet: document 02, S-4. A line is the two fields of an interval, its first bucket and its last, and the three of its
// block with a line feed, here called the line's head and its tail.
#![tactic(auto)]

ghost use Rattle.std.specs.Prelude.{◌≡◌, [], ◌+◌, ◌≤◌, ◌<◌, length, get_or, take, drop};
ghost use Rattle.std.proofs.lemmas.List.Edits.{sets};
ghost use Rattle.model.specs.Basics.{before as entry_before};
ghost use Rattle.model.specs.Lent.{TopsFormed, SpansFormed};
ghost use Rattle.model.specs.Limits.{max_buckets, max_bins};
ghost use Rattle.model.specs.Refusal.{first};
ghost use Rattle.model.specs.Results.{sheet_told};
ghost use Rattle.model.specs.Table.{arrays, table, over};
ghost use Rattle.model.specs.Sheet.{sheet as sheet_of, sheet_length};
ghost use Rattle.model.specs.Calls.{sheet_tests, sheet_answer, sheet_after};
ghost use Rattle.fields.specs.Parts.{HoldsPairs};
ghost use Rattle.sheet.specs.Lines.{head_of, tail_of, tails_of};

use fields::{copy_field, put_field, put_pairs};
use model::refusal::Refusal;
use model::table::Header;
use table::before;

// The bytes of a line and of its head.
const LINE: usize = 51;

const HEAD: usize = 20;

// In a table of tails each has a blank before it, so that two moves of sixteen bytes copy it; and the tails of the most blocks.
const TAIL: usize = 32;

const TAILS: usize = 2_080;

// All pairs of digits.
const PAIRS: usize = 200;

// For so many intervals it pays to fill a table of pairs, and to write each block's tail once.
const MANY: u32 = 128;

// The head of a line.
fn put_head(start: u32, end: u32, out: &mut [u8], at: usize)
    requires { (start < end) × (end ≤ max_buckets) × (at + 20 ≤ length out.old) }
    ensures { out.new ≡ sets out.old at (head_of start end) }
{
    put_field(start, out, at);
    put_field(end - 1, out, at + 10);
}

// The same by a table of all pairs of digits.
fn copy_head(pairs: &[u8], start: u32, end: u32, out: &mut [u8], at: usize)
    requires pairs { HoldsPairs pairs.now }
    requires room { (start < end) × (at + 20 ≤ length out.old) }
    ensures { out.new ≡ sets out.old at (head_of start end) }
{
    copy_field(pairs, start, out, at);
    copy_field(pairs, end - 1, out, at + 10);
}

// The tail of a line of a block.
fn put_tail(tops: &[u32], block: u32, out: &mut [u8], at: usize)
    requires tops { (block < length tops.now) × (block < max_bins) × (entry_before tops.now block ≤ get_or tops.now block 0) ×
        (get_or tops.now block 0 ≤ max_bins) }
    requires room { at + 31 ≤ length out.old }
    ensures { out.new ≡ sets out.old at (tail_of tops.now block) }
{
    let first = before(tops, block as usize);
    put_field(block, out, at);
    put_field(first, out, at + 10);
    put_field(tops[block as usize] - first, out, at + 20);
    out[at + 30] = b'\n';
}

// A tail that is written already, with the blank before it.
fn copy_tail(tails: &[u8], from: usize, out: &mut [u8], at: usize)
    requires { (from + 32 ≤ length tails.now) × (at + 32 ≤ length out.old) }
    ensures { out.new ≡ sets out.old at (take 32 (drop from tails.now)) }
{
    out[at..at + TAIL].copy_from_slice(&tails[from..from + TAIL]);
}

// The tails of all blocks, each with a blank before it.
fn write_tails(h: Header, tops: &[u32], out: &mut [u8])
    requires tops { TopsFormed h tops.now }
    requires room { 2_080 ≤ length out.old }
    ensures { out.new ≡ sets out.old 0 (tails_of tops.now h.block_count) }
{
    for j in 0..h.block_count {
        out[TAIL * j as usize] = b' ';
        put_tail(tops, j, out, TAIL * j as usize + 1);
    }
}

// The sheet of few intervals, each part of a line by itself.
fn write_few(h: Header, tops: &[u32], ends: &[u32], blocks: &[u32], out: &mut [u8])
    requires formed { SpansFormed h tops.now ends.now blocks.now }
    requires room { sheet_length h.interval_count ≤ length out.old }
    ensures { out.new ≡ over (sheet_of (table h (arrays tops.now ends.now blocks.now []))) out.old }
{
    let count = h.interval_count as usize;
    let mut start: u32 = 0;
    for i in 0..count {
        let end = ends[i];
        put_head(start, end, out, LINE * i);
        put_tail(tops, blocks[i], out, LINE * i + HEAD);
        start = end;
    }
}

// The sheet of many, with pairs of digits and tails copied: the tail first, since the head covers the blank before it.
fn write_many(h: Header, tops: &[u32], ends: &[u32], blocks: &[u32], out: &mut [u8])
    requires formed { SpansFormed h tops.now ends.now blocks.now }
    requires room { sheet_length h.interval_count ≤ length out.old }
    ensures { out.new ≡ over (sheet_of (table h (arrays tops.now ends.now blocks.now []))) out.old }
{
    let mut pairs = [0u8; PAIRS];
    put_pairs(&mut pairs);
    let mut tails = [0u8; TAILS];
    write_tails(h, tops, &mut tails);
    let lines = h.interval_count as usize;
    let mut start: u32 = 0;
    for i in 0..lines {
        let end = ends[i];
        copy_tail(&tails, TAIL * blocks[i] as usize, out, LINE * i + HEAD - 1);
        copy_head(&pairs, start, end, out, LINE * i);
        start = end;
    }
}

// The sheet, over the first bytes of `out`.
fn write_sheet(h: Header, tops: &[u32], ends: &[u32], blocks: &[u32], out: &mut [u8])
    requires formed { SpansFormed h tops.now ends.now blocks.now }
    requires room { sheet_length h.interval_count ≤ length out.old }
    ensures { out.new ≡ over (sheet_of (table h (arrays tops.now ends.now blocks.now []))) out.old }
{
    if h.interval_count < MANY {
        write_few(h, tops, ends, blocks, out);
        return;
    }
    write_many(h, tops, ends, blocks, out);
}

// The sheet into a buffer, or 34 where that is shorter than a line an interval.
pub fn printed(
    h: Header,
    tops: &[u32],
    ends: &[u32],
    blocks: &[u32],
    buffer: &mut [u8],
) -> Result<u32, Refusal>
    requires { SpansFormed h tops.now ends.now blocks.now }
    ensures reply { sheet_told result ≡ sheet_answer (first (sheet_tests h buffer.old)) h }
    ensures bytes { buffer.new ≡ sheet_after (first (sheet_tests h buffer.old))
        (table h (arrays tops.now ends.now blocks.now [])) buffer.old }
{
    let length = LINE * h.interval_count as usize;
    if buffer.len() < length {
        return Err(Refusal::SheetShort);
    }
    write_sheet(h, tops, ends, blocks, buffer);
    Ok(length as u32)
}
