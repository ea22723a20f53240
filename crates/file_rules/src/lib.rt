// Rules 12 to 15 of a file, judged where it lies, and its adjustments.
#![tactic(auto)]

ghost use Rattle.std.specs.Prelude.{◌≡◌, ◌≤◌, ◌<◌, length, get_or, replicate};
ghost use Rattle.model.specs.Basics.{from};
ghost use Rattle.model.specs.Limits.{max_blocks};
ghost use Rattle.model.specs.Table.{over};
ghost use Rattle.model.specs.Refusal.{ends_wrong, blocks_wrong, adjustment_of};
ghost use Rattle.model.specs.Results.{refusal_of};
ghost use Rattle.soundness.specs.Passed.{IntervalsRight, Held};
ghost use Rattle.file_rules.specs.Judging.{file_arrays, Counted, Completed};

use file_number::number_at;
use model::limits::BLOCKS;
use model::refusal::Refusal;
use model::table::Header;
use soundness::{holdings_wrong, tops_wrong};

// A file that passes rule 11, and the header that it says.
#[derive(Clone, Copy)]
pub struct File<'a> {
    pub bytes: &'a [u8],
    pub header: Header,
    pub ghost counted: { Counted bytes.now header },
}

// What the second of two intervals is adjusted from, by what its block holds before the first: its own start, or the start of the
// first where both are of one block. The compiler makes no branch of it, whose way would be guessed wrong on a file not just seen.
fn origin(block: usize, other: usize, start: u32, middle: u32) -> u32
    ensures { (block ≡ other → result ≡ start) × ((block ≡ other → ⊥) → result ≡ middle) }
{
    if block == other {
        return start;
    }
    middle
}

impl<'a> File<'a> {
    // End i.
    fn end_at(self, i: usize) -> u32
        requires { i < self.header.interval_count }
        ensures { result ≡ get_or (file_arrays self.entry.bytes.now self.entry.header).ends i 0 }
    {
        number_at(self.bytes, 3 + self.header.block_count as usize + i)
    }

    // The block of interval i.
    fn block_at(self, i: usize) -> u32
        requires { i < self.header.interval_count }
        ensures { result ≡ get_or (file_arrays self.entry.bytes.now self.entry.header).blocks i 0 }
    {
        let h = self.header;
        number_at(
            self.bytes,
            3 + h.block_count as usize + h.interval_count as usize + i,
        )
    }

    // 13: ends that don't rise strictly, a first end of 0, or a last end other than B.
    fn ends_wrong(self) -> bool
        ensures { result ≡ ends_wrong self.entry.header (file_arrays self.entry.bytes.now self.entry.header).ends }
    {
        let count = self.header.interval_count as usize;
        let mut rise = 0 < self.end_at(0);
        for i in 1..count {
            rise = rise & (self.end_at(i - 1) < self.end_at(i));
        }
        if !rise {
            return true;
        }
        self.end_at(count - 1) != self.header.buckets
    }

    // 14: an interval's block not below G.
    fn blocks_wrong(self) -> bool
        ensures { result ≡ blocks_wrong self.entry.header (file_arrays self.entry.bytes.now self.entry.header).blocks }
    {
        let mut below = true;
        for i in 0..self.header.interval_count as usize {
            below = below & (self.block_at(i) < self.header.block_count);
        }
        !below
    }

    // Writes the adjustments over the first entries of an array: an interval's start less what its block holds before it. `sums`
    // is then what each block holds. Two intervals a turn, so that adjustments are stored in pairs.
    fn adjust(self, out: &mut [u32], sums: &mut [u32; BLOCKS])
        requires room { (self.header.interval_count ≤ length out.old) × (sums.old ≡ replicate max_blocks 0) }
        requires intervals_right { IntervalsRight self.header (file_arrays self.bytes.now self.header).ends (file_arrays self.bytes.now self.header).blocks }
        ensures held { Held self.entry.header (file_arrays self.entry.bytes.now self.entry.header).ends (file_arrays self.entry.bytes.now self.entry.header).blocks sums.new }
        ensures out_left { out.new ≡ over (from (adjustment_of self.entry.header (file_arrays self.entry.bytes.now self.entry.header)) 0 self.entry.header.interval_count) out.old }
    {
        let count = self.header.interval_count as usize;
        let pairs = count / 2;
        let mut start: u32 = 0;
        for j in 0..pairs {
            let i = 2 * j;
            let middle = self.end_at(i);
            let end = self.end_at(i + 1);
            let block = self.block_at(i) as usize;
            let other = self.block_at(i + 1) as usize;
            let adjustment = start - sums[block];
            let next = origin(block, other, start, middle) - sums[other];
            sums[block] = middle - adjustment;
            sums[other] = end - next;
            out[i] = adjustment;
            out[i + 1] = next;
            start = end;
        }
        let i = 2 * pairs;
        if i == count {
            return;
        }
        let end = self.end_at(i);
        let block = self.block_at(i) as usize;
        let last = start - sums[block];
        sums[block] = end - last;
        out[i] = last;
    }

    // Rules 12 to 15 of the file, in their order. Where they pass, `out` has the adjustments. `tops` are the file's.
    pub fn complete(self, tops: &[u32], out: &mut [u32]) -> Result<(), Refusal>
        requires { (tops.now ≡ (file_arrays self.bytes.now self.header).tops) × (self.header.interval_count ≤ length out.old) }
        ensures { Completed self.entry.header (file_arrays self.entry.bytes.now self.entry.header) out.old (refusal_of result) out.new }
    {
        if tops_wrong(self.header, tops) {
            return Err(Refusal::TopsWrong);
        }
        if self.ends_wrong() {
            return Err(Refusal::EndsWrong);
        }
        if self.blocks_wrong() {
            return Err(Refusal::BlocksWrong);
        }
        let mut sums = [0u32; BLOCKS];
        self.adjust(out, &mut sums);
        if holdings_wrong(self.header, tops, &sums) {
            return Err(Refusal::HoldingsWrong);
        }
        Ok(())
    }
}
