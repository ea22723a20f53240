// A lent table that passes rules 11 to 14 of document 01, and the walk of its intervals for rules 15 and 16.
ghost use Rattle.std.specs.Prelude.{◌≤◌, length};
ghost use Rattle.soundness.specs.Passed.{TopsRight, IntervalsRight};

use crate::holdings_wrong;
use model::limits::BLOCKS;
use model::refusal::Refusal;
use model::table::Header;
use std::num::wrapping_sub_u32;

#[derive(Clone, Copy)]
pub struct LaidOut<'a> {
    pub header: Header,
    pub tops: &'a [u32],
    pub ends: &'a [u32],
    pub blocks: &'a [u32],
    pub adjustments: &'a [u32],
    pub ghost tops_right: { TopsRight header tops.now },
    pub ghost intervals_right: { IntervalsRight header ends.now blocks.now },
    pub ghost adjustments_long: { header.interval_count ≤ length adjustments.now },
}

impl<'a> LaidOut<'a> {
    ghost use Rattle.std.specs.Prelude.{◌≡◌, ◌<◌, true, [], ◌∷◌, replicate};
    ghost use Rattle.model.specs.Limits.{max_blocks};
    ghost use Rattle.model.specs.Table.{arrays};
    ghost use Rattle.model.specs.Refusal.{first, holdings_wrong};
    ghost use Rattle.model.specs.Results.{number};
    ghost use Rattle.soundness.specs.Passed.{Held, Walked, Walks, Meets};

    // Meets interval i, which begins at `start`, in the walk of rule 16. Where its adjustment is right, its block holds before it
    // its start less its adjustment, and then its end less its adjustment: so no turn of the walk waits for the sum of the turn
    // before it. The answer is 0 where the block holds what it is to hold.
    fn met(self, i: usize, start: u32, sums: &mut [u32; BLOCKS]) -> u32
        requires { i < self.header.interval_count }
        ensures { Meets self.entry.ends.now self.entry.blocks.now self.entry.adjustments.now i start sums.old result sums.new }
    {
        let block = self.blocks[i] as usize;
        let adjustment = self.adjustments[i];
        let right = wrapping_sub_u32(start, adjustment);
        let then = wrapping_sub_u32(self.ends[i], adjustment);
        let difference = sums[block] ^ right;
        sums[block] = then;
        difference
    }

    // Walks the intervals from `first` on, and says whether the table breaks 16: a wrong adjustment. Where it does not, `sums` is
    // what each block holds.
    pub fn walked_from(
        self,
        first: usize,
        mut start: u32,
        mut bad: u32,
        sums: &mut [u32; BLOCKS],
    ) -> bool
        requires { (first ≤ self.header.interval_count) × Walked self.header (arrays [] self.ends.now self.blocks.now self.adjustments.now) first start sums.old bad }
        ensures { Walks self.entry.header self.entry.ends.now self.entry.blocks.now self.entry.adjustments.now result sums.new }
    {
        for i in first..self.header.interval_count as usize {
            bad = bad | self.met(i, start, sums);
            start = self.ends[i];
        }
        bad != 0
    }

    // Walks all intervals, four a turn as long as there are four: their loads and stores then overlap.
    pub fn walked(self, sums: &mut [u32; BLOCKS]) -> bool
        requires { sums.old ≡ replicate max_blocks 0 }
        ensures { Walks self.entry.header self.entry.ends.now self.entry.blocks.now self.entry.adjustments.now result sums.new }
    {
        let mut bad: u32 = 0;
        let mut start: u32 = 0;
        let mut i: usize = 0;
        while i + 3 < self.header.interval_count as usize {
            bad = bad | self.met(i, start, sums);
            bad = bad | self.met(i + 1, self.ends[i], sums);
            bad = bad | self.met(i + 2, self.ends[i + 1], sums);
            bad = bad | self.met(i + 3, self.ends[i + 2], sums);
            start = self.ends[i + 3];
            i += 4;
        }
        self.walked_from(i, start, bad, sums)
    }

    // How many buckets each block holds, by sums.
    fn summed(self) -> [u32; BLOCKS]
        ensures { Held self.entry.header self.entry.ends.now self.entry.blocks.now result }
    {
        let mut sums = [0u32; BLOCKS];
        let mut start: u32 = 0;
        for i in 0..self.header.interval_count as usize {
            let end = self.ends[i];
            let block = self.blocks[i] as usize;
            sums[block] += end - start;
            start = end;
        }
        sums
    }

    // 15, or 16, of a table with a wrong adjustment.
    pub fn adjustment_refusal(self) -> Refusal
        ensures { number result ≡ first ((15, holdings_wrong self.entry.header (arrays self.entry.tops.now self.entry.ends.now self.entry.blocks.now [])) ∷ (16, true) ∷ []) }
    {
        let held = self.summed();
        if holdings_wrong(self.header, self.tops, &held) {
            return Refusal::HoldingsWrong;
        }
        Refusal::AdjustmentsWrong
    }
}
