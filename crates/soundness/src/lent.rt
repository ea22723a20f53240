// A lent table that passes rule 11 of document 01, and its rules 12 to 16.
ghost use Rattle.std.specs.Prelude.{◌≤◌, length};
ghost use Rattle.soundness.specs.Passed.{Counted};

use crate::laid_out::LaidOut;
use crate::{blocks_wrong, ends_wrong, holdings_wrong, judged_alone, tops_wrong};
use model::limits::BLOCKS;
use model::refusal::Refusal;
use model::table::Header;

#[derive(Clone, Copy)]
pub struct Lent<'a> {
    pub header: Header,
    pub tops: &'a [u32],
    pub ends: &'a [u32],
    pub blocks: &'a [u32],
    pub adjustments: &'a [u32],
    pub ghost counted: { Counted header tops.now ends.now blocks.now },
    pub ghost adjustments_long: { header.interval_count ≤ length adjustments.now },
}

impl<'a> Lent<'a> {
    ghost use Rattle.std.specs.Prelude.{◌≡◌};
    ghost use Rattle.model.specs.Table.{arrays};
    ghost use Rattle.model.specs.Refusal.{first};
    ghost use Rattle.model.specs.Results.{refusal_of};
    ghost use Rattle.soundness.specs.Passed.{layout_tests, rule_tests};

    // Rules 12 to 14, in their order.
    pub fn layout_allowed(self) -> Result<(), Refusal>
        ensures { refusal_of result ≡ first (layout_tests self.entry.header self.entry.tops.now self.entry.ends.now self.entry.blocks.now) }
    {
        if tops_wrong(self.header, self.tops) {
            return Err(Refusal::TopsWrong);
        }
        if ends_wrong(self.header, self.ends) {
            return Err(Refusal::EndsWrong);
        }
        if blocks_wrong(self.header, self.blocks) {
            return Err(Refusal::BlocksWrong);
        }
        Ok(())
    }

    // Rules 12 to 16, in their order.
    fn judged(self) -> Result<(), Refusal>
        ensures { refusal_of result ≡ first (rule_tests self.entry.header (arrays self.entry.tops.now self.entry.ends.now self.entry.blocks.now self.entry.adjustments.now)) }
    {
        self.layout_allowed()?;
        let laid = LaidOut {
            header: self.header,
            tops: self.tops,
            ends: self.ends,
            blocks: self.blocks,
            adjustments: self.adjustments,
        };
        let mut sums = [0u32; BLOCKS];
        if laid.walked(&mut sums) {
            return Err(laid.adjustment_refusal());
        }
        if holdings_wrong(self.header, self.tops, &sums) {
            return Err(Refusal::HoldingsWrong);
        }
        Ok(())
    }

    // The same: a table of one block and one interval is judged by a function of its own.
    pub fn rules_allowed(self) -> Result<(), Refusal>
        ensures { refusal_of result ≡ first (rule_tests self.entry.header (arrays self.entry.tops.now self.entry.ends.now self.entry.blocks.now self.entry.adjustments.now)) }
    {
        let h = self.header;
        if h.block_count == 1 && h.interval_count == 1 {
            return judged_alone(
                h.buckets,
                h.capacity,
                self.tops,
                self.ends,
                self.blocks,
                self.adjustments,
            );
        }
        self.judged()
    }
}
