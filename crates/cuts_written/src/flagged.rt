// The mover, told which buckets are written, or not; and the call that counts them.
ghost use Rattle.cut_tests.specs.Counts.{Keeps};

use crate::bits::{needed, pack};
use cut_tests::{Call, Growth, LIST, Mover, Tally, add};
use model::reply::{CarryReply, WrittenReply};

// All buckets are written.
static WRITTEN: [bool; LIST] = [true; LIST];

// Which of the old buckets are written; and how many words their bits need, if calls are given bits.
#[derive(Clone, Copy)]
pub struct Flagged<'a> {
    pub flags: &'a [bool],
    pub bits: Option<u32>,
}

impl<'a> Flagged<'a> {
    // With bits.
    pub fn told(flags: &'a [bool], buckets: u32) -> Flagged<'a> {
        Flagged {
            flags,
            bits: Some(needed(buckets)),
        }
    }

    // All of so many buckets, without bits and with them.
    pub fn all_bare(buckets: u32) -> Flagged<'a> {
        let flags = &WRITTEN[..(buckets as usize).min(LIST)];
        Flagged { flags, bits: None }
    }

    pub fn all_told(buckets: u32) -> Flagged<'a> {
        Flagged::told(&WRITTEN[..(buckets as usize).min(LIST)], buckets)
    }

    // One call that counts the written ones of the moved buckets, lent the first `length` words of the bits; where there are fewer, a reply
    // that is never right.
    fn count(&self, growth: &Growth<'_>, length: u32, junk: u32) -> WrittenReply {
        let bits = pack(self.flags, junk);
        match bits.get(..length as usize) {
            Some(lent) => written_relocations::written_relocations(
                growth.header,
                &growth.table.tops,
                &growth.table.ends,
                &growth.table.blocks,
                &growth.table.adjustments,
                growth.buckets,
                growth.bins,
                lent,
            ),
            None => WrittenReply {
                refusal: u32::MAX,
                count: u32::MAX,
            },
        }
    }

    // The call that counts says the number of copies, which is at most the total, whatever is behind the bits.
    pub fn countings(&self, growth: &Growth<'_>, copies: u32, tally: &mut Tally)
        ensures { Keeps tally.old tally.new }
    {
        if let Some(bits) = self.bits {
            for more in 0..3 {
                self.counting(growth, bits.saturating_add(more), copies, tally);
            }
        }
    }

    fn counting(&self, growth: &Growth<'_>, length: u32, copies: u32, tally: &mut Tally)
        ensures { Keeps tally.old tally.new }
    {
        add(&mut tally.countings, 1);
        let reply = self.count(growth, length, tally.countings);
        tally.same(reply.refusal, 0);
        tally.same(reply.count, copies);
        tally.same(reply.count.min(growth.total), reply.count);
    }

    // The call that counts, refused.
    pub fn uncounted(&self, growth: &Growth<'_>, length: u32, number: u32, tally: &mut Tally)
        ensures { Keeps tally.old tally.new }
    {
        let reply = self.count(growth, length, number);
        tally.refused_by(number);
        tally.same(reply.refusal, number);
        tally.same(reply.count, 0);
    }
}

impl Mover for Flagged<'_> {
    const ALL_BITS: u32 = 133;

    fn bits(&self) -> u32 {
        self.bits.unwrap_or(0)
    }

    fn is_written(&self, bucket: u32) -> bool {
        self.flags.get(bucket as usize) == Some(&true)
    }

    fn carry(&self, growth: &Growth<'_>, words: &mut [u32], call: Call) -> CarryReply {
        if self.bits.is_none() {
            return carry(growth, words, call.mark);
        }
        let bits = pack(self.flags, call.number);
        match bits.get(..call.bits as usize) {
            Some(lent) => carry_written(growth, lent, words, call.mark),
            None => CarryReply {
                refusal: u32::MAX,
                mark: u32::MAX,
                finished: u32::MAX,
            },
        }
    }
}

fn carry(growth: &Growth<'_>, words: &mut [u32], mark: u32) -> CarryReply {
    mover_written::carry(
        growth.header,
        &growth.table.tops,
        &growth.table.ends,
        &growth.table.blocks,
        &growth.table.adjustments,
        growth.buckets,
        growth.bins,
        words,
        mark,
    )
}

fn carry_written(growth: &Growth<'_>, bits: &[u64], words: &mut [u32], mark: u32) -> CarryReply {
    mover_written::carry_written(
        growth.header,
        &growth.table.tops,
        &growth.table.ends,
        &growth.table.blocks,
        &growth.table.adjustments,
        growth.buckets,
        growth.bins,
        bits,
        words,
        mark,
    )
}
