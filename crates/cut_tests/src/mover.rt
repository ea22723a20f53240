// The mover that a program tests, its calls, and what the program puts a growth through.
ghost use Rattle.std.specs.Prelude.{◌≡◌, ◌+◌, ◌-◌, ◌^◌, ◌≤◌, ◌==◌, min, not, nat_lt};
ghost use Rattle.std.specs.Int.{from_bool};
ghost use Rattle.cut_tests.specs.Counts.{Keeps, counted};
ghost use Rattle.cut_tests.specs.Words.{differing};

use crate::growth::Growth;
use crate::job::{Case, LIST, List};
use crate::refusal::refusal_of;
use crate::tally::{Tally, add};
use crate::words::{alike, fill};
use model::reply::CarryReply;

// How many words a call is lent, how many of bits, and its mark; and a number by which calls differ.
#[derive(Clone, Copy)]
pub struct Call {
    pub words: u32,
    pub bits: u32,
    pub mark: u32,
    pub number: u32,
}

impl Call {
    // One that is lent so many words, and so many of bits.
    pub fn lent(words: u32, bits: u32, mark: u32) -> Call
        ensures words { result.words ≡ words }
        ensures bits { result.bits ≡ bits }
        ensures mark { result.mark ≡ mark }
    {
        Call {
            words,
            bits,
            mark,
            number: mark % 7,
        }
    }
}

// A mover, with bits or without.
pub trait Mover: Copy {
    // All words of bits that there are to lend.
    const ALL_BITS: u32;

    // How many of them the old buckets need.
    fn bits(&self) -> u32;

    // Whether a bucket is written: its word is copied.
    fn is_written(&self, bucket: u32) -> bool;

    // One call, which is lent these words.
    fn carry(&self, growth: &Growth<'_>, words: &mut [u32], call: Call) -> CarryReply;
}

// What a growth is put through, which may do anything with the counts.
pub trait Player {
    // One whose move list is accepted.
    fn carry(&self, case: &Case<'_, '_, '_>, tally: &mut Tally);

    // One that is refused by a number.
    fn refused(&self, growth: &Growth<'_>, number: u32, tally: &mut Tally);
}

// What a growth is put through, where no comparison is forgotten, and none that failed.
pub trait KeepingPlayer {
    // One whose move list is accepted.
    fn carry(&self, case: &Case<'_, '_, '_>, tally: &mut Tally)
        ensures { Keeps tally.old tally.new };

    // One that is refused by a number.
    fn refused(&self, growth: &Growth<'_>, number: u32, tally: &mut Tally)
        ensures { Keeps tally.old tally.new };
}

// The calls of a mover for a growth.
#[derive(Clone, Copy)]
pub struct Calls<'a, M> {
    pub growth: Growth<'a>,
    pub mover: M,
}

impl<M: Mover> Calls<'_, M> {
    // A call, lent the first so many words. Where there are fewer, a reply that is never right.
    fn lend(&self, words: &mut [u32], call: Call) -> CarryReply {
        match words.get_mut(..call.words as usize) {
            Some(lent) => self.mover.carry(&self.growth, lent, call),
            None => CarryReply {
                refusal: u32::MAX,
                mark: u32::MAX,
                finished: u32::MAX,
            },
        }
    }

    // A call that is not refused: it raises the mark, or says that it has reached the total. The mark to store. Of the bits it is lent
    // what they need, or a word or two more.
    pub fn carried(&self, words: &mut List, mark: u32, tally: &mut Tally) -> u32
        ensures keeps { Keeps tally.old tally.new }
        ensures calls { tally.new.calls ≡ min (tally.old.calls + 1) (2 ^ 32 - 1) }
        ensures comparisons { tally.new.comparisons ≡ min (tally.old.comparisons + 3) (2 ^ 64 - 1) }
        ensures failed { min (tally.old.failed + from_bool (not (result == min (mark + from_bool (nat_lt mark self.now.growth.total)) (2 ^ 32 - 1)))) (2 ^ 64 - 1) ≤ tally.new.failed }
    {
        add(&mut tally.calls, 1);
        let number = tally.calls;
        let call = Call {
            words: self.growth.words,
            bits: self.mover.bits().saturating_add(number % 3),
            mark,
            number,
        };
        let reply = self.lend(words, call);
        let done = mark < self.growth.total;
        let right = CarryReply {
            refusal: 0,
            mark: mark.saturating_add(u32::from(done)),
            finished: u32::from(!done),
        };
        tally.replied(reply, right);
        reply.mark
    }

    // A call that is refused: the number and zeros, and no word changed.
    pub fn refused(&self, words: &mut List, call: Call, number: u32, tally: &mut Tally)
        ensures keeps { Keeps tally.old tally.new }
        ensures refused { tally.new.refused ≡ counted tally.old.refused number }
        ensures comparisons { tally.new.comparisons ≡ min (tally.old.comparisons + 3 + call.words) (2 ^ 64 - 1) }
        ensures failed { min (tally.old.failed + differing words.new words.old call.words) (2 ^ 64 - 1) ≤ tally.new.failed }
    {
        let before = *words;
        let reply = self.lend(words, call);
        tally.refused_by(number);
        tally.replied(reply, refusal_of(number));
        alike(words, &before, call.words, tally);
    }

    // 40 and 41 at their edges; 40 comes first.
    pub fn edges(&self, words: &mut List, tally: &mut Tally)
        ensures { Keeps tally.old tally.new }
    {
        let g = self.growth;
        let bits = self.mover.bits();
        let short = g.words.saturating_sub(1);
        let more = g.words.saturating_add(1);
        let past = g.total.saturating_add(1);
        self.carried(words, g.total, tally);
        self.refused(words, Call::lent(short, bits, 0), 40, tally);
        self.refused(words, Call::lent(short, bits, g.total), 40, tally);
        self.refused(words, Call::lent(short, bits, past), 40, tally);
        self.refused(words, Call::lent(g.words, bits, past), 41, tally);
        self.refused(words, Call::lent(more, bits, u32::MAX), 41, tally);
    }

    // A table or sizes that are refused by a number, whatever the words, the bits and the mark.
    pub fn wrong(&self, number: u32, tally: &mut Tally)
        ensures { Keeps tally.old tally.new }
    {
        let mut words = [0; LIST];
        fill(&mut words);
        let all = Call::lent(LIST as u32, M::ALL_BITS, 0);
        self.refused(&mut words, all, number, tally);
        self.refused(&mut words, Call::lent(0, 0, u32::MAX), number, tally);
    }
}
