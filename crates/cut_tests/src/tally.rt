// What a run counts.
ghost use Rattle.std.specs.Prelude.{◌≡◌, ◌+◌, ◌-◌, ◌^◌, ◌==◌, not, min};
ghost use Rattle.std.specs.Int.{from_bool};

use model::reply::CarryReply;

#[derive(Clone, Copy, Default)]
pub struct Tally {
    // Calls refused by number n, at n.
    pub refused: [u32; 43],
    pub histories: u32,
    pub growths: u32,
    pub rows: u32,
    // Rows of written buckets, which are copied, and of blank ones.
    pub copies: u32,
    pub blanks: u32,
    // Growths of maps whose number of buckets modulo 64 is 0, 1 and 63, and those after which bits would need more words.
    pub edges: [u32; 3],
    pub wider: u32,
    // Rows of buckets 63, 64 and 65.
    pub near: [u32; 3],
    pub runs: u32,
    // Accepted calls, and accepted calls that count written buckets.
    pub calls: u32,
    pub countings: u32,
    // Cuts, by their kinds.
    pub cuts: [u32; 5],
    pub comparisons: usize,
    pub failed: usize,
}

// A count goes up, and stays at the largest number.
pub fn add(count: &mut u32, n: u32)
    ensures { count.new ≡ min (count.old + n) (2 ^ 32 - 1) }
{
    *count = count.saturating_add(n);
}

impl Tally {
    ghost use Rattle.cut_tests.specs.Counts.{Keeps, others, counted, missed};

    // A call refused by a number.
    #[tactic(auto, using(std::proofs::lemmas::List::set_past))]
    pub fn refused_by(&mut self, number: u32)
        ensures { self.new ≡ record self.old { refused = counted self.old.refused number } }
    {
        let place = number as usize;
        if place < self.refused.len() {
            add(&mut self.refused[place], 1);
        }
    }

    // So many comparisons, of which so many failed.
    pub fn compared(&mut self, n: usize, failed: usize)
        ensures keeps { Keeps self.old self.new }
        ensures others { others self.new ≡ others self.old }
        ensures comparisons { self.new.comparisons ≡ min (self.old.comparisons + n) (2 ^ 64 - 1) }
        ensures failed { self.new.failed ≡ min (self.old.failed + failed) (2 ^ 64 - 1) }
    {
        self.comparisons = self.comparisons.saturating_add(n);
        self.failed = self.failed.saturating_add(failed);
    }

    // One comparison, which fails where the two differ.
    pub fn same(&mut self, seen: u32, right: u32)
        ensures keeps { Keeps self.old self.new }
        ensures others { others self.new ≡ others self.old }
        ensures comparisons { self.new.comparisons ≡ min (self.old.comparisons + 1) (2 ^ 64 - 1) }
        ensures failed { self.new.failed ≡ min (self.old.failed + from_bool (not (seen == right))) (2 ^ 64 - 1) }
    {
        self.compared(1, usize::from(seen != right));
    }

    // A reply of the mover, number by number.
    pub fn replied(&mut self, reply: CarryReply, right: CarryReply)
        ensures keeps { Keeps self.old self.new }
        ensures others { others self.new ≡ others self.old }
        ensures comparisons { self.new.comparisons ≡ min (self.old.comparisons + 3) (2 ^ 64 - 1) }
        ensures failed { self.new.failed ≡ min (self.old.failed + missed reply right) (2 ^ 64 - 1) }
    {
        self.same(reply.refusal, right.refusal);
        self.same(reply.mark, right.mark);
        self.same(reply.finished, right.finished);
    }
}
