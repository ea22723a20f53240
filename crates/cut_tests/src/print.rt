// The last lines of what a run counted, as text.
ghost use Rattle.std.specs.Prelude.{Some};
ghost use Rattle.cut_tests.specs.Text.{cuts_text, refusal_text, refusals_text, tally_text};

use crate::tally::Tally;
use std::fmt;

// The cuts, by their kinds.
#[derive(Clone, Copy)]
struct Cuts([u32; 5]);

// A refusal's number, and how many calls it was given to.
#[derive(Clone, Copy)]
struct Refusal {
    number: usize,
    count: u32,
}

// The refusals that were given, a line each.
#[derive(Clone, Copy)]
struct Refusals([u32; 43]);

impl fmt::Display for Cuts {
    ghost output = { λ cuts. Some (cuts_text cuts.0) };

    fn fmt<W: fmt::Write>(&self, f: &mut fmt::Formatter<W>) -> fmt::Result {
        let [old, new, junk, mark_old, mark_new] = self.0;
        write!(
            f,
            "copies cut: old word, new word, junk {old} {new} {junk}\nmarks cut: old mark, new mark {mark_old} {mark_new}\n"
        )
    }
}

impl fmt::Display for Refusal {
    ghost output = { λ refusal. Some (refusal_text refusal.number refusal.count) };

    fn fmt<W: fmt::Write>(&self, f: &mut fmt::Formatter<W>) -> fmt::Result {
        let Refusal { number, count } = *self;
        if count == 0 {
            return Ok(());
        }
        write!(f, "calls refused by {number} {count}\n")
    }
}

impl fmt::Display for Refusals {
    ghost output = { λ refusals. Some (refusals_text refusals.0) };

    fn fmt<W: fmt::Write>(&self, f: &mut fmt::Formatter<W>) -> fmt::Result {
        for (number, count) in self.0.iter().enumerate() {
            let refusal = Refusal {
                number,
                count: *count,
            };
            write!(f, "{refusal}")?;
        }
        Ok(())
    }
}

// The cuts, the refusals and the comparisons.
impl fmt::Display for Tally {
    ghost output = { λ tally. Some (tally_text tally) };

    fn fmt<W: fmt::Write>(&self, f: &mut fmt::Formatter<W>) -> fmt::Result {
        let cuts = Cuts(self.cuts);
        let refusals = Refusals(self.refused);
        let comparisons = self.comparisons;
        let failed = self.failed;
        write!(
            f,
            "{cuts}{refusals}comparisons, failed {comparisons} {failed}"
        )
    }
}
