// Runs of the mover without a cut.
ghost use Rattle.cut_tests.specs.Counts.{Keeps};

use crate::job::{Job, List, Row};
use crate::mover::Mover;
use crate::tally::{Tally, add};
use crate::words::alike;

impl<M: Mover> Job<'_, '_, M> {
    // From mark 0 to the total, and a call more. How many copies were seen.
    pub fn uncut(&self, words: &mut List, tally: &mut Tally) -> u32
        ensures { Keeps tally.old tally.new }
    {
        let g = self.calls.growth;
        let mut right = *words;
        let copies = self.uncut_rows(words, &mut right, tally);
        self.calls.carried(words, g.total, tally);
        alike(words, &right, g.words, tally);
        add(&mut tally.growths, 1);
        add(&mut tally.rows, g.total);
        add(&mut tally.copies, copies);
        add(&mut tally.blanks, g.total.saturating_sub(copies));
        copies
    }

    // The words, all of them, are `right` after every call.
    fn uncut_rows(&self, words: &mut List, right: &mut List, tally: &mut Tally) -> u32
        ensures { Keeps tally.old tally.new }
    {
        let mut copies = 0;
        for (mark, row) in (0u32..).zip(self.rows) {
            let seen = self.uncut_row(words, row, mark, tally);
            add(&mut copies, u32::from(seen));
            row.copy(right);
            alike(words, right, self.calls.growth.words, tally);
            self.reads(words, mark.saturating_add(1), tally);
        }
        copies
    }

    // One row. A copy is seen where the row's new place has another word than before.
    fn uncut_row(&self, words: &mut List, row: &Row, mark: u32, tally: &mut Tally) -> bool
        ensures { Keeps tally.old tally.new }
    {
        near(row.bucket, tally);
        let to = row.due.at as usize;
        let before = words.get(to).copied();
        self.calls.carried(words, mark, tally);
        words.get(to).copied() != before
    }

    // From a mark to the total, and a call more.
    pub fn carry_on(&self, words: &mut List, start: u32, tally: &mut Tally)
        ensures { Keeps tally.old tally.new }
    {
        let total = self.calls.growth.total;
        for mark in start..total {
            self.calls.carried(words, mark, tally);
            self.reads(words, mark + 1, tally);
        }
        self.calls.carried(words, total, tally);
    }
}

// A row of bucket 63, 64 or 65.
fn near(bucket: u32, tally: &mut Tally)
    ensures { Keeps tally.old tally.new }
{
    let place = bucket.checked_sub(63);
    if let Some(count) = place.and_then(|i| tally.near.get_mut(i as usize)) {
        add(count, 1);
    }
}
