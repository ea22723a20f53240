// Runs of the mover with cuts. In the copy: its destination holds its old word, the new one or junk, and the mark is old. In the
// storing of the mark: it is old or new.
ghost use Rattle.cut_tests.specs.Counts.{Keeps};

use crate::job::{Job, List, Row};
use crate::mover::Mover;
use crate::tally::{Tally, add};
use crate::words::{alike, junk, put};

#[derive(Clone, Copy, PartialEq, Eq)]
pub enum Cut {
    CopyOld,
    CopyNew,
    CopyJunk,
    MarkOld,
    MarkNew,
}

impl Cut {
    const ALL: [Cut; 5] = [
        Cut::CopyOld,
        Cut::CopyNew,
        Cut::CopyJunk,
        Cut::MarkOld,
        Cut::MarkNew,
    ];

    fn is_of_copy(self) -> bool {
        matches!(self, Cut::CopyOld | Cut::CopyNew | Cut::CopyJunk)
    }
}

// Where runs that are cut begin: the words, and the mark; and the words that they end with.
#[derive(Clone, Copy)]
struct Start<'w, 'r> {
    words: &'w List,
    right: &'r List,
    mark: u32,
}

impl<M: Mover> Job<'_, '_, M> {
    // The row of a call that can be cut so: there is a row to do, and a copy is cut only where there is one.
    fn row_to_cut(&self, mark: u32, cut: Cut) -> Option<&Row> {
        let row = self.rows.get(mark as usize)?;
        if row.written || !cut.is_of_copy() {
            return Some(row);
        }
        None
    }

    // A call that is cut, if it can be. The mark that is stored.
    fn cut(&self, words: &mut List, mark: u32, cut: Cut, tally: &mut Tally) -> u32
        ensures { Keeps tally.old tally.new }
    {
        let Some(row) = self.row_to_cut(mark, cut) else {
            return mark;
        };
        add(&mut tally.cuts[cut as usize], 1);
        let to = row.due.at;
        let before = words.get(to as usize).copied();
        let next = self.calls.carried(words, mark, tally);
        let left = match cut {
            Cut::CopyOld => before,
            Cut::CopyJunk => Some(junk(to)),
            _ => None,
        };
        if let Some(word) = left {
            put(words, to, word);
        }
        let stored = if cut == Cut::MarkNew { next } else { mark };
        self.reads(words, stored, tally);
        stored
    }

    // A run to the end, of which the first call is cut, if it can be, or the first two are. After a new mark the second is the next row's.
    fn cut_run(&self, start: Start<'_, '_>, first: Cut, second: Option<Cut>, tally: &mut Tally)
        ensures { Keeps tally.old tally.new }
    {
        if self.row_to_cut(start.mark, first).is_none() {
            return;
        }
        let mut words = *start.words;
        let mut mark = self.cut(&mut words, start.mark, first, tally);
        if let Some(second) = second {
            mark = self.cut(&mut words, mark, second, tally);
        }
        self.carry_on(&mut words, mark, tally);
        alike(&words, start.right, self.calls.growth.words, tally);
        add(&mut tally.runs, 1);
    }

    // A cut, alone and with every other behind it.
    fn cut_pairs(&self, start: Start<'_, '_>, first: Cut, tally: &mut Tally)
        ensures { Keeps tally.old tally.new }
    {
        for second in Cut::ALL {
            self.cut_run(start, first, Some(second), tally);
        }
        self.cut_run(start, first, None, tally);
    }

    fn cut_runs(&self, start: Start<'_, '_>, tally: &mut Tally)
        ensures { Keeps tally.old tally.new }
    {
        for first in Cut::ALL {
            self.cut_pairs(start, first, tally);
        }
    }

    // The runs that are cut at every mark, against the words that an uncut run ends with.
    pub fn every_cut(&self, words: &mut List, right: &List, tally: &mut Tally)
        ensures { Keeps tally.old tally.new }
    {
        for mark in 0..self.calls.growth.total {
            let start = Start { words, right, mark };
            self.cut_runs(start, tally);
            self.calls.carried(words, mark, tally);
        }
    }

    // Every hundredth copy leaves junk, and then the mark is not stored.
    pub fn cut_some(&self, words: &mut List, tally: &mut Tally)
        ensures { Keeps tally.old tally.new }
    {
        let total = self.calls.growth.total;
        for mark in 0..total {
            if mark % 100 == 0 {
                self.cut(words, mark, Cut::CopyJunk, tally);
                self.cut(words, mark, Cut::MarkOld, tally);
            }
            self.calls.carried(words, mark, tally);
        }
        self.reads(words, total, tally);
    }
}
