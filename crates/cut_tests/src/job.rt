// A growth's rows and places, and the mover's job on them.
ghost use Rattle.std.specs.Prelude.{◌≡◌, ◌/◌, ◌≤◌, length};
ghost use Rattle.std.specs.Simd.{first_chunks};

use crate::growth::{Growth, Table, word_at};
use crate::mover::{Calls, Mover};
use crate::tally::Tally;
use crate::words::{alike, fill, put, read, vacant, word};
use model::table::Header;

// The most words, numbers of a move list, or places.
pub const LIST: usize = 13_865;

pub type List = [u32; LIST];

// The rows that so many numbers are.
const ROWS: usize = 2_773;

// The word that is due at a place.
#[derive(Clone, Copy)]
pub struct Due {
    pub at: u32,
    pub word: u32,
}

impl Due {
    ghost use Rattle.cut_tests.specs.Rows.{due_of, meets};

    // At a place of a bucket: its word, if that is there.
    fn new(bucket: u32, at: u32, there: bool) -> Due
        ensures { result ≡ due_of bucket at there }
    {
        let word = if there { word(bucket) } else { vacant(at) };
        Due { at, word }
    }

    // Whether its word is at its place.
    pub fn is_met(&self, words: &[u32]) -> bool
        ensures { result ≡ meets words.now self.now }
    {
        words.get(self.at as usize) == Some(&self.word)
    }
}

// A row of a move list: its bucket, and whether that is written; where its word is, and what is due at its new place once the row is done.
#[derive(Clone, Copy)]
pub struct Row {
    pub bucket: u32,
    pub written: bool,
    pub from: u32,
    pub due: Due,
}

impl Row {
    ghost use Rattle.cut_tests.specs.Rows.{row_of, copied};

    fn new<M: Mover>(numbers: &[u32; 5], capacity: u32, mover: &M) -> Row
        ensures { result ≡ row_of capacity result.written numbers.now }
    {
        let [bucket, old_bin, old_position, bin, position] = *numbers;
        let written = mover.is_written(bucket);
        Row {
            bucket,
            written,
            from: word_at(capacity, old_bin, old_position),
            due: Due::new(bucket, word_at(capacity, bin, position), written),
        }
    }

    // What a call does to the words.
    pub fn copy(&self, words: &mut List)
        ensures { words.new ≡ copied self.now words.old }
    {
        if self.written {
            if let Some(word) = words.get(self.from as usize).copied() {
                put(words, self.due.at, word);
            }
        }
    }
}

// The rows of a move list, five numbers each.
pub fn rows_of(list: &List) -> &[[u32; 5]]
    ensures { result.now ≡ first_chunks 5 (length list.now / 5) list.now }
{
    list.as_chunks::<5>().0
}

// The rows of a growth, and where the old buckets' words are.
#[derive(Clone, Copy)]
pub struct Lists {
    pub rows: [Row; ROWS],
    pub old: [Due; LIST],
}

impl Lists {
    ghost use Rattle.std.specs.Prelude.{take};
    ghost use Rattle.cut_tests.specs.Rows.{RowsOf, places_of};

    // The rows of a growth's move list, and the old buckets' words at their places; all zeros where those are too many.
    pub fn new<M: Mover>(growth: &Growth<'_>, list: &List, mover: &M) -> Lists
        ensures rows { RowsOf growth.now.header.capacity (first_chunks 5 (length list.now / 5) list.now) result.rows }
        ensures old { growth.now.header.buckets ≤ 13865 →
            take growth.now.header.buckets result.old ≡ places_of growth.now.table.now growth.now.header growth.now.header.buckets }
    {
        let due = Due { at: 0, word: 0 };
        let row = Row {
            bucket: 0,
            written: false,
            from: 0,
            due,
        };
        let mut lists = Lists {
            rows: [row; ROWS],
            old: [due; LIST],
        };
        lists.list(growth.header.capacity, list, mover);
        let count = growth.header.buckets as usize;
        if count <= LIST {
            lists.places(growth.table, growth.header, count);
        }
        lists
    }

    // The words of so many first buckets, at their places.
    fn places(&mut self, table: &Table, header: Header, count: usize)
        requires { count ≤ 13865 }
        ensures rows { self.exit.now.rows ≡ self.entry.now.rows }
        ensures old { take count self.exit.now.old ≡ places_of table.now header count }
    {
        for at in 0..count {
            let bucket = at as u32;
            self.old[at] = Due::new(bucket, table.word_of(header, bucket), true);
        }
    }

    // The rows of a move list.
    fn list<M: Mover>(&mut self, capacity: u32, list: &List, mover: &M)
        ensures rows { RowsOf capacity (first_chunks 5 (length list.now / 5) list.now) self.new.rows }
        ensures old { self.exit.now.old ≡ self.entry.now.old }
    {
        for (at, numbers) in rows_of(list).iter().enumerate() {
            if at < ROWS {
                self.rows[at] = Row::new(numbers, capacity, mover);
            }
        }
    }

    // The mover's job on as many of them as the growth moves, and as it has buckets.
    pub fn job<'g, 'a, M: Mover>(&'a self, growth: Growth<'g>, mover: M) -> Job<'g, 'a, M>
        ensures calls { result.calls ≡ record { growth = growth.entry; mover = mover } }
        ensures rows { result.rows.now ≡ take growth.entry.total self.now.rows }
        ensures old { result.old.now ≡ take growth.entry.header.buckets self.now.old }
    {
        let rows = (growth.total as usize).min(ROWS);
        let old = (growth.header.buckets as usize).min(LIST);
        Job {
            calls: Calls { growth, mover },
            rows: &self.rows[..rows],
            old: &self.old[..old],
        }
    }
}

// A growth that the mover carries out.
#[derive(Clone, Copy)]
pub struct Job<'g, 'a, M> {
    pub calls: Calls<'g, M>,
    pub rows: &'a [Row],
    pub old: &'a [Due],
}

impl<M: Mover> Job<'_, '_, M> {
    ghost use Rattle.std.specs.Prelude.{◌+◌, ◌-◌, ◌^◌, min, map, fold, take, slice_set};
    ghost use Rattle.std.specs.List.{range_with_len};
    ghost use Rattle.cut_tests.specs.Words.{vacant_word};
    ghost use Rattle.cut_tests.specs.Rows.{unmet, unmet_rows};
    ghost use Rattle.cut_tests.specs.Counts.{Keeps, others};

    // Before the first call: the word of every bucket, at its place.
    pub fn begin(&self, words: &mut List)
        ensures { words.new ≡ fold (λ ws due. slice_set ws due.at due.word) (map vacant_word (range_with_len 0 (length words.old))) self.now.old.now }
    {
        fill(words);
        for due in self.old {
            put(words, due.at, due.word);
        }
    }

    // Every old bucket reads its word at its old place, and the rows below the mark have their due at their new one.
    pub fn reads(&self, words: &List, mark: u32, tally: &mut Tally)
        ensures keeps { Keeps tally.old tally.new }
        ensures others { others tally.new ≡ others tally.old }
        ensures comparisons { tally.new.comparisons ≡ min (tally.old.comparisons + length self.now.old.now + mark) (2 ^ 64 - 1) }
        ensures failed { tally.new.failed ≡ min (tally.old.failed + unmet words.now self.now.old.now + unmet_rows words.now (take mark self.now.rows.now)) (2 ^ 64 - 1) }
    {
        read(words, self.old, tally);
        tally.compared(mark as usize, self.missed(words, mark));
    }

    // How many of the rows below a mark have not their due.
    fn missed(&self, words: &[u32], mark: u32) -> usize
        ensures { result ≡ unmet_rows words.now (take mark self.now.rows.now) }
    {
        let moved = self.rows.iter().take(mark as usize);
        moved.filter(|row| !row.due.is_met(words)).count()
    }

    // What is due at the place of a bucket in the new map: its word, but of a blank one that moved what was there before.
    fn due_in(&self, new: &Table, header: Header, bucket: u32, old: &Due) -> Due {
        let at = new.word_of(header, bucket);
        let there = at == old.at || self.calls.mover.is_written(bucket);
        Due::new(bucket, at, there)
    }

    // The old buckets have their due at their places in the new map.
    fn grown(&self, header: Header, new: &Table, words: &List, tally: &mut Tally)
        ensures { Keeps tally.old tally.new }
    {
        let mut missed = 0usize;
        for (bucket, old) in (0u32..).zip(self.old) {
            let met = self.due_in(new, header, bucket, old).is_met(words);
            missed = missed.saturating_add(usize::from(!met));
        }
        tally.compared(self.old.len(), missed);
    }
}

// A growth whose move list is accepted, and that list; the new map, unless the growth itself is refused; and a random number.
#[derive(Clone, Copy)]
pub struct Case<'g, 'a, 'n> {
    pub growth: Growth<'g>,
    pub list: &'a List,
    pub new: Option<(Header, &'n Table)>,
    pub seed: u32,
}

impl Case<'_, '_, '_> {
    ghost use Rattle.cut_tests.specs.Counts.{Keeps};

    // The mover carries the growth out, uncut and cut. How many copies were seen, and in `words` what a run ends with.
    pub fn carry<M: Mover>(&self, mover: M, words: &mut List, tally: &mut Tally) -> u32
        ensures { Keeps tally.old tally.new }
    {
        let lists = Lists::new(&self.growth, self.list, &mover);
        let job = lists.job(self.growth, mover);
        job.begin(words);
        let mut first = *words;
        let copies = job.uncut(words, tally);
        match self.new {
            Some((header, new)) => {
                job.grown(header, new, words, tally);
                lists
                    .job(self.growth.longer(), mover)
                    .every_cut(&mut first, words, tally);
            }
            None => {
                job.cut_some(&mut first, tally);
                alike(&first, words, self.growth.words, tally);
                *words = first;
            }
        }
        job.calls.edges(words, tally);
        copies
    }
}
