// The words of a rack: what they hold at first, and comparisons of them.
ghost use Rattle.std.specs.Prelude.{◌≡◌, ◌+◌, ◌-◌, ◌^◌, min, map, length, slice_set};
ghost use Rattle.std.specs.List.{range_with_len};
ghost use Rattle.cut_tests.specs.Words.{own_word, vacant_word, junk_word, differing};
ghost use Rattle.cut_tests.specs.Rows.{unmet};
ghost use Rattle.cut_tests.specs.Counts.{Keeps, others};

use crate::job::{Due, List};
use crate::tally::Tally;

// A bucket's own word.
pub fn word(bucket: u32) -> u32
    ensures { result ≡ own_word bucket }
{
    bucket.saturating_add(1_000_000)
}

// What a cut copy may leave at a place: a word that is nobody's, or bucket 0's.
pub fn junk(at: u32) -> u32
    ensures { result ≡ junk_word at }
{
    if at % 2 == 0 { 666_666_666 } else { word(0) }
}

// What is at a place where no bucket's word is: no bucket has it, and no other place.
pub fn vacant(at: u32) -> u32
    ensures { result ≡ vacant_word at }
{
    at.saturating_add(2_000_000)
}

// No bucket's word anywhere.
pub fn fill(words: &mut List)
    ensures { words.new ≡ map vacant_word (range_with_len 0 (length words.old)) }
{
    for (at, word) in words.iter_mut().enumerate() {
        *word = vacant(at as u32);
    }
}

// A word at a place, if there is that place.
#[tactic(auto, using(std::proofs::lemmas::List::set_past))]
pub fn put(words: &mut [u32], at: u32, x: u32)
    ensures { words.new ≡ slice_set words.old at x }
{
    let place = at as usize;
    if place < words.len() {
        words[place] = x;
    }
}

// How many of the first `count` words differ.
fn differing(words: &[u32], right: &[u32], count: u32) -> usize
    ensures { result ≡ differing words.now right.now count }
{
    words
        .iter()
        .zip(right)
        .take(count as usize)
        .filter(|(word, other)| *word != *other)
        .count()
}

// All words are the right ones.
pub fn alike(words: &List, right: &List, count: u32, tally: &mut Tally)
    ensures keeps { Keeps tally.old tally.new }
    ensures others { others tally.new ≡ others tally.old }
    ensures comparisons { tally.new.comparisons ≡ min (tally.old.comparisons + count) (2 ^ 64 - 1) }
    ensures failed { tally.new.failed ≡ min (tally.old.failed + differing words.now right.now count) (2 ^ 64 - 1) }
{
    tally.compared(count as usize, differing(words, right, count));
}

// What is due is there.
pub fn read(words: &[u32], dues: &[Due], tally: &mut Tally)
    ensures keeps { Keeps tally.old tally.new }
    ensures others { others tally.new ≡ others tally.old }
    ensures comparisons { tally.new.comparisons ≡ min (tally.old.comparisons + length dues.now) (2 ^ 64 - 1) }
    ensures failed { tally.new.failed ≡ min (tally.old.failed + unmet words.now dues.now) (2 ^ 64 - 1) }
{
    let missed = dues.iter().filter(|due| !due.is_met(words)).count();
    tally.compared(dues.len(), missed);
}
