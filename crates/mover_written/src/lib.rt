// The mover: one call carries the word of one moved bucket to its new place. What is proved of runs of calls, power cuts included,
// is in specs/Claims.antt, and what is proved of blank buckets in specs/WrittenClaims.antt.
#![tactic(auto)]

ghost use Rattle.std.specs.Prelude.{◌<◌, not, [], ◌∷◌, ◌≡◌, IfOk, length, get_or, set};
ghost use Rattle.model.specs.Table.{arrays, sizes};
ghost use Rattle.model.specs.Refusal.{first};
ghost use Rattle.model.specs.Calls.{table_tests};
ghost use Rattle.model.specs.Results.{refusal_of, carry_told};
ghost use Rattle.soundness.specs.Passed.{TableOf};
ghost use Rattle.mover_written.specs.Carry.{Growth, growth, total, every, is_written, told_short, word_at, carry_refusal, carry_reply, carry_words};
ghost use Rattle.mover_written.specs.Carry.{bits as told_bits};
ghost use Rattle.mover_written.specs.Steps.{told_of, Bit, from_of, to_of};
ghost use Rattle.mover_written.specs.Claims.{CarryClaims};
ghost use Rattle.mover_written.specs.WrittenClaims.{CountClaims};

use expansion_plan::growth_allowed;
use model::given::Carried;
use model::refusal::Refusal;
use model::reply::CarryReply;
use model::table::Header;
use relocations::relocation_count;
use row_places::{RowPlaces, row_of};
use soundness::{arrays_short, check};
use table::FormedTable;
use written::{bits_short, is_written};

// What is proved of runs of calls (specs/Claims.antt), and of the count of written moved buckets (specs/WrittenClaims.antt).
pub fn claims()
    ensures carry_claims { CarryClaims }
    ensures count_claims { CountClaims }
{}

// Where the word of a place is: a product of two 32-bit numbers, and a third, fit in 64 bits.
fn word_at(capacity: u32, bin: u32, position: u32) -> usize
    ensures { result ≡ word_at capacity bin position }
{
    bin as usize * capacity as usize + position as usize
}

// A word copied.
fn copy_word(words: &mut [u32], from: usize, to: usize)
    requires { (from < length words.old) × (to < length words.old) }
    ensures { words.new ≡ set words.old to (get_or words.old from 0) }
{
    words[to] = words[from];
}

// The word of a row's old place copied to its new one.
fn copy_row(capacity: u32, row: RowPlaces, words: &mut [u32])
    requires { (from_of capacity row < length words.old) × (to_of capacity row < length words.old) }
    ensures { words.new ≡ set words.old (to_of capacity row) (get_or words.old (from_of capacity row) 0) }
{
    let from = word_at(capacity, row.old.bin, row.old.position);
    let to = word_at(capacity, row.new.bin, row.new.position);
    copy_word(words, from, to)
}

// Rules 11 to 16 and 30: the table, or the first that it breaks. The check asks for the lengths too: asked here, in the caller's
// code, the compiler takes each of them by itself, and does not wait for the caller's stores of a pointer and a length.
fn checked<'a>(
    header: Header,
    tops: &'a [u32],
    ends: &'a [u32],
    blocks: &'a [u32],
    adjustments: &'a [u32],
) -> Result<FormedTable<'a>, Refusal>
    ensures refusal { refusal_of result ≡ first (table_tests header (arrays tops.now ends.now blocks.now adjustments.now)) }
    ensures table { IfOk result (λ t. TableOf header tops.now ends.now blocks.now adjustments.now t) }
{
    if arrays_short(header, tops, ends, blocks, adjustments) {
        return Err(Refusal::HeaderWrong);
    }
    check(header, tops, ends, blocks, adjustments)
}

// Whether a call is told too few bits, one of each old bucket: none where every bucket is written.
fn told_few(told: Option<&[u64]>, buckets: u32) -> bool
    ensures { (g : Growth) → g.header.buckets ≡ buckets → result ≡ told_short g (told_of told.entry) }
{
    match told {
        Some(bits) => bits_short(bits, buckets),
        None => false,
    }
}

// Whether a bucket is blank.
fn is_blank(told: Option<&[u64]>, bucket: u32) -> bool
    requires { Bit (told_of told) bucket }
    ensures { result ≡ not (is_written (told_of told.entry) bucket) }
{
    match told {
        Some(bits) => !is_written(bits, bucket),
        None => false,
    }
}

// 40: too few words. 42: too few bits. 41: a mark above the total.
fn last_allowed(short: bool, few: bool, past: bool) -> Result<(), Refusal>
    ensures { refusal_of result ≡ first ((40, short) ∷ (42, few) ∷ (41, past) ∷ []) }
{
    if short {
        return Err(Refusal::WordsShort);
    }
    if few {
        return Err(Refusal::BitsShort);
    }
    if past {
        return Err(Refusal::MarkPast);
    }
    Ok(())
}

// The tests of a call in their order: the table, and how many rows there are.
fn tested<'a>(
    header: Header,
    tops: &'a [u32],
    ends: &'a [u32],
    blocks: &'a [u32],
    adjustments: &'a [u32],
    buckets: u32,
    bins: u32,
    told: Option<&[u64]>,
    words: &[u32],
    mark: u32,
) -> Result<(FormedTable<'a>, u32), Refusal>
    ensures refusal { refusal_of result
        ≡ carry_refusal (growth header (arrays tops.now ends.now blocks.now adjustments.now) (sizes buckets bins)) (told_of told.entry)
        words.now mark }
    ensures table { IfOk result (λ r. TableOf header tops.now ends.now blocks.now adjustments.now r.0) }
    ensures total { IfOk result
        (λ r. r.1 ≡ total (growth header (arrays tops.now ends.now blocks.now adjustments.now) (sizes buckets bins))) }
{
    let table = checked(header, tops, ends, blocks, adjustments)?;
    growth_allowed(header, tops, buckets, bins)?;
    let total = relocation_count(header, tops, buckets, bins);
    let short = words.len() < word_at(header.capacity, bins, 0);
    let few = told_few(told, header.buckets);
    last_allowed(short, few, total < mark)?;
    Ok((table, total))
}

// What a call does and answers: it is told one bit of each old bucket, or nothing where every bucket is written.
fn carried(
    header: Header,
    tops: &[u32],
    ends: &[u32],
    blocks: &[u32],
    adjustments: &[u32],
    buckets: u32,
    bins: u32,
    told: Option<&[u64]>,
    words: &mut [u32],
    mark: u32,
) -> Result<Carried, Refusal>
    ensures value { carry_told result
        ≡ carry_reply (growth header (arrays tops.now ends.now blocks.now adjustments.now) (sizes buckets bins)) (told_of told.entry)
        words.old mark }
    ensures words_left { words.new
        ≡ carry_words (growth header (arrays tops.now ends.now blocks.now adjustments.now) (sizes buckets bins)) (told_of told.entry)
        words.old mark }
{
    let (table, total) = tested(
        header,
        tops,
        ends,
        blocks,
        adjustments,
        buckets,
        bins,
        told,
        words,
        mark,
    )?;
    if total == mark {
        return Ok(Carried {
            mark,
            finished: true,
        });
    }
    let row = row_of(table, buckets, bins, mark);
    if !is_blank(told, row.bucket) {
        copy_row(header.capacity, row.places, words);
    }
    Ok(Carried {
        mark: mark + 1,
        finished: false,
    })
}

// The row of order number `mark` of a growth's move list: copies the word at its old place to its new one. The reply has the mark
// to store, or says that there is no such row since the mark is the total.
pub fn carry(
    header: Header,
    tops: &[u32],
    ends: &[u32],
    blocks: &[u32],
    adjustments: &[u32],
    buckets: u32,
    bins: u32,
    words: &mut [u32],
    mark: u32,
) -> CarryReply
    ensures value { result ≡ carry_reply (growth header (arrays tops.now ends.now blocks.now adjustments.now) (sizes buckets bins)) every words.old mark }
    ensures words_left { words.new
        ≡ carry_words (growth header (arrays tops.now ends.now blocks.now adjustments.now) (sizes buckets bins)) every words.old mark }
{
    let done = carried(
        header,
        tops,
        ends,
        blocks,
        adjustments,
        buckets,
        bins,
        None,
        words,
        mark,
    );
    CarryReply::from(done)
}

// The same, but `bits` has one bit for every old bucket, and the word of a blank one is not copied.
pub fn carry_written(
    header: Header,
    tops: &[u32],
    ends: &[u32],
    blocks: &[u32],
    adjustments: &[u32],
    buckets: u32,
    bins: u32,
    bits: &[u64],
    words: &mut [u32],
    mark: u32,
) -> CarryReply
    ensures value { result
        ≡ carry_reply (growth header (arrays tops.now ends.now blocks.now adjustments.now) (sizes buckets bins)) (told_bits bits.now)
        words.old mark }
    ensures words_left { words.new
        ≡ carry_words (growth header (arrays tops.now ends.now blocks.now adjustments.now) (sizes buckets bins)) (told_bits bits.now)
        words.old mark }
{
    let answer = carried(
        header,
        tops,
        ends,
        blocks,
        adjustments,
        buckets,
        bins,
        Some(bits),
        words,
        mark,
    );
    CarryReply::from(answer)
}
