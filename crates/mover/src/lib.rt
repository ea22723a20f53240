// The mover: one call carries the word of one moved bucket to its new place. What is proved of runs of calls, power cuts included,
// is in specs/Claims.antt.
#![tactic(auto)]

ghost use Rattle.std.specs.Prelude.{◌<◌, [], ◌∷◌, ◌≡◌, IfOk, length, get_or, set};
ghost use Rattle.model.specs.Table.{sizes, arrays};
ghost use Rattle.model.specs.Refusal.{first};
ghost use Rattle.model.specs.Results.{refusal_of, carry_told};
ghost use Rattle.table.specs.Formed.{arrays_of};
ghost use Rattle.soundness.specs.Passed.{TableOf};
ghost use Rattle.mover.specs.Carry.{growth, total, word_at, copied, carry_refusal, carry_reply, carry_words};
ghost use Rattle.mover.specs.Ready.{Ready};
ghost use Rattle.mover.specs.Claims.{CarryClaims};

use expansion_plan::growth_allowed;
use model::given::Carried;
use model::refusal::Refusal;
use model::reply::CarryReply;
use model::table::Header;
use relocations::relocation_count;
use row_places::row_places;
use soundness::check;
use table::FormedTable;

// What is proved of runs of calls (specs/Claims.antt).
pub fn claims()
    ensures { CarryClaims }
{}

// Where the word of a place is: a product of two 32-bit numbers, and a third, fit in 64 bits.
fn word_at(capacity: u32, bin: u32, position: u32) -> usize
    ensures { result ≡ word_at capacity bin position }
{
    bin as usize * capacity as usize + position as usize
}

// A word copied.
fn copy_word(words: &mut [u32], from: usize, to: usize)
    requires { (from < length words.old) × (to < length words.old) }
    ensures { words.new ≡ set words.old to (get_or words.old from 0) }
{
    words[to] = words[from];
}

// A row of the move list: the word of its old place copied to its new one.
fn carry_row(table: FormedTable, buckets: u32, bins: u32, words: &mut [u32], order: u32)
    requires ready { Ready (growth table.header (arrays_of table) (sizes buckets bins)) words.old }
    requires order_bound { order < total (growth table.header (arrays_of table) (sizes buckets bins)) }
    ensures { words.new ≡ copied (growth table.entry.header (arrays_of table.entry) (sizes buckets bins)) order words.old }
{
    let places = row_places(table, buckets, bins, order);
    let capacity = table.header.capacity;
    let from = word_at(capacity, places.old.bin, places.old.position);
    let to = word_at(capacity, places.new.bin, places.new.position);
    copy_word(words, from, to)
}

// 40: too few words. 41: a mark above the total.
fn last_allowed(short: bool, past: bool) -> Result<(), Refusal>
    ensures { refusal_of result ≡ first ((40, short) ∷ (41, past) ∷ []) }
{
    if short {
        return Err(Refusal::WordsShort);
    }
    if past {
        return Err(Refusal::MarkPast);
    }
    Ok(())
}

// The tests of a call in their order: the table, and how many rows there are.
fn tested<'a>(
    header: Header,
    tops: &'a [u32],
    ends: &'a [u32],
    blocks: &'a [u32],
    adjustments: &'a [u32],
    buckets: u32,
    bins: u32,
    words: &[u32],
    mark: u32,
) -> Result<(FormedTable<'a>, u32), Refusal>
    ensures refusal { refusal_of result
        ≡ carry_refusal (growth header (arrays tops.now ends.now blocks.now adjustments.now) (sizes buckets bins)) words.now mark }
    ensures table { IfOk result (λ r. TableOf header tops.now ends.now blocks.now adjustments.now r.0) }
    ensures total { IfOk result
        (λ r. r.1 ≡ total (growth header (arrays tops.now ends.now blocks.now adjustments.now) (sizes buckets bins))) }
{
    let table = check(header, tops, ends, blocks, adjustments)?;
    growth_allowed(header, tops, buckets, bins)?;
    let total = relocation_count(header, tops, buckets, bins);
    let short = words.len() < word_at(header.capacity, bins, 0);
    last_allowed(short, total < mark)?;
    Ok((table, total))
}

// What `carry` does and answers.
fn carried(
    header: Header,
    tops: &[u32],
    ends: &[u32],
    blocks: &[u32],
    adjustments: &[u32],
    buckets: u32,
    bins: u32,
    words: &mut [u32],
    mark: u32,
) -> Result<Carried, Refusal>
    ensures value { carry_told result
        ≡ carry_reply (growth header (arrays tops.now ends.now blocks.now adjustments.now) (sizes buckets bins)) words.old mark }
    ensures words_left { words.new
        ≡ carry_words (growth header (arrays tops.now ends.now blocks.now adjustments.now) (sizes buckets bins)) words.old mark }
{
    let (table, total) = tested(
        header,
        tops,
        ends,
        blocks,
        adjustments,
        buckets,
        bins,
        words,
        mark,
    )?;
    if total == mark {
        return Ok(Carried {
            mark,
            finished: true,
        });
    }
    carry_row(table, buckets, bins, words, mark);
    Ok(Carried {
        mark: mark + 1,
        finished: false,
    })
}

// The row of order number `mark` of a growth's move list: copies the word at its old place to its new one. The reply has the mark
// to store, or says that there is no such row since the mark is the total.
pub fn carry(
    header: Header,
    tops: &[u32],
    ends: &[u32],
    blocks: &[u32],
    adjustments: &[u32],
    buckets: u32,
    bins: u32,
    words: &mut [u32],
    mark: u32,
) -> CarryReply
    ensures value { result ≡ carry_reply (growth header (arrays tops.now ends.now blocks.now adjustments.now) (sizes buckets bins)) words.old mark }
    ensures words_left { words.new
        ≡ carry_words (growth header (arrays tops.now ends.now blocks.now adjustments.now) (sizes buckets bins)) words.old mark }
{
    let told = carried(
        header,
        tops,
        ends,
        blocks,
        adjustments,
        buckets,
        bins,
        words,
        mark,
    );
    CarryReply::from(told)
}
