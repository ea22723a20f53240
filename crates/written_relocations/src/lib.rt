// How many of the buckets that a growth moves are written.
#![tactic(auto)]

ghost use Rattle.std.specs.Prelude.{◌*◌, ◌≤◌, ◌≡◌, length};
ghost use Rattle.model.specs.Table.{Shape, arrays, sizes};
ghost use Rattle.model.specs.Refusal.{first};
ghost use Rattle.model.specs.Expansion.{expanded};
ghost use Rattle.model.specs.Calls.{growth_tests};
ghost use Rattle.model.specs.Results.{written_told};
ghost use Rattle.table.specs.Formed.{table_of, arrays_of};
ghost use Rattle.written_relocations.specs.Count.{written_moved, written_reply};
ghost use Rattle.written_relocations.specs.Walk.{Drains};

use expansion_plan::{dues_after, growth_allowed, plan_at, some_fall};
use model::limits::BLOCKS;
use model::refusal::Refusal;
use model::reply::WrittenReply;
use model::table::Header;
use soundness::check;
use table::FormedTable;
use written::{among, bits_short};

// Over the old intervals, where some old block is due less than it has and `dues` is what each is due: what moves of an interval is
// its last buckets, as many as its plan moves where none have moved before it.
fn count_moved(table: FormedTable, dues: &[u32; BLOCKS], bits: &[u64]) -> u32
    requires { (s : Shape) × Drains table.header (arrays_of table) s dues.now bits.now }
    ensures { (s : Shape) → Drains table.entry.header (arrays_of table.entry) s dues.now bits.now
        → result ≡ written_moved (table_of table.entry) (expanded (table_of table.entry) s) bits.now }
{
    let mut n: u32 = 0;
    let mut start: u32 = 0;
    for i in 0..table.header.interval_count as usize {
        let plan = plan_at(table, dues, i, start, 0);
        let end = table.ends[i];
        let moved = plan.moved;
        let first = end - moved;
        n += among(bits, first, end);
        start = end;
    }
    n
}

// The moved buckets of the growth that are written.
fn written_moved(table: FormedTable, buckets: u32, bins: u32, bits: &[u64]) -> u32
    requires bins_value { first (growth_tests (table_of table) (sizes buckets bins)) ≡ 0 }
    requires buckets_bound { table.header.buckets ≤ 64 * length bits.now }
    ensures { result ≡ written_moved (table_of table.entry) (expanded (table_of table.entry) (sizes buckets bins)) bits.now }
{
    if !some_fall(table.header, table.tops, buckets, bins) {
        return 0;
    }
    let mut dues = [0u32; BLOCKS];
    dues_after(table.header, table.tops, buckets, bins, &mut dues);
    count_moved(table, &dues, bits)
}

// What `written_relocations` answers.
fn counted(
    header: Header,
    tops: &[u32],
    ends: &[u32],
    blocks: &[u32],
    adjustments: &[u32],
    buckets: u32,
    bins: u32,
    bits: &[u64],
) -> Result<u32, Refusal>
    ensures { written_told result ≡ written_reply header (arrays tops.now ends.now blocks.now adjustments.now) (sizes buckets bins) bits.now }
{
    let table = check(header, tops, ends, blocks, adjustments)?;
    growth_allowed(header, tops, buckets, bins)?;
    if bits_short(bits, header.buckets) {
        return Err(Refusal::BitsShort);
    }
    Ok(written_moved(table, buckets, bins, bits))
}

// How many of the buckets that the growth moves are written; `bits` has one bit for every old bucket.
pub fn written_relocations(
    header: Header,
    tops: &[u32],
    ends: &[u32],
    blocks: &[u32],
    adjustments: &[u32],
    buckets: u32,
    bins: u32,
    bits: &[u64],
) -> WrittenReply
    ensures { result ≡ written_reply header (arrays tops.now ends.now blocks.now adjustments.now) (sizes buckets bins) bits.now }
{
    let told = counted(header, tops, ends, blocks, adjustments, buckets, bins, bits);
    WrittenReply::from(told)
}
