// What each call gives: document 01's tests in their order, then the value. A call's reply is made of it.
ghost use Rattle.std.specs.Prelude.{◌≡◌};
ghost use Rattle.model.specs.Table.{sizes, arrays};
ghost use Rattle.model.specs.Calls.{initial_reply, initial_arrays, expand_reply, expand_arrays, relocations_reply, relocations_rows, place_reply, places_reply, places_after, find_reply, bin_size_reply, sheet_reply, sheet_bytes};
ghost use Rattle.model.specs.Results.{table_told, relocations_told, place_told, places_told, find_told, bin_size_told, sheet_told};

use model::given::{Grown, Page, Slot};
use model::refusal::Refusal;
use model::table::Header;
use soundness::check;

pub fn initial(
    buckets: u32,
    bins: u32,
    capacity: u32,
    tops: &mut [u32],
    ends: &mut [u32],
    blocks: &mut [u32],
    adjustments: &mut [u32],
) -> Result<Grown, Refusal>
    ensures value { table_told result ≡ initial_reply (sizes buckets bins) capacity (arrays tops.old ends.old blocks.old adjustments.old) }
    ensures arrays_left { arrays tops.new ends.new blocks.new adjustments.new ≡ initial_arrays (sizes buckets bins) capacity (arrays tops.old ends.old blocks.old adjustments.old) }
{
    if sizes::room_short(tops, ends, blocks, adjustments) {
        return Err(Refusal::RoomShort);
    }
    fresh::mapped(buckets, bins, capacity, tops, ends, blocks, adjustments)
}

pub fn expand(
    header: Header,
    tops: &[u32],
    ends: &[u32],
    blocks: &[u32],
    adjustments: &[u32],
    buckets: u32,
    bins: u32,
    new_tops: &mut [u32],
    new_ends: &mut [u32],
    new_blocks: &mut [u32],
    new_adjustments: &mut [u32],
) -> Result<Grown, Refusal>
    ensures value { table_told result ≡ expand_reply header (arrays tops.now ends.now blocks.now adjustments.now) (sizes buckets bins)
        (arrays new_tops.old new_ends.old new_blocks.old new_adjustments.old) }
    ensures arrays_left { arrays new_tops.new new_ends.new new_blocks.new new_adjustments.new ≡ expand_arrays header (arrays tops.now ends.now blocks.now adjustments.now)
        (sizes buckets bins) (arrays new_tops.old new_ends.old new_blocks.old new_adjustments.old) }
{
    if sizes::room_short(new_tops, new_ends, new_blocks, new_adjustments) {
        return Err(Refusal::RoomShort);
    }
    let table = check(header, tops, ends, blocks, adjustments)?;
    expansion::grown(
        table,
        buckets,
        bins,
        new_tops,
        new_ends,
        new_blocks,
        new_adjustments,
    )
}

pub fn relocations(
    header: Header,
    tops: &[u32],
    ends: &[u32],
    blocks: &[u32],
    adjustments: &[u32],
    buckets: u32,
    bins: u32,
    first: u32,
    rows: &mut [u32],
) -> Result<Page, Refusal>
    ensures value { relocations_told result ≡ relocations_reply header (arrays tops.now ends.now blocks.now adjustments.now) (sizes buckets bins) first rows.old }
    ensures rows_left { rows.new ≡ relocations_rows header (arrays tops.now ends.now blocks.now adjustments.now) (sizes buckets bins) first rows.old }
{
    let table = check(header, tops, ends, blocks, adjustments)?;
    expansion::relocated(table, buckets, bins, first, rows)
}

pub fn place(
    header: Header,
    tops: &[u32],
    ends: &[u32],
    blocks: &[u32],
    adjustments: &[u32],
    bucket: u32,
) -> Result<Slot, Refusal>
    ensures { place_told result ≡ place_reply header (arrays tops.now ends.now blocks.now adjustments.now) bucket }
{
    let table = check(header, tops, ends, blocks, adjustments)?;
    lookup::placed(table, bucket)
}

pub fn places(
    header: Header,
    tops: &[u32],
    ends: &[u32],
    blocks: &[u32],
    adjustments: &[u32],
    buckets: &[u32],
    places: &mut [u32],
) -> Result<(), Refusal>
    ensures value { places_told result ≡ places_reply header (arrays tops.now ends.now blocks.now adjustments.now) buckets.now places.old }
    ensures places_left { places.new ≡ places_after header (arrays tops.now ends.now blocks.now adjustments.now) buckets.now places.old }
{
    // two numbers a bucket, without a product that may pass the largest usize
    if places.len() / 2 < buckets.len() {
        return Err(Refusal::ResultShort);
    }
    let table = check(header, tops, ends, blocks, adjustments)?;
    batch::placed_each(table, buckets, places)
}

pub fn find(
    header: Header,
    tops: &[u32],
    ends: &[u32],
    blocks: &[u32],
    adjustments: &[u32],
    bin: u32,
    position: u32,
) -> Result<u32, Refusal>
    ensures { find_told result ≡ find_reply header (arrays tops.now ends.now blocks.now adjustments.now) bin position }
{
    let table = check(header, tops, ends, blocks, adjustments)?;
    lookup::found(table, bin, position)
}

pub fn bin_size(
    header: Header,
    tops: &[u32],
    ends: &[u32],
    blocks: &[u32],
    adjustments: &[u32],
    bin: u32,
) -> Result<u32, Refusal>
    ensures { bin_size_told result ≡ bin_size_reply header (arrays tops.now ends.now blocks.now adjustments.now) bin }
{
    // The check asks this too. Asked here, the compiler takes each length by itself: a pointer and a length that it copies at once,
    // since nothing else here reads them, wait for the caller's stores of the two.
    if soundness::arrays_short(header, tops, ends, blocks, adjustments) {
        return Err(Refusal::HeaderWrong);
    }
    check(header, tops, ends, blocks, adjustments)?;
    lookup::sized(header, tops, bin)
}

pub fn sheet(
    header: Header,
    tops: &[u32],
    ends: &[u32],
    blocks: &[u32],
    adjustments: &[u32],
    buffer: &mut [u8],
) -> Result<u32, Refusal>
    ensures value { sheet_told result ≡ sheet_reply header (arrays tops.now ends.now blocks.now adjustments.now) buffer.old }
    ensures buffer_left { buffer.new ≡ sheet_bytes header (arrays tops.now ends.now blocks.now adjustments.now) buffer.old }
{
    check(header, tops, ends, blocks, adjustments)?;
    sheet::printed(header, tops, ends, blocks, buffer)
}
