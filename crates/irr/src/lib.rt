// The public calls of the placement map. Each takes any numbers and any arrays, and answers the full result or one refusal
// number of document 01. A lent table is a header and four arrays: tops, ends, blocks, adjustments.
#![tactic(auto)]

ghost use Rattle.std.specs.Prelude.{◌≡◌};
ghost use Rattle.model.specs.Table.{sizes, arrays};
ghost use Rattle.model.specs.Calls.{initial_reply, initial_arrays, expand_reply, expand_arrays, relocations_reply, relocations_rows, place_reply, places_reply, places_after, find_reply, bin_size_reply, room_reply, save_reply, save_bytes, load_reply, load_arrays, sheet_reply, sheet_bytes};

mod results;
mod saved;

use model::reply::{
    BinSizeReply, FindReply, LoadReply, PlaceReply, PlacesReply, RelocationsReply, RoomReply,
    SaveReply, SheetReply, TableReply,
};
use model::table::Header;

// A fresh map: writes the table of `buckets` in `bins` of the given capacity to the four arrays.
pub fn initial(
    buckets: u32,
    bins: u32,
    capacity: u32,
    tops: &mut [u32],
    ends: &mut [u32],
    blocks: &mut [u32],
    adjustments: &mut [u32],
) -> TableReply
    ensures value { result ≡ initial_reply (sizes buckets bins) capacity (arrays tops.old ends.old blocks.old adjustments.old) }
    ensures arrays_left { arrays tops.new ends.new blocks.new adjustments.new ≡ initial_arrays (sizes buckets bins) capacity (arrays tops.old ends.old blocks.old adjustments.old) }
{
    TableReply::from(results::initial(buckets, bins, capacity, tops, ends, blocks, adjustments))
}

// A growth: writes the table of `buckets` in `bins` that follows the lent one to four other arrays.
pub fn expand(
    header: Header,
    tops: &[u32],
    ends: &[u32],
    blocks: &[u32],
    adjustments: &[u32],
    buckets: u32,
    bins: u32,
    new_tops: &mut [u32],
    new_ends: &mut [u32],
    new_blocks: &mut [u32],
    new_adjustments: &mut [u32],
) -> TableReply
    ensures value { result ≡ expand_reply header (arrays tops.now ends.now blocks.now adjustments.now) (sizes buckets bins)
        (arrays new_tops.old new_ends.old new_blocks.old new_adjustments.old) }
    ensures arrays_left { arrays new_tops.new new_ends.new new_blocks.new new_adjustments.new ≡ expand_arrays header (arrays tops.now ends.now blocks.now adjustments.now)
        (sizes buckets bins) (arrays new_tops.old new_ends.old new_blocks.old new_adjustments.old) }
{
    TableReply::from(results::expand(
        header,
        tops,
        ends,
        blocks,
        adjustments,
        buckets,
        bins,
        new_tops,
        new_ends,
        new_blocks,
        new_adjustments,
    ))
}

// The move list of a growth: rows of five numbers from order number `first` on, written to `rows`.
pub fn relocations(
    header: Header,
    tops: &[u32],
    ends: &[u32],
    blocks: &[u32],
    adjustments: &[u32],
    buckets: u32,
    bins: u32,
    first: u32,
    rows: &mut [u32],
) -> RelocationsReply
    ensures value { result ≡ relocations_reply header (arrays tops.now ends.now blocks.now adjustments.now) (sizes buckets bins) first rows.old }
    ensures rows_left { rows.new ≡ relocations_rows header (arrays tops.now ends.now blocks.now adjustments.now) (sizes buckets bins) first rows.old }
{
    RelocationsReply::from(results::relocations(
        header,
        tops,
        ends,
        blocks,
        adjustments,
        buckets,
        bins,
        first,
        rows,
    ))
}

// The bin and position of a bucket.
pub fn place(
    header: Header,
    tops: &[u32],
    ends: &[u32],
    blocks: &[u32],
    adjustments: &[u32],
    bucket: u32,
) -> PlaceReply
    ensures { result ≡ place_reply header (arrays tops.now ends.now blocks.now adjustments.now) bucket }
{
    PlaceReply::from(results::place(header, tops, ends, blocks, adjustments, bucket))
}

// The bins and positions of a list of buckets that does not fall, written to `places`: two numbers a bucket, in turn.
pub fn places(
    header: Header,
    tops: &[u32],
    ends: &[u32],
    blocks: &[u32],
    adjustments: &[u32],
    buckets: &[u32],
    places: &mut [u32],
) -> PlacesReply
    ensures value { result ≡ places_reply header (arrays tops.now ends.now blocks.now adjustments.now) buckets.now places.old }
    ensures places_left { places.new ≡ places_after header (arrays tops.now ends.now blocks.now adjustments.now) buckets.now places.old }
{
    PlacesReply::from(results::places(header, tops, ends, blocks, adjustments, buckets, places))
}

// The bucket at a position of a bin.
pub fn find(
    header: Header,
    tops: &[u32],
    ends: &[u32],
    blocks: &[u32],
    adjustments: &[u32],
    bin: u32,
    position: u32,
) -> FindReply
    ensures { result ≡ find_reply header (arrays tops.now ends.now blocks.now adjustments.now) bin position }
{
    FindReply::from(results::find(header, tops, ends, blocks, adjustments, bin, position))
}

// The number of buckets in a bin.
pub fn bin_size(
    header: Header,
    tops: &[u32],
    ends: &[u32],
    blocks: &[u32],
    adjustments: &[u32],
    bin: u32,
) -> BinSizeReply
    ensures { result ≡ bin_size_reply header (arrays tops.now ends.now blocks.now adjustments.now) bin }
{
    BinSizeReply::from(results::bin_size(header, tops, ends, blocks, adjustments, bin))
}

// The intervals to set aside for a number of expansions.
pub fn room(expansions: u32) -> RoomReply
    ensures { result ≡ room_reply expansions }
{
    RoomReply::from(sizes::room(expansions))
}

// The saved form of a table, written to `buffer`.
pub fn save(
    header: Header,
    tops: &[u32],
    ends: &[u32],
    blocks: &[u32],
    adjustments: &[u32],
    buffer: &mut [u8],
) -> SaveReply
    ensures value { result ≡ save_reply header (arrays tops.now ends.now blocks.now adjustments.now) buffer.old }
    ensures buffer_left { buffer.new ≡ save_bytes header (arrays tops.now ends.now blocks.now adjustments.now) buffer.old }
{
    SaveReply::from(saved::save(header, tops, ends, blocks, adjustments, buffer))
}

// The table of a saved map, with the given capacity, written to the four arrays; the adjustments are worked out.
pub fn load(
    bytes: &[u8],
    capacity: u32,
    tops: &mut [u32],
    ends: &mut [u32],
    blocks: &mut [u32],
    adjustments: &mut [u32],
) -> LoadReply
    ensures value { result ≡ load_reply bytes.now capacity (arrays tops.old ends.old blocks.old adjustments.old) }
    ensures arrays_left { arrays tops.new ends.new blocks.new adjustments.new ≡ load_arrays bytes.now capacity (arrays tops.old ends.old blocks.old adjustments.old) }
{
    LoadReply::from(saved::load(bytes, capacity, tops, ends, blocks, adjustments))
}

// The rack sheet of a table, a line an interval, written to `buffer`.
pub fn sheet(
    header: Header,
    tops: &[u32],
    ends: &[u32],
    blocks: &[u32],
    adjustments: &[u32],
    buffer: &mut [u8],
) -> SheetReply
    ensures value { result ≡ sheet_reply header (arrays tops.now ends.now blocks.now adjustments.now) buffer.old }
    ensures buffer_left { buffer.new ≡ sheet_bytes header (arrays tops.now ends.now blocks.now adjustments.now) buffer.old }
{
    SheetReply::from(results::sheet(header, tops, ends, blocks, adjustments, buffer))
}
