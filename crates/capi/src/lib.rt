// The twelve calls for C, declared in include/irr.h: each is the call of `irr` or `mover` of its name, with its contract. A slice is
// a pointer and a length.
#![tactic(auto)]

ghost use Rattle.std.specs.Prelude.{◌≡◌};
ghost use Rattle.model.specs.Calls.{initial_reply, initial_arrays, expand_reply, expand_arrays, relocations_reply, relocations_rows, place_reply, places_reply, places_after, find_reply, bin_size_reply, room_reply, save_reply, save_bytes, load_reply, load_arrays, sheet_reply, sheet_bytes};
ghost use Rattle.model.specs.Table.{sizes, arrays};
ghost use Rattle.mover.specs.Carry.{growth, carry_reply, carry_words};

use model::reply::{
    BinSizeReply, CarryReply, FindReply, LoadReply, PlaceReply, PlacesReply, RelocationsReply,
    RoomReply, SaveReply, SheetReply, TableReply,
};
use model::table::Header;

#[unsafe(no_mangle)]
pub extern "C" fn irr_initial(
    buckets: u32,
    bins: u32,
    capacity: u32,
    tops: &mut [u32],
    ends: &mut [u32],
    blocks: &mut [u32],
    adjustments: &mut [u32],
) -> TableReply
    ensures value { result ≡ initial_reply (sizes buckets bins) capacity (arrays tops.old ends.old blocks.old adjustments.old) }
    ensures arrays_left { arrays tops.new ends.new blocks.new adjustments.new ≡ initial_arrays (sizes buckets bins) capacity (arrays tops.old ends.old blocks.old adjustments.old) }
{
    irr::initial(buckets, bins, capacity, tops, ends, blocks, adjustments)
}

#[unsafe(no_mangle)]
pub extern "C" fn irr_expand(
    header: Header,
    tops: &[u32],
    ends: &[u32],
    blocks: &[u32],
    adjustments: &[u32],
    buckets: u32,
    bins: u32,
    new_tops: &mut [u32],
    new_ends: &mut [u32],
    new_blocks: &mut [u32],
    new_adjustments: &mut [u32],
) -> TableReply
    ensures value { result ≡ expand_reply header (arrays tops.now ends.now blocks.now adjustments.now) (sizes buckets bins)
        (arrays new_tops.old new_ends.old new_blocks.old new_adjustments.old) }
    ensures arrays_left { arrays new_tops.new new_ends.new new_blocks.new new_adjustments.new ≡ expand_arrays header (arrays tops.now ends.now blocks.now adjustments.now)
        (sizes buckets bins) (arrays new_tops.old new_ends.old new_blocks.old new_adjustments.old) }
{
    irr::expand(
        header,
        tops,
        ends,
        blocks,
        adjustments,
        buckets,
        bins,
        new_tops,
        new_ends,
        new_blocks,
        new_adjustments,
    )
}

#[unsafe(no_mangle)]
pub extern "C" fn irr_relocations(
    header: Header,
    tops: &[u32],
    ends: &[u32],
    blocks: &[u32],
    adjustments: &[u32],
    buckets: u32,
    bins: u32,
    first: u32,
    rows: &mut [u32],
) -> RelocationsReply
    ensures value { result ≡ relocations_reply header (arrays tops.now ends.now blocks.now adjustments.now) (sizes buckets bins) first rows.old }
    ensures rows_left { rows.new ≡ relocations_rows header (arrays tops.now ends.now blocks.now adjustments.now) (sizes buckets bins) first rows.old }
{
    irr::relocations(
        header,
        tops,
        ends,
        blocks,
        adjustments,
        buckets,
        bins,
        first,
        rows,
    )
}

#[unsafe(no_mangle)]
pub extern "C" fn irr_place(
    header: Header,
    tops: &[u32],
    ends: &[u32],
    blocks: &[u32],
    adjustments: &[u32],
    bucket: u32,
) -> PlaceReply
    ensures { result ≡ place_reply header (arrays tops.now ends.now blocks.now adjustments.now) bucket }
{
    irr::place(header, tops, ends, blocks, adjustments, bucket)
}

#[unsafe(no_mangle)]
pub extern "C" fn irr_places(
    header: Header,
    tops: &[u32],
    ends: &[u32],
    blocks: &[u32],
    adjustments: &[u32],
    buckets: &[u32],
    places: &mut [u32],
) -> PlacesReply
    ensures value { result ≡ places_reply header (arrays tops.now ends.now blocks.now adjustments.now) buckets.now places.old }
    ensures places_left { places.new ≡ places_after header (arrays tops.now ends.now blocks.now adjustments.now) buckets.now places.old }
{
    irr::places(header, tops, ends, blocks, adjustments, buckets, places)
}

#[unsafe(no_mangle)]
pub extern "C" fn irr_find(
    header: Header,
    tops: &[u32],
    ends: &[u32],
    blocks: &[u32],
    adjustments: &[u32],
    bin: u32,
    position: u32,
) -> FindReply
    ensures { result ≡ find_reply header (arrays tops.now ends.now blocks.now adjustments.now) bin position }
{
    irr::find(header, tops, ends, blocks, adjustments, bin, position)
}

#[unsafe(no_mangle)]
pub extern "C" fn irr_bin_size(
    header: Header,
    tops: &[u32],
    ends: &[u32],
    blocks: &[u32],
    adjustments: &[u32],
    bin: u32,
) -> BinSizeReply
    ensures { result ≡ bin_size_reply header (arrays tops.now ends.now blocks.now adjustments.now) bin }
{
    irr::bin_size(header, tops, ends, blocks, adjustments, bin)
}

#[unsafe(no_mangle)]
pub extern "C" fn irr_room(expansions: u32) -> RoomReply
    ensures { result ≡ room_reply expansions }
{
    irr::room(expansions)
}

#[unsafe(no_mangle)]
pub extern "C" fn irr_save(
    header: Header,
    tops: &[u32],
    ends: &[u32],
    blocks: &[u32],
    adjustments: &[u32],
    buffer: &mut [u8],
) -> SaveReply
    ensures value { result ≡ save_reply header (arrays tops.now ends.now blocks.now adjustments.now) buffer.old }
    ensures buffer_left { buffer.new ≡ save_bytes header (arrays tops.now ends.now blocks.now adjustments.now) buffer.old }
{
    irr::save(header, tops, ends, blocks, adjustments, buffer)
}

#[unsafe(no_mangle)]
pub extern "C" fn irr_load(
    bytes: &[u8],
    capacity: u32,
    tops: &mut [u32],
    ends: &mut [u32],
    blocks: &mut [u32],
    adjustments: &mut [u32],
) -> LoadReply
    ensures value { result ≡ load_reply bytes.now capacity (arrays tops.old ends.old blocks.old adjustments.old) }
    ensures arrays_left { arrays tops.new ends.new blocks.new adjustments.new ≡ load_arrays bytes.now capacity (arrays tops.old ends.old blocks.old adjustments.old) }
{
    irr::load(bytes, capacity, tops, ends, blocks, adjustments)
}

#[unsafe(no_mangle)]
pub extern "C" fn irr_sheet(
    header: Header,
    tops: &[u32],
    ends: &[u32],
    blocks: &[u32],
    adjustments: &[u32],
    buffer: &mut [u8],
) -> SheetReply
    ensures value { result ≡ sheet_reply header (arrays tops.now ends.now blocks.now adjustments.now) buffer.old }
    ensures buffer_left { buffer.new ≡ sheet_bytes header (arrays tops.now ends.now blocks.now adjustments.now) buffer.old }
{
    irr::sheet(header, tops, ends, blocks, adjustments, buffer)
}

#[unsafe(no_mangle)]
pub extern "C" fn irr_carry(
    header: Header,
    tops: &[u32],
    ends: &[u32],
    blocks: &[u32],
    adjustments: &[u32],
    buckets: u32,
    bins: u32,
    words: &mut [u32],
    mark: u32,
) -> CarryReply
    ensures value { result ≡ carry_reply (growth header (arrays tops.now ends.now blocks.now adjustments.now) (sizes buckets bins)) words.old mark }
    ensures words_left { words.new
        ≡ carry_words (growth header (arrays tops.now ends.now blocks.now adjustments.now) (sizes buckets bins)) words.old mark }
{
    mover::carry(
        header,
        tops,
        ends,
        blocks,
        adjustments,
        buckets,
        bins,
        words,
        mark,
    )
}
