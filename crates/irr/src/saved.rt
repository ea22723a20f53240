// The saved form of a table, and back: document 01's tests in their order, then the value.
ghost use Rattle.std.specs.Prelude.{◌≡◌};
ghost use Rattle.model.specs.Table.{arrays};
ghost use Rattle.model.specs.Calls.{save_reply, save_bytes, load_reply, load_arrays};
ghost use Rattle.model.specs.Results.{save_told, load_told};

use model::refusal::Refusal;
use model::table::Header;
use soundness::check;

pub fn save(
    header: Header,
    tops: &[u32],
    ends: &[u32],
    blocks: &[u32],
    adjustments: &[u32],
    buffer: &mut [u8],
) -> Result<u32, Refusal>
    ensures value { save_told result ≡ save_reply header (arrays tops.now ends.now blocks.now adjustments.now) buffer.old }
    ensures buffer_left { buffer.new ≡ save_bytes header (arrays tops.now ends.now blocks.now adjustments.now) buffer.old }
{
    check(header, tops, ends, blocks, adjustments)?;
    file_save::saved(header, tops, ends, blocks, buffer)
}

pub fn load(
    bytes: &[u8],
    capacity: u32,
    tops: &mut [u32],
    ends: &mut [u32],
    blocks: &mut [u32],
    adjustments: &mut [u32],
) -> Result<Header, Refusal>
    ensures value { load_told result ≡ load_reply bytes.now capacity (arrays tops.old ends.old blocks.old adjustments.old) }
    ensures arrays_left { arrays tops.new ends.new blocks.new adjustments.new ≡ load_arrays bytes.now capacity (arrays tops.old ends.old blocks.old adjustments.old) }
{
    if sizes::room_short(tops, ends, blocks, adjustments) {
        return Err(Refusal::RoomShort);
    }
    file_load::loaded(bytes, capacity, tops, ends, blocks, adjustments)
}
