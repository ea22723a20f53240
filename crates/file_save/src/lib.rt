// Saving: document 01, 'A saved map has 4-byte numbers, low byte first'.
#![tactic(auto)]

ghost use Rattle.std.specs.Prelude.{◌≡◌, [], map, ◌+◌, ◌*◌, ◌≤◌, length};
ghost use Rattle.std.proofs.lemmas.List.Edits.{sets};
ghost use Rattle.model.specs.Basics.{joined};
ghost use Rattle.model.specs.Limits.{max_intervals};
ghost use Rattle.model.specs.Table.{arrays, table, over};
ghost use Rattle.model.specs.Lent.{SpansFormed};
ghost use Rattle.model.specs.Refusal.{first};
ghost use Rattle.model.specs.Results.{save_told};
ghost use Rattle.model.specs.Saved.{bytes_of, saved as saved_of, saved_length};
ghost use Rattle.model.specs.Calls.{save_tests};
ghost use Rattle.file_save.specs.Saving.{save_answer, save_after};

use file_number::put_number;
use model::limits::INTERVALS;
use model::refusal::Refusal;
use model::table::Header;
use table::copy;

// Writes the numbers over the bytes from `at` on.
fn put_each(xs: &[u32], out: &mut [u8], at: usize)
    requires { at + 4 * length xs.now ≤ length out.old }
    ensures { out.new ≡ sets out.old at (joined (map bytes_of xs.now)) }
{
    for (i, x) in xs.iter().enumerate() {
        put_number(out, at + 4 * i, *x);
    }
}

// So many numbers are worth a move as a block.
const MANY: usize = 256;

// The same of numbers of intervals: many of them by way of a local array, which does not overlap the bytes, so that the
// compiler moves them as a block and drops the local array.
fn put_numbers(xs: &[u32], out: &mut [u8], at: usize)
    requires { (length xs.now ≤ max_intervals) × (at + 4 * length xs.now ≤ length out.old) }
    ensures { out.new ≡ sets out.old at (joined (map bytes_of xs.now)) }
{
    if xs.len() < MANY {
        put_each(xs, out, at);
        return;
    }
    let mut own = [0u32; INTERVALS];
    copy(xs, xs.len(), &mut own);
    put_each(&own[..xs.len()], out, at);
}

// Writes a table: B, G, k, the G tops, then two parallel arrays, k ends and k blocks.
#[tactic(auto, unfolding(model::specs::Saved::saved_length))]
fn write_saved(h: Header, tops: &[u32], ends: &[u32], blocks: &[u32], out: &mut [u8])
    requires { (h.block_count ≤ length tops.now) × (h.interval_count ≤ length ends.now) × (h.interval_count ≤ length blocks.now) ×
        (h.interval_count ≤ max_intervals) × (saved_length h.block_count h.interval_count ≤ length out.old) }
    ensures { out.new ≡ over (saved_of (table h (arrays tops.now ends.now blocks.now []))) out.old }
{
    let block_count = h.block_count as usize;
    let interval_count = h.interval_count as usize;
    let ends_at = 12 + 4 * block_count;
    let blocks_at = ends_at + 4 * interval_count;
    put_number(out, 0, h.buckets);
    put_number(out, 4, h.block_count);
    put_number(out, 8, h.interval_count);
    put_each(&tops[..block_count], out, 12);
    put_numbers(&ends[..interval_count], out, ends_at);
    put_numbers(&blocks[..interval_count], out, blocks_at);
}

// The saved form into a buffer, or 21 where that is shorter.
pub fn saved(
    h: Header,
    tops: &[u32],
    ends: &[u32],
    blocks: &[u32],
    buffer: &mut [u8],
) -> Result<u32, Refusal>
    requires { SpansFormed h tops.now ends.now blocks.now }
    ensures value { save_told result ≡ save_answer (first (save_tests h buffer.old)) h }
    ensures buffer_left { buffer.new ≡ save_after (first (save_tests h buffer.old))
        (table h (arrays tops.now ends.now blocks.now [])) buffer.old }
{
    let length = 12 + 4 * h.block_count + 8 * h.interval_count;
    if buffer.len() < length as usize {
        return Err(Refusal::RoomShort);
    }
    write_saved(h, tops, ends, blocks, buffer);
    Ok(length)
}
