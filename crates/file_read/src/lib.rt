// A file's rule 11, and its numbers: read into arrays, and written out as a table.
#![tactic(auto)]

ghost use Rattle.std.specs.Prelude.{◌≡◌, ◌+◌, ◌*◌, ◌≤◌, length};
ghost use Rattle.model.specs.Basics.{from};
ghost use Rattle.model.specs.Limits.{max_intervals};
ghost use Rattle.model.specs.Table.{over, arrays};
ghost use Rattle.model.specs.Saved.{number, file_wrong};
ghost use Rattle.file_rules.specs.Judging.{file_arrays};
ghost use Rattle.file_read.specs.Opening.{Opened, out_over};

use file_number::{header_of, number_at};
use file_rules::File;
use model::limits::INTERVALS;
use soundness::header_outside;
use table::copy;

// 11: B, G or k outside its limits, or a file of another length.
pub fn file_wrong(f: &[u8], capacity: u32) -> bool
    ensures { result ≡ file_wrong f.now capacity }
{
    if f.len() < 12 {
        return true;
    }
    let h = header_of(f, capacity);
    if header_outside(h) {
        return true;
    }
    f.len() != 12 + 4 * (h.block_count as usize) + 8 * (h.interval_count as usize)
}

// Reads `count` numbers of the file, from number `first` on, over the first entries of an array.
pub fn read_numbers(f: &[u8], first: usize, count: usize, out: &mut [u32])
    requires { (4 * (first + count) ≤ length f.now) × (count ≤ length out.old) }
    ensures { out.new ≡ over (from (number f.now) first count) out.old }
{
    for i in 0..count {
        out[i] = number_at(f, first + i);
    }
}

// The same over lent entries: by way of a local array, which overlaps neither, so that the compiler moves them as a block and
// drops the local array. It keeps that array where the library's copy is called in place of the loop.
fn copy_numbers(f: &[u8], first: usize, count: usize, out: &mut [u32])
    requires { (4 * (first + count) ≤ length f.now) × (count ≤ length out.old) × (count ≤ max_intervals) }
    ensures { out.new ≡ over (from (number f.now) first count) out.old }
{
    let mut own = [0u32; INTERVALS];
    read_numbers(f, first, count, &mut own);
    for i in 0..count {
        out[i] = own[i];
    }
}

// Decodes a file's tops, ends and blocks over the first entries of arrays.
pub fn decode(file: File, tops: &mut [u32], ends: &mut [u32], blocks: &mut [u32])
    requires { (file.header.block_count ≤ length tops.old) × (file.header.interval_count ≤ length ends.old) ×
        (file.header.interval_count ≤ length blocks.old) }
    ensures tops { tops.new ≡ over (file_arrays file.entry.bytes.now file.entry.header).tops tops.old }
    ensures ends { ends.new ≡ over (file_arrays file.entry.bytes.now file.entry.header).ends ends.old }
    ensures blocks { blocks.new ≡ over (file_arrays file.entry.bytes.now file.entry.header).blocks blocks.old }
{
    let f = file.bytes;
    let block_count = file.header.block_count as usize;
    let interval_count = file.header.interval_count as usize;
    read_numbers(f, 3, block_count, tops);
    read_numbers(f, 3 + block_count, interval_count, ends);
    read_numbers(f, 3 + block_count + interval_count, interval_count, blocks);
}

// Writes a file's table over the first entries of arrays with room for any table, with adjustments of one's own.
pub fn write_out(
    file: File,
    own: &[u32],
    tops: &mut [u32],
    ends: &mut [u32],
    blocks: &mut [u32],
    adjustments: &mut [u32],
)
    requires opened { Opened file.bytes.now file.header (arrays tops.old ends.old blocks.old adjustments.old) }
    requires interval_count_in_bounds { file.header.interval_count ≤ length own.now }
    ensures { arrays tops.new ends.new blocks.new adjustments.new ≡ out_over file.entry.bytes.now file.entry.header own.now (arrays tops.old ends.old blocks.old adjustments.old) }
{
    let f = file.bytes;
    let block_count = file.header.block_count as usize;
    let interval_count = file.header.interval_count as usize;
    copy_numbers(f, 3, block_count, tops);
    copy_numbers(f, 3 + block_count, interval_count, ends);
    copy_numbers(f, 3 + block_count + interval_count, interval_count, blocks);
    copy(own, interval_count, adjustments);
}
