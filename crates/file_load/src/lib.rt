// Loading a file: rule 11, and then by an array of its size for its adjustments.
#![tactic(auto)]

ghost use Rattle.std.specs.Prelude.{◌≡◌, false, ◌≤◌};
ghost use Rattle.model.specs.Refusal.{room_short, first};
ghost use Rattle.model.specs.Saved.{loaded_header};
ghost use Rattle.model.specs.Calls.{load_answer, load_tests};
ghost use Rattle.model.specs.Limits.{max_intervals};
ghost use Rattle.model.specs.Table.{arrays};
ghost use Rattle.model.specs.Results.{refusal_of, load_told};
ghost use Rattle.file_read.specs.Opening.{Opened};
ghost use Rattle.file_judged.specs.Loading.{loaded_over, Loaded};

use file_judged::{load_alone, load_by};
use file_number::header_of;
use file_read::file_wrong;
use file_rules::File;
use model::limits::INTERVALS;
use model::refusal::Refusal;
use model::table::Header;

// The intervals of a file that a small array does for, and a middle one: an array of one's own is cleared.
const FEW: usize = 128;

const SOME: usize = 512;

// A file of at most N intervals.
fn load_within<const N: usize>(
    file: File,
    tops: &mut [u32],
    ends: &mut [u32],
    blocks: &mut [u32],
    adjustments: &mut [u32],
) -> Result<(), Refusal>
    requires opened { Opened file.bytes.now file.header (arrays tops.old ends.old blocks.old adjustments.old) }
    requires interval_count_bound { (file.header.interval_count ≤ N) × (N ≤ max_intervals) }
    ensures { Loaded file.entry.bytes.now file.entry.header.capacity (arrays tops.old ends.old blocks.old adjustments.old) (refusal_of result) (arrays tops.new ends.new blocks.new adjustments.new) }
{
    let mut own = [0u32; N];
    load_by(file, &mut own, tops, ends, blocks, adjustments)
}

// A file by an array of its size.
fn load_sized(
    file: File,
    tops: &mut [u32],
    ends: &mut [u32],
    blocks: &mut [u32],
    adjustments: &mut [u32],
) -> Result<(), Refusal>
    requires { Opened file.bytes.now file.header (arrays tops.old ends.old blocks.old adjustments.old) }
    ensures { Loaded file.entry.bytes.now file.entry.header.capacity (arrays tops.old ends.old blocks.old adjustments.old) (refusal_of result) (arrays tops.new ends.new blocks.new adjustments.new) }
{
    let intervals = file.header.interval_count as usize;
    if SOME < intervals {
        return load_within::<INTERVALS>(file, tops, ends, blocks, adjustments);
    }
    if FEW < intervals {
        return load_within::<SOME>(file, tops, ends, blocks, adjustments);
    }
    load_within::<FEW>(file, tops, ends, blocks, adjustments)
}

// A file that passes 11: one of one block and one interval is loaded by a function of its own.
fn load_opened(
    file: File,
    tops: &mut [u32],
    ends: &mut [u32],
    blocks: &mut [u32],
    adjustments: &mut [u32],
) -> Result<(), Refusal>
    requires { Opened file.bytes.now file.header (arrays tops.old ends.old blocks.old adjustments.old) }
    ensures { Loaded file.entry.bytes.now file.entry.header.capacity (arrays tops.old ends.old blocks.old adjustments.old) (refusal_of result) (arrays tops.new ends.new blocks.new adjustments.new) }
{
    let h = file.header;
    if h.interval_count == 1 && h.block_count == 1 {
        return load_alone(
            file.bytes,
            h.buckets,
            h.capacity,
            tops,
            ends,
            blocks,
            adjustments,
        );
    }
    load_sized(file, tops, ends, blocks, adjustments)
}

// Loads a file into arrays with room for any table: its header, with the capacity given.
pub fn loaded(
    f: &[u8],
    capacity: u32,
    tops: &mut [u32],
    ends: &mut [u32],
    blocks: &mut [u32],
    adjustments: &mut [u32],
) -> Result<Header, Refusal>
    requires { room_short (arrays tops.old ends.old blocks.old adjustments.old) ≡ false }
    ensures value { load_told result ≡ load_answer (first (load_tests f.now capacity)) (loaded_header f.now capacity) }
    ensures arrays_left { arrays tops.new ends.new blocks.new adjustments.new ≡ loaded_over f.now capacity (arrays tops.old ends.old blocks.old adjustments.old) }
{
    if file_wrong(f, capacity) {
        return Err(Refusal::HeaderWrong);
    }
    let header = header_of(f, capacity);
    load_opened(File { bytes: f, header }, tops, ends, blocks, adjustments)?;
    Ok(header)
}
