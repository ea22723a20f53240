// Loading a file that passes rule 11: it is judged where it lies, its adjustments are worked out in an array of one's own, and all
// is written out after every rule has passed. Its header is the one that it says, with the capacity given.
#![tactic(auto)]

ghost use Rattle.std.specs.Prelude.{◌≤◌, length};
ghost use Rattle.model.specs.Table.{arrays};
ghost use Rattle.model.specs.Results.{refusal_of};
ghost use Rattle.soundness.specs.Passed.{alone};
ghost use Rattle.file_read.specs.Opening.{Opened};
ghost use Rattle.file_judged.specs.Loading.{Judged, Loaded};

use file_read::{decode, read_numbers, write_out};
use file_rules::File;
use model::limits::BLOCKS;
use model::refusal::Refusal;
use model::table::Header;
use soundness::{capacity_wrong, judged_alone};

// Loads a file that passes rules 11 to 15: 30, and then its table is written. `own_tops` are its tops, and `own` has its adjustments.
fn load_judged(
    file: File,
    own_tops: &[u32],
    own: &[u32],
    tops: &mut [u32],
    ends: &mut [u32],
    blocks: &mut [u32],
    adjustments: &mut [u32],
) -> Result<(), Refusal>
    requires { Judged file.bytes.now file.header own_tops.now own.now (arrays tops.old ends.old blocks.old adjustments.old) }
    ensures { Loaded file.entry.bytes.now file.entry.header.capacity (arrays tops.old ends.old blocks.old adjustments.old) (refusal_of result) (arrays tops.new ends.new blocks.new adjustments.new) }
{
    if capacity_wrong(file.header, own_tops) {
        return Err(Refusal::CapacityWrong);
    }
    write_out(file, own, tops, ends, blocks, adjustments);
    Ok(())
}

// Loads a file by an array for its adjustments.
pub fn load_by(
    file: File,
    own: &mut [u32],
    tops: &mut [u32],
    ends: &mut [u32],
    blocks: &mut [u32],
    adjustments: &mut [u32],
) -> Result<(), Refusal>
    requires opened { Opened file.bytes.now file.header (arrays tops.old ends.old blocks.old adjustments.old) }
    requires interval_count_in_bounds { file.header.interval_count ≤ length own.old }
    ensures { Loaded file.entry.bytes.now file.entry.header.capacity (arrays tops.old ends.old blocks.old adjustments.old) (refusal_of result) (arrays tops.new ends.new blocks.new adjustments.new) }
{
    let count = file.header.block_count as usize;
    let mut own_tops = [0u32; BLOCKS];
    read_numbers(file.bytes, 3, count, &mut own_tops);
    let completed = file.complete(&own_tops[..count], own);
    completed?;
    load_judged(
        file,
        &own_tops[..count],
        own,
        tops,
        ends,
        blocks,
        adjustments,
    )
}

// A file of one block and one interval, whose adjustment is 0.
pub fn load_alone(
    f: &[u8],
    buckets: u32,
    capacity: u32,
    tops: &mut [u32],
    ends: &mut [u32],
    blocks: &mut [u32],
    adjustments: &mut [u32],
) -> Result<(), Refusal>
    requires { Opened f.now (alone buckets capacity) (arrays tops.old ends.old blocks.old adjustments.old) }
    ensures { Loaded f.now capacity (arrays tops.old ends.old blocks.old adjustments.old) (refusal_of result) (arrays tops.new ends.new blocks.new adjustments.new) }
{
    let file = File {
        bytes: f,
        header: Header {
            buckets,
            capacity,
            block_count: 1,
            interval_count: 1,
        },
    };
    let mut own_tops = [0u32; 1];
    let mut own_ends = [0u32; 1];
    let mut own_blocks = [0u32; 1];
    let own_adjustments = [0u32; 1];
    decode(file, &mut own_tops, &mut own_ends, &mut own_blocks);
    let judged = judged_alone(
        buckets,
        capacity,
        &own_tops,
        &own_ends,
        &own_blocks,
        &own_adjustments,
    );
    judged?;
    load_judged(
        file,
        &own_tops,
        &own_adjustments,
        tops,
        ends,
        blocks,
        adjustments,
    )
}
