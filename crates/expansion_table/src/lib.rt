// The writing pass of a growth: its tops, and its intervals by the case.
#![tactic(auto)]

ghost use Rattle.std.specs.Prelude.{false, ◌≡◌, ◌+◌, ◌≤◌, length};
ghost use Rattle.model.specs.Limits.{max_blocks, max_intervals};
ghost use Rattle.model.specs.Table.{arrays, over, written};
ghost use Rattle.model.specs.Refusal.{room_short};
ghost use Rattle.model.specs.Expansion.{grown_tops, length_to, pieces as pieces_of, filled, expanded};
ghost use Rattle.expansion_count.specs.Growths.{old_table, new_sizes};
ghost use Rattle.expansion_count.specs.Made.{Counted};
ghost use Rattle.expansion_drain.specs.Stored.{Room, Stored};
ghost use Rattle.expansion_table.specs.Copied.{Copied};

use expansion_count::{Growth, Written, piece};
use expansion_drain::{Interval, interval_at, write_drained, write_interval};
use table::{FormedTable, copy};

// No old block is due less: one pass over the blocks after the growth, whose pieces begin at bucket `start` and go to the places
// from `place` on. The next place.
fn write_pieces(
    growth: &Growth,
    start: u32,
    place: usize,
    new_ends: &mut [u32],
    new_blocks: &mut [u32],
    new_adjustments: &mut [u32],
) -> usize
    requires none_falls { growth.now.falls ≡ false }
    requires start_value { start ≡ length_to (old_table growth.now) (new_sizes growth.now) }
    requires room { Room (place + length (pieces_of (old_table growth.now) (new_sizes growth.now) start 0 growth.now.block_count))
        new_ends.old new_blocks.old new_adjustments.old }
    ensures place { result ≡ place + length (pieces_of (old_table growth.now) (new_sizes growth.now) start 0 growth.now.block_count) }
    ensures stored { Stored place (pieces_of (old_table growth.now) (new_sizes growth.now) start 0 growth.now.block_count)
        new_ends.old new_blocks.old new_adjustments.old new_ends.new new_blocks.new new_adjustments.new }
{
    let last = growth.last_block();
    let mut at = start;
    let mut o = place;
    for j in 0..growth.block_count as usize {
        let gained = piece(last, growth.olds, growth.dues, j);
        if gained != 0 {
            let interval = Interval {
                end: at + gained,
                block: j as u32,
                adjustment: at - growth.olds[j],
            };
            write_interval(interval, o, new_ends, new_blocks, new_adjustments);
            at = interval.end;
            o += 1;
        }
    }
    o
}

// Copies the first `count` intervals. Of a table of one interval the growth keeps none, and three calls to copy nothing would cost
// a sixth of its time.
fn copy_intervals(
    table: FormedTable,
    count: usize,
    new_ends: &mut [u32],
    new_blocks: &mut [u32],
    new_adjustments: &mut [u32],
)
    requires count_in_bounds { count ≤ table.header.interval_count }
    requires room { Room count new_ends.old new_blocks.old new_adjustments.old }
    ensures { Copied count table.entry.ends.now new_ends.old new_ends.new × Copied count table.entry.blocks.now new_blocks.old new_blocks.new
        × Copied count table.entry.adjustments.now new_adjustments.old new_adjustments.new }
{
    if count == 0 {
        return;
    }
    copy(table.ends, count, new_ends);
    copy(table.blocks, count, new_blocks);
    copy(table.adjustments, count, new_adjustments);
}

// No old block is due less: the old intervals, the last one lengthened by what its block gains, and the pieces of the other
// blocks. The place that it comes to is the number of intervals.
fn write_filled(
    growth: &Growth,
    new_ends: &mut [u32],
    new_blocks: &mut [u32],
    new_adjustments: &mut [u32],
) -> usize
    requires none_falls { growth.now.falls ≡ false }
    requires room { Room (length (filled (old_table growth.now) (new_sizes growth.now))) new_ends.old new_blocks.old new_adjustments.old }
    ensures place { result ≡ length (filled (old_table growth.now) (new_sizes growth.now)) }
    ensures stored { Stored 0 (filled (old_table growth.now) (new_sizes growth.now)) new_ends.old new_blocks.old new_adjustments.old
        new_ends.new new_blocks.new new_adjustments.new }
{
    let table = growth.table;
    let last = table.header.interval_count as usize - 1;
    let interval = interval_at(table, last);
    let block = interval.block as usize;
    let end = table.header.buckets + (growth.dues[block] - growth.olds[block]);
    copy_intervals(table, last, new_ends, new_blocks, new_adjustments);
    write_interval(
        Interval { end, ..interval },
        last,
        new_ends,
        new_blocks,
        new_adjustments,
    );
    write_pieces(
        growth,
        end,
        table.header.interval_count as usize,
        new_ends,
        new_blocks,
        new_adjustments,
    )
}

// The new tops: the old ones, and the new block's if there are more blocks after the growth.
fn write_tops(growth: &Growth, new_tops: &mut [u32])
    requires { max_blocks ≤ length new_tops.old }
    ensures { new_tops.new ≡ over (grown_tops (old_table growth.now) (new_sizes growth.now)) new_tops.old }
{
    let old = growth.table.header.block_count;
    copy(growth.table.tops, old as usize, new_tops);
    if old < growth.block_count {
        new_tops[old as usize] = growth.bins;
    }
}

// The new intervals, by the case. How many they are, and the buckets that move.
fn write_intervals(
    growth: &Growth,
    new_ends: &mut [u32],
    new_blocks: &mut [u32],
    new_adjustments: &mut [u32],
) -> Written
    requires { Room (length (expanded (old_table growth.now) (new_sizes growth.now)).intervals) new_ends.old new_blocks.old new_adjustments.old }
    ensures counted { Counted (old_table growth.now) (new_sizes growth.now) result }
    ensures stored { Stored 0 (expanded (old_table growth.now) (new_sizes growth.now)).intervals new_ends.old new_blocks.old new_adjustments.old
        new_ends.new new_blocks.new new_adjustments.new }
{
    if growth.falls {
        let table = growth.table;
        return write_drained(
            table.header,
            table.ends,
            table.blocks,
            table.adjustments,
            growth.buckets,
            growth.dues,
            new_ends,
            new_blocks,
            new_adjustments,
        );
    }
    let intervals = write_filled(growth, new_ends, new_blocks, new_adjustments);
    Written {
        intervals: intervals as u32,
        moved: 0,
    }
}

// The growth's table, into arrays with room for it. The intervals written, and the buckets that move.
pub fn write_expanded(
    growth: &Growth,
    new_tops: &mut [u32],
    new_ends: &mut [u32],
    new_blocks: &mut [u32],
    new_adjustments: &mut [u32],
) -> Written
    requires room { room_short (arrays new_tops.old new_ends.old new_blocks.old new_adjustments.old) ≡ false }
    requires bins_len_bound { length (expanded (old_table growth.now) (new_sizes growth.now)).intervals ≤ max_intervals }
    ensures counted { Counted (old_table growth.now) (new_sizes growth.now) result }
    ensures written { arrays new_tops.new new_ends.new new_blocks.new new_adjustments.new ≡ written
        (expanded (old_table growth.now) (new_sizes growth.now))
        (arrays new_tops.old new_ends.old new_blocks.old new_adjustments.old) }
{
    write_tops(growth, new_tops);
    write_intervals(growth, new_ends, new_blocks, new_adjustments)
}
