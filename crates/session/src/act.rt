// One command of a session.
ghost use Rattle.std.specs.Prelude.{◌≡◌, false, not};
ghost use Rattle.model.specs.Basics.{◌and◌};
ghost use Rattle.model.specs.Refusal.{room_short};
ghost use Rattle.model.specs.Console.{is_fresh, is_unreadable};
ghost use Rattle.model.specs.declared.command.Command.TheVariants as line;
ghost use Rattle.model.specs.declared.answer.Answer.TheVariants as says;
ghost use Rattle.model.specs.Table.{arrays};
ghost use Rattle.model.specs.Results.{refusal_of};
ghost use Rattle.session.specs.Maps.{maps, is_empty as empty_at, HasMap, LineTested, Renews, Reads, Stepped, Right};

use crate::state::{Stage, State, Step};
use model::answer::Answer;
use model::command::Command;
use model::given::Slot;
use model::limits::MAX_CAPACITY;
use model::refusal::Refusal;
use model::table::Header;
use table::FormedTable;

// Whether there is no map.
pub fn is_empty(state: State) -> bool
    ensures { result ≡ empty_at state.stage }
{
    matches!(state.stage, Stage::Empty)
}

// Whether a line is unreadable.
fn is_unreadable(command: Command) -> bool
    ensures { result ≡ is_unreadable command }
{
    matches!(command, Command::Unreadable)
}

// Whether there is no map, and the command is another than `fresh`.
fn is_unmapped(state: State, command: Command) -> bool
    ensures { result ≡ (empty_at state.stage and not (is_fresh command)) }
{
    let empty = is_empty(state);
    empty && !matches!(command, Command::Fresh { .. })
}

// The tests of every line, in their order.
fn line_allowed(state: State, command: Command) -> Result<(), Refusal>
    ensures { LineTested state command (refusal_of result) }
{
    let unreadable = is_unreadable(command);
    let unmapped = is_unmapped(state, command);
    if unreadable {
        return Err(Refusal::Unreadable);
    }
    if unmapped {
        return Err(Refusal::NoMap);
    }
    Ok(())
}

// A refused command: nothing changes.
fn refused(state: State, number: u32) -> Step
    ensures { result ≡ record { state = state; flip = false; answer = says.Refused number } }
{
    Step {
        state,
        flip: false,
        answer: Answer::Refused { number },
    }
}

// An accepted command that changes nothing.
fn told(state: State, answer: Answer) -> Step
    ensures { result ≡ record { state = state; flip = false; answer = answer } }
{
    Step {
        state,
        flip: false,
        answer,
    }
}

// `fresh`: a fresh map over the map.
fn fresh(
    state: State,
    buckets: u32,
    bins: u32,
    tops: &mut [u32],
    ends: &mut [u32],
    blocks: &mut [u32],
    adjustments: &mut [u32],
) -> Step
    requires { room_short (arrays tops.old ends.old blocks.old adjustments.old) ≡ false }
    ensures { Renews state (arrays tops.old ends.old blocks.old adjustments.old) (line.Fresh buckets bins) result (arrays tops.new ends.new blocks.new adjustments.new) }
{
    if let Err(refusal) = sizes::fresh_allowed(buckets, bins, MAX_CAPACITY) {
        return refused(state, refusal.number());
    }
    sizes::write_initial(buckets, bins, tops, ends, blocks, adjustments);
    let before = state.before;
    Step {
        state: State {
            stage: Stage::Fresh,
            flipped: state.flipped,
            bins,
            current: Header {
                buckets,
                capacity: MAX_CAPACITY,
                block_count: 1,
                interval_count: 1,
            },
            before,
        },
        flip: false,
        answer: Answer::Table {
            moved: 0,
            intervals: 1,
        },
    }
}

// `grow`: a growth of the map over the other table, which then is the map.
fn grow(
    state: State,
    buckets: u32,
    bins: u32,
    tops: &[u32],
    ends: &[u32],
    blocks: &[u32],
    adjustments: &[u32],
    new_tops: &mut [u32],
    new_ends: &mut [u32],
    new_blocks: &mut [u32],
    new_adjustments: &mut [u32],
) -> Step
    requires has_map { HasMap state (arrays tops.now ends.now blocks.now adjustments.now) }
    requires room { room_short (arrays new_tops.old new_ends.old new_blocks.old new_adjustments.old) ≡ false }
    ensures { Stepped (maps state (arrays tops.now ends.now blocks.now adjustments.now) (arrays new_tops.old new_ends.old new_blocks.old new_adjustments.old))
        (line.Grow buckets bins) result (arrays tops.now ends.now blocks.now adjustments.now) (arrays new_tops.new new_ends.new new_blocks.new new_adjustments.new) }
{
    let header = state.current;
    let table = FormedTable {
        header,
        tops,
        ends,
        blocks,
        adjustments,
    };
    let grown = match expansion::grown(
        table,
        buckets,
        bins,
        new_tops,
        new_ends,
        new_blocks,
        new_adjustments,
    ) {
        Ok(grown) => grown,
        Err(refusal) => return refused(state, refusal.number()),
    };
    let current = grown.header;
    Step {
        state: State {
            stage: Stage::Grown,
            flipped: !state.flipped,
            bins,
            current,
            before: header,
        },
        flip: true,
        answer: Answer::Table {
            moved: grown.moved,
            intervals: current.interval_count,
        },
    }
}

// `where`: the place of a bucket.
fn place(
    state: State,
    tops: &[u32],
    ends: &[u32],
    blocks: &[u32],
    adjustments: &[u32],
    bucket: u32,
) -> Step
    requires { HasMap state (arrays tops.now ends.now blocks.now adjustments.now) }
    ensures { Reads state (arrays tops.now ends.now blocks.now adjustments.now) (line.Where bucket) result }
{
    let table = FormedTable {
        header: state.current,
        tops,
        ends,
        blocks,
        adjustments,
    };
    match lookup::placed(table, bucket) {
        Ok(Slot { bin, position }) => told(state, Answer::Place { bin, position }),
        Err(refusal) => refused(state, refusal.number()),
    }
}

// `at`: the bucket at a place.
fn find(
    state: State,
    tops: &[u32],
    ends: &[u32],
    blocks: &[u32],
    adjustments: &[u32],
    bin: u32,
    position: u32,
) -> Step
    requires { HasMap state (arrays tops.now ends.now blocks.now adjustments.now) }
    ensures { Reads state (arrays tops.now ends.now blocks.now adjustments.now) (line.At bin position) result }
{
    let table = FormedTable {
        header: state.current,
        tops,
        ends,
        blocks,
        adjustments,
    };
    match lookup::found(table, bin, position) {
        Ok(bucket) => told(state, Answer::Bucket { bucket }),
        Err(refusal) => refused(state, refusal.number()),
    }
}

// What a command does to the map, in the first four arrays, and to the other table.
pub fn act(
    state: State,
    command: Command,
    tops: &mut [u32],
    ends: &mut [u32],
    blocks: &mut [u32],
    adjustments: &mut [u32],
    other_tops: &mut [u32],
    other_ends: &mut [u32],
    other_blocks: &mut [u32],
    other_adjustments: &mut [u32],
) -> Step
    requires { Right (maps state (arrays tops.old ends.old blocks.old adjustments.old) (arrays other_tops.old other_ends.old other_blocks.old other_adjustments.old)) }
    ensures { Stepped
        (maps state (arrays tops.old ends.old blocks.old adjustments.old) (arrays other_tops.old other_ends.old other_blocks.old other_adjustments.old)) command result
        (arrays tops.new ends.new blocks.new adjustments.new) (arrays other_tops.new other_ends.new other_blocks.new other_adjustments.new) }
{
    if let Err(refusal) = line_allowed(state, command) {
        return refused(state, refusal.number());
    }
    match command {
        Command::Fresh { buckets, bins } => {
            fresh(state, buckets, bins, tops, ends, blocks, adjustments)
        }
        Command::Grow { buckets, bins } => grow(
            state,
            buckets,
            bins,
            tops,
            ends,
            blocks,
            adjustments,
            other_tops,
            other_ends,
            other_blocks,
            other_adjustments,
        ),
        Command::Where { bucket } => place(state, tops, ends, blocks, adjustments, bucket),
        Command::At { bin, position } => {
            find(state, tops, ends, blocks, adjustments, bin, position)
        }
        // the rows are asked for page by page
        Command::Moves => told(state, Answer::Moves),
        Command::Unreadable => refused(state, Refusal::Unreadable.number()), // it was refused above
    }
}
