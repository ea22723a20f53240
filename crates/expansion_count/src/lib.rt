// Whether a growth's table needs too many intervals. A growth makes at most one more for each block after it, so that its intervals
// are seldom counted before they are written.
#![tactic(auto)]

mod growth;

ghost use Rattle.std.specs.Prelude.{◌≡◌, List, ℕ, ◌≤◌, ◌<◌, length};
ghost use Rattle.model.specs.Table.{Shape, Interval, Table, sizes};
ghost use Rattle.model.specs.Refusal.{intervals_full};
ghost use Rattle.model.specs.Expansion.{pieces as pieces_of, drained, expanded};
ghost use Rattle.model.specs.Lent.{lent};
ghost use Rattle.expansion_count.specs.Given.{Some, Drains, LentGrows, Shares, NoneFalls};
ghost use Rattle.expansion_count.specs.Made.{made, left_behind, piece_of};

use expansion_plan::plan_interval;
pub use growth::Growth;
use model::limits::{BLOCKS, MAX_INTERVALS};
use model::plan::{Action, Plan};
use model::table::Header;

// What a growth has written: the intervals of its table, and the buckets that it moves.
#[derive(Clone, Copy)]
pub struct Written {
    pub intervals: u32,
    pub moved: u32,
}

// How many intervals the plan for an old one makes of it: with `left` new buckets, one that stays has one more behind it.
fn part_count(plan: Plan, left: u32) -> u32
    ensures { (result ≤ 2) × ((i : Interval) (g : ℕ) → i.block < g → result ≡ length (made plan i g left)) }
{
    let action = plan.action;
    match action {
        Action::Stay => {
            if left == 0 {
                return 1;
            }
            2
        }
        Action::Move { adjustment: _ } => 1,
        Action::Split {
            bucket: _,
            adjustment: _,
        } => 2,
    }
}

// What block j gains in an interval of its own: nothing if it is `last`, the last interval's block, which gains in that interval.
pub fn piece(last: u32, olds: &[u32; BLOCKS], dues: &[u32; BLOCKS], j: usize) -> u32
    requires { (j < 65) × NoneFalls olds.now dues.now }
    ensures { (t : Table) (s : Shape) → Shares t s last olds.now dues.now → result ≡ piece_of t s j }
{
    if j == last as usize {
        return 0;
    }
    dues[j] - olds[j]
}

// The new buckets behind old interval i: all of them behind the last one.
fn left_behind(h: Header, buckets: u32, i: usize) -> u32
    requires { (i < h.interval_count) × (h.buckets ≤ buckets) }
    ensures { result ≡ left_behind h buckets i }
{
    if i + 1 < h.interval_count as usize {
        return 0;
    }
    buckets - h.buckets
}

// Some old block is due less: one pass over the old intervals.
fn count_drained(
    h: Header,
    ends: &[u32],
    blocks: &[u32],
    adjustments: &[u32],
    buckets: u32,
    dues: &[u32; BLOCKS],
) -> u32
    requires { Some (Drains h ends.now blocks.now adjustments.now buckets dues.now) }
    ensures { (tops : List ℕ) (bins : ℕ) → Drains h ends.now blocks.now adjustments.now buckets dues.now tops bins
        → result ≡ length (drained (lent h tops ends.now blocks.now adjustments.now) (sizes buckets bins)) }
{
    let mut intervals: u32 = 0;
    let mut start: u32 = 0;
    let mut moved: u32 = 0;
    for i in 0..h.interval_count as usize {
        let due = dues[blocks[i] as usize];
        let plan = plan_interval(due, start, ends[i], adjustments[i], moved);
        intervals += part_count(plan, left_behind(h, buckets, i));
        start = ends[i];
        moved = plan.moved;
    }
    intervals
}

// No old block is due less: one pass over the blocks, of which there are `count` after the growth. Each that gains has a piece, but
// `last`, the last interval's block.
fn count_pieces(last: u32, olds: &[u32; BLOCKS], dues: &[u32; BLOCKS], count: u32) -> u32
    requires { (count ≤ 65) × NoneFalls olds.now dues.now }
    ensures few { result ≤ 65 }
    ensures counted { (t : Table) (s : Shape) (c : ℕ) → Shares t s last olds.now dues.now → result ≡ length (pieces_of t s c 0 count) }
{
    let mut gaining: u32 = 0;
    for j in 0..count as usize {
        if piece(last, olds, dues, j) != 0 {
            gaining += 1;
        }
    }
    gaining
}

// The counting pass: how many intervals the growth's table needs. `olds` and `dues` are what each block has, and is due after the
// growth; `falls` says that some old block is due less, and `count` is the number of blocks after it.
fn measure(
    h: Header,
    ends: &[u32],
    blocks: &[u32],
    adjustments: &[u32],
    buckets: u32,
    olds: &[u32; BLOCKS],
    dues: &[u32; BLOCKS],
    falls: bool,
    count: u32,
) -> u32
    requires { Some (LentGrows h ends.now blocks.now adjustments.now buckets olds.now dues.now falls count) }
    ensures { (tops : List ℕ) (bins : ℕ)
        → LentGrows h ends.now blocks.now adjustments.now buckets olds.now dues.now falls count tops bins
        → result ≡ length (expanded (lent h tops ends.now blocks.now adjustments.now) (sizes buckets bins)).intervals }
{
    if falls {
        return count_drained(h, ends, blocks, adjustments, buckets, dues);
    }
    let last = blocks[h.interval_count as usize - 1];
    h.interval_count + count_pieces(last, olds, dues, count)
}

// Whether the growth's table needs more intervals than a table may have. They are counted only where they can be too many.
pub fn intervals_full(
    h: Header,
    ends: &[u32],
    blocks: &[u32],
    adjustments: &[u32],
    buckets: u32,
    olds: &[u32; BLOCKS],
    dues: &[u32; BLOCKS],
    falls: bool,
    count: u32,
) -> bool
    requires { Some (LentGrows h ends.now blocks.now adjustments.now buckets olds.now dues.now falls count) }
    ensures { (tops : List ℕ) (bins : ℕ)
        → LentGrows h ends.now blocks.now adjustments.now buckets olds.now dues.now falls count tops bins
        → result ≡ intervals_full (lent h tops ends.now blocks.now adjustments.now) (sizes buckets bins) }
{
    if h.interval_count + count <= MAX_INTERVALS {
        return false;
    }
    let intervals = measure(
        h,
        ends,
        blocks,
        adjustments,
        buckets,
        olds,
        dues,
        falls,
        count,
    );
    MAX_INTERVALS < intervals
}
