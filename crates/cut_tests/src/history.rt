// A history: a fresh map and growths of it, each carried out by the mover, without a cut and with every cut.
ghost use Rattle.std.specs.Prelude.{◌≡◌, ◌<◌, ◌≤◌, true};
ghost use Rattle.cut_tests.specs.Counts.{Keeps};

use crate::chance::{below, draw};
use crate::growth::{Growth, Table};
use crate::job::{Case, LIST, List};
use crate::mover::KeepingPlayer;
use crate::player::{Keeping, Plays};
use crate::tally::{Tally, add};
use model::table::Header;

// Random growths add buckets up to this, or so many that the capacity mostly refuses them.
const MOST: u32 = 80;

// How many choices a history's random growths have, and how many growths it asks for.
#[derive(Clone, Copy)]
pub struct Plan {
    pub choices: u32,
    pub growths: u32,
    ghost some: { 0 < choices },
    ghost listed: { choices ≤ 8 },
}

// A history's map, and its random number.
#[derive(Drop)]
struct Map {
    table: Table,
    header: Header,
    bins: u32,
    seed: u32,
}

// The positions that the largest bin of a map takes, those of its label too.
fn taken(buckets: u32, bins: u32) -> u32 {
    buckets.div_ceil(bins.max(1)).saturating_add(8)
}

impl Map {
    // A random growth: of the bins alone, the buckets alone or both, or one that is refused. With one choice, it is a bin more.
    fn asked(&self, plan: Plan) -> Growth<'_> {
        let b = self.header.buckets;
        let n = self.bins;
        let seed = draw(self.seed);
        let more = b.saturating_add(1 + below(seed, 8)).min(MOST);
        let next = n.saturating_add(1);
        let bins = next.saturating_add(below(seed / 8, 3));
        let much = b.saturating_add(n.saturating_mul(5));
        let fewer = b.saturating_sub(1);
        let all_buckets = [b, b, more, more, more, more, fewer, much];
        let last = b.saturating_add(1);
        let all_bins = [next, next, bins, bins, bins, n, n.saturating_sub(1), last];
        let seed = draw(seed);
        let buckets = all_buckets[below(seed, plan.choices) as usize];
        let bins = all_bins[below(seed / 8, plan.choices) as usize];
        self.ask(buckets, bins)
    }

    // The capacity is the least that the map takes, or a little more.
    fn ask(&self, buckets: u32, bins: u32) -> Growth<'_> {
        let more = below(draw(self.seed) / 64, 4);
        let mut header = self.header;
        header.capacity = taken(header.buckets, self.bins).saturating_add(more);
        Growth {
            table: &self.table,
            header,
            buckets,
            bins,
            total: 0,
            words: bins.saturating_mul(header.capacity),
        }
    }

    // One growth, which may be refused.
    fn grow<P: Plays>(&mut self, player: &P, plan: Plan, tally: &mut Tally)
        ensures { P.keeps ≡ true → Keeps tally.old tally.new }
    {
        let growth = self.asked(plan);
        let mut list = [u32::MAX; LIST];
        let reply = growth.moves(&mut list);
        if reply.refusal != 0 {
            player.refused(&growth, reply.refusal, tally);
        } else {
            let growth = growth.moving(reply.total);
            let mut new = Table::new();
            let header = accepted(&growth, &mut new, tally);
            carry(player, growth, &list, (header, &new), self.seed, tally);
            let bins = growth.bins;
            self.table = new;
            self.header = header;
            self.bins = bins;
        }
        self.seed = draw(draw(self.seed));
    }
}

// The growth of a move list, to a new map, is put through what the player has for it.
fn carry<P: Plays>(
    player: &P,
    growth: Growth<'_>,
    list: &List,
    new: (Header, &Table),
    seed: u32,
    tally: &mut Tally,
)
    ensures { P.keeps ≡ true → Keeps tally.old tally.new }
{
    let case = Case {
        growth,
        list,
        new: Some(new),
        seed,
    };
    player.carry(&case, tally);
}

// Growths of maps with 0, 1 and 63 buckets modulo 64, and growths after which bits would need more words.
fn edge(growth: &Growth<'_>, tally: &mut Tally)
    ensures { Keeps tally.old tally.new }
{
    match growth.header.buckets % 64 {
        0 => add(&mut tally.edges[0], 1),
        1 => add(&mut tally.edges[1], 1),
        63 => add(&mut tally.edges[2], 1),
        _ => {}
    }
    if growth.header.buckets.div_ceil(64) < growth.buckets.div_ceil(64) {
        add(&mut tally.wider, 1);
    }
}

// An accepted growth, to the table `new`. Its header.
fn accepted(growth: &Growth<'_>, new: &mut Table, tally: &mut Tally) -> Header
    ensures { Keeps tally.old tally.new }
{
    let reply = growth.expand(new);
    tally.same(reply.refusal, 0);
    tally.same(reply.moved, growth.total);
    edge(growth, tally);
    reply.header
}

// A history from so many buckets in so many bins. The random number after it.
pub fn play<P: Plays>(
    player: &P,
    seed: u32,
    buckets: u32,
    bins: u32,
    plan: Plan,
    tally: &mut Tally,
) -> u32
    ensures { P.keeps ≡ true → Keeps tally.old tally.new }
{
    add(&mut tally.histories, 1);
    let mut table = Table::new();
    let reply = table.initial(buckets, bins, taken(buckets, bins));
    tally.same(reply.refusal, 0);
    let mut map = Map {
        table,
        header: reply.header,
        bins,
        seed,
    };
    for _ in 0..plan.growths {
        map.grow(player, plan, tally);
    }
    map.seed
}

// So many random histories.
pub fn random<P: Plays>(player: &P, seed: u32, histories: u32, plan: Plan, tally: &mut Tally)
    ensures { P.keeps ≡ true → Keeps tally.old tally.new }
{
    let mut seed = seed;
    for _ in 0..histories {
        let buckets = below(seed, 60) + 1;
        let bins = below(draw(seed), buckets.min(6)) + 1;
        seed = play(player, draw(draw(seed)), buckets, bins, plan, tally);
    }
}

// A history that is played by a `KeepingPlayer`. Always inlined, as in `full`.
#[inline(always)]
pub fn play_keeping<P: KeepingPlayer>(
    player: &P,
    seed: u32,
    buckets: u32,
    bins: u32,
    plan: Plan,
    tally: &mut Tally,
) -> u32
    ensures { Keeps tally.old tally.new }
{
    play(&Keeping(player), seed, buckets, bins, plan, tally)
}

// So many random histories, played by a `KeepingPlayer`. Always inlined, as in `full`.
#[inline(always)]
pub fn random_keeping<P: KeepingPlayer>(
    player: &P,
    seed: u32,
    histories: u32,
    plan: Plan,
    tally: &mut Tally,
)
    ensures { Keeps tally.old tally.new }
{
    random(&Keeping(player), seed, histories, plan, tally);
}
