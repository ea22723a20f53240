// A table whose growth is refused by 8, 2,080 intervals of 4 buckets in turn in two blocks of one bin: the mover carries it out. And
// refused tables.
ghost use Rattle.std.specs.Prelude.{◌≡◌, true};
ghost use Rattle.cut_tests.specs.Counts.{Keeps};

use crate::growth::{Growth, Table};
use crate::job::{Case, LIST};
use crate::mover::KeepingPlayer;
use crate::player::{Keeping, Plays};
use crate::refusal::tables;
use crate::tally::Tally;
use model::table::Header;

// Before interval i, 4 buckets of every second interval are of the other block.
fn table() -> Table {
    let mut t = Table::new();
    t.tops[0] = 1;
    t.tops[1] = 2;
    for i in 0..2_080u32 {
        let at = i as usize;
        t.ends[at] = 4 * (i + 1);
        t.blocks[at] = i % 2;
        t.adjustments[at] = 4 * ((i + 1) / 2);
    }
    t
}

fn asked(table: &Table, buckets: u32, capacity: u32) -> Growth<'_> {
    Growth {
        table,
        header: Header {
            buckets,
            capacity,
            block_count: 2,
            interval_count: 2_080,
        },
        buckets: 8_320,
        bins: 3,
        total: 2_773,
        words: 12_504,
    }
}

// 11 and 30 come before 1, as they do before 40, 42 and 41.
fn headed<P: Plays>(player: &P, growth: Growth<'_>, number: u32, tally: &mut Tally)
    ensures { P.keeps ≡ true → Keeps tally.old tally.new }
{
    player.refused(&growth, number, tally);
    let mut none = growth;
    none.buckets = 0;
    player.refused(&none, number, tally);
}

// The growth is refused, but its move list is not.
fn listed<P: Plays>(player: &P, growth: Growth<'_>, tally: &mut Tally)
    ensures { P.keeps ≡ true → Keeps tally.old tally.new }
{
    let mut new = Table::new();
    tally.same(growth.expand(&mut new).refusal, 8);
    tally.refused_by(8);
    let mut list = [u32::MAX; LIST];
    let reply = growth.moves(&mut list);
    tally.same(reply.refusal, 0);
    tally.same(reply.total, growth.total);
    let case = Case {
        growth,
        list: &list,
        new: None,
        seed: 1,
    };
    player.carry(&case, tally);
}

pub fn play<P: Plays>(player: &P, tally: &mut Tally)
    ensures { P.keeps ≡ true → Keeps tally.old tally.new }
{
    let table = table();
    let growth = asked(&table, 8_320, 4_168);
    listed(player, growth, tally);
    tables(player, &growth, tally);
    headed(player, asked(&table, 0, 4_168), 11, tally);
    headed(player, asked(&table, 8_320, 4_167), 30, tally);
}

// The same, by a `KeepingPlayer`. Always inlined, so that a program's code and stack are those of `play` called by itself.
#[inline(always)]
pub fn play_keeping<P: KeepingPlayer>(player: &P, tally: &mut Tally)
    ensures { Keeps tally.old tally.new }
{
    play(&Keeping(player), tally);
}
