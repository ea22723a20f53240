// Growths that are refused.
ghost use Rattle.std.specs.Prelude.{◌≡◌, true};
ghost use Rattle.cut_tests.specs.Counts.{Keeps};

use crate::growth::{Growth, Table};
use crate::mover::{Calls, Mover};
use crate::player::Plays;
use crate::tally::Tally;
use model::reply::CarryReply;

// The mover's reply to a refused call.
pub fn refusal_of(number: u32) -> CarryReply
    ensures refusal { result.refusal ≡ number }
    ensures mark { result.mark ≡ 0 }
    ensures finished { result.finished ≡ 0 }
{
    CarryReply {
        refusal: number,
        mark: 0,
        finished: 0,
    }
}

// The growth of a changed table, which is refused by a number.
fn changed<P: Plays, F: FnOnce(&mut Table)>(
    player: &P,
    growth: &Growth<'_>,
    number: u32,
    change: F,
    tally: &mut Tally,
)
    requires { F.IsAlwaysCallable change }
    ensures { P.keeps ≡ true → Keeps tally.old tally.new }
{
    let mut table = *growth.table;
    change(&mut table);
    player.refused(&growth.of(&table), number, tally);
}

// 12 to 16, by changes of a table of two blocks of one bin and intervals of 4 buckets.
pub fn tables<P: Plays>(player: &P, growth: &Growth<'_>, tally: &mut Tally)
    ensures { P.keeps ≡ true → Keeps tally.old tally.new }
{
    changed(player, growth, 12, |t| t.tops[0] = 2, tally);
    changed(player, growth, 13, |t| t.ends[1] = 4, tally);
    changed(player, growth, 14, |t| t.blocks[1] = 2, tally);
    changed(player, growth, 15, |t| t.ends[0] = 5, tally);
    changed(player, growth, 16, |t| t.adjustments[1] = 5, tally);
}

// 40, where the new bins have 2^32 words.
pub fn wide<M: Mover>(mover: M, tally: &mut Tally)
    ensures { Keeps tally.old tally.new }
{
    let mut table = Table::new();
    let reply = table.initial(10, 2, 536_870_912);
    let growth = Growth {
        table: &table,
        header: reply.header,
        buckets: 10,
        bins: 8,
        total: 0,
        words: 0,
    };
    Calls { growth, mover }.wrong(40, tally);
}
