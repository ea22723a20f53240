// What a growth is put through, without bits and with them.
ghost use Rattle.cut_tests.specs.Counts.{Keeps};

use crate::flagged::Flagged;
use crate::pattern::Pattern;
use cut_tests::{
    Call, Calls, Case, Growth, KeepingPlayer, LIST, List, Lists, Mover, Tally, alike, rows_of,
};

// Calls without bits: all buckets are written.
pub struct Bare;

// Calls with bits, of every pattern.
pub struct Told;

// The mover carries a growth out, and the call that counts says how many copies it makes.
fn carried(case: &Case<'_, '_, '_>, mover: Flagged<'_>, words: &mut List, tally: &mut Tally)
    ensures { Keeps tally.old tally.new }
{
    let copies = case.carry(mover, words, tally);
    let rows = rows_of(case.list).iter().take(case.growth.total as usize);
    let written = rows.filter(|row| mover.is_written(row[0])).count();
    tally.compared(1, usize::from(written != copies as usize));
    mover.countings(&case.growth, copies, tally);
}

// 42, one word of bits short and with none; 40 comes before it, and 41 after it.
fn bit_edges(calls: &Calls<'_, Flagged<'_>>, words: &mut List, tally: &mut Tally)
    ensures { Keeps tally.old tally.new }
{
    let g = calls.growth;
    let few = calls.mover.bits().saturating_sub(1);
    let short = g.words.saturating_sub(1);
    let more = g.words.saturating_add(1);
    let past = g.total.saturating_add(1);
    calls.refused(words, Call::lent(short, few, 0), 40, tally);
    calls.refused(words, Call::lent(short, 0, past), 40, tally);
    calls.refused(words, Call::lent(g.words, few, 0), 42, tally);
    calls.refused(words, Call::lent(g.words, few, g.total), 42, tally);
    calls.refused(words, Call::lent(g.words, few, past), 42, tally);
    calls.refused(words, Call::lent(more, 0, u32::MAX), 42, tally);
    calls.mover.uncounted(&g, few, 42, tally);
    calls.mover.uncounted(&g, 0, 42, tally);
}

fn carry_pattern(case: &Case<'_, '_, '_>, pattern: Pattern, tally: &mut Tally)
    ensures { Keeps tally.old tally.new }
{
    let buckets = case.growth.header.buckets;
    let mut flags = [false; LIST];
    let count = (buckets as usize).min(LIST);
    pattern.flag(case, &mut flags[..count]);
    let mover = Flagged::told(&flags[..count], buckets);
    let mut words = [0; LIST];
    carried(case, mover, &mut words, tally);
    let calls = Calls {
        growth: case.growth,
        mover,
    };
    bit_edges(&calls, &mut words, tally);
}

// With all buckets written the words are those of calls without bits, and all that move are counted.
fn whole(case: &Case<'_, '_, '_>, tally: &mut Tally)
    ensures { Keeps tally.old tally.new }
{
    let g = case.growth;
    let told = Flagged::all_told(g.header.buckets);
    let bare = Flagged::all_bare(g.header.buckets);
    let lists = Lists::new(&g, case.list, &told);
    let mut words = [0; LIST];
    lists.job(g, told).begin(&mut words);
    let mut others = words;
    lists.job(g, told).carry_on(&mut words, 0, tally);
    lists.job(g, bare).carry_on(&mut others, 0, tally);
    alike(&words, &others, g.words, tally);
    told.countings(&g, g.total, tally);
}

impl KeepingPlayer for Bare {
    fn carry(&self, case: &Case<'_, '_, '_>, tally: &mut Tally) {
        let mover = Flagged::all_bare(case.growth.header.buckets);
        let mut words = [0; LIST];
        carried(case, mover, &mut words, tally);
    }

    fn refused(&self, growth: &Growth<'_>, number: u32, tally: &mut Tally) {
        let calls = Calls {
            growth: *growth,
            mover: Flagged::all_bare(growth.header.buckets),
        };
        calls.wrong(number, tally);
    }
}

impl KeepingPlayer for Told {
    fn carry(&self, case: &Case<'_, '_, '_>, tally: &mut Tally) {
        whole(case, tally);
        for pattern in Pattern::ALL {
            carry_pattern(case, pattern, tally);
        }
    }

    fn refused(&self, growth: &Growth<'_>, number: u32, tally: &mut Tally) {
        let mover = Flagged::all_told(growth.header.buckets);
        let calls = Calls {
            growth: *growth,
            mover,
        };
        calls.wrong(number, tally);
        mover.uncounted(growth, Flagged::ALL_BITS, number, tally);
        mover.uncounted(growth, 0, number, tally);
    }
}
