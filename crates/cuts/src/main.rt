// Plays the mover through the public calls: runs that are not cut, runs that are cut at every row and in every way, once and twice, and
// refused calls. Prints what it counted. The random histories come from a fixed seed, so that a run is like any other.
#![tactic(auto)]

#[cfg(test)]
mod tests;

use cut_tests::{
    Call, Calls, Case, Growth, KeepingPlayer, LIST, Mover, Plan, Tally, play_full_keeping,
    play_keeping, random_keeping, wide,
};
use model::reply::CarryReply;
use std::io;

// The mover without bits: every bucket is written.
#[derive(Clone, Copy)]
struct Plain;

impl Mover for Plain {
    const ALL_BITS: u32 = 0;

    fn bits(&self) -> u32 {
        0
    }

    fn is_written(&self, _bucket: u32) -> bool {
        true
    }

    fn carry(&self, growth: &Growth<'_>, words: &mut [u32], call: Call) -> CarryReply {
        mover::carry(
            growth.header,
            &growth.table.tops,
            &growth.table.ends,
            &growth.table.blocks,
            &growth.table.adjustments,
            growth.buckets,
            growth.bins,
            words,
            call.mark,
        )
    }
}

impl KeepingPlayer for Plain {
    fn carry(&self, case: &Case<'_, '_, '_>, tally: &mut Tally) {
        let mut words = [0; LIST];
        case.carry(Plain, &mut words, tally);
    }

    fn refused(&self, growth: &Growth<'_>, number: u32, tally: &mut Tally) {
        let calls = Calls {
            growth: *growth,
            mover: Plain,
        };
        calls.wrong(number, tally);
    }
}

fn printed(rt: &impl Print, t: &Tally) -> io::Result<()> {
    println!(rt;
        "histories, growths, rows {} {} {}",
        t.histories, t.growths, t.rows
    )?;
    println!(rt; "runs with cuts, accepted calls {} {}", t.runs, t.calls)?;
    println!(rt; "{t}")
}

fn main(rt: HostRuntime) -> io::Result<()> {
    let mut tally = Tally::default();
    play_full_keeping(&Plain, &mut tally);
    wide(Plain, &mut tally);
    let by_bins = Plan {
        choices: 1,
        growths: 65,
    };
    play_keeping(&Plain, 1, 66, 1, by_bins, &mut tally);
    let of_all = Plan {
        choices: 8,
        growths: 12,
    };
    random_keeping(&Plain, 20_261_115, 400, of_all, &mut tally);
    printed(&rt, &tally)
}
