// Plays the mover through the public calls, without bits and with one bit a bucket, of every pattern and with junk behind them: runs that
// are not cut, runs that are cut at every row and in every way, once and twice, and refused calls; and the call that counts the written
// ones of the buckets that move. Prints what it counted. The random numbers come from fixed seeds, so that a run is like any other.
#![tactic(auto)]

mod bits;
mod flagged;
mod pattern;
mod player;

ghost use Rattle.std.specs.Prelude.{◌<◌, ◌≤◌};

use crate::flagged::Flagged;
use crate::player::{Bare, Told};
use cut_tests::{Plan, Tally, play_full_keeping, play_keeping, random_keeping, wide};
use std::io;
use std::ops::Range;

fn printed(rt: &impl Print, t: &Tally) -> io::Result<()> {
    let [none, one, last] = t.edges;
    let [before, at, after] = t.near;
    println!(rt;
        "histories, growths carried out, rows {} {} {}",
        t.histories, t.growths, t.rows
    )?;
    println!(rt; "copies, blank rows {} {}", t.copies, t.blanks)?;
    println!(rt; "growths of B modulo 64 of 0, 1, 63 {none} {one} {last}")?;
    println!(rt; "growths to more words of bits {}", t.wider)?;
    println!(rt; "rows of buckets 63, 64, 65 {before} {at} {after}")?;
    println!(rt;
        "runs with cuts, accepted calls, countings {} {} {}",
        t.runs, t.calls, t.countings
    )?;
    println!(rt; "{t}")
}

fn plan(choices: u32, growths: u32) -> Plan
    requires { (0 < choices) × (choices ≤ 8) }
{
    Plan { choices, growths }
}

// Histories with bits, from every number of buckets of a range.
fn each(seed: u32, range: Range<u32>, bins: u32, plan: Plan, tally: &mut Tally) {
    let mut seed = seed;
    for buckets in range {
        seed = play_keeping(&Told, seed, buckets, bins, plan, tally);
    }
}

// Without bits.
fn carried(rt: &impl Print) -> io::Result<()> {
    let mut tally = Tally::default();
    play_full_keeping(&Bare, &mut tally);
    wide(Flagged::all_bare(10), &mut tally);
    play_keeping(&Bare, 1, 66, 1, plan(1, 65), &mut tally);
    random_keeping(&Bare, 20_261_115, 400, plan(8, 12), &mut tally);
    printed(rt, &tally)
}

// With bits.
fn written(rt: &impl Print) -> io::Result<()> {
    let mut tally = Tally::default();
    play_full_keeping(&Told, &mut tally);
    wide(Flagged::all_told(10), &mut tally);
    each(3, 62..67, 4, plan(1, 3), &mut tally);
    each(5, 62..67, 3, plan(6, 4), &mut tally);
    each(7, 126..131, 8, plan(1, 2), &mut tally);
    play_keeping(&Told, 1, 66, 1, plan(1, 65), &mut tally);
    random_keeping(&Told, 20_261_118, 60, plan(8, 8), &mut tally);
    printed(rt, &tally)
}

fn main(rt: HostRuntime) -> io::Result<()> {
    carried(&rt)?;
    written(&rt)
}
