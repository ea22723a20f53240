// The program around the machine: it reads, lets the machine work, and writes. Logs, and the places reached in them, are named only
// to hand them on (tools/logs), so that the program does the same whatever logs it is lent.
#![tactic(auto)]

ghost use Rattle.std.specs.Prelude.{◌≤◌, length};
ghost use Rattle.console.specs.Kept.{rack_of};
ghost use Rattle.buffers.specs.Machine.{Begins};
ghost use Rattle.shell.specs.Shell.{Worked, Ran};

use buffers::program::Program;
use buffers::{BLOCK, NUMBERS, OUT, receive};
use machine::turn;
use streams::{read, write};

// After the turns over a block: the place reached in the log, and whether a write failed, which leaves the rest undone.
#[derive(Clone, Copy)]
struct Done {
    text: usize,
    closed: bool,
}

// What ended a run: the end of its input, with all of the text put; a write that failed; or the count of its reads.
#[derive(Clone, Copy)]
pub enum End {
    Whole,
    Closed,
    Spent,
}

// A run: how many bytes of its input and of its text its two logs hold, and what ended it.
#[derive(Clone, Copy)]
pub struct Outcome {
    pub input: usize,
    pub text: usize,
    pub end: End,
}

// The machine's turns, the text of each recorded in the log from place `text` on and written, until nothing is left to do or a write
// fails.
fn work(
    rt: HostRuntime,
    program: &mut Program,
    block: &mut [u8; BLOCK],
    rows: &mut [u32; NUMBERS],
    out: &mut [u8; OUT],
    text_log: &mut [u8],
    mut text: usize,
) -> Done
    requires read { (program.old.machine.from ≤ program.old.machine.size) × (program.old.machine.size ≤ length block.old) }
    requires text_in_bounds { text ≤ length text_log.old }
    ensures { Worked program.old.machine (rack_of program.old.rack) block.old text_log.old text program.new.machine (rack_of program.new.rack) result block.new text_log.new }
{
    loop {
        let after = turn(program, block, rows, out);
        let written = write(rt.stdout(), out, after.put, text_log, text);
        text = written.place;
        if written.failed {
            return Done { text, closed: true };
        }
        if !after.more {
            return Done {
                text,
                closed: false,
            };
        }
    }
}

// The whole input, block by block, until it ends or a write fails. Nothing says that an input ends: the reads are counted.
fn serve(
    rt: HostRuntime,
    input_log: &mut [u8],
    text_log: &mut [u8],
    program: &mut Program,
    block: &mut [u8; BLOCK],
    rows: &mut [u32; NUMBERS],
    out: &mut [u8; OUT],
) -> Outcome
    requires { Begins program.old.machine (rack_of program.old.rack) }
    ensures { Ran input_log.old text_log.old input_log.new text_log.new result }
{
    let mut input = 0;
    let mut text = 0;
    for _reads in 0..u64::MAX {
        let came = read(rt.stdin(), block, program.machine.size, input_log, input);
        input = came.place;
        program.machine = receive(program.machine, block, came.got);
        let done = work(rt, program, block, rows, out, text_log, text);
        text = done.text;
        if done.closed {
            return Outcome {
                input,
                text,
                end: End::Closed,
            };
        }
        if came.got == 0 {
            return Outcome {
                input,
                text,
                end: End::Whole,
            };
        }
    }
    Outcome {
        input,
        text,
        end: End::Spent,
    }
}

// The program, with its two whole tables. What it reads and what it writes is recorded in two logs, as far as they reach, so that
// its promise can speak of it; the programs lend logs of no length, since they need no record.
pub fn run(rt: HostRuntime, input_log: &mut [u8], text_log: &mut [u8]) -> Outcome
    ensures { Ran input_log.old text_log.old input_log.new text_log.new result }
{
    let mut program = Program::start();
    let mut block = [0; BLOCK];
    let mut rows = [0; NUMBERS];
    let mut out = [0; OUT];
    serve(
        rt,
        input_log,
        text_log,
        &mut program,
        &mut block,
        &mut rows,
        &mut out,
    )
}
