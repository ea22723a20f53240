// Standard input and output. What is read and what is to be written is recorded in logs that the caller lends, as far as they reach,
// so that contracts can speak of it.
#![tactic(auto)]

ghost use Rattle.std.specs.Prelude.{◌≤◌, ◌<◌, length};
ghost use Rattle.streams.specs.Streams.{Logged, Read, Written};

use std::io::{Read, Stdin, Stdout};

// A read: how many bytes it brought, 0 where the input has ended or cannot be read; and the place reached in the log.
#[derive(Clone, Copy)]
pub struct Input {
    pub got: usize,
    pub place: usize,
}

// A write: whether it failed, and the place reached in the log.
#[derive(Clone, Copy)]
pub struct Output {
    pub failed: bool,
    pub place: usize,
}

// Reads behind the first `size` bytes of a block, and records the bytes that it brought in the log from place `at` on.
pub fn read(mut stdin: Stdin, block: &mut [u8], size: usize, log: &mut [u8], at: usize) -> Input
    requires size_in_bounds { size < length block.old }
    requires at_in_bounds { at ≤ length log.old }
    ensures { Read block.old size log.old at result block.new log.new }
{
    let rest = &mut block[size..];
    let got = stdin.read(rest).unwrap_or(0);
    let brought = &rest[..];
    let place = record(log, at, &brought[..got]);
    Input { got, place }
}

// Writes the first n bytes of `out`, and records them in the log from place `at` on: to write nothing does not fail.
pub fn write(stdout: Stdout, out: &[u8], n: usize, log: &mut [u8], at: usize) -> Output
    requires n_in_bounds { n ≤ length out.now }
    requires at_in_bounds { at ≤ length log.old }
    ensures { Written out.now n log.old at result log.new }
{
    let text = &out[..n];
    let place = record(log, at, text);
    if n == 0 {
        return Output {
            failed: false,
            place,
        };
    }
    let failed = stdout.write_all(text).is_err();
    Output { failed, place }
}

// Records bytes in a log from place `at` on, as many as it has room for: the place reached.
fn record(log: &mut [u8], at: usize, bytes: &[u8]) -> usize
    requires { at ≤ length log.old }
    ensures { Logged log.old at bytes.now log.new result }
{
    let count = bytes.len().min(log.len() - at);
    let room = &mut log[at..at + count];
    room.copy_from_slice(&bytes[..count]);
    at + count
}
