// A number right-aligned with blanks in ten columns: a field of the rack sheet. The numbers of a sheet have at most nine digits.
#![tactic(auto)]

ghost use Rattle.std.specs.Prelude.{◌≡◌, ◌+◌, ◌-◌, ◌≤◌, ◌<◌, length};
ghost use Rattle.std.proofs.lemmas.List.Edits.{sets};
ghost use Rattle.model.specs.Decimal.{decimal};
ghost use Rattle.model.specs.Sheet.{blanks, field};
ghost use Rattle.digits.specs.Parts.{pair_of};
ghost use Rattle.fields.specs.Parts.{pairs_to, HoldsPairs};

use digits::{put_digits, put_pair};

// What stands before a number.
const BLANK: u8 = b' ';

// Ten blanks: the compiler makes two stores of them.
fn put_blanks(out: &mut [u8], at: usize)
    requires { at + 10 ≤ length out.old }
    ensures { out.new ≡ sets out.old at (blanks 10) }
{
    out[at..at + 10].fill(BLANK);
}

// The digits of a number below 100, up to place `end`.
fn put_up_to(n: u32, out: &mut [u8], end: usize)
    requires few { n < 100 }
    requires room { (2 ≤ end) × (end ≤ length out.old) }
    ensures { out.new ≡ sets out.old (end - length (decimal n)) (decimal n) }
{
    if n < 10 {
        out[end - 1] = b'0' + n as u8;
        return;
    }
    put_pair(n, out, end - 2);
}

// One to four digits, over blanks.
fn put_short(n: u32, out: &mut [u8], at: usize)
    requires few { n < 10_000 }
    requires room { at + 10 ≤ length out.old }
    ensures { out.new ≡ sets out.old at (field n) }
{
    put_blanks(out, at);
    if n < 100 {
        put_up_to(n, out, at + 10);
        return;
    }
    put_pair(n % 100, out, at + 8);
    put_up_to(n / 100, out, at + 8);
}

// Five to eight digits: eight at a time, and blanks over the zeros before the first that counts.
fn put_middle(n: u32, out: &mut [u8], at: usize)
    requires many { 10_000 ≤ n }
    requires few { n < 100_000_000 }
    requires room { at + 10 ≤ length out.old }
    ensures { out.new ≡ sets out.old at (field n) }
{
    out[at] = BLANK;
    out[at + 1] = BLANK;
    put_digits(n, out, at + 2);
    if 10_000_000 <= n {
        return;
    }
    out[at + 2] = BLANK;
    if 1_000_000 <= n {
        return;
    }
    out[at + 3] = BLANK;
    if 100_000 <= n {
        return;
    }
    out[at + 4] = BLANK;
}

// Nine digits.
fn put_nine(n: u32, out: &mut [u8], at: usize)
    requires many { 100_000_000 ≤ n }
    requires few { n < 1_000_000_000 }
    requires room { at + 10 ≤ length out.old }
    ensures { out.new ≡ sets out.old at (field n) }
{
    out[at] = BLANK;
    out[at + 1] = b'0' + (n / 100_000_000) as u8;
    put_digits(n % 100_000_000, out, at + 2);
}

// A field.
pub fn put_field(n: u32, out: &mut [u8], at: usize)
    requires few { n < 1_000_000_000 }
    requires room { at + 10 ≤ length out.old }
    ensures { out.new ≡ sets out.old at (field n) }
{
    if n < 10_000 {
        put_short(n, out, at);
        return;
    }
    if n < 100_000_000 {
        put_middle(n, out, at);
        return;
    }
    put_nine(n, out, at);
}

// A TABLE OF ALL PAIRS, for whoever writes many fields: two bytes copied for two digits.

// Writes the two digits of each number below 100.
pub fn put_pairs(out: &mut [u8])
    requires { 200 ≤ length out.old }
    ensures { out.new ≡ sets out.old 0 (pairs_to 100) }
{
    for n in 0..100 {
        put_pair(n, out, 2 * n as usize);
    }
}

// Copies the two digits of a number below 100.
fn copy_pair(pairs: &[u8], n: u32, out: &mut [u8], at: usize)
    requires pairs { HoldsPairs pairs.now }
    requires below { n < 100 }
    requires room { at + 2 ≤ length out.old }
    ensures { out.new ≡ sets out.old at (pair_of n) }
{
    let tens = pairs[2 * n as usize];
    let ones = pairs[2 * n as usize + 1];
    out[at] = tens;
    out[at + 1] = ones;
}

// A field, two digits at a time from the last.
pub fn copy_field(pairs: &[u8], n: u32, out: &mut [u8], at: usize)
    requires pairs { HoldsPairs pairs.now }
    requires room { at + 10 ≤ length out.old }
    ensures { out.new ≡ sets out.old at (field n) }
{
    put_blanks(out, at);
    let mut rest = n;
    let mut end = at + 10;
    while 100 <= rest {
        end -= 2;
        copy_pair(pairs, rest % 100, out, end);
        rest /= 100;
    }
    if rest < 10 {
        out[end - 1] = b'0' + rest as u8;
        return;
    }
    copy_pair(pairs, rest, out, end - 2);
}
