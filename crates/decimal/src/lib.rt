// A number in decimal, with a blank before it. How many digits it has picks how they are stored, by pairs and eight at a time: the
// first two or eight with the zero before a single first digit where the blank goes, and the others behind them.
#![tactic(auto)]

ghost use Rattle.std.specs.Prelude.{◌∷◌, ◌≡◌, ◌+◌, ◌≤◌, ◌<◌, length};
ghost use Rattle.std.proofs.lemmas.List.Edits.{sets};
ghost use Rattle.model.specs.Decimal.{decimal};

use digits::{put_digits, put_pair};

// What stands before a number.
const BLANK: u8 = b' ';

// One or two digits, with `more` to come behind them: answers the place behind those.
fn put_two(n: u32, more: usize, out: &mut [u8], at: usize) -> usize
    requires few { (n < 100) × (more ≤ 8) }
    requires room { at + 11 ≤ length out.old }
    ensures place { result ≡ at + length (32 ∷ decimal n) + more }
    ensures bytes { out.new ≡ sets out.old at (32 ∷ decimal n) }
{
    let end = at + (3 + more - usize::from(n < 10));
    put_pair(n, out, end - more - 2);
    out[at] = BLANK;
    end
}

// Three or four digits, with `more` to come behind them: answers the place behind those.
fn put_four(n: u32, more: usize, out: &mut [u8], at: usize) -> usize
    requires many { 100 ≤ n }
    requires few { (n < 10_000) × (more ≤ 6) }
    requires room { at + 11 ≤ length out.old }
    ensures place { result ≡ at + length (32 ∷ decimal n) + more }
    ensures bytes { out.new ≡ sets out.old at (32 ∷ decimal n) }
{
    let end = put_two(n / 100, more + 2, out, at);
    put_pair(n % 100, out, end - more - 2);
    end
}

// Seven or eight digits.
fn put_eight(n: u32, out: &mut [u8], at: usize) -> usize
    requires many { 1_000_000 ≤ n }
    requires few { n < 100_000_000 }
    requires room { at + 11 ≤ length out.old }
    ensures place { result ≡ at + length (32 ∷ decimal n) }
    ensures bytes { out.new ≡ sets out.old at (32 ∷ decimal n) }
{
    let end = at + (9 - usize::from(n < 10_000_000));
    put_digits(n, out, end - 8);
    out[at] = BLANK;
    end
}

// Any number. The most digits are asked for first: they take the longest.
pub fn put_number(n: u32, out: &mut [u8], at: usize) -> usize
    requires { at + 11 ≤ length out.old }
    ensures place { result ≡ at + length (32 ∷ decimal n) }
    ensures bytes { out.new ≡ sets out.old at (32 ∷ decimal n) }
{
    if 100_000_000 <= n {
        let end = put_two(n / 100_000_000, 8, out, at);
        put_digits(n % 100_000_000, out, end - 8);
        return end;
    }
    if 1_000_000 <= n {
        return put_eight(n, out, at);
    }
    if 10_000 <= n {
        let end = put_four(n / 100, 2, out, at);
        put_pair(n % 100, out, end - 2);
        return end;
    }
    if 100 <= n {
        return put_four(n, 0, out, at);
    }
    put_two(n, 0, out, at)
}

// Any number, which is mostly below 100: the test for that stands in the caller's code.
pub fn put_small(n: u32, out: &mut [u8], at: usize) -> usize
    requires { at + 11 ≤ length out.old }
    ensures place { result ≡ at + length (32 ∷ decimal n) }
    ensures bytes { out.new ≡ sets out.old at (32 ∷ decimal n) }
{
    if n < 100 {
        return put_two(n, 0, out, at);
    }
    put_number(n, out, at)
}
