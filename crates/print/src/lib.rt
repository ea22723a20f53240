// The program's printed lines: document 01, 'The program rackmap'. Each is a word, its numbers and a line feed.
// Every function writes its text over the bytes from `at` on, and answers the place behind it.
#![tactic(auto)]

ghost use Rattle.std.specs.Prelude.{[], ◌∷◌, ◌≡◌, ◌+◌, ◌*◌, ◌<◌, ◌≤◌, length};
ghost use Rattle.std.proofs.lemmas.List.Edits.{sets};
ghost use Rattle.model.specs.Console.{line};
ghost use Rattle.print.specs.Numbers.{line_room, line_of};

use decimal::{put_number, put_small};

// The room that a line is given, and how long a `move` line is at the most.
pub const LINE: usize = 64;

pub const MOVE: usize = 60;

// A word.
fn put_word(word: &[u8], out: &mut [u8], at: usize) -> usize
    requires { at + length word.now ≤ length out.old }
    ensures place { result ≡ at + length word.now }
    ensures bytes { out.new ≡ sets out.old at word.now }
{
    for (i, c) in word.iter().enumerate() {
        out[at + i] = *c;
    }
    at + word.len()
}

// A line of a word and numbers. Every second from the last but one on is a bin, or as small: mostly below 100.
fn put_line(word: &[u8], ns: &[u32], out: &mut [u8], at: usize) -> usize
    requires { at + length word.now + 11 * length ns.now < length out.old }
    ensures place { result ≡ at + length (line_of word.now ns.now) }
    ensures bytes { out.new ≡ sets out.old at (line_of word.now ns.now) }
{
    let mut end = put_word(word, out, at);
    for (i, n) in ns.iter().enumerate() {
        end = if (ns.len() - i) % 2 == 0 {
            put_small(*n, out, end)
        } else {
            put_number(*n, out, end)
        };
    }
    out[end] = b'\n';
    end + 1
}

// An accepted `fresh` or `grow`: a buckets moved, b intervals.
pub fn put_ok(a: u32, b: u32, out: &mut [u8], at: usize) -> usize
    requires { at + line_room ≤ length out.old }
    ensures place { result ≡ at + length (line "ok" (a ∷ b ∷ [])) }
    ensures bytes { out.new ≡ sets out.old at (line "ok" (a ∷ b ∷ [])) }
{
    put_line(b"ok", &[a, b], out, at)
}

// A bucket's place: its bin, and its position there.
pub fn put_place(bin: u32, position: u32, out: &mut [u8], at: usize) -> usize
    requires { at + line_room ≤ length out.old }
    ensures place { result ≡ at + length (line "place" (bin ∷ position ∷ [])) }
    ensures bytes { out.new ≡ sets out.old at (line "place" (bin ∷ position ∷ [])) }
{
    put_line(b"place", &[bin, position], out, at)
}

// The bucket at a place.
pub fn put_bucket(bucket: u32, out: &mut [u8], at: usize) -> usize
    requires { at + line_room ≤ length out.old }
    ensures place { result ≡ at + length (line "bucket" (bucket ∷ [])) }
    ensures bytes { out.new ≡ sets out.old at (line "bucket" (bucket ∷ [])) }
{
    put_line(b"bucket", &[bucket], out, at)
}

// A refused command: the refusal's number.
pub fn put_refused(refusal: u32, out: &mut [u8], at: usize) -> usize
    requires { at + line_room ≤ length out.old }
    ensures place { result ≡ at + length (line "refused" (refusal ∷ [])) }
    ensures bytes { out.new ≡ sets out.old at (line "refused" (refusal ∷ [])) }
{
    put_line(b"refused", &[refusal], out, at)
}

// A row of the move list.
pub fn put_move(
    bucket: u32,
    old_bin: u32,
    old_position: u32,
    new_bin: u32,
    new_position: u32,
    out: &mut [u8],
    at: usize,
) -> usize
    requires { at + line_room ≤ length out.old }
    ensures place { result ≡ at + length (line "move" (bucket ∷ old_bin ∷ old_position ∷ new_bin ∷ new_position ∷ [])) }
    ensures bytes { out.new ≡ sets out.old at (line "move" (bucket ∷ old_bin ∷ old_position ∷ new_bin ∷ new_position ∷ [])) }
{
    let row = [bucket, old_bin, old_position, new_bin, new_position];
    put_line(b"move", &row, out, at)
}
