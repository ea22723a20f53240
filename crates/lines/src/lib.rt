// The program's lines: cut from the input, and read.
#![tactic(auto)]

pub mod asked;

ghost use Rattle.std.specs.Prelude.{◌+◌, ◌≤◌, ◌≡◌, length, drop, unwrap_or};
ghost use Rattle.model.specs.Console.{same, read as read_of};
ghost use Rattle.lines.specs.Words.{up_to, up_to_feed, number_at, with_two};

use model::command::Command;

// A number of a line, and the place of the blank behind it, or the line's length.
#[derive(Clone, Copy)]
struct Parsed {
    value: u32,
    end: usize,
}

// The place of the next byte `e` of a text from a place on, or the text's length.
fn place_of(text: &[u8], from: usize, e: u8) -> usize
    requires { from ≤ length text.now }
    ensures { result ≡ from + length (up_to e (drop from text.now)) }
{
    match text[from..].iter().position(|c| *c == e) {
        Some(n) => from + n,
        None => text.len(),
    }
}

// The place of the next line feed of a block from a place on, or the block's length.
pub fn feed_at(block: &[u8], from: usize) -> usize
    requires { from ≤ length block.now }
    ensures { result ≡ from + length (up_to_feed (drop from block.now)) }
{
    place_of(block, from, b'\n')
}

// Whether a word is a command's.
fn is_word(word: &[u8], name: &[u8]) -> bool
    ensures { result ≡ same word.now name.now }
{
    word == name
}

// The number at a place of a line. A value above the limit takes no further digit, so that it fits.
fn number(line: &[u8], from: usize) -> Option<Parsed>
    requires { from ≤ length line.now }
    ensures { result ≡ number_at line.now from }
{
    let mut value: u64 = 0;
    let mut end = from;
    for c in &line[from..] {
        if *c == b' ' {
            break;
        }
        if !c.is_ascii_digit() {
            return None;
        }
        if 4_294_967_295 < value {
            return None;
        }
        value = 10 * value + u64::from(*c - b'0');
        end += 1;
    }
    if end == from {
        return None;
    }
    if 10 < end - from {
        return None;
    }
    let value = u32::try_from(value).ok()?;
    Some(Parsed { value, end })
}

// A line of a word and two numbers.
fn with_two(word: &[u8], a: u32, b: u32) -> Command
    ensures { result ≡ with_two word.now a b }
{
    if is_word(word, b"fresh") {
        return Command::Fresh {
            buckets: a,
            bins: b,
        };
    }
    if is_word(word, b"grow") {
        return Command::Grow {
            buckets: a,
            bins: b,
        };
    }
    if is_word(word, b"at") {
        return Command::At {
            bin: a,
            position: b,
        };
    }
    Command::Unreadable
}

// What a line says that is not too long, if it is readable.
fn read_words(line: &[u8]) -> Option<Command>
    requires { length line.now ≤ 64 }
    ensures { unwrap_or result Command.Unreadable ≡ read_of line.now }
{
    let end = place_of(line, 0, b' ');
    let word = &line[..end];
    if end == line.len() {
        return is_word(word, b"moves").then_some(Command::Moves);
    }
    let first = number(line, end + 1)?;
    if first.end == line.len() {
        return is_word(word, b"where").then_some(Command::Where {
            bucket: first.value,
        });
    }
    let second = number(line, first.end + 1)?;
    if second.end < line.len() {
        return None;
    }
    Some(with_two(word, first.value, second.value))
}

// What a line says.
pub fn read(line: &[u8]) -> Command
    ensures { result ≡ read_of line.now }
{
    if 64 < line.len() {
        return Command::Unreadable;
    }
    read_words(line).unwrap_or(Command::Unreadable)
}
