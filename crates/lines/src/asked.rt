// A `where` line, read where it stands in a block.
ghost use Rattle.std.specs.Prelude.{◌+◌, ◌<◌, ◌≤◌, ◌≡◌, true, length};
ghost use Rattle.model.specs.Decimal.{digits_only, value};
ghost use Rattle.model.specs.Console.{text as text_of, same};
ghost use Rattle.lines.specs.Words.{bytes_at, DigitsTo, NoDigits, AsksFor, AsksForNone, by_asked};

// The bucket that a line asks for, and the place of the line feed behind it.
#[derive(Clone, Copy)]
pub struct Asked {
    pub bucket: u32,
    pub end: usize,
}

// Whether the eight bytes from a place on are digits: one test of all, so that the compiler makes one of eight.
fn eight_digits(text: &[u8], at: usize) -> bool
    requires { at + 8 ≤ length text.now }
    ensures { result ≡ digits_only (bytes_at text.now at 8) }
{
    let mut all = true;
    for c in &text[at..at + 8] {
        all &= c.is_ascii_digit();
    }
    all
}

// The value of four digits. As one number, low byte first, less the codes of four zeros (808,464,432), they are its bytes; ten times it
// and itself shifted by a byte add up to the values of pairs, in every second byte.
fn four(text: &[u8], at: usize) -> u32
    requires { (at + 4 ≤ length text.now) × (digits_only (bytes_at text.now at 4) ≡ true) }
    ensures { result ≡ value (bytes_at text.now at 4) }
{
    let bytes = [text[at], text[at + 1], text[at + 2], text[at + 3]];
    let digits = u32::from_le_bytes(bytes) - 808_464_432;
    let pairs = 10 * digits + digits / 256;
    100 * (pairs % 256) + pairs / 65_536 % 256
}

// The value of eight digits: fours that do not wait for each other.
fn eight(text: &[u8], at: usize) -> u32
    requires { (at + 8 ≤ length text.now) × (digits_only (bytes_at text.now at 8) ≡ true) }
    ensures { result ≡ value (bytes_at text.now at 8) }
{
    10_000 * four(text, at) + four(text, at + 4)
}

// The number at a place, up to a line feed.
fn bucket_at(block: &[u8], first: usize) -> Option<Asked>
    requires { first + 10 < length block.now }
    ensures { by_asked (DigitsTo block.now first) (NoDigits block.now first) result }
{
    let mut value: u64 = 0;
    let mut end = first;
    if eight_digits(block, first) {
        value = u64::from(eight(block, first));
        end = first + 8;
    }
    for c in &block[end..first + 10] {
        if !c.is_ascii_digit() {
            break;
        }
        if 4_294_967_295 < value {
            break;
        }
        value = 10 * value + u64::from(*c - b'0');
        end += 1;
    }
    if block[end] != b'\n' {
        return None;
    }
    if end == first {
        return None;
    }
    let bucket = u32::try_from(value).ok()?;
    Some(Asked { bucket, end })
}

// Whether a line begins with the word and its blank.
fn says_where(text: &[u8], at: usize) -> bool
    requires { at + 6 ≤ length text.now }
    ensures { result ≡ same (bytes_at text.now at 6) (text_of "where ") }
{
    text[at..].starts_with(b"where ")
}

// What the line at a place asks for. The last bytes of a block, fewer than the longest `where` line has, are no such line.
pub fn where_at(block: &[u8], from: usize) -> Option<Asked>
    requires { from ≤ length block.now }
    ensures { by_asked (AsksFor block.now from) (AsksForNone block.now from) result }
{
    if block.len() - from < 17 {
        return None;
    }
    if says_where(block, from) {
        return bucket_at(block, from + 6);
    }
    None
}
