// One bit a bucket, 1 for written.
use cut_tests::draw;

// Bits as a call is lent them, with words behind those that the buckets need.
pub const ALL_BITS: usize = 133;

pub type Bits = [u64; ALL_BITS];

// How many words the bits of so many buckets need.
pub fn needed(buckets: u32) -> u32 {
    buckets.div_ceil(64)
}

// Junk, another for every number.
fn noise(number: u32) -> u64 {
    let word = draw(draw(number.saturating_add(1))) as u64 * 4_294_967_297;
    if number % 2 == 0 { word } else { !word }
}

// Bits of buckets by their flags, and junk in all behind them. Bucket x has bit x mod 64, from the lowest, of word x / 64.
pub fn pack(flags: &[bool], junk: u32) -> Bits {
    let mut bits = [noise(junk); ALL_BITS];
    for (x, flag) in flags.iter().enumerate() {
        if let Some(word) = bits.get_mut(x / 64) {
            *word = with_bit(*word, 1u64 << (x % 64), *flag);
        }
    }
    bits
}

fn with_bit(word: u64, place: u64, bit: bool) -> u64 {
    if bit { word | place } else { word & !place }
}
