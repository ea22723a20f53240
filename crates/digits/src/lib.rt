// Digits stored two or eight at a time: the one place where a number becomes digits.
#![tactic(auto)]

ghost use Rattle.std.specs.Prelude.{◌++◌, ◌≡◌, ◌+◌, ◌/◌, ◌%◌, ◌≤◌, ◌<◌, length};
ghost use Rattle.std.proofs.lemmas.List.Edits.{sets};
ghost use Rattle.digits.specs.Parts.{pair_of, four_of};

// Writes the two digits of a number below 100. For such a number `* 103 / 1_024` is `/ 10` by a shorter multiplication.
pub fn put_pair(pair: u32, out: &mut [u8], at: usize)
    requires below { pair < 100 }
    requires room { at + 2 ≤ length out.old }
    ensures { out.new ≡ sets out.old at (pair_of pair) }
{
    let tens = pair * 103 / 1_024;
    let ones = pair - 10 * tens;
    out[at] = b'0' + tens as u8;
    out[at + 1] = b'0' + ones as u8;
}

// Writes a number below 100,000,000 in eight digits, all at once: its first four digits and its last stand in the halves of a
// word, then the four pairs in its quarters, then the digits in its bytes, the last digit lowest, and so stored the highest byte first. `* 5_243 / 524_288` is `/ 100`
// in each half, and `* 103 / 1_024` is `/ 10` in each quarter; the factors that put the quotients in place are 2^32 - 10,000,
// 2^16 - 100 and 2^8 - 10.
pub fn put_digits(n: u32, out: &mut [u8], at: usize)
    requires below { n < 100_000_000 }
    requires room { at + 8 ≤ length out.old }
    ensures { out.new ≡ sets out.old at (four_of (n / 10_000) ++ four_of (n % 10_000)) }
{
    let fours = u64::from(n) + 4_294_957_296 * u64::from(n / 10_000);
    let hundreds = (fours * 5_243 / 524_288) & 0x7f_0000_007f;
    let pairs = fours + 65_436 * hundreds;
    let tens = (pairs * 103 / 1_024) & 0xf_000f_000f_000f;
    let digits = pairs + 246 * tens;
    let text = digits + 0x3030_3030_3030_3030;
    out[at..at + 8].copy_from_slice(&text.to_be_bytes());
}
