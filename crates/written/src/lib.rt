// One bit a bucket, 1 for written: which buckets are, and how many of a span, counted sixty-four at a time.
#![tactic(auto)]

ghost use Rattle.std.specs.Prelude.{◌+◌, ◌*◌, ◌/◌, ◌≤◌, ◌<◌, ◌≡◌, length};
ghost use Rattle.model.specs.Basics.{count};
ghost use Rattle.written.specs.Written.{written, bits_short};

// The written buckets of x's word that are below x. On a word's edge there are none, and no word is read.
fn below(bits: &[u64], x: u32) -> u32
    requires { x ≤ 64 * length bits.now }
    ensures { count (written bits.now) (64 * (x / 64)) + result ≡ count (written bits.now) x }
{
    let k = x % 64;
    if k == 0 {
        return 0;
    }
    let word = bits[(x / 64) as usize];
    let low = word % (1u64 << k);
    low.count_ones()
}

// How many of the buckets from a up to b are written: the words from a's to b's, and of b's those below b, but of a's not those
// below a.
pub fn among(bits: &[u64], a: u32, b: u32) -> u32
    requires { (a ≤ b) × (b ≤ 64 * length bits.now) }
    ensures { count (written bits.now) a + result ≡ count (written bits.now) b }
{
    let head = below(bits, a);
    let tail = below(bits, b);
    let mut n: u32 = 0;
    for word in &bits[(a / 64) as usize..(b / 64) as usize] {
        n += word.count_ones();
    }
    n + tail - head
}

// Whether bucket x is written.
pub fn is_written(bits: &[u64], x: u32) -> bool
    requires { x < 64 * length bits.now }
    ensures { result ≡ written bits.now x }
{
    let word = bits[(x / 64) as usize];
    (word >> (x % 64)) % 2 == 1
}

// 42: fewer words than the bits of `buckets` need.
pub fn bits_short(bits: &[u64], buckets: u32) -> bool
    ensures { result ≡ bits_short buckets bits.now }
{
    bits.len() < (buckets as usize + 63) / 64
}
