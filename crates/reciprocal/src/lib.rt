// Division of many numbers by one: each is multiplied by the divisor's reciprocal, and shifted.
#![tactic(auto)]

ghost use Rattle.std.specs.Prelude.{ℕ, ◌/◌, ◌^◌, ◌<◌, ◌≤◌, ◌≡◌};
ghost use Rattle.reciprocal.specs.Divides.{Divides};

// A number below 2^30 times the factor, shifted by so many bits, is its quotient.
#[derive(Clone, Copy)]
pub struct Reciprocal {
    pub factor: u64,
    pub bits: u32,
}

// The reciprocal of a divisor: 2^bits / divisor + 1, where bits is 30 more than the divisor's length in bits.
pub fn reciprocal_of(divisor: u32) -> Reciprocal
    requires { 1 ≤ divisor }
    ensures { Divides result divisor }
{
    let bits = 62 - divisor.leading_zeros();
    Reciprocal {
        factor: (1u64 << bits) / u64::from(divisor) + 1,
        bits,
    }
}

// The quotient of a number by whichever divisor the reciprocal is of.
pub fn quotient(x: u32, by: Reciprocal) -> u32
    requires { (x < 2 ^ 30) × ((d : ℕ) × Divides by d) }
    ensures { (d : ℕ) → Divides by d → result ≡ x / d }
{
    (u64::from(x) * by.factor >> by.bits) as u32
}
