// Random numbers, each made from the one before it.
ghost use Rattle.std.specs.Prelude.{◌≡◌, ◌*◌, ◌/◌, ◌%◌, ◌<◌};

// The random number after `seed`.
pub fn draw(seed: u32) -> u32
    ensures { result ≡ seed * 48271 % 2147483647 }
{
    (seed as u64 * 48_271 % 2_147_483_647) as u32
}

// A random number as one below `bound`.
pub fn below(seed: u32, bound: u32) -> u32
    requires { 0 < bound }
    ensures value { result ≡ seed / 16 % bound }
    ensures within { result < bound }
{
    seed / 16 % bound
}
