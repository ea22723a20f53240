// Random numbers from a seed.
#[derive(Clone, Copy)]
pub struct Random {
    seed: u32,
}

impl Random {
    pub fn new(seed: u32) -> Self {
        Random { seed }
    }

    // Goes on to the next number.
    pub fn draw(&mut self) {
        self.seed = (self.seed as u64 * 48_271 % 2_147_483_647) as u32;
    }

    // The next number, as one below `bound`; 0 if nothing is below that.
    pub fn below(&mut self, bound: u32) -> u32 {
        self.draw();
        (self.seed / 16).checked_rem(bound).unwrap_or(0)
    }
}
