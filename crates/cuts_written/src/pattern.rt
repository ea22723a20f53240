// Which of a growth's old buckets are written, by a pattern.
use cut_tests::{Case, below, draw, rows_of};

// None and all are written, one alone is, all but one are; and random ones, of which a half, an eighth and seven eighths are written.
#[derive(Clone, Copy)]
pub enum Pattern {
    NoneWritten,
    AllWritten,
    OneWritten,
    OneBlank,
    Half,
    Eighth,
    SevenEighths,
}

impl Pattern {
    pub const ALL: [Pattern; 7] = [
        Pattern::NoneWritten,
        Pattern::AllWritten,
        Pattern::OneWritten,
        Pattern::OneBlank,
        Pattern::Half,
        Pattern::Eighth,
        Pattern::SevenEighths,
    ];

    // How many eighths of the buckets are written, but for the one bucket.
    fn eighths(self) -> u32 {
        match self {
            Pattern::NoneWritten | Pattern::OneWritten => 0,
            Pattern::AllWritten | Pattern::OneBlank => 8,
            Pattern::Half => 4,
            Pattern::Eighth => 1,
            Pattern::SevenEighths => 7,
        }
    }

    // The random number that it begins with; above two billion it is the same for all.
    fn begin(self, seed: u32) -> u32 {
        if seed <= 2_000_000_000 {
            return draw(draw(seed + self as u32));
        }
        draw(draw(u32::MAX))
    }

    // The flags of the old buckets.
    pub fn flag(self, case: &Case<'_, '_, '_>, flags: &mut [bool]) {
        let mut seed = self.begin(case.seed);
        let written = self.eighths();
        let other = match self {
            Pattern::OneWritten | Pattern::OneBlank => one_of(case, seed),
            _ => None,
        };
        for (x, flag) in (0u32..).zip(flags.iter_mut()) {
            seed = draw(seed);
            *flag = (below(seed, 8) < written) != (other == Some(x));
        }
    }
}

// The one bucket that is written or blank: one that moves, or any.
fn one_of(case: &Case<'_, '_, '_>, seed: u32) -> Option<u32> {
    if seed % 2 == 0 {
        let order = (seed / 16).checked_rem(case.growth.total)?;
        return rows_of(case.list).get(order as usize).map(|row| row[0]);
    }
    (seed / 16).checked_rem(case.growth.header.buckets)
}
