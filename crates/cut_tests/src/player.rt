// What the plays are written for: a player of either kind. Other crates do not name it: each `Player` is one.
ghost use Rattle.std.specs.Prelude.{◌≡◌, Bool, true, false};
ghost use Rattle.cut_tests.specs.Counts.{Keeps};

use crate::growth::Growth;
use crate::job::Case;
use crate::mover::{KeepingPlayer, Player};
use crate::tally::Tally;

pub trait Plays {
    // Whether no comparison is forgotten, and none that failed.
    ghost keeps: { Bool };

    fn carry(&self, case: &Case<'_, '_, '_>, tally: &mut Tally)
        ensures { keeps ≡ true → Keeps tally.old tally.new };

    fn refused(&self, growth: &Growth<'_>, number: u32, tally: &mut Tally)
        ensures { keeps ≡ true → Keeps tally.old tally.new };
}

impl<P: Player> Plays for P {
    ghost keeps = { false };

    fn carry(&self, case: &Case<'_, '_, '_>, tally: &mut Tally) {
        Player::carry(self, case, tally);
    }

    fn refused(&self, growth: &Growth<'_>, number: u32, tally: &mut Tally) {
        Player::refused(self, growth, number, tally);
    }
}

// A `KeepingPlayer`, as the plays take it.
#[derive(Drop)]
pub struct Keeping<'a, P>(pub &'a P);

impl<P: KeepingPlayer> Plays for Keeping<'_, P> {
    ghost keeps = { true };

    fn carry(&self, case: &Case<'_, '_, '_>, tally: &mut Tally) {
        self.0.carry(case, tally);
    }

    fn refused(&self, growth: &Growth<'_>, number: u32, tally: &mut Tally) {
        self.0.refused(growth, number, tally);
    }
}
