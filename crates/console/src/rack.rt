// The two tables of a session and its state.
ghost use Rattle.session.specs.Held.{arrays_of};
ghost use Rattle.session.specs.Maps.{Right};
ghost use Rattle.console.specs.Rack.{rack, held};

use model::table::Header;
use session::arrays::Arrays;
use session::state::{Stage, State};

// Whole tables, one of which holds the map; the state says which. Both have room for any table, and the map is sound.
#[derive(Drop)]
pub struct Rack {
    pub state: State,
    pub first: Arrays,
    pub second: Arrays,
    pub ghost right: { Right (held (rack state (arrays_of first) (arrays_of second))) },
}

impl Rack {
    ghost use Rattle.std.specs.Prelude.{◌≡◌};
    ghost use Rattle.model.specs.Console.{empty};
    ghost use Rattle.session.specs.Maps.{session};
    ghost use Rattle.console.specs.Kept.{rack_of};

    // No map yet.
    pub fn empty() -> Rack
        ensures { session (held (rack_of result)) ≡ empty }
    {
        Rack {
            state: State {
                stage: Stage::Empty,
                flipped: false,
                bins: 0,
                current: Header::NONE,
                before: Header::NONE,
            },
            first: Arrays::zero(),
            second: Arrays::zero(),
        }
    }

    // The table that holds the map.
    pub fn map(&self) -> &Arrays
        ensures { arrays_of result.now ≡ (held (rack_of self.now)).this }
    {
        match self.state.flipped {
            false => &self.first,
            true => &self.second,
        }
    }

    // The other table, which holds the map before its latest growth.
    pub fn other(&self) -> &Arrays
        ensures { arrays_of result.now ≡ (held (rack_of self.now)).other }
    {
        match self.state.flipped {
            false => &self.second,
            true => &self.first,
        }
    }
}
