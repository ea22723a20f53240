// The `move` lines of the latest growth, page by page.
ghost use Rattle.std.specs.Prelude.{◌≡◌, ◌+◌, ◌*◌, ◌≤◌, length};
ghost use Rattle.std.proofs.lemmas.List.Edits.{sets};
ghost use Rattle.model.specs.Table.{table};
ghost use Rattle.model.specs.Sound.{Formed};
ghost use Rattle.model.specs.Console.{move_text};
ghost use Rattle.session.specs.Held.{arrays_of};
ghost use Rattle.session.specs.Maps.{sizes_of};
ghost use Rattle.console.specs.Rack.{moves_in};
ghost use Rattle.console.specs.Kept.{rack_of};
ghost use Rattle.console.specs.Listing.{rows_in, Lines, Room, growth_rows, Growth, Listed};

use crate::Page;
use crate::rack::Rack;
use model::reply::RelocationsReply;
use print::put_move;
use session::arrays::Arrays;
use session::state::{Stage, State};

// The lines of the first `count` rows. The place behind them.
fn put_rows(rows: &[u32], count: usize, out: &mut [u8]) -> usize
    requires { (5 * count ≤ length rows.now) × Lines count out.old }
    ensures place { result ≡ length (move_text (rows_in rows.now count)) }
    ensures bytes { out.new ≡ sets out.old 0 (move_text (rows_in rows.now count)) }
{
    let mut at = 0;
    for i in 0..count {
        let row = 5 * i;
        at = put_move(
            rows[row],
            rows[row + 1],
            rows[row + 2],
            rows[row + 3],
            rows[row + 4],
            out,
            at,
        );
    }
    at
}

// A page of the growth to the map, from the map before it.
fn page(state: State, other: &Arrays, first: u32, rows: &mut [u32], out: &mut [u8]) -> Page
    requires formed { Formed state.before (arrays_of other.now) × Room rows.old out.old }
    requires growth { Growth (table state.before (arrays_of other.now)) (sizes_of state) first }
    ensures { Listed (growth_rows (table state.before (arrays_of other.now)) (sizes_of state)) first rows.old rows.new out.old out.new result }
{
    let reply = RelocationsReply::from(expansion::relocated(
        other.table(state.before),
        state.current.buckets,
        state.bins,
        first,
        rows,
    ));
    let length = put_rows(rows, reply.written as usize, out);
    Page {
        rows: reply.written,
        total: reply.total,
        length,
    }
}

impl Rack {
    // A page of the move list of the latest growth, from order number `first` on; `rows` is written over.
    pub fn list(&self, first: u32, rows: &mut [u32], out: &mut [u8]) -> Page
        requires first_in_bounds { first ≤ length (moves_in (rack_of self.now)) }
        requires room { Room rows.old out.old }
        ensures { Listed (moves_in (rack_of self.now)) first rows.old rows.new out.old out.new result }
    {
        match self.state.stage {
            Stage::Empty | Stage::Fresh => Page {
                rows: 0,
                total: 0,
                length: 0,
            },
            Stage::Grown => page(self.state, self.other(), first, rows, out),
        }
    }
}
