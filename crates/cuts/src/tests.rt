// A `Player` may do anything with the counts: the plays ask no more of it.
use super::*;
use cut_tests::{Player, add, play, play_full, random};

// Counts the growths that it is put through, and forgets the comparisons.
struct Forgetful;

impl Player for Forgetful {
    fn carry(&self, _case: &Case<'_, '_, '_>, tally: &mut Tally) {
        add(&mut tally.growths, 1);
        tally.comparisons = 0;
    }

    fn refused(&self, _growth: &Growth<'_>, _number: u32, tally: &mut Tally) {
        add(&mut tally.runs, 1);
        tally.comparisons = 0;
    }
}

// One growth of the table that is full, and nine that are refused; a history of 65 growths, of which a map has no block for the
// last; three histories of 12.
#[test]
fn any_player_plays(rt: HostRuntime) {
    let mut tally = Tally::default();
    play_full(&Forgetful, &mut tally);
    assert_eq!(rt; [tally.growths, tally.runs, tally.refused[8]], [1, 9, 1]);
    let by_bins = Plan {
        choices: 1,
        growths: 65,
    };
    play(&Forgetful, 1, 66, 1, by_bins, &mut tally);
    assert_eq!(rt; [tally.growths, tally.runs, tally.histories], [65, 10, 1]);
    let of_all = Plan {
        choices: 8,
        growths: 12,
    };
    random(&Forgetful, 20_261_115, 3, of_all, &mut tally);
    assert_eq!(rt;
        [tally.growths.saturating_add(tally.runs), tally.histories],
        [111, 4]
    );
    assert_eq!(rt; tally.comparisons, 0);
}
