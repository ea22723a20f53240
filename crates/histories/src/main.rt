// Plays histories through the public calls, compares every map with a full directory of buckets, and prints what it counted.
// The random ones come from a fixed seed, so that a run is like any other.
#![tactic(auto)]

mod ask;
mod calls;
mod compare;
mod counts;
mod directory;
mod file;
mod history;
mod limits;
mod list;
mod rack_sheet;
mod random;
mod refusal;
mod size;

use crate::ask::Growths;
use crate::counts::Counts;
use crate::history::Map;
use crate::limits::{LABEL, MAX_BINS, MAX_CAPACITY};
use crate::random::Random;
use crate::size::Sizes;
use std::io;

#[derive(Drop)]
struct Run {
    counts: Counts,
    random: Random,
}

impl Run {
    // So many random histories of so many growths each, from at most `most` buckets.
    fn random(
        &mut self,
        rt: &impl Print,
        histories: u32,
        most: u32,
        growths: Growths,
        count: u32,
    ) -> io::Result<()> {
        for _ in 0..histories {
            let fresh = self.fresh(most);
            let capacity = self.capacity(fresh);
            self.play(rt, fresh, capacity, growths, count)?;
        }
        Ok(())
    }

    // Random sizes of a fresh map.
    fn fresh(&mut self, most: u32) -> Sizes {
        let buckets = self.random.below(most).saturating_add(1);
        let bins = self.random.below(buckets.min(8)).saturating_add(1);
        Sizes { buckets, bins }
    }

    // A random capacity for a fresh map: what its largest bin takes, somewhat more, or the greatest.
    fn capacity(&mut self, fresh: Sizes) -> u32 {
        let size = fresh.due(0);
        let taken = LABEL.saturating_add(size);
        match self.random.below(6) {
            0 => taken,
            1 => taken.saturating_add(2),
            2 => taken.saturating_add(size),
            3 => taken.saturating_add(size.saturating_mul(3)),
            _ => MAX_CAPACITY,
        }
    }

    // A history: a fresh map, and so many growths.
    fn play(
        &mut self,
        rt: &impl Print,
        fresh: Sizes,
        capacity: u32,
        growths: Growths,
        count: u32,
    ) -> io::Result<()> {
        let mut map = Map::empty(capacity);
        map.begin(fresh, &mut self.counts);
        for i in 0..count {
            let asked = growths.asked(map.directory.sizes, i, &mut self.random);
            map.grow(rt, asked, &mut self.counts)?;
        }
        Ok(())
    }

    // Document 01's figure of the most bins: Fresh (65535, 65535).
    fn widest(&mut self, rt: &impl Print) -> io::Result<()> {
        let before = self.counts;
        let fresh = Sizes {
            buckets: MAX_BINS,
            bins: MAX_BINS,
        };
        self.play(rt, fresh, MAX_CAPACITY, Growths::Planned, 0)?;
        let compared = self.counts.compared - before.compared;
        let failed = self.counts.failed - before.failed;
        println!(rt;
            "fresh map: buckets, bins, comparisons, failed {} {} {compared} {failed}",
            fresh.buckets, fresh.bins
        )
    }
}

fn print_counts(rt: &impl Print, counts: &Counts) -> io::Result<()> {
    println!(rt; "histories {}", counts.histories)?;
    println!(rt; "accepted growths {}", counts.accepted)?;
    println!(rt; "most intervals {}", counts.intervals)?;
    for (refusal, count) in counts.refused.iter().enumerate() {
        if count.0 != 0 {
            println!(rt; "growths refused by {refusal} {count}")?;
        }
    }
    println!(rt; "buckets {}", counts.buckets)?;
    println!(rt; "bins {}", counts.bins)?;
    println!(rt; "rows {}", counts.rows)?;
    println!(rt; "listed buckets {}", counts.listed)?;
    println!(rt; "files {}", counts.files)?;
    println!(rt; "lines {}", counts.lines)?;
    println!(rt; "comparisons {}", counts.compared)?;
    println!(rt; "failed {}", counts.failed)
}

fn main(rt: HostRuntime) -> io::Result<()> {
    let mut run = Run {
        counts: Counts::default(),
        random: Random::new(20_261_115),
    };
    let few = Growths::Random {
        buckets: 4,
        bins: 2,
    };
    let more = Growths::Random {
        buckets: 30,
        bins: 5,
    };
    let many = Growths::Random {
        buckets: 300,
        bins: 30,
    };
    let long = Growths::Random {
        buckets: 5,
        bins: 1,
    };
    run.random(&rt, 40, 12, few, 30)?;
    run.random(&rt, 10, 60, more, 30)?;
    run.random(&rt, 4, 200, many, 24)?;
    run.random(&rt, 2, 30, long, 150)?;
    let narrow = Sizes {
        buckets: 200,
        bins: 1,
    };
    run.play(&rt, narrow, MAX_CAPACITY, Growths::Planned, 116)?;
    run.widest(&rt)?;
    print_counts(&rt, &run.counts)
}
