// Lists of buckets: the places that are written for them, against the directory. Every bucket's single placing is compared with
// the same entries of it.
ghost use Rattle.std.specs.Iterator.{at_most};

use crate::compare::UNWRITTEN;
use crate::counts::Counts;
use crate::directory::MOST;
use crate::history::Map;
use crate::random::Random;

// A list that does not fall: so many buckets, from `next` on, each by `step` or up to `gap` more above the one before it, but
// none above `last`.
#[derive(Clone, Copy)]
struct Rise {
    count: u32,
    next: u32,
    step: u32,
    gap: u32,
    last: u32,
    random: Random,
}

impl Rise {
    // Only the bucket where it begins, so many times.
    fn still(buckets: u32, count: u32, first: u32) -> Self {
        Rise {
            count,
            next: first,
            step: 0,
            gap: 0,
            last: buckets.saturating_sub(1),
            random: Random::new(0),
        }
    }

    // Every bucket of a map.
    fn all(buckets: u32) -> Self {
        Rise {
            step: 1,
            ..Rise::still(buckets, buckets, 0)
        }
    }

    // Some buckets of the whole map, with repeats and with gaps.
    fn some(buckets: u32, mut random: Random) -> Self {
        let count = random.below(buckets.min(500)).saturating_add(1);
        random.draw();
        Rise {
            gap: buckets.saturating_mul(2) / count,
            random,
            ..Rise::still(buckets, count, 0)
        }
    }
}

impl Iterator for Rise {
    type Item = u32;

    ghost remaining = { λ r. at_most r.count };

    fn next(&mut self) -> Option<u32> {
        self.count = self.count.checked_sub(1)?;
        let bucket = self.next;
        let more = self.random.below(self.gap.saturating_add(1));
        self.next = bucket
            .saturating_add(self.step)
            .saturating_add(more)
            .min(self.last);
        Some(bucket)
    }
}

impl Map {
    // None, one, all and some.
    pub fn lists(&self, counts: &mut Counts) {
        let buckets = self.directory.sizes.buckets;
        let random = Random::new(counts.compared.0.saturating_add(1));
        let mut one = random;
        self.list(Rise::still(buckets, 0, 0), counts);
        self.list(Rise::still(buckets, 1, one.below(buckets)), counts);
        self.list(Rise::all(buckets), counts);
        self.list(Rise::some(buckets, random), counts);
    }

    fn list(&self, rise: Rise, counts: &mut Counts) {
        let mut buckets = [UNWRITTEN; MOST];
        for (entry, bucket) in buckets.iter_mut().zip(rise) {
            *entry = bucket;
        }
        match buckets.get(..rise.count as usize) {
            Some(list) => self.listed(list, counts),
            None => counts.holds(false),
        }
    }

    // Every bucket's place, and nothing written behind the last one.
    fn listed(&self, list: &[u32], counts: &mut Counts) {
        let mut places = [[UNWRITTEN; 2]; MOST];
        let lent = self.table.lent();
        let reply = lent.places(list, places.as_flattened_mut());
        counts.same(reply.refusal, 0);
        for (bucket, [bin, position]) in list.iter().zip(&places) {
            let place = self.directory.place(*bucket);
            counts.same(Some(*bin), place.map(|place| place.bin));
            counts.same(Some(*position), place.map(|place| place.position));
            counts.listed += 1;
        }
        let behind = places.get(list.len());
        counts.holds(behind.is_none_or(|place| place[0] == UNWRITTEN));
    }
}
