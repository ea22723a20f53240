// The saved form of a map. What the directory's largest bin takes is the least capacity: the map is accepted with it, lent or
// loaded, and with one less it is refused by 30.
use crate::calls::Table;
use crate::compare::{UNWRITTEN, placed};
use crate::counts::Counts;
use crate::history::Map;
use crate::limits::MAX_CAPACITY;
use crate::refusal::Refusal;
use model::reply::PlaceReply;
use model::table::Header;

impl Map {
    // Lent with the two capacities; saved, and loaded with them and with the greatest.
    pub fn files(&self, counts: &mut Counts) {
        let least = self.directory.largest();
        let less = least.saturating_sub(1);
        self.tight_places(least, less, counts);
        let mut file = [0u8; 16_920];
        let reply = self.table.lent().save(&mut file);
        counts.same(reply.refusal, 0);
        counts.files += 1;
        match file.get(..reply.length as usize) {
            Some(bytes) => {
                not_loaded(bytes, less, counts);
                self.loaded(bytes, least, counts);
                self.loaded(bytes, MAX_CAPACITY, counts);
            }
            None => counts.holds(false),
        }
    }

    fn tight_places(&self, least: u32, less: u32, counts: &mut Counts) {
        let lent = self.table.lent();
        let right = self.directory.first_place().reply();
        placed(lent.with_capacity(least), 0, right, counts);
        let refused = PlaceReply {
            refusal: Refusal::CapacityWrong as u32,
            bin: 0,
            position: 0,
        };
        placed(lent.with_capacity(less), 0, refused, counts);
    }

    // The same table, with the capacity given.
    fn loaded(&self, bytes: &[u8], capacity: u32, counts: &mut Counts) {
        let mut new = Table::filled(UNWRITTEN);
        let reply = new.load(bytes, capacity);
        let right = Header {
            capacity,
            ..self.table.header
        };
        counts.same(reply.refusal, 0);
        headers_same(reply.header, right, counts);
        alike(&new.tops, &self.table.tops, right.block_count, counts);
        let intervals = right.interval_count;
        alike(&new.ends, &self.table.ends, intervals, counts);
        alike(&new.blocks, &self.table.blocks, intervals, counts);
        alike(&new.adjustments, &self.table.adjustments, intervals, counts);
    }
}

// Refused by 30: zeros, and nothing written.
fn not_loaded(bytes: &[u8], capacity: u32, counts: &mut Counts) {
    let mut new = Table::filled(UNWRITTEN);
    let zeros = new.header;
    let reply = new.load(bytes, capacity);
    counts.same(reply.refusal, Refusal::CapacityWrong as u32);
    headers_same(reply.header, zeros, counts);
    counts.same(new.tops[0], UNWRITTEN);
    counts.same(new.ends[0], UNWRITTEN);
    counts.same(new.blocks[0], UNWRITTEN);
    counts.same(new.adjustments[0], UNWRITTEN);
}

fn headers_same(seen: Header, right: Header, counts: &mut Counts) {
    counts.same(seen.buckets, right.buckets);
    counts.same(seen.capacity, right.capacity);
    counts.same(seen.block_count, right.block_count);
    counts.same(seen.interval_count, right.interval_count);
}

// The first `count` entries of two arrays; behind them the first one keeps what it had.
fn alike(written: &[u32], right: &[u32], count: u32, counts: &mut Counts) {
    let count = count as usize;
    for (seen, right) in written.iter().zip(right).take(count) {
        counts.same(*seen, *right);
    }
    counts.holds(written.get(count).is_none_or(|entry| *entry == UNWRITTEN));
}
