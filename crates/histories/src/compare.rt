// What the calls say of a map, against the directory.
use crate::calls::Lent;
use crate::counts::Counts;
use crate::history::Map;
use crate::limits::LABEL;
use crate::refusal::Refusal;
use crate::size::Sizes;
use model::reply::{FindReply, PlaceReply, RelocationsReply};

// What a lent array has where no call writes.
pub const UNWRITTEN: u32 = u32::MAX;

// The rows of a page of the move list.
const PAGE: usize = 7;

const PLACE_PAST: FindReply = FindReply {
    refusal: Refusal::PlacePast as u32,
    bucket: 0,
};

impl Map {
    // A map whole, lists of its buckets, its file, its sheet, and the first bucket and the first bin that there are not.
    pub fn compare(&self, counts: &mut Counts) {
        self.buckets(counts);
        self.bins(counts);
        self.lists(counts);
        self.files(counts);
        self.sheets(counts);
        let lent = self.table.lent();
        let Sizes { buckets, bins } = self.directory.sizes;
        let past = PlaceReply {
            refusal: Refusal::BucketPast as u32,
            bin: 0,
            position: 0,
        };
        placed(lent, buckets, past, counts);
        found(lent, bins, LABEL, PLACE_PAST, counts);
    }

    // Every bucket's place, and the bucket of every place.
    fn buckets(&self, counts: &mut Counts) {
        let lent = self.table.lent();
        let d = &self.directory;
        for (bucket, place) in (0..d.sizes.buckets).zip(d.places()) {
            placed(lent, bucket, place.reply(), counts);
            let right = FindReply { refusal: 0, bucket };
            found(lent, place.bin, place.position, right, counts);
            counts.buckets += 1;
        }
    }

    // Every bin's size, and nothing found where it holds no bucket: at some position of its label, at the label's last, and at the
    // one behind the last bucket.
    fn bins(&self, counts: &mut Counts) {
        let lent = self.table.lent();
        let d = &self.directory;
        for (bin, held) in (0..d.sizes.bins).zip(d.held()) {
            let reply = lent.bin_size(bin);
            counts.same(reply.refusal, 0);
            counts.same(reply.buckets, *held);
            for position in [bin % LABEL, LABEL - 1, LABEL.saturating_add(*held)] {
                found(lent, bin, position, PLACE_PAST, counts);
            }
            counts.bins += 1;
        }
    }

    // The move list of the latest growth, asked of the table before it. The last page is short, or empty.
    pub fn rows(&self, asked: Sizes, counts: &mut Counts) {
        let total = self.directory.moved;
        let mut moves = self.directory.moves();
        for first in (0..=total).step_by(PAGE) {
            let written = total.saturating_sub(first).min(PAGE as u32);
            let right = RelocationsReply {
                refusal: 0,
                written,
                total,
            };
            let rows = self.page(asked, first, right, counts);
            for row in rows.iter().take(written as usize) {
                let right = moves.next().unwrap_or([UNWRITTEN; 5]);
                row_same(row, right, counts);
            }
            for row in rows.iter().skip(written as usize) {
                counts.same(row[0], UNWRITTEN);
            }
        }
        counts.holds(moves.next().is_none());
    }

    // A page that is refused: nothing is written.
    pub fn no_rows(&self, asked: Sizes, first: u32, refusal: u32, counts: &mut Counts) {
        let right = RelocationsReply {
            refusal,
            written: 0,
            total: 0,
        };
        let [row, ..] = self.page(asked, first, right, counts);
        counts.same(row[0], UNWRITTEN);
    }

    // The page from order number `first` on.
    fn page(
        &self,
        asked: Sizes,
        first: u32,
        right: RelocationsReply,
        counts: &mut Counts,
    ) -> [[u32; 5]; PAGE] {
        let mut rows = [[UNWRITTEN; 5]; PAGE];
        let lent = self.table.lent();
        let reply = lent.relocations(asked, first, rows.as_flattened_mut());
        counts.same(reply.refusal, right.refusal);
        counts.same(reply.total, right.total);
        counts.same(reply.written, right.written);
        rows
    }
}

fn row_same(row: &[u32; 5], right: [u32; 5], counts: &mut Counts) {
    for (seen, right) in row.iter().zip(right) {
        counts.same(*seen, right);
    }
    counts.rows += 1;
}

pub fn placed(lent: Lent<'_>, bucket: u32, right: PlaceReply, counts: &mut Counts) {
    let reply = lent.place(bucket);
    counts.same(reply.refusal, right.refusal);
    counts.same(reply.bin, right.bin);
    counts.same(reply.position, right.position);
}

fn found(lent: Lent<'_>, bin: u32, position: u32, right: FindReply, counts: &mut Counts) {
    let reply = lent.find(bin, position);
    counts.same(reply.refusal, right.refusal);
    counts.same(reply.bucket, right.bucket);
}
