// The rack sheet of a map: its lines are read back, and compared with the table and with the directory.
use crate::counts::Counts;
use crate::history::Map;
use crate::limits::INTERVALS;
use std::ops::Range;

// The bytes of a line: five fields of ten columns, and a line feed.
const LINE: usize = 51;

const FIELD: usize = 10;

// Room for the most lines, and one byte behind them.
const ROOM: usize = LINE * INTERVALS + 1;

impl Map {
    // One line an interval, and nothing behind them.
    pub fn sheets(&self, counts: &mut Counts) {
        let table = &self.table;
        let mut text = [b'.'; ROOM];
        let reply = table.lent().sheet(&mut text);
        counts.same(reply.refusal, 0);
        let count = table.header.interval_count as usize;
        let (lines, _) = text.as_chunks::<LINE>();
        let mut first = 0;
        let intervals = table.ends.iter().zip(&table.blocks).take(count);
        for (line, (end, block)) in lines.iter().zip(intervals) {
            self.line(line, first..*end, *block, counts);
            first = *end;
        }
        counts.lines += table.header.interval_count;
        let length = LINE * count;
        counts.same(reply.length as usize, length);
        counts.holds(text.get(length).is_some_and(|byte| *byte == b'.'));
    }

    // The line of an interval: first bucket, last bucket, block, first bin, bins in the block. The first bucket and the last lie
    // in those bins.
    fn line(&self, line: &[u8; LINE], buckets: Range<u32>, block: u32, counts: &mut Counts) {
        let bins = self.table.bins_of(block);
        let last = buckets.end.saturating_sub(1);
        let width = bins.end.saturating_sub(bins.start);
        let right = [buckets.start, last, block, bins.start, width];
        let (fields, feed) = line.as_chunks::<FIELD>();
        for (field, right) in fields.iter().zip(right) {
            counts.same(number(field), Some(right));
        }
        counts.holds(feed == b"\n".as_slice());
        for bucket in [buckets.start, last] {
            let place = self.directory.place(bucket);
            counts.holds(place.is_some_and(|place| bins.contains(&place.bin)));
        }
    }
}

// Blanks, then digits.
fn number(field: &[u8; FIELD]) -> Option<u32> {
    let blanks = field.iter().position(|column| *column != b' ')?;
    field.iter().skip(blanks).try_fold(0u32, |value, column| {
        let digit = char::from(*column).to_digit(10)?;
        value.checked_mul(10)?.checked_add(digit)
    })
}
