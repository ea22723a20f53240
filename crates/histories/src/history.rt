// A map under test: a fresh map, and growths of it, some of them refused.
use crate::calls::Table;
use crate::counts::Counts;
use crate::directory::Directory;
use crate::refusal;
use crate::refusal::{Refusal, number};
use crate::size::Sizes;
use model::reply::TableReply;
use std::io;

// The table after the latest accepted call, and the directory of the same map.
#[derive(Drop)]
pub struct Map {
    pub table: Table,
    pub directory: Directory,
}

impl Map {
    pub fn empty(capacity: u32) -> Self {
        Map {
            table: Table::filled(0),
            directory: Directory::empty(capacity),
        }
    }

    // A fresh map, compared.
    pub fn begin(&mut self, asked: Sizes, counts: &mut Counts) {
        let reply = self.table.initial(asked, self.directory.capacity);
        self.replied(asked, reply, counts);
        counts.histories += 1;
        self.compare(counts);
    }

    // One growth, to a new table, which becomes the map's if the growth is accepted.
    pub fn grow(&mut self, rt: &impl Print, asked: Sizes, counts: &mut Counts) -> io::Result<()> {
        let mut new = Table::filled(0);
        let reply = self.table.lent().expand(asked, &mut new);
        if reply.refusal != 0 {
            return self.refused(rt, asked, reply, counts);
        }
        self.accepted(asked, reply, counts);
        self.table = new;
        self.compare(counts);
        Ok(())
    }

    // The directory after an accepted call, and what the call replied besides the number of intervals.
    fn replied(&mut self, asked: Sizes, reply: TableReply, counts: &mut Counts) {
        let d = &mut self.directory;
        d.grow(asked);
        counts.intervals = counts.intervals.max(reply.header.interval_count);
        counts.same(reply.refusal, 0);
        counts.same(reply.moved, d.moved);
        counts.same(reply.header.buckets, d.sizes.buckets);
        counts.same(reply.header.capacity, d.capacity);
        counts.same(reply.header.block_count, d.block_count);
    }

    // An accepted growth: the directory's, and the move list, asked of the old table, and its end.
    fn accepted(&mut self, asked: Sizes, reply: TableReply, counts: &mut Counts) {
        let d = &self.directory;
        counts.same(number(refusal::growth(d, d.capacity, asked)), 0);
        counts.accepted += 1;
        self.replied(asked, reply, counts);
        self.rows(asked, counts);
        let past = self.directory.moved.saturating_add(1);
        self.no_rows(asked, past, Refusal::OrderPast as u32, counts);
    }

    // A refused growth. 8 depends on the intervals, which the directory does not know: a growth adds at most as many as there are
    // and one, or one a block. The move list does not test 8, and a growth of the buckets alone moves none.
    fn refused(
        &self,
        rt: &impl Print,
        asked: Sizes,
        reply: TableReply,
        counts: &mut Counts,
    ) -> io::Result<()> {
        let d = &self.directory;
        let right = number(refusal::growth(d, d.capacity, asked));
        self.no_rows(asked, 0, right, counts);
        counts.refused_by(reply.refusal);
        counts.same(reply.moved, 0);
        counts.same(reply.header.buckets, 0);
        counts.same(reply.header.capacity, 0);
        counts.same(reply.header.block_count, 0);
        counts.same(reply.header.interval_count, 0);
        if reply.refusal == Refusal::IntervalsFull as u32 {
            self.tight(asked, counts);
            return self.too_many(rt, asked, counts);
        }
        counts.same(reply.refusal, right);
        Ok(())
    }

    // What 8 refuses, asked of the same table with the least capacity: 31 comes before 8, where it holds.
    fn tight(&self, asked: Sizes, counts: &mut Counts) {
        let least = self.directory.largest();
        let mut new = Table::filled(0);
        let reply = self
            .table
            .lent()
            .with_capacity(least)
            .expand(asked, &mut new);
        let right = match refusal::growth(&self.directory, least, asked) {
            Err(Refusal::Overfills) => Refusal::Overfills,
            _ => Refusal::IntervalsFull,
        };
        counts.same(reply.refusal, right as u32);
    }

    fn too_many(&self, rt: &impl Print, asked: Sizes, counts: &mut Counts) -> io::Result<()> {
        let h = self.table.header;
        println!(rt;
            "refused by 8: buckets, blocks, intervals, buckets and bins asked for {} {} {} {} {}",
            h.buckets, h.block_count, h.interval_count, asked.buckets, asked.bins
        )?;
        if h.interval_count <= 1_040 {
            counts.failed += 1;
        }
        Ok(())
    }
}
