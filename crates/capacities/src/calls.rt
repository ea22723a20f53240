// A lent table, and what is asked of it.
use crate::print::{line, numbers};
use model::reply::{PlaceReply, TableReply};
use model::table::Header;
use std::io;

#[derive(Clone, Copy)]
pub struct Lent<'a> {
    pub header: Header,
    pub tops: &'a [u32],
    pub ends: &'a [u32],
    pub blocks: &'a [u32],
    pub adjustments: &'a [u32],
}

impl Lent<'_> {
    pub fn with_capacity(self, capacity: u32) -> Self {
        Lent {
            header: Header {
                capacity,
                ..self.header
            },
            ..self
        }
    }

    pub fn place(self, bucket: u32) -> PlaceReply {
        irr::place(
            self.header,
            self.tops,
            self.ends,
            self.blocks,
            self.adjustments,
            bucket,
        )
    }

    // A bucket and a bin are x; refusals and replies, and the places of a list.
    pub fn reads(self, rt: &impl Print, x: u32, position: u32, list: &[u32]) -> io::Result<()> {
        let Lent {
            header,
            tops,
            ends,
            blocks,
            adjustments,
        } = self;
        placed(rt, " place", self.place(x))?;
        let found = irr::find(header, tops, ends, blocks, adjustments, x, position);
        line(rt, " find", &[found.refusal, found.bucket])?;
        let sized = irr::bin_size(header, tops, ends, blocks, adjustments, x);
        line(rt, " bin size", &[sized.refusal, sized.buckets])?;
        let mut result = [9u32; 4];
        let reply = irr::places(header, tops, ends, blocks, adjustments, list, &mut result);
        print!(rt; " places {}", reply.refusal)?;
        line(rt, "", &result)
    }

    // refusal, length; the buffer afterwards
    pub fn save(self, rt: &impl Print, words: &str, buffer: &mut [u8]) -> io::Result<()> {
        let reply = irr::save(
            self.header,
            self.tops,
            self.ends,
            self.blocks,
            self.adjustments,
            buffer,
        );
        line(rt, words, &[reply.refusal, reply.length])?;
        line(rt, "  bytes", buffer)
    }

    // A growth and its move list, which is asked for from `order` on: sizes; the reply and what is written.
    pub fn grow(self, rt: &impl Print, buckets: u32, bins: u32, order: u32) -> io::Result<()> {
        self.expand(rt, buckets, bins)?;
        self.moves(rt, buckets, bins, order)
    }

    fn expand(self, rt: &impl Print, buckets: u32, bins: u32) -> io::Result<()> {
        let mut tops = [7u32; 65];
        let mut ends = [7u32; 2081];
        let mut blocks = [7u32; 2081];
        let mut adjustments = [7u32; 2081];
        let reply = irr::expand(
            self.header,
            self.tops,
            self.ends,
            self.blocks,
            self.adjustments,
            buckets,
            bins,
            &mut tops,
            &mut ends,
            &mut blocks,
            &mut adjustments,
        );
        line(rt, " expand", &[buckets, bins])?;
        replied(rt, reply)?;
        print!(rt; "  entries")?;
        for array in [&tops[..3], &ends[..3], &blocks[..3], &adjustments[..3]] {
            numbers(rt, array)?;
        }
        println!(rt)
    }

    // sizes, order; refusal, written, total; the rows
    fn moves(self, rt: &impl Print, buckets: u32, bins: u32, order: u32) -> io::Result<()> {
        let mut rows = [9u32; 15];
        let reply = irr::relocations(
            self.header,
            self.tops,
            self.ends,
            self.blocks,
            self.adjustments,
            buckets,
            bins,
            order,
            &mut rows,
        );
        line(rt, " moves", &[buckets, bins, order])?;
        line(rt, "  reply", &[reply.refusal, reply.written, reply.total])?;
        line(rt, "  rows", &rows)
    }
}

// refusal, bin, position
pub fn placed(rt: &impl Print, words: &str, reply: PlaceReply) -> io::Result<()> {
    line(rt, words, &[reply.refusal, reply.bin, reply.position])
}

// refusal, moved, header
fn replied(rt: &impl Print, reply: TableReply) -> io::Result<()> {
    let h = reply.header;
    let numbers = [
        reply.refusal,
        reply.moved,
        h.buckets,
        h.capacity,
        h.block_count,
        h.interval_count,
    ];
    line(rt, "  reply", &numbers)
}
