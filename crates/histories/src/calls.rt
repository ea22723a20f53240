// The table of a map, and the calls that are asked of it.
use crate::limits::{BLOCKS, INTERVALS};
use crate::size::Sizes;
use model::reply::{
    BinSizeReply, FindReply, LoadReply, PlaceReply, PlacesReply, RelocationsReply, SaveReply,
    SheetReply, TableReply,
};
use model::table::Header;
use std::ops::Range;

#[derive(Drop)]
pub struct Table {
    pub header: Header,
    pub tops: [u32; BLOCKS],
    pub ends: [u32; INTERVALS],
    pub blocks: [u32; INTERVALS],
    pub adjustments: [u32; INTERVALS],
}

impl Table {
    // No table yet: every entry is `entry`.
    pub fn filled(entry: u32) -> Self {
        Table {
            header: Header {
                buckets: 0,
                capacity: 0,
                block_count: 0,
                interval_count: 0,
            },
            tops: [entry; BLOCKS],
            ends: [entry; INTERVALS],
            blocks: [entry; INTERVALS],
            adjustments: [entry; INTERVALS],
        }
    }

    pub fn initial(&mut self, asked: Sizes, capacity: u32) -> TableReply {
        let reply = irr::initial(
            asked.buckets,
            asked.bins,
            capacity,
            &mut self.tops,
            &mut self.ends,
            &mut self.blocks,
            &mut self.adjustments,
        );
        self.header = reply.header;
        reply
    }

    pub fn load(&mut self, bytes: &[u8], capacity: u32) -> LoadReply {
        let reply = irr::load(
            bytes,
            capacity,
            &mut self.tops,
            &mut self.ends,
            &mut self.blocks,
            &mut self.adjustments,
        );
        self.header = reply.header;
        reply
    }

    // The bins of a block.
    pub fn bins_of(&self, block: u32) -> Range<u32> {
        let block = block as usize;
        let before = block.checked_sub(1).and_then(|i| self.tops.get(i));
        let first = before.copied().unwrap_or(0);
        first..self.tops.get(block).copied().unwrap_or(first)
    }

    pub fn lent(&self) -> Lent<'_> {
        Lent {
            header: self.header,
            tops: &self.tops,
            ends: &self.ends,
            blocks: &self.blocks,
            adjustments: &self.adjustments,
        }
    }
}

// A table as it is lent to a call.
#[derive(Clone, Copy)]
pub struct Lent<'a> {
    header: Header,
    tops: &'a [u32],
    ends: &'a [u32],
    blocks: &'a [u32],
    adjustments: &'a [u32],
}

impl Lent<'_> {
    pub fn with_capacity(self, capacity: u32) -> Self {
        Lent {
            header: Header {
                capacity,
                ..self.header
            },
            ..self
        }
    }

    // The table that follows is written to `new`.
    pub fn expand(self, asked: Sizes, new: &mut Table) -> TableReply {
        let reply = irr::expand(
            self.header,
            self.tops,
            self.ends,
            self.blocks,
            self.adjustments,
            asked.buckets,
            asked.bins,
            &mut new.tops,
            &mut new.ends,
            &mut new.blocks,
            &mut new.adjustments,
        );
        new.header = reply.header;
        reply
    }

    pub fn relocations(self, asked: Sizes, first: u32, rows: &mut [u32]) -> RelocationsReply {
        irr::relocations(
            self.header,
            self.tops,
            self.ends,
            self.blocks,
            self.adjustments,
            asked.buckets,
            asked.bins,
            first,
            rows,
        )
    }

    pub fn place(self, bucket: u32) -> PlaceReply {
        irr::place(
            self.header,
            self.tops,
            self.ends,
            self.blocks,
            self.adjustments,
            bucket,
        )
    }

    pub fn places(self, buckets: &[u32], places: &mut [u32]) -> PlacesReply {
        irr::places(
            self.header,
            self.tops,
            self.ends,
            self.blocks,
            self.adjustments,
            buckets,
            places,
        )
    }

    pub fn find(self, bin: u32, position: u32) -> FindReply {
        irr::find(
            self.header,
            self.tops,
            self.ends,
            self.blocks,
            self.adjustments,
            bin,
            position,
        )
    }

    pub fn bin_size(self, bin: u32) -> BinSizeReply {
        irr::bin_size(
            self.header,
            self.tops,
            self.ends,
            self.blocks,
            self.adjustments,
            bin,
        )
    }

    pub fn save(self, buffer: &mut [u8]) -> SaveReply {
        irr::save(
            self.header,
            self.tops,
            self.ends,
            self.blocks,
            self.adjustments,
            buffer,
        )
    }

    pub fn sheet(self, buffer: &mut [u8]) -> SheetReply {
        irr::sheet(
            self.header,
            self.tops,
            self.ends,
            self.blocks,
            self.adjustments,
            buffer,
        )
    }
}
