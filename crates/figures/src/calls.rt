// A lent table, and what the calls say of it.
use model::limits::MAX_CAPACITY;
use model::reply::{
    BinSizeReply, FindReply, PlaceReply, PlacesReply, RelocationsReply, SheetReply,
};
use model::table::Header;

#[derive(Clone, Copy)]
pub struct Lent<'a> {
    pub header: Header,
    pub tops: &'a [u32],
    pub ends: &'a [u32],
    pub blocks: &'a [u32],
    pub adjustments: &'a [u32],
}

impl Lent<'_> {
    pub fn with_capacity(self, capacity: u32) -> Self {
        Lent {
            header: Header {
                capacity,
                ..self.header
            },
            ..self
        }
    }

    pub fn place(self, bucket: u32) -> PlaceReply {
        irr::place(
            self.header,
            self.tops,
            self.ends,
            self.blocks,
            self.adjustments,
            bucket,
        )
    }

    pub fn places(self, buckets: &[u32], places: &mut [u32]) -> PlacesReply {
        irr::places(
            self.header,
            self.tops,
            self.ends,
            self.blocks,
            self.adjustments,
            buckets,
            places,
        )
    }

    pub fn find(self, bin: u32, position: u32) -> FindReply {
        irr::find(
            self.header,
            self.tops,
            self.ends,
            self.blocks,
            self.adjustments,
            bin,
            position,
        )
    }

    pub fn bin_size(self, bin: u32) -> BinSizeReply {
        irr::bin_size(
            self.header,
            self.tops,
            self.ends,
            self.blocks,
            self.adjustments,
            bin,
        )
    }

    pub fn relocations(
        self,
        buckets: u32,
        bins: u32,
        first: u32,
        rows: &mut [u32],
    ) -> RelocationsReply {
        irr::relocations(
            self.header,
            self.tops,
            self.ends,
            self.blocks,
            self.adjustments,
            buckets,
            bins,
            first,
            rows,
        )
    }

    pub fn sheet(self, buffer: &mut [u8]) -> SheetReply {
        irr::sheet(
            self.header,
            self.tops,
            self.ends,
            self.blocks,
            self.adjustments,
            buffer,
        )
    }
}

// The header of a table with the capacity of document 01's figures.
pub fn header(buckets: u32, block_count: u32, interval_count: u32) -> Header {
    Header {
        buckets,
        capacity: MAX_CAPACITY,
        block_count,
        interval_count,
    }
}

// The map of document 01's history after (14, 5).
pub const GROWN: Lent<'static> = Lent {
    header: Header {
        buckets: 14,
        capacity: MAX_CAPACITY,
        block_count: 4,
        interval_count: 5,
    },
    tops: &[2, 3, 4, 5],
    ends: &[6, 7, 10, 11, 14],
    blocks: &[0, 3, 1, 3, 2],
    adjustments: &[0, 6, 7, 9, 11],
};

// That map with a wrong last adjustment.
pub const WRONG: Lent<'static> = Lent {
    adjustments: &[0, 6, 7, 9, 12],
    ..GROWN
};
