// What a call gives where it is accepted, and what travels between the layers: its reply is made of it (reply.rt).
use crate::table::Header;

// A place: the bin and the position.
#[derive(Clone, Copy)]
pub struct Slot {
    pub bin: u32,
    pub position: u32,
}

// A table written: the buckets moved, and its header.
#[derive(Clone, Copy)]
pub struct Grown {
    pub moved: u32,
    pub header: Header,
}

// A page of the move list: the rows written, and how many there are in all.
#[derive(Clone, Copy)]
pub struct Page {
    pub written: u32,
    pub total: u32,
}

// A call of the mover: the mark to store, and whether it had reached the total, so that no row was done.
#[derive(Clone, Copy)]
pub struct Carried {
    pub mark: u32,
    pub finished: bool,
}
