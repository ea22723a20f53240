// The replies of the fourteen calls. `refusal` is document 01's number, or 0; in a refusal every other number is 0. Each is made of
// the call's result.
use crate::given::{Carried, Grown, Page, Slot};
use crate::refusal::Refusal;
use crate::table::Header;

// initial and expand: the buckets moved, and the header of the table written
#[repr(C)]
#[derive(Clone, Copy)]
pub struct TableReply {
    pub refusal: u32,
    pub moved: u32,
    pub header: Header,
}

impl From<Result<Grown, Refusal>> for TableReply {
    ghost use Rattle.std.specs.Prelude.{◌≡◌};
    ghost use Rattle.model.specs.Results.{table_told};

    ghost from_gives = { λ told reply. reply ≡ table_told told };

    fn from(told: Result<Grown, Refusal>) -> TableReply {
        match told {
            Ok(grown) => TableReply {
                refusal: 0,
                moved: grown.moved,
                header: grown.header,
            },
            Err(refusal) => TableReply {
                refusal: refusal.number(),
                moved: 0,
                header: Header::NONE,
            },
        }
    }
}

// relocations: the rows written, and how many there are in all
#[repr(C)]
#[derive(Clone, Copy)]
pub struct RelocationsReply {
    pub refusal: u32,
    pub written: u32,
    pub total: u32,
}

impl From<Result<Page, Refusal>> for RelocationsReply {
    ghost use Rattle.std.specs.Prelude.{◌≡◌};
    ghost use Rattle.model.specs.Results.{relocations_told};

    ghost from_gives = { λ told reply. reply ≡ relocations_told told };

    fn from(told: Result<Page, Refusal>) -> RelocationsReply {
        match told {
            Ok(page) => RelocationsReply {
                refusal: 0,
                written: page.written,
                total: page.total,
            },
            Err(refusal) => RelocationsReply {
                refusal: refusal.number(),
                written: 0,
                total: 0,
            },
        }
    }
}

#[repr(C)]
#[derive(Clone, Copy)]
pub struct PlaceReply {
    pub refusal: u32,
    pub bin: u32,
    pub position: u32,
}

impl From<Result<Slot, Refusal>> for PlaceReply {
    ghost use Rattle.std.specs.Prelude.{◌≡◌};
    ghost use Rattle.model.specs.Results.{place_told};

    ghost from_gives = { λ told reply. reply ≡ place_told told };

    fn from(told: Result<Slot, Refusal>) -> PlaceReply {
        match told {
            Ok(slot) => PlaceReply {
                refusal: 0,
                bin: slot.bin,
                position: slot.position,
            },
            Err(refusal) => PlaceReply {
                refusal: refusal.number(),
                bin: 0,
                position: 0,
            },
        }
    }
}

// places: the places themselves are in the lent result
#[repr(C)]
#[derive(Clone, Copy)]
pub struct PlacesReply {
    pub refusal: u32,
}

impl From<Result<(), Refusal>> for PlacesReply {
    ghost use Rattle.std.specs.Prelude.{◌≡◌};
    ghost use Rattle.model.specs.Results.{places_told};

    ghost from_gives = { λ told reply. reply ≡ places_told told };

    fn from(told: Result<(), Refusal>) -> PlacesReply {
        match told {
            Ok(()) => PlacesReply { refusal: 0 },
            Err(refusal) => PlacesReply {
                refusal: refusal.number(),
            },
        }
    }
}

#[repr(C)]
#[derive(Clone, Copy)]
pub struct FindReply {
    pub refusal: u32,
    pub bucket: u32,
}

impl From<Result<u32, Refusal>> for FindReply {
    ghost use Rattle.std.specs.Prelude.{◌≡◌};
    ghost use Rattle.model.specs.Results.{find_told};

    ghost from_gives = { λ told reply. reply ≡ find_told told };

    fn from(told: Result<u32, Refusal>) -> FindReply {
        match told {
            Ok(bucket) => FindReply { refusal: 0, bucket },
            Err(refusal) => FindReply {
                refusal: refusal.number(),
                bucket: 0,
            },
        }
    }
}

// bin_size: the buckets in the bin
#[repr(C)]
#[derive(Clone, Copy)]
pub struct BinSizeReply {
    pub refusal: u32,
    pub buckets: u32,
}

impl From<Result<u32, Refusal>> for BinSizeReply {
    ghost use Rattle.std.specs.Prelude.{◌≡◌};
    ghost use Rattle.model.specs.Results.{bin_size_told};

    ghost from_gives = { λ told reply. reply ≡ bin_size_told told };

    fn from(told: Result<u32, Refusal>) -> BinSizeReply {
        match told {
            Ok(buckets) => BinSizeReply {
                refusal: 0,
                buckets,
            },
            Err(refusal) => BinSizeReply {
                refusal: refusal.number(),
                buckets: 0,
            },
        }
    }
}

#[repr(C)]
#[derive(Clone, Copy)]
pub struct RoomReply {
    pub refusal: u32,
    pub intervals: u32,
}

impl From<Result<u32, Refusal>> for RoomReply {
    ghost use Rattle.std.specs.Prelude.{◌≡◌};
    ghost use Rattle.model.specs.Results.{room_told};

    ghost from_gives = { λ told reply. reply ≡ room_told told };

    fn from(told: Result<u32, Refusal>) -> RoomReply {
        match told {
            Ok(intervals) => RoomReply {
                refusal: 0,
                intervals,
            },
            Err(refusal) => RoomReply {
                refusal: refusal.number(),
                intervals: 0,
            },
        }
    }
}

// save: the bytes written
#[repr(C)]
#[derive(Clone, Copy)]
pub struct SaveReply {
    pub refusal: u32,
    pub length: u32,
}

impl From<Result<u32, Refusal>> for SaveReply {
    ghost use Rattle.std.specs.Prelude.{◌≡◌};
    ghost use Rattle.model.specs.Results.{save_told};

    ghost from_gives = { λ told reply. reply ≡ save_told told };

    fn from(told: Result<u32, Refusal>) -> SaveReply {
        match told {
            Ok(length) => SaveReply { refusal: 0, length },
            Err(refusal) => SaveReply {
                refusal: refusal.number(),
                length: 0,
            },
        }
    }
}

#[repr(C)]
#[derive(Clone, Copy)]
pub struct LoadReply {
    pub refusal: u32,
    pub header: Header,
}

impl From<Result<Header, Refusal>> for LoadReply {
    ghost use Rattle.std.specs.Prelude.{◌≡◌};
    ghost use Rattle.model.specs.Results.{load_told};

    ghost from_gives = { λ told reply. reply ≡ load_told told };

    fn from(told: Result<Header, Refusal>) -> LoadReply {
        match told {
            Ok(header) => LoadReply { refusal: 0, header },
            Err(refusal) => LoadReply {
                refusal: refusal.number(),
                header: Header::NONE,
            },
        }
    }
}

// sheet: the bytes written
#[repr(C)]
#[derive(Clone, Copy)]
pub struct SheetReply {
    pub refusal: u32,
    pub length: u32,
}

impl From<Result<u32, Refusal>> for SheetReply {
    ghost use Rattle.std.specs.Prelude.{◌≡◌};
    ghost use Rattle.model.specs.Results.{sheet_told};

    ghost from_gives = { λ told reply. reply ≡ sheet_told told };

    fn from(told: Result<u32, Refusal>) -> SheetReply {
        match told {
            Ok(length) => SheetReply { refusal: 0, length },
            Err(refusal) => SheetReply {
                refusal: refusal.number(),
                length: 0,
            },
        }
    }
}

// carry and carry_written: the mark to store, and 1 where it had reached the total, so that no row was done
#[repr(C)]
#[derive(Clone, Copy)]
pub struct CarryReply {
    pub refusal: u32,
    pub mark: u32,
    pub finished: u32,
}

impl From<Result<Carried, Refusal>> for CarryReply {
    ghost use Rattle.std.specs.Prelude.{◌≡◌};
    ghost use Rattle.model.specs.Results.{carry_told};

    ghost from_gives = { λ told reply. reply ≡ carry_told told };

    fn from(told: Result<Carried, Refusal>) -> CarryReply {
        match told {
            Ok(carried) => CarryReply {
                refusal: 0,
                mark: carried.mark,
                finished: carried.finished as u32,
            },
            Err(refusal) => CarryReply {
                refusal: refusal.number(),
                mark: 0,
                finished: 0,
            },
        }
    }
}

// written_relocations: how many of the moved buckets are written
#[repr(C)]
#[derive(Clone, Copy)]
pub struct WrittenReply {
    pub refusal: u32,
    pub count: u32,
}

impl From<Result<u32, Refusal>> for WrittenReply {
    ghost use Rattle.std.specs.Prelude.{◌≡◌};
    ghost use Rattle.model.specs.Results.{written_told};

    ghost from_gives = { λ told reply. reply ≡ written_told told };

    fn from(told: Result<u32, Refusal>) -> WrittenReply {
        match told {
            Ok(count) => WrittenReply { refusal: 0, count },
            Err(refusal) => WrittenReply {
                refusal: refusal.number(),
                count: 0,
            },
        }
    }
}
