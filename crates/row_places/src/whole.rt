// A whole row of the move list: its bucket too.
ghost use Rattle.std.specs.Prelude.{◌≡◌, ◌<◌, [], length, get_or};
ghost use Rattle.model.specs.Table.{sizes};
ghost use Rattle.model.specs.Refusal.{first};
ghost use Rattle.model.specs.Calls.{growth_tests, rows_of};
ghost use Rattle.table.specs.Formed.{table_of, arrays_of};
ghost use Rattle.row_places.specs.Rows.{whole_row};

use crate::{RowPlaces, bucket_of, places_at};
use table::FormedTable;

// A row of the move list: its bucket, and its places.
#[derive(Clone, Copy)]
pub struct Row {
    pub bucket: u32,
    pub places: RowPlaces,
}

// The row of the given order number.
pub fn row_of(table: FormedTable, buckets: u32, bins: u32, order: u32) -> Row
    requires bins_value { first (growth_tests (table_of table) (sizes buckets bins)) ≡ 0 }
    requires order_in_bounds { order < length (rows_of table.header (arrays_of table) (sizes buckets bins)) }
    ensures { result ≡ whole_row (get_or (rows_of table.entry.header (arrays_of table.entry) (sizes buckets bins)) order []) }
{
    let moved = bucket_of(table, buckets, bins, order);
    Row {
        bucket: moved.bucket,
        places: places_at(table, bins, moved, order),
    }
}
