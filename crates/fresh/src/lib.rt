// A fresh map's table, in arrays with room for any.
#![tactic(auto)]

ghost use Rattle.std.specs.Prelude.{◌≡◌, false};
ghost use Rattle.model.specs.Table.{sizes, arrays};
ghost use Rattle.model.specs.Refusal.{room_short};
ghost use Rattle.model.specs.Initial.{initial};
ghost use Rattle.model.specs.Calls.{table_reply, arrays_after};
ghost use Rattle.model.specs.Results.{table_told};
ghost use Rattle.fresh.specs.Fresh.{fresh_refusal};

use model::given::Grown;
use model::limits::MAX_CAPACITY;
use model::refusal::Refusal;
use model::table::Header;
use sizes::{is_outside, overfull, sizes_allowed, write_initial};

// The capacity's range, the sizes, the first bin's due; then the table of `buckets` in `bins`.
pub fn mapped(
    buckets: u32,
    bins: u32,
    capacity: u32,
    tops: &mut [u32],
    ends: &mut [u32],
    blocks: &mut [u32],
    adjustments: &mut [u32],
) -> Result<Grown, Refusal>
    requires { room_short (arrays tops.old ends.old blocks.old adjustments.old) ≡ false }
    ensures value { table_told result ≡ table_reply (fresh_refusal (sizes buckets bins) capacity) 0 (initial (sizes buckets bins) capacity) }
    ensures arrays_left { arrays tops.new ends.new blocks.new adjustments.new ≡ arrays_after (fresh_refusal (sizes buckets bins) capacity) (initial (sizes buckets bins) capacity)
        (arrays tops.old ends.old blocks.old adjustments.old) }
{
    if is_outside(MAX_CAPACITY, capacity) {
        return Err(Refusal::CapacityWrong);
    }
    sizes_allowed(buckets, bins)?;
    if overfull(capacity, buckets, bins) {
        return Err(Refusal::Overfills);
    }
    write_initial(buckets, bins, tops, ends, blocks, adjustments);
    Ok(Grown {
        moved: 0,
        header: Header {
            buckets,
            capacity,
            block_count: 1,
            interval_count: 1,
        },
    })
}
