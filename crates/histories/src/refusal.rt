// The refusals that are expected of the calls.
use crate::directory::Directory;
use crate::limits::{LABEL, MAX_BINS, MAX_BLOCKS, MAX_BUCKETS};
use crate::size::Sizes;

// By document 01's numbers.
#[derive(Clone, Copy)]
pub enum Refusal {
    SizeOutside = 1,
    FewBuckets = 2,
    Shrinks = 3,
    Unchanged = 4,
    BlocksFull = 5,
    BucketPast = 6,
    PlacePast = 7,
    IntervalsFull = 8,
    OrderPast = 9,
    CapacityWrong = 30,
    Overfills = 31,
}

// What a call replies: the refusal's number, or 0.
pub fn number(answer: Result<(), Refusal>) -> u32 {
    match answer {
        Ok(()) => 0,
        Err(refusal) => refusal as u32,
    }
}

// A growth's refusal by the sizes and the capacity alone.
pub fn growth(d: &Directory, capacity: u32, asked: Sizes) -> Result<(), Refusal> {
    sizes(asked)?;
    change(d, asked)?;
    if (0..asked.bins).any(|bin| capacity < LABEL.saturating_add(asked.due(bin))) {
        return Err(Refusal::Overfills);
    }
    Ok(())
}

fn sizes(asked: Sizes) -> Result<(), Refusal> {
    let Sizes { buckets, bins } = asked;
    if !(1..=MAX_BUCKETS).contains(&buckets) || !(1..=MAX_BINS).contains(&bins) {
        return Err(Refusal::SizeOutside);
    }
    if buckets < bins {
        return Err(Refusal::FewBuckets);
    }
    Ok(())
}

fn change(d: &Directory, asked: Sizes) -> Result<(), Refusal> {
    let old = d.sizes;
    if asked.buckets < old.buckets || asked.bins < old.bins {
        return Err(Refusal::Shrinks);
    }
    if asked == old {
        return Err(Refusal::Unchanged);
    }
    if old.bins < asked.bins && d.block_count == MAX_BLOCKS {
        return Err(Refusal::BlocksFull);
    }
    Ok(())
}
