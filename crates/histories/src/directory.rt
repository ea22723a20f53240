// The directory: the bin and position of every bucket, now and before the latest growth, the blocks, and the sizes of the bins.
// It knows no intervals: a growth deals single buckets.
ghost use Rattle.std.specs.Prelude.{◌-◌};
ghost use Rattle.std.specs.Iterator.{at_most};

use crate::limits::{BLOCKS, LABEL};
use crate::size::Sizes;
use model::reply::PlaceReply;

// Room for so many buckets, and for so many bins.
pub const MOST: usize = 65_536;

// With the block that a growth adds, which is empty if there are no new bins.
const MOST_BLOCKS: usize = BLOCKS + 1;

#[derive(Clone, Copy)]
pub struct Place {
    pub bin: u32,
    pub position: u32,
}

impl Place {
    // What a placing replies.
    pub fn reply(self) -> PlaceReply {
        PlaceReply {
            refusal: 0,
            bin: self.bin,
            position: self.position,
        }
    }
}

// A block: its bins, from the first to the one before `end`.
#[derive(Clone, Copy)]
struct Block {
    first: u32,
    end: u32,
}

impl Block {
    fn has(self, bin: u32) -> bool {
        self.first <= bin && bin < self.end
    }

    // The due size of the block.
    fn due(self, sizes: Sizes) -> u32 {
        (self.first..self.end).fold(0u32, |sum, bin| sum.saturating_add(sizes.due(bin)))
    }

    // The place of number `rank` of the buckets that are dealt to the bins in turn, past their labels.
    fn deal(self, rank: u32) -> Place {
        let width = self.end.saturating_sub(self.first).max(1);
        Place {
            bin: self.first.saturating_add(rank % width),
            position: LABEL.saturating_add(rank / width),
        }
    }
}

#[derive(Drop)]
pub struct Directory {
    pub sizes: Sizes,
    pub capacity: u32,
    // how many blocks there are
    pub block_count: u32,
    // how many buckets the latest growth moved
    pub moved: u32,
    blocks: [Block; MOST_BLOCKS],
    places: [Place; MOST],
    // B and the places before the latest growth
    old_buckets: u32,
    old_places: [Place; MOST],
    // how many buckets are in each bin
    held: [u32; MOST],
}

impl Directory {
    // Before a fresh map: no buckets and no bins.
    pub fn empty(capacity: u32) -> Self {
        Directory {
            sizes: Sizes {
                buckets: 0,
                bins: 0,
            },
            capacity,
            block_count: 0,
            moved: 0,
            blocks: [Block { first: 0, end: 0 }; MOST_BLOCKS],
            places: [Place {
                bin: 0,
                position: 0,
            }; MOST],
            old_buckets: 0,
            old_places: [Place {
                bin: 0,
                position: 0,
            }; MOST],
            held: [0; MOST],
        }
    }

    // The place of every bucket.
    pub fn places(&self) -> &[Place] {
        &self.places[..MOST.min(self.sizes.buckets as usize)]
    }

    pub fn place(&self, bucket: u32) -> Option<Place> {
        self.places.get(bucket as usize).copied()
    }

    // That of bucket 0.
    pub fn first_place(&self) -> Place {
        self.places[0]
    }

    // The number of buckets in every bin.
    pub fn held(&self) -> &[u32] {
        &self.held[..MOST.min(self.sizes.bins as usize)]
    }

    // The positions that the largest bin takes, its label's too.
    pub fn largest(&self) -> u32 {
        let most = self.held().iter().copied().max().unwrap_or(0);
        LABEL.saturating_add(most)
    }

    fn blocks(&self) -> &[Block] {
        &self.blocks[..MOST_BLOCKS.min(self.block_count as usize)]
    }

    // How many of the buckets below `end` are in a block.
    fn held_by(&self, block: Block, end: usize) -> u32 {
        let places = &self.places[..MOST.min(end)];
        places.iter().filter(|place| block.has(place.bin)).count() as u32
    }

    // A growth: what is now becomes what was before. The new bins are a new block, which is empty if there are none. A fresh map
    // grows from nothing.
    pub fn grow(&mut self, asked: Sizes) {
        self.old_buckets = self.sizes.buckets;
        self.old_places = self.places;
        let new = Block {
            first: self.sizes.bins,
            end: asked.bins,
        };
        if self.some_falls(asked) {
            self.drain(new, asked);
        } else {
            self.fill(new, asked);
        }
        if let Some(block) = self.blocks.get_mut(self.block_count as usize) {
            *block = new;
        }
        if self.sizes.bins < asked.bins {
            self.block_count = self.block_count.saturating_add(1);
        }
        self.sizes = asked;
        self.count_held();
        self.moved = self.count_moved();
    }

    // Whether some block is due less than it has.
    fn some_falls(&self, asked: Sizes) -> bool {
        let end = self.sizes.buckets as usize;
        self.blocks()
            .iter()
            .any(|block| block.due(asked) < self.held_by(*block, end))
    }

    // Every bucket beyond its bin's due size, and then every new one, is dealt to the new bins in turn.
    fn drain(&mut self, new: Block, asked: Sizes) {
        let old_buckets = self.sizes.buckets as usize;
        let leaving = self
            .places
            .iter_mut()
            .take(asked.buckets as usize)
            .enumerate()
            .filter(|(bucket, place)| {
                old_buckets <= *bucket
                    || LABEL.saturating_add(asked.due(place.bin)) <= place.position
            });
        for (rank, (_, place)) in (0..asked.buckets).zip(leaving) {
            *place = new.deal(rank);
        }
    }

    // The new buckets are handed out block by block: the last bucket's block first, and the new block last. A block that has
    // its due already is handed nothing: so is the last bucket's.
    fn fill(&mut self, new: Block, asked: Sizes) {
        let blocks = self.blocks;
        let old = blocks.iter().copied().take(self.block_count as usize);
        let mut next = self.sizes.buckets as usize;
        for block in self.last_block().into_iter().chain(old).chain([new]) {
            next = self.hand(block, asked, next);
        }
    }

    // The block of the last bucket.
    fn last_block(&self) -> Option<Block> {
        let last = self.places().last()?;
        self.blocks()
            .iter()
            .copied()
            .find(|block| block.has(last.bin))
    }

    // Hands buckets from `start` on to a block until it has its due. The next bucket.
    fn hand(&mut self, block: Block, asked: Sizes, start: usize) -> usize {
        let held = self.held_by(block, start);
        let due = block.due(asked);
        if let Some(places) = self.places.get_mut(start..) {
            for (place, rank) in places.iter_mut().zip(held..due) {
                *place = block.deal(rank);
            }
        }
        start.saturating_add(due.saturating_sub(held) as usize)
    }

    fn count_held(&mut self) {
        self.held.fill(0);
        let buckets = MOST.min(self.sizes.buckets as usize);
        for place in &self.places[..buckets] {
            if let Some(held) = self.held.get_mut(place.bin as usize) {
                *held = held.saturating_add(1);
            }
        }
    }

    // How many buckets the latest growth moved: they have another bin.
    fn count_moved(&self) -> u32 {
        let old = self.old_places.iter().take(self.old_buckets as usize);
        old.zip(&self.places)
            .filter(|(old, new)| old.bin != new.bin)
            .count() as u32
    }

    // The move list of the latest growth, from its beginning.
    pub fn moves(&self) -> Moves<'_> {
        Moves {
            directory: self,
            next: 0,
        }
    }
}

// The buckets that a growth moved, as rows of the move list: a bucket, and its bin and position before and after.
#[derive(Drop)]
pub struct Moves<'a> {
    directory: &'a Directory,
    next: u32,
}

impl Iterator for Moves<'_> {
    type Item = [u32; 5];

    ghost remaining = { λ m. at_most (m.directory.now.old_buckets - m.next) };

    fn next(&mut self) -> Option<[u32; 5]> {
        let d = self.directory;
        for bucket in self.next..d.old_buckets {
            let old = d.old_places.get(bucket as usize)?;
            let new = d.places.get(bucket as usize)?;
            if old.bin != new.bin {
                self.next = bucket + 1;
                return Some([bucket, old.bin, old.position, new.bin, new.position]);
            }
        }
        None
    }
}
