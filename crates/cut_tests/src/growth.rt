// Tables, and the calls that are asked of a table and a growth of it.
ghost use Rattle.std.specs.Prelude.{◌≡◌};
ghost use Rattle.cut_tests.specs.Words.{place_word};

use crate::job::List;
use model::reply::{RelocationsReply, TableReply};
use model::table::Header;

// A table's arrays.
#[derive(Clone, Copy)]
pub struct Table {
    pub tops: [u32; 2081],
    pub ends: [u32; 2081],
    pub blocks: [u32; 2081],
    pub adjustments: [u32; 2081],
}

// A table and its header, and the sizes asked for; how many buckets move, and how many words the new bins have.
#[derive(Clone, Copy)]
pub struct Growth<'a> {
    pub table: &'a Table,
    pub header: Header,
    pub buckets: u32,
    pub bins: u32,
    pub total: u32,
    pub words: u32,
}

impl Table {
    ghost use Rattle.std.specs.Prelude.{replicate};
    ghost use Rattle.model.specs.Table.{sizes, arrays};
    ghost use Rattle.model.specs.Calls.{initial_reply, initial_arrays};
    ghost use Rattle.cut_tests.specs.Tables.{arrays_of, bucket_word};

    // Arrays of zeros.
    pub fn new() -> Table
        ensures { arrays_of result ≡ arrays (replicate 2081 0) (replicate 2081 0) (replicate 2081 0) (replicate 2081 0) }
    {
        Table {
            tops: [0; 2081],
            ends: [0; 2081],
            blocks: [0; 2081],
            adjustments: [0; 2081],
        }
    }

    // The table of a fresh map.
    pub fn initial(&mut self, buckets: u32, bins: u32, capacity: u32) -> TableReply
        ensures value { result ≡ initial_reply (sizes buckets bins) capacity (arrays_of self.old) }
        ensures arrays_left { arrays_of self.new ≡ initial_arrays (sizes buckets bins) capacity (arrays_of self.old) }
    {
        irr::initial(
            buckets,
            bins,
            capacity,
            &mut self.tops,
            &mut self.ends,
            &mut self.blocks,
            &mut self.adjustments,
        )
    }

    // Which word is a bucket's; where the bucket has no place, one past every word.
    pub fn word_of(&self, header: Header, bucket: u32) -> u32
        ensures { result ≡ bucket_word self.now header bucket }
    {
        let reply = irr::place(
            header,
            &self.tops,
            &self.ends,
            &self.blocks,
            &self.adjustments,
            bucket,
        );
        if reply.refusal != 0 {
            return u32::MAX;
        }
        word_at(header.capacity, reply.bin, reply.position)
    }
}

// Which word of a rack is at a position of a bin; past every word where that is too many.
pub fn word_at(capacity: u32, bin: u32, position: u32) -> u32
    ensures { result ≡ place_word capacity bin position }
{
    bin.saturating_mul(capacity).saturating_add(position)
}

impl Growth<'_> {
    ghost use Rattle.std.specs.Prelude.{◌+◌, ◌-◌, ◌^◌, min};
    ghost use Rattle.model.specs.Table.{sizes};
    ghost use Rattle.model.specs.Calls.{expand_reply, expand_arrays, relocations_reply, relocations_rows};
    ghost use Rattle.cut_tests.specs.Tables.{arrays_of};

    // The same of another table.
    pub fn of<'b>(&self, table: &'b Table) -> Growth<'b>
        ensures { result ≡ record self.now { table = table.entry } }
    {
        Growth {
            table,
            header: self.header,
            buckets: self.buckets,
            bins: self.bins,
            total: self.total,
            words: self.words,
        }
    }

    // The same, of so many buckets that move.
    pub fn moving(self, total: u32) -> Self
        ensures { result ≡ record self.entry { total = total } }
    {
        Growth { total, ..self }
    }

    // The same, with some words more than the new bins have.
    pub fn longer(self) -> Self
        ensures { result ≡ record self.entry { words = min (self.entry.words + 3) (2 ^ 32 - 1) } }
    {
        Growth {
            words: self.words.saturating_add(3),
            ..self
        }
    }

    // The growth, written to another table.
    pub fn expand(&self, new: &mut Table) -> TableReply
        ensures value { result ≡ expand_reply self.now.header (arrays_of self.now.table.now) (sizes self.now.buckets self.now.bins) (arrays_of new.old) }
        ensures arrays_left { arrays_of new.new ≡ expand_arrays self.now.header (arrays_of self.now.table.now) (sizes self.now.buckets self.now.bins) (arrays_of new.old) }
    {
        irr::expand(
            self.header,
            &self.table.tops,
            &self.table.ends,
            &self.table.blocks,
            &self.table.adjustments,
            self.buckets,
            self.bins,
            &mut new.tops,
            &mut new.ends,
            &mut new.blocks,
            &mut new.adjustments,
        )
    }

    // The move list, from its first row on.
    pub fn moves(&self, list: &mut List) -> RelocationsReply
        ensures value { result ≡ relocations_reply self.now.header (arrays_of self.now.table.now) (sizes self.now.buckets self.now.bins) 0 list.old }
        ensures rows_left { list.new ≡ relocations_rows self.now.header (arrays_of self.now.table.now) (sizes self.now.buckets self.now.bins) 0 list.old }
    {
        irr::relocations(
            self.header,
            &self.table.tops,
            &self.table.ends,
            &self.table.blocks,
            &self.table.adjustments,
            self.buckets,
            self.bins,
            0,
            list,
        )
    }
}
