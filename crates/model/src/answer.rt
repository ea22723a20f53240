// What a line of the program is answered with. The names are the printed words, but for `ok`, which tells of a table.
#[derive(Clone, Copy)]
pub enum Answer {
    Refused { number: u32 },
    Table { moved: u32, intervals: u32 },
    Place { bin: u32, position: u32 },
    Bucket { bucket: u32 },
    Moves,
}
