// What a line of the program says. The names are the line's words.
#[derive(Clone, Copy)]
pub enum Command {
    Fresh { buckets: u32, bins: u32 },
    Grow { buckets: u32, bins: u32 },
    Where { bucket: u32 },
    At { bin: u32, position: u32 },
    Moves,
    Unreadable,
}
