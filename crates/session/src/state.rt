// What a session holds beside its two tables, and what a command does to it.
use model::answer::Answer;
use model::table::Header;

// No map; a fresh map; a map and the one before its latest growth.
#[derive(Clone, Copy)]
pub enum Stage {
    Empty,
    Fresh,
    Grown,
}

// The stage, whether the map is in the second of the two tables, the number of the map's bins, and the headers of the map and
// of the one before its latest growth.
#[derive(Clone, Copy)]
pub struct State {
    pub stage: Stage,
    pub flipped: bool,
    pub bins: u32,
    pub current: Header,
    pub before: Header,
}

// A command's answer, the state after it, and whether the two tables have changed their parts.
#[derive(Clone, Copy)]
pub struct Step {
    pub state: State,
    pub flip: bool,
    pub answer: Answer,
}
