// One line of a session, and its move list, page by page.
#![tactic(auto)]

pub mod list;
pub mod rack;
pub mod step;

// After a line: the place behind what was printed, and whether the `move` lines of the latest growth are to be listed.
#[derive(Clone, Copy)]
pub struct Reply {
    pub at: usize,
    pub list: bool,
}

// A page of the move list: its rows, those of the whole list, and the length of the page's text.
#[derive(Clone, Copy)]
pub struct Page {
    pub rows: u32,
    pub total: u32,
    pub length: usize,
}
