// What the test programs of movers share: small racks and histories of growths, each carried out without a cut and with every cut,
// and refused calls. A program brings its mover, and what it puts a growth through.
#![tactic(auto)]

mod chance;
mod cut;
mod full;
mod growth;
mod history;
mod job;
mod mover;
mod player;
mod print;
mod refusal;
mod run;
mod tally;
mod words;

pub use chance::{below, draw};
pub use full::{play as play_full, play_keeping as play_full_keeping};
pub use growth::{Growth, Table};
pub use history::{Plan, play, play_keeping, random, random_keeping};
pub use job::{Case, LIST, List, Lists, rows_of};
pub use mover::{Call, Calls, KeepingPlayer, Mover, Player};
pub use refusal::wide;
pub use tally::{Tally, add};
pub use words::alike;
