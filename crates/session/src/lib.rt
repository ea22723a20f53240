// A session of the program: what one command does to its two tables, and what it answers.
#![tactic(auto)]

pub mod act;
pub mod arrays;
pub mod state;

ghost use Rattle.session.specs.Claims.{SessionClaims};

// What is proved of a session: specs/Claims.antt.
pub fn claims()
    ensures { SessionClaims }
{}
