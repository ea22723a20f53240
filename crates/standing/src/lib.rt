// What the program puts over a whole input: where it stands in its lines, and what is due then.
#![tactic(auto)]

ghost use Rattle.standing.specs.Claims.{OutputWhole};

// What is proved of a whole input: specs/Claims.antt.
pub fn claims()
    ensures { OutputWhole }
{}
