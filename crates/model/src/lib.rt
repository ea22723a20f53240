// The placement map of document 01: the types that its calls share. Its definitions are in specs/.
#![tactic(auto)]

ghost use Rattle.model.specs.Claims.{Claims};
ghost use Rattle.model.specs.TableClaims.{TableClaims};
ghost use Rattle.model.specs.ExpansionClaims.{ExpansionClaims};
ghost use Rattle.model.specs.SheetClaims.{SheetClaims};
ghost use Rattle.model.specs.ConsoleClaims.{ConsoleClaims};

pub mod answer;
pub mod command;
pub mod given;
pub mod limits;
pub mod plan;
pub mod refusal;
pub mod reply;
pub mod search;
pub mod table;

// What is proved of the definitions alone (specs/Claims.antt).
pub fn claims()
    ensures { Claims }
{}

// What is proved of lent tables and files (specs/TableClaims.antt).
pub fn table_claims()
    ensures { TableClaims }
{}

// What is proved of growth, and demand 3 (specs/ExpansionClaims.antt).
pub fn expansion_claims()
    ensures { ExpansionClaims }
{}

// What is proved of the rack sheet (specs/SheetClaims.antt).
pub fn sheet_claims()
    ensures { SheetClaims }
{}

// What is proved of a session's lines (specs/ConsoleClaims.antt).
pub fn console_claims()
    ensures { ConsoleClaims }
{}
