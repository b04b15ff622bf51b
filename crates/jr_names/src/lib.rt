//! The change that a rename or a move of a type makes, before names are spelled anew. One to the name or package that is there keeps all units.
#![tactic(auto)]

mod family;
mod imports;
mod moving;
mod renaming;
mod unit_move;
mod units;

pub use moving::move_type;
pub use renaming::rename;
