//! How the rows of a changed program stand to those of the old one, and what its occurrences must refer to.
#![tactic(auto)]

mod agreeing;
mod law;
mod locking;
mod moving;
mod origins;

pub use law::runs_stand_again;
pub use locking::locks;
pub use moving::row_for;
