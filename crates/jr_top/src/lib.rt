//! The top call: from the words to the answer, over a store of files.
#![tactic(auto)]

mod check;
mod decide;
mod demo_fault;
mod engine;
mod hear;
mod lines;
mod refactoring;
mod show;
mod show_fault;
mod showing;
mod status;
mod top;
mod turns;
mod undo;

pub use status::{Edge, EdgeKind, NotCompiling, Phase, Report, Side, Status};
pub use top::refactor;
pub use turns::{an_undo_gives_back_what_was, in_turn};
