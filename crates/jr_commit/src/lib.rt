//! A change of many files that a crash leaves done or undone.
#![tactic(auto)]

mod actions;
mod differences;
mod entry;
mod plan;
mod reading;
mod recovery;
mod sizes;
mod undo;

pub use actions::Step;
pub use entry::{Entry, Journal, Side};
pub use plan::{Plan, commit};
pub use reading::read_journal;
pub use recovery::{RecoverFault, Recovered, recover};
pub use sizes::journal_fits;
pub use undo::{UndoFault, plan_undo};
