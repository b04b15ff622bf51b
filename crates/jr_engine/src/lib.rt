//! What a refactoring leaves of files: the files with names spelled anew, or why they stay as they are.
#![tactic(auto)]

mod asked;
mod bodies;
mod deep;
mod edges;
mod fault;
mod filing;
mod kept;
mod left;
mod locked;
mod planning;
mod requests;
mod sound;
mod step;
mod texts;
mod tried;
mod verdicts;
mod writing;

pub use fault::{EngineFault, LostKind, Refused, StepFault};
pub use planning::{plan, plan_all};
