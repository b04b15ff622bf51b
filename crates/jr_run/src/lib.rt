//! Runs of a program on the reference machine, and their texts.
#![tactic(auto)]

mod fault;
mod law;
mod names;
mod report;
mod rows;
mod run;
mod start;
mod text;

pub use fault::RunFault;
pub use law::{canonical_names_are_told, whole_sources_are_read};
pub use run::run_text;
