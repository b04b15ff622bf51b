//! The change that makes a method of a run of statements, before names are spelled anew.
#![tactic(auto)]

mod extracting;
mod extraction;
mod flow;
mod locals;
mod rows;
mod run;
mod texts;
mod thrown;

pub use extracting::extract;
