//! Tests of the store in memory, and of commit and recovery over it, and the plan of a change that is within limits.
#![tactic(auto)]

#[cfg(test)]
mod commit;
mod limits;
#[cfg(test)]
mod store;

pub use limits::plan_of;
