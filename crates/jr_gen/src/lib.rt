//! The generated workspace, and the requests on it.
#![tactic(auto)]

mod changes;
mod classes;

pub use changes::requests;
pub use classes::workspace;
