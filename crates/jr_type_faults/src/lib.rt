//! The rules on types and expressions in code: where they are broken, by rows under a binding.
#![tactic(auto)]

mod creations;
mod faults;
mod groups;
mod initializing;
mod objects;
mod operands;
mod places;
mod rows;
mod statements;
mod switches;
mod values;

pub use faults::type_faults;
