//! Whether what a change copies means what it meant.
#![tactic(auto)]

mod holding;
mod keeping;
mod nearing;
mod reading;
mod telling;

pub use keeping::keeps_meaning;
pub use reading::Meant;
