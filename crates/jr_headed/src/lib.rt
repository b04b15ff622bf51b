//! Rows of programs are headed well, and types are not above themselves: what a caller tests so that supertypes and members are exact.
#![tactic(auto)]

mod cycles;
mod founded;
mod heads;
mod law;

pub use cycles::has_no_cycle;
pub use founded::{are_well, is_well_founded};
pub use heads::{are_packages_named, is_sized, is_well_headed};
pub use law::programs_are_headed;
