//! What may become of statements, which of them can be reached, and the rules on jumps, unreached statements and bodies that complete (JLS 8.4.7, 8.6, 14.21).
#![tactic(auto)]

mod at;
mod course;
mod fact;
mod faults;
mod law;
mod parts;
mod reaching;
mod table;

pub use course::{Course, Entry};
pub use fact::{Exit, Fact, no_fact};
pub use faults::reach_faults;
pub use law::{each_program_has_courses, each_row_is_reached_or_not};
pub use reaching::reached_of;
pub use table::{completes_at, courses_of};
