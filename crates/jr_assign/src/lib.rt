//! Definite assignment by rows and facts: locals that are read and not assigned, finals that are changed, and blank finals (JLS 4.12.4, 8.3.1.2, 16).
#![tactic(auto)]

mod builders;
mod confirm;
mod course;
mod fact;
mod faults;
mod fields;
mod judge;
mod law;
mod locals;
mod member;
mod numbers;
mod parts;
mod run;
mod scope;

pub use builders::change_faults;
pub use fact::{Fact, Way, no_fact};
pub use faults::assignment_faults;
pub use member::members_of;
