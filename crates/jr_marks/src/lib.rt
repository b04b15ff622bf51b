//! Where rows stand in texts: places of rows and faults, the row at an offset, and the order of occurrences.
#![tactic(auto)]

mod law;
mod marks;
mod order;
mod searching;

pub use law::marks_are_ordered;
pub use marks::Marks;
pub use order::order_of_occurrences;
