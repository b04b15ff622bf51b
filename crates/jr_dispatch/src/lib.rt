//! Overriding, the method that a call finds, and families of methods, by rows under a table.
#![tactic(auto)]

mod called;
mod dispatch;
mod families;

pub use called::Called;
pub use dispatch::{Found, Methods};
pub use families::family;
