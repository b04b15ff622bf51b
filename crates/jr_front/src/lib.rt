//! Whether files compile: their program with its tables, or the first reason why there is none.
#![tactic(auto)]

mod broken;
mod fault;
mod found;
mod front;
mod law;
mod modifiers;
mod placed;
mod unbound;
mod workspace;

pub use fault::FrontFault;
pub use front::{check_files, open_files, open_program};
pub use law::bound_views_are_right;
pub use workspace::{Workspace, view_of};
