//! What a name refers to at a place, by rows under a table: scopes, shadowing, imports, names behind dots, and which
//! method or constructor a call chooses.
#![tactic(auto)]

mod candidates;
mod choice;
mod imports;
mod instances;
mod look;
mod qualified;
mod scopes;
mod simple;

pub use candidates::Candidates;
pub use choice::{applicable, choose, choose_imported, most_specific};
pub use imports::Imports;
pub use instances::{has_instance, instance_round, is_in_static_context};
pub use qualified::{Left, Receiver};
pub use scopes::{Scopes, holds, import_kind, is_block};
pub use simple::Sight;
