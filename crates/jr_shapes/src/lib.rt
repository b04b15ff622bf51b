//! How references are written, and what a reference is made of, by rows.
#![tactic(auto)]

mod arguments;
mod names;
mod parts;
mod reading;
mod spelling;

pub use arguments::{argument_after, first_argument};
pub use names::{has_own_identifier, is_atom, kept_rows, named_by, push_package, suffix_rows};
pub use parts::{is_qualifier, parts_of, receiver_of};
pub use reading::{end_of, is_part, referent_at, type_of};
pub use spelling::{Shape, Spelling, Suffix, TypeName};
