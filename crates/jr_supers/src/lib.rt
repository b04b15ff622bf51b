//! Supertypes of types, types as they are written and declared, and signatures of methods, by rows under a table of what names refer to.
#![tactic(auto)]

mod above;
mod found;
mod ordering;
mod pairs;
mod signatures;
mod subtypes;
mod supers;
mod tabled;

pub use signatures::{Signatures, with_type};
pub use subtypes::{Supers, is_object_element, is_reference, sorted_once, widens};
pub use supers::{
    HeaderPlace, entry_before, find_object, has_implied_superclass, header_place, names_superclass,
};
pub use tabled::{Tabled, class_type, declaration, deeper, is_callable, primitive_type};
