//! Where rows stand: what is at a number, the innermost type round each row, its unit and package, the rows right below one, and the first row
//! with each name, and the modifiers of declarations.
//!
//! Beside them the tables by number that answer a search: the last entry with a key, the number of a list, a set that is emptied at once.
#![tactic(auto)]

mod above;
mod around;
mod below;
mod chains;
mod modifiers;
mod names;
mod numbering;
mod places;
mod reading;
mod stamps;
mod units;

pub use above::{holders_are_told, holders_of};
pub use around::arounds_of;
pub use below::children_of;
pub use chains::{Chains, Entry};
pub use modifiers::{
    access_of, constructed_class, declaring_type, is_abstract, is_final, is_in_interface, is_inner,
    is_member_role, is_method, is_private, is_protected, is_public, is_static, needs_no_object,
    passes, written_at,
};
pub use names::names_of;
pub use numbering::Numbering;
pub use places::Places;
pub use reading::{
    end_at, is_body_of, is_class, is_interface, is_object, is_string, is_top_level, is_type,
    is_unit, name_at, parent_at, role_at, sought_at,
};
pub use stamps::Stamps;
pub use units::{Packages, tops_of, units_of};
