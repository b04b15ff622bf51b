//! What names, types and constants of a program mean: definitions over its rows, and the types that they speak of.
#![tactic(auto)]

mod law;
mod program;
mod referent;
mod table;

pub use law::{
    a_call_finds_one_method, at_most_one_binding, bindings_agree, lookup_carries, lookup_is_unique,
    programs_are_formed, units_have_at_most_one_binding,
};
pub use program::{Program, UnitAt};
pub use referent::{Element, Referent, RowType, Space};
pub use table::{BindingTable, Headers, MemberTable, Supers, Target, TypeMembers};
