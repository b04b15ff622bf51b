//! Types of expressions, promotion and casts, by rows under a table.
#![tactic(auto)]

mod conditional;
mod conversions;
mod filling;
mod operators;
mod typing;

pub use conditional::{Operand, conditional_type};
pub use conversions::{
    is_boolean, is_castable, is_condition, is_integral, is_null, is_number, is_numeric,
    is_primitive, is_reference_or_null, is_void, plain_of, plain_type, promote, promoted,
};
pub use filling::set_types;
pub use operators::{
    OperatorClass, binary_type, class_of, is_compound, is_string_type, operator_of, unary_type,
};
pub use typing::{Typing, find_string};
