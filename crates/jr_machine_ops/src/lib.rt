//! What the reference machine does with parts of a state: values, operators, strings, arrays, frames, and look-ups in the program.
#![tactic(auto)]

mod arrays;
mod changes;
mod codes;
mod conversions;
mod enclosing;
mod frames;
mod natives;
mod operators;
mod prelude;
mod program;
mod references;
mod subtypes;
mod texts;
mod variables;

pub use arrays::{make_array, make_arrays, place_in};
pub use changes::{drop_receiver, give, push, push_value, raise, set_local, settle, take, throw};
pub use codes::{push_codes, push_eval};
pub use conversions::{converted_to, stepped};
pub use frames::{begin, enter, first_use, push_class};
pub use natives::native_call;
pub use operators::{number_of, unary};
pub use prelude::{object_class, string_class, to_string_method};
pub use program::Program;
pub use references::{binary, compound};
pub use subtypes::{class_of_object, is_among};
pub use texts::{int_of_count, text_of, units_of};
pub use variables::{assign, default_of, same_decl, same_type, value_of};
