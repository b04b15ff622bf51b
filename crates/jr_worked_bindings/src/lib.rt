//! The tables of the worked programs are bindings, and programs with a cycle of headers have none.
#![tactic(auto)]

mod law;

pub use law::{
    bindings_of_calls, bindings_of_constants, bindings_of_creations, bindings_of_fields,
    bindings_of_imports, bindings_of_locals, cyclic_programs,
};
