//! The worked programs of the definitions: what each of their names refers to, and that this is what lookup gives.
#![tactic(auto)]

mod law;

pub use law::{
    worked_calls, worked_constants, worked_creations, worked_fields, worked_imports, worked_locals,
};
