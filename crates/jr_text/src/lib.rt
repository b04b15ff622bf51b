//! Where rows stand in the bytes of their units, and what of a text a declaration takes along.
#![tactic(auto)]

mod gaps;
mod spans;

pub use gaps::lead;
pub use spans::{extent, own_span, part, token_span, tokens_span, unit_bytes};
