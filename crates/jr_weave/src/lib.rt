//! How references are written: the texts of their spellings as edits.
#![tactic(auto)]

mod pen;
mod piece;
mod site;
mod weave;

pub use jr_shapes::is_atom;
pub use pen::word_of;
pub use weave::{MOST_BYTES, respelled};
