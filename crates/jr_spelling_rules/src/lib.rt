//! How a reference is to be written: the first spelling of a list that fits.
#![tactic(auto)]

mod law;

pub use law::{names_are_found, names_lead_one_way, spellings_are_computed};
