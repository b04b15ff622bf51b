//! How each reference of a changed program is written: the first spelling that fits.
#![tactic(auto)]

mod added;
mod calls;
mod fault;
mod fitting;
mod kept;
mod looking;
mod objects;
mod paths;
mod plain;
mod reference;
mod resolving;
mod shapes;
mod speller;
mod spelling;
mod turns;

pub use fault::SpellFault;
pub use spelling::spell;
