// What stands before the rest of an expression.
use crate::name::Dotted;
use jr_tree::Name;

/// What the caller has read of an expression already.
#[derive(Drop)]
pub enum Lead {
    Nothing,
    /// A name, perhaps with `this`
    Named(Dotted),
    /// A name and an open bracket
    Indexed(Name),
    /// The word `this`
    This,
    /// The word `super`
    Super,
}
