//! Tests whether a syntax tree is one that the grammar has.
#![tactic(auto)]

ghost use Rattle.std.specs.Prelude.{◌↔◌, IsTrue};
ghost use Rattle.jr_tree.specs.Shape.{IsShaped};

mod decl;
mod expr;
mod form;
mod levels;
mod parts;
mod stmt;

use decl::is_shaped_unit;
use jr_tree::Unit;

/// Whether the grammar has the unit (JLS 18). The recursion is as deep as the unit, so a unit of unknown depth is tested for its depth first.
pub fn is_shaped(unit: &Unit) -> bool
    ensures { IsTrue result ↔ IsShaped unit.now }
{
    is_shaped_unit(unit)
}
