//! Tests whether a syntax tree is within a depth.
#![tactic(auto)]

ghost use Rattle.std.specs.Prelude.{◌↔◌, ◌≤◌, IsTrue};
ghost use Rattle.jr_tree.specs.Depth.{depth};

mod decl;
mod expr;
mod stmt;

use decl::is_unit_within;
use jr_tree::Unit;

/// Whether the unit is at most so deep. The recursion goes no deeper than `most` and one.
pub fn is_within_depth(unit: &Unit, most: usize) -> bool
    ensures { IsTrue result ↔ (depth unit.now ≤ most) }
{
    is_unit_within(most, unit)
}
