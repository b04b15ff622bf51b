//! Writes syntax trees out as tokens.
#![tactic(auto)]

ghost use Rattle.std.specs.Prelude.{◌≡◌, IfOk};
ghost use Rattle.jr_tree.specs.Tokens as t;

mod decl;
mod expr;
mod simple;
mod stmt;
mod words;

use decl::write_unit;
use jr_base::{Kind, OutOfMemory};
use jr_tree::Unit;
use std::alloc::Global;

/// The tokens of a unit, in order.
pub fn tokens_of(alloc: Global, unit: &Unit) -> Result<Vec<Kind>, OutOfMemory>
    ensures { IfOk result (λ tokens. tokens.items ≡ t.tokens_of unit.now) }
{
    let mut out = Vec::new(alloc);
    write_unit(alloc, &mut out, unit)?;
    Ok(out)
}
