//! How rules add their faults, row by row.
#![tactic(auto)]

ghost use Rattle.std.specs.Prelude.{◌≡◌, OnOk};
ghost use Rattle.jr_rule.specs.Faults.{AreFaultsOf};
ghost use Rattle.jr_faults.specs.Added as tell;

use jr_base::OutOfMemory;
use jr_rule::{Fault, Rule};

/// Adds a fault of the rule at the row, where it is broken.
#[tactic(auto, using(crate::proofs::Told::own_pushed, crate::proofs::Told::own_kept, crate::proofs::Told::only_pushed, crate::proofs::Told::only_kept))]
pub fn rule_if(
    out: &mut Vec<Fault>,
    is_broken: bool,
    row: u32,
    rule: Rule,
) -> Result<(), OutOfMemory>
    ensures found { OnOk result (AreFaultsOf rule (tell.row_if is_broken row) out.old.items out.new.items) }
    ensures others { OnOk result (tell.AreOnly (tell.is_rule rule) out.old.items out.new.items) }
{
    if is_broken {
        out.push(Fault { row, rule })?;
    }
    Ok(())
}
