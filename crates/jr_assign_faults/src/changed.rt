// Which variables are changed, and where that breaks the rule on finals (JLS 4.12.4, 8.3.1.2).
ghost use Rattle.std.specs.Prelude.{◌≡◌, ◌<◌, ◌^◌, IfOk, OnOk, Some, length};
ghost use Rattle.jr_tree.specs.Labels.{role_of};
ghost use Rattle.jr_tree.specs.Rows as rows;
ghost use Rattle.jr_defs.specs.Referents.{entries};
ghost use Rattle.jr_places.specs.Tabulated.{tabulated};
ghost use Rattle.jr_rule.specs.declared.Rule.TheVariants as rule;
ghost use Rattle.jr_rule.specs.Faults.{AreFaultsOf};
ghost use Rattle.jr_faults.specs.Added.{is_rule, AreOnly};
ghost use Rattle.jr_assign_faults.specs.Changed as tell;

use crate::operands::{Operand, operand_of, operands_of};
use jr_assign::change_faults;
use jr_base::OutOfMemory;
use jr_places::role_at;
use jr_rule::Fault;
use jr_supers::Tabled;
use jr_tree::{Role, Row};
use jr_view::View;
use std::alloc::Global;

// The declaration, if it is that of a variable.
fn variable_of(rows: &[Row], declared: Option<u32>) -> Option<u32>
    ensures { result ≡ tell.variable_of rows.now declared }
{
    match declared {
        Some(row) => match role_at(rows, row) {
            Role::Local => Some(row),
            Role::Parameter => Some(row),
            Role::Field => Some(row),
            _ => None,
        },
        None => None,
    }
}

// The variable to which the row refers, where it is what is assigned or stepped.
fn changed_by(under: &Tabled, operand: Operand, at: u32) -> Option<u32>
    ensures { result ≡ tell.changed_by under.now.rows.now (entries under.now.table.now) operand at }
{
    match operand {
        Operand::Other => None,
        _ => variable_of(under.rows, under.declared(at)),
    }
}

// The same of each row, by what it is to an assignment or step.
fn changes_by(
    alloc: Global,
    under: &Tabled,
    operands: &[Operand],
    count: u32,
) -> Result<Vec<Option<u32>>, OutOfMemory>
    ensures { IfOk result (λ all. all.items ≡ tabulated (tell.changed_in under.now.rows.now (entries under.now.table.now) operands.now) count) }
{
    let mut all = Vec::new(alloc);
    for at in 0..count {
        let variable = changed_by(under, operand_of(operands, at), at);
        all.push(variable)?;
    }
    Ok(all)
}

// For each row the variable that is changed there.
fn changes_of(alloc: Global, under: &Tabled, count: u32) -> Result<Vec<Option<u32>>, OutOfMemory>
    ensures { length under.now.rows.now < 2 ^ 32 → IfOk result (λ all. all.items ≡ tell.changes under.now.rows.now (entries under.now.table.now) count) }
{
    let operands = operands_of(alloc, under.rows, count)?;
    changes_by(alloc, under, &operands, count)
}

/// Adds the finals that are changed where they may not be.
pub(crate) fn final_faults(
    alloc: Global,
    view: &View,
    count: u32,
    faults: &mut Vec<Fault>,
) -> Result<(), OutOfMemory>
    requires { count ≡ length (tell.rows_in view.now) }
    ensures found { OnOk result (AreFaultsOf rule.FinalAssignment (tell.final_rows (tell.rows_in view.now) (tell.table_in view.now)) faults.old.items faults.new.items) }
    ensures others { OnOk result (AreOnly (is_rule rule.FinalAssignment) faults.old.items faults.new.items) }
{
    let under = &view.sight.world.under;
    let changed = changes_of(alloc, under, count)?;
    change_faults(alloc, under.rows, &changed, faults)
}
