// The comparison of the rows of a written program with the runs of another one.
ghost use Rattle.std.specs.Prelude.{◌≡◌, ◌+◌, ◌<◌, ◌^◌, IfOk, IsNone, length};
ghost use Rattle.jr_defs.specs.Referents.{entries};
ghost use Rattle.jr_runs.specs.Planned.{seen_plan};
ghost use Rattle.jr_runs.specs.Respelled.{AllStand, IsRespelled, HasRuns};

use crate::marking::Marking;
use crate::plan::Plan;
use crate::suiting::first_unsuited;
use jr_base::OutOfMemory;
use jr_defs::Referent;
use jr_shapes::Spelling;
use jr_tree::Row;
use std::alloc::Global;

// The old row for which the first row is written that is not the one that is to be written.
#[tactic(auto, using(crate::proofs::Firsts::none_stand))]
fn first_other(plan: &Plan, rows: &[Row], new_rows: &[Row], new_table: &[Referent]) -> Option<u32>
    ensures none { IsNone result → AllStand rows.now (seen_plan plan.now) new_rows.now (entries new_table.now) (length plan.now.items.items) }
    ensures some { AllStand rows.now (seen_plan plan.now) new_rows.now (entries new_table.now) (length plan.now.items.items) → IsNone result }
{
    let items = plan.items.as_slice();
    for at in 0..items.len() {
        let item = items[at];
        if !plan.stands(rows, new_rows, new_table, at, item) {
            return Some(item.of);
        }
    }
    None
}

// The same, or the last row where there are more.
fn first_beside(plan: &Plan, rows: &[Row], new_rows: &[Row], new_table: &[Referent]) -> Option<u32>
    ensures none { IsNone result → HasRuns rows.now (seen_plan plan.now) new_rows.now (entries new_table.now) }
    ensures some { HasRuns rows.now (seen_plan plan.now) new_rows.now (entries new_table.now) → IsNone result }
{
    if new_rows.len() == plan.items.len() {
        first_other(plan, rows, new_rows, new_table)
    } else {
        Some(0)
    }
}

/// The first row of a program under its locks whose run does not stand in the program that is written with these spellings: other labels,
/// identifiers, ends or rows round them, or another thing to which one refers. None exactly where the written program is this one, respelled.
#[tactic(auto, using(crate::proofs::Whole::respelled_by, crate::proofs::Whole::suited_by, crate::proofs::Whole::runs_by))]
pub fn first_difference(
    alloc: Global,
    rows: &[Row],
    locks: &[Referent],
    spellings: &[Spelling],
    new_rows: &[Row],
    new_table: &[Referent],
) -> Result<Option<u32>, OutOfMemory>
    ensures none { IfOk result (λ row. IsNone row → IsRespelled rows.now (entries locks.now) spellings.now new_rows.now (entries new_table.now)) }
    ensures some { IfOk result (λ row. IsRespelled rows.now (entries locks.now) spellings.now new_rows.now (entries new_table.now) → IsNone row) }
{
    if rows.len() >= u32::MAX as usize {
        return Err(OutOfMemory);
    }
    let marks = Marking::of(alloc, rows, locks, spellings)?;
    if let Some(row) = first_unsuited(alloc, rows, locks, &marks, spellings)? {
        return Ok(Some(row));
    }
    let plan = Plan::of(alloc, rows, locks, spellings, &marks)?;
    Ok(first_beside(&plan, rows, new_rows, new_table))
}
