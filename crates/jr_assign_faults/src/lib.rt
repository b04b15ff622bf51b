//! Where a bound program breaks the rules on locals that are read, finals that are changed, and blank finals (JLS 4.12.4, 8.3.1.2, 16).
#![tactic(auto)]

ghost use Rattle.std.specs.Prelude.{◌≡◌, ◌<◌, ◌^◌, OnOk, length};
ghost use Rattle.jr_tree.specs.Local.{IsLocal};
ghost use Rattle.jr_rule.specs.declared.Rule.TheVariants as rule;
ghost use Rattle.jr_rule.specs.Faults.{AreFaultsOf};
ghost use Rattle.jr_faults.specs.Added.{AreOnly};
ghost use Rattle.jr_flow_faults.specs.Computed.{facts_in};
ghost use Rattle.jr_flow_faults.specs.Known.{AreKnown};
ghost use Rattle.jr_assign.specs.Changes.{is_of_courses, is_of_assignment};
ghost use Rattle.jr_assign_faults.specs.Changed.{rows_in, table_in, final_rows};
ghost use Rattle.jr_assign_faults.specs.Faults.{AreExactFaults};

mod changed;
mod facts;
mod law;
mod operands;
mod variables;

use crate::changed::final_faults;
pub use facts::assign_facts_of;
use jr_assign::assignment_faults;
use jr_base::OutOfMemory;
use jr_rule::Fault;
use jr_view::View;
use std::alloc::Global;

// The faults that are found by walking.
fn course_faults(
    alloc: Global,
    view: &View,
    flow: &[jr_reach::Fact],
    faults: &mut Vec<Fault>,
) -> Result<(), OutOfMemory>
    requires { length (rows_in view.now) < 2 ^ 32 }
    ensures reads { IsLocal (rows_in view.now) → AreKnown (rows_in view.now) (table_in view.now) (facts_in view.now) → flow.now ≡ facts_in view.now → OnOk result (AreExactFaults view.now rule.UnassignedLocal faults.old.items faults.new.items) }
    ensures blanks { IsLocal (rows_in view.now) → AreKnown (rows_in view.now) (table_in view.now) (facts_in view.now) → flow.now ≡ facts_in view.now → OnOk result (AreExactFaults view.now rule.UnassignedFinal faults.old.items faults.new.items) }
    ensures only { OnOk result (AreOnly is_of_courses faults.old.items faults.new.items) }
{
    let facts = assign_facts_of(alloc, view, flow)?;
    assignment_faults(alloc, view.sight.world.under.rows, &facts, faults)
}

fn all_faults(
    alloc: Global,
    view: &View,
    flow: &[jr_reach::Fact],
    faults: &mut Vec<Fault>,
) -> Result<(), OutOfMemory>
    ensures reads { IsLocal (rows_in view.now) → AreKnown (rows_in view.now) (table_in view.now) (facts_in view.now) → flow.now ≡ facts_in view.now → OnOk result (AreExactFaults view.now rule.UnassignedLocal faults.old.items faults.new.items) }
    ensures blanks { IsLocal (rows_in view.now) → AreKnown (rows_in view.now) (table_in view.now) (facts_in view.now) → flow.now ≡ facts_in view.now → OnOk result (AreExactFaults view.now rule.UnassignedFinal faults.old.items faults.new.items) }
    ensures changed { OnOk result (AreFaultsOf rule.FinalAssignment (final_rows (rows_in view.now) (table_in view.now)) faults.old.items faults.new.items) }
    ensures only { OnOk result (AreOnly is_of_assignment faults.old.items faults.new.items) }
{
    let rows = view.sight.world.under.rows;
    let Ok(count) = u32::try_from(rows.len()) else {
        return Err(OutOfMemory);
    };
    final_faults(alloc, view, count, faults)?;
    course_faults(alloc, view, flow, faults)?;
    Ok(())
}

/// Adds the locals that are read and not assigned, the finals that are changed, and the blank final fields that are not assigned at an end.
/// These are just the rows that break the rules, where `flow` is what flow knows of each row (`facts_of` of `jr_flow_faults`).
pub fn assign_faults(
    alloc: Global,
    view: &View,
    flow: &[jr_reach::Fact],
    faults: &mut Vec<Fault>,
) -> Result<(), OutOfMemory>
    ensures changed { OnOk result (AreFaultsOf rule.FinalAssignment (final_rows (rows_in view.now) (table_in view.now)) faults.old.items faults.new.items) }
    ensures reads { IsLocal (rows_in view.now) → AreKnown (rows_in view.now) (table_in view.now) (facts_in view.now) → flow.now ≡ facts_in view.now → OnOk result (AreExactFaults view.now rule.UnassignedLocal faults.old.items faults.new.items) }
    ensures blanks { IsLocal (rows_in view.now) → AreKnown (rows_in view.now) (table_in view.now) (facts_in view.now) → flow.now ≡ facts_in view.now → OnOk result (AreExactFaults view.now rule.UnassignedFinal faults.old.items faults.new.items) }
    ensures finals { IsLocal (rows_in view.now) → OnOk result (AreExactFaults view.now rule.FinalAssignment faults.old.items faults.new.items) }
    ensures only { OnOk result (AreOnly is_of_assignment faults.old.items faults.new.items) }
{
    all_faults(alloc, view, flow, faults)
}
