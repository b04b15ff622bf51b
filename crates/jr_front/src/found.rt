// The rules that a bound program breaks, as they are found.
ghost use Rattle.std.specs.Prelude.{◌≡◌, IfOk, OnOk, ◌&&◌};
ghost use Rattle.jr_marks.specs.Places.{IsOrdered};
ghost use Rattle.jr_members.specs.Sources.{ArePlaced};
ghost use Rattle.jr_front.specs.Tested.{IsTestableView, AreClashes, AreFaultsIn, AreTakenOver, is_between};

use crate::modifiers::modifier_faults;
use jr_assign_faults::assign_faults;
use jr_base::OutOfMemory;
use jr_flow_faults::{facts_of, flow_faults};
use jr_marks::Marks;
use jr_member_faults::{member_faults, top_type_faults};
use jr_name_faults::name_faults;
use jr_places::Places;
use jr_rule::{Fault, Rule};
use jr_tree::Row;
use jr_type_faults::type_faults;
use jr_view::View;
use std::alloc::Global;

fn is_between(rule: Rule, first: u8, last: u8) -> bool
    ensures { result ≡ is_between first last rule }
{
    first <= rule.number() && rule.number() <= last
}

// Adds those of the faults whose rules have a number from the first to the last.
fn take_over(found: &[Fault], first: u8, last: u8, out: &mut Vec<Fault>) -> Result<(), OutOfMemory>
    ensures { OnOk result (AreTakenOver first last found.now out.old.items out.new.items) }
{
    for fault in found {
        if is_between(fault.rule, first, last) {
            out.push(*fault)?;
        }
    }
    Ok(())
}

/// The rules that the program breaks, by marks that are ordered: those of one maker after those of another.
pub fn faults_of(alloc: Global, marks: &Marks, view: &View) -> Result<Vec<Fault>, OutOfMemory>
    ensures { IsOrdered marks.now → IsTestableView view.now → IfOk result (λ faults. AreFaultsIn marks.now view.now faults.items) }
{
    let mut faults = Vec::new(alloc);
    modifier_faults(marks, &mut faults)?;
    let known = facts_of(alloc, view)?;
    assign_faults(alloc, view, &known, &mut faults)?;
    member_faults(alloc, view, &mut faults)?;
    type_faults(alloc, *view, &mut faults)?;
    flow_faults(alloc, view, &known, &mut faults)?;
    name_faults(alloc, view, &mut faults)?;
    Ok(faults)
}

/// The top-level types that have the name of another in their package, or of a subpackage.
pub fn name_clashes(alloc: Global, rows: &[Row], places: &Places) -> Result<Vec<Fault>, OutOfMemory>
    ensures { ArePlaced rows.now places.now → IfOk result (λ faults. AreClashes rows.now faults.items) }
{
    let mut found = Vec::new(alloc);
    top_type_faults(alloc, rows, places, &mut found)?;
    let mut faults = Vec::new(alloc);
    take_over(&found, 2, 2, &mut faults)?;
    Ok(faults)
}
