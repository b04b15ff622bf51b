// What a pull up loses.
ghost use Rattle.std.specs.Prelude.{◌≡◌, ◌⊎◌, None, IfErr, IfOk};
ghost use Rattle.jr_flow_defs.specs.Meaning.{Meaning};
ghost use Rattle.jr_flow.specs.Numbered.{OnlyWhere};
ghost use Rattle.jr_flow.specs.Reached.{IsGraphOf};
ghost use Rattle.jr_kept.specs.Compared.{KeepsBodies, KeepsWholeBodies};
ghost use Rattle.jr_kept.specs.Courses as tell;
ghost use Rattle.jr_kept.specs.Started.{LeavesStart, LeavesStartIn};

use crate::arriving::put_lost_definitions;
use crate::control::lost_control;
use crate::edges::Firsts;
use crate::flows::{Flows, rows_of};
use crate::handing::Handing;
use crate::kept::{LostFlow, first_of, graph_of, is_row, lost_at, nothing, placed, row_among};
use crate::names::Names;
use crate::starting::lost_initialization;
use jr_change::{Locks, Project, Raised};
use jr_flow::FlowFault;
use std::alloc::Global;

// What a body loses that goes elsewhere as it is.
fn lost_in_moved(alloc: Global, old: &Project, flows: &Flows) -> Result<LostFlow, FlowFault>
    ensures control { (m w : Meaning) → IsGraphOf flows.now.names.rows.now m flows.now.before.now → IsGraphOf flows.now.rows.now w flows.now.after.now → IfOk result (λ lost. lost.control ≡ None → KeepsBodies flows.now m w) }
    ensures uses { (m w : Meaning) → IsGraphOf flows.now.names.rows.now m flows.now.before.now → IsGraphOf flows.now.rows.now w flows.now.after.now → IfOk result (λ lost. lost.control ≡ None → lost.def_use ≡ None → KeepsWholeBodies flows.now m w) }
    ensures only_control { (m w : Meaning) → IsGraphOf flows.now.names.rows.now m flows.now.before.now → IsGraphOf flows.now.rows.now w flows.now.after.now → IfOk result (λ lost. KeepsBodies flows.now m w → lost.control ≡ None) }
    ensures only_uses { (m w : Meaning) → IsGraphOf flows.now.names.rows.now m flows.now.before.now → IsGraphOf flows.now.rows.now w flows.now.after.now → IfOk result (λ lost. KeepsWholeBodies flows.now m w → lost.def_use ≡ None) }
    ensures large { IfErr result (OnlyWhere ⊥) }
{
    let control = lost_control(alloc, flows)?;
    let mut lost = Firsts::none();
    let handing = Handing::none(alloc);
    put_lost_definitions(alloc, flows, &handing, &mut lost)?;
    Ok(LostFlow {
        control: first_of(old, control),
        def_use: first_of(old, lost),
    })
}

// What the body of a method loses, where the method goes elsewhere.
fn lost_by_moving(
    alloc: Global,
    old: &Project,
    locked: &Project,
    locks: &Locks,
    method: u32,
) -> Result<LostFlow, FlowFault>
    ensures control { (m w : Meaning) → tell.IsSeen old.now m → tell.IsSeen locked.now w
        → IfOk result (λ lost. lost.control ≡ None → tell.KeepsMovedControl old.now.marks.rows.now locked.now.marks.rows.now m w locks.now.origin.items locks.now.copy.items method) }
    ensures uses { (m w : Meaning) → tell.IsSeen old.now m → tell.IsSeen locked.now w
        → IfOk result (λ lost. lost.control ≡ None → lost.def_use ≡ None → tell.KeepsMovedFlow old.now.marks.rows.now locked.now.marks.rows.now m w locks.now.origin.items locks.now.copy.items method) }
    ensures only_control { (m w : Meaning) → tell.IsSeen old.now m → tell.IsSeen locked.now w
        → IfOk result (λ lost. tell.KeepsMovedControl old.now.marks.rows.now locked.now.marks.rows.now m w locks.now.origin.items locks.now.copy.items method → lost.control ≡ None) }
    ensures only_uses { (m w : Meaning) → tell.IsSeen old.now m → tell.IsSeen locked.now w
        → IfOk result (λ lost. tell.KeepsMovedFlow old.now.marks.rows.now locked.now.marks.rows.now m w locks.now.origin.items locks.now.copy.items method → lost.def_use ≡ None) }
    ensures large { (m w : Meaning) → tell.IsSeen old.now m → tell.IsSeen locked.now w → IfErr result (OnlyWhere (tell.HasLarge old.now.marks.rows.now m ⊎ tell.HasLarge locked.now.marks.rows.now w)) }
{
    if !is_row(old.marks.rows, method) {
        return Ok(lost_at(old, method));
    }
    let Some(copy) = row_among(&locks.copy, locked.marks.rows, method) else {
        return Ok(lost_at(old, method));
    };
    let names = Names {
        rows: old.marks.rows,
        body: method,
        dropped: None,
    };
    let before = graph_of(alloc, old, method)?;
    let after = graph_of(alloc, locked, copy)?;
    let flows = Flows {
        names,
        before: &before,
        rows: locked.marks.rows,
        after: &after,
        span: rows_of(locked.marks.rows, copy),
        origin: locks.origin.as_slice(),
    };
    lost_in_moved(alloc, old, &flows)
}

// What is lost where a method goes to the superclass of its class.
fn lost_by_pull_up(
    alloc: Global,
    old: &Project,
    locked: &Project,
    locks: &Locks,
    raised: Raised,
) -> Result<LostFlow, FlowFault>
    ensures control { (m w : Meaning) → tell.IsSeen old.now m → tell.IsSeen locked.now w
        → IfOk result (λ lost. lost.control ≡ None → tell.KeepsMovedControl old.now.marks.rows.now locked.now.marks.rows.now m w locks.now.origin.items locks.now.copy.items raised.method.first) }
    ensures uses { (m w : Meaning) → tell.IsSeen old.now m → tell.IsSeen locked.now w
        → IfOk result (λ lost. lost.control ≡ None → lost.def_use ≡ None → tell.KeepsMovedFlow old.now.marks.rows.now locked.now.marks.rows.now m w locks.now.origin.items locks.now.copy.items raised.method.first) }
    ensures only_control { (m w : Meaning) → tell.IsSeen old.now m → tell.IsSeen locked.now w
        → IfOk result (λ lost. tell.KeepsMovedControl old.now.marks.rows.now locked.now.marks.rows.now m w locks.now.origin.items locks.now.copy.items raised.method.first → (LeavesStart old.now.marks.rows.now m raised → ⊥) → lost.control ≡ None) }
    ensures only_uses { (m w : Meaning) → tell.IsSeen old.now m → tell.IsSeen locked.now w
        → IfOk result (λ lost. tell.KeepsMovedFlow old.now.marks.rows.now locked.now.marks.rows.now m w locks.now.origin.items locks.now.copy.items raised.method.first → lost.def_use ≡ None) }
    ensures large { (m w : Meaning) → tell.IsSeen old.now m → tell.IsSeen locked.now w → IfErr result (OnlyWhere (tell.HasLarge old.now.marks.rows.now m ⊎ tell.HasLarge locked.now.marks.rows.now w)) }
{
    match lost_initialization(alloc, old, raised)? {
        Some(edge) => Ok(LostFlow {
            control: Some(placed(old, edge, true)),
            def_use: None,
        }),
        None => lost_by_moving(alloc, old, locked, locks, raised.method.first),
    }
}

/// What is lost where a method goes to the superclass of its class, if one does.
pub(crate) fn lost_by_raising(
    alloc: Global,
    old: &Project,
    locked: &Project,
    locks: &Locks,
    raised: Option<Raised>,
) -> Result<LostFlow, FlowFault>
    ensures control { (m w : Meaning) → tell.IsSeen old.now m → tell.IsSeen locked.now w
        → IfOk result (λ lost. lost.control ≡ None → tell.KeepsRaisedControl raised old.now.marks.rows.now locked.now.marks.rows.now m w locks.now.origin.items locks.now.copy.items) }
    ensures uses { (m w : Meaning) → tell.IsSeen old.now m → tell.IsSeen locked.now w
        → IfOk result (λ lost. lost.control ≡ None → lost.def_use ≡ None → tell.KeepsRaisedFlow raised old.now.marks.rows.now locked.now.marks.rows.now m w locks.now.origin.items locks.now.copy.items) }
    ensures only_control { (m w : Meaning) → tell.IsSeen old.now m → tell.IsSeen locked.now w
        → IfOk result (λ lost. tell.KeepsRaisedControl raised old.now.marks.rows.now locked.now.marks.rows.now m w locks.now.origin.items locks.now.copy.items → (LeavesStartIn raised old.now.marks.rows.now m → ⊥) → lost.control ≡ None) }
    ensures only_uses { (m w : Meaning) → tell.IsSeen old.now m → tell.IsSeen locked.now w
        → IfOk result (λ lost. tell.KeepsRaisedFlow raised old.now.marks.rows.now locked.now.marks.rows.now m w locks.now.origin.items locks.now.copy.items → lost.def_use ≡ None) }
    ensures large { (m w : Meaning) → tell.IsSeen old.now m → tell.IsSeen locked.now w → IfErr result (OnlyWhere (tell.HasLarge old.now.marks.rows.now m ⊎ tell.HasLarge locked.now.marks.rows.now w)) }
{
    match raised {
        Some(raised) => lost_by_pull_up(alloc, old, locked, locks, raised),
        None => Ok(nothing()),
    }
}
