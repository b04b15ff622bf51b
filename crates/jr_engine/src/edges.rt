// Whether edges of flow are kept, and whether there are too many points of flow.

ghost use Rattle.std.specs.Prelude.{◌≡◌, ◌+◌, ◌<◌, ◌^◌, true, length, None, Some, IfOk, IfErr, ℕ, List};
ghost use Rattle.jr_marks.specs.Places.{IsOrdered, place_of_name};
ghost use Rattle.jr_front.specs.Bound.{rows_in, table_in};
ghost use Rattle.jr_kept.specs.declared.kept.LostEdge.{LostEdge};
ghost use Rattle.jr_engine.specs.Refusing.{IsHinderedIn, IsLargeIn};
ghost use Rattle.jr_flow.specs.Numbered.{OnlyWhere};
ghost use Rattle.jr_engine.specs.Comparing.{ComparesLarge, LosesUses};
ghost use Rattle.jr_engine.specs.Written.{AreNotLeft, HasTables, IsReady, KeepsBodiesIn, KeepsCallsIn, KeepsFlowIn};
ghost use Rattle.jr_engine.specs.declared.fault.LostKind.TheVariants as kind;
ghost use Rattle.jr_engine.specs.declared.fault.StepFault.TheVariants as step;

use crate::asked::{Asked, project_of};
use crate::bodies::keeps_bodies;
use crate::fault::{LostKind, StepFault};
use crate::locked::Locked;
use crate::sound::are_few;
use jr_base::Size;
use jr_change::Course;
use jr_dispatch::Methods;
use jr_edges::{Lost, lost_dispatch};
use jr_flow::{FlowFault, has_too_many_points};
use jr_front::Workspace;
use jr_kept::{LostEdge, lost_flow};
use std::alloc::Global;

// The answer where an edge is lost.
fn lost(kind: LostKind, edge: LostEdge) -> StepFault
    ensures { result ≡ step.LostEdge kind edge.first edge.second edge.is_old }
{
    StepFault::LostEdge {
        kind,
        first: edge.first,
        second: edge.second,
        is_old: edge.is_old,
    }
}

// Its rows can be counted, with room for three more.
fn has_few_rows(workspace: &Workspace) -> bool
    ensures { result ≡ true → length (rows_in workspace.now) + 3 < 2 ^ 32 }
{
    are_few(workspace.index.rows())
}

/// No body has too many points of flow. Rows that cannot be counted are answered for want of memory.
pub fn is_within_flow(alloc: Global, workspace: &Workspace) -> Result<(), StepFault>
    requires { HasTables workspace.now }
    ensures { IfErr result (IsLargeIn workspace.now) }
{
    if !has_few_rows(workspace) {
        return Err(StepFault::OutOfMemory);
    }
    let is_large = has_too_many_points(alloc, &workspace.view())?;
    if is_large {
        Err(StepFault::TooLarge(Size::Flow))
    } else {
        Ok(())
    }
}

// No body of the changed program has too many points of flow. Bodies that stay as they are have no more than before.
fn is_changed_within_flow(alloc: Global, asked: Asked, locked: &Locked) -> Result<(), StepFault>
    requires { IsReady asked locked.now }
    ensures { IfErr result (IsHinderedIn asked.entry) }
{
    match asked.change.course {
        Course::Same => Ok(()),
        Course::Removed(_) => Ok(()),
        _ => is_within_flow(alloc, &locked.program),
    }
}

// The edge that is lost where a call finds another method than before.
fn lost_call(asked: Asked, lost: Lost) -> StepFault
    ensures { IsOrdered asked.entry.project.now.marks → result ≡ step.LostEdge kind.Dispatch (place_of_name asked.entry.project.now.marks lost.class) (place_of_name asked.entry.project.now.marks lost.method) true }
{
    let marks = &asked.project.marks;
    StepFault::LostEdge {
        kind: LostKind::Dispatch,
        first: marks.name_place(lost.class),
        second: marks.name_place(lost.method),
        is_old: true,
    }
}

// Calls find in each class the methods that they found there.
fn keeps_calls(alloc: Global, asked: Asked, locked: &Locked) -> Result<(), StepFault>
    requires { IsReady asked locked.now }
    ensures ok { IfOk result (λ _. KeepsCallsIn asked.entry locked.now) }
    ensures err { IfErr result (IsHinderedIn asked.entry) }
{
    let old = asked.old.view();
    let new = locked.program.view();
    let before = Methods::of(&old.sight.world);
    let after = Methods::of(&new.sight.world);
    match lost_dispatch(alloc, before, after, &locked.locks.copy)? {
        None => Ok(()),
        Some(lost) => Err(lost_call(asked, lost)),
    }
}

// Flow cannot be compared.
fn not_compared(asked: Asked, fault: FlowFault) -> StepFault
    requires { OnlyWhere (ComparesLarge (rows_in asked.old.now) (table_in asked.old.now) asked.change.now) fault }
    ensures { IsHinderedIn asked.entry result }
{
    match fault {
        FlowFault::TooManyPoints => StepFault::TooLarge(Size::Flow),
        FlowFault::OutOfMemory => StepFault::OutOfMemory,
    }
}

// Control goes as before where statements move, and where no edge from a definition to a use is lost, uses have the values that they had. It gives the first that is lost.
fn keeps_control(
    alloc: Global,
    asked: Asked,
    locked: &Locked,
) -> Result<Option<LostEdge>, StepFault>
    requires { IsReady asked locked.now }
    ensures ok { IfOk result (λ def_use. def_use ≡ None → KeepsBodiesIn asked.entry locked.now → KeepsFlowIn asked.entry locked.now) }
    ensures uses { IfOk result (λ def_use. (edge : LostEdge) → def_use ≡ Some edge → LosesUses (rows_in asked.entry.old.now) (table_in asked.entry.old.now) asked.entry.change.now) }
    ensures err { IfErr result (IsHinderedIn asked.entry) }
{
    let old = project_of(asked.old);
    let new = project_of(&locked.program);
    let flow = match lost_flow(alloc, &old, &new, &locked.locks, asked.change) {
        Ok(flow) => flow,
        Err(fault) => return Err(not_compared(asked, fault)),
    };
    match flow.control {
        Some(edge) => Err(lost(LostKind::Control, edge)),
        None => Ok(flow.def_use),
    }
}

/// Bodies that are left alone mean what they meant; others were not to be written.
pub fn keeps_others(alloc: Global, asked: Asked, locked: &Locked) -> Result<(), StepFault>
    requires { IsReady asked locked.now }
    ensures ok { IfOk result (λ _. KeepsBodiesIn asked.entry locked.now) }
    ensures err { (texts : List (List ℕ × List ℕ)) → IfErr result (AreNotLeft asked.entry texts) }
{
    let are_kept = keeps_bodies(alloc, asked, locked)?;
    if are_kept {
        Ok(())
    } else {
        Err(asked.differs())
    }
}

/// Control goes as before where statements move, calls find in each class the methods that they found there, and uses of locals the values that they had.
pub fn keeps_edges(alloc: Global, asked: Asked, locked: &Locked) -> Result<(), StepFault>
    requires { IsReady asked locked.now }
    ensures calls { IfOk result (λ _. KeepsCallsIn asked.entry locked.now) }
    ensures flow { IfOk result (λ _. KeepsBodiesIn asked.entry locked.now → KeepsFlowIn asked.entry locked.now) }
    ensures err { IfErr result (IsHinderedIn asked.entry) }
{
    is_changed_within_flow(alloc, asked, locked)?;
    let def_use = keeps_control(alloc, asked, locked)?;
    keeps_calls(alloc, asked, locked)?;
    match def_use {
        Some(edge) => Err(lost(LostKind::DefUse, edge)),
        None => Ok(()),
    }
}
