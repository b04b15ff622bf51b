//! The change that removes a declaration which nothing uses.
#![tactic(auto)]

mod removal;
mod uses;

ghost use Rattle.std.specs.Prelude.{◌≡◌, ◌+◌, ◌<◌, ◌^◌, IfErr, IfOk, OnOk, length};
ghost use Rattle.jr_marks.specs.Places.{IsOrdered};
ghost use Rattle.jr_draft.specs.Drafting.{IsFinished};
ghost use Rattle.jr_delete.specs.Deleting as deleting;

use crate::removal::{Removal, removable, removal_of};
use crate::uses::first_use;
use jr_change::{Change, ChangeFault, Course, Project, Reason};
use jr_draft::{Draft, PRELUDE, add_without, asked, count_units};
use jr_marks::Marks;
use std::alloc::Global;

/// What removes the declaration at an offset of a file, or the first reason why it cannot go. It is a method, a class or interface, or a field without
/// initializer (JLS 8.3, 8.4, 8.5, 9.1). It is still used where what stays refers to what goes; the first such occurrence is told.
#[tactic(auto, using(crate::proofs::Answering::refused_so, crate::proofs::Answering::stays_so, crate::proofs::Answering::goes_so))]
pub fn delete(alloc: Global, old: &Project, file: &[u8], at: u32) -> Result<Change, ChangeFault>
    ensures { IsOrdered old.now.marks → deleting.IsAnswer old.now file.now at result }
{
    let found = match asked(old, file, at) {
        Ok(found) => found,
        Err(fault) => return Err(fault),
    };
    match removable(old.marks.rows, found) {
        None => Err(ChangeFault::Bad(Reason::WrongKind)),
        Some(removed) => delete_row(alloc, old, removed),
    }
}

// The same, of a declaration that can go.
#[tactic(auto, using(crate::proofs::Answering::used_there, crate::proofs::Answering::gone_or_not))]
fn delete_row(alloc: Global, old: &Project, removed: u32) -> Result<Change, ChangeFault>
    ensures { IsOrdered old.now.marks → removed + 1 < 2 ^ 32 → deleting.IsDeleted old.now removed result }
{
    let removal = removal_of(&old.marks, removed);
    match first_use(alloc, old, removal.rows) {
        Err(_) => Err(ChangeFault::OutOfMemory),
        Ok(Some(row)) => Err(ChangeFault::StillUsed(old.marks.name_place(row))),
        Ok(None) => without(alloc, &old.marks, removal),
    }
}

// The change in which it is gone.
fn without(alloc: Global, marks: &Marks, removal: Removal) -> Result<Change, ChangeFault>
    ensures ok { IfOk result (λ change. IsOrdered marks.now
        → IsFinished (deleting.left_of marks.now removal.rows removal.span (length marks.now.units.now)) (Course.Removed removal.rows) change) }
    ensures fault { IfErr result (λ fault. fault ≡ ChangeFault.OutOfMemory) }
{
    let mut draft = Draft::new(alloc, marks)?;
    for unit in PRELUDE..count_units(marks) {
        add_left(alloc, &mut draft, marks, removal, unit)?;
    }
    Ok(draft.finish_as(Course::Removed(removal.rows)))
}

// Adds a unit, which loses what is removed if that stands in it.
fn add_left(
    alloc: Global,
    draft: &mut Draft,
    marks: &Marks,
    removal: Removal,
    unit: u32,
) -> Result<(), ChangeFault>
    ensures ok { OnOk result (IsOrdered marks.now → unit < length marks.now.units.now
        → draft.new ≡ deleting.with_unit_left marks.now removal.rows removal.span unit draft.old) }
    ensures fault { IfErr result (λ fault. fault ≡ ChangeFault.OutOfMemory) }
{
    if unit == marks.unit_of(removal.rows.first) {
        add_without(alloc, draft, marks, removal.rows, removal.span)
    } else {
        draft.keep(alloc, marks, unit)?;
        Ok(())
    }
}
