// The inline of a local.
ghost use Rattle.std.specs.Prelude.{◌≡◌, IfErr, IfOk, OnOk};
ghost use Rattle.jr_marks.specs.Places.{IsOrdered};
ghost use Rattle.jr_edits.specs.Place.{pushed};
ghost use Rattle.jr_draft.specs.Drafting.{IsFinished};
ghost use Rattle.jr_inline.specs.Inlining as spec;

use crate::course::{Inlining, is_replaced};
use crate::form::value_bytes;
use crate::local::{Local, inlinable};
use jr_base::{OutOfMemory, Span, Text};
use jr_change::{Change, ChangeFault, Course, Project, Reason, UnitSource};
use jr_draft::{Draft, PRELUDE, asked, count_units, edits_of, path_of, unit_row};
use jr_edits::Edits;
use jr_marks::Marks;
use jr_text::own_span;
use jr_weave::MOST_BYTES;
use std::alloc::Global;

/// What replaces each use of the local whose name, or a use of which, holds an offset by its initializer, and takes its declarator away. It is to be a
/// local with an expression as initializer that is never assigned again (JLS 14.4).
#[tactic(auto, using(crate::proofs::Answering::refused_so, crate::proofs::Answering::answered_so))]
pub fn inline(alloc: Global, old: &Project, file: &[u8], at: u32) -> Result<Change, ChangeFault>
    ensures { IsOrdered old.now.marks → spec.IsInlineAnswer old.now file.now at result }
{
    match asked(old, file, at) {
        Ok(found) => asked_for(alloc, old, found),
        Err(why) => Err(why),
    }
}

// What comes of the declaration that is asked for.
#[tactic(auto, using(crate::proofs::Answering::stays_so, crate::proofs::Answering::goes_so))]
fn asked_for(alloc: Global, old: &Project, found: Option<u32>) -> Result<Change, ChangeFault>
    ensures { IsOrdered old.now.marks → spec.IsAskedFor old.now found result }
{
    match inlinable(old, found) {
        Some(local) => inlined_local(alloc, old, local),
        None => Err(ChangeFault::Bad(Reason::WrongKind)),
    }
}

// The most bytes that copies may have where so many are left; more are answered for want of memory.
fn left_after(left: usize, text: &[u8]) -> Result<usize, OutOfMemory> {
    match left.checked_sub(text.len()) {
        Some(rest) => Ok(rest),
        None => Err(OutOfMemory),
    }
}

// Replaces the bytes of a span, which stand apart from those replaced before; want of memory is told where they do not.
fn put(edits: &mut Edits, span: Span, text: Text) -> Result<(), OutOfMemory>
    ensures { OnOk result (edits.new ≡ pushed edits.old span text) }
{
    match edits.push(span, text) {
        Ok(()) => Ok(()),
        Err(_) => Err(OutOfMemory),
    }
}

// Replaces a use, where so many bytes of copies are left. It gives how many are left then.
fn replace_use(
    alloc: Global,
    edits: &mut Edits,
    marks: &Marks,
    inlining: &Inlining,
    left: usize,
    at: u32,
) -> Result<usize, OutOfMemory>
    ensures { OnOk result (IsOrdered marks.now → edits.new ≡ spec.with_initializer marks.now (spec.plan_by inlining.now) at edits.old) }
{
    let form = inlining.form(at);
    let text = form.text(
        alloc,
        inlining.rows,
        value_bytes(marks, inlining.local.value),
    )?;
    let rest = left_after(left, text.bytes())?;
    put(edits, own_span(marks, at), text)?;
    Ok(rest)
}

// Replaces a row if it is a use.
fn push_use(
    alloc: Global,
    edits: &mut Edits,
    marks: &Marks,
    inlining: &Inlining,
    at: u32,
    left: usize,
) -> Result<usize, OutOfMemory>
    ensures { OnOk result (IsOrdered marks.now → edits.new ≡ spec.with_use marks.now (spec.plan_by inlining.now) at edits.old) }
{
    if is_replaced(inlining.fate(at)) {
        replace_use(alloc, edits, marks, inlining, left, at)
    } else {
        Ok(left)
    }
}

// Replaces the uses from the first row up to before the last one. Copies of more bytes than all texts may have are answered for want of memory.
fn push_between(
    alloc: Global,
    edits: &mut Edits,
    marks: &Marks,
    inlining: &Inlining,
    first: u32,
    behind: u32,
) -> Result<(), OutOfMemory>
    ensures { OnOk result (IsOrdered marks.now → edits.new ≡ spec.uses_between marks.now (spec.plan_by inlining.now) first edits.old behind) }
{
    let mut left = MOST_BYTES;
    for at in first..behind {
        left = push_use(alloc, edits, marks, inlining, at, left)?;
    }
    Ok(())
}

// Replaces the uses.
fn push_uses(
    alloc: Global,
    edits: &mut Edits,
    marks: &Marks,
    inlining: &Inlining,
) -> Result<(), OutOfMemory>
    ensures { OnOk result (IsOrdered marks.now → edits.new ≡ spec.with_uses marks.now (spec.plan_by inlining.now) edits.old) }
{
    let local = inlining.local;
    let behind = local.scope_end(inlining.rows);
    push_between(alloc, edits, marks, inlining, local.declarator, behind)
}

// Takes the declaration away.
fn push_removal(alloc: Global, edits: &mut Edits, inlining: &Inlining) -> Result<(), OutOfMemory>
    ensures { OnOk result (edits.new ≡ spec.without_local (spec.plan_by inlining.now) edits.old) }
{
    put(edits, inlining.removal.span, Text::of(alloc, &[])?)
}

// The edits of the unit of the local.
fn edited(alloc: Global, marks: &Marks, inlining: &Inlining) -> Result<Edits, OutOfMemory>
    ensures { IfOk result (λ edits. IsOrdered marks.now → edits ≡ spec.edits_in marks.now (spec.plan_by inlining.now)) }
{
    let mut edits = edits_of(alloc, marks, inlining.local.declarator)?;
    push_removal(alloc, &mut edits, inlining)?;
    push_uses(alloc, &mut edits, marks, inlining)?;
    Ok(edits)
}

// Adds the unit of the local without it.
fn add_edited(
    alloc: Global,
    draft: &mut Draft,
    marks: &Marks,
    inlining: &Inlining,
    unit: u32,
) -> Result<(), OutOfMemory>
    ensures { OnOk result (IsOrdered marks.now → draft.new ≡ spec.with_edited marks.now (spec.plan_by inlining.now) unit draft.old) }
{
    let path = path_of(alloc, marks, unit)?;
    let edits = edited(alloc, marks, inlining)?;
    draft.add(path, UnitSource::Edited { unit, edits })?;
    inlining.add_rows(draft, unit_row(marks, unit))
}

// Adds a unit.
fn add_one(
    alloc: Global,
    draft: &mut Draft,
    marks: &Marks,
    inlining: &Inlining,
    unit: u32,
) -> Result<(), OutOfMemory>
    ensures { OnOk result (IsOrdered marks.now → draft.new ≡ spec.with_one marks.now (spec.plan_by inlining.now) unit draft.old) }
{
    if unit == marks.unit_of(inlining.local.declarator) {
        add_edited(alloc, draft, marks, inlining, unit)
    } else {
        draft.keep(alloc, marks, unit)
    }
}

// All units, of which that of the local is changed.
fn draft_inlined(alloc: Global, marks: &Marks, inlining: &Inlining) -> Result<Draft, OutOfMemory>
    ensures { IfOk result (λ draft. IsOrdered marks.now → draft ≡ spec.draft_of marks.now (spec.plan_by inlining.now)) }
{
    let mut draft = Draft::new(alloc, marks)?;
    for unit in PRELUDE..count_units(marks) {
        add_one(alloc, &mut draft, marks, inlining, unit)?;
    }
    Ok(draft)
}

// The change that the inlining makes.
fn inlined(alloc: Global, marks: &Marks, inlining: &Inlining) -> Result<Change, ChangeFault>
    ensures ok { IfOk result (λ change. IsOrdered marks.now → IsFinished (spec.draft_of marks.now (spec.plan_by inlining.now)) (spec.course_of inlining.now.local) change) }
    ensures fault { IfErr result (λ fault. fault ≡ ChangeFault.OutOfMemory) }
{
    let draft = draft_inlined(alloc, marks, inlining)?;
    Ok(draft.finish_as(Course::Inlined {
        local: inlining.local.declarator,
        statement: inlining.local.statement,
    }))
}

// The change in which the local is inlined.
fn inlined_local(alloc: Global, old: &Project, local: Local) -> Result<Change, ChangeFault>
    ensures ok { IfOk result (λ change. IsOrdered old.now.marks → spec.IsInlined old.now local change) }
    ensures fault { IfErr result (λ fault. fault ≡ ChangeFault.OutOfMemory) }
{
    let inlining = Inlining::of(old, local);
    inlined(alloc, &old.marks, &inlining)
}
