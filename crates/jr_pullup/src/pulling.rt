// The pull up of a method.
ghost use Rattle.std.specs.Prelude.{◌≡◌, ◌<◌, ◌^◌, IfErr, IfOk, OnOk, length};
ghost use Rattle.jr_marks.specs.Places.{IsOrdered};
ghost use Rattle.jr_pullup.specs.Pulling as spec;

use crate::pulled::Pulled;
use jr_base::{OutOfMemory, Span, Text};
use jr_change::{Change, ChangeFault, Project, Raised, RowRange, UnitSource};
use jr_draft::{Draft, PRELUDE, asked, count_units, edits_of, path_of, unit_row};
use jr_edits::Edits;
use jr_marks::Marks;
use jr_places::end_at;
use jr_text::{extent, part, tokens_span, unit_bytes};
use jr_tree::Row;
use std::alloc::Global;

/// What takes the method whose name, or a call of which, holds an offset to the superclass of its class, or the first reason why that cannot be. It is to
/// be a method of a class whose superclass is declared in the workspace; an inner class may not stand inside its superclass (JLS 8.1.3, 8.1.4, 8.4).
#[tactic(auto, using(crate::proofs::Raising::refused_so, crate::proofs::Raising::answered_so))]
pub fn pull_up(alloc: Global, old: &Project, file: &[u8], at: u32) -> Result<Change, ChangeFault>
    ensures { IsOrdered old.now.marks → spec.IsPullUpAnswer old.now file.now at result }
{
    match asked(old, file, at) {
        Ok(found) => asked_for(alloc, old, found),
        Err(why) => Err(why),
    }
}

// What comes of the declaration that is asked for.
#[tactic(auto, using(crate::proofs::Raising::stays_so, crate::proofs::Raising::goes_so))]
fn asked_for(alloc: Global, old: &Project, found: Option<u32>) -> Result<Change, ChangeFault>
    ensures { IsOrdered old.now.marks → spec.IsAskedFor old.now found result }
{
    match Pulled::of(old, found) {
        Ok(pulled) => raised(alloc, &old.marks, pulled),
        Err(why) => Err(ChangeFault::Bad(why)),
    }
}

// The closing brace of a body, before which is inserted.
fn before_brace(marks: &Marks, body: u32) -> Span
    ensures { IsOrdered marks.now → result ≡ spec.before_brace marks.now body }
{
    let brace = tokens_span(marks, body).end.saturating_sub(1);
    Span {
        start: brace,
        end: brace,
    }
}

// The bytes that the method takes along, and LF.
fn moved_text(alloc: Global, marks: &Marks, pulled: Pulled, span: Span) -> Result<Text, OutOfMemory>
    ensures { IfOk result (λ text. IsOrdered marks.now → text ≡ spec.moved_text marks.now pulled span) }
{
    let mut out = Vec::new(alloc);
    out.extend_from_slice(part(unit_bytes(marks, pulled.method), span))?;
    out.push(b'\n')?;
    Ok(Text::new(out))
}

// The text of the method comes to the unit of the superclass.
fn put_text(
    alloc: Global,
    edits: &mut Edits,
    marks: &Marks,
    pulled: Pulled,
    span: Span,
    unit: u32,
) -> Result<(), ChangeFault>
    ensures ok { OnOk result (IsOrdered marks.now → edits.new ≡ spec.with_text marks.now pulled span unit edits.old) }
    ensures fault { IfErr result (λ fault. fault ≡ ChangeFault.OutOfMemory) }
{
    if unit == marks.unit_of(pulled.body) {
        let text = moved_text(alloc, marks, pulled, span)?;
        edits.push(before_brace(marks, pulled.body), text)?;
    }
    Ok(())
}

// The bytes of the method go from its unit.
fn take_text(
    alloc: Global,
    edits: &mut Edits,
    marks: &Marks,
    pulled: Pulled,
    span: Span,
    unit: u32,
) -> Result<(), ChangeFault>
    ensures ok { OnOk result (IsOrdered marks.now → edits.new ≡ spec.without_text marks.now pulled span unit edits.old) }
    ensures fault { IfErr result (λ fault. fault ≡ ChangeFault.OutOfMemory) }
{
    if unit == marks.unit_of(pulled.method) {
        edits.push(span, Text::of(alloc, &[])?)?;
    }
    Ok(())
}

// The edits of a unit that the method leaves or to which it comes.
fn edited(
    alloc: Global,
    marks: &Marks,
    pulled: Pulled,
    span: Span,
    unit: u32,
) -> Result<Edits, ChangeFault>
    ensures ok { IfOk result (λ edits. IsOrdered marks.now → edits ≡ spec.edited marks.now pulled span unit) }
    ensures fault { IfErr result (λ fault. fault ≡ ChangeFault.OutOfMemory) }
{
    let mut edits = edits_of(alloc, marks, unit_row(marks, unit))?;
    put_text(alloc, &mut edits, marks, pulled, span, unit)?;
    take_text(alloc, &mut edits, marks, pulled, span, unit)?;
    Ok(edits)
}

// Adds copies of the rows from the first up to before the last one, but for those of the method.
fn copy_but(
    draft: &mut Draft,
    rows: &[Row],
    method: u32,
    first: u32,
    last: u32,
) -> Result<(), OutOfMemory>
    ensures { OnOk result (length rows.now < 2 ^ 32 → method < length rows.now → draft.new ≡ spec.copied_but rows.now method first last draft.old) }
{
    draft.copy(first, last.min(method))?;
    draft.copy(first.max(end_at(rows, method)), last)
}

// Adds the rows of the unit of the superclass, in whose body those of the method stand last.
fn add_reached(
    draft: &mut Draft,
    marks: &Marks,
    pulled: Pulled,
    unit: u32,
) -> Result<(), OutOfMemory>
    ensures { OnOk result (IsOrdered marks.now → spec.IsWithin marks.now.rows.now pulled → unit < length marks.now.units.now
        → draft.new ≡ spec.rows_reached marks.now pulled unit draft.old) }
{
    let rows = marks.rows;
    let row = unit_row(marks, unit);
    let behind = end_at(rows, pulled.body);
    copy_but(draft, rows, pulled.method, row, behind)?;
    draft.copy(pulled.method, end_at(rows, pulled.method))?;
    copy_but(draft, rows, pulled.method, behind, end_at(rows, row))
}

// Adds the rows of a unit that the method leaves or to which it comes.
fn add_rows(draft: &mut Draft, marks: &Marks, pulled: Pulled, unit: u32) -> Result<(), OutOfMemory>
    ensures { OnOk result (IsOrdered marks.now → spec.IsWithin marks.now.rows.now pulled → unit < length marks.now.units.now
        → draft.new ≡ spec.with_rows marks.now pulled unit draft.old) }
{
    if unit == marks.unit_of(pulled.body) {
        add_reached(draft, marks, pulled, unit)
    } else {
        let row = unit_row(marks, unit);
        copy_but(
            draft,
            marks.rows,
            pulled.method,
            row,
            end_at(marks.rows, row),
        )
    }
}

// Adds a unit that the method leaves or to which it comes.
fn add_edited(
    alloc: Global,
    draft: &mut Draft,
    marks: &Marks,
    pulled: Pulled,
    span: Span,
    unit: u32,
) -> Result<(), ChangeFault>
    ensures ok { OnOk result (IsOrdered marks.now → spec.IsWithin marks.now.rows.now pulled
        → draft.new ≡ spec.with_rows marks.now pulled unit (spec.with_edited marks.now pulled span unit draft.old)) }
    ensures fault { IfErr result (λ fault. fault ≡ ChangeFault.OutOfMemory) }
{
    let edits = edited(alloc, marks, pulled, span, unit)?;
    draft.add(
        path_of(alloc, marks, unit)?,
        UnitSource::Edited { unit, edits },
    )?;
    add_rows(draft, marks, pulled, unit)?;
    Ok(())
}

// The method leaves the unit or comes to it.
fn is_edited(marks: &Marks, pulled: Pulled, unit: u32) -> bool
    ensures { IsOrdered marks.now → result ≡ spec.is_edited marks.now pulled unit }
{
    unit == marks.unit_of(pulled.method) || unit == marks.unit_of(pulled.body)
}

// Adds a unit.
fn add_one(
    alloc: Global,
    draft: &mut Draft,
    marks: &Marks,
    pulled: Pulled,
    span: Span,
    unit: u32,
) -> Result<(), ChangeFault>
    ensures ok { OnOk result (IsOrdered marks.now → spec.IsWithin marks.now.rows.now pulled → draft.new ≡ spec.with_one marks.now pulled span unit draft.old) }
    ensures fault { IfErr result (λ fault. fault ≡ ChangeFault.OutOfMemory) }
{
    if is_edited(marks, pulled, unit) {
        add_edited(alloc, draft, marks, pulled, span, unit)
    } else {
        draft.keep(alloc, marks, unit)?;
        Ok(())
    }
}

// All units, of which the method leaves one and comes to one.
fn draft_raised(
    alloc: Global,
    marks: &Marks,
    pulled: Pulled,
    span: Span,
) -> Result<Draft, ChangeFault>
    ensures ok { IfOk result (λ draft. IsOrdered marks.now → spec.IsWithin marks.now.rows.now pulled
        → draft ≡ spec.raised_below marks.now pulled span (length marks.now.units.now)) }
    ensures fault { IfErr result (λ fault. fault ≡ ChangeFault.OutOfMemory) }
{
    let mut draft = Draft::new(alloc, marks)?;
    for unit in PRELUDE..count_units(marks) {
        add_one(alloc, &mut draft, marks, pulled, span, unit)?;
    }
    Ok(draft)
}

// What the change says of levels in the method.
fn raised_by(rows: &[Row], pulled: Pulled) -> Raised
    ensures { length rows.now < 2 ^ 32 → pulled.method < length rows.now → result ≡ spec.raised_by rows.now pulled }
{
    Raised {
        method: RowRange {
            first: pulled.method,
            end: end_at(rows, pulled.method),
        },
        from: pulled.class,
        to: pulled.superclass,
    }
}

// The change that was put together.
fn finish(draft: Draft, raised: Raised) -> Change
    ensures { spec.IsFinishedWith draft raised result }
{
    let mut change = draft.finish();
    change.raised = Some(raised);
    change
}

// The change in which a method goes to the superclass.
fn raised(alloc: Global, marks: &Marks, pulled: Pulled) -> Result<Change, ChangeFault>
    ensures ok { IfOk result (λ change. IsOrdered marks.now → spec.IsWithin marks.now.rows.now pulled → spec.IsRaised marks.now pulled change) }
    ensures fault { IfErr result (λ fault. fault ≡ ChangeFault.OutOfMemory) }
{
    let span = extent(marks, pulled.method);
    let draft = draft_raised(alloc, marks, pulled, span)?;
    Ok(finish(draft, raised_by(marks.rows, pulled)))
}
