// An extraction of a method.
ghost use Rattle.std.specs.Prelude.{◌≡◌, ◌<◌, ◌^◌, IfErr, IfOk, OnOk, length};
ghost use Rattle.jr_marks.specs.Places.{IsOrdered};
ghost use Rattle.jr_draft.specs.Drafting.{begun};
ghost use Rattle.jr_extract.specs.Extracting as spec;
ghost use Rattle.jr_extract.specs.Writing as writing;

use crate::extraction::Extraction;
use crate::flow::graph_of;
use crate::locals::{Locals, locals_of};
use crate::rows::{add_call, add_method, add_target};
use crate::run::{Run, run_at};
use crate::texts::{method_text, statement_text};
use crate::thrown::thrown_out;
use jr_base::{OutOfMemory, Span, is_identifier};
use jr_change::{Change, ChangeFault, Course, Project, Reason, RowRange, UnitSource};
use jr_draft::{Draft, PRELUDE, count_units, edits_of, path_of, unit_of_file, unit_row};
use jr_edits::Edits;
use jr_marks::Marks;
use jr_places::{end_at, is_static, parent_at};
use jr_text::{part, token_span, tokens_span, unit_bytes};
use jr_tree::Row;
use std::alloc::Global;

/// Where the added call and the rows of the added method stand in the changed program.
#[derive(Clone, Copy)]
pub(crate) struct Placed {
    pub(crate) call: u32,
    pub(crate) method: RowRange,
}

/// What makes a method of this name of the statements that stand from `start` to before `end` in a file, or the first reason why there is none. Behind the
/// method or constructor in which they stand comes the new one, and a call of it in their place. It takes the locals whose values they use, declares the
/// others that they name, and gives back the first of which a value is used after them.
pub fn extract(
    alloc: Global,
    old: &Project,
    file: &[u8],
    start: u32,
    end: u32,
    name: &[u8],
) -> Result<Change, ChangeFault>
    ensures { IsOrdered old.now.marks → spec.IsExtractAnswer old.now file.now start end name.now result }
{
    match unit_of_file(&old.marks, file) {
        Some(unit) => of_unit(alloc, old, unit, Span { start, end }, name),
        None => Err(ChangeFault::Bad(Reason::NoFile)),
    }
}

// What comes of a range of bytes of a unit, and a name.
fn of_unit(
    alloc: Global,
    old: &Project,
    unit: u32,
    range: Span,
    name: &[u8],
) -> Result<Change, ChangeFault>
    ensures { IsOrdered old.now.marks → unit < length old.now.marks.units.now → spec.IsNamedAnswer old.now range name.now unit result }
{
    if is_identifier(name) {
        of_range(alloc, old, unit, range, name)
    } else {
        Err(ChangeFault::Bad(Reason::BadName))
    }
}

// What comes of a range of bytes of a unit.
fn of_range(
    alloc: Global,
    old: &Project,
    unit: u32,
    range: Span,
    name: &[u8],
) -> Result<Change, ChangeFault>
    ensures { IsOrdered old.now.marks → unit < length old.now.marks.units.now → spec.IsRangeAnswer old.now range name.now unit result }
{
    match run_at(&old.marks, unit, range) {
        Some(run) => of_run(alloc, old, run, name),
        None => Err(ChangeFault::Bad(Reason::BadRange)),
    }
}

// What comes of a run.
#[tactic(auto, using(crate::proofs::Extending::run_fault, crate::proofs::Extending::memory_fault))]
fn of_run(alloc: Global, old: &Project, run: Run, name: &[u8]) -> Result<Change, ChangeFault>
    ensures ok { IfOk result (λ change. IsOrdered old.now.marks → spec.IsWithin old.now.marks run → spec.IsRunMethod old.now run name.now change) }
    ensures fault { IfErr result (λ fault. spec.IsWithin old.now.marks run → spec.IsRunFault old.now run fault) }
{
    let graph = graph_of(alloc, &old.view, run.member)?;
    let locals = locals_of(alloc, &old.view.sight.world.under, &graph, run)?;
    Ok(with_locals(alloc, old, run, name, &locals)?)
}

// The change, by the locals of the method.
fn with_locals(
    alloc: Global,
    old: &Project,
    run: Run,
    name: &[u8],
    locals: &Locals,
) -> Result<Change, ChangeFault>
    ensures ok { IfOk result (λ change. IsOrdered old.now.marks → spec.IsWithin old.now.marks run → spec.IsMethodOf old.now run name.now locals.now change) }
    ensures fault { IfErr result (λ fault. fault ≡ ChangeFault.OutOfMemory) }
{
    let thrown = thrown_out(alloc, &old.view, run)?;
    let added = extraction(&old.marks, run, name, locals, &thrown);
    extracted(alloc, &old.marks, &added)
}

// The bytes of a run, from its first token to its last.
fn span_of(marks: &Marks, run: Run) -> Span
    ensures { IsOrdered marks.now → result ≡ spec.span_of marks.now run }
{
    Span {
        start: token_span(marks, run.member, run.tokens.first).start,
        end: token_span(marks, run.member, run.tokens.after.saturating_sub(1)).end,
    }
}

// The class in whose body a member stands.
fn class_of(rows: &[Row], member: u32) -> u32
    ensures { result ≡ spec.class_of rows.now member }
{
    parent_at(rows, parent_at(rows, member))
}

// What the run becomes.
fn extraction<'a>(
    marks: &Marks<'a>,
    run: Run,
    name: &'a [u8],
    locals: &'a Locals,
    thrown: &'a [u32],
) -> Extraction<'a>
    ensures { IsOrdered marks.now → writing.extracted result ≡ spec.extraction marks.now run name.now locals.now thrown.now }
{
    Extraction {
        run,
        text: part(unit_bytes(marks, run.member), span_of(marks, run)),
        name,
        class: class_of(marks.rows, run.member),
        is_static: is_static(marks.rows, run.member),
        locals,
        thrown,
    }
}

// Where the method is put: behind the last token of the member in which the run stands.
fn behind_member(marks: &Marks, run: Run) -> Span
    ensures { IsOrdered marks.now → result ≡ spec.behind_member marks.now run }
{
    let place = tokens_span(marks, run.member).end;
    Span {
        start: place,
        end: place,
    }
}

// The statement comes in place of the run.
fn edit_run(
    alloc: Global,
    edits: &mut Edits,
    marks: &Marks,
    added: &Extraction,
) -> Result<(), ChangeFault>
    ensures ok { OnOk result (IsOrdered marks.now → edits.new ≡ spec.with_statement marks.now (writing.extracted added.now) edits.old) }
    ensures fault { IfErr result (λ fault. fault ≡ ChangeFault.OutOfMemory) }
{
    let text = statement_text(alloc, marks.rows, added)?;
    edits.push(span_of(marks, added.run), text)?;
    Ok(())
}

// The method comes behind the member.
fn edit_member(
    alloc: Global,
    edits: &mut Edits,
    marks: &Marks,
    added: &Extraction,
) -> Result<(), ChangeFault>
    ensures ok { OnOk result (IsOrdered marks.now → edits.new ≡ spec.with_method_text marks.now (writing.extracted added.now) edits.old) }
    ensures fault { IfErr result (λ fault. fault ≡ ChangeFault.OutOfMemory) }
{
    let text = method_text(alloc, marks.rows, added)?;
    edits.push(behind_member(marks, added.run), text)?;
    Ok(())
}

// The edits of the unit in which the run stands.
fn edited(alloc: Global, marks: &Marks, added: &Extraction, unit: u32) -> Result<Edits, ChangeFault>
    ensures ok { IfOk result (λ edits. IsOrdered marks.now → edits ≡ spec.edited marks.now (writing.extracted added.now) unit) }
    ensures fault { IfErr result (λ fault. fault ≡ ChangeFault.OutOfMemory) }
{
    let mut edits = edits_of(alloc, marks, unit_row(marks, unit))?;
    edit_run(alloc, &mut edits, marks, added)?;
    edit_member(alloc, &mut edits, marks, added)?;
    Ok(edits)
}

// How many rows stand between those of the run and the end of the member.
fn rows_between(rows: &[Row], run: Run) -> u32
    ensures { length rows.now < 2 ^ 32 → run.member < length rows.now → result ≡ spec.rows_between rows.now run }
{
    end_at(rows, run.member).saturating_sub(run.rows.end)
}

// Adds the rows of the unit up to the run, and those of the statement up to the call.
fn add_before(
    draft: &mut Draft,
    marks: &Marks,
    added: &Extraction,
    unit: u32,
) -> Result<(), OutOfMemory>
    ensures { OnOk result (draft.new ≡ spec.rows_before marks.now (writing.extracted added.now) unit draft.old) }
{
    draft.copy(unit_row(marks, unit), added.run.rows.first)?;
    add_target(draft, added.run, added.locals.result)
}

// Adds the rows of the unit up to the method, and gives the row of the call.
fn add_called(
    draft: &mut Draft,
    marks: &Marks,
    added: &Extraction,
    unit: u32,
) -> Result<u32, OutOfMemory>
    ensures rows { OnOk result (IsOrdered marks.now → spec.IsWithin marks.now added.now.run → draft.new ≡ spec.rows_called marks.now (writing.extracted added.now) unit draft.old) }
    ensures call { IfOk result (λ call. call ≡ (spec.rows_before marks.now (writing.extracted added.now) unit draft.old).count) }
{
    add_before(draft, marks, added, unit)?;
    let call = draft.rows();
    add_call(draft, added, rows_between(marks.rows, added.run))?;
    let behind = end_at(marks.rows, added.run.member);
    draft.copy(added.run.rows.end, behind)?;
    Ok(call)
}

// Adds the rows of the method, and gives them.
fn add_placed(draft: &mut Draft, added: &Extraction) -> Result<RowRange, OutOfMemory>
    ensures rows { OnOk result (draft.new ≡ writing.with_method (writing.extracted added.now) draft.old) }
    ensures placed { IfOk result (λ method. method ≡ record { first = draft.old.count; end = draft.new.count }) }
{
    let first = draft.rows();
    add_method(draft, added)?;
    Ok(RowRange {
        first,
        end: draft.rows(),
    })
}

// Adds the rows of the unit in which the run stands.
fn add_rows(
    draft: &mut Draft,
    marks: &Marks,
    added: &Extraction,
    unit: u32,
) -> Result<Placed, OutOfMemory>
    ensures { IfOk result (λ placed. IsOrdered marks.now → spec.IsWithin marks.now added.now.run → unit < length marks.now.units.now
        → record { drafted = draft.new; placed = placed } ≡ spec.with_rows_placed marks.now (writing.extracted added.now) unit draft.old) }
{
    let call = add_called(draft, marks, added, unit)?;
    let method = add_placed(draft, added)?;
    let behind = end_at(marks.rows, added.run.member);
    draft.copy(behind, end_at(marks.rows, unit_row(marks, unit)))?;
    Ok(Placed { call, method })
}

// Adds the unit in which the run stands.
fn add_edited(
    alloc: Global,
    draft: &mut Draft,
    marks: &Marks,
    added: &Extraction,
    unit: u32,
) -> Result<Placed, ChangeFault>
    ensures ok { IfOk result (λ placed. IsOrdered marks.now → spec.IsWithin marks.now added.now.run → record { drafted = draft.new; placed = placed } ≡ spec.extended marks.now (writing.extracted added.now) unit draft.old) }
    ensures fault { IfErr result (λ fault. fault ≡ ChangeFault.OutOfMemory) }
{
    let edits = edited(alloc, marks, added, unit)?;
    draft.add(
        path_of(alloc, marks, unit)?,
        UnitSource::Edited { unit, edits },
    )?;
    let placed = add_rows(draft, marks, added, unit)?;
    Ok(placed)
}

// The run stands in the unit.
fn is_extended(marks: &Marks, added: &Extraction, unit: u32) -> bool
    ensures { IsOrdered marks.now → result ≡ spec.is_extended marks.now (writing.extracted added.now) unit }
{
    unit == marks.unit_of(added.run.member)
}

// Adds a unit: that of the run, or one that stays.
#[tactic(auto, using(crate::proofs::Extending::one_kept))]
fn add_one(
    alloc: Global,
    draft: &mut Draft,
    marks: &Marks,
    added: &Extraction,
    unit: u32,
    placed: Placed,
) -> Result<Placed, ChangeFault>
    ensures ok { IfOk result (λ more. IsOrdered marks.now → spec.IsWithin marks.now added.now.run → record { drafted = draft.new; placed = more }
        ≡ spec.with_one marks.now (writing.extracted added.now) unit (record { drafted = draft.old; placed = placed })) }
    ensures fault { IfErr result (λ fault. fault ≡ ChangeFault.OutOfMemory) }
{
    if is_extended(marks, added, unit) {
        add_edited(alloc, draft, marks, added, unit)
    } else {
        draft.keep(alloc, marks, unit)?;
        Ok(placed)
    }
}

// Adds all units.
fn add_units(
    alloc: Global,
    draft: &mut Draft,
    marks: &Marks,
    added: &Extraction,
) -> Result<Placed, ChangeFault>
    ensures ok { IfOk result (λ placed. IsOrdered marks.now → spec.IsWithin marks.now added.now.run → draft.old ≡ begun marks.now
        → record { drafted = draft.new; placed = placed } ≡ spec.all_extended marks.now (writing.extracted added.now)) }
    ensures fault { IfErr result (λ fault. fault ≡ ChangeFault.OutOfMemory) }
{
    let mut placed = Placed {
        call: 0,
        method: RowRange { first: 0, end: 0 },
    };
    for unit in PRELUDE..count_units(marks) {
        placed = add_one(alloc, draft, marks, added, unit, placed)?;
    }
    Ok(placed)
}

// The change that was put together.
fn finish(draft: Draft, placed: Placed) -> Change
    ensures { spec.IsFinishedWith draft placed result }
{
    let mut change = draft.finish_as(Course::Extracted {
        call: placed.call,
        method: placed.method.first,
    });
    change.inner = Some(placed.method);
    change
}

// The change in which the run is a method.
fn extracted(alloc: Global, marks: &Marks, added: &Extraction) -> Result<Change, ChangeFault>
    ensures ok { IfOk result (λ change. IsOrdered marks.now → spec.IsWithin marks.now added.now.run → spec.IsExtracted marks.now (writing.extracted added.now) change) }
    ensures fault { IfErr result (λ fault. fault ≡ ChangeFault.OutOfMemory) }
{
    let mut draft = Draft::new(alloc, marks)?;
    let placed = add_units(alloc, &mut draft, marks, added)?;
    Ok(finish(draft, placed))
}
