// A report as text.
ghost use Rattle.std.specs.Prelude.{◌≡◌, true, IfOk};
ghost use Rattle.jr_supers.specs.Supers.{ListsOnce};
ghost use Rattle.jr_dispatch.specs.Methods.{IsWholeWorld};
ghost use Rattle.jr_marks.specs.Places.{IsOrdered};
ghost use Rattle.jr_report.specs.Listed.{rows_in, table_in};
ghost use Rattle.jr_report.specs.Reports as tell;

use crate::calling::callers;
use crate::kind::Report;
use crate::lines::{lines_of, places_of};
use crate::listed::{references, subtypes};
use jr_base::{OutOfMemory, Text};
use jr_change::{ChangeFault, Project, Reason};
use jr_draft::named_at;
use jr_places::{is_method, is_type};
use jr_tree::Row;
use jr_view::View;
use std::alloc::Global;

// There is such a report on a declaration.
fn has_report(what: Report, rows: &[Row], declared: u32) -> bool
    ensures { result ≡ tell.has_report what rows.now declared }
{
    match what {
        Report::References => true,
        Report::Subtypes => is_type(rows, declared),
        Report::Callers => is_method(rows, declared),
    }
}

// The rows that a report on a declaration lists.
fn rows_of(alloc: Global, view: &View, what: Report, declared: u32) -> Result<Vec<u32>, OutOfMemory>
    ensures { IsWholeWorld (table_in view.now.sight.world) view.now.sight.world → tell.has_report what (rows_in view.now.sight.world) declared ≡ true
        → IfOk result (λ rows. ListsOnce rows.items (tell.IsListed what view.now declared)) }
{
    match what {
        Report::References => references(alloc, &view.sight.world, declared),
        Report::Subtypes => subtypes(alloc, &view.sight.world, declared),
        Report::Callers => callers(alloc, view, declared),
    }
}

// The text of a report on a declaration.
fn text_of(
    alloc: Global,
    project: &Project,
    what: Report,
    declared: u32,
) -> Result<Text, OutOfMemory>
    ensures { IsOrdered project.now.marks → IsWholeWorld (table_in project.now.view.sight.world) project.now.view.sight.world
        → tell.has_report what (rows_in project.now.view.sight.world) declared ≡ true
        → IfOk result (tell.IsListOf project.now.marks (tell.IsListed what project.now.view declared)) }
{
    let rows = rows_of(alloc, &project.view, what, declared)?;
    let places = places_of(alloc, &project.marks, &rows)?;
    Ok(Text::new(lines_of(alloc, project.marks.units, &places)?))
}

// The report on a declaration, if there is such a one.
fn report_on(
    alloc: Global,
    project: &Project,
    what: Report,
    declared: u32,
) -> Result<Text, ChangeFault>
    ensures { IsOrdered project.now.marks → IsWholeWorld (table_in project.now.view.sight.world) project.now.view.sight.world
        → tell.IsReportOn project.now what declared result }
{
    if !has_report(what, project.view.sight.world.under.rows, declared) {
        return Err(ChangeFault::Bad(Reason::WrongKind));
    }
    match text_of(alloc, project, what, declared) {
        Ok(text) => Ok(text),
        Err(_) => Err(ChangeFault::OutOfMemory),
    }
}

/// The places that a report lists, each on a line of its own in the order of the program, and a line with their number. It is on the declaration whose
/// name, or the name of an occurrence of which, holds the offset of a file. That may stand in the prelude, whose places are told by the word alone.
pub fn report(
    alloc: Global,
    project: &Project,
    what: Report,
    file: &[u8],
    at: u32,
) -> Result<Text, ChangeFault>
    ensures { IsOrdered project.now.marks → IsWholeWorld (table_in project.now.view.sight.world) project.now.view.sight.world
        → tell.IsReportOf project.now what file.now at result }
{
    match named_at(project, file, at) {
        Ok(Some(declared)) => report_on(alloc, project, what, declared),
        Ok(None) => Err(ChangeFault::Bad(Reason::WrongKind)),
        Err(fault) => Err(fault),
    }
}
