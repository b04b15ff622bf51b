// A run of a program that compiles.
ghost use Rattle.std.specs.Prelude.{Ok, IfOk};
ghost use Rattle.jr_base.specs.declared.text.Text as texts;
ghost use Rattle.jr_core.specs.Mirror.{plain_core};
ghost use Rattle.jr_codes.specs.Reads.{facts};
ghost use Rattle.jr_elab.specs.Cores.{IsCoreOf, IsReadWhole};
ghost use Rattle.jr_run.specs.Reports.{IsPlacedSource};
ghost use Rattle.jr_run.specs.Runs.{IsReadProject, IsRunText, IsTextFrom, IsTextOfCore};
ghost use Rattle.jr_run.specs.Starting.{IsReadWorld, IsStartOf};

use crate::fault::RunFault;
use crate::report::report;
use crate::rows::are_few;
use crate::start::start_of;
use jr_base::{OutOfMemory, Text};
use jr_change::Project;
use jr_codes::{Ids, Source};
use jr_core::Core;
use jr_elab::elaborate;
use jr_machine::run;
use jr_view::View;
use std::alloc::Global;

// The core of a program.
fn core_of(source: &Source) -> Result<Core, OutOfMemory>
    ensures { IfOk result (λ core. IsReadWhole source.now → IsCoreOf (facts source.now) core) }
{
    elaborate(source.alloc, source.view, source.ids)
}

// The report of a run of a core that starts with the method at a row.
fn text_of_core(source: &Source, core: &Core, start: u32, steps: u64) -> Result<Text, OutOfMemory>
    ensures { IsPlacedSource source.now → IfOk result (λ text. IsTextOfCore source.now (plain_core core.now) start steps text) }
{
    let ran = run(source.alloc, core, source.decl(start), steps)?;
    report(source, &ran)
}

// The text of a run of a program that starts with the method at a row.
fn text_from(alloc: Global, view: &View, start: u32, steps: u64) -> Result<Text, OutOfMemory>
    ensures { IsReadWorld view.now.sight.world → IfOk result (λ text. IsTextFrom view.now start steps text) }
{
    let ids = Ids::of(alloc, view.sight.world.under.rows)?;
    let source = Source {
        alloc,
        view,
        ids: &ids,
    };
    let core = core_of(&source)?;
    text_of_core(&source, &core, start, steps)
}

// The same, of the class that has the name.
fn run_from(alloc: Global, project: &Project, start: u32, steps: u64) -> Result<Text, RunFault>
    ensures { IsReadWorld project.now.view.sight.world → (name : texts.Text) → IsStartOf project.now name (Ok start) → IsRunText project.now name steps result }
{
    match text_from(alloc, &project.view, start, steps) {
        Ok(text) => Ok(text),
        Err(_) => Err(RunFault::OutOfMemory),
    }
}

/// The text of a run of at most so many steps from the static void `main(String[])` of a class, given by its canonical name: what the program
/// prints, with LF at its end, and a line that tells how the run ended (JLS 12.1.4). Rows that are too many to be counted are answered for want
/// of memory.
pub fn run_text(
    alloc: Global,
    project: &Project,
    class: &[u8],
    steps: u64,
) -> Result<Text, RunFault>
    ensures { IsReadProject project.now → IsRunText project.now class.now steps result }
{
    if !are_few(project.view.sight.world.under.rows) {
        return Err(RunFault::OutOfMemory);
    }
    match start_of(alloc, project, class) {
        Ok(start) => run_from(alloc, project, start, steps),
        Err(fault) => Err(fault),
    }
}
