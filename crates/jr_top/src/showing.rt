// What is shown of files.

ghost use Rattle.std.specs.Prelude.{Option, Some};
ghost use Rattle.jr_base.specs.Files.{FileMap};
ghost use Rattle.jr_request.specs.declared.command.Command.{Command};
ghost use Rattle.jr_request.specs.declared.command.Command.TheVariants.{Run};
ghost use Rattle.jr_top.specs.Showing.{AnsweredAs, IsProjectIn, IsQuestionOf, IsWorkspaceOf, ReportedAs, ShownAs};

use crate::show_fault::ShowFault;
use jr_base::{Files, Text};
use jr_change::{ChangeFault, Project, Reason};
use jr_front::{Workspace, open_files};
use jr_report::{Report, report};
use jr_run::{RunFault, run_text};
use std::alloc::Global;

/// What is asked of files that compile.
#[derive(Clone, Copy, Debug)]
pub enum Question<'a> {
    /// What the class prints in so many steps.
    Run { class: &'a [u8], steps: u64 },
    /// The references to the declaration at the offset.
    References { file: &'a [u8], at: u32 },
    /// The types below the one at the offset.
    Subtypes { file: &'a [u8], at: u32 },
    /// The callers of the method at the offset.
    Callers { file: &'a [u8], at: u32 },
}

// Why there is no answer.
enum Unanswered {
    Bad(Reason),
    OutOfMemory,
}

// What is reported of a program.
fn reported(
    alloc: Global,
    project: &Project,
    what: Report,
    file: &[u8],
    at: u32,
) -> Result<Text, Unanswered>
    ensures { (found : FileMap) → IsProjectIn found project.now → ReportedAs found what file.now at result }
{
    match report(alloc, project, what, file, at) {
        Ok(text) => Ok(text),
        Err(ChangeFault::Bad(reason)) => Err(Unanswered::Bad(reason)),
        Err(_) => Err(Unanswered::OutOfMemory),
    }
}

// What the class of a program prints.
fn printed(alloc: Global, project: &Project, class: &[u8], steps: u64) -> Result<Text, Unanswered>
    ensures { (found : FileMap) → IsProjectIn found project.now → AnsweredAs (Some (Run class.now steps)) found result }
{
    match run_text(alloc, project, class, steps) {
        Ok(text) => Ok(text),
        Err(RunFault::Bad(reason)) => Err(Unanswered::Bad(reason)),
        Err(RunFault::OutOfMemory) => Err(Unanswered::OutOfMemory),
    }
}

// The answer to a question on a program.
fn answered(
    alloc: Global,
    workspace: &Workspace,
    question: Question<'_>,
) -> Result<Text, Unanswered>
    ensures { (asked : Option Command) (found : FileMap) → IsQuestionOf asked question.entry → IsWorkspaceOf found workspace.now → AnsweredAs asked found result }
{
    let project = Project {
        marks: workspace.marks(),
        view: workspace.view(),
    };
    match question {
        Question::Run { class, steps } => printed(alloc, &project, class, steps),
        Question::References { file, at } => {
            reported(alloc, &project, Report::References, file, at)
        }
        Question::Subtypes { file, at } => reported(alloc, &project, Report::Subtypes, file, at),
        Question::Callers { file, at } => reported(alloc, &project, Report::Callers, file, at),
    }
}

/// What is shown of files that compile, or why nothing is.
pub fn show(alloc: Global, files: &Files, question: Question<'_>) -> Result<Text, ShowFault>
    ensures { (asked : Option Command) → IsQuestionOf asked question.entry → ShownAs asked files.now result }
{
    match open_files(alloc, files) {
        Ok(workspace) => match answered(alloc, &workspace, question) {
            Ok(text) => Ok(text),
            Err(Unanswered::Bad(reason)) => Err(ShowFault::Bad(reason)),
            Err(Unanswered::OutOfMemory) => Err(ShowFault::OutOfMemory),
        },
        Err(fault) => Err(ShowFault::Front(fault)),
    }
}
