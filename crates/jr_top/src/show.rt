// What is shown of files that compile.
ghost use Rattle.std.specs.Prelude.{◌≡◌, ◌≤◌, ◌↔◌, Option, Some, IsTrue};
ghost use Rattle.jr_store.specs.Image.{Image, LeavesOnly};
ghost use Rattle.jr_top.specs.Checking.{IsReading, Showed, Checks};
ghost use Rattle.jr_top.specs.Showing.{IsQuestionOf};

use crate::check::{Verdict, check, paths_of, plainly, refusal};
use crate::engine::reason_number;
use crate::show_fault::ShowFault;
use crate::showing::{Question, show};
use crate::status::{Phase, Report, Status};
use jr_base::Files;
use jr_gather::{Gathered, gather};
use jr_request::Command;
use jr_store::{Store, StoreError};
use std::alloc::Global;

/// Whether the command reads the files and leaves them.
pub fn is_reading(command: &Command) -> bool
    ensures { IsTrue result ↔ IsReading command.now }
{
    match command {
        Command::Check => true,
        Command::Run { .. } => true,
        Command::Refs { .. } => true,
        Command::Subtypes { .. } => true,
        Command::Callers { .. } => true,
        _ => false,
    }
}

// What is shown of the files.
fn shown(alloc: Global, found: &Files, question: Question<'_>) -> Verdict
    ensures { (asked : Option Command) → IsQuestionOf asked question.entry → Showed asked found.now result.paths.items result.status }
{
    match show(alloc, found, question) {
        Ok(text) => plainly(alloc, Status::Done(Report::Printed(text))),
        Err(ShowFault::Front(fault)) => match paths_of(alloc, found.entries()) {
            Ok(paths) => Verdict {
                status: refusal(fault),
                paths,
            },
            Err(_) => plainly(alloc, Status::OutOfMemory),
        },
        Err(ShowFault::Bad(reason)) => plainly(
            alloc,
            Status::BadRequest {
                request: 0,
                reason: reason_number(reason),
                field: None,
            },
        ),
        Err(ShowFault::OutOfMemory) => plainly(alloc, Status::OutOfMemory),
    }
}

// Shows what is asked of the files of the store.
fn show_all<S: Store>(alloc: Global, question: Question<'_>, store: &mut S) -> Verdict
    ensures answer { (asked : Option Command) → IsQuestionOf asked question.entry → Checks asked (S.files store.old) result.paths.items (S.faults store.old) (S.faults store.new) result.status }
    ensures files { S.files store.new ≡ S.files store.old }
    ensures later { S.faults store.old ≤ S.faults store.new }
    ensures crash { (c : Image) → S.may_leave store.new c → S.may_leave store.old c }
    ensures any_moment { LeavesOnly S.moment S.left_since store.old store.new (S.may_leave store.old) }
{
    match gather(alloc, store) {
        Ok(Gathered::Files(found)) => shown(alloc, &found, question),
        Ok(Gathered::TooLarge(what)) => plainly(alloc, Status::TooLarge { what, request: 0 }),
        Err(StoreError::Failed) => plainly(
            alloc,
            Status::StoreFault {
                phase: Phase::Reading,
            },
        ),
        Err(StoreError::OutOfMemory) => plainly(alloc, Status::OutOfMemory),
    }
}

/// What a command says that reads the files and leaves them.
pub fn read_files<S: Store>(alloc: Global, command: &Command, store: &mut S) -> Verdict
    ensures answer { IsReading command.now → Checks (Some command.now) (S.files store.old) result.paths.items (S.faults store.old) (S.faults store.new) result.status }
    ensures files { S.files store.new ≡ S.files store.old }
    ensures later { S.faults store.old ≤ S.faults store.new }
    ensures crash { (c : Image) → S.may_leave store.new c → S.may_leave store.old c }
    ensures any_moment { LeavesOnly S.moment S.left_since store.old store.new (S.may_leave store.old) }
{
    match command {
        Command::Check => check(alloc, store),
        Command::Run { class, steps } => {
            let class = class.bytes();
            show_all(
                alloc,
                Question::Run {
                    class,
                    steps: *steps,
                },
                store,
            )
        }
        Command::Refs { file, at } => {
            let file = file.bytes();
            show_all(alloc, Question::References { file, at: *at }, store)
        }
        Command::Subtypes { file, at } => {
            let file = file.bytes();
            show_all(alloc, Question::Subtypes { file, at: *at }, store)
        }
        Command::Callers { file, at } => {
            let file = file.bytes();
            show_all(alloc, Question::Callers { file, at: *at }, store)
        }
        _ => plainly(alloc, Status::OutOfMemory),
    }
}
