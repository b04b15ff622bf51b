// The top call: from the words, the store and the output to the answer.
ghost use Rattle.std.specs.Prelude.{◌≡◌, ◌≢◌, ◌⊎◌, ◌↔◌, [], ℕ, List, Some, None, Err, OnOk, IsSome, MatchOption};
ghost use Rattle.jr_request.specs.Input.{IsInputAnswer, LeavesSome};
ghost use Rattle.jr_request.specs.declared.input_fault.BatchFault.{BatchFault};
ghost use Rattle.jr_commit.specs.Planned.{StartsCommit, ChangesOnlyPlanned};
ghost use Rattle.jr_commit.specs.Restoring.{Restored, RestoresTo, StartsRecover, MayBegin};
ghost use Rattle.jr_commit.specs.SidesAt.{with_sides};
ghost use Rattle.jr_request.specs.Words.{command_of};
ghost use Rattle.jr_store.specs.Image.{Image, Tells, OnlyTold, LeavesOnly, HasCause};
ghost use Rattle.jr_thin.specs.Renaming.{Serves, IsRenaming};
ghost use Rattle.jr_thin.specs.declared.answers.Renaming.{Renaming};
ghost use Rattle.jr_top.specs.Answers.{AnswersFound, Answers, Reports, IsReported, reported, Outcome, OutcomeOf, IsFailure, IsDemonstrated, IsServedAnswer};
ghost use Rattle.jr_top.specs.Batches.{AsksBatch, Hears, IsHeard, AnswersBatch, status_of, IsBatchFailure};
ghost use Rattle.jr_top.specs.Calls.{IsAnswerTo};
ghost use Rattle.jr_top.specs.Checking.{IsReading, AsksReading, Checks, AnswersReading, IsCheckedSo};
ghost use Rattle.jr_top.specs.Crash.{StandsForEither, Survives, IsSettled, SurvivesSettled, LeavesStart};
ghost use Rattle.jr_top.specs.Decisions.{IsChanging};
ghost use Rattle.jr_top.specs.Engine.{AsksOne, AsksAll, PlansAsked, AnswersPlanned};
ghost use Rattle.jr_top.specs.Exact.{IsAnswered};
ghost use Rattle.jr_top.specs.Line.{line_of};
ghost use Rattle.jr_top.specs.Recovering.{AsksRecovery, NeedsFiles};
ghost use Rattle.jr_top.specs.Renaming.{AsksRename, Holds};
ghost use Rattle.jr_top.specs.Performing.{IsTaken, Commits, Reported, ReportedOf};
ghost use Rattle.jr_top.specs.Undoing.{AsksUndo, Undoes, AnswersUndo, IsUndoAnswer};
ghost use Rattle.jr_top.specs.declared.status.Status.{Status};
ghost use Rattle.jr_top.specs.declared.status.Status.TheVariants.{BadJournal, BadWords};

use crate::check::Verdict;
use crate::decide::{Decision, decide};
use crate::demo_fault::DemoFault;
use crate::lines::line_of;
use crate::refactoring::demo;
use crate::show::{is_reading, read_files};
use crate::status::{Phase, Report, Status};
use crate::undo::refusal;
use jr_base::{CuId, Path, Place, Text};
use jr_commit::{Plan, RecoverFault, commit, plan_undo, recover};
use jr_request::{Command, RequestFault, read_words};
use jr_store::{Failed, Sink, Source, Store};
use std::alloc::Global;

// Writes a line, and says what is to be answered then.
fn write_line<O: Sink>(status: Status, line: &[u8], out: &mut O) -> Status
    ensures { Reports status line.now result (O.contents out.old) (O.contents out.new) (O.faults out.old) (O.faults out.new) }
{
    match out.write(line) {
        Ok(()) => status,
        Err(_) => Status::SinkFault,
    }
}

// Reports an answer that leaves the files.
fn report<O: Sink>(alloc: Global, status: Status, paths: &[Path], out: &mut O) -> Status
    ensures { IsReported status paths.now result (O.contents out.old) (O.contents out.new) (O.faults out.old) (O.faults out.new) }
{
    match line_of(alloc, paths, &status) {
        Ok(line) => write_line(status, &line, out),
        Err(_) => write_line(Status::OutOfMemory, b"out of memory\n", out),
    }
}

// Takes the steps of a plan.
fn take_all<S: Store>(store: &mut S, plan: &Plan) -> Result<(), Failed>
    ensures taken { OnOk result (Tells (S.files store.old) (S.files store.new) (IsTaken plan.now)) }
    ensures changes { Tells (S.files store.old) (S.files store.new) (ChangesOnlyPlanned plan.now) }
    ensures durable { OnOk result (plan.now.steps ≢ [] → OnlyTold (S.files store.new) (S.may_leave store.new)) }
    ensures next { OnOk result (MayBegin (S.files store.old) (S.may_leave store.old) → MayBegin (S.files store.new) (S.may_leave store.new)) }
    ensures any_moment { (f : Image) → S.files store.old ≡ Some f → StartsCommit f (S.may_leave store.old) plan.now →
        LeavesOnly S.moment S.left_since store.old store.new (λ c. RestoresTo c f ⊎ RestoresTo c (with_sides plan.now.steps f)) }
    ensures cause { HasCause (S.faults store.old) (S.faults store.new) result }
{
    commit(store, plan)?;
    Ok(())
}

// Takes the steps of a plan, and reports. The line is made before the first write, since nothing after it may want
// memory.
fn change<S: Store, O: Sink>(alloc: Global, plan: &Plan, store: &mut S, out: &mut O) -> Status
    ensures answer { (status : Status) × Commits plan.now (S.files store.old) (S.files store.new) (S.may_leave store.old) (S.may_leave store.new) (S.faults store.old) (S.faults store.new) status
        × Reports status (line_of [] status) result (O.contents out.old) (O.contents out.new) (O.faults out.old) (O.faults out.new) }
    ensures next { MayBegin (S.files store.old) (S.may_leave store.old) → LeavesStart (S.faults store.old) (S.faults store.new) (MayBegin (S.files store.new) (S.may_leave store.new)) result }
    ensures any_moment { (f : Image) → S.files store.old ≡ Some f → StartsCommit f (S.may_leave store.old) plan.now →
        LeavesOnly S.moment S.left_since store.old store.new (λ c. RestoresTo c f ⊎ RestoresTo c (with_sides plan.now.steps f)) }
{
    let done = Status::Done(Report::Changed(plan.count()));
    let Ok(line) = line_of(alloc, &[], &done) else {
        return write_line(Status::OutOfMemory, b"out of memory\n", out);
    };
    match take_all(store, plan) {
        Ok(()) => write_line(done, &line, out),
        Err(_) => write_line(
            Status::StoreFault {
                phase: Phase::Writing,
            },
            b"store fault: writing\n",
            out,
        ),
    }
}

// Does what a command asks for that changes files, on the files found.
fn obey<S: Store, I: Source, O: Sink>(
    alloc: Global,
    command: &Command,
    store: &mut S,
    input: &mut I,
    out: &mut O,
) -> Status
    requires { IsChanging command.now }
    ensures answer { (words : List (List ℕ)) → command_of words ≡ Some command.now → (command.now ≡ Command.Batch → ⊥) →
        Reported words (λ status. AnswersFound words (S.files store.old) (S.files store.new) (S.may_leave store.new) (S.faults store.old) (S.faults store.new) status
        × SurvivesSettled words (S.files store.old) (S.may_leave store.old) (S.may_leave store.new) status) result (O.contents out.old) (O.contents out.new) (O.faults out.old) (O.faults out.new)
        ⊎ ((paths : List (List ℕ)) × ReportedOf (line_of paths) (λ status. PlansAsked (AsksOne words) paths (S.files store.old) (S.files store.new) (S.may_leave store.new) (S.faults store.old) (S.faults store.new) status
        × SurvivesSettled words (S.files store.old) (S.may_leave store.old) (S.may_leave store.new) status) result (O.contents out.old) (O.contents out.new) (O.faults out.old) (O.faults out.new)) }
    ensures batch { (words : List (List ℕ)) → AsksBatch words → command.now ≡ Command.Batch → IsHeard (S.files store.old) (S.files store.new) (S.may_leave store.old) (S.may_leave store.new) (λ status. Hears (I.left input.old) (I.faults input.old) (I.faults input.new) status
        × IsReported status [] result (O.contents out.old) (O.contents out.new) (O.faults out.old) (O.faults out.new))
        ⊎ ((paths : List (List ℕ)) × ReportedOf (line_of paths) (λ status. PlansAsked (AsksAll words (I.left input.old)) paths (S.files store.old) (S.files store.new) (S.may_leave store.new) (S.faults store.old) (S.faults store.new) status
        × SurvivesSettled words (S.files store.old) (S.may_leave store.old) (S.may_leave store.new) status) result (O.contents out.old) (O.contents out.new) (O.faults out.old) (O.faults out.new)) }
    ensures next { MayBegin (S.files store.old) (S.may_leave store.old) → LeavesStart (S.faults store.old) (S.faults store.new) (MayBegin (S.files store.new) (S.may_leave store.new)) result }
    ensures any_moment { (words : List (List ℕ)) (f r : Image) → command_of words ≡ Some command.now → S.files store.old ≡ Some f → IsSettled f r (S.may_leave store.old) →
        LeavesOnly S.moment S.left_since store.old store.new (StandsForEither words r) }
    ensures unread { (command.now ≡ Command.Batch → ⊥) → input.new ≡ input.old }
    ensures taken { (bytes : List ℕ) → I.left input.old ≡ Some bytes → LeavesSome bytes (I.left input.new) }
{
    match decide(alloc, command, store, input) {
        Decision::Answer(status) => report(alloc, status, &[], out),
        Decision::Refuse { status, paths } => report(alloc, status, &paths, out),
        Decision::Change(plan) => change(alloc, &plan, store, out),
    }
}

// Takes the last change back.
fn take_back<S: Store, O: Sink>(alloc: Global, store: &mut S, out: &mut O) -> Status
    ensures answer { (words : List (List ℕ)) → AsksUndo words →
        Reported words (λ status. Undoes (S.files store.old) (S.files store.new) (S.may_leave store.new) (S.faults store.old) (S.faults store.new) status
        × SurvivesSettled words (S.files store.old) (S.may_leave store.old) (S.may_leave store.new) status) result (O.contents out.old) (O.contents out.new) (O.faults out.old) (O.faults out.new) }
    ensures next { MayBegin (S.files store.old) (S.may_leave store.old) → LeavesStart (S.faults store.old) (S.faults store.new) (MayBegin (S.files store.new) (S.may_leave store.new)) result }
    ensures any_moment { (words : List (List ℕ)) (f r : Image) → AsksUndo words → S.files store.old ≡ Some f → IsSettled f r (S.may_leave store.old) →
        LeavesOnly S.moment S.left_since store.old store.new (StandsForEither words r) }
{
    match plan_undo(alloc, store) {
        Ok(plan) => change(alloc, &plan, store, out),
        Err(fault) => report(alloc, refusal(fault), &[], out),
    }
}

// Reads the files and leaves them, takes the last change back, or does what another command asks for, on the files found.
fn serve<S: Store, I: Source, O: Sink>(
    alloc: Global,
    command: &Command,
    store: &mut S,
    input: &mut I,
    out: &mut O,
) -> Status
    requires { NeedsFiles command.now }
    ensures answer { (words : List (List ℕ)) → command_of words ≡ Some command.now → (command.now ≡ Command.Batch → ⊥) → (IsReading command.now → ⊥) → (command.now ≡ Command.Undo → ⊥) →
        Reported words (λ status. AnswersFound words (S.files store.old) (S.files store.new) (S.may_leave store.new) (S.faults store.old) (S.faults store.new) status
        × SurvivesSettled words (S.files store.old) (S.may_leave store.old) (S.may_leave store.new) status) result (O.contents out.old) (O.contents out.new) (O.faults out.old) (O.faults out.new)
        ⊎ ((paths : List (List ℕ)) × ReportedOf (line_of paths) (λ status. PlansAsked (AsksOne words) paths (S.files store.old) (S.files store.new) (S.may_leave store.new) (S.faults store.old) (S.faults store.new) status
        × SurvivesSettled words (S.files store.old) (S.may_leave store.old) (S.may_leave store.new) status) result (O.contents out.old) (O.contents out.new) (O.faults out.old) (O.faults out.new)) }
    ensures batch { (words : List (List ℕ)) → AsksBatch words → command.now ≡ Command.Batch → IsHeard (S.files store.old) (S.files store.new) (S.may_leave store.old) (S.may_leave store.new) (λ status. Hears (I.left input.old) (I.faults input.old) (I.faults input.new) status
        × IsReported status [] result (O.contents out.old) (O.contents out.new) (O.faults out.old) (O.faults out.new))
        ⊎ ((paths : List (List ℕ)) × ReportedOf (line_of paths) (λ status. PlansAsked (AsksAll words (I.left input.old)) paths (S.files store.old) (S.files store.new) (S.may_leave store.new) (S.faults store.old) (S.faults store.new) status
        × SurvivesSettled words (S.files store.old) (S.may_leave store.old) (S.may_leave store.new) status) result (O.contents out.old) (O.contents out.new) (O.faults out.old) (O.faults out.new)) }
    ensures reading { IsReading command.now → (paths : List (List ℕ)) × (status : Status) × Checks (Some command.now) (S.files store.old) paths (S.faults store.old) (S.faults store.new) status
        × IsReported status paths result (O.contents out.old) (O.contents out.new) (O.faults out.old) (O.faults out.new) }
    ensures undo { (words : List (List ℕ)) → AsksUndo words → command.now ≡ Command.Undo →
        Reported words (λ status. Undoes (S.files store.old) (S.files store.new) (S.may_leave store.new) (S.faults store.old) (S.faults store.new) status
        × SurvivesSettled words (S.files store.old) (S.may_leave store.old) (S.may_leave store.new) status) result (O.contents out.old) (O.contents out.new) (O.faults out.old) (O.faults out.new) }
    ensures reading_files { IsReading command.now → S.files store.new ≡ S.files store.old }
    ensures reading_crash { IsReading command.now → (c : Image) → S.may_leave store.new c → S.may_leave store.old c }
    ensures next { MayBegin (S.files store.old) (S.may_leave store.old) → LeavesStart (S.faults store.old) (S.faults store.new) (MayBegin (S.files store.new) (S.may_leave store.new)) result }
    ensures any_moment { (words : List (List ℕ)) (f r : Image) → command_of words ≡ Some command.now → S.files store.old ≡ Some f → IsSettled f r (S.may_leave store.old) →
        LeavesOnly S.moment S.left_since store.old store.new (StandsForEither words r) }
    ensures unread { (command.now ≡ Command.Batch → ⊥) → input.new ≡ input.old }
    ensures taken { (bytes : List ℕ) → I.left input.old ≡ Some bytes → LeavesSome bytes (I.left input.new) }
{
    if is_reading(command) {
        let Verdict { status, paths } = read_files(alloc, command, store);
        return report(alloc, status, &paths, out);
    }
    match command {
        Command::Undo => take_back(alloc, store, out),
        _ => obey(alloc, command, store, input, out),
    }
}

// How many classes a demonstration makes; None of a command that needs the files.
fn count_of(command: &Command) -> Option<u32>
    ensures { MatchOption result (NeedsFiles command.now) (λ count. NeedsFiles command.now → ⊥) }
{
    match command {
        Command::Demo(count) => Some(*count),
        _ => None,
    }
}

// What a demonstration says.
fn demonstrated(alloc: Global, count: u32) -> Status
    ensures { IsDemonstrated result }
{
    match demo(alloc, count) {
        Ok(text) => Status::Done(Report::Printed(text)),
        Err(DemoFault::Refused) => Status::Differs {
            request: 0,
            place: Place { cu: CuId(0), at: 0 },
        },
        Err(DemoFault::OutOfMemory) => Status::OutOfMemory,
    }
}

// Shows what the engine makes of a workspace of so many classes in memory.
fn demonstrate<O: Sink>(alloc: Global, count: u32, out: &mut O) -> Status
    ensures { (status : Status) × IsDemonstrated status × IsReported status [] result (O.contents out.old) (O.contents out.new) (O.faults out.old) (O.faults out.new) }
{
    report(alloc, demonstrated(alloc, count), &[], out)
}

// Puts back what an earlier run left half done, and does what a command asks for.
fn recover_first<S: Store, I: Source, O: Sink>(
    alloc: Global,
    command: &Command,
    store: &mut S,
    input: &mut I,
    out: &mut O,
) -> Status
    requires { NeedsFiles command.now }
    ensures answer { (words : List (List ℕ)) → command_of words ≡ Some command.now → (command.now ≡ Command.Batch → ⊥) → (IsReading command.now → ⊥) → (command.now ≡ Command.Undo → ⊥) →
        Reported words (λ status. Answers words (S.files store.old) (S.files store.new) (S.may_leave store.new) (S.faults store.old) (S.faults store.new) status
        × Survives words (S.files store.old) (S.may_leave store.old) (S.may_leave store.new) status) result (O.contents out.old) (O.contents out.new) (O.faults out.old) (O.faults out.new)
        ⊎ ((paths : List (List ℕ)) × ReportedOf (line_of paths) (λ status. AnswersPlanned words (AsksOne words) paths (S.files store.old) (S.files store.new) (S.may_leave store.new) (S.faults store.old) (S.faults store.new) status
        × Survives words (S.files store.old) (S.may_leave store.old) (S.may_leave store.new) status) result (O.contents out.old) (O.contents out.new) (O.faults out.old) (O.faults out.new)) }
    ensures batch { (words : List (List ℕ)) → AsksBatch words → command.now ≡ Command.Batch →
        Reported words (λ status. AnswersBatch words (S.files store.old) (S.files store.new) (S.may_leave store.new) (S.faults store.old) (S.faults store.new) (I.left input.old) (I.faults input.old) (I.faults input.new) status
        × Survives words (S.files store.old) (S.may_leave store.old) (S.may_leave store.new) status) result (O.contents out.old) (O.contents out.new) (O.faults out.old) (O.faults out.new)
        ⊎ ((paths : List (List ℕ)) × ReportedOf (line_of paths) (λ status. AnswersPlanned words (AsksAll words (I.left input.old)) paths (S.files store.old) (S.files store.new) (S.may_leave store.new) (S.faults store.old) (S.faults store.new) status
        × Survives words (S.files store.old) (S.may_leave store.old) (S.may_leave store.new) status) result (O.contents out.old) (O.contents out.new) (O.faults out.old) (O.faults out.new)) }
    ensures reading { (words : List (List ℕ)) → AsksReading words → command_of words ≡ Some command.now → IsReading command.now →
        (paths : List (List ℕ)) × ReportedOf (line_of paths) (λ status. AnswersReading words paths (S.files store.old) (S.files store.new) (S.may_leave store.new) (S.faults store.old) (S.faults store.new) status
        × Survives words (S.files store.old) (S.may_leave store.old) (S.may_leave store.new) status) result (O.contents out.old) (O.contents out.new) (O.faults out.old) (O.faults out.new) }
    ensures undo { (words : List (List ℕ)) → AsksUndo words → command.now ≡ Command.Undo →
        Reported words (λ status. AnswersUndo words (S.files store.old) (S.files store.new) (S.may_leave store.new) (S.faults store.old) (S.faults store.new) status
        × Survives words (S.files store.old) (S.may_leave store.old) (S.may_leave store.new) status) result (O.contents out.old) (O.contents out.new) (O.faults out.old) (O.faults out.new) }
    ensures next { MayBegin (S.files store.old) (S.may_leave store.old) → LeavesStart (S.faults store.old) (S.faults store.new) (MayBegin (S.files store.new) (S.may_leave store.new)) result }
    ensures any_moment { (words : List (List ℕ)) (f r : Image) → command_of words ≡ Some command.now → S.files store.old ≡ Some f → Restored f r →
        StartsRecover f (S.may_leave store.old) → LeavesOnly S.moment S.left_since store.old store.new (StandsForEither words r) }
    ensures unread { (command.now ≡ Command.Batch → ⊥) → input.new ≡ input.old }
    ensures taken { (bytes : List ℕ) → I.left input.old ≡ Some bytes → LeavesSome bytes (I.left input.new) }
{
    match recover(alloc, store) {
        Ok(_) => serve(alloc, command, store, input, out),
        Err(RecoverFault::Failed) => write_line(
            Status::StoreFault {
                phase: Phase::Recovering,
            },
            b"store fault: recovering\n",
            out,
        ),
        Err(RecoverFault::BadJournal) => report(alloc, Status::BadJournal, &[], out),
        Err(RecoverFault::OutOfMemory) => report(alloc, Status::OutOfMemory, &[], out),
    }
}

// The status that is answered, and the one that is reported.
fn perform<S: Store, I: Source, O: Sink>(
    alloc: Global,
    words: &[Text],
    store: &mut S,
    input: &mut I,
    out: &mut O,
) -> Status
    ensures answer { (AsksBatch words.now → ⊥) → (AsksReading words.now → ⊥) → (AsksUndo words.now → ⊥) → Reported words.now (λ status. Answers words.now (S.files store.old) (S.files store.new) (S.may_leave store.new) (S.faults store.old) (S.faults store.new) status
        × Survives words.now (S.files store.old) (S.may_leave store.old) (S.may_leave store.new) status) result (O.contents out.old) (O.contents out.new) (O.faults out.old) (O.faults out.new)
        ⊎ ((paths : List (List ℕ)) × ReportedOf (line_of paths) (λ status. AnswersPlanned words.now (AsksOne words.now) paths (S.files store.old) (S.files store.new) (S.may_leave store.new) (S.faults store.old) (S.faults store.new) status
        × Survives words.now (S.files store.old) (S.may_leave store.old) (S.may_leave store.new) status) result (O.contents out.old) (O.contents out.new) (O.faults out.old) (O.faults out.new)) }
    ensures batch { AsksBatch words.now → Reported words.now (λ status. AnswersBatch words.now (S.files store.old) (S.files store.new) (S.may_leave store.new) (S.faults store.old) (S.faults store.new) (I.left input.old) (I.faults input.old) (I.faults input.new) status
        × Survives words.now (S.files store.old) (S.may_leave store.old) (S.may_leave store.new) status) result (O.contents out.old) (O.contents out.new) (O.faults out.old) (O.faults out.new)
        ⊎ ((paths : List (List ℕ)) × ReportedOf (line_of paths) (λ status. AnswersPlanned words.now (AsksAll words.now (I.left input.old)) paths (S.files store.old) (S.files store.new) (S.may_leave store.new) (S.faults store.old) (S.faults store.new) status
        × Survives words.now (S.files store.old) (S.may_leave store.old) (S.may_leave store.new) status) result (O.contents out.old) (O.contents out.new) (O.faults out.old) (O.faults out.new)) }
    ensures reading { AsksReading words.now → (paths : List (List ℕ)) × ReportedOf (line_of paths) (λ status. AnswersReading words.now paths (S.files store.old) (S.files store.new) (S.may_leave store.new) (S.faults store.old) (S.faults store.new) status
        × Survives words.now (S.files store.old) (S.may_leave store.old) (S.may_leave store.new) status) result (O.contents out.old) (O.contents out.new) (O.faults out.old) (O.faults out.new) }
    ensures undo { AsksUndo words.now → Reported words.now (λ status. AnswersUndo words.now (S.files store.old) (S.files store.new) (S.may_leave store.new) (S.faults store.old) (S.faults store.new) status
        × Survives words.now (S.files store.old) (S.may_leave store.old) (S.may_leave store.new) status) result (O.contents out.old) (O.contents out.new) (O.faults out.old) (O.faults out.new) }
    ensures next { MayBegin (S.files store.old) (S.may_leave store.old) → LeavesStart (S.faults store.old) (S.faults store.new) (MayBegin (S.files store.new) (S.may_leave store.new)) result }
    ensures any_moment { (f r : Image) → S.files store.old ≡ Some f → Restored f r → StartsRecover f (S.may_leave store.old) →
        LeavesOnly S.moment S.left_since store.old store.new (StandsForEither words.now r) }
    ensures untouched { (AsksRecovery words.now → ⊥) → store.new ≡ store.old }
    ensures unread { (AsksBatch words.now → ⊥) → input.new ≡ input.old }
    ensures taken { (bytes : List ℕ) → I.left input.old ≡ Some bytes → LeavesSome bytes (I.left input.new) }
{
    let command = match read_words(alloc, words) {
        Ok(command) => command,
        Err(RequestFault::BadWords) => return report(alloc, Status::BadWords, &[], out),
        Err(_) => return report(alloc, Status::OutOfMemory, &[], out),
    };
    if let Some(count) = count_of(&command) {
        return demonstrate(alloc, count, out);
    }
    recover_first(alloc, &command, store, input, out)
}

// Does what the words ask for, told by what they ask for.
fn answered<S: Store, I: Source, O: Sink>(
    alloc: Global,
    words: &[Text],
    store: &mut S,
    input: &mut I,
    out: &mut O,
) -> Status
    // Each answer has its cause, the files left are those that it says, and a crash leaves such files. A rename in a small
    // file that is done is the requested change. Of other requests the files left are those that the engine
    // made of the files found: the front accepts both, and each other path is as it was.
    ensures answer { (AsksBatch words.now → ⊥) → (AsksReading words.now → ⊥) → (AsksUndo words.now → ⊥) → Outcome words.now (λ status. Answers words.now (S.files store.old) (S.files store.new) (S.may_leave store.new) (S.faults store.old) (S.faults store.new) status
        × Survives words.now (S.files store.old) (S.may_leave store.old) (S.may_leave store.new) status) (O.contents out.old) (O.contents out.new) (O.faults out.old) (O.faults out.new) result
        ⊎ ((paths : List (List ℕ)) × OutcomeOf (line_of paths) (λ status. AnswersPlanned words.now (AsksOne words.now) paths (S.files store.old) (S.files store.new) (S.may_leave store.new) (S.faults store.old) (S.faults store.new) status
        × Survives words.now (S.files store.old) (S.may_leave store.old) (S.may_leave store.new) status) (O.contents out.old) (O.contents out.new) (O.faults out.old) (O.faults out.new) result) }

    // So has each answer to a batch: what the input comes to, or what the engine makes of its requests.
    ensures batch { AsksBatch words.now → Outcome words.now (λ status. AnswersBatch words.now (S.files store.old) (S.files store.new) (S.may_leave store.new) (S.faults store.old) (S.faults store.new) (I.left input.old) (I.faults input.old) (I.faults input.new) status
        × Survives words.now (S.files store.old) (S.may_leave store.old) (S.may_leave store.new) status) (O.contents out.old) (O.contents out.new) (O.faults out.old) (O.faults out.new) result
        ⊎ ((paths : List (List ℕ)) × OutcomeOf (line_of paths) (λ status. AnswersPlanned words.now (AsksAll words.now (I.left input.old)) paths (S.files store.old) (S.files store.new) (S.may_leave store.new) (S.faults store.old) (S.faults store.new) status
        × Survives words.now (S.files store.old) (S.may_leave store.old) (S.may_leave store.new) status) (O.contents out.old) (O.contents out.new) (O.faults out.old) (O.faults out.new) result) }

    // So has each answer to a check, a run or a report: what the front says of the files found, whose paths its line names, or a text where they compile.
    ensures reading { AsksReading words.now → (paths : List (List ℕ)) × OutcomeOf (line_of paths) (λ status. AnswersReading words.now paths (S.files store.old) (S.files store.new) (S.may_leave store.new) (S.faults store.old) (S.faults store.new) status
        × Survives words.now (S.files store.old) (S.may_leave store.old) (S.may_leave store.new) status) (O.contents out.old) (O.contents out.new) (O.faults out.old) (O.faults out.new) result }

    // So has each answer to an undo: the change of the journal is taken back, or the first reason why not.
    ensures undo { AsksUndo words.now → Outcome words.now (λ status. AnswersUndo words.now (S.files store.old) (S.files store.new) (S.may_leave store.new) (S.faults store.old) (S.faults store.new) status
        × Survives words.now (S.files store.old) (S.may_leave store.old) (S.may_leave store.new) status) (O.contents out.old) (O.contents out.new) (O.faults out.old) (O.faults out.new) result }

    // A rename that is served gets one of the answers to a rename, unless memory runs out or a fault is counted.
    ensures complete { (files found : Image) → S.files store.old ≡ Some files → Restored files found → (file : List ℕ) (at : ℕ) (name bytes : List ℕ)
        → AsksRename words.now file at name → Holds found file bytes → Serves bytes at name → IsServedAnswer (S.faults store.old) (S.faults store.new) (O.faults out.old) (O.faults out.new) result }

    // A rename that is served so gets the one answer that it comes to, and leaves the files so.
    ensures exact { (files found : Image) → S.files store.old ≡ Some files → Restored files found → (file : List ℕ) (at : ℕ) (name bytes : List ℕ) (comes_to : Renaming)
        → AsksRename words.now file at name → Holds found file bytes → Serves bytes at name → IsRenaming bytes at name comes_to
        → IsAnswered found file bytes comes_to (S.files store.new) result ⊎ IsFailure (S.faults store.old) (S.faults store.new) (O.faults out.old) (O.faults out.new) result }

    // A command that needs no files is a demonstration, and says what that gave.
    ensures needs_no_files { IsSome (command_of words.now) → (AsksRecovery words.now → ⊥)
        → IsDemonstrated result ⊎ IsFailure (S.faults store.old) (S.faults store.new) (O.faults out.old) (O.faults out.new) result }

    // Where the gate is open over no journal that can be read, no command goes on.
    ensures bad_journal { (files : Image) → S.files store.old ≡ Some files → ((restored : Image) → Restored files restored → ⊥) → AsksRecovery words.now
        → (result ≡ BadJournal) ⊎ IsFailure (S.faults store.old) (S.faults store.new) (O.faults out.old) (O.faults out.new) result }

    // Words outside the grammar are answered so.
    ensures bad_words { command_of words.now ≡ None
        → (result ≡ BadWords) ⊎ IsFailure (S.faults store.old) (S.faults store.new) (O.faults out.old) (O.faults out.new) result }

    // A batch whose input is refused gets the one answer that this has.
    ensures batch_exact { (files found : Image) (bytes : List ℕ) (why : BatchFault) → S.files store.old ≡ Some files → Restored files found → AsksBatch words.now
        → I.left input.old ≡ Some bytes → IsInputAnswer bytes (Err why)
        → (result ≡ status_of why) ⊎ IsBatchFailure (S.faults store.old) (S.faults store.new) (O.faults out.old) (O.faults out.new) (I.faults input.old) (I.faults input.new) result }

    // A check, a run or a report leaves the files, and gets one of the answers that these have.
    ensures reading_exact { (files found : Image) → S.files store.old ≡ Some files → Restored files found → AsksReading words.now
        → IsCheckedSo (command_of words.now) found (S.files store.new) result ⊎ IsFailure (S.faults store.old) (S.faults store.new) (O.faults out.old) (O.faults out.new) result }

    // An undo gets the one answer that the files and the journal have, and leaves the files so: the change is taken back
    // exactly where it can be.
    ensures undo_exact { (files found : Image) → S.files store.old ≡ Some files → Restored files found → AsksUndo words.now
        → IsUndoAnswer found (S.files store.new) result ⊎ IsFailure (S.faults store.old) (S.faults store.new) (O.faults out.old) (O.faults out.new) result }

    // A crash at any moment of the call leaves an image of the files found or of those of the change.
    ensures any_moment { (f r : Image) → S.files store.old ≡ Some f → Restored f r → StartsRecover f (S.may_leave store.old) →
        LeavesOnly S.moment S.left_since store.old store.new (StandsForEither words.now r) }

    // After any answer but a fault the next call may begin: nothing is pending at the gate, and a crash leaves what recovery
    // can begin with.
    ensures next { MayBegin (S.files store.old) (S.may_leave store.old) → LeavesStart (S.faults store.old) (S.faults store.new) (MayBegin (S.files store.new) (S.may_leave store.new)) result }

    // Without a crash, so do reads, after a fault too.
    ensures read_back { (f r g : Image) → S.files store.old ≡ Some f → Restored f r → StartsRecover f (S.may_leave store.old) → S.files store.new ≡ Some g → StandsForEither words.now r g }

    // Where the words ask for nothing that needs the files, the store is not called.
    ensures untouched { (AsksRecovery words.now → ⊥) → store.new ≡ store.old }

    // The input is read for a batch alone.
    ensures unread { (AsksBatch words.now → ⊥) → input.new ≡ input.old }

    // At most its first 1,048,577 bytes are.
    ensures taken { (bytes : List ℕ) → I.left input.old ≡ Some bytes → LeavesSome bytes (I.left input.new) }
{
    perform(alloc, words, store, input, out)
}

/// Does what the words ask for, and writes one line.
///
/// The first word is the folder, which is not read here. Every command but `demo` begins with recovery. The input of a batch is read after recovery, before the files. Want of
/// memory may be answered at any time before the first write of the commit, unless recovery has begun to write and not ended.
pub fn refactor<S: Store, I: Source, O: Sink>(
    alloc: Global,
    words: &[Text],
    store: &mut S,
    input: &mut I,
    out: &mut O,
) -> Status
    // The answer comes by the equation of the command: it has its cause, the files left are those that it says, and a crash leaves such files. It is the one answer
    // that the files found, the journal and the input have, unless memory runs out or a fault is counted.
    ensures answer { IsAnswerTo (record {
      words = words.now;
      store = record { told = S.files store.old; left = S.files store.new; kept = S.may_leave store.old; outcomes = S.may_leave store.new; before = S.faults store.old; after = S.faults store.new };
      input = record { heard = I.left input.old; before = I.faults input.old; after = I.faults input.new };
      output = record { old = O.contents out.old; new = O.contents out.new; before = O.faults out.old; after = O.faults out.new };
    }) result }

    // A crash at any moment of the call leaves an image of the files found or of those of the change.
    ensures any_moment { (f r : Image) → S.files store.old ≡ Some f → Restored f r → StartsRecover f (S.may_leave store.old) →
        LeavesOnly S.moment S.left_since store.old store.new (StandsForEither words.now r) }

    // After any answer but a fault the next call may begin: nothing is pending at the gate, and a crash leaves what recovery
    // can begin with.
    ensures next { MayBegin (S.files store.old) (S.may_leave store.old) → LeavesStart (S.faults store.old) (S.faults store.new) (MayBegin (S.files store.new) (S.may_leave store.new)) result }

    // Without a crash, so do reads, after a fault too.
    ensures read_back { (f r g : Image) → S.files store.old ≡ Some f → Restored f r → StartsRecover f (S.may_leave store.old) → S.files store.new ≡ Some g → StandsForEither words.now r g }

    // Where the words ask for nothing that needs the files, the store is not called.
    ensures untouched { (AsksRecovery words.now → ⊥) → store.new ≡ store.old }

    // The input is read for a batch alone.
    ensures unread { (AsksBatch words.now → ⊥) → input.new ≡ input.old }

    // At most its first 1,048,577 bytes are.
    ensures taken { (bytes : List ℕ) → I.left input.old ≡ Some bytes → LeavesSome bytes (I.left input.new) }
{
    answered(alloc, words, store, input, out)
}
