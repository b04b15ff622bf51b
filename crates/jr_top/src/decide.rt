// What is to be done, before anything is written.
ghost use Rattle.std.specs.Prelude.{◌≡◌, ◌≢◌, ◌≤◌, ◌∷◌, [], ◌↔◌, ℕ, List, Some, IsTrue, IfOk, IfSome, MatchOption, length, option_map};
ghost use Rattle.std.specs.FinMap as map;
ghost use Rattle.jr_base.specs.Paths.{is_java};
ghost use Rattle.jr_request.specs.Input.{LeavesSome};
ghost use Rattle.jr_store.specs.Image.{Image, HasStoreCause, LeavesOnly};
ghost use Rattle.jr_thin.specs.Renaming.{Serves, IsDone};
ghost use Rattle.jr_top.specs.Changing.{IsPlanOf};
ghost use Rattle.jr_top.specs.Engine.{IsPassedOn};
ghost use Rattle.jr_top.specs.Renaming.{ForTold};
ghost use Rattle.jr_top.specs.Decisions.{IsOnePath, IsShortPath, IsHeld, found_bytes, DecidesFound, DecidesRename, DecidesOne, DecidesInput, IsChanging, Chooses};

use crate::engine::{Asked, decide_all};
use crate::hear::{Heard, hear};
use crate::status::{Phase, Report, Status};
use jr_base::{CuId, Files, OutOfMemory, Path, Place, Request, Size, Text};
use jr_commit::{Plan, journal_fits};
use jr_request::Command;
use jr_rule::Rule;
use jr_store::{Source, Store, StoreError};
use jr_thin::{Renaming, rename};
use std::alloc::Global;

/// What is to be done: an answer that leaves the files, or a change of them. The paths are those of the program's
/// units from 2 on.
#[derive(Drop)]
pub enum Decision {
    /// An answer whose line names no place.
    Answer(Status),
    /// An answer whose line names a place.
    Refuse { status: Status, paths: Vec<Path> },
    Change(Plan),
}

// The one file of a store, and its bytes.
#[derive(Drop)]
pub struct Found {
    pub paths: Vec<Path>,
    pub bytes: Vec<u8>,
}

fn is_just(paths: &[Path], file: &[u8]) -> bool
    ensures { IsTrue result ↔ (paths.now ≡ file.now ∷ []) }
{
    match paths {
        [path] => path.bytes() == file,
        _ => false,
    }
}

// What the file holds; None where it is not the only one, or is large.
fn find<S: Store>(alloc: Global, file: &[u8], store: &mut S) -> Result<Option<Found>, StoreError>
    ensures held { IfOk result (λ found. ForTold (S.files store.old) (λ files. IsHeld files file.now (option_map found_bytes found))) }
    ensures paths { IfOk result (λ found. IfSome found (λ one. IsOnePath one.paths.items file.now)) }
    ensures small { IfOk result (λ found. IfSome found (λ one. length one.bytes.items ≤ 65536)) }
    ensures files { S.files store.new ≡ S.files store.old }
    ensures crash { (c : Image) → S.may_leave store.new c → S.may_leave store.old c }
    ensures any_moment { LeavesOnly S.moment S.left_since store.old store.new (S.may_leave store.old) }
    ensures cause { HasStoreCause (S.faults store.old) (S.faults store.new) result }
{
    let paths = store.list(alloc, 2)?;
    if !is_just(&paths, file) {
        return Ok(None);
    }
    let Some(bytes) = store.read(alloc, &paths[0], 65537)? else {
        return Ok(None);
    };
    if bytes.len() > 65536 {
        return Ok(None);
    }
    Ok(Some(Found { paths, bytes }))
}

// The files of one path.
fn one_file(alloc: Global, path: &Path, bytes: Vec<u8>) -> Result<Files, OutOfMemory>
    ensures { IfOk result (λ files. files ≡ map.insert map.empty path.now bytes.items) }
{
    let mut files = Files::new(alloc);
    files.insert(path.copy(alloc)?, bytes)?;
    Ok(files)
}

// The plan that gives the one file its new bytes.
fn plan_of(alloc: Global, path: &Path, old: Vec<u8>, new: Vec<u8>) -> Result<Plan, OutOfMemory>
    requires java { IsTrue (is_java path.now) }
    requires short { length path.now ≤ 1024 }
    requires small_old { length old.items ≤ 16777216 }
    requires small_new { length new.items ≤ 16777216 }
    requires differ { new.items ≢ old.items }
    ensures { IfOk result (λ plan. IsPlanOf path.now old.items new.items plan) }
{
    let before = one_file(alloc, path, old)?;
    let after = one_file(alloc, path, new)?;
    journal_fits(&before, &after);
    let plan = Plan::new(alloc, &before, &after)?;
    let _journal = &plan.journal;
    Ok(plan)
}

// What new bytes for the file that was found come to.
fn decide_bytes(alloc: Global, found: Found, bytes: Vec<u8>, at: u32, name: &[u8]) -> Decision
    requires path { IsShortPath found.paths.items }
    requires small { length found.bytes.items ≤ 65536 }
    requires done { IsDone found.bytes.items at name.now bytes.items }
    ensures { DecidesFound found at name.now result }
{
    let _ = at;
    let _ = name;
    if bytes.as_slice() == found.bytes.as_slice() {
        return Decision::Answer(Status::Done(Report::Changed(0)));
    }
    if bytes.len() > 1_048_576 {
        return Decision::Answer(Status::TooLarge {
            what: Size::File,
            request: 0,
        });
    }
    let Found { paths, bytes: old } = found;
    match plan_of(alloc, &paths[0], old, bytes) {
        Ok(plan) => Decision::Change(plan),
        Err(_) => Decision::Answer(Status::OutOfMemory),
    }
}

// What the rename of bytes that were found asks for; None where it is not served without the engine.
fn decide_found(alloc: Global, found: Found, at: u32, name: &[u8]) -> Option<Decision>
    requires path { IsShortPath found.paths.items }
    requires small { length found.bytes.items ≤ 65536 }
    ensures { MatchOption result (Serves found.bytes.items at name.now → ⊥) (DecidesFound found at name.now) }
{
    match rename(alloc, &found.bytes, at, name) {
        Ok(Renaming::NotServed) => None,
        Ok(Renaming::NoSpelling { occ, at, lock }) => Some(Decision::Refuse {
            status: Status::NoSpelling {
                request: 0,
                occ,
                place: Place { cu: CuId(2), at },
                lock,
            },
            paths: found.paths,
        }),
        Ok(Renaming::BrokenRule { at }) => Some(Decision::Refuse {
            status: Status::BrokenRule {
                request: 0,
                rule: Rule::LocalNames,
                place: Place { cu: CuId(2), at },
            },
            paths: found.paths,
        }),
        Ok(Renaming::Renamed(bytes)) => Some(decide_bytes(alloc, found, bytes, at, name)),
        Err(_) => Some(Decision::Answer(Status::OutOfMemory)),
    }
}

// What the rename in a store with one small file asks for; None where it is not served without the engine.
fn decide_rename<S: Store>(
    alloc: Global,
    file: &Text,
    at: u32,
    name: &Text,
    store: &mut S,
) -> Option<Decision>
    ensures files { S.files store.new ≡ S.files store.old }
    ensures later { S.faults store.old ≤ S.faults store.new }
    ensures crash { (c : Image) → S.may_leave store.new c → S.may_leave store.old c }
    ensures any_moment { LeavesOnly S.moment S.left_since store.old store.new (S.may_leave store.old) }
    ensures decision { MatchOption result (IsPassedOn (Request.Rename file.now at name.now) (S.files store.old)) (DecidesRename file.now at name.now (S.files store.old) (S.faults store.old) (S.faults store.new)) }
{
    match find(alloc, file.bytes(), store) {
        Ok(Some(found)) if file.bytes().len() <= 1024 => decide_found(
            alloc,
            found,
            at,
            name.bytes(),
        ),
        Ok(Some(_)) => Some(Decision::Answer(Status::TooLarge {
            what: Size::Path,
            request: 0,
        })),
        Ok(None) => None,
        Err(StoreError::Failed) => Some(Decision::Answer(Status::StoreFault {
            phase: Phase::Reading,
        })),
        Err(StoreError::OutOfMemory) => Some(Decision::Answer(Status::OutOfMemory)),
    }
}

// What one request asks for. A rename in a store with one small file is served without the engine, where the names are those of locals and parameters.
fn decide_one<S: Store>(alloc: Global, request: &Request, store: &mut S) -> Decision
    ensures files { S.files store.new ≡ S.files store.old }
    ensures later { S.faults store.old ≤ S.faults store.new }
    ensures crash { (c : Image) → S.may_leave store.new c → S.may_leave store.old c }
    ensures any_moment { LeavesOnly S.moment S.left_since store.old store.new (S.may_leave store.old) }
    ensures decision { DecidesOne request.now (S.files store.old) (S.faults store.old) (S.faults store.new) result }
{
    match request {
        Request::Rename { file, at, name } => match decide_rename(alloc, file, *at, name, store) {
            Some(decision) => decision,
            None => decide_all(alloc, Asked::One(request), store),
        },
        _ => decide_all(alloc, Asked::One(request), store),
    }
}

// What the input asks for.
fn decide_input<S: Store, I: Source>(alloc: Global, store: &mut S, input: &mut I) -> Decision
    ensures files { S.files store.new ≡ S.files store.old }
    ensures later { S.faults store.old ≤ S.faults store.new }
    ensures crash { (c : Image) → S.may_leave store.new c → S.may_leave store.old c }
    ensures any_moment { LeavesOnly S.moment S.left_since store.old store.new (S.may_leave store.old) }
    ensures decision { DecidesInput (I.left input.old) (I.faults input.old) (I.faults input.new) (S.files store.old) (S.faults store.old) (S.faults store.new) result }
    ensures taken { (bytes : List ℕ) → I.left input.old ≡ Some bytes → LeavesSome bytes (I.left input.new) }
{
    match hear(alloc, input) {
        Heard::Requests(requests) => decide_all(alloc, Asked::All(&requests), store),
        Heard::Answer(status) => Decision::Answer(status),
    }
}

/// What a command asks for that changes files: one request, or those of the input. Nothing is written, and the input is read for a batch alone.
pub fn decide<S: Store, I: Source>(
    alloc: Global,
    command: &Command,
    store: &mut S,
    input: &mut I,
) -> Decision
    requires { IsChanging command.now }
    ensures files { S.files store.new ≡ S.files store.old }
    ensures later { S.faults store.old ≤ S.faults store.new }
    ensures crash { (c : Image) → S.may_leave store.new c → S.may_leave store.old c }
    ensures any_moment { LeavesOnly S.moment S.left_since store.old store.new (S.may_leave store.old) }
    ensures decision { Chooses command.now (I.left input.old) (I.faults input.old) (I.faults input.new) (S.files store.old) (S.faults store.old) (S.faults store.new) result }
    ensures unread { (command.now ≡ Command.Batch → ⊥) → input.new ≡ input.old }
    ensures taken { (bytes : List ℕ) → I.left input.old ≡ Some bytes → LeavesSome bytes (I.left input.new) }
{
    match command {
        Command::One(request) => decide_one(alloc, request, store),
        Command::Batch => decide_input(alloc, store, input),
        _ => unreachable!(),
    }
}
