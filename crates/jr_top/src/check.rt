// The answer to `check`.
ghost use Rattle.std.specs.Prelude.{◌≡◌, ◌≤◌, [], Some, IfOk, Result, map, Vec};
ghost use Rattle.jr_front.specs.declared.fault.FrontFault.TheVariants as front;
ghost use Rattle.jr_base.specs.Files.{plain};
ghost use Rattle.jr_request.specs.declared.command.Command.TheVariants.{Check};
ghost use Rattle.jr_store.specs.Image.{Image, LeavesOnly};
ghost use Rattle.jr_top.specs.Checking.{Fronted, Checks, status_of};

use crate::status::{NotCompiling, Phase, Report, Status};
use jr_base::{CuId, Files, OutOfMemory, Path, Place};
use jr_front::{FrontFault, check_files};
use jr_gather::{Gathered, gather};
use jr_lex::LexFault;
use jr_parse::ParseFault;
use jr_store::{Store, StoreError};
use std::alloc::Global;

/// What is answered, and the paths of the units from 2 on that the line may name.
#[derive(Drop)]
pub struct Verdict {
    pub status: Status,
    pub paths: Vec<Path>,
}

/// The paths of the files.
pub fn paths_of(alloc: Global, found: &[(Path, Vec<u8>)]) -> Result<Vec<Path>, OutOfMemory>
    ensures { IfOk result (λ paths. paths.items ≡ map (λ e. e.0) (plain found.now)) }
{
    let mut paths = Vec::new(alloc);
    let mut rest = found;
    while let [(path, _), after @ ..] = rest {
        paths.push(path.copy(alloc)?)?;
        rest = after;
    }
    Ok(paths)
}

fn not_lexed(cu: CuId, fault: LexFault) -> Status
    ensures { result ≡ status_of (front.Lex cu fault) }
{
    let (kind, at) = match fault {
        LexFault::BadByte(at) => (1, at),
        LexFault::OpenComment(at) => (2, at),
        LexFault::OpenLiteral(at) => (3, at),
        LexFault::BadEscape(at) => (4, at),
        LexFault::BadNumber(at) => (5, at),
        LexFault::NotUtf8(at) => (6, at),
        LexFault::OutOfMemory => return Status::OutOfMemory,
    };
    Status::NotCompiling(NotCompiling::Lex {
        kind,
        place: Place { cu, at },
    })
}

fn not_parsed(fault: ParseFault, place: Place) -> Status
    ensures { result ≡ status_of (front.Parse fault place) }
{
    match fault {
        ParseFault::NoTree(_) => Status::NotCompiling(NotCompiling::Parse { kind: 1, place }),
        ParseFault::TooDeep(_) => Status::NotCompiling(NotCompiling::Parse { kind: 2, place }),
        ParseFault::OutOfMemory => Status::OutOfMemory,
    }
}

/// The answer to files that do not compile.
pub fn refusal(fault: FrontFault) -> Status
    ensures { result ≡ status_of fault }
{
    match fault {
        FrontFault::TooLarge(what) => Status::TooLarge { what, request: 0 },
        FrontFault::Lex { cu, fault } => not_lexed(cu, fault),
        FrontFault::Parse { fault, place } => not_parsed(fault, place),
        FrontFault::PathMismatch(cu) => Status::NotCompiling(NotCompiling::PathMismatch(cu)),
        FrontFault::Duplicate(place) => Status::NotCompiling(NotCompiling::Duplicate(place)),
        FrontFault::Cycle(place) => Status::NotCompiling(NotCompiling::Cycle(place)),
        FrontFault::Unbound(place) => Status::NotCompiling(NotCompiling::Unbound(place)),
        FrontFault::Broken(rule, place) => Status::NotCompiling(NotCompiling::Rule(rule, place)),
        FrontFault::OutOfMemory => Status::OutOfMemory,
    }
}

/// What is answered without paths.
pub fn plainly(alloc: Global, status: Status) -> Verdict
    ensures status { result.status ≡ status }
    ensures paths { result.paths.items ≡ [] }
{
    Verdict {
        status,
        paths: Vec::new(alloc),
    }
}

// What the front says of the files.
fn judge(alloc: Global, found: &Files) -> Verdict
    ensures { Fronted found.now result.paths.items result.status }
{
    match check_files(alloc, found) {
        Ok(()) => match u32::try_from(found.len()) {
            Ok(count) => plainly(alloc, Status::Done(Report::Checked(count))),
            Err(_) => plainly(alloc, Status::OutOfMemory),
        },
        Err(fault) => match paths_of(alloc, found.entries()) {
            Ok(paths) => Verdict {
                status: refusal(fault),
                paths,
            },
            Err(_) => plainly(alloc, Status::OutOfMemory),
        },
    }
}

/// Says whether the files compile, and if not, why and where.
pub fn check<S: Store>(alloc: Global, store: &mut S) -> Verdict
    ensures answer { Checks (Some Check) (S.files store.old) result.paths.items (S.faults store.old) (S.faults store.new) result.status }
    ensures files { S.files store.new ≡ S.files store.old }
    ensures later { S.faults store.old ≤ S.faults store.new }
    ensures crash { (c : Image) → S.may_leave store.new c → S.may_leave store.old c }
    ensures any_moment { LeavesOnly S.moment S.left_since store.old store.new (S.may_leave store.old) }
{
    match gather(alloc, store) {
        Ok(Gathered::Files(found)) => judge(alloc, &found),
        Ok(Gathered::TooLarge(what)) => plainly(alloc, Status::TooLarge { what, request: 0 }),
        Err(StoreError::Failed) => plainly(
            alloc,
            Status::StoreFault {
                phase: Phase::Reading,
            },
        ),
        Err(StoreError::OutOfMemory) => plainly(alloc, Status::OutOfMemory),
    }
}
