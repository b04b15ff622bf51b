// What requests leave of files.

ghost use Rattle.std.specs.Prelude.{◌≡◌, List, IfOk, IfErr, Ok, [], ◌∷◌};
ghost use Rattle.jr_base.specs.declared.request.Request.{Request};
ghost use Rattle.jr_engine.specs.Planning.{PlannedAs, RefusedAs};
ghost use Rattle.jr_engine.specs.Refusing.{IsCausedBy, IsRefusedFrom, IsToldNumber, IsZeroOfFiles};
ghost use Rattle.jr_engine.specs.Steps.{IsHeld, IsStep, AreSteps, opened_by};

use crate::fault::Refused;
use crate::left::Left;
use crate::step::{left_behind, no_memory, refused_found};
use jr_base::{Files, Request};
use jr_front::open_files;
use std::alloc::Global;

// Equal files of their own.
fn copied(alloc: Global, files: &Files) -> Result<Files, Refused>
    ensures ok { IfOk result (λ copy. copy ≡ files.now) }
    ensures err { (requests : List Request) → IfErr result (λ refused. RefusedAs files.now requests refused.request refused.fault) }
    ensures number { IfErr result (λ refused. refused.request ≡ 0) }
    ensures zero { IfErr result IsZeroOfFiles }
{
    match files.copy(alloc) {
        Ok(files) => Ok(files),
        Err(_) => Err(no_memory(alloc, 0)),
    }
}

// The files found with their program. A front that accepts a path without `.java` is answered for want of memory.
#[tactic(auto, using(crate::proofs::Stepping::read_so, crate::proofs::Stepping::read_copy))]
fn opened(alloc: Global, files: &Files) -> Result<Left, Refused>
    ensures same { IfOk result (λ found. found.files ≡ files.now) }
    ensures held { IfOk result IsHeld }
    ensures err { (requests : List Request) → IfErr result (λ refused. RefusedAs files.now requests refused.request refused.fault) }
    ensures number { IfErr result (λ refused. refused.request ≡ 0) }
    ensures zero { IfErr result IsZeroOfFiles }
{
    let copy = copied(alloc, files)?;
    match open_files(alloc, files) {
        Ok(program) => match Left::of(copy, program) {
            Some(found) => Ok(found),
            None => Err(no_memory(alloc, 0)),
        },
        Err(fault) => Err(refused_found(alloc, files, fault)),
    }
}

// What the request of this number leaves of what is there.
#[tactic(auto, using(crate::proofs::Stepping::held_bound, crate::proofs::Stepping::held_indexed))]
fn next(alloc: Global, now: Left, request: &Request, number: u32) -> Result<Left, Refused>
    requires { IsHeld now }
    ensures held { IfOk result IsHeld }
    ensures step { IfOk result (λ left. IsStep (opened_by now) request.now (opened_by left)) }
    ensures err { IfErr result (λ refused. IsCausedBy now.program request.now refused.fault) }
    ensures number { IfErr result (λ refused. IsToldNumber number refused.fault refused.request) }
{
    match left_behind(alloc, &now.program, request, number)? {
        Some(left) => Ok(left),
        None => Ok(now),
    }
}

// What requests leave of what is there.
#[tactic(auto, using(crate::proofs::Stepping::at_first))]
fn left_by_all(alloc: Global, found: Left, requests: &[Request]) -> Result<Left, Refused>
    requires { IsHeld found }
    ensures held { IfOk result IsHeld }
    ensures steps { IfOk result (λ left. AreSteps (opened_by found) requests.now (opened_by left)) }
    ensures err { IfErr result (λ refused. IsRefusedFrom (opened_by found) requests.now refused.request refused.fault) }
    ensures zero { IfErr result IsZeroOfFiles }
{
    let mut now = found;
    let mut rest = requests;
    let mut number: u32 = 0;
    while let Some((request, after)) = rest.split_first() {
        number = number.saturating_add(1);
        now = next(alloc, now, request, number)?;
        rest = after;
    }
    Ok(now)
}

/// The files that a request leaves. Where it changes nothing they are those found.
pub fn plan(alloc: Global, files: &Files, request: &Request) -> Result<Files, Refused>
    ensures planned { PlannedAs files.now (request.now ∷ []) result }
    ensures number { IfErr result (λ refused. refused.request ≡ 0) }
{
    let found = opened(alloc, files)?;
    match next(alloc, found, request, 0) {
        Ok(left) => Ok(left.files),
        Err(refused) => Err(refused),
    }
}

/// The files that requests leave, each asked of what the one before has left. They are counted from 1.
pub fn plan_all(alloc: Global, files: &Files, requests: &[Request]) -> Result<Files, Refused>
    ensures planned { PlannedAs files.now requests.now result }
    ensures zero { IfErr result IsZeroOfFiles }
{
    let found = opened(alloc, files)?;
    match left_by_all(alloc, found, requests) {
        Ok(left) => Ok(left.files),
        Err(refused) => Err(refused),
    }
}
