// What requests come to that the engine serves.
ghost use Rattle.std.specs.Prelude.{◌≡◌, ◌≤◌, ◌∷◌, [], IfOk, Ok};
ghost use Rattle.jr_store.specs.Image.{Image, LeavesOnly};
ghost use Rattle.jr_engine.specs.Planning.{IsAccepted, PlannedAs};
ghost use Rattle.jr_top.specs.Decisions.{requests_of, IsPlanFor, DecidesFiles, DecidesAll};
ghost use Rattle.jr_top.specs.Engine.{answer_to, step_answer, kind_of, side_of};
ghost use Rattle.jr_top.specs.Reasons.{reason_number};

use crate::check::refusal;
use crate::decide::Decision;
use crate::status::{Edge, EdgeKind, Phase, Report, Side, Status};
use jr_base::{Files, OutOfMemory, Request};
use jr_change::Reason;
use jr_commit::{Plan, journal_fits};
use jr_engine::{EngineFault, LostKind, Refused, StepFault, plan, plan_all};
use jr_gather::{Gathered, gather};
use jr_store::{Store, StoreError};
use std::alloc::Global;

/// What is asked for: one request, or those of a batch, one after the other.
#[derive(Clone, Copy)]
pub enum Asked<'a> {
    One(&'a Request),
    All(&'a [Request]),
}

// What the requests come to on the files.
fn plan_asked(alloc: Global, asked: Asked<'_>, found: &Files) -> Result<Files, Refused>
    ensures { PlannedAs found.now (requests_of asked.entry) result }
{
    match asked {
        Asked::One(request) => plan(alloc, found, request),
        Asked::All(requests) => plan_all(alloc, found, requests),
    }
}

/// The number by which a reason is answered.
pub fn reason_number(reason: Reason) -> u8
    ensures { result ≡ reason_number reason }
{
    match reason {
        Reason::NoFile => 1,
        Reason::NoIdentifier => 2,
        Reason::InPrelude => 3,
        Reason::ReachesPrelude => 4,
        Reason::BadName => 5,
        Reason::WrongKind => 6,
        Reason::BadRange => 7,
        Reason::BadSuperclass => 8,
    }
}

fn kind_of(kind: LostKind) -> EdgeKind
    ensures { result ≡ kind_of kind }
{
    match kind {
        LostKind::Control => EdgeKind::Control,
        LostKind::Dispatch => EdgeKind::Dispatch,
        LostKind::DefUse => EdgeKind::DefUse,
    }
}

fn side_of(is_old: bool) -> Side
    ensures { result ≡ side_of is_old }
{
    if is_old { Side::Old } else { Side::New }
}

// The answer to a request that leaves nothing of files that compile.
fn step_answer(request: u32, fault: StepFault) -> Status
    ensures { result ≡ step_answer request fault }
{
    match fault {
        StepFault::BadRequest(reason) => Status::BadRequest {
            request,
            reason: reason_number(reason),
            field: None,
        },
        StepFault::NoSpelling { occ, place, lock } => Status::NoSpelling {
            request,
            occ,
            place,
            lock,
        },
        StepFault::LostEdge {
            kind,
            first,
            second,
            is_old,
        } => Status::LostEdge {
            request,
            edge: Edge {
                kind: kind_of(kind),
                first,
                second,
                side: side_of(is_old),
            },
        },
        StepFault::StillUsed { place } => Status::StillUsed { place },
        StepFault::Broken { rule, place } => Status::BrokenRule {
            request,
            rule,
            place,
        },
        StepFault::Differs { place } => Status::Differs { request, place },
        StepFault::TooLarge(what) => Status::TooLarge { what, request },
        StepFault::OutOfMemory => Status::OutOfMemory,
    }
}

// The answer to requests that are refused.
fn answer_to(request: u32, fault: EngineFault) -> Status
    ensures { result ≡ answer_to request fault }
{
    match fault {
        EngineFault::Front(why) => refusal(why),
        EngineFault::Step(why) => step_answer(request, why),
    }
}

// The plan that makes the files left of those found.
fn plan_between(alloc: Global, found: &Files, left: &Files) -> Result<Plan, OutOfMemory>
    requires found { IsAccepted found.now }
    requires left { IsAccepted left.now }
    ensures { IfOk result (λ plan. IsPlanFor found.now left.now plan) }
{
    journal_fits(found, left);
    let plan = Plan::new(alloc, found, left)?;
    let _journal = &plan.journal;
    Ok(plan)
}

// What the files left come to.
fn decide_left(alloc: Global, asked: Asked<'_>, found: &Files, left: &Files) -> Decision
    requires { PlannedAs found.now (requests_of asked) (Ok left.now) }
    ensures { DecidesFiles found.now (requests_of asked.entry) result }
{
    let _ = asked;
    match plan_between(alloc, found, left) {
        Ok(plan) => {
            if plan.count() == 0 {
                Decision::Answer(Status::Done(Report::Changed(0)))
            } else {
                Decision::Change(plan)
            }
        }
        Err(_) => Decision::Answer(Status::OutOfMemory),
    }
}

// What the requests come to on the files found.
fn decide_files(alloc: Global, asked: Asked<'_>, found: &Files) -> Decision
    ensures { DecidesFiles found.now (requests_of asked.entry) result }
{
    match plan_asked(alloc, asked, found) {
        Ok(left) => decide_left(alloc, asked, found, &left),
        Err(refused) => Decision::Refuse {
            status: answer_to(refused.request, refused.fault),
            paths: refused.paths,
        },
    }
}

/// What the requests come to, which the engine serves. Nothing is written.
pub fn decide_all<S: Store>(alloc: Global, asked: Asked<'_>, store: &mut S) -> Decision
    ensures files { S.files store.new ≡ S.files store.old }
    ensures later { S.faults store.old ≤ S.faults store.new }
    ensures crash { (c : Image) → S.may_leave store.new c → S.may_leave store.old c }
    ensures any_moment { LeavesOnly S.moment S.left_since store.old store.new (S.may_leave store.old) }
    ensures decision { DecidesAll (requests_of asked.entry) (S.files store.old) (S.faults store.old) (S.faults store.new) result }
{
    match gather(alloc, store) {
        Ok(Gathered::Files(found)) => decide_files(alloc, asked, &found),
        Ok(Gathered::TooLarge(what)) => { Decision::Answer(Status::TooLarge { what, request: 0 }) }
        Err(StoreError::Failed) => Decision::Answer(Status::StoreFault {
            phase: Phase::Reading,
        }),
        Err(StoreError::OutOfMemory) => Decision::Answer(Status::OutOfMemory),
    }
}
