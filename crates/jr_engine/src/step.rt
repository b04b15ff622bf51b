// One request of a program.

ghost use Rattle.std.specs.Prelude.{◌≡◌, ◌⊎◌, List, IfOk, IfErr, Ok, Err};
ghost use Rattle.jr_base.specs.declared.request.Request.{Request};
ghost use Rattle.jr_front.specs.Checking.{CheckedAs};
ghost use Rattle.jr_front.specs.Bound.{IsBoundIn, IsIndexed};
ghost use Rattle.jr_engine.specs.Planning.{RefusedAs};
ghost use Rattle.jr_engine.specs.Refusing.{IsCausedBy, IsHinderedIn, IsLargeIn, IsToldAs, IsToldNumber, IsZeroOfFiles};
ghost use Rattle.jr_engine.specs.Steps.{LeftBy, IsFollowed, IsAskedOf, IsProjectIn};
ghost use Rattle.jr_engine.specs.Written.{IsAskedFor};
ghost use Rattle.jr_engine.specs.declared.fault.EngineFault.TheVariants as engine;
ghost use Rattle.jr_engine.specs.declared.fault.StepFault.TheVariants as step;

use crate::asked::{Asked, project_of};
use crate::edges::{is_within_flow, keeps_edges};
use crate::fault::{EngineFault, Refused, StepFault};
use crate::kept::changes_nothing;
use crate::left::Left;
use crate::locked::{lock, spellings};
use crate::requests::change_of;
use crate::sound::is_sound;
use crate::tried::Spelled;
use crate::verdicts::no_change;
use crate::writing::left_of;
use jr_base::{Files, OutOfMemory, Path, Request};
use jr_change::{Change, ChangedUnit, Project};
use jr_defs::UnitAt;
use jr_front::{FrontFault, Workspace};
use std::alloc::Global;

// What a change leaves.
fn followed(alloc: Global, asked: Asked) -> Result<Left, StepFault>
    requires bound { IsBoundIn asked.old.now }
    requires asked { IsAskedFor asked }
    ensures ok { IfOk result (λ left. IsFollowed asked.entry.old.now asked.entry.request.now left) }
    ensures err { IfErr result (IsHinderedIn asked.entry) }
{
    let locked = lock(alloc, asked)?;
    is_sound(asked, &locked)?;
    let spellings = spellings(alloc, asked, &locked)?;
    keeps_edges(alloc, asked, &locked)?;
    let spelled = Spelled {
        asked,
        locked: &locked,
        spellings: &spellings,
    };
    left_of(alloc, spelled)
}

// The paths of units without the prelude, as they stand in places.
fn paths_of(alloc: Global, units: &[UnitAt]) -> Result<Vec<Path>, OutOfMemory> {
    let mut all = Vec::new(alloc);
    if let [_, _, found @ ..] = units {
        for unit in found {
            all.push(unit.path.copy(alloc)?)?;
        }
    }
    Ok(all)
}

fn changed_paths(alloc: Global, units: &[ChangedUnit]) -> Result<Vec<Path>, OutOfMemory> {
    let mut all = Vec::new(alloc);
    for unit in units {
        all.push(unit.path.copy(alloc)?)?;
    }
    Ok(all)
}

fn found_paths(alloc: Global, files: &Files) -> Result<Vec<Path>, OutOfMemory> {
    let mut all = Vec::new(alloc);
    for (path, _) in files.entries() {
        all.push(path.copy(alloc)?)?;
    }
    Ok(all)
}

// The refusal with these paths, or for want of memory.
fn refused(
    alloc: Global,
    request: u32,
    fault: EngineFault,
    paths: Result<Vec<Path>, OutOfMemory>,
) -> Refused
    ensures told { IsToldAs fault result.fault }
    ensures number { result.request ≡ request }
{
    match paths {
        Ok(paths) => Refused {
            request,
            fault,
            paths,
        },
        Err(_) => no_memory(alloc, request),
    }
}

/// Refused for want of memory.
pub fn no_memory(alloc: Global, request: u32) -> Refused
    ensures fault { result.fault ≡ engine.Step step.OutOfMemory }
    ensures number { result.request ≡ request }
{
    Refused {
        request,
        fault: EngineFault::Step(StepFault::OutOfMemory),
        paths: Vec::new(alloc),
    }
}

/// The files found do not compile, or memory has failed.
pub fn refused_found(alloc: Global, files: &Files, fault: FrontFault) -> Refused
    requires { CheckedAs files.now (Err fault) }
    ensures why { (requests : List Request) → RefusedAs files.now requests result.request result.fault }
    ensures number { result.request ≡ 0 }
    ensures zero { IsZeroOfFiles result }
{
    match fault {
        FrontFault::OutOfMemory => no_memory(alloc, 0),
        _ => {
            let paths = found_paths(alloc, files);
            refused(alloc, 0, EngineFault::Front(fault), paths)
        }
    }
}

// Refused with places in the old files.
fn refused_old(alloc: Global, old: &Workspace, request: u32, fault: StepFault) -> Refused
    ensures told { IsToldAs (engine.Step fault) result.fault }
    ensures number { result.request ≡ request }
{
    refused(
        alloc,
        request,
        EngineFault::Step(fault),
        paths_of(alloc, old.program.units.as_slice()),
    )
}

// Refused with places in the files that were to be left, where a rule is broken in them, else in the old files.
fn refused_change(alloc: Global, asked: Asked, request: u32, fault: StepFault) -> Refused
    ensures told { IsToldAs (engine.Step fault) result.fault }
    ensures number { result.request ≡ request }
{
    match fault {
        StepFault::Broken { .. } => refused(
            alloc,
            request,
            EngineFault::Step(fault),
            changed_paths(alloc, &asked.change.units),
        ),
        _ => refused_old(alloc, asked.old, request, fault),
    }
}

// What is left by a change; None where it changes nothing.
fn left_by(alloc: Global, asked: Asked, request: u32) -> Result<Option<Left>, Refused>
    requires bound { IsBoundIn asked.old.now }
    requires asked { IsAskedFor asked }
    ensures ok { IfOk result (LeftBy asked.entry.old.now asked.entry.request.now) }
    ensures err { IfErr result (λ refused. IsCausedBy asked.entry.old.now asked.entry.request.now refused.fault) }
    ensures number { IfErr result (λ refused. refused.request ≡ request) }
{
    if changes_nothing(asked.old.program.units.as_slice(), &asked.change.units) {
        return Ok(None);
    }
    match followed(alloc, asked) {
        Ok(left) => Ok(Some(left)),
        Err(fault) => Err(refused_change(alloc, asked, request, fault)),
    }
}

// The change for which a request asks of a program.
fn asked_of(
    alloc: Global,
    old: &Workspace,
    project: &Project,
    request: &Request,
) -> Result<Change, StepFault>
    requires project { IsProjectIn old.now project.now }
    requires indexed { IsIndexed old.now.program old.now.index.value }
    ensures ok { IfOk result (λ change. IsAskedOf old.now project.now request.now (Ok change)) }
    ensures err { IfErr result (λ fault. IsCausedBy old.now request.now (engine.Step fault)) }
{
    match change_of(alloc, project, request) {
        Ok(change) => Ok(change),
        Err(fault) => Err(no_change(fault)),
    }
}

// The number with which a size of the program found is answered: none before the first request of a list.
fn first_zero(request: u32) -> u32
    ensures { (result ≡ request) ⊎ ((request ≡ 1) × (result ≡ 0)) }
{
    if request == 1 { 0 } else { request }
}

// What the request of this number leaves of a program without too many points of flow.
fn left_within(
    alloc: Global,
    old: &Workspace,
    asked: &Request,
    request: u32,
) -> Result<Option<Left>, Refused>
    requires bound { IsBoundIn old.now }
    requires indexed { IsIndexed old.now.program old.now.index.value }
    ensures ok { IfOk result (LeftBy old.now asked.now) }
    ensures err { IfErr result (λ refused. IsCausedBy old.now asked.now refused.fault) }
    ensures number { IfErr result (λ refused. refused.request ≡ request) }
{
    let project = project_of(old);
    match asked_of(alloc, old, &project, asked) {
        Ok(change) => {
            let asked = Asked {
                old,
                project: &project,
                request: asked,
                change: &change,
            };
            left_by(alloc, asked, request)
        }
        Err(fault) => Err(refused_old(alloc, old, request, fault)),
    }
}

// The program has too many points of flow, before the request of this number.
fn refused_large(alloc: Global, old: &Workspace, request: u32, fault: StepFault) -> Refused
    requires { IsLargeIn old.now fault }
    ensures told { IsToldAs (engine.Step fault) result.fault }
    ensures number { IsToldNumber request result.fault result.request }
{
    refused_old(alloc, old, first_zero(request), fault)
}

/// What the request of this number leaves of a program; None where it changes nothing.
pub fn left_behind(
    alloc: Global,
    old: &Workspace,
    asked: &Request,
    request: u32,
) -> Result<Option<Left>, Refused>
    requires bound { IsBoundIn old.now }
    requires indexed { IsIndexed old.now.program old.now.index.value }
    ensures ok { IfOk result (LeftBy old.now asked.now) }
    ensures err { IfErr result (λ refused. IsCausedBy old.now asked.now refused.fault) }
    ensures number { IfErr result (λ refused. IsToldNumber request refused.fault refused.request) }
{
    match is_within_flow(alloc, old) {
        Ok(()) => left_within(alloc, old, asked, request),
        Err(fault) => Err(refused_large(alloc, old, request, fault)),
    }
}
