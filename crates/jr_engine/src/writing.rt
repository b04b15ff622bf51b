// The files that are written, and whether they may be.

ghost use Rattle.std.specs.Prelude.{◌≡◌, ◌⊎◌, ◌++◌, ℕ, List, map, Some, Err, IfOk, IfErr, IfSome};
ghost use Rattle.std.specs.FinMap as finite;
ghost use Rattle.std.specs.List.{AllByRecursion};
ghost use Rattle.jr_base.specs.Files.{plain};
ghost use Rattle.jr_tree.specs.Shape.{IsShaped};
ghost use Rattle.jr_defs.specs.Program.{AreUnitsOf, prelude_files};
ghost use Rattle.jr_rule.specs.declared.Rule.TheVariants as rules;
ghost use Rattle.jr_front.specs.Checking.{CheckedAs};
ghost use Rattle.jr_engine.specs.Barring.{AreTooLarge, Bars, IsToldFor};
ghost use Rattle.jr_engine.specs.Texts as spec;
ghost use Rattle.jr_engine.specs.Written.{AreNotLeft, AreTextsOf, HasTextsOf, IsLeftOf, IsNotLeft, IsReady, IsRetypedIn, IsSpelledIn, KeepsBodiesIn};
ghost use Rattle.jr_engine.specs.declared.fault.StepFault.TheVariants as step;

use crate::asked::{Asked, project_of};
use crate::edges::keeps_others;
use crate::fault::StepFault;
use crate::filing::{files_of, rise};
use crate::left::Left;
use crate::texts::{Texts, first_twice, written_texts};
use crate::tried::{Spelled, is_as_spelled};
use crate::verdicts::{not_compiling, unread};
use jr_base::{CuId, Files, OutOfMemory, Path, Place, Size};
use jr_defs::Program;
use jr_edits::Edits;
use jr_front::{FrontFault, Workspace, open_files, open_program};
use jr_inline::first_retyped;
use jr_read::read_units;
use jr_rule::{Fault, Rule};
use jr_weave::respelled;
use std::alloc::Global;

// The program of units that were read, of which two may have one path.
fn open_units(alloc: Global, spelled: Spelled, program: Program) -> Result<Workspace, StepFault>
    requires { AllByRecursion IsShaped (map (λ u. u.unit) program.units) }
    ensures { (texts : List (List ℕ × List ℕ)) → AreUnitsOf (prelude_files ++ texts) program.units → spec.AreSmall texts → IfErr result (Bars texts) }
{
    match open_program(alloc, program) {
        Ok(new) => Ok(new),
        Err(fault) => Err(not_compiling(spelled.asked, fault)),
    }
}

// The program of texts whose sizes are not tested and of which two may have one path.
fn opened(
    alloc: Global,
    spelled: Spelled,
    texts: &[(Path, Vec<u8>)],
) -> Result<Workspace, StepFault>
    requires { spec.AreSmall (plain texts.now) }
    ensures { IfErr result (Bars (plain texts.now)) }
{
    match read_units(alloc, texts) {
        Ok(program) => open_units(alloc, spelled, program),
        Err(fault) => Err(unread(alloc, spelled.asked, texts, fault)),
    }
}

// What comes before the rule of paths: texts that are no program, or top-level types of one name.
fn before_paths(fault: FrontFault) -> bool {
    match fault {
        FrontFault::PathMismatch(_) => true,
        FrontFault::Duplicate(_) => true,
        FrontFault::OutOfMemory => true,
        _ => false,
    }
}

// Two units have one path, of which the first has this number.
fn path_twice(unit: u32) -> StepFault
    ensures { result ≡ step.Broken rules.PathTwice (record { cu = record { 0 = unit }; at = 0 }) }
{
    StepFault::Broken {
        rule: Rule::PathTwice,
        place: Place {
            cu: CuId(unit),
            at: 0,
        },
    }
}

// What is told of two units of one path, the first of this number, in a program that the front refuses.
fn twice_or(asked: Asked, fault: FrontFault, unit: u32) -> StepFault
    ensures { IsToldFor fault result ⊎ (result ≡ step.Broken rules.PathTwice (record { cu = record { 0 = unit }; at = 0 })) }
{
    if before_paths(fault) {
        not_compiling(asked, fault)
    } else {
        path_twice(unit)
    }
}

// The program has two units of one path, of which the first has this number.
fn twice_in(alloc: Global, spelled: Spelled, program: Program, unit: u32) -> StepFault
    requires { AllByRecursion IsShaped (map (λ u. u.unit) program.units) }
    ensures { (texts : List (List ℕ × List ℕ)) → AreUnitsOf (prelude_files ++ texts) program.units → spec.AreSmall texts → spec.first_twice texts ≡ Some unit → Bars texts result }
{
    match open_program(alloc, program) {
        Ok(new) => {
            drop(new);
            path_twice(unit)
        }
        Err(fault) => twice_or(spelled.asked, fault, unit),
    }
}

// Two texts have one path, of which the first is that of the unit of this number.
fn twice(alloc: Global, spelled: Spelled, texts: &[(Path, Vec<u8>)], unit: u32) -> StepFault
    requires small { spec.AreSmall (plain texts.now) }
    requires twice { spec.first_twice (plain texts.now) ≡ Some unit }
    ensures { Bars (plain texts.now) result }
{
    match read_units(alloc, texts) {
        Ok(program) => twice_in(alloc, spelled, program, unit),
        Err(fault) => unread(alloc, spelled.asked, texts, fault),
    }
}

// What is told where two texts have one path.
fn path_fault(alloc: Global, spelled: Spelled, texts: &[(Path, Vec<u8>)]) -> Option<StepFault>
    requires { spec.AreSmall (plain texts.now) }
    ensures { IfSome result (Bars (plain texts.now)) }
{
    match first_twice(texts) {
        Some(unit) => Some(twice(alloc, spelled, texts, unit)),
        None => None,
    }
}

// The texts compile and are as they were to be written.
fn is_right(alloc: Global, spelled: Spelled, texts: &[(Path, Vec<u8>)]) -> Result<(), StepFault>
    requires { spec.AreSmall (plain texts.now) }
    ensures { IfErr result (Bars (plain texts.now)) }
{
    let new = opened(alloc, spelled, texts)?;
    is_as_spelled(alloc, spelled, &new)
}

// What is told where a size passes its limit: what was found before, unless that is a size too.
fn size_or(found: StepFault, size: Size) -> StepFault
    ensures { (texts : List (List ℕ × List ℕ)) → AreTooLarge texts size → Bars texts found → Bars texts result }
{
    match found {
        StepFault::TooLarge(_) => StepFault::TooLarge(size),
        _ => found,
    }
}

// A size of the texts passes its limit, unless there is something else to be told before.
fn too_large(alloc: Global, spelled: Spelled, texts: &[(Path, Vec<u8>)], size: Size) -> StepFault
    requires small { spec.AreSmall (plain texts.now) }
    requires large { AreTooLarge (plain texts.now) size }
    ensures { Bars (plain texts.now) result }
{
    match is_right(alloc, spelled, texts) {
        Ok(()) => StepFault::TooLarge(size),
        Err(fault) => size_or(fault, size),
    }
}

// Why the files may not be left, which the front refuses.
fn fault_of_files(alloc: Global, spelled: Spelled, files: &Files, fault: FrontFault) -> StepFault
    requires small { spec.AreSmall (finite.entries files.now) }
    requires checked { CheckedAs files.now (Err fault) }
    ensures { Bars (finite.entries files.now) result }
{
    match fault {
        FrontFault::TooLarge(size) => too_large(alloc, spelled, files.entries(), size),
        _ => not_compiling(spelled.asked, fault),
    }
}

// Where what stands at a place before names are spelled stands behind that.
fn moved(edits: &[Edits], place: Place) -> Place {
    match edits.get(place.cu.0 as usize) {
        Some(edits) => Place {
            cu: place.cu,
            at: edits.moved(place.at),
        },
        None => place,
    }
}

// The row has another type than before.
fn type_change(place: Place) -> StepFault
    ensures { result ≡ step.Broken rules.TypeChange place }
{
    StepFault::Broken {
        rule: Rule::TypeChange,
        place,
    }
}

// After an inlining each expression that stays has the type that it had.
fn keeps_types(spelled: Spelled, edits: &[Edits]) -> Result<(), StepFault>
    requires { IsReady spelled.asked spelled.locked.now }
    ensures { IfErr result (IsRetypedIn spelled.entry.asked) }
{
    let asked = spelled.asked;
    let locked = spelled.locked;
    let old = project_of(asked.old);
    let new = project_of(&locked.program);
    match first_retyped(&old, &new, &locked.locks, asked.change) {
        Some(row) => {
            let place = new.marks.fault_place(Fault {
                row,
                rule: Rule::TypeChange,
            });
            Err(type_change(moved(edits, place)))
        }
        None => Ok(()),
    }
}

// Expressions that stay, and bodies that are left alone, mean what they meant.
fn keeps_meanings(alloc: Global, spelled: Spelled, edits: &[Edits]) -> Result<(), StepFault>
    requires { IsReady spelled.asked spelled.locked.now }
    ensures ok { IfOk result (λ _. KeepsBodiesIn spelled.entry.asked spelled.entry.locked.now) }
    ensures err { (texts : List (List ℕ × List ℕ)) → IfErr result (AreNotLeft spelled.entry.asked texts) }
{
    match keeps_types(spelled, edits) {
        Ok(()) => keeps_others(alloc, spelled.asked, spelled.locked),
        Err(fault) => Err(fault),
    }
}

// The program of these files is as it was to be written.
fn is_left_as(
    alloc: Global,
    spelled: Spelled,
    edits: &[Edits],
    files: &Files,
    program: &Workspace,
) -> Result<(), StepFault>
    requires { IsReady spelled.asked spelled.locked.now }
    ensures ok { IfOk result (λ _. IsSpelledIn spelled.entry program.now) }
    ensures bodies { IfOk result (λ _. KeepsBodiesIn spelled.entry.asked spelled.entry.locked.now) }
    ensures err { IfErr result (AreNotLeft spelled.entry.asked (finite.entries files.now)) }
{
    match is_as_spelled(alloc, spelled, program) {
        Ok(()) => keeps_meanings(alloc, spelled, edits),
        Err(fault) => Err(fault),
    }
}

// The files, if they are a program as it was to be written.
#[tactic(auto, using(crate::proofs::Stepping::read_so, crate::proofs::Stepping::written_so))]
fn left_as(
    alloc: Global,
    spelled: Spelled,
    edits: &[Edits],
    files: Files,
) -> Result<Left, StepFault>
    requires ready { IsReady spelled.asked spelled.locked.now }
    requires small { spec.AreSmall (finite.entries files) }
    ensures ok { IfOk result (λ left. IsLeftOf spelled.entry.locked.now spelled.entry.spellings.now left) }
    ensures bodies { IfOk result (λ _. KeepsBodiesIn spelled.entry.asked spelled.entry.locked.now) }
    ensures files { IfOk result (λ left. left.files ≡ files) }
    ensures err { IfErr result (AreNotLeft spelled.entry.asked (finite.entries files)) }
{
    match open_files(alloc, &files) {
        Ok(program) => {
            is_left_as(alloc, spelled, edits, &files, &program)?;
            match Left::of(files, program) {
                Some(left) => Ok(left),
                None => Err(spelled.asked.differs()),
            }
        }
        Err(fault) => Err(fault_of_files(alloc, spelled, &files, fault)),
    }
}

// The texts of the changed program with its spellings, and their edits.
#[derive(Drop)]
struct NewTexts {
    edits: Vec<Edits>,
    texts: Texts,
}

// The changed program with the edits of the spellings.
fn new_texts(alloc: Global, spelled: Spelled) -> Result<NewTexts, OutOfMemory>
    requires { IsReady spelled.asked spelled.locked.now }
    ensures are { IfOk result (λ all. AreTextsOf spelled.entry.locked.now spelled.entry.spellings.now (plain all.texts.items)) }
    ensures small { IfOk result (λ all. spec.AreSmall (plain all.texts.items)) }
{
    let locked = &spelled.locked.program;
    let marks = locked.marks();
    let edits = respelled(alloc, &marks, &locked.bound.table, spelled.spellings)?;
    let texts = written_texts(alloc, locked.program.units.as_slice(), &edits)?;
    Ok(NewTexts { edits, texts })
}

// The files that these texts are, if they are a program as it was to be written. Paths that do not rise are not as they were to be.
fn left_with(alloc: Global, spelled: Spelled, new: NewTexts) -> Result<Left, StepFault>
    requires ready { IsReady spelled.asked spelled.locked.now }
    requires small { spec.AreSmall (plain new.texts.items) }
    ensures ok { IfOk result (λ left. IsLeftOf spelled.entry.locked.now spelled.entry.spellings.now left) }
    ensures bodies { IfOk result (λ _. KeepsBodiesIn spelled.entry.asked spelled.entry.locked.now) }
    ensures files { IfOk result (λ left. finite.entries left.files ≡ plain new.texts.items) }
    ensures err { IfErr result (AreNotLeft spelled.entry.asked (plain new.texts.items)) }
{
    if !rise(&new.texts) {
        return Err(spelled.asked.differs());
    }
    let files = files_of(alloc, new.texts)?;
    left_as(alloc, spelled, &new.edits, files)
}

/// The files that are left where references are written so, if they may be left; else why those that were to be left may not be.
pub fn left_of(alloc: Global, spelled: Spelled) -> Result<Left, StepFault>
    requires { IsReady spelled.asked spelled.locked.now }
    ensures ok { IfOk result (λ left. IsLeftOf spelled.entry.locked.now spelled.entry.spellings.now left) }
    ensures bodies { IfOk result (λ _. KeepsBodiesIn spelled.entry.asked spelled.entry.locked.now) }
    ensures texts { IfOk result (HasTextsOf spelled.entry.locked.now spelled.entry.spellings.now) }
    ensures err { IfErr result (IsNotLeft spelled.entry.asked spelled.entry.locked.now spelled.entry.spellings.now) }
{
    let new = new_texts(alloc, spelled)?;
    match path_fault(alloc, spelled, &new.texts) {
        Some(fault) => Err(fault),
        None => left_with(alloc, spelled, new),
    }
}
