// Whether files compile, and their tables where they do.
ghost use Rattle.std.specs.Prelude.{◌≡◌, ◌⊎◌, IfErr, IfOk, OnOk, Ok, [], map};
ghost use Rattle.std.specs.List.{AllByRecursion};
ghost use Rattle.jr_tree.specs.Shape.{IsShaped};
ghost use Rattle.jr_defs.specs.Compiling.{AllFound};
ghost use Rattle.jr_defs.specs.Program.{IsWellPlaced, rows_of};
ghost use Rattle.jr_defs.specs.Referents.{entries};
ghost use Rattle.jr_read.specs.Reading.{ReadsAs};
ghost use Rattle.jr_places.specs.Places.{ArePlaces};
ghost use Rattle.jr_members.specs.Sources.{ArePlaced};
ghost use Rattle.jr_headed.specs.Founded.{IsProgram};
ghost use Rattle.jr_lookup.specs.Scopes.{AreScopes, AreTops};
ghost use Rattle.jr_bind.specs.Confirmed.{IsProgramOf, IsBindingOf};
ghost use Rattle.jr_prelude.specs.Begins.{BeginsWithLang};
ghost use Rattle.jr_front.specs.Bound.{IsBoundIn, IsIndexed, table_in};
ghost use Rattle.jr_front.specs.Checking.{CheckedAs, forgotten};
ghost use Rattle.jr_front.specs.Compiling.{KeepsAllRules, Compiles};
ghost use Rattle.jr_index.specs.Marking.{program_marks};
ghost use Rattle.jr_marks.specs.Made.{HaveTokensApart};
ghost use Rattle.jr_marks.specs.Places.{IsOrdered};
ghost use Rattle.jr_front.specs.Reasons.{IsPathReason, IsNameReason, IsCycleReason, IsTableReason, IsRuleReason};
ghost use Rattle.jr_front.specs.Refusing.{IsRefusal};
ghost use Rattle.jr_front.specs.Tested.{IsTestableView, AreFaultsIn, HasNoTopFault};

use crate::broken::first_broken;
use crate::fault::{FrontFault, unread};
use crate::found::{faults_of, name_clashes};
use crate::placed::first_misplaced;
use crate::unbound::first_unbound;
use crate::workspace::Workspace;
use jr_base::{Files, OutOfMemory};
use jr_bind::{Binding, Bound, bind};
use jr_defs::{Program, Referent};
use jr_headed::are_packages_named;
use jr_index::Index;
use jr_lookup::Scopes;
use jr_marks::Marks;
use jr_places::Places;
use jr_read::read;
use jr_tree::Row;
use jr_view::View;
use std::alloc::Global;

// What was made, in a box.
fn boxed<T: Drop>(alloc: Global, made: Result<T, OutOfMemory>) -> Result<Box<T>, OutOfMemory>
    ensures { IfOk result (λ all. made ≡ Ok all.value) }
{
    match made {
        Ok(all) => Ok(Box::new(alloc, all)?),
        Err(fault) => Err(fault),
    }
}

// The rows and marks of a program whose units are shaped.
fn index_of(alloc: Global, program: &Program) -> Result<Box<Index>, OutOfMemory>
    requires { AllByRecursion IsShaped (map (λ u. u.unit) program.now.units) }
    ensures rows { IfOk result (λ index. index.value.rows ≡ rows_of program.now) }
    ensures marks { IfOk result (λ index. index.value.marks ≡ program_marks (map (λ u. u.unit) program.now.units)) }
{
    boxed(alloc, Index::build(alloc, program))
}

// That no two top-level types have one name, and none that of a package (JLS 7.1, 7.6).
fn judge_names(alloc: Global, marks: &Marks, places: &Places) -> Result<(), FrontFault>
    ensures names { ArePlaced marks.now.rows.now places.now → OnOk result (HasNoTopFault marks.now.rows.now) }
    ensures err { IsOrdered marks.now → IsProgram marks.now.rows.now → ArePlaced marks.now.rows.now places.now → IfErr result (IsNameReason marks.now) }
{
    let faults = name_clashes(alloc, marks.rows, places)?;
    match first_broken(&faults, marks) {
        Some((_, place)) => Err(FrontFault::Duplicate(place)),
        None => Ok(()),
    }
}

// That all names have a declaration.
fn judge_table(marks: &Marks, table: &[Referent]) -> Result<(), FrontFault>
    ensures found { OnOk result (AllFound marks.now.rows.now (entries table.now)) }
    ensures err { IsOrdered marks.now → IfErr result (IsTableReason marks.now (entries table.now)) }
{
    match first_unbound(marks, table) {
        Some(place) => Err(FrontFault::Unbound(place)),
        None => Ok(()),
    }
}

// That no rule is broken.
fn judge_rules(alloc: Global, marks: &Marks, view: &View) -> Result<(), FrontFault>
    ensures kept { IsOrdered marks.now → IsTestableView view.now → OnOk result (AreFaultsIn marks.now view.now []) }
    ensures err { IsOrdered marks.now → IsTestableView view.now → IfErr result (IsRuleReason marks.now view.now) }
{
    let faults = faults_of(alloc, marks, view)?;
    match first_broken(&faults, marks) {
        Some((rule, place)) => Err(FrontFault::Broken(rule, place)),
        None => Ok(()),
    }
}

// That the program with this binding compiles.
fn judge(alloc: Global, marks: &Marks, view: &View) -> Result<(), FrontFault>
    ensures found { OnOk result (AllFound marks.now.rows.now (entries view.now.sight.world.under.table.now)) }
    ensures kept { IsOrdered marks.now → IsTestableView view.now → OnOk result (AreFaultsIn marks.now view.now []) }
    ensures err { IsOrdered marks.now → IsTestableView view.now → IfErr result (λ why. IsTableReason marks.now (entries view.now.sight.world.under.table.now) why ⊎ (AllFound marks.now.rows.now (entries view.now.sight.world.under.table.now) × IsRuleReason marks.now view.now why)) }
{
    judge_table(marks, view.sight.world.under.table)?;
    judge_rules(alloc, marks, view)
}

// That each unit stands at its place.
fn judge_paths(program: &Program) -> Result<(), FrontFault>
    ensures placed { OnOk result (IsWellPlaced program.now) }
    ensures err { IfErr result (IsPathReason program.now) }
{
    match first_misplaced(program) {
        Some(cu) => Err(FrontFault::PathMismatch(cu)),
        None => Ok(()),
    }
}

// The places of the rows of a program, where no top-level type has the name of another.
fn places_of(alloc: Global, marks: &Marks) -> Result<Box<Places>, FrontFault>
    ensures tables { IfOk result (λ places. ArePlaces marks.now.rows.now places.value) }
    ensures names { IsProgram marks.now.rows.now → OnOk result (HasNoTopFault marks.now.rows.now) }
    ensures err { IsOrdered marks.now → IsProgram marks.now.rows.now → IfErr result (IsNameReason marks.now) }
{
    if !are_packages_named(marks.rows) {
        return Err(FrontFault::OutOfMemory);
    }
    let places = boxed(alloc, Places::of(alloc, marks.rows))?;
    judge_names(alloc, marks, &places)?;
    Ok(places)
}

// What is in scope by the rows.
fn scopes_of(alloc: Global, rows: &[Row], places: &Places) -> Result<Box<Scopes>, OutOfMemory>
    ensures scopes { ArePlaced rows.now places.now → IfOk result (λ scopes. AreScopes rows.now scopes.value) }
    ensures tops { ArePlaced rows.now places.now → IfOk result (λ scopes. AreTops rows.now places.now scopes.value) }
{
    boxed(alloc, Scopes::of(alloc, rows, places))
}

// The binding, where no type is its own supertype.
fn bound_of(
    alloc: Global,
    marks: &Marks,
    places: &Places,
    scopes: &Scopes,
) -> Result<Box<Bound>, FrontFault>
    ensures binding { IsProgramOf marks.now.rows.now places.now scopes.now → IfOk result (λ bound. IsBindingOf marks.now.rows.now places.now bound.value) }
    ensures err { IsOrdered marks.now → IsProgramOf marks.now.rows.now places.now scopes.now → IfErr result (IsCycleReason marks.now) }
{
    match bind(alloc, marks.rows, places, scopes)? {
        Binding::Bound(bound) => Ok(bound),
        Binding::Cycle(row) => Err(FrontFault::Cycle(marks.name_place(row))),
    }
}

// The tables of a program, which is not tested against the rules.
fn bound_program(
    alloc: Global,
    program: Program,
    index: Box<Index>,
) -> Result<Workspace, FrontFault>
    ensures same { IfOk result (λ workspace. workspace.program ≡ program) }
    ensures rows { IfOk result (λ workspace. workspace.index.value.rows ≡ index.value.rows) }
    ensures marks { IfOk result (λ workspace. workspace.index.value.marks ≡ index.value.marks) }
    ensures bound { IsProgram index.value.rows → BeginsWithLang index.value.rows → IfOk result IsBoundIn }
    ensures names { IsProgram index.value.rows → OnOk result (HasNoTopFault index.value.rows) }
    ensures err { IsProgram index.value.rows → BeginsWithLang index.value.rows → IsIndexed program index.value → IsWellPlaced program → IfErr result (IsRefusal program) }
{
    let marks = Marks::of(&program, &index);
    let places = places_of(alloc, &marks)?;
    let scopes = scopes_of(alloc, marks.rows, &places)?;
    let bound = bound_of(alloc, &marks, &places, &scopes)?;
    Ok(Workspace {
        program,
        index,
        places,
        scopes,
        bound,
    })
}

// The tables of a program of shaped units, which is not tested against the rules.
fn tables_of(alloc: Global, program: Program) -> Result<Workspace, FrontFault>
    requires { AllByRecursion IsShaped (map (λ u. u.unit) program.units) }
    ensures same { IfOk result (λ workspace. workspace.program ≡ program) }
    ensures rows { IfOk result (λ workspace. workspace.index.value.rows ≡ rows_of program) }
    ensures marks { IfOk result (λ workspace. workspace.index.value.marks ≡ program_marks (map (λ u. u.unit) program.units)) }
    ensures bound { BeginsWithLang (rows_of program) → IfOk result IsBoundIn }
    ensures names { OnOk result (HasNoTopFault (rows_of program)) }
    ensures err { BeginsWithLang (rows_of program) → HaveTokensApart program.units → IsWellPlaced program → IfErr result (IsRefusal program) }
{
    let index = index_of(alloc, &program)?;
    bound_program(alloc, program, index)
}

/// The program with its tables, where it compiles, and else the first reason why it does not. Two of its units may have one path. Places are told by its tokens, which
/// stand apart where the units were read from files.
pub fn open_program(alloc: Global, program: Program) -> Result<Workspace, FrontFault>
    requires { AllByRecursion IsShaped (map (λ u. u.unit) program.units) }
    ensures same { IfOk result (λ workspace. workspace.program ≡ program) }
    ensures rows { IfOk result (λ workspace. workspace.index.value.rows ≡ rows_of program) }
    ensures marks { IfOk result (λ workspace. workspace.index.value.marks ≡ program_marks (map (λ u. u.unit) program.units)) }
    ensures bound { BeginsWithLang (rows_of program) → IfOk result IsBoundIn }
    ensures placed { OnOk result (IsWellPlaced program) }
    ensures kept { BeginsWithLang (rows_of program) → HaveTokensApart program.units → IfOk result (λ workspace. KeepsAllRules program (table_in workspace)) }
    ensures err { BeginsWithLang (rows_of program) → HaveTokensApart program.units → IfErr result (IsRefusal program) }
{
    judge_paths(&program)?;
    let workspace = tables_of(alloc, program)?;
    judge(alloc, &workspace.marks(), &workspace.view())?;
    Ok(workspace)
}

/// The program of the files with its tables, where they compile, and else the first reason why they do not.
#[tactic(auto, using(crate::proofs::Reading::read_shaped, crate::proofs::Reading::read_begins, crate::proofs::Reading::opened_program, crate::proofs::Reading::compiled))]
pub fn open_files(alloc: Global, files: &Files) -> Result<Workspace, FrontFault>
    ensures ok { IfOk result (λ workspace. ReadsAs files.now (Ok workspace.program)) }
    ensures indexed { IfOk result (λ workspace. IsIndexed workspace.program workspace.index.value) }
    ensures bound { IfOk result IsBoundIn }
    ensures compiles { IfOk result (λ workspace. Compiles files.now workspace.program (table_in workspace)) }
    ensures checked { CheckedAs files.now (forgotten result) }
{
    match read(alloc, files) {
        Ok(program) => open_program(alloc, program),
        Err(fault) => Err(unread(fault)),
    }
}

/// Whether the files compile, and else the first reason why they do not.
pub fn check_files(alloc: Global, files: &Files) -> Result<(), FrontFault>
    ensures { CheckedAs files.now result }
{
    match open_files(alloc, files) {
        Ok(_) => Ok(()),
        Err(fault) => Err(fault),
    }
}
