// The changed program under its locks.

ghost use Rattle.std.specs.Prelude.{◌≡◌, map, length, Ok, IfOk, IfErr};
ghost use Rattle.std.specs.List.{AllByRecursion};
ghost use Rattle.jr_tree.specs.Shape.{IsShaped};
ghost use Rattle.jr_tree.specs.Rows.{program_rows};
ghost use Rattle.jr_headed.specs.Founded.{IsProgram};
ghost use Rattle.jr_places.specs.Tabulated.{tabulated};
ghost use Rattle.jr_prelude.specs.Begins.{BeginsWithLang};
ghost use Rattle.jr_index.specs.Marking.{program_marks};
ghost use Rattle.jr_marks.specs.Made.{HaveTokensApart};
ghost use Rattle.jr_marks.specs.Places.{IsOrdered};
ghost use Rattle.jr_engine.specs.Refusing.{IsHinderedIn, IsUnspelled};
ghost use Rattle.jr_engine.specs.Written.{AreFirstIn, IsBoundByLocks, IsIndexedAs, IsLockedBy, IsReadBy, IsReady, is_constant_by, rows_of};

use crate::asked::{Asked, project_of};
use crate::fault::StepFault;
use crate::texts::changed_texts;
use crate::verdicts::unread;
use jr_base::{DeclId, NodeAt, NodeId, OccId, OutOfMemory};
use jr_bind::bind_under;
use jr_change::{Locks, Spelling};
use jr_defs::{Program, Referent};
use jr_front::Workspace;
use jr_index::Index;
use jr_locks::{locks, row_for};
use jr_lookup::Scopes;
use jr_places::Places;
use jr_read::read_units;
use jr_spell::{SpellFault, spell};
use std::alloc::Global;

/// A changed program before its names are spelled anew: it is bound by its locks.
#[derive(Drop)]
pub struct Locked {
    pub program: Workspace,
    pub locks: Locks,
}

// What was made, in a box.
fn boxed<T: Drop>(alloc: Global, made: Result<T, OutOfMemory>) -> Result<Box<T>, OutOfMemory>
    ensures { IfOk result (λ all. made ≡ Ok all.value) }
{
    match made {
        Ok(all) => Ok(Box::new(alloc, all)?),
        Err(fault) => Err(fault),
    }
}

// The rows of a program whose units are shaped.
fn index_of(alloc: Global, program: &Program) -> Result<Box<Index>, OutOfMemory>
    requires { AllByRecursion IsShaped (map (λ u. u.unit) program.now.units) }
    ensures rows { IfOk result (λ index. index.value.rows ≡ program_rows (map (λ u. u.unit) program.now.units)) }
    ensures marks { IfOk result (λ index. index.value.marks ≡ program_marks (map (λ u. u.unit) program.now.units)) }
{
    boxed(alloc, Index::build(alloc, program))
}

// The program of these rows under its locks. There is none where a type stands above itself under them.
fn locked_rows(
    alloc: Global,
    asked: Asked,
    program: Program,
    index: Box<Index>,
    locks: Locks,
) -> Result<Locked, StepFault>
    ensures program { IfOk result (λ locked. locked.program.program ≡ program) }
    ensures rows { IfOk result (λ locked. locked.program.index.value.rows ≡ index.value.rows) }
    ensures marks { IfOk result (λ locked. locked.program.index.value.marks ≡ index.value.marks) }
    ensures locks { IfOk result (λ locked. locked.locks ≡ locks) }
    ensures bound { IfOk result IsBoundByLocks }
    ensures err { IfErr result (IsHinderedIn asked.entry) }
{
    let rows = index.rows();
    let places = boxed(alloc, Places::of(alloc, rows))?;
    let scopes = boxed(alloc, Scopes::of(alloc, rows, &places))?;
    let table = locks.table.to_vec(alloc)?;
    let Some(bound) = bind_under(alloc, rows, &places, &scopes, table)? else {
        return Err(asked.differs());
    };
    let bound = Box::new(alloc, bound)?;
    Ok(Locked {
        program: Workspace {
            program,
            index,
            places,
            scopes,
            bound,
        },
        locks,
    })
}

// The program under its locks, if its rows are those that the change says.
#[tactic(auto, using(crate::proofs::Stepping::locked_result))]
fn locked_program(alloc: Global, asked: Asked, program: Program) -> Result<Locked, StepFault>
    requires { AllByRecursion IsShaped (map (λ u. u.unit) program.units) }
    ensures read { IfOk result (λ locked. HaveTokensApart program.units → IsIndexedAs program locked) }
    ensures locked { IfOk result (IsLockedBy asked.entry) }
    ensures shaped { IfOk result (λ locked. IsProgram (rows_of locked)) }
    ensures begins { BeginsWithLang (program_rows (map (λ u. u.unit) program.units)) → IfOk result (λ locked. BeginsWithLang (rows_of locked)) }
    ensures bound { IfOk result IsBoundByLocks }
    ensures err { IfErr result (IsHinderedIn asked.entry) }
{
    let index = index_of(alloc, &program)?;
    let old = asked.old.index.rows();
    let table = &asked.old.bound.table;
    match locks(alloc, old, table, asked.change, index.rows())? {
        Some(locks) => locked_rows(alloc, asked, program, index, locks),
        None => Err(asked.differs()),
    }
}

/// The changed program under its locks.
pub fn lock(alloc: Global, asked: Asked) -> Result<Locked, StepFault>
    ensures read { IfOk result (IsReadBy asked.entry) }
    ensures locked { IfOk result (IsLockedBy asked.entry) }
    ensures shaped { IfOk result (λ locked. IsProgram (rows_of locked)) }
    ensures begins { IfOk result (λ locked. BeginsWithLang (rows_of locked)) }
    ensures bound { IfOk result IsBoundByLocks }
    ensures err { IfErr result (IsHinderedIn asked.entry) }
{
    let units = asked.old.program.units.as_slice();
    let changed = changed_texts(alloc, units, asked.change)?;
    let texts = changed.as_slice();
    match read_units(alloc, texts) {
        Ok(program) => locked_program(alloc, asked, program),
        Err(fault) => Err(unread(alloc, asked, texts, fault)),
    }
}

// The row comes from a constant expression; an added one is constant under the locks.
fn is_constant(asked: Asked, locked: &Locked, row: u32) -> bool
    ensures { result ≡ is_constant_by asked.entry locked.now row }
{
    let old = &asked.old.bound.constants;
    let new = &locked.program.bound.constants;
    match row_for(&locked.locks.origin, row) {
        Some(from) => old.value(from).is_some(),
        None => new.value(row).is_some(),
    }
}

// Which rows are so.
fn constant_of(alloc: Global, asked: Asked, locked: &Locked) -> Result<Vec<bool>, OutOfMemory>
    ensures { IfOk result (λ all. all.items ≡ tabulated (is_constant_by asked.entry locked.now) (length locked.now.locks.origin.items)) }
{
    let Ok(end) = u32::try_from(locked.locks.origin.len()) else {
        return Err(OutOfMemory);
    };
    let mut all = Vec::new(alloc);
    for row in 0..end {
        all.push(is_constant(asked, locked, row))?;
    }
    Ok(all)
}

// The row cannot be written so that it refers to its lock. Of the occurrence and the declaration the units are told, but not the nodes.
fn no_spelling(asked: Asked, locked: &Locked, row: u32) -> StepFault
    ensures { IsOrdered asked.entry.project.now.marks → IsUnspelled asked.entry.project.now.marks locked.now.locks.origin.items row result }
{
    let place = asked.place_of(&locked.locks.origin, row);
    let mut lock = place.cu;
    if let Some(Referent::Declared { row, .. }) = locked.locks.table.get(row as usize) {
        lock = asked.place_of(&locked.locks.origin, *row).cu;
    }
    StepFault::NoSpelling {
        occ: OccId {
            at: NodeAt {
                cu: place.cu,
                node: NodeId(0),
            },
            part: 0,
        },
        place,
        lock: DeclId {
            at: NodeAt {
                cu: lock,
                node: NodeId(0),
            },
            part: 0,
        },
    }
}

/// How each reference of the changed program is to be written.
pub fn spellings(alloc: Global, asked: Asked, locked: &Locked) -> Result<Vec<Spelling>, StepFault>
    requires { IsReady asked locked.now }
    ensures ok { IfOk result (λ all. AreFirstIn asked.entry locked.now all.items) }
    ensures err { IfErr result (IsHinderedIn asked.entry) }
{
    let constant = constant_of(alloc, asked, locked)?;
    match spell(alloc, &project_of(&locked.program), &constant) {
        Ok(all) => Ok(all),
        Err(SpellFault::NoSpelling { row, .. }) => Err(no_spelling(asked, locked, row)),
        Err(SpellFault::OutOfMemory) => Err(StepFault::OutOfMemory),
    }
}
