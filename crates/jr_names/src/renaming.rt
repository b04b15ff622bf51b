// A rename.
ghost use Rattle.std.specs.Prelude.{◌≡◌, IfErr, IfOk};
ghost use Rattle.jr_marks.specs.Places.{IsOrdered};
ghost use Rattle.jr_change.specs.declared.change.Course.TheVariants as course;
ghost use Rattle.jr_change.specs.declared.reason.ChangeFault.TheVariants as ChangeFault;
ghost use Rattle.jr_draft.specs.Drafting as drafting;
ghost use Rattle.jr_names.specs.Renaming as spec;

use crate::family::{family_of, named_with, reaches_prelude};
use crate::units::{Renaming, path_with};
use jr_base::{Path, Text, is_identifier};
use jr_change::{Change, ChangeFault, Naming, Project, Reason};
use jr_draft::{Draft, asked, unchanged};
use jr_marks::Marks;
use jr_places::name_at;
use std::alloc::Global;

/// What gives the declaration at an offset a name, or the first reason why that cannot be (JLS 6.1): with it go its family, if it is a method, the
/// constructors of a class, and static imports of nothing else; a top-level type takes along the file that has its name.
#[tactic(auto, using(crate::proofs::Answers::refused_so, crate::proofs::Answers::answered_so))]
pub fn rename(
    alloc: Global,
    old: &Project,
    file: &[u8],
    at: u32,
    name: &[u8],
) -> Result<Change, ChangeFault>
    ensures { IsOrdered old.now.marks → spec.IsRenameAnswer old.now file.now at name.now result }
{
    match asked(old, file, at) {
        Ok(declared) => asked_for(alloc, old, declared, name),
        Err(why) => Err(why),
    }
}

// What comes of the declaration that is asked for.
#[tactic(auto, using(crate::proofs::Answers::together_so, crate::proofs::Answers::no_memory))]
fn asked_for(
    alloc: Global,
    old: &Project,
    declared: Option<u32>,
    name: &[u8],
) -> Result<Change, ChangeFault>
    ensures { IsOrdered old.now.marks → spec.IsAskedFor old.now declared name.now result }
{
    match family_of(alloc, old, declared) {
        Ok(family) => named(alloc, old, declared, &family, name),
        Err(_) => Err(ChangeFault::OutOfMemory),
    }
}

// What comes of it with its family.
#[tactic(auto, using(crate::proofs::Answers::refused_with, crate::proofs::Answers::named_so))]
fn named(
    alloc: Global,
    old: &Project,
    declared: Option<u32>,
    family: &[u32],
    name: &[u8],
) -> Result<Change, ChangeFault>
    ensures { IsOrdered old.now.marks → spec.IsNamed old.now declared family.now name.now result }
{
    match renamable(&old.marks, declared, family, name) {
        Ok(row) => newly_named(alloc, old, row, family, name),
        Err(why) => Err(ChangeFault::Bad(why)),
    }
}

// The declaration, if it can have the name, or the first reason why it cannot.
#[tactic(auto, using(crate::proofs::Answers::reaches_so, crate::proofs::Answers::bad_name_so, crate::proofs::Answers::nothing_so, crate::proofs::Answers::able_so))]
fn renamable(
    marks: &Marks,
    declared: Option<u32>,
    family: &[u32],
    name: &[u8],
) -> Result<u32, Reason>
    ensures { IsOrdered marks.now → spec.IsRenamable marks.now declared family.now name.now result }
{
    if reaches_prelude(marks, family) {
        return Err(Reason::ReachesPrelude);
    }
    if !is_identifier(name) {
        return Err(Reason::BadName);
    }
    match declared {
        Some(row) => Ok(row),
        None => Err(Reason::WrongKind),
    }
}

// What comes of a declaration that can have the name.
#[tactic(auto, using(crate::proofs::Answers::same_so, crate::proofs::Answers::other_so))]
fn newly_named(
    alloc: Global,
    old: &Project,
    declared: u32,
    family: &[u32],
    name: &[u8],
) -> Result<Change, ChangeFault>
    ensures { IsOrdered old.now.marks → spec.IsNewlyNamed old.now declared family.now name.now result }
{
    if name_at(old.marks.rows, declared) == name {
        unchanged_all(alloc, &old.marks)
    } else {
        changed(alloc, old, declared, family, name)
    }
}

// The change that keeps all.
fn unchanged_all(alloc: Global, marks: &Marks) -> Result<Change, ChangeFault>
    ensures ok { IfOk result (λ change. IsOrdered marks.now → drafting.IsFinished (drafting.unchanged marks.now) course.Same change) }
    ensures fault { IfErr result (λ fault. fault ≡ ChangeFault.OutOfMemory) }
{
    Ok(unchanged(alloc, marks)?)
}

// The change in which a declaration has the name.
#[tactic(auto, using(crate::proofs::Answers::new_name))]
fn changed(
    alloc: Global,
    old: &Project,
    declared: u32,
    family: &[u32],
    name: &[u8],
) -> Result<Change, ChangeFault>
    ensures ok { IfOk result (λ change. IsOrdered old.now.marks → spec.IsNewName old.now declared family.now name.now change) }
    ensures fault { IfErr result (λ fault. fault ≡ ChangeFault.OutOfMemory) }
{
    let rows = named_with(alloc, old, declared, family)?;
    with_rows(alloc, &old.marks, declared, name, rows)
}

// The change in which these rows have the name.
fn with_rows(
    alloc: Global,
    marks: &Marks,
    declared: u32,
    name: &[u8],
    rows: Vec<u32>,
) -> Result<Change, ChangeFault>
    ensures ok { IfOk result (λ change. IsOrdered marks.now → spec.IsRenamed marks.now declared name.now rows.items change) }
    ensures fault { IfErr result (λ fault. fault ≡ ChangeFault.OutOfMemory) }
{
    let path = path_with(alloc, marks, declared, name)?;
    let naming = Naming {
        name: Text::of(alloc, name)?,
        rows,
    };
    finished(alloc, marks, marks.unit_of(declared), &path, name, naming)
}

// The change of this naming, where a unit goes to a path.
fn finished(
    alloc: Global,
    marks: &Marks,
    moved: u32,
    path: &Path,
    name: &[u8],
    naming: Naming,
) -> Result<Change, ChangeFault>
    ensures ok { IfOk result (λ change. IsOrdered marks.now
        → drafting.IsFinished (drafting.with_naming (spec.renamed marks.now moved path.now name.now naming.rows.items) naming) course.Same change) }
    ensures fault { IfErr result (λ fault. fault ≡ ChangeFault.OutOfMemory) }
{
    let mut draft = Draft::new(alloc, marks)?;
    let renaming = Renaming {
        moved,
        path,
        rows: &naming.rows,
        to: name,
    };
    renaming.add_all(alloc, &mut draft, marks)?;
    draft.name(naming)?;
    Ok(draft.finish())
}
