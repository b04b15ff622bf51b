// A package that gets another name.
ghost use Rattle.std.specs.Prelude.{◌≡◌, IfErr, IfOk, OnOk};
ghost use Rattle.jr_marks.specs.Places.{IsOrdered};
ghost use Rattle.jr_change.specs.declared.change.Course.TheVariants as course;
ghost use Rattle.jr_draft.specs.Drafting as drafting;
ghost use Rattle.jr_draft.specs.Packages as packages;
ghost use Rattle.jr_package.specs.Repackaging as spec;

use crate::moving::Moving;
use crate::units::Package;
use jr_base::{OutOfMemory, Text};
use jr_change::{Change, ChangeFault, Naming, Project, Reason};
use jr_defs::Referent;
use jr_draft::{Draft, behind_last, folder_of_package, is_package_name, unchanged};
use jr_marks::Marks;
use std::alloc::Global;

/// What gives a package of the workspace another name, or the first reason why that cannot be: each unit that is exactly in it goes to the folder of
/// the new name, under the name of its file, and imports on demand of the package name the new one (JLS 7.4, 7.5.2).
#[tactic(auto, using(crate::proofs::Renamed::old_is_none, crate::proofs::Renamed::new_is_none, crate::proofs::Renamed::both_are))]
pub fn repackage(
    alloc: Global,
    old: &Project,
    from: &[u8],
    to: &[u8],
) -> Result<Change, ChangeFault>
    ensures { IsOrdered old.now.marks → spec.IsRepackageAnswer old.now from.now to.now result }
{
    if !is_package_name(from) {
        return Err(ChangeFault::Bad(Reason::BadName));
    }
    if !is_package_name(to) {
        return Err(ChangeFault::Bad(Reason::BadName));
    }
    let table = old.view.sight.world.under.table;
    renamed(alloc, &old.marks, table, from, to)
}

// What comes of two names of packages.
#[tactic(auto, using(crate::proofs::Renamed::memory_is))]
fn renamed(
    alloc: Global,
    marks: &Marks,
    table: &[Referent],
    from: &[u8],
    to: &[u8],
) -> Result<Change, ChangeFault>
    ensures { IsOrdered marks.now → spec.IsRenamed marks.now table.now from.now to.now result }
{
    let named = Package { marks, table, from };
    match named.units(alloc) {
        Ok(moved) => some_renamed(alloc, &named, to, &moved),
        Err(_) => Err(ChangeFault::OutOfMemory),
    }
}

// The same, where these units move.
#[tactic(auto, using(crate::proofs::Renamed::none_move, crate::proofs::Renamed::same_so, crate::proofs::Renamed::moved_so))]
fn some_renamed(
    alloc: Global,
    named: &Package,
    to: &[u8],
    moved: &[u32],
) -> Result<Change, ChangeFault>
    ensures { IsOrdered named.now.marks.now → moved.now ≡ spec.moved_units named.now.marks.now named.now.from.now
        → spec.IsRenamed named.now.marks.now named.now.table.now named.now.from.now to.now result }
{
    if moved.is_empty() {
        return Err(ChangeFault::Bad(Reason::NoFile));
    }
    if named.from == to {
        return unchanged_all(alloc, named.marks);
    }
    changed(alloc, named, to, moved)
}

// The change that keeps all.
fn unchanged_all(alloc: Global, marks: &Marks) -> Result<Change, ChangeFault>
    ensures ok { IfOk result (λ change. IsOrdered marks.now → drafting.IsFinished (drafting.unchanged marks.now) course.Same change) }
    ensures fault { IfErr result (λ fault. fault ≡ ChangeFault.OutOfMemory) }
{
    Ok(unchanged(alloc, marks)?)
}

// The change in which these units move.
fn changed(alloc: Global, named: &Package, to: &[u8], moved: &[u32]) -> Result<Change, ChangeFault>
    ensures ok { IfOk result (λ change. IsOrdered named.now.marks.now → moved.now ≡ spec.moved_units named.now.marks.now named.now.from.now
        → spec.IsRepackaged named.now.marks.now named.now.table.now named.now.from.now to.now change) }
    ensures fault { IfErr result (λ fault. fault ≡ ChangeFault.OutOfMemory) }
{
    let naming = naming_of(alloc, named, to)?;
    let mut draft = Draft::new(alloc, named.marks)?;
    add_all(alloc, &mut draft, named, to, moved)?;
    draft.name(naming)?;
    Ok(draft.finish())
}

// The identifier that the new name ends in, and where it stands.
fn naming_of(alloc: Global, named: &Package, to: &[u8]) -> Result<Naming, OutOfMemory>
    ensures name { IfOk result (λ naming. naming.name ≡ packages.behind_last to.now 46) }
    ensures rows { IfOk result (λ naming. IsOrdered named.now.marks.now → naming.rows.items ≡ spec.all_names named.now.marks.now named.now.table.now named.now.from.now) }
{
    Ok(Naming {
        name: Text::of(alloc, behind_last(to, b'.'))?,
        rows: named.names(alloc)?,
    })
}

// Adds all units, of which these move.
fn add_all(
    alloc: Global,
    draft: &mut Draft,
    named: &Package,
    to: &[u8],
    moved: &[u32],
) -> Result<(), ChangeFault>
    ensures ok { OnOk result (IsOrdered named.now.marks.now → moved.now ≡ spec.moved_units named.now.marks.now named.now.from.now
        → draft.old ≡ drafting.begun named.now.marks.now → draft.new ≡ spec.repackaged named.now.marks.now named.now.table.now named.now.from.now to.now) }
    ensures fault { IfErr result (λ fault. fault ≡ ChangeFault.OutOfMemory) }
{
    let folder = folder_of_package(alloc, to)?;
    let bytes = folder.as_slice();
    let moving = Moving {
        named,
        folder: bytes,
        to,
    };
    moving.add_all(alloc, draft, moved)?;
    Ok(())
}
