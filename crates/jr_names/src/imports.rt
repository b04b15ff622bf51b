// Static imports of what is renamed (JLS 7.5.3).
ghost use Rattle.std.specs.Prelude.{◌≡◌, ◌++◌, ◌&&◌, ◌||◌, not, true, filter, length, IfOk, OnOk};
ghost use Rattle.jr_tree.specs.Rows.{label, parent};
ghost use Rattle.jr_defs.specs.Imports.{ImportedBy};
ghost use Rattle.jr_defs.specs.Referents.{Table};
ghost use Rattle.jr_plain.specs.Modifiers as modified;
ghost use Rattle.jr_plain.specs.Search.{Lists};
ghost use Rattle.jr_members.specs.Each.{if_such};
ghost use Rattle.jr_members.specs.Sources.{ArePlaced};
ghost use Rattle.jr_members.specs.Worlds.{IsWorld};
ghost use Rattle.jr_lookup.specs.Sights as sights;
ghost use Rattle.jr_names.specs.Importing as along;
ghost use Rattle.jr_names.specs.Renaming as spec;

use jr_base::OutOfMemory;
use jr_members::{MemberKind, World, has};
use jr_places::{is_private, is_public, is_static, name_at, parent_at};
use jr_tree::{ImportKind, Label, Row};
use std::alloc::Global;

fn is_static_kind(kind: ImportKind) -> bool
    ensures { result ≡ along.is_static_kind kind }
{
    match kind {
        ImportKind::StaticSingle => true,
        _ => false,
    }
}

fn is_single_static(rows: &[Row], at: u32) -> bool
    ensures { result ≡ along.is_single_static (label rows.now at) }
{
    match rows.get(at as usize) {
        Some(row) => match row.label {
            Label::Import { kind } => is_static_kind(kind),
            _ => false,
        },
        None => false,
    }
}

// A static import of the name of a declaration.
fn is_import_of(rows: &[Row], declared: u32, at: u32) -> bool
    ensures { result ≡ along.is_import_of rows.now declared at }
{
    is_single_static(rows, at) && name_at(rows, at) == name_at(rows, declared)
}

// Puts a row behind a list, where it is such.
fn push_if(all: &mut Vec<u32>, is_such: bool, at: u32) -> Result<(), OutOfMemory>
    ensures { OnOk result (all.new.items ≡ all.old.items ++ if_such is_such at) }
{
    if is_such {
        all.push(at)?;
    }
    Ok(())
}

// A static member that is public, or not private and of the package.
fn is_open_static(rows: &[Row], is_one_package: bool, at: u32) -> bool
    ensures { result ≡ (modified.is_static rows.now at && (not (modified.is_private rows.now at) && (modified.is_public rows.now at || is_one_package))) }
{
    is_static(rows, at) && (!is_private(rows, at) && (is_public(rows, at) || is_one_package))
}

// A static member that a unit may import.
fn is_importable(world: &World, unit: u32, at: u32) -> bool
    ensures { ArePlaced world.now.under.rows.now world.now.under.places.now → result ≡ sights.is_static_importable world.now.under.rows.now unit at }
{
    let is_one_package = world.under.places.is_one_package(unit, at);
    is_open_static(world.under.rows, is_one_package, at)
}

// Adds those of some members that a unit may import and that are static.
fn add_importable(
    all: &mut Vec<u32>,
    world: &World,
    unit: u32,
    members: &[u32],
) -> Result<(), OutOfMemory>
    ensures { ArePlaced world.now.under.rows.now world.now.under.places.now
        → OnOk result (all.new.items ≡ all.old.items ++ filter (sights.is_static_importable world.now.under.rows.now unit) members.now) }
{
    for at in members {
        let is_such = is_importable(world, unit, *at);
        push_if(all, is_such, *at)?;
    }
    Ok(())
}

// Adds the static members of a kind and a name that a type has and that a unit may import.
fn add_members(
    alloc: Global,
    all: &mut Vec<u32>,
    world: &World,
    kind: MemberKind,
    unit: u32,
    over: u32,
    name: u32,
) -> Result<(), OutOfMemory>
    ensures { (t : Table) → IsWorld t world.now → OnOk result (sights.AddsSuch (sights.IsReached world.now.under.rows.now t kind unit name over) all.old.items all.new.items) }
{
    let members = world.named(alloc, kind, over, name)?;
    let some = members.as_slice();
    add_importable(all, world, unit, some)?;
    Ok(())
}

// The static members of a name that a type has and that a unit may import.
fn members_of(
    alloc: Global,
    world: &World,
    unit: u32,
    over: u32,
    name: u32,
) -> Result<Vec<u32>, OutOfMemory>
    ensures { (t : Table) → IsWorld t world.now → IfOk result (λ all. Lists all.items (along.IsImportable world.now.under.rows.now t unit name over)) }
{
    let mut all = Vec::new(alloc);
    add_members(alloc, &mut all, world, MemberKind::Field, unit, over, name)?;
    add_members(alloc, &mut all, world, MemberKind::Type, unit, over, name)?;
    add_members(alloc, &mut all, world, MemberKind::Method, unit, over, name)?;
    Ok(all)
}

// The members that a static import brings.
fn brought(alloc: Global, world: &World, import: u32) -> Result<Vec<u32>, OutOfMemory>
    ensures { along.IsWorldOf world.now world.now.under.rows.now → along.is_single_static (label world.now.under.rows.now import) ≡ true
        → IfOk result (λ all. Lists all.items (ImportedBy world.now.under.rows.now (along.table_in world.now) (parent world.now.under.rows.now import) import)) }
{
    let unit = parent_at(world.under.rows, import);
    let name = world.under.places.name(import);
    match world.under.named_type(import) {
        Some(over) => members_of(alloc, world, unit, over, name),
        None => Ok(Vec::new(alloc)),
    }
}

// All of some rows are among others.
#[tactic(auto, using(crate::proofs::Imported::all_now, crate::proofs::Imported::all_next, crate::proofs::Imported::all_end))]
fn are_all_in(some: &[u32], others: &[u32]) -> bool
    ensures { result ≡ along.are_all_in some.now others.now }
{
    for at in some {
        if !has(others, *at) {
            return false;
        }
    }
    true
}

fn is_only(are_in: bool, is_empty: bool) -> bool
    ensures { result ≡ (are_in && not is_empty) }
{
    are_in && !is_empty
}

// A static import brings some of these declarations, and nothing else.
fn brings_only(
    alloc: Global,
    world: &World,
    family: &[u32],
    import: u32,
) -> Result<bool, OutOfMemory>
    ensures { IfOk result (λ is. along.IsWorldOf world.now world.now.under.rows.now → along.is_single_static (label world.now.under.rows.now import) ≡ true
        → is ≡ along.brings_only world.now.under.rows.now (along.table_in world.now) family.now import) }
{
    let members = brought(alloc, world, import)?;
    let some = members.as_slice();
    let is_empty = some.is_empty();
    let is_such = is_only(are_all_in(some, family), is_empty);
    Ok(is_such)
}

// A row is a static import of the name of a declaration that brings nothing but these.
#[tactic(auto, using(crate::proofs::Imported::goes_so, crate::proofs::Imported::goes_not))]
fn goes_along(
    alloc: Global,
    world: &World,
    rows: &[Row],
    declared: u32,
    family: &[u32],
    at: u32,
) -> Result<bool, OutOfMemory>
    ensures { IfOk result (λ is. along.GoesAlong world.now rows.now declared family.now at is) }
{
    if is_import_of(rows, declared, at) {
        brings_only(alloc, world, family, at)
    } else {
        Ok(false)
    }
}

// Adds a row, if it is such an import.
fn add_import(
    alloc: Global,
    world: &World,
    rows: &[Row],
    all: &mut Vec<u32>,
    declared: u32,
    family: &[u32],
    at: u32,
) -> Result<(), OutOfMemory>
    ensures { OnOk result (along.AddsImport world.now rows.now declared family.now at all.old.items all.new.items) }
{
    let is_such = goes_along(alloc, world, rows, declared, family, at)?;
    push_if(all, is_such, at)
}

/// Adds the static imports of the name of a declaration that bring nothing but these.
#[tactic(auto, using(crate::proofs::Imported::imports_none, crate::proofs::Imported::imports_more))]
pub fn add_imports(
    alloc: Global,
    world: &World,
    rows: &[Row],
    all: &mut Vec<u32>,
    declared: u32,
    family: &[u32],
) -> Result<(), OutOfMemory>
    ensures { OnOk result (along.AddsImports world.now rows.now declared family.now (length rows.now) all.old.items all.new.items) }
{
    let Ok(count) = u32::try_from(rows.len()) else {
        return Err(OutOfMemory);
    };
    for at in 0..count {
        add_import(alloc, world, rows, all, declared, family, at)?;
    }
    Ok(())
}
