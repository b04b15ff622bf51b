// The declarations that a rename takes along.
ghost use Rattle.std.specs.Prelude.{◌≡◌, ◌++◌, ◌∷◌, [], IfOk, OnOk};
ghost use Rattle.jr_tree.specs.Rows as all_rows;
ghost use Rattle.jr_tree.specs.declared.label.Role.TheVariants as role;
ghost use Rattle.jr_plain.specs.Enclosing as enclosing;
ghost use Rattle.jr_plain.specs.Same.{same_role};
ghost use Rattle.jr_marks.specs.Places.{IsOrdered};
ghost use Rattle.jr_names.specs.Renaming as spec;

use crate::imports::add_imports;
use jr_base::OutOfMemory;
use jr_change::Project;
use jr_dispatch::family;
use jr_draft::is_in_prelude;
use jr_marks::Marks;
use jr_places::{is_body_of, parent_at, role_at};
use jr_tree::{Label, Role, Row};
use std::alloc::Global;

fn alone(alloc: Global, row: u32) -> Result<Vec<u32>, OutOfMemory>
    ensures { IfOk result (λ family. family.items ≡ row ∷ []) }
{
    let mut all = Vec::new(alloc);
    all.push(row)?;
    Ok(all)
}

// A declaration alone, or the family of a method.
fn family_with(alloc: Global, old: &Project, row: u32) -> Result<Vec<u32>, OutOfMemory>
    ensures { IfOk result (λ family. spec.IsOfDeclaration old.now row family.items) }
{
    match role_at(old.marks.rows, row) {
        Role::Method => family(alloc, &old.view.sight.world, row),
        _ => alone(alloc, row),
    }
}

/// The declaration alone, or the family of a method; nothing where there is no declaration.
pub fn family_of(
    alloc: Global,
    old: &Project,
    declared: Option<u32>,
) -> Result<Vec<u32>, OutOfMemory>
    ensures { IfOk result (λ family. spec.IsFamilyOf old.now declared family.items) }
{
    match declared {
        Some(row) => family_with(alloc, old, row),
        None => Ok(Vec::new(alloc)),
    }
}

/// Some of these declarations stand in the prelude.
#[tactic(auto, using(crate::proofs::Named::reaches_now, crate::proofs::Named::reaches_next, crate::proofs::Named::reaches_end))]
pub fn reaches_prelude(marks: &Marks, family: &[u32]) -> bool
    ensures { IsOrdered marks.now → result ≡ spec.reaches_prelude marks.now family.now }
{
    for row in family {
        if is_in_prelude(marks, *row) {
            return true;
        }
    }
    false
}

// A constructor that is written.
fn is_written(rows: &[Row], at: u32) -> bool
    ensures { result ≡ spec.is_written rows.now at }
{
    match rows.get(at as usize) {
        Some(row) => matches!(row.label, Label::Constructor { .. }),
        None => false,
    }
}

fn is_constructor(rows: &[Row], at: u32) -> bool
    ensures { result ≡ same_role (all_rows.role_at rows.now at) role.Constructor }
{
    match role_at(rows, at) {
        Role::Constructor => true,
        _ => false,
    }
}

fn is_constructor_of(rows: &[Row], class: u32, at: u32) -> bool
    ensures { result ≡ enclosing.is_constructor_of rows.now class at }
{
    is_constructor(rows, at) && is_body_of(rows, class, parent_at(rows, at))
}

// A constructor of a class that is written.
fn has_class_name(rows: &[Row], class: u32, at: u32) -> bool
    ensures { result ≡ spec.has_class_name rows.now class at }
{
    is_written(rows, at) && is_constructor_of(rows, class, at)
}

// Adds a row, if it is such a constructor.
fn add_constructor(all: &mut Vec<u32>, rows: &[Row], class: u32, at: u32) -> Result<(), OutOfMemory>
    ensures { OnOk result (all.new.items ≡ all.old.items ++ spec.constructor_at rows.now class at) }
{
    if has_class_name(rows, class, at) {
        all.push(at)?;
    }
    Ok(())
}

// Adds the constructors of a class that are written.
#[tactic(auto, using(crate::proofs::Named::such_more))]
fn add_constructors(all: &mut Vec<u32>, rows: &[Row], class: u32) -> Result<(), OutOfMemory>
    ensures { OnOk result (all.new.items ≡ all.old.items ++ spec.constructors_of rows.now class) }
{
    let Ok(count) = u32::try_from(rows.len()) else {
        return Err(OutOfMemory);
    };
    for at in 0..count {
        add_constructor(all, rows, class, at)?;
    }
    Ok(())
}

/// The rows that get the new name with a declaration, as they rise: its family, the names of the constructors of a class, and the static imports of
/// what gets the name.
pub fn named_with(
    alloc: Global,
    old: &Project,
    declared: u32,
    family: &[u32],
) -> Result<Vec<u32>, OutOfMemory>
    ensures { IfOk result (λ rows. spec.IsNamedWith old.now declared family.now rows.items) }
{
    let mut all = Vec::new(alloc);
    add_named(alloc, old, &mut all, declared, family)?;
    all.sort_unstable();
    Ok(all)
}

// Adds all that get the name, in no order.
fn add_named(
    alloc: Global,
    old: &Project,
    all: &mut Vec<u32>,
    declared: u32,
    family: &[u32],
) -> Result<(), OutOfMemory>
    ensures { OnOk result (spec.AddsNamed old.now.view.sight.world old.now.marks.rows.now declared family.now all.old.items all.new.items) }
{
    add_imports(
        alloc,
        &old.view.sight.world,
        old.marks.rows,
        all,
        declared,
        family,
    )?;
    add_constructors(all, old.marks.rows, declared)?;
    all.extend_from_slice(family)?;
    Ok(())
}
