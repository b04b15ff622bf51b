// Canonical names of types (JLS 6.7).
ghost use Rattle.std.specs.Prelude.{◌≡◌, ◌+◌, ◌^◌, ◌<◌, ◌++◌, map, length, IfOk, OnOk};
ghost use Rattle.jr_tree.specs.Rows as tree;
ghost use Rattle.jr_tree.specs.Tree.{IsTree};
ghost use Rattle.jr_defs.specs.Packages.{package_of, spelled};
ghost use Rattle.jr_places.specs.Packages as packages;
ghost use Rattle.jr_members.specs.Sources.{ArePlaced};
ghost use Rattle.jr_run.specs.Names.{behind_dots, canonical_path, named, package_path};
ghost use Rattle.jr_run.specs.Names as tell;

use jr_base::OutOfMemory;
use jr_places::{Places, declaring_type, end_at, name_at};
use jr_tree::{Label, Row};
use std::alloc::Global;

fn is_package(rows: &[Row], at: u32) -> bool
    ensures { result ≡ packages.is_package (tree.label rows.now at) }
{
    match rows.get(at as usize) {
        Some(row) => match row.label {
            Label::Package => true,
            _ => false,
        },
        None => false,
    }
}

// The row of the last identifier of the package that a unit declares, if it declares one (JLS 7.4).
fn package_row(rows: &[Row], unit: u32) -> Option<u32>
    ensures { length rows.now + 3 < 2 ^ 32 → unit < length rows.now → result ≡ tell.package_row rows.now unit }
{
    let declared = unit.saturating_add(1);
    if is_package(rows, declared) {
        Some(declared.saturating_add(1))
    } else {
        None
    }
}

// Adds the rows of the identifiers of a name, from the last back, by the row of the last.
fn push_name(rows: &[Row], last: u32, all: &mut Vec<u32>) -> Result<(), OutOfMemory>
    ensures { last + 1 < 2 ^ 32 → last < tree.end rows.now last → OnOk result (named rows.now all.new.items ≡ spelled rows.now last ++ named rows.now all.old.items) }
{
    for at in last..end_at(rows, last) {
        all.push(at)?;
    }
    Ok(())
}

// Adds the rows of the identifiers of the package that a unit declares.
fn push_declared(rows: &[Row], unit: u32, all: &mut Vec<u32>) -> Result<(), OutOfMemory>
    ensures { length rows.now + 3 < 2 ^ 32 → IsTree rows.now → unit < length rows.now → OnOk result (named rows.now all.new.items ≡ package_of rows.now unit ++ named rows.now all.old.items) }
{
    match package_row(rows, unit) {
        Some(last) => push_name(rows, last, all),
        None => Ok(()),
    }
}

// Adds the rows of the identifiers of the package in which a row stands.
fn push_package(
    rows: &[Row],
    places: &Places,
    at: u32,
    all: &mut Vec<u32>,
) -> Result<(), OutOfMemory>
    ensures { ArePlaced rows.now places.now → length rows.now + 3 < 2 ^ 32 → OnOk result (named rows.now all.new.items ≡ package_path rows.now at ++ named rows.now all.old.items) }
{
    match places.unit(at) {
        Some(unit) => push_declared(rows, unit, all),
        None => Ok(()),
    }
}

// Adds the rows of the identifiers of the canonical name of a type, from the last back.
fn push_path(
    rows: &[Row],
    places: &Places,
    class: u32,
    all: &mut Vec<u32>,
) -> Result<(), OutOfMemory>
    ensures { ArePlaced rows.now places.now → length rows.now + 3 < 2 ^ 32 → OnOk result (named rows.now all.new.items ≡ canonical_path rows.now class ++ named rows.now all.old.items) }
{
    let mut at = class;
    for _turn in 0..rows.len() {
        all.push(at)?;
        match declaring_type(rows, at) {
            Some(over) => at = over,
            None => return push_package(rows, places, at, all),
        }
    }
    Ok(())
}

// The rows of the identifiers of the canonical name of a type, in their order.
fn identifiers(
    alloc: Global,
    rows: &[Row],
    places: &Places,
    class: u32,
) -> Result<Vec<u32>, OutOfMemory>
    ensures { ArePlaced rows.now places.now → length rows.now + 3 < 2 ^ 32 → IfOk result (λ all. map (tree.name rows.now) all.items ≡ canonical_path rows.now class) }
{
    let mut all = Vec::new(alloc);
    push_path(rows, places, class, &mut all)?;
    all.reverse();
    Ok(all)
}

// Adds identifiers, each behind a dot.
fn add_behind_dots(rows: &[Row], some: &[u32], name: &mut Vec<u8>) -> Result<(), OutOfMemory>
    ensures { OnOk result (name.new.items ≡ name.old.items ++ behind_dots (map (tree.name rows.now) some.now)) }
{
    for at in some {
        name.push(b'.')?;
        name.extend_from_slice(name_at(rows, *at))?;
    }
    Ok(())
}

// Adds identifiers, with dots between them.
#[tactic(auto, using(crate::proofs::Naming::dots_first, crate::proofs::Naming::dots_none))]
fn add_dotted(rows: &[Row], some: &[u32], name: &mut Vec<u8>) -> Result<(), OutOfMemory>
    ensures { OnOk result (name.new.items ≡ name.old.items ++ tell.dotted (map (tree.name rows.now) some.now)) }
{
    match some {
        [] => Ok(()),
        [first, rest @ ..] => {
            name.extend_from_slice(name_at(rows, *first))?;
            add_behind_dots(rows, rest, name)
        }
    }
}

/// Adds the canonical name of a type.
pub fn add_canonical_name(
    alloc: Global,
    rows: &[Row],
    places: &Places,
    class: u32,
    name: &mut Vec<u8>,
) -> Result<(), OutOfMemory>
    ensures { ArePlaced rows.now places.now → length rows.now + 3 < 2 ^ 32 → OnOk result (name.new.items ≡ name.old.items ++ tell.canonical_name rows.now class) }
{
    let all = identifiers(alloc, rows, places, class)?;
    add_dotted(rows, &all, name)
}

/// The canonical name of a type.
pub fn canonical_name(
    alloc: Global,
    rows: &[Row],
    places: &Places,
    class: u32,
) -> Result<Vec<u8>, OutOfMemory>
    ensures { ArePlaced rows.now places.now → length rows.now + 3 < 2 ^ 32 → IfOk result (λ name. name.items ≡ tell.canonical_name rows.now class) }
{
    let mut name = Vec::new(alloc);
    add_canonical_name(alloc, rows, places, class, &mut name)?;
    Ok(name)
}
