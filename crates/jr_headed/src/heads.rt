// Whether there is one Object that names nothing in its header, and whether rows and brackets can be counted.
ghost use Rattle.std.specs.Prelude.{◌≡◌, ◌+◌, ◌<◌, ◌^◌, List, true, length, nat_lt, Decides};
ghost use Rattle.std.specs.List.{AllByRecursion};
ghost use Rattle.jr_tree.specs.declared.tree.Unit as declared_unit;
ghost use Rattle.jr_tree.specs.Shape.{IsShaped};
ghost use Rattle.jr_tree.specs.Rows.{label, program_rows};
ghost use Rattle.jr_plain.specs.Search.{all_below};
ghost use Rattle.jr_places.specs.Packages.{is_package, PackagesAreNamed};
ghost use Rattle.jr_supers.specs.Supers.{IsWellHeaded};
ghost use Rattle.jr_supers.specs.Tabled.{IsSized, dims_of};
ghost use Rattle.jr_members.specs.Held.{ObjectIsBare};
ghost use Rattle.jr_headed.specs.Heads as tell;

use jr_places::{is_object, parent_at};
use jr_supers::{find_object, header_place};
use jr_tree::{Label, Row};

// The row is no name in the header of Object.
fn is_bare_at(rows: &[Row], at: u32) -> bool
    ensures { result ≡ tell.is_bare_at rows.now at }
{
    match header_place(rows, at) {
        Some(_) => !is_object(rows, parent_at(rows, at)),
        None => true,
    }
}

// The row is this Object, or none.
fn is_only(rows: &[Row], object: Option<u32>, at: u32) -> bool
    ensures { result ≡ tell.is_only rows.now object at }
{
    match object {
        Some(only) => only == at || !is_object(rows, at),
        None => !is_object(rows, at),
    }
}

// So it is with the rows before the end.
fn are_all_well(rows: &[Row], object: Option<u32>, end: u32) -> bool
    ensures { result ≡ all_below end (tell.is_well_at rows.now object) }
{
    let mut are = true;
    for at in 0..end {
        are = are && is_bare_at(rows, at) && is_only(rows, object, at);
    }
    are
}

/// There are less than 2^32 rows, one Object at most, and it names nothing in its header. Rows of shaped units are then well headed, so that supertypes are exact.
pub fn is_well_headed(rows: &[Row]) -> bool
    ensures decides { Decides result (tell.HasBareObject rows.now) }
    ensures headed { (units : List declared_unit.Unit) → AllByRecursion IsShaped units → rows.now ≡ program_rows units → result ≡ true → IsWellHeaded rows.now × ObjectIsBare rows.now }
{
    let Ok(end) = u32::try_from(rows.len()) else {
        return false;
    };
    are_all_well(rows, find_object(rows), end)
}

// The brackets at a type or behind a name.
fn dims_at(rows: &[Row], at: u32) -> usize
    ensures { result ≡ dims_of (label rows.now at) }
{
    match rows.get(at as usize) {
        Some(row) => match row.label {
            Label::TypeUse { dims, .. } => dims,
            Label::Field { dims, .. } => dims,
            Label::Local { dims, .. } => dims,
            Label::Parameter { dims, .. } => dims,
            _ => 0,
        },
        None => 0,
    }
}

// The dimensions with a length and those without one are fewer than 2^64.
#[tactic(auto, using(crate::proofs::Headed::few_made, crate::proofs::Headed::many_made))]
fn are_few(lengths: usize, more: usize) -> bool
    ensures { result ≡ nat_lt (lengths + more) (2 ^ 64) }
{
    match lengths.checked_add(more) {
        Some(_) => true,
        None => false,
    }
}

// So it is with those of an array that the row creates.
fn is_counted_at(rows: &[Row], at: u32) -> bool
    ensures { result ≡ tell.is_counted_at rows.now at }
{
    match rows.get(at as usize) {
        Some(row) => match row.label {
            Label::NewArray { lengths, more, .. } => are_few(lengths, more),
            _ => true,
        },
        None => true,
    }
}

// Brackets and dimensions are few at the rows before the end.
fn are_shallow(rows: &[Row], end: u32) -> bool
    ensures { result ≡ all_below end (tell.is_sized_at rows.now) }
{
    let mut are = true;
    for at in 0..end {
        are = are && dims_at(rows, at) < 1 << 63 && is_counted_at(rows, at);
    }
    are
}

/// Rows and brackets are few enough to be counted: less than 2^32 rows, at each less than 2^63 brackets, and less than 2^64 dimensions of an array that is created.
pub fn is_sized(rows: &[Row]) -> bool
    ensures { Decides result (IsSized rows.now) }
{
    let Ok(end) = u32::try_from(rows.len()) else {
        return false;
    };
    are_shallow(rows, end)
}

// The row is a package declaration.
fn is_package_at(rows: &[Row], at: usize) -> bool
    ensures { result ≡ is_package (label rows.now at) }
{
    match rows.get(at) {
        Some(row) => match row.label {
            Label::Package => true,
            _ => false,
        },
        None => false,
    }
}

/// No package declaration is the last row, so that its name stands behind it (JLS 7.4).
pub fn are_packages_named(rows: &[Row]) -> bool
    ensures { Decides result (PackagesAreNamed rows.now) }
{
    if rows.is_empty() {
        return true;
    }
    !is_package_at(rows, rows.len() - 1)
}
