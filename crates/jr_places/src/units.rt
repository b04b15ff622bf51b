// The unit, the top-level type and the package of each row.
ghost use Rattle.std.specs.Prelude.{◌≡◌, ◌-◌, ◌^◌, ◌<◌, ◌≤◌, None, IfOk, length, slice_index_or};
ghost use Rattle.jr_tree.specs.Rows.{Rows, label, end};
ghost use Rattle.jr_tree.specs.Tree.{IsTree};
ghost use Rattle.jr_tree.specs.Local.{IsLocal};
ghost use Rattle.jr_plain.specs.Packages.{is_same_package};
ghost use Rattle.jr_plain.specs.Search.{Finds};
ghost use Rattle.jr_places.specs.Numbers.{IsNumbering};
ghost use Rattle.jr_places.specs.Tabulated.{tabulated};
ghost use Rattle.jr_places.specs.Names.{name_row};
ghost use Rattle.jr_places.specs.Packages as tell;
ghost use Rattle.jr_places.specs.Units.{unit_by, units, top_by, tops};

use crate::Numbering;
use crate::names::name_in;
use crate::reading::{end_at, is_top_level, is_unit, parent_at};
use jr_base::OutOfMemory;
use jr_tree::{Label, Row};
use std::alloc::Global;

// The row itself where it is a unit, or what the row round it has.
fn unit_of(rows: &[Row], known: &[Option<u32>], at: u32) -> Option<u32>
    ensures { result ≡ unit_by rows.now known.now at }
{
    if is_unit(rows, at) {
        return Some(at);
    }
    match known.get(parent_at(rows, at) as usize) {
        Some(unit) => *unit,
        None => None,
    }
}

/// The unit of each row; the program stands in none.
pub fn units_of(alloc: Global, rows: &[Row]) -> Result<Vec<Option<u32>>, OutOfMemory>
    requires { length rows.now < 2 ^ 32 }
    ensures { IfOk result (λ all. all.items ≡ units rows.now (length rows.now)) }
{
    let mut all = Vec::new(alloc);
    for at in 0..rows.len() {
        let unit = unit_of(rows, &all, at as u32);
        all.push(unit)?;
    }
    Ok(all)
}

// The row itself where it is a top-level type, or what the row round it has.
fn top_of(rows: &[Row], known: &[Option<u32>], at: u32) -> Option<u32>
    ensures { result ≡ top_by rows.now known.now at }
{
    if is_top_level(rows, at) {
        return Some(at);
    }
    match known.get(parent_at(rows, at) as usize) {
        Some(top) => *top,
        None => None,
    }
}

/// The top-level type of each row that stands in one.
pub fn tops_of(alloc: Global, rows: &[Row]) -> Result<Vec<Option<u32>>, OutOfMemory>
    requires { length rows.now < 2 ^ 32 }
    ensures { IfOk result (λ all. all.items ≡ tops rows.now (length rows.now)) }
{
    let mut all = Vec::new(alloc);
    for at in 0..rows.len() {
        let top = top_of(rows, &all, at as u32);
        all.push(top)?;
    }
    Ok(all)
}

/// The packages of units, by the numbers of their names.
#[derive(Drop)]
pub struct Packages {
    paths: Numbering,
    of_rows: Vec<Option<u32>>,
}

// The number of a name, whose last identifier is the row.
fn number_name(
    rows: &[Row],
    names: &[u32],
    paths: &mut Numbering,
    at: u32,
) -> Result<u32, OutOfMemory>
    ensures { IsNumbering paths.old → names.now ≡ tabulated (name_row rows.now) (length rows.now) → length rows.now < 2 ^ 32 → at < length rows.now → at < end rows.now at → end rows.now at ≤ length rows.now → IfOk result (λ number. tell.Numbered paths.old paths.new number (tell.names_to rows.now at (end rows.now at - at))) }
{
    let mut number = Numbering::EMPTY;
    for place in at..end_at(rows, at) {
        number = paths.number(number, name_in(names, place))?;
    }
    Ok(number)
}

fn is_package(rows: &[Row], at: u32) -> bool
    ensures { result ≡ tell.is_package (label rows.now at) }
{
    match rows.get(at as usize) {
        Some(row) => match row.label {
            Label::Package => true,
            _ => false,
        },
        None => false,
    }
}

// The number of the package that a unit declares.
fn number_package(
    rows: &[Row],
    names: &[u32],
    paths: &mut Numbering,
    unit: u32,
) -> Result<u32, OutOfMemory>
    ensures { IsNumbering paths.old → names.now ≡ tabulated (name_row rows.now) (length rows.now) → length rows.now < 2 ^ 32 → IsTree rows.now → tell.PackagesAreNamed rows.now → unit < length rows.now → IfOk result (λ number. tell.Numbered paths.old paths.new number (tell.path_of rows.now unit)) }
{
    let declared = unit.saturating_add(1);
    if !is_package(rows, declared) {
        return Ok(Numbering::EMPTY);
    }
    let name = declared.saturating_add(1);
    number_name(rows, names, paths, name)
}

// The number that a row has.
fn known_at(known: &[Option<u32>], at: u32) -> Option<u32>
    ensures { result ≡ slice_index_or known.now at None }
{
    match known.get(at as usize) {
        Some(number) => *number,
        None => None,
    }
}

// The number for a row: that of its own declaration where it is a unit, or that of its unit.
fn number_row(
    rows: &[Row],
    names: &[u32],
    paths: &mut Numbering,
    known: &[Option<u32>],
    at: u32,
) -> Result<Option<u32>, OutOfMemory>
    ensures { names.now ≡ tabulated (name_row rows.now) (length rows.now) → length rows.now < 2 ^ 32 → IsLocal rows.now → tell.PackagesAreNamed rows.now → at < length rows.now → tell.ArePackagesTo rows.now paths.old known.now at → IfOk result (λ found. tell.PackageAt rows.now paths.old paths.new at found) }
{
    if !is_unit(rows, at) {
        return Ok(known_at(known, parent_at(rows, at)));
    }
    let number = number_package(rows, names, paths, at)?;
    Ok(Some(number))
}

impl Packages {
    /// The packages of the units, where each row's name has the number that is given.
    pub fn of(alloc: Global, rows: &[Row], names: &[u32]) -> Result<Packages, OutOfMemory>
        requires { length rows.now < 2 ^ 32 }
        ensures { names.now ≡ tabulated (name_row rows.now) (length rows.now) → IsLocal rows.now → tell.PackagesAreNamed rows.now → IfOk result (λ packages. tell.ArePackages rows.now packages) }
    {
        let mut paths = Numbering::new(alloc);
        let mut of_rows = Vec::new(alloc);
        for at in 0..rows.len() {
            let number = number_row(rows, names, &mut paths, &of_rows, at as u32)?;
            of_rows.push(number)?;
        }
        Ok(Packages { paths, of_rows })
    }

    /// The number of the package of a row. The program is in none.
    pub fn of_row(&self, at: u32) -> Option<u32>
        ensures { result ≡ slice_index_or self.now.of_rows.items at None }
    {
        known_at(&self.of_rows, at)
    }

    /// Both rows stand in one package.
    pub fn is_one(&self, one: u32, other: u32) -> bool
        ensures { (p : Rows) → IsLocal p → tell.ArePackages p self.now → result ≡ is_same_package p one other }
    {
        is_same(self.of_row(one), self.of_row(other))
    }

    /// The number of the package that a name spells, by the row of its last identifier, if it has units.
    pub fn spelled(&self, rows: &[Row], names: &[u32], at: u32) -> Option<u32>
        ensures { names.now ≡ tabulated (name_row rows.now) (length rows.now) → length rows.now < 2 ^ 32 → IsTree rows.now → at < length rows.now → Finds result (tell.IsSpelled rows.now self.now at) }
    {
        let mut number = Numbering::EMPTY;
        for place in at..end_at(rows, at) {
            match self.paths.find(number, name_in(names, place)) {
                Some(next) => number = next,
                None => return None,
            }
        }
        Some(number)
    }
}

fn is_same(one: Option<u32>, other: Option<u32>) -> bool
    ensures { result ≡ tell.same_some one other }
{
    match one {
        Some(first) => match other {
            Some(second) => first == second,
            None => false,
        },
        None => false,
    }
}
