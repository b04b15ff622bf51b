// Packages by their identifiers.
ghost use Rattle.std.specs.Prelude.{◌≡◌, ◌-◌, ◌+◌, ◌<◌, ◌^◌, IfOk, OnOk, None, length};
ghost use Rattle.jr_tree.specs.Rows.{label};
ghost use Rattle.jr_places.specs.Packages.{is_package};
ghost use Rattle.jr_members.specs.Sources.{ArePlaced};
ghost use Rattle.jr_spell.specs.Packaging as packaging;

use jr_base::OutOfMemory;
use jr_places::{Places, end_at, is_unit, parent_at};
use jr_tree::{Label, Row};
use std::alloc::Global;
use std::collections::HashMap;

/// Rows that stand one below the other, from `first` to before `end`: the identifiers of a name from its last one back.
#[derive(Clone, Copy, Debug, PartialEq, Eq)]
pub struct Chain {
    pub first: u32,
    pub end: u32,
}

impl Chain {
    /// How many identifiers there are.
    pub fn len(self) -> u32
        ensures { result ≡ self.end - self.first }
    {
        self.end.saturating_sub(self.first)
    }

    /// The row of an identifier, counted from the first one on.
    pub fn row(self, nth: u32) -> u32
        ensures { result ≡ self.end - nth - 1 }
    {
        self.end.saturating_sub(nth).saturating_sub(1)
    }
}

fn is_package_declaration(rows: &[Row], at: u32) -> bool
    ensures { result ≡ is_package (label rows.now at) }
{
    match rows.get(at as usize) {
        Some(row) => match row.label {
            Label::Package => true,
            _ => false,
        },
        None => false,
    }
}

/// The package declaration of a unit, if it has one, holds its name.
fn holds_name(rows: &[Row], unit: u32) -> bool
    ensures { unit + 3 < 2 ^ 32 → result ≡ packaging.holds_name rows.now unit }
{
    let declared = unit.saturating_add(1);
    if is_package_declaration(rows, declared) {
        parent_at(rows, declared.saturating_add(1)) == declared
    } else {
        true
    }
}

/// The name in the package declaration of a unit; it has no identifiers where the unit is in the unnamed package.
pub fn package_name(rows: &[Row], unit: u32) -> Chain
    ensures { unit + 3 < 2 ^ 32 → result ≡ packaging.chain_of rows.now unit }
{
    let declared = unit.saturating_add(1);
    let first = declared.saturating_add(1);
    if is_package_declaration(rows, declared) {
        Chain {
            first,
            end: end_at(rows, first),
        }
    } else {
        Chain { first, end: first }
    }
}

/// Stands for no package: the first row is no identifier.
const NOWHERE: u32 = 0;

/// The packages that units declare, and those whose names these begin with. Each is known by the row of its last identifier in a package declaration.
#[derive(Drop)]
pub struct Paths {
    /// By the row of the package that it is in, or `NOWHERE`, and the number of its last identifier.
    rows: HashMap<(u32, u32), u32>,
}

impl Paths {
    // No packages.
    fn new(alloc: Global) -> Paths
        ensures { packaging.KnowNone result }
    {
        Paths {
            rows: HashMap::new(alloc),
        }
    }

    // The package of this name in the one at a row, if a unit's begins so.
    fn inside_of(&self, over: u32, name: u32) -> Option<u32>
        ensures { result ≡ packaging.package_in self.now over name }
    {
        self.rows.get(&(over, name)).copied()
    }

    // The package of this name in another one, which is the one at this row where none was known.
    fn enter(&mut self, over: u32, name: u32, row: u32) -> Result<u32, OutOfMemory>
        ensures { IfOk result (λ at. packaging.Enters self.old self.new over name row at) }
    {
        if let Some(known) = self.inside_of(over, name) {
            return Ok(known);
        }
        self.rows.insert((over, name), row)?;
        Ok(row)
    }

    // Adds the package of a unit.
    fn add(&mut self, rows: &[Row], places: &Places, unit: u32) -> Result<(), OutOfMemory>
        ensures { ArePlaced rows.now places.now → packaging.HoldsName rows.now unit → unit + 3 < 2 ^ 32 → packaging.AreEntries rows.now self.old → OnOk result (packaging.AddsPackage rows.now self.old self.new unit) }
    {
        let chain = package_name(rows, unit);
        let mut over = NOWHERE;
        for nth in 0..chain.len() {
            let row = chain.row(nth);
            over = self.enter(over, places.name(row), row)?;
        }
        Ok(())
    }

    // Adds the package of a unit, whose declaration must hold its name.
    fn add_unit(&mut self, rows: &[Row], places: &Places, unit: u32) -> Result<(), OutOfMemory>
        ensures { ArePlaced rows.now places.now → unit + 3 < 2 ^ 32 → packaging.AreEntries rows.now self.old → OnOk result (packaging.AddsPackage rows.now self.old self.new unit) }
    {
        if holds_name(rows, unit) {
            self.add(rows, places, unit)
        } else {
            Err(OutOfMemory)
        }
    }

    // Adds the package of a row, if it is a unit.
    fn add_at(&mut self, rows: &[Row], places: &Places, at: u32) -> Result<(), OutOfMemory>
        ensures { ArePlaced rows.now places.now → at + 3 < 2 ^ 32 → packaging.ArePathsTo rows.now self.old at → OnOk result (packaging.ArePathsTo rows.now self.new (at + 1)) }
    {
        if is_unit(rows, at) {
            self.add_unit(rows, places, at)
        } else {
            Ok(())
        }
    }

    /// The packages of the units of a program. A package declaration that holds no name is answered by want of memory.
    pub fn of(alloc: Global, rows: &[Row], places: &Places) -> Result<Paths, OutOfMemory>
        ensures paths { ArePlaced rows.now places.now → IfOk result (λ paths. packaging.ArePaths rows.now paths) }
        ensures few { IfOk result (λ paths. length rows.now + 3 < 2 ^ 32) }
    {
        if rows.len() >= u32::MAX as usize - 2 {
            return Err(OutOfMemory);
        }
        let mut paths = Paths::new(alloc);
        for at in 0..rows.len() {
            paths.add_at(rows, places, at as u32)?;
        }
        Ok(paths)
    }

    /// The package of this name in no other one, if a unit's begins so.
    pub fn first(&self, name: u32) -> Option<u32>
        ensures { result ≡ packaging.package_in self.now 0 name }
    {
        self.inside_of(NOWHERE, name)
    }

    /// The package of this name in another one, if a unit's begins so.
    pub fn inside(&self, over: Option<u32>, name: u32) -> Option<u32>
        ensures { result ≡ packaging.inside self.now over name }
    {
        match over {
            Some(row) => self.inside_of(row, name),
            None => None,
        }
    }
}
