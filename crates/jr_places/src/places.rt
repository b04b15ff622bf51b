// What is computed from rows alone.
ghost use Rattle.std.specs.Prelude.{◌≡◌, ◌<◌, ◌+◌, ◌^◌, IfOk, length, None, slice_index_or};
ghost use Rattle.jr_tree.specs.Local.{IsLocal};
ghost use Rattle.jr_tree.specs.Rows.{Rows};
ghost use Rattle.jr_tree.specs.Tree.{IsTree};
ghost use Rattle.jr_plain.specs.Enclosing.{is_same_top_level, top_level_of};
ghost use Rattle.jr_plain.specs.Packages.{is_same_package, unit_of};
ghost use Rattle.jr_plain.specs.Search.{Finds};
ghost use Rattle.jr_places.specs.Names.{name_row};
ghost use Rattle.jr_places.specs.Packages.{IsSpelled, PackagesAreNamed, same_some};
ghost use Rattle.jr_places.specs.Places.{ArePlaces, package_number};

use crate::around::arounds_of;
use crate::names::{name_in, names_of};
use crate::units::{Packages, tops_of, units_of};
use jr_base::OutOfMemory;
use jr_tree::Row;
use std::alloc::Global;

/// Where the rows of a program stand, by tables with an item for each row.
#[derive(Drop)]
pub struct Places {
    names: Vec<u32>,
    arounds: Vec<Option<u32>>,
    units: Vec<Option<u32>>,
    tops: Vec<Option<u32>>,
    packages: Packages,
}

// What a table has for a row.
fn item(all: &[Option<u32>], at: u32) -> Option<u32>
    ensures { result ≡ slice_index_or all.now at None }
{
    match all.get(at as usize) {
        Some(found) => *found,
        None => None,
    }
}

// Both are there, and are one.
fn are_one(one: Option<u32>, other: Option<u32>) -> bool
    ensures { result ≡ same_some one other }
{
    match one {
        Some(first) => match other {
            Some(second) => first == second,
            None => false,
        },
        None => false,
    }
}

impl Places {
    /// The tables of the rows, which are fewer than can be numbered.
    pub fn of(alloc: Global, rows: &[Row]) -> Result<Places, OutOfMemory>
        ensures tables { IfOk result (λ places. ArePlaces rows.now places) }
        ensures few { IfOk result (λ places. length rows.now + 3 < 2 ^ 32) }
    {
        if rows.len() >= u32::MAX as usize - 2 {
            return Err(OutOfMemory);
        }
        let names = names_of(alloc, rows)?;
        let arounds = arounds_of(alloc, rows)?;
        let units = units_of(alloc, rows)?;
        let tops = tops_of(alloc, rows)?;
        let packages = Packages::of(alloc, rows, &names)?;
        Ok(Places {
            names,
            arounds,
            units,
            tops,
            packages,
        })
    }

    /// The number of the name of a row: the first row with that name.
    pub fn name(&self, at: u32) -> u32
        ensures { (p : Rows) → ArePlaces p self.now → at < length p → result ≡ name_row p at }
    {
        name_in(&self.names, at)
    }

    /// The innermost type whose body holds the row.
    pub fn around(&self, at: u32) -> Option<u32>
        ensures { result ≡ slice_index_or self.now.arounds.items at None }
    {
        item(&self.arounds, at)
    }

    /// The unit of the row.
    pub fn unit(&self, at: u32) -> Option<u32>
        ensures table { result ≡ slice_index_or self.now.units.items at None }
        ensures holds { (p : Rows) → ArePlaces p self.now → IsLocal p → result ≡ unit_of p at }
    {
        item(&self.units, at)
    }

    /// The top-level type that holds the row.
    pub fn top(&self, at: u32) -> Option<u32>
        ensures table { result ≡ slice_index_or self.now.tops.items at None }
        ensures holds { (p : Rows) → ArePlaces p self.now → IsLocal p → result ≡ top_level_of p at }
    {
        item(&self.tops, at)
    }

    /// The number of the package of the row.
    pub fn package(&self, at: u32) -> Option<u32>
        ensures { result ≡ package_number self.now at }
    {
        self.packages.of_row(at)
    }

    /// Both rows stand in one package.
    pub fn is_one_package(&self, one: u32, other: u32) -> bool
        ensures { (p : Rows) → ArePlaces p self.now → IsLocal p → PackagesAreNamed p → result ≡ is_same_package p one other }
    {
        self.packages.is_one(one, other)
    }

    /// The number of the package that a name spells, by the row of its last identifier, if it has units.
    pub fn spelled(&self, rows: &[Row], at: u32) -> Option<u32>
        ensures { ArePlaces rows.now self.now → IsLocal rows.now → PackagesAreNamed rows.now → length rows.now < 2 ^ 32 → at < length rows.now → Finds result (IsSpelled rows.now self.now.packages at) }
    {
        self.packages.spelled(rows, &self.names, at)
    }

    /// Both rows stand in one top-level type.
    pub fn is_one_top(&self, one: u32, other: u32) -> bool
        ensures { (p : Rows) → ArePlaces p self.now → IsTree p → IsLocal p → result ≡ is_same_top_level p one other }
    {
        are_one(self.top(one), self.top(other))
    }
}
