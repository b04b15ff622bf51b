// Imports of single types that clash, and imports that name no canonical name (JLS 7.5.1).
ghost use Rattle.std.specs.Prelude.{◌≡◌, ◌+◌, ◌<◌, ◌^◌, ℕ, OnOk, length};
ghost use Rattle.std.specs.Bool.{Decides};
ghost use Rattle.jr_tree.specs.declared.label.ImportKind.TheVariants as importing;
ghost use Rattle.jr_tree.specs.Below.{IsTypeName};
ghost use Rattle.jr_tree.specs.Rows.{Rows, label};
ghost use Rattle.jr_defs.specs.Declarations.{IsType};
ghost use Rattle.jr_defs.specs.Packages.{spelled};
ghost use Rattle.jr_defs.specs.Referents.{Table};
ghost use Rattle.jr_defs.specs.Rules.{CanonicalName};
ghost use Rattle.jr_plain.specs.Imports.{is_import_label};
ghost use Rattle.jr_name_rules.specs.Found as found;
ghost use Rattle.jr_name_rules.specs.ImportTests as plain;
ghost use Rattle.jr_name_faults.specs.Imports as tell;

use crate::canonical::is_canonical_name;
use crate::twins::Twins;
use jr_base::OutOfMemory;
use jr_members::World;
use jr_places::{is_top_level, parent_at};
use jr_tree::{ImportKind, Label, Row};
use std::alloc::Global;

/// The types that imports of single types name, and those that units declare.
#[derive(Drop)]
pub struct Imports<'a> {
    world: &'a World<'a>,
    /// The types that units declare outside any other, under the unit and the name.
    tops: Twins,
    /// The types that imports of single types so far name, under the unit and the name.
    singles: Twins,
}

// The row is an import.
fn is_import(all: &[Row], at: u32) -> bool
    ensures { result ≡ plain.is_import (label all.now at) }
{
    match all.get(at as usize) {
        Some(row) => match row.label {
            Label::Import { .. } => true,
            _ => false,
        },
        None => false,
    }
}

/// The row is an import of a single type.
pub fn is_single(all: &[Row], at: u32) -> bool
    ensures { result ≡ is_import_label importing.Single (label all.now at) }
{
    match all.get(at as usize) {
        Some(row) => match row.label {
            Label::Import {
                kind: ImportKind::Single,
            } => true,
            _ => false,
        },
        None => false,
    }
}

impl<'a> Imports<'a> {
    /// No imports.
    pub fn new(alloc: Global, world: &'a World<'a>) -> Imports<'a>
        ensures { tell.IsPlacedWorld world.now → tell.AreImportsTo (tell.rows_of world.now) (tell.table_of world.now) 0 0 result }
    {
        Imports {
            world,
            tops: Twins::new(alloc),
            singles: Twins::new(alloc),
        }
    }

    /// Adds what units declare.
    pub fn add_rows(&mut self, alloc: Global) -> Result<(), OutOfMemory>
        ensures { (p : Rows) (t : Table) → tell.AreImportsTo p t 0 0 self.old → OnOk result (tell.AreImportsTo p t (length p) 0 self.new) }
    {
        let world = self.world;
        let Ok(count) = u32::try_from(world.under.rows.len()) else {
            return Err(OutOfMemory);
        };
        for at in 0..count {
            self.add_top(alloc, at)?;
        }
        Ok(())
    }

    // One more row, if it is a type that a unit declares.
    fn add_top(&mut self, alloc: Global, at: u32) -> Result<(), OutOfMemory>
        ensures { (p : Rows) (t : Table) → at < length p → tell.AreImportsTo p t at 0 self.old → OnOk result (tell.AreImportsTo p t (at + 1) 0 self.new) }
    {
        let world = self.world;
        let rows = world.under.rows;
        if !is_top_level(rows, at) {
            return Ok(());
        }
        let name = world.under.places.name(at);
        let unit = parent_at(rows, at);
        self.tops.add(alloc, unit, name, at)?;
        Ok(())
    }

    /// The row is an import.
    pub fn has_import(&self, at: u32) -> bool
        ensures { result ≡ plain.is_import (label (tell.rows_of self.now.world.now) at) }
    {
        let world = self.world;
        is_import(world.under.rows, at)
    }

    // The type that an import names.
    fn imported_type(&self, at: u32) -> Option<u32>
        ensures { at + 1 < 2 ^ 32 → result ≡ found.imported_type (tell.rows_of self.now.world.now) (tell.table_of self.now.world.now) at }
    {
        let world = self.world;
        match at.checked_add(1) {
            Some(next) => world.under.referred_type(next),
            None => None,
        }
    }

    // The type that an import of a single type names.
    fn single_type(&self, at: u32) -> Option<u32>
        ensures { at + 1 < 2 ^ 32 → result ≡ tell.single_type (tell.rows_of self.now.world.now) (tell.table_of self.now.world.now) at }
    {
        let world = self.world;
        if is_single(world.under.rows, at) {
            self.imported_type(at)
        } else {
            None
        }
    }

    // An import before this one names another type of the name, or the unit declares one.
    fn has_other(&self, unit: u32, name: u32, class: u32) -> bool
        ensures { result ≡ tell.has_other_type self.now unit name class }
    {
        self.singles.has_other(unit, name, class) || self.tops.has_other(unit, name, class)
    }

    // The same of an import, by the type that it names.
    fn has_clash(&self, at: u32, class: u32) -> bool
        ensures { (p : Rows) (t : Table) → class < length p → tell.AreImportsTo p t (length p) at self.now → result ≡ tell.has_clash p self.now at class }
    {
        let world = self.world;
        let unit = parent_at(world.under.rows, at);
        let name = world.under.places.name(class);
        self.has_other(unit, name, class)
    }

    /// An import before this one names another type of the same name, or the unit declares one.
    pub fn has_import_clash(&self, at: u32) -> bool
        ensures { (p : Rows) (t : Table) → at + 1 < length p → tell.AreImportsTo p t (length p) at self.now → result ≡ plain.has_import_clash p t at }
    {
        match self.single_type(at) {
            Some(class) => self.has_clash(at, class),
            None => false,
        }
    }

    /// Adds an import to those so far.
    pub fn pass(&mut self, alloc: Global, at: u32) -> Result<(), OutOfMemory>
        ensures { (p : Rows) (t : Table) → at + 1 < length p → tell.AreImportsTo p t (length p) at self.old → OnOk result (tell.AreImportsTo p t (length p) (at + 1) self.new) }
    {
        let Some(class) = self.single_type(at) else {
            return Ok(());
        };
        let world = self.world;
        let unit = parent_at(world.under.rows, at);
        let name = world.under.places.name(class);
        self.singles.add(alloc, unit, name, class)?;
        Ok(())
    }

    /// An import names a type by a name that is not canonical.
    pub fn is_import_not_canonical(&self, at: u32) -> bool
        ensures { (p : Rows) (t : Table) → at + 1 < length p → tell.AreImportsTo p t (length p) at self.now → result ≡ plain.is_import_not_canonical p t at }
    {
        let world = self.world;
        if !is_import(world.under.rows, at) {
            return false;
        }
        match self.imported_type(at) {
            Some(class) => !self.is_canonical(class, at.saturating_add(1)),
            None => false,
        }
    }

    // The name whose last identifier is the row is the canonical name of the type.
    fn is_canonical(&self, class: u32, at: u32) -> bool
        ensures { (p : Rows) (t : Table) (k n : ℕ) → tell.AreImportsTo p t k n self.now → IsType p class → IsTypeName (label p at) → Decides result (CanonicalName p class (spelled p at)) }
    {
        let world = self.world;
        is_canonical_name(world.under.rows, world.under.places, class, at)
    }
}
