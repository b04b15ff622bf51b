// What single-type imports bring under a table (JLS 7.5.1).
ghost use Rattle.std.specs.Prelude.{◌≡◌, ◌++◌, ◌+◌, ◌<◌, ◌^◌, [], ℕ, length, Some, IfOk, OnOk};
ghost use Rattle.jr_tree.specs.Local.{IsLocal};
ghost use Rattle.jr_tree.specs.Rows.{Rows};
ghost use Rattle.jr_defs.specs.Referents.{Table, entries};
ghost use Rattle.jr_plain.specs.Packages.{unit_of};
ghost use Rattle.jr_plain.specs.Search.{Lists};
ghost use Rattle.jr_places.specs.Packages.{same_some};
ghost use Rattle.jr_places.specs.Places.{ArePlaces};
ghost use Rattle.jr_members.specs.Keys.{entry_list, entries_of};
ghost use Rattle.jr_members.specs.Sources.{ArePlaced};
ghost use Rattle.jr_lookup.specs.Imports as tell;

use crate::scopes::{add_entry, is_single};
use jr_base::OutOfMemory;
use jr_places::{Chains, Entry, Places, parent_at};
use jr_supers::Tabled;
use std::alloc::Global;

/// The types that single-type imports bring, under their units and the names of the types. One of a type that its own unit declares is ignored.
#[derive(Drop)]
pub struct Imports {
    singles: Chains,
}

// The unit holds the row.
fn is_of_unit(places: &Places, unit: u32, at: u32) -> bool
    ensures { (p : Rows) → ArePlaces p places.now → IsLocal p → result ≡ same_some (unit_of p at) (Some unit) }
{
    match places.unit(at) {
        Some(found) => found == unit,
        None => false,
    }
}

// The type under its name, unless the unit declares it.
fn foreign_entry(places: &Places, unit: u32, row: u32) -> Option<Entry>
    ensures { (p : Rows) → ArePlaces p places.now → IsLocal p → row < length p → result ≡ tell.foreign_entry p unit row }
{
    if is_of_unit(places, unit, row) {
        return None;
    }
    let second = places.name(row);
    Some(Entry {
        first: unit,
        second,
        row,
    })
}

fn brought_type(places: &Places, unit: u32, named: Option<u32>) -> Option<Entry>
    ensures { (p : Rows) → ArePlaces p places.now → IsLocal p → ((d : ℕ) → named ≡ Some d → d < length p) → result ≡ tell.brought_type p unit named }
{
    match named {
        Some(row) => foreign_entry(places, unit, row),
        None => None,
    }
}

// What a row brings, if it is a single-type import.
fn brought(under: Tabled, at: u32) -> Option<Entry>
    ensures { ArePlaced under.entry.rows.now under.entry.places.now → at + 1 < 2 ^ 32 → result ≡ tell.brought under.entry.rows.now (entries under.entry.table.now) at }
{
    if !is_single(under.rows, at) {
        return None;
    }
    let unit = parent_at(under.rows, at);
    let named = under.referred_type(at.saturating_add(1));
    brought_type(under.places, unit, named)
}

impl Imports {
    /// No imports.
    pub fn none(alloc: Global) -> Imports
        ensures { result.singles ≡ [] }
    {
        Imports {
            singles: Chains::new(alloc),
        }
    }

    /// Adds what one row more brings, under a table that has its name.
    pub fn add_import(&mut self, alloc: Global, under: Tabled, at: u32) -> Result<(), OutOfMemory>
        ensures { ArePlaced under.entry.rows.now under.entry.places.now → at + 1 < 2 ^ 32 → OnOk result (self.new.singles ≡ self.old.singles ++ entry_list (tell.brought under.entry.rows.now (entries under.entry.table.now) at)) }
    {
        let entry = brought(under, at);
        add_entry(alloc, &mut self.singles, entry)
    }

    fn add_imports(&mut self, alloc: Global, under: Tabled) -> Result<(), OutOfMemory>
        ensures { ArePlaced under.entry.rows.now under.entry.places.now → self.old.singles ≡ [] → OnOk result (self.new.singles ≡ entries_of (tell.brought under.entry.rows.now (entries under.entry.table.now)) (length under.entry.rows.now)) }
    {
        let Ok(count) = u32::try_from(under.rows.len()) else {
            return Err(OutOfMemory);
        };
        for at in 0..count {
            self.add_import(alloc, under, at)?;
        }
        Ok(())
    }

    /// What single-type imports bring under the table.
    pub fn of(alloc: Global, under: Tabled) -> Result<Imports, OutOfMemory>
        ensures { ArePlaced under.entry.rows.now under.entry.places.now → IfOk result (λ imports. tell.AreImports under.entry.rows.now (entries under.entry.table.now) imports) }
    {
        let mut imports = Imports::none(alloc);
        imports.add_imports(alloc, under)?;
        Ok(imports)
    }

    /// The types of the name that single-type imports of a unit bring; several imports may bring one type.
    pub fn single(&self, alloc: Global, unit: u32, name: u32) -> Result<Vec<u32>, OutOfMemory>
        ensures { (p : Rows) (t : Table) → tell.AreImports p t self.now → IfOk result (λ rows. Lists rows.items (tell.IsBrought p t unit name)) }
    {
        self.singles.rows(alloc, unit, name)
    }
}
