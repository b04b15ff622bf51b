// Single static imports that bring nothing, or a type of a name that another type has (JLS 7.5.3).
ghost use Rattle.std.specs.Prelude.{[], ◌≡◌, ◌&&◌, ◌+◌, ◌++◌, ◌<◌, ◌||◌, false, filter, length, not, true, IfOk, OnOk};
ghost use Rattle.std.specs.List.{list_any};
ghost use Rattle.jr_tree.specs.declared.label.ImportKind.TheVariants as importing;
ghost use Rattle.jr_tree.specs.Rows.{Rows, label, parent};
ghost use Rattle.jr_defs.specs.Imports.{ImportedBy};
ghost use Rattle.jr_plain.specs.Imports.{is_import_label};
ghost use Rattle.jr_plain.specs.Modifiers as modified;
ghost use Rattle.jr_plain.specs.Search.{Finds, Lists};
ghost use Rattle.jr_places.specs.Names.{name_row};
ghost use Rattle.jr_places.specs.Places.{ArePlaces};
ghost use Rattle.jr_members.specs.Each.{AreBelow, if_such};
ghost use Rattle.jr_members.specs.Sources.{ArePlaced};
ghost use Rattle.jr_members.specs.declared.members.World as worlds;
ghost use Rattle.jr_lookup.specs.Sights as sights;
ghost use Rattle.jr_name_rules.specs.ImportTests.{has_static_import_fault};
ghost use Rattle.jr_name_faults.specs.Imports.{IsTabledWorld, rows_of, table_of};
ghost use Rattle.jr_name_faults.specs.Statics as tell;

use crate::imports::is_single;
use crate::twins::Twins;
use jr_base::OutOfMemory;
use jr_members::{MemberKind, World};
use jr_places::{Places, is_private, is_public, is_static, is_top_level, is_type, parent_at};
use jr_tree::{ImportKind, Label, Row};
use std::alloc::Global;

/// The types that rows bring to their units by simple names: imports of single types, single static imports, and the types that the unit declares outside any other.
#[derive(Drop)]
pub struct Statics<'a> {
    world: &'a World<'a>,
    /// The types, under the unit and the name.
    types: Twins,
    /// The rows that bring them, under the unit and the name: imports, and the declarations themselves.
    sources: Twins,
}

fn is_static_single(all: &[Row], at: u32) -> bool
    ensures { result ≡ is_import_label importing.StaticSingle (label all.now at) }
{
    match all.get(at as usize) {
        Some(row) => match row.label {
            Label::Import {
                kind: ImportKind::StaticSingle,
            } => true,
            _ => false,
        },
        None => false,
    }
}

fn either(one: bool, other: bool) -> bool
    ensures { result ≡ (one || other) }
{
    one || other
}

// Puts a row behind a list, where it is such.
fn push_if(all: &mut Vec<u32>, is_such: bool, at: u32) -> Result<(), OutOfMemory>
    ensures { OnOk result (all.new.items ≡ all.old.items ++ if_such is_such at) }
{
    if is_such {
        all.push(at)?;
    }
    Ok(())
}

// A static member that is public, or not private and of the package.
fn is_open_static(rows: &[Row], is_one_package: bool, at: u32) -> bool
    ensures { result ≡ (modified.is_static rows.now at && (not (modified.is_private rows.now at) && (modified.is_public rows.now at || is_one_package))) }
{
    is_static(rows, at) && (!is_private(rows, at) && (is_public(rows, at) || is_one_package))
}

// A static member that a unit may import.
fn is_importable(world: &World, unit: u32, at: u32) -> bool
    ensures { ArePlaced (rows_of world.now) world.now.under.places.now → result ≡ sights.is_static_importable (rows_of world.now) unit at }
{
    let is_one_package = world.under.places.is_one_package(unit, at);
    is_open_static(world.under.rows, is_one_package, at)
}

// Adds those of some members that are static and that a unit may import.
fn add_importable(
    all: &mut Vec<u32>,
    world: &World,
    unit: u32,
    members: &[u32],
) -> Result<(), OutOfMemory>
    ensures { ArePlaced (rows_of world.now) world.now.under.places.now → OnOk result (all.new.items ≡ all.old.items ++ filter (sights.is_static_importable (rows_of world.now) unit) members.now) }
{
    for at in members {
        let is_such = is_importable(world, unit, *at);
        push_if(all, is_such, *at)?;
    }
    Ok(())
}

// Adds the static members of a kind and a name that a type has and that a unit may import.
fn add_members(
    alloc: Global,
    all: &mut Vec<u32>,
    world: &World,
    kind: MemberKind,
    unit: u32,
    over: u32,
    name: u32,
) -> Result<(), OutOfMemory>
    ensures { IsTabledWorld world.now → OnOk result (sights.AddsSuch (sights.IsReached (rows_of world.now) (table_of world.now) kind unit name over) all.old.items all.new.items) }
{
    let members = world.named(alloc, kind, over, name)?;
    add_importable(all, world, unit, &members)
}

// Adds the static members of a kind that an import names.
fn add_imported(
    alloc: Global,
    all: &mut Vec<u32>,
    world: &World,
    kind: MemberKind,
    import: u32,
) -> Result<(), OutOfMemory>
    ensures { IsTabledWorld world.now → sights.IsImport (rows_of world.now) import
        → OnOk result (sights.AddsSuch (sights.IsNamedBy (rows_of world.now) (table_of world.now) kind (parent (rows_of world.now) import) (name_row (rows_of world.now) import) import) all.old.items all.new.items) }
{
    let unit = parent_at(world.under.rows, import);
    let name = world.under.places.name(import);
    match world.under.named_type(import) {
        Some(over) => add_members(alloc, all, world, kind, unit, over, name),
        None => Ok(()),
    }
}

// Adds the members that a single static import brings.
fn add_all_imported(
    alloc: Global,
    all: &mut Vec<u32>,
    world: &World,
    import: u32,
) -> Result<(), OutOfMemory>
    ensures { IsTabledWorld world.now → is_import_label importing.StaticSingle (label (rows_of world.now) import) ≡ true → all.old.items ≡ []
        → OnOk result (Lists all.new.items (ImportedBy (rows_of world.now) (table_of world.now) (parent (rows_of world.now) import) import)) }
{
    add_imported(alloc, all, world, MemberKind::Field, import)?;
    add_imported(alloc, all, world, MemberKind::Type, import)?;
    add_imported(alloc, all, world, MemberKind::Method, import)?;
    Ok(())
}

// The type that a row brings, if it is no static import: the row itself, or the type that it names.
fn one_type(world: &World, at: u32) -> Option<u32>
    ensures { IsTabledWorld world.now → is_import_label importing.StaticSingle (label (rows_of world.now) at) ≡ false
        → Finds result (tell.IsSource (rows_of world.now) (table_of world.now) (parent (rows_of world.now) at) at) }
{
    let rows = world.under.rows;
    if is_top_level(rows, at) {
        return Some(at);
    }
    if is_single(rows, at) {
        return world.under.named_type(at);
    }
    None
}

// Adds the types that a row brings to its unit by their simple names.
fn add_types(alloc: Global, all: &mut Vec<u32>, world: &World, at: u32) -> Result<(), OutOfMemory>
    ensures { IsTabledWorld world.now → OnOk result (sights.AddsSuch (tell.IsSource (rows_of world.now) (table_of world.now) (parent (rows_of world.now) at) at) all.old.items all.new.items) }
{
    if is_static_single(world.under.rows, at) {
        return add_imported(alloc, all, world, MemberKind::Type, at);
    }
    match one_type(world, at) {
        Some(class) => push_if(all, true, class),
        None => Ok(()),
    }
}

// Puts some types, and the row that brings them, under a unit and their names.
fn add_brought(
    alloc: Global,
    types: &mut Twins,
    sources: &mut Twins,
    places: &Places,
    unit: u32,
    source: u32,
    classes: &[u32],
) -> Result<(), OutOfMemory>
    ensures types { (p : Rows) → ArePlaces p places.now → AreBelow (length p) classes.now → OnOk result (types.new.rows ≡ tell.with_rows p (λ d. d) unit classes.now types.old.rows) }
    ensures sources { (p : Rows) → ArePlaces p places.now → AreBelow (length p) classes.now → OnOk result (sources.new.rows ≡ tell.with_rows p (λ d. source) unit classes.now sources.old.rows) }
{
    for class in classes {
        let name = places.name(*class);
        types.add(alloc, unit, name, *class)?;
        sources.add(alloc, unit, name, source)?;
    }
    Ok(())
}

impl<'a> Statics<'a> {
    /// Of no rows.
    pub fn new(alloc: Global, world: &'a World<'a>) -> Statics<'a>
        ensures { IsTabledWorld world.now → tell.AreStaticsTo world.now 0 result }
    {
        Statics {
            world,
            types: Twins::new(alloc),
            sources: Twins::new(alloc),
        }
    }

    /// Adds what all rows bring.
    pub fn add_rows(&mut self, alloc: Global) -> Result<(), OutOfMemory>
        ensures { (world : worlds.World) → tell.AreStaticsTo world 0 self.old → OnOk result (tell.AreStatics world self.new) }
    {
        let world = self.world;
        let Ok(count) = u32::try_from(world.under.rows.len()) else {
            return Err(OutOfMemory);
        };
        for at in 0..count {
            self.add_row(alloc, at)?;
        }
        Ok(())
    }

    // Adds what one more row brings.
    fn add_row(&mut self, alloc: Global, at: u32) -> Result<(), OutOfMemory>
        ensures { (world : worlds.World) → tell.AreStaticsTo world at self.old → OnOk result (tell.AreStaticsTo world (at + 1) self.new) }
    {
        let mut classes = Vec::new(alloc);
        self.add_row_with(alloc, at, &mut classes)
    }

    // The same, where the types that it brings are put into a list.
    fn add_row_with(
        &mut self,
        alloc: Global,
        at: u32,
        classes: &mut Vec<u32>,
    ) -> Result<(), OutOfMemory>
        ensures { (world : worlds.World) → tell.AreStaticsTo world at self.old → classes.old.items ≡ [] → OnOk result (tell.AreStaticsTo world (at + 1) self.new) }
    {
        let world = self.world;
        let unit = parent_at(world.under.rows, at);
        add_types(alloc, classes, world, at)?;
        let some = classes.as_slice();
        add_brought(
            alloc,
            &mut self.types,
            &mut self.sources,
            world.under.places,
            unit,
            at,
            some,
        )?;
        Ok(())
    }

    // Rows bring another type of the name to the unit, and another row than the import brings one.
    fn has_other(&self, unit: u32, name: u32, import: u32, class: u32) -> bool
        ensures { result ≡ tell.has_other_type self.now unit name import class }
    {
        self.types.has_other(unit, name, class) && self.sources.has_other(unit, name, import)
    }

    // The same of a member that is a type.
    fn is_clash(&self, unit: u32, name: u32, import: u32, member: u32) -> bool
        ensures { result ≡ tell.is_clash (rows_of self.now.world.now) self.now unit name import member }
    {
        let world = self.world;
        is_type(world.under.rows, member) && self.has_other(unit, name, import, member)
    }

    // The same of one of some members.
    #[tactic(auto, using(crate::proofs::Bringing::clash_now, crate::proofs::Bringing::clash_next, crate::proofs::Bringing::clash_end))]
    fn is_any_clash(&self, unit: u32, name: u32, import: u32, members: &[u32]) -> bool
        ensures { result ≡ list_any (tell.is_clash (rows_of self.now.world.now) self.now unit name import) members.now }
    {
        for member in members {
            if self.is_clash(unit, name, import, *member) {
                return true;
            }
        }
        false
    }

    // An import brings nothing, or a type of a name that another type has.
    fn is_fault(&self, import: u32, members: &[u32]) -> bool
        ensures { (world : worlds.World) → tell.AreStatics world self.now → is_import_label importing.StaticSingle (label (rows_of world) import) ≡ true
            → Lists members.now (ImportedBy (rows_of world) (table_of world) (parent (rows_of world) import) import) → result ≡ has_static_import_fault (rows_of world) (table_of world) import }
    {
        let world = self.world;
        let unit = parent_at(world.under.rows, import);
        let name = world.under.places.name(import);
        let is_clash = self.is_any_clash(unit, name, import, members);
        let is_empty = members.is_empty();
        either(is_empty, is_clash)
    }

    // The same, of the members that it brings, which are put into a list.
    fn is_fault_with(
        &self,
        alloc: Global,
        import: u32,
        members: &mut Vec<u32>,
    ) -> Result<bool, OutOfMemory>
        ensures { (world : worlds.World) → tell.AreStatics world self.now → is_import_label importing.StaticSingle (label (rows_of world) import) ≡ true → members.old.items ≡ []
            → IfOk result (λ is. is ≡ has_static_import_fault (rows_of world) (table_of world) import) }
    {
        let world = self.world;
        add_all_imported(alloc, members, world, import)?;
        let some = members.as_slice();
        let is_fault = self.is_fault(import, some);
        Ok(is_fault)
    }

    /// The row is a single static import.
    pub fn has_static_import(&self, at: u32) -> bool
        ensures { result ≡ is_import_label importing.StaticSingle (label (rows_of self.now.world.now) at) }
    {
        let world = self.world;
        is_static_single(world.under.rows, at)
    }

    /// A single static import brings nothing, or a type of a name that another type has.
    pub fn has_fault(&self, alloc: Global, at: u32) -> Result<bool, OutOfMemory>
        ensures { (world : worlds.World) → tell.AreStatics world self.now → IfOk result (λ is. is ≡ has_static_import_fault (rows_of world) (table_of world) at) }
    {
        let world = self.world;
        if !is_static_single(world.under.rows, at) {
            return Ok(false);
        }
        let mut members = Vec::new(alloc);
        self.is_fault_with(alloc, at, &mut members)
    }
}
