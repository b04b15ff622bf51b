// What goes down from types to their subtypes (JLS 8.4.8, 9.1.3).
ghost use Rattle.std.specs.Prelude.{◌≡◌, true, false, option_map, IfOk, OnOk};
ghost use Rattle.std.specs.List.{list_any};
ghost use Rattle.jr_defs.specs.Enclosing.{DeclaredIn};
ghost use Rattle.jr_places.specs.Places.{package_number};
ghost use Rattle.jr_members.specs.Keys.{entry_for};
ghost use Rattle.jr_members.specs.Named.{has_list};
ghost use Rattle.jr_member_faults.specs.Descent as tell;
ghost use Rattle.jr_member_faults.specs.Views as views;

use crate::listing::add_entry;
use jr_base::OutOfMemory;
use jr_members::World;
use jr_places::{Chains, Entry, declaring_type, is_interface, is_private, is_protected, is_public};
use jr_tree::Row;
use std::alloc::Global;

/// What the headers of all types tell of what goes down to subtypes.
#[derive(Drop)]
pub struct Descent {
    /// Under the number of a package and 0, types of it that have direct subtypes in other packages.
    open_packages: Chains,
    /// An interface has a class among its direct supertypes.
    has_class_above: bool,
}

// One of these types is no interface.
fn has_class(rows: &[Row], overs: &[u32]) -> bool
    ensures { result ≡ list_any (tell.is_other_type rows.now) overs.now }
{
    for over in overs {
        if !is_interface(rows, *over) {
            return true;
        }
    }
    false
}

// The type is an interface, and one of its direct supertypes is none.
fn is_below_class(alloc: Global, world: &World, at: u32) -> Result<bool, OutOfMemory>
    ensures { views.IsRightWorld world.now → IfOk result (λ is. is ≡ false → tell.HasInterfacesAbove (views.rows_of world.now) (views.table_of world.now) at) }
{
    if !is_interface(world.under.rows, at) {
        return Ok(false);
    }
    let direct = world.supers.direct().rows(alloc, at, 0)?;
    let is = has_class(world.under.rows, &direct);
    Ok(is)
}

// Some interface has a class among its direct supertypes.
fn has_class_above(alloc: Global, world: &World) -> Result<bool, OutOfMemory>
    ensures { views.IsRightWorld world.now → IfOk result (λ is. is ≡ false → tell.InterfacesStandBelowInterfaces (views.rows_of world.now) (views.table_of world.now)) }
{
    let order = world.supers.order();
    for at in order {
        let is = is_below_class(alloc, world, *at)?;
        if is {
            return Ok(true);
        }
    }
    Ok(false)
}

// Where a type stands under the number of its package.
fn package_entry(world: &World, over: u32) -> Option<Entry>
    ensures { result ≡ option_map (λ n. entry_for n 0 over) (package_number world.now.under.places.now over) }
{
    match world.under.places.package(over) {
        Some(first) => Some(Entry {
            first,
            second: 0,
            row: over,
        }),
        None => None,
    }
}

// Puts a direct supertype of a type under its package, where the type stands in another.
fn open_package(
    alloc: Global,
    world: &World,
    packages: &mut Chains,
    at: u32,
    over: u32,
) -> Result<(), OutOfMemory>
    ensures { views.IsRightWorld world.now → OnOk result (tell.Opens world.now at over packages.old packages.new) }
{
    if world.under.places.is_one_package(at, over) {
        return Ok(());
    }
    let entry = package_entry(world, over);
    add_entry(alloc, packages, entry)?;
    Ok(())
}

// The same of all these supertypes.
fn open_each(
    alloc: Global,
    world: &World,
    packages: &mut Chains,
    at: u32,
    direct: &[u32],
) -> Result<(), OutOfMemory>
    ensures { views.IsRightWorld world.now → OnOk result (tell.OpensEach world.now at direct.now packages.old packages.new) }
{
    for over in direct {
        open_package(alloc, world, packages, at, *over)?;
    }
    Ok(())
}

// The same of all direct supertypes of a type.
fn open_above(
    alloc: Global,
    world: &World,
    packages: &mut Chains,
    at: u32,
) -> Result<(), OutOfMemory>
    ensures { views.IsRightWorld world.now → OnOk result (tell.OpensAbove world.now at packages.old packages.new) }
{
    let direct = world.supers.direct().rows(alloc, at, 0)?;
    open_each(alloc, world, packages, at, &direct)?;
    Ok(())
}

// The same of all types.
fn open_all(alloc: Global, world: &World, packages: &mut Chains) -> Result<(), OutOfMemory>
    ensures { views.IsRightWorld world.now → OnOk result (tell.AreOpenPackages world.now packages.new) }
{
    let order = world.supers.order();
    for at in order {
        open_above(alloc, world, packages, *at)?;
    }
    Ok(())
}

impl Descent {
    /// What the headers of a program tell.
    pub fn of(alloc: Global, world: &World) -> Result<Descent, OutOfMemory>
        ensures { views.IsRightWorld world.now → IfOk result (λ descent. tell.IsDescent world.now descent) }
    {
        let has_class_above = has_class_above(alloc, world)?;
        let open_packages = Chains::new(alloc);
        let mut descent = Descent {
            open_packages,
            has_class_above,
        };
        open_all(alloc, world, &mut descent.open_packages)?;
        Ok(descent)
    }

    /// Interfaces have interfaces alone above them.
    pub fn is_plain(&self) -> bool
        ensures { result ≡ true → self.now.has_class_above ≡ false }
    {
        !self.has_class_above
    }

    // A type of the package has a direct subtype in another.
    fn is_open(&self, number: u32) -> bool
        ensures { result ≡ has_list self.now.open_packages number 0 }
    {
        self.open_packages.last(number, 0).is_some()
    }

    // The method stands in the package of its type, and the direct subtypes of types there stand in it too.
    fn stays_inside(&self, world: &World, over: u32, method: u32) -> bool
        ensures { views.IsRightWorld world.now → tell.IsDescent world.now self.now → DeclaredIn (views.rows_of world.now) over method → result ≡ true → tell.StaysInside (views.rows_of world.now) (views.table_of world.now) method }
    {
        if !world.under.places.is_one_package(over, method) {
            return false;
        }
        match world.under.places.package(method) {
            Some(number) => !self.is_open(number),
            None => false,
        }
    }

    // Subtypes reach the method, if it is not private.
    fn is_reached(&self, world: &World, method: u32) -> bool
        ensures { views.IsRightWorld world.now → tell.IsDescent world.now self.now → result ≡ true → tell.IsReachedBelow (views.rows_of world.now) (views.table_of world.now) method }
    {
        if is_public(world.under.rows, method) {
            return true;
        }
        if is_protected(world.under.rows, method) {
            return true;
        }
        match declaring_type(world.under.rows, method) {
            Some(over) => self.stays_inside(world, over, method),
            None => false,
        }
    }

    /// All types below that of the method inherit it, but where another of its signature stands between.
    pub fn goes_down(&self, world: &World, method: u32) -> bool
        ensures { views.IsRightWorld world.now → tell.IsDescent world.now self.now → result ≡ true → tell.GoesDown (views.rows_of world.now) (views.table_of world.now) method }
    {
        if is_private(world.under.rows, method) {
            return false;
        }
        self.is_reached(world, method)
    }
}
