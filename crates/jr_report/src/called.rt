// By which calls a method may be run (JLS 15.12.4.4).
ghost use Rattle.std.specs.Prelude.{◌≡◌, ℕ, Decides, IfOk, OnOk, []};
ghost use Rattle.jr_tree.specs.declared.label.Role.TheVariants as role;
ghost use Rattle.jr_tree.specs.Rows as all_rows;
ghost use Rattle.jr_defs.specs.Enclosing.{DeclaredIn};
ghost use Rattle.jr_defs.specs.Overriding.{Dispatches};
ghost use Rattle.jr_dispatch.specs.Methods.{IsWholeWorld};
ghost use Rattle.jr_places.specs.Stamps.{IsStamping};
ghost use Rattle.jr_supers.specs.Supers.{ListsOnce};
ghost use Rattle.jr_report.specs.Calls as calls;
ghost use Rattle.jr_report.specs.Called as tell;
ghost use Rattle.jr_report.specs.Listed.{IsSubtypeOf, rows_in, table_in};

use crate::listed::{is_this, subtypes};
use jr_base::OutOfMemory;
use jr_dispatch::Methods;
use jr_members::{MemberKind, World};
use jr_places::{Stamps, declaring_type, is_class, is_in_interface, name_at};
use std::alloc::Global;

// A call of another method finds the method in the class.
fn finds(
    alloc: Global,
    world: &World,
    class: u32,
    other: u32,
    method: u32,
) -> Result<bool, OutOfMemory>
    ensures { IsWholeWorld (table_in world.now) world.now → IfOk result (λ is. Decides is (Dispatches (rows_in world.now) (table_in world.now) class other method)) }
{
    let found = Methods::of(world).dispatch(alloc, class, other)?;
    Ok(is_this(found, method))
}

// A call of another method finds the method in one of these classes.
fn is_found_in(
    alloc: Global,
    world: &World,
    classes: &[u32],
    other: u32,
    method: u32,
) -> Result<bool, OutOfMemory>
    ensures { IsWholeWorld (table_in world.now) world.now → IfOk result (λ is. Decides is (tell.IsFoundAmong (rows_in world.now) (table_in world.now) classes.now other method)) }
{
    for class in classes {
        let is_found = finds(alloc, world, *class, other, method)?;
        if is_found {
            return Ok(true);
        }
    }
    Ok(false)
}

// A class declares the method, and no interface declares the other.
fn is_by_class(world: &World, declaring: u32, other: u32) -> bool
    ensures { result ≡ tell.is_by_class (rows_in world.now) declaring other }
{
    is_class(world.under.rows, declaring) && !is_in_interface(world.under.rows, other)
}

// A call of another method finds the method in some class: in the one that declares it, or below that if it or the other is of an interface.
fn is_found(
    alloc: Global,
    world: &World,
    declaring: u32,
    below: &[u32],
    other: u32,
    method: u32,
) -> Result<bool, OutOfMemory>
    ensures { IsWholeWorld (table_in world.now) world.now → DeclaredIn (rows_in world.now) declaring method
        → ListsOnce below.now (IsSubtypeOf (rows_in world.now) (table_in world.now) declaring)
        → IfOk result (tell.TellsFound (rows_in world.now) (table_in world.now) other method) }
{
    let is_here = finds(alloc, world, declaring, other, method)?;
    if is_here {
        return Ok(true);
    }
    if is_by_class(world, declaring, other) {
        return Ok(false);
    }
    is_found_in(alloc, world, below, other, method)
}

// The same, where it is not known whether they have one signature.
fn is_found_by(
    alloc: Global,
    world: &World,
    declaring: u32,
    below: &[u32],
    other: u32,
    method: u32,
) -> Result<bool, OutOfMemory>
    ensures { IsWholeWorld (table_in world.now) world.now → DeclaredIn (rows_in world.now) declaring method
        → ListsOnce below.now (IsSubtypeOf (rows_in world.now) (table_in world.now) declaring)
        → all_rows.role_at (rows_in world.now) method ≡ role.Method → all_rows.role_at (rows_in world.now) other ≡ role.Method
        → IfOk result (tell.TellsFound (rows_in world.now) (table_in world.now) other method) }
{
    if !world.members.signatures().are_same(method, other) {
        return Ok(false);
    }
    is_found(alloc, world, declaring, below, other, method)
}

// Stamps a method, if it is such.
fn stamp_if(called: &mut Stamps, at: u32, is_such: bool)
    ensures { (bound : ℕ) → IsStamping called.old bound → tell.StampsIf bound at is_such called.old called.new }
{
    if !is_such {
        return;
    }
    let _ = called.add(at);
}

// Stamps those of some methods whose calls find the method of a type.
fn stamp_found(
    alloc: Global,
    world: &World,
    called: &mut Stamps,
    declaring: u32,
    below: &[u32],
    others: &[u32],
    method: u32,
) -> Result<(), OutOfMemory>
    ensures { IsWholeWorld (table_in world.now) world.now → DeclaredIn (rows_in world.now) declaring method
        → ListsOnce below.now (IsSubtypeOf (rows_in world.now) (table_in world.now) declaring)
        → all_rows.role_at (rows_in world.now) method ≡ role.Method → tell.AreOfName (rows_in world.now) method others.now
        → tell.IsGathering (rows_in world.now) (table_in world.now) method called.old others.now
        → OnOk result (tell.IsGathering (rows_in world.now) (table_in world.now) method called.new []) }
{
    for other in others {
        let is_such = is_found_by(alloc, world, declaring, below, *other, method)?;
        stamp_if(called, *other, is_such);
    }
    Ok(())
}

// The methods of the name of one, from the last back.
fn all_of_name(alloc: Global, world: &World, method: u32) -> Result<Vec<u32>, OutOfMemory>
    ensures { IsWholeWorld (table_in world.now) world.now → all_rows.role_at (rows_in world.now) method ≡ role.Method
        → IfOk result (λ all. tell.AreOfName (rows_in world.now) method all.items) }
{
    let name = world.under.places.name(method);
    let methods = world.members.kind(MemberKind::Method);
    methods.all_of_name(alloc, name)
}

// Stamps the methods whose calls find the method of a type.
fn stamp_callers(
    alloc: Global,
    world: &World,
    called: &mut Stamps,
    declaring: u32,
    method: u32,
) -> Result<(), OutOfMemory>
    ensures { IsWholeWorld (table_in world.now) world.now → DeclaredIn (rows_in world.now) declaring method
        → all_rows.role_at (rows_in world.now) method ≡ role.Method → tell.IsStampedAlone (rows_in world.now) method called.old
        → OnOk result (tell.IsGathering (rows_in world.now) (table_in world.now) method called.new []) }
{
    let below = subtypes(alloc, world, declaring)?;
    let others = all_of_name(alloc, world, method)?;
    stamp_found(alloc, world, called, declaring, &below, &others, method)
}

// The method alone.
fn only(alloc: Global, world: &World, method: u32) -> Result<Stamps, OutOfMemory>
    ensures { all_rows.role_at (rows_in world.now) method ≡ role.Method → IfOk result (tell.IsStampedAlone (rows_in world.now) method) }
{
    let mut called = Stamps::new(alloc, world.under.rows.len())?;
    let _ = called.add(method);
    Ok(called)
}

/// The method, and the methods whose calls find it in some class.
pub fn called_as(alloc: Global, world: &World, method: u32) -> Result<Stamps, OutOfMemory>
    ensures { IsWholeWorld (table_in world.now) world.now → all_rows.role_at (rows_in world.now) method ≡ role.Method
        → IfOk result (tell.AreCalledAs (rows_in world.now) (table_in world.now) method) }
{
    let mut called = only(alloc, world, method)?;
    match declaring_type(world.under.rows, method) {
        Some(declaring) => {
            stamp_callers(alloc, world, &mut called, declaring, method)?;
            Ok(called)
        }
        None => Ok(called),
    }
}

// The method has the name `toString`, and is stamped.
fn is_shown_by(world: &World, called: &Stamps, method: u32) -> bool
    ensures { Decides result (tell.IsNamedStamp (rows_in world.now) called.now method) }
{
    if !called.has(method) {
        return false;
    }
    name_at(world.under.rows, method) == b"toString".as_slice()
}

// One of the methods has the name `toString`, and is stamped.
fn has_stamped(world: &World, called: &Stamps, methods: &[u32]) -> bool
    ensures { Decides result (tell.HasNamedStamp (rows_in world.now) called.now methods.now) }
{
    for method in methods {
        if is_shown_by(world, called, *method) {
            return true;
        }
    }
    false
}

// The methods that a type declares.
fn declared_by(alloc: Global, world: &World, over: u32) -> Result<Vec<u32>, OutOfMemory>
    ensures { IsWholeWorld (table_in world.now) world.now → IfOk result (λ all. tell.AreDeclaredBy (rows_in world.now) over all.items) }
{
    let methods = world.members.kind(MemberKind::Method);
    methods.declared_by(alloc, over)
}

/// The method `toString` of Object is one of these.
pub fn has_to_string(alloc: Global, world: &World, called: &Stamps) -> Result<bool, OutOfMemory>
    ensures { IsWholeWorld (table_in world.now) world.now → IfOk result (λ is. Decides is (tell.IsShowing (rows_in world.now) called.now)) }
{
    match world.supers.object() {
        Some(object) => {
            let methods = declared_by(alloc, world, object)?;
            Ok(has_stamped(world, called, &methods))
        }
        None => Ok(false),
    }
}
