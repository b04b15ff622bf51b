// The class and the method with which a run starts (JLS 12.1.4).
ghost use Rattle.std.specs.Prelude.{◌≡◌, ◌+◌, ◌^◌, ◌<◌, Decides, length, Some, IfOk, bytes_eq, codes};
ghost use Rattle.jr_base.specs.declared.text.Text.{Text};
ghost use Rattle.jr_tree.specs.declared.label.Role.TheVariants as role;
ghost use Rattle.jr_tree.specs.Rows as tree;
ghost use Rattle.jr_tree.specs.Rows.{Rows};
ghost use Rattle.jr_defs.specs.Overriding.{Has};
ghost use Rattle.jr_defs.specs.Referents.{Table, entries};
ghost use Rattle.jr_plain.specs.Types as types;
ghost use Rattle.jr_supers.specs.Signatures.{AreSignatures};
ghost use Rattle.jr_supers.specs.Supers.{ListsOnce};
ghost use Rattle.jr_supers.specs.Tabled.{IsSized};
ghost use Rattle.jr_members.specs.Sources.{ArePlaced};
ghost use Rattle.jr_dispatch.specs.Methods.{IsWholeWorld};
ghost use Rattle.jr_marks.specs.Places.{IsOrdered};
ghost use Rattle.jr_run.specs.Starting.{IsReadWorld, IsStart, IsStartIn, IsStartOf, class_named, is_of_strings, is_one, rows_in, table_in};
ghost use Rattle.jr_run.specs.Starting as tell;

use crate::fault::RunFault;
use crate::names::canonical_name;
use crate::rows::row_count;
use jr_base::OutOfMemory;
use jr_change::{Project, Reason};
use jr_defs::RowType;
use jr_dispatch::Methods;
use jr_marks::Marks;
use jr_members::World;
use jr_places::{is_class, is_static, name_at};
use jr_supers::{Signatures, Tabled};
use jr_tree::Row;
use jr_types::{is_string_type, is_void, plain_type};
use std::alloc::Global;

fn is_same(one: &[u8], other: &[u8]) -> bool
    ensures { result ≡ bytes_eq one.now other.now }
{
    one == other
}

// The row is a class of this canonical name.
fn is_class_named(alloc: Global, under: &Tabled, name: &[u8], at: u32) -> Result<bool, OutOfMemory>
    ensures { ArePlaced under.now.rows.now under.now.places.now → length under.now.rows.now + 3 < 2 ^ 32 → IfOk result (λ is. is ≡ tell.is_class_named under.now.rows.now name.now at) }
{
    if !is_class(under.rows, at) {
        return Ok(false);
    }
    let canonical = canonical_name(alloc, under.rows, under.places, at)?;
    Ok(is_same(&canonical, name))
}

// The class of this canonical name.
fn find_class(alloc: Global, under: &Tabled, name: &[u8]) -> Result<Option<u32>, OutOfMemory>
    ensures { ArePlaced under.now.rows.now under.now.places.now → length under.now.rows.now + 3 < 2 ^ 32 → IfOk result (λ found. found ≡ class_named under.now.rows.now name.now) }
{
    let count = row_count(under.rows);
    for at in 0..count {
        let is_such = is_class_named(alloc, under, name, at)?;
        if is_such {
            return Ok(Some(at));
        }
    }
    Ok(None)
}

// The type is String[].
fn is_array_of_strings(rows: &[Row], ty: RowType) -> bool
    ensures { result ≡ tell.is_array_of_strings rows.now ty }
{
    ty.dims == 1 && is_string_type(rows, plain_type(ty.element))
}

// The method has one parameter.
fn has_one(signatures: &Signatures, at: u32) -> bool
    ensures { (p : Rows) (t : Table) → AreSignatures p t signatures.now → tree.role_at p at ≡ role.Method → result ≡ is_one (types.parameters p t at) }
{
    match signatures.count(at) {
        Some(count) => count == 1,
        None => false,
    }
}

// The method has one parameter, of type String[].
fn takes_strings(world: &World, at: u32) -> bool
    ensures { (t : Table) → AreSignatures (rows_in world.now) t world.now.members.now.callables.signatures → tree.role_at (rows_in world.now) at ≡ role.Method → result ≡ is_of_strings (rows_in world.now) (types.parameters (rows_in world.now) t at) }
{
    let signatures = world.members.signatures();
    match signatures.parameter(at, 0) {
        Some(ty) => {
            if !has_one(signatures, at) {
                return false;
            }
            is_array_of_strings(world.under.rows, ty)
        }
        None => false,
    }
}

// The method gives no value.
fn gives_nothing(under: &Tabled, at: u32) -> bool
    ensures { IsSized under.now.rows.now → result ≡ tell.is_void_type (types.type_of_declared under.now.rows.now (entries under.now.table.now) at) }
{
    match under.type_of_declared(at) {
        Some(ty) => is_void(ty),
        None => false,
    }
}

fn is_named_main(rows: &[Row], at: u32) -> bool
    ensures { result ≡ bytes_eq (tree.name rows.now at) (codes "main") }
{
    is_same(name_at(rows, at), b"main")
}

// A static void `main(String[])`.
fn is_main(world: &World, at: u32) -> bool
    ensures { IsReadWorld world.now → tree.role_at (rows_in world.now) at ≡ role.Method → result ≡ tell.is_main (rows_in world.now) (table_in world.now) at }
{
    if !is_named_main(world.under.rows, at) {
        return false;
    }
    if !is_static(world.under.rows, at) {
        return false;
    }
    if !gives_nothing(&world.under, at) {
        return false;
    }
    takes_strings(world, at)
}

// The same, which the class declares or inherits.
fn is_start(alloc: Global, world: &World, class: u32, at: u32) -> Result<bool, OutOfMemory>
    ensures { IsReadWorld world.now → tree.role_at (rows_in world.now) at ≡ role.Method → IfOk result (λ is. Decides is (IsStart (rows_in world.now) (table_in world.now) class at)) }
{
    if !is_main(world, at) {
        return Ok(false);
    }
    world.is_member(alloc, class, at)
}

// The methods of a class and of the types above it.
fn methods_of(alloc: Global, world: &World, class: u32) -> Result<Vec<u32>, OutOfMemory>
    ensures { IsReadWorld world.now → IfOk result (λ all. ListsOnce all.items (Has (rows_in world.now) (table_in world.now) class)) }
{
    Methods::of(world).methods_of(alloc, class)
}

// Of these methods, the first with which a run of the class can start.
fn first_start(
    alloc: Global,
    world: &World,
    class: u32,
    methods: &[u32],
) -> Result<Option<u32>, OutOfMemory>
    ensures { IsReadWorld world.now → ListsOnce methods.now (Has (rows_in world.now) (table_in world.now) class) → IfOk result (λ found. IsStartIn (rows_in world.now) (table_in world.now) class found) }
{
    for at in methods {
        let is_such = is_start(alloc, world, class, *at)?;
        if is_such {
            return Ok(Some(*at));
        }
    }
    Ok(None)
}

// The method of a class with which a run can start.
fn start_in(alloc: Global, world: &World, class: u32) -> Result<Option<u32>, OutOfMemory>
    ensures { IsReadWorld world.now → IfOk result (λ found. IsStartIn (rows_in world.now) (table_in world.now) class found) }
{
    let methods = methods_of(alloc, world, class)?;
    first_start(alloc, world, class, &methods)
}

// The class stands in one of the two units of the prelude.
fn is_in_prelude(marks: &Marks, class: u32) -> bool
    ensures { IsOrdered marks.now → result ≡ tell.is_in_prelude marks.now class }
{
    marks.unit_of(class) < 2
}

// The method with which a run of the class starts, which has the name.
fn start_of_class(alloc: Global, project: &Project, class: u32) -> Result<u32, RunFault>
    ensures { IsReadWorld project.now.view.sight.world → IsOrdered project.now.marks → (name : Text) → class_named (rows_in project.now.view.sight.world) name ≡ Some class → IsStartOf project.now name result }
{
    if is_in_prelude(&project.marks, class) {
        return Err(RunFault::Bad(Reason::InPrelude));
    }
    let found = start_in(alloc, &project.view.sight.world, class)?;
    match found {
        Some(row) => Ok(row),
        None => Err(RunFault::Bad(Reason::WrongKind)),
    }
}

/// The row of the method with which a run of a class starts, by the canonical name of the class.
pub fn start_of(alloc: Global, project: &Project, name: &[u8]) -> Result<u32, RunFault>
    ensures { IsReadWorld project.now.view.sight.world → IsOrdered project.now.marks → IsStartOf project.now name.now result }
{
    let found = find_class(alloc, &project.view.sight.world.under, name)?;
    match found {
        Some(class) => start_of_class(alloc, project, class),
        None => Err(RunFault::Bad(Reason::NoFile)),
    }
}
