// Classes and interfaces (JLS 8.1, 9.1).
ghost use Rattle.std.specs.Prelude.{◌≡◌, ℕ, [], ◌∷◌, ◌++◌, map, reverse, length, flat_map, if◌then◌else◌, option_map, IfOk, OnOk};
ghost use Rattle.jr_tree.specs.declared.label.Role.TheVariants as role;
ghost use Rattle.jr_tree.specs.Rows as rows;
ghost use Rattle.jr_defs.specs.Supertypes.{Superclass};
ghost use Rattle.jr_dispatch.specs.Dispatching.{AreFoundIn};
ghost use Rattle.jr_dispatch.specs.Methods.{IsWholeWorld};
ghost use Rattle.jr_plain.specs.Declarations as plain;
ghost use Rattle.jr_plain.specs.Enclosing as enclosing;
ghost use Rattle.jr_plain.specs.Same.{same_role};
ghost use Rattle.jr_supers.specs.Direct.{FallsFrom};
ghost use Rattle.jr_codes.specs.Reads.{rows_of, table_of, facts};
ghost use Rattle.jr_elab.specs.Cores.{AreEach, AreFaces, AreFoundAs, IsClassOf, IsTypeWhere, MayAdd, face_if, field_if, members_of, members_at, members_by, members_in, type_row};
ghost use Rattle.jr_elab.specs.Cores as tell;

use crate::reads::{add_made, children, label_of, row_count, type_at};
use jr_base::{DeclId, Items, OutOfMemory, TypeId};
use jr_codes::{Source, add};
use jr_core::Class;
use jr_dispatch::{Found, Methods};
use jr_places::{declaring_type, is_body_of, is_inner, is_interface, is_type, role_at};
use jr_tree::{Label, Role, Row};

// The row is an interface.
fn is_face(source: &Source, over: u32) -> bool
    ensures { result ≡ plain.is_interface (rows_of source.now) over }
{
    is_interface(source.rows(), over)
}

// Adds a type, if it is an interface.
fn add_face(source: &Source, all: &mut Items<TypeId>, over: u32) -> Result<(), OutOfMemory>
    ensures { OnOk result (all.new ≡ all.old ++ face_if (facts source.now) over) }
{
    if is_face(source, over) {
        add(all, Ok(type_at(source, over)))
    } else {
        Ok(())
    }
}

// The interfaces among types.
fn interfaces(source: &Source, supers: &[u32]) -> Result<Items<TypeId>, OutOfMemory>
    ensures { IfOk result (λ all. all ≡ flat_map (face_if (facts source.now)) supers.now) }
{
    let mut all = Items::new(source.alloc);
    for over in supers {
        add_face(source, &mut all, *over)?;
    }
    Ok(all)
}

// The direct supertypes, from the last back.
fn direct_supers(source: &Source, at: u32) -> Result<Vec<u32>, OutOfMemory>
    ensures { IfOk result (λ supers. IsWholeWorld (table_of source.now) source.now.view.now.sight.world → FallsFrom (rows_of source.now) (table_of source.now) at (length (rows_of source.now)) supers.items) }
{
    source.world().supers.direct().rows(source.alloc, at, 0)
}

fn in_reverse(mut rows: Vec<u32>) -> Vec<u32>
    ensures { result.items ≡ reverse rows.items }
{
    rows.reverse();
    rows
}

// The direct superinterfaces, in their order.
fn faces(source: &Source, at: u32) -> Result<Items<TypeId>, OutOfMemory>
    ensures { IfOk result (λ all. IsWholeWorld (table_of source.now) source.now.view.now.sight.world → AreFaces (facts source.now) at all) }
{
    let falling = direct_supers(source, at)?;
    let supers = in_reverse(falling);
    let all = interfaces(source, &supers)?;
    Ok(all)
}

fn superclass(source: &Source, at: u32) -> Option<TypeId>
    ensures { IsWholeWorld (table_of source.now) source.now.view.now.sight.world → IsTypeWhere (facts source.now) (Superclass (rows_of source.now) (table_of source.now) at) result }
{
    match source.world().supers.superclass(at) {
        Some(over) => Some(type_at(source, over)),
        None => None,
    }
}

// The class whose instance encloses each instance.
fn outer_of(rows: &[Row], at: u32) -> Option<u32>
    ensures { result ≡ tell.outer_of rows.now at }
{
    if is_inner(rows, at) {
        declaring_type(rows, at)
    } else {
        None
    }
}

// The same, as the core knows it.
fn outer_type(source: &Source, at: u32) -> Option<TypeId>
    ensures { result ≡ option_map (type_row (facts source.now)) (tell.outer_of (rows_of source.now) at) }
{
    match outer_of(source.rows(), at) {
        Some(over) => Some(type_at(source, over)),
        None => None,
    }
}

// The row is a field.
fn is_field(source: &Source, row: u32) -> bool
    ensures { result ≡ same_role (rows.role_at (rows_of source.now) row) role.Field }
{
    match role_at(source.rows(), row) {
        Role::Field => true,
        _ => false,
    }
}

// Adds a row, if it is a field.
fn add_field(source: &Source, all: &mut Items<DeclId>, row: u32) -> Result<(), OutOfMemory>
    ensures { OnOk result (all.new ≡ all.old ++ field_if (facts source.now) row) }
{
    if is_field(source, row) {
        add(all, Ok(source.decl(row)))
    } else {
        Ok(())
    }
}

// Adds the fields among rows.
fn add_fields(source: &Source, all: &mut Items<DeclId>, rows: &[u32]) -> Result<(), OutOfMemory>
    ensures { OnOk result (all.new ≡ all.old ++ flat_map (field_if (facts source.now)) rows.now) }
{
    for row in rows {
        add_field(source, all, *row)?;
    }
    Ok(())
}

// Adds the fields right below a row.
fn add_fields_below(source: &Source, all: &mut Items<DeclId>, row: u32) -> Result<(), OutOfMemory>
    ensures { OnOk result (all.new ≡ all.old ++ flat_map (field_if (facts source.now)) (enclosing.children (rows_of source.now) row)) }
{
    let rows = children(source, row)?;
    add_fields(source, all, &rows)?;
    Ok(())
}

// Adds a row with this label, if it is an initializer, and else the fields that it declares.
fn add_labeled(
    source: &Source,
    all: &mut Items<DeclId>,
    row: u32,
    label: &Label,
) -> Result<(), OutOfMemory>
    ensures { OnOk result (all.new ≡ all.old ++ members_by label.now (facts source.now) row) }
{
    match label {
        Label::Initializer { .. } => add(all, Ok(source.decl(row))),
        _ => add_fields_below(source, all, row),
    }
}

// Adds the fields and initializers that a row declares.
fn add_members_at(source: &Source, all: &mut Items<DeclId>, row: u32) -> Result<(), OutOfMemory>
    ensures { OnOk result (all.new ≡ all.old ++ members_at (facts source.now) row) }
{
    match label_of(source, row) {
        Some(label) => add_labeled(source, all, row, label),
        None => Err(OutOfMemory),
    }
}

// Adds those that rows declare.
fn add_all(source: &Source, all: &mut Items<DeclId>, rows: &[u32]) -> Result<(), OutOfMemory>
    ensures { OnOk result (all.new ≡ all.old ++ flat_map (members_at (facts source.now)) rows.now) }
{
    for row in rows {
        add_members_at(source, all, *row)?;
    }
    Ok(())
}

// The row is the body of the type.
fn is_body(source: &Source, at: u32, row: u32) -> bool
    ensures { result ≡ enclosing.is_body_of (rows_of source.now) at row }
{
    is_body_of(source.rows(), at, row)
}

// Adds those that the rows right below a body declare.
fn add_body(source: &Source, all: &mut Items<DeclId>, body: u32) -> Result<(), OutOfMemory>
    ensures { OnOk result (all.new ≡ all.old ++ flat_map (members_at (facts source.now)) (enclosing.children (rows_of source.now) body)) }
{
    let rows = children(source, body)?;
    add_all(source, all, &rows)?;
    Ok(())
}

// Adds those that a row declares, if it is the body of the type.
fn add_members_in(
    source: &Source,
    all: &mut Items<DeclId>,
    at: u32,
    row: u32,
) -> Result<(), OutOfMemory>
    ensures { OnOk result (all.new ≡ all.old ++ members_in (facts source.now) at row) }
{
    if is_body(source, at, row) {
        add_body(source, all, row)
    } else {
        Ok(())
    }
}

// Those of the rows that are the body of the type.
fn members_among(source: &Source, at: u32, rows: &[u32]) -> Result<Items<DeclId>, OutOfMemory>
    ensures { IfOk result (λ all. all ≡ flat_map (members_in (facts source.now) at) rows.now) }
{
    let mut all = Items::new(source.alloc);
    for row in rows {
        add_members_in(source, &mut all, at, *row)?;
    }
    Ok(all)
}

// The fields and initializers that a type declares.
fn members(source: &Source, at: u32) -> Result<Items<DeclId>, OutOfMemory>
    ensures { IfOk result (λ all. all ≡ members_of (facts source.now) at) }
{
    let rows = children(source, at)?;
    let all = members_among(source, at, &rows)?;
    Ok(all)
}

// Adds a method and what calls of it find, as the core knows them.
fn add_found(
    source: &Source,
    all: &mut Items<(DeclId, DeclId)>,
    edge: &Found,
) -> Result<(), OutOfMemory>
    ensures { OnOk result (all.new ≡ all.old ++ tell.found_ids (facts source.now) edge.now ∷ []) }
{
    let method = source.decl(edge.method);
    let found = source.decl(edge.found);
    add(all, Ok((method, found)))
}

fn found_ids(source: &Source, edges: &[Found]) -> Result<Items<(DeclId, DeclId)>, OutOfMemory>
    ensures { IfOk result (λ all. all ≡ map (tell.found_ids (facts source.now)) edges.now) }
{
    let mut all = Items::new(source.alloc);
    for edge in edges {
        add_found(source, &mut all, edge)?;
    }
    Ok(all)
}

// For each method that a class has, the method that a call of it finds (JLS 15.12.4.4).
fn edges_of(source: &Source, at: u32) -> Result<Vec<Found>, OutOfMemory>
    ensures { (IsWholeWorld (table_of source.now) source.now.view.now.sight.world) → IfOk result (λ edges. AreFoundIn (rows_of source.now) (table_of source.now) at edges.items) }
{
    Methods::of(source.world()).found_in(source.alloc, at)
}

// The same, as the core knows them.
fn found(source: &Source, at: u32) -> Result<Items<(DeclId, DeclId)>, OutOfMemory>
    ensures { IfOk result (λ all. IsWholeWorld (table_of source.now) source.now.view.now.sight.world → AreFoundAs (facts source.now) at all) }
{
    let edges = edges_of(source, at)?;
    let all = found_ids(source, &edges)?;
    Ok(all)
}

fn class(source: &Source, at: u32) -> Result<Class, OutOfMemory>
    ensures { IfOk result (λ class. IsWholeWorld (table_of source.now) source.now.view.now.sight.world → IsClassOf (facts source.now) at class) }
{
    let faces = faces(source, at)?;
    let members = members(source, at)?;
    let found = found(source, at)?;
    let id = type_at(source, at);
    let parent = superclass(source, at);
    let outer = outer_type(source, at);
    Ok(Class {
        id,
        parent,
        faces,
        outer,
        members,
        found,
    })
}

// The row is a type.
fn is_type_at(source: &Source, at: u32) -> bool
    ensures { result ≡ plain.is_type (rows_of source.now) at }
{
    is_type(source.rows(), at)
}

// Adds the class or interface that a row declares, if it declares one.
fn add_class(source: &Source, classes: &mut Items<Class>, at: u32) -> Result<(), OutOfMemory>
    ensures { OnOk result (IsWholeWorld (table_of source.now) source.now.view.now.sight.world → MayAdd (plain.is_type (rows_of source.now) at) (IsClassOf (facts source.now) at) classes.old classes.new) }
{
    if is_type_at(source, at) {
        add_made(classes, class(source, at))
    } else {
        Ok(())
    }
}

/// The classes and interfaces of a program.
pub fn classes_of(source: &Source) -> Result<Items<Class>, OutOfMemory>
    ensures { IfOk result (λ classes. IsWholeWorld (table_of source.now) source.now.view.now.sight.world → AreEach (IsClassOf (facts source.now)) (plain.types (rows_of source.now)) classes) }
{
    let count = row_count(source)?;
    let mut classes = Items::new(source.alloc);
    for at in 0..count {
        add_class(source, &mut classes, at)?;
    }
    Ok(classes)
}
