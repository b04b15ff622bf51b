// What is written before and behind a row.
ghost use Rattle.std.specs.Prelude.{◌≡◌, ◌+◌, ◌++◌, ◌<◌, ◌^◌, IfOk, OnOk, Some, None, [], take, drop, length, slice_get};
ghost use Rattle.jr_tree.specs.Rows.{label};
ghost use Rattle.jr_shapes.specs.declared.spelling.Shape.TheVariants as shape_is;
ghost use Rattle.jr_runs.specs.declared.item.Front.TheVariants as front_is;
ghost use Rattle.jr_runs.specs.Written.{enclosed_cast};
ghost use Rattle.jr_defs.specs.Referents.{entries};
ghost use Rattle.jr_runs.specs.Plans as spec;

use crate::item::{Front, Item, Meaning};
use crate::writing::{
    NO_NAME, WrittenName, ahead, before_call, left, push_cast, push_cast_this, push_enclosed_cast,
    push_name, push_parens, push_this,
};
use jr_base::OutOfMemory;
use jr_defs::{Element, Referent};
use jr_shapes::{Shape, Spelling, Suffix, TypeName, kept_rows, parts_of, suffix_rows};
use jr_tree::{Label, Primitive, Row};
use std::alloc::Global;

fn primitive_of(element: Element) -> Option<Primitive>
    ensures { result ≡ spec.primitive_of element }
{
    match element {
        Element::Boolean => Some(Primitive::Boolean),
        Element::Byte => Some(Primitive::Byte),
        Element::Short => Some(Primitive::Short),
        Element::Char => Some(Primitive::Char),
        Element::Int => Some(Primitive::Int),
        Element::Long => Some(Primitive::Long),
        _ => None,
    }
}

fn class_of(element: Element) -> Option<u32>
    ensures { result ≡ spec.class_of element }
{
    match element {
        Element::Class(of) => Some(of),
        _ => None,
    }
}

/// The names of a class in a cast; none of a primitive type.
fn type_names(alloc: Global, rows: &[Row], ty: TypeName) -> Result<Vec<u32>, OutOfMemory>
    ensures { IfOk result (λ names. names.items ≡ spec.type_names rows.now ty) }
{
    match class_of(ty.element) {
        Some(of) => {
            let count = ty.count;
            suffix_rows(alloc, rows, Suffix { of, count })
        }
        None => Ok(Vec::new(alloc)),
    }
}

fn trace_of(spellings: &[Spelling], number: usize) -> &[Referent]
    ensures { result.now ≡ spec.trace_by (slice_get spellings.now number) }
{
    match spellings.get(number) {
        Some(spelling) => spelling.trace.as_slice(),
        None => &[],
    }
}

fn push_receiver(
    items: &mut Vec<Item>,
    alloc: Global,
    rows: &[Row],
    found: &[Referent],
    row: u32,
    suffix: Suffix,
) -> Result<(), OutOfMemory>
    ensures { OnOk result (items.new.items ≡ items.old.items ++ enclosed_cast row found.now (Some suffix.of) (spec.names rows.now suffix) None None (length items.old.items)) }
{
    let names = suffix_rows(alloc, rows, suffix)?;
    let name = WrittenName {
        found,
        class: Some(suffix.of),
        names: &names,
    };
    push_enclosed_cast(items, row, &name, None, None)
}

fn push_argument(
    items: &mut Vec<Item>,
    alloc: Global,
    rows: &[Row],
    row: u32,
    ty: TypeName,
) -> Result<(), OutOfMemory>
    ensures { OnOk result (items.new.items ≡ items.old.items ++ spec.cast_front rows.now [] row (front_is.Argument ty) (length items.old.items)) }
{
    let names = type_names(alloc, rows, ty)?;
    let primitive = primitive_of(ty.element);
    let name = WrittenName {
        found: &[],
        class: class_of(ty.element),
        names: &names,
    };
    push_cast(items, row, primitive, ty.dims, &name, None, None)
}

/// What is written before the row. It gives the number of what the row stands in.
pub fn push_front(
    items: &mut Vec<Item>,
    alloc: Global,
    rows: &[Row],
    spellings: &[Spelling],
    row: u32,
    front: Front,
) -> Result<Option<usize>, OutOfMemory>
    ensures items { OnOk result (items.new.items ≡ items.old.items ++ spec.front_items rows.now spellings.now row front (length items.old.items)) }
    ensures over { IfOk result (λ over. over ≡ spec.front_over rows.now spellings.now row front (length items.old.items)) }
{
    let at = items.len();
    match front {
        Front::Nothing => Ok(None),
        Front::Receiver { suffix, spelling } => {
            let found = trace_of(spellings, spelling);
            push_receiver(items, alloc, rows, found, row, suffix)?;
            push_parens(items, rows, row, ahead(at, 1)?)
        }
        Front::Argument(ty) => {
            push_argument(items, alloc, rows, row, ty)?;
            push_parens(items, rows, row, at)
        }
    }
}

fn left_of(label: &Label) -> Meaning
    ensures { result ≡ spec.left_meaning label.now }
{
    match label {
        Label::Name { kind, place, .. } => left(Meaning {
            kind: *kind,
            place: *place,
        }),
        _ => before_call(),
    }
}

// What a name before the dot of the row means.
fn left_meaning(rows: &[Row], row: u32) -> Meaning
    ensures { result ≡ spec.left_meaning (label rows.now row) }
{
    match rows.get(row as usize) {
        Some(row) => left_of(&row.label),
        None => before_call(),
    }
}

/// A row with its spelling, behind which more is written.
#[derive(Clone, Copy)]
struct Spelled<'a> {
    rows: &'a [Row],
    spelling: &'a Spelling,
    row: u32,
    /// The number that it itself is written under.
    own: usize,
}

/// Where names are written behind a row.
fn push_left(items: &mut Vec<Item>, of: &Spelled, names: &[u32]) -> Result<(), OutOfMemory>
    requires { length items.old.items ≡ of.now.own + 1 }
    ensures { OnOk result (items.new.items ≡ items.old.items ++ spec.left_items of.now.rows.now of.now.spelling.now of.now.row names.now of.now.own) }
{
    let meaning = left_meaning(of.rows, of.row);
    let name = WrittenName {
        found: &of.spelling.trace,
        class: None,
        names,
    };
    push_name(items, of.row, meaning, &name, Some(of.own))
}

fn push_kept(
    items: &mut Vec<Item>,
    alloc: Global,
    table: &[Referent],
    of: &Spelled,
) -> Result<(), OutOfMemory>
    requires there { of.now.row + 1 < 2 ^ 32 }
    requires place { length items.old.items ≡ of.now.own + 1 }
    ensures { OnOk result (items.new.items ≡ items.old.items ++ spec.left_items of.now.rows.now of.now.spelling.now of.now.row (spec.kept_names of.now.rows.now (entries table.now) of.now.row of.now.spelling.now.found) of.now.own) }
{
    let rows = of.rows;
    let parts = parts_of(alloc, rows, table, of.row)?;
    let names = kept_rows(alloc, rows, table, of.spelling.found, &parts)?;
    push_left(items, of, &names)
}

// The names without so many of the first ones.
fn behind(names: &[u32], count: usize) -> &[u32]
    ensures { result.now ≡ drop count names.now }
{
    match names.split_at_checked(count) {
        Some((_, rest)) => rest,
        None => &[],
    }
}

// Where the last identifiers of a name are written behind a row, without so many of the first ones.
fn push_suffix(
    items: &mut Vec<Item>,
    alloc: Global,
    of: &Spelled,
    suffix: Suffix,
    skipped: usize,
) -> Result<(), OutOfMemory>
    requires { length items.old.items ≡ of.now.own + 1 }
    ensures { OnOk result (items.new.items ≡ items.old.items ++ spec.left_items of.now.rows.now of.now.spelling.now of.now.row (drop skipped (spec.names of.now.rows.now suffix)) of.now.own) }
{
    let names = suffix_rows(alloc, of.rows, suffix)?;
    push_left(items, of, behind(&names, skipped))
}

fn push_outer(
    items: &mut Vec<Item>,
    alloc: Global,
    of: &Spelled,
    outer: Suffix,
) -> Result<(), OutOfMemory>
    requires { length items.old.items ≡ of.now.own + 1 }
    ensures { OnOk result (items.new.items ≡ items.old.items ++ spec.back_items of.now.rows.now (entries []) of.now.spelling.now of.now.row (shape_is.Outer outer) of.now.own) }
{
    let names = suffix_rows(alloc, of.rows, outer)?;
    let name = WrittenName {
        found: &of.spelling.trace,
        class: Some(outer.of),
        names: &names,
    };
    push_this(items, of.row, &name, Some(of.own))
}

fn push_this_cast(
    items: &mut Vec<Item>,
    alloc: Global,
    of: &Spelled,
    suffix: Suffix,
) -> Result<(), OutOfMemory>
    requires { length items.old.items ≡ of.now.own + 1 }
    ensures { OnOk result (items.new.items ≡ items.old.items ++ spec.back_items of.now.rows.now (entries []) of.now.spelling.now of.now.row (shape_is.CastThis suffix) of.now.own) }
{
    let names = suffix_rows(alloc, of.rows, suffix)?;
    let name = WrittenName {
        found: &of.spelling.trace,
        class: Some(suffix.of),
        names: &names,
    };
    push_cast_this(items, of.row, &name, &NO_NAME, Some(of.own))
}

fn first_of(found: &[Referent], count: usize) -> &[Referent]
    ensures { result.now ≡ take count found.now }
{
    match found.split_at_checked(count) {
        Some((first, _)) => first,
        None => found,
    }
}

fn rest_of(found: &[Referent], count: usize) -> &[Referent]
    ensures { result.now ≡ drop count found.now }
{
    match found.split_at_checked(count) {
        Some((_, rest)) => rest,
        None => &[],
    }
}

fn push_outer_cast(
    items: &mut Vec<Item>,
    alloc: Global,
    of: &Spelled,
    suffix: Suffix,
    outer: Suffix,
) -> Result<(), OutOfMemory>
    requires { length items.old.items ≡ of.now.own + 1 }
    ensures { OnOk result (items.new.items ≡ items.old.items ++ spec.back_items of.now.rows.now (entries []) of.now.spelling.now of.now.row (shape_is.CastOuter suffix outer) of.now.own) }
{
    let names = suffix_rows(alloc, of.rows, suffix)?;
    let outers = suffix_rows(alloc, of.rows, outer)?;
    let trace = of.spelling.trace.as_slice();
    let name = WrittenName {
        found: first_of(trace, names.len()),
        class: Some(suffix.of),
        names: &names,
    };
    let outer_name = WrittenName {
        found: rest_of(trace, names.len()),
        class: Some(outer.of),
        names: &outers,
    };
    push_cast_this(items, of.row, &name, &outer_name, Some(of.own))
}

/// What is written behind the row by its own shape. The row itself has this number, and is the last one so far.
pub fn push_back(
    items: &mut Vec<Item>,
    alloc: Global,
    rows: &[Row],
    table: &[Referent],
    spelling: &Spelling,
    row: u32,
    own: usize,
) -> Result<(), OutOfMemory>
    requires there { row + 1 < 2 ^ 32 }
    requires place { length items.old.items ≡ own + 1 }
    ensures { OnOk result (items.new.items ≡ items.old.items ++ spec.back_items rows.now (entries table.now) spelling.now row spelling.now.shape own) }
{
    let of = Spelled {
        rows,
        spelling,
        row,
        own,
    };
    match spelling.shape {
        Shape::Kept => push_kept(items, alloc, table, &of),
        Shape::This => push_this(items, row, &NO_NAME, Some(own)),
        Shape::Outer(outer) => push_outer(items, alloc, &of, outer),
        Shape::CastThis(suffix) => push_this_cast(items, alloc, &of, suffix),
        Shape::CastOuter(suffix, outer) => push_outer_cast(items, alloc, &of, suffix, outer),
        Shape::Type(suffix) => push_suffix(items, alloc, &of, suffix, 0),
        Shape::Named(suffix) => push_suffix(items, alloc, &of, suffix, 1),
        _ => Ok(()),
    }
}
