// Arrays and initializers (JLS 10.6, 15.10, 15.13).
ghost use Rattle.std.specs.Prelude.{◌≡◌, IfOk, OnOk, Some, nat_eq};
ghost use Rattle.jr_tree.specs.Rows as all_rows;
ghost use Rattle.jr_supers.specs.Tabled.{IsSized};
ghost use Rattle.jr_codes.specs.Making.{code, code_if, of_one};
ghost use Rattle.jr_codes.specs.Waiting.{waiting};
ghost use Rattle.jr_expressions.specs.Names as names;
ghost use Rattle.jr_expressions.specs.Expressions as made;
ghost use Rattle.jr_expressions.specs.Passing.{AddsLength, TakesLengths};
ghost use Rattle.jr_codes.specs.Reads.{rows_of, facts, IsReadAt, Becomes};

use crate::conversions::{converted, promoted};
use jr_base::{Items, OutOfMemory};
use jr_codes::{Parts, Source, add_item, type_of};
use jr_core::Code;
use jr_defs::RowType;
use jr_tree::{Label, Row};

/// `array[at]`
pub fn index(source: &Source, codes: &mut Parts<Code>, at: u32) -> Result<(), OutOfMemory>
    ensures { OnOk result (Becomes source.now at (λ parts. made.index_made (facts source.now) parts) (waiting codes.old) (waiting codes.new)) }
{
    let array = codes.boxed(source.alloc, source.first(at))?;
    let place = promoted(source, codes, source.second(at))?;
    codes.push(at, Code::Index { array, at: place })
}

fn is_list(rows: &[Row], at: u32) -> bool
    ensures { result ≡ names.is_list (all_rows.label rows.now at) }
{
    match rows.get(at as usize) {
        Some(row) => match row.label {
            Label::List => true,
            _ => false,
        },
        None => false,
    }
}

fn is_new_array(rows: &[Row], at: u32) -> bool
    ensures { result ≡ names.is_new_array (all_rows.label rows.now at) }
{
    match rows.get(at as usize) {
        Some(row) => match row.label {
            Label::NewArray { .. } => true,
            _ => false,
        },
        None => false,
    }
}

// The type of a variable that is initialized.
fn declared_type(source: &Source, over: u32) -> Result<RowType, OutOfMemory>
    ensures { IfOk result (λ ty. IsSized (rows_of source.now) → names.declared_type (facts source.now) over ≡ Some ty) }
{
    match source.under().type_of_declared(over) {
        Some(ty) => Ok(ty),
        None => Err(OutOfMemory),
    }
}

// The type of the variable or array whose initializer stands right below a row that is no list.
fn initial_type(source: &Source, over: u32) -> Result<RowType, OutOfMemory>
    ensures { IfOk result (λ ty. IsSized (rows_of source.now) → names.initial_type (facts source.now) over ≡ Some ty) }
{
    if is_new_array(source.rows(), over) {
        source.type_of(over)
    } else {
        declared_type(source, over)
    }
}

// The first row round a row that is no list, and how many lists stand between.
fn round_lists(source: &Source, at: u32) -> Result<(u32, usize), OutOfMemory>
    ensures { IfOk result (λ found. names.IsRoundLists (facts source.now) at found.1 found.0) }
{
    let mut over = source.parent(at);
    for depth in 0..at {
        if !is_list(source.rows(), over) {
            return Ok((over, depth as usize));
        }
        over = source.parent(over);
    }
    Err(OutOfMemory)
}

fn lowered(ty: RowType, depth: usize) -> RowType
    ensures { result ≡ names.lowered depth ty }
{
    RowType {
        element: ty.element,
        dims: ty.dims.saturating_sub(depth),
    }
}

// The type of what an initializer or an item of one is the value of.
fn wanted_type(source: &Source, at: u32) -> Result<RowType, OutOfMemory>
    ensures { IfOk result (λ ty. IsReadAt source.now at → names.wanted_type (facts source.now) at ≡ Some ty) }
{
    let found = round_lists(source, at)?;
    let ty = initial_type(source, found.0)?;
    Ok(lowered(ty, found.1))
}

/// An expression as initializer or as item of one.
pub fn value(source: &Source, codes: &mut Parts<Code>, at: u32) -> Result<(), OutOfMemory>
    ensures { OnOk result (Becomes source.now at (λ parts. made.value_made (facts source.now) at parts) (waiting codes.old) (waiting codes.new)) }
{
    let wanted = wanted_type(source, at)?;
    let value = converted(source, codes, source.first(at), wanted)?;
    codes.push_boxed(at, value)
}

/// `{ item, .. }`, which creates an array.
pub fn list(source: &Source, codes: &mut Parts<Code>, at: u32) -> Result<(), OutOfMemory>
    ensures { OnOk result (Becomes source.now at (λ parts. made.list_made (facts source.now) at parts) (waiting codes.old) (waiting codes.new)) }
{
    let wanted = wanted_type(source, at)?;
    let items = codes.before(source.alloc, source.end(at))?;
    let ty = type_of(source, wanted)?;
    let dims = Items::new(source.alloc);
    let init = Some(items);
    codes.push(at, Code::NewArray { ty, dims, init })
}

fn add_length(
    source: &Source,
    codes: &mut Parts<Code>,
    all: &mut Items<Code>,
    row: u32,
) -> Result<(), OutOfMemory>
    ensures { OnOk result (AddsLength (facts source.now) row (waiting codes.old) (waiting codes.new) all.old all.new) }
{
    let length = promoted(source, codes, row)?;
    add_item(all, length)
}

// The lengths that stand before a row.
fn lengths(source: &Source, codes: &mut Parts<Code>, end: u32) -> Result<Items<Code>, OutOfMemory>
    ensures { IfOk result (λ all. TakesLengths (facts source.now) end (waiting codes.old) (waiting codes.new) all) }
{
    let mut all = Items::new(source.alloc);
    while let Some(row) = codes.next(end) {
        add_length(source, codes, &mut all, row)?;
    }
    Ok(all)
}

// A creation by a list.
fn listed(
    source: &Source,
    codes: &mut Parts<Code>,
    at: u32,
    has_name: bool,
) -> Result<(), OutOfMemory>
    ensures { OnOk result (Becomes source.now at (λ parts. of_one parts (λ m a. code a)) (waiting codes.old) (waiting codes.new)) }
{
    let list = if has_name {
        source.second(at)
    } else {
        source.first(at)
    };
    codes.hand_on(list, at)
}

// A creation by lengths.
fn measured(source: &Source, codes: &mut Parts<Code>, at: u32) -> Result<(), OutOfMemory>
    ensures { OnOk result (Becomes source.now at (λ parts. code_if (made.new_array_by (facts source.now) at parts)) (waiting codes.old) (waiting codes.new)) }
{
    let made = source.type_of(at)?;
    let dims = lengths(source, codes, source.end(at))?;
    let ty = type_of(source, made)?;
    let init = None;
    codes.push(at, Code::NewArray { ty, dims, init })
}

fn is_none(count: usize) -> bool
    ensures { result ≡ nat_eq count 0 }
{
    count == 0
}

/// A creation of an array, by its lengths or by a list.
pub fn new_array(
    source: &Source,
    codes: &mut Parts<Code>,
    at: u32,
    has_name: bool,
    count: usize,
) -> Result<(), OutOfMemory>
    ensures { OnOk result (Becomes source.now at (λ parts. made.new_array_made count (facts source.now) at parts) (waiting codes.old) (waiting codes.new)) }
{
    if is_none(count) {
        listed(source, codes, at, has_name)
    } else {
        measured(source, codes, at)
    }
}
