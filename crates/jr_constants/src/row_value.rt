// The value of one row, from those of its parts and of variables (JLS 15.28).

ghost use Rattle.std.specs.Prelude.{◌≡◌, ◌+◌, ◌<◌, ◌^◌, if◌then◌else◌, List, ℕ, Some, None, length, option_and_then, true, false, IfOk, OnOk};
ghost use Rattle.jr_tree.specs.Rows.{label};
ghost use Rattle.jr_defs.specs.Operators as defined;
ghost use Rattle.jr_defs.specs.Constants.{literal_value};
ghost use Rattle.jr_defs.specs.Referents.{entries};
ghost use Rattle.jr_plain.specs.Constants as plain;
ghost use Rattle.jr_plain.specs.Conversions.{of_two};
ghost use Rattle.jr_supers.specs.Tabled.{declared};
ghost use Rattle.jr_constants.specs.Values.{seen, seen_if, value_in, value_in_if};
ghost use Rattle.jr_constants.specs.Values as told;
ghost use Rattle.jr_base.specs.declared.kind.Kind.TheVariants as token;
ghost use Rattle.jr_base.specs.declared.constant.Const.TheVariants as c;
ghost use Rattle.jr_constants.specs.Tables as tell;

use crate::operators::{bool_value, number_value, unary_value};
use crate::texts::Texts;
use crate::value::{Value, assigned_to, cast_to, chosen};
use jr_base::{Keyword, Kind, OutOfMemory, Symbol, Units};
use jr_defs::{Element, RowType};
use jr_places::{is_string, parent_at};
use jr_supers::Tabled;
use jr_tree::{Label, Row};
use std::alloc::Global;

// What a table has for a row.
pub fn item(all: &[Option<Value>], at: u32) -> Option<Value>
    ensures { result ≡ tell.item all.now at }
{
    match all.get(at as usize) {
        Some(value) => *value,
        None => None,
    }
}

// The row behind all that is in a row.
fn after(rows: &[Row], at: u32) -> Option<u32>
    ensures { result ≡ tell.after rows.now at }
{
    match rows.get(at as usize) {
        Some(row) => Some(row.end),
        None => None,
    }
}

// The value of the row, if it is a child of the other.
fn part(rows: &[Row], values: &[Option<Value>], over: u32, at: u32) -> Option<Value>
    ensures { result ≡ tell.part rows.now values.now over at }
{
    if parent_at(rows, at) == over {
        item(values, at)
    } else {
        None
    }
}

// The same, where there may be no such row.
fn part_if(rows: &[Row], values: &[Option<Value>], over: u32, at: Option<u32>) -> Option<Value>
    ensures { result ≡ tell.part_if rows.now values.now over at }
{
    match at {
        Some(row) => part(rows, values, over, row),
        None => None,
    }
}

// The row behind the first child.
fn behind_first(rows: &[Row], at: u32) -> Option<u32>
    ensures { at + 1 < 2 ^ 32 → result ≡ tell.after rows.now (at + 1) }
{
    after(rows, at.checked_add(1)?)
}

// The row behind the second child.
fn behind_second(rows: &[Row], at: u32) -> Option<u32>
    ensures { at + 1 < 2 ^ 32 → result ≡ option_and_then (tell.after rows.now) (tell.after rows.now (at + 1)) }
{
    match behind_first(rows, at) {
        Some(row) => after(rows, row),
        None => None,
    }
}

fn first(rows: &[Row], values: &[Option<Value>], at: u32) -> Option<Value>
    ensures { at + 1 < 2 ^ 32 → result ≡ tell.part rows.now values.now at (at + 1) }
{
    part(rows, values, at, at.checked_add(1)?)
}

fn second(rows: &[Row], values: &[Option<Value>], at: u32) -> Option<Value>
    ensures { at + 1 < 2 ^ 32 → result ≡ tell.second rows.now values.now at }
{
    part_if(rows, values, at, behind_first(rows, at))
}

fn third(rows: &[Row], values: &[Option<Value>], at: u32) -> Option<Value>
    ensures { at + 1 < 2 ^ 32 → result ≡ tell.third rows.now values.now at }
{
    part_if(rows, values, at, behind_second(rows, at))
}

// The value of a word.
fn word_value(word: Keyword) -> Option<Value>
    ensures exact { (texts : List (List ℕ)) → value_in_if texts result ≡ literal_value (token.Word word) }
    ensures inside { (texts : List (List ℕ)) → tell.IsInIf texts result }
{
    match word {
        Keyword::True => Some(Value::Bool(true)),
        Keyword::False => Some(Value::Bool(false)),
        _ => None,
    }
}

// One more string.
#[tactic(auto, using(crate::proofs::Adding::new_text, crate::proofs::Growing::added_in))]
fn string(alloc: Global, units: &Units, texts: &mut Texts) -> Result<Value, OutOfMemory>
    ensures exact { IfOk result (λ value. value_in texts.new value ≡ c.Str units.now) }
    ensures grown { OnOk result (tell.IsGrown texts.old texts.new) }
    ensures inside { IfOk result (λ value. tell.IsIn texts.new value) }
{
    let copy = units.copy(alloc)?;
    let number = texts.add(copy)?;
    Ok(Value::Str(number))
}

// The value of a literal; null has none (JLS 15.8.1).
#[tactic(auto, using(crate::proofs::Growing::same_grown))]
fn literal(alloc: Global, kind: &Kind, texts: &mut Texts) -> Result<Option<Value>, OutOfMemory>
    ensures exact { IfOk result (λ value. value_in_if texts.new value ≡ literal_value kind.now) }
    ensures grown { OnOk result (tell.IsGrown texts.old texts.new) }
    ensures inside { IfOk result (λ value. tell.IsInIf texts.new value) }
{
    match kind {
        Kind::Int(number) => Ok(Some(Value::Int(*number))),
        Kind::IntMin => Ok(Some(Value::Int(i32::MIN))),
        Kind::Long(number) => Ok(Some(Value::Long(*number))),
        Kind::LongMin => Ok(Some(Value::Long(i64::MIN))),
        Kind::Char(unit) => Ok(Some(Value::Char(*unit))),
        Kind::Str(units) => Ok(Some(string(alloc, units, texts)?)),
        Kind::Word(word) => Ok(word_value(*word)),
        _ => Ok(None),
    }
}

// The row is picked.
fn is_picked(constant: &[bool], at: u32) -> bool
    ensures { result ≡ tell.picks constant.now at }
{
    match constant.get(at as usize) {
        Some(is_constant) => *is_constant,
        None => false,
    }
}

// The value of the variable that a row refers to, where it is read as a constant.
fn referred(under: Tabled, constant: &[bool], variables: &[Option<Value>], at: u32) -> Option<Value>
    ensures { result ≡ (if tell.picks constant.now at then option_and_then (tell.item variables.now) (declared (entries under.entry.table.now at)) else None) }
{
    if is_picked(constant, at) {
        match under.declared(at) {
            Some(row) => item(variables, row),
            None => None,
        }
    } else {
        None
    }
}

// The string as a value of the class String.
fn text_as(rows: &[Row], element: Element, value: Value) -> Option<Value>
    ensures { seen_if result ≡ plain.text_as rows.now element (seen value) }
{
    match element {
        Element::Class(at) => match value {
            Value::Str(_) => {
                if is_string(rows, at) {
                    Some(value)
                } else {
                    None
                }
            }
            _ => None,
        },
        _ => None,
    }
}

/// The constant as a value of a variable of the type (JLS 5.2).
pub fn assigned(rows: &[Row], ty: RowType, value: Value) -> Option<Value>
    ensures { seen_if result ≡ plain.converted_as rows.now defined.assigned_to ty (seen value) }
{
    if ty.dims > 0 {
        return None;
    }
    match assigned_to(ty.element, value) {
        Some(found) => Some(found),
        None => text_as(rows, ty.element, value),
    }
}

/// The constant after a cast to the type (JLS 5.5).
fn cast(rows: &[Row], ty: RowType, value: Value) -> Option<Value>
    ensures { seen_if result ≡ plain.converted_as rows.now defined.cast_to ty (seen value) }
{
    if ty.dims > 0 {
        return None;
    }
    match cast_to(ty.element, value) {
        Some(found) => Some(found),
        None => text_as(rows, ty.element, value),
    }
}

// The type that is written at the first child.
fn cast_type(under: Tabled, at: u32) -> Option<RowType>
    ensures { length under.entry.rows.now < 2 ^ 32 → result ≡ tell.cast_type under.entry.rows.now (entries under.entry.table.now) at }
{
    match under.first_child(at) {
        Some(child) => under.type_at(child),
        None => None,
    }
}

fn cast_value(under: Tabled, values: &[Option<Value>], at: u32) -> Option<Value>
    ensures { at + 1 < 2 ^ 32 → length under.entry.rows.now < 2 ^ 32 → seen_if result ≡ of_two (plain.converted_as under.entry.rows.now defined.cast_to) (tell.cast_type under.entry.rows.now (entries under.entry.table.now) at) (seen_if (tell.second under.entry.rows.now values.now at)) }
{
    cast(
        under.rows,
        cast_type(under, at)?,
        second(under.rows, values, at)?,
    )
}

// The value of `?:` (JLS 15.25).
fn chosen_of(test: Value, first: Value, second: Value) -> Option<Value>
    ensures { seen_if result ≡ plain.chosen_value (Some (seen test)) (Some (seen first)) (Some (seen second)) }
{
    match test {
        Value::Bool(is_first) => chosen(is_first, first, second),
        _ => None,
    }
}

fn chosen_value(rows: &[Row], values: &[Option<Value>], at: u32) -> Option<Value>
    ensures { at + 1 < 2 ^ 32 → seen_if result ≡ plain.chosen_value (seen_if (tell.part rows.now values.now at (at + 1))) (seen_if (tell.second rows.now values.now at)) (seen_if (tell.third rows.now values.now at)) }
{
    let test = first(rows, values, at)?;
    let one = second(rows, values, at)?;
    let other = third(rows, values, at)?;
    chosen_of(test, one, other)
}

fn unary(rows: &[Row], values: &[Option<Value>], at: u32, op: Symbol) -> Option<Value>
    ensures { at + 1 < 2 ^ 32 → seen_if result ≡ option_and_then (defined.unary_value op) (seen_if (tell.part rows.now values.now at (at + 1))) }
{
    match first(rows, values, at) {
        Some(value) => unary_value(op, value),
        None => None,
    }
}

fn is_text(value: Value) -> bool
    ensures { result ≡ told.is_text value }
{
    match value {
        Value::Str(_) => true,
        _ => false,
    }
}

// One of the two is a string.
fn has_text(left: Value, right: Value) -> bool
    ensures { result ≡ told.has_text left right }
{
    is_text(left) || is_text(right)
}

// An operator on two constants that are no strings.
fn plain_value(op: Symbol, left: Value, right: Value) -> Option<Value>
    ensures { told.has_text left right ≡ false → seen_if result ≡ defined.binary_value op (seen left) (seen right) }
{
    match left {
        Value::Bool(first) => match right {
            Value::Bool(second) => bool_value(op, first, second),
            _ => None,
        },
        _ => number_value(op, left, right),
    }
}

// An operator on two constants.
#[tactic(auto, using(crate::proofs::Growing::same_grown))]
fn operated(
    alloc: Global,
    op: Symbol,
    left: Value,
    right: Value,
    texts: &mut Texts,
) -> Result<Option<Value>, OutOfMemory>
    ensures exact { IfOk result (λ value. value_in_if texts.new value ≡ defined.binary_value op (value_in texts.old left) (value_in texts.old right)) }
    ensures grown { OnOk result (tell.IsGrown texts.old texts.new) }
    ensures inside { IfOk result (λ value. tell.IsInIf texts.new value) }
{
    if has_text(left, right) {
        texts.value(alloc, op, left, right)
    } else {
        Ok(plain_value(op, left, right))
    }
}

#[tactic(auto, using(crate::proofs::Growing::same_grown))]
fn binary(
    alloc: Global,
    rows: &[Row],
    values: &[Option<Value>],
    at: u32,
    op: Symbol,
    texts: &mut Texts,
) -> Result<Option<Value>, OutOfMemory>
    ensures exact { at + 1 < 2 ^ 32 → IfOk result (λ value. value_in_if texts.new value ≡ of_two (defined.binary_value op) (value_in_if texts.old (tell.part rows.now values.now at (at + 1))) (value_in_if texts.old (tell.second rows.now values.now at))) }
    ensures grown { OnOk result (tell.IsGrown texts.old texts.new) }
    ensures inside { IfOk result (λ value. tell.IsInIf texts.new value) }
{
    match first(rows, values, at) {
        Some(left) => match second(rows, values, at) {
            Some(right) => operated(alloc, op, left, right, texts),
            None => Ok(None),
        },
        None => Ok(None),
    }
}

// The value of an expression that makes no new string.
fn plain_row(
    under: Tabled,
    constant: &[bool],
    variables: &[Option<Value>],
    values: &[Option<Value>],
    at: u32,
    label: &Label,
) -> Option<Value>
    ensures exact { (texts : List (List ℕ)) → at < length under.entry.rows.now → length under.entry.rows.now < 2 ^ 32 → tell.is_plain label.now ≡ true → value_in_if texts result ≡ tell.valued_by under.entry.rows.now (entries under.entry.table.now) (tell.picks constant.now) (tell.values_in texts variables.now) (tell.values_in texts values.now) at label.now }
    ensures inside { (texts : List (List ℕ)) → at + 1 < 2 ^ 32 → length under.entry.rows.now < 2 ^ 32 → tell.AreIn texts variables.now → tell.AreIn texts values.now → tell.IsInIf texts result }
{
    match label {
        Label::Name { .. } => referred(under, constant, variables, at),
        Label::Select => referred(under, constant, variables, at),
        Label::SuperSelect => referred(under, constant, variables, at),
        Label::Paren => first(under.rows, values, at),
        Label::Cast => cast_value(under, values, at),
        Label::Unary { op } => unary(under.rows, values, at, *op),
        Label::Conditional => chosen_value(under.rows, values, at),
        _ => None,
    }
}

/// The value of an expression, where those of its parts and of variables are known.
#[tactic(auto, using(crate::proofs::Growing::same_grown))]
pub fn value_of(
    alloc: Global,
    under: Tabled,
    constant: &[bool],
    variables: &[Option<Value>],
    values: &[Option<Value>],
    texts: &mut Texts,
    at: u32,
) -> Result<Option<Value>, OutOfMemory>
    ensures exact { length under.entry.rows.now < 2 ^ 32 → IfOk result (λ value. value_in_if texts.new value ≡ tell.valued_by under.entry.rows.now (entries under.entry.table.now) (tell.picks constant.now) (tell.values_in texts.old variables.now) (tell.values_in texts.old values.now) at (label under.entry.rows.now at)) }
    ensures grown { OnOk result (tell.IsGrown texts.old texts.new) }
    ensures inside { length under.entry.rows.now < 2 ^ 32 → tell.AreIn texts.old variables.now → tell.AreIn texts.old values.now → IfOk result (λ value. tell.IsInIf texts.new value) }
{
    match under.rows.get(at as usize) {
        Some(row) => match &row.label {
            Label::Literal { kind } => literal(alloc, kind.get(), texts),
            Label::Binary { op } => binary(alloc, under.rows, values, at, *op, texts),
            _ => Ok(plain_row(under, constant, variables, values, at, &row.label)),
        },
        None => Ok(None),
    }
}
