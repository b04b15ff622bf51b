// What is read of a bound program.
ghost use Rattle.std.specs.Prelude.{◌≡◌, ◌+◌, ◌<◌, ◌^◌};
ghost use Rattle.jr_defs.specs.Referents.{entries};
ghost use Rattle.jr_plain.specs.Conversions.{plain_of as plain_element};
ghost use Rattle.jr_plain.specs.Typing as plain;
ghost use Rattle.jr_locks.specs.Origins.{origin_of};
ghost use Rattle.jr_flow_defs.specs.Meaning as defs;
ghost use Rattle.jr_flow_defs.specs.Meaning.{Meaning};
ghost use Rattle.jr_meaning.specs.Meaning as tell;

use jr_change::NO_ROW;
use jr_constants::Constants;
use jr_defs::{Element, Referent, RowType};
use jr_places::{end_at, is_string};
use jr_supers::{Supers, is_reference};
use jr_tree::Row;

/// A bound program, as far as flow reads it: its rows, what they refer to, the types of expressions (JLS 15), what is constant (JLS 15.28), and supertypes.
#[derive(Clone, Copy)]
pub struct Meant<'a> {
    pub rows: &'a [Row],
    pub table: &'a [Referent],
    pub types: &'a [Option<RowType>],
    pub constants: &'a Constants,
    pub supers: &'a Supers,
}

/// What a table of copies has for a row.
pub(crate) fn row_in(all: &[u32], at: u32) -> u32
    ensures { result ≡ origin_of all.now at }
{
    match all.get(at as usize) {
        Some(row) => *row,
        None => NO_ROW,
    }
}

fn referent_in(table: &[Referent], at: u32) -> Referent
    ensures { result ≡ entries table.now at }
{
    match table.get(at as usize) {
        Some(referent) => *referent,
        None => Referent::Unbound,
    }
}

fn declared_in(table: &[Referent], at: u32) -> Option<u32>
    ensures { result ≡ defs.declared (entries table.now at) }
{
    match referent_in(table, at) {
        Referent::Declared { row, .. } => Some(row),
        _ => None,
    }
}

/// The declaration to which a row refers, if it is one.
pub(crate) fn declared_at(read: &Meant, at: u32) -> Option<u32>
    ensures { (m : Meaning) → tell.IsMeant read.now m → result ≡ defs.declared (m.targets at) }
{
    declared_in(read.table, at)
}

fn type_in(types: &[Option<RowType>], at: u32) -> Option<RowType>
    ensures { result ≡ tell.type_in types.now at }
{
    match types.get(at as usize) {
        Some(ty) => *ty,
        None => None,
    }
}

fn type_at(read: &Meant, at: u32) -> Option<RowType>
    ensures { (m : Meaning) → tell.IsMeant read.now m → result ≡ m.types at }
{
    type_in(read.types, at)
}

fn plain_of(ty: RowType) -> Option<Element>
    ensures { result ≡ plain_element ty }
{
    if ty.dims == 0 { Some(ty.element) } else { None }
}

fn is_string_element(rows: &[Row], element: Element) -> bool
    ensures { result ≡ plain.is_string_element rows.now element }
{
    match element {
        Element::Class(at) => is_string(rows, at),
        _ => false,
    }
}

fn is_string_type(rows: &[Row], ty: RowType) -> bool
    ensures { result ≡ plain.is_string_type rows.now ty }
{
    match plain_of(ty) {
        Some(element) => is_string_element(rows, element),
        None => false,
    }
}

fn is_text(rows: &[Row], ty: Option<RowType>) -> bool
    ensures { result ≡ defs.is_text rows.now ty }
{
    match ty {
        Some(ty) => is_string_type(rows, ty),
        None => false,
    }
}

fn is_shown(rows: &[Row], ty: Option<RowType>) -> bool
    ensures { result ≡ defs.is_shown rows.now ty }
{
    match ty {
        Some(ty) => is_reference(ty) && !is_string_type(rows, ty),
        None => false,
    }
}

// A conversion from a reference type to one that is not above it is checked when it runs (JLS 5.1.5, 15.16).
fn is_checked_cast(read: &Meant, low: Option<RowType>, high: Option<RowType>) -> bool
    ensures { (m : Meaning) → tell.IsMeant read.now m → result ≡ defs.is_checked_cast read.now.rows.now m low high }
{
    let rows = read.rows;
    match low {
        Some(low) => match high {
            Some(high) => {
                is_reference(low) && is_reference(high) && !read.supers.is_subtype(rows, low, high)
            }
            None => false,
        },
        None => false,
    }
}

/// The row is a constant expression (JLS 15.28).
pub(crate) fn is_constant_at(read: &Meant, at: u32) -> bool
    ensures { (m : Meaning) → tell.IsMeant read.now m → result ≡ defs.is_constant m at }
{
    read.constants.value(at).is_some()
}

/// The row is an expression of the class String.
pub(crate) fn is_text_at(read: &Meant, at: u32) -> bool
    ensures { (m : Meaning) → tell.IsMeant read.now m → result ≡ defs.is_text read.now.rows.now (m.types at) }
{
    is_text(read.rows, type_at(read, at))
}

/// The row is an expression that has to be shown as a string where it stands in a sum with one (JLS 15.18.1).
pub(crate) fn is_shown_at(read: &Meant, at: u32) -> bool
    ensures { (m : Meaning) → tell.IsMeant read.now m → result ≡ defs.is_shown read.now.rows.now (m.types at) }
{
    is_shown(read.rows, type_at(read, at))
}

/// The cast at a row goes to a type that is none above that of its operand, so that it can fail (JLS 5.1.5, 15.16).
pub(crate) fn narrows_at(read: &Meant, at: u32) -> bool
    ensures { at + 2 < 2 ^ 32 → (m : Meaning) → tell.IsMeant read.now m → result ≡ defs.narrows read.now.rows.now m at }
{
    let behind = end_at(read.rows, at.saturating_add(1));
    is_checked_cast(read, type_at(read, behind), type_at(read, at))
}
