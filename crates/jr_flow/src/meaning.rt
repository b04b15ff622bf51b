// What rows do by names, types and constants.
ghost use Rattle.std.specs.Prelude.{◌≡◌, ℕ, ◌+◌, ◌<◌, ◌^◌, length, is_some};
ghost use Rattle.jr_tree.specs.Rows.{label};
ghost use Rattle.jr_plain.specs.Typing as plain;
ghost use Rattle.jr_types.specs.Typed.{types_in};
ghost use Rattle.jr_flow_defs.specs.Meaning as defs;
ghost use Rattle.jr_flow_defs.specs.Meaning.{Meaning};
ghost use Rattle.jr_flow.specs.Views.{rows_in, IsViewOf};

use jr_base::Symbol;
use jr_defs::{Referent, RowType};
use jr_places::{end_at, parent_at, role_at};
use jr_supers::is_reference;
use jr_tree::{Label, Role, Row};
use jr_types::is_string_type;
use jr_view::View;

fn is_plain_assignment(rows: &[Row], at: u32) -> bool
    ensures { result ≡ defs.is_plain_assignment (label rows.now at) }
{
    match rows.get(at as usize) {
        Some(row) => match row.label {
            Label::Assign { op: Symbol::Assign } => true,
            _ => false,
        },
        None => false,
    }
}

/// The row is the left side of a plain assignment (JLS 15.26.1).
#[tactic(auto, using(crate::proofs::Counting::one_behind))]
pub(crate) fn is_only_written(rows: &[Row], at: u32) -> bool
    ensures { result ≡ defs.is_only_written rows.now at }
{
    let over = parent_at(rows, at);
    is_plain_assignment(rows, over) && over < at && at - over == 1
}

fn is_paren(rows: &[Row], at: u32) -> bool
    ensures { result ≡ defs.is_paren (label rows.now at) }
{
    match rows.get(at as usize) {
        Some(row) => match row.label {
            Label::Paren => true,
            _ => false,
        },
        None => false,
    }
}

/// The first operand of a row, without parentheses (JLS 15.8.5).
pub(crate) fn operand(rows: &[Row], at: u32) -> u32
    ensures { at + 1 < 2 ^ 32 → length rows.now < 2 ^ 32 → result ≡ defs.operand rows.now at }
{
    let first = at.saturating_add(1);
    let mut here = first;
    for _turn in 0..rows.len() {
        if !is_paren(rows, here) {
            return here;
        }
        here = here.saturating_add(1);
    }
    here
}

fn is_local_role(role: Role) -> bool
    ensures { result ≡ defs.is_local_role role }
{
    match role {
        Role::Local => true,
        Role::Parameter => true,
        _ => false,
    }
}

fn is_field_role(role: Role) -> bool
    ensures { result ≡ defs.is_field_role role }
{
    match role {
        Role::Field => true,
        _ => false,
    }
}

// The local or parameter among what is declared.
fn local_among(rows: &[Row], declared: Option<u32>) -> Option<u32>
    ensures { result ≡ defs.local_among rows.now declared }
{
    match declared {
        Some(row) => {
            if is_local_role(role_at(rows, row)) {
                Some(row)
            } else {
                None
            }
        }
        None => None,
    }
}

/// The local or parameter to which a row refers.
pub(crate) fn local_at(view: &View, at: u32) -> Option<u32>
    ensures { (m : Meaning) → IsViewOf view.now m → result ≡ defs.local_at (rows_in view.now) m at }
{
    let under = view.sight.world.under;
    local_among(under.rows, under.declared(at))
}

fn is_constant(view: &View, at: u32) -> bool
    ensures { (m : Meaning) → IsViewOf view.now m → result ≡ defs.is_constant m at }
{
    view.constants.value(at).is_some()
}

/// The row names a field that is read, or the length of an array. One that is constant is not read (JLS 10.7, 15.28).
pub(crate) fn reads_field(view: &View, at: u32) -> bool
    ensures { (m : Meaning) → IsViewOf view.now m → result ≡ defs.reads_field (rows_in view.now) m at }
{
    let under = view.sight.world.under;
    match under.referent(at) {
        Referent::ArrayLength => true,
        Referent::Declared { row, .. } => {
            is_field_role(role_at(under.rows, row)) && !is_constant(view, at)
        }
        _ => false,
    }
}

fn item(types: &[Option<RowType>], at: u32) -> Option<RowType>
    ensures { result ≡ types_in types.now at }
{
    match types.get(at as usize) {
        Some(ty) => *ty,
        None => None,
    }
}

fn type_at(view: &View, at: u32) -> Option<RowType>
    ensures { (m : Meaning) → IsViewOf view.now m → result ≡ m.types at }
{
    item(view.types, at)
}

// The operator divides (JLS 15.17.2, 15.17.3).
fn divides(op: Symbol) -> bool
    ensures { result ≡ defs.divides op }
{
    match op {
        Symbol::Slash => true,
        Symbol::Percent => true,
        Symbol::SlashAssign => true,
        Symbol::PercentAssign => true,
        _ => false,
    }
}

// The operator adds (JLS 15.18, 15.26.2).
fn adds(op: Symbol) -> bool
    ensures { result ≡ defs.adds op }
{
    match op {
        Symbol::Plus => true,
        Symbol::PlusAssign => true,
        _ => false,
    }
}

fn is_plus(op: Symbol) -> bool
    ensures { result ≡ plain.is_plus op }
{
    match op {
        Symbol::Plus => true,
        _ => false,
    }
}

fn is_text(rows: &[Row], ty: Option<RowType>) -> bool
    ensures { result ≡ defs.is_text rows.now ty }
{
    match ty {
        Some(ty) => is_string_type(rows, ty),
        None => false,
    }
}

/// The operator at a row divides or makes a string, and its value is not constant (JLS 15.17.2, 15.17.3, 15.18.1).
pub(crate) fn makes(view: &View, at: u32, op: Symbol) -> bool
    ensures { (m : Meaning) → IsViewOf view.now m → result ≡ defs.makes (rows_in view.now) m at op }
{
    let rows = view.sight.world.under.rows;
    !is_constant(view, at) && (divides(op) || (adds(op) && is_text(rows, type_at(view, at))))
}

fn is_shown(rows: &[Row], ty: Option<RowType>) -> bool
    ensures { result ≡ defs.is_shown rows.now ty }
{
    match ty {
        Some(ty) => is_reference(ty) && !is_string_type(rows, ty),
        None => false,
    }
}

/// The left operand of a sum is an object that is shown as a string before the right one is evaluated (JLS 15.18.1).
pub(crate) fn shows_left(view: &View, at: u32, op: Symbol) -> bool
    ensures { at + 1 < 2 ^ 32 → (m : Meaning) → IsViewOf view.now m → result ≡ defs.shows_left (rows_in view.now) m at op }
{
    let rows = view.sight.world.under.rows;
    is_plus(op) && makes(view, at, op) && is_shown(rows, type_at(view, at.saturating_add(1)))
}

// A conversion from a reference type to one that is not above it is checked when it runs (JLS 5.1.5, 15.16).
fn is_checked_cast(view: &View, low: Option<RowType>, high: Option<RowType>) -> bool
    ensures { (m : Meaning) → IsViewOf view.now m → result ≡ defs.is_checked_cast (rows_in view.now) m low high }
{
    let world = view.sight.world;
    let rows = world.under.rows;
    match low {
        Some(low) => match high {
            Some(high) => {
                is_reference(low) && is_reference(high) && !world.supers.is_subtype(rows, low, high)
            }
            None => false,
        },
        None => false,
    }
}

/// The cast at a row goes to a type that is none above that of its operand, so that it can fail (JLS 5.1.5, 15.16).
pub(crate) fn narrows(view: &View, at: u32) -> bool
    ensures { at + 2 < 2 ^ 32 → (m : Meaning) → IsViewOf view.now m → result ≡ defs.narrows (rows_in view.now) m at }
{
    let behind = end_at(view.sight.world.under.rows, at.saturating_add(1));
    is_checked_cast(view, type_at(view, behind), type_at(view, at))
}
