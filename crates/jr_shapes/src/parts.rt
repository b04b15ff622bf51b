// What stands before the dot of a reference.
ghost use Rattle.std.specs.Prelude.{◌≡◌, ◌+◌, ◌-◌, ◌<◌, ◌^◌, IfOk, length};
ghost use Rattle.jr_defs.specs.Referents.{entries};
ghost use Rattle.jr_shapes.specs.Parts as spec;

use crate::reading::{end_of, is_part, referent_at};
use jr_base::OutOfMemory;
use jr_defs::Referent;
use jr_tree::{Label, ReceiverKind, Row};
use std::alloc::Global;

/// What stands before the dot of a reference.
#[derive(Clone, Copy, Debug, PartialEq, Eq)]
pub enum Before {
    Nothing,
    /// A name, in the first child.
    Name,
    /// An expression that is no name alone, in the first child.
    Expression,
}

pub fn before_call(receiver: ReceiverKind) -> Before
    ensures { result ≡ spec.before_call receiver }
{
    match receiver {
        ReceiverKind::Name => Before::Name,
        ReceiverKind::Expression => Before::Expression,
        _ => Before::Nothing,
    }
}

fn before_name(is_qualified: bool) -> Before
    ensures { result ≡ spec.before_name is_qualified }
{
    if is_qualified {
        Before::Name
    } else {
        Before::Nothing
    }
}

fn before_dot(label: &Label) -> Before
    ensures { result ≡ spec.before_dot label.now }
{
    match label {
        Label::Name { is_qualified, .. } => before_name(*is_qualified),
        Label::Call { receiver } => before_call(*receiver),
        Label::Select => Before::Expression,
        _ => Before::Nothing,
    }
}

fn before_at(rows: &[Row], at: u32) -> Before
    ensures { result ≡ spec.before_at rows.now at }
{
    match rows.get(at as usize) {
        Some(row) => before_dot(&row.label),
        None => Before::Nothing,
    }
}

fn is_name(label: &Label) -> bool
    ensures { result ≡ spec.is_name label.now }
{
    match label {
        Label::Name { .. } => true,
        _ => false,
    }
}

fn is_name_at(rows: &[Row], at: u32) -> bool
    ensures { result ≡ spec.is_name_at rows.now at }
{
    match rows.get(at as usize) {
        Some(row) => is_name(&row.label),
        None => false,
    }
}

/// The row is an identifier of a name that refers to a package or a type.
pub fn is_qualifier(rows: &[Row], table: &[Referent], at: u32) -> bool
    ensures { result ≡ spec.is_qualifier rows.now (entries table.now) at }
{
    is_name_at(rows, at) && is_part(rows, referent_at(table, at))
}

// The rows from one on, up to the first that is no qualifier.
#[tactic(auto, using(crate::proofs::Qualifiers::parts_more, crate::proofs::Qualifiers::parts_stop, crate::proofs::Qualifiers::parts_end))]
fn parts_in(
    alloc: Global,
    rows: &[Row],
    table: &[Referent],
    first: u32,
    end: u32,
) -> Result<Vec<u32>, OutOfMemory>
    ensures { IfOk result (λ all. all.items ≡ spec.parts_from rows.now (entries table.now) first (end - first)) }
{
    let mut all = Vec::new(alloc);
    for at in first..end {
        if !is_qualifier(rows, table, at) {
            return Ok(all);
        }
        all.push(at)?;
    }
    Ok(all)
}

/// The package and type qualifiers of a reference, which follow its row, from the last one back.
pub fn parts_of(
    alloc: Global,
    rows: &[Row],
    table: &[Referent],
    row: u32,
) -> Result<Vec<u32>, OutOfMemory>
    requires { row + 1 < 2 ^ 32 }
    ensures { IfOk result (λ all. all.items ≡ spec.parts rows.now (entries table.now) row) }
{
    match before_at(rows, row) {
        Before::Name => parts_in(alloc, rows, table, row + 1, end_of(rows, row + 1)),
        _ => Ok(Vec::new(alloc)),
    }
}

/// The expression before the dot of a reference, a variable among them, if it has one.
pub fn receiver_of(rows: &[Row], table: &[Referent], row: u32) -> Option<u32>
    requires { row + 1 < 2 ^ 32 }
    ensures { result ≡ spec.receiver_of rows.now (entries table.now) row }
{
    match before_at(rows, row) {
        Before::Nothing => None,
        Before::Expression => Some(row + 1),
        Before::Name => {
            if is_qualifier(rows, table, row + 1) {
                None
            } else {
                Some(row + 1)
            }
        }
    }
}
