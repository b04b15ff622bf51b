// Whether spellings suit their rows.
ghost use Rattle.std.specs.Prelude.{◌≡◌, ◌+◌, ◌<◌, ◌^◌, IfOk, IsNone, length, nat_eq, nat_lt};
ghost use Rattle.jr_tree.specs.Rows.{label};
ghost use Rattle.jr_defs.specs.declared.referent.Referent.TheVariants as referent;
ghost use Rattle.jr_defs.specs.Referents.{entries};
ghost use Rattle.jr_runs.specs.Marks.{seen};
ghost use Rattle.jr_runs.specs.Plans.{names, kept_names};
ghost use Rattle.jr_runs.specs.Suits as spec;
ghost use Rattle.jr_runs.specs.Suits.{AllSuit};

use crate::marking::Marking;
use jr_base::OutOfMemory;
use jr_defs::Referent;
use jr_shapes::{
    Shape, Spelling, Suffix, TypeName, argument_after, first_argument, kept_rows, parts_of,
    receiver_of, referent_at, suffix_rows,
};
use jr_tree::{Label, ReceiverKind, Row};
use std::alloc::Global;

fn is_number(chosen: Option<usize>, number: usize) -> bool
    ensures { result ≡ spec.is_number chosen number }
{
    match chosen {
        Some(other) => other == number,
        None => false,
    }
}

fn may_be_shaped(receiver: ReceiverKind, may_call: bool) -> bool
    ensures { result ≡ spec.may_be_shaped receiver may_call }
{
    match receiver {
        ReceiverKind::Absent => may_call,
        ReceiverKind::Name => may_call,
        _ => false,
    }
}

fn is_shaped(label: &Label, may_call: bool) -> bool
    ensures { result ≡ spec.is_shaped label.now may_call }
{
    match label {
        Label::Name { .. } => true,
        Label::Call { receiver } => may_be_shaped(*receiver, may_call),
        _ => false,
    }
}

fn is_super_select(label: &Label) -> bool
    ensures { result ≡ spec.is_super_select label.now }
{
    match label {
        Label::SuperSelect => true,
        _ => false,
    }
}

fn is_shaped_at(rows: &[Row], row: u32, may_call: bool) -> bool
    ensures { result ≡ spec.is_shaped (label rows.now row) may_call }
{
    match rows.get(row as usize) {
        Some(here) => is_shaped(&here.label, may_call),
        None => false,
    }
}

fn is_super_at(rows: &[Row], row: u32) -> bool
    ensures { result ≡ spec.is_super_select (label rows.now row) }
{
    match rows.get(row as usize) {
        Some(here) => is_super_select(&here.label),
        None => false,
    }
}

fn can_be_shaped(rows: &[Row], table: &[Referent], row: u32, may_call: bool) -> bool
    requires { row + 1 < 2 ^ 32 }
    ensures { result ≡ spec.can_be_shaped rows.now (entries table.now) row may_call }
{
    is_shaped_at(rows, row, may_call) && receiver_of(rows, table, row).is_none()
}

// The shape is one that the reference can have.
fn can_have(rows: &[Row], table: &[Referent], row: u32, shape: Shape) -> bool
    requires { row + 1 < 2 ^ 32 }
    ensures { result ≡ spec.can_have rows.now (entries table.now) row shape }
{
    match shape {
        Shape::Kept => true,
        Shape::Cast(_) => receiver_of(rows, table, row).is_some(),
        Shape::Super => can_be_shaped(rows, table, row, false),
        Shape::Named(_) => can_be_shaped(rows, table, row, false),
        Shape::CastThis(_) => { is_super_at(rows, row) || can_be_shaped(rows, table, row, true) }
        _ => can_be_shaped(rows, table, row, true),
    }
}

// There are as many casts as arguments, from one on.
#[tactic(auto, using(crate::proofs::Casts::fits_more, crate::proofs::Casts::fits_not, crate::proofs::Casts::fits_end))]
fn fits_casts(rows: &[Row], row: u32, first: Option<u32>, casts: &[TypeName]) -> bool
    ensures { result ≡ spec.fits_casts rows.now row first casts.now }
{
    let mut next = first;
    let mut rest = casts;
    while let Some((_, after)) = rest.split_first() {
        match next {
            Some(at) => next = argument_after(rows, row, at),
            None => return false,
        }
        rest = after;
    }
    next.is_none()
}

fn casts_all(rows: &[Row], row: u32, casts: &[TypeName]) -> bool
    requires { row + 1 < 2 ^ 32 }
    ensures { result ≡ spec.casts_all rows.now row casts.now }
{
    match casts {
        [] => true,
        [_, ..] => fits_casts(rows, row, first_argument(rows, row), casts),
    }
}

fn is_declaration(row: u32, found: Referent) -> bool
    ensures { result ≡ spec.is_declaration row found }
{
    match found {
        Referent::Declared { row: other, .. } => other == row,
        _ => false,
    }
}

fn is_unbound(found: Referent) -> bool
    ensures { result ≡ spec.is_lock referent.Unbound found }
{
    match found {
        Referent::Unbound => true,
        _ => false,
    }
}

fn is_ambiguous(found: Referent) -> bool
    ensures { result ≡ spec.is_lock referent.Ambiguous found }
{
    match found {
        Referent::Ambiguous => true,
        _ => false,
    }
}

fn is_length(found: Referent) -> bool
    ensures { result ≡ spec.is_lock referent.ArrayLength found }
{
    match found {
        Referent::ArrayLength => true,
        _ => false,
    }
}

fn is_package(found: Referent) -> bool
    ensures { result ≡ spec.is_lock referent.Package found }
{
    match found {
        Referent::Package => true,
        _ => false,
    }
}

// What is found is the lock, whatever the level.
fn is_lock(lock: Referent, found: Referent) -> bool
    ensures { result ≡ spec.is_lock lock found }
{
    match lock {
        Referent::Declared { row, .. } => is_declaration(row, found),
        Referent::Unbound => is_unbound(found),
        Referent::Ambiguous => is_ambiguous(found),
        Referent::ArrayLength => is_length(found),
        Referent::Package => is_package(found),
    }
}

// A type that is named is the one that is referred to.
fn names_its_own(shape: Shape, found: Referent) -> bool
    ensures { result ≡ spec.names_its_own shape found }
{
    match shape {
        Shape::Named(suffix) => is_declaration(suffix.of, found) && 0 < suffix.count,
        _ => true,
    }
}

fn count_of(alloc: Global, rows: &[Row], suffix: Suffix) -> Result<usize, OutOfMemory>
    ensures { IfOk result (λ count. count ≡ length (names rows.now suffix)) }
{
    let names = suffix_rows(alloc, rows, suffix)?;
    Ok(names.len())
}

fn count_kept(
    alloc: Global,
    rows: &[Row],
    table: &[Referent],
    row: u32,
    found: Referent,
) -> Result<usize, OutOfMemory>
    requires { row + 1 < 2 ^ 32 }
    ensures { IfOk result (λ count. count ≡ length (kept_names rows.now (entries table.now) row found)) }
{
    let parts = parts_of(alloc, rows, table, row)?;
    let names = kept_rows(alloc, rows, table, found, &parts)?;
    Ok(names.len())
}

fn has_both(
    alloc: Global,
    rows: &[Row],
    count: usize,
    one: Suffix,
    other: Suffix,
) -> Result<bool, OutOfMemory>
    ensures { IfOk result (λ has. has ≡ nat_eq count (length (names rows.now one) + length (names rows.now other))) }
{
    let first = count_of(alloc, rows, one)?;
    let second = count_of(alloc, rows, other)?;
    match first.checked_add(second) {
        Some(all) => Ok(count == all),
        None => Err(OutOfMemory),
    }
}

// So many identifiers of packages and types are written.
fn has_names(
    alloc: Global,
    rows: &[Row],
    table: &[Referent],
    spelling: &Spelling,
    row: u32,
    count: usize,
) -> Result<bool, OutOfMemory>
    requires { row + 1 < 2 ^ 32 }
    ensures { IfOk result (λ has. has ≡ nat_eq count (spec.names_of rows.now (entries table.now) spelling.now row spelling.now.shape)) }
{
    match spelling.shape {
        Shape::Kept => Ok(count == count_kept(alloc, rows, table, row, spelling.found)?),
        Shape::Outer(of) => Ok(count == count_of(alloc, rows, of)?),
        Shape::CastThis(of) => Ok(count == count_of(alloc, rows, of)?),
        Shape::CastOuter(of, outer) => has_both(alloc, rows, count, of, outer),
        Shape::Type(of) => Ok(count == count_of(alloc, rows, of)?),
        Shape::Cast(of) => Ok(count == count_of(alloc, rows, of)?),
        Shape::Named(of) => Ok(count == count_of(alloc, rows, of)?.saturating_sub(1)),
        _ => Ok(count == 0),
    }
}

fn suits_row(
    alloc: Global,
    rows: &[Row],
    table: &[Referent],
    row: u32,
    spelling: &Spelling,
) -> Result<bool, OutOfMemory>
    requires { row + 1 < 2 ^ 32 }
    ensures { IfOk result (λ suits. suits ≡ spec.suits_row rows.now (entries table.now) row spelling.now) }
{
    let is_right = can_have(rows, table, row, spelling.shape)
        && casts_all(rows, row, &spelling.casts)
        && is_lock(referent_at(table, row), spelling.found)
        && names_its_own(spelling.shape, spelling.found);
    let count = spelling.trace.len();
    let has_all = has_names(alloc, rows, table, spelling, row, count)?;
    Ok(is_right && has_all)
}

fn is_there(rows: &[Row], row: u32) -> bool
    ensures { result ≡ nat_lt row (length rows.now) }
{
    (row as usize) < rows.len()
}

fn suits(
    alloc: Global,
    rows: &[Row],
    table: &[Referent],
    marks: &Marking,
    number: usize,
    spelling: &Spelling,
) -> Result<bool, OutOfMemory>
    requires { length rows.now < 2 ^ 32 }
    ensures { IfOk result (λ suits. suits ≡ spec.suits rows.now (entries table.now) (seen marks.now) number spelling.now) }
{
    let row = spelling.row;
    if !is_there(rows, row) {
        return Ok(false);
    }
    if !is_number(marks.chosen(row), number) {
        return Ok(false);
    }
    if marks.is_dropped(row) {
        return Ok(false);
    }
    suits_row(alloc, rows, table, row, spelling)
}

/// The row of the first spelling that does not suit its row.
#[tactic(auto, using(crate::proofs::Firsts::suits_more, crate::proofs::Firsts::suits_not, crate::proofs::Firsts::none_suit))]
pub fn first_unsuited(
    alloc: Global,
    rows: &[Row],
    table: &[Referent],
    marks: &Marking,
    spellings: &[Spelling],
) -> Result<Option<u32>, OutOfMemory>
    requires { length rows.now < 2 ^ 32 }
    ensures none { IfOk result (λ row. IsNone row → AllSuit rows.now (entries table.now) (seen marks.now) spellings.now (length spellings.now)) }
    ensures some { IfOk result (λ row. AllSuit rows.now (entries table.now) (seen marks.now) spellings.now (length spellings.now) → IsNone row) }
{
    for (number, spelling) in spellings.iter().enumerate() {
        if !suits(alloc, rows, table, marks, number, spelling)? {
            return Ok(Some(spelling.row));
        }
    }
    Ok(None)
}
