// What goes with the declarator of a local.
ghost use Rattle.std.specs.Prelude.{◌≡◌};
ghost use Rattle.jr_tree.specs.Rows as rows;
ghost use Rattle.jr_marks.specs.Places.{IsOrdered};
ghost use Rattle.jr_inline.specs.Removing as spec;

use crate::local::{Local, is_group, is_local};
use jr_base::Span;
use jr_change::RowRange;
use jr_marks::Marks;
use jr_places::parent_at;
use jr_shapes::end_of;
use jr_text::{own_span, tokens_span};
use jr_tree::{Label, Row};

/// What of a declaration goes: the declarator, or all where it has no other.
#[derive(Clone, Copy)]
pub struct Removal {
    pub span: Span,
    pub rows: RowRange,
}

/// Two groups of a switch that become one: the first loses its only statement.
#[derive(Clone, Copy)]
pub struct Joined {
    pub first: u32,
    /// The joined group is the copy of this one.
    pub next: u32,
}

// The row of the sibling before a row; its parent's where it is the first.
fn previous_at(all: &[Row], at: u32) -> u32
    ensures { result ≡ rows.previous all.now at }
{
    match all.get(at as usize) {
        Some(row) => row.previous,
        None => at,
    }
}

// The declarator before that of the local in its declaration.
fn declarator_before(rows: &[Row], local: Local) -> Option<u32>
    ensures { result ≡ spec.declarator_before rows.now local }
{
    let before = previous_at(rows, local.declarator);
    if is_local(rows, before) {
        Some(before)
    } else {
        None
    }
}

// The declarator behind that of the local in its declaration.
fn declarator_behind(rows: &[Row], local: Local) -> Option<u32>
    ensures { result ≡ spec.declarator_behind rows.now local }
{
    let behind = end_of(rows, local.declarator);
    if behind < end_of(rows, local.statement) {
        Some(behind)
    } else {
        None
    }
}

/// A row and all below it.
pub fn rows_of(rows: &[Row], at: u32) -> RowRange
    ensures { result ≡ spec.rows_at rows.now at }
{
    RowRange {
        first: at,
        end: end_of(rows, at),
    }
}

// From the end of the declarator before to its own end.
fn last_removal(marks: &Marks, local: Local, before: u32) -> Removal
    ensures { IsOrdered marks.now → result ≡ spec.last_removal marks.now local before }
{
    Removal {
        span: Span {
            start: tokens_span(marks, before).end,
            end: tokens_span(marks, local.declarator).end,
        },
        rows: rows_of(marks.rows, local.declarator),
    }
}

// From its name to that of the next one.
fn first_removal(marks: &Marks, local: Local, behind: u32) -> Removal
    ensures { IsOrdered marks.now → result ≡ spec.first_removal marks.now local behind }
{
    Removal {
        span: Span {
            start: tokens_span(marks, local.declarator).start,
            end: own_span(marks, behind).start,
        },
        rows: rows_of(marks.rows, local.declarator),
    }
}

// The whole declaration.
fn whole_removal(marks: &Marks, local: Local) -> Removal
    ensures { IsOrdered marks.now → result ≡ spec.whole_removal marks.now local }
{
    Removal {
        span: tokens_span(marks, local.statement),
        rows: rows_of(marks.rows, local.statement),
    }
}

impl Removal {
    /// What goes with a local.
    pub fn of(marks: &Marks, local: Local) -> Removal
        ensures { IsOrdered marks.now → result ≡ spec.removal_of marks.now local }
    {
        match declarator_before(marks.rows, local) {
            Some(before) => last_removal(marks, local, before),
            None => match declarator_behind(marks.rows, local) {
                Some(behind) => first_removal(marks, local, behind),
                None => whole_removal(marks, local),
            },
        }
    }
}

/// The row is one of these.
pub fn is_gone(rows: RowRange, at: u32) -> bool
    ensures { result ≡ spec.is_gone rows at }
{
    rows.first <= at && at < rows.end
}

// The row is a label of a switch.
fn is_switch_label(rows: &[Row], at: u32) -> bool
    ensures { result ≡ spec.is_switch_label rows.now at }
{
    match rows.get(at as usize) {
        Some(row) => match row.label {
            Label::Case => true,
            Label::Default => true,
            _ => false,
        },
        None => false,
    }
}

// The row is the only statement of a group.
fn is_only_statement(rows: &[Row], group: u32, at: u32) -> bool
    ensures { result ≡ spec.is_only_statement rows.now group at }
{
    is_switch_label(rows, previous_at(rows, at)) && end_of(rows, at) == end_of(rows, group)
}

// The row is the only statement of a group, and goes.
fn is_emptied(rows: &[Row], group: u32, at: u32) -> bool
    ensures { result ≡ spec.is_emptied rows.now group at }
{
    is_group(rows, group) && is_only_statement(rows, group, at)
}

// Another group of the same switch.
fn is_next_group(rows: &[Row], group: u32, next: u32) -> bool
    ensures { result ≡ spec.is_next_group rows.now group next }
{
    is_group(rows, next) && parent_at(rows, next) == parent_at(rows, group)
}

/// The groups that become one where the statement of a local goes, if it is the only one of a group that is not the last.
pub fn joined_by(rows: &[Row], gone: RowRange) -> Option<Joined>
    ensures { result ≡ spec.joined_by rows.now gone }
{
    let first = parent_at(rows, gone.first);
    let next = end_of(rows, first);
    if is_emptied(rows, first, gone.first) && is_next_group(rows, first, next) {
        Some(Joined { first, next })
    } else {
        None
    }
}
