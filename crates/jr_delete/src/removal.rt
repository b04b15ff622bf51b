// What goes with a declaration.
ghost use Rattle.std.specs.Prelude.{◌≡◌, ◌+◌, ◌^◌, ◌<◌, length};
ghost use Rattle.jr_marks.specs.Places.{IsOrdered};
ghost use Rattle.jr_delete.specs.Deleting as deleting;

use jr_base::Span;
use jr_change::RowRange;
use jr_marks::Marks;
use jr_places::{end_at, parent_at, role_at};
use jr_text::{extent, own_span, tokens_span};
use jr_tree::{Role, Row};

/// What is removed: rows, and the bytes of their unit.
#[derive(Clone, Copy)]
pub struct Removal {
    pub rows: RowRange,
    pub span: Span,
}

/// The declaration, if it is of a kind that can be removed.
pub fn removable(rows: &[Row], declared: Option<u32>) -> Option<u32>
    ensures { length rows.now < 2 ^ 32 → result ≡ deleting.removable rows.now declared }
{
    let row = declared?;
    match role_at(rows, row) {
        Role::Type => Some(row),
        Role::Method => Some(row),
        Role::Field => without_initializer(rows, row),
        _ => None,
    }
}

// The field, if nothing stands below it.
fn without_initializer(rows: &[Row], field: u32) -> Option<u32>
    ensures { field + 1 < 2 ^ 32 → result ≡ deleting.field_alone rows.now field }
{
    if end_at(rows, field) == field.saturating_add(1) {
        Some(field)
    } else {
        None
    }
}

// A row and all below it.
fn rows_of(rows: &[Row], at: u32) -> RowRange
    ensures { at + 1 < 2 ^ 32 → result ≡ deleting.rows_at rows.now at }
{
    RowRange {
        first: at,
        end: end_at(rows, at),
    }
}

fn is_alone(before: Option<u32>, behind: Option<u32>) -> bool
    ensures { result ≡ deleting.is_alone before behind }
{
    match before {
        Some(_) => false,
        None => match behind {
            Some(_) => false,
            None => true,
        },
    }
}

// The row is the only field of its declaration.
fn is_only_field(rows: &[Row], at: u32) -> bool
    ensures { result ≡ deleting.is_only_field rows.now at }
{
    is_field(rows, at) && is_alone(field_before(rows, at), field_behind(rows, at))
}

// The rows of a declaration; of the only field of one those of all of it.
fn removed_rows(rows: &[Row], at: u32) -> RowRange
    ensures { at + 1 < 2 ^ 32 → result ≡ deleting.removed rows.now at }
{
    let over = parent_at(rows, at);
    if over < at {
        if is_only_field(rows, at) {
            rows_of(rows, over)
        } else {
            rows_of(rows, at)
        }
    } else {
        rows_of(rows, at)
    }
}

/// What is removed with a declaration.
pub fn removal_of(marks: &Marks, removed: u32) -> Removal
    ensures rows { removed + 1 < 2 ^ 32 → result.rows ≡ deleting.removed marks.now.rows.now removed }
    ensures span { IsOrdered marks.now → deleting.IsSpanOf marks.now removed result.span }
{
    Removal {
        rows: removed_rows(marks.rows, removed),
        span: span_of(marks, removed),
    }
}

// The bytes of a declaration with its lead.
fn span_of(marks: &Marks, removed: u32) -> Span
    ensures { IsOrdered marks.now → deleting.IsSpanOf marks.now removed result }
{
    match role_at(marks.rows, removed) {
        Role::Field => span_of_field(marks, removed),
        _ => extent(marks, removed),
    }
}

// Of several fields of one declaration only this one, with the comma before it or, where it is the first, behind it.
fn span_of_field(marks: &Marks, field: u32) -> Span
    ensures { IsOrdered marks.now → deleting.IsFieldSpan marks.now field (deleting.field_before marks.now.rows.now field) (deleting.field_behind marks.now.rows.now field) result }
{
    if let Some(before) = field_before(marks.rows, field) {
        return Span {
            start: tokens_span(marks, before).end,
            end: tokens_span(marks, field).end,
        };
    }
    match field_behind(marks.rows, field) {
        Some(next) => Span {
            start: own_span(marks, field).start,
            end: own_span(marks, next).start,
        },
        None => extent(marks, parent_at(marks.rows, field)),
    }
}

fn is_field(rows: &[Row], at: u32) -> bool
    ensures { result ≡ deleting.is_field rows.now at }
{
    match role_at(rows, at) {
        Role::Field => true,
        _ => false,
    }
}

// The row is a field of this declaration of fields.
fn is_field_of(rows: &[Row], declaration: u32, at: u32) -> bool
    ensures { result ≡ deleting.is_field_of rows.now declaration at }
{
    is_field(rows, at) && parent_at(rows, at) == declaration
}

// The field before another one in its declaration.
fn field_before(rows: &[Row], field: u32) -> Option<u32>
    ensures { result ≡ deleting.field_before rows.now field }
{
    let declaration = parent_at(rows, field);
    let mut before = None;
    for at in 0..field {
        if is_field_of(rows, declaration, at) {
            before = Some(at);
        }
    }
    before
}

// The field behind another one in its declaration.
fn field_behind(rows: &[Row], field: u32) -> Option<u32>
    ensures { result ≡ deleting.field_behind rows.now field }
{
    let declaration = parent_at(rows, field);
    for at in field.saturating_add(1)..end_at(rows, 0) {
        if is_field_of(rows, declaration, at) {
            return Some(at);
        }
    }
    None
}
