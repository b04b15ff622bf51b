// Where rows stand in the bytes of their units.
ghost use Rattle.std.specs.Prelude.{◌≡◌, ◌≤◌, ◌-◌, length};
ghost use Rattle.jr_marks.specs.Places.{IsOrdered, tokens_of, unit_of};
ghost use Rattle.jr_text.specs.Spans as spans;

use crate::gaps::lead;
use jr_base::{Span, Token};
use jr_defs::UnitAt;
use jr_marks::Marks;

/// The bytes of the unit in which a row stands.
pub fn unit_bytes<'p>(marks: &Marks<'p>, row: u32) -> &'p [u8]
    ensures { IsOrdered marks.now → result.now ≡ spans.unit_bytes marks.now row }
{
    match marks.units.get(marks.unit_of(row) as usize) {
        Some(unit) => unit.bytes.bytes(),
        None => &[],
    }
}

fn tokens_of<'p>(marks: &Marks<'p>, row: u32) -> &'p [Token]
    ensures { IsOrdered marks.now → result.now ≡ tokens_of marks.now (unit_of marks.now row) }
{
    match marks.units.get(marks.unit_of(row) as usize) {
        Some(unit) => unit.tokens.as_slice(),
        None => &[],
    }
}

/// The bytes of a span; none where it does not stand in the text.
pub fn part(bytes: &[u8], span: Span) -> &[u8]
    ensures short { length result.now ≤ span.end - span.start }
    ensures exact { result.now ≡ spans.part bytes.now span }
{
    let start = span.start as usize;
    let end = span.end as usize;
    if start <= end && end <= bytes.len() {
        &bytes[start..end]
    } else {
        &[]
    }
}

/// The span of a token, by its number in the unit of a row; an empty one where there is no such token.
pub fn token_span(marks: &Marks, row: u32, number: u32) -> Span
    ensures { IsOrdered marks.now → result ≡ spans.token_span marks.now row number }
{
    match tokens_of(marks, row).get(number as usize) {
        Some(token) => token.span,
        None => Span { start: 0, end: 0 },
    }
}

/// The identifier by which a row refers or that it declares.
pub fn own_span(marks: &Marks, row: u32) -> Span
    ensures { IsOrdered marks.now → result ≡ spans.own_span marks.now row }
{
    token_span(marks, row, marks.mark(row).own)
}

/// The bytes of a row from its first token to its last.
pub fn tokens_span(marks: &Marks, row: u32) -> Span
    ensures { IsOrdered marks.now → result ≡ spans.tokens_span marks.now row }
{
    let mark = marks.mark(row);
    Span {
        start: token_span(marks, row, mark.first).start,
        end: token_span(marks, row, mark.after.saturating_sub(1)).end,
    }
}

// Where the token before this one ends.
fn end_before(marks: &Marks, row: u32, number: u32) -> u32
    ensures { IsOrdered marks.now → result ≡ spans.end_before marks.now row number }
{
    if number == 0 {
        0
    } else {
        token_span(marks, row, number - 1).end
    }
}

// The gap before the first token of a row.
fn gap_before(marks: &Marks, row: u32) -> Span
    ensures { IsOrdered marks.now → result ≡ spans.gap_before marks.now row }
{
    let first = marks.mark(row).first;
    Span {
        start: end_before(marks, row, first),
        end: token_span(marks, row, first).start,
    }
}

// The place behind so many bytes of a gap.
fn behind_bytes(gap: Span, count: usize) -> u32
    requires { count ≤ gap.end - gap.start }
    ensures behind { gap.start ≤ result }
    ensures within { gap.start ≤ gap.end → result ≤ gap.end }
{
    match u32::try_from(count) {
        Ok(count) => gap.start + count,
        Err(_) => gap.start,
    }
}

/// What a declaration takes along: its lead, and its bytes from the first token to the last.
pub fn extent(marks: &Marks, row: u32) -> Span
    ensures { IsOrdered marks.now → spans.IsExtent marks.now row result }
{
    let gap = gap_before(marks, row);
    let before = lead(part(unit_bytes(marks, row), gap));
    Span {
        start: behind_bytes(gap, before),
        end: tokens_span(marks, row).end,
    }
}
