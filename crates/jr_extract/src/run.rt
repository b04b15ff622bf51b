// The run of statements that a range of bytes covers.
ghost use Rattle.std.specs.Prelude.{◌≡◌, ◌<◌, ◌^◌, length, slice_get};
ghost use Rattle.jr_tree.specs.Rows.{label};
ghost use Rattle.jr_marks.specs.Places.{IsOrdered, tokens_of as tokens_in_unit};
ghost use Rattle.jr_extract.specs.Running as spec;

use jr_base::{Span, Token};
use jr_change::RowRange;
use jr_draft::unit_row;
use jr_lookup::is_block;
use jr_marks::Marks;
use jr_places::{end_at, is_type, parent_at, role_at};
use jr_supers::is_callable;
use jr_tree::{Label, Row};

/// Tokens of a unit, by their numbers, from `first` to before `after`.
#[derive(Clone, Copy)]
pub(crate) struct TokenRange {
    pub(crate) first: u32,
    pub(crate) after: u32,
}

/// Consecutive statements of one block.
#[derive(Clone, Copy)]
pub(crate) struct Run {
    pub(crate) tokens: TokenRange,
    pub(crate) rows: RowRange,
    /// The method or constructor in which they stand.
    pub(crate) member: u32,
}

impl Run {
    /// The row stands in the run.
    pub(crate) fn holds(self, at: u32) -> bool
        ensures { result ≡ spec.holds self at }
    {
        self.rows.first <= at && at < self.rows.end
    }
}

// The token of this number ends behind the offset.
fn ends_behind(tokens: &[Token], number: u32, offset: u32) -> bool
    ensures { result ≡ spec.ends_behind offset (slice_get tokens.now number) }
{
    match tokens.get(number as usize) {
        Some(token) => token.span.end > offset,
        None => false,
    }
}

// The token of this number does not begin before the offset.
fn begins_behind(tokens: &[Token], number: u32, offset: u32) -> bool
    ensures { result ≡ spec.begins_behind offset (slice_get tokens.now number) }
{
    match tokens.get(number as usize) {
        Some(token) => token.span.start >= offset,
        None => true,
    }
}

fn count_tokens(tokens: &[Token]) -> u32
    ensures { length tokens.now < 2 ^ 32 → result ≡ length tokens.now }
{
    match u32::try_from(tokens.len()) {
        Ok(count) => count,
        Err(_) => u32::MAX,
    }
}

// How many tokens, from the first on, end at or before the offset.
fn count_before(tokens: &[Token], offset: u32) -> u32
    ensures { length tokens.now < 2 ^ 32 → result ≡ spec.count_before tokens.now offset }
{
    let count = count_tokens(tokens);
    for at in 0..count {
        if ends_behind(tokens, at, offset) {
            return at;
        }
    }
    count
}

// There are tokens between, and none is cut.
fn is_whole(tokens: &[Token], range: Span, first: u32, after: u32) -> bool
    ensures { result ≡ spec.is_whole tokens.now range first after }
{
    first < after
        && begins_behind(tokens, first, range.start)
        && begins_behind(tokens, after, range.end)
}

fn tokens_between(tokens: &[Token], range: Span, first: u32, after: u32) -> Option<TokenRange>
    ensures { result ≡ spec.tokens_between tokens.now range first after }
{
    if is_whole(tokens, range, first, after) {
        Some(TokenRange { first, after })
    } else {
        None
    }
}

// The tokens that stand in the range, where there are any and none is cut.
fn tokens_in(tokens: &[Token], range: Span) -> Option<TokenRange>
    ensures { length tokens.now < 2 ^ 32 → result ≡ spec.tokens_in tokens.now range }
{
    let first = count_before(tokens, range.start);
    let after = count_before(tokens, range.end);
    tokens_between(tokens, range, first, after)
}

// The row stands right in a block, and begins with this token of its unit.
fn begins_statement(marks: &Marks, token: u32, at: u32) -> bool
    ensures { result ≡ spec.begins_statement marks.now token at }
{
    marks.mark(at).first == token && is_block(marks.rows, parent_at(marks.rows, at))
}

// The first such row of a unit.
fn statement_at(marks: &Marks, unit: u32, token: u32) -> Option<u32>
    ensures { IsOrdered marks.now → unit < length marks.now.units.now → result ≡ spec.statement_at marks.now unit token }
{
    let top = unit_row(marks, unit);
    for at in top..end_at(marks.rows, top) {
        if begins_statement(marks, token, at) {
            return Some(at);
        }
    }
    None
}

// The row stands right in the block.
fn is_in_block(rows: &[Row], block: u32, at: u32) -> bool
    ensures { result ≡ spec.is_in_block rows.now block at }
{
    match rows.get(at as usize) {
        Some(row) => row.parent == block,
        None => false,
    }
}

// The row stands right in the block, and ends before the token.
fn ends_within(marks: &Marks, block: u32, token: u32, at: u32) -> bool
    ensures { result ≡ spec.ends_within marks.now block token at }
{
    is_in_block(marks.rows, block, at) && marks.mark(at).after <= token
}

// It does not.
fn is_past(marks: &Marks, block: u32, token: u32, at: u32) -> bool
    ensures { result ≡ spec.is_past marks.now block token at }
{
    !ends_within(marks, block, token, at)
}

fn ends_at(marks: &Marks, token: u32, at: u32) -> bool
    ensures { result ≡ spec.ends_at marks.now token at }
{
    marks.mark(at).after == token
}

// The row behind the statements, from this one on, of which the last ends right before the token.
fn end_of_statements(marks: &Marks, first: u32, token: u32) -> Option<u32>
    ensures { IsOrdered marks.now → result ≡ spec.end_of_statements marks.now first token }
{
    let block = parent_at(marks.rows, first);
    let mut at = first;
    for _turn in 0..marks.rows.len() {
        if is_past(marks, block, token, at) {
            return None;
        }
        let behind = end_at(marks.rows, at);
        if ends_at(marks, token, at) {
            return Some(behind);
        }
        at = behind;
    }
    None
}

fn is_member(rows: &[Row], at: u32) -> bool
    ensures { result ≡ spec.is_member rows.now at }
{
    is_callable(role_at(rows, at))
}

// The method or constructor in whose body a statement stands; None in an initializer.
fn member_round(rows: &[Row], at: u32) -> Option<u32>
    ensures { result ≡ spec.member_round rows.now at }
{
    let mut over = at;
    for _turn in 0..rows.len() {
        if is_member(rows, over) {
            return Some(over);
        }
        if is_type(rows, over) {
            return None;
        }
        over = parent_at(rows, over);
    }
    None
}

fn calls_constructor(rows: &[Row], at: u32) -> bool
    ensures { result ≡ spec.calls_constructor (label rows.now at) }
{
    match rows.get(at as usize) {
        Some(row) => match row.label {
            Label::ConstructorCall { .. } => true,
            _ => false,
        },
        None => false,
    }
}

// The first call of a constructor among the rows.
fn constructor_call(rows: &[Row], range: RowRange) -> Option<u32>
    ensures { result ≡ spec.constructor_call rows.now range }
{
    for at in range.first..range.end {
        if calls_constructor(rows, at) {
            return Some(at);
        }
    }
    None
}

fn tokens_of<'p>(marks: &Marks<'p>, unit: u32) -> &'p [Token]
    ensures { result.now ≡ tokens_in_unit marks.now unit }
{
    match marks.units.get(unit as usize) {
        Some(placed) => placed.tokens.as_slice(),
        None => &[],
    }
}

// The run, if none of its rows is a call of a constructor by `this` or `super` (JLS 8.8.7.1).
fn run_without(run: Run, call: Option<u32>) -> Option<Run>
    ensures { result ≡ spec.run_without run call }
{
    match call {
        Some(_) => None,
        None => Some(run),
    }
}

// The statements as a run, if they stand in a method or constructor.
fn run_in(marks: &Marks, tokens: TokenRange, rows: RowRange, member: Option<u32>) -> Option<Run>
    ensures { result ≡ spec.run_in marks.now tokens rows member }
{
    match member {
        Some(member) => {
            let run = Run {
                tokens,
                rows,
                member,
            };
            run_without(run, constructor_call(marks.rows, rows))
        }
        None => None,
    }
}

fn run_to(marks: &Marks, tokens: TokenRange, first: u32, behind: Option<u32>) -> Option<Run>
    ensures { result ≡ spec.run_to marks.now tokens first behind }
{
    match behind {
        Some(end) => run_in(
            marks,
            tokens,
            RowRange { first, end },
            member_round(marks.rows, first),
        ),
        None => None,
    }
}

fn run_from(marks: &Marks, tokens: TokenRange, first: Option<u32>) -> Option<Run>
    ensures { IsOrdered marks.now → result ≡ spec.run_from marks.now tokens first }
{
    match first {
        Some(first) => run_to(
            marks,
            tokens,
            first,
            end_of_statements(marks, first, tokens.after),
        ),
        None => None,
    }
}

/// The run of whole statements of one block in a method or constructor whose tokens are just those in the range, if there is one that holds no call of a
/// constructor by `this` or `super` (JLS 8.8.7.1).
pub(crate) fn run_at(marks: &Marks, unit: u32, range: Span) -> Option<Run>
    ensures { IsOrdered marks.now → unit < length marks.now.units.now → result ≡ spec.run_at marks.now unit range }
{
    match tokens_in(tokens_of(marks, unit), range) {
        Some(tokens) => run_from(marks, tokens, statement_at(marks, unit, tokens.first)),
        None => None,
    }
}
