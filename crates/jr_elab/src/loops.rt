// Loops (JLS 14.12 to 14.14).
ghost use Rattle.std.specs.Prelude.{◌≡◌, ◌+◌, ◌-◌, ◌<◌, ◌^◌, true, IfOk, OnOk};
ghost use Rattle.jr_core.specs.declared.code.Code.TheVariants as c;
ghost use Rattle.jr_tree.specs.Rows as rows;
ghost use Rattle.jr_codes.specs.Making.{code, of_two_parts};
ghost use Rattle.jr_codes.specs.Reads.{rows_of, facts, Becomes};
ghost use Rattle.jr_codes.specs.Waiting.{waiting};
ghost use Rattle.jr_elab.specs.Stacked.{AddsEval, TakesCondition, TakesEvals, TakesHeader};
ghost use Rattle.jr_expressions.specs.Statements as made;

use crate::reads::end_of;
use jr_base::{Boxed, Items, OutOfMemory};
use jr_codes::{Parts, Source, add_item};
use jr_core::Code;
use jr_tree::Label;

/// `do body while (cond);`
pub fn do_while(source: &Source, codes: &mut Parts<Code>, at: u32) -> Result<(), OutOfMemory>
    ensures { OnOk result (Becomes source.now at (λ parts. of_two_parts parts (λ m a k b. code (c.Do a b))) (waiting codes.old) (waiting codes.new)) }
{
    let body = codes.boxed(source.alloc, source.first(at))?;
    let cond = codes.boxed(source.alloc, source.second(at))?;
    codes.push(at, Code::Do { body, cond })
}

/// `while (cond) body`
pub fn while_loop(source: &Source, codes: &mut Parts<Code>, at: u32) -> Result<(), OutOfMemory>
    ensures { OnOk result (Becomes source.now at (λ parts. of_two_parts parts (λ m a k b. code (c.While a b))) (waiting codes.old) (waiting codes.new)) }
{
    let cond = codes.boxed(source.alloc, source.first(at))?;
    let body = codes.boxed(source.alloc, source.second(at))?;
    codes.push(at, Code::While { cond, body })
}

// Takes an expression as a statement.
fn add_eval(
    source: &Source,
    codes: &mut Parts<Code>,
    all: &mut Items<Code>,
    row: u32,
) -> Result<(), OutOfMemory>
    ensures { OnOk result (AddsEval row (waiting codes.old) (waiting codes.new) all.old all.new) }
{
    let value = codes.boxed(source.alloc, row)?;
    let code = Boxed::new(source.alloc, Code::Eval { value })?;
    add_item(all, code)
}

// The expressions before a row, as statements.
fn evals(source: &Source, codes: &mut Parts<Code>, end: u32) -> Result<Items<Code>, OutOfMemory>
    ensures { IfOk result (λ all. TakesEvals end (waiting codes.old) (waiting codes.new) all) }
{
    let mut all = Items::new(source.alloc);
    while let Some(row) = codes.next(end) {
        add_eval(source, codes, &mut all, row)?;
    }
    Ok(all)
}

// The row is a list of expressions.
fn is_list(source: &Source, at: u32) -> bool
    ensures { result ≡ made.is_list_of_expressions (rows.label (rows_of source.now) at) }
{
    match source.rows().get(at as usize) {
        Some(row) => match row.label {
            Label::ForExprs => true,
            _ => false,
        },
        None => false,
    }
}

// The first part of the header of a `for`.
fn header(source: &Source, codes: &mut Parts<Code>, at: u32) -> Result<Items<Code>, OutOfMemory>
    ensures { IfOk result (λ all. at + 1 < 2 ^ 32 → TakesHeader (facts source.now) at true (waiting codes.old) (waiting codes.new) all) }
{
    let end = source.end(at);
    if is_list(source, at) {
        evals(source, codes, end)
    } else {
        codes.before(source.alloc, end)
    }
}

fn header_if(
    source: &Source,
    codes: &mut Parts<Code>,
    at: u32,
    has_first: bool,
) -> Result<Items<Code>, OutOfMemory>
    ensures { IfOk result (λ all. at + 1 < 2 ^ 32 → TakesHeader (facts source.now) at has_first (waiting codes.old) (waiting codes.new) all) }
{
    if has_first {
        header(source, codes, at)
    } else {
        Ok(Items::new(source.alloc))
    }
}

fn condition_if(
    source: &Source,
    codes: &mut Parts<Code>,
    at: u32,
    has_condition: bool,
) -> Result<Option<Boxed<Code>>, OutOfMemory>
    ensures { IfOk result (λ cond. TakesCondition has_condition at (waiting codes.old) (waiting codes.new) cond) }
{
    if has_condition {
        Ok(Some(codes.boxed(source.alloc, at)?))
    } else {
        Ok(None)
    }
}

// The row behind this one, if it is there.
fn behind(source: &Source, at: u32, is_there: bool) -> u32
    ensures { (is_there ≡ true → at + 1 < 2 ^ 32) → result ≡ made.row_behind (facts source.now) at is_there }
{
    if is_there { source.end(at) } else { at }
}

// The last of the siblings from a row on that end with the row round them.
fn last_from(source: &Source, from: u32, end: u32) -> u32
    ensures { result ≡ made.last_from (facts source.now) (end - from) from end }
{
    let mut child = from;
    for _turn in from..end {
        let next = source.end(child);
        if next >= end {
            return child;
        }
        child = next;
    }
    child
}

/// `for (first; cond; update) body`
pub fn for_loop(
    source: &Source,
    codes: &mut Parts<Code>,
    at: u32,
    has_first: bool,
    has_condition: bool,
) -> Result<(), OutOfMemory>
    ensures { OnOk result (Becomes source.now at (λ parts. made.for_made (facts source.now) at has_first has_condition parts) (waiting codes.old) (waiting codes.new)) }
{
    let child = source.first(at);
    let end = end_of(source, at);
    let condition = behind(source, child, has_first);
    let updates = behind(source, condition, has_condition);
    let last = last_from(source, updates, end);
    let first = header_if(source, codes, child, has_first)?;
    let cond = condition_if(source, codes, condition, has_condition)?;
    let update = evals(source, codes, last)?;
    let body = codes.boxed(source.alloc, last)?;
    codes.push(
        at,
        Code::For {
            first,
            cond,
            update,
            body,
        },
    )
}
