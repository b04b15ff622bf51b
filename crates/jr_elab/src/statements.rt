// Statements by what their rows are (JLS 14).
ghost use Rattle.std.specs.Prelude.{◌≡◌, suc, ◌+◌, ◌<◌, true, [], length, OnOk};
ghost use Rattle.jr_core.specs.declared.code.Code.TheVariants as c;
ghost use Rattle.jr_tree.specs.Rows as rows;
ghost use Rattle.jr_codes.specs.Making.{code, of_none, of_one};
ghost use Rattle.jr_codes.specs.Reads.{rows_of, facts, Becomes};
ghost use Rattle.jr_codes.specs.Waiting.{behind, is_top, waiting};
ghost use Rattle.jr_expressions.specs.Expressions.{codes_of};
ghost use Rattle.jr_elab.specs.Stacked.{AreCodesSettled, AreOutside, AreRead, Does, stacks_in};
ghost use Rattle.jr_expressions.specs.Stacks.{AreCounted, IsAlone, Makes, WaitsFrom, stacks_of};
ghost use Rattle.jr_expressions.specs.Statements as made;

use crate::jumps::{catch, group, jump, returned, switch, switch_case, switch_default, try_catch};
use crate::loops::{do_while, for_loop, while_loop};
use crate::reads::{end_of, label_of, row_before};
use jr_base::OutOfMemory;
use jr_codes::{Parts, Source};
use jr_core::{Catch, Code, Group, SwitchLabel};
use jr_defs::RowType;
use jr_expressions::{add_constant, add_expression};
use jr_tree::Label;
use std::alloc::Global;

/// The parts of a body that is being made.
#[derive(Drop)]
pub struct Making {
    pub codes: Parts<Code>,
    pub labels: Parts<SwitchLabel>,
    pub groups: Parts<Group>,
    pub catches: Parts<Catch>,
    /// The type of the method's result, where the body is that of a method.
    pub result_type: Option<RowType>,
}

impl Making {
    /// No parts of a body whose result has this type.
    pub fn new(alloc: Global, result_type: Option<RowType>) -> Making
        ensures empty { stacks_in result ≡ stacks_of [] }
        ensures typed { result.result_type ≡ result_type }
    {
        let codes = Parts::new(alloc);
        let labels = Parts::new(alloc);
        let groups = Parts::new(alloc);
        let catches = Parts::new(alloc);
        Making {
            codes,
            labels,
            groups,
            catches,
            result_type,
        }
    }
}

/// How many parts of each kind wait that stand behind a row.
#[derive(Drop)]
struct Outside {
    codes: usize,
    labels: usize,
    groups: usize,
    catches: usize,
}

// How many parts wait that stand behind a row which ends here.
fn count_behind<T: Drop>(parts: &Parts<T>, end: u32) -> usize
    ensures { result ≡ length (behind end (waiting parts.now)) }
{
    let inside = parts.count_before(end);
    parts.len().saturating_sub(inside)
}

// The same of each kind.
fn outside_of(making: &Making, end: u32) -> Outside
    ensures { AreOutside end (stacks_in making.now) result }
{
    let codes = count_behind(&making.codes, end);
    let labels = count_behind(&making.labels, end);
    let groups = count_behind(&making.groups, end);
    let catches = count_behind(&making.catches, end);
    Outside {
        codes,
        labels,
        groups,
        catches,
    }
}

// So many parts are left, and that of the row, if it is on top.
fn is_alone<T: Drop>(parts: &Parts<T>, at: u32, outside: usize) -> bool
    ensures { result ≡ true → IsAlone at outside (waiting parts.now) }
{
    let count = parts.len();
    if parts.has(at) {
        count.saturating_sub(1) == outside
    } else {
        count == outside
    }
}

// If the row is code, it is alone.
fn is_alone_if<T: Drop>(parts: &Parts<T>, at: u32, outside: usize) -> bool
    ensures { result ≡ true → is_top at (waiting parts.now) ≡ true → length (waiting parts.now) ≡ suc outside }
{
    if parts.has(at) {
        is_alone(parts, at, outside)
    } else {
        true
    }
}

// If the row is code, it is alone, and if it is a label, no code is left below it.
fn are_codes_settled(making: &Making, at: u32, outside: usize) -> bool
    ensures { result ≡ true → AreCodesSettled at outside (stacks_in making.now) }
{
    if !is_alone_if(&making.codes, at, outside) {
        return false;
    }
    if making.labels.has(at) {
        making.codes.len() == outside
    } else {
        true
    }
}

// Nothing is left below the row that may not be.
fn is_settled(making: &Making, at: u32, outside: &Outside) -> bool
    ensures { result ≡ true → AreCounted at outside.now.codes outside.now.labels outside.now.groups outside.now.catches (stacks_in making.now) }
{
    if !are_codes_settled(making, at, outside.codes) {
        return false;
    }
    if !is_alone(&making.labels, at, outside.labels) {
        return false;
    }
    if !is_alone(&making.groups, at, outside.groups) {
        return false;
    }
    is_alone(&making.catches, at, outside.catches)
}

/// `{ .. }` as a statement
fn nest(source: &Source, codes: &mut Parts<Code>, at: u32) -> Result<(), OutOfMemory>
    ensures { OnOk result (Becomes source.now at (λ parts. code (c.Nest (codes_of parts))) (waiting codes.old) (waiting codes.new)) }
{
    let stmts = codes.before(source.alloc, source.end(at))?;
    codes.push(at, Code::Nest { stmts })
}

/// One declared local variable
fn local(source: &Source, codes: &mut Parts<Code>, at: u32) -> Result<(), OutOfMemory>
    ensures { OnOk result (Becomes source.now at (λ parts. made.local_made (facts source.now) at parts) (waiting codes.old) (waiting codes.new)) }
{
    let init = codes.boxed_if(source.alloc, source.child(at))?;
    let local = source.decl(at);
    codes.push(at, Code::Local { local, init })
}

/// `if (cond) yes else no`
fn choice(source: &Source, codes: &mut Parts<Code>, at: u32) -> Result<(), OutOfMemory>
    ensures { OnOk result (Becomes source.now at (λ parts. made.choice_made (facts source.now) at parts) (waiting codes.old) (waiting codes.new)) }
{
    let second = source.second(at);
    let third = source.end(second);
    let end = end_of(source, at);
    let cond = codes.boxed(source.alloc, source.first(at))?;
    let yes = codes.boxed(source.alloc, second)?;
    let no = codes.boxed_if(source.alloc, row_before(third, end))?;
    codes.push(at, Code::If { cond, yes, no })
}

/// `;`
fn skip(source: &Source, codes: &mut Parts<Code>, at: u32) -> Result<(), OutOfMemory>
    ensures { OnOk result (Becomes source.now at (λ parts. of_none parts (code c.Skip)) (waiting codes.old) (waiting codes.new)) }
{
    let _ = source;
    codes.push(at, Code::Skip)
}

/// An expression as a statement
fn eval(source: &Source, codes: &mut Parts<Code>, at: u32) -> Result<(), OutOfMemory>
    ensures { OnOk result (Becomes source.now at (λ parts. of_one parts (λ m a. code (c.Eval a))) (waiting codes.old) (waiting codes.new)) }
{
    let value = codes.boxed(source.alloc, source.first(at))?;
    codes.push(at, Code::Eval { value })
}

/// `label: body`
fn labeled(source: &Source, codes: &mut Parts<Code>, at: u32) -> Result<(), OutOfMemory>
    ensures { OnOk result (Becomes source.now at (λ parts. of_one parts (λ m a. code (c.Labeled ((facts source.now).decl at) a))) (waiting codes.old) (waiting codes.new)) }
{
    let body = codes.boxed(source.alloc, source.first(at))?;
    let label = source.decl(at);
    codes.push(at, Code::Labeled { label, body })
}

/// `throw value;`
fn thrown(source: &Source, codes: &mut Parts<Code>, at: u32) -> Result<(), OutOfMemory>
    ensures { OnOk result (Becomes source.now at (λ parts. of_one parts (λ m a. code (c.Throw a))) (waiting codes.old) (waiting codes.new)) }
{
    let value = codes.boxed(source.alloc, source.first(at))?;
    codes.push(at, Code::Throw { value })
}

// A statement that holds no other lists than one of statements.
fn plain_statement(
    source: &Source,
    codes: &mut Parts<Code>,
    at: u32,
    label: &Label,
) -> Result<(), OutOfMemory>
    ensures { OnOk result (Becomes source.now at (λ parts. made.plain_made label.now (facts source.now) at parts) (waiting codes.old) (waiting codes.new)) }
{
    match label {
        Label::Nest => nest(source, codes, at),
        Label::Local { .. } => local(source, codes, at),
        Label::Skip => skip(source, codes, at),
        Label::If => choice(source, codes, at),
        Label::Eval => eval(source, codes, at),
        Label::Labeled => labeled(source, codes, at),
        Label::Throw => thrown(source, codes, at),
        Label::Break { has_label } => jump(source, codes, at, *has_label, true),
        Label::Continue { has_label } => jump(source, codes, at, *has_label, false),
        Label::Do => do_while(source, codes, at),
        Label::While => while_loop(source, codes, at),
        Label::For {
            has_first,
            has_condition,
        } => for_loop(source, codes, at, *has_first, *has_condition),
        _ => add_expression(source, codes, at, label),
    }
}

// Makes what a row is that is no constant expression.
fn make_labeled(
    source: &Source,
    making: &mut Making,
    at: u32,
    label: &Label,
) -> Result<(), OutOfMemory>
    ensures made { OnOk result (Does source.now at (λ parts. made.statement_made label.now (facts source.now) making.old.result_type at parts) (stacks_in making.old) (stacks_in making.new)) }
    ensures same { OnOk result (making.new.result_type ≡ making.old.result_type) }
{
    match label {
        Label::Return => returned(source, &mut making.codes, at, making.result_type),
        Label::Case => switch_case(source, &mut making.codes, &mut making.labels, at),
        Label::Default => switch_default(&mut making.labels, at),
        Label::Group => group(
            source,
            &mut making.codes,
            &mut making.labels,
            &mut making.groups,
            at,
        ),
        Label::Switch => switch(source, &mut making.codes, &mut making.groups, at),
        Label::Catch => catch(source, &mut making.codes, &mut making.catches, at),
        Label::Try { has_finally } => try_catch(
            source,
            &mut making.codes,
            &mut making.catches,
            at,
            *has_finally,
        ),
        _ => plain_statement(source, &mut making.codes, at, label),
    }
}

// Makes what the row is, where the parts below it are made.
fn make_row(source: &Source, making: &mut Making, at: u32) -> Result<(), OutOfMemory>
    ensures made { OnOk result (Does source.now at (made.made_at (facts source.now) making.old.result_type at) (stacks_in making.old) (stacks_in making.new)) }
    ensures same { OnOk result (making.new.result_type ≡ making.old.result_type) }
{
    match source.value(at) {
        Some(value) => add_constant(source, &mut making.codes, at, value),
        None => match label_of(source, at) {
            Some(label) => make_labeled(source, making, at, label),
            None => Ok(()),
        },
    }
}

// The same, where nothing is left below the row that may not be; else it is answered for want of memory.
fn make(source: &Source, making: &mut Making, at: u32) -> Result<(), OutOfMemory>
    ensures made { OnOk result (Makes source.now making.old.result_type at (stacks_in making.old) (stacks_in making.new)) }
    ensures same { OnOk result (making.new.result_type ≡ making.old.result_type) }
{
    let outside = outside_of(making, source.end(at));
    make_row(source, making, at)?;
    if is_settled(making, at, &outside) {
        Ok(())
    } else {
        Err(OutOfMemory)
    }
}

/// Makes what stands below a row, from the last row back.
pub fn make_below(source: &Source, making: &mut Making, at: u32) -> Result<(), OutOfMemory>
    ensures made { OnOk result (AreRead source.now → at < length (rows_of source.now) → stacks_in making.old ≡ stacks_of [] → WaitsFrom (facts source.now) making.old.result_type (at + 1) (rows.end (rows_of source.now) at) (stacks_in making.new)) }
    ensures same { OnOk result (making.new.result_type ≡ making.old.result_type) }
{
    let first = source.first(at);
    let end = source.end(at);
    for row in (first..end).rev() {
        make(source, making, row)?;
    }
    Ok(())
}
