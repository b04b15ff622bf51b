// Jumps, `switch` and `try` (JLS 14.11, 14.15 to 14.20).
ghost use Rattle.std.specs.Prelude.{◌≡◌, ℕ, ◌+◌, ◌≤◌, ◌<◌, ◌^◌, List, ◌∷◌, Some, None, IfOk, OnOk};
ghost use Rattle.jr_core.specs.declared.code.Catch.{Catch};
ghost use Rattle.jr_core.specs.declared.code.Group.{Group};
ghost use Rattle.jr_core.specs.declared.code.SwitchLabel.{SwitchLabel};
ghost use Rattle.jr_core.specs.declared.code.SwitchLabel.TheVariants as l;
ghost use Rattle.jr_tree.specs.declared.label.Label.TheVariants as is;
ghost use Rattle.jr_tree.specs.Rows as rows;
ghost use Rattle.jr_plain.specs.Types.{type_of_declared};
ghost use Rattle.jr_codes.specs.Reads.{rows_of, table_of, facts, IsReadAt, Becomes};
ghost use Rattle.jr_codes.specs.Waiting.{waiting};
ghost use Rattle.jr_elab.specs.Stacked as stacked;
ghost use Rattle.jr_elab.specs.Stacked.{Does, TakesLast, stacks};
ghost use Rattle.jr_expressions.specs.Statements as made;

use jr_base::{DeclId, Items, OutOfMemory, TypeId};
use jr_codes::{Parts, Source};
use jr_constants::as_int;
use jr_core::{Catch, Code, Group, SwitchLabel};
use jr_defs::{Element, RowType};
use jr_expressions::converted;

// The labeled statement that a jump names.
fn target(source: &Source, at: u32, has_label: bool) -> Result<Option<DeclId>, OutOfMemory>
    ensures { IfOk result (λ label. made.jump_target (facts source.now) at has_label ≡ Some label) }
{
    if !has_label {
        return Ok(None);
    }
    match source.under().declared(at) {
        Some(row) => Ok(Some(source.decl(row))),
        None => Err(OutOfMemory),
    }
}

/// `break` or `continue`
pub fn jump(
    source: &Source,
    codes: &mut Parts<Code>,
    at: u32,
    has_label: bool,
    is_break: bool,
) -> Result<(), OutOfMemory>
    ensures { OnOk result (Becomes source.now at (λ parts. made.jump_made (made.jump_of is_break) (facts source.now) at has_label parts) (waiting codes.old) (waiting codes.new)) }
{
    let label = target(source, at, has_label)?;
    if is_break {
        codes.push(at, Code::Break { label })
    } else {
        codes.push(at, Code::Continue { label })
    }
}

// A value that a method gives back, as one of the type of its result.
fn return_value(
    source: &Source,
    codes: &mut Parts<Code>,
    at: u32,
    row: u32,
    wanted: Option<RowType>,
) -> Result<(), OutOfMemory>
    ensures { OnOk result (Becomes source.now at (λ parts. made.returned wanted (facts source.now) parts) (waiting codes.old) (waiting codes.new)) }
{
    match wanted {
        Some(ty) => {
            let value = Some(converted(source, codes, row, ty)?);
            codes.push(at, Code::Return { value })
        }
        None => Err(OutOfMemory),
    }
}

/// `return`
pub fn returned(
    source: &Source,
    codes: &mut Parts<Code>,
    at: u32,
    wanted: Option<RowType>,
) -> Result<(), OutOfMemory>
    ensures { OnOk result (Becomes source.now at (λ parts. made.return_made wanted (facts source.now) at parts) (waiting codes.old) (waiting codes.new)) }
{
    match source.child(at) {
        Some(row) => return_value(source, codes, at, row, wanted),
        None => codes.push(at, Code::Return { value: None }),
    }
}

// The label of a case.
fn case_label(source: &Source, at: u32) -> Result<SwitchLabel, OutOfMemory>
    ensures { IfOk result (λ label. stacked.case_label ((facts source.now).value at) ≡ Some label) }
{
    match source.value(at) {
        Some(value) => match as_int(value) {
            Some(number) => Ok(SwitchLabel::Case(number)),
            None => Err(OutOfMemory),
        },
        None => Err(OutOfMemory),
    }
}

/// `case value:`
pub fn switch_case(
    source: &Source,
    codes: &mut Parts<Code>,
    labels: &mut Parts<SwitchLabel>,
    at: u32,
) -> Result<(), OutOfMemory>
    ensures { OnOk result ((groups : List (ℕ × Group)) → (catches : List (ℕ × Catch)) → Does source.now at (λ parts. made.statement_made is.Case (facts source.now) None at parts) (stacks (waiting codes.old) (waiting labels.old) groups catches) (stacks (waiting codes.new) (waiting labels.new) groups catches)) }
{
    let expression = source.first(at);
    drop(codes.boxed(source.alloc, expression)?);
    let label = case_label(source, expression)?;
    labels.push(at, label)
}

/// `default:`
pub fn switch_default(labels: &mut Parts<SwitchLabel>, at: u32) -> Result<(), OutOfMemory>
    ensures { OnOk result (waiting labels.new ≡ (at, l.Default) ∷ waiting labels.old) }
{
    labels.push(at, SwitchLabel::Default)
}

/// Labels of a `switch` with the statements after them.
pub fn group(
    source: &Source,
    codes: &mut Parts<Code>,
    labels: &mut Parts<SwitchLabel>,
    groups: &mut Parts<Group>,
    at: u32,
) -> Result<(), OutOfMemory>
    ensures { OnOk result ((catches : List (ℕ × Catch)) → Does source.now at (λ parts. made.group_made parts) (stacks (waiting codes.old) (waiting labels.old) (waiting groups.old) catches) (stacks (waiting codes.new) (waiting labels.new) (waiting groups.new) catches)) }
{
    let end = source.end(at);
    let labels = labels.before(source.alloc, end)?;
    let stmts = codes.before(source.alloc, end)?;
    groups.push(at, Group { labels, stmts })
}

/// `switch (value) { group .. }`
pub fn switch(
    source: &Source,
    codes: &mut Parts<Code>,
    groups: &mut Parts<Group>,
    at: u32,
) -> Result<(), OutOfMemory>
    ensures { OnOk result ((labels : List (ℕ × SwitchLabel)) → (catches : List (ℕ × Catch)) → Does source.now at (λ parts. made.switch_made parts) (stacks (waiting codes.old) labels (waiting groups.old) catches) (stacks (waiting codes.new) labels (waiting groups.new) catches)) }
{
    let value = codes.boxed(source.alloc, source.first(at))?;
    let groups = groups.before(source.alloc, source.end(at))?;
    codes.push(at, Code::Switch { value, groups })
}

// The class of the parameter of a catch.
fn caught(source: &Source, parameter: u32) -> Result<TypeId, OutOfMemory>
    ensures { IfOk result (λ class. (n : ℕ) → IsReadAt source.now n → stacked.caught (facts source.now) (type_of_declared (rows_of source.now) (table_of source.now) parameter) ≡ Some class.0) }
{
    match source.under().type_of_declared(parameter) {
        Some(ty) => match ty.element {
            Element::Class(class) => Ok(source.type_id(class)),
            _ => Err(OutOfMemory),
        },
        None => Err(OutOfMemory),
    }
}

/// `catch (class param) body`
pub fn catch(
    source: &Source,
    codes: &mut Parts<Code>,
    catches: &mut Parts<Catch>,
    at: u32,
) -> Result<(), OutOfMemory>
    ensures { OnOk result ((labels : List (ℕ × SwitchLabel)) → (groups : List (ℕ × Group)) → Does source.now at (λ parts. made.statement_made is.Catch (facts source.now) None at parts) (stacks (waiting codes.old) labels groups (waiting catches.old)) (stacks (waiting codes.new) labels groups (waiting catches.new))) }
{
    let parameter = source.first(at);
    let class = caught(source, parameter)?;
    let body = codes.before(source.alloc, source.end(at))?;
    let param = source.decl(parameter);
    catches.push(at, Catch { class, param, body })
}

// The block of `finally`, if it is there.
fn last_if(
    source: &Source,
    codes: &mut Parts<Code>,
    end: u32,
    has_finally: bool,
) -> Result<Option<Items<Code>>, OutOfMemory>
    ensures { IfOk result (λ last. TakesLast has_finally end (waiting codes.old) (waiting codes.new) last) }
{
    if has_finally {
        Ok(Some(codes.before(source.alloc, end)?))
    } else {
        Ok(None)
    }
}

// The row behind the block of a `try`, which ends inside it. One that ended behind it would be answered for want of memory; none does in a tree.
fn block_end(source: &Source, at: u32, end: u32) -> Result<u32, OutOfMemory>
    ensures inside { IfOk result (λ block. block ≤ end) }
    ensures ends { IfOk result (λ block. at + 2 < 2 ^ 32 → block ≡ rows.end (rows_of source.now) (at + 1)) }
{
    let block = source.second(at);
    if block <= end {
        Ok(block)
    } else {
        Err(OutOfMemory)
    }
}

/// `try body catch .. finally last`
pub fn try_catch(
    source: &Source,
    codes: &mut Parts<Code>,
    catches: &mut Parts<Catch>,
    at: u32,
    has_finally: bool,
) -> Result<(), OutOfMemory>
    ensures { OnOk result ((labels : List (ℕ × SwitchLabel)) → (groups : List (ℕ × Group)) → Does source.now at (λ parts. made.try_made (facts source.now) at has_finally parts) (stacks (waiting codes.old) labels groups (waiting catches.old)) (stacks (waiting codes.new) labels groups (waiting catches.new))) }
{
    let end = source.end(at);
    let block = block_end(source, at, end)?;
    let body = codes.before(source.alloc, block)?;
    let catches = catches.before(source.alloc, end)?;
    let last = last_if(source, codes, end, has_finally)?;
    codes.push(
        at,
        Code::Try {
            body,
            catches,
            last,
        },
    )
}
