// Which rows are the operand of an assignment or a step.
ghost use Rattle.std.specs.Prelude.{◌≡◌, ◌+◌, ◌<◌, ◌^◌, true, IfOk, length};
ghost use Rattle.jr_tree.specs.Rows.{label};
ghost use Rattle.jr_assign_faults.specs.Changed as tell;
ghost use Rattle.jr_assign_faults.specs.Known.{bare, is_paren};

use jr_base::{OutOfMemory, Symbol};
use jr_places::parent_at;
use jr_tree::{Label, Row};
use std::alloc::Global;

/// What a row is to an assignment or step.
#[derive(Clone, Copy, PartialEq, Eq)]
pub(crate) enum Operand {
    Other,
    /// The left side of a plain assignment.
    Target,
    /// The operand of a compound assignment or of a step.
    Changed,
}

fn left_side(op: Symbol) -> Operand
    ensures { result ≡ tell.left_side op }
{
    match op {
        Symbol::Assign => Operand::Target,
        _ => Operand::Changed,
    }
}

// What stands in a row of this label is to an assignment or step.
fn operand_in(label: &Label, over: u32, round: Operand, at: u32) -> Operand
    ensures { over + 1 < 2 ^ 32 → result ≡ tell.operand_in label.now over round at }
{
    match label {
        Label::Assign { op } => {
            if at == over.saturating_add(1) {
                left_side(*op)
            } else {
                Operand::Other
            }
        }
        Label::PreStep { .. } => Operand::Changed,
        Label::PostStep { .. } => Operand::Changed,
        Label::Paren => round,
        _ => Operand::Other,
    }
}

/// What a row is, by what the row round it is: parentheses are looked through.
pub(crate) fn operand_at(rows: &[Row], round: Operand, at: u32) -> Operand
    ensures { length rows.now < 2 ^ 32 → result ≡ tell.operand_by rows.now round at }
{
    let over = parent_at(rows, at);
    match rows.get(over as usize) {
        Some(row) => operand_in(&row.label, over, round, at),
        None => Operand::Other,
    }
}

/// What a row is by a table.
pub(crate) fn operand_of(operands: &[Operand], at: u32) -> Operand
    ensures { result ≡ tell.operand_of operands.now at }
{
    match operands.get(at as usize) {
        Some(operand) => *operand,
        None => Operand::Other,
    }
}

/// What each row is to an assignment or step.
#[tactic(auto, using(crate::proofs::Tables::one_operand))]
pub(crate) fn operands_of(
    alloc: Global,
    rows: &[Row],
    count: u32,
) -> Result<Vec<Operand>, OutOfMemory>
    ensures { length rows.now < 2 ^ 32 → IfOk result (λ all. all.items ≡ tell.operands rows.now count) }
{
    let mut all = Vec::new(alloc);
    for at in 0..count {
        let round = operand_of(&all, parent_at(rows, at));
        let operand = operand_at(rows, round, at);
        all.push(operand)?;
    }
    Ok(all)
}

fn is_paren(rows: &[Row], at: u32) -> bool
    ensures is { result ≡ is_paren (label rows.now at) }
    ensures inside { result ≡ true → at < length rows.now }
{
    match rows.get(at as usize) {
        Some(row) => match row.label {
            Label::Paren => true,
            _ => false,
        },
        None => false,
    }
}

/// What stands in the parentheses at a row, if there are some.
#[tactic(auto, using(crate::proofs::Known::bare_stops))]
pub(crate) fn bare(rows: &[Row], at: u32) -> u32
    ensures { length rows.now < 2 ^ 32 → result ≡ bare rows.now (length rows.now) at }
{
    let mut inner = at;
    for _turn in 0..rows.len() {
        if !is_paren(rows, inner) {
            return inner;
        }
        inner = inner.saturating_add(1);
    }
    inner
}
