// Locals with an initializer, which are assigned wherever they are in scope (JLS 6.3, 16.2.4).
ghost use Rattle.std.specs.Prelude.{◌≡◌, ◌<◌, ◌^◌, length};
ghost use Rattle.jr_tree.specs.Rows.{label};
ghost use Rattle.jr_assign.specs.Initialized as tell;
ghost use Rattle.jr_assign.specs.Judged.{AreJudged};

use crate::course::{end_of, is_row, parent_of, previous_of};
use crate::fact::{Fact, fact_of};
use crate::judge::put;
use crate::member::member_of;
use jr_tree::{Label, Row};

/// What is known of the rows that read locals.
#[derive(Clone, Copy)]
pub(crate) struct Reads<'a> {
    pub(crate) rows: &'a [Row],
    pub(crate) facts: &'a [Fact],
    /// The member that holds each row.
    pub(crate) members: &'a [u32],
    /// Before each row stands the sibling that ends there, or its parent.
    pub(crate) are_linked: bool,
}

fn is_linked(rows: &[Row], at: usize) -> bool
    requires { at < 2 ^ 32 }
    ensures { result ≡ tell.is_linked rows.now at }
{
    let over = parent_of(rows, at);
    let previous = previous_of(rows, at);
    if over < previous {
        end_of(rows, previous) == at && parent_of(rows, previous) == over
    } else {
        over + 1 >= at
    }
}

/// Before each row stands the sibling that ends there, or its parent.
pub(crate) fn are_linked(rows: &[Row]) -> bool
    requires { length rows.now < 2 ^ 32 }
    ensures { result ≡ tell.are_linked rows.now }
{
    let mut are = true;
    for at in 0..rows.len() {
        let is_here = is_linked(rows, at);
        are = are && is_here;
    }
    are
}

/// The row is a local.
pub(crate) fn is_local(rows: &[Row], at: usize) -> bool
    ensures { result ≡ tell.is_local (label rows.now at) }
{
    match rows.get(at) {
        Some(row) => match row.label {
            Label::Local { .. } => true,
            _ => false,
        },
        None => false,
    }
}

// The row is a local whose declarator assigns it.
fn is_initialized(rows: &[Row], facts: &[Fact], at: usize) -> bool
    ensures { result ≡ tell.is_initialized rows.now facts.now at }
{
    let known = fact_of(facts, at);
    is_local(rows, at) && known.truth.is_none() && is_row(known.assigned, at)
}

fn declares(rows: &[Row], at: usize) -> bool
    ensures { result ≡ tell.declares (label rows.now at) }
{
    match rows.get(at) {
        Some(row) => match row.label {
            Label::Locals => true,
            Label::ForLocals => true,
            _ => false,
        },
        None => false,
    }
}

fn is_declaration(rows: &[Row], facts: &[Fact], at: usize) -> bool
    ensures { result ≡ tell.is_declaration rows.now facts.now at }
{
    declares(rows, at) && fact_of(facts, at).truth.is_none()
}

// The row is a block, a group of a switch, or a `for` whose header begins with the declaration.
fn holds(rows: &[Row], at: usize, declaration: usize) -> bool
    requires { at < 2 ^ 60 }
    ensures { result ≡ tell.holds_in (label rows.now at) at declaration }
{
    match rows.get(at) {
        Some(row) => match row.label {
            Label::Block => true,
            Label::Group => true,
            Label::For { has_first, .. } => has_first && declaration == at + 1,
            _ => false,
        },
        None => false,
    }
}

fn has_scope(rows: &[Row], facts: &[Fact], variable: usize) -> bool
    requires { variable < 2 ^ 32 }
    ensures { result ≡ tell.has_scope rows.now facts.now variable }
{
    let declaration = parent_of(rows, variable);
    let block = parent_of(rows, declaration);
    is_initialized(rows, facts, variable)
        && is_declaration(rows, facts, declaration)
        && holds(rows, block, declaration)
        && declaration < variable
        && block < declaration
}

// The row stands in the scope of the local, behind its declarator.
fn is_in_scope(rows: &[Row], variable: usize, at: usize) -> bool
    requires { variable < 2 ^ 32 }
    ensures { result ≡ tell.is_in_scope rows.now variable at }
{
    let block = parent_of(rows, parent_of(rows, variable));
    at >= end_of(rows, variable) && at < end_of(rows, block)
}

// All of the scope stands in the member.
fn is_in_member(rows: &[Row], root: usize, variable: usize) -> bool
    requires member { root < 2 ^ 32 }
    requires local { variable < 2 ^ 32 }
    ensures { result ≡ tell.is_in_member rows.now root variable }
{
    let declaration = parent_of(rows, variable);
    let block = parent_of(rows, declaration);
    root < declaration && end_of(rows, root) >= end_of(rows, block)
}

// The local is assigned before the row.
fn is_assigned(rows: &[Row], facts: &[Fact], root: usize, variable: usize, at: usize) -> bool
    requires member { root < 2 ^ 32 }
    requires local { variable < 2 ^ 32 }
    ensures { result ≡ tell.is_assigned rows.now facts.now root variable at }
{
    has_scope(rows, facts, variable)
        && is_in_scope(rows, variable, at)
        && is_in_member(rows, root, variable)
}

fn mark(open: &mut Vec<bool>, variable: u32) {
    if let Some(is_open) = open.get_mut(variable as usize) {
        *is_open = true;
    }
}

impl<'a> Reads<'a> {
    fn is_sure(self, variable: usize, at: u32) -> bool
        requires { variable < 2 ^ 32 }
        ensures { result ≡ tell.is_sure self.entry variable at }
    {
        let root = member_of(self.members, at) as usize;
        self.are_linked && is_assigned(self.rows, self.facts, root, variable, at as usize)
    }

    fn judge_at(self, at: u32, open: &mut Vec<bool>, verdicts: &mut Vec<Option<bool>>)
        ensures { verdicts.new.items ≡ tell.noted_at self.entry at verdicts.old.items }
    {
        match fact_of(self.facts, at as usize).read {
            None => {}
            Some(variable) => {
                if self.is_sure(variable as usize, at) {
                    put(verdicts, at as usize, true);
                } else {
                    mark(open, variable);
                }
            }
        }
    }

    /// Judges the rows that read a local with an initializer in its scope, and marks the locals that other rows read.
    pub(crate) fn judge(self, size: u32, open: &mut Vec<bool>, verdicts: &mut Vec<Option<bool>>)
        ensures { self.entry.are_linked ≡ tell.are_linked self.entry.rows.now → AreJudged self.entry.rows.now self.entry.facts.now self.entry.members.now verdicts.old.items → AreJudged self.entry.rows.now self.entry.facts.now self.entry.members.now verdicts.new.items }
    {
        for at in 0..size {
            self.judge_at(at, open, verdicts);
        }
    }
}
