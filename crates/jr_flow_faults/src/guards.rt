// What is round each row that meets what is thrown there: the body of a `try`, or a member.
ghost use Rattle.std.specs.Prelude.{◌≡◌, ◌+◌, ◌<◌, ◌^◌, IfOk, length, nat_eq};
ghost use Rattle.jr_tree.specs.Rows.{label};
ghost use Rattle.jr_reach.specs.Statements.{fact, later};
ghost use Rattle.jr_flow_faults.specs.Computed.{is_it};
ghost use Rattle.jr_flow_faults.specs.Outwards as tell;

use crate::catches::is_catch;
use crate::facts::is_block;
use jr_base::OutOfMemory;
use jr_places::parent_at;
use jr_reach::{Entry, Fact, completes_at};
use jr_tree::{Label, Row};
use std::alloc::Global;

/// What a row is to what is thrown inside it.
#[derive(Clone, Copy)]
pub(crate) enum Guard {
    Nothing,
    Try,
    /// A method or constructor.
    Callable,
    Initializer { is_static: bool },
    Field,
}

/// What the row is to what is thrown inside it.
pub(crate) fn guard_at(rows: &[Row], at: u32) -> Guard
    ensures { result ≡ tell.guard_of (label rows.now at) }
{
    match rows.get(at as usize) {
        Some(row) => match row.label {
            Label::Try { .. } => Guard::Try,
            Label::Method { .. } => Guard::Callable,
            Label::Constructor { .. } => Guard::Callable,
            Label::DefaultConstructor => Guard::Callable,
            Label::Initializer { is_static } => Guard::Initializer { is_static },
            Label::Field { .. } => Guard::Field,
            _ => Guard::Nothing,
        },
        None => Guard::Nothing,
    }
}

/// The row is a `try`.
pub(crate) fn is_try(rows: &[Row], at: u32) -> bool
    ensures { result ≡ tell.is_try (label rows.now at) }
{
    match guard_at(rows, at) {
        Guard::Try => true,
        _ => false,
    }
}

// The block of the `finally` of a `try`, if there is one.
fn last_of(facts: &[Fact], at: u32) -> Option<u32>
    ensures { result ≡ (fact facts.now at).last }
{
    match facts.get(at as usize) {
        Some(fact) => fact.last,
        None => None,
    }
}

/// A `try` whose `finally` cannot complete, so that what is thrown is lost (JLS 14.20.2).
pub(crate) fn loses(facts: &[Fact], all: &[Entry], rows: &[Row], at: u32) -> bool
    ensures { result ≡ tell.loses facts.now (later (length rows.now) all.now) at }
{
    match last_of(facts, at) {
        Some(last) => !completes_at(all, rows.len(), last as usize),
        None => false,
    }
}

/// What is known of the rows before, and of statements.
#[derive(Clone, Copy)]
pub struct Around<'a> {
    pub rows: &'a [Row],
    pub facts: &'a [Fact],
    pub all: &'a [Entry],
}

fn guard_in(known: &[Option<u32>], at: u32) -> Option<u32>
    ensures { result ≡ tell.guard_in known.now at }
{
    match known.get(at as usize) {
        Some(guard) => *guard,
        None => None,
    }
}

/// The row is the one right after the other.
pub(crate) fn is_next(over: u32, at: u32) -> bool
    ensures { result ≡ nat_eq at (over + 1) }
{
    over < at && at - over == 1
}

impl<'a> Around<'a> {
    /// What is thrown in the `try` is lost.
    pub(crate) fn loses(&self, at: u32) -> bool
        ensures { result ≡ tell.loses self.now.facts.now (later (length self.now.rows.now) self.now.all.now) at }
    {
        loses(self.facts, self.all, self.rows, at)
    }

    /// The row is the block of the `finally` of a `try`.
    pub(crate) fn is_last(&self, over: u32, at: u32) -> bool
        ensures { result ≡ is_it (fact self.now.facts.now over).last at }
    {
        match last_of(self.facts, over) {
            Some(last) => last == at,
            None => false,
        }
    }

    // In a `try` its body is guarded by it; what a catch throws is lost where the `finally` cannot complete.
    fn guard_in_try(&self, known: &[Option<u32>], at: u32) -> Option<u32>
        ensures { result ≡ tell.guard_in_try self.now.rows.now self.now.facts.now (later (length self.now.rows.now) self.now.all.now) known.now at }
    {
        let over = parent_at(self.rows, at);
        if is_catch(self.rows, at) {
            if self.loses(over) {
                return None;
            }
            return guard_in(known, over);
        }
        if is_block(self.rows, at) && is_next(over, at) {
            return Some(over);
        }
        if self.is_last(over, at) {
            guard_in(known, over)
        } else {
            None
        }
    }

    // What meets first what is thrown at a row; nothing where it is lost.
    fn guard_of(&self, known: &[Option<u32>], at: u32) -> Option<u32>
        ensures { result ≡ tell.guard_by self.now.rows.now self.now.facts.now (later (length self.now.rows.now) self.now.all.now) known.now at }
    {
        let over = parent_at(self.rows, at);
        match guard_at(self.rows, over) {
            Guard::Try => self.guard_in_try(known, at),
            Guard::Nothing => guard_in(known, over),
            Guard::Callable => Some(over),
            Guard::Initializer { .. } => Some(over),
            Guard::Field => Some(over),
        }
    }

    /// For each row what meets first what is thrown there.
    pub(crate) fn guards(&self, alloc: Global) -> Result<Vec<Option<u32>>, OutOfMemory>
        ensures { length self.now.rows.now < 2 ^ 32 → IfOk result (λ all. all.items ≡ tell.guards self.now.rows.now self.now.facts.now (later (length self.now.rows.now) self.now.all.now) (length self.now.rows.now)) }
    {
        let Ok(count) = u32::try_from(self.rows.len()) else {
            return Err(OutOfMemory);
        };
        let mut known = Vec::new(alloc);
        for at in 0..count {
            let guard = self.guard_of(&known, at);
            known.push(guard)?;
        }
        Ok(known)
    }

    /// What meets next what the `try` does not catch.
    pub(crate) fn next_guard(&self, guards: &[Option<u32>], at: u32) -> Option<u32>
        ensures { result ≡ tell.next_guard self.now.facts.now (later (length self.now.rows.now) self.now.all.now) guards.now at }
    {
        if self.loses(at) {
            return None;
        }
        guard_in(guards, at)
    }
}

/// What meets first what is thrown at a row.
pub(crate) fn first_guard(guards: &[Option<u32>], at: u32) -> Option<u32>
    ensures { result ≡ tell.guard_in guards.now at }
{
    guard_in(guards, at)
}
