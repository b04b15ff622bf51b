// What is assigned before and behind a row, by what is so at the rows that it depends on (JLS 16).
ghost use Rattle.std.specs.Prelude.{◌≡◌, ◌<◌, ◌≤◌, ◌+◌, ◌-◌, ◌^◌};
ghost use Rattle.jr_tree.specs.Rows.{label, parent, end, previous};
ghost use Rattle.jr_assign.specs.Assigned as tell;
ghost use Rattle.jr_assign.specs.Blank.{is_return};
ghost use Rattle.jr_assign.specs.Changes.{fact};
ghost use Rattle.jr_assign.specs.Made.{returned_by, ended_by};
ghost use Rattle.jr_assign.specs.Words.{mask_of, mask, seen_at, gain_of, seen_by, met_by, sets_by};

use crate::fact::{Fact, Way, fact_of};
use jr_base::Symbol;
use jr_tree::{Label, Row};

/// What is assigned before a row, behind it, and behind it as a condition that is true or false: of 64 variables, by the bits of words.
#[derive(Clone, Copy, PartialEq, Eq)]
pub(crate) struct Seen {
    pub(crate) before: u64,
    pub(crate) done: u64,
    pub(crate) yes: u64,
    pub(crate) no: u64,
}

/// What is assigned behind a row, also as a condition.
#[derive(Clone, Copy, PartialEq, Eq)]
pub(crate) struct Gain {
    pub(crate) done: u64,
    pub(crate) yes: u64,
    pub(crate) no: u64,
}

/// What is known of the rows of a member, from its root on, for the 64 variables with numbers from one on.
#[derive(Clone, Copy)]
pub(crate) struct Course<'a> {
    pub(crate) rows: &'a [Row],
    pub(crate) facts: &'a [Fact],
    pub(crate) numbers: &'a [Option<u32>],
    pub(crate) from: u32,
    pub(crate) root: usize,
    pub(crate) seen: &'a [Seen],
    /// The `try` statements with a `finally`.
    pub(crate) guarded: &'a [u32],
}

// ---- places

pub(crate) fn parent_of(rows: &[Row], at: usize) -> usize
    ensures is { result ≡ parent rows.now at }
    ensures most { result ≤ at + 2 ^ 32 }
{
    match rows.get(at) {
        Some(row) => row.parent as usize,
        None => at,
    }
}

/// The row before a row.
pub(crate) fn previous_of(rows: &[Row], at: usize) -> usize
    ensures is { result ≡ previous rows.now at }
    ensures most { result ≤ at + 2 ^ 32 }
{
    match rows.get(at) {
        Some(row) => row.previous as usize,
        None => at,
    }
}

/// Where a row ends.
pub(crate) fn end_of(rows: &[Row], at: usize) -> usize
    requires { at < 2 ^ 62 }
    ensures is { result ≡ end rows.now at }
    ensures most { result ≤ at + 2 ^ 32 }
    ensures within { at < 2 ^ 32 → result ≤ 2 ^ 32 }
{
    match rows.get(at) {
        Some(row) => row.end as usize,
        None => at + 1,
    }
}

pub(crate) fn second_of(rows: &[Row], at: usize) -> usize
    requires { at < 2 ^ 60 }
    ensures is { result ≡ tell.second rows.now at }
    ensures most { result ≤ at + 1 + 2 ^ 32 }
{
    end_of(rows, at + 1)
}

pub(crate) fn third_of(rows: &[Row], at: usize) -> usize
    requires { at < 2 ^ 60 }
    ensures { result ≡ tell.third rows.now at }
{
    end_of(rows, second_of(rows, at))
}

fn test_of(rows: &[Row], at: usize, has_first: bool) -> usize
    requires { at < 2 ^ 60 }
    ensures is { result ≡ tell.for_test rows.now at has_first }
    ensures most { result ≤ at + 1 + 2 ^ 32 }
{
    if has_first {
        second_of(rows, at)
    } else {
        at + 1
    }
}

pub(crate) fn update_of(rows: &[Row], at: usize, has_first: bool, has_condition: bool) -> usize
    requires { at < 2 ^ 60 }
    ensures { result ≡ tell.for_update rows.now at has_first has_condition }
{
    let test = test_of(rows, at, has_first);
    if has_condition {
        end_of(rows, test)
    } else {
        test
    }
}

pub(crate) fn is_row(part: Option<u32>, at: usize) -> bool
    ensures { result ≡ tell.is_row part at }
{
    match part {
        Some(row) => row as usize == at,
        None => false,
    }
}

/// The bit of a number, in the word that begins with one.
pub(crate) fn mask_of(from: u32, number: Option<u32>) -> u64
    ensures { result ≡ mask_of from number }
{
    match number {
        None => 0,
        Some(number) => {
            if number < from {
                return 0;
            }
            let bit = number - from;
            if bit < 64 { 1u64 << bit } else { 0 }
        }
    }
}

// ---- jumps

pub(crate) fn is_guarded(rows: &[Row], at: usize) -> bool
    ensures { result ≡ tell.is_guarded (label rows.now at) }
{
    match rows.get(at) {
        Some(row) => match row.label {
            Label::Try { has_finally } => has_finally,
            _ => false,
        },
        None => false,
    }
}

fn is_from(part: Option<u32>, rows: &[Row], at: usize, row: usize) -> bool
    requires { at < 2 ^ 60 }
    ensures { result ≡ tell.is_from part rows.now at row }
{
    match part {
        None => false,
        Some(part) => row >= part as usize && row < end_of(rows, at),
    }
}

fn is_in_last(rows: &[Row], facts: &[Fact], at: usize, row: usize) -> bool
    requires { at < 2 ^ 60 }
    ensures { result ≡ tell.is_in_last rows.now facts.now at row }
{
    is_from(fact_of(facts, at).last, rows, at, row)
}

fn is_in_first(rows: &[Row], at: usize, row: usize) -> bool
    requires { at < 2 ^ 60 }
    ensures { result ≡ tell.is_in_first rows.now at row }
{
    at < row && row < second_of(rows, at)
}

// The row stands in the body of the loop.
fn is_in_body(rows: &[Row], facts: &[Fact], at: usize, row: usize) -> bool
    requires { at < 2 ^ 60 }
    ensures { result ≡ tell.is_in_body (label rows.now at) rows.now facts.now at row }
{
    match rows.get(at) {
        Some(over) => match over.label {
            Label::Do => is_in_first(rows, at, row),
            _ => is_in_last(rows, facts, at, row),
        },
        None => is_in_last(rows, facts, at, row),
    }
}

// The row stands inside the target of the jump.
fn is_over(way: Option<Way>, at: usize) -> bool
    ensures { result ≡ tell.is_over way at }
{
    match way {
        None => false,
        Some(Way::Break(to)) => (to as usize) < at,
        Some(Way::Continue(to)) => (to as usize) < at,
        Some(Way::Return) => true,
    }
}

// The jump goes out through the `finally` of the `try`.
fn passes(rows: &[Row], facts: &[Fact], jump: usize, at: usize) -> bool
    requires { at < 2 ^ 60 }
    ensures { result ≡ tell.passes rows.now facts.now jump at }
{
    is_guarded(rows, at)
        && at < jump
        && jump < end_of(rows, at)
        && !is_in_last(rows, facts, at, jump)
        && is_over(fact_of(facts, jump).way, at)
}

fn is_break_to(way: Option<Way>, at: usize) -> bool
    ensures { result ≡ tell.is_break_to way at }
{
    match way {
        Some(Way::Break(to)) => to as usize == at,
        _ => false,
    }
}

fn is_return(way: Option<Way>) -> bool
    ensures { result ≡ is_return way }
{
    match way {
        Some(Way::Return) => true,
        _ => false,
    }
}

fn is_continue_to(way: Option<Way>, at: usize) -> bool
    ensures { result ≡ tell.is_continue_to way at }
{
    match way {
        Some(Way::Continue(to)) => to as usize == at,
        _ => false,
    }
}

// The row is a continue of the loop, in its body.
fn continues_to(rows: &[Row], facts: &[Fact], at: usize, row: usize) -> bool
    requires { at < 2 ^ 60 }
    ensures { result ≡ tell.continues_to rows.now facts.now at row }
{
    is_continue_to(fact_of(facts, row).way, at) && is_in_body(rows, facts, at, row)
}

fn is_catch(rows: &[Row], at: usize) -> bool
    ensures { result ≡ tell.is_catch (label rows.now at) }
{
    match rows.get(at) {
        Some(row) => match row.label {
            Label::Catch => true,
            _ => false,
        },
        None => false,
    }
}

// The row is a catch of the `try`.
fn is_catch_of(rows: &[Row], at: usize, row: usize) -> bool
    ensures { result ≡ tell.is_catch_of rows.now at row }
{
    is_catch(rows, row) && parent_of(rows, row) == at
}

fn plain(set: u64) -> Gain
    ensures { gain_of result ≡ record { done = set; yes = set; no = set } }
{
    Gain {
        done: set,
        yes: set,
        no: set,
    }
}

impl<'a> Course<'a> {
    pub(crate) fn seen(self, at: usize) -> Seen
        ensures { result ≡ seen_at self.entry.seen.now self.entry.root at }
    {
        match self.seen.get(at.saturating_sub(self.root)) {
            Some(seen) => *seen,
            None => Seen {
                before: 0,
                done: 0,
                yes: 0,
                no: 0,
            },
        }
    }

    pub(crate) fn fact(self, at: usize) -> Fact
        ensures { result ≡ fact self.entry.facts.now at }
    {
        fact_of(self.facts, at)
    }

    pub(crate) fn mask(self, variable: usize) -> u64
        ensures { result ≡ mask self.entry.numbers.now self.entry.from variable }
    {
        let number = match self.numbers.get(variable) {
            Some(number) => *number,
            None => None,
        };
        mask_of(self.from, number)
    }

    // Behind the last part of a row.
    pub(crate) fn behind_last(self, at: usize) -> u64
        ensures { result ≡ tell.behind_last self.entry.facts.now (seen_by self.entry) at }
    {
        match self.fact(at).last {
            None => self.seen(at).before,
            Some(part) => self.seen(part as usize).done,
        }
    }

    // ---- jumps

    // What a jump arrives with.
    fn arrives(self, at: usize) -> u64
        ensures { result ≡ tell.arrives (sets_by self.entry) self.entry.rows.now self.entry.facts.now self.entry.guarded.now (seen_by self.entry) at }
    {
        let mut set = self.behind_last(at);
        for over in self.guarded {
            if passes(self.rows, self.facts, at, *over as usize) {
                set |= self.behind_last(*over as usize);
            }
        }
        set
    }

    /// How many rows the member has.
    pub(crate) fn size(self) -> usize
        requires { self.root < 2 ^ 32 }
        ensures is { result ≡ end self.entry.rows.now self.entry.root - self.entry.root }
        ensures most { result ≤ 2 ^ 32 }
    {
        end_of(self.rows, self.root).saturating_sub(self.root)
    }

    // How many rows stand inside a row.
    fn count(self, at: usize) -> usize
        requires { at < 2 ^ 60 }
        ensures is { result ≡ end self.entry.rows.now at - (at + 1) }
        ensures most { result < 2 ^ 61 }
    {
        end_of(self.rows, at).saturating_sub(at + 1)
    }

    // Before each break that goes to a row.
    fn broken(self, at: usize) -> u64
        requires { at < 2 ^ 60 }
        ensures { result ≡ (met_by self.entry at).broken }
    {
        let mut set = u64::MAX;
        for inside in 0..self.count(at) {
            let row = at + 1 + inside;
            if is_break_to(self.fact(row).way, at) {
                set &= self.arrives(row);
            }
        }
        set
    }

    // Before each continue of a loop.
    fn continued(self, at: usize) -> u64
        requires { at < 2 ^ 60 }
        ensures { result ≡ (met_by self.entry at).continued }
    {
        let mut set = u64::MAX;
        for inside in 0..self.count(at) {
            let row = at + 1 + inside;
            if continues_to(self.rows, self.facts, at, row) {
                set &= self.arrives(row);
            }
        }
        set
    }

    // Behind each catch of a `try`.
    fn caught(self, at: usize) -> u64
        requires { at < 2 ^ 60 }
        ensures { result ≡ (met_by self.entry at).caught }
    {
        let mut set = u64::MAX;
        for inside in 0..self.count(at) {
            let row = at + 1 + inside;
            if is_catch_of(self.rows, at, row) {
                set &= self.seen(row).done;
            }
        }
        set
    }

    // Before each return.
    fn returned(self) -> u64
        requires { self.root < 2 ^ 32 }
        ensures { result ≡ returned_by self.entry }
    {
        let mut set = u64::MAX;
        for inside in 0..self.size() {
            let row = self.root + inside;
            if is_return(self.fact(row).way) {
                set &= self.arrives(row);
            }
        }
        set
    }

    /// What is assigned wherever the member ends: at its end, and at each return.
    pub(crate) fn ended(self) -> u64
        requires { self.root < 2 ^ 32 }
        ensures { result ≡ ended_by self.entry }
    {
        self.seen(self.root).done & self.returned()
    }

    // ---- before a row

    fn behind(self, at: usize) -> u64
        ensures { result ≡ tell.behind (sets_by self.entry) self.entry.rows.now self.entry.facts.now (seen_by self.entry) (met_by self.entry) at }
    {
        let over = parent_of(self.rows, at);
        let previous = previous_of(self.rows, at);
        if over < previous {
            self.seen(previous).done
        } else {
            self.seen(over).before
        }
    }

    fn by_test(self, over: usize, at: usize) -> u64
        requires { over < 2 ^ 60 }
        ensures { result ≡ tell.by_test (sets_by self.entry) self.entry.rows.now self.entry.facts.now (seen_by self.entry) (met_by self.entry) over at }
    {
        if at == over + 1 {
            return self.seen(over).before;
        }
        if at == second_of(self.rows, over) {
            self.seen(over + 1).yes
        } else {
            self.seen(over + 1).no
        }
    }

    fn by_failure(self, over: usize, at: usize) -> u64
        requires { over < 2 ^ 60 }
        ensures { result ≡ tell.by_failure (sets_by self.entry) self.entry.rows.now self.entry.facts.now (seen_by self.entry) (met_by self.entry) over at }
    {
        if at == over + 1 {
            self.seen(over).before
        } else {
            self.seen(over + 1).no
        }
    }

    fn in_do(self, over: usize, at: usize) -> u64
        requires { over < 2 ^ 60 }
        ensures { result ≡ tell.in_do (sets_by self.entry) self.entry.rows.now self.entry.facts.now (seen_by self.entry) (met_by self.entry) over at }
    {
        if at == over + 1 {
            self.seen(over).before
        } else {
            self.continued(over) & self.seen(over + 1).done
        }
    }

    fn in_switch(self, over: usize, at: usize) -> u64
        requires { over < 2 ^ 60 }
        ensures { result ≡ tell.in_switch (sets_by self.entry) self.entry.rows.now self.entry.facts.now (seen_by self.entry) (met_by self.entry) over at }
    {
        if at == over + 1 {
            self.seen(over).before
        } else {
            self.seen(over + 1).done & self.behind(at)
        }
    }

    fn for_start(self, over: usize, has_first: bool) -> u64
        requires { over < 2 ^ 60 }
        ensures { result ≡ tell.for_start (sets_by self.entry) self.entry.rows.now self.entry.facts.now (seen_by self.entry) (met_by self.entry) over has_first }
    {
        if has_first {
            self.seen(over + 1).done
        } else {
            self.seen(over).before
        }
    }

    fn for_turn(self, over: usize, has_first: bool, has_condition: bool) -> u64
        requires { over < 2 ^ 60 }
        ensures { result ≡ tell.for_turn (sets_by self.entry) self.entry.rows.now self.entry.facts.now (seen_by self.entry) (met_by self.entry) over has_first has_condition }
    {
        if has_condition {
            self.seen(test_of(self.rows, over, has_first)).yes
        } else {
            self.for_start(over, has_first)
        }
    }

    fn in_for(self, over: usize, has_first: bool, has_condition: bool, at: usize) -> u64
        requires { over < 2 ^ 60 }
        ensures { result ≡ tell.in_for (sets_by self.entry) self.entry.rows.now self.entry.facts.now (seen_by self.entry) (met_by self.entry) over has_first has_condition at }
    {
        if is_row(self.fact(over).last, at) {
            return self.for_turn(over, has_first, has_condition);
        }
        if has_first && at == over + 1 {
            return self.seen(over).before;
        }
        if has_condition && at == test_of(self.rows, over, has_first) {
            return self.for_start(over, has_first);
        }
        if at == update_of(self.rows, over, has_first, has_condition) {
            return self.continued(over) & self.behind_last(over);
        }
        self.behind(at)
    }

    fn before_in(self, label: &Label, over: usize, at: usize) -> u64
        requires { over < 2 ^ 60 }
        ensures { result ≡ tell.before_in (sets_by self.entry) self.entry.rows.now self.entry.facts.now (seen_by self.entry) (met_by self.entry) label.now over at }
    {
        match label {
            Label::If => self.by_test(over, at),
            Label::While => self.by_test(over, at),
            Label::Conditional => self.by_test(over, at),
            Label::Binary { op: Symbol::AndAnd } => self.by_test(over, at),
            Label::Binary { op: Symbol::OrOr } => self.by_failure(over, at),
            Label::Do => self.in_do(over, at),
            Label::For {
                has_first,
                has_condition,
            } => self.in_for(over, *has_first, *has_condition, at),
            Label::Switch => self.in_switch(over, at),
            Label::Try { .. } => self.seen(over).before,
            _ => self.behind(at),
        }
    }

    // What is right behind the row over it, and where it stands in no row.
    fn before_below(self, over: usize, at: usize) -> u64
        requires { over < 2 ^ 60 }
        ensures { result ≡ tell.before_in (sets_by self.entry) self.entry.rows.now self.entry.facts.now (seen_by self.entry) (met_by self.entry) (label self.entry.rows.now over) over at }
    {
        match self.rows.get(over) {
            Some(row) => self.before_in(&row.label, over, at),
            None => self.behind(at),
        }
    }

    /// Before a row that stands in another of the member.
    pub(crate) fn before(self, at: usize) -> u64
        requires { at < 2 ^ 58 }
        ensures { result ≡ tell.before_at (sets_by self.entry) self.entry.rows.now self.entry.facts.now (seen_by self.entry) (met_by self.entry) at }
    {
        let set = self.before_below(parent_of(self.rows, at), at);
        match self.rows.get(at) {
            Some(row) => match row.label {
                Label::Local { .. } => set & !self.mask(at),
                _ => set,
            },
            None => set,
        }
    }

    // ---- behind a row

    fn if_gain(self, at: usize) -> Gain
        requires { at < 2 ^ 60 }
        ensures { gain_of result ≡ tell.if_gain (sets_by self.entry) self.entry.rows.now self.entry.facts.now (seen_by self.entry) (met_by self.entry) at }
    {
        let other = third_of(self.rows, at);
        let no = if other < end_of(self.rows, at) {
            self.seen(other).done
        } else {
            self.seen(at + 1).no
        };
        plain(self.seen(second_of(self.rows, at)).done & no)
    }

    fn loop_gain(self, at: usize, ended: u64) -> Gain
        requires { at < 2 ^ 60 }
        ensures { gain_of result ≡ tell.loop_gain (sets_by self.entry) self.entry.rows.now self.entry.facts.now (seen_by self.entry) (met_by self.entry) at ended }
    {
        plain(ended & self.broken(at))
    }

    fn for_end(self, at: usize, has_first: bool, has_condition: bool) -> u64
        requires { at < 2 ^ 60 }
        ensures { result ≡ tell.for_end (sets_by self.entry) self.entry.rows.now self.entry.facts.now (seen_by self.entry) (met_by self.entry) at has_first has_condition }
    {
        if has_condition {
            self.seen(test_of(self.rows, at, has_first)).no
        } else {
            u64::MAX
        }
    }

    fn switch_gain(self, at: usize) -> Gain
        requires { at < 2 ^ 60 }
        ensures { gain_of result ≡ tell.switch_gain (sets_by self.entry) self.entry.rows.now self.entry.facts.now (seen_by self.entry) (met_by self.entry) at }
    {
        let ended = self.behind_last(at) & self.broken(at);
        if self.fact(at).has_default {
            plain(ended)
        } else {
            plain(ended & self.seen(at + 1).done)
        }
    }

    fn try_gain(self, at: usize, has_finally: bool) -> Gain
        requires { at < 2 ^ 60 }
        ensures { gain_of result ≡ tell.try_gain (sets_by self.entry) self.entry.rows.now self.entry.facts.now (seen_by self.entry) (met_by self.entry) at has_finally }
    {
        let tried = self.seen(at + 1).done & self.caught(at);
        if has_finally {
            plain(tried | self.behind_last(at))
        } else {
            plain(tried)
        }
    }

    fn chosen(self, at: usize) -> Gain
        requires { at < 2 ^ 60 }
        ensures { gain_of result ≡ tell.chosen (sets_by self.entry) self.entry.rows.now self.entry.facts.now (seen_by self.entry) (met_by self.entry) at }
    {
        let first = self.seen(second_of(self.rows, at));
        let second = self.seen(third_of(self.rows, at));
        Gain {
            done: first.done & second.done,
            yes: first.yes & second.yes,
            no: first.no & second.no,
        }
    }

    fn both_hold(self, at: usize) -> Gain
        requires { at < 2 ^ 60 }
        ensures { gain_of result ≡ tell.both_hold (sets_by self.entry) self.entry.rows.now self.entry.facts.now (seen_by self.entry) (met_by self.entry) at }
    {
        let first = self.seen(at + 1);
        let second = self.seen(second_of(self.rows, at));
        let no = first.no & second.no;
        Gain {
            done: second.yes & no,
            yes: second.yes,
            no,
        }
    }

    fn one_holds(self, at: usize) -> Gain
        requires { at < 2 ^ 60 }
        ensures { gain_of result ≡ tell.one_holds (sets_by self.entry) self.entry.rows.now self.entry.facts.now (seen_by self.entry) (met_by self.entry) at }
    {
        let first = self.seen(at + 1);
        let second = self.seen(second_of(self.rows, at));
        let yes = first.yes & second.yes;
        Gain {
            done: yes & second.no,
            yes,
            no: second.no,
        }
    }

    fn negated(self, at: usize) -> Gain
        requires { at < 2 ^ 60 }
        ensures { gain_of result ≡ tell.negated (sets_by self.entry) self.entry.rows.now self.entry.facts.now (seen_by self.entry) (met_by self.entry) at }
    {
        let inner = self.seen(at + 1);
        Gain {
            done: inner.done,
            yes: inner.no,
            no: inner.yes,
        }
    }

    fn enclosed(self, at: usize) -> Gain
        requires { at < 2 ^ 60 }
        ensures { gain_of result ≡ tell.enclosed (sets_by self.entry) self.entry.rows.now self.entry.facts.now (seen_by self.entry) (met_by self.entry) at }
    {
        let inner = self.seen(at + 1);
        Gain {
            done: inner.done,
            yes: inner.yes,
            no: inner.no,
        }
    }

    fn with_assigned(self, variable: Option<u32>, set: u64) -> u64
        ensures { result ≡ tell.with_assigned (sets_by self.entry) variable set }
    {
        match variable {
            None => set,
            Some(variable) => self.mask(variable as usize) | set,
        }
    }

    fn plain_gain(self, at: usize) -> Gain
        ensures { gain_of result ≡ tell.plain (sets_by self.entry) self.entry.rows.now self.entry.facts.now (seen_by self.entry) (met_by self.entry) (tell.with_assigned (sets_by self.entry) (fact self.entry.facts.now at).assigned (tell.behind_last self.entry.facts.now (seen_by self.entry) at)) }
    {
        plain(self.with_assigned(self.fact(at).assigned, self.behind_last(at)))
    }

    fn gain_in(self, label: &Label, at: usize) -> Gain
        requires { at < 2 ^ 60 }
        ensures { gain_of result ≡ tell.gain_in (sets_by self.entry) self.entry.rows.now self.entry.facts.now (seen_by self.entry) (met_by self.entry) label.now at }
    {
        match label {
            Label::If => self.if_gain(at),
            Label::While => self.loop_gain(at, self.seen(at + 1).no),
            Label::Do => self.loop_gain(at, self.seen(second_of(self.rows, at)).no),
            Label::For {
                has_first,
                has_condition,
            } => self.loop_gain(at, self.for_end(at, *has_first, *has_condition)),
            Label::Switch => self.switch_gain(at),
            Label::Labeled => plain(self.behind_last(at) & self.broken(at)),
            Label::Break { .. } => plain(u64::MAX),
            Label::Continue { .. } => plain(u64::MAX),
            Label::Return => plain(u64::MAX),
            Label::Throw => plain(u64::MAX),
            Label::Try { has_finally } => self.try_gain(at, *has_finally),
            Label::Conditional => self.chosen(at),
            Label::Binary { op: Symbol::AndAnd } => self.both_hold(at),
            Label::Binary { op: Symbol::OrOr } => self.one_holds(at),
            Label::Unary { op: Symbol::Not } => self.negated(at),
            Label::Paren => self.enclosed(at),
            _ => self.plain_gain(at),
        }
    }

    fn gain_below(self, at: usize) -> Gain
        requires { at < 2 ^ 60 }
        ensures { gain_of result ≡ tell.gain_in (sets_by self.entry) self.entry.rows.now self.entry.facts.now (seen_by self.entry) (met_by self.entry) (label self.entry.rows.now at) at }
    {
        match self.rows.get(at) {
            Some(row) => self.gain_in(&row.label, at),
            None => self.plain_gain(at),
        }
    }

    /// Behind a row.
    pub(crate) fn gain(self, at: usize) -> Gain
        requires { at < 2 ^ 60 }
        ensures { gain_of result ≡ tell.gain_at (sets_by self.entry) self.entry.rows.now self.entry.facts.now (seen_by self.entry) (met_by self.entry) at }
    {
        let found = self.gain_below(at);
        let before = self.seen(at).before;
        match self.fact(at).truth {
            None => found,
            Some(true) => Gain {
                done: before,
                yes: before,
                no: u64::MAX,
            },
            Some(false) => Gain {
                done: before,
                yes: u64::MAX,
                no: before,
            },
        }
    }
}
