// The acts of the rows of a body, in a table.
ghost use Rattle.std.specs.Prelude.{◌≡◌, ℕ, ◌+◌, ◌-◌, ◌<◌, ◌≤◌, ◌^◌, ◌∷◌, ◌++◌, [], List, length, map, IfOk, OnOk, option_and_then, option_map, slice_get, slice_set, unwrap_or};
ghost use Rattle.jr_tree.specs.Rows.{parent};
ghost use Rattle.jr_tree.specs.Tree.{IsTree};
ghost use Rattle.jr_flow_defs.specs.Meaning.{Meaning};
ghost use Rattle.jr_flow_defs.specs.Acts as defs;
ghost use Rattle.jr_flow.specs.Seen.{act_seen, seen};
ghost use Rattle.jr_flow.specs.Views.{rows_in, IsViewOf};
ghost use Rattle.jr_flow.specs.Coded as tell;

use crate::acts::{Act, Acts};
use crate::statements::{last_part, write_row};
use jr_base::OutOfMemory;
use jr_places::{end_at, parent_at};
use jr_tree::Row;
use jr_view::View;
use std::alloc::Global;

/// The acts of the rows of a body, and for each row where control goes on behind it.
#[derive(Drop)]
pub(crate) struct Code {
    body: u32,
    acts: Acts,
    /// For each row of the body, and behind the last one, the number of its first act.
    firsts: Vec<u32>,
    /// For each row of the body the number of the act behind it, in the row right above it.
    behinds: Vec<u32>,
    /// For each row of the body the last row right below it.
    lasts: Vec<u32>,
}

fn number_of(count: usize) -> Result<u32, OutOfMemory>
    ensures { IfOk result (λ n. n ≡ count) }
{
    match u32::try_from(count) {
        Ok(number) => Ok(number),
        Err(_) => Err(OutOfMemory),
    }
}

// ---- acts, and where those of each row begin

// Writes the acts of a row.
fn write_one(
    view: &View,
    acts: &mut Acts,
    firsts: &mut Vec<u32>,
    at: u32,
) -> Result<(), OutOfMemory>
    ensures begun { OnOk result (firsts.new.items ≡ firsts.old.items ++ length (seen acts.old) ∷ []) }
    ensures written { (m : Meaning) → IsViewOf view.now m → IsTree (rows_in view.now) → at < length (rows_in view.now) → OnOk result (seen acts.new ≡ seen acts.old ++ defs.acts (rows_in view.now) m at) }
{
    let first = number_of(acts.len())?;
    firsts.push(first)?;
    match view.sight.world.under.rows.get(at as usize) {
        Some(row) => write_row(view, acts, at, &row.label),
        None => Ok(()),
    }
}

// Writes the acts of the rows from one up to another.
fn write_all(
    view: &View,
    acts: &mut Acts,
    firsts: &mut Vec<u32>,
    from: u32,
    end: u32,
) -> Result<(), OutOfMemory>
    ensures { (m : Meaning) → IsViewOf view.now m → IsTree (rows_in view.now) → end ≤ length (rows_in view.now)
        → OnOk result (tell.AreWritten (rows_in view.now) m from (end - from) (seen acts.old) (seen acts.new) firsts.old.items firsts.new.items) }
{
    for at in from..end {
        write_one(view, acts, firsts, at)?;
    }
    let last = number_of(acts.len())?;
    firsts.push(last)?;
    Ok(())
}

fn item(all: &[u32], body: u32, at: u32) -> Option<u32>
    ensures { result ≡ tell.item all.now body at }
{
    if at < body {
        return None;
    }
    all.get((at - body) as usize).copied()
}

// How many acts a row has.
fn count_at(firsts: &[u32], body: u32, at: u32) -> u32
    ensures { at + 1 < 2 ^ 32 → result ≡ tell.count_of firsts.now body at }
{
    match item(firsts, body, at) {
        Some(first) => match item(firsts, body, at.saturating_add(1)) {
            Some(next) => next.saturating_sub(first),
            None => 0,
        },
        None => 0,
    }
}

// ---- the last parts

fn push_lasts(rows: &[Row], lasts: &mut Vec<u32>, from: u32, end: u32) -> Result<(), OutOfMemory>
    ensures { OnOk result (lasts.new.items ≡ lasts.old.items ++ tell.lasts_from rows.now from (end - from)) }
{
    for at in from..end {
        lasts.push(last_part(rows, at))?;
    }
    Ok(())
}

// ---- where control goes on behind a row

// Behind a row that is no part of the one above it: behind all acts of that.
fn push_counts(
    rows: &[Row],
    firsts: &[u32],
    behinds: &mut Vec<u32>,
    body: u32,
    end: u32,
) -> Result<(), OutOfMemory>
    ensures { ((n : ℕ) → n < end → parent rows.now n + 1 < 2 ^ 32) → OnOk result (behinds.new.items ≡ behinds.old.items ++ tell.counts_from rows.now firsts.now body body (end - body)) }
{
    for at in body..end {
        behinds.push(count_at(firsts, body, parent_at(rows, at)))?;
    }
    Ok(())
}

#[tactic(auto, using(std::proofs::lemmas::List::set_past))]
fn set(all: &mut Vec<u32>, at: u32, number: u32)
    ensures { all.new.items ≡ slice_set all.old.items at number }
{
    if (at as usize) < all.len() {
        all[at as usize] = number;
    }
}

// The row is a part of another, right below it, at the act of a number.
fn place(rows: &[Row], behinds: &mut Vec<u32>, body: u32, at: u32, act: Option<Act>, number: u32)
    ensures { number + 1 < 2 ^ 32 → behinds.new.items ≡ tell.placed rows.now body at (option_map act_seen act) number behinds.old.items }
{
    match act {
        Some(Act::Part { row }) => {
            if body <= row && parent_at(rows, row) == at {
                set(behinds, row - body, number.saturating_add(1));
            }
        }
        _ => {}
    }
}

// Behind the parts of a row: behind the first act that they are.
fn place_parts(
    rows: &[Row],
    acts: &Acts,
    behinds: &mut Vec<u32>,
    body: u32,
    at: u32,
    first: u32,
    count: u32,
)
    ensures { (all : List defs.Act) → count ≡ length all → ((i : ℕ) → i < count → slice_get (seen acts.now) (first + i) ≡ slice_get all i)
        → behinds.new.items ≡ tell.placed_all rows.now body at all 0 behinds.old.items }
{
    for turn in 0..count {
        let number = count - turn - 1;
        let nth = first as usize + number as usize;
        place(rows, behinds, body, at, acts.get(nth), number);
    }
}

fn place_rows(
    rows: &[Row],
    acts: &Acts,
    firsts: &[u32],
    behinds: &mut Vec<u32>,
    body: u32,
    end: u32,
)
    ensures { (m : Meaning) → end < 2 ^ 32 → tell.AreTold rows.now m body (end - body) (seen acts.now) firsts.now
        → behinds.new.items ≡ tell.placed_rows rows.now m body body (end - body) behinds.old.items }
{
    for at in body..end {
        let first = item(firsts, body, at).unwrap_or(0);
        place_parts(
            rows,
            acts,
            behinds,
            body,
            at,
            first,
            count_at(firsts, body, at),
        );
    }
}

// ---- all of the table

impl Code {
    fn new(alloc: Global, body: u32) -> Code
        ensures { tell.IsBegun body result }
    {
        Code {
            body,
            acts: Acts::new(alloc),
            firsts: Vec::new(alloc),
            behinds: Vec::new(alloc),
            lasts: Vec::new(alloc),
        }
    }

    fn fill(&mut self, view: &View) -> Result<(), OutOfMemory>
        ensures { (m : Meaning) → IsViewOf view.now m → IsTree (rows_in view.now) → tell.IsBegun self.old.body self.old → self.old.body < length (rows_in view.now)
            → OnOk result (tell.IsCodeOf (rows_in view.now) m self.old.body self.new) }
    {
        let rows = view.sight.world.under.rows;
        let end = end_at(rows, self.body);
        write_all(view, &mut self.acts, &mut self.firsts, self.body, end)?;
        push_lasts(rows, &mut self.lasts, self.body, end)?;
        push_counts(rows, &self.firsts, &mut self.behinds, self.body, end)?;
        place_rows(
            rows,
            &self.acts,
            &self.firsts,
            &mut self.behinds,
            self.body,
            end,
        );
        Ok(())
    }

    /// How many acts a row has.
    pub(crate) fn count(&self, at: u32) -> u32
        ensures { at + 1 < 2 ^ 32 → result ≡ tell.count_in self.now at }
    {
        count_at(&self.firsts, self.body, at)
    }

    /// The act of a row with this number.
    pub(crate) fn act(&self, at: u32, number: u32) -> Option<Act>
        ensures { at + 1 < 2 ^ 32 → option_map act_seen result ≡ tell.act_in self.now at number }
    {
        let first = item(&self.firsts, self.body, at)?;
        let next = item(&self.firsts, self.body, at.saturating_add(1))?;
        if number >= next.saturating_sub(first) {
            return None;
        }
        self.acts.get(first as usize + number as usize)
    }

    /// The number of the act behind a row, in the row right above it.
    pub(crate) fn behind(&self, at: u32) -> u32
        ensures { result ≡ unwrap_or (tell.item self.now.behinds.items self.now.body at) 0 }
    {
        item(&self.behinds, self.body, at).unwrap_or(0)
    }

    /// The last row right below a row.
    pub(crate) fn last(&self, at: u32) -> u32
        ensures { result ≡ unwrap_or (tell.item self.now.lasts.items self.now.body at) at }
    {
        item(&self.lasts, self.body, at).unwrap_or(at)
    }

    /// The row of the declaration.
    pub(crate) fn body(&self) -> u32
        ensures { result ≡ self.now.body }
    {
        self.body
    }
}

/// The acts of a body.
pub(crate) fn code_of(alloc: Global, view: &View, body: u32) -> Result<Box<Code>, OutOfMemory>
    ensures { (m : Meaning) → IsViewOf view.now m → IsTree (rows_in view.now) → body < length (rows_in view.now) → IfOk result (λ code. (code.value.body ≡ body) × tell.IsCoded (rows_in view.now) m code.value) }
{
    let mut code = Box::new(alloc, Code::new(alloc, body))?;
    code.fill(view)?;
    Ok(code)
}
