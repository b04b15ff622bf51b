// What is known of rows besides their labels.
ghost use Rattle.std.specs.Prelude.{◌≡◌, ◌+◌, ◌<◌, ◌^◌, IfOk, None, length, slice_index_or};
ghost use Rattle.jr_tree.specs.Rows.{label};
ghost use Rattle.jr_defs.specs.Referents.{entries};
ghost use Rattle.jr_places.specs.Tabulated.{tabulated};
ghost use Rattle.jr_flow_faults.specs.Computed.{facts_in};
ghost use Rattle.jr_reach.specs.Statements.{fact};
ghost use Rattle.jr_assign.specs.Changes.{member_in};
ghost use Rattle.jr_assign_faults.specs.Changed.{rows_in, table_in};
ghost use Rattle.jr_assign_faults.specs.Known as tell;

use crate::operands::{Operand, operand_of, operands_of};
use crate::variables::{assigned_at, member_of, read_at};
use jr_assign::{Fact, Way, members_of};
use jr_base::OutOfMemory;
use jr_places::{end_at, parent_at};
use jr_reach::{Exit, no_fact};
use jr_supers::Tabled;
use jr_tree::{Label, Row};
use jr_view::View;
use std::alloc::Global;

// The row whose last part the row is.
fn ended_by(rows: &[Row], at: u32) -> Option<u32> {
    let over = parent_at(rows, at);
    if over < at && end_at(rows, at) == end_at(rows, over) {
        Some(over)
    } else {
        None
    }
}

fn put_last(lasts: &mut [Option<u32>], over: Option<u32>, at: u32) {
    if let Some(over) = over {
        if let Some(last) = lasts.get_mut(over as usize) {
            *last = Some(at);
        }
    }
}

// The last part of each row.
fn lasts_of(alloc: Global, rows: &[Row], count: u32) -> Result<Vec<Option<u32>>, OutOfMemory> {
    let mut lasts = vec![in alloc; None; rows.len()]?;
    for at in 0..count {
        put_last(&mut lasts, ended_by(rows, at), at);
    }
    Ok(lasts)
}

fn is_constructor(rows: &[Row], at: u32) -> bool
    ensures { result ≡ tell.is_constructor (label rows.now at) }
{
    match rows.get(at as usize) {
        Some(row) => match row.label {
            Label::Constructor { .. } => true,
            _ => false,
        },
        None => false,
    }
}

// The way out of a return, in a constructor.
fn return_at(rows: &[Row], is_in_constructor: bool, at: u32) -> Option<Way>
    ensures { result ≡ tell.return_by (label rows.now at) is_in_constructor }
{
    match rows.get(at as usize) {
        Some(row) => match row.label {
            Label::Return => {
                if is_in_constructor {
                    Some(Way::Return)
                } else {
                    None
                }
            }
            _ => None,
        },
        None => None,
    }
}

// The way out of a row: of a jump to its target, or out of a constructor.
fn way_at(rows: &[Row], exit: Option<Exit>, is_in_constructor: bool, at: u32) -> Option<Way>
    ensures { result ≡ tell.way_by exit (label rows.now at) is_in_constructor }
{
    match exit {
        Some(Exit::Break(to)) => Some(Way::Break(to)),
        Some(Exit::Continue(to)) => Some(Way::Continue(to)),
        None => return_at(rows, is_in_constructor, at),
    }
}

fn flow_at(flow: &[jr_reach::Fact], at: u32) -> jr_reach::Fact
    ensures { result ≡ fact flow.now at }
{
    match flow.get(at as usize) {
        Some(known) => *known,
        None => no_fact(),
    }
}

fn last_at(lasts: &[Option<u32>], at: u32) -> Option<u32>
    ensures { result ≡ slice_index_or lasts.now at None }
{
    match lasts.get(at as usize) {
        Some(last) => *last,
        None => None,
    }
}

// What is known of rows by themselves: for the course of statements, the members that hold them, what they are to assignments, and their last parts.
#[derive(Clone, Copy)]
struct Told<'a> {
    flow: &'a [jr_reach::Fact],
    members: &'a [u32],
    operands: &'a [Operand],
    lasts: &'a [Option<u32>],
}

fn fact_at(under: &Tabled, told: Told, at: u32) -> Fact
    requires { at + 1 < 2 ^ 32 }
    ensures { length under.now.rows.now < 2 ^ 32 → result ≡ tell.fact_by under.now.rows.now (entries under.now.table.now) told.entry.flow.now told.entry.members.now told.entry.operands.now told.entry.lasts.now at }
{
    let flow = flow_at(told.flow, at);
    let is_in_constructor = is_constructor(under.rows, member_of(told.members, at));
    let way = way_at(under.rows, flow.exit, is_in_constructor, at);
    let read = read_at(under, operand_of(told.operands, at), at);
    let assigned = assigned_at(under, told.members, at);
    Fact {
        truth: flow.truth,
        way,
        last: last_at(told.lasts, at),
        has_default: flow.has_default,
        read,
        assigned,
    }
}

#[tactic(auto, using(crate::proofs::Tables::tabulated_more))]
fn facts_by(alloc: Global, under: &Tabled, told: Told, count: u32) -> Result<Vec<Fact>, OutOfMemory>
    ensures { length under.now.rows.now < 2 ^ 32 → IfOk result (λ all. all.items ≡ tabulated (tell.fact_by under.now.rows.now (entries under.now.table.now) told.entry.flow.now told.entry.members.now told.entry.operands.now told.entry.lasts.now) count) }
{
    let mut all = Vec::new(alloc);
    for at in 0..count {
        let fact = fact_at(under, told, at);
        all.push(fact)?;
    }
    Ok(all)
}

/// What is known of each row of a bound program, with what flow knows of it (`facts_of` of `jr_flow_faults`).
pub fn assign_facts_of(
    alloc: Global,
    view: &View,
    flow: &[jr_reach::Fact],
) -> Result<Vec<Fact>, OutOfMemory>
    ensures { flow.now ≡ facts_in view.now → IfOk result (λ all. tell.AreRead (rows_in view.now) (table_in view.now) (facts_in view.now) all.items) }
{
    let under = &view.sight.world.under;
    let Ok(count) = u32::try_from(under.rows.len()) else {
        return Err(OutOfMemory);
    };
    let members = members_of(alloc, under.rows)?;
    let operands = operands_of(alloc, under.rows, count)?;
    let lasts = lasts_of(alloc, under.rows, count)?;
    let told = Told {
        flow,
        members: &members,
        operands: &operands,
        lasts: &lasts,
    };
    facts_by(alloc, under, told, count)
}
