// An order of types in which supertypes come first.
ghost use Rattle.std.specs.Prelude.{◌≡◌, ◌++◌, [], length, replicate, false, slice_set, true, IfOk, OnOk};
ghost use Rattle.jr_plain.specs.Search.{numbers};
ghost use Rattle.jr_supers.specs.Order as tell;

use jr_base::OutOfMemory;
use jr_places::{Chains, is_type};
use jr_tree::Row;
use std::alloc::Global;

/// A type that is to be entered, or that is to be left, once its supertypes are in the order.
#[derive(Clone, Copy, Debug, PartialEq, Eq)]
pub struct Open {
    pub at: u32,
    pub leaves: bool,
}

// The number was met, or there is none so large.
fn is_met(met: &[bool], at: u32) -> bool
    ensures { result ≡ tell.is_met met.now at }
{
    match met.get(at as usize) {
        Some(is_met) => *is_met,
        None => true,
    }
}

fn meet(met: &mut Vec<bool>, at: u32)
    ensures { met.new.items ≡ slice_set met.old.items at true }
{
    if (at as usize) < met.len() {
        met[at as usize] = true;
    }
}

// Adds the types of a list.
fn push_types(waiting: &mut Vec<Open>, rows: &[Row], all: &[u32]) -> Result<(), OutOfMemory>
    ensures { OnOk result (waiting.new.items ≡ waiting.old.items ++ tell.entering rows.now all.now) }
{
    for at in all {
        if is_type(rows, *at) {
            waiting.push(Open {
                at: *at,
                leaves: false,
            })?;
        }
    }
    Ok(())
}

// Enters a type that is met for the first time, or puts one that is left in the order.
fn step(
    alloc: Global,
    rows: &[Row],
    supers: &Chains,
    met: &mut Vec<bool>,
    waiting: &mut Vec<Open>,
    order: &mut Vec<u32>,
    top: Open,
) -> Result<(), OutOfMemory>
    ensures { OnOk result (tell.searching met.new.items waiting.new.items order.new.items ≡ tell.step rows.now supers.now top (tell.searching met.old.items waiting.old.items order.old.items)) }
{
    if top.leaves {
        order.push(top.at)?;
        return Ok(());
    }
    if is_met(met, top.at) {
        return Ok(());
    }
    meet(met, top.at);
    waiting.push(Open {
        at: top.at,
        leaves: true,
    })?;
    let all = supers.rows(alloc, top.at, 0)?;
    push_types(waiting, rows, &all)
}

// The numbers of the rows.
fn all_rows(alloc: Global, rows: &[Row]) -> Result<Vec<u32>, OutOfMemory>
    ensures { IfOk result (λ all. all.items ≡ numbers (length rows.now)) }
{
    let mut all = Vec::new(alloc);
    let Ok(count) = u32::try_from(rows.len()) else {
        return Err(OutOfMemory);
    };
    for at in 0..count {
        all.push(at)?;
    }
    Ok(all)
}

// No type was met.
fn none_met(alloc: Global, rows: &[Row]) -> Result<Vec<bool>, OutOfMemory>
    ensures { IfOk result (λ met. met.items ≡ replicate (length rows.now) false) }
{
    Ok(vec![in alloc; false; rows.len()]?)
}

// Each turn takes a waiting type off, and a type is entered once.
fn ordered(
    alloc: Global,
    rows: &[Row],
    supers: &Chains,
    met: &mut Vec<bool>,
    waiting: &mut Vec<Open>,
) -> Result<Vec<u32>, OutOfMemory>
    ensures { tell.HasNoLoop supers.now → tell.IsSearching rows.now supers.now (tell.searching met.old.items waiting.old.items []) → IfOk result (λ order. tell.IsOrderOf rows.now supers.now order.items) }
{
    let mut order = Vec::new(alloc);
    while let Some(top) = waiting.pop() {
        step(alloc, rows, supers, met, waiting, &mut order, top)?;
    }
    Ok(order)
}

/// The types, each behind its supertypes unless these are on a cycle.
pub fn order_of(alloc: Global, rows: &[Row], supers: &Chains) -> Result<Vec<u32>, OutOfMemory>
    ensures { tell.HasNoLoop supers.now → IfOk result (λ order. tell.IsOrderOf rows.now supers.now order.items) }
{
    let mut met = none_met(alloc, rows)?;
    let mut waiting = Vec::new(alloc);
    push_types(&mut waiting, rows, &all_rows(alloc, rows)?)?;
    ordered(alloc, rows, supers, &mut met, &mut waiting)
}
