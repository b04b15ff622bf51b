// Bodies with too many points.
ghost use Rattle.std.specs.Prelude.{◌≡◌, ◌+◌, ◌<◌, ◌≤◌, ◌^◌, true, IfOk, IfErr, OnOk, Decides, if◌then◌else◌, ◌&&◌, length};
ghost use Rattle.jr_tree.specs.Rows.{label, end};
ghost use Rattle.jr_tree.specs.Tree.{IsTree};
ghost use Rattle.jr_flow_defs.specs.Meaning.{Meaning};
ghost use Rattle.jr_flow_defs.specs.Acts as defs;
ghost use Rattle.jr_flow.specs.Views.{rows_in, IsViewOf};
ghost use Rattle.jr_flow.specs.Bodies.{has_code};
ghost use Rattle.jr_flow.specs.Numbered.{OnlyWhere};
ghost use Rattle.jr_flow.specs.Coded.{IsTooLarge};
ghost use Rattle.jr_flow.specs.Sizes as tell;
ghost use Rattle.jr_flow.specs.Sizes.{HasTooLarge, IsSmall};

use crate::code::code_of;
use crate::declared::bodies;
use crate::point::FlowFault;
use crate::states::states_of;
use jr_base::{Limits, OutOfMemory};
use jr_places::end_at;
use jr_tree::{Label, Row};
use jr_view::View;
use std::alloc::Global;

// The row behind the first one below a row.
fn second(rows: &[Row], at: u32) -> u32
    ensures { at + 2 < 2 ^ 32 → result ≡ defs.second rows.now at }
{
    end_at(rows, at.saturating_add(1))
}

// The last part that a `for` has in any case: its condition or its body, behind the first part, or else the first row below it.
fn farthest_of_for(rows: &[Row], at: u32, has_first: bool, has_condition: bool) -> u32
    ensures { at + 2 < 2 ^ 32 → result ≡ (if has_first && has_condition then defs.second rows.now at else defs.first rows.now at) }
{
    if has_first && has_condition {
        second(rows, at)
    } else {
        at.saturating_add(1)
    }
}

// The last of the rows to which control goes from a row by their place, or else the row itself.
fn farthest(rows: &[Row], at: u32) -> u32
    ensures { at + 2 < 2 ^ 32 → end rows.now (at + 1) + 1 < 2 ^ 32 → result ≡ tell.farthest_by (label rows.now at) rows.now at }
{
    match rows.get(at as usize) {
        Some(row) => match row.label {
            Label::If => second(rows, at),
            Label::While => second(rows, at),
            Label::Do => second(rows, at),
            Label::For {
                has_first,
                has_condition,
            } => farthest_of_for(rows, at, has_first, has_condition),
            Label::Switch => at.saturating_add(1),
            Label::Try { .. } => at.saturating_add(1),
            Label::Conditional => end_at(rows, second(rows, at)),
            Label::Binary { .. } => second(rows, at),
            _ => at,
        },
        None => at,
    }
}

fn is_try_with_finally(rows: &[Row], at: u32) -> bool
    ensures { result ≡ tell.is_try_with_finally (label rows.now at) }
{
    match rows.get(at as usize) {
        Some(row) => match row.label {
            Label::Try { has_finally } => has_finally,
            _ => false,
        },
        None => false,
    }
}

// Control that comes to the row goes on below it, and nothing is pending there.
fn is_structured(rows: &[Row], at: u32) -> bool
    ensures { at + 2 < 2 ^ 32 → end rows.now (at + 1) + 1 < 2 ^ 32 → result ≡ tell.is_structured rows.now at }
{
    !is_try_with_finally(rows, at) && farthest(rows, at) < end_at(rows, at)
}

// How many points a row has at most: that of each item of an array belongs to the list.
fn most_points(rows: &[Row], at: u32) -> u32
    ensures { at + 1 < 2 ^ 32 → end rows.now at + 1 < 2 ^ 32 → result ≡ tell.most_by (label rows.now at) rows.now at }
{
    match rows.get(at as usize) {
        Some(row) => match row.label {
            Label::List => row.end.saturating_sub(at).saturating_add(1),
            _ => 2,
        },
        None => 2,
    }
}

fn is_within_limit(count: u32) -> bool
    ensures { result ≡ true → count ≤ 65536 }
{
    count <= Limits::FLOW
}

// The rows of the body are structured, and so few that their points with the entry and the exits need not be counted.
fn is_small(rows: &[Row], body: u32) -> bool
    ensures { IsTree rows.now → length rows.now + 3 < 2 ^ 32 → body < length rows.now → result ≡ true → IsSmall rows.now body }
{
    let mut most: u32 = 3;
    for at in body..end_at(rows, body) {
        if !is_structured(rows, at) {
            return false;
        }
        most = most_points(rows, at).saturating_add(most);
    }
    is_within_limit(most)
}

// Finds the points of a body.
fn count_points(alloc: Global, view: &View, body: u32) -> Result<(), FlowFault>
    ensures large { (m : Meaning) → IsViewOf view.now m → IsTree (rows_in view.now) → body < length (rows_in view.now) → IfErr result (OnlyWhere (IsTooLarge (rows_in view.now) m body)) }
    ensures small { (m : Meaning) → IsViewOf view.now m → IsTree (rows_in view.now) → body < length (rows_in view.now) → OnOk result (IsTooLarge (rows_in view.now) m body → ⊥) }
{
    let code = code_of(alloc, view, body)?;
    let states = states_of(alloc, &code, view.sight.world.under.rows)?;
    drop(states);
    Ok(())
}

// The body has more than 65,536 points.
fn is_too_large(alloc: Global, view: &View, body: u32) -> Result<bool, OutOfMemory>
    ensures { (m : Meaning) → IsViewOf view.now m → IsTree (rows_in view.now) → body < length (rows_in view.now) → has_code (rows_in view.now) body ≡ true → IfOk result (λ large. Decides large (IsTooLarge (rows_in view.now) m body)) }
{
    if is_small(view.sight.world.under.rows, body) {
        return Ok(false);
    }
    match count_points(alloc, view, body) {
        Ok(()) => Ok(false),
        Err(FlowFault::TooManyPoints) => Ok(true),
        Err(FlowFault::OutOfMemory) => Err(OutOfMemory),
    }
}

/// Some body has more than 65,536 points, so that it has no graph.
pub fn has_too_many_points(alloc: Global, view: &View) -> Result<bool, OutOfMemory>
    ensures { (m : Meaning) → IsViewOf view.now m → IsTree (rows_in view.now) → IfOk result (λ some. Decides some (HasTooLarge (rows_in view.now) m)) }
{
    let all = bodies(alloc, view.sight.world.under.rows)?;
    for body in &all {
        if is_too_large(alloc, view, *body)? {
            return Ok(true);
        }
    }
    Ok(false)
}
