// Whether a type is above itself (JLS 8.1.4, 9.1.3).
ghost use Rattle.std.specs.Prelude.{◌≡◌, [], true, length, IfOk, Decides};
ghost use Rattle.jr_plain.specs.Search.{all_below};
ghost use Rattle.jr_defs.specs.Referents.{Table};
ghost use Rattle.jr_places.specs.Stamps.{is_stamped, IsEmptied};
ghost use Rattle.jr_supers.specs.Direct.{HasSupers};
ghost use Rattle.jr_supers.specs.Supers.{IsWellHeaded, HasNoCycle, AreSupersOf};
ghost use Rattle.jr_members.specs.Held.{ObjectIsBare};
ghost use Rattle.jr_headed.specs.Cycles as tell;

use jr_base::OutOfMemory;
use jr_places::{Chains, Stamps, is_interface, is_object, is_type};
use jr_supers::Supers;
use jr_tree::Row;
use std::alloc::Global;

// Those of a list that are types were passed.
fn are_passed(rows: &[Row], passed: &Stamps, all: &[u32]) -> bool
    ensures { result ≡ tell.are_passed rows.now (is_stamped passed.now) all.now }
{
    let mut are = true;
    for at in all {
        are = are && (!is_type(rows, *at) || passed.has(*at));
    }
    are
}

// Object has no supertypes and is no interface.
fn is_top(rows: &[Row], all: &[u32], at: u32) -> bool
    ensures { result ≡ tell.is_top rows.now all.now at }
{
    !is_object(rows, at) || (all.is_empty() && !is_interface(rows, at))
}

// The row is a type whose supertypes were passed.
fn is_behind(
    alloc: Global,
    rows: &[Row],
    supers: &Chains,
    passed: &Stamps,
    at: u32,
) -> Result<bool, OutOfMemory>
    ensures { IfOk result (λ is. is ≡ tell.is_behind rows.now supers.now (is_stamped passed.now) at) }
{
    let all = supers.rows(alloc, at, 0)?;
    Ok(is_type(rows, at) && is_top(rows, &all, at) && are_passed(rows, passed, &all))
}

// Each row of the order stands behind its supertypes; those of the order are passed then.
fn are_behind(
    alloc: Global,
    rows: &[Row],
    supers: &Chains,
    order: &[u32],
    passed: &mut Stamps,
) -> Result<bool, OutOfMemory>
    ensures { IsEmptied passed.old (length rows.now) → IfOk result (λ is. tell.Passes rows.now supers.now order.now is passed.new) }
{
    for at in order {
        if !is_behind(alloc, rows, supers, passed, *at)? {
            return Ok(false);
        }
        let _ = passed.add(*at);
    }
    Ok(true)
}

// The types before the end were passed.
fn have_passed(rows: &[Row], passed: &Stamps, end: u32) -> bool
    ensures { result ≡ all_below end (tell.is_passed rows.now (is_stamped passed.now)) }
{
    let mut have = true;
    for at in 0..end {
        have = have && (!is_type(rows, at) || passed.has(at));
    }
    have
}

// The order has each type, and behind its supertypes; Object is at the top.
fn is_ordered(
    alloc: Global,
    rows: &[Row],
    supers: &Chains,
    order: &[u32],
) -> Result<bool, OutOfMemory>
    ensures { IfOk result (λ is. Decides is (tell.IsOrdered rows.now supers.now order.now)) }
{
    let Ok(end) = u32::try_from(rows.len()) else {
        return Err(OutOfMemory);
    };
    let mut passed = Stamps::new(alloc, rows.len())?;
    if !are_behind(alloc, rows, supers, order, &mut passed)? {
        return Ok(false);
    }
    Ok(have_passed(rows, &passed, end))
}

/// No type is above itself: each stands in the order of the supertypes behind those of its own. Of 2^32 rows or more it is not told.
pub fn has_no_cycle(alloc: Global, rows: &[Row], supers: &Supers) -> Result<bool, OutOfMemory>
    ensures none { (t : Table) → IsWellHeaded rows.now → HasSupers rows.now t supers.now.direct.supers → IfOk result (λ is. is ≡ true → HasNoCycle rows.now t) }
    ensures told { (t : Table) → AreSupersOf rows.now t supers.now → ObjectIsBare rows.now → HasNoCycle rows.now t → IfOk result (λ is. is ≡ true) }
{
    is_ordered(alloc, rows, supers.direct(), supers.order())
}
