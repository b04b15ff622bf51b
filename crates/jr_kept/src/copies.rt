// Events that do not stand just once in the changed program.
ghost use Rattle.std.specs.Prelude.{◌≡◌, ◌+◌, ℕ, true, Some, List, IfOk, OnOk, Decides, length, slice_get};
ghost use Rattle.jr_flow_defs.specs.Edges.{node_of_point};
ghost use Rattle.jr_flow_defs.specs.Kept.{HasOneCopy};
ghost use Rattle.jr_kept.specs.Named.{IsNameOf, AreNames, origin_in, old_naming};
ghost use Rattle.jr_kept.specs.Ordered.{Tells};
ghost use Rattle.jr_kept.specs.Copied as tell;

use crate::edges::{Edge, Firsts};
use crate::flows::{Flows, count_rows, is_parameter, rows_of};
use crate::names::{NO_NAME, Names};
use jr_base::OutOfMemory;
use jr_flow::{Point, PointKind};
use std::alloc::Global;

// One more at a place, if there is one.
fn add_one(copies: &mut Vec<u32>, place: usize)
    ensures { tell.AddsOne copies.old.items copies.new.items place }
{
    if place < copies.len() {
        let number = copies[place];
        copies[place] = number.saturating_add(1);
    }
}

// A row of the changed program is a copy of this one.
fn count_one(copies: &mut Vec<u32>, body: u32, from: u32)
    ensures { (origin : List ℕ) (i : ℕ) → slice_get origin i ≡ Some from → tell.AreCounted origin body i copies.old.items → tell.AreCounted origin body (i + 1) copies.new.items }
{
    match from.checked_sub(body) {
        Some(place) => add_one(copies, place as usize),
        None => {}
    }
}

fn count_all(copies: &mut Vec<u32>, body: u32, origin: &[u32])
    ensures { tell.AreCounted origin.now body 0 copies.old.items → tell.AreCounted origin.now body (length origin.now) copies.new.items }
{
    for from in origin {
        count_one(copies, body, *from);
    }
}

// How many copies each row of the old body has.
fn copies_of(alloc: Global, names: &Names, origin: &[u32]) -> Result<Vec<u32>, OutOfMemory>
    ensures { IfOk result (λ copies. tell.AreCounted origin.now names.now.body (length origin.now) copies.items) }
{
    let count = count_rows(rows_of(names.rows, names.body));
    let mut copies = vec![in alloc; 0u32; count]?;
    count_all(&mut copies, names.body, origin);
    Ok(copies)
}

fn is_node(kind: PointKind) -> bool
    ensures { result ≡ tell.is_node kind }
{
    match kind {
        PointKind::Node => true,
        _ => false,
    }
}

// The point is a node that has a name and is not the parameter of a catch, of which a method may get a copy.
fn is_event(names: &Names, name: u32, point: Point) -> bool
    ensures { result ≡ tell.is_event names.now.rows.now name point }
{
    is_node(point.kind) && name != NO_NAME && !is_parameter(names.rows, point.row)
}

fn count_at(copies: &[u32], place: u32) -> Option<u32>
    ensures { result ≡ slice_get copies.now place }
{
    copies.get(place as usize).copied()
}

// The row of the body has one copy. Of a row out of it there is nothing to tell.
fn has_one_copy(copies: &[u32], body: u32, row: u32) -> Result<bool, OutOfMemory>
    ensures { (origin : List ℕ) → tell.AreCounted origin body (length origin) copies.now → IfOk result (λ has_one. Decides has_one (HasOneCopy (origin_in origin) row)) }
{
    let Some(place) = row.checked_sub(body) else {
        return Err(OutOfMemory);
    };
    match count_at(copies, place) {
        Some(number) => Ok(number == 1),
        None => Err(OutOfMemory),
    }
}

// Puts an edge from a node to itself, unless it has one copy.
fn put_unless(names: &Names, name: u32, has_one: bool, lost: &mut Firsts)
    ensures { Tells lost.old lost.new (has_one ≡ true) }
{
    if !has_one {
        let row = names.row(name);
        lost.put_old(Edge {
            first: row,
            second: row,
        });
    }
}

// Puts an edge from the node of a point to itself, where it is an event of which there is not exactly one copy.
fn put_event(
    names: &Names,
    copies: &[u32],
    name: u32,
    point: Point,
    lost: &mut Firsts,
) -> Result<(), OutOfMemory>
    ensures { (origin : List ℕ) (at count : ℕ) → tell.AreCounted origin names.now.body (length origin) copies.now → IsNameOf names.now.body count name (node_of_point at (old_naming names.now) point)
        → OnOk result (Tells lost.old lost.new (tell.IsEvent names.now.rows.now names.now.dropped point → HasOneCopy (origin_in origin) point.row)) }
{
    if !is_event(names, name, point) {
        return Ok(());
    }
    let has_one = has_one_copy(copies, names.body, point.row)?;
    put_unless(names, name, has_one, lost);
    Ok(())
}

fn point_at(points: &[Point], number: usize) -> Option<Point>
    ensures { result ≡ slice_get points.now number }
{
    points.get(number).copied()
}

fn name_at(names: &[u32], number: usize) -> Option<u32>
    ensures { result ≡ slice_get names.now number }
{
    names.get(number).copied()
}

fn put_events(
    names: &Names,
    copies: &[u32],
    points: &[Point],
    of_points: &[u32],
    lost: &mut Firsts,
) -> Result<(), OutOfMemory>
    ensures { (origin : List ℕ) (at count : ℕ) → tell.AreCounted origin names.now.body (length origin) copies.now → AreNames names.now.body count (old_naming names.now) at points.now of_points.now
        → OnOk result (Tells lost.old lost.new (tell.HasEventsOnce names.now.rows.now names.now.dropped (origin_in origin) points.now)) }
{
    for number in 0..points.len() {
        let Some(point) = point_at(points, number) else {
            return Err(OutOfMemory);
        };
        let Some(name) = name_at(of_points, number) else {
            return Err(OutOfMemory);
        };
        put_event(names, copies, name, point, lost)?;
    }
    Ok(())
}

/// Puts an edge from each event to itself of which there is not exactly one copy, where the points of the old graph have these names.
pub(crate) fn put_events_without_one_copy(
    alloc: Global,
    flows: &Flows,
    of_points: &[u32],
    lost: &mut Firsts,
) -> Result<(), OutOfMemory>
    ensures { (count : ℕ) → AreNames flows.now.names.body count (old_naming flows.now.names) flows.now.before.now.body flows.now.before.now.points.items of_points.now
        → OnOk result (Tells lost.old lost.new (tell.HasEventsOnce flows.now.names.rows.now flows.now.names.dropped (origin_in flows.now.origin.now) flows.now.before.now.points.items)) }
{
    let names = &flows.names;
    let before = flows.before;
    let copies = copies_of(alloc, names, flows.origin)?;
    put_events(names, &copies, &before.points, of_points, lost)
}
