// Definitions that keep a local from being replaced by its initializer.
ghost use Rattle.std.specs.Prelude.{◌≡◌, ◌+◌, ◌<◌, ◌≤◌, ◌^◌, ◌||◌, ℕ, Some, true, false, if◌then◌else◌, IfOk, IfSome, OnOk, length, slice_get};
ghost use Rattle.std.specs.List.{Contains};
ghost use Rattle.jr_places.specs.Stamps.{is_stamped, IsEmptied, IsStamping};
ghost use Rattle.jr_flow.specs.Reached.{steps_of};
ghost use Rattle.jr_kept.specs.Ordered.{AreNone, Checks, Tells};
ghost use Rattle.jr_kept.specs.Searched.{AreWithin};
ghost use Rattle.jr_kept.specs.Disturbed as tell;

use crate::arriving::fill;
use crate::defining::defining_row;
use crate::edges::{Edge, Firsts};
use crate::flows::{is_within, rows_of};
use crate::gathering::point_at;
use crate::joined::push_if;
use crate::reached::count_of;
use crate::spreading::{spread, ways_back, ways_of};
use jr_base::OutOfMemory;
use jr_change::RowRange;
use jr_flow::{Graph, Point, PointKind, Step};
use jr_places::Stamps;
use jr_tree::Row;
use std::alloc::Global;

/// The row stands inside a row, whose rows these are.
pub(crate) fn is_inside(range: RowRange, row: u32) -> bool
    ensures { result ≡ tell.is_inside range.first range.end row }
{
    row != range.first && is_within(range, row)
}

// ---- the points of the local

// The local gets a value at the point, or else: it is used there.
fn is_such(point: Point, local: u32, is_definition: bool) -> bool
    ensures { result ≡ tell.is_such is_definition local point }
{
    match point.kind {
        PointKind::Definition { local: other } => is_definition && other == local,
        PointKind::Use { local: other } => !is_definition && other == local,
        _ => false,
    }
}

// The numbers of the points at which the local gets a value, or is used.
fn numbers_of(
    alloc: Global,
    points: &[Point],
    local: u32,
    is_definition: bool,
) -> Result<Vec<u32>, OutOfMemory>
    ensures { IfOk result (λ all. tell.AreSuch points.now is_definition local (length points.now) all.items) }
{
    let count = count_of(points.len())?;
    let mut all = Vec::new(alloc);
    for number in 0..count {
        let Some(point) = point_at(points, number as usize) else {
            return Err(OutOfMemory);
        };
        push_if(&mut all, is_such(point, local, is_definition), number)?;
    }
    Ok(all)
}

/// The points between the definition of the local and its uses, without the definition itself.
#[derive(Drop)]
struct Between {
    behind: Stamps,
    before: Stamps,
}

// The points as a set.
fn set_of(alloc: Global, points: &[u32], count: usize) -> Result<Stamps, OutOfMemory>
    ensures only { IfOk result (λ set. (n : ℕ) → is_stamped set n ≡ true → Contains points.now n) }
    ensures every { IfOk result (λ set. (n : ℕ) → Contains points.now n → n < count → is_stamped set n ≡ true) }
{
    let mut set = Stamps::new(alloc, count)?;
    fill(&mut set, points);
    Ok(set)
}

// The points on ways from the definition of the local to a use of it that do not come back to the definition.
fn points_between(alloc: Global, graph: &Graph, local: u32) -> Result<Between, OutOfMemory>
    ensures every { AreWithin (length graph.now.points.items) (steps_of graph.now) → IfOk result (λ made. tell.AreBetween graph.now.points.items (steps_of graph.now) local made.behind made.before) }
    ensures only { AreWithin (length graph.now.points.items) (steps_of graph.now) → IfOk result (λ made. tell.OnlyBetween graph.now.points.items (steps_of graph.now) local made.behind made.before) }
{
    let count = graph.points.len();
    let definitions = numbers_of(alloc, graph.points.as_slice(), local, true)?;
    let uses = numbers_of(alloc, graph.points.as_slice(), local, false)?;
    let barred = set_of(alloc, definitions.as_slice(), count)?;
    let ways = ways_of(alloc, graph)?;
    let back = ways_back(alloc, graph)?;
    let behind = spread(alloc, &ways, definitions.as_slice(), &barred, count)?;
    let before = spread(alloc, &back, uses.as_slice(), &barred, count)?;
    Ok(Between { behind, before })
}

// ---- the locals that are to keep their values

/// The step of the number.
pub(crate) fn step_at(steps: &[Step], number: usize) -> Option<Step>
    ensures { result ≡ slice_get steps.now number }
{
    steps.get(number).copied()
}

fn is_point_inside(range: RowRange, point: Option<Point>) -> bool
    ensures { result ≡ tell.is_point_inside range.first range.end point }
{
    match point {
        Some(point) => is_inside(range, point.row),
        None => false,
    }
}

// The step is a throw from a point of the initializer.
fn throws(range: RowRange, points: &[Point], step: Option<Step>) -> bool
    ensures { result ≡ tell.throws range.first range.end points.now step }
{
    match step {
        Some(step) => step.is_throw && is_point_inside(range, point_at(points, step.from as usize)),
        None => false,
    }
}

/// One of both holds, or both do.
pub(crate) fn is_either(one: bool, other: bool) -> bool
    ensures { result ≡ (one || other) }
{
    one || other
}

// An event in the initializer may throw.
fn may_throw(range: RowRange, points: &[Point], steps: &[Step]) -> bool
    ensures none { tell.MayThrow range.first range.end points.now steps.now (length steps.now) result }
    ensures some { result ≡ true → tell.HasThrow range.first range.end points.now steps.now }
{
    let mut found = false;
    for number in 0..steps.len() {
        found = is_either(found, throws(range, points, step_at(steps, number)));
    }
    found
}

fn local_of(point: Option<Point>) -> Option<u32>
    ensures { result ≡ tell.local_at point }
{
    match point {
        Some(point) => match point.kind {
            PointKind::Definition { local } => Some(local),
            PointKind::Use { local } => Some(local),
            _ => None,
        },
        None => None,
    }
}

// The bound, or what is just above the local.
fn above(bound: usize, local: Option<u32>) -> usize
    ensures kept { bound ≤ result }
    ensures here { IfSome local (λ n. n < result) }
{
    match local {
        Some(local) => bound.max((local as usize).saturating_add(1)),
        None => bound,
    }
}

/// Above the locals of all points.
pub(crate) fn local_bound(points: &[Point]) -> usize
    ensures { tell.AreLocalsBelow points.now (length points.now) result }
{
    let mut bound = 0;
    for number in 0..points.len() {
        bound = above(bound, local_of(point_at(points, number)));
    }
    bound
}

/// The number, where it is such.
pub(crate) fn some_if(local: u32, is_such: bool) -> Option<u32>
    ensures { result ≡ tell.some_if local is_such }
{
    if is_such { Some(local) } else { None }
}

// The local of the point is to keep its value: it is used in the initializer, or the initializer may throw to a catch that uses it.
fn held(range: RowRange, may_throw: bool, point: Option<Point>) -> Option<u32>
    ensures { result ≡ tell.held_at range.first range.end may_throw point }
{
    match point {
        Some(point) => match point.kind {
            PointKind::Use { local } => some_if(local, is_inside(range, point.row)),
            PointKind::Definition { local } => some_if(local, may_throw),
            _ => None,
        },
        None => None,
    }
}

fn add_if(set: &mut Stamps, local: Option<u32>)
    ensures { (bound : ℕ) → IsStamping set.old bound → tell.AddsIf set.old set.new bound local }
{
    match local {
        Some(local) => {
            let _ = set.add(local);
        }
        None => {}
    }
}

fn put_held(set: &mut Stamps, range: RowRange, may_throw: bool, points: &[Point])
    ensures { (bound : ℕ) → IsEmptied set.old bound → tell.AreLocalsBelow points.now (length points.now) bound
        → tell.AreHeld range.first range.end may_throw points.now (length points.now) set.new × tell.OnlyHeld range.first range.end may_throw points.now set.new }
{
    for number in 0..points.len() {
        add_if(set, held(range, may_throw, point_at(points, number)));
    }
}

// The locals that are to keep their values up to the uses.
fn all_held(
    alloc: Global,
    range: RowRange,
    may_throw: bool,
    points: &[Point],
) -> Result<Stamps, OutOfMemory>
    ensures every { IfOk result (λ set. tell.AreHeld range.first range.end may_throw points.now (length points.now) set) }
    ensures only { IfOk result (λ set. tell.OnlyHeld range.first range.end may_throw points.now set) }
{
    let mut set = Stamps::new(alloc, local_bound(points))?;
    put_held(&mut set, range, may_throw, points);
    Ok(set)
}

// ---- what disturbs

// The point is a definition in the initializer, or one between of a local that is held.
fn disturbs(range: RowRange, number: u32, point: Point, held: &Stamps, between: &Between) -> bool
    ensures { result ≡ tell.disturbs range.first range.end held.now between.now.behind between.now.before number point }
{
    match point.kind {
        PointKind::Definition { local } => {
            is_inside(range, point.row) || is_changed(number, local, held, between)
        }
        _ => false,
    }
}

fn is_changed(number: u32, local: u32, held: &Stamps, between: &Between) -> bool
    ensures { result ≡ tell.is_changed held.now between.now.behind between.now.before number local }
{
    held.has(local) && between.behind.has(number) && between.before.has(number)
}

// Puts an edge from a definition to itself, if it is such.
fn put_if(rows: &[Row], definition: u32, is_such: bool, lost: &mut Firsts)
    ensures { Tells lost.old lost.new (is_such ≡ false) }
{
    if is_such {
        let row = defining_row(rows, definition);
        lost.put_new(Edge {
            first: row,
            second: row,
        });
    }
}

fn put_all(
    rows: &[Row],
    range: RowRange,
    points: &[Point],
    held: &Stamps,
    between: &Between,
    lost: &mut Firsts,
) -> Result<(), OutOfMemory>
    ensures { OnOk result (Tells lost.old lost.new (tell.NoneDisturbs range.first range.end held.now between.now.behind between.now.before points.now (length points.now))) }
{
    let count = count_of(points.len())?;
    for number in 0..count {
        let Some(point) = point_at(points, number as usize) else {
            return Err(OutOfMemory);
        };
        put_if(
            rows,
            point.row,
            disturbs(range, number, point, held, between),
            lost,
        );
    }
    Ok(())
}

/// Puts an edge from each definition to itself that stands in the initializer of the local, or that gives a local which is used there another value on a
/// way from its definition to one of its uses; where the initializer may throw, also one that gives any other local a value there (JLS 11.3).
pub(crate) fn put_disturbing(
    alloc: Global,
    rows: &[Row],
    graph: &Graph,
    local: u32,
    lost: &mut Firsts,
) -> Result<(), OutOfMemory>
    ensures checks { AreWithin (length graph.now.points.items) (steps_of graph.now) → OnOk result (Checks lost.old lost.new (local + 1 < 2 ^ 32 → tell.IsUndisturbed rows.now graph.now.points.items (steps_of graph.now) local)) }
    ensures kept { AreWithin (length graph.now.points.items) (steps_of graph.now) → OnOk result (AreNone lost.old → local + 1 < 2 ^ 32 → tell.IsUndisturbed rows.now graph.now.points.items (steps_of graph.now) local → AreNone lost.new) }
{
    let range = rows_of(rows, local);
    let throwing = may_throw(range, graph.points.as_slice(), graph.steps.as_slice());
    let held = all_held(alloc, range, throwing, graph.points.as_slice())?;
    let between = points_between(alloc, graph, local)?;
    put_all(rows, range, graph.points.as_slice(), &held, &between, lost)
}
