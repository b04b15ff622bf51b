// Values of locals that an added method does not hand back.
ghost use Rattle.std.specs.Prelude.{◌≡◌, ◌⊎◌, ◌<◌, ◌≤◌, ◌++◌, ◌∷◌, [], ℕ, Bool, Some, None, true, false, IfOk, OnOk, length, not, nat_lt, slice_get};
ghost use Rattle.std.specs.List.{Contains};
ghost use Rattle.jr_flow_defs.specs.declared.point.PointKind.TheVariants as kind;
ghost use Rattle.jr_flow_defs.specs.Edges.{point};
ghost use Rattle.jr_flow.specs.Reached.{steps_of};
ghost use Rattle.jr_kept.specs.Disturbed.{some_if};
ghost use Rattle.jr_kept.specs.Gathered.{AddsRow, AreOriginals};
ghost use Rattle.jr_kept.specs.Listed.{under_in};
ghost use Rattle.jr_kept.specs.Named.{origin_in};
ghost use Rattle.jr_kept.specs.Ordered.{AreNone, Checks, Tells};
ghost use Rattle.jr_kept.specs.Searched.{AreWithin};
ghost use Rattle.jr_kept.specs.Spliced.{exit_number};
ghost use Rattle.jr_kept.specs.Carried as tell;

use crate::defining::defining_row;
use crate::dropped::{local_bound, some_if};
use crate::edges::{Edge, Firsts};
use crate::flows::Flows;
use crate::gathering::{Originals, point_at, push_pair};
use crate::handing::Handing;
use crate::lists::Lists;
use crate::reached::count_of;
use jr_base::OutOfMemory;
use jr_flow::{Graph, Point, PointKind, Step, reaching};
use jr_locks::row_for;
use std::alloc::Global;

/// A value that a local of a method has where the method is left.
#[derive(Clone, Copy)]
struct Value {
    /// The row of the definition by which the local gets it.
    row: u32,
    local: u32,
}

// ---- locals

// The local that gets a value at the point, or else: that is used there.
fn local_if(point: Option<Point>, is_definition: bool) -> Option<u32>
    ensures { result ≡ tell.local_if is_definition point }
{
    match point {
        Some(point) => match point.kind {
            PointKind::Definition { local } => some_if(local, is_definition),
            PointKind::Use { local } => some_if(local, !is_definition),
            _ => None,
        },
        None => None,
    }
}

fn add_if(all: &mut Originals, local: Option<u32>) -> Result<(), OutOfMemory>
    ensures { (bound : ℕ) → AreOriginals all.old bound → OnOk result (AreOriginals all.new bound × AddsRow all.old.all.items all.new.all.items local) }
{
    match local {
        Some(local) => all.add(local),
        None => Ok(()),
    }
}

fn add_locals(all: &mut Originals, points: &[Point], is_definition: bool) -> Result<(), OutOfMemory>
    ensures { (bound : ℕ) → AreOriginals all.old bound → OnOk result (tell.HasLocals points.now is_definition (length points.now) all.new.all.items) }
{
    for number in 0..points.len() {
        add_if(all, local_if(point_at(points, number), is_definition))?;
    }
    Ok(())
}

// The locals that get a value at the points, or else: that are used there. Each stands once.
fn locals_at(alloc: Global, points: &[Point], is_definition: bool) -> Result<Originals, OutOfMemory>
    ensures { IfOk result (λ all. tell.HasLocals points.now is_definition (length points.now) all.all.items) }
{
    let mut all = Originals::new(alloc, local_bound(points))?;
    add_locals(&mut all, points, is_definition)?;
    Ok(all)
}

// ---- graphs with more points

fn copy_of(alloc: Global, graph: &Graph) -> Result<Graph, OutOfMemory>
    ensures points { IfOk result (λ made. made.points.items ≡ graph.now.points.items) }
    ensures steps { IfOk result (λ made. made.steps.items ≡ graph.now.steps.items) }
{
    let mut points = Vec::new(alloc);
    points.extend_from_slice(graph.points.as_slice())?;
    let mut steps = Vec::new(alloc);
    steps.extend_from_slice(graph.steps.as_slice())?;
    Ok(Graph {
        body: graph.body,
        points,
        steps,
    })
}

// Puts a point behind the others, and tells its number.
fn put_point(made: &mut Graph, point: Point) -> Result<u32, OutOfMemory>
    ensures number { IfOk result (λ number. number ≡ length made.old.points.items) }
    ensures points { OnOk result (made.new.points.items ≡ made.old.points.items ++ point ∷ []) }
    ensures steps { OnOk result (made.new.steps.items ≡ made.old.steps.items) }
{
    let number = count_of(made.points.len())?;
    made.points.push(point)?;
    Ok(number)
}

// Puts a step that is no throw.
fn put_step(made: &mut Graph, from: u32, to: u32) -> Result<(), OutOfMemory>
    ensures points { OnOk result (made.new.points.items ≡ made.old.points.items) }
    ensures steps { OnOk result (made.new.steps.items ≡ made.old.steps.items ++ tell.plain_step from to ∷ []) }
{
    made.steps.push(Step {
        from,
        to,
        is_throw: false,
    })?;
    Ok(())
}

// Puts a use of the local behind a point.
fn put_use(made: &mut Graph, from: u32, local: u32) -> Result<(), OutOfMemory>
    ensures every { OnOk result (tell.Grows made.old made.new × tell.IsUsedAfter made.new (length made.old.points.items) from local) }
    ensures only { OnOk result (tell.OnlyBehind made.old made.new from) }
{
    let point = Point {
        row: 0,
        kind: PointKind::Use { local },
    };
    let to = put_point(made, point)?;
    put_step(made, from, to)?;
    Ok(())
}

// Puts a use of each local behind a point.
fn put_uses(made: &mut Graph, from: u32, locals: &[u32]) -> Result<(), OutOfMemory>
    ensures every { OnOk result (tell.Grows made.old made.new × ((d : ℕ) → Contains locals.now d → tell.IsUsedAfter made.new (length made.old.points.items) from d)) }
    ensures only { OnOk result (tell.OnlyBehind made.old made.new from) }
{
    for local in locals {
        put_use(made, from, *local)?;
    }
    Ok(())
}

// Puts a definition of the local at the row before a point.
fn put_definition(made: &mut Graph, to: u32, row: u32, local: u32) -> Result<(), OutOfMemory>
    ensures every { OnOk result (tell.Grows made.old made.new × tell.IsDefinedBefore made.new (length made.old.points.items) to row local) }
    ensures only { OnOk result (tell.OnlyDefines made.old made.new to (tell.IsOf row local)) }
{
    let point = Point {
        row,
        kind: PointKind::Definition { local },
    };
    let from = put_point(made, point)?;
    put_step(made, from, to)?;
    Ok(())
}

// ---- values that leave the method

fn exit_number(is_throw: bool) -> u32
    ensures { result ≡ exit_number is_throw }
{
    if is_throw { 2 } else { 1 }
}

fn value_if(row: u32, local: u32, is_such: bool) -> Option<Value>
    ensures { result ≡ tell.value_if row local is_such }
{
    if is_such {
        Some(Value { row, local })
    } else {
        None
    }
}

// What the local of the point gets there, where that is such and does not only hand on.
fn value_at(handing: &Handing, point: Option<Point>, is_such: bool) -> Option<Value>
    ensures { result ≡ tell.value_at handing.now point is_such }
{
    match point {
        Some(point) => match point.kind {
            PointKind::Definition { local } => {
                let is_value = handing.use_of(point.row).is_none() && is_such;
                value_if(point.row, local, is_value)
            }
            _ => None,
        },
        None => None,
    }
}

fn push_value(values: &mut Vec<Value>, value: Option<Value>) -> Result<(), OutOfMemory>
    ensures { OnOk result (values.new.items ≡ values.old.items ++ tell.item_of value) }
{
    if let Some(value) = value {
        values.push(value)?;
    }
    Ok(())
}

// The values that reach one of the points behind the first ones.
fn values_of(
    alloc: Global,
    points: &[Point],
    handing: &Handing,
    count: u32,
    pairs: &[(u32, u32)],
) -> Result<Vec<Value>, OutOfMemory>
    ensures { IfOk result (λ values. values.items ≡ tell.values_by points.now handing.now count pairs.now) }
{
    let mut values = Vec::new(alloc);
    for (definition, used) in pairs {
        let point = point_at(points, *definition as usize);
        push_value(&mut values, value_at(handing, point, *used >= count))?;
    }
    Ok(values)
}

// The values that locals of the method have where it is left, by a throw or not, but for those that only hand on.
fn leaving(
    alloc: Global,
    method: &Graph,
    handing: &Handing,
    is_throw: bool,
) -> Result<Vec<Value>, OutOfMemory>
    ensures every { AreWithin (length method.now.points.items) (steps_of method.now) → tell.HasExits method.now.points.items method.now.body → IfOk result (λ values. tell.AreLeaving method.now.points.items (steps_of method.now) handing.now (exit_number is_throw) values.items) }
    ensures only { AreWithin (length method.now.points.items) (steps_of method.now) → tell.HasExits method.now.points.items method.now.body → IfOk result (λ values. tell.OnlyLeaving method.now.points.items (steps_of method.now) handing.now (exit_number is_throw) values.items) }
{
    let count = count_of(method.points.len())?;
    let locals = locals_at(alloc, method.points.as_slice(), true)?;
    let mut made = copy_of(alloc, method)?;
    put_uses(&mut made, exit_number(is_throw), locals.rows())?;
    let pairs = reaching(alloc, &made)?;
    values_of(alloc, made.points.as_slice(), handing, count, &pairs)
}

// ---- uses behind the method

// The local with the old one of which it is a copy, for each that is one.
fn copy_pairs(alloc: Global, origin: &[u32], locals: &[u32]) -> Result<Vec<(u32, u32)>, OutOfMemory>
    ensures { IfOk result (λ pairs. pairs.items ≡ tell.pairs_by (origin_in origin.now) locals.now) }
{
    let mut pairs = Vec::new(alloc);
    for local in locals {
        push_pair(&mut pairs, row_for(origin, *local), Some(*local))?;
    }
    Ok(pairs)
}

// The copies of each old local that are used at the points.
fn copies_used(alloc: Global, points: &[Point], origin: &[u32]) -> Result<Lists, OutOfMemory>
    ensures every { IfOk result (λ copies. tell.AreCopies points.now (origin_in origin.now) (under_in copies)) }
    ensures only { IfOk result (λ copies. tell.OnlyCopies (origin_in origin.now) (under_in copies)) }
{
    let locals = locals_at(alloc, points, false)?;
    let pairs = copy_pairs(alloc, origin, locals.rows())?;
    Lists::of_all(alloc, &pairs)
}

fn is_exit_kind(kind: PointKind, is_throw: bool) -> bool
    ensures { result ≡ tell.is_exit_kind is_throw kind }
{
    match kind {
        PointKind::Exit => !is_throw,
        PointKind::Thrown => is_throw,
        _ => false,
    }
}

/// The point is the exit of the method, by a throw or not.
pub(crate) fn is_exit(point: Option<Point>, method: u32, is_throw: bool) -> bool
    ensures { result ≡ tell.is_exit_at method is_throw point }
{
    match point {
        Some(point) => point.row == method && is_exit_kind(point.kind, is_throw),
        None => false,
    }
}

// Puts a step, if it is such.
fn put_step_if(made: &mut Graph, from: u32, to: u32, is_such: bool) -> Result<(), OutOfMemory>
    ensures points { OnOk result (made.new.points.items ≡ made.old.points.items) }
    ensures kept { OnOk result ((i j : ℕ) (t : Bool) → Contains (steps_of made.old) (i, j, t) → Contains (steps_of made.new) (i, j, t)) }
    ensures here { OnOk result (is_such ≡ true → Contains (steps_of made.new) (from, to, false)) }
    ensures only { OnOk result ((i j : ℕ) (t : Bool) → Contains (steps_of made.new) (i, j, t) → Contains (steps_of made.old) (i, j, t) ⊎ ((i ≡ from) × (j ≡ to) × (is_such ≡ true))) }
{
    if is_such {
        put_step(made, from, to)?;
    }
    Ok(())
}

// Puts a step from the hub to each exit of the method, by a throw or not.
fn put_exits(
    made: &mut Graph,
    hub: u32,
    points: &[Point],
    method: u32,
    is_throw: bool,
) -> Result<(), OutOfMemory>
    ensures points { OnOk result (made.new.points.items ≡ made.old.points.items) }
    ensures kept { OnOk result ((i j : ℕ) (t : Bool) → Contains (steps_of made.old) (i, j, t) → Contains (steps_of made.new) (i, j, t)) }
    ensures here { OnOk result ((k : ℕ) → k < length points.now → tell.is_exit_at method is_throw (slice_get points.now k) ≡ true → Contains (steps_of made.new) (hub, k, false)) }
    ensures only { OnOk result ((i j : ℕ) (t : Bool) → Contains (steps_of made.new) (i, j, t) → Contains (steps_of made.old) (i, j, t) ⊎ ((i ≡ hub) × (tell.is_exit_at method is_throw (slice_get points.now j) ≡ true))) }
{
    let count = count_of(points.len())?;
    for number in 0..count {
        let point = point_at(points, number as usize);
        put_step_if(made, hub, number, is_exit(point, method, is_throw))?;
    }
    Ok(())
}

// The graph with one point more, the hub, that stands before each exit of the method, by a throw or not.
fn with_hub(alloc: Global, graph: &Graph, method: u32, is_throw: bool) -> Result<Graph, OutOfMemory>
    ensures grows { IfOk result (λ made. tell.Grows graph.now made) }
    ensures hub { IfOk result (λ made. tell.HasHub graph.now.points.items made method is_throw (length graph.now.points.items)) }
    ensures only { IfOk result (λ made. tell.OnlyHub graph.now made method is_throw) }
{
    let hub = count_of(graph.points.len())?;
    let mut made = copy_of(alloc, graph)?;
    made.points.push(Point {
        row: method,
        kind: PointKind::Node,
    })?;
    put_exits(&mut made, hub, graph.points.as_slice(), method, is_throw)?;
    Ok(made)
}

// Puts a definition of the copy before the hub, unless it is the local of the value itself.
fn put_other(made: &mut Graph, hub: u32, value: Value, copy: u32) -> Result<(), OutOfMemory>
    ensures every { OnOk result (tell.Grows made.old made.new × ((value.local ≡ copy → ⊥) → tell.IsDefinedBefore made.new (length made.old.points.items) hub value.row copy)) }
    ensures only { OnOk result (tell.OnlyDefines made.old made.new hub (tell.IsOtherOf value (copy ∷ []))) }
{
    if value.local == copy {
        return Ok(());
    }
    put_definition(made, hub, value.row, copy)
}

// Puts definitions of the copies before the hub.
fn put_others(made: &mut Graph, hub: u32, value: Value, copies: &[u32]) -> Result<(), OutOfMemory>
    ensures every { OnOk result (tell.Grows made.old made.new × ((copy : ℕ) → Contains copies.now copy → (value.local ≡ copy → ⊥) → tell.IsDefinedBefore made.new (length made.old.points.items) hub value.row copy)) }
    ensures only { OnOk result (tell.OnlyDefines made.old made.new hub (tell.IsOtherOf value copies.now)) }
{
    for copy in copies {
        put_other(made, hub, value, *copy)?;
    }
    Ok(())
}

// Puts definitions of the other copies of the local of the value before the hub.
fn put_value(
    made: &mut Graph,
    hub: u32,
    value: Value,
    copies: &Lists,
    origin: &[u32],
) -> Result<(), OutOfMemory>
    ensures every { OnOk result (tell.Grows made.old made.new × ((copy old : ℕ) → origin_in origin.now value.local ≡ Some old → Contains (under_in copies.now old) copy → (value.local ≡ copy → ⊥) → tell.IsDefinedBefore made.new (length made.old.points.items) hub value.row copy)) }
    ensures only { OnOk result (tell.OnlyDefines made.old made.new hub (tell.IsCopyOf value (under_in copies.now) (origin_in origin.now))) }
{
    match row_for(origin, value.local) {
        Some(old) => put_others(made, hub, value, copies.under(old)),
        None => Ok(()),
    }
}

fn put_values(
    made: &mut Graph,
    hub: u32,
    values: &[Value],
    copies: &Lists,
    origin: &[u32],
) -> Result<(), OutOfMemory>
    ensures every { OnOk result (tell.Grows made.old made.new × tell.AreDefined made.new (length made.old.points.items) hub values.now (under_in copies.now) (origin_in origin.now)) }
    ensures only { OnOk result (tell.OnlyDefines made.old made.new hub (tell.IsCopyOfOne values.now (under_in copies.now) (origin_in origin.now))) }
{
    for value in values {
        put_value(made, hub, *value, copies, origin)?;
    }
    Ok(())
}

// ---- what is lost

fn row_at(points: &[Point], number: u32) -> u32 {
    match points.get(number as usize) {
        Some(point) => point.row,
        None => 0,
    }
}

// From a definition in the method to a use behind its exit. An added use, as that of an argument, stands for the definition.
fn edge_between(flows: &Flows, definition: u32, used: u32) -> Edge {
    let names = &flows.names;
    let old = row_for(flows.origin, definition).unwrap_or(names.body);
    let first = defining_row(names.rows, old);
    Edge {
        first,
        second: row_for(flows.origin, used).unwrap_or(first),
    }
}

// Puts the edge between the points of a definition and of a use, unless the definition is one of the first points.
fn put_late(
    flows: &Flows,
    points: &[Point],
    definition: u32,
    used: u32,
    is_early: bool,
    lost: &mut Firsts,
)
    ensures { Tells lost.old lost.new (is_early ≡ true) }
{
    if !is_early {
        lost.put_old(edge_between(flows, row_at(points, definition), row_at(points, used)));
    }
}

fn put_all_late(
    flows: &Flows,
    points: &[Point],
    pairs: &[(u32, u32)],
    count: u32,
    lost: &mut Firsts,
)
    ensures { Tells lost.old lost.new ((x : ℕ × ℕ) → Contains pairs.now x → x.0 < count) }
{
    for (definition, used) in pairs {
        put_late(flows, points, *definition, *used, *definition < count, lost);
    }
}

// Puts the edges from values to uses of other copies of their locals that are reached from an exit of the method, by a throw or not.
fn put_used_behind(
    alloc: Global,
    flows: &Flows,
    method: u32,
    is_throw: bool,
    values: &[Value],
    copies: &Lists,
    lost: &mut Firsts,
) -> Result<(), OutOfMemory>
    ensures kept { AreWithin (length flows.now.after.now.points.items) (steps_of flows.now.after.now) → tell.OnlyCopies (origin_in flows.now.origin.now) (under_in copies.now)
        → OnOk result (AreNone lost.old → tell.NoneBehind flows.now.after.now.points.items (steps_of flows.now.after.now) method is_throw (origin_in flows.now.origin.now) values.now → AreNone lost.new) }
    ensures checks { AreWithin (length flows.now.after.now.points.items) (steps_of flows.now.after.now) → tell.AreCopies flows.now.after.now.points.items (origin_in flows.now.origin.now) (under_in copies.now)
        → OnOk result (Checks lost.old lost.new (tell.NoneBehind flows.now.after.now.points.items (steps_of flows.now.after.now) method is_throw (origin_in flows.now.origin.now) values.now)) }
{
    let hub = count_of(flows.after.points.len())?;
    let mut made = with_hub(alloc, flows.after, method, is_throw)?;
    put_values(&mut made, hub, values, copies, flows.origin)?;
    let pairs = reaching(alloc, &made)?;
    put_all_late(flows, made.points.as_slice(), &pairs, hub, lost);
    Ok(())
}

// Puts the edges of the values that leave the method by a throw, or not.
fn put_lost_by(
    alloc: Global,
    flows: &Flows,
    method: &Graph,
    handing: &Handing,
    copies: &Lists,
    is_throw: bool,
    lost: &mut Firsts,
) -> Result<(), OutOfMemory>
    ensures kept { AreWithin (length method.now.points.items) (steps_of method.now) → tell.HasExits method.now.points.items method.now.body → AreWithin (length flows.now.after.now.points.items) (steps_of flows.now.after.now) → tell.OnlyCopies (origin_in flows.now.origin.now) (under_in copies.now)
        → OnOk result (AreNone lost.old → tell.IsUnlostBy method.now flows.now.after.now handing.now (origin_in flows.now.origin.now) is_throw → AreNone lost.new) }
    ensures checks { AreWithin (length method.now.points.items) (steps_of method.now) → tell.HasExits method.now.points.items method.now.body → AreWithin (length flows.now.after.now.points.items) (steps_of flows.now.after.now) → tell.AreCopies flows.now.after.now.points.items (origin_in flows.now.origin.now) (under_in copies.now)
        → OnOk result (Checks lost.old lost.new (tell.IsUnlostBy method.now flows.now.after.now handing.now (origin_in flows.now.origin.now) is_throw)) }
{
    let values = leaving(alloc, method, handing, is_throw)?;
    put_used_behind(alloc, flows, method.body, is_throw, &values, copies, lost)
}

/// Puts the edges by which a value that a local gets in the method reaches an exit of it, and from there a use of another copy of the local, which does not
/// have that value. Parameters have no value of their own, and what is handed back is another definition.
pub(crate) fn put_lost_values(
    alloc: Global,
    flows: &Flows,
    method: &Graph,
    handing: &Handing,
    lost: &mut Firsts,
) -> Result<(), OutOfMemory>
    ensures kept { AreWithin (length method.now.points.items) (steps_of method.now) → tell.HasExits method.now.points.items method.now.body → AreWithin (length flows.now.after.now.points.items) (steps_of flows.now.after.now)
        → OnOk result (AreNone lost.old → tell.IsUnlost method.now flows.now.after.now handing.now (origin_in flows.now.origin.now) → AreNone lost.new) }
    ensures checks { AreWithin (length method.now.points.items) (steps_of method.now) → tell.HasExits method.now.points.items method.now.body → AreWithin (length flows.now.after.now.points.items) (steps_of flows.now.after.now)
        → OnOk result (Checks lost.old lost.new (tell.IsUnlost method.now flows.now.after.now handing.now (origin_in flows.now.origin.now))) }
{
    let copies = copies_used(alloc, flows.after.points.as_slice(), flows.origin)?;
    put_lost_by(alloc, flows, method, handing, &copies, false, lost)?;
    put_lost_by(alloc, flows, method, handing, &copies, true, lost)
}
