// The `return` statements of an added method, which complete the method in place of the body.
ghost use Rattle.std.specs.Prelude.{◌≡◌, ◌+◌, ◌-◌, ◌^◌, ◌<◌, ◌&&◌, ℕ, Some, false, true, IfOk, OnOk, length, nat_lt, not, slice_get};
ghost use Rattle.jr_tree.specs.Rows.{label, end};
ghost use Rattle.jr_places.specs.Stamps.{is_stamped, IsStamping, IsEmptied};
ghost use Rattle.jr_flow.specs.Reached.{steps_of};
ghost use Rattle.jr_kept.specs.Carried.{is_exit_at};
ghost use Rattle.jr_kept.specs.Named.{origin_in};
ghost use Rattle.jr_kept.specs.Ordered.{AreNone, OnlyAdds, Tells};
ghost use Rattle.jr_kept.specs.Waiting.{AreShaped, IsFree};
ghost use Rattle.jr_kept.specs.Returned as tell;

use crate::carried::is_exit;
use crate::dropped::{some_if, step_at};
use crate::edges::{Edge, Firsts};
use crate::flows::{Flows, count_rows, rows_of};
use crate::gathering::point_at;
use crate::names::Names;
use crate::parts::{have_parts, is_free};
use jr_base::OutOfMemory;
use jr_flow::{Point, PointKind, Step};
use jr_locks::row_for;
use jr_places::Stamps;
use jr_tree::{Label, Row};
use std::alloc::Global;

// ---- which rows are moved

fn is_return(rows: &[Row], at: u32) -> bool
    ensures { result ≡ tell.is_return (label rows.now at) }
{
    match rows.get(at as usize) {
        Some(row) => match row.label {
            Label::Return => true,
            _ => false,
        },
        None => false,
    }
}

// A `return` stands at the row, which is not before that of the body.
fn is_noted(rows: &[Row], body: u32, at: u32) -> bool
    ensures { result ≡ tell.is_noted rows.now body at }
{
    body <= at && is_return(rows, at)
}

// Puts a row from that of the body on into the set, if it is such.
fn note_if(moved: &mut Stamps, body: u32, row: u32, is_such: bool)
    ensures { (bound : ℕ) → IsStamping moved.old bound → tell.NotesIf body bound moved.old moved.new row is_such }
{
    if is_such {
        let _ = moved.add(row.saturating_sub(body));
    }
}

// Puts the row into the set, if it is one of a `return`.
fn note(moved: &mut Stamps, names: &Names, row: Option<u32>)
    ensures { (bound : ℕ) → IsStamping moved.old bound → tell.NotesReturn names.now.rows.now names.now.body bound moved.old moved.new row }
{
    match row {
        Some(row) => note_if(
            moved,
            names.body,
            row,
            is_noted(names.rows, names.body, row),
        ),
        None => {}
    }
}

// Puts those in of which rows of the method are copies.
fn note_all(moved: &mut Stamps, names: &Names, origin: &[u32], first: u32, end: u32)
    ensures { (bound : ℕ) → IsEmptied moved.old bound → tell.NotesTo names.now.rows.now names.now.body bound (origin_in origin.now) first end moved.new }
{
    for copy in first..end {
        note(moved, names, row_for(origin, copy));
    }
}

// The number behind that of a row.
fn row_behind(row: u32) -> u32
    ensures { row + 1 < 2 ^ 32 → result ≡ row + 1 }
{
    row.saturating_add(1)
}

// The rows of the old body, from its own on, at which a `return` stands that has a copy in the method.
fn moved_returns(alloc: Global, flows: &Flows, method: u32) -> Result<Stamps, OutOfMemory>
    ensures every { flows.now.names.body + 1 < 2 ^ 32 → method + 1 < 2 ^ 32 → IfOk result (λ moved. tell.AreMoved flows.now.names.rows.now flows.now.rows.now flows.now.names.body method (origin_in flows.now.origin.now) moved) }
    ensures only { flows.now.names.body + 1 < 2 ^ 32 → method + 1 < 2 ^ 32 → IfOk result (λ moved. tell.OnlyMoved flows.now.names.rows.now flows.now.rows.now flows.now.names.body method (origin_in flows.now.origin.now) moved) }
{
    let names = &flows.names;
    let whole = rows_of(names.rows, names.body);
    let range = rows_of(flows.rows, method);
    let mut moved = Stamps::new(alloc, count_rows(whole))?;
    let first = row_behind(range.first);
    note_all(&mut moved, names, flows.origin, first, range.end);
    Ok(moved)
}

// The row is that of a moved `return`.
fn is_moved(body: u32, moved: &Stamps, row: u32) -> bool
    ensures { result ≡ (not (nat_lt row body) && is_stamped moved.now (row - body)) }
{
    body <= row && moved.has(row.saturating_sub(body))
}

// The row of the point, if it is that of a moved `return`.
fn moved_at(body: u32, moved: &Stamps, point: Option<Point>) -> Option<u32>
    ensures { result ≡ tell.moved_at body moved.now point }
{
    match point {
        Some(point) => match point.kind {
            PointKind::Node => some_if(point.row, is_moved(body, moved, point.row)),
            _ => None,
        },
        None => None,
    }
}

// ---- what is put

// Puts an edge from the row to itself, unless it is such.
fn put_unless(row: u32, is_such: bool, lost: &mut Firsts)
    ensures { Tells lost.old lost.new (is_such ≡ true) }
{
    if !is_such {
        lost.put_old(Edge {
            first: row,
            second: row,
        });
    }
}

// Puts the row of a moved `return`, if it is one, where something is pending.
fn put_pending(rows: &[Row], body: u32, row: Option<u32>, lost: &mut Firsts)
    ensures { Tells lost.old lost.new ((n : ℕ) → row ≡ Some n → IsFree rows.now body n) }
{
    match row {
        Some(row) => put_unless(row, is_free(rows, body, row), lost),
        None => {}
    }
}

fn put_all_pending(names: &Names, moved: &Stamps, points: &[Point], lost: &mut Firsts)
    ensures { Tells lost.old lost.new (tell.AreFreeTo names.now.rows.now names.now.body moved.now points.now (length points.now)) }
{
    for number in 0..points.len() {
        let row = moved_at(names.body, moved, point_at(points, number));
        put_pending(names.rows, names.body, row, lost);
    }
}

// Puts the row of a moved `return`, if there is one, unless it is such.
fn put_from(row: Option<u32>, is_such: bool, lost: &mut Firsts)
    ensures { Tells lost.old lost.new ((n : ℕ) → row ≡ Some n → is_such ≡ true) }
{
    match row {
        Some(row) => put_unless(row, is_such, lost),
        None => {}
    }
}

// Puts the row of a moved `return`, if one stands where the step begins and the step does not lead to the exit.
fn put_step(body: u32, moved: &Stamps, points: &[Point], step: Option<Step>, lost: &mut Firsts)
    ensures { Tells lost.old lost.new (tell.LeadsOut body moved.now points.now step) }
{
    match step {
        Some(step) => {
            let row = moved_at(body, moved, point_at(points, step.from as usize));
            let next = point_at(points, step.to as usize);
            put_from(row, is_exit(next, body, false), lost)
        }
        None => {}
    }
}

fn put_all_steps(body: u32, moved: &Stamps, points: &[Point], steps: &[Step], lost: &mut Firsts)
    ensures { Tells lost.old lost.new (tell.LeadOutTo body moved.now points.now steps.now (length steps.now)) }
{
    for number in 0..steps.len() {
        put_step(body, moved, points, step_at(steps, number), lost);
    }
}

/// Puts an edge from each `return` to itself that has a copy in the method and does not complete the body at once, with nothing pending: a block of
/// `finally` comes before the exit, or is left by it (JLS 14.17, 14.20.2).
///
/// What is pending is told by the rows round a row, if each row of the body has its parts: of any other body nothing is told, as where memory is refused.
pub(crate) fn put_held_returns(
    alloc: Global,
    flows: &Flows,
    method: u32,
    lost: &mut Firsts,
) -> Result<(), OutOfMemory>
    ensures adds { OnOk result (OnlyAdds lost.old lost.new) }
    ensures shaped { flows.now.names.body + 1 < 2 ^ 32 → OnOk result (AreShaped flows.now.names.rows.now flows.now.names.body) }
    ensures leaves { flows.now.names.body + 1 < 2 ^ 32 → method + 1 < 2 ^ 32
        → OnOk result (AreNone lost.new → tell.LeavesByNumbers flows.now.names.rows.now flows.now.rows.now flows.now.names.body method (origin_in flows.now.origin.now) flows.now.before.now.points.items (steps_of flows.now.before.now)) }
    ensures kept { flows.now.names.body + 1 < 2 ^ 32 → method + 1 < 2 ^ 32
        → OnOk result (AreNone lost.old → tell.LeavesByNumbers flows.now.names.rows.now flows.now.rows.now flows.now.names.body method (origin_in flows.now.origin.now) flows.now.before.now.points.items (steps_of flows.now.before.now) → AreNone lost.new) }
{
    let names = &flows.names;
    let graph = flows.before;
    if !have_parts(names.rows, names.body) {
        return Err(OutOfMemory);
    }
    let moved = moved_returns(alloc, flows, method)?;
    put_all_pending(names, &moved, graph.points.as_slice(), lost);
    put_all_steps(
        names.body,
        &moved,
        graph.points.as_slice(),
        graph.steps.as_slice(),
        lost,
    );
    Ok(())
}
