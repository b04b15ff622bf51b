// What a pull up of a static method loses: a call of it initializes the class that it leaves no more (JLS 12.4.1).
ghost use Rattle.std.specs.Prelude.{◌≡◌, ◌<◌, ℕ, IfErr, IfOk, IfSome, Some, length, true};
ghost use Rattle.std.specs.List.{Contains};
ghost use Rattle.jr_tree.specs.Rows.{label};
ghost use Rattle.jr_flow_defs.specs.Meaning.{Meaning, declared};
ghost use Rattle.jr_flow.specs.Numbered.{OnlyWhere};
ghost use Rattle.jr_kept.specs.Courses.{HasLarge, IsBody, IsSeen};
ghost use Rattle.jr_kept.specs.Started as tell;

use crate::edges::Edge;
use crate::gathering::point_at;
use crate::kept::graph_of;
use crate::names::is_same;
use jr_change::{Project, Raised};
use jr_flow::{FlowFault, Point, PointKind, bodies};
use jr_places::{declaring_type, is_static, parent_at, role_at};
use jr_tree::{Label, Role, Row};
use std::alloc::Global;

/// The class in whose initialization a body runs: that of a static initializer or a static field (JLS 8.3.2.1, 8.7).
pub(crate) fn initialized_by(rows: &[Row], body: u32) -> Option<u32>
    ensures { result ≡ tell.class_by (label rows.now body) rows.now body }
{
    match rows.get(body as usize) {
        Some(row) => match row.label {
            Label::Initializer { is_static: true } => {
                Some(parent_at(rows, parent_at(rows, body)))
            }
            Label::Field { .. } => {
                if is_static(rows, body) {
                    declaring_type(rows, body)
                } else {
                    None
                }
            }
            _ => None,
        },
        None => None,
    }
}

// The row of the point, if it is a node and not that of the body.
fn node_at(body: u32, point: Option<Point>) -> Option<u32>
    ensures { result ≡ tell.node_at body point }
{
    match point {
        Some(point) => match point.kind {
            PointKind::Node => {
                if point.row == body {
                    None
                } else {
                    Some(point.row)
                }
            }
            _ => None,
        },
        None => None,
    }
}

fn node_among(points: &[Point], body: u32) -> Option<u32>
    ensures { IfSome result (λ row. tell.IsNodeAmong points.now body row) }
{
    for number in 0..points.len() {
        match node_at(body, point_at(points, number)) {
            Some(row) => return Some(row),
            None => {}
        }
    }
    None
}

/// A node of a body, if it has one but its own declaration.
pub(crate) fn node_in(alloc: Global, old: &Project, body: u32) -> Result<Option<u32>, FlowFault>
    ensures acts { (m : Meaning) → IsSeen old.now m → body < length old.now.marks.rows.now → IfOk result (λ found. IfSome found (λ row. tell.IsActing old.now.marks.rows.now m body row)) }
    ensures large { (m : Meaning) → IsSeen old.now m → body < length old.now.marks.rows.now → IfErr result (OnlyWhere (HasLarge old.now.marks.rows.now m)) }
{
    let flow = graph_of(alloc, old, body)?;
    Ok(node_among(flow.points.as_slice(), body))
}

// The body runs in the initialization of the class.
fn is_started(rows: &[Row], body: u32, class: u32) -> bool
    ensures { result ≡ true → tell.class_by (label rows.now body) rows.now body ≡ Some class }
{
    is_same(initialized_by(rows, body), class)
}

// A node of a body that runs in the initialization of a class, if it does and has one.
fn node_started(
    alloc: Global,
    old: &Project,
    body: u32,
    class: u32,
) -> Result<Option<u32>, FlowFault>
    ensures acts { (m : Meaning) → IsSeen old.now m → IsBody old.now.marks.rows.now body → IfOk result (λ found. IfSome found (λ row. tell.ActsAtStart old.now.marks.rows.now m class)) }
    ensures large { (m : Meaning) → IsSeen old.now m → IsBody old.now.marks.rows.now body → IfErr result (OnlyWhere (HasLarge old.now.marks.rows.now m)) }
{
    if !is_started(old.marks.rows, body, class) {
        return Ok(None);
    }
    node_in(alloc, old, body)
}

// A node of one of some bodies that runs in the initialization of a class, if there is one.
fn node_of_bodies(
    alloc: Global,
    old: &Project,
    bodies: &[u32],
    class: u32,
) -> Result<Option<u32>, FlowFault>
    ensures acts { (m : Meaning) → IsSeen old.now m → ((k : ℕ) → Contains bodies.now k → IsBody old.now.marks.rows.now k) → IfOk result (λ found. IfSome found (λ row. tell.ActsAtStart old.now.marks.rows.now m class)) }
    ensures large { (m : Meaning) → IsSeen old.now m → ((k : ℕ) → Contains bodies.now k → IsBody old.now.marks.rows.now k) → IfErr result (OnlyWhere (HasLarge old.now.marks.rows.now m)) }
{
    for body in bodies {
        match node_started(alloc, old, *body, class)? {
            Some(node) => return Ok(Some(node)),
            None => {}
        }
    }
    Ok(None)
}

// A node of the initialization of a class, if it has one.
fn node_of_class(alloc: Global, old: &Project, class: u32) -> Result<Option<u32>, FlowFault>
    ensures acts { (m : Meaning) → IsSeen old.now m → IfOk result (λ found. IfSome found (λ row. tell.ActsAtStart old.now.marks.rows.now m class)) }
    ensures large { (m : Meaning) → IsSeen old.now m → IfErr result (OnlyWhere (HasLarge old.now.marks.rows.now m)) }
{
    let all = bodies(alloc, old.marks.rows)?;
    node_of_bodies(alloc, old, &all, class)
}

// The innermost type in which a row stands.
fn type_round(rows: &[Row], at: u32) -> Option<u32> {
    let mut over = at;
    for _turn in 0..rows.len() {
        if role_at(rows, over) == Role::Type {
            return Some(over);
        }
        over = parent_at(rows, over);
    }
    None
}

/// The code at a row runs where the class may not be initialized: it is that of a type that is neither the class nor below it.
pub(crate) fn runs_before(old: &Project, class: u32, at: u32) -> bool {
    let rows = old.marks.rows;
    match type_round(rows, at) {
        Some(over) => over != class && !old.view.sight.world.supers.is_above(rows, over, class),
        None => false,
    }
}

/// The row refers to the declaration.
pub(crate) fn refers_to(old: &Project, row: u32, declaration: u32) -> bool
    ensures { (m : Meaning) → IsSeen old.now m → result ≡ true → declared (m.targets row) ≡ Some declaration }
{
    is_same(old.view.sight.world.under.declared(row), declaration)
}

// The row is a use of the method where its class may not be initialized.
fn is_use_before(old: &Project, raised: Raised, row: u32) -> bool
    ensures { (m : Meaning) → IsSeen old.now m → result ≡ true → declared (m.targets row) ≡ Some raised.method.first }
{
    refers_to(old, row, raised.method.first) && runs_before(old, raised.from, row)
}

// The first use of the method where its class may not be initialized.
fn first_use(old: &Project, raised: Raised) -> Option<u32>
    ensures { (m : Meaning) → IsSeen old.now m → IfSome result (λ row. declared (m.targets row) ≡ Some raised.method.first) }
{
    let mut row = 0u32;
    for _row in old.marks.rows {
        if is_use_before(old, raised, row) {
            return Some(row);
        }
        row = row.saturating_add(1);
    }
    None
}

/// From a node of the initialization of the class that a static method leaves to a call of it that may have begun that initialization, if there is one.
pub(crate) fn lost_initialization(
    alloc: Global,
    old: &Project,
    raised: Raised,
) -> Result<Option<Edge>, FlowFault>
    ensures leaves { (m : Meaning) → IsSeen old.now m → IfOk result (λ found. IfSome found (λ edge. tell.LeavesStart old.now.marks.rows.now m raised)) }
    ensures large { (m : Meaning) → IsSeen old.now m → IfErr result (OnlyWhere (HasLarge old.now.marks.rows.now m)) }
{
    if !is_static(old.marks.rows, raised.method.first) {
        return Ok(None);
    }
    let Some(first) = node_of_class(alloc, old, raised.from)? else {
        return Ok(None);
    };
    match first_use(old, raised) {
        Some(second) => Ok(Some(Edge { first, second })),
        None => Ok(None),
    }
}
