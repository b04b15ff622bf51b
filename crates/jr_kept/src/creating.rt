// What an inlining into a creation loses: its class is initialized before its arguments (JLS 12.4.1, 15.9.4), and was behind the initializer of the local.
ghost use Rattle.std.specs.Prelude.{◌≡◌, ℕ, IfErr, IfOk, IfSome, None, OnOk, Some};
ghost use Rattle.std.specs.List.{Contains};
ghost use Rattle.jr_tree.specs.declared.label.Label.TheVariants as is;
ghost use Rattle.jr_tree.specs.Rows.{label};
ghost use Rattle.jr_flow_defs.specs.Meaning.{Meaning};
ghost use Rattle.jr_flow.specs.Numbered.{OnlyWhere};
ghost use Rattle.jr_kept.specs.Courses.{HasLarge, IsBody, IsSeen};
ghost use Rattle.jr_kept.specs.Ordered.{AreNone, OnlyAdds};
ghost use Rattle.jr_kept.specs.Started as tell;

use crate::edges::{Edge, Firsts};
use crate::flows::{is_within, rows_of};
use crate::starting::{initialized_by, node_in, refers_to, runs_before};
use jr_change::{Project, RowRange};
use jr_flow::{FlowFault, Graph, PointKind, bodies};
use jr_places::{constructed_class, is_interface, parent_at};
use jr_tree::{Label, Row};
use std::alloc::Global;

// The first node of the initializer of a local.
fn node_of_initializer(graph: &Graph, range: RowRange) -> Option<u32> {
    let mut first: Option<u32> = None;
    for point in &graph.points {
        if matches!(point.kind, PointKind::Node) && is_inside(range, point.row) {
            first = match first {
                Some(row) => Some(row.min(point.row)),
                None => Some(point.row),
            };
        }
    }
    first
}

// The row stands in the range, behind its first row.
fn is_inside(range: RowRange, row: u32) -> bool {
    row != range.first && is_within(range, row)
}

fn is_creation(rows: &[Row], at: u32) -> bool
    ensures { result ≡ tell.is_creation (label rows.now at) }
{
    match rows.get(at as usize) {
        Some(row) => match row.label {
            Label::New => true,
            _ => false,
        },
        None => false,
    }
}

// The class whose object the row creates.
fn created_at(old: &Project, at: u32) -> Option<u32>
    ensures { IfSome result (λ class. label old.now.marks.rows.now at ≡ is.New) }
{
    let rows = old.marks.rows;
    if !is_creation(rows, at) {
        return None;
    }
    let constructor = old.view.sight.world.under.declared(at)?;
    constructed_class(rows, constructor)
}

// A creation of the class initializes the other one, if the code at the row runs where that may not be done.
fn begins(old: &Project, class: u32, other: u32, at: u32) -> bool {
    let rows = old.marks.rows;
    let is_of_class = class == other || old.view.sight.world.supers.is_above(rows, class, other);
    is_of_class && !is_interface(rows, other) && runs_before(old, other, at)
}

// A node of a body, if it has one and runs in an initialization that a creation of the class at the row may begin.
fn node_of(
    alloc: Global,
    old: &Project,
    body: u32,
    class: u32,
    at: u32,
) -> Result<Option<u32>, FlowFault>
    ensures acts { (m : Meaning) → IsSeen old.now m → IsBody old.now.marks.rows.now body → IfOk result (λ found. IfSome found (λ row. tell.ActsAtSomeStart old.now.marks.rows.now m)) }
    ensures large { (m : Meaning) → IsSeen old.now m → IsBody old.now.marks.rows.now body → IfErr result (OnlyWhere (HasLarge old.now.marks.rows.now m)) }
{
    let Some(other) = initialized_by(old.marks.rows, body) else {
        return Ok(None);
    };
    if !begins(old, class, other, at) {
        return Ok(None);
    }
    node_in(alloc, old, body)
}

// A node of one of some bodies, if one has one and runs in an initialization that a creation of the class at the row may begin.
fn node_among(
    alloc: Global,
    old: &Project,
    bodies: &[u32],
    class: u32,
    at: u32,
) -> Result<Option<u32>, FlowFault>
    ensures acts { (m : Meaning) → IsSeen old.now m → ((k : ℕ) → Contains bodies.now k → IsBody old.now.marks.rows.now k) → IfOk result (λ found. IfSome found (λ row. tell.ActsAtSomeStart old.now.marks.rows.now m)) }
    ensures large { (m : Meaning) → IsSeen old.now m → ((k : ℕ) → Contains bodies.now k → IsBody old.now.marks.rows.now k) → IfErr result (OnlyWhere (HasLarge old.now.marks.rows.now m)) }
{
    for body in bodies {
        match node_of(alloc, old, *body, class, at)? {
            Some(node) => return Ok(Some(node)),
            None => {}
        }
    }
    Ok(None)
}

// A node of the initialization that a creation of the class at the row may begin, if there is one.
fn node_begun(alloc: Global, old: &Project, class: u32, at: u32) -> Result<Option<u32>, FlowFault>
    ensures acts { (m : Meaning) → IsSeen old.now m → IfOk result (λ found. IfSome found (λ row. tell.ActsAtSomeStart old.now.marks.rows.now m)) }
    ensures large { (m : Meaning) → IsSeen old.now m → IfErr result (OnlyWhere (HasLarge old.now.marks.rows.now m)) }
{
    let all = bodies(alloc, old.marks.rows)?;
    node_among(alloc, old, &all, class, at)
}

// A node that the creation at a row may begin before its arguments, if it is one, for a use among them.
fn node_over(alloc: Global, old: &Project, over: u32, at: u32) -> Result<Option<u32>, FlowFault>
    ensures creates { (m : Meaning) → IsSeen old.now m → IfOk result (λ found. IfSome found (λ row. tell.CreatesAt old.now.marks.rows.now m over)) }
    ensures large { (m : Meaning) → IsSeen old.now m → IfErr result (OnlyWhere (HasLarge old.now.marks.rows.now m)) }
{
    let Some(class) = created_at(old, over) else {
        return Ok(None);
    };
    node_begun(alloc, old, class, at)
}

// A node that a creation round the use may begin before its arguments, where the body is the first row above.
fn node_round(alloc: Global, old: &Project, body: u32, at: u32) -> Result<Option<u32>, FlowFault>
    ensures creates { (m : Meaning) → IsSeen old.now m → IfOk result (λ found. IfSome found (λ row. tell.IsInCreation old.now.marks.rows.now m at)) }
    ensures large { (m : Meaning) → IsSeen old.now m → IfErr result (OnlyWhere (HasLarge old.now.marks.rows.now m)) }
{
    let rows = old.marks.rows;
    let mut over = at;
    for _turn in 0..rows.len() {
        if over <= body {
            return Ok(None);
        }
        match node_over(alloc, old, over, at)? {
            Some(node) => return Ok(Some(node)),
            None => {}
        }
        over = parent_at(rows, over);
    }
    Ok(None)
}

// Puts an edge to a second node, if there is one.
fn put_to(first: u32, second: Option<u32>, lost: &mut Firsts)
    ensures adds { OnlyAdds lost.old lost.new }
    ensures kept { second ≡ None → AreNone lost.old → AreNone lost.new }
{
    match second {
        Some(second) => lost.put_old(Edge { first, second }),
        None => {}
    }
}

// A node that a creation round a row may begin before its arguments, where the row is a use of the local.
fn node_round_use(
    alloc: Global,
    old: &Project,
    body: u32,
    local: u32,
    row: u32,
) -> Result<Option<u32>, FlowFault>
    ensures begins { (m : Meaning) → IsSeen old.now m → IfOk result (λ found. IfSome found (λ node. tell.BeginsFirst old.now.marks.rows.now m local)) }
    ensures large { (m : Meaning) → IsSeen old.now m → IfErr result (OnlyWhere (HasLarge old.now.marks.rows.now m)) }
{
    if !refers_to(old, row, local) {
        return Ok(None);
    }
    node_round(alloc, old, body, row)
}

// Puts an edge from a node to each that a creation round a use of the local may begin before its arguments.
fn put_begun(
    alloc: Global,
    old: &Project,
    body: RowRange,
    local: u32,
    first: u32,
    lost: &mut Firsts,
) -> Result<(), FlowFault>
    ensures adds { OnOk result (OnlyAdds lost.old lost.new) }
    ensures kept { (m : Meaning) → IsSeen old.now m → OnOk result (AreNone lost.old → (tell.BeginsFirst old.now.marks.rows.now m local → ⊥) → AreNone lost.new) }
    ensures large { (m : Meaning) → IsSeen old.now m → IfErr result (OnlyWhere (HasLarge old.now.marks.rows.now m)) }
{
    for row in body.first..body.end {
        let second = node_round_use(alloc, old, body.first, local, row)?;
        put_to(first, second, lost);
    }
    Ok(())
}

/// Puts an edge from a node of the initializer of a local to a node of the initialization of a class, if a creation of the class has a use of the local
/// among its arguments and may begin that initialization.
pub(crate) fn put_delayed(
    alloc: Global,
    old: &Project,
    graph: &Graph,
    local: u32,
    lost: &mut Firsts,
) -> Result<(), FlowFault>
    ensures adds { OnOk result (OnlyAdds lost.old lost.new) }
    ensures kept { (m : Meaning) → IsSeen old.now m → OnOk result (AreNone lost.old → (tell.BeginsFirst old.now.marks.rows.now m local → ⊥) → AreNone lost.new) }
    ensures large { (m : Meaning) → IsSeen old.now m → IfErr result (OnlyWhere (HasLarge old.now.marks.rows.now m)) }
{
    let Some(first) = node_of_initializer(graph, rows_of(old.marks.rows, local)) else {
        return Ok(());
    };
    put_begun(
        alloc,
        old,
        rows_of(old.marks.rows, graph.body),
        local,
        first,
        lost,
    )
}
