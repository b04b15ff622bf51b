// What a change loses.
ghost use Rattle.std.specs.Prelude.{◌≡◌, ◌⊎◌, ◌+◌, ◌<◌, ◌≤◌, ◌^◌, ℕ, None, Decides, IfErr, IfOk, IfSome, Some, length, true};
ghost use Rattle.jr_tree.specs.Rows as tree;
ghost use Rattle.jr_locks.specs.Origins.{origin_of, row_by};
ghost use Rattle.jr_flow_defs.specs.Meaning.{Meaning};
ghost use Rattle.jr_flow_defs.specs.Edges.{IsGraph, body_flow};
ghost use Rattle.jr_flow_defs.specs.Kept.{IsDisturbed, joined_flow, statement_round};
ghost use Rattle.jr_flow.specs.Numbered.{OnlyWhere};
ghost use Rattle.jr_flow.specs.Reached.{steps_of, IsGraphOf};
ghost use Rattle.jr_kept.specs.Ordered.{AreNone};
ghost use Rattle.jr_kept.specs.Compared.{KeepsBodies, KeepsWholeBodies, KeepsJoined, KeepsJoinedUses, KeepsJoinedValues, KeepsJoinedReturns, IsOldBody, IsJoinedGraph, IsMethodGraph};
ghost use Rattle.jr_kept.specs.Courses as tell;
ghost use Rattle.jr_kept.specs.Handed.{HandsOnce};
ghost use Rattle.jr_kept.specs.Named.{origin_in};
ghost use Rattle.jr_kept.specs.Started.{BeginsFirst, BeginsFirstIn, LeavesStartIn};

use crate::arriving::put_lost_definitions;
use crate::carried::put_lost_values;
use crate::control::lost_control;
use crate::creating::put_delayed;
use crate::dropped::put_disturbing;
use crate::edges::{Edge, Firsts};
use crate::flows::{Flows, body_round, rows_of};
use crate::handing::Handing;
use crate::joined::joined;
use crate::names::Names;
use crate::raising::lost_by_raising;
use crate::returning::put_held_returns;
use jr_base::{OutOfMemory, Place};
use jr_change::{Change, Course, Locks, Project, RowRange};
use jr_flow::{FlowFault, Graph, graph};
use jr_locks::row_for;
use jr_places::parent_at;
use jr_tree::Row;
use std::alloc::Global;

/// An edge between two nodes of a body that stands on one side of a change alone. Both places are in the old files.
#[derive(Clone, Copy, Debug, PartialEq, Eq)]
pub struct LostEdge {
    pub first: Place,
    pub second: Place,
    /// It stands in the old program, and not in the changed one.
    pub is_old: bool,
}

/// The first edge of control that a change loses, and the first edge from a definition of a local to a use of it. Edges of the old program come first, and
/// then those whose first node comes first, and whose second node does.
#[derive(Clone, Copy, Debug, PartialEq, Eq)]
pub struct LostFlow {
    pub control: Option<LostEdge>,
    pub def_use: Option<LostEdge>,
}

/// An edge by places.
pub(crate) fn placed(old: &Project, edge: Edge, is_old: bool) -> LostEdge {
    LostEdge {
        first: old.marks.node_place(edge.first),
        second: old.marks.node_place(edge.second),
        is_old,
    }
}

/// The first edge of those found, if any was.
pub(crate) fn first_of(old: &Project, lost: Firsts) -> Option<LostEdge>
    ensures none { result ≡ None → AreNone lost }
    ensures some { AreNone lost → result ≡ None }
{
    match lost.before {
        Some(edge) => Some(placed(old, edge, true)),
        None => match lost.after {
            Some(edge) => Some(placed(old, edge, false)),
            None => None,
        },
    }
}

/// Nothing is lost.
pub(crate) fn nothing() -> LostFlow
    ensures control { result.control ≡ None }
    ensures def_use { result.def_use ≡ None }
{
    LostFlow {
        control: None,
        def_use: None,
    }
}

/// What is lost where the body round an old row has no copy.
pub(crate) fn lost_at(old: &Project, row: u32) -> LostFlow
    ensures control { result.control ≡ None → ⊥ }
    ensures def_use { result.def_use ≡ None }
{
    let edge = Edge {
        first: row,
        second: row,
    };
    LostFlow {
        control: Some(placed(old, edge, true)),
        def_use: None,
    }
}

fn lost_in_inlined(
    alloc: Global,
    old: &Project,
    flows: &Flows,
    local: u32,
) -> Result<LostFlow, FlowFault>
    ensures control { (m w : Meaning) → IsGraphOf flows.now.names.rows.now m flows.now.before.now → IsGraphOf flows.now.rows.now w flows.now.after.now → IfOk result (λ lost. lost.control ≡ None → KeepsBodies flows.now m w) }
    ensures uses { (m w : Meaning) → IsGraphOf flows.now.names.rows.now m flows.now.before.now → IsGraphOf flows.now.rows.now w flows.now.after.now → IfOk result (λ lost. lost.control ≡ None → lost.def_use ≡ None → KeepsWholeBodies flows.now m w × (local + 1 < 2 ^ 32 → IsDisturbed flows.now.names.rows.now (body_flow flows.now.names.rows.now m flows.now.before.now.body) local → ⊥)) }
    ensures only_control { (m w : Meaning) → tell.IsSeen old.now m → IsGraphOf flows.now.names.rows.now m flows.now.before.now → IsGraphOf flows.now.rows.now w flows.now.after.now → (BeginsFirst old.now.marks.rows.now m local → ⊥)
        → IfOk result (λ lost. KeepsBodies flows.now m w → lost.control ≡ None) }
    ensures only_uses { (m w : Meaning) → IsGraphOf flows.now.names.rows.now m flows.now.before.now → IsGraphOf flows.now.rows.now w flows.now.after.now → local + 1 < 2 ^ 32 → flows.now.before.now.body ≤ local
        → IfOk result (λ lost. KeepsWholeBodies flows.now m w → (IsDisturbed flows.now.names.rows.now (body_flow flows.now.names.rows.now m flows.now.before.now.body) local → ⊥) → lost.def_use ≡ None) }
    ensures large { (m : Meaning) → tell.IsSeen old.now m → IfErr result (OnlyWhere (tell.HasLarge old.now.marks.rows.now m)) }
{
    let mut control = lost_control(alloc, flows)?;
    put_delayed(alloc, old, flows.before, local, &mut control)?;
    let mut lost = Firsts::none();
    let handing = Handing::none(alloc);
    put_lost_definitions(alloc, flows, &handing, &mut lost)?;
    put_disturbing(alloc, flows.names.rows, flows.before, local, &mut lost)?;
    Ok(LostFlow {
        control: first_of(old, control),
        def_use: first_of(old, lost),
    })
}

/// The graph of a body of a project.
pub(crate) fn graph_of(alloc: Global, project: &Project, body: u32) -> Result<Graph, FlowFault>
    ensures graph { (m : Meaning) → tell.IsSeen project.now m → body < length project.now.marks.rows.now → IfOk result (λ made. (made.body ≡ body) × IsGraphOf project.now.marks.rows.now m made) }
    ensures large { (m : Meaning) → tell.IsSeen project.now m → body < length project.now.marks.rows.now → IfErr result (OnlyWhere (tell.HasLarge project.now.marks.rows.now m)) }
{
    graph(alloc, &project.view, body)
}

/// The row is one of these.
pub(crate) fn is_row(rows: &[Row], row: u32) -> bool
    ensures { Decides result (row < length rows.now) }
{
    (row as usize) < rows.len()
}

/// What a table of copies or origins has for a row, if it is one of these rows.
pub(crate) fn row_among(all: &[u32], rows: &[Row], at: u32) -> Option<u32>
    ensures some { IfSome result (λ row. (row_by (origin_of all.now at) ≡ Some row) × (row < length rows.now)) }
    ensures none { (row : ℕ) → result ≡ None → row_by (origin_of all.now at) ≡ Some row → row < length rows.now → ⊥ }
{
    match row_for(all, at) {
        Some(row) => { if is_row(rows, row) { Some(row) } else { None } }
        None => None,
    }
}

// The statement, where it has no copy.
fn dropped(copy: &[u32], statement: u32) -> Option<u32>
    ensures { result ≡ tell.dropped_by (row_by (origin_of copy.now statement)) statement }
{
    match row_for(copy, statement) {
        Some(_) => None,
        None => Some(statement),
    }
}

// The statement is the declaration in which the local stands (JLS 14.4).
fn is_declaration(rows: &[Row], local: u32, statement: u32) -> bool
    ensures { Decides result (tree.parent rows.now local ≡ statement) }
{
    parent_at(rows, local) == statement
}

// The body in which a local stands, if the statement is its declaration.
fn declared_body(
    alloc: Global,
    rows: &[Row],
    local: u32,
    statement: u32,
) -> Result<Option<u32>, OutOfMemory>
    ensures round { length rows.now < 2 ^ 32 → IfOk result (λ found. IfSome found (λ body. tell.IsBodyRound rows.now local body × (tree.parent rows.now local ≡ statement))) }
    ensures none { length rows.now < 2 ^ 32 → IfOk result (λ found. found ≡ None → tree.parent rows.now local ≡ statement → (body : ℕ) → tell.IsBodyRound rows.now local body → ⊥) }
{
    if !is_declaration(rows, local, statement) {
        return Ok(None);
    }
    body_round(alloc, rows, local)
}

fn lost_by_inlining(
    alloc: Global,
    old: &Project,
    locked: &Project,
    locks: &Locks,
    local: u32,
    statement: u32,
) -> Result<LostFlow, FlowFault>
    ensures control { (m w : Meaning) → tell.IsSeen old.now m → tell.IsSeen locked.now w
        → IfOk result (λ lost. lost.control ≡ None → tell.KeepsInlinedControl old.now.marks.rows.now locked.now.marks.rows.now m w locks.now.origin.items locks.now.copy.items local statement) }
    ensures uses { (m w : Meaning) → tell.IsSeen old.now m → tell.IsSeen locked.now w
        → IfOk result (λ lost. lost.control ≡ None → lost.def_use ≡ None → tell.KeepsInlinedFlow old.now.marks.rows.now locked.now.marks.rows.now m w locks.now.origin.items locks.now.copy.items local statement) }
    ensures only_control { (m w : Meaning) → tell.IsSeen old.now m → tell.IsSeen locked.now w → (BeginsFirst old.now.marks.rows.now m local → ⊥)
        → IfOk result (λ lost. tell.KeepsInlinedControl old.now.marks.rows.now locked.now.marks.rows.now m w locks.now.origin.items locks.now.copy.items local statement → lost.control ≡ None) }
    ensures only_uses { (m w : Meaning) → tell.IsSeen old.now m → tell.IsSeen locked.now w
        → IfOk result (λ lost. tell.KeepsInlinedFlow old.now.marks.rows.now locked.now.marks.rows.now m w locks.now.origin.items locks.now.copy.items local statement → lost.def_use ≡ None) }
    ensures large { (m w : Meaning) → tell.IsSeen old.now m → tell.IsSeen locked.now w → IfErr result (OnlyWhere (tell.HasLarge old.now.marks.rows.now m ⊎ tell.HasLarge locked.now.marks.rows.now w)) }
{
    let Some(body) = declared_body(alloc, old.marks.rows, local, statement)? else {
        return Ok(lost_at(old, local));
    };
    let Some(copy) = row_among(&locks.copy, locked.marks.rows, body) else {
        return Ok(lost_at(old, local));
    };
    let names = Names {
        rows: old.marks.rows,
        body,
        dropped: dropped(&locks.copy, statement),
    };
    let before = graph_of(alloc, old, body)?;
    let after = graph_of(alloc, locked, copy)?;
    let flows = Flows {
        names,
        before: &before,
        rows: locked.marks.rows,
        after: &after,
        span: rows_of(locked.marks.rows, copy),
        origin: locks.origin.as_slice(),
    };
    lost_in_inlined(alloc, old, &flows, local)
}

fn lost_in_extracted(
    alloc: Global,
    old: &Project,
    flows: &Flows,
    inner: &Graph,
    call: u32,
    method: u32,
) -> Result<LostFlow, FlowFault>
    ensures control { (m w : Meaning) → IsGraphOf flows.now.names.rows.now m flows.now.before.now → IsJoinedGraph flows.now w call method → IsOldBody flows.now → method + 1 < 2 ^ 32
        → IfOk result (λ lost. lost.control ≡ None → KeepsJoined flows.now m w call method × KeepsJoinedReturns flows.now m method) }
    ensures uses { (m w : Meaning) → IsGraphOf flows.now.names.rows.now m flows.now.before.now → IsJoinedGraph flows.now w call method → IsMethodGraph flows.now.rows.now w inner.now method → IsOldBody flows.now → call + 1 < 2 ^ 32 → method + 1 < 2 ^ 32 → statement_round flows.now.rows.now call call + 1 < 2 ^ 32
        → IfOk result (λ lost. lost.control ≡ None → lost.def_use ≡ None → KeepsJoined flows.now m w call method × KeepsJoinedUses flows.now m w call method × KeepsJoinedValues flows.now w call method × KeepsJoinedReturns flows.now m method) }
    ensures only_control { (m w : Meaning) → IsGraphOf flows.now.names.rows.now m flows.now.before.now → IsJoinedGraph flows.now w call method → IsOldBody flows.now → method + 1 < 2 ^ 32
        → IfOk result (λ lost. KeepsJoined flows.now m w call method → KeepsJoinedReturns flows.now m method → lost.control ≡ None) }
    ensures only_uses { (m w : Meaning) → IsGraphOf flows.now.names.rows.now m flows.now.before.now → IsJoinedGraph flows.now w call method → IsMethodGraph flows.now.rows.now w inner.now method → (flows.now.after.now.body ≡ method → ⊥)
        → call + 1 < 2 ^ 32 → method + 1 < 2 ^ 32 → statement_round flows.now.rows.now call call + 1 < 2 ^ 32
        → HandsOnce flows.now.span flows.now.rows.now flows.now.after.now.points.items call method (origin_in flows.now.origin.now)
        → IfOk result (λ lost. KeepsJoinedUses flows.now m w call method → KeepsJoinedValues flows.now w call method → lost.def_use ≡ None) }
    ensures large { IfErr result (OnlyWhere ⊥) }
{
    let mut control = lost_control(alloc, flows)?;
    put_held_returns(alloc, flows, method, &mut control)?;
    let mut lost = Firsts::none();
    let handing = Handing::of(alloc, flows, call, method, &mut lost)?;
    put_lost_definitions(alloc, flows, &handing, &mut lost)?;
    put_lost_values(alloc, flows, inner, &handing, &mut lost)?;
    Ok(LostFlow {
        control: first_of(old, control),
        def_use: first_of(old, lost),
    })
}

// The rows of two ranges, and those between.
fn both(one: RowRange, other: RowRange) -> RowRange
    ensures first { (result.first ≤ one.first) × (result.first ≤ other.first) }
    ensures end { (one.end ≤ result.end) × (other.end ≤ result.end) }
{
    RowRange {
        first: one.first.min(other.first),
        end: one.end.max(other.end),
    }
}

// The graph of a body with that of the method in place of the call.
fn joined_graph(
    alloc: Global,
    locked: &Project,
    body: u32,
    call: u32,
    inner: &Graph,
) -> Result<Graph, FlowFault>
    ensures large { (w : Meaning) → tell.IsSeen locked.now w → body < length locked.now.marks.rows.now → IfErr result (OnlyWhere (tell.HasLarge locked.now.marks.rows.now w)) }
    ensures graph { (w : Meaning) (method : ℕ) → tell.IsSeen locked.now w → body < length locked.now.marks.rows.now → IsMethodGraph locked.now.marks.rows.now w inner.now method → (body ≡ method → ⊥)
        → IfOk result (λ made. (made.body ≡ body) × IsGraph (joined_flow locked.now.marks.rows.now w body call method) body made.points.items (steps_of made)) }
{
    let outer = graph_of(alloc, locked, body)?;
    let joined = joined(alloc, &outer, inner, call)?;
    Ok(joined)
}

// The method is another body than this.
fn is_apart(rows: &[Row], body: u32, method: u32) -> bool
    ensures row { result ≡ true → method < length rows.now }
    ensures apart { result ≡ true → body ≡ method → ⊥ }
    ensures all { method < length rows.now → (body ≡ method → ⊥) → result ≡ true }
{
    is_row(rows, method) && body != method
}

fn lost_by_extracting(
    alloc: Global,
    old: &Project,
    locked: &Project,
    locks: &Locks,
    call: u32,
    method: u32,
) -> Result<LostFlow, FlowFault>
    ensures control { (m w : Meaning) → tell.IsSeen old.now m → tell.IsSeen locked.now w
        → IfOk result (λ lost. lost.control ≡ None → tell.KeepsExtractedControl old.now.marks.rows.now locked.now.marks.rows.now m w locks.now.origin.items call method) }
    ensures uses { (m w : Meaning) → tell.IsSeen old.now m → tell.IsSeen locked.now w
        → IfOk result (λ lost. lost.control ≡ None → lost.def_use ≡ None → tell.KeepsExtractedFlow old.now.marks.rows.now locked.now.marks.rows.now m w locks.now.origin.items call method) }
    ensures only_control { (m w : Meaning) → tell.IsSeen old.now m → tell.IsSeen locked.now w
        → IfOk result (λ lost. tell.KeepsExtractedControl old.now.marks.rows.now locked.now.marks.rows.now m w locks.now.origin.items call method → lost.control ≡ None) }
    ensures only_uses { (m w : Meaning) → tell.IsSeen old.now m → tell.IsSeen locked.now w → tell.HandsByOne locked.now.marks.rows.now w locks.now.origin.items call method
        → IfOk result (λ lost. tell.KeepsExtractedFlow old.now.marks.rows.now locked.now.marks.rows.now m w locks.now.origin.items call method → lost.def_use ≡ None) }
    ensures large { (m w : Meaning) → tell.IsSeen old.now m → tell.IsSeen locked.now w → IfErr result (OnlyWhere (tell.HasLarge old.now.marks.rows.now m ⊎ tell.HasLarge locked.now.marks.rows.now w)) }
{
    let rows = locked.marks.rows;
    let Some(copy) = body_round(alloc, rows, call)? else {
        return Ok(lost_at(old, 0));
    };
    let Some(body) = row_among(&locks.origin, old.marks.rows, copy) else {
        return Ok(lost_at(old, 0));
    };
    if !is_apart(rows, copy, method) {
        return Ok(lost_at(old, 0));
    }
    let before = graph_of(alloc, old, body)?;
    let inner = graph_of(alloc, locked, method)?;
    let after = joined_graph(alloc, locked, copy, call, &inner)?;
    let flows = Flows {
        names: Names {
            rows: old.marks.rows,
            body,
            dropped: None,
        },
        before: &before,
        rows,
        after: &after,
        span: both(rows_of(rows, copy), rows_of(rows, method)),
        origin: locks.origin.as_slice(),
    };
    lost_in_extracted(alloc, old, &flows, &inner, call, method)
}

// What a course of statements loses.
fn lost_by_course(
    alloc: Global,
    old: &Project,
    locked: &Project,
    locks: &Locks,
    course: Course,
) -> Result<LostFlow, FlowFault>
    ensures control { (m w : Meaning) → tell.IsSeen old.now m → tell.IsSeen locked.now w
        → IfOk result (λ lost. lost.control ≡ None → tell.KeepsCourse course old.now.marks.rows.now locked.now.marks.rows.now m w locks.now.origin.items locks.now.copy.items) }
    ensures uses { (m w : Meaning) → tell.IsSeen old.now m → tell.IsSeen locked.now w
        → IfOk result (λ lost. lost.control ≡ None → lost.def_use ≡ None → tell.KeepsUsesOf course old.now.marks.rows.now locked.now.marks.rows.now m w locks.now.origin.items locks.now.copy.items) }
    ensures only_control { (m w : Meaning) → tell.IsSeen old.now m → tell.IsSeen locked.now w → (BeginsFirstIn course old.now.marks.rows.now m → ⊥)
        → IfOk result (λ lost. tell.KeepsCourse course old.now.marks.rows.now locked.now.marks.rows.now m w locks.now.origin.items locks.now.copy.items → lost.control ≡ None) }
    ensures only_uses { (m w : Meaning) → tell.IsSeen old.now m → tell.IsSeen locked.now w → tell.HandsByOneIn course locked.now.marks.rows.now w locks.now.origin.items
        → IfOk result (λ lost. tell.KeepsUsesOf course old.now.marks.rows.now locked.now.marks.rows.now m w locks.now.origin.items locks.now.copy.items → lost.def_use ≡ None) }
    ensures large { (m w : Meaning) → tell.IsSeen old.now m → tell.IsSeen locked.now w → IfErr result (OnlyWhere (tell.HasLarge old.now.marks.rows.now m ⊎ tell.HasLarge locked.now.marks.rows.now w)) }
{
    match course {
        Course::Same => Ok(nothing()),
        Course::Removed(_) => Ok(nothing()),
        Course::Inlined { local, statement } => {
            lost_by_inlining(alloc, old, locked, locks, local, statement)
        }
        Course::Extracted { call, method } => {
            lost_by_extracting(alloc, old, locked, locks, call, method)
        }
    }
}

// The first of two edges that there is.
fn first_edge(one: Option<LostEdge>, other: Option<LostEdge>) -> Option<LostEdge>
    ensures one { result ≡ None → one ≡ None }
    ensures other { result ≡ None → other ≡ None }
    ensures none { one ≡ None → other ≡ None → result ≡ None }
{
    match one {
        Some(edge) => Some(edge),
        None => other,
    }
}

// What is lost in one way and in another.
fn both_lost(one: LostFlow, other: LostFlow) -> LostFlow
    ensures control { result.control ≡ None → (one.control ≡ None) × (other.control ≡ None) }
    ensures def_use { result.def_use ≡ None → (one.def_use ≡ None) × (other.def_use ≡ None) }
    ensures no_control { one.control ≡ None → other.control ≡ None → result.control ≡ None }
    ensures no_use { one.def_use ≡ None → other.def_use ≡ None → result.def_use ≡ None }
{
    LostFlow {
        control: first_edge(one.control, other.control),
        def_use: first_edge(one.def_use, other.def_use),
    }
}

/// The first edge of control and the first edge from a definition to a use that the change loses, where `locked` is the changed program under its locks,
/// before names are spelled. Nodes are named by what they are copies of, and what is added is passed over.
///
/// A change that leaves each body as it is, or takes whole ones away, loses none. A method that goes to the superclass of its class keeps the edges of its
/// body; where it is static, a call of it that may begin the initialization of its class begins it no more. Where a local is replaced by its initializer,
/// each event stands once, and no local that is used in the initializer gets another value before a use of the replaced one, nor does any other where the
/// initializer may throw, and no creation that has it among its arguments may begin the initialization of a class. Where statements go into a method of
/// their own, the points of the method stand in place of its call, each `return` among them completes the body at once, and no value of a local is used
/// outside the method that is not handed back.
pub fn lost_flow(
    alloc: Global,
    old: &Project,
    locked: &Project,
    locks: &Locks,
    change: &Change,
) -> Result<LostFlow, FlowFault>
    ensures control { (m w : Meaning) → tell.IsSeen old.now m → tell.IsSeen locked.now w
        → IfOk result (λ lost. lost.control ≡ None → tell.KeepsCourse change.now.course old.now.marks.rows.now locked.now.marks.rows.now m w locks.now.origin.items locks.now.copy.items) }
    ensures uses { (m w : Meaning) → tell.IsSeen old.now m → tell.IsSeen locked.now w
        → IfOk result (λ lost. lost.control ≡ None → lost.def_use ≡ None → tell.KeepsUsesOf change.now.course old.now.marks.rows.now locked.now.marks.rows.now m w locks.now.origin.items locks.now.copy.items) }
    ensures raised { (m w : Meaning) → tell.IsSeen old.now m → tell.IsSeen locked.now w
        → IfOk result (λ lost. lost.control ≡ None → tell.KeepsRaisedControl change.now.raised old.now.marks.rows.now locked.now.marks.rows.now m w locks.now.origin.items locks.now.copy.items) }
    ensures raised_uses { (m w : Meaning) → tell.IsSeen old.now m → tell.IsSeen locked.now w
        → IfOk result (λ lost. lost.control ≡ None → lost.def_use ≡ None → tell.KeepsRaisedFlow change.now.raised old.now.marks.rows.now locked.now.marks.rows.now m w locks.now.origin.items locks.now.copy.items) }
    ensures only_control { (m w : Meaning) → tell.IsSeen old.now m → tell.IsSeen locked.now w → (LeavesStartIn change.now.raised old.now.marks.rows.now m → ⊥) → (BeginsFirstIn change.now.course old.now.marks.rows.now m → ⊥)
        → IfOk result (λ lost. tell.KeepsCourse change.now.course old.now.marks.rows.now locked.now.marks.rows.now m w locks.now.origin.items locks.now.copy.items
        → tell.KeepsRaisedControl change.now.raised old.now.marks.rows.now locked.now.marks.rows.now m w locks.now.origin.items locks.now.copy.items → lost.control ≡ None) }
    ensures only_uses { (m w : Meaning) → tell.IsSeen old.now m → tell.IsSeen locked.now w → tell.HandsByOneIn change.now.course locked.now.marks.rows.now w locks.now.origin.items
        → IfOk result (λ lost. tell.KeepsUsesOf change.now.course old.now.marks.rows.now locked.now.marks.rows.now m w locks.now.origin.items locks.now.copy.items
        → tell.KeepsRaisedFlow change.now.raised old.now.marks.rows.now locked.now.marks.rows.now m w locks.now.origin.items locks.now.copy.items → lost.def_use ≡ None) }
    ensures large { (m w : Meaning) → tell.IsSeen old.now m → tell.IsSeen locked.now w → IfErr result (OnlyWhere (tell.HasLarge old.now.marks.rows.now m ⊎ tell.HasLarge locked.now.marks.rows.now w)) }
{
    let raised = lost_by_raising(alloc, old, locked, locks, change.raised)?;
    let ordered = lost_by_course(alloc, old, locked, locks, change.course)?;
    Ok(both_lost(raised, ordered))
}
