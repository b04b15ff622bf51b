// Names of the nodes of a body, by rows of the old program.
ghost use Rattle.std.specs.Prelude.{◌≡◌, ◌≤◌, Some, IfOk, nat_eq, if◌then◌else◌, option_map, option_and_then};
ghost use Rattle.std.specs.Option.{option_eq};
ghost use Rattle.jr_tree.specs.Rows.{label};
ghost use Rattle.jr_flow_defs.specs.Edges.{FlowNode, Naming, node_of_point};
ghost use Rattle.jr_flow_defs.specs.Kept as kept;
ghost use Rattle.jr_kept.specs.Named.{no_name, IsNameOf, AreNames, old_naming, new_naming};

use jr_base::OutOfMemory;
use jr_flow::{Graph, Point, PointKind};
use jr_locks::row_for;
use jr_places::{end_at, parent_at};
use jr_tree::{Label, NamePlace, Row};
use std::alloc::Global;

/// The name of what is no node, or of one that is passed over.
pub(crate) const NO_NAME: u32 = u32::MAX;
/// The name of the entry.
const ENTRY: u32 = 0;
/// The name of the exit, by completing or by a throw.
const EXIT: u32 = 1;
/// The name of the body's own row; those of the others come behind.
const FIRST_ROW: u32 = 2;

/// The names of the nodes of a body: of its entry, its exit and its rows.
#[derive(Clone, Copy)]
pub(crate) struct Names<'a> {
    pub(crate) rows: &'a [Row],
    pub(crate) body: u32,
    /// The statement of the declaration that is gone, if one is: it has no name.
    pub(crate) dropped: Option<u32>,
}

fn is_qualifier(rows: &[Row], at: u32) -> bool
    ensures { result ≡ kept.is_qualifier (label rows.now at) }
{
    match rows.get(at as usize) {
        Some(row) => match row.label {
            Label::Name {
                place: NamePlace::Qualifier,
                ..
            } => true,
            _ => false,
        },
        None => false,
    }
}

/// The row of the node that acts at a row: the identifiers of a name are one node.
fn node_of(rows: &[Row], row: u32) -> u32
    ensures { result ≡ kept.whole_name rows.now row row }
{
    let mut at = row;
    for _turn in 0..row {
        if !is_qualifier(rows, at) {
            return at;
        }
        at = parent_at(rows, at);
    }
    at
}

// The name of the node that acts at a row of the body. A row out of the body has none, so there is nothing to tell.
fn name_of_node(node: u32, body: u32, count: u32) -> Result<u32, OutOfMemory>
    ensures { IfOk result (λ name. IsNameOf body count name (Some (FlowNode.acting node))) }
{
    let Some(place) = node.checked_sub(body) else {
        return Err(OutOfMemory);
    };
    let Some(name) = place.checked_add(FIRST_ROW) else {
        return Err(OutOfMemory);
    };
    if name >= count {
        return Err(OutOfMemory);
    }
    Ok(name)
}

/// The row is this one.
pub(crate) fn is_same(found: Option<u32>, row: u32) -> bool
    ensures { result ≡ option_eq nat_eq found (Some row) }
{
    match found {
        Some(at) => at == row,
        None => false,
    }
}

impl<'a> Names<'a> {
    /// How many names there are.
    pub(crate) fn count(&self) -> u32
        ensures { 2 ≤ result }
    {
        end_at(self.rows, self.body)
            .saturating_sub(self.body)
            .saturating_add(FIRST_ROW)
    }

    /// The row by which a node is numbered: for entry and exit that of the body.
    pub(crate) fn row(&self, name: u32) -> u32 {
        self.body.saturating_add(name.saturating_sub(FIRST_ROW))
    }

    /// The name of the node of an old row.
    fn of_row(&self, row: u32, count: u32) -> Result<u32, OutOfMemory>
        ensures { IfOk result (λ name. IsNameOf self.now.body count name (option_map FlowNode.acting (old_naming self.now row))) }
    {
        if is_same(self.dropped, row) {
            return Ok(NO_NAME);
        }
        name_of_node(node_of(self.rows, row), self.body, count)
    }

    // The name of a point in the graph of a body, where its row is a copy of this old one.
    fn of_point(
        &self,
        point: Point,
        body: u32,
        origin: Option<u32>,
        count: u32,
    ) -> Result<u32, OutOfMemory>
        ensures { (naming : Naming) → naming point.row ≡ option_and_then (old_naming self.now) origin → 2 ≤ count → IfOk result (λ name. IsNameOf self.now.body count name (node_of_point body naming point)) }
    {
        match point.kind {
            PointKind::Node => match origin {
                Some(row) => self.of_row(row, count),
                None => Ok(NO_NAME),
            },
            PointKind::Entry => Ok(name_or_none(ENTRY, point.row == body)),
            PointKind::Exit => Ok(name_or_none(EXIT, point.row == body)),
            PointKind::Thrown => Ok(name_or_none(EXIT, point.row == body)),
            PointKind::Definition { .. } => Ok(NO_NAME),
            PointKind::Use { .. } => Ok(NO_NAME),
        }
    }

    /// The names of the points of the old graph, out of so many.
    pub(crate) fn of_old(
        &self,
        alloc: Global,
        graph: &Graph,
        count: u32,
    ) -> Result<Vec<u32>, OutOfMemory>
        ensures { 2 ≤ count → IfOk result (λ names. AreNames self.now.body count (old_naming self.now) graph.now.body graph.now.points.items names.items) }
    {
        let mut all = Vec::new(alloc);
        for point in &graph.points {
            all.push(self.of_point(*point, graph.body, Some(point.row), count)?)?;
        }
        Ok(all)
    }

    /// The names of the points of the graph of the changed program. What comes from no old row has none, and neither have the entry and the exits of
    /// another method.
    pub(crate) fn of_new(
        &self,
        alloc: Global,
        graph: &Graph,
        origin: &[u32],
        count: u32,
    ) -> Result<Vec<u32>, OutOfMemory>
        ensures { 2 ≤ count → IfOk result (λ names. AreNames self.now.body count (new_naming self.now origin.now) graph.now.body graph.now.points.items names.items) }
    {
        let mut all = Vec::new(alloc);
        for point in &graph.points {
            all.push(self.of_point(*point, graph.body, row_for(origin, point.row), count)?)?;
        }
        Ok(all)
    }
}

fn name_or_none(name: u32, has_name: bool) -> u32
    ensures { result ≡ (if has_name then name else no_name) }
{
    if has_name { name } else { NO_NAME }
}
