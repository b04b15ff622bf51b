// Rows of a program with the numbers of its units and nodes.
ghost use Rattle.std.specs.Prelude.{◌≡◌, ◌⊎◌, ◌+◌, ◌<◌, ◌≤◌, ◌^◌, IfOk, MatchOption, length, map, slice_index};
ghost use Rattle.std.specs.List.{AllByRecursion};
ghost use Rattle.jr_tree.specs.Shape.{IsShaped};
ghost use Rattle.jr_tree.specs.Labels.{nodes_of};
ghost use Rattle.jr_tree.specs.Rows.{row, end, label, program_rows};
ghost use Rattle.jr_tree.specs.Tree.{IsTree};
ghost use Rattle.jr_index.specs.NodeRows.{IsIndex, IsNodeOf, IsNowhere, IsNearest, IsParentNode, over_nth, counts, unit_rows};
ghost use Rattle.jr_index.specs.Marking.{program_marks};
ghost use Rattle.jr_index.specs.Within.{AreWithin};

use crate::mark::Mark;
use crate::marked_rows_of;
use jr_base::{NodeAt, NodeId, OutOfMemory};
use jr_defs::Program;
use jr_tree::{Label, NamePlace, ReceiverKind, Row};
use std::alloc::Global;
use std::marker::Model;

/// The rows of a program and their marks, seen by contracts as these, and tables of the units and nodes that the rows stand for.
#[derive(Drop)]
pub struct Index {
    rows: Vec<Row>,
    /// Where each row stands among the tokens of its unit.
    marks: Vec<Mark>,
    /// How many nodes stand before each row, and then in all of them.
    nodes: Vec<u32>,
    /// The rows of the units.
    units: Vec<u32>,
}

impl Model for Index {
    ghost use Rattle.jr_index.specs.Marking.{Marked};
    ghost use Rattle.jr_index.specs.NodeRows.{IsIndex};
    ghost use Rattle.jr_index.specs.Within.{AreWithin};

    ghost Value = { Marked };

    ghost view = { λ index. record { rows = index.rows.items; marks = index.marks.items } };

    ghost invariant = { λ index. IsIndex index.rows.items index.nodes.items index.units.items × AreWithin index.rows.items index.marks.items };
}

/// One of the nodes that a row stands for, with the number of those before it.
#[derive(Clone, Copy, Debug, PartialEq, Eq)]
pub struct NodeOfRow {
    pub row: u32,
    pub nth: u32,
}

impl Index {
    /// The index of a program whose units are shaped.
    pub fn build(alloc: Global, program: &Program) -> Result<Index, OutOfMemory>
        requires { AllByRecursion IsShaped (map (λ u. u.unit) program.now.units) }
        ensures rows { IfOk result (λ index. index.rows ≡ program_rows (map (λ u. u.unit) program.now.units)) }
        ensures marks { IfOk result (λ index. index.marks ≡ program_marks (map (λ u. u.unit) program.now.units)) }
    {
        let marked = marked_rows_of(alloc, program)?;
        let Ok(_) = u32::try_from(marked.rows.len()) else {
            return Err(OutOfMemory);
        };
        let nodes = counts_of(alloc, &marked.rows)?;
        let units = units_of(alloc, &marked.rows)?;
        Ok(Index {
            rows: marked.rows,
            marks: marked.marks,
            nodes,
            units,
        })
    }

    /// The rows, of which the first is the program.
    pub fn rows(&self) -> &[Row]
        ensures rows { result.now ≡ self.now.rows }
        ensures few { length result.now < 2 ^ 32 }
    {
        &self.rows
    }

    /// A mark for each row, inside that of the row over it.
    pub fn marks(&self) -> &[Mark]
        ensures marks { result.now ≡ self.now.marks }
        ensures within { AreWithin self.now.rows result.now }
    {
        &self.marks
    }

    /// The rows of the units.
    pub fn units(&self) -> &[u32]
        ensures { result.now ≡ unit_rows self.now.rows (length self.now.rows) }
    {
        &self.units
    }

    /// The row that stands for a node. `None` where the program has no such node.
    pub fn find(&self, node: NodeAt) -> Option<NodeOfRow>
        ensures { MatchOption result (IsNowhere self.now.rows node) (λ found. IsNodeOf self.now.rows found.row found.nth node) }
    {
        find_row(&self.rows, &self.nodes, &self.units, node)
    }

    /// The node right above a node. `None` for the node of a unit, and where the program has no such node.
    pub fn parent(&self, node: NodeAt) -> Option<NodeAt>
        ensures { MatchOption result ((node.node.0 ≡ 0) ⊎ IsNowhere self.now.rows node) (λ up. (0 < node.node.0) × IsParentNode self.now.rows node up) }
    {
        let found = self.find(node)?;
        if node.node.0 == 0 {
            return None;
        }
        if found.nth > 0 {
            return Some(NodeAt {
                cu: node.cu,
                node: NodeId(node.node.0 - 1),
            });
        }
        Some(above_first(&self.rows, &self.nodes, &self.units, node, found.row))
    }
}

// The row that stands for a node, by the tables.
fn find_row(rows: &[Row], nodes: &[u32], units: &[u32], node: NodeAt) -> Option<NodeOfRow>
    requires { IsIndex rows.now nodes.now units.now }
    ensures { MatchOption result (IsNowhere rows.now node) (λ found. IsNodeOf rows.now found.row found.nth node) }
{
    let known = node.cu.0 as usize;
    if known >= units.len() {
        return None;
    }
    let unit = units[known];
    let end = row_at(rows, unit).end;
    let first = nodes[unit as usize];
    if node.node.0 >= nodes[end as usize] - first {
        return None;
    }
    let number = first + node.node.0;
    let row = place_of(nodes, unit, end, number);
    Some(NodeOfRow {
        row,
        nth: number - nodes[row as usize],
    })
}

// The node right above the first node of a row.
fn above_first(rows: &[Row], nodes: &[u32], units: &[u32], node: NodeAt, row: u32) -> NodeAt
    requires index { IsIndex rows.now nodes.now units.now }
    requires first { IsNodeOf rows.now row 0 node }
    requires inside { 0 < node.node.0 }
    ensures { IsParentNode rows.now node result }
{
    let unit = units[node.cu.0 as usize];
    let over = nearest(rows, unit, row_at(rows, row).parent);
    let nth = nth_over(&row_at(rows, over).label, row == over + 1);
    NodeAt {
        cu: node.cu,
        node: NodeId(nodes[over as usize] - nodes[unit as usize] + nth),
    }
}

fn row_at(rows: &[Row], at: u32) -> &Row
    requires { at < length rows.now }
    ensures { result.now ≡ row rows.now at }
{
    &rows[at as usize]
}

/// How many nodes of its tree a row stands for.
pub fn node_count(label: &Label) -> u32
    ensures { result ≡ nodes_of label.now }
{
    match label {
        Label::Program => 0,
        Label::Name { place, .. } => match place {
            NamePlace::Qualifier => 0,
            NamePlace::Expression => 2,
            NamePlace::Receiver => 2,
            _ => 1,
        },
        Label::Class { is_member, .. } => 1 + *is_member as u32,
        Label::Interface { is_member, .. } => 1 + *is_member as u32,
        Label::EmptyDecl { is_member } => 1 + *is_member as u32,
        Label::Body => 0,
        Label::DefaultConstructor => 0,
        Label::ImplicitCall => 0,
        Label::Case => 0,
        Label::Default => 0,
        Label::Call { receiver } => match receiver {
            ReceiverKind::Expression => 2,
            ReceiverKind::Super => 2,
            _ => 1,
        },
        _ => 1,
    }
}

// Which node of a row stands right above the nodes of a row below, which may be the first one there.
fn nth_over(label: &Label, is_first: bool) -> u32
    ensures { result ≡ over_nth label.now is_first }
{
    match label {
        Label::Class { is_member, .. } => *is_member as u32,
        Label::Interface { is_member, .. } => *is_member as u32,
        Label::Call {
            receiver: ReceiverKind::Expression,
        } => is_first as u32,
        _ => 0,
    }
}

// How many nodes stand before each row, and then in all of them.
fn counts_of(alloc: Global, rows: &[Row]) -> Result<Vec<u32>, OutOfMemory>
    ensures { IfOk result (λ all. all.items ≡ counts rows.now (length rows.now)) }
{
    let mut all = Vec::new(alloc);
    let mut count: u32 = 0;
    all.push(count)?;
    for row in rows {
        let Some(next) = count.checked_add(node_count(&row.label)) else {
            return Err(OutOfMemory);
        };
        count = next;
        all.push(count)?;
    }
    Ok(all)
}

// The rows of the units.
fn units_of(alloc: Global, rows: &[Row]) -> Result<Vec<u32>, OutOfMemory>
    requires { length rows.now < 2 ^ 32 }
    ensures { IfOk result (λ all. all.items ≡ unit_rows rows.now (length rows.now)) }
{
    let mut all = Vec::new(alloc);
    for (at, row) in rows.iter().enumerate() {
        if let Label::Unit = row.label {
            all.push(at as u32)?;
        }
    }
    Ok(all)
}

// The place whose number is not above this one, where the number behind it is.
fn place_of(numbers: &[u32], from: u32, to: u32, number: u32) -> u32
    requires order { from < to }
    requires inside { to < length numbers.now }
    requires low { slice_index numbers.now from ≤ number }
    requires high { number < slice_index numbers.now to }
    ensures from { from ≤ result }
    ensures to { result < to }
    ensures low { slice_index numbers.now result ≤ number }
    ensures high { number < slice_index numbers.now (result + 1) }
{
    let mut low = from;
    let mut high = to;
    while high - low > 1 {
        let middle = low + (high - low) / 2;
        if numbers[middle as usize] <= number {
            low = middle;
        } else {
            high = middle;
        }
    }
    low
}

// The first row that stands for nodes, from this one upwards, in the unit of that row.
fn nearest(rows: &[Row], unit: u32, from: u32) -> u32
    requires tree { IsTree rows.now }
    requires node { 0 < nodes_of (label rows.now unit) }
    requires inside { unit ≤ from }
    requires before { from < end rows.now unit }
    requires there { unit < length rows.now }
    ensures is { IsNearest rows.now from result }
    ensures inside { unit ≤ result }
    ensures before { result ≤ from }
{
    let mut at = from;
    while node_count(&row_at(rows, at).label) == 0 {
        at = row_at(rows, at).parent;
    }
    at
}
