// The nodes by which declarations are known.
ghost use Rattle.std.specs.Prelude.{◌≡◌, IfOk, length};
ghost use Rattle.jr_tree.specs.Rows as rows_of;
ghost use Rattle.jr_plain.specs.Modifiers as modifiers;
ghost use Rattle.jr_codes.specs.Reads.{node_at, decl_at};
ghost use Rattle.jr_codes.specs.Numbered as numbered;

use jr_base::{CuId, DeclId, NodeAt, NodeId, OutOfMemory};
use jr_index::node_count;
use jr_places::{parent_at, role_at};
use jr_tree::{Label, Role, Row};
use std::alloc::Global;

/// The nodes of the rows of a program, by which a core knows its declarations.
#[derive(Drop)]
pub struct Ids {
    nodes: Vec<NodeAt>,
}

/// Which of its nodes declares what the row declares: the type itself, not the member that holds it.
fn declaring_node(label: &Label) -> u32
    ensures { result ≡ numbered.declaring label.now }
{
    match label {
        Label::Class { is_member, .. } => *is_member as u32,
        Label::Interface { is_member, .. } => *is_member as u32,
        _ => 0,
    }
}

/// What was counted before a row.
#[derive(Clone, Copy)]
struct Count {
    /// The unit that was begun last.
    unit: u32,
    /// How many units were begun.
    units: u32,
    /// How many nodes of the unit stand before.
    node: u32,
}

/// At a row, which may be a unit.
fn entered(label: &Label, count: Count) -> Count
    ensures { result ≡ numbered.entered label.now count }
{
    match label {
        Label::Unit => Count {
            unit: count.units,
            units: count.units.saturating_add(1),
            node: 0,
        },
        _ => count,
    }
}

/// The node of a declaration at the row.
fn declared(label: &Label, count: Count) -> NodeAt
    ensures { result ≡ numbered.node_of label.now count }
{
    NodeAt {
        cu: CuId(count.unit),
        node: NodeId(count.node.saturating_add(declaring_node(label))),
    }
}

/// Behind the nodes of the row itself.
fn passed(label: &Label, count: Count) -> Count
    ensures { result ≡ numbered.passed label.now count }
{
    Count {
        unit: count.unit,
        units: count.units,
        node: count.node.saturating_add(node_count(label)),
    }
}

fn is_default_constructor(rows: &[Row], at: u32) -> bool
    ensures { result ≡ modifiers.is_default_constructor (rows_of.label rows.now at) }
{
    match rows.get(at as usize) {
        Some(row) => match row.label {
            Label::DefaultConstructor => true,
            _ => false,
        },
        None => false,
    }
}

/// The nodes of the rows, which are counted from the first one on.
fn nodes_of_rows(alloc: Global, rows: &[Row]) -> Result<Vec<NodeAt>, OutOfMemory>
    ensures { IfOk result (λ nodes. nodes.items ≡ numbered.counted_nodes rows.now (length rows.now)) }
{
    let mut nodes = Vec::new(alloc);
    let mut count = Count {
        unit: 0,
        units: 0,
        node: 0,
    };
    for row in rows {
        count = entered(&row.label, count);
        nodes.push(declared(&row.label, count))?;
        count = passed(&row.label, count);
    }
    Ok(nodes)
}

impl Ids {
    /// The nodes of the rows.
    pub fn of(alloc: Global, rows: &[Row]) -> Result<Ids, OutOfMemory>
        ensures { IfOk result (λ ids. numbered.NumbersDeclarations rows.now ids.nodes.items) }
    {
        let nodes = nodes_of_rows(alloc, rows)?;
        Ok(Ids { nodes })
    }

    fn node(&self, at: u32) -> NodeAt
        ensures { result ≡ node_at self.now.nodes.items at }
    {
        match self.nodes.get(at as usize) {
            Some(node) => *node,
            None => NodeAt {
                cu: CuId(u32::MAX),
                node: NodeId(u32::MAX),
            },
        }
    }

    /// The declaration at a row. A constructor that is not written is part 1 of its class.
    #[tactic(auto, using(crate::proofs::Folding::own_decl, crate::proofs::Folding::other_decl))]
    pub fn decl(&self, rows: &[Row], at: u32) -> DeclId
        ensures { result ≡ decl_at self.now.nodes.items rows.now at }
    {
        if is_default_constructor(rows, at) {
            DeclId {
                at: self.node(parent_at(rows, parent_at(rows, at))),
                part: 1,
            }
        } else {
            DeclId {
                at: self.node(at),
                part: 0,
            }
        }
    }

    /// The row of a declaration.
    pub fn find(&self, rows: &[Row], decl: DeclId) -> Option<u32> {
        let Ok(count) = u32::try_from(rows.len()) else {
            return None;
        };
        for at in 0..count {
            if role_at(rows, at) != Role::Nothing && self.decl(rows, at) == decl {
                return Some(at);
            }
        }
        None
    }
}
