// A search that passes over the nodes of a unit in preorder.
ghost use Rattle.std.specs.Prelude.{◌≡◌};
ghost use Rattle.jr_nodes.specs.Progress.{past, progress};
ghost use Rattle.jr_nodes.specs.Seen.{seen};

use crate::node_ref::NodeRef;

/// How far a search has come.
#[derive(Clone, Copy)]
pub enum Search<'a> {
    Found(NodeRef<'a>),
    /// This many nodes are still to be passed before the one that is sought.
    Ahead(u32),
}

/// The search past `node`.
pub fn step<'a>(state: Search<'a>, node: NodeRef<'a>) -> Search<'a>
    ensures { progress result ≡ past (seen node.entry) (progress state.entry) }
{
    match state {
        Search::Found(found) => Search::Found(found),
        Search::Ahead(0) => Search::Found(node),
        Search::Ahead(ahead) => Search::Ahead(ahead - 1),
    }
}
