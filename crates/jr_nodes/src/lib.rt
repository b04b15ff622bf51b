//! A node of a unit by its number, and how the numbers of nodes follow the tree.
#![tactic(auto)]

ghost use Rattle.std.specs.Prelude.{◌≡◌, slice_get};
ghost use Rattle.std.specs.Option.{option_map};
ghost use Rattle.jr_tree.specs.Nodes.{nodes};
ghost use Rattle.jr_nodes.specs.Seen.{seen};

mod decl;
mod expr;
mod law;
mod node_ref;
mod search;
mod stmt;
mod words;

use crate::decl::in_unit;
use crate::search::Search;
use jr_base::NodeId;
use jr_tree::Unit;
pub use law::numbers_follow_the_tree;
pub use node_ref::NodeRef;

/// The node with this number in preorder, from 0. None exactly where the number is not below the unit's count of nodes. Takes time linear in that count.
pub fn node<'a>(unit: &'a Unit, id: NodeId) -> Option<NodeRef<'a>>
    ensures { option_map seen result ≡ slice_get (nodes unit.now) id.0 }
{
    match in_unit(Search::Ahead(id.0), unit) {
        Search::Found(found) => Some(found),
        Search::Ahead(_) => None,
    }
}
