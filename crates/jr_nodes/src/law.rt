// The law of numbers.
ghost use Rattle.std.specs.Prelude.{◌≡◌, ℕ, ◌+◌, ◌∷◌, Some, slice_get, sum_by, take};
ghost use Rattle.jr_tree.specs.declared.tree.Unit as tree;
ghost use Rattle.jr_tree.specs.Mirror.Decls.{plain_unit};
ghost use Rattle.jr_tree.specs.Nodes.{Node, Nodes, OfUnit, nodes, each};
ghost use Rattle.jr_nodes.specs.Subtree.{StandsAt, children, size, subtree};

/// Numbers follow the tree: a subtree is its node and then the subtrees of the node's children, in order. A unit has number 0, and a
/// child's number is its parent's, plus one, plus the sizes of the subtrees of the children before it.
pub fn numbers_follow_the_tree()
    ensures preorder { (node : Node) → subtree node ≡ node ∷ each subtree (children node) }
    ensures sizes { (node : Node) → size node ≡ 1 + sum_by size (children node) }
    ensures first { (unit : tree.Unit) → StandsAt (nodes unit) 0 (OfUnit (plain_unit unit)) }
    ensures found { (all : Nodes) (number : ℕ) (node : Node) → StandsAt all number node → slice_get all number ≡ Some node }
    ensures child { (all : Nodes) (number k : ℕ) (parent node : Node) → StandsAt all number parent → slice_get (children parent) k ≡ Some node
        → StandsAt all (number + 1 + sum_by size (take k (children parent))) node }
{}
