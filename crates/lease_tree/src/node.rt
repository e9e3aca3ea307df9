ghost use Rattle.std.specs.Prelude.{◌≡◌, ◌+◌, ◌-◌, ◌^◌, ◌≤◌, ◌++◌, ◌∷◌, length, min};
ghost use Rattle.lease_tree.specs.Trees.{leases_of, IsSized, IsEven, IsBalanced};

use farm_model::Lease;

/// A search tree of leases.
#[cycle(tree)]
#[derive(Drop)]
pub enum Tree {
    Leaf,
    Fork(Box<Node>),
}

/// A lease, and the trees of those before it and of those after it.
#[cycle(tree)]
#[derive(Drop)]
pub struct Node {
    pub lease: Lease,
    /// How many leases there are in the tree of which this is the root.
    pub size: u32,
    pub left: Tree,
    pub right: Tree,
}

/// How many leases there are, at most 2^32 - 1.
pub fn size(tree: &Tree) -> u32
    ensures { IsSized tree.now → result ≡ min (length (leases_of tree.now)) (2 ^ 32 - 1) }
{
    match tree {
        Tree::Leaf => 0,
        Tree::Fork(node) => node.size,
    }
}

/// A tree whose root is the node.
pub fn join(left: Tree, mut node: Box<Node>, right: Tree) -> Tree
    ensures leases { leases_of result ≡ leases_of left ++ node.value.lease ∷ leases_of right }
    ensures sized { IsSized left → IsSized right → IsSized result }
    ensures balanced { IsEven (length (leases_of left)) (length (leases_of right)) → IsBalanced left → IsBalanced right → IsBalanced result }
{
    node.size = size(&left).saturating_add(size(&right)).saturating_add(1);
    node.left = left;
    node.right = right;
    Tree::Fork(node)
}
