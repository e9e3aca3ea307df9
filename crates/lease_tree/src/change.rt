ghost use Rattle.std.specs.Prelude.{◌≡◌, ◌+◌, ◌-◌, ◌^◌, ◌<◌, find, length, IfSome, IfNone, Some, None};
ghost use Rattle.lease_tree.specs.Keys.{Rising, key_of, has_key, IsAdded, IsTaken};
ghost use Rattle.lease_tree.specs.Trees.{leases_of, IsSized, IsBalanced};

use crate::balance::{append, is_heavy, is_light, rebalance, replace_root};
use crate::keys::{Key, Order};
use crate::node::{Node, Tree, join};
use std::mem;

/// Puts the node where its lease belongs.
#[tactic(auto)]
pub fn insert(tree: &mut Tree, order: Order, node: Box<Node>)
    ensures added { IsAdded (leases_of tree.old) (leases_of tree.new) node.value.lease }
    ensures rising { Rising order (leases_of tree.old) → find (has_key order (key_of order node.value.lease)) (leases_of tree.old) ≡ None → Rising order (leases_of tree.new) }
    ensures sized { IsSized tree.old → IsSized tree.new }
    ensures balanced { IsSized tree.old → length (leases_of tree.old) < 2 ^ 32 - 1 → IsBalanced tree.old → IsBalanced tree.new }
{
    let Tree::Fork(root) = tree else {
        *tree = join(Tree::Leaf, node, Tree::Leaf);
        return;
    };
    root.size = root.size.saturating_add(1);
    if order.key(node.lease).is_before(order.key(root.lease)) {
        insert(&mut root.left, order, node);
        if is_heavy(&root.left, root.size) {
            rebalance(tree);
        }
    } else {
        insert(&mut root.right, order, node);
        if is_heavy(&root.right, root.size) {
            rebalance(tree);
        }
    }
}

/// Takes out the node of the lease that stands there, if one does.
#[tactic(auto)]
pub fn remove(tree: &mut Tree, order: Order, key: Key) -> Option<Box<Node>>
    ensures same { IfNone result (leases_of tree.new ≡ leases_of tree.old) }
    ensures none { Rising order (leases_of tree.old) → IfNone result (find (has_key order key) (leases_of tree.old) ≡ None) }
    ensures taken { IfSome result (λ node. IsTaken (leases_of tree.old) (leases_of tree.new) node.value.lease) }
    ensures lease { Rising order (leases_of tree.old) → IfSome result (λ node. find (has_key order key) (leases_of tree.old) ≡ Some node.value.lease) }
    ensures sized { IsSized tree.old → length (leases_of tree.old) < 2 ^ 32 → IsSized tree.new }
    ensures balanced { IsSized tree.old → length (leases_of tree.old) < 2 ^ 32 → IsBalanced tree.old → IsBalanced tree.new }
{
    let Tree::Fork(root) = tree else {
        return None;
    };
    let here = order.key(root.lease);
    if key.is_before(here) {
        let taken = remove(&mut root.left, order, key)?;
        root.size = root.size.saturating_sub(1);
        if is_light(&root.left, root.size) {
            rebalance(tree);
        }
        return Some(taken);
    }
    if here.is_before(key) {
        let taken = remove(&mut root.right, order, key)?;
        root.size = root.size.saturating_sub(1);
        if is_light(&root.right, root.size) {
            rebalance(tree);
        }
        return Some(taken);
    }
    let left = mem::replace(&mut root.left, Tree::Leaf);
    let right = mem::replace(&mut root.right, Tree::Leaf);
    replace_root(tree, append(left, right))
}
