ghost use Rattle.std.specs.Prelude.{◌≡◌, ◌+◌, ◌-◌, ◌^◌, ◌*◌, ◌<◌, ◌≤◌, ◌++◌, ◌∷◌, [], length, min, nat_lt, IfSome, IfNone, Some, None};
ghost use Rattle.lease_tree.specs.Trees.{leases_of, IsSized, IsEven, IsNearlyEven, IsHeavier, IsBalanced, IsNearlyBalanced, root_lease};

use crate::node::{Node, Tree, join, size};
use std::mem;

/// One more than the number of leases.
fn weight(tree: &Tree) -> u64
    ensures few { result ≤ 2 ^ 32 }
    ensures value { IsSized tree.now → result ≡ min (length (leases_of tree.now)) (2 ^ 32 - 1) + 1 }
{
    size(tree) as u64 + 1
}

/// A tree whose right side is not too heavy any more: the right tree's root comes up, or where the inner
/// side of that tree is the heavy one, that side's root.
fn rotate_left(left: Tree, node: Box<Node>, right: Tree) -> Tree
    ensures leases { leases_of result ≡ leases_of left ++ node.value.lease ∷ leases_of right }
    ensures sized { IsSized left → IsSized right → IsSized result }
    ensures balanced { IsSized left → IsSized right → length (leases_of left) + length (leases_of right) < 2 ^ 32 - 1 → IsHeavier (length (leases_of left)) (length (leases_of right)) → IsBalanced left → IsBalanced right → IsBalanced result }
{
    let Tree::Fork(mut root) = right else {
        return join(left, node, Tree::Leaf);
    };
    let inner = mem::replace(&mut root.left, Tree::Leaf);
    let outer = mem::replace(&mut root.right, Tree::Leaf);
    if weight(&inner) < 2 * weight(&outer) {
        return join(join(left, node, inner), root, outer);
    }
    let Tree::Fork(mut middle) = inner else {
        return join(join(left, node, Tree::Leaf), root, outer);
    };
    let before = mem::replace(&mut middle.left, Tree::Leaf);
    let after = mem::replace(&mut middle.right, Tree::Leaf);
    join(join(left, node, before), middle, join(after, root, outer))
}

/// A tree whose left side is not too heavy any more: the left tree's root comes up, or where the inner
/// side of that tree is the heavy one, that side's root.
fn rotate_right(left: Tree, node: Box<Node>, right: Tree) -> Tree
    ensures leases { leases_of result ≡ leases_of left ++ node.value.lease ∷ leases_of right }
    ensures sized { IsSized left → IsSized right → IsSized result }
    ensures balanced { IsSized left → IsSized right → length (leases_of left) + length (leases_of right) < 2 ^ 32 - 1 → IsHeavier (length (leases_of right)) (length (leases_of left)) → IsBalanced left → IsBalanced right → IsBalanced result }
{
    let Tree::Fork(mut root) = left else {
        return join(Tree::Leaf, node, right);
    };
    let outer = mem::replace(&mut root.left, Tree::Leaf);
    let inner = mem::replace(&mut root.right, Tree::Leaf);
    if weight(&inner) < 2 * weight(&outer) {
        return join(outer, root, join(inner, node, right));
    }
    let Tree::Fork(mut middle) = inner else {
        return join(outer, root, join(Tree::Leaf, node, right));
    };
    let before = mem::replace(&mut middle.left, Tree::Leaf);
    let after = mem::replace(&mut middle.right, Tree::Leaf);
    join(join(outer, root, before), middle, join(after, node, right))
}

/// A tree of the leases on the left, of the node and of those on the right, of which no side is more than
/// three times as heavy as the other, where each side is balanced so and one of them was changed by one
/// lease.
pub fn balance(left: Tree, node: Box<Node>, right: Tree) -> Tree
    ensures leases { leases_of result ≡ leases_of left ++ node.value.lease ∷ leases_of right }
    ensures sized { IsSized left → IsSized right → IsSized result }
    ensures balanced { IsSized left → IsSized right → length (leases_of left) + length (leases_of right) < 2 ^ 32 - 1 → IsNearlyEven (length (leases_of left)) (length (leases_of right)) → IsBalanced left → IsBalanced right → IsBalanced result }
{
    if weight(&right) > 3 * weight(&left) {
        return rotate_left(left, node, right);
    }
    if weight(&left) > 3 * weight(&right) {
        return rotate_right(left, node, right);
    }
    join(left, node, right)
}

/// Whether this side is more than three times as heavy as the other one, where the tree has `size` leases.
pub fn is_heavy(side: &Tree, size: u32) -> bool
    ensures { IsSized side.now → result ≡ nat_lt (3 * (size + 1)) (4 * (min (length (leases_of side.now)) (2 ^ 32 - 1) + 1)) }
{
    3 * (size as u64 + 1) < 4 * weight(side)
}

/// Whether the other side is more than three times as heavy as this one, where the tree has `size` leases.
pub fn is_light(side: &Tree, size: u32) -> bool
    ensures { IsSized side.now → result ≡ nat_lt (4 * (min (length (leases_of side.now)) (2 ^ 32 - 1) + 1)) (size + 1) }
{
    4 * weight(side) < size as u64 + 1
}

/// Balances the root of a tree of which one side was changed by one lease.
pub fn rebalance(tree: &mut Tree)
    ensures leases { leases_of tree.new ≡ leases_of tree.old }
    ensures sized { IsSized tree.old → IsSized tree.new }
    ensures balanced { IsSized tree.old → length (leases_of tree.old) < 2 ^ 32 → IsNearlyBalanced tree.old → IsBalanced tree.new }
{
    let Tree::Fork(mut root) = mem::replace(tree, Tree::Leaf) else {
        return;
    };
    let left = mem::replace(&mut root.left, Tree::Leaf);
    let right = mem::replace(&mut root.right, Tree::Leaf);
    *tree = balance(left, root, right);
}

/// Puts another tree in the place of this one, and gives the node of its root.
pub fn replace_root(tree: &mut Tree, other: Tree) -> Option<Box<Node>>
    ensures tree { tree.new ≡ other }
    ensures none { IfNone result (root_lease tree.old ≡ None) }
    ensures root { IfSome result (λ node. root_lease tree.old ≡ Some node.value.lease) }
{
    match mem::replace(tree, other) {
        Tree::Leaf => None,
        Tree::Fork(root) => Some(root),
    }
}

/// Takes out the first lease, and gives its node.
pub fn take_first(tree: &mut Tree) -> Option<Box<Node>>
    ensures none { IfNone result (leases_of tree.old ≡ []) }
    ensures empty { IfNone result (leases_of tree.new ≡ []) }
    ensures first { IfSome result (λ node. leases_of tree.old ≡ node.value.lease ∷ leases_of tree.new) }
    ensures sized { IsSized tree.old → length (leases_of tree.old) < 2 ^ 32 → IsSized tree.new }
    ensures balanced { IsSized tree.old → length (leases_of tree.old) < 2 ^ 32 → IsBalanced tree.old → IsBalanced tree.new }
{
    let Tree::Fork(root) = tree else {
        return None;
    };
    let Some(first) = take_first(&mut root.left) else {
        let right = mem::replace(&mut root.right, Tree::Leaf);
        return replace_root(tree, right);
    };
    root.size = root.size.saturating_sub(1);
    if is_light(&root.left, root.size) {
        rebalance(tree);
    }
    Some(first)
}

/// One tree of two, of which the second is behind the first.
pub fn append(left: Tree, mut right: Tree) -> Tree
    ensures leases { leases_of result ≡ leases_of left ++ leases_of right }
    ensures sized { IsSized left → IsSized right → length (leases_of right) < 2 ^ 32 → IsSized result }
    ensures balanced { IsSized left → IsSized right → length (leases_of left) + length (leases_of right) < 2 ^ 32 → IsEven (length (leases_of left)) (length (leases_of right)) → IsBalanced left → IsBalanced right → IsBalanced result }
{
    match take_first(&mut right) {
        None => left,
        Some(node) => balance(left, node, right),
    }
}
