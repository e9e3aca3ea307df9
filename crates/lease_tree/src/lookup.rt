ghost use Rattle.std.specs.Prelude.{◌≡◌, ◌-◌, ◌<◌, ◌^◌, find, slice_get, length, min, count_by};
ghost use Rattle.lease_tree.specs.Keys.{Rising, has_key, has_group, is_from, is_behind, count_below};
ghost use Rattle.lease_tree.specs.Trees.{leases_of, IsSized, depth};

use crate::keys::{Key, Order};
use crate::node::{Tree, size};
use farm_model::Lease;

/// The first lease.
pub fn first(tree: &Tree) -> Option<Lease>
    ensures { result ≡ slice_get (leases_of tree.now) 0 }
{
    match tree {
        Tree::Leaf => None,
        Tree::Fork(node) => match first(&node.left) {
            None => Some(node.lease),
            Some(lease) => Some(lease),
        },
    }
}

/// The lease that stands there.
#[tactic(auto, using(crate::proofs::Rises::rising_left, crate::proofs::Rises::rising_right, crate::proofs::Rises::key_left, crate::proofs::Rises::key_right, crate::proofs::Rises::key_here))]
pub fn find(tree: &Tree, order: Order, key: Key) -> Option<Lease>
    ensures { Rising order (leases_of tree.now) → result ≡ find (has_key order key) (leases_of tree.now) }
{
    match tree {
        Tree::Leaf => None,
        Tree::Fork(node) => {
            let here = order.key(node.lease);
            if key.is_before(here) {
                find(&node.left, order, key)
            } else if here.is_before(key) {
                find(&node.right, order, key)
            } else {
                Some(node.lease)
            }
        }
    }
}

/// The first lease of the group.
#[tactic(auto, using(crate::proofs::Rises::rising_left, crate::proofs::Rises::rising_right, crate::proofs::Rises::group_left, crate::proofs::Rises::group_right, crate::proofs::Rises::group_here, crate::proofs::Rises::group_first))]
pub fn first_of(tree: &Tree, order: Order, group: u64) -> Option<Lease>
    ensures { Rising order (leases_of tree.now) → result ≡ find (has_group order group) (leases_of tree.now) }
{
    match tree {
        Tree::Leaf => None,
        Tree::Fork(node) => {
            let here = order.group(node.lease);
            if group < here {
                return first_of(&node.left, order, group);
            }
            if here < group {
                return first_of(&node.right, order, group);
            }
            match first_of(&node.left, order, group) {
                None => Some(node.lease),
                Some(lease) => Some(lease),
            }
        }
    }
}

/// The first lease that stands at the key or behind it.
#[tactic(auto, using(crate::proofs::Rises::rising_left, crate::proofs::Rises::rising_right, crate::proofs::Bounds::from_right, crate::proofs::Bounds::from_here, crate::proofs::Bounds::from_first))]
pub fn first_from(tree: &Tree, order: Order, key: Key) -> Option<Lease>
    ensures { Rising order (leases_of tree.now) → result ≡ find (is_from order key) (leases_of tree.now) }
{
    match tree {
        Tree::Leaf => None,
        Tree::Fork(node) => {
            let here = order.key(node.lease);
            if here.is_before(key) {
                return first_from(&node.right, order, key);
            }
            match first_from(&node.left, order, key) {
                None => Some(node.lease),
                Some(lease) => Some(lease),
            }
        }
    }
}

/// The first lease that stands behind the key.
#[tactic(auto, using(crate::proofs::Rises::rising_left, crate::proofs::Rises::rising_right, crate::proofs::Bounds::behind_right, crate::proofs::Bounds::behind_here, crate::proofs::Bounds::behind_first))]
pub fn first_behind(tree: &Tree, order: Order, key: Key) -> Option<Lease>
    ensures { Rising order (leases_of tree.now) → result ≡ find (is_behind order key) (leases_of tree.now) }
{
    match tree {
        Tree::Leaf => None,
        Tree::Fork(node) => {
            let here = order.key(node.lease);
            if key.is_before(here) {
                return match first_behind(&node.left, order, key) {
                    None => Some(node.lease),
                    Some(lease) => Some(lease),
                };
            }
            first_behind(&node.right, order, key)
        }
    }
}

/// How many leases are of a lesser group, at most 2^32 - 1.
#[tactic(auto, using(crate::proofs::Rises::capped_left, crate::proofs::Rises::capped_right))]
pub fn count_below(tree: &Tree, order: Order, group: u64) -> u32
    ensures { IsSized tree.now → Rising order (leases_of tree.now) → result ≡ min (count_below order group (leases_of tree.now)) (2 ^ 32 - 1) }
{
    match tree {
        Tree::Leaf => 0,
        Tree::Fork(node) => {
            if group <= order.group(node.lease) {
                return count_below(&node.left, order, group);
            }
            let right = count_below(&node.right, order, group);
            size(&node.left).saturating_add(1).saturating_add(right)
        }
    }
}

/// How many leases are of the group.
#[tactic(auto, using(crate::proofs::Groups::group_on_left, crate::proofs::Groups::group_on_right))]
pub fn count_of(tree: &Tree, order: Order, group: u64) -> u32
    requires { group < 2 ^ 64 - 1 }
    ensures { IsSized tree.now → length (leases_of tree.now) < 2 ^ 32 → Rising order (leases_of tree.now) → result ≡ count_by (has_group order group) (leases_of tree.now) }
{
    match tree {
        Tree::Leaf => 0,
        Tree::Fork(node) => {
            let here = order.group(node.lease);
            if group < here {
                return count_of(&node.left, order, group);
            }
            if here < group {
                return count_of(&node.right, order, group);
            }
            let before = count_below(&node.left, order, group);
            let left = size(&node.left).saturating_sub(before);
            let right = count_below(&node.right, order, group + 1);
            left.saturating_add(1).saturating_add(right)
        }
    }
}

/// How many leases stand on the longest way from the root, at most 2^32 - 1.
pub fn depth(tree: &Tree) -> u32
    ensures { result ≡ min (depth tree.now) (2 ^ 32 - 1) }
{
    match tree {
        Tree::Leaf => 0,
        Tree::Fork(node) => depth(&node.left).max(depth(&node.right)).saturating_add(1),
    }
}
