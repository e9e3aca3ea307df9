ghost use Rattle.std.specs.Prelude.{◌≡◌, ℕ, ◌+◌, ◌-◌, ◌*◌, ◌<◌, ◌≤◌, ◌^◌, find, length, count_by, slice_get, is_some, None, IfSome, IfNone, OnOk, OnErr, vec_len, vec_capacity, if◌then◌else◌};
ghost use Rattle.lease_tree.specs.Keys.{key_of, has_key, has_group, is_from, is_behind, NoneBefore, NoneEarlier, IsAdded, IsTaken};
ghost use Rattle.lease_tree.specs.TreeValue.{no_leases};

use crate::keys::{Key, Order};
use crate::node::{Node, Tree};
use crate::{change, lookup, node};
use farm_kinds::{NoMemory, Task};
use farm_model::Lease;
use std::alloc::Global;
use std::marker::Model;

/// Leases in one of their orders. Only `reserve` takes memory.
///
/// It is a search tree that is balanced by weight: of two sides none is more than three times as heavy as
/// the other, where a side weighs one more than its leases. That is kept whatever leases come and go, and
/// `depth` says what follows from it. Each call but `reserve` and `depth` goes down one way from the root,
/// or two.
#[derive(Drop)]
pub struct LeaseTree {
    alloc: Global,
    order: Order,
    root: Tree,
    /// Nodes for leases to come.
    pool: Vec<Box<Node>>,
}

impl Model for LeaseTree {
    ghost use Rattle.lease_tree.specs.TreeValue.{OrderedLeases};

    ghost Value = { OrderedLeases };

    ghost use Rattle.lease_tree.specs.TreeLayout.{tree_value, IsTreeLayout};

    ghost view = { tree_value };

    ghost invariant = { IsTreeLayout };
}

impl LeaseTree {
    /// No leases, and room for none. It takes memory when `reserve` is called.
    pub fn new(alloc: Global, order: Order) -> LeaseTree
        ensures { result ≡ no_leases order }
    {
        LeaseTree {
            alloc,
            order,
            root: Tree::Leaf,
            pool: Vec::new(alloc),
        }
    }

    /// Makes room, so that at least `n` more leases can be put in. Room is never given back. At `NoMemory`
    /// there may be more room than before, for fewer than `n`.
    pub fn reserve(&mut self, n: u32) -> Result<(), NoMemory>
        ensures order { self.new.order ≡ self.old.order }
        ensures leases { self.new.leases ≡ self.old.leases }
        ensures grows { self.old.spare ≤ self.new.spare }
        ensures enough { OnOk result (n ≤ self.new.spare) }
        ensures needed { OnErr result (self.old.spare < n) }
    {
        let wanted = n as usize;
        if self.pool.len() >= wanted {
            return Ok(());
        }
        let held = node::size(&self.root) as usize;
        self.pool.reserve(wanted + held).map_err(|_| NoMemory)?;
        fill(self.alloc, &mut self.pool, wanted)
    }

    /// The order in which the leases stand. Only tests ask: whoever made a tree knows it.
    pub fn order(&self) -> Order
        ensures { result ≡ self.now.order }
    {
        self.order
    }

    /// How many leases there are.
    pub fn len(&self) -> u32
        ensures count { result ≡ length self.now.leases }
        ensures few { length self.now.leases < 2 ^ 32 }
    {
        node::size(&self.root)
    }

    /// How many leases stand on the longest way from the root, at most three for each binary digit of the
    /// number of leases. It looks at each lease. Only tests ask: what it promises is that the tree stays balanced.
    pub fn depth(&self) -> u32
        ensures { (bits : ℕ) → length self.now.leases < 2 ^ bits → result ≤ 3 * bits }
    {
        lookup::depth(&self.root)
    }

    /// How many more leases can be put in before `reserve` must be called: the test of the condition of `insert`.
    pub fn spare(&self) -> usize
        ensures { result ≡ self.now.spare }
    {
        self.pool.len()
    }

    /// The first lease. None comes before it.
    #[tactic(auto, using(crate::proofs::Rises::first_of_all))]
    pub fn first(&self) -> Option<Lease>
        ensures first { result ≡ slice_get self.now.leases 0 }
        ensures none_before { IfSome result (λ lease. NoneBefore self.now.order self.now.leases lease) }
    {
        lookup::first(&self.root)
    }

    /// The lease that stands there.
    pub fn find(&self, key: Key) -> Option<Lease>
        ensures { result ≡ find (has_key self.now.order key) self.now.leases }
    {
        lookup::find(&self.root, self.order, key)
    }

    /// The first lease of the group.
    pub fn first_of(&self, group: u64) -> Option<Lease>
        ensures { result ≡ find (has_group self.now.order group) self.now.leases }
    {
        lookup::first_of(&self.root, self.order, group)
    }

    /// The first lease that stands at the key or behind it. Of those none comes before it.
    pub fn first_from(&self, key: Key) -> Option<Lease>
        ensures first { result ≡ find (is_from self.now.order key) self.now.leases }
        ensures least { IfSome result (λ lease. NoneEarlier self.now.order (is_from self.now.order key) self.now.leases lease) }
    {
        lookup::first_from(&self.root, self.order, key)
    }

    /// The first lease that stands behind the key. Of those none comes before it.
    pub fn first_behind(&self, key: Key) -> Option<Lease>
        ensures first { result ≡ find (is_behind self.now.order key) self.now.leases }
        ensures least { IfSome result (λ lease. NoneEarlier self.now.order (is_behind self.now.order key) self.now.leases lease) }
    {
        lookup::first_behind(&self.root, self.order, key)
    }

    /// How many leases are of the group, which is less than 2^64 - 1.
    pub fn count_of(&self, group: u64) -> u32
        requires { group < 2 ^ 64 - 1 }
        ensures { result ≡ count_by (has_group self.now.order group) self.now.leases }
    {
        lookup::count_of(&self.root, self.order, group)
    }

    /// Puts in a lease, where none stands at its key, which `find` tells.
    pub fn insert(&mut self, lease: Lease)
        requires spare { 0 < self.old.spare }
        requires free { find (has_key self.old.order (key_of self.old.order lease)) self.old.leases ≡ None }
        requires few { length self.old.leases < 2 ^ 32 - 1 }
        ensures order { self.new.order ≡ self.old.order }
        ensures added { IsAdded self.old.leases self.new.leases lease }
        ensures spare { self.new.spare + 1 ≡ self.old.spare }
    {
        // There is a node in the pool, so the other way is never taken.
        let Some(mut node) = self.pool.pop() else {
            return;
        };
        node.lease = lease;
        change::insert(&mut self.root, self.order, node);
    }

    /// Takes out the lease that stands there, if one does.
    #[tactic(auto, using(crate::proofs::Changes::taken_rising, crate::proofs::Changes::taken_length))]
    pub fn remove(&mut self, key: Key) -> Option<Lease>
        ensures lease { result ≡ find (has_key self.old.order key) self.old.leases }
        ensures order { self.new.order ≡ self.old.order }
        ensures taken { IfSome result (λ lease. IsTaken self.old.leases self.new.leases lease) }
        ensures unchanged { IfNone result (self.new ≡ self.old) }
        ensures spare { self.new.spare ≡ self.old.spare + (if is_some result then 1 else 0) }
    {
        match change::remove(&mut self.root, self.order, key) {
            None => None,
            Some(node) => {
                let lease = node.lease;
                self.pool.push_reserved(node);
                Some(lease)
            }
        }
    }
}

/// Fills the pool up to `wanted` nodes.
fn fill(alloc: Global, pool: &mut Vec<Box<Node>>, wanted: usize) -> Result<(), NoMemory>
    requires few { vec_len pool.old ≤ wanted }
    requires room { wanted ≤ vec_capacity pool.old }
    ensures grows { vec_len pool.old ≤ vec_len pool.new }
    ensures most { vec_len pool.new ≤ wanted }
    ensures enough { OnOk result (vec_len pool.new ≡ wanted) }
    ensures capacity { vec_capacity pool.new ≡ vec_capacity pool.old }
{
    for _ in pool.len()..wanted {
        let node = empty_node(alloc)?;
        pool.push_reserved(node);
    }
    Ok(())
}

/// A node with no lease that means anything.
fn empty_node(alloc: Global) -> Result<Box<Node>, NoMemory> {
    let node = Node {
        lease: Lease {
            host: 0,
            task: Task {
                judging: 0,
                test: 0,
            },
            until: 0,
        },
        size: 0,
        left: Tree::Leaf,
        right: Tree::Leaf,
    };
    Box::new(alloc, node).map_err(|_| NoMemory)
}
