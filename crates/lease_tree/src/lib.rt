//! Leases in the order of one of their numbers and then of their tasks: a balanced search tree. A change
//! takes no memory: nodes come from a pool, and go back to it.
//!
//! Where things stand: `tree.rt` has the calls and the pool of nodes, `node.rt` a tree and its nodes, `keys.rt` the
//! three orders, `lookup.rt` finds and counts, `change.rt` puts in and takes out, `balance.rt` keeps the sides of a
//! node even; `proofs/Rises.antt`, `Groups.antt` and `Bounds.antt` say where in leases that are in order something
//! is found, and how much.
#![tactic(auto)]

mod balance;
mod change;
mod keys;
mod lookup;
mod node;
mod tree;

pub use keys::{Key, Order};
pub use tree::LeaseTree;
