//! The list that contracts see of a book. It exists only in proofs: the program keeps no order of granting.
ghost use Rattle.std.specs.Prelude.{◌≡◌, List, []};
ghost use Rattle.std.specs.Borrow.{ftrue};
ghost use Rattle.farm_model.specs.declared.records.Lease.{Lease as HeldLease};

use crate::change::Change;
use std::marker::Model;

/// The leases that are held, in the order in which they were granted, as contracts see them. A value takes no bytes
/// and owns nothing, and its calls do nothing when the program runs.
#[derive(Drop)]
pub struct Held {
    pub ghost leases: { List HeldLease },
}

impl Model for Held {
    ghost also_owns = { λ _. ftrue };
}

// It owns nothing, so it may go to another thread.
unsafe impl Send for Held {}

impl Held {
    ghost use Rattle.lease_book.specs.Held.{leases_after};

    /// No leases.
    pub fn new() -> Held
        ensures { result.leases ≡ [] }
    {
        Held {}
    }

    /// The leases after a change of these.
    pub fn after(&self, _change: &Change) -> Held
        ensures { result.leases ≡ leases_after self.now.leases _change.now }
    {
        Held {}
    }
}
