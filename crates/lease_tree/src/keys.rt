ghost use Rattle.std.specs.Prelude.{◌≡◌};
ghost use Rattle.lease_tree.specs.Keys.{group_of, key_of, is_key_before};

use farm_kinds::Task;
use farm_model::Lease;

/// The number of a lease that decides first where it stands.
#[derive(Clone, Copy, Debug, PartialEq, Eq)]
pub enum Order {
    /// The judging of its task.
    Judging,
    /// The host that holds it.
    Host,
    /// The moment at which it ends.
    End,
}

impl Order {
    /// The number that decides first where the lease stands.
    pub fn group(self, lease: Lease) -> u64
        ensures { result ≡ group_of self lease }
    {
        match self {
            Order::Judging => lease.task.judging as u64,
            Order::Host => lease.host as u64,
            Order::End => lease.until,
        }
    }

    /// Where the lease stands.
    pub fn key(self, lease: Lease) -> Key
        ensures { result ≡ key_of self lease }
    {
        Key {
            group: self.group(lease),
            task: lease.task,
        }
    }
}

/// Where a lease stands in an order.
#[derive(Clone, Copy, Debug)]
pub struct Key {
    /// The number that decides first.
    pub group: u64,
    /// The task, which decides between leases of one group.
    pub task: Task,
}

impl Key {
    /// Whether it comes before the other: by group, then by judging, then by test.
    pub fn is_before(self, other: Key) -> bool
        ensures { result ≡ is_key_before self other }
    {
        if self.group != other.group {
            return self.group < other.group;
        }
        if self.task.judging != other.task.judging {
            return self.task.judging < other.task.judging;
        }
        self.task.test < other.task.test
    }
}
