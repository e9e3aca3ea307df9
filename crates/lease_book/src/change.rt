use farm_kinds::Task;
use farm_model::Lease;

/// What becomes of leases.
#[derive(Clone, Copy, Debug)]
pub enum Change {
    Granted(Lease),
    Ended(Task),
    /// The lease on the task has another end.
    Renewed(Task, u64),
}
