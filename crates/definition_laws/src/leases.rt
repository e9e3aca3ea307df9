//! A law, for the proof alone: the function has an empty body, and its contract is the law.
ghost use Rattle.std.specs.Prelude.{◌≡◌, ◌≤◌, ◌<◌, ◌↔◌, ℕ, List, Some, None};
ghost use Rattle.std.specs.List.{Contains};
ghost use Rattle.farm_model.specs.declared.records.Lease.{Lease};
ghost use Rattle.farm_model.specs.Leases.{first_due};
ghost use Rattle.definition_laws.specs.TaskOrder.{IsLesserTask};

/// The lease that is due at a moment is one of the leases, and ends by then. No lease ends earlier, and none
/// that ends at the same moment is on a lesser task. None is due exactly where each ends later.
pub fn the_due_lease_ends_first()
    ensures held { (leases : List Lease) (now : ℕ) (lease : Lease) → first_due leases now ≡ Some lease
        → Contains leases lease }
    ensures ended { (leases : List Lease) (now : ℕ) (lease : Lease) → first_due leases now ≡ Some lease
        → lease.until ≤ now }
    ensures least_end { (leases : List Lease) (now : ℕ) (lease other : Lease) → first_due leases now ≡ Some lease
        → Contains leases other → lease.until ≤ other.until }
    ensures least_task { (leases : List Lease) (now : ℕ) (lease other : Lease) → first_due leases now ≡ Some lease
        → Contains leases other → other.until ≡ lease.until → ¬ IsLesserTask other.task lease.task }
    ensures none { (leases : List Lease) (now : ℕ)
        → (first_due leases now ≡ None) ↔ ((lease : Lease) → Contains leases lease → now < lease.until) }
{}
