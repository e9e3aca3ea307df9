ghost use Rattle.std.specs.Prelude.{◌≡◌, ◌+◌, ◌-◌, ◌≤◌, ◌^◌, min, OnOk, OnErr};
ghost use Rattle.farm_model.specs.Limits.{max_hosts};
ghost use Rattle.lease_book.specs.Book.{room};
ghost use Rattle.judging_core.specs.JudgeShape.{cells_in, ArePrepared};
ghost use Rattle.judging_core.specs.Holding.{most_held};

use crate::judgings::KeptJudging;
use farm_kinds::{MAX_HELD, NoMemory};
use lease_book::LeaseBook;

/// So many tests and those of the judgings that are made ahead, or the most that a `u32` holds.
pub fn tests_with(tests: u32, prepared: &[KeptJudging]) -> u32
    requires { ArePrepared prepared.now }
    ensures { result ≡ min (tests + cells_in prepared.now) (2 ^ 32 - 1) }
{
    let mut all = tests;
    for kept in prepared {
        all = all.saturating_add(u32::from(kept.handed.len()));
    }
    all
}

/// Makes room for as many leases as can be held: 64 by each host, and one on each test. At `NoMemory` nothing
/// changes.
pub fn make_lease_room(leases: &mut LeaseBook, hosts: u32, tests: u32) -> Result<(), NoMemory>
    requires { hosts ≤ max_hosts }
    ensures enough { OnOk result (most_held hosts tests ≤ room leases.new) }
    ensures leases { leases.new.leases ≡ leases.old.leases }
    ensures grows { room leases.old ≤ room leases.new }
    ensures unchanged { OnErr result (leases.new ≡ leases.old) }
{
    let most = (hosts * MAX_HELD).min(tests);
    leases.reserve(most.saturating_sub(leases.len()))
}
