ghost use Rattle.std.specs.Prelude.{◌≡◌, ◌≤◌, ◌-◌, length, slice_get, Some, None};
ghost use Rattle.farm_kinds.specs.RuleValue.{RuleValue};
ghost use Rattle.farm_model.specs.Open.{is_wanted};
ghost use Rattle.judging_core.specs.Listed.{is_open, IsWantedUpTo};
ghost use Rattle.judging_core.specs.JudgeShape.{judging_values, IsWellKept, AreWellKept, AreRuledBy};

use crate::judgings::{KeptJudging, cell_at, judging_at};
use farm_kinds::{Mode, Task};
use lazy_stop::Row;
use lease_book::LeaseBook;

/// Whether the task is there, its cell is empty and wanted, its judging was asked for and takes results, and
/// no lease is held on it.
pub fn is_open(judgings: &[KeptJudging], leases: &LeaseBook, task: Task) -> bool
    requires short { AreWellKept judgings.now }
    ensures open_ { (rule : RuleValue) → AreRuledBy rule judgings.now
        → result ≡ is_open rule (judging_values judgings.now) leases.now.leases task }
{
    let Some(kept) = judging_at(judgings, task.judging) else {
        return false;
    };
    let Some(None) = cell_at(kept, task.test as u32) else {
        return false;
    };
    if kept.dropped || !kept.asked || !is_wanted(kept.mode, &kept.row, task.test) {
        return false;
    }
    leases.find(task).is_none()
}

/// Whether this test, whose cell is empty, is to be judged: lazily only where it can change the verdict.
fn is_wanted(mode: Mode, row: &Row, test: u16) -> bool
    requires low { 1 ≤ test }
    requires empty { slice_get row.now.cells (test - 1) ≡ Some None }
    ensures { result ≡ is_wanted row.now.rule mode row.now.cells test }
{
    match mode {
        Mode::Full => true,
        Mode::Lazy => row.matters(test),
    }
}

/// The rank up to which the judging's empty cells are to be judged: lazily those up to the last one that matters.
pub fn wanted_up_to(kept: &KeptJudging) -> u16
    requires { IsWellKept kept.now }
    ensures wanted { IsWantedUpTo kept.now.row.rule kept.now.mode kept.now.row.cells result }
    ensures within { result ≤ length kept.now.row.cells }
{
    let tests = kept.handed.len();
    match kept.mode {
        Mode::Full => tests,
        Mode::Lazy => kept.row.matters_up_to().min(tests as usize) as u16,
    }
}
