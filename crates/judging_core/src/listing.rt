ghost use Rattle.std.specs.Prelude.{◌≡◌, ℕ, List, ◌+◌, ◌<◌, ◌≤◌, ◌++◌, ◌∷◌, [], length, replicate, All, None, false, OnOk, OnErr};
ghost use Rattle.farm_kinds.specs.RuleValue.{RuleValue};
ghost use Rattle.farm_kinds.specs.declared.outcomes.Mode.{Mode};
ghost use Rattle.farm_kinds.specs.declared.outcomes.Task.{Task};
ghost use Rattle.farm_model.specs.declared.records.Lease.{Lease};
ghost use Rattle.farm_model.specs.Limits.{max_tests, max_judgings};
ghost use Rattle.farm_model.specs.Judgings.{Judging, task_of, empty_judging};
ghost use Rattle.farm_model.specs.Leases.{left_after, ended_at, without_host, held_count, without_task};
ghost use Rattle.lease_book.specs.Behind.{without_behind};
ghost use Rattle.lease_book.specs.Book.{room};
ghost use Rattle.task_tree.specs.Shown.{is_shown, tests_listed};
ghost use Rattle.judging_core.specs.Holding.{AreOnEmptyCells};
ghost use Rattle.judging_core.specs.JudgeShape.{judging_values, AreWellKept, AreRuledBy};
ghost use Rattle.judging_core.specs.Listed.{widths, AreWide, IsListed, HasRoom, IsWider, IsWantedUpTo, IsShownIfOpen, AreTestsShown, AreOpenShown};

use crate::judgings::KeptJudging;
use crate::open::is_open;
use farm_kinds::{Class, MAX_JUDGINGS, NoMemory, Task};
use lease_book::LeaseBook;
use task_tree::TaskTree;

/// Makes room on the list for this many tests of a judging of which no task is listed: the next one, or one that has
/// room already, which is never made less. At `NoMemory` nothing changes.
pub fn make_room(tasks: &mut TaskTree, judging: u32, tests: u16) -> Result<(), NoMemory>
    requires numbered { 1 ≤ judging }
    requires next { judging ≤ length tasks.old + 1 }
    requires few { judging ≤ max_judgings }
    requires short { tests ≤ max_tests }
    requires hidden { (test : ℕ) → is_shown tasks.old (task_of judging test) ≡ false }
    ensures known { OnOk result (judging ≤ length tasks.new) }
    ensures wide { OnOk result (tests ≤ tests_listed tasks.new judging) }
    ensures wider { IsWider tasks.old tasks.new }
    ensures unchanged { OnErr result (tasks.new ≡ tasks.old) }
{
    if judging as usize <= tasks.judging_count() {
        return tasks.widen(judging, tests);
    }
    tasks.add(Class::Normal, tests)?;
    Ok(())
}

/// Makes room on the list for judgings of these numbers of tests behind so many others, as far as there can be
/// judgings. Room that is there already is never made less. At `NoMemory` some of the room may be there.
pub fn make_room_ahead(tasks: &mut TaskTree, judgings: usize, tests: &[u32]) -> Result<(), NoMemory>
    requires few { judgings ≤ max_judgings }
    requires known { judgings ≤ length tasks.old }
    requires short { All (λ n. n ≤ max_tests) tests.now }
    requires rest { (task : Task) → judgings < task.judging → is_shown tasks.old task ≡ false }
    ensures room { OnOk result (HasRoom judgings tests.now tasks.new) }
    ensures wider { IsWider tasks.old tasks.new }
{
    let free = MAX_JUDGINGS as usize - judgings;
    for i in 0..tests.len().min(free) {
        make_room(tasks, (judgings + i + 1) as u32, tests[i] as u16)?;
    }
    Ok(())
}

/// Enters the judging of this number, the next one, for which there is room, and lists its tasks up to the last one
/// that is to be judged, if it was asked for.
pub fn list_judging(tasks: &mut TaskTree, class: Class, judging: u32, wanted: u16, asked: bool)
    requires numbered { 1 ≤ judging }
    requires known { judging ≤ length tasks.old }
    requires wide { wanted ≤ tests_listed tasks.old judging }
    requires hidden { (test : ℕ) → is_shown tasks.old (task_of judging test) ≡ false }
    ensures listed { (rule : RuleValue) (mode : Mode) (tests : ℕ) (judgings : List Judging) (leases : List Lease)
        → length judgings + 1 ≡ judging → tests ≤ tests_listed tasks.old judging → wanted ≤ tests
        → IsWantedUpTo rule mode (replicate tests None) wanted → AreOnEmptyCells judgings leases
        → IsListed rule judgings leases tasks.old
        → IsListed rule (judgings ++ empty_judging class tests mode asked ∷ []) leases tasks.new }
    ensures widths { widths tasks.new ≡ widths tasks.old }
{
    tasks.set_class(judging, class);
    if asked {
        show_tests(tasks, judging, wanted);
    }
}

/// Lists the tasks of a judging's first tests.
fn show_tests(tasks: &mut TaskTree, judging: u32, tests: u16)
    requires numbered { 1 ≤ judging }
    requires known { judging ≤ length tasks.old }
    requires wide { tests ≤ tests_listed tasks.old judging }
    ensures shown { AreTestsShown judging tests tasks.old tasks.new }
{
    for i in 0..tests {
        tasks.show_task(Task {
            judging,
            test: i + 1,
        });
    }
}

/// Lists the open tasks of a judging of this many tests, of which none is listed.
pub fn show_open_tests(
    judgings: &[KeptJudging],
    leases: &LeaseBook,
    tasks: &mut TaskTree,
    judging: u32,
    tests: u16,
)
    requires short { AreWellKept judgings.now }
    requires hidden { (test : ℕ) → is_shown tasks.old (task_of judging test) ≡ false }
    ensures shown { (rule : RuleValue) → AreRuledBy rule judgings.now → AreWide (judging_values judgings.now) tasks.old
        → AreOpenShown rule (judging_values judgings.now) leases.now.leases judging tests tasks.old tasks.new }
    ensures widths { widths tasks.new ≡ widths tasks.old }
{
    for i in 0..tests {
        let task = Task {
            judging,
            test: i + 1,
        };
        show_open(judgings, leases, tasks, task);
    }
}

/// Lists the task if it is open.
fn show_open(judgings: &[KeptJudging], leases: &LeaseBook, tasks: &mut TaskTree, task: Task)
    requires { AreWellKept judgings.now }
    ensures shown { (rule : RuleValue) → AreRuledBy rule judgings.now → AreWide (judging_values judgings.now) tasks.old
        → IsShownIfOpen rule (judging_values judgings.now) leases.now.leases task tasks.old tasks.new }
    ensures widths { widths tasks.new ≡ widths tasks.old }
{
    if !is_open(judgings, leases, task) {
        return;
    }
    if tasks.has_task(task) {
        tasks.show_task(task);
    }
}

/// Ends the leases that end at or before now, lists those of their tasks that are open then, and counts the leases.
pub fn end_due(
    judgings: &[KeptJudging],
    leases: &mut LeaseBook,
    tasks: &mut TaskTree,
    now: u64,
) -> u32
    requires { AreWellKept judgings.now }
    ensures leases { leases.new.leases ≡ left_after leases.old.leases now }
    ensures count { result ≡ length (ended_at leases.old.leases now) }
    ensures room { room leases.new ≡ room leases.old }
    ensures listed { (rule : RuleValue) → AreRuledBy rule judgings.now
        → IsListed rule (judging_values judgings.now) leases.old.leases tasks.old
        → IsListed rule (judging_values judgings.now) leases.new.leases tasks.new }
    ensures widths { widths tasks.new ≡ widths tasks.old }
{
    let held = leases.len();
    while let Some(lease) = leases.due(now) {
        show_open(judgings, leases, tasks, lease.task);
    }
    held - leases.len()
}

/// Ends the leases of the host, lists those of their tasks that are open then, and counts the leases.
pub fn end_host(
    judgings: &[KeptJudging],
    leases: &mut LeaseBook,
    tasks: &mut TaskTree,
    host: u32,
) -> u32
    requires { AreWellKept judgings.now }
    ensures leases { leases.new.leases ≡ without_host leases.old.leases host }
    ensures count { result ≡ held_count leases.old.leases host }
    ensures room { room leases.new ≡ room leases.old }
    ensures listed { (rule : RuleValue) → AreRuledBy rule judgings.now
        → IsListed rule (judging_values judgings.now) leases.old.leases tasks.old
        → IsListed rule (judging_values judgings.now) leases.new.leases tasks.new }
    ensures widths { widths tasks.new ≡ widths tasks.old }
{
    let held = leases.len();
    while let Some(task) = leases.task_of_host(host) {
        leases.end(task);
        show_open(judgings, leases, tasks, task);
    }
    held - leases.len()
}

/// Ends the lease on a task whose cell was filled, and those on its judging's tests behind this rank, which are not
/// to be judged any more.
pub fn end_counted(leases: &mut LeaseBook, task: Task, last: u16)
    ensures leases { leases.new.leases ≡ without_behind (without_task leases.old.leases task) task.judging last }
    ensures room { room leases.new ≡ room leases.old }
{
    if leases.is_empty() {
        return;
    }
    leases.end(task);
    leases.end_behind(task.judging, last);
}
