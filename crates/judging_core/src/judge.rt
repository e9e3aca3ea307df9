ghost use Rattle.std.specs.Prelude.{◌≡◌, Some, None, true, ◌+◌, ◌*◌, ◌≤◌, ◌<◌, ◌++◌, length, take, slice_get, All, IfOk, IfSome, OnOk, OnErr, IsOk, IsTrue};
ghost use Rattle.farm_kinds.specs.Rules.{remap_of};
ghost use Rattle.farm_model.specs.Leases.{is_held_by, held_count};
ghost use Rattle.farm_model.specs.Limits.{max_tests, max_hosts, max_judgings, max_held, max_batch};
ghost use Rattle.farm_model.specs.Judge.{answer_of_judging, counted, first_open, hand_out, hand_out_all, lease_end, open_of, ranks_of, batch_size, judge_claim, judge_fetch, judge_enter, judge_result, judge_renew, judge_tick, judge_down, judge_ask, drop_judging, renew_refusal};
ghost use Rattle.lazy_stop.specs.Matters.{IsPossible};
ghost use Rattle.farm_model.specs.Judgings.{cell_of, is_asked, is_dropped};
ghost use Rattle.judging_core.specs.JudgeValue.{first_judge, in_state, with_judging, starts_with};
ghost use Rattle.judging_core.specs.Batches.{is_open_task, ComesFirst};

use crate::answers::{answer_of, keep_answer, make_answer_room};
use crate::filling::fill;
use crate::judgings::{
    KeptJudging, ask_refusal, cell_at, empty_judging, entry_refusal, judging_at, mark_asked,
    mark_dropped, mark_handed, result_refusal, test_count,
};
use crate::listing::{
    end_counted, end_due, end_host, list_judging, make_room, make_room_ahead, show_open_tests,
};
use crate::open::wanted_up_to;
use crate::prepared::{is_next, prepared_judgings, take_prepared};
use crate::room::{make_lease_room, tests_with};
use farm_kinds::{
    Answer, AskEnd, Claim, Class, Count, Fetched, Few, Kind, MAX_BATCH, MAX_HELD, Mode, NoMemory,
    Numbers, Renewed, Rule, Task,
};
use farm_model::item_of;
use lazy_stop::remapped_is_possible;
use lease_book::LeaseBook;
use std::alloc::Global;
use std::marker::Model;
use std::sync::ledger::Ledger;
use task_tree::{Steps, TaskTree};

/// The moment past which time does not go on, in seconds: 10^18 - 1.
const LAST_MOMENT: u64 = 999_999_999_999_999_999;

/// The judgings and the hosts, both numbered from 1, the leases of the hosts, and the rule by which the
/// judgings are judged.
#[derive(Drop)]
pub struct Judge {
    alloc: Global,
    rule: Rule,
    lease: u64,
    moment: u64,
    judgings: Vec<KeptJudging>,
    /// What is reported of each judging. It is asked for far more often than a result comes.
    answers: Vec<Answer>,
    prepared: Vec<KeptJudging>,
    /// How many tests the judgings have together.
    cells: u32,
    hosts: u32,
    leases: LeaseBook,
    /// The open tasks are shown here and no others, so that a claim takes the first and looks at no judging.
    tasks: TaskTree,
}

impl Model for Judge {
    ghost use Rattle.judging_core.specs.JudgeValue.{JudgeValue};

    ghost Value = { JudgeValue };

    ghost use Rattle.judging_core.specs.JudgeLayout.{judge_value, IsJudgeLayout};

    ghost view = { judge_value };

    ghost invariant = { IsJudgeLayout };
}

impl Judge {
    /// A judge of no judgings and no hosts, at moment 0. The lease is in seconds.
    pub fn new(alloc: Global, rule: Rule, lease: u64) -> Judge
        requires some { 1 ≤ lease }
        requires short { lease ≤ 1000000 }
        ensures { result ≡ first_judge rule lease }
    {
        Judge {
            alloc,
            rule,
            lease,
            moment: 0,
            judgings: Vec::new(alloc),
            answers: Vec::new(alloc),
            prepared: Vec::new(alloc),
            cells: 0,
            hosts: 0,
            leases: LeaseBook::new(alloc),
            tasks: TaskTree::new(alloc),
        }
    }

    /// How many judgings there are.
    pub fn judgings(&self) -> usize
        ensures { result ≡ length self.now.state.judgings }
    {
        self.judgings.len()
    }

    /// Makes room ahead for judgings of these numbers of tests. The next calls of `add_judging`, the i-th of
    /// them with the i-th number, take no memory then. The new room replaces what was reserved before.
    pub fn reserve(&mut self, tests: &Numbers) -> Result<(), NoMemory>
        requires { All (λ n. n ≤ max_tests) tests.now }
        ensures ok { OnOk result (self.new ≡ record self.old { reserved = tests.now }) }
        ensures err { OnErr result (self.new ≡ self.old) }
    {
        let prepared = prepared_judgings(self.alloc, self.rule, tests.as_slice())?;
        self.judgings.reserve(prepared.len()).map_err(|_| NoMemory)?;
        make_answer_room(&mut self.answers, prepared.len())?;
        make_room_ahead(&mut self.tasks, self.judgings.len(), tests.as_slice())?;
        let all = tests_with(self.cells, &prepared);
        make_lease_room(&mut self.leases, self.hosts, all)?;
        self.prepared = prepared;
        Ok(())
    }

    /// Adds a judging of this many tests, none for a broken submission, and answers its number. It is judged
    /// lazily or in full, and hosts are given its tasks from the start or once it is asked for. Where the
    /// next judging for which there is room has another number of tests, no room is left after it.
    pub fn add_judging(
        &mut self,
        class: Class,
        tests: u16,
        mode: Mode,
        asked: bool,
    ) -> Result<u32, NoMemory>
        requires few { length self.old.state.judgings < max_judgings }
        requires short { tests ≤ max_tests }
        ensures number { IfOk result (λ j. j ≡ length self.old.state.judgings + 1) }
        ensures added { IfOk result (λ j. self.new ≡ with_judging self.old class tests mode asked) }
        ensures kept { IsTrue (starts_with self.old.reserved tests) → IsOk result }
        ensures unchanged { OnErr result (self.new ≡ self.old) }
    {
        if is_next(&self.prepared, tests) {
            return Ok(self.add_reserved(class, tests, mode, asked));
        }
        let number = self.judgings.len() + 1;
        make_room(&mut self.tasks, number as u32, tests)?;
        let cells = self.cells + u32::from(tests);
        make_lease_room(&mut self.leases, self.hosts, cells)?;
        make_answer_room(&mut self.answers, 1)?;
        let judging = empty_judging(self.alloc, self.rule, class, tests, mode, asked)?;
        let answer = answer_of(&judging);
        let wanted = wanted_up_to(&judging);
        self.judgings.push(judging).map_err(|_| NoMemory)?;
        self.answers.push_reserved(answer);
        self.prepared = Vec::new(self.alloc);
        self.cells = cells;
        list_judging(&mut self.tasks, class, number as u32, wanted, asked);
        Ok(number as u32)
    }

    /// Adds a judging of this many tests, for which there is room, and answers its number.
    pub fn add_reserved(&mut self, class: Class, tests: u16, mode: Mode, asked: bool) -> u32
        requires few { length self.old.state.judgings < max_judgings }
        requires short { tests ≤ max_tests }
        requires reserved { IsTrue (starts_with self.old.reserved tests) }
        ensures number { result ≡ length self.old.state.judgings + 1 }
        ensures added { self.new ≡ with_judging self.old class tests mode asked }
    {
        let Some(judging) = take_prepared(&mut self.prepared, class, tests, mode, asked) else {
            return 0;
        };
        let answer = answer_of(&judging);
        let wanted = wanted_up_to(&judging);
        self.judgings.push_reserved(judging);
        self.answers.push_reserved(answer);
        self.cells += u32::from(tests);
        let number = self.judgings.len() as u32;
        list_judging(&mut self.tasks, class, number, wanted, asked);
        number
    }

    /// Adds a host, and answers its number. There is room then for all leases that can be held, 64 by each host
    /// and one on each test, so that no later call of a host takes memory.
    pub fn add_host(&mut self) -> Result<u32, NoMemory>
        requires { self.old.hosts < max_hosts }
        ensures number { IfOk result (λ host. host ≡ self.old.hosts + 1) }
        ensures added { IfOk result (λ host. self.new ≡ record self.old { hosts = self.old.hosts + 1 }) }
        ensures unchanged { OnErr result (self.new ≡ self.old) }
    {
        let hosts = self.hosts + 1;
        let tests = tests_with(self.cells, &self.prepared);
        make_lease_room(&mut self.leases, hosts, tests)?;
        self.hosts = hosts;
        Ok(hosts)
    }

    /// Gives the host the least open task by class, judging and test, and a lease on it.
    ///
    /// A task is open where its cell is empty and no lease is held on it, in a judging that was asked for and
    /// takes results, and lazily only where its result can change the verdict. It is found in at most 58 steps,
    /// whatever became of the judgings before it; a step is a reading of a word of the list.
    pub fn claim<L: Ledger>(&mut self, host: u32, steps: &mut Steps<L>) -> Claim
        requires numbered { 1 ≤ host }
        requires known { host ≤ self.old.hosts }
        ensures state { self.new ≡ in_state self.old (judge_claim self.old.state host).0 }
        ensures answer { result ≡ (judge_claim self.old.state host).1 }
        ensures cost { steps.new ≤ steps.old + 58 }
    {
        if self.held(host) >= MAX_HELD {
            return Claim::Holding;
        }
        let Some(task) = self.first_open(steps) else {
            return Claim::Nothing;
        };
        let until = self.hand_out(host, task);
        Claim::Handed { task, until }
    }

    /// Gives the host the least open task by class, judging and test, and the next open tasks of its judging:
    /// as many as it asks for, but at least one and at most 16, and not more than 64 with those that it holds.
    ///
    /// Each of them is found in as many steps as that of a claim, however many tests the judging has.
    pub fn fetch<L: Ledger>(&mut self, host: u32, most: u8, steps: &mut Steps<L>) -> Fetched
        requires numbered { 1 ≤ host }
        requires known { host ≤ self.old.hosts }
        ensures state { self.new ≡ in_state self.old (judge_fetch self.old.state host most).0 }
        ensures answer { result ≡ (judge_fetch self.old.state host most).1 }
        ensures cost { steps.new ≤ steps.old + 58 * max_batch }
    {
        let held = self.held(host);
        if held >= MAX_HELD {
            return Fetched::Holding;
        }
        let Some(first) = self.first_open(steps) else {
            return Fetched::Nothing;
        };
        let until = self.hand_out(host, first);
        let mut tests = Few::of(first.test);
        let more = batch_size(most, held) - 1;
        self.hand_out_more(host, first.judging, more, &mut tests, steps);
        Fetched::Batch {
            judging: first.judging,
            tests,
            until,
        }
    }

    /// Hands out the next open tasks of the judging, at most so many, and adds their tests. No other judging has
    /// open tasks before it.
    fn hand_out_more<L: Ledger>(
        &mut self,
        host: u32,
        judging: u32,
        more: u32,
        tests: &mut Few,
        steps: &mut Steps<L>,
    )
        requires numbered { 1 ≤ host }
        requires known { host ≤ self.old.hosts }
        requires held { held_count self.old.state.leases host + more ≤ max_held }
        requires few { length tests.old + more ≤ max_batch }
        requires first { ComesFirst self.old.state judging }
        ensures state { self.new
            ≡ in_state self.old (hand_out_all self.old.state host (take more (open_of self.old.state judging))) }
        ensures tests { tests.new ≡ tests.old ++ ranks_of (take more (open_of self.old.state judging)) }
        ensures cost { steps.new ≤ steps.old + 58 * more }
    {
        for _ in 0..more {
            let Some(task) = self.next_open(judging, steps) else {
                return;
            };
            self.hand_out(host, task);
            tests.push(task.test);
        }
    }

    /// The next open task of the judging, before which no other has open tasks.
    fn next_open<L: Ledger>(&self, judging: u32, steps: &mut Steps<L>) -> Option<Task>
        requires { ComesFirst self.now.state judging }
        ensures next { result ≡ slice_get (open_of self.now.state judging) 0 }
        ensures open_ { IfSome result (λ task. is_open_task self.now.state task ≡ true) }
        ensures cost { steps.new ≤ steps.old + 58 }
    {
        let Some(task) = self.first_open(steps) else {
            return None;
        };
        if task.judging != judging {
            return None;
        }
        Some(task)
    }

    /// How many leases the host holds.
    fn held(&self, host: u32) -> u32
        ensures { result ≡ held_count self.now.state.leases host }
    {
        self.leases.held(host)
    }

    /// The least open task by class, judging and test.
    fn first_open<L: Ledger>(&self, steps: &mut Steps<L>) -> Option<Task>
        ensures first { result ≡ first_open self.now.state }
        ensures open_ { IfSome result (λ task. is_open_task self.now.state task ≡ true) }
        ensures cost { steps.new ≤ steps.old + 58 }
    {
        self.tasks.first(steps)
    }

    /// Hands the open task out to the host, which holds fewer than 64 leases, and answers until when.
    fn hand_out(&mut self, host: u32, task: Task) -> u64
        requires numbered { 1 ≤ host }
        requires known { host ≤ self.old.hosts }
        requires few { held_count self.old.state.leases host < max_held }
        requires open_ { is_open_task self.old.state task ≡ true }
        ensures state { self.new ≡ in_state self.old (hand_out self.old.state host task) }
        ensures until { result ≡ lease_end self.old.state }
    {
        let until = self.moment + self.lease;
        self.tasks.hide_task(task);
        mark_handed(&mut self.judgings, task);
        self.leases.grant(host, task, until);
        until
    }

    /// Enters a host's result of a task that was handed out. It counts as its remapped kind, where its cell
    /// is empty, whether or not the lease has ended. The lease on its task ends, and lazily so do those on the
    /// judging's tasks whose results cannot change its verdict any more.
    pub fn result(&mut self, judging: u32, test: u32, kind: Kind) -> Count
        ensures state { self.new ≡ in_state self.old (judge_result self.old.state judging test kind).0 }
        ensures answer { result ≡ (judge_result self.old.state judging test kind).1 }
    {
        let given = counts_as(&self.rule, kind);
        if let Some(refusal) = result_refusal(&self.judgings, judging, test, given) {
            return refusal;
        }
        self.count(judging, test, given)
    }

    /// Enters a result from outside. It counts as its remapped kind, where its cell is empty. The same leases end
    /// as after a host's result.
    pub fn enter(&mut self, judging: u32, test: u32, kind: Kind) -> Count
        ensures state { self.new ≡ in_state self.old (judge_enter self.old.state judging test kind).0 }
        ensures answer { result ≡ (judge_enter self.old.state judging test kind).1 }
    {
        let given = counts_as(&self.rule, kind);
        if let Some(refusal) = entry_refusal(&self.judgings, judging, test, given) {
            return refusal;
        }
        self.count(judging, test, given)
    }

    /// Fills the empty cell of the task, ends the lease on it, and takes it off the list. Lazily the leases on
    /// the judging's cells that do not matter any more end too, and their tasks leave the list: all of them where it
    /// is settled.
    fn count(&mut self, judging: u32, test: u32, given: Kind) -> Count
        requires numbered { 1 ≤ judging }
        requires known { judging ≤ length self.old.state.judgings }
        requires empty { cell_of self.old.state.judgings judging test ≡ Some None }
        requires short { test ≤ max_tests }
        requires possible { IsPossible self.old.state.rule given }
        ensures state { self.new ≡ in_state self.old (counted self.old.state judging test given).0 }
        ensures answer { result ≡ Count.Counted }
    {
        let standing = fill(&mut self.judgings, judging, test, given);
        keep_answer(&mut self.answers, judging, standing.answer);
        let task = Task {
            judging,
            test: test as u16,
        };
        end_counted(&mut self.leases, task, standing.last);
        self.tasks.hide_task(task);
        self.tasks.hide_behind(judging, standing.last);
        Count::Counted
    }

    /// Lets the host hold the task, where it holds it, and all others of the judging that it holds, until a lease
    /// from now ends.
    pub fn renew(&mut self, host: u32, judging: u32, test: u32) -> Renewed
        ensures state { self.new ≡ in_state self.old (judge_renew self.old.state host judging test).0 }
        ensures answer { result ≡ (judge_renew self.old.state host judging test).1 }
    {
        if let Some(refusal) = self.renew_refusal(host, judging, test) {
            return refusal;
        }
        let until = self.moment + self.lease;
        self.leases.renew_of(host, judging, until);
        Renewed::Until { until }
    }

    /// Why the host cannot renew its leases.
    fn renew_refusal(&self, host: u32, judging: u32, test: u32) -> Option<Renewed>
        ensures { result ≡ renew_refusal self.now.state host judging test }
    {
        let Some(kept) = judging_at(&self.judgings, judging) else {
            return Some(Renewed::NoJudging);
        };
        if cell_at(kept, test).is_none() {
            return Some(Renewed::NoTest);
        }
        let task = Task {
            judging,
            test: test as u16,
        };
        if is_held_by(&self.leases, host, task) {
            None
        } else {
            Some(Renewed::NoLease)
        }
    }

    /// Lets time go on to the moment, at most to 10^18 - 1 seconds and never back. Leases that end at or
    /// before it end, and are counted.
    pub fn tick(&mut self, moment: u64) -> u32
        ensures state { self.new ≡ in_state self.old (judge_tick self.old.state moment).0 }
        ensures count { result ≡ (judge_tick self.old.state moment).1 }
    {
        let now = self.moment.max(moment.min(LAST_MOMENT));
        self.moment = now;
        end_due(&self.judgings, &mut self.leases, &mut self.tasks, now)
    }

    /// Ends the leases of the host, and counts them.
    pub fn down(&mut self, host: u32) -> u32
        ensures state { self.new ≡ in_state self.old (judge_down self.old.state host).0 }
        ensures count { result ≡ (judge_down self.old.state host).1 }
    {
        end_host(&self.judgings, &mut self.leases, &mut self.tasks, host)
    }

    /// Asks for a judging: hosts are given its tasks from now on.
    pub fn ask(&mut self, judging: u32) -> AskEnd
        ensures state { self.new ≡ in_state self.old (judge_ask self.old.state judging).0 }
        ensures answer { result ≡ (judge_ask self.old.state judging).1 }
    {
        if let Some(refusal) = ask_refusal(&self.judgings, judging) {
            return refusal;
        }
        mark_asked(&mut self.judgings, judging);
        let tests = test_count(&self.judgings, judging);
        show_open_tests(
            &self.judgings,
            &self.leases,
            &mut self.tasks,
            judging,
            tests,
        );
        AskEnd::Done
    }

    /// Whether a judging was asked for, from the start or later.
    pub fn asked(&self, judging: u32) -> bool
        requires numbered { 1 ≤ judging }
        requires known { judging ≤ length self.now.state.judgings }
        ensures { result ≡ is_asked self.now.state.judgings judging }
    {
        self.judgings[judging as usize - 1].asked
    }

    /// Drops a judging: it takes no more results, and the leases on its tasks end. Its cells stay.
    pub fn drop_judging(&mut self, judging: u32)
        requires numbered { 1 ≤ judging }
        requires known { judging ≤ length self.old.state.judgings }
        ensures { self.new ≡ in_state self.old (drop_judging self.old.state judging) }
    {
        mark_dropped(&mut self.judgings, judging);
        self.leases.end_judging(judging);
        self.tasks.hide_behind(judging, 0);
    }

    /// Whether a judging was dropped.
    pub fn dropped(&self, judging: u32) -> bool
        requires numbered { 1 ≤ judging }
        requires known { judging ≤ length self.now.state.judgings }
        ensures { result ≡ is_dropped self.now.state.judgings judging }
    {
        self.judgings[judging as usize - 1].dropped
    }

    /// What is reported of a judging: lazily final once no other result can change its verdict, in full
    /// once every cell is filled. None where no judging has the number.
    pub fn answer(&self, judging: u32) -> Option<Answer>
        ensures { result ≡ answer_of_judging self.now.state judging }
    {
        item_of(&self.answers, judging).copied()
    }
}

/// How many tasks a host that holds so many is given, which asks for this many.
fn batch_size(most: u8, held: u32) -> u32
    requires { held < max_held }
    ensures size { result ≡ batch_size most held }
    ensures some { 1 ≤ result }
    ensures few { result ≤ max_batch }
    ensures held { held + result ≤ max_held }
{
    u32::from(most).max(1).min(MAX_BATCH).min(MAX_HELD - held)
}

/// What the kind counts as, which a cell can hold.
fn counts_as(rule: &Rule, kind: Kind) -> Kind
    ensures value { result ≡ remap_of rule.now kind }
    ensures possible { IsPossible rule.now result }
{
    remapped_is_possible(rule, kind);
    rule.remap(kind)
}

/// Whether the host holds the lease on the task.
fn is_held_by(leases: &LeaseBook, host: u32, task: Task) -> bool
    ensures { result ≡ is_held_by leases.now.leases host task }
{
    match leases.find(task) {
        Some(lease) => lease.host == host,
        None => false,
    }
}
