ghost use Rattle.std.specs.Prelude.{◌≡◌, ◌≢◌, ℕ, ◌+◌, ◌-◌, ◌*◌, ◌/◌, ◌^◌, ◌<◌, ◌≤◌, ◌++◌, ◌∷◌, [], length, set, get_or, true, false, slice_get, None, IfOk, IfSome, IfNone, OnOk, OnErr, ◌↔◌};
ghost use Rattle.farm_model.specs.Judgings.{task_of};
ghost use Rattle.farm_model.specs.Limits.{max_judgings, max_tests};
ghost use Rattle.task_tree.specs.Bits.{bit, IsInserted, IsRemoved, IsEmpty, IsLeast};
ghost use Rattle.task_tree.specs.Tree.{of_class};
ghost use Rattle.task_tree.specs.Shown.{hidden, HasTask, with_shown, with_hidden_behind, with_class, with_room, is_shown, shown_in_class, shown_tasks, first_shown};
ghost use Rattle.task_tree.specs.TreeLayout.{tasks_values, kept_at, AreSized, IsIndexed};

use crate::classes::Classes;
use crate::steps::Steps;
use crate::words::Words;
use farm_kinds::{Class, NoMemory, Task};
use std::alloc::Global;
use std::marker::Model;
use std::sync::ledger::Ledger;

/// What is kept of a judging.
#[derive(Drop)]
pub struct KeptTasks {
    /// Which judgings it goes before.
    pub class: Class,
    /// How many tests it has, at most 1,000.
    pub tests: u16,
    /// The tests whose task is shown: test t is the number t - 1.
    pub shown: Words,
}

/// Judgings, numbered from 1, and which of their tasks are shown. Contracts see a list of judgings, each with
/// its class and, for each test, whether its task is shown. Only `add` and `widen` take memory.
#[derive(Drop)]
pub struct TaskTree {
    alloc: Global,
    judgings: Vec<KeptTasks>,
    classes: Classes,
}

impl Model for TaskTree {
    ghost use Rattle.std.specs.Prelude.{List};
    ghost use Rattle.task_tree.specs.Shown.{JudgingTasks};

    ghost Value = { List JudgingTasks };

    ghost use Rattle.task_tree.specs.TreeValue.{tree_value, IsTree};

    ghost view = { tree_value };

    ghost invariant = { IsTree };
}

impl TaskTree {
    /// A tree of no judgings. It takes memory when `add` is called.
    pub fn new(alloc: Global) -> TaskTree
        ensures { result ≡ [] }
    {
        TaskTree {
            alloc,
            judgings: Vec::new(alloc),
            classes: Classes::new(alloc),
        }
    }

    /// Adds a judging of this many tests, at most 1,000, of which no task is shown, and gives its number: the
    /// first is 1. There may be 400,000 judgings. At `NoMemory` nothing changes.
    pub fn add(&mut self, class: Class, tests: u16) -> Result<u32, NoMemory>
        requires short { tests ≤ max_tests }
        requires few { length self.old < max_judgings }
        ensures number { IfOk result (λ number. number ≡ length self.old + 1) }
        ensures added { OnOk result (self.new ≡ self.old ++ hidden class tests ∷ []) }
        ensures unchanged { OnErr result (self.new ≡ self.old) }
    {
        let place = self.judgings.len();
        self.judgings.reserve(1)?;
        self.classes.reserve(place)?;
        let shown = Words::zeros(self.alloc, (tests as usize + 63) / 64)?;
        self.judgings.push_reserved(KeptTasks {
            class,
            tests,
            shown,
        });
        Ok(place as u32 + 1)
    }

    /// Puts a judging of which no task is shown into a class.
    pub fn set_class(&mut self, judging: u32, class: Class)
        requires numbered { 1 ≤ judging }
        requires known { judging ≤ length self.old }
        requires hidden { (test : ℕ) → is_shown self.old (task_of judging test) ≡ false }
        ensures { self.new ≡ with_class self.old judging class }
    {
        let kept = &mut self.judgings[judging as usize - 1];
        kept.class = class;
    }

    /// Gives a judging of which no task is shown this many tests, at most 1,000, where it has fewer. At
    /// `NoMemory` nothing changes.
    pub fn widen(&mut self, judging: u32, tests: u16) -> Result<(), NoMemory>
        requires numbered { 1 ≤ judging }
        requires known { judging ≤ length self.old }
        requires short { tests ≤ max_tests }
        requires hidden { (test : ℕ) → is_shown self.old (task_of judging test) ≡ false }
        ensures widened { OnOk result (self.new ≡ with_room self.old judging tests) }
        ensures unchanged { OnErr result (self.new ≡ self.old) }
    {
        let place = judging as usize - 1;
        if self.judgings[place].tests >= tests {
            return Ok(());
        }
        let shown = Words::zeros(self.alloc, (tests as usize + 63) / 64)?;
        let kept = &mut self.judgings[place];
        kept.shown = shown;
        kept.tests = tests;
        Ok(())
    }

    /// How many judgings there are, at most 400,000.
    pub fn judging_count(&self) -> usize
        ensures count { result ≡ length self.now }
        ensures few { length self.now ≤ max_judgings }
    {
        self.judgings.len()
    }

    /// Whether the task is there, shown or not: a judging of its number, with a test of its rank.
    pub fn has_task(&self, task: Task) -> bool
        ensures { result ≡ true ↔ HasTask self.now task }
    {
        if task.judging == 0 || task.test == 0 {
            return false;
        }
        let place = task.judging as usize - 1;
        if place >= self.judgings.len() {
            return false;
        }
        let kept = &self.judgings[place];
        task.test <= kept.tests
    }

    /// Shows the task, so that `first` may find it. Nothing changes where it is shown.
    pub fn show_task(&mut self, task: Task)
        requires { HasTask self.old task }
        ensures { self.new ≡ with_shown self.old task true }
    {
        let place = task.judging as usize - 1;
        let kept = &mut self.judgings[place];
        kept.shown.insert(task.test as usize - 1);
        self.classes.insert(kept.class, place);
    }

    /// Hides the task, so that `first` does not find it. Nothing changes where it is hidden.
    pub fn hide_task(&mut self, task: Task)
        requires { HasTask self.old task }
        ensures { self.new ≡ with_shown self.old task false }
    {
        let place = task.judging as usize - 1;
        let kept = &mut self.judgings[place];
        let _ = kept.shown.remove(task.test as usize - 1);
        if !kept.shown.is_empty() {
            return;
        }
        self.classes.remove(kept.class, place);
    }

    /// Hides the judging's tasks behind this rank, so that `first` does not find them: a word of 64 tests at a time,
    /// however many of them are shown.
    pub fn hide_behind(&mut self, judging: u32, last: u16)
        requires numbered { 1 ≤ judging }
        requires known { judging ≤ length self.old }
        ensures { self.new ≡ with_hidden_behind self.old judging last }
    {
        let place = judging as usize - 1;
        let kept = &mut self.judgings[place];
        kept.shown.cut(last as usize);
        if !kept.shown.is_empty() {
            return;
        }
        self.classes.remove(kept.class, place);
    }

    /// The least shown task by class, then by the judging's number, then by the test's rank; None exactly where
    /// none is shown. With fewer than 2^bits judgings it takes at most 2 * bits + 20 steps: 58 with 400,000.
    pub fn first<L: Ledger>(&self, steps: &mut Steps<L>) -> Option<Task>
        ensures first { result ≡ first_shown self.now }
        ensures none { result ≡ None ↔ (shown_tasks self.now ≡ []) }
        ensures there { IfSome result (HasTask self.now) }
        ensures shown { IfSome result (λ task. is_shown self.now task ≡ true) }
        ensures cost { (bits : ℕ) → length self.now < 2 ^ bits → steps.new ≤ steps.old + 2 * bits + 20 }
        ensures most { steps.new ≤ steps.old + 58 }
    {
        let high = first_in(&self.judgings, &self.classes, Class::High, steps);
        if high.is_some() {
            return high;
        }
        let normal = first_in(&self.judgings, &self.classes, Class::Normal, steps);
        if normal.is_some() {
            return normal;
        }
        first_in(&self.judgings, &self.classes, Class::Low, steps)
    }
}

/// The first shown task of a class.
fn first_in<L: Ledger>(
    judgings: &Vec<KeptTasks>,
    classes: &Classes,
    class: Class,
    steps: &mut Steps<L>,
) -> Option<Task>
    requires few { length judgings.now.items ≤ max_judgings }
    requires sized { AreSized judgings.now.items }
    requires indexed { IsIndexed judgings.now.items classes.now }
    ensures first { result ≡ slice_get (shown_in_class (tasks_values judgings.now.items) class) 0 }
    ensures there { IfSome result (HasTask (tasks_values judgings.now.items)) }
    ensures shown { IfSome result (λ task. is_shown (tasks_values judgings.now.items) task ≡ true) }
    ensures none { IfNone result (steps.new ≤ steps.old + (of_class classes.now class).top_words) }
    ensures some { IfSome result (λ _. (steps.new ≤ steps.old + (of_class classes.now class).top_words + 18) × (0 < length judgings.now.items)) }
{
    let Some(place) = classes.first(class, steps) else {
        return None;
    };
    match judgings[place].shown.first(steps) {
        None => None,
        Some(number) => Some(Task {
            judging: place as u32 + 1,
            test: number as u16 + 1,
        }),
    }
}
