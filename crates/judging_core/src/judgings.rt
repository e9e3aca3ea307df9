ghost use Rattle.farm_model.specs.Limits.{max_tests};
ghost use Rattle.std.specs.Prelude.{◌≡◌, ◌≤◌, ◌-◌, length, slice_get, slice_set, vec_len, vec_capacity, IfOk, IfNone, IfSome, OnSome, None, Some, IsSome, false};
ghost use Rattle.farm_kinds.specs.RuleValue.{RuleValue};
ghost use Rattle.farm_model.specs.Numbered.{item_of};
ghost use Rattle.farm_model.specs.Judge.{ask_refusal};
ghost use Rattle.farm_model.specs.Judgings.{kept_count, cell_of, is_asked, entry_refusal, result_refusal, with_result, with_handed, with_asked, with_dropped, empty_judging};
ghost use Rattle.lazy_stop.specs.Matters.{IsPossible};
ghost use Rattle.judging_core.specs.Refusals.{cell_refusal};
ghost use Rattle.std.specs.Option.{option_map};
ghost use Rattle.judging_core.specs.JudgeShape.{judging_value, judging_values, row_length, IsWellKept, AreWellKept, IsRuledBy, AreRuledBy, CanAllHold};

use crate::marks::Marks;
use farm_kinds::{AskEnd, Class, Count, Kind, Mode, NoMemory, Rule, Task};
use lazy_stop::Row;
use std::alloc::Global;

/// A judging as it is kept.
#[derive(Drop)]
pub struct KeptJudging {
    /// Which judgings go before it.
    pub class: Class,
    /// How far it is judged.
    pub mode: Mode,
    /// Whether it was asked for: hosts are given no task of another.
    pub asked: bool,
    /// Whether it takes no more results.
    pub dropped: bool,
    /// One cell per test, in rank order: empty, or the kind of its result after remapping.
    pub row: Row,
    /// For each test whether its task was ever handed out.
    pub handed: Marks,
}

/// A judging by this rule of this many tests, none of which was handed out or judged.
pub fn empty_judging(
    alloc: Global,
    rule: Rule,
    class: Class,
    tests: u16,
    mode: Mode,
    asked: bool,
) -> Result<KeptJudging, NoMemory>
    requires { tests ≤ max_tests }
    ensures value { IfOk result (λ kept. judging_value kept ≡ empty_judging class tests mode asked) }
    ensures short { IfOk result (λ kept. IsWellKept kept) }
    ensures ruled { IfOk result (λ kept. IsRuledBy rule kept) }
{
    let row = Row::new(alloc, rule, tests)?;
    let handed = Marks::new(alloc, tests)?;
    Ok(KeptJudging {
        class,
        mode,
        asked,
        dropped: false,
        row,
        handed,
    })
}

/// The judging of this number.
pub fn judging_at(judgings: &[KeptJudging], judging: u32) -> Option<&KeptJudging>
    requires { AreWellKept judgings.now }
    ensures none { IfNone result (item_of (judging_values judgings.now) judging ≡ None) }
    ensures some { IfSome result (λ kept. item_of (judging_values judgings.now) judging ≡ Some (judging_value kept.now)) }
    ensures short { IfSome result (λ kept. IsWellKept kept.now) }
    ensures numbered { OnSome result (1 ≤ judging) }
    ensures ruled { (rule : RuleValue) → AreRuledBy rule judgings.now → IfSome result (λ kept. IsRuledBy rule kept.now) }
    ensures known { OnSome result (judging ≤ length judgings.now) }
{
    if judging == 0 {
        return None;
    }
    judgings.get(judging as usize - 1)
}

/// The cell of this test.
pub fn cell_at(kept: &KeptJudging, test: u32) -> Option<Option<Kind>>
    requires { IsWellKept kept.now }
    ensures cell { result ≡ item_of kept.now.row.cells test }
    ensures numbered { OnSome result (1 ≤ test) }
    ensures known { OnSome result (test ≤ length kept.now.row.cells) }
{
    if test == 0 || test > u32::from(kept.handed.len()) {
        return None;
    }
    Some(kept.row.cell(test as u16))
}

/// Why a result from outside does not count.
pub fn entry_refusal(
    judgings: &[KeptJudging],
    judging: u32,
    test: u32,
    given: Kind,
) -> Option<Count>
    requires { AreWellKept judgings.now }
    ensures refusal { result ≡ entry_refusal (judging_values judgings.now) judging test given }
    ensures numbered { IfNone result (1 ≤ judging) }
    ensures known { IfNone result (judging ≤ length judgings.now) }
    ensures empty { IfNone result (cell_of (judging_values judgings.now) judging test ≡ Some None) }
    ensures short { IfNone result (test ≤ max_tests) }
{
    let Some(kept) = judging_at(judgings, judging) else {
        return Some(Count::NoJudging);
    };
    let Some(cell) = cell_at(kept, test) else {
        return Some(Count::NoTest);
    };
    cell_refusal(cell, kept.dropped, given)
}

/// Why a host's result does not count.
pub fn result_refusal(
    judgings: &[KeptJudging],
    judging: u32,
    test: u32,
    given: Kind,
) -> Option<Count>
    requires { AreWellKept judgings.now }
    ensures refusal { result ≡ result_refusal (judging_values judgings.now) judging test given }
    ensures numbered { IfNone result (1 ≤ judging) }
    ensures known { IfNone result (judging ≤ length judgings.now) }
    ensures empty { IfNone result (cell_of (judging_values judgings.now) judging test ≡ Some None) }
    ensures short { IfNone result (test ≤ max_tests) }
{
    let Some(kept) = judging_at(judgings, judging) else {
        return Some(Count::NoJudging);
    };
    let Some(cell) = cell_at(kept, test) else {
        return Some(Count::NoTest);
    };
    if !kept.handed.has(test as u16) {
        return Some(Count::NotHanded);
    }
    cell_refusal(cell, kept.dropped, given)
}

/// Why a result of this cell does not count: it holds a kind, or its judging was dropped.
fn cell_refusal(cell: Option<Kind>, dropped: bool, given: Kind) -> Option<Count>
    ensures { result ≡ cell_refusal cell dropped given }
{
    match cell {
        Some(kept) => Some(kept_count(kept, given)),
        None if dropped => Some(Count::Dropped),
        None => None,
    }
}

/// What a result is answered whose cell keeps a kind.
fn kept_count(kept: Kind, given: Kind) -> Count
    ensures { result ≡ kept_count given kept }
{
    if kept == given {
        Count::Repeat { kept }
    } else {
        Count::Differs { kept, given }
    }
}

/// Marks the task as handed out.
pub fn mark_handed(judgings: &mut Vec<KeptJudging>, task: Task)
    requires numbered { 1 ≤ task.judging }
    requires known { task.judging ≤ length judgings.old.items }
    requires cell { IsSome (cell_of (judging_values judgings.old.items) task.judging task.test) }
    requires short { AreWellKept judgings.old.items }
    ensures value { judging_values judgings.new.items ≡ with_handed (judging_values judgings.old.items) task }
    ensures short { AreWellKept judgings.new.items }
    ensures ruled { (rule : RuleValue) → AreRuledBy rule judgings.old.items → AreRuledBy rule judgings.new.items }
    ensures count { length judgings.new.items ≡ length judgings.old.items }
    ensures len { vec_len judgings.new ≡ vec_len judgings.old }
    ensures capacity { vec_capacity judgings.new ≡ vec_capacity judgings.old }
{
    let kept = &mut judgings[task.judging as usize - 1];
    kept.handed.mark(task.test);
}

/// Why a judging cannot be asked for.
pub fn ask_refusal(judgings: &[KeptJudging], judging: u32) -> Option<AskEnd>
    requires { AreWellKept judgings.now }
    ensures refusal { result ≡ ask_refusal (judging_values judgings.now) judging }
    ensures numbered { IfNone result (1 ≤ judging) }
    ensures known { IfNone result (judging ≤ length judgings.now) }
    ensures waits { IfNone result (is_asked (judging_values judgings.now) judging ≡ false) }
{
    let Some(kept) = judging_at(judgings, judging) else {
        return Some(AskEnd::NoJudging);
    };
    if kept.dropped {
        return Some(AskEnd::Dropped);
    }
    if kept.asked {
        return Some(AskEnd::Already);
    }
    None
}

/// Marks the judging as one that was asked for.
pub fn mark_asked(judgings: &mut Vec<KeptJudging>, judging: u32)
    requires numbered { 1 ≤ judging }
    requires known { judging ≤ length judgings.old.items }
    ensures value { judging_values judgings.new.items ≡ with_asked (judging_values judgings.old.items) judging }
    ensures short { AreWellKept judgings.old.items → AreWellKept judgings.new.items }
    ensures ruled { (rule : RuleValue) → AreRuledBy rule judgings.old.items → AreRuledBy rule judgings.new.items }
    ensures count { length judgings.new.items ≡ length judgings.old.items }
    ensures len { vec_len judgings.new ≡ vec_len judgings.old }
    ensures capacity { vec_capacity judgings.new ≡ vec_capacity judgings.old }
{
    let kept = &mut judgings[judging as usize - 1];
    kept.asked = true;
}

/// How many tests the judging of this number has.
pub fn test_count(judgings: &[KeptJudging], judging: u32) -> u16
    requires numbered { 1 ≤ judging }
    requires known { judging ≤ length judgings.now }
    requires short { AreWellKept judgings.now }
    ensures count { option_map row_length (item_of (judging_values judgings.now) judging) ≡ Some result }
    ensures short { result ≤ max_tests }
{
    judgings[judging as usize - 1].handed.len()
}

/// Marks the judging as dropped: it takes no more results.
pub fn mark_dropped(judgings: &mut Vec<KeptJudging>, judging: u32)
    requires numbered { 1 ≤ judging }
    requires known { judging ≤ length judgings.old.items }
    ensures value { judging_values judgings.new.items ≡ with_dropped (judging_values judgings.old.items) judging }
    ensures short { AreWellKept judgings.old.items → AreWellKept judgings.new.items }
    ensures ruled { (rule : RuleValue) → AreRuledBy rule judgings.old.items → AreRuledBy rule judgings.new.items }
    ensures count { length judgings.new.items ≡ length judgings.old.items }
    ensures len { vec_len judgings.new ≡ vec_len judgings.old }
    ensures capacity { vec_capacity judgings.new ≡ vec_capacity judgings.old }
{
    let kept = &mut judgings[judging as usize - 1];
    kept.dropped = true;
}
