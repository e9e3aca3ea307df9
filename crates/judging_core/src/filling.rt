//! A result that counts is put into its cell, and says where its judging stands then.
ghost use Rattle.std.specs.Prelude.{◌≡◌, ◌≤◌, ◌-◌, length, slice_get, slice_set, vec_len, vec_capacity, Some, None};
ghost use Rattle.farm_kinds.specs.RuleValue.{RuleValue};
ghost use Rattle.farm_model.specs.Judgings.{cell_of, with_result};
ghost use Rattle.farm_model.specs.Rows.{answer_of};
ghost use Rattle.lazy_stop.specs.Matters.{IsPossible};
ghost use Rattle.judging_core.specs.Listed.{IsWantedUpTo, IsLastWanted};
ghost use Rattle.judging_core.specs.JudgeShape.{judging_values, IsReported, IsWellKept, AreWellKept, AreRuledBy, CanAllHold};

use crate::answers::answer_of;
use crate::judgings::KeptJudging;
use crate::open::wanted_up_to;
use farm_kinds::{Answer, Kind};
use lazy_stop::Row;

/// Where a judging stands once a result of it counts.
#[derive(Clone, Copy, Debug)]
pub struct Standing {
    /// What is reported of it.
    pub answer: Answer,
    /// The rank up to which its empty cells are to be judged. 0 where none is.
    pub last: u16,
}

/// Puts the kind into the cell, which is empty, and says where the judging stands then.
pub fn fill(judgings: &mut Vec<KeptJudging>, judging: u32, test: u32, given: Kind) -> Standing
    requires numbered { 1 ≤ judging }
    requires known { judging ≤ length judgings.old.items }
    requires empty { cell_of (judging_values judgings.old.items) judging test ≡ Some None }
    requires short { AreWellKept judgings.old.items }
    requires possible { CanAllHold given judgings.old.items }
    ensures value { judging_values judgings.new.items ≡ with_result (judging_values judgings.old.items) judging test given }
    ensures short { AreWellKept judgings.new.items }
    ensures ruled { (rule : RuleValue) → AreRuledBy rule judgings.old.items → AreRuledBy rule judgings.new.items }
    ensures answer { (rule : RuleValue) → AreRuledBy rule judgings.old.items → IsReported rule (judging_values judgings.new.items) judging result.answer }
    ensures last { (rule : RuleValue) → AreRuledBy rule judgings.old.items → IsLastWanted rule (judging_values judgings.new.items) judging result.last }
    ensures count { length judgings.new.items ≡ length judgings.old.items }
    ensures len { vec_len judgings.new ≡ vec_len judgings.old }
    ensures capacity { vec_capacity judgings.new ≡ vec_capacity judgings.old }
{
    let kept = &mut judgings[judging as usize - 1];
    put_result(kept, test as u16, given)
}

/// Puts the kind into the judging's empty cell, and says where it stands then.
fn put_result(kept: &mut KeptJudging, test: u16, given: Kind) -> Standing
    requires numbered { 1 ≤ test }
    requires empty { slice_get kept.old.row.cells (test - 1) ≡ Some None }
    requires short { IsWellKept kept.old }
    requires possible { IsPossible kept.old.row.rule given }
    ensures value { kept.new ≡ record kept.old { row = record kept.old.row { cells = slice_set kept.old.row.cells (test - 1) (Some given) } } }
    ensures short { IsWellKept kept.new }
    ensures answer { result.answer ≡ answer_of kept.old.row.rule kept.old.mode kept.new.row.cells }
    ensures last { IsWantedUpTo kept.old.row.rule kept.old.mode kept.new.row.cells result.last }
{
    put(&mut kept.row, test, given);
    Standing {
        answer: answer_of(kept),
        last: wanted_up_to(kept),
    }
}

/// Puts the kind into the empty cell.
fn put(row: &mut Row, test: u16, given: Kind)
    requires numbered { 1 ≤ test }
    requires empty { slice_get row.old.cells (test - 1) ≡ Some None }
    requires possible { IsPossible row.old.rule given }
    ensures { row.new ≡ record row.old { cells = slice_set row.old.cells (test - 1) (Some given) } }
{
    row.put(test, given);
}
