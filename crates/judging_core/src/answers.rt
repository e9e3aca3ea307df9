ghost use Rattle.std.specs.Prelude.{◌≡◌, ◌+◌, ◌-◌, ◌≤◌, length, slice_set, vec_len, vec_capacity, OnOk};
ghost use Rattle.farm_model.specs.Rows.{answer_of};
ghost use Rattle.judging_core.specs.JudgeShape.{IsWellKept};

use crate::judgings::KeptJudging;
use farm_kinds::{Answer, NoMemory, Verdict};

/// What is reported of a judging. One of no tests is of a broken submission.
pub fn answer_of(kept: &KeptJudging) -> Answer
    requires { IsWellKept kept.now }
    ensures { result ≡ answer_of kept.now.row.rule kept.now.mode kept.now.row.cells }
{
    if kept.handed.is_empty() {
        return Answer::Final(Verdict::CompilerError);
    }
    kept.row.answer(kept.mode)
}

/// Makes room for so many answers more. At `NoMemory` the room is as it was, or more.
pub fn make_answer_room(answers: &mut Vec<Answer>, more: usize) -> Result<(), NoMemory>
    ensures items { answers.new.items ≡ answers.old.items }
    ensures len { vec_len answers.new ≡ vec_len answers.old }
    ensures grows { vec_capacity answers.old ≤ vec_capacity answers.new }
    ensures room { OnOk result (vec_len answers.new + more ≤ vec_capacity answers.new) }
{
    answers.reserve(more).map_err(|_| NoMemory)
}

/// Keeps what is reported of a judging that has changed. What is kept of the others stays.
pub fn keep_answer(answers: &mut Vec<Answer>, judging: u32, answer: Answer)
    requires numbered { 1 ≤ judging }
    requires known { judging ≤ length answers.old.items }
    ensures answers { answers.new.items ≡ slice_set answers.old.items (judging - 1) answer }
    ensures len { vec_len answers.new ≡ vec_len answers.old }
    ensures capacity { vec_capacity answers.new ≡ vec_capacity answers.old }
{
    answers[judging as usize - 1] = answer;
}
