ghost use Rattle.std.specs.Prelude.{◌≡◌, Option, IfOk, map, is_some};
ghost use Rattle.farm_kinds.specs.declared.outcomes.Task.{Task};
ghost use Rattle.farm_kinds.specs.declared.outcomes.Verdict.{Verdict as VerdictValue};
ghost use Rattle.farm_kinds.specs.declared.outcomes.Answer.TheVariants as answers;
ghost use Rattle.farm_kinds.specs.declared.events.Event.TheVariants as events;
ghost use Rattle.farm_kinds.specs.declared.events.Reply.TheVariants as replies;
ghost use Rattle.farm_model.specs.Replay.{reply_to};
ghost use Rattle.case_run.specs.Cases.{TestCase};
ghost use Rattle.contest_folder.specs.JudgingCases.{case_at};
ghost use Rattle.parallel_judge.specs.Noting.{StillKeeps};
ghost use Rattle.parallel_judge.specs.Table.{table_rows, tests_for};
ghost use Rattle.parallel_judge.specs.Working.{IsFinished};

use crate::noted::NotedFarm;
use contest_folder::{Roster, RosterSubmission};
use farm_kinds::{Answer, Event, NoMemory, Reply, TableRow, TableRows, Verdict};
use std::alloc::Global;

/// The table of a contest whose tests were all run that matter.
#[tactic(auto, unfolding(crate::specs::Table::table_rows))]
pub(crate) fn read_table(
    alloc: Global,
    noted: &mut NotedFarm,
    roster: &Roster,
) -> Result<TableRows, NoMemory>
    requires { IsFinished roster.now.settings (case_at roster.now) (map (tests_for roster.now) roster.now.submissions) noted.old.farm }
    ensures rows { IfOk result (λ rows. rows ≡ table_rows roster.now) }
    ensures same { IfOk result (λ _. noted.new.farm ≡ noted.old.farm) }
    ensures journal { (case_at : Task → Option TestCase) → StillKeeps case_at noted.old noted.new }
    ensures kept { is_some noted.new.history ≡ is_some noted.old.history }
{
    let mut rows = TableRows::new(alloc);
    for i in 0..roster.submissions() {
        let RosterSubmission { team, problem, .. } = roster.submission(i + 1);
        rows.push(TableRow {
            number: i + 1,
            team,
            problem,
            verdict: verdict_of(noted, i + 1)?,
        })?;
    }
    Ok(rows)
}

/// The verdict of a judging that is shown final.
fn verdict_of(noted: &mut NotedFarm, judging: u32) -> Result<Verdict, NoMemory>
    ensures same { noted.new.farm ≡ noted.old.farm }
    ensures verdict { (verdict : VerdictValue) → reply_to noted.old.farm (events.Show judging) ≡ replies.Shown (answers.Final verdict) → IfOk result (λ v. v ≡ verdict) }
    ensures journal { (case_at : Task → Option TestCase) → StillKeeps case_at noted.old noted.new }
    ensures kept { is_some noted.new.history ≡ is_some noted.old.history }
{
    match noted.step(&Event::Show { judging }) {
        Reply::NoMemory => Err(NoMemory),
        Reply::Shown(Answer::Final(verdict)) => Ok(verdict),
        _ => Ok(Verdict::CompilerError),
    }
}
