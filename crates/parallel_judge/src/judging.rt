ghost use Rattle.std.specs.Prelude.{◌≡◌, ◌≤◌, ℕ, List, [], Option, Some, IfOk, map, is_some};
ghost use Rattle.farm_kinds.specs.declared.outcomes.Task.{Task};
ghost use Rattle.farm_model.specs.State.{SettingsValue};
ghost use Rattle.case_run.specs.Cases.{TestCase};
ghost use Rattle.contest_folder.specs.JudgingCases.{case_at};
ghost use Rattle.farm_board.specs.declared.entries.Call.{Call};
ghost use Rattle.parallel_judge.specs.Hosts.{host_names, admits_of};
ghost use Rattle.parallel_judge.specs.Journal.{IsJournal, KeepsJournal};
ghost use Rattle.parallel_judge.specs.Noting.{StillKeeps};
ghost use Rattle.parallel_judge.specs.Table.{table_rows, tests_for};
ghost use Rattle.parallel_judge.specs.UnderWay.{IsUnderWay};

use crate::finishing::finish;
use crate::hosts::run_hosts;
use crate::names::{caller, host_name};
use crate::noted::NotedFarm;
use crate::verdicts::read_table;
use contest_folder::Roster;
use farm_board::{Admission, CallJournal};
use farm_kinds::{Event, NoMemory, TableRows};
use judgehost::Gate;
use people::Person;
use std::alloc::Global;
use std::marker::Brand;
use std::sync::Wait;
use std::thread::Threads;

/// What the judging of a contest gives.
#[derive(Debug, Drop)]
pub struct Outcome {
    /// The verdict of each submission.
    pub table: TableRows,
    /// The calls of the judging in their order, where a journal was asked for. Those of host `h1` and so on have the
    /// number of its pass, and those of the caller have 0.
    pub history: Option<CallJournal>,
}

/// Judges a contest by so many host threads, at most 16, and gives its table. The hosts `h1` and so on work at the same
/// time, each until no task is open or its gate lets it die; then all are brought down, and what they left is done by
/// the caller as host `h0`. `person` is told of the caller's tests alone.
pub fn judge_all<R: Threads + Wait + Sync, G: Gate + Sync, P: Person>(
    rt: &R,
    alloc: Global,
    roster: &Roster,
    hosts: u16,
    gate: &G,
    journal: bool,
    person: &mut P,
) -> Result<Outcome, NoMemory>
    requires hosts { hosts ≤ 16 }
    ensures table { IfOk result (λ outcome. outcome.table ≡ table_rows roster.now) }
    ensures kept { IfOk result (λ outcome. is_some outcome.history ≡ journal) }
    ensures journal { IfOk result (λ outcome. (calls : List Call) → outcome.history ≡ Some calls → IsJournal roster.now hosts calls) }
{
    judge_named::<Brand, R, G, P>(rt, alloc, roster, hosts, gate, journal, person)
}

/// The same, where the type `A` says which results are admitted.
fn judge_named<A: Admission + Send + Sync, R: Threads + Wait + Sync, G: Gate + Sync, P: Person>(
    rt: &R,
    alloc: Global,
    roster: &Roster,
    hosts: u16,
    gate: &G,
    journal: bool,
    person: &mut P,
) -> Result<Outcome, NoMemory>
    requires named { A.admits ≡ admits_of (case_at roster.now) }
    requires hosts { hosts ≤ 16 }
    ensures table { IfOk result (λ outcome. outcome.table ≡ table_rows roster.now) }
    ensures kept { IfOk result (λ outcome. is_some outcome.history ≡ journal) }
    ensures journal { IfOk result (λ outcome. (calls : List Call) → outcome.history ≡ Some calls → IsJournal roster.now hosts calls) }
{
    let mut noted = run_hosts::<A, R, G>(rt, alloc, roster, hosts, gate, journal)?;
    let outcome = judge_rest(alloc, &mut noted, roster, hosts, person);
    drop(noted);
    outcome
}

/// Judges what the hosts left, and gives the table with the journal.
fn judge_rest<P: Person>(
    alloc: Global,
    noted: &mut NotedFarm,
    roster: &Roster,
    hosts: u16,
    person: &mut P,
) -> Result<Outcome, NoMemory>
    requires hosts { hosts ≤ 16 }
    requires under_way { IsUnderWay roster.now.settings (case_at roster.now) (map (tests_for roster.now) roster.now.submissions) [] (host_names hosts) noted.old.farm }
    requires journal { KeepsJournal roster.now.settings (case_at roster.now) hosts noted.old.farm noted.old.history }
    ensures table { IfOk result (λ outcome. outcome.table ≡ table_rows roster.now) }
    ensures kept { IfOk result (λ outcome. is_some outcome.history ≡ is_some noted.old.history) }
    ensures journal { IfOk result (λ outcome. (calls : List Call) → outcome.history ≡ Some calls → IsJournal roster.now hosts calls) }
{
    let table = judge_left(alloc, noted, roster, hosts, person)?;
    let history = noted.history.take();
    Ok(Outcome { table, history })
}

/// Brings the hosts down, does what they left, and reads the table.
fn judge_left<P: Person>(
    alloc: Global,
    noted: &mut NotedFarm,
    roster: &Roster,
    hosts: u16,
    person: &mut P,
) -> Result<TableRows, NoMemory>
    requires hosts { hosts ≤ 16 }
    requires under_way { IsUnderWay roster.now.settings (case_at roster.now) (map (tests_for roster.now) roster.now.submissions) [] (host_names hosts) noted.old.farm }
    requires journal { KeepsJournal roster.now.settings (case_at roster.now) hosts noted.old.farm noted.old.history }
    ensures table { IfOk result (λ table. table ≡ table_rows roster.now) }
    ensures kept { is_some noted.new.history ≡ is_some noted.old.history }
    ensures journal { IfOk result (λ _. (calls : List Call) → noted.new.history ≡ Some calls → IsJournal roster.now hosts calls) }
{
    bring_down(noted, hosts)?;
    let host = caller();
    noted.enter(&Event::Host { name: host })?;
    let finished = finish(alloc, noted, roster, host, person);
    person.ends();
    finished?;
    read_table(alloc, noted, roster)
}

/// Brings the hosts down, one after the other, so that they hold nothing.
fn bring_down(noted: &mut NotedFarm, hosts: u16) -> Result<(), NoMemory>
    requires hosts { hosts ≤ 16 }
    ensures down { (settings : SettingsValue) (case_at : Task → Option TestCase) (cells : List ℕ)
        → IsUnderWay settings case_at cells [] (host_names hosts) noted.old.farm
        → IfOk result (λ _. IsUnderWay settings case_at cells (host_names hosts) [] noted.new.farm) }
    ensures journal { (case_at : Task → Option TestCase) → StillKeeps case_at noted.old noted.new }
    ensures kept { is_some noted.new.history ≡ is_some noted.old.history }
{
    for host in 0..hosts {
        noted.enter(&Event::Down {
            host: host_name(host + 1),
        })?;
    }
    Ok(())
}
