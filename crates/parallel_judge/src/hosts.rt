ghost use Rattle.std.specs.Prelude.{◌≡◌, ◌<◌, ◌≤◌, ◌+◌, ◌*◌, ◌^◌, ◌++◌, [], ℕ, List, Option, IfOk, All, map, is_some, vec_len, length, slice_index_or};
ghost use Rattle.farm_kinds.specs.declared.outcomes.Task.{Task};
ghost use Rattle.case_run.specs.Cases.{CanRun, TestCase, test_case};
ghost use Rattle.case_run.specs.Values.{case_value};
ghost use Rattle.contest_folder.specs.JudgingCases.{case_at};
ghost use Rattle.farm_board.specs.BoardState.{BoardState};
ghost use Rattle.farm_board.specs.Histories.{IsOpening};
ghost use Rattle.farm_board.specs.declared.entries.Call.{Call};
ghost use Rattle.farm_board.specs.Passes.{PassValue};
ghost use Rattle.parallel_judge.specs.Hosts.{host_names, admits_of, share, IsBeside, IsReadyPass, IsDoneFrom, IsDonePass, pass_numbers};
ghost use Rattle.parallel_judge.specs.Journal.{KeepsJournal};
ghost use Rattle.parallel_judge.specs.Table.{tests_for};
ghost use Rattle.parallel_judge.specs.UnderWay.{IsUnderWay};

use crate::entering::enter_contest;
use crate::names::{host_name, host_number};
use crate::noted::NotedFarm;
use case_run::{Case, run_case};
use contest_folder::Roster;
use farm_board::{Admission, Board, LocalBench, Pass, Proved, Trust};
use farm_core::Farm;
use farm_kinds::{Kind, NoMemory};
use judgehost::{Gate, Runner, host_loop};
use std::alloc::Global;
use std::sync::Wait;
use std::thread;
use std::thread::Threads;

/// How many claims a host may make.
const FUEL: u64 = 1 << 32;

/// How many calls of the board the pass of a host may make: a claim and a result in each turn.
const SHARE: u64 = 1 << 33;

/// Enters the contest into a farm, lets so many hosts work at the same time, and gives the farm once all have stopped.
pub(crate) fn run_hosts<A: Admission + Send + Sync, R: Threads + Wait + Sync, G: Gate + Sync>(
    rt: &R,
    alloc: Global,
    roster: &Roster,
    hosts: u16,
    gate: &G,
    journal: bool,
) -> Result<NotedFarm, NoMemory>
    requires named { A.admits ≡ admits_of (case_at roster.now) }
    requires hosts { hosts ≤ 16 }
    ensures under_way { IfOk result (λ noted. IsUnderWay roster.now.settings (case_at roster.now) (map (tests_for roster.now) roster.now.submissions) [] (host_names hosts) noted.farm) }
    ensures journal { IfOk result (λ noted. KeepsJournal roster.now.settings (case_at roster.now) hosts noted.farm noted.history) }
    ensures kept { IfOk result (λ noted. is_some noted.history ≡ journal) }
{
    let farm = Farm::new(alloc, roster.settings().copy()?);
    let (board, mut pass) = Board::<Proved<&Roster>, A>::new(
        alloc,
        farm,
        Proved::new(roster),
        hosts + 1,
        journal,
    )?;
    enter_contest(rt, &board, &mut pass, roster, hosts)?;
    let begun = split_passes(rt, alloc, &board, &mut pass, hosts)?;
    let ended = run_passes(rt, alloc, &board, gate, begun)?;
    join_passes(rt, &board, &mut pass, ended);
    let _ = pass.is_alone();
    let (farm, history) = board.close(pass);
    Ok(NotedFarm { farm, history })
}

/// Splits off a pass for each host.
fn split_passes<W: Wait, R: Trust + Drop, A: Admission>(
    rt: &W,
    alloc: Global,
    board: &Board<R, A>,
    pass: &mut Pass<A>,
    hosts: u16,
) -> Result<Vec<Pass<A>>, NoMemory>
    requires board { pass.old.board ≡ board.now.id }
    requires hosts { hosts ≤ 16 }
    requires spare { hosts ≤ pass.old.spare }
    requires left { 16 * (share + 1) ≤ pass.old.left }
    ensures beside { (case_at : Task → Option TestCase) (start : BoardState) (calls : List Call)
        → IsBeside case_at start calls [] [] pass.old → IfOk result (λ passes. IsBeside case_at start calls (pass_numbers passes.items) [] pass.new) }
    ensures ready { IfOk result (λ passes. All (IsReadyPass board.now.id) passes.items) }
    ensures len { IfOk result (λ passes. vec_len passes ≡ hosts) }
    ensures spare { IfOk result (λ _. pass.new.spare + hosts ≡ pass.old.spare) }
    ensures left { pass.old.left ≤ pass.new.left + 16 * (share + 1) }
    ensures board { pass.new.board ≡ pass.old.board }
{
    let mut passes = Vec::with_capacity(alloc, usize::from(hosts))?;
    for _host in 0..hosts {
        passes.push_reserved(board.split(rt, pass, SHARE));
    }
    Ok(passes)
}

/// Lets the hosts work at the same time, each in a thread of its own where one can be started.
fn run_passes<A: Admission + Send + Sync, R: Threads + Wait + Sync, G: Gate + Sync>(
    rt: &R,
    alloc: Global,
    board: &Board<Proved<&Roster>, A>,
    gate: &G,
    passes: Vec<Pass<A>>,
) -> Result<Vec<Pass<A>>, NoMemory>
    requires passes { All (IsReadyPass board.now.id) passes.items }
    ensures len { IfOk result (λ ended. vec_len ended ≡ vec_len passes) }
    ensures numbers { IfOk result (λ ended. (k : ℕ) (begun pass : PassValue) → k < length passes.items
        → (slice_index_or ended.items k pass).number ≡ (slice_index_or passes.items k begun).number) }
    ensures passes { IfOk result (λ ended. All (IsDonePass (case_at board.now.trust.cases.now) board.now.id) ended.items) }
{
    let ended = thread::map_vec(
        rt,
        passes,
        &|pass: Pass<A>| -> Pass<A>
            requires { IsReadyPass board.now.id pass }
            ensures { IsDoneFrom (case_at board.entry.now.trust.cases.now) board.entry.now.id pass result }
        { run_pass(rt, alloc, board, gate, pass) },
    )?;
    Ok(ended)
}

/// The host of the pass's number at work, until no task is open, its gate lets it die, or it is refused. Where there is
/// no memory for what runs its cases, it does nothing.
fn run_pass<A: Admission, W: Wait, G: Gate>(
    rt: &W,
    alloc: Global,
    board: &Board<Proved<&Roster>, A>,
    gate: &G,
    pass: Pass<A>,
) -> Pass<A>
    requires { IsReadyPass board.now.id pass }
    ensures { IsDoneFrom (case_at board.now.trust.cases.now) board.now.id pass result }
{
    // The passes of a contest's hosts have the numbers from 1 to 16.
    let Some(number) = host_number(pass.number()) else {
        return pass;
    };
    let Ok(run) = Box::new(
        alloc,
        move |case: &Case<'_>| -> Result<Kind, NoMemory>
            requires { CanRun (test_case case.now) }
            ensures { IfOk result (λ kind. kind ≡ case_value (test_case case.now)) }
        { run_case(alloc, case) },
    ) else {
        return pass;
    };
    let runner = Runner::new(run);
    let mut bench = LocalBench::new(rt, board, pass, host_name(number));
    // Whatever ended it, what it left is done by the caller.
    let _ = host_loop(&runner, &mut bench, gate, u32::from(number), FUEL);
    bench.end()
}

/// Takes in the passes of the hosts.
fn join_passes<W: Wait, R: Trust + Drop, A: Admission>(
    rt: &W,
    board: &Board<R, A>,
    pass: &mut Pass<A>,
    passes: Vec<Pass<A>>,
)
    requires board { pass.old.board ≡ board.now.id }
    requires passes { All (λ from. from.board ≡ board.now.id) passes.items }
    requires left { vec_len passes < pass.old.left }
    ensures beside { (case_at : Task → Option TestCase) (start : BoardState) (calls : List Call) (split joined : List ℕ)
        → IsOpening start → All (IsDonePass case_at board.now.id) passes.items
        → IsBeside case_at start calls split joined pass.old → IsBeside case_at start calls split (joined ++ pass_numbers passes.items) pass.new }
    ensures spare { All (λ from. from.spare ≡ 0) passes.items → pass.new.spare ≡ pass.old.spare + vec_len passes }
    ensures board { pass.new.board ≡ pass.old.board }
{
    for from in passes {
        board.join(rt, pass, from);
    }
}
