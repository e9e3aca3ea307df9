ghost use Rattle.std.specs.Prelude.{◌≡◌, ◌≤◌, ◌+◌, ◌*◌, ◌^◌, ◌++◌, ◌∷◌, [], List, IfOk, None, map};
ghost use Rattle.farm_kinds.specs.declared.events.Event.{Event as EventValue};
ghost use Rattle.farm_kinds.specs.declared.events.Event.TheVariants as events;
ghost use Rattle.farm_model.specs.Replay.{given_by};
ghost use Rattle.farm_board.specs.BoardState.{BoardState};
ghost use Rattle.farm_board.specs.Histories.{IsOpening};
ghost use Rattle.parallel_judge.specs.Entering.{problem_event, submission_event, ask_event, waiting};
ghost use Rattle.parallel_judge.specs.Hosts.{HasEntered, host_names, with_hosts};
ghost use Rattle.parallel_judge.specs.Table.{named_problem, named_submission};

use crate::names::host_name;
use contest_folder::{Roster, RosterProblem, RosterSubmission};
use farm_board::{Admission, Board, Pass, Trust};
use farm_core::is_asked_for;
use farm_kinds::{Class, Event, Name, NoMemory, Reply};
use std::sync::Wait;

/// Enters the problems of a contest, its submissions, what is asked for of these, and so many hosts, each in order,
/// while no other pass is out.
pub(crate) fn enter_contest<W: Wait, R: Trust + Drop, A: Admission>(
    rt: &W,
    board: &Board<R, A>,
    pass: &mut Pass<A>,
    roster: &Roster,
    hosts: u16,
) -> Result<(), NoMemory>
    requires board { pass.old.board ≡ board.now.id }
    requires left { 4 * 2 ^ 32 ≤ pass.old.left }
    requires hosts { hosts ≤ 16 }
    ensures entered { (start : BoardState) → IsOpening start → HasEntered start [] pass.old → IfOk result (λ _. HasEntered start (with_hosts roster.now hosts) pass.new) }
    ensures left { pass.old.left ≤ pass.new.left + 4 * 2 ^ 32 }
    ensures board { pass.new.board ≡ pass.old.board }
    ensures spare { pass.new.spare ≡ pass.old.spare }
{
    enter_problems(rt, board, pass, roster)?;
    enter_submissions(rt, board, pass, roster)?;
    ask_for_waiting(rt, board, pass, roster)?;
    enter_hosts(rt, board, pass, hosts)
}

/// Enters the problems of a contest, in order.
pub fn enter_problems<W: Wait, R: Trust + Drop, A: Admission>(
    rt: &W,
    board: &Board<R, A>,
    pass: &mut Pass<A>,
    roster: &Roster,
) -> Result<(), NoMemory>
    requires board { pass.old.board ≡ board.now.id }
    requires left { 2 ^ 32 ≤ pass.old.left }
    ensures entered { (start : BoardState) (before : List EventValue) → IsOpening start → HasEntered start before pass.old
        → IfOk result (λ _. HasEntered start (before ++ map problem_event (map named_problem roster.now.problems)) pass.new) }
    ensures left { pass.old.left ≤ pass.new.left + 2 ^ 32 }
    ensures board { pass.new.board ≡ pass.old.board }
    ensures spare { pass.new.spare ≡ pass.old.spare }
{
    for i in 0..roster.problems() {
        let RosterProblem { name, tests } = roster.problem(i + 1);
        enter(
            rt,
            board,
            pass,
            &Event::Problem {
                who: Name::jury(),
                name,
                tests: tests as u32,
            },
        )?;
    }
    Ok(())
}

/// Enters the submissions of a contest, in order.
pub fn enter_submissions<W: Wait, R: Trust + Drop, A: Admission>(
    rt: &W,
    board: &Board<R, A>,
    pass: &mut Pass<A>,
    roster: &Roster,
) -> Result<(), NoMemory>
    requires board { pass.old.board ≡ board.now.id }
    requires left { 2 ^ 32 ≤ pass.old.left }
    ensures entered { (start : BoardState) (before : List EventValue) → IsOpening start → HasEntered start before pass.old
        → IfOk result (λ _. HasEntered start (before ++ map submission_event (map named_submission roster.now.submissions)) pass.new) }
    ensures left { pass.old.left ≤ pass.new.left + 2 ^ 32 }
    ensures board { pass.new.board ≡ pass.old.board }
    ensures spare { pass.new.spare ≡ pass.old.spare }
{
    for i in 0..roster.submissions() {
        let RosterSubmission {
            problem,
            broken,
            ..
        } = roster.submission(i + 1);
        enter(
            rt,
            board,
            pass,
            &Event::Submit {
                problem,
                class: Class::Normal,
                broken,
            },
        )?;
    }
    Ok(())
}

/// Asks for the judgings of the problems that are judged on demand, since all of the contest is to be judged.
fn ask_for_waiting<W: Wait, R: Trust + Drop, A: Admission>(
    rt: &W,
    board: &Board<R, A>,
    pass: &mut Pass<A>,
    roster: &Roster,
) -> Result<(), NoMemory>
    requires board { pass.old.board ≡ board.now.id }
    requires left { 2 ^ 32 ≤ pass.old.left }
    ensures entered { (start : BoardState) (before : List EventValue) → IsOpening start → HasEntered start before pass.old
        → IfOk result (λ _. HasEntered start (before ++ map ask_event (waiting roster.now.settings.modes 1 (map named_submission roster.now.submissions))) pass.new) }
    ensures left { pass.old.left ≤ pass.new.left + 2 ^ 32 }
    ensures board { pass.new.board ≡ pass.old.board }
    ensures spare { pass.new.spare ≡ pass.old.spare }
{
    for i in 0..roster.submissions() {
        let RosterSubmission { problem, .. } = roster.submission(i + 1);
        if is_asked_for(roster.settings().modes(), &problem) {
            continue;
        }
        enter(
            rt,
            board,
            pass,
            &Event::Ask {
                who: Name::jury(),
                judging: i + 1,
            },
        )?;
    }
    Ok(())
}

fn enter_hosts<W: Wait, R: Trust + Drop, A: Admission>(
    rt: &W,
    board: &Board<R, A>,
    pass: &mut Pass<A>,
    hosts: u16,
) -> Result<(), NoMemory>
    requires board { pass.old.board ≡ board.now.id }
    requires left { 2 ^ 32 ≤ pass.old.left }
    requires hosts { hosts ≤ 16 }
    ensures entered { (start : BoardState) (before : List EventValue) → IsOpening start → HasEntered start before pass.old
        → IfOk result (λ _. HasEntered start (before ++ map events.Host (host_names hosts)) pass.new) }
    ensures left { pass.old.left ≤ pass.new.left + 2 ^ 32 }
    ensures board { pass.new.board ≡ pass.old.board }
    ensures spare { pass.new.spare ≡ pass.old.spare }
{
    for host in 0..hosts {
        enter(
            rt,
            board,
            pass,
            &Event::Host {
                name: host_name(host + 1),
            },
        )?;
    }
    Ok(())
}

/// Enters an event that gives no result, and whose reply tells nothing that is not known.
fn enter<W: Wait, R: Trust + Drop, A: Admission>(
    rt: &W,
    board: &Board<R, A>,
    pass: &mut Pass<A>,
    event: &Event,
) -> Result<(), NoMemory>
    requires board { pass.old.board ≡ board.now.id }
    requires left { 1 ≤ pass.old.left }
    requires no_result { given_by event.now ≡ None }
    ensures entered { (start : BoardState) (before : List EventValue) → IsOpening start → HasEntered start before pass.old
        → IfOk result (λ _. HasEntered start (before ++ event.now ∷ []) pass.new) }
    ensures left { pass.new.left + 1 ≡ pass.old.left }
    ensures board { pass.new.board ≡ pass.old.board }
    ensures spare { pass.new.spare ≡ pass.old.spare }
{
    let reply = board.step(rt, pass, event);
    if matches!(reply, Reply::NoMemory) {
        return Err(NoMemory);
    }
    Ok(())
}
