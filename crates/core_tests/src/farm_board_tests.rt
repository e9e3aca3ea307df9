ghost use Rattle.std.specs.Prelude.{◌≡◌, ◌+◌, ◌<◌, ◌≤◌, ◌^◌, [], None, true};
ghost use Rattle.default_validator.specs.Accepts.{wide_token_of};
ghost use Rattle.case_run.specs.Images.{is_image};
ghost use Rattle.farm_board.specs.Trusts.{is_value_of};

use crate::judgehost_tests::counting_runner;
use case_run::{Case, Cases, Check, image_ok};
use default_validator::{Flags, wide_token};
use farm_board::{Admission, Anyone, Board, CallJournal, LocalBench, Pass, Proved};
use farm_core::Farm;
use farm_kinds::{Answer, Class, Event, Kind, Limits, Name, NoMemory, Reply, Task, Verdict};
use farm_settings::Settings;
use judgehost::{AlwaysOn, HostEnd, Runner, host_loop};
use std::alloc::Global;
use std::marker::Brand;
use std::sync::atomic::{AtomicU64, Ordering};
use std::sync::{Arc, Wait};
use std::test::*;
use std::thread;
use std::thread::Threads;

fn name(word: &[u8]) -> Name {
    Name::read(word).unwrap_or(Name::jury())
}

fn problem() -> Event {
    Event::Problem {
        who: Name::jury(),
        name: name(b"A"),
        tests: 1,
    }
}

fn submission() -> Event {
    Event::Submit {
        problem: name(b"A"),
        class: Class::Normal,
        broken: false,
    }
}

/// Makes a call, whatever is replied.
fn tell<W: Wait, A: Admission>(rt: &W, board: &Board<Anyone, A>, pass: &mut Pass<A>, event: Event)
    requires board { pass.old.board ≡ board.now.id }
    requires left { 1 ≤ pass.old.left }
    ensures board { pass.new.board ≡ pass.old.board }
    ensures spare { pass.new.spare ≡ pass.old.spare }
    ensures start { pass.new.start ≡ pass.old.start }
    ensures left { pass.new.left + 1 ≡ pass.old.left }
{
    let reply = board.step(rt, pass, &event);
    drop(reply);
    drop(event);
}

/// Makes a call and keeps the turn, and tells the number of the judging that is submitted, if one is.
fn tell_and_keep<W: Wait, A: Admission>(
    rt: &W,
    board: &Board<Anyone, A>,
    pass: &mut Pass<A>,
    event: Event,
) -> Option<u32>
    requires board { pass.old.board ≡ board.now.id }
    requires left { 1 ≤ pass.old.left }
    ensures board { pass.new.board ≡ pass.old.board }
    ensures spare { pass.new.spare ≡ pass.old.spare }
    ensures start { pass.new.start ≡ pass.old.start }
    ensures left { pass.new.left + 1 ≡ pass.old.left }
{
    let reply = board.step_and_keep(rt, pass, &event);
    let submitted = submitted_of(&reply);
    drop(reply);
    drop(event);
    submitted
}

/// The number of the judging that is submitted, if one is.
fn submitted_of(reply: &Reply) -> Option<u32> {
    match reply {
        Reply::Submitted { judging, .. } => Some(*judging),
        _ => None,
    }
}

/// Whether there is a judging of this number. None where the reply is of something else.
fn look<W: Wait, A: Admission>(
    rt: &W,
    board: &Board<Anyone, A>,
    pass: &mut Pass<A>,
    judging: u32,
) -> Option<bool>
    requires board { pass.old.board ≡ board.now.id }
    requires left { 1 ≤ pass.old.left }
    ensures board { pass.new.board ≡ pass.old.board }
{
    let event = Event::Show { judging };
    let reply = board.step(rt, pass, &event);
    let seen = is_there(&reply);
    drop(reply);
    drop(event);
    seen
}

fn is_there(reply: &Reply) -> Option<bool> {
    match reply {
        Reply::Shown(_) => Some(true),
        Reply::NoJudging { .. } => Some(false),
        _ => None,
    }
}

/// Enters the problem and submits to it.
fn submit<W: Wait, A: Admission>(rt: &W, board: &Board<Anyone, A>, pass: &mut Pass<A>)
    requires board { pass.old.board ≡ board.now.id }
    requires left { 2 ≤ pass.old.left }
    ensures board { pass.new.board ≡ pass.old.board }
    ensures spare { pass.new.spare ≡ pass.old.spare }
    ensures start { pass.new.start ≡ pass.old.start }
{
    tell(rt, board, pass, problem());
    tell(rt, board, pass, submission());
}

/// Keeps its turn, which ends by `let_go`, and before the pass is split, joined or closed.
fn keep_turns<W: Wait, A: Admission>(rt: &W, board: &Board<Anyone, A>, pass: &mut Pass<A>)
    requires board { pass.old.board ≡ board.now.id }
    requires left { 20 ≤ pass.old.left }
    requires spare { 0 < pass.old.spare }
    ensures board { pass.new.board ≡ pass.old.board }
    ensures spare { pass.new.spare ≡ pass.old.spare }
    ensures start { pass.new.start ≡ pass.old.start }
{
    tell_and_keep(rt, board, pass, problem());
    let mut other = board.split(rt, pass, 10);
    tell_and_keep(rt, board, pass, submission());
    board.let_go(pass);
    tell(rt, board, &mut other, submission());
    tell_and_keep(rt, board, &mut other, submission());
    board.join(rt, pass, other);
    tell_and_keep(rt, board, pass, submission());
}

/// By which passes the calls were made, in order.
fn are_made_by(history: &CallJournal, passes: &[u64]) -> bool {
    let mut wanted = passes.iter();
    for call in history.as_slice() {
        match wanted.next() {
            Some(number) if *number == call.number => {}
            _ => return false,
        }
    }
    wanted.next().is_none()
}

/// Whether the last call is the submission of this number.
fn ends_with_submission(history: &CallJournal, number: u32) -> bool {
    let Some(last) = history.as_slice().last() else {
        return false;
    };
    matches!(last.event, Event::Submit { broken, .. } if !broken)
        && matches!(last.reply, Reply::Submitted { judging, .. } if judging == number)
}

/// Whether a journal was kept, of calls by these passes, of which the last is the submission of this number.
fn is_noted(history: &Option<CallJournal>, passes: &[u64], number: u32) -> bool {
    match history {
        Some(history) => are_made_by(history, passes) && ends_with_submission(history, number),
        None => false,
    }
}

/// Whether the journal of a board with `seats` seats has calls by `passes`, of which the last is the submission
/// `number`, once the board's only pass, or where there are two one of them, has submitted.
fn notes(
    rt: &impl Wait,
    alloc: Global,
    seats: u16,
    passes: &[u64],
    number: u32,
) -> Result<bool, NoMemory>
    requires seats { (1 ≤ seats) × (seats ≤ 64) }
{
    let farm = Farm::new(alloc, Settings::standard(alloc));
    let (board, mut pass) = Board::<Anyone, Brand>::new(alloc, farm, Anyone, seats, true)?;
    if seats == 1 {
        submit(rt, &board, &mut pass);
    } else {
        keep_turns(rt, &board, &mut pass);
    }
    // For the proof alone: that no other pass is out is known behind it.
    let _ = pass.is_alone();
    let (farm, history) = board.close(pass);
    let noted = is_noted(&history, passes, number);
    drop(history);
    drop(farm);
    Ok(noted)
}

#[test]
fn journal_is_read_back(rt: HostRuntime) -> Result<(), Fail> {
    let noted = notes(&rt, rt.alloc(), 1, &[0, 0], 1)?;
    assert!(rt; noted);
    Ok(())
}

/// A turn that was kept ends by `let_go`, and before the pass is split, joined or closed.
#[test]
fn a_kept_turn_is_let_go(rt: HostRuntime) -> Result<(), Fail> {
    let noted = notes(&rt, rt.alloc(), 2, &[0, 0, 1, 1, 0], 4)?;
    assert!(rt; noted);
    Ok(())
}

// Enters a submission, and looks until there are two, at most this often.
fn submit_and_wait<W: Wait, A: Admission>(
    rt: &W,
    board: &Board<Anyone, A>,
    mut pass: Pass<A>,
    most: u32,
) -> (Pass<A>, bool)
    requires { pass.board ≡ board.now.id }
    ensures { result.0.board ≡ board.now.id }
{
    if pass.left() == 0 {
        return (pass, false);
    }
    tell(rt, board, &mut pass, submission());
    for turn in 0..most {
        let _ = turn;
        if pass.left() == 0 {
            break;
        }
        if look(rt, board, &mut pass, 2) == Some(true) {
            return (pass, true);
        }
        thread::yield_now();
    }
    (pass, false)
}

// Submits this often and looks each time, in the same turn, whether another submission came behind it.
fn submit_and_look<W: Wait, A: Admission>(
    rt: &W,
    board: &Board<Anyone, A>,
    mut pass: Pass<A>,
    rounds: u32,
) -> (Pass<A>, bool)
    requires { pass.board ≡ board.now.id }
    ensures { result.0.board ≡ board.now.id }
{
    for round in 0..rounds {
        let _ = round;
        if pass.left() < 2 {
            break;
        }
        let Some(judging) = tell_and_keep(rt, board, &mut pass, submission()) else {
            board.let_go(&mut pass);
            return (pass, false);
        };
        if look(rt, board, &mut pass, judging.saturating_add(1)) != Some(false) {
            return (pass, false);
        }
    }
    (pass, true)
}

// Submits and waits for another submission, or looks each time whether one came behind it.
fn play<W: Wait, A: Admission>(
    rt: &W,
    board: &Board<Anyone, A>,
    pass: Pass<A>,
    look: bool,
) -> (Pass<A>, bool)
    requires { pass.board ≡ board.now.id }
    ensures { result.0.board ≡ board.now.id }
{
    if look {
        return submit_and_look(rt, board, pass, 2000);
    }
    submit_and_wait(rt, board, pass, 1_000_000)
}

// Two threads, each with a pass of its own, do so.
fn play_in_two_threads<R: Threads + Wait + Sync, A: Admission + Send + Sync>(
    rt: &R,
    board: &Board<Anyone, A>,
    one: Pass<A>,
    two: Pass<A>,
    look: bool,
) -> (bool, bool)
    requires { (one.board ≡ board.now.id) × (two.board ≡ board.now.id) }
{
    let ((_, one_saw), (_, two_saw)) = thread::join(
        rt,
        || play(rt, board, one, look),
        || play(rt, board, two, look),
    );
    (one_saw, two_saw)
}

/// Whether seats run out when a pass is split off, and come back when it is joined. There are two.
fn split_and_join<W: Wait, A: Admission>(
    rt: &W,
    board: &Board<Anyone, A>,
    pass: &mut Pass<A>,
) -> bool
    requires { pass.old.board ≡ board.now.id }
{
    if pass.spare() != 1 || pass.left() <= 1001 {
        return false;
    }
    let other = board.split(rt, pass, 1000);
    let split = pass.spare() == 0 && other.left() == 1000;
    board.join(rt, pass, other);
    split && pass.spare() == 1 && pass.is_alone()
}

/// Whether two passes, each in a thread, see what they should: each that the other submits too, or where they look
/// within a turn, that no call of the other came behind theirs.
fn two_see<R: Threads + Wait + Sync, A: Admission + Send + Sync>(
    rt: &R,
    board: &Board<Anyone, A>,
    pass: &mut Pass<A>,
    look: bool,
) -> bool
    requires { pass.old.board ≡ board.now.id }
{
    if pass.spare() < 2 || pass.left() < 10_000_000 {
        return false;
    }
    tell(rt, board, pass, problem());
    let one = board.split(rt, pass, 2_000_000);
    let two = board.split(rt, pass, 2_000_000);
    let (one_saw, two_saw) = play_in_two_threads(rt, board, one, two, look);
    one_saw && two_saw
}

/// What is shown of a board.
#[derive(Clone, Copy)]
enum Shown {
    Seats,
    Live,
    Turns,
}

/// Whether what `shown` names holds of a board with `seats` seats.
fn is_so<R: Threads + Wait + Sync>(
    rt: &R,
    alloc: Global,
    seats: u16,
    shown: Shown,
) -> Result<bool, NoMemory>
    requires seats { (1 ≤ seats) × (seats ≤ 64) }
{
    let farm = Farm::new(alloc, Settings::standard(alloc));
    let (board, mut pass) = Board::<Anyone, Brand>::new(alloc, farm, Anyone, seats, false)?;
    let so = match shown {
        Shown::Seats => split_and_join(rt, &board, &mut pass),
        Shown::Live => two_see(rt, &board, &mut pass, false),
        Shown::Turns => two_see(rt, &board, &mut pass, true),
    };
    drop(pass);
    drop(board);
    Ok(so)
}

#[test]
fn seats_run_out_and_come_back(rt: HostRuntime) -> Result<(), Fail> {
    let so = is_so(&rt, rt.alloc(), 2, Shown::Seats)?;
    assert!(rt; so);
    Ok(())
}

#[test]
fn two_passes_are_live_at_once(rt: HostRuntime) -> Result<(), Fail> {
    let so = is_so(&rt, rt.alloc(), 3, Shown::Live)?;
    assert!(rt; so);
    Ok(())
}

/// Whoever keeps its turn makes its next call before any other pass makes one.
#[test]
fn no_call_comes_between_two_of_one_turn(rt: HostRuntime) -> Result<(), Fail> {
    let so = is_so(&rt, rt.alloc(), 3, Shown::Turns)?;
    assert!(rt; so);
    Ok(())
}

/// The image of a program that exits with 1.
const FAIL: &[u8] = b"\x13\x05\x10\x00\x93\x08\xD0\x05\x73\x00\x00\x00";

const LIMITS: Limits = Limits {
    instructions: 9,
    pages: 1,
    output: 0,
};

/// Every test is that of one program, with nothing to read and an empty answer.
#[derive(Clone, Copy)]
struct OneProgram<'a> {
    image: &'a [u8],
    flags: Flags,
    ghost is_image: { is_image image.now ≡ true },
    ghost not_wide: { wide_token_of flags [] ≡ None },
}

impl<'a> Cases for OneProgram<'a> {
    ghost use Rattle.std.specs.Prelude.{Some};
    ghost use Rattle.case_run.specs.Cases.{ByDefault};

    ghost case_at = { λ cases task. Some (record { image = cases.image.now; input = []; answer = []; check = ByDefault cases.flags; limits = record { instructions = 9; pages = 1; output = 0 } }) };

    fn case_of(&self, _task: Task) -> Option<Case<'_>> {
        Some(Case {
            image: self.image,
            input: b"",
            answer: b"",
            check: Check::Default(self.flags),
            limits: LIMITS,
        })
    }
}

/// Enters a problem of three tests, a submission to it and a host.
fn enter<W: Wait, C: Cases + Drop, A: Admission>(
    rt: &W,
    board: &Board<Proved<C>, A>,
    pass: &mut Pass<A>,
)
    requires board { pass.old.board ≡ board.now.id }
    requires left { 3 ≤ pass.old.left }
    ensures board { pass.new.board ≡ pass.old.board }
    ensures spare { pass.new.spare ≡ pass.old.spare }
    ensures left { pass.new.left + 3 ≡ pass.old.left }
{
    let problem = Event::Problem {
        who: Name::jury(),
        name: name(b"A"),
        tests: 3,
    };
    let submission = Event::Submit {
        problem: name(b"A"),
        class: Class::Normal,
        broken: false,
    };
    let host = Event::Host { name: name(b"h1") };
    drop(board.step(rt, pass, &problem));
    drop(problem);
    drop(board.step(rt, pass, &submission));
    drop(submission);
    drop(board.step(rt, pass, &host));
    drop(host);
}

/// Has the host judge the submission, and tells how it ends, and whether a run error is shown then.
fn judge_on<W: Wait, C: Cases + Drop, A: Admission>(
    rt: &W,
    board: &Board<Proved<C>, A>,
    pass: &mut Pass<A>,
    runner: &Runner,
) -> (HostEnd, bool)
    requires board { pass.old.board ≡ board.now.id }
    requires spare { 0 < pass.old.spare }
    requires left { 2 ^ 34 ≤ pass.old.left }
{
    enter(rt, board, pass);
    let share = board.split(rt, pass, 1 << 33);
    let mut bench = LocalBench::new(rt, board, share, name(b"h1"));
    let end = host_loop(runner, &mut bench, &AlwaysOn, 1, 1 << 32);
    board.join(rt, pass, bench.end());
    let event = Event::Show { judging: 1 };
    let shown = board.step(rt, pass, &event);
    let run_error = is_run_error(&shown);
    drop(shown);
    drop(event);
    (end, run_error)
}

/// Whether the judging ended with a run error.
fn is_run_error(shown: &Reply) -> bool {
    matches!(
        shown,
        Reply::Shown(Answer::Final(Verdict::Tests(Kind::RunError)))
    )
}

/// Has a host judge the submission on a board of these cases, and tells how it ends, and whether a run error is shown
/// then.
fn judge_of<W: Wait, C: Cases + Drop, A: Admission>(
    rt: &W,
    alloc: Global,
    cases: C,
    runner: &Runner,
) -> Result<(HostEnd, bool), NoMemory>
    requires named { A.admits ≡ (λ task kind. is_value_of (C.case_at cases task) kind) }
{
    let farm = Farm::new(alloc, Settings::standard(alloc));
    let (board, mut pass) = Board::<Proved<C>, A>::new(alloc, farm, Proved::new(cases), 2, false)?;
    let judged = judge_on(rt, &board, &mut pass, runner);
    drop(pass);
    drop(board);
    Ok(judged)
}

/// How a host ends, how often it ran a case, and whether a run error is shown then: a problem of three tests, one
/// submission and one host.
fn judge_three_tests<W: Wait, C: Cases + Drop, A: Admission>(
    rt: &W,
    alloc: Global,
    cases: C,
) -> Result<(HostEnd, u64, bool), Fail>
    requires named { A.admits ≡ (λ task kind. is_value_of (C.case_at cases task) kind) }
{
    let runs = Arc::new(alloc, AtomicU64::new(0))?;
    let runner = counting_runner(alloc, &runs, None)?;
    let judged = judge_of::<W, C, A>(rt, alloc, cases, &runner);
    drop(runner);
    let ran = runs.load(Ordering::SeqCst);
    drop(runs);
    let (end, run_error) = judged?;
    Ok((end, ran, run_error))
}

/// After a run error on the first test no other test can matter, so a host runs one of three.
#[test]
fn one_of_three_tests_is_run(rt: HostRuntime) -> Result<(), Fail> {
    let Ok(flags) = Flags::read(b"") else {
        return Err(Fail::from("no flags"));
    };
    if !image_ok(FAIL) || wide_token(&flags, b"").is_some() {
        return Err(Fail::from("no case"));
    }
    let cases = OneProgram { image: FAIL, flags };
    let judged = judge_three_tests::<_, _, Brand>(&rt, rt.alloc(), cases)?;
    assert!(rt; judged == (HostEnd::Idle, 1, true));
    Ok(())
}
