ghost use Rattle.std.specs.Prelude.{◌≡◌, IfOk, true};
ghost use Rattle.judge_feed.specs.Refreshing.{IsFresh};

use crate::talks::check_bytes;
use command_text::read_line;
use farm_board::{Admission, Anyone, Board, Pass};
use farm_core::Farm;
use farm_kinds::{Answer, Event, NoMemory, Verdict};
use farm_settings::Settings;
use judge_feed::{Feed, Moments, Naming, Refreshed};
use public_board::Reader;
use std::alloc::Global;
use std::marker::Brand;
use std::process::Abort;
use std::sync::Wait;
use std::test::Fail;

/// The contest: two submissions to a problem of two tests.
const CONTEST: &str = "problem A 2\nsubmit A\nsubmit A\n";

/// Events that are entered one after the other, and behind each what a reader gives before the feed has published; the
/// version of the feed's note, or `-` where the judging is pending; and what a reader gives then.
const STEPS: &str = concat!(
    "record 1 1 correct => pending pending => - => pending pending\n",
    "record 1 2 correct => pending pending => 2 => correct pending\n",
    "record 2 1 run-error => correct pending => 3 => correct run-error\n",
    "rejudge 1,2 => correct run-error => 3 => correct run-error\n",
    "record 3 1 run-error => correct run-error => 3 => correct run-error\n",
    "record 4 1 correct => correct run-error => - => correct run-error\n",
    "record 4 2 correct => correct run-error => 3 => correct run-error\n",
    "apply 1 => correct run-error => 4 => run-error correct\n",
    "rejudge 1,2 => run-error correct => 4 => run-error correct\n",
    "record 5 1 correct => run-error correct => - => run-error correct\n",
    "record 5 2 correct => run-error correct => 4 => run-error correct\n",
    "record 6 1 run-error => run-error correct => 4 => run-error correct\n",
    "cancel 2 => run-error correct => 4 => run-error correct\n",
);

/// The word of what the public sees of a submission.
fn word_of(answer: Answer) -> &'static str {
    match answer {
        Answer::Final(Verdict::Tests(kind)) => kind.name(),
        Answer::Final(Verdict::CompilerError) => "compiler-error",
        Answer::Pending => "pending",
    }
}

/// What the reader gives, a word for each row.
fn seen<J: Naming>(
    alloc: Global,
    reader: &mut Reader<Answer, Moments<J>>,
) -> Result<Vec<u8>, NoMemory> {
    let rows = reader.rows(alloc)?;
    let mut words = Vec::new(alloc);
    for row in rows.as_slice() {
        if !words.is_empty() {
            words.extend_from_slice(b" ")?;
        }
        words.extend_from_slice(word_of(*row).as_bytes())?;
    }
    Ok(words)
}

/// Enters the event of a line, whatever is replied, and gives the event.
fn enter<W: Wait, A: Admission>(
    rt: &W,
    alloc: Global,
    board: &Board<Anyone, A>,
    pass: &mut Pass<A>,
    line: &str,
) -> Option<Event>
    requires board { pass.old.board ≡ board.now.id }
    ensures board { pass.new.board ≡ pass.old.board }
    ensures spare { pass.new.spare ≡ pass.old.spare }
{
    if pass.left() == 0 {
        return None;
    }
    let Ok(Some(event)) = read_line(alloc, line.as_bytes()) else {
        return None;
    };
    drop(board.step(rt, pass, &event));
    Some(event)
}

/// Has the feed publish what follows from the event, and tells the reader of it. The version of the note.
fn publish<W: Wait, A: Admission, J: Naming>(
    rt: &W,
    alloc: Global,
    board: &Board<Anyone, A>,
    feed: &mut Feed<A, J>,
    reader: &mut Reader<Answer, Moments<J>>,
    event: &Event,
) -> Option<u64>
    requires named { board.now.id ≡ J.board }
{
    let refreshed = match event {
        Event::Entry { judging, .. } => feed.follow(rt, alloc, board, *judging),
        _ => Some(feed.refresh(rt, alloc, board)),
    };
    match refreshed {
        Some(Refreshed::Done(note)) => {
            reader.learn(&note);
            Some(note.number)
        }
        _ => None,
    }
}

/// Compares what both readers give with the words.
fn check_seen<J: Naming>(
    rt: &impl Abort,
    alloc: Global,
    told: &mut Reader<Answer, Moments<J>>,
    untold: &mut Reader<Answer, Moments<J>>,
    words: &str,
    step: &str,
) -> Result<(), NoMemory> {
    let first = seen(alloc, told)?;
    check_bytes(rt, first.as_slice(), words.as_bytes(), step);
    let second = seen(alloc, untold)?;
    check_bytes(rt, second.as_slice(), words.as_bytes(), step);
    Ok(())
}

/// The number as a text, or `-`.
fn number_text(alloc: Global, number: Option<u64>) -> Result<String, NoMemory> {
    match number {
        Some(number) => Ok(number.to_string(alloc)?),
        None => Ok(String::from_str(alloc, "-")?),
    }
}

/// Plays a step, and compares what is published and given.
fn check_step<W: Wait + Abort, A: Admission, J: Naming>(
    rt: &W,
    alloc: Global,
    board: &Board<Anyone, A>,
    pass: &mut Pass<A>,
    feed: &mut Feed<A, J>,
    told: &mut Reader<Answer, Moments<J>>,
    untold: &mut Reader<Answer, Moments<J>>,
    step: &str,
) -> Result<(), NoMemory>
    requires board { pass.old.board ≡ board.now.id }
    requires named { board.now.id ≡ J.board }
    ensures board { pass.new.board ≡ pass.old.board }
{
    let (line, rest) = step.split_once(" => ").unwrap_or((step, ""));
    let (before, rest) = rest.split_once(" => ").unwrap_or((rest, ""));
    let (version, after) = rest.split_once(" => ").unwrap_or((rest, ""));
    let Some(event) = enter(rt, alloc, board, pass, line) else {
        return Err(NoMemory);
    };
    check_seen(rt, alloc, told, untold, before, step)?;
    let number = publish(rt, alloc, board, feed, told, &event);
    let number = number_text(alloc, number)?;
    check_bytes(rt, number.as_bytes(), version.as_bytes(), step);
    check_seen(rt, alloc, told, untold, after, step)
}

/// Plays the steps.
fn check_steps<W: Wait + Abort, A: Admission, J: Naming>(
    rt: &W,
    alloc: Global,
    board: &Board<Anyone, A>,
    pass: &mut Pass<A>,
    feed: &mut Feed<A, J>,
    told: &mut Reader<Answer, Moments<J>>,
    untold: &mut Reader<Answer, Moments<J>>,
) -> Result<(), NoMemory>
    requires board { pass.old.board ≡ board.now.id }
    requires named { board.now.id ≡ J.board }
{
    for step in STEPS.lines() {
        check_step(rt, alloc, board, pass, feed, told, untold, step)?;
    }
    Ok(())
}

/// Plays the steps over a feed of this board with two readers, of which one is told of each version.
fn check_feed<W: Wait + Abort, A: Admission, J: Naming>(
    rt: &W,
    alloc: Global,
    board: &Board<Anyone, A>,
    pass: &mut Pass<A>,
    own: Pass<A>,
) -> Result<(), NoMemory>
    requires board { pass.old.board ≡ board.now.id }
    requires named { board.now.id ≡ J.board }
    requires fresh { IsFresh J.board J.start J.number own }
{
    match Feed::<A, J>::open(rt, alloc, board, own, 2) {
        Err(_own) => Err(NoMemory),
        Ok((mut feed, mut readers)) => {
            let told = readers.take();
            let untold = readers.take();
            let checked = match (told, untold) {
                (Some(mut told), Some(mut untold)) => check_steps(
                    rt,
                    alloc,
                    board,
                    pass,
                    &mut feed,
                    &mut told,
                    &mut untold,
                ),
                _ => Err(NoMemory),
            };
            drop(feed.end(rt));
            checked
        }
    }
}

/// A board on which the contest was entered, its pass, and a pass for a feed.
fn board_of<W: Wait, A: Admission>(
    rt: &W,
    alloc: Global,
) -> Result<(Board<Anyone, A>, Pass<A>, Pass<A>), NoMemory>
    requires named { A.admits ≡ (λ task kind. true) }
    ensures board { IfOk result (λ made. made.1.board ≡ made.0.id) }
    ensures fresh { IfOk result (λ made. IsFresh made.0.id made.2.start made.2.number made.2) }
{
    let farm = Farm::new(alloc, Settings::standard(alloc));
    let (board, mut pass) = Board::<Anyone, A>::new(alloc, farm, Anyone, 2, false)?;
    for line in CONTEST.lines() {
        let _entered = enter(rt, alloc, &board, &mut pass, line);
    }
    if pass.left() <= 1 << 60 {
        return Err(NoMemory);
    }
    let own = board.split(rt, &mut pass, 1 << 60);
    Ok((board, pass, own))
}

/// What was published once stays, a rejudging changes all its rows when it is applied and none when it is cancelled.
#[test]
fn a_feed_publishes_in_order(rt: HostRuntime) -> Result<(), Fail> {
    let (board, mut pass, own) = board_of::<_, Brand>(&rt, rt.alloc())?;
    let checked = check_feed::<_, _, Brand>(&rt, rt.alloc(), &board, &mut pass, own);
    drop(pass);
    drop(board);
    checked?;
    Ok(())
}
