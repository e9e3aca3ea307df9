use farm_core::Farm;
use farm_kinds::{Answer, Class, Event, How, Kind, Name, NoMemory, Numbers, Reply, Verdict};
use farm_settings::Settings;
use std::alloc::Global;
use std::test::Fail;

const WRONG_ANSWER: Answer = Answer::Final(Verdict::Tests(Kind::WrongAnswer));

/// Has the farm take an event, whatever it replies.
fn take(farm: &mut Farm, event: Event) {
    drop(farm.step(&event));
    drop(event);
}

/// A result of the first test of the judging.
fn enter(farm: &mut Farm, judging: u32, kind: Kind) {
    let entry = Event::Entry {
        judging,
        test: 1,
        kind,
    };
    take(farm, entry);
}

/// A result of the first test of each of these judgings.
fn enter_all(farm: &mut Farm, first: u32, last: u32, kind: Kind) {
    for judging in first..=last {
        enter(farm, judging, kind);
    }
}

/// Adds a problem of one test to an empty farm.
fn add_problem(farm: &mut Farm, name: Name) {
    let problem = Event::Problem {
        who: name,
        name,
        tests: 1,
    };
    take(farm, problem);
}

/// Adds `submissions` submissions to the problem, which are all correct.
fn submit_all(farm: &mut Farm, problem: Name, submissions: u32) {
    for judging in 1..=submissions {
        let submit = Event::Submit {
            problem,
            class: Class::Normal,
            broken: false,
        };
        take(farm, submit);
        enter(farm, judging, Kind::Correct);
    }
}

/// Has the submissions 1 to `last` judged anew.
fn rejudge(alloc: Global, farm: &mut Farm, last: u32) -> Result<(), NoMemory> {
    let rejudge = Event::Rejudge {
        who: Name::jury(),
        list: numbers_to(alloc, last)?,
    };
    take(farm, rejudge);
    Ok(())
}

/// The numbers from 1 to `last`.
fn numbers_to(alloc: Global, last: u32) -> Result<Numbers, NoMemory> {
    let mut list = Numbers::new(alloc);
    for number in 1..=last {
        list.push(number)?;
    }
    Ok(list)
}

/// How a rejudging was closed, and how many members it had.
fn closed(reply: &Reply) -> Option<(How, u32)> {
    match reply {
        Reply::Applied { members } => Some((How::Applied, *members)),
        Reply::Cancelled { members } => Some((How::Cancelled, *members)),
        _ => None,
    }
}

/// Closes a rejudging.
fn close(farm: &mut Farm, event: &Event) -> Option<(How, u32)> {
    let reply = farm.step(event);
    let closed = closed(&reply);
    drop(reply);
    closed
}

/// How many submissions the public sees with this answer.
fn seen(farm: &Farm, answer: Answer) -> u32 {
    let mut count = 0u32;
    for submission in 1..=farm.submissions() {
        if farm.public(submission) == Some(answer) {
            count = count.saturating_add(1);
        }
    }
    count
}

/// How a rejudging was closed and how many members it had, and how many submissions are seen as wrong then.
type Closed = (Option<(How, u32)>, u32);

/// Has 10,000 submissions to an empty farm judged anew, and closes that rejudging by the event.
fn rejudge_and_close(alloc: Global, farm: &mut Farm, event: &Event) -> Result<Closed, NoMemory> {
    let name = Name::jury();
    add_problem(farm, name);
    submit_all(farm, name, 10_000);
    rejudge(alloc, farm, 10_000)?;
    enter_all(farm, 10_001, 20_000, Kind::WrongAnswer);
    let closed = close(farm, event);
    Ok((closed, seen(farm, WRONG_ANSWER)))
}

/// What comes, in a farm of its own, of the rejudging that `event` closes. No other function here owns a farm: each
/// way out of one that does has to be proved to drop it, and so all that it holds.
fn closed_by(alloc: Global, event: Event) -> Result<Closed, NoMemory> {
    let mut farm = Farm::new(alloc, Settings::standard(alloc));
    let closed = rejudge_and_close(alloc, &mut farm, &event);
    drop(farm);
    drop(event);
    closed
}

#[test]
fn ten_thousand_judgings_are_applied_at_once(rt: HostRuntime) -> Result<(), Fail> {
    let who = Name::jury();
    let apply = Event::Apply { who, rejudging: 1 };
    assert_eq!(rt;
        closed_by(rt.alloc(), apply)?,
        (Some((How::Applied, 10_000)), 10_000)
    );
    Ok(())
}

#[test]
fn ten_thousand_judgings_are_cancelled_at_once(rt: HostRuntime) -> Result<(), Fail> {
    let who = Name::jury();
    let cancel = Event::Cancel { who, rejudging: 1 };
    assert_eq!(rt;
        closed_by(rt.alloc(), cancel)?,
        (Some((How::Cancelled, 10_000)), 0)
    );
    Ok(())
}
