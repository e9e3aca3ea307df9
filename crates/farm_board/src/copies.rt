ghost use Rattle.std.specs.Prelude.{◌≡◌, IfOk, OnErr, IsTrue};
ghost use Rattle.farm_board.specs.Copies.{has_list};

use farm_kinds::{Answers, Event, MatrixRows, NoMemory, Numbers, Reply};
use std::alloc::Global;

fn copy_numbers(alloc: Global, numbers: &Numbers) -> Result<Numbers, NoMemory>
    ensures { IfOk result (λ copy. copy ≡ numbers.now) }
{
    let mut copy = Vec::new(alloc);
    copy.extend_from_slice(numbers.as_slice())?;
    Ok(Numbers::from_vec(copy))
}

fn copy_answers(alloc: Global, answers: &Answers) -> Result<Answers, NoMemory>
    ensures { IfOk result (λ copy. copy ≡ answers.now) }
{
    let mut copy = Vec::new(alloc);
    copy.extend_from_slice(answers.as_slice())?;
    Ok(Answers::from_vec(copy))
}

fn copy_rows(alloc: Global, rows: &MatrixRows) -> Result<MatrixRows, NoMemory>
    ensures { IfOk result (λ copy. copy ≡ rows.now) }
{
    let mut copy = MatrixRows::new(alloc);
    for row in rows.as_slice() {
        copy.push(*row)?;
    }
    Ok(copy)
}

/// The same event.
pub(crate) fn copy_event(alloc: Global, event: &Event) -> Result<Event, NoMemory>
    ensures { IfOk result (λ copy. copy ≡ event.now) }
{
    Ok(match event {
        Event::Problem { who, name, tests } => Event::Problem {
            who: *who,
            name: *name,
            tests: *tests,
        },
        Event::Replace { who, name, tests } => Event::Replace {
            who: *who,
            name: *name,
            tests: *tests,
        },
        Event::Host { name } => Event::Host { name: *name },
        Event::Submit {
            problem,
            class,
            broken,
        } => Event::Submit {
            problem: *problem,
            class: *class,
            broken: *broken,
        },
        Event::Claim { host } => Event::Claim { host: *host },
        Event::Fetch { host, most } => Event::Fetch {
            host: *host,
            most: *most,
        },
        Event::Result {
            host,
            judging,
            test,
            kind,
        } => Event::Result {
            host: *host,
            judging: *judging,
            test: *test,
            kind: *kind,
        },
        Event::Entry {
            judging,
            test,
            kind,
        } => Event::Entry {
            judging: *judging,
            test: *test,
            kind: *kind,
        },
        Event::Renew {
            host,
            judging,
            test,
        } => Event::Renew {
            host: *host,
            judging: *judging,
            test: *test,
        },
        Event::Tick { moment } => Event::Tick { moment: *moment },
        Event::Down { host } => Event::Down { host: *host },
        Event::Show { judging } => Event::Show { judging: *judging },
        Event::Owner { judging } => Event::Owner { judging: *judging },
        Event::Board => Event::Board,
        Event::Rejudge { who, list } => Event::Rejudge {
            who: *who,
            list: copy_numbers(alloc, list)?,
        },
        Event::Matrix { rejudging } => Event::Matrix {
            rejudging: *rejudging,
        },
        Event::Apply { who, rejudging } => Event::Apply {
            who: *who,
            rejudging: *rejudging,
        },
        Event::Cancel { who, rejudging } => Event::Cancel {
            who: *who,
            rejudging: *rejudging,
        },
        Event::Verify { who, judging } => Event::Verify {
            who: *who,
            judging: *judging,
        },
        Event::Ask { who, judging } => Event::Ask {
            who: *who,
            judging: *judging,
        },
        Event::Audit => Event::Audit,
    })
}

/// The same reply. Memory can run out only where it has a list.
pub(crate) fn copy_reply(alloc: Global, reply: &Reply) -> Result<Reply, NoMemory>
    ensures same { IfOk result (λ copy. copy ≡ reply.now) }
    ensures no_memory { OnErr result (IsTrue (has_list reply.now)) }
{
    Ok(match reply {
        Reply::Problem { name, version } => Reply::Problem {
            name: *name,
            version: *version,
        },
        Reply::Host { name } => Reply::Host { name: *name },
        Reply::Submitted {
            submission,
            judging,
        } => Reply::Submitted {
            submission: *submission,
            judging: *judging,
        },
        Reply::Handed { task, until } => Reply::Handed {
            task: *task,
            until: *until,
        },
        Reply::Batch {
            judging,
            tests,
            until,
        } => Reply::Batch {
            judging: *judging,
            tests: *tests,
            until: *until,
        },
        Reply::Nothing => Reply::Nothing,
        Reply::Counted => Reply::Counted,
        Reply::Repeat { kept } => Reply::Repeat { kept: *kept },
        Reply::Differs { kept, given } => Reply::Differs {
            kept: *kept,
            given: *given,
        },
        Reply::Dropped => Reply::Dropped,
        Reply::Until { until } => Reply::Until { until: *until },
        Reply::Ended { count } => Reply::Ended { count: *count },
        Reply::Shown(x) => Reply::Shown(*x),
        Reply::Owned { submission } => Reply::Owned {
            submission: *submission,
        },
        Reply::Board { rows } => Reply::Board {
            rows: copy_answers(alloc, rows)?,
        },
        Reply::Rejudging {
            number,
            first,
            last,
        } => Reply::Rejudging {
            number: *number,
            first: *first,
            last: *last,
        },
        Reply::Matrix { rows, members } => Reply::Matrix {
            rows: copy_rows(alloc, rows)?,
            members: *members,
        },
        Reply::Applied { members } => Reply::Applied { members: *members },
        Reply::Cancelled { members } => Reply::Cancelled { members: *members },
        Reply::Verified { judging } => Reply::Verified { judging: *judging },
        Reply::Audit { count, head } => Reply::Audit {
            count: *count,
            head: *head,
        },
        Reply::BadTests { tests } => Reply::BadTests { tests: *tests },
        Reply::Known { name } => Reply::Known { name: *name },
        Reply::NoProblem { name } => Reply::NoProblem { name: *name },
        Reply::NoHost { name } => Reply::NoHost { name: *name },
        Reply::Full { limit } => Reply::Full { limit: *limit },
        Reply::Holding { limit } => Reply::Holding { limit: *limit },
        Reply::NoJudging { judging } => Reply::NoJudging { judging: *judging },
        Reply::NoTest { test } => Reply::NoTest { test: *test },
        Reply::NotHanded => Reply::NotHanded,
        Reply::NoLease => Reply::NoLease,
        Reply::EmptySet => Reply::EmptySet,
        Reply::NoSubmission { submission } => Reply::NoSubmission {
            submission: *submission,
        },
        Reply::Twice { submission } => Reply::Twice {
            submission: *submission,
        },
        Reply::NotFinal { number } => Reply::NotFinal { number: *number },
        Reply::Busy {
            submission,
            rejudging,
        } => Reply::Busy {
            submission: *submission,
            rejudging: *rejudging,
        },
        Reply::NoRejudging { rejudging } => Reply::NoRejudging {
            rejudging: *rejudging,
        },
        Reply::Closed { how } => Reply::Closed { how: *how },
        Reply::Unfinished { judging } => Reply::Unfinished { judging: *judging },
        Reply::Already { judging } => Reply::Already { judging: *judging },
        Reply::NoMemory => Reply::NoMemory,
    })
}
