use crate::names::name;
use crate::readers::{Reader, check_rows};
use crate::rows::check_written;
use crate::written::read_and_written;
use command_text::{
    push_bad_line, push_reply, push_too_long, read_line, write_event, write_event_words,
    write_reply, write_table,
};
use farm_kinds::{
    Answer, Answers, Event, Few, How, Kind, LineFault, MatrixRow, MatrixRows, NoMemory, Reply,
    TableRow, TableRows, Task, Text, Verdict,
};
use std::alloc::{AllocError, Global};
use std::process::Abort;

/// Lines that are written as they are read.
const LINES: &str = concat!(
    "problem A 2\n",
    "replace A 4294967295\n",
    "host h1\n",
    "submit A\n",
    "submit A high\n",
    "submit A low broken\n",
    "submit A broken\n",
    "claim h1\n",
    "fetch h1 1\n",
    "fetch h1 16\n",
    "result h1 1 2 wrong-answer\n",
    "record 1 2 run-error\n",
    "renew h1 1 2\n",
    "tick 999999999999999999\n",
    "down h1\n",
    "show 0\n",
    "owner 4294967295\n",
    "board\n",
    "rejudge\n",
    "rejudge 7\n",
    "rejudge 3,4294967295,0\n",
    "matrix 1\n",
    "apply 1\n",
    "cancel 2\n",
    "verify 3\n",
    "ask 3\n",
    "audit\n",
    "@ann problem A 2\n",
    "@ann replace A 3\n",
    "@ann rejudge\n",
    "@ann rejudge 2,1\n",
    "@ann apply 1\n",
    "@ann cancel 2\n",
    "@ann verify 1\n",
    "@ann ask 1\n",
);

/// What the line is read as, written again.
pub(crate) fn line_told(alloc: Global, line: &str) -> Result<Vec<u8>, NoMemory> {
    Ok(read_and_written(alloc, line.as_bytes())?.into_vec())
}

#[test]
fn each_line_is_read_and_written_again(rt: HostRuntime) {
    check_rows(&rt, LINES, Reader::Line);
}

/// Lines, and how they are written again.
const SHORTER_LINES: &str = concat!(
    "  tick   60   => tick 60\n",
    "submit A normal => submit A\n",
    "submit A normal broken => submit A broken\n",
    "@jury verify 1 => verify 1\n",
);

#[test]
fn spaces_a_normal_class_and_the_jury_are_left_out(rt: HostRuntime) {
    check_rows(&rt, SHORTER_LINES, Reader::Line);
}

/// Lines, and which event each is, if it is one.
const EVENTS: &str = concat!(
    "tick 60 => tick 60\n",
    "submit A low broken => submit Low true\n",
    "record 3 4 timelimit => record 3 4 TimeLimit\n",
    "rejudge => rejudge []\n",
    "rejudge 5 => rejudge [5]\n",
    "@ann rejudge 3,1,3 => rejudge [3, 1, 3]\n",
    " => no event\n",
    "    => no event\n",
    "# problem A 2 => no event\n",
    " # => no event\n",
);

/// An event, with some of its fields.
fn fields_told(alloc: Global, event: &Event) -> Result<String, AllocError> {
    match event {
        Event::Tick { moment } => format!(in alloc; "tick {moment}"),
        Event::Submit { class, broken, .. } => format!(in alloc; "submit {class:?} {broken}"),
        Event::Entry {
            judging,
            test,
            kind,
        } => format!(in alloc; "record {judging} {test} {kind:?}"),
        Event::Rejudge { list, .. } => format!(in alloc; "rejudge {:?}", list.as_slice()),
        _ => String::from_str(alloc, "another event"),
    }
}

/// Which event a line is, if it is one.
pub(crate) fn event_told(alloc: Global, line: &str) -> Result<Vec<u8>, NoMemory> {
    match read_line(alloc, line.as_bytes()) {
        Ok(Some(event)) => Ok(fields_told(alloc, &event)?.into_bytes()),
        Ok(None) => Ok(b"no event".to_vec(alloc)?),
        Err(LineFault::BadLine) => Ok(b"bad line".to_vec(alloc)?),
        Err(LineFault::NoMemory) => Err(NoMemory),
    }
}

#[test]
fn a_line_says_which_event_it_is(rt: HostRuntime) {
    check_rows(&rt, EVENTS, Reader::Event);
}

/// Lines that are none of the grammar's.
const BAD_LINES: &str = concat!(
    "problem A => bad line\n",
    "problem A 02 => bad line\n",
    "replace A 4294967296 => bad line\n",
    "replace A.B 2 => bad line\n",
    "host => bad line\n",
    "host h1 h2 => bad line\n",
    "submit => bad line\n",
    "submit A high low => bad line\n",
    "submit A broken low => bad line\n",
    "submit A low broken broken => bad line\n",
    "claim => bad line\n",
    "fetch h1 => bad line\n",
    "fetch h1 0 => bad line\n",
    "fetch h1 17 => bad line\n",
    "fetch h1 02 => bad line\n",
    "fetch h1 1 1 => bad line\n",
    "@ann fetch h1 1 => bad line\n",
    "owner => bad line\n",
    "result h1 1 2 => bad line\n",
    "result h1 1 2 good => bad line\n",
    "record 1 2 => bad line\n",
    "record 1 -2 correct => bad line\n",
    "renew h1 1 => bad line\n",
    "tick 1000000000000000000 => bad line\n",
    "tick => bad line\n",
    "down h1 h1 => bad line\n",
    "show x => bad line\n",
    "show 1 # => bad line\n",
    "Show 1 => bad line\n",
    "@jury show 1 => bad line\n",
    "@ => bad line\n",
    "@ verify 1 => bad line\n",
    "@ann => bad line\n",
    "@a.b verify 1 => bad line\n",
    "@ann claim h1 => bad line\n",
    "@ann submit A => bad line\n",
    "@ann board => bad line\n",
    "@ann @ann verify 1 => bad line\n",
    "board 1 => bad line\n",
    "audit 1 => bad line\n",
    "matrix => bad line\n",
    "matrix 1 2 => bad line\n",
    "apply => bad line\n",
    "verify -1 => bad line\n",
    "ask => bad line\n",
    "ask 1 2 => bad line\n",
    "rejudge 1 2 => bad line\n",
    "rejudge , => bad line\n",
    "rejudge 1, => bad line\n",
    "rejudge ,1 => bad line\n",
    "rejudge 1,,2 => bad line\n",
    "rejudge 1,02 => bad line\n",
    "rejudge 1,x => bad line\n",
    "rejudge 1;2 => bad line\n",
    "rejudge 4294967296 => bad line\n",
);

#[test]
fn other_lines_are_bad(rt: HostRuntime) {
    check_rows(&rt, BAD_LINES, Reader::Event);
}

#[test]
fn the_words_of_an_event_leave_out_who_acts(rt: HostRuntime) {
    let event = Event::Verify {
        who: name(b"ann"),
        judging: 7,
    };
    check_written(&rt, write_event_words(rt.alloc(), &event), "verify 7");
}

/// Checks that this line is written where this name adds a problem.
fn check_problem<R: Abort + AllocGlobal>(rt: &R, who: &[u8], want: &str) {
    let event = Event::Problem {
        who: name(who),
        name: name(b"A"),
        tests: 2,
    };
    check_written(rt, write_event(rt.alloc(), &event), want);
}

#[test]
fn who_acts_is_written_where_it_is_not_the_jury(rt: HostRuntime) {
    check_problem(&rt, b"jury", "problem A 2");
    check_problem(&rt, b"ann", "@ann problem A 2");
}

/// The lines that are written for a reply.
fn text_of(alloc: Global, reply: Reply) -> Result<Text, NoMemory> {
    write_reply(alloc, &reply)
}

/// Checks that these are the lines that are written for a reply.
fn check_reply<R: Abort + AllocGlobal>(rt: &R, reply: Reply, want: &str) {
    check_written(rt, text_of(rt.alloc(), reply), want);
}

#[test]
fn each_reply_has_its_words(rt: HostRuntime) {
    let mut tests = Few::of(1);
    tests.push(1_000);
    check_reply(
        &rt,
        Reply::Problem {
            name: name(b"A"),
            version: 2,
        },
        "problem A version 2",
    );
    check_reply(&rt, Reply::Host { name: name(b"h1") }, "host h1");
    check_reply(
        &rt,
        Reply::Submitted {
            submission: 1,
            judging: 3,
        },
        "submission 1 judging 3",
    );
    check_reply(
        &rt,
        Reply::Handed {
            task: Task {
                judging: 1,
                test: 1,
            },
            until: 60,
        },
        "task 1 1 until 60",
    );
    check_reply(
        &rt,
        Reply::Batch {
            judging: 1,
            tests,
            until: 60,
        },
        "batch 1 1,1000 until 60",
    );
    check_reply(&rt, Reply::Owned { submission: 7 }, "owner 7");
    check_reply(&rt, Reply::Nothing, "nothing");
    check_reply(&rt, Reply::Counted, "counted");
    check_reply(
        &rt,
        Reply::Repeat {
            kept: Kind::Correct,
        },
        "repeat correct",
    );
    check_reply(
        &rt,
        Reply::Differs {
            kept: Kind::Correct,
            given: Kind::NoOutput,
        },
        "differs correct no-output",
    );
    check_reply(&rt, Reply::Dropped, "dropped");
    check_reply(&rt, Reply::Until { until: 120 }, "until 120");
    check_reply(&rt, Reply::Ended { count: 2 }, "ended 2");
    check_reply(&rt, Reply::Shown(Answer::Pending), "pending");
    check_reply(
        &rt,
        Reply::Shown(Answer::Final(Verdict::CompilerError)),
        "final compiler-error",
    );
    check_reply(
        &rt,
        Reply::Rejudging {
            number: 1,
            first: 4,
            last: 6,
        },
        "rejudging 1 judgings 4 to 6",
    );
    check_reply(&rt, Reply::Applied { members: 3 }, "applied 3");
    check_reply(&rt, Reply::Cancelled { members: 2 }, "cancelled 2");
    check_reply(&rt, Reply::Verified { judging: 5 }, "verified 5");
    check_reply(
        &rt,
        Reply::Audit {
            count: 2,
            head: [0xaf; 32],
        },
        "audit 2 afafafafafafafafafafafafafafafafafafafafafafafafafafafafafafafaf",
    );
}

#[test]
fn each_refusal_has_its_words(rt: HostRuntime) {
    check_reply(&rt, Reply::BadTests { tests: 0 }, "bad-tests 0");
    check_reply(&rt, Reply::Known { name: name(b"A") }, "known A");
    check_reply(&rt, Reply::NoProblem { name: name(b"B") }, "no-problem B");
    check_reply(&rt, Reply::NoHost { name: name(b"h1") }, "no-host h1");
    check_reply(&rt, Reply::Full { limit: 64 }, "full 64");
    check_reply(&rt, Reply::Holding { limit: 64 }, "holding 64");
    check_reply(&rt, Reply::NoJudging { judging: 9 }, "no-judging 9");
    check_reply(&rt, Reply::NoTest { test: 3 }, "no-test 3");
    check_reply(&rt, Reply::NotHanded, "not-handed");
    check_reply(&rt, Reply::NoLease, "no-lease");
    check_reply(&rt, Reply::EmptySet, "empty-set");
    check_reply(
        &rt,
        Reply::NoSubmission { submission: 9 },
        "no-submission 9",
    );
    check_reply(&rt, Reply::Twice { submission: 1 }, "twice 1");
    check_reply(&rt, Reply::NotFinal { number: 2 }, "not-final 2");
    check_reply(
        &rt,
        Reply::Busy {
            submission: 3,
            rejudging: 1,
        },
        "busy 3 1",
    );
    check_reply(&rt, Reply::NoRejudging { rejudging: 8 }, "no-rejudging 8");
    check_reply(&rt, Reply::Closed { how: How::Applied }, "closed applied");
    check_reply(
        &rt,
        Reply::Closed {
            how: How::Cancelled,
        },
        "closed cancelled",
    );
    check_reply(&rt, Reply::Unfinished { judging: 4 }, "unfinished 4");
    check_reply(&rt, Reply::Already { judging: 5 }, "already 5");
    check_reply(&rt, Reply::NoMemory, "");
}

/// A board of three submissions.
fn board(alloc: Global) -> Result<Reply, NoMemory> {
    let mut rows = Answers::new(alloc);
    rows.push(Answer::Final(Verdict::Tests(Kind::Correct)))?;
    rows.push(Answer::Pending)?;
    rows.push(Answer::Final(Verdict::CompilerError))?;
    Ok(Reply::Board { rows })
}

/// Appends replies as lines.
fn push_lines(out: &mut Vec<u8>, board: &Reply) -> Result<(), NoMemory> {
    push_reply(out, &Reply::Counted)?;
    push_bad_line(out)?;
    push_too_long(out, 4_097)?;
    push_reply(out, board)
}

/// The lines of some replies, the last of which is a board.
fn lines(alloc: Global) -> Result<Text, NoMemory> {
    let mut out = Vec::new(alloc);
    push_lines(&mut out, &board(alloc)?)?;
    Ok(Text::from_vec(out))
}

/// A board has a line for each submission.
#[test]
fn replies_follow_one_another_as_lines(rt: HostRuntime) {
    check_written(
        &rt,
        lines(rt.alloc()),
        "counted\nbad-line\ntoo-long 4097\n1 correct\n2 pending\n3 compiler-error\nboard 3\n",
    );
}

#[test]
fn an_empty_board_has_its_last_line_alone(rt: HostRuntime) {
    let rows = Answers::new(rt.alloc());
    check_reply(&rt, Reply::Board { rows }, "board 0");
}

/// The lines of what a rejudging of three submissions has changed.
fn matrix_text(alloc: Global) -> Result<Text, NoMemory> {
    let mut rows = MatrixRows::new(alloc);
    rows.push(MatrixRow {
        old: Answer::Final(Verdict::Tests(Kind::WrongAnswer)),
        new: Answer::Final(Verdict::Tests(Kind::Correct)),
        count: 2,
    })?;
    rows.push(MatrixRow {
        old: Answer::Final(Verdict::Tests(Kind::Correct)),
        new: Answer::Pending,
        count: 1,
    })?;
    text_of(alloc, Reply::Matrix { rows, members: 3 })
}

#[test]
fn a_matrix_has_the_old_answer_before_the_new_one(rt: HostRuntime) {
    let want = "wrong-answer correct 2\ncorrect pending 1\nmatrix 3";
    check_written(&rt, matrix_text(rt.alloc()), want);
}

/// Appends a row of a submission to the problem `echo`.
fn push_row(
    rows: &mut TableRows,
    number: u32,
    team: &[u8],
    verdict: Verdict,
) -> Result<(), NoMemory> {
    rows.push(TableRow {
        number,
        team: name(team),
        problem: name(b"echo"),
        verdict,
    })
}

/// The lines of a table of two submissions.
fn table_text(alloc: Global) -> Result<Text, NoMemory> {
    let mut rows = TableRows::new(alloc);
    push_row(&mut rows, 1, b"alpha", Verdict::Tests(Kind::Correct))?;
    push_row(&mut rows, 4, b"delta", Verdict::CompilerError)?;
    write_table(alloc, &rows)
}

#[test]
fn a_table_has_a_line_for_each_row(rt: HostRuntime) {
    let want = "1 alpha echo correct\n4 delta echo compiler-error\n";
    check_written(&rt, table_text(rt.alloc()), want);
}
