ghost use Rattle.std.specs.Prelude.{◌≡◌, true};
ghost use Rattle.rejudge_book.specs.Refusals.{AreKnown};

use crate::rows::{are_words, check_row, is_said, number, parts_of, word};
use farm_kinds::{Answer, How, Kind, MatrixRow, Verdict};
use farm_model::RejudgeState;
use rejudge_book::{BookFault, CloseFault, RejudgeBook, matrix};
use std::alloc::{AllocError, Global};
use std::test::Fail;

/// Books, a row each: what is shown, and behind `|` the steps, each before a `~`, with what is answered behind `=`.
///
/// `add` adds as many submissions as it says. `prepare`, with the number of the first new judging, and `reserve` have
/// a list of submissions behind their first word: numbers with a comma between two of them, `1..9` for all from one to
/// another, or `-` for none. The old judging of each submission has its number. A member is its submission, its old
/// and its new judging. `room` asks whether as many more submissions as it says take no memory, and `reserved-room`
/// whether a rejudging of as many members takes none.
const ROWS: &str = concat!(
    "a member is busy until its rejudging is closed|",
    "add 3 = yes~",
    "prepare 1,2 4 = 1~",
    "prepare 3,2 6 = busy 2 1~",
    "prepare 3 6 = 2~",
    "prepare 3,2 7 = busy 3 2~",
    "close 1 applied = done~",
    "prepare 3,2 7 = busy 3 2~",
    "prepare 2,1 7 = 3~",
    "close 2 cancelled = done~",
    "prepare 3,2 9 = busy 2 3~",
    "prepare 3 9 = 4~",
    "\n",
    "members have an old and a new judging|",
    "add 3 = yes~",
    "prepare 3,1 40 = 1~",
    "members 1 = 3 3 40,1 1 41~",
    "members 0 = none~",
    "members 2 = none~",
    "\n",
    "a rejudging is closed once|",
    "add 2 = yes~",
    "prepare 1 3 = 1~",
    "prepare 2 4 = 2~",
    "state 1 = open~",
    "close 1 applied = done~",
    "close 2 cancelled = done~",
    "state 1 = applied~",
    "state 2 = cancelled~",
    "close 1 applied = closed applied~",
    "close 1 cancelled = closed applied~",
    "close 2 applied = closed cancelled~",
    "close 2 cancelled = closed cancelled~",
    "state 0 = none~",
    "close 0 applied = no-rejudging~",
    "state 3 = none~",
    "close 3 applied = no-rejudging~",
    "\n",
    "refusals stand in their order|",
    "add 3 = yes~",
    "prepare 1 4 = 1~",
    "prepare - 5 = empty-set~",
    "reserve - = done~",
    "prepare 1,2,2,1 5 = twice 2~",
    "reserve 1,2,2,1 = twice 2~",
    "prepare 1,1 5 = twice 1~",
    "reserve 1,1 = twice 1~",
    "prepare 3,1,2,3 5 = twice 3~",
    "reserve 3,1,2,3 = twice 3~",
    "prepare 3,1,2 5 = busy 1 1~",
    "reserve 3,1,2 = busy 1 1~",
    "prepare 1 5 = busy 1 1~",
    "reserve 1 = busy 1 1~",
    "prepare 3,2 5 = 2~",
    "\n",
    "reserve makes room for a submission and a rejudging|",
    "spare = 0~",
    "reserved = 0~",
    "reserve - = done~",
    "room 1 = yes~",
    "add 1 = yes~",
    "add 1 = yes~",
    "reserve 2,1 = done~",
    "room 1 = yes~",
    "reserved-room 2 = yes~",
    "add 1 = yes~",
    "reserved-room 2 = yes~",
    "prepare 2,1 3 = 1~",
    "submissions = 3~",
    "rejudgings = 1~",
    "reserved = 0~",
    "\n",
    "long lists are looked at once|",
    "add 10000 = yes~",
    "prepare 1..10000,1 10001 = twice 1~",
    "prepare 1..10000 10001 = 1~",
    "close 1 applied = done~",
    "prepare 1..10000 20001 = 2~",
    "\n",
);

/// The number of a text. The greatest where it is none.
fn parsed(text: &str) -> u32 {
    text.parse::<u32>().unwrap_or(u32::MAX)
}

/// Adds the numbers from one to another.
fn push_all(list: &mut Vec<u32>, first: u32, last: u32) -> Result<(), AllocError> {
    for number in first..=last {
        list.push(number)?;
    }
    Ok(())
}

/// Adds what a part of a list stands for.
fn push_part(list: &mut Vec<u32>, part: &str) -> Result<(), AllocError> {
    match part.split_once("..") {
        Some((first, last)) => push_all(list, parsed(first), parsed(last)),
        None => Ok(list.push(parsed(part))?),
    }
}

/// Adds the submissions of a list.
fn push_list(list: &mut Vec<u32>, text: &str) -> Result<(), AllocError> {
    if text == "-" {
        return Ok(());
    }
    for part in text.split(',') {
        push_part(list, part)?;
    }
    Ok(())
}

/// Adds `submissions` submissions.
fn add(book: &mut RejudgeBook, submissions: u32) -> bool {
    for _ in 0..submissions {
        if book.add_submission().is_err() {
            return false;
        }
    }
    true
}

/// Whether each number of the list is that of one of `submissions` submissions.
fn are_known(submissions: usize, list: &[u32]) -> bool
    ensures { result ≡ true → AreKnown submissions list.now }
{
    list.iter().all(|s| 1 <= *s && *s as usize <= submissions)
}

/// Prepares the rejudging where its conditions hold, and tells whether it is answered as `wanted`.
fn prepares(book: &mut RejudgeBook, members: &[u32], first: u32, wanted: &str) -> bool {
    if !are_known(book.submissions(), members) || book.rejudgings() >= 100 {
        return false;
    }
    if members.len() > 20_000 || first > 1_000_000 {
        return false;
    }
    match book.prepare(members, members, first) {
        Ok(rejudging) => rejudging == number(wanted, 0),
        Err(fault) => is_fault(fault, wanted),
    }
}

/// Makes room where its condition holds, and tells whether it is answered as `wanted`.
fn reserves(book: &mut RejudgeBook, members: &[u32], wanted: &str) -> bool {
    if !are_known(book.submissions(), members) {
        return false;
    }
    match book.reserve(members) {
        Ok(()) => wanted == "done",
        Err(fault) => is_fault(fault, wanted),
    }
}

/// Whether a list is refused so.
fn is_fault(fault: BookFault, wanted: &str) -> bool {
    let (what, submission, rejudging) = match fault {
        BookFault::EmptySet => ("empty-set", u32::MAX, u32::MAX),
        BookFault::Twice { submission } => ("twice", submission, u32::MAX),
        BookFault::Busy {
            submission,
            rejudging,
        } => ("busy", submission, rejudging),
        BookFault::NoMemory => ("no-memory", u32::MAX, u32::MAX),
    };
    word(wanted, 0) == what && number(wanted, 1) == submission && number(wanted, 2) == rejudging
}

fn how_of(word: &str) -> How {
    match word {
        "applied" => How::Applied,
        _ => How::Cancelled,
    }
}

fn name_of(how: How) -> &'static str {
    match how {
        How::Applied => "applied",
        How::Cancelled => "cancelled",
    }
}

/// Whether a rejudging is closed, or refused, so.
fn is_closed(closed: Result<(), CloseFault>, wanted: &str) -> bool {
    let (what, how) = match closed {
        Ok(()) => ("done", ""),
        Err(CloseFault::NoRejudging) => ("no-rejudging", ""),
        Err(CloseFault::Closed { how }) => ("closed", name_of(how)),
    };
    are_words(wanted, what, how)
}

/// Whether a rejudging stands there.
fn is_state(state: Option<RejudgeState>, wanted: &str) -> bool {
    let what = match state {
        Some(RejudgeState::Open) => "open",
        Some(RejudgeState::Applied) => "applied",
        Some(RejudgeState::Cancelled) => "cancelled",
        None => "none",
    };
    wanted == what
}

/// Whether these are the members of a rejudging.
fn has_members(book: &RejudgeBook, rejudging: u32, wanted: &str) -> bool {
    let Some(members) = book.members(rejudging) else {
        return wanted == "none";
    };
    let mut words = wanted.split(',');
    for member in members.as_slice() {
        let Some(wanted) = words.next() else {
            return false;
        };
        if member.submission != number(wanted, 0)
            || member.old != number(wanted, 1)
            || member.new != number(wanted, 2)
        {
            return false;
        }
    }
    words.next().is_none()
}

/// Whether the book answers the step, in which this list stands, as it should.
fn is_answered(book: &mut RejudgeBook, list: &[u32], asked: &str, wanted: &str) -> bool {
    let first = number(asked, 1);
    match word(asked, 0) {
        "add" => is_said(add(book, first), wanted),
        "prepare" => prepares(book, list, number(asked, 2), wanted),
        "reserve" => reserves(book, list, wanted),
        "close" => is_closed(book.close(first, how_of(word(asked, 2))), wanted),
        _ => is_told(book, asked, wanted),
    }
}

/// Whether the book answers a step that only looks as it should.
fn is_told(book: &RejudgeBook, asked: &str, wanted: &str) -> bool {
    let first = number(asked, 1);
    match word(asked, 0) {
        "state" => is_state(book.state(first), wanted),
        "members" => has_members(book, first, wanted),
        "submissions" => book.submissions() == number(wanted, 0) as usize,
        "rejudgings" => book.rejudgings() == number(wanted, 0) as usize,
        "spare" => book.spare() == number(wanted, 0) as usize,
        "room" => is_said(book.spare() >= first as usize, wanted),
        "reserved" => book.reserved() == number(wanted, 0) as usize,
        "reserved-room" => is_said(book.reserved() >= first as usize, wanted),
        _ => false,
    }
}

/// Whether the book answers the step as it should; `list` is room for the list that stands in it.
fn is_right(book: &mut RejudgeBook, list: &mut Vec<u32>, step: &str) -> bool {
    let (asked, wanted) = parts_of(step, " = ");
    list.clear();
    if matches!(word(asked, 0), "prepare" | "reserve") && push_list(list, word(asked, 1)).is_err() {
        return false;
    }
    is_answered(book, list.as_slice(), asked, wanted)
}

/// Has a book take the steps: the first that it does not answer as it should, or nothing.
fn play<'a>(book: &mut RejudgeBook, list: &mut Vec<u32>, steps: &'a str) -> &'a str {
    for step in steps.split('~') {
        if !step.is_empty() && !is_right(book, list, step) {
            return step;
        }
    }
    ""
}

/// Has a new book take the steps: the first that it does not answer as it should, or nothing.
fn wrong_step(alloc: Global, steps: &str) -> &str {
    let mut list = Vec::new(alloc);
    let mut book = RejudgeBook::new(alloc);
    let wrong = play(&mut book, &mut list, steps);
    drop(book);
    drop(list);
    wrong
}

#[test]
fn books_answer_as_they_should(rt: HostRuntime) -> Result<(), Fail> {
    for row in ROWS.lines() {
        let (shown, steps) = parts_of(row, "|");
        check_row(&rt, shown, wrong_step(rt.alloc(), steps));
    }
    Ok(())
}

/// Pairs of answers, the old and the new with `>` between them, and the rows of their matrix, each a pair and how often
/// it comes.
const MATRICES: &str = concat!(
    " => \n",
    "correct>wrong-answer wrong-answer>correct => correct>wrong-answer>1 wrong-answer>correct>1\n",
    "pending>correct compiler-error>compiler-error judging-error>pending correct>pending ",
    "correct>correct judging-error>compiler-error correct>correct compiler-error>judging-error => ",
    "correct>correct>2 correct>pending>1 judging-error>compiler-error>1 judging-error>pending>1 ",
    "compiler-error>judging-error>1 compiler-error>compiler-error>1 pending>correct>1\n",
);

fn answer_of(word: &str) -> Answer {
    match word {
        "correct" => Answer::Final(Verdict::Tests(Kind::Correct)),
        "wrong-answer" => Answer::Final(Verdict::Tests(Kind::WrongAnswer)),
        "judging-error" => Answer::Final(Verdict::Tests(Kind::JudgingError)),
        "compiler-error" => Answer::Final(Verdict::CompilerError),
        _ => Answer::Pending,
    }
}

/// Adds the pairs of a row.
fn push_pairs(pairs: &mut Vec<(Answer, Answer)>, text: &str) -> Result<(), AllocError> {
    for pair in text.split(' ') {
        if !pair.is_empty() {
            let (old, new) = parts_of(pair, ">");
            pairs.push((answer_of(old), answer_of(new)))?;
        }
    }
    Ok(())
}

/// Whether the row of a matrix is as `wanted`.
fn is_row(row: &MatrixRow, wanted: &str) -> bool {
    let (old, rest) = parts_of(wanted, ">");
    let (new, count) = parts_of(rest, ">");
    row.old == answer_of(old) && row.new == answer_of(new) && row.count == parsed(count)
}

/// Whether these are the rows of a matrix.
fn are_rows(rows: &[MatrixRow], wanted: &str) -> bool {
    if wanted.is_empty() {
        return rows.is_empty();
    }
    let mut words = wanted.split(' ');
    for row in rows {
        let Some(wanted) = words.next() else {
            return false;
        };
        if !is_row(row, wanted) {
            return false;
        }
    }
    words.next().is_none()
}

/// Whether the matrix of the pairs has these rows.
fn has_rows(alloc: Global, pairs: &[(Answer, Answer)], wanted: &str) -> bool {
    if pairs.len() > 100 {
        return false;
    }
    match matrix(alloc, pairs) {
        Ok(rows) => are_rows(rows.as_slice(), wanted),
        Err(_) => false,
    }
}

/// Whether the matrix of the pairs that the text has is as `wanted`.
fn is_matrix(alloc: Global, text: &str, wanted: &str) -> bool {
    let mut pairs = Vec::new(alloc);
    let right = push_pairs(&mut pairs, text).is_ok() && has_rows(alloc, pairs.as_slice(), wanted);
    drop(pairs);
    right
}

#[test]
fn rows_of_a_matrix_stand_in_order(rt: HostRuntime) -> Result<(), Fail> {
    for row in MATRICES.lines() {
        let (pairs, wanted) = parts_of(row, " => ");
        let wrong = if is_matrix(rt.alloc(), pairs, wanted) {
            ""
        } else {
            wanted
        };
        check_row(&rt, pairs, wrong);
    }
    Ok(())
}
