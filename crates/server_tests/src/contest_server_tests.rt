ghost use Rattle.std.specs.Prelude.{◌≡◌, ◌≤◌, [], IfOk, IsSome};

use crate::talks::{ROOM, at_port, bytes_of, conn_of, said};
use contest_folder::{Roster, read_contest};
use contest_server::{ServeEnd, serve_contest};
use farm_io::{
    Connection, Door, FixedClock, MemoryDoor, MemorySink, MemorySource, ReliableConn, ReliableDoor,
    ReliableSink, Sink,
};
use farm_kinds::Text;
use farm_tree::{ReliableTree, TreeFile, TreeFiles};
use std::alloc::{AllocError, Global};
use std::process::Abort;
use std::sync::Wait;
use std::test::Fail;
use std::thread::Threads;

/// The files of a contest of one test and one submission, whose image has 4 bytes, a line each: the path, and behind `|`
/// what the file holds.
const ONE: &str = concat!(
    "c/problems/echo/problem.yaml|\n",
    "c/problems/echo/data/secret/01.in|7~\n",
    "c/problems/echo/data/secret/01.ans|7~\n",
    "c/submissions.txt|1 alpha echo 1.rv32~\n",
    "c/submissions/1.rv32|\u{13}\0\0\0\n",
);

/// The files of a contest of one test without a submission, written as those of `ONE`.
const NONE: &str = concat!(
    "c/problems/echo/problem.yaml|\n",
    "c/problems/echo/data/secret/01.in|7~\n",
    "c/problems/echo/data/secret/01.ans|7~\n",
    "c/submissions.txt|\n",
    "c/unused|\n",
);

/// Adds the file of a line.
fn put(alloc: Global, files: &mut TreeFiles, line: &str) -> Result<(), Fail> {
    let (path, content) = line.split_once('|').unwrap_or((line, ""));
    if path.len() <= 4096 {
        let bytes = Text::from_vec(bytes_of(alloc, content)?);
        files.push(TreeFile::new(String::from_str(alloc, path)?, bytes))?;
    }
    Ok(())
}

/// The files of a contest.
fn files_of(alloc: Global, contest: &str) -> Result<TreeFiles, Fail> {
    let mut files = TreeFiles::new(alloc);
    for line in contest.lines() {
        put(alloc, &mut files, line)?;
    }
    Ok(files)
}

/// The roster of a contest with these files.
fn roster_of(alloc: Global, contest: &str) -> Result<Roster, Fail> {
    let mut tree = ReliableTree::new(alloc, files_of(alloc, contest)?);
    match read_contest(alloc, &mut tree, "c") {
        Ok(roster) => Ok(roster),
        Err(_) => Err(Fail::new("no contest")),
    }
}

/// The roster of the contest of one test.
pub(crate) fn one_roster(alloc: Global) -> Result<Roster, Fail> {
    roster_of(alloc, ONE)
}

/// A door to which two connections come. What they say stands by words on the two sides of `|`.
fn door_of(alloc: Global, talks: &str) -> Result<ReliableDoor, AllocError>
    ensures { IfOk result (λ d. (d.back ≡ []) × (d.accepted ≡ 0) × IsSome d.listens) }
{
    let (first, second) = talks.split_once('|').unwrap_or((talks, ""));
    let mut coming = Vec::new(alloc);
    coming.push(conn_of(alloc, first)?)?;
    coming.push(conn_of(alloc, second)?)?;
    let mut door = ReliableDoor::new(alloc, coming)?;
    let _listens = door.listen(at_port(80));
    Ok(door)
}

/// How two connections are served, and the door to which they came.
pub(crate) fn serve_two<R: Threads + Wait + Sync, K: Sink>(
    rt: &R,
    alloc: Global,
    roster: &Roster,
    lanes: u16,
    connections: u32,
    talks: &str,
    out: &mut K,
) -> Result<(ServeEnd, ReliableDoor), AllocError>
    requires { (1 ≤ lanes) × (lanes ≤ 16) }
{
    let mut door = door_of(alloc, talks)?;
    let clock = FixedClock::new(0);
    let end = serve_contest(
        rt,
        alloc,
        roster,
        lanes,
        connections,
        &clock,
        &mut door,
        out,
    );
    Ok((end, door))
}

/// Two connections to a contest, and what is written, a line each: how many lanes there are and how many connections are
/// served, behind each `|` what a connection says, by words, and behind `=>` the text.
const ROWS: &str = concat!(
    "2 2|host fetch correct correct| => conn 1 requests 4 end~conn 2 requests 0 end~1 correct~board 1~\n",
    "1 2|host fetch cut|host fetch correct correct => conn 1 requests 2 cut~conn 2 requests 4 end~1 correct~board 1~\n",
    "1 2|host fetch correct correct|host other-host fetch correct other-wrong other-host => conn 1 requests 4 end~conn 2 requests 6 end~1 correct~board 1~\n",
    "16 3||host fetch cut => conn 1 requests 0 end~conn 2 requests 2 cut~1 pending~board 1~\n",
    "1 1|host fetch cut|host fetch correct correct => conn 1 requests 2 cut~1 pending~board 1~\n",
    "16 4294967295||host fetch cut => conn 1 requests 0 end~conn 2 requests 2 cut~1 pending~board 1~\n",
    "1 0|host fetch correct correct|host fetch correct correct => 1 pending~board 1~\n",
);

/// A line as those of `ROWS`, of a contest without submissions.
const WITHOUT: &str =
    "2 2|host fetch cut| => conn 1 requests 2 cut~conn 2 requests 0 end~board 0~\n";

/// Compares how serving ended and what was written.
pub(crate) fn check_served(
    rt: &impl Abort,
    end: ServeEnd,
    wanted: ServeEnd,
    written: &[u8],
    text: &[u8],
    name: &str,
) {
    assert_eq!(rt; (end, written), (wanted, text), "{name}");
}

/// Compares how many connections were given back.
fn check_back(rt: &impl Abort, back: usize, wanted: usize) {
    assert_eq!(rt; back, wanted);
}

/// Compares what is written for a row, whose numbers have to be in range.
fn check_row(
    rt: &(impl Threads + Wait + Sync + Abort),
    alloc: Global,
    roster: &Roster,
    row: &str,
) -> Result<(), Fail> {
    let (given, text) = row.split_once(" => ").unwrap_or((row, ""));
    let (numbers, talks) = given.split_once('|').unwrap_or((given, ""));
    let (lanes, connections) = numbers.split_once(' ').unwrap_or((numbers, ""));
    let lanes = lanes.parse::<u16>().unwrap_or(0);
    if lanes < 1 || lanes > 16 {
        return Err(Fail::new("a row out of range"));
    }
    let Ok(connections) = connections.parse::<u32>() else {
        return Err(Fail::new("a row out of range"));
    };
    let text = bytes_of(alloc, text)?;
    let mut out = ReliableSink::new(Vec::with_capacity(alloc, ROOM)?);
    let (end, _) = serve_two(rt, alloc, roster, lanes, connections, talks, &mut out)?;
    check_served(rt, end, ServeEnd::Done, out.bytes(), text.as_slice(), given);
    Ok(())
}

/// Compares what is written of a contest with these files for each of the rows.
fn check_rows(
    rt: &(impl Threads + Wait + Sync + Abort),
    alloc: Global,
    contest: &str,
    rows: &str,
) -> Result<(), Fail> {
    let roster = roster_of(alloc, contest)?;
    for row in rows.lines() {
        check_row(rt, alloc, &roster, row)?;
    }
    Ok(())
}

#[test]
fn a_contest_is_served(rt: HostRuntime) -> Result<(), Fail> {
    check_rows(&rt, rt.alloc(), ONE, ROWS)
}

#[test]
fn a_contest_without_submissions_is_served(rt: HostRuntime) -> Result<(), Fail> {
    check_rows(&rt, rt.alloc(), NONE, WITHOUT)
}

/// Checks that these are two connections, and something was put on the first one alone.
fn check_first_answered(rt: &impl Abort, back: &[ReliableConn]) {
    let is_first_answered = match back {
        [first, second] => !first.sink.bytes().is_empty() && second.sink.bytes().is_empty(),
        _ => false,
    };
    assert!(rt; is_first_answered);
}

/// What is given back is what came, in that order.
#[test]
fn connections_are_given_back_in_order(rt: HostRuntime) -> Result<(), Fail> {
    let alloc = rt.alloc();
    let roster = one_roster(alloc)?;
    let mut out = ReliableSink::new(Vec::with_capacity(alloc, ROOM)?);
    let talks = "host fetch correct correct|";
    let (_, door) = serve_two(&rt, alloc, &roster, 2, 2, talks, &mut out)?;
    check_first_answered(&rt, door.back());
    Ok(())
}

/// A door that may fail, to which a connection comes, and whose second call fails.
fn failing_door(alloc: Global) -> Result<MemoryDoor, AllocError>
    ensures { IfOk result (λ d. (d.back ≡ []) × (d.accepted ≡ 0) × IsSome d.listens) }
{
    let source = MemorySource::new(said(alloc, "host fetch correct correct")?, Vec::new(alloc));
    let sink = MemorySink::new(Vec::with_capacity(alloc, ROOM)?, Vec::new(alloc));
    let mut coming = Vec::new(alloc);
    coming.push(Connection::new(source, sink))?;
    let mut door = MemoryDoor::new(alloc, coming, [2].to_vec(alloc)?)?;
    if door.listen(at_port(80)).is_err() {
        return Err(AllocError);
    }
    Ok(door)
}

/// How serving ends at a door that fails, and how many connections that door was given back.
fn serve_failing_door<R: Threads + Wait + Sync>(
    rt: &R,
    alloc: Global,
    roster: &Roster,
    out: &mut ReliableSink,
) -> Result<(ServeEnd, usize), AllocError> {
    let mut door = failing_door(alloc)?;
    let clock = FixedClock::new(0);
    let end = serve_contest(rt, alloc, roster, 2, 2, &clock, &mut door, out);
    Ok((end, door.back().len()))
}

#[test]
fn a_door_that_fails_writes_no_board(rt: HostRuntime) -> Result<(), Fail> {
    let alloc = rt.alloc();
    let mut out = ReliableSink::new(Vec::with_capacity(alloc, ROOM)?);
    let roster = one_roster(alloc)?;
    let (end, back) = serve_failing_door(&rt, alloc, &roster, &mut out)?;
    let text = b"conn 1 requests 4 end\n";
    check_served(&rt, end, ServeEnd::DoorFault, out.bytes(), text, "");
    check_back(&rt, back, 1);
    Ok(())
}

/// The whole text of two connections.
const WHOLE: &str = "conn 1 requests 4 end\nconn 2 requests 2 cut\n1 correct\nboard 1\n";

/// How the serving of two connections ends where the put of this number fails, what is written and how many are given
/// back.
fn serve_failing<R: Threads + Wait + Sync>(
    rt: &R,
    alloc: Global,
    roster: &Roster,
    failing: u64,
) -> Result<(ServeEnd, MemorySink, usize), AllocError> {
    let mut out = MemorySink::new(Vec::with_capacity(alloc, ROOM)?, [failing].to_vec(alloc)?);
    let talks = "host fetch correct correct|host fetch cut";
    let (end, door) = serve_two(rt, alloc, roster, 1, 2, talks, &mut out)?;
    Ok((end, out, door.back().len()))
}

/// Checks that serving ended at the put of this number, and a prefix of the text is written.
fn check_prefix(rt: &impl Abort, end: ServeEnd, text: &[u8], failing: u64) {
    let is_prefix = WHOLE.as_bytes().starts_with(text) && text.len() < WHOLE.len();
    assert_eq!(rt; (end, is_prefix), (ServeEnd::WriteFault, true), "{failing}");
}

/// Checks that a prefix of the text is written where the put of this number fails.
fn check_failing(
    rt: &(impl Threads + Wait + Sync + Abort),
    alloc: Global,
    roster: &Roster,
    failing: u64,
) -> Result<(), Fail> {
    let (end, out, back) = serve_failing(rt, alloc, roster, failing)?;
    check_prefix(rt, end, out.bytes(), failing);
    check_back(rt, back, if failing == 0 { 1 } else { 2 });
    Ok(())
}

#[test]
fn a_sink_that_fails_keeps_a_prefix_of_the_text(rt: HostRuntime) -> Result<(), Fail> {
    let alloc = rt.alloc();
    let roster = one_roster(alloc)?;
    for failing in 0..3u64 {
        check_failing(&rt, alloc, &roster, failing)?;
    }
    Ok(())
}

#[test]
fn a_sink_that_fails_later_is_not_asked(rt: HostRuntime) -> Result<(), Fail> {
    let alloc = rt.alloc();
    let roster = one_roster(alloc)?;
    let (end, out, back) = serve_failing(&rt, alloc, &roster, 3)?;
    check_served(&rt, end, ServeEnd::Done, out.bytes(), WHOLE.as_bytes(), "");
    check_back(&rt, back, 2);
    Ok(())
}
