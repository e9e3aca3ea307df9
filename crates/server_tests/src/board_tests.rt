use crate::contest_server_tests::{one_roster, serve_two};
use crate::talks::{ROOM, bytes_of, check_bytes, said};
use contest_folder::Roster;
use farm_io::{ReliableConn, ReliableSink};
use std::alloc::Global;
use std::process::Abort;
use std::sync::Wait;
use std::test::Fail;
use std::thread::Threads;

/// What comes on a connection to a contest of one test and one submission, what is written of it, and the responses, a line
/// each. Requests and responses stand there by words.
const TALKS: &str = concat!(
    "host fetch correct correct => conn 1 requests 4 end~1 correct~board 1~ => is-up handed counted repeat\n",
    "host other-host fetch correct other-wrong other-fetch other-host => conn 1 requests 7 end~1 correct~board 1~ => is-up other-is-up handed counted differs no-other-host other-is-up\n",
    "job rejudged-job job-without-case job-past-tests => conn 1 requests 4 end~1 pending~board 1~ => is-job no-judging no-job no-job\n",
    "host fetch correct rejudge rejudged-job => conn 1 requests 5 end~1 correct~board 1~ => is-up handed counted rejudged is-rejudged-job\n",
    "host public fetch public correct public correct public => conn 1 requests 8 end~1 correct~board 1~ => is-up public-pending handed public-pending counted public-correct repeat public-correct\n",
    "host fetch correct rejudge fetch rejudged-wrong public apply public => conn 1 requests 9 end~1 wrong-answer~board 1~ => is-up handed counted rejudged rejudged-handed counted public-correct applied public-wrong\n",
);

/// What was put on the first of these connections.
fn put_on_first(conns: &[ReliableConn]) -> &[u8] {
    match conns.first() {
        Some(conn) => conn.sink.bytes(),
        None => b"",
    }
}

/// Compares what is written of a connection, and the responses.
fn check_talk(
    rt: &(impl Threads + Wait + Sync + Abort),
    alloc: Global,
    roster: &Roster,
    talk: &str,
) -> Result<(), Fail> {
    let (sent, rest) = talk.split_once(" => ").unwrap_or((talk, ""));
    let (text, responses) = rest.split_once(" => ").unwrap_or((rest, ""));
    let text = bytes_of(alloc, text)?;
    let responses = said(alloc, responses)?;
    let mut out = ReliableSink::new(Vec::with_capacity(alloc, ROOM)?);
    let (_, door) = serve_two(rt, alloc, roster, 1, 1, sent, &mut out)?;
    check_bytes(rt, out.bytes(), text.as_slice(), sent);
    check_bytes(rt, put_on_first(door.back()), responses.as_slice(), sent);
    Ok(())
}

#[test]
fn connections_are_served_on_a_board(rt: HostRuntime) -> Result<(), Fail> {
    let roster = one_roster(rt.alloc())?;
    for talk in TALKS.lines() {
        check_talk(&rt, rt.alloc(), &roster, talk)?;
    }
    Ok(())
}
