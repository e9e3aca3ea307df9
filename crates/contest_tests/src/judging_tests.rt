use crate::farm_cli_tests::{check_ended, end_of};
use crate::gates::{
    DeathGate, LossGate, MEETINGS, Meeting, MeetingGate, RecordingGate, SeededGate,
};
use exit_status::Exit;
use farm_io::{MemorySink, ReliableSink, ReliableSource};
use farm_tree::{MemoryTree, ReliableTree};
use folder_tests::files::files_of;
use judgehost::{AlwaysOn, Gate, Point};
use std::alloc::Global;
use std::process::Abort;
use std::str;
use std::sync::{Mutex, Wait};
use std::test::Fail;
use std::thread::Threads;

/// How many bytes a sink of these tests holds.
const ROOM: usize = 8192;

/// The files of a contest, a line each: the path, and behind `|` what the file holds. Its programs copy their input (1, 5), write nothing (2), run for ever
/// (3), are no image (4), and write `9` (6) and `3` (7).
const CONTEST: &str = concat!(
    "c/problems/echo/problem.yaml|name: Echo~validator_flags: float_tolerance 1e-6~\n",
    "c/problems/echo/domjudge-problem.ini|timelimit='0.01'~\n",
    "c/problems/echo/data/sample/1.in|3.14~\n",
    "c/problems/echo/data/sample/1.ans|3.14~\n",
    "c/problems/echo/data/secret/01.in|7~\n",
    "c/problems/echo/data/secret/01.ans|7~\n",
    "c/problems/guess/problem.yaml|validation: custom~\n",
    "c/problems/guess/domjudge-problem.ini|timelimit='0.01'~\n",
    "c/problems/guess/output_validators/guess.rv32|#b705020013050000130610009308f0037300000083c6050013051000130740036394e6001305a002130730036394e6001305b0029308d00573000000\n",
    "c/problems/guess/data/sample/1.in|4~\n",
    "c/problems/guess/data/sample/1.ans|4~\n",
    "c/problems/guess/data/secret/01.in|4~\n",
    "c/problems/guess/data/secret/01.ans|4~\n",
    "c/submissions.txt|1 alpha echo 1.rv32~2 beta echo 2.rv32~3 gamma echo 3.rv32~4 delta echo 4.rv32~5 alpha guess 5.rv32~6 beta guess 6.rv32~7 gamma guess 7.rv32~\n",
    "c/submissions/1.rv32|#b705020013050000130600049308f0037300000013060500130510009308000473000000130500009308d00573000000\n",
    "c/submissions/2.rv32|#130500009308d00573000000\n",
    "c/submissions/3.rv32|#6f000000\n",
    "c/submissions/4.rv32|#000000\n",
    "c/submissions/5.rv32|#b705020013050000130600049308f0037300000013060500130510009308000473000000130500009308d00573000000\n",
    "c/submissions/6.rv32|#b7050200130690032380c50013051000130610009308000473000000130500009308d00573000000\n",
    "c/submissions/7.rv32|#b7050200130630032380c50013051000130610009308000473000000130500009308d00573000000\n",
);

/// What is written for it.
const TABLE: &str = concat!(
    "1 alpha echo correct\n",
    "2 beta echo no-output\n",
    "3 gamma echo timelimit\n",
    "4 delta echo compiler-error\n",
    "5 alpha guess correct\n",
    "6 beta guess judging-error\n",
    "7 gamma guess wrong-answer\n",
);

/// A contest of one test, whose program copies its input.
const ONE_TEST: &str = concat!(
    "c/problems/echo/problem.yaml|\n",
    "c/problems/echo/data/secret/01.in|7~\n",
    "c/problems/echo/data/secret/01.ans|7~\n",
    "c/submissions.txt|1 alpha echo 1.rv32~\n",
    "c/submissions/1.rv32|#b705020013050000130600049308f0037300000013060500130510009308000473000000130500009308d00573000000\n",
);

/// What is written for it, with its journal.
const ONE_TEST_JOURNAL: &str = concat!(
    "1 alpha echo correct\n",
    "journal 0 problem echo 1 => problem echo version 1\n",
    "journal 0 submit echo => submission 1 judging 1\n",
    "journal 0 host h0 => host h0\n",
    "journal 0 claim h0 => task 1 1 until 60\n",
    "journal 0 result h0 1 1 correct => counted\n",
    "journal 0 claim h0 => nothing\n",
    "journal 0 show 1 => final correct\n",
);

/// A contest of three tests, whose program exits with 1.
const FAILING: &str = concat!(
    "c/problems/echo/problem.yaml|\n",
    "c/problems/echo/data/secret/01.in|1~\n",
    "c/problems/echo/data/secret/01.ans|1~\n",
    "c/problems/echo/data/secret/02.in|2~\n",
    "c/problems/echo/data/secret/02.ans|2~\n",
    "c/problems/echo/data/secret/03.in|3~\n",
    "c/problems/echo/data/secret/03.ans|3~\n",
    "c/submissions.txt|1 alpha echo 1.rv32~\n",
    "c/submissions/1.rv32|#130510009308d00573000000\n",
);

/// What to change in the first contest's files, and what is then written: `PATH=CONTENT` for a file that holds this, and `PATH` alone
/// for one that is left out.
const ROWS: &str = concat!(
    " => 1 alpha echo correct~2 beta echo no-output~3 gamma echo timelimit~4 delta echo compiler-error~5 alpha guess correct~6 beta guess judging-error~7 gamma guess wrong-answer~\n",
    "c/problems/echo/problem.yaml => bad contest: problem echo: no problem.yaml~\n",
    "c/submissions/4.rv32=#7f454c460101010000000000000000000200f300010000005400010034000000000000000000000034002000010028000000000001000000540000005400010000000000080000001000000005000000040000009308d00573000000 => 1 alpha echo correct~2 beta echo no-output~3 gamma echo timelimit~4 delta echo no-output~5 alpha guess correct~6 beta guess judging-error~7 gamma guess wrong-answer~\n",
    "c/submissions/4.rv32=#7f454c460101010000000000000000000200f300010000005600010034000000000000000000000034002000010028000000000001000000540000005400010000000000080000001000000005000000040000009308d00573000000 => 1 alpha echo correct~2 beta echo no-output~3 gamma echo timelimit~4 delta echo compiler-error~5 alpha guess correct~6 beta guess judging-error~7 gamma guess wrong-answer~\n",
    "c/submissions/4.rv32=#7f454c460101010000000000000000000200f300010000005400010034000000000000000000000034002000000028000000000001000000540000005400010000000000080000001000000005000000040000009308d00573000000 => 1 alpha echo correct~2 beta echo no-output~3 gamma echo timelimit~4 delta echo compiler-error~5 alpha guess correct~6 beta guess judging-error~7 gamma guess wrong-answer~\n",
    "c/submissions/4.rv32=#7f454c460101010000000000000000000200f30001000000540001003400000000000000000000003400200001002800000000000100000054000000 => 1 alpha echo correct~2 beta echo no-output~3 gamma echo timelimit~4 delta echo compiler-error~5 alpha guess correct~6 beta guess judging-error~7 gamma guess wrong-answer~\n",
    "c/submissions/4.rv32=#7f454c460101010000000000000000000200f300010000005400010034000000000000000000000034002000010028000000000001000000540000005400010000000000080000001000000005000000040000009308d0057300 => 1 alpha echo correct~2 beta echo no-output~3 gamma echo timelimit~4 delta echo compiler-error~5 alpha guess correct~6 beta guess judging-error~7 gamma guess wrong-answer~\n",
    "c/submissions/7.rv32 => bad contest: line 7: no image~\n",
    "c/submissions.txt => bad contest: no submissions.txt~\n",
    "c/submissions.txt= => \n",
    "c/farm.json={\"lease\":0} => bad contest: farm.json: bad value lease~\n",
    "c/farm.json={\"lazy_eval_results\":false} => 1 alpha echo correct~2 beta echo no-output~3 gamma echo timelimit~4 delta echo compiler-error~5 alpha guess correct~6 beta guess judging-error~7 gamma guess wrong-answer~\n",
    "c/farm.json={\"results_remap\":{\"timelimit\":\"run-error\"}} => 1 alpha echo correct~2 beta echo no-output~3 gamma echo run-error~4 delta echo compiler-error~5 alpha guess correct~6 beta guess judging-error~7 gamma guess wrong-answer~\n",
);

/// What a command line writes over a contest's files with this change, and how it ends.
fn judged<G: Gate + Sync>(
    rt: &(impl Threads + Wait + Sync),
    alloc: Global,
    line: &str,
    contest: &str,
    change: &str,
    gate: &G,
) -> Result<(Exit, ReliableSink), Fail> {
    let mut input = ReliableSource::new(Vec::new(alloc));
    let mut out = ReliableSink::new(Vec::with_capacity(alloc, ROOM)?);
    let mut tree = ReliableTree::new(alloc, files_of(alloc, contest, change)?);
    let exit = end_of(rt, alloc, line, &mut tree, &mut input, &mut out, gate)?;
    Ok((exit, out))
}

/// Compares what is written for a row.
fn check_row(
    rt: &(impl Threads + Wait + Sync + Abort),
    alloc: Global,
    row: &str,
) -> Result<(), Fail> {
    let (change, text) = row.split_once(" => ").unwrap_or((row, ""));
    let exit = if text.starts_with("bad contest") {
        Exit::BadContest
    } else {
        Exit::Done
    };
    let text = text.replace(alloc, '~', "\n")?;
    let (ended, out) = judged(
        rt,
        alloc,
        "farm judge c --hosts 1",
        CONTEST,
        change,
        &AlwaysOn,
    )?;
    check_ended(rt, ended, exit, out.bytes(), text.as_bytes(), change);
    Ok(())
}

#[test]
fn a_realistic_contest_and_what_may_be_wrong_with_it(rt: HostRuntime) -> Result<(), Fail> {
    for row in ROWS.lines() {
        check_row(&rt, rt.alloc(), row)?;
    }
    Ok(())
}

/// Compares what a command line writes for a contest.
fn check_judged<G: Gate + Sync>(
    rt: &(impl Threads + Wait + Sync + Abort),
    alloc: Global,
    line: &str,
    contest: &str,
    gate: &G,
    text: &str,
    name: &str,
) -> Result<(), Fail> {
    let (exit, out) = judged(rt, alloc, line, contest, "", gate)?;
    check_ended(rt, exit, Exit::Done, out.bytes(), text.as_bytes(), name);
    Ok(())
}

/// Compares what `hosts` hosts write for the realistic contest.
fn check_table<G: Gate + Sync>(
    rt: &(impl Threads + Wait + Sync + Abort),
    alloc: Global,
    hosts: u64,
    gate: &G,
    name: &str,
) -> Result<(), Fail> {
    let line = format!(in alloc; "farm judge c --hosts {hosts}")?;
    check_judged(rt, alloc, line.as_str(), CONTEST, gate, TABLE, name)
}

/// Checks that the table stands in front of a journal, and, where the hosts do all the work, that the caller finds nothing
/// to do.
fn check_journal(rt: &impl Abort, written: &[u8], hosts: u64, at_work: bool) {
    assert!(rt; written.starts_with(TABLE.as_bytes()), "{hosts}");
    if at_work {
        let journal = str::from_utf8(written).unwrap_or("no text");
        assert_eq!(rt; journal.matches("claim h0").count(), 1, "{hosts}");
        assert!(rt;
            journal.contains("\njournal 0 claim h0 => nothing\n"),
            "{hosts}"
        );
    }
}

/// Checks the journal that `hosts` hosts write for the realistic contest.
fn check_journal_of(
    rt: &(impl Threads + Wait + Sync + Abort),
    alloc: Global,
    hosts: u64,
    gate: &DeathGate,
) -> Result<(), Fail> {
    let line = format!(in alloc; "farm judge c --journal --hosts {hosts}")?;
    let (_, out) = judged(rt, alloc, line.as_str(), CONTEST, "", gate)?;
    check_journal(rt, out.bytes(), hosts, gate.death.is_none() && hosts != 0);
    Ok(())
}

/// The realistic contest is judged the same whatever the number of its hosts, and where host 1 dies after its first
/// claim. Where none dies, the caller finds nothing to do.
#[test]
fn hosts_at_work(rt: HostRuntime) -> Result<(), Fail> {
    let alloc = rt.alloc();
    let first_claim = Some((1, Point::AfterClaim, 1));
    for hosts in [0, 1, 4] {
        for death in [None, first_claim] {
            let gate = DeathGate { death };
            let name = format!(in alloc; "{hosts}")?;
            check_table(&rt, alloc, hosts, &gate, name.as_str())?;
            check_journal_of(&rt, alloc, hosts, &gate)?;
        }
    }
    Ok(())
}

/// Compares what three hosts write, of which one dies.
fn check_death(
    rt: &(impl Threads + Wait + Sync + Abort),
    alloc: Global,
    host: u32,
    point: Point,
    turn: u64,
) -> Result<(), Fail> {
    let name = format!(in alloc; "{host} {point:?} {turn}")?;
    let death = Some((host, point, turn));
    check_table(rt, alloc, 3, &DeathGate { death }, name.as_str())
}

#[test]
fn deaths_at_each_moment(rt: HostRuntime) -> Result<(), Fail> {
    for host in 1..=3u32 {
        for point in [Point::AfterClaim, Point::BeforePost, Point::AfterPost] {
            for turn in 1..=4u64 {
                check_death(&rt, rt.alloc(), host, point, turn)?;
            }
        }
    }
    Ok(())
}

/// A host that dies has claimed as often as its turn says, and has posted a result less unless it died behind it.
fn check_dead(
    rt: &(impl Threads + Wait + Sync + Abort),
    alloc: Global,
    point: Point,
    turn: u64,
) -> Result<(), Fail> {
    let gate = DeathGate {
        death: Some((1, point, turn)),
    };
    let line = "farm judge c --journal --hosts 1";
    let (_, out) = judged(rt, alloc, line, CONTEST, "", &gate)?;
    let journal = str::from_utf8(out.bytes()).unwrap_or("no text");
    let claims = journal.matches("claim h1 => task").count() as u64;
    let posts = journal.matches("result h1").count() as u64;
    let posted = if point == Point::AfterPost {
        turn
    } else {
        turn.saturating_sub(1)
    };
    assert_eq!(rt; (claims, posts), (turn, posted), "{point:?} {turn}");
    assert!(rt; journal.contains("result h0"), "{point:?} {turn}");
    Ok(())
}

#[test]
fn a_death_is_seen_in_the_journal(rt: HostRuntime) -> Result<(), Fail> {
    for point in [Point::AfterClaim, Point::BeforePost, Point::AfterPost] {
        for turn in 1..=4u64 {
            check_dead(&rt, rt.alloc(), point, turn)?;
        }
    }
    Ok(())
}

#[test]
fn a_journal_of_one_test(rt: HostRuntime) -> Result<(), Fail> {
    let line = "farm judge c --hosts 0 --journal";
    check_judged(
        &rt,
        rt.alloc(),
        line,
        ONE_TEST,
        &AlwaysOn,
        ONE_TEST_JOURNAL,
        "",
    )
}

/// After a run error on the first test no other test can matter.
#[test]
fn a_host_runs_one_of_three_tests(rt: HostRuntime) -> Result<(), Fail> {
    let gate = RecordingGate {
        rt: &rt,
        moments: Mutex::new(Vec::new(rt.alloc())),
    };
    let text = "1 alpha echo run-error\n";
    check_judged(
        &rt,
        rt.alloc(),
        "farm judge c --hosts 1",
        FAILING,
        &gate,
        text,
        "",
    )?;
    let expected = [
        (1, Point::AfterClaim, 1),
        (1, Point::BeforePost, 1),
        (1, Point::AfterPost, 1),
    ];
    assert_eq!(rt; gate.moments.into_inner().as_slice(), expected.as_slice());
    Ok(())
}

/// Checks that two hosts waited for each other as often as they were to.
fn check_met(rt: &impl Abort, meeting: Meeting) {
    assert_eq!(rt;
        (meeting.one, meeting.two, meeting.gave_up),
        (MEETINGS, MEETINGS, false)
    );
}

/// Two hosts work at the same time: neither posts one of its first results before the other has claimed as many tasks. In
/// the journal the pass of each has made its own claims and posts, and each has posted several results.
#[test]
fn two_hosts_at_once(rt: HostRuntime) -> Result<(), Fail> {
    let gate = MeetingGate::new(&rt);
    let line = "farm judge c --journal --hosts 2";
    let (_, out) = judged(&rt, rt.alloc(), line, CONTEST, "", &gate)?;
    check_met(&rt, gate.meeting.into_inner());
    let journal = str::from_utf8(out.bytes()).unwrap_or("no text");
    assert!(rt; journal.starts_with(TABLE));
    for call in ["1 claim h1", "2 claim h2", "1 result h1", "2 result h2"] {
        assert!(rt; journal.matches(call).count() as u64 >= MEETINGS, "{call}");
    }
    for call in ["1 claim h2", "2 claim h1", "1 result h2", "2 result h1"] {
        assert!(rt; !journal.contains(call), "{call}");
    }
    Ok(())
}

/// Of two hosts the first dies with its first task, which is left to the caller, and the other goes on.
#[test]
fn one_of_two_hosts_dies(rt: HostRuntime) -> Result<(), Fail> {
    let gate = LossGate {
        meeting: MeetingGate::new(&rt),
        death: (1, Point::BeforePost, 1),
    };
    let line = "farm judge c --journal --hosts 2";
    let (_, out) = judged(&rt, rt.alloc(), line, CONTEST, "", &gate)?;
    check_met(&rt, gate.meeting.meeting.into_inner());
    let journal = str::from_utf8(out.bytes()).unwrap_or("no text");
    assert!(rt; journal.starts_with(TABLE));
    for (call, count) in [("claim h1", 1), ("result h1", 0), ("result h0", 1)] {
        assert_eq!(rt; journal.matches(call).count(), count, "{call}");
    }
    assert!(rt; journal.matches("2 result h2").count() as u64 >= MEETINGS);
    Ok(())
}

/// Contests of 1 to 16 hosts, which die at moments that are drawn.
#[test]
fn deaths_at_random(rt: HostRuntime) -> Result<(), Fail> {
    for seed in 0..64u64 {
        let name = format!(in rt.alloc(); "{seed}")?;
        check_table(
            &rt,
            rt.alloc(),
            seed % 16 + 1,
            &SeededGate { seed },
            name.as_str(),
        )?;
    }
    Ok(())
}

/// How judging ends where the first call of the contest's tree fails, and what is written.
fn judge_unread(
    rt: &(impl Threads + Wait + Sync),
    alloc: Global,
) -> Result<(Exit, ReliableSink), Fail> {
    let mut input = ReliableSource::new(Vec::new(alloc));
    let mut out = ReliableSink::new(Vec::with_capacity(alloc, ROOM)?);
    let failing = [0].to_vec(alloc)?;
    let mut tree = MemoryTree::new(alloc, files_of(alloc, CONTEST, "")?, failing);
    let line = "farm judge c --hosts 0";
    let exit = end_of(rt, alloc, line, &mut tree, &mut input, &mut out, &AlwaysOn)?;
    Ok((exit, out))
}

#[test]
fn a_tree_whose_first_read_fails(rt: HostRuntime) -> Result<(), Fail> {
    let (exit, out) = judge_unread(&rt, rt.alloc())?;
    check_ended(&rt, exit, Exit::TreeFault, out.bytes(), b"", "");
    Ok(())
}

/// How judging ends where the put of this number fails, and what is written.
fn judge_unwritten(
    rt: &(impl Threads + Wait + Sync),
    alloc: Global,
    failing: u64,
) -> Result<(Exit, MemorySink), Fail> {
    let mut input = ReliableSource::new(Vec::new(alloc));
    let failing = [failing].to_vec(alloc)?;
    let mut out = MemorySink::new(Vec::with_capacity(alloc, ROOM)?, failing);
    let mut tree = ReliableTree::new(alloc, files_of(alloc, CONTEST, "")?);
    let line = "farm judge c --hosts 1";
    let exit = end_of(rt, alloc, line, &mut tree, &mut input, &mut out, &AlwaysOn)?;
    Ok((exit, out))
}

/// Compares how judging ends where the put of this number fails, and how many lines of the table are written.
fn check_unwritten(
    rt: &(impl Threads + Wait + Sync + Abort),
    alloc: Global,
    failing: u64,
) -> Result<(), Fail> {
    let (exit, out) = judge_unwritten(rt, alloc, failing)?;
    let status = if failing < PUTS { 5 } else { 0 };
    let written = out.bytes();
    assert_eq!(rt; exit.status(), status, "{failing}");
    assert!(rt; TABLE.as_bytes().starts_with(written), "{failing}");
    assert_eq!(rt; written.len() == TABLE.len(), status == 0, "{failing}");
    Ok(())
}

/// With how many puts a table is written.
const PUTS: u64 = 1;

#[test]
fn each_put_of_a_table_fails(rt: HostRuntime) -> Result<(), Fail> {
    for failing in 0..=PUTS {
        check_unwritten(&rt, rt.alloc(), failing)?;
    }
    Ok(())
}
