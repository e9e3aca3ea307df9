ghost use Rattle.std.specs.Prelude.{◌≡◌, ◌≤◌, [], length, IfOk};
ghost use Rattle.farm_io.specs.MemoryDoors.{IsNew};

use crate::calling::end_with;
use crate::farm_cli_tests::{tree_of, words_of};
use exit_status::Exit;
use farm_io::{
    Connection, MemoryConn, MemoryLink, MemorySink, MemorySource, ReliableDoor, ReliableSink,
    ReliableSource,
};
use farm_kinds::Task;
use judgehost::AlwaysOn;
use record_store::MemoryDisk;
use remote_host::Wrong;
use std::alloc::{AllocError, Global};
use std::process::Abort;
use std::sync::Wait;
use std::test::Fail;
use std::thread::Threads;

/// How many bytes a sink of these tests holds.
const ROOM: usize = 2000;

const HOST: &str = "farm host 127.0.0.1 --port 80 --name h1 --fuel 9";

const WAITING: &str = "farm host 127.0.0.1 --port 80 --name h1 --fuel 3 --wait 1";

const ENTERED: &str = r#"{"host":"h1","reply":"host"}"#;

const TASK: &str = r#"{"judging":1,"reply":"task","test":1,"until":60}"#;

const COUNTED: &str = r#"{"reply":"counted"}"#;

const NOTHING: &str = r#"{"reply":"nothing"}"#;

const NO_HOST: &str = r#"{"host":"h1","reply":"no-host"}"#;

/// The job of a case that echoes its input, `7` and a line feed, and whose answer is that input.
const JOB: &str = concat!(
    r#"{"answer":"Nwo=","check":"default","flags":{"absolute":null,"case":false,"relative":null,"space":false},"#,
    r#""image":"twUCABMFAAATBgAEkwjwA3MAAAATBgUAEwUQAJMIAARzAAAAEwUAAJMI0AVzAAAA","input":"Nwo=","#,
    r#""instructions":10000000,"judging":1,"output":8388608,"pages":16384,"reply":"job","test":1}"#,
);

// The requests of the host, by their first letters in `requests`.
const ENTER: &str =
    "POST /judgehosts HTTP/1.1\r\nhost: farm\r\ncontent-length: 17\r\n\r\n{\"hostname\":\"h1\"}";

const FETCH: &str =
    "POST /judgehosts/fetch-work HTTP/1.1\r\nhost: farm\r\ncontent-length: 17\r\n\r\n{\"hostname\":\"h1\"}";

const ASK_JOB: &str = "GET /judgehosts/job/1/1 HTTP/1.1\r\nhost: farm\r\n\r\n";

const POST: &str = concat!(
    "POST /judgehosts/add-judging-run HTTP/1.1\r\nhost: farm\r\ncontent-length: 57\r\n\r\n",
    "{\"hostname\":\"h1\",\"judging\":1,\"result\":\"correct\",\"test\":1}",
);

/// A connection that gives responses with these bodies, and whose calls of `take` with these numbers fail.
fn conn(alloc: Global, bodies: &[&str], failing: Vec<u64>) -> Result<MemoryConn, AllocError>
    ensures { IfOk result IsNew }
{
    let mut bytes = Vec::new(alloc);
    for body in bodies {
        let len = body.len();
        let head = format!(in alloc;
            "HTTP/1.1 200 OK\r\ncontent-length: {len}\r\ncontent-type: application/json\r\n\r\n"
        )?;
        bytes.extend_from_slice(head.as_bytes())?;
        bytes.extend_from_slice(body.as_bytes())?;
    }
    let sink = MemorySink::new(Vec::with_capacity(alloc, ROOM)?, Vec::new(alloc));
    Ok(Connection::new(MemorySource::new(bytes, failing), sink))
}

/// A link that makes this connection, or fails.
fn link_to(alloc: Global, conn: MemoryConn, failing: Vec<u64>) -> Result<MemoryLink, AllocError>
    requires { IsNew conn }
    ensures { IfOk result (λ link. (link.accepted ≡ 0) × (link.back ≡ [])) }
{
    let mut coming = Vec::new(alloc);
    coming.push(conn)?;
    MemoryLink::new(alloc, coming, failing)
}

/// How a host works over the link, and what is written.
fn hosted(
    rt: &(impl Threads + Wait + Sync),
    alloc: Global,
    line: &str,
    link: &mut MemoryLink,
) -> Result<(Exit, ReliableSink), Fail>
    requires { length link.old.back ≤ link.old.accepted }
{
    let words = words_of(alloc, line)?;
    let mut input = ReliableSource::new(Vec::new(alloc));
    let mut out = ReliableSink::new(Vec::with_capacity(alloc, ROOM)?);
    let mut tree = tree_of(alloc, "c/submissions.txt", b"")?;
    let mut door = ReliableDoor::new(alloc, Vec::new(alloc))?;
    let mut disk = MemoryDisk::new(alloc, Vec::new(alloc), Vec::new(alloc))?;
    let exit = end_with(
        rt,
        alloc,
        words.as_slice(),
        &mut tree,
        &mut input,
        &mut out,
        &mut door,
        &AlwaysOn,
        link,
        &mut disk,
    );
    Ok((exit, out))
}

/// The requests of these letters, one behind the other: `e` enters, `f` asks for a task, `j` for its job, `p` posts.
fn requests(alloc: Global, letters: &str) -> Result<Vec<u8>, AllocError> {
    let mut bytes = Vec::new(alloc);
    for letter in letters.as_bytes() {
        let request = match *letter {
            b'e' => ENTER,
            b'f' => FETCH,
            b'j' => ASK_JOB,
            _ => POST,
        };
        bytes.extend_from_slice(request.as_bytes())?;
    }
    Ok(bytes)
}

/// Compares how a host ends over a connection with these responses, what is written, and what was put on it.
fn check_host(
    rt: &(impl Threads + Wait + Sync + Abort),
    alloc: Global,
    line: &str,
    bodies: &[&str],
    exit: Exit,
    written: &str,
    put: &str,
) -> Result<(), Fail> {
    let conn = conn(alloc, bodies, Vec::new(alloc))?;
    let mut link = link_to(alloc, conn, Vec::new(alloc))?;
    let (ended, out) = hosted(rt, alloc, line, &mut link)?;
    assert_eq!(rt; (ended, out.bytes()), (exit, written.as_bytes()), "{put}");
    let put_is = requests(alloc, put)?;
    let back = link.back();
    assert_eq!(rt; back.len(), 1, "{put}");
    for conn in back {
        assert_eq!(rt; conn.sink.bytes(), put_is.as_slice(), "{put}");
    }
    Ok(())
}

#[test]
fn a_talk_of_five_responses(rt: HostRuntime) -> Result<(), Fail> {
    let bodies = [ENTERED, TASK, JOB, COUNTED, NOTHING];
    let line = "host h1 claims 2 posted 1 idle\n";
    check_host(&rt, rt.alloc(), HOST, &bodies, Exit::Done, line, "efjpf")
}

#[test]
fn a_job_of_another_task(rt: HostRuntime) -> Result<(), Fail> {
    let job = JOB.replace(rt.alloc(), "\"test\":1", "\"test\":2")?;
    let bodies = [ENTERED, TASK, job.as_str(), COUNTED, NOTHING];
    let task = Task {
        judging: 1,
        test: 2,
    };
    let exit = Exit::BadAnswer {
        wrong: Wrong::OtherTask { task },
    };
    assert_eq!(&rt; exit.status(), 11);
    check_host(&rt, rt.alloc(), HOST, &bodies, exit, "", "efj")
}

#[test]
fn a_name_that_is_not_entered(rt: HostRuntime) -> Result<(), Fail> {
    let line = "host h1 claims 1 posted 0 no-host\n";
    check_host(
        &rt,
        rt.alloc(),
        HOST,
        &[ENTERED, NO_HOST],
        Exit::Done,
        line,
        "ef",
    )
}

#[test]
fn a_host_that_waits_spends_its_fuel(rt: HostRuntime) -> Result<(), Fail> {
    let bodies = [ENTERED, NOTHING, TASK, JOB, COUNTED, NOTHING];
    let line = "host h1 claims 3 posted 1 fuel\n";
    check_host(
        &rt,
        rt.alloc(),
        WAITING,
        &bodies,
        Exit::Done,
        line,
        "effjpf",
    )
}

#[test]
fn a_connection_that_ends_in_a_response(rt: HostRuntime) -> Result<(), Fail> {
    let exit = Exit::BadAnswer { wrong: Wrong::Cut };
    check_host(&rt, rt.alloc(), HOST, &[ENTERED], exit, "", "ef")
}

#[test]
fn a_connection_that_fails(rt: HostRuntime) -> Result<(), Fail> {
    let failing = [0].to_vec(rt.alloc())?;
    let conn = conn(rt.alloc(), &[ENTERED], failing)?;
    let mut link = link_to(rt.alloc(), conn, Vec::new(rt.alloc()))?;
    let (exit, out) = hosted(&rt, rt.alloc(), HOST, &mut link)?;
    assert_eq!(&rt; (exit.status(), out.bytes()), (10, b"".as_slice()));
    assert_eq!(&rt; link.back().len(), 1);
    Ok(())
}

#[test]
fn a_server_that_is_not_there(rt: HostRuntime) -> Result<(), Fail> {
    let failing = [0].to_vec(rt.alloc())?;
    let conn = conn(rt.alloc(), &[ENTERED], Vec::new(rt.alloc()))?;
    let mut link = link_to(rt.alloc(), conn, failing)?;
    let (exit, out) = hosted(&rt, rt.alloc(), HOST, &mut link)?;
    assert_eq!(&rt; (exit.status(), out.bytes()), (10, b"".as_slice()));
    assert_eq!(&rt; link.back().len(), 0);
    Ok(())
}
