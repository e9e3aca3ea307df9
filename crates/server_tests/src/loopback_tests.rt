ghost use Rattle.std.specs.Prelude.{◌≡◌, IfOk, IsSome};

use crate::contest_server_tests::{check_served, one_roster};
use crate::door_tests::connect;
use crate::talks::{at_port, check_bytes, said};
use contest_folder::Roster;
use contest_server::{ServeEnd, serve_contest};
use farm_io::{Door, FixedClock, ReliableSink, TcpDoor};
use std::alloc::Global;
use std::io::{Read, Write};
use std::net::{Shutdown, TcpStream};
use std::process::Abort;
use std::sync::Wait;
use std::test::Fail;
use std::thread::Threads;

/// A door that listens at a free port of this machine.
fn open_door(rt: &HostRuntime) -> Result<TcpDoor<&HostRuntime>, Fail>
    ensures { IfOk result (λ door. (door.accepted ≡ 0) × (door.returned ≡ 0) × IsSome door.listens) }
{
    let mut door = TcpDoor::new(rt, rt.alloc());
    if door.listen(at_port(0)).is_err() {
        return Err(Fail::new("no port"));
    }
    Ok(door)
}

/// Says on a stream what these words stand for, and no more.
fn say(alloc: Global, client: &mut TcpStream, words: &str) -> Result<(), Fail> {
    client.write_all(said(alloc, words)?.as_slice())?;
    client.shutdown(Shutdown::Write)?;
    Ok(())
}

/// Serves a contest to a client, and compares what is written and what the client reads.
fn check_client(
    rt: &(impl Threads + Wait + Sync + Abort),
    alloc: Global,
    roster: &Roster,
    door: &mut TcpDoor<&HostRuntime>,
    client: &mut TcpStream,
) -> Result<(), Fail>
    requires { (door.old.accepted ≡ 0) × (door.old.returned ≡ 0) × IsSome door.old.listens }
{
    let response = said(alloc, "is-up")?;
    let mut out = ReliableSink::new(Vec::with_capacity(alloc, 200)?);
    let clock = FixedClock::new(0);
    let end = serve_contest(rt, alloc, roster, 1, 1, &clock, door, &mut out);
    let mut room = [0u8; 200];
    let count = client.read(&mut room)?;
    let text = b"conn 1 requests 1 end\n1 pending\nboard 1\n";
    check_served(rt, end, ServeEnd::Done, out.bytes(), text, "");
    let read = room.as_slice().get(..count).unwrap_or(b"");
    check_bytes(rt, read, response.as_slice(), "what the client reads");
    Ok(())
}

#[test]
fn both_ends_of_a_stream_over_loopback(rt: HostRuntime) -> Result<(), Fail> {
    let alloc = rt.alloc();
    let roster = one_roster(alloc)?;
    let mut door = open_door(&rt)?;
    let mut client = connect(&rt, &door)?;
    say(alloc, &mut client, "host")?;
    check_client(&rt, alloc, &roster, &mut door, &mut client)
}
