ghost use Rattle.std.specs.Prelude.{◌≡◌, ◌≤◌, [], IfOk};
ghost use Rattle.farm_io.specs.MemoryDoors.{IsNew, IsReliableNew};

use crate::calling::end_with;
use crate::farm_cli_tests::{check_ended, tree_of, words_of};
use exit_status::Exit;
use farm_io::{
    Connection, Door, MemoryConn, MemoryDoor, MemoryLink, MemorySink, MemorySource, ReliableConn,
    ReliableDoor, ReliableSink, ReliableSource,
};
use judgehost::AlwaysOn;
use record_store::MemoryDisk;
use std::alloc::{AllocError, Global};
use std::sync::Wait;
use std::test::Fail;
use std::thread::Threads;

/// How many bytes a sink of these tests holds.
const ROOM: usize = 2000;

const SERVE: &str = "farm serve c --port 0 --lanes 2 --connections 2";

const ASK: &[u8] = b"GET /board HTTP/1.1\r\nhost: x\r\n\r\n";

/// A connection that asks for the board and has room for the response.
fn conn(alloc: Global) -> Result<ReliableConn, AllocError>
    ensures { IfOk result IsReliableNew }
{
    let bytes = ASK.to_vec(alloc)?;
    let sink = ReliableSink::new(Vec::with_capacity(alloc, ROOM)?);
    Ok(Connection::new(ReliableSource::new(bytes), sink))
}

/// A door to which one connection comes that asks for the board.
fn door(alloc: Global) -> Result<ReliableDoor, AllocError>
    ensures { IfOk result (λ door. (door.accepted ≡ 0) × (door.back ≡ [])) }
{
    let mut coming = Vec::new(alloc);
    coming.push(conn(alloc)?)?;
    ReliableDoor::new(alloc, coming)
}

/// A connection that asks for the board and has room for the response; its calls may fail, but none does.
fn failing_conn(alloc: Global) -> Result<MemoryConn, AllocError>
    ensures { IfOk result IsNew }
{
    let source = MemorySource::new(ASK.to_vec(alloc)?, Vec::new(alloc));
    let sink = MemorySink::new(Vec::with_capacity(alloc, ROOM)?, Vec::new(alloc));
    Ok(Connection::new(source, sink))
}

/// A door to which one connection of `failing_conn` comes, and whose call `failing` fails.
fn failing_door(alloc: Global, failing: u64) -> Result<MemoryDoor, AllocError>
    ensures { IfOk result (λ door. (door.accepted ≡ 0) × (door.back ≡ [])) }
{
    let mut coming = Vec::new(alloc);
    coming.push(failing_conn(alloc)?)?;
    let failing = [failing].to_vec(alloc)?;
    MemoryDoor::new(alloc, coming, failing)
}

/// How a contest without problems is served at the door, and what is written.
fn served<D: Door>(
    rt: &(impl Threads + Wait + Sync),
    alloc: Global,
    door: &mut D,
) -> Result<(Exit, ReliableSink), Fail>
where
    D::Conn: Drop,
    requires { (D.state door.old).returned ≤ (D.state door.old).accepted }
{
    let words = words_of(alloc, SERVE)?;
    let mut input = ReliableSource::new(Vec::new(alloc));
    let mut out = ReliableSink::new(Vec::with_capacity(alloc, ROOM)?);
    let mut tree = tree_of(alloc, "c/submissions.txt", b"")?;
    let mut link = MemoryLink::new(alloc, Vec::new(alloc), Vec::new(alloc))?;
    let mut disk = MemoryDisk::new(alloc, Vec::new(alloc), Vec::new(alloc))?;
    let exit = end_with(
        rt,
        alloc,
        words.as_slice(),
        &mut tree,
        &mut input,
        &mut out,
        door,
        &AlwaysOn,
        &mut link,
        &mut disk,
    );
    Ok((exit, out))
}

#[test]
fn one_connection_asks_for_the_board(rt: HostRuntime) -> Result<(), Fail> {
    let mut door = door(rt.alloc())?;
    let (exit, out) = served(&rt, rt.alloc(), &mut door)?;
    let text = b"conn 1 requests 1 end\nboard 0\n";
    check_ended(&rt, exit, Exit::Done, out.bytes(), text, "");
    Ok(())
}

#[test]
fn a_port_that_is_taken(rt: HostRuntime) -> Result<(), Fail> {
    let mut door = failing_door(rt.alloc(), 0)?;
    let (exit, out) = served(&rt, rt.alloc(), &mut door)?;
    assert_eq!(rt; (exit.status(), out.bytes()), (8, b"".as_slice()));
    assert_eq!(rt; door.back().len(), 0);
    Ok(())
}

/// Who was let in before the door failed is served, and has its line.
#[test]
fn a_door_whose_second_accept_fails(rt: HostRuntime) -> Result<(), Fail> {
    let mut door = failing_door(rt.alloc(), 2)?;
    let (exit, out) = served(&rt, rt.alloc(), &mut door)?;
    let line = b"conn 1 requests 1 end\n".as_slice();
    assert_eq!(rt; (exit.status(), out.bytes()), (8, line));
    assert_eq!(rt; door.back().len(), 1);
    Ok(())
}
