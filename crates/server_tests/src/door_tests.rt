ghost use Rattle.std.specs.Prelude.{◌≡◌, ◌<◌, length, All, IfOk, IfSome, IsSome};
ghost use Rattle.farm_io.specs.MemoryDoors.{IsNew, IsReliableNew};

use crate::talks::{at_port, check_bytes};
use farm_io::{
    Accepted, Clock, Connection, Door, DoorErr, FixedClock, MemoryConn, MemoryDoor, MemorySink,
    MemorySource, PutEnd, ReliableConn, ReliableDoor, ReliableSink, ReliableSource, Sink, Source,
    SystemClock, Taken, TcpDoor,
};
use std::alloc::{AllocError, Global};
use std::io::{Read, Write};
use std::net::{Ipv4Addr, TcpStream};
use std::process::Abort;
use std::test::Fail;

#[test]
fn a_fixed_clock_stands_still(rt: HostRuntime) {
    let clock = FixedClock::new(7);
    assert_eq!(rt; [clock.now(), clock.now()], [7, 7]);
}

/// The first second of the year 2020.
const YEAR_2020: u64 = 1_577_836_800;

#[test]
fn the_clock_of_the_system_counts_from_1970(rt: HostRuntime) {
    let first = SystemClock::new(&rt).now();
    let second = SystemClock::new(&rt).now();
    assert!(rt; YEAR_2020 < first);
    assert!(rt; first <= second);
}

/// A connection that gives these bytes and has room for 8.
fn memory_conn(alloc: Global, bytes: &[u8]) -> Result<MemoryConn, AllocError>
    ensures { IfOk result IsNew }
{
    let source = MemorySource::new(bytes.to_vec(alloc)?, [1].to_vec(alloc)?);
    let sink = MemorySink::new(Vec::with_capacity(alloc, 8)?, [1].to_vec(alloc)?);
    Ok(Connection::new(source, sink))
}

/// A connection that gives these bytes, has room for 8 and never fails.
fn reliable_conn(alloc: Global, bytes: &[u8]) -> Result<ReliableConn, AllocError>
    ensures { IfOk result IsReliableNew }
{
    let source = ReliableSource::new(bytes.to_vec(alloc)?);
    let sink = ReliableSink::new(Vec::with_capacity(alloc, 8)?);
    Ok(Connection::new(source, sink))
}

/// What the connection answers to reads of two bytes and to writes of one, which take turns.
fn take_and_put<N: Source + Sink>(conn: &mut N) -> ([Taken; 4], [PutEnd; 3]) {
    let mut room = [0u8; 2];
    let first = conn.take(&mut room);
    let x = conn.put(b"x");
    let second = conn.take(&mut room);
    let y = conn.put(b"y");
    let third = conn.take(&mut room);
    let z = conn.put(b"z");
    let last = conn.take(&mut room);
    ([first, second, third, last], [x, y, z])
}

/// Compares the answers to reads and writes.
fn check_sides(rt: &impl Abort, sides: ([Taken; 4], [PutEnd; 3])) {
    let takes = [Taken::Bytes(2), Taken::Failed, Taken::Bytes(1), Taken::End];
    let puts = [PutEnd::Done, PutEnd::Failed, PutEnd::Done];
    assert_eq!(rt; sides, (takes, puts));
}

#[test]
fn each_side_of_a_connection_fails_by_itself(rt: HostRuntime) -> Result<(), Fail> {
    let mut conn = memory_conn(rt.alloc(), b"abc")?;
    check_sides(&rt, take_and_put(&mut conn));
    check_bytes(&rt, conn.sink.bytes(), b"xz", "");
    Ok(())
}

/// The first byte that the connection has left, or 0.
fn first_byte<S: Source>(source: &mut S) -> u8 {
    let mut room = [0u8; 1];
    match source.take(&mut room) {
        Taken::Bytes(_) => room[0],
        _ => 0,
    }
}

/// Accepts two connections, and gives them back the other way round, the second one with a byte put on it: what each had
/// left. Zeros where fewer came.
fn serve_two(door: &mut ReliableDoor) -> [u8; 2]
    requires { (door.old.accepted ≡ length door.old.back) × IsSome door.old.listens }
    ensures { IsSome door.new.listens }
{
    let Accepted::Conn(mut first) = door.accept() else {
        return [0, 0];
    };
    let Accepted::Conn(mut second) = door.accept() else {
        door.give_back(first);
        return [0, 0];
    };
    let bytes = [first_byte(&mut first), first_byte(&mut second)];
    let _ = second.put(b"2");
    door.give_back(second);
    door.give_back(first);
    bytes
}

/// A door to which two connections come, with a byte each.
fn door_of_two(alloc: Global) -> Result<ReliableDoor, AllocError>
    ensures { IfOk result (λ door. (door.accepted ≡ 0) × (length door.back ≡ 0) × IsSome door.listens) }
{
    let mut coming = Vec::new(alloc);
    coming.push(reliable_conn(alloc, b"a")?)?;
    coming.push(reliable_conn(alloc, b"b")?)?;
    let mut door = ReliableDoor::new(alloc, coming)?;
    let _listens = door.listen(at_port(80));
    Ok(door)
}

/// Checks that both connections come and go back, and that no more comes.
fn check_two(rt: &impl Abort, door: &mut ReliableDoor) -> Result<(), Fail>
    requires { (door.old.accepted ≡ length door.old.back) × IsSome door.old.listens }
{
    assert_eq!(rt; serve_two(door), [b'a', b'b']);
    assert!(rt; matches!(door.accept(), Accepted::End));
    let [second, _] = door.back() else {
        return Err(Fail::new("not both came back"));
    };
    assert_eq!(rt; second.sink.bytes(), b"2".as_slice());
    Ok(())
}

#[test]
fn connections_come_in_order_and_go_back_as_they_are_given(rt: HostRuntime) -> Result<(), Fail> {
    check_two(&rt, &mut door_of_two(rt.alloc())?)
}

/// Listens and accepts as often as the door fails, and once more, and gives the connection back: what it had left, and how
/// often the door had failed.
fn serve_one(door: &mut MemoryDoor) -> Option<u8>
    requires { door.old.accepted ≡ length door.old.back }
    ensures { IfSome result (λ _. IsSome door.new.listens) }
{
    if door.listen(at_port(80)).is_ok() || door.listen(at_port(81)).is_err() {
        return None;
    }
    if !matches!(door.accept(), Accepted::Failed) {
        return None;
    }
    let Accepted::Conn(mut conn) = door.accept() else {
        return None;
    };
    let byte = first_byte(&mut conn);
    door.give_back(conn);
    Some(byte)
}

/// A door to which one connection comes, and whose first and third calls fail.
fn failing_door(alloc: Global) -> Result<MemoryDoor, AllocError>
    ensures { IfOk result (λ door. (door.accepted ≡ 0) × (length door.back ≡ 0)) }
{
    let mut coming = Vec::new(alloc);
    coming.push(memory_conn(alloc, b"a")?)?;
    MemoryDoor::new(alloc, coming, [0, 2].to_vec(alloc)?)
}

/// Checks that the door gives its connection after it has failed, and that no more comes.
fn check_one(rt: &impl Abort, door: &mut MemoryDoor)
    requires { door.old.accepted ≡ length door.old.back }
{
    let byte = serve_one(door);
    assert_eq!(rt; byte, Some(b'a'));
    if let Some(_) = byte {
        assert!(rt; matches!(door.accept(), Accepted::End));
        assert_eq!(rt; door.back().len(), 1);
    }
}

#[test]
fn a_door_fails_at_the_listed_calls_and_loses_no_connection(rt: HostRuntime) -> Result<(), Fail> {
    check_one(&rt, &mut failing_door(rt.alloc())?);
    Ok(())
}

/// A stream to the door.
pub(crate) fn connect(rt: &HostRuntime, door: &TcpDoor<&HostRuntime>) -> Result<TcpStream, Fail> {
    let Some(listener) = &door.listener else {
        return Err(Fail::new("no listener"));
    };
    let port = listener.local_addr()?.port();
    Ok(TcpStream::connect(rt, (Ipv4Addr::LOCALHOST, port))?)
}

/// Accepts a connection, puts a byte on it and gives it back: what was read of it, and how the put ended.
fn serve_peer(door: &mut TcpDoor<&HostRuntime>) -> Option<(u8, PutEnd)>
    requires { (door.old.returned ≡ door.old.accepted) × IsSome door.old.listens }
{
    let Accepted::Conn(mut conn) = door.accept() else {
        return None;
    };
    let byte = first_byte(&mut conn);
    let end = conn.put(b"b");
    door.give_back(conn);
    Some((byte, end))
}

/// How many bytes a first read of a stream gives, the first of them, and how many a second read gives.
fn read_twice(peer: &mut TcpStream) -> Result<(usize, u8, usize), Fail> {
    let mut room = [0u8; 2];
    let first = peer.read(&mut room)?;
    let byte = room[0];
    let second = peer.read(&mut room)?;
    Ok((first, byte, second))
}

/// Compares what the two ends of a stream say.
fn check_peer(
    rt: &impl Abort,
    door: &mut TcpDoor<&HostRuntime>,
    peer: &mut TcpStream,
) -> Result<(), Fail>
    requires { (door.old.returned ≡ door.old.accepted) × IsSome door.old.listens }
{
    peer.write_all(b"a")?;
    let served = serve_peer(door);
    let read = read_twice(peer)?;
    assert_eq!(rt;
        (served, read, door.faults),
        (Some((b'a', PutEnd::Done)), (1, b'b', 0), 0)
    );
    Ok(())
}

#[test]
fn a_listener_accepts_a_stream_and_ends_it(rt: HostRuntime) -> Result<(), Fail> {
    let mut door = TcpDoor::new(&rt, rt.alloc());
    if door.listen(at_port(0)).is_err() {
        return Err(Fail::new("no port"));
    }
    let mut peer = connect(&rt, &door)?;
    check_peer(&rt, &mut door, &mut peer)
}
