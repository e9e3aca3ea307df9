ghost use Rattle.std.specs.Prelude.{◌≡◌, ◌≤◌, None, IfSome, refl};
ghost use Rattle.farm_io.specs.Beside.{side};

use crate::door::{Accepted, Door, DoorErr, Listening};
use crate::peer::Peer;
use crate::sockets::TcpConn;
use crate::talk::Talk;
use std::alloc::Global;
use std::io::ErrorKind;
use std::net::{Net, Shutdown, SocketAddr, TcpListener, TcpStream};
use std::os::fd::OwnedFd;
use std::sync::Arc;
use std::sync::atomic::{AtomicBool, Ordering};
use std::time::Duration;
use std::{io, rt};

/// For how long nobody is let in where the machine has no room for a connection.
const PAUSE_MILLISECONDS: u64 = 20;

/// A connection that was accepted behind `before` others, and may not have ended.
#[derive(Drop)]
struct Open {
    before: u64,
    talk: Arc<Talk, Global>,
}

/// A listener of TCP as a door. It tells nothing of its connections.
///
/// Each error raises the count, which stands still at the end of its type. Errors of a connection that is just coming
/// are no failure of the door: it waits for the next one, and where the machine has no room for it, until there is.
#[derive(Drop)]
pub struct TcpDoor<R> {
    pub net: R,
    alloc: Global,
    pub listener: Option<TcpListener>,
    /// As it was asked to listen, if it listens.
    pub listens: Option<Listening>,
    /// A connection that came and is not accepted yet.
    waiting: Option<TcpStream>,
    open: Vec<Open>,
    /// Whether no connection comes any more.
    ended: Option<Arc<AtomicBool, Global>>,
    /// How many connections were accepted, and how many given back.
    pub accepted: u64,
    pub returned: u64,
    /// How often the door has failed.
    pub faults: u64,
}

/// What ends a door from another thread: no connection comes any more.
#[derive(Drop)]
pub struct DoorEnd {
    ended: Arc<AtomicBool, Global>,
    socket: TcpStream,
}

impl DoorEnd {
    /// Ends the door, and wakes whoever waits for a connection.
    pub fn end(&self) {
        self.ended.store(true, Ordering::SeqCst);
        // Where this fails, the door listens no more.
        let _ = self.socket.shutdown(Shutdown::Both);
    }
}

impl<R> TcpDoor<R> {
    /// A door that does not listen yet.
    pub fn new(net: R, alloc: Global) -> TcpDoor<R>
        ensures counts { (result.accepted ≡ 0) × (result.returned ≡ 0) × (result.faults ≡ 0) }
        ensures silent { result.listens ≡ None }
    {
        TcpDoor {
            net,
            alloc,
            listener: None,
            listens: None,
            waiting: None,
            open: Vec::new(alloc),
            ended: None,
            accepted: 0,
            returned: 0,
            faults: 0,
        }
    }

    /// What ends the door from another thread, if it listens and there is room for it.
    pub fn end_handle(&mut self) -> Option<DoorEnd>
        ensures counts { (self.new.accepted ≡ self.old.accepted) × (self.new.returned ≡ self.old.returned) × (self.new.faults ≡ self.old.faults) }
        ensures listens { self.new.listens ≡ self.old.listens }
    {
        let listener = self.listener.as_ref()?.try_clone().ok()?;
        let ended = Arc::new(self.alloc, AtomicBool::new(false)).ok()?;
        self.ended = Some(Arc::try_clone(&ended).ok()?);
        Some(DoorEnd {
            ended,
            socket: TcpStream::from(OwnedFd::from(listener)),
        })
    }
}

/// Where an error of accepting comes from.
#[derive(Clone, Copy, Debug, PartialEq, Eq)]
enum Cause {
    /// That of the connection that was coming.
    Peer,
    /// That of the machine, which has no room for a connection.
    Machine,
    /// That of the listener.
    Listener,
}

fn cause_of(fault: &io::Error) -> Cause {
    let kind = fault.kind();
    let peer = [
        ErrorKind::ConnectionAborted,
        ErrorKind::ConnectionReset,
        ErrorKind::ConnectionRefused,
        ErrorKind::Interrupted,
        ErrorKind::PermissionDenied,
        ErrorKind::HostUnreachable,
        ErrorKind::NetworkUnreachable,
        ErrorKind::NetworkDown,
        ErrorKind::TimedOut,
    ];
    if peer.contains(&kind) {
        return Cause::Peer;
    }
    if kind == ErrorKind::InvalidInput || kind == ErrorKind::Unsupported {
        return Cause::Listener;
    }
    Cause::Machine
}

fn is_set(flag: &Option<Arc<AtomicBool, Global>>) -> bool {
    match flag {
        Some(flag) => flag.load(Ordering::SeqCst),
        None => false,
    }
}

/// What came of waiting for a stream.
#[derive(Drop)]
enum Came {
    Stream(TcpStream),
    End,
    Broken,
}

/// The next stream of the listener.
fn next_stream<R: rt::Clock>(
    clock: &R,
    listener: &TcpListener,
    ended: &Option<Arc<AtomicBool, Global>>,
    faults: &mut u64,
) -> Came
    ensures later { faults.old ≤ faults.new }
{
    for _ in 0..u64::MAX {
        let fault = match listener.accept() {
            Ok((stream, _)) => return Came::Stream(stream),
            Err(fault) => fault,
        };
        if is_set(ended) {
            return Came::End;
        }
        *faults = faults.saturating_add(1);
        match cause_of(&fault) {
            Cause::Peer => {}
            Cause::Machine => clock.sleep(Duration::from_millis(PAUSE_MILLISECONDS)),
            Cause::Listener => return Came::Broken,
        }
    }
    Came::Broken
}

impl<R: Net<Listener = TcpListener, Stream = TcpStream> + rt::Clock + Copy> TcpDoor<R> {
    /// The stream that waits, or the next one.
    fn take_stream(&mut self) -> Came
        ensures counts { (self.new.accepted ≡ self.old.accepted) × (self.new.returned ≡ self.old.returned) }
        ensures listens { self.new.listens ≡ self.old.listens }
        ensures later { self.old.faults ≤ self.new.faults }
    {
        if let Some(stream) = self.waiting.take() {
            return Came::Stream(stream);
        }
        match &self.listener {
            Some(listener) => next_stream(&self.net, listener, &self.ended, &mut self.faults),
            None => Came::Broken,
        }
    }

    /// Closes the streams of connections that have ended.
    fn forget_ended(&mut self)
        ensures counts { (self.new.accepted ≡ self.old.accepted) × (self.new.returned ≡ self.old.returned) × (self.new.faults ≡ self.old.faults) }
        ensures listens { self.new.listens ≡ self.old.listens }
    {
        self.open.retain(|open| !open.talk.has_ended());
    }

    /// The stream as a connection, which can be asked to close where there is memory for that.
    fn connect(&mut self, stream: TcpStream) -> Option<TcpConn<R>>
        ensures counts { (self.new.accepted ≡ self.old.accepted) × (self.new.returned ≡ self.old.returned) × (self.new.faults ≡ self.old.faults) }
        ensures listens { self.new.listens ≡ self.old.listens }
        ensures fresh { IfSome result (λ c. (c.read_faults ≡ 0) × (c.write_faults ≡ 0)) }
    {
        // A response then never waits for word that the one before it has come.
        let _ = stream.set_nodelay(true);
        let patience = Duration::from_secs(u64::from(self.listens?.patience.max(1)));
        let talk = Arc::new(self.alloc, Talk::new(stream)).ok()?;
        self.forget_ended();
        if let Ok(theirs) = Arc::try_clone(&talk) {
            let before = self.accepted;
            let _ = self.open.push(Open {
                before,
                talk: theirs,
            });
        }
        Some(TcpConn::new(self.net, talk, patience))
    }
}

impl<R: Net<Listener = TcpListener, Stream = TcpStream> + rt::Clock + Copy + Send> Door
    for TcpDoor<R> {
    type Conn = TcpConn<R>;

    ghost state = { λ d. record { coming = None; back = None; accepted = d.accepted; returned = d.returned; listens = d.listens } };

    ghost faults = { λ d. d.faults };

    fn listen(&mut self, at: Listening) -> Result<(), DoorErr> {
        match TcpListener::bind(&self.net, SocketAddr::new(at.address, at.port)) {
            Ok(listener) => {
                self.listener = Some(listener);
                self.listens = Some(at);
                Ok(())
            }
            Err(_) => {
                self.faults = self.faults.saturating_add(1);
                Err(DoorErr::Failed)
            }
        }
    }

    fn await_next(&mut self) {
        if let Came::Stream(stream) = self.take_stream() {
            self.waiting = Some(stream);
        }
    }

    fn accept(&mut self) -> Accepted<TcpConn<R>> {
        if self.accepted < u64::MAX {
            match self.take_stream() {
                Came::Stream(stream) => {
                    if let Some(conn) = self.connect(stream) {
                        self.accepted += 1;
                        return Accepted::Conn(conn);
                    }
                }
                Came::End => return Accepted::End,
                Came::Broken => {}
            }
        }
        self.faults = self.faults.saturating_add(1);
        Accepted::Failed
    }

    fn ask_to_close(&mut self, before: u64) {
        for open in self.open.iter() {
            if open.before == before {
                open.talk.ask();
            }
        }
    }

    /// Takes back a connection that was served, and ends it in both directions where it has not ended.
    fn give_back(&mut self, conn: TcpConn<R>) {
        let mut conn = conn;
        conn.finish(false);
        drop(conn);
        self.forget_ended();
        self.returned += 1;
    }

    ghost sides = { λ _. (refl, refl) };
}
