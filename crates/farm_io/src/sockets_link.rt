ghost use Rattle.std.specs.Prelude.{◌≡◌, ◌<◌, None, IfSome, refl};
ghost use Rattle.farm_io.specs.Beside.{side};
ghost use Rattle.farm_io.specs.Doors.{TakesBack};

use crate::link::{Link, LinkErr};
use crate::sockets::TcpConn;
use crate::talk::Talk;
use std::alloc::Global;
use std::net::{Net, TcpListener, TcpStream, ToSocketAddrs};
use std::rt;
use std::sync::Arc;
use std::time::Duration;

/// How long a link waits for one of the addresses to answer, in seconds.
pub const CONNECT_SECONDS: u64 = 10;

/// How long a connection of a link waits for bytes, for the whole of a response, and for room to write, in seconds. Then
/// the call fails.
pub const SILENCE_SECONDS: u64 = 60;

/// Connections of TCP as a link. It tells nothing of its connections.
///
/// Each error raises the count, which stands still at the end of its type.
#[derive(Drop)]
pub struct TcpLink<R> {
    pub net: R,
    alloc: Global,
    /// How many connections came, and how many were given back.
    pub came: u64,
    pub returned: u64,
    /// How often the link has failed.
    pub faults: u64,
}

impl<R> TcpLink<R> {
    /// A link that has made no connection yet.
    pub fn new(net: R, alloc: Global) -> TcpLink<R>
        ensures counts { (result.came ≡ 0) × (result.returned ≡ 0) × (result.faults ≡ 0) }
    {
        TcpLink {
            net,
            alloc,
            came: 0,
            returned: 0,
            faults: 0,
        }
    }
}

/// A stream to the first one of the address's addresses that answers in time.
fn open_stream<R: Net<Listener = TcpListener, Stream = TcpStream>>(
    net: &R,
    address: &str,
    port: u16,
) -> Option<TcpStream> {
    let limit = Duration::from_secs(CONNECT_SECONDS);
    for candidate in (address, port).to_socket_addrs(net).ok()? {
        if let Ok(stream) = TcpStream::connect_timeout(net, &candidate, limit) {
            return Some(stream);
        }
    }
    None
}

/// The stream as a connection, where there is memory for it.
fn connection<R: rt::Clock + Copy>(clock: R, alloc: Global, stream: TcpStream) -> Option<TcpConn<R>>
    ensures fresh { IfSome result (λ c. (c.read_faults ≡ 0) × (c.write_faults ≡ 0)) }
{
    // A request then never waits for word that the one before it has come.
    let _ = stream.set_nodelay(true);
    let talk = Arc::new(alloc, Talk::new(stream)).ok()?;
    Some(TcpConn::new(clock, talk, Duration::from_secs(SILENCE_SECONDS)))
}

impl<R: Net<Listener = TcpListener, Stream = TcpStream> + rt::Clock + Copy> Link for TcpLink<R> {
    type Conn = TcpConn<R>;

    ghost state = { λ l. record { coming = None; back = None; accepted = l.came; returned = l.returned; listens = None } };

    ghost faults = { λ l. l.faults };

    /// Makes a connection to one of the addresses that the system knows of this name, or to this IP address. It fails
    /// where none answers within [`CONNECT_SECONDS`] each, and its own calls fail after [`SILENCE_SECONDS`] of silence.
    fn connect(&mut self, address: &str, port: u16) -> Result<TcpConn<R>, LinkErr> {
        if self.came < u64::MAX
            && let Some(stream) = open_stream(&self.net, address, port)
            && let Some(conn) = connection(self.net, self.alloc, stream)
        {
            self.came += 1;
            return Ok(conn);
        }
        self.faults = self.faults.saturating_add(1);
        Err(LinkErr::Failed)
    }

    /// Takes back a connection that was used, whose stream is closed.
    fn give_back(&mut self, conn: TcpConn<R>) {
        drop(conn);
        self.returned += 1;
    }

    ghost sides = { λ _. (refl, refl) };
}
