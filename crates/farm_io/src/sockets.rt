ghost use Rattle.std.specs.Prelude.{◌≡◌, ◌≤◌, None, true, IfSome, length};
ghost use Rattle.farm_io.specs.Beside.{side};

use crate::adapters::write_whole;
use crate::peer::Peer;
use crate::streams::{PutEnd, Sink, Source, Taken};
use crate::talk::{Talk, time_left};
use std::alloc::Global;
use std::io::{ErrorKind, Write};
use std::net::TcpStream;
use std::sync::Arc;
use std::time::{Duration, Instant};
use std::{io, rt};

/// For how long a connection that has said nothing yet is not ended for others.
const GRACE_SECONDS: u64 = 1;

/// A stream of TCP as a connection. It tells nothing of its bytes.
///
/// Each error raises the count of the side where it came, which stands still at the end of its type. It is an error of
/// reading where nothing comes for as long as its patience lasts, and where a request lasts longer than that; and one of
/// writing where a piece is not taken for so long.
#[derive(Drop)]
pub struct TcpConn<R> {
    clock: R,
    /// The stream, until the connection has ended.
    talk: Option<Arc<Talk, Global>>,
    patience: Duration,
    /// Whether it has not been read from yet.
    is_new: bool,
    /// When the request that is being read began.
    begun: Option<Instant>,
    /// How often reading has failed.
    pub read_faults: u64,
    /// How often writing has failed.
    pub write_faults: u64,
}

impl<R: rt::Clock> TcpConn<R> {
    /// A connection over the stream, whose counts are 0.
    pub(crate) fn new(clock: R, talk: Arc<Talk, Global>, patience: Duration) -> TcpConn<R>
        ensures reads { result.read_faults ≡ 0 }
        ensures writes { result.write_faults ≡ 0 }
    {
        TcpConn {
            clock,
            talk: Some(talk),
            patience,
            is_new: true,
            begun: None,
            read_faults: 0,
            write_faults: 0,
        }
    }

    /// Reads bytes while patience lasts. `None` where that failed.
    fn receive(&mut self, room: &mut [u8]) -> Option<usize>
        ensures within { IfSome result (λ count. count ≤ length room.new) }
        ensures reads { self.new.read_faults ≡ self.old.read_faults }
        ensures writes { self.new.write_faults ≡ self.old.write_faults }
    {
        let talk = self.talk.as_ref()?;
        if self.is_new {
            self.is_new = false;
            if let Some(count) = first_read(talk, self.patience, room)? {
                self.begun = begin(&self.clock, talk, count);
                return Some(count);
            }
            talk.rest();
        }
        let wait = match self.begun {
            None => self.patience,
            Some(begun) => time_left(&self.clock, begun, self.patience)?,
        };
        let count = talk.read_within(wait, room).ok()?;
        if self.begun.is_none() {
            self.begun = begin(&self.clock, talk, count);
        }
        Some(count)
    }
}

/// The first read of a connection: `Some(None)` where nothing came for a moment.
fn first_read(talk: &Talk, patience: Duration, room: &mut [u8]) -> Option<Option<usize>>
    ensures { IfSome result (λ read. IfSome read (λ count. count ≤ length room.new)) }
{
    match talk.read_within(patience.min(Duration::from_secs(GRACE_SECONDS)), room) {
        Ok(count) => Some(Some(count)),
        Err(fault) if fault.kind() == ErrorKind::WouldBlock => Some(None),
        Err(_) => None,
    }
}

/// When a request began whose first bytes were just read, if any were.
fn begin<R: rt::Clock>(clock: &R, talk: &Talk, count: usize) -> Option<Instant> {
    if count == 0 {
        return None;
    }
    talk.wake();
    Instant::now(clock).ok()
}

/// A stream that takes bytes while patience lasts.
#[derive(Drop)]
struct Sending<'a, R> {
    clock: &'a R,
    stream: &'a TcpStream,
    begun: Instant,
    patience: Duration,
}

impl<R: rt::Clock> Write for Sending<'_, R> {
    fn write(&mut self, bytes: &[u8]) -> io::Result<usize> {
        let Some(left) = time_left(self.clock, self.begun, self.patience) else {
            return Err(io::Error::from(ErrorKind::TimedOut));
        };
        self.stream.set_write_timeout(Some(left))?;
        let mut stream = self.stream;
        stream.write(bytes)
    }

    fn flush(&mut self) -> io::Result<()> {
        Ok(())
    }
}

/// Puts the whole piece while patience lasts, or a prefix of it.
fn send<R: rt::Clock>(clock: &R, talk: &Talk, patience: Duration, piece: &[u8]) -> PutEnd {
    let Ok(begun) = Instant::now(clock) else {
        return PutEnd::Failed;
    };
    let mut sending = Sending {
        clock,
        stream: talk.stream(),
        begun,
        patience,
    };
    let end = write_whole(&mut sending, piece);
    talk.rest();
    end
}

impl<R: rt::Clock> Source for TcpConn<R> {
    ghost left = { λ _. None };

    ghost faults = { λ c. c.read_faults };

    ghost beside = { λ c. side None c.write_faults };

    fn take(&mut self, room: &mut [u8]) -> Taken {
        match self.receive(room) {
            Some(0) => Taken::End,
            Some(count) => Taken::Bytes(count),
            None => {
                self.read_faults = self.read_faults.saturating_add(1);
                Taken::Failed
            }
        }
    }
}

impl<R: rt::Clock> Sink for TcpConn<R> {
    ghost held = { λ _. None };

    ghost faults = { λ c. c.write_faults };

    ghost beside = { λ c. side None c.read_faults };

    fn put(&mut self, piece: &[u8]) -> PutEnd {
        self.begun = None;
        let end = match &self.talk {
            Some(talk) => send(&self.clock, talk, self.patience, piece),
            None => PutEnd::Failed,
        };
        if end == PutEnd::Failed {
            self.write_faults = self.write_faults.saturating_add(1);
        }
        end
    }
}

impl<R: rt::Clock> Peer for TcpConn<R> {
    ghost asks = { true };

    fn is_asked_to_close(&self) -> bool {
        match &self.talk {
            Some(talk) => talk.is_asked(),
            None => false,
        }
    }

    fn finish(&mut self, lingers: bool) {
        if let Some(talk) = self.talk.take() {
            talk.end(&self.clock, lingers);
        }
    }
}
