ghost use Rattle.std.specs.Prelude.{length};
ghost use Rattle.std.specs.Io.{ReadsAtMost};

use std::io::{ErrorKind, Read};
use std::net::{Shutdown, TcpStream};
use std::sync::atomic::{AtomicBool, Ordering};
use std::time::{Duration, Instant};
use std::{io, rt};

/// For how long what a peer says behind the last response is still taken.
const LINGERING_MILLISECONDS: u64 = 250;

/// How many bytes of it are taken at once, and how often.
const LINGERING_BYTES: usize = 4096;

const LINGERING_READS: u32 = 1024;

/// How often a call that a signal has interrupted is made again.
const TRIES: u32 = 1024;

/// A stream of TCP, and what its connection and its door tell each other.
#[derive(Drop)]
pub(crate) struct Talk {
    stream: TcpStream,
    /// Whether the connection is asked to close.
    asked: AtomicBool,
    /// Whether it waits for the first byte of a request, and may be ended.
    rests: AtomicBool,
    /// Whether it has ended.
    ended: AtomicBool,
}

impl Talk {
    /// A stream that nobody has asked to close, and that has not ended.
    pub fn new(stream: TcpStream) -> Talk {
        Talk {
            stream,
            asked: AtomicBool::new(false),
            rests: AtomicBool::new(false),
            ended: AtomicBool::new(false),
        }
    }

    /// The stream, which its connection writes to.
    pub fn stream(&self) -> &TcpStream {
        &self.stream
    }

    /// Whether the door has asked the connection to close.
    pub fn is_asked(&self) -> bool {
        self.asked.load(Ordering::SeqCst)
    }

    /// Whether the stream has ended, so that the door need not ask it any more.
    pub fn has_ended(&self) -> bool {
        self.ended.load(Ordering::SeqCst)
    }

    /// Asks the connection to close: where it rests, whoever reads from it sees its end.
    pub fn ask(&self) {
        self.asked.store(true, Ordering::SeqCst);
        if self.rests.load(Ordering::SeqCst) {
            self.stop_reading();
        }
    }

    /// Says that the connection waits for the first byte of a request.
    pub fn rest(&self) {
        self.rests.store(true, Ordering::SeqCst);
        if self.is_asked() {
            self.stop_reading();
        }
    }

    /// Says that a request has begun.
    pub fn wake(&self) {
        self.rests.store(false, Ordering::SeqCst);
    }

    /// What has come can still be read, and behind it an end.
    fn stop_reading(&self) {
        // Where this fails, the peer has gone already.
        let _ = self.stream.shutdown(Shutdown::Read);
    }

    /// Reads bytes, and waits for so long until there are any.
    pub fn read_within(&self, wait: Duration, room: &mut [u8]) -> io::Result<usize>
        ensures { ReadsAtMost result room.new }
    {
        self.stream.set_read_timeout(Some(wait))?;
        for _ in 0..TRIES {
            match (&self.stream).read(room) {
                Err(fault) if fault.kind() == ErrorKind::Interrupted => {}
                read => return read,
            }
        }
        Err(io::Error::from(ErrorKind::TimedOut))
    }

    /// Ends the stream in both directions, once what the peer has still said was taken where it lingers.
    pub fn end<R: rt::Clock>(&self, clock: &R, lingers: bool) {
        if lingers {
            // Where this fails, the peer has gone already.
            let _ = self.stream.shutdown(Shutdown::Write);
            self.drain(clock);
        }
        let _ = self.stream.shutdown(Shutdown::Both);
        self.ended.store(true, Ordering::SeqCst);
    }

    /// Takes what the peer has still said, for a moment.
    fn drain<R: rt::Clock>(&self, clock: &R) {
        let Ok(begun) = Instant::now(clock) else {
            return;
        };
        let lingering = Duration::from_millis(LINGERING_MILLISECONDS);
        let mut room = [0u8; LINGERING_BYTES];
        for _ in 0..LINGERING_READS {
            let Some(left) = time_left(clock, begun, lingering) else {
                return;
            };
            match self.read_within(left, &mut room) {
                Ok(count) if count > 0 => {}
                _ => return,
            }
        }
    }
}

/// What is left of so long a time since then, if any is.
pub(crate) fn time_left<R: rt::Clock>(
    clock: &R,
    since: Instant,
    time: Duration,
) -> Option<Duration> {
    let left = time.saturating_sub(since.elapsed(clock).ok()?);
    if left < Duration::from_millis(1) {
        return None;
    }
    Some(left)
}
