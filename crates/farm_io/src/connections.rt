ghost use Rattle.std.specs.Prelude.{◌≡◌, false};
ghost use Rattle.farm_io.specs.Beside.{side};

use crate::memory::{MemorySink, MemorySource, ReliableSink, ReliableSource};
use crate::peer::Peer;
use crate::streams::{PutEnd, Sink, Source, Taken};

/// A source and a sink as the two sides of a connection.
#[derive(Drop)]
pub struct Connection<S, K> {
    pub source: S,
    pub sink: K,
}

/// A connection in memory, both of whose sides fail at listed calls.
pub type MemoryConn = Connection<MemorySource, MemorySink>;

/// A connection in memory that never fails while its room lasts.
pub type ReliableConn = Connection<ReliableSource, ReliableSink>;

impl<S, K> Connection<S, K> {
    /// A connection of these two sides.
    pub fn new(source: S, sink: K) -> Connection<S, K>
        ensures source { result.source ≡ source }
        ensures sink { result.sink ≡ sink }
    {
        Connection { source, sink }
    }
}

impl<S: Source, K: Sink> Source for Connection<S, K> {
    ghost left = { λ c. S.left c.source };

    ghost faults = { λ c. S.faults c.source };

    ghost beside = { λ c. side (K.held c.sink) (K.faults c.sink) };

    fn take(&mut self, room: &mut [u8]) -> Taken {
        self.source.take(room)
    }
}

impl<S: Source, K: Sink> Sink for Connection<S, K> {
    ghost held = { λ c. K.held c.sink };

    ghost faults = { λ c. K.faults c.sink };

    ghost beside = { λ c. side (S.left c.source) (S.faults c.source) };

    fn put(&mut self, piece: &[u8]) -> PutEnd {
        self.sink.put(piece)
    }
}

impl<S: Source, K: Sink> Peer for Connection<S, K> {
    ghost asks = { false };

    /// Nobody asks it.
    fn is_asked_to_close(&self) -> bool {
        false
    }

    /// There is nobody at its other end.
    fn finish(&mut self, _lingers: bool) {}
}
