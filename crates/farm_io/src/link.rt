ghost use Rattle.std.specs.Prelude.{◌≡◌, ◌<◌, ◌≤◌, ℕ, IfOk};
ghost use Rattle.farm_io.specs.Beside.{side};
ghost use Rattle.farm_io.specs.Doors.{DoorState, TakesBack, IsFresh};
ghost use Rattle.farm_io.specs.Links.{Connects, HasCauseConnected};

use crate::streams::{Sink, Source};

/// Why no connection came.
#[derive(Clone, Copy, Debug, PartialEq, Eq)]
pub enum LinkErr {
    /// The link failed.
    Failed,
}

/// Where connections to others are made, and where they go when they were used.
pub trait Link {
    type Conn: Source + Sink;

    /// The connections to come and those that were given back, where the link tells them, and how many were.
    ghost state: { Self → DoorState Self.Conn };
    /// How often the link has failed.
    ghost faults: { Self → ℕ };

    /// Makes a connection to this port of an address, which is an IP address or a name. It comes with nothing put on it,
    /// and neither of its sides has failed.
    fn connect(&mut self, address: &str, port: u16) -> Result<Self::Conn, LinkErr>
        ensures connects { Connects (state self.old) (state self.new) result }
        ensures fresh { IfOk result (λ c. IsFresh (Self.Conn.held c) (Self.Conn.Source.faults c) (Self.Conn.Sink.faults c)) }
        ensures cause { HasCauseConnected (faults self.old) (faults self.new) result };

    /// Takes back a connection that was used.
    fn give_back(&mut self, conn: Self::Conn)
        requires { (state self.old).returned < (state self.old).accepted }
        ensures back { TakesBack (state self.old) (state self.new) conn }
        ensures later { faults self.old ≤ faults self.new };

    /// Each side of a connection tells of the other one.
    ghost sides: { (c : Self.Conn) → (Self.Conn.Source.beside c ≡ side (Self.Conn.held c) (Self.Conn.Sink.faults c))
        × (Self.Conn.Sink.beside c ≡ side (Self.Conn.left c) (Self.Conn.Source.faults c)) };
}
