ghost use Rattle.std.specs.Prelude.{◌≡◌, ◌<◌, ◌≤◌, ℕ};
ghost use Rattle.farm_io.specs.Beside.{side};
ghost use Rattle.farm_io.specs.Doors.{DoorState, DoesListen, Listens, Accepts, TakesBack, IfConn, IsFresh, HasCauseAccepted, HasCauseListening};

use crate::peer::Peer;
use crate::streams::{Sink, Source};
use std::net::IpAddr;

/// Where a door listens, and how it treats those who come.
#[derive(Clone, Copy, PartialEq, Eq)]
pub struct Listening {
    /// An address of this machine.
    pub address: IpAddr,
    /// The port, or 0 for any that is free.
    pub port: u16,
    /// For how many seconds it waits for a connection that says nothing, says no whole request, or takes no response.
    pub patience: u16,
    /// Whether no connection comes any more once the standard input has ended.
    pub until_input_ends: bool,
}

/// Why a door does not listen.
#[derive(Clone, Copy, Debug, PartialEq, Eq)]
pub enum DoorErr {
    /// The door failed.
    Failed,
}

/// What [`Door::accept`] did.
#[derive(Drop)]
pub enum Accepted<N> {
    /// A connection came.
    Conn(N),
    /// No connection is left to come.
    End,
    /// The door failed, and no connection was lost.
    Failed,
}

/// Where connections come from, and where they go when they were served.
pub trait Door {
    type Conn: Source + Sink + Peer + Send;

    /// The connections to come and those that were given back, where the door tells them, how many were, and where it
    /// listens.
    ghost state: { Self → DoorState Self.Conn };
    /// How often the door has failed.
    ghost faults: { Self → ℕ };

    /// Listens for connections, in place of where it listened before.
    fn listen(&mut self, at: Listening) -> Result<(), DoorErr>
        ensures listens { Listens (state self.old) (state self.new) at result }
        ensures cause { HasCauseListening (faults self.old) (faults self.new) result };

    /// Waits until a connection can be accepted, or none is left to come. A door may return sooner.
    fn await_next(&mut self)
        ensures kept { state self.new ≡ state self.old }
        ensures later { faults self.old ≤ faults self.new };

    /// Waits for the next connection. It comes with nothing put on it, and neither of its sides has failed.
    fn accept(&mut self) -> Accepted<Self::Conn>
        requires { DoesListen (state self.old) }
        ensures accepts { Accepts (state self.old) (state self.new) result }
        ensures fresh { IfConn result (λ c. IsFresh (Self.Conn.held c) (Self.Conn.Source.faults c) (Self.Conn.Sink.faults c)) }
        ensures cause { HasCauseAccepted (faults self.old) (faults self.new) result };

    /// Asks the connection that was accepted behind `before` others to close with its next response, and at once where
    /// it says nothing. That is no more than a wish.
    fn ask_to_close(&mut self, before: u64)
        ensures kept { state self.new ≡ state self.old }
        ensures later { faults self.old ≤ faults self.new };

    /// Takes back a connection that was served.
    fn give_back(&mut self, conn: Self::Conn)
        requires { (state self.old).returned < (state self.old).accepted }
        ensures back { TakesBack (state self.old) (state self.new) conn }
        ensures later { faults self.old ≤ faults self.new };

    /// Each side of a connection tells of the other one.
    ghost sides: { (c : Self.Conn) → (Self.Conn.Source.beside c ≡ side (Self.Conn.held c) (Self.Conn.Sink.faults c))
        × (Self.Conn.Sink.beside c ≡ side (Self.Conn.left c) (Self.Conn.Source.faults c)) };
}
