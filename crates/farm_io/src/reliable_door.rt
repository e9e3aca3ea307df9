ghost use Rattle.std.specs.Prelude.{◌≡◌, ◌+◌, ◌<◌, ◌≤◌, [], None, Some, length, All, IfOk, IsOk, refl};
ghost use Rattle.farm_io.specs.Beside.{side};
ghost use Rattle.farm_io.specs.Doors.{Accepts, TakesBack, IfConn, IsFailed, HasCauseAccepted, HasCauseListening, DoesListen, listening_at};
ghost use Rattle.farm_io.specs.MemoryDoors.{reliable_state, IsReliableNew};

use crate::connections::ReliableConn;
use crate::door::{Accepted, Door, DoorErr, Listening};
use crate::memory_door::next_of;
use std::alloc::{AllocError, Global};
use std::collections::VecDeque;
use std::marker::Model;

/// A door in memory that never fails.
#[derive(Drop)]
pub struct ReliableDoor {
    coming: VecDeque<ReliableConn>,
    back: Vec<ReliableConn>,
    accepted: u64,
    listens: Option<Listening>,
}

impl Model for ReliableDoor {
    ghost use Rattle.farm_io.specs.MemoryDoors.{ReliableDoorValue};

    ghost Value = { ReliableDoorValue };

    ghost use Rattle.std.specs.Prelude.{◌+◌, ◌≤◌, All, vec_capacity};
    ghost use Rattle.std.specs.VecDeque.{deque_len};
    ghost use Rattle.farm_io.specs.MemoryDoors.{IsReliableNew};

    ghost view = { λ d. record { coming = d.coming.items; back = d.back.items; accepted = d.accepted; listens = d.listens } };

    ghost invariant = { λ d. (d.accepted + deque_len d.coming ≤ vec_capacity d.back) × All IsReliableNew d.coming.items };
}

impl ReliableDoor {
    /// A door to which these connections come.
    pub fn new(alloc: Global, coming: Vec<ReliableConn>) -> Result<ReliableDoor, AllocError>
        requires { All IsReliableNew coming.items }
        ensures { IfOk result (λ d. d ≡ record { coming = coming.items; back = []; accepted = 0; listens = None }) }
    {
        let back = Vec::with_capacity(alloc, coming.len())?;
        Ok(ReliableDoor {
            coming: VecDeque::from_vec(coming),
            back,
            accepted: 0,
            listens: None,
        })
    }

    /// The connections that were given back, in that order.
    pub fn back(&self) -> &[ReliableConn]
        ensures { result.now ≡ self.now.back }
    {
        self.back.as_slice()
    }
}

impl Door for ReliableDoor {
    type Conn = ReliableConn;

    ghost state = { reliable_state };

    ghost faults = { λ _. 0 };

    fn listen(&mut self, at: Listening) -> Result<(), DoorErr>
        ensures ok { IsOk result }
        ensures listens { reliable_state self.new ≡ listening_at (reliable_state self.old) at }
        ensures told { self.new.listens ≡ Some at }
    {
        self.listens = Some(at);
        Ok(())
    }

    fn await_next(&mut self)
        ensures kept { self.new ≡ self.old }
    {}

    fn accept(&mut self) -> Accepted<ReliableConn>
        requires { DoesListen (reliable_state self.old) }
        ensures accepts { Accepts (reliable_state self.old) (reliable_state self.new) result }
        ensures fresh { IfConn result IsReliableNew }
        ensures not_failed { ¬ IsFailed result }
    {
        let most = self.back.capacity();
        next_of(&mut self.coming, &mut self.accepted, most)
    }

    fn ask_to_close(&mut self, _before: u64)
        ensures kept { self.new ≡ self.old }
    {}

    fn give_back(&mut self, conn: ReliableConn)
        requires { length self.old.back < self.old.accepted }
        ensures { TakesBack (reliable_state self.old) (reliable_state self.new) conn }
    {
        self.back.push_reserved(conn);
    }

    ghost sides = { λ _. (refl, refl) };
}
