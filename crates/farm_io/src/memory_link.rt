ghost use Rattle.std.specs.Prelude.{◌≡◌, ◌+◌, ◌<◌, ◌≤◌, ◌↔◌, ◌⊎◌, [], None, length, All, Contains, IfOk, IsErr, refl};
ghost use Rattle.std.specs.VecDeque.{deque_len};
ghost use Rattle.farm_io.specs.Beside.{side};
ghost use Rattle.farm_io.specs.MemoryValue.{raised};
ghost use Rattle.farm_io.specs.Doors.{TakesBack};
ghost use Rattle.farm_io.specs.Links.{Connects, HasCauseConnected};
ghost use Rattle.farm_io.specs.MemoryDoors.{door_state, IsNew};

use crate::connections::MemoryConn;
use crate::door::Accepted;
use crate::link::{Link, LinkErr};
use crate::memory_door::{is_to_fail, next_of};
use std::alloc::{AllocError, Global};
use std::collections::VecDeque;
use std::marker::Model;

/// A link in memory, where the calls of `connect` with the listed numbers fail. They are numbered from 0. A call also
/// fails where no connection is left to come.
#[derive(Drop)]
pub struct MemoryLink {
    coming: VecDeque<MemoryConn>,
    back: Vec<MemoryConn>,
    came: u64,
    failing: Vec<u64>,
    calls: u64,
    faults: u64,
}

impl Model for MemoryLink {
    ghost use Rattle.farm_io.specs.MemoryDoors.{DoorValue};

    ghost Value = { DoorValue };

    ghost use Rattle.std.specs.Prelude.{◌+◌, ◌≤◌, None, All, vec_capacity};
    ghost use Rattle.std.specs.VecDeque.{deque_len};
    ghost use Rattle.farm_io.specs.MemoryDoors.{IsNew};

    ghost view = { λ l. record { coming = l.coming.items; back = l.back.items; accepted = l.came; listens = None; failing = l.failing.items; calls = l.calls; faults = l.faults } };

    ghost invariant = { λ l. (l.came + deque_len l.coming ≤ vec_capacity l.back) × All IsNew l.coming.items };
}

impl MemoryLink {
    /// A link that makes these connections, of whose calls those with the numbers in `failing` fail.
    pub fn new(
        alloc: Global,
        coming: Vec<MemoryConn>,
        failing: Vec<u64>,
    ) -> Result<MemoryLink, AllocError>
        requires { All IsNew coming.items }
        ensures { IfOk result (λ l. l ≡ record { coming = coming.items; back = []; accepted = 0; listens = None; failing = failing.items; calls = 0; faults = 0 }) }
    {
        let back = Vec::with_capacity(alloc, coming.len())?;
        Ok(MemoryLink {
            coming: VecDeque::from_vec(coming),
            back,
            came: 0,
            failing,
            calls: 0,
            faults: 0,
        })
    }

    /// The connections that were given back, in that order.
    pub fn back(&self) -> &[MemoryConn]
        ensures { result.now ≡ self.now.back }
    {
        self.back.as_slice()
    }
}

impl Link for MemoryLink {
    type Conn = MemoryConn;

    ghost state = { door_state };

    ghost faults = { λ l. l.faults };

    fn connect(&mut self, _address: &str, _port: u16) -> Result<MemoryConn, LinkErr>
        ensures connects { Connects (door_state self.old) (door_state self.new) result }
        ensures fresh { IfOk result IsNew }
        ensures cause { HasCauseConnected self.old.faults self.new.faults result }
        ensures listed { IsErr result ↔ (Contains self.old.failing self.old.calls ⊎ (self.old.coming ≡ [])) }
        ensures calls { self.new.calls ≡ raised self.old.calls }
        ensures failing { self.new.failing ≡ self.old.failing }
    {
        if is_to_fail(&mut self.calls, &mut self.faults, &self.failing) {
            return Err(LinkErr::Failed);
        }
        let most = self.back.capacity();
        match next_of(&mut self.coming, &mut self.came, most) {
            Accepted::Conn(conn) => Ok(conn),
            Accepted::End | Accepted::Failed => {
                self.faults = self.faults.saturating_add(1);
                Err(LinkErr::Failed)
            }
        }
    }

    fn give_back(&mut self, conn: MemoryConn)
        requires { length self.old.back < self.old.accepted }
        ensures back { TakesBack (door_state self.old) (door_state self.new) conn }
        ensures same { (self.new.failing ≡ self.old.failing) × (self.new.calls ≡ self.old.calls) × (self.new.faults ≡ self.old.faults) }
    {
        self.back.push_reserved(conn);
    }

    ghost sides = { λ _. (refl, refl) };
}
