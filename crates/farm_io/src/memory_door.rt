ghost use Rattle.std.specs.Prelude.{◌≡◌, ◌+◌, ◌<◌, ◌≤◌, ◌↔◌, [], None, Some, length, true, false, All, Contains, IfOk, IsTrue, IsErr, IsOk, refl};
ghost use Rattle.std.specs.VecDeque.{deque_len};
ghost use Rattle.farm_io.specs.Beside.{side};
ghost use Rattle.farm_io.specs.Streams.{Rose};
ghost use Rattle.farm_io.specs.MemoryValue.{raised};
ghost use Rattle.farm_io.specs.Doors.{Accepts, TakesBack, IfConn, IsFailed, HasCauseAccepted, HasCauseListening, DoesListen, Listens};
ghost use Rattle.farm_io.specs.MemoryDoors.{door_state, IsNew, TakesFirst};

use crate::connections::MemoryConn;
use crate::door::{Accepted, Door, DoorErr, Listening};
use std::alloc::{AllocError, Global};
use std::collections::VecDeque;
use std::marker::Model;

/// A door in memory, where the calls of `listen` and `accept` with the listed numbers fail. They are numbered
/// together, from 0.
#[derive(Drop)]
pub struct MemoryDoor {
    coming: VecDeque<MemoryConn>,
    back: Vec<MemoryConn>,
    accepted: u64,
    listens: Option<Listening>,
    failing: Vec<u64>,
    calls: u64,
    faults: u64,
}

impl Model for MemoryDoor {
    ghost use Rattle.farm_io.specs.MemoryDoors.{DoorValue};

    ghost Value = { DoorValue };

    ghost use Rattle.std.specs.Prelude.{◌+◌, ◌≤◌, All, vec_capacity};
    ghost use Rattle.std.specs.VecDeque.{deque_len};
    ghost use Rattle.farm_io.specs.MemoryDoors.{IsNew};

    ghost view = { λ d. record { coming = d.coming.items; back = d.back.items; accepted = d.accepted; listens = d.listens; failing = d.failing.items; calls = d.calls; faults = d.faults } };

    ghost invariant = { λ d. (d.accepted + deque_len d.coming ≤ vec_capacity d.back) × All IsNew d.coming.items };
}

impl MemoryDoor {
    /// A door to which these connections come, of whose calls those with the numbers in `failing` fail.
    pub fn new(
        alloc: Global,
        coming: Vec<MemoryConn>,
        failing: Vec<u64>,
    ) -> Result<MemoryDoor, AllocError>
        requires { All IsNew coming.items }
        ensures { IfOk result (λ d. d ≡ record { coming = coming.items; back = []; accepted = 0; listens = None; failing = failing.items; calls = 0; faults = 0 }) }
    {
        let back = Vec::with_capacity(alloc, coming.len())?;
        Ok(MemoryDoor {
            coming: VecDeque::from_vec(coming),
            back,
            accepted: 0,
            listens: None,
            failing,
            calls: 0,
            faults: 0,
        })
    }

    /// The connections that were given back, in that order.
    pub fn back(&self) -> &[MemoryConn]
        ensures { result.now ≡ self.now.back }
    {
        self.back.as_slice()
    }
}

/// Counts a call, and says whether it is to fail.
pub fn is_to_fail(calls: &mut u64, faults: &mut u64, failing: &[u64]) -> bool
    ensures listed { IsTrue result ↔ Contains failing.now calls.old }
    ensures calls { calls.new ≡ raised calls.old }
    ensures later { faults.old ≤ faults.new }
    ensures failed { IsTrue result → Rose faults.old faults.new }
{
    let call = *calls;
    *calls = call.saturating_add(1);
    if failing.contains(&call) {
        *faults = faults.saturating_add(1);
        return true;
    }
    false
}

/// Lets in the first connection to come.
pub fn next_of<N>(coming: &mut VecDeque<N>, accepted: &mut u64, most: usize) -> Accepted<N>
    requires { accepted.old + deque_len coming.old ≤ most }
    ensures next { TakesFirst coming.old.items coming.new.items accepted.old accepted.new result }
    ensures all { accepted.new + deque_len coming.new ≡ accepted.old + deque_len coming.old }
{
    match coming.pop_front() {
        Some(conn) => {
            *accepted += 1;
            Accepted::Conn(conn)
        }
        None => Accepted::End,
    }
}

impl Door for MemoryDoor {
    type Conn = MemoryConn;

    ghost state = { door_state };

    ghost faults = { λ d. d.faults };

    fn listen(&mut self, at: Listening) -> Result<(), DoorErr>
        ensures listens { Listens (door_state self.old) (door_state self.new) at result }
        ensures told { IfOk result (λ _. self.new.listens ≡ Some at) }
        ensures cause { HasCauseListening self.old.faults self.new.faults result }
        ensures listed { IsErr result ↔ Contains self.old.failing self.old.calls }
        ensures calls { self.new.calls ≡ raised self.old.calls }
        ensures failing { self.new.failing ≡ self.old.failing }
    {
        if is_to_fail(&mut self.calls, &mut self.faults, &self.failing) {
            return Err(DoorErr::Failed);
        }
        self.listens = Some(at);
        Ok(())
    }

    fn await_next(&mut self)
        ensures kept { self.new ≡ self.old }
    {}

    fn accept(&mut self) -> Accepted<MemoryConn>
        requires { DoesListen (door_state self.old) }
        ensures accepts { Accepts (door_state self.old) (door_state self.new) result }
        ensures fresh { IfConn result IsNew }
        ensures cause { HasCauseAccepted self.old.faults self.new.faults result }
        ensures listed { IsFailed result ↔ Contains self.old.failing self.old.calls }
        ensures calls { self.new.calls ≡ raised self.old.calls }
        ensures failing { self.new.failing ≡ self.old.failing }
    {
        if is_to_fail(&mut self.calls, &mut self.faults, &self.failing) {
            return Accepted::Failed;
        }
        let most = self.back.capacity();
        next_of(&mut self.coming, &mut self.accepted, most)
    }

    fn ask_to_close(&mut self, _before: u64)
        ensures kept { self.new ≡ self.old }
    {}

    fn give_back(&mut self, conn: MemoryConn)
        requires { length self.old.back < self.old.accepted }
        ensures back { TakesBack (door_state self.old) (door_state self.new) conn }
        ensures same { (self.new.failing ≡ self.old.failing) × (self.new.calls ≡ self.old.calls) × (self.new.faults ≡ self.old.faults) }
    {
        self.back.push_reserved(conn);
    }

    ghost sides = { λ _. (refl, refl) };
}
