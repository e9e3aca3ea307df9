ghost use Rattle.std.specs.Prelude.{◌≡◌, []};
ghost use Rattle.std.specs.VecDeque.{deque_len};

use crate::bell::Places;
use crate::lanes::Worker;
use case_run::Cases;
use contest_page::Shows;
use farm_board::{Admission, Pass};
use farm_io::{Clock, Door};
use judge_feed::Naming;
use std::alloc::Global;
use std::collections::VecDeque;

/// What changes while a contest is served.
pub(crate) struct Desk<
    'd,
    'o,
    'p,
    D: Door,
    K,
    A: Admission,
    C: Clock,
    Q: Cases + Shows,
    J: Naming,
> {
    /// Where connections come from, and where they are given back.
    pub door: &'d mut D,
    /// Where lines are written.
    pub out: &'o mut K,
    /// The opening pass, which splits off a pass for each connection.
    pub pass: &'p mut Pass<A>,
    /// The places of the workers that are at work.
    pub places: Places,
    /// The connections that came and were not given back yet, the first one first.
    pub lanes: VecDeque<Worker<D::Conn, A, C, Q, J>>,
}

impl<'d, 'o, 'p, D: Door, K, A: Admission, C: Clock, Q: Cases + Shows, J: Naming> Desk<
    'd,
    'o,
    'p,
    D,
    K,
    A,
    C,
    Q,
    J,
> {
    /// A desk to which no connection has come.
    pub fn new(alloc: Global, door: &'d mut D, out: &'o mut K, pass: &'p mut Pass<A>) -> Self
        ensures same { (result.door.ghost_name ≡ door.entry.ghost_name) × (result.out.ghost_name ≡ out.entry.ghost_name)
            × (result.pass.ghost_name ≡ pass.entry.ghost_name) }
        ensures door { result.door.now ≡ door.entry.now }
        ensures out { result.out.now ≡ out.entry.now }
        ensures pass { result.pass.now ≡ pass.entry.now }
        ensures lanes { result.lanes.items ≡ [] }
        ensures len { deque_len result.lanes ≡ 0 }
    {
        Desk {
            door,
            out,
            pass,
            places: Places::new(),
            lanes: VecDeque::new(alloc),
        }
    }
}
