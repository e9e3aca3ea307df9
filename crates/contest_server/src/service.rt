ghost use Rattle.farm_api.specs.Exchanges.{around_of};
ghost use Rattle.contest_server.specs.Visits.{Watch, watch, on_board};

use crate::bell::Bell;
use crate::public::Public;
use case_run::Cases;
use contest_page::Shows;
use farm_api::Paths;
use farm_board::{Admission, Anyone, Board};
use farm_io::{Clock, Peer, Sink, Source};
use judge_feed::Naming;
use std::alloc::Global;

/// What stays the same while a contest is served, but for what shows it to the public.
#[derive(Clone, Copy)]
pub(crate) struct Ground<'s, R, A: Admission, C, Q> {
    pub rt: &'s R,
    pub alloc: Global,
    pub paths: &'s Paths,
    pub board: &'s Board<Anyone, A>,
    pub clock: &'s C,
    pub cases: &'s Q,
    /// How many connections are served at the same time at the most.
    pub workers: u16,
    /// How many that came may not be given back yet.
    pub most: u16,
}

/// What stays the same while connections are served.
#[derive(Clone, Copy)]
pub(crate) struct Service<'s, R, A: Admission, C, Q, J: Naming> {
    pub rt: &'s R,
    pub alloc: Global,
    pub paths: &'s Paths,
    pub board: &'s Board<Anyone, A>,
    pub clock: &'s C,
    pub cases: &'s Q,
    pub public: &'s Public<A, J>,
    pub bell: &'s Bell,
    /// How many connections are served at the same time at the most.
    pub workers: u16,
    /// How many that came may not be given back yet.
    pub most: u16,
}

/// What is told of connections of a type, and of that by which they are served.
pub(crate) trait Watches<N: Source + Sink + Peer> {
    ghost watched: { Self → Watch N };
}

impl<'s, R, A: Admission, C: Clock, Q: Cases + Shows, J: Naming, N: Source + Sink + Peer> Watches<N>
    for Service<'s, R, A, C, Q, J> {
    ghost watched = { λ service. on_board J.start (Q.case_at service.cases.now) (Q.shown service.cases.now)
        (watch N.left N.held N.Source.faults N.Sink.faults (around_of (C.shows service.clock.now) N.Peer.asks)) };
}
