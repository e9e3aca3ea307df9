ghost use Rattle.std.specs.Prelude.{◌≡◌, ◌≤◌, ◌^◌};
ghost use Rattle.std.specs.VecDeque.{deque_len};
ghost use Rattle.farm_io.specs.Beside.{side};
ghost use Rattle.contest_server.specs.Lanes.{start_of, starts_of, visit_of, IsLane, AreLanes};
ghost use Rattle.farm_api.specs.Exchanges.{around_of};
ghost use Rattle.contest_server.specs.Visits.{watch, on_board, visit, IsAnswered};

use crate::bell::Bell;
use crate::public::Public;
use crate::service::{Service, Watches};
use case_run::Cases;
use contest_page::Shows;
use farm_api::{AccessOf, ConnEnd, ConnHow, Paths, serve_lane};
use farm_board::{Admission, Anyone, Board, Pass};
use farm_io::{Clock, Peer, Sink, Source};
use judge_feed::Naming;
use std::alloc::Global;
use std::collections::VecDeque;
use std::marker::PhantomData;
use std::snapshot::Snapshot;
use std::sync::Wait;
use std::thread::{Promise, PromisedHandle, Scope, Threads};

/// What a worker gives back: the connection and the pass, and how the connection ended.
#[derive(Drop)]
pub(crate) struct Served<N, P> {
    pub conn: N,
    pub pass: P,
    pub end: ConnEnd,
}

/// What a worker promises of the connection and the pass that it was given, by this clock and these cases, on the board
/// that is named.
pub(crate) struct Promised<N, P, C, Q, J> {
    pub came: Snapshot<N>,
    pub begun: Snapshot<P>,
    pub clock: Snapshot<C>,
    pub cases: Snapshot<Q>,
    pub of: PhantomData<J>,
}

impl<N, P, C, Q, J> Drop for Promised<N, P, C, Q, J> {
    fn drop(self) {
        let Self {
            came: _,
            begun: _,
            clock: _,
            cases: _,
            of: _,
        } = self;
    }
}

impl<N: Source + Sink + Peer, A: Admission, C: Clock, Q: Cases + Shows, J: Naming> Promise<
    Served<N, Pass<A>>,
> for Promised<N, Pass<A>, C, Q, J> {
    ghost kept_by = { λ p r. IsAnswered (on_board J.start (Q.case_at p.cases.value) (Q.shown p.cases.value)
        (watch N.left N.held N.Source.faults N.Sink.faults (around_of (C.shows p.clock.value) N.Peer.asks)))
        (visit p.came.value r.conn p.begun.value r.pass r.end.requests r.end.how) };
}

/// Serves a connection on a pass of its own, in this place, with a reader of what the public sees.
fn serve_one<W: Wait, A: Admission, C: Clock, Q: Cases + Shows, N: Source + Sink + Peer, J: Naming>(
    rt: &W,
    alloc: Global,
    paths: &Paths,
    board: &Board<Anyone, A>,
    clock: &C,
    cases: &Q,
    public: &Public<A, J>,
    bell: &Bell,
    place: usize,
    pass: Pass<A>,
    mut conn: N,
) -> Served<N, Pass<A>>
    requires board { pass.board ≡ board.now.id }
    requires named { board.now.id ≡ J.board }
    requires calls { 2 ^ 42 ≤ pass.left }
    requires source { (n : N) → N.Source.beside n ≡ side (N.held n) (N.Sink.faults n) }
    requires sink { (n : N) → N.Sink.beside n ≡ side (N.left n) (N.Source.faults n) }
    ensures answered { IsAnswered (on_board J.start (Q.case_at cases.now) (Q.shown cases.now)
        (watch N.left N.held N.Source.faults N.Sink.faults (around_of (C.shows clock.now) N.Peer.asks)))
        (visit conn result.conn pass result.pass result.end.requests result.end.how) }
{
    let Some(reader) = public.take_reader(rt, alloc) else {
        // There is a reader for each worker.
        let end = refuse(&mut conn);
        bell.ring(rt, place);
        return Served { conn, pass, end };
    };
    let mut access = AccessOf { pass, reader };
    let end = serve_lane(
        rt,
        alloc,
        paths,
        &mut access,
        board,
        cases,
        &public.feed,
        &mut conn,
        clock,
    );
    let AccessOf { pass, reader } = access;
    public.put_reader(rt, reader);
    bell.ring(rt, place);
    Served { conn, pass, end }
}

/// Ends a connection of which nothing was read.
fn refuse<N: Source + Sink + Peer>(conn: &mut N) -> ConnEnd
    ensures end { result ≡ record { requests = 0; how = ConnHow.NoMemory } }
    ensures left { N.left conn.new ≡ N.left conn.old }
    ensures held { N.held conn.new ≡ N.held conn.old }
    ensures reads { N.Source.faults conn.new ≡ N.Source.faults conn.old }
    ensures writes { N.Sink.faults conn.new ≡ N.Sink.faults conn.old }
{
    conn.finish(false);
    ConnEnd {
        requests: 0,
        how: ConnHow::NoMemory,
    }
}

/// A connection that is being served by a worker, or that was served.
#[derive(Drop)]
pub(crate) struct Lane<T, P: Promise<T>> {
    worker: Option<PromisedHandle<T, P>>,
    served: Option<T>,
    promise: Snapshot<P>,
}

/// A connection that is being served, by the types of its worker.
pub(crate) type Worker<N, A, C, Q, J> = Lane<Served<N, Pass<A>>, Promised<N, Pass<A>, C, Q, J>>;

/// Begins to serve a connection by a worker. Where none can be started, the caller serves it.
pub(crate) fn begin<
    's,
    E,
    W: Wait + Sync,
    A: Admission + Send + Sync,
    C: Clock + Sync,
    Q: Cases + Shows + Sync,
    N: Source + Sink + Peer + Send + Drop + 's,
    J: Naming + Send + Sync,
>(
    service: &Service<'s, W, A, C, Q, J>,
    scope: &Scope<'s, E>,
    place: usize,
    pass: Pass<A>,
    conn: N,
) -> Worker<N, A, C, Q, J>
    requires named { service.now.board.now.id ≡ J.board }
    requires board { pass.board ≡ service.now.board.now.id }
    requires calls { 2 ^ 42 ≤ pass.left }
    requires source { (n : N) → N.Source.beside n ≡ side (N.held n) (N.Sink.faults n) }
    requires sink { (n : N) → N.Sink.beside n ≡ side (N.left n) (N.Source.faults n) }
    ensures start { start_of result ≡ record { came = conn; begun = pass } }
    ensures lane { IsLane (⟦<Service<'s, W, A, C, Q, J> as Watches<N>>⟧.watched service.now)
        service.now.clock.now service.now.cases.now result }
{
    let Service {
        rt,
        alloc,
        paths,
        board,
        clock,
        cases,
        public,
        bell,
        workers: _,
        most: _,
    } = *service;
    let promise = Promised {
        came: Snapshot::of(&conn),
        begun: Snapshot::of(&pass),
        clock: Snapshot::of(clock),
        cases: Snapshot::of(cases),
        of: PhantomData,
    };
    let promised = Snapshot::of(&promise);
    let started = scope.spawn_with(
        promise,
        move || -> Served<N, Pass<A>>
            requires board { pass.board ≡ board.now.id }
            requires named { board.now.id ≡ J.board }
            requires calls { 2 ^ 42 ≤ pass.left }
            requires source { (n : N) → N.Source.beside n ≡ side (N.held n) (N.Sink.faults n) }
            requires sink { (n : N) → N.Sink.beside n ≡ side (N.left n) (N.Source.faults n) }
            ensures answered { IsAnswered (on_board J.start (Q.case_at cases.entry.now) (Q.shown cases.entry.now)
                (watch N.left N.held N.Source.faults N.Sink.faults (around_of (C.shows clock.entry.now) N.Peer.asks)))
                (visit conn result.conn pass result.pass result.end.requests result.end.how) }
        {
            serve_one(
                rt, alloc, paths, board, clock, cases, public, bell, place, pass, conn,
            )
        },
    );
    match started {
        Ok(handle) => Lane {
            worker: Some(handle),
            served: None,
            promise: promised,
        },
        Err(refused) => Lane {
            worker: None,
            served: Some((refused.value)()),
            promise: promised,
        },
    }
}

/// Waits until the connection was served.
pub(crate) fn end<
    's,
    R: Threads,
    N: Source + Sink + Peer + Drop,
    A: Admission,
    C: Clock,
    Q: Cases + Shows,
    J: Naming,
>(service: &Service<'s, R, A, C, Q, J>, lane: Worker<N, A, C, Q, J>) -> Served<N, Pass<A>>
    requires lane { IsLane (⟦<Service<'s, R, A, C, Q, J> as Watches<N>>⟧.watched service.now)
        service.now.clock.now service.now.cases.now lane }
    ensures answered { IsAnswered (⟦<Service<'s, R, A, C, Q, J> as Watches<N>>⟧.watched service.now)
        (visit_of (start_of lane) result) }
{
    let Lane {
        worker,
        served,
        promise: _,
    } = lane;
    if let Some(handle) = worker {
        return handle.join(service.rt);
    }
    let Some(served) = served else {
        // Where there is no worker, the connection was served.
        unreachable!()
    };
    served
}

/// Waits until the connection was served, and keeps what came of it: no thread is left.
pub(crate) fn settle<
    's,
    R: Threads,
    N: Source + Sink + Peer + Drop,
    A: Admission,
    C: Clock,
    Q: Cases + Shows,
    J: Naming,
>(service: &Service<'s, R, A, C, Q, J>, lane: &mut Worker<N, A, C, Q, J>)
    requires lane { IsLane (⟦<Service<'s, R, A, C, Q, J> as Watches<N>>⟧.watched service.now)
        service.now.clock.now service.now.cases.now lane.old }
    ensures start { start_of lane.new ≡ start_of lane.old }
    ensures lane { IsLane (⟦<Service<'s, R, A, C, Q, J> as Watches<N>>⟧.watched service.now)
        service.now.clock.now service.now.cases.now lane.new }
{
    if let Some(handle) = lane.worker.take() {
        lane.served = Some(handle.join(service.rt));
    }
}

/// Waits until the connection at this index was served.
pub(crate) fn settle_at<
    's,
    R: Threads,
    N: Source + Sink + Peer + Drop,
    A: Admission,
    C: Clock,
    Q: Cases + Shows,
    J: Naming,
>(service: &Service<'s, R, A, C, Q, J>, lanes: &mut VecDeque<Worker<N, A, C, Q, J>>, index: usize)
    requires lanes { AreLanes (⟦<Service<'s, R, A, C, Q, J> as Watches<N>>⟧.watched service.now)
        service.now.clock.now service.now.cases.now lanes.old.items }
    ensures starts { starts_of lanes.new.items ≡ starts_of lanes.old.items }
    ensures lanes { AreLanes (⟦<Service<'s, R, A, C, Q, J> as Watches<N>>⟧.watched service.now)
        service.now.clock.now service.now.cases.now lanes.new.items }
    ensures len { deque_len lanes.new ≡ deque_len lanes.old }
{
    if index < lanes.len() {
        settle(service, &mut lanes[index]);
    }
}

/// Whether the connection was served, and no thread is left.
pub(crate) fn is_settled<
    N: Source + Sink + Peer,
    A: Admission,
    C: Clock,
    Q: Cases + Shows,
    J: Naming,
>(lane: &Worker<N, A, C, Q, J>) -> bool {
    lane.worker.is_none()
}
