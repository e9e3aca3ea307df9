ghost use Rattle.std.specs.Prelude.{◌≡◌, ◌≢◌, Ok, Err, IfOk, IsUtf8};
ghost use Rattle.http_door.specs.Reading.{request_with};
ghost use Rattle.wire_json.specs.Bodies.{body_of};
ghost use Rattle.farm_api.specs.Conversation.{host_event, fetch_event, actor_event, bare_event, event_of, ticks_first, asked_with, asked_on, asked_by, asked_of};

use crate::paths::Paths;
use crate::routes::{Routed, find_route};
use farm_kinds::{Event, Name, NoMemory};
use http_door::Head;
use std::alloc::Global;
use wire_job::JobPart;
use wire_json::{Body, BodyFault, Route, read_body};

/// Why a request has no event.
#[derive(Clone, Copy, Debug, PartialEq, Eq)]
pub enum RequestFault {
    /// No route has the path.
    NoRoute,
    /// The route of the path has another method.
    NoMethod,
    /// The body does not say what the route needs.
    BadBody(BodyFault),
}

/// What a request asks of the farm.
#[derive(Debug, Drop)]
pub enum Asked {
    /// An event, before which time goes on to the clock's number where `ticks` says so.
    Event {
        ticks: bool,
        event: Event,
    },
    /// So much of the job of a test of a judging: whose submission that is, and then its case.
    Job {
        part: JobPart,
        judging: u32,
        test: u32,
    },
    /// What the public sees.
    Public,
    /// The same as a page for people.
    Page,
    /// The names of the contest.
    Contest,
    /// Nothing.
    Refused(RequestFault),
}

/// The event of a host that comes up or goes down.
fn host_event(route: Route, hostname: Name) -> Option<Event>
    ensures { result ≡ host_event route hostname }
{
    match route {
        Route::Hosts => Some(Event::Host { name: hostname }),
        Route::Down => Some(Event::Down { host: hostname }),
        _ => None,
    }
}

/// The event of a host that asks for a task, or for at most `max` of one judging.
fn fetch_event(route: Route, hostname: Name, max: Option<u8>) -> Option<Event>
    ensures { result ≡ fetch_event route hostname max }
{
    match (route, max) {
        (Route::FetchWork, None) => Some(Event::Claim { host: hostname }),
        (Route::FetchWork, Some(most)) => Some(Event::Fetch {
            host: hostname,
            most,
        }),
        _ => None,
    }
}

/// The event of what the jury does.
fn actor_event(route: Route, who: Name) -> Option<Event>
    ensures { result ≡ actor_event route who }
{
    match route {
        Route::Verify(judging) => Some(Event::Verify { who, judging }),
        Route::Ask(judging) => Some(Event::Ask { who, judging }),
        Route::Apply(rejudging) => Some(Event::Apply { who, rejudging }),
        Route::Cancel(rejudging) => Some(Event::Cancel { who, rejudging }),
        _ => None,
    }
}

/// The event of a question whose body says nothing.
fn bare_event(route: Route) -> Option<Event>
    ensures { result ≡ bare_event route }
{
    match route {
        Route::Judgement(judging) => Some(Event::Show { judging }),
        Route::Submission(judging) => Some(Event::Owner { judging }),
        Route::Rejudging(rejudging) => Some(Event::Matrix { rejudging }),
        Route::Board => Some(Event::Board),
        Route::Audit => Some(Event::Audit),
        _ => None,
    }
}

/// The event of a route with the fields of its body, if these are its own.
fn event_of(route: Route, body: Body) -> Option<Event>
    ensures { result ≡ event_of route body }
{
    match body {
        Body::Empty => bare_event(route),
        Body::Host { hostname } => host_event(route, hostname),
        Body::Fetch { hostname, max } => fetch_event(route, hostname, max),
        Body::Run {
            hostname,
            judging,
            test,
            kind,
        } => match route {
            Route::AddRun => Some(Event::Result {
                host: hostname,
                judging,
                test,
                kind,
            }),
            _ => None,
        },
        Body::Held {
            hostname,
            judging,
            test,
        } => match route {
            Route::Renew => Some(Event::Renew {
                host: hostname,
                judging,
                test,
            }),
            _ => None,
        },
        Body::Actor { who } => actor_event(route, who),
        Body::Rejudge { submissions, who } => match route {
            Route::Rejudgings => Some(Event::Rejudge {
                who,
                list: submissions,
            }),
            _ => None,
        },
    }
}

/// Whether time goes on before the event of the route.
fn ticks_first(route: Route) -> bool
    ensures { result ≡ ticks_first route }
{
    matches!(route, Route::FetchWork | Route::Renew)
}

/// What is asked by the event of a route.
fn asked_with(ticks: bool, event: Option<Event>) -> Asked
    ensures { result ≡ asked_with ticks event }
{
    match event {
        Some(event) => Asked::Event { ticks, event },
        None => Asked::Refused(RequestFault::NoRoute),
    }
}

/// What is asked on a route with the fields of its body.
fn asked_on(route: Route, body: Body) -> Asked
    ensures { result ≡ asked_on route body }
{
    match route {
        Route::Job { judging, test } => Asked::Job {
            part: JobPart::Whole,
            judging,
            test,
        },
        Route::JobRest { judging, test } => Asked::Job {
            part: JobPart::Rest,
            judging,
            test,
        },
        _ => asked_with(ticks_first(route), event_of(route, body)),
    }
}

/// What a body asks of the farm on a route.
fn read_asked(alloc: Global, route: Route, body: &[u8]) -> Result<Asked, NoMemory>
    ensures asked { IfOk result (λ a. a ≡ asked_by route (body_of route body.now)) }
    ensures told { IfOk result (λ a. a ≢ Asked.Refused (RequestFault.BadBody BodyFault.NoMemory)) }
{
    match read_body(alloc, route, body) {
        Ok(body) => Ok(asked_on(route, body)),
        Err(BodyFault::NoMemory) => Err(NoMemory),
        Err(fault) => Ok(Asked::Refused(RequestFault::BadBody(fault))),
    }
}

/// What a request asks of the farm.
pub fn read_request(
    alloc: Global,
    paths: &Paths,
    head: &Head,
    body: &[u8],
) -> Result<Asked, NoMemory>
    requires { IsUtf8 head.now.target }
    ensures asked { IfOk result (λ a. a ≡ asked_of (request_with head.now body.now)) }
    ensures told { IfOk result (λ a. a ≢ Asked.Refused (RequestFault.BadBody BodyFault.NoMemory)) }
{
    match find_route(paths, head.method.as_slice(), head.target.as_slice()) {
        Routed::Route(route) => read_asked(alloc, route, body),
        Routed::Public => Ok(Asked::Public),
        Routed::Page => Ok(Asked::Page),
        Routed::Contest => Ok(Asked::Contest),
        Routed::NoRoute => Ok(Asked::Refused(RequestFault::NoRoute)),
        Routed::NoMethod => Ok(Asked::Refused(RequestFault::NoMethod)),
    }
}
