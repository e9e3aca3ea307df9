ghost use Rattle.std.specs.Prelude.{◌≡◌, ◌==◌, ◌≤◌, length, IsUtf8};
ghost use Rattle.std.specs.List.{position, position_or_len};
ghost use Rattle.farm_api.specs.Table.{rows, place_in};
ghost use Rattle.farm_api.specs.Routes.{before, behind, path_of, id_of, job_route, job_with, job_of, route_at, method_of, routed_by, got_by, routed_at, routed_of};

use crate::paths::{Paths, Place};
use command_text::read_number;
use wire_job::JobPart;
use wire_json::Route;

/// What a request asks for.
#[derive(Clone, Copy, Debug, PartialEq, Eq)]
pub enum Routed {
    /// A route, by the method that it has.
    Route(Route),
    /// What the public sees.
    Public,
    /// The page that people are shown.
    Page,
    /// The names of the contest.
    Contest,
    /// No route has the path, or what stands there for an id is no number.
    NoRoute,
    /// The route of the path has another method.
    NoMethod,
}

/// Where the first byte of this code stands.
fn find(bytes: &[u8], code: u8) -> Option<usize>
    ensures { result ≡ position (λ b. b == code) bytes.now }
{
    bytes.iter().position(|b| *b == code)
}

/// Where the first byte of this code stands, or how many bytes there are.
fn place_of(bytes: &[u8], code: u8) -> usize
    ensures place { result ≡ position_or_len (λ b. b == code) bytes.now }
    ensures within { result ≤ length bytes.now }
{
    match find(bytes, code) {
        Some(at) => at,
        None => bytes.len(),
    }
}

/// The bytes before the first one of this code, or all.
fn before(bytes: &[u8], code: u8) -> &[u8]
    ensures { result.now ≡ before code bytes.now }
{
    &bytes[..place_of(bytes, code)]
}

/// The bytes behind the first one of this code, or none.
fn behind(bytes: &[u8], code: u8) -> &[u8]
    ensures { result.now ≡ behind code bytes.now }
{
    let at = place_of(bytes, code);
    if at < bytes.len() {
        return &bytes[at + 1..];
    }
    &bytes[at..]
}

/// The number between the second slash of a path and the third.
fn id_of(path: &[u8]) -> Option<u32>
    ensures { result ≡ id_of path.now }
{
    let tail = behind(behind(path, b'/'), b'/');
    read_number(before(tail, b'/'))
}

/// The route of so much of the job of a test of a judging.
fn job_route(part: JobPart, judging: u32, test: u32) -> Route
    ensures { result ≡ job_route part judging test }
{
    match part {
        JobPart::Whole => Route::Job { judging, test },
        JobPart::Rest => Route::JobRest { judging, test },
    }
}

/// The same of these, where both are numbers.
fn job_with(part: JobPart, judging: Option<u32>, test: Option<u32>) -> Option<Route>
    ensures { result ≡ job_with part judging test }
{
    match (judging, test) {
        (Some(judging), Some(test)) => Some(job_route(part, judging, test)),
        _ => None,
    }
}

/// The same of the judging between the third slash of a path and the fourth, and the test behind that, up to the fifth.
fn job_of(part: JobPart, path: &[u8]) -> Option<Route>
    ensures { result ≡ job_of part path.now }
{
    let tail = behind(behind(behind(path, b'/'), b'/'), b'/');
    job_with(
        part,
        read_number(before(tail, b'/')),
        read_number(before(behind(tail, b'/'), b'/')),
    )
}

/// The route of a place and the ids that stand in the path.
fn route_at(place: Place, path: &[u8]) -> Option<Route>
    ensures { result ≡ route_at place path.now }
{
    match place {
        Place::Hosts => Some(Route::Hosts),
        Place::FetchWork => Some(Route::FetchWork),
        Place::AddRun => Some(Route::AddRun),
        Place::Renew => Some(Route::Renew),
        Place::Down => Some(Route::Down),
        Place::Job => job_of(JobPart::Whole, path),
        Place::JobRest => job_of(JobPart::Rest, path),
        Place::Judgement => id_of(path).map(Route::Judgement),
        Place::Submission => id_of(path).map(Route::Submission),
        Place::Verify => id_of(path).map(Route::Verify),
        Place::Ask => id_of(path).map(Route::Ask),
        Place::Board => Some(Route::Board),
        // What anybody may see is not asked by a body.
        Place::Public | Place::Page | Place::Contest => None,
        Place::Audit => Some(Route::Audit),
        Place::Rejudgings => Some(Route::Rejudgings),
        Place::Rejudging => id_of(path).map(Route::Rejudging),
        Place::Apply => id_of(path).map(Route::Apply),
        Place::Cancel => id_of(path).map(Route::Cancel),
    }
}

/// The method of a route (RFC 9110, section 9.3).
fn method_of(route: Route) -> &'static [u8]
    ensures { result.now ≡ method_of route }
{
    match route {
        Route::Judgement(_) | Route::Submission(_) | Route::Rejudging(_) => b"GET",
        Route::Job { .. } | Route::JobRest { .. } | Route::Board | Route::Audit => b"GET",
        Route::Hosts | Route::FetchWork | Route::AddRun | Route::Renew | Route::Down => b"POST",
        Route::Verify(_) | Route::Ask(_) | Route::Apply(_) | Route::Cancel(_) => b"POST",
        Route::Rejudgings => b"POST",
    }
}

/// The path of a target: what stands before its question mark.
fn path_of(target: &str) -> &str
    ensures { result.now ≡ path_of target.now }
{
    match target.split_once('?') {
        Some((path, _)) => path,
        None => target,
    }
}

/// What the method makes of a route.
fn routed_by(method: &[u8], route: Option<Route>) -> Routed
    ensures { result ≡ routed_by method.now route }
{
    match route {
        None => Routed::NoRoute,
        Some(route) => {
            if method == method_of(route) {
                return Routed::Route(route);
            }
            Routed::NoMethod
        }
    }
}

/// What the method makes of the place of what anybody may see.
fn got_by(method: &[u8], what: Routed) -> Routed
    ensures { result ≡ got_by method.now what }
{
    if method == b"GET".as_slice() {
        return what;
    }
    Routed::NoMethod
}

/// What the method makes of a place and the ids that stand in the path.
fn routed_at(method: &[u8], place: Option<Place>, path: &[u8]) -> Routed
    ensures { result ≡ routed_at method.now place path.now }
{
    match place {
        None => Routed::NoRoute,
        Some(Place::Public) => got_by(method, Routed::Public),
        Some(Place::Page) => got_by(method, Routed::Page),
        Some(Place::Contest) => got_by(method, Routed::Contest),
        Some(place) => routed_by(method, route_at(place, path)),
    }
}

/// What a method and a path ask for.
fn routed_for(paths: &Paths, method: &[u8], path: &str) -> Routed
    ensures { result ≡ routed_at method.now (place_in rows path.now) path.now }
{
    routed_at(method, paths.find(path), path.as_bytes())
}

/// What a request asks for, by its method and its target.
pub fn find_route(paths: &Paths, method: &[u8], target: &[u8]) -> Routed
    requires { IsUtf8 target.now }
    ensures { result ≡ routed_of method.now target.now }
{
    match str::from_utf8(target) {
        Ok(target) => routed_for(paths, method, path_of(target)),
        // The target is UTF-8.
        Err(_) => Routed::NoRoute,
    }
}
