ghost use Rattle.std.specs.Prelude.{◌≡◌, ◌≢◌, ◌+◌, ◌<◌, ◌≤◌, ◌↔◌, ℕ, length, take, drop, Some, IfOk, IfErr, IfSome, IsNone, IsSome, IsOk, IsTrue, IsFalse};
ghost use Rattle.httparse.specs.Grammar.{RequestHead};
ghost use Rattle.farm_io.specs.Lines.{HasFeed, input_limit};
ghost use Rattle.farm_io.specs.BlockValue.{IsEnded};
ghost use Rattle.http_door.specs.Fields.{body_limit};
ghost use Rattle.http_door.specs.Heads.{head_limit, framing_of};
ghost use Rattle.http_door.specs.Requests.{HoldsHead, HoldsRequest};
ghost use Rattle.http_door.specs.WindowValue.{Fills, HasCauseFill};
ghost use Rattle.http_door.specs.ReaderValue.{room_limit};
ghost use Rattle.http_door.specs.Reading.{HasCauseGiven};
ghost use Rattle.http_door.specs.Finding.{IsLooked, ShowsHead, HasShown, Stops, StopsOrShows, ended_by, IsSized, HasWhole};

use crate::ending::Ending;
use crate::fields::Framing;
use crate::heads::{Front, Seen, look_at};
use crate::window::Window;
use farm_io::{Source, Stop};
use memchr::memchr;

/// The most bytes of a head, from the first empty line before it to the empty line that ends it.
pub const HEAD_LIMIT: usize = 16_384;

/// A head at the front of a window, with as many bytes of its body as it says behind it.
#[derive(Clone, Copy)]
pub struct Whole {
    pub seen: Seen,
    /// How many bytes the body has.
    pub len: usize,
}

/// The bytes that a head may have.
pub fn front_of(bytes: &[u8]) -> &[u8]
    ensures { result.now ≡ take head_limit bytes.now }
{
    &bytes[..bytes.len().min(HEAD_LIMIT)]
}

/// What stands at the front of bytes, if that is known.
fn look(bytes: &[u8]) -> Option<Result<Seen, Ending>>
    ensures { IsLooked bytes.now result }
{
    match look_at(front_of(bytes)) {
        Front::Head(seen) => Some(Ok(seen)),
        Front::Bad => Some(Err(Ending::BadHead)),
        Front::More => {
            if bytes.len() < HEAD_LIMIT {
                return None;
            }
            Some(Err(Ending::HeadTooLong {
                len: HEAD_LIMIT as u64,
            }))
        }
    }
}

/// Whether a line ends in the bytes.
fn has_feed(bytes: &[u8]) -> bool
    ensures { IsTrue result ↔ HasFeed bytes.now }
{
    memchr(b'\n', bytes).is_some()
}

/// Whether bytes are to be parsed of which the first `seen` were parsed before.
///
/// A head ends in a line feed. So where none has come since, the bytes are not parsed again, unless they
/// are as many as a head has at most.
pub fn is_to_parse(bytes: &[u8], seen: usize) -> bool
    requires { seen ≤ length bytes.now }
    ensures short { IsFalse result → length bytes.now < head_limit }
    ensures fed { HasFeed (drop seen bytes.now) → IsTrue result }
{
    bytes.len() >= HEAD_LIMIT || has_feed(&bytes[seen..])
}

/// What stands at the front of bytes, of which the first `seen` were looked at before.
fn glance(bytes: &[u8], seen: usize) -> Option<Result<Seen, Ending>>
    requires { seen ≤ length bytes.now }
    ensures some { IsSome result → IsLooked bytes.now result }
    ensures none { IsNone result → length bytes.now < head_limit }
    ensures fed { HasFeed (drop seen bytes.now) → IsLooked bytes.now result }
{
    if is_to_parse(bytes, seen) {
        return look(bytes);
    }
    None
}

/// The end of bytes that stop here.
fn ended_by(stop: Stop, empty: bool) -> Ending
    ensures { result ≡ ended_by stop empty }
{
    match stop {
        Stop::End => { if empty { Ending::End } else { Ending::Cut } }
        Stop::ReadFault => Ending::ReadFault,
        Stop::InputLimit => Ending::InputLimit,
    }
}

/// What stands at the front of bytes behind which no more are taken.
fn look_last(bytes: &[u8], stop: Stop) -> Result<Seen, Ending>
    ensures { StopsOrShows bytes.now stop result }
{
    match look(bytes) {
        Some(found) => found,
        None => Err(ended_by(stop, bytes.len() == 0)),
    }
}

/// Takes what one call of the source gives. So a source is waited for only where no whole head stands in the window.
fn ask<S: Source>(window: &mut Window, source: &mut S) -> Option<Stop>
    requires lacking { ¬ HoldsHead window.old.ahead }
    requires room { length window.old.ahead < window.old.size }
    ensures fills { Fills (S.left source.old) (S.left source.new) window.old window.new }
    ensures size { window.new.size ≡ window.old.size }
    ensures grows { IsNone result → window.old.taken < window.new.taken }
    ensures kept { IsSome result → window.new ≡ window.old }
    ensures few { window.new.taken ≤ input_limit }
    ensures end { IsEnded result (S.left source.new) }
    ensures limit { result ≡ Some Stop.InputLimit → window.new.taken ≡ input_limit }
    ensures cause { HasCauseFill (S.faults source.old) (S.faults source.new) result }
    ensures beside { S.beside source.new ≡ S.beside source.old }
{
    window.fill(source)
}

/// Takes bytes until a head stands at the front of the window.
fn seek<S: Source>(window: &mut Window, source: &mut S) -> Result<Seen, Ending>
    requires room { head_limit < window.old.size }
    requires short { length window.old.ahead < head_limit }
    requires lacking { ¬ HoldsHead window.old.ahead }
    requires few { window.old.taken ≤ input_limit }
    ensures fills { Fills (S.left source.old) (S.left source.new) window.old window.new }
    ensures ok { IfOk result (HasShown window.new.ahead) }
    ensures err { IfErr result (Stops (S.left source.new) window.new) }
    ensures size { window.new.size ≡ window.old.size }
    ensures few { window.new.taken ≤ input_limit }
    ensures cause { HasCauseGiven (S.faults source.old) (S.faults source.new) result }
    ensures beside { S.beside source.new ≡ S.beside source.old }
{
    loop {
        let seen = window.ahead().len();
        if let Some(stop) = ask(window, source) {
            return look_last(window.ahead(), stop);
        }
        if let Some(found) = glance(window.ahead(), seen) {
            return found;
        }
    }
}

/// Finds the head at the front of the window, and takes bytes only where it does not stand there yet.
fn find_head<S: Source>(window: &mut Window, source: &mut S) -> Result<Seen, Ending>
    requires room { head_limit < window.old.size }
    requires few { window.old.taken ≤ input_limit }
    ensures fills { Fills (S.left source.old) (S.left source.new) window.old window.new }
    ensures ok { IfOk result (HasShown window.new.ahead) }
    ensures err { IfErr result (Stops (S.left source.new) window.new) }
    ensures size { window.new.size ≡ window.old.size }
    ensures few { window.new.taken ≤ input_limit }
    ensures cause { HasCauseGiven (S.faults source.old) (S.faults source.new) result }
    ensures beside { S.beside source.new ≡ S.beside source.old }

    // The head of a request that is held whole is found without asking the source.
    ensures held { HoldsRequest window.old.ahead → (source.new ≡ source.old) × (window.new ≡ window.old) × IsOk result }
{
    if let Some(found) = glance(window.ahead(), 0) {
        return found;
    }
    seek(window, source)
}

/// Takes bytes until so many stand in the window.
pub fn wait_for<S: Source>(window: &mut Window, source: &mut S, need: usize) -> Option<Stop>
    requires room { need ≤ window.old.size }
    requires few { window.old.taken ≤ input_limit }
    ensures fills { Fills (S.left source.old) (S.left source.new) window.old window.new }
    ensures whole { IsNone result → need ≤ length window.new.ahead }
    ensures short { IsSome result → length window.new.ahead < need }
    ensures size { window.new.size ≡ window.old.size }
    ensures few { window.new.taken ≤ input_limit }
    ensures end { IsEnded result (S.left source.new) }
    ensures limit { result ≡ Some Stop.InputLimit → window.new.taken ≡ input_limit }
    ensures cause { HasCauseFill (S.faults source.old) (S.faults source.new) result }
    ensures beside { S.beside source.new ≡ S.beside source.old }
{
    loop {
        if window.ahead().len() >= need {
            return None;
        }
        if let Some(stop) = window.fill(source) {
            return Some(stop);
        }
    }
}

/// The length that a head says, or its refusal.
fn length_said(framing: Framing) -> Result<u64, Ending>
    ensures { IsSized framing result }
{
    match framing {
        Framing::Sized(len) => Ok(len),
        Framing::BadLength => Err(Ending::BadHead),
        Framing::NoLength => Err(Ending::NoLength),
        Framing::TooLong(len) => Err(Ending::BodyTooLong { len }),
    }
}

/// Takes the body of a head, where it does not stand in the window yet.
fn take_body<S: Source>(
    window: &mut Window,
    source: &mut S,
    seen: Seen,
    len: usize,
) -> Result<Whole, Ending>
    requires shows { (h : RequestHead) × ShowsHead window.old.ahead h seen × (framing_of h ≡ Framing.Sized len) }
    requires few { window.old.taken ≤ input_limit }
    requires small { len ≤ body_limit }
    ensures fills { Fills (S.left source.old) (S.left source.new) window.old window.new }
    ensures ok { IfOk result (HasWhole window.new.ahead) }
    ensures err { IfErr result (Stops (S.left source.new) window.new) }
    ensures few { window.new.taken ≤ input_limit }
    ensures small { window.old.size ≤ room_limit → window.new.size ≤ room_limit }
    ensures cause { HasCauseGiven (S.faults source.old) (S.faults source.new) result }
    ensures beside { S.beside source.new ≡ S.beside source.old }
    ensures held { seen.len + len ≤ length window.old.ahead → (source.new ≡ source.old) × IsOk result }
{
    let need = seen.len + len;
    if window.ahead().len() >= need {
        return Ok(Whole { seen, len });
    }
    if let Err(_) = window.grow(need) {
        return Err(Ending::NoMemory);
    }
    if let Some(stop) = wait_for(window, source, need) {
        return Err(ended_by(stop, false));
    }
    Ok(Whole { seen, len })
}

/// Takes bytes until a whole request stands at the front of the window.
pub fn take_request<S: Source>(window: &mut Window, source: &mut S) -> Result<Whole, Ending>
    requires room { head_limit < window.old.size }
    requires few { window.old.taken ≤ input_limit }
    ensures fills { Fills (S.left source.old) (S.left source.new) window.old window.new }
    ensures ok { IfOk result (HasWhole window.new.ahead) }
    ensures err { IfErr result (Stops (S.left source.new) window.new) }
    ensures few { window.new.taken ≤ input_limit }
    ensures small { window.old.size ≤ room_limit → window.new.size ≤ room_limit }
    ensures cause { HasCauseGiven (S.faults source.old) (S.faults source.new) result }
    ensures beside { S.beside source.new ≡ S.beside source.old }
    ensures held { HoldsRequest window.old.ahead → (source.new ≡ source.old) × IsOk result }
{
    match find_head(window, source) {
        Err(ending) => Err(ending),
        Ok(seen) => match length_said(seen.framing) {
            Err(ending) => Err(ending),
            Ok(len) => take_body(window, source, seen, len as usize),
        },
    }
}
