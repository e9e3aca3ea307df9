ghost use Rattle.std.specs.Prelude.{◌≡◌, ◌≢◌, ◌+◌, ◌<◌, ◌≤◌, ◌↔◌, ℕ, length, take, drop, Some, IfOk, IfErr, IfSome, IsNone, IsSome, IsOk};
ghost use Rattle.httparse.specs.Grammar.{ResponseHead};
ghost use Rattle.farm_io.specs.Lines.{HasFeed, input_limit};
ghost use Rattle.http_door.specs.AnswerFields.{answer_limit};
ghost use Rattle.http_door.specs.Heads.{head_limit};
ghost use Rattle.http_door.specs.AnswerHeads.{framing_of};
ghost use Rattle.http_door.specs.Answers.{HoldsHead, HoldsAnswer};
ghost use Rattle.http_door.specs.WindowValue.{Fills};
ghost use Rattle.http_door.specs.AnswerFinding.{room_limit, IsLooked, ShowsHead, HasShown, Stops, StopsOrShows, ended_by, IsSized, HasWhole};
ghost use Rattle.http_door.specs.AnswerReading.{HasCauseRead};

use super::ending::AnswerEnding;
use super::fields::AnswerFraming;
use super::heads::{Front, Seen, look_at};
use crate::finding::{HEAD_LIMIT, front_of, is_to_parse, wait_for};
use crate::window::Window;
use farm_io::{Source, Stop};

/// A head at the front of a window, with as many bytes of its body as it says behind it.
#[derive(Clone, Copy)]
pub struct Whole {
    pub seen: Seen,
    /// How many bytes the body has.
    pub len: usize,
}

/// What stands at the front of bytes, if that is known.
fn look(bytes: &[u8]) -> Option<Result<Seen, AnswerEnding>>
    ensures { IsLooked bytes.now result }
{
    match look_at(front_of(bytes)) {
        Front::Head(seen) => Some(Ok(seen)),
        Front::Bad => Some(Err(AnswerEnding::BadHead)),
        Front::More => {
            if bytes.len() < HEAD_LIMIT {
                return None;
            }
            Some(Err(AnswerEnding::BadHead))
        }
    }
}

/// What stands at the front of bytes, of which the first `seen` were looked at before.
fn glance(bytes: &[u8], seen: usize) -> Option<Result<Seen, AnswerEnding>>
    requires { seen ≤ length bytes.now }
    ensures some { IsSome result → IsLooked bytes.now result }
    ensures none { IsNone result → length bytes.now < head_limit }
    ensures fed { HasFeed (drop seen bytes.now) → IsLooked bytes.now result }
{
    if is_to_parse(bytes, seen) {
        return look(bytes);
    }
    None
}

/// The end of bytes that stop here.
fn ended_by(stop: Stop) -> AnswerEnding
    requires { stop ≢ Stop.InputLimit }
    ensures { result ≡ ended_by stop }
{
    match stop {
        Stop::End => AnswerEnding::Cut,
        Stop::ReadFault => AnswerEnding::ReadFault,
        // A response is shorter than that.
        Stop::InputLimit => unreachable!(),
    }
}

/// What stands at the front of bytes behind which no more are taken.
fn look_last(bytes: &[u8], stop: Stop) -> Result<Seen, AnswerEnding>
    requires { stop ≢ Stop.InputLimit }
    ensures { StopsOrShows bytes.now stop result }
{
    match look(bytes) {
        Some(found) => found,
        None => Err(ended_by(stop)),
    }
}

/// Takes bytes until a head stands at the front of the window.
fn seek<S: Source>(window: &mut Window, source: &mut S) -> Result<Seen, AnswerEnding>
    requires room { head_limit < window.old.size }
    requires small { window.old.size ≤ room_limit }
    requires short { length window.old.ahead < head_limit }
    requires lacking { ¬ HoldsHead window.old.ahead }
    requires few { window.old.taken ≤ length window.old.ahead }
    ensures fills { Fills (S.left source.old) (S.left source.new) window.old window.new }
    ensures ok { IfOk result (HasShown window.new.ahead) }
    ensures err { IfErr result (Stops (S.left source.new) window.new.ahead) }
    ensures size { window.new.size ≡ window.old.size }
    ensures few { window.new.taken ≤ length window.new.ahead }
    ensures cause { HasCauseRead (S.faults source.old) (S.faults source.new) result }
    ensures beside { S.beside source.new ≡ S.beside source.old }
{
    loop {
        let seen = window.ahead().len();
        if let Some(stop) = window.fill(source) {
            return look_last(window.ahead(), stop);
        }
        if let Some(found) = glance(window.ahead(), seen) {
            return found;
        }
    }
}

/// Finds the head at the front of the window, and takes bytes only where it does not stand there yet.
fn find_head<S: Source>(window: &mut Window, source: &mut S) -> Result<Seen, AnswerEnding>
    requires room { head_limit < window.old.size }
    requires small { window.old.size ≤ room_limit }
    requires few { window.old.taken ≤ length window.old.ahead }
    ensures fills { Fills (S.left source.old) (S.left source.new) window.old window.new }
    ensures ok { IfOk result (HasShown window.new.ahead) }
    ensures err { IfErr result (Stops (S.left source.new) window.new.ahead) }
    ensures size { window.new.size ≡ window.old.size }
    ensures few { window.new.taken ≤ length window.new.ahead }
    ensures cause { HasCauseRead (S.faults source.old) (S.faults source.new) result }
    ensures beside { S.beside source.new ≡ S.beside source.old }

    // The head of a response that is held whole is found without asking the source.
    ensures held { HoldsAnswer window.old.ahead → (source.new ≡ source.old) × (window.new ≡ window.old) × IsOk result }
{
    if let Some(found) = glance(window.ahead(), 0) {
        return found;
    }
    seek(window, source)
}

/// The length that a head says, or what is wrong with it.
fn length_said(framing: AnswerFraming) -> Result<u64, AnswerEnding>
    ensures { IsSized framing result }
{
    match framing {
        AnswerFraming::Sized(len) => Ok(len),
        AnswerFraming::BadLength => Err(AnswerEnding::BadHead),
        AnswerFraming::TooLong(len) => Err(AnswerEnding::TooLong { len }),
        AnswerFraming::Status(code) => Err(AnswerEnding::Status { code }),
    }
}

/// Takes the body of a head, where it does not stand in the window yet.
fn take_body<S: Source>(
    window: &mut Window,
    source: &mut S,
    seen: Seen,
    len: usize,
) -> Result<Whole, AnswerEnding>
    requires shows { (h : ResponseHead) × ShowsHead window.old.ahead h seen × (framing_of h ≡ AnswerFraming.Sized len) }
    requires few { window.old.taken ≤ length window.old.ahead }
    requires small { len ≤ answer_limit }
    requires room { window.old.size ≤ room_limit }
    ensures fills { Fills (S.left source.old) (S.left source.new) window.old window.new }
    ensures ok { IfOk result (HasWhole window.new.ahead) }
    ensures err { IfErr result (Stops (S.left source.new) window.new.ahead) }
    ensures small { window.new.size ≤ room_limit }
    ensures cause { HasCauseRead (S.faults source.old) (S.faults source.new) result }
    ensures beside { S.beside source.new ≡ S.beside source.old }
    ensures held { seen.len + len ≤ length window.old.ahead → (source.new ≡ source.old) × IsOk result }
{
    let need = seen.len + len;
    if window.ahead().len() >= need {
        return Ok(Whole { seen, len });
    }
    if let Err(_) = window.grow(need) {
        return Err(AnswerEnding::NoMemory);
    }
    if let Some(stop) = wait_for(window, source, need) {
        return Err(ended_by(stop));
    }
    Ok(Whole { seen, len })
}

/// Takes bytes until a whole response stands at the front of the window.
pub fn take_answer<S: Source>(window: &mut Window, source: &mut S) -> Result<Whole, AnswerEnding>
    requires room { head_limit < window.old.size }
    requires small { window.old.size ≤ room_limit }
    requires few { window.old.taken ≤ length window.old.ahead }
    ensures fills { Fills (S.left source.old) (S.left source.new) window.old window.new }
    ensures ok { IfOk result (HasWhole window.new.ahead) }
    ensures err { IfErr result (Stops (S.left source.new) window.new.ahead) }
    ensures small { window.new.size ≤ room_limit }
    ensures cause { HasCauseRead (S.faults source.old) (S.faults source.new) result }
    ensures beside { S.beside source.new ≡ S.beside source.old }
    ensures held { HoldsAnswer window.old.ahead → (source.new ≡ source.old) × IsOk result }
{
    match find_head(window, source) {
        Err(ending) => Err(ending),
        Ok(seen) => match length_said(seen.framing) {
            Err(ending) => Err(ending),
            Ok(len) => take_body(window, source, seen, len as usize),
        },
    }
}
