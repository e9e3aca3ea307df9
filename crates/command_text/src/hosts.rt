ghost use Rattle.std.specs.Prelude.{◌≡◌, List, ℕ};
ghost use Rattle.farm_model.specs.Words.{words};
ghost use Rattle.farm_kinds.specs.declared.events.Event.TheVariants as event;
ghost use Rattle.farm_model.specs.Grammar.{name_line, batch_of, fetch_line, result_line, renew_line, host_event_of};

use crate::alone::{kind_alone, name_alone, number_alone};
use crate::fronts::{next_name, next_number};
use crate::numbers::read_number;
use crate::words::next_word;
use farm_kinds::{Event, MAX_BATCH, Name};

/// What `host NAME` asks.
#[tactic(auto, using(crate::proofs::LineLemmas::name_line_by))]
fn host_line(rest: &[u8]) -> Option<Event>
    ensures { result ≡ name_line event.Host (words rest.now) }
{
    let name = name_alone(rest)?;
    Some(Event::Host { name })
}

/// What `claim HOST` asks.
#[tactic(auto, using(crate::proofs::LineLemmas::name_line_by))]
fn claim_line(rest: &[u8]) -> Option<Event>
    ensures { result ≡ name_line event.Claim (words rest.now) }
{
    let host = name_alone(rest)?;
    Some(Event::Claim { host })
}

/// What `down HOST` asks.
#[tactic(auto, using(crate::proofs::LineLemmas::name_line_by))]
fn down_line(rest: &[u8]) -> Option<Event>
    ensures { result ≡ name_line event.Down (words rest.now) }
{
    let host = name_alone(rest)?;
    Some(Event::Down { host })
}

/// A number of tasks that are fetched at once: from 1 to 16.
fn read_batch(word: &[u8]) -> Option<u8>
    ensures { result ≡ batch_of word.now }
{
    let most = read_number(word)?;
    if most >= 1 && most <= MAX_BATCH {
        Some(most as u8)
    } else {
        None
    }
}

/// What `fetch HOST B` asks.
fn fetch_line(rest: &[u8]) -> Option<Event>
    ensures { result ≡ fetch_line (words rest.now) }
{
    let (host, rest) = next_word(rest)?;
    let (most, rest) = next_word(rest)?;
    if next_word(rest).is_some() {
        return None;
    }
    let host = Name::read(host)?;
    let most = read_batch(most)?;
    Some(Event::Fetch { host, most })
}

/// What `result HOST J T KIND` asks.
#[tactic(auto, using(crate::proofs::LineLemmas::result_line_by))]
fn result_line(rest: &[u8]) -> Option<Event>
    ensures { result ≡ result_line (words rest.now) }
{
    let Some((host, rest)) = next_name(rest) else {
        return None;
    };
    let (judging, rest) = next_number(rest)?;
    let (test, rest) = next_number(rest)?;
    let kind = kind_alone(rest)?;
    Some(Event::Result {
        host,
        judging,
        test,
        kind,
    })
}

/// What `renew HOST J T` asks.
#[tactic(auto, using(crate::proofs::LineLemmas::renew_line_by))]
fn renew_line(rest: &[u8]) -> Option<Event>
    ensures { result ≡ renew_line (words rest.now) }
{
    let Some((host, rest)) = next_name(rest) else {
        return None;
    };
    let (judging, rest) = next_number(rest)?;
    let test = number_alone(rest)?;
    Some(Event::Renew {
        host,
        judging,
        test,
    })
}

/// The event of a host's line that begins with this word.
pub fn host_event_of(word: &[u8], rest: &[u8]) -> Option<Event>
    ensures { result ≡ host_event_of word.now (words rest.now) }
{
    if word == b"host".as_slice() {
        host_line(rest)
    } else if word == b"claim".as_slice() {
        claim_line(rest)
    } else if word == b"fetch".as_slice() {
        fetch_line(rest)
    } else if word == b"result".as_slice() {
        result_line(rest)
    } else if word == b"renew".as_slice() {
        renew_line(rest)
    } else if word == b"down".as_slice() {
        down_line(rest)
    } else {
        None
    }
}
