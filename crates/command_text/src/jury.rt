ghost use Rattle.std.specs.Prelude.{◌≡◌, ◌<◌, List, ℕ, length, IfOk, OnErr};
ghost use Rattle.farm_model.specs.Words.{words};
ghost use Rattle.farm_kinds.specs.declared.events.Event.TheVariants as event;
ghost use Rattle.farm_model.specs.Grammar.{problem_line, replace_line, rejudge_line, number_line, jury_event_of};
ghost use Rattle.command_text.specs.Listed.{listed};

use crate::alone::number_alone;
use crate::fronts::next_name;
use crate::lists::read_list;
use crate::words::next_word;
use farm_kinds::{Event, Name, NoMemory, Numbers};
use std::alloc::Global;

/// What `problem NAME N` asks.
#[tactic(auto, using(crate::proofs::LineLemmas::problem_line_by))]
fn problem_line(who: Name, rest: &[u8]) -> Option<Event>
    ensures { result ≡ problem_line who (words rest.now) }
{
    let Some((name, rest)) = next_name(rest) else {
        return None;
    };
    let tests = number_alone(rest)?;
    Some(Event::Problem { who, name, tests })
}

/// What `replace NAME N` asks.
#[tactic(auto, using(crate::proofs::LineLemmas::replace_line_by))]
fn replace_line(who: Name, rest: &[u8]) -> Option<Event>
    ensures { result ≡ replace_line who (words rest.now) }
{
    let Some((name, rest)) = next_name(rest) else {
        return None;
    };
    let tests = number_alone(rest)?;
    Some(Event::Replace { who, name, tests })
}

/// What `rejudge [LIST]` asks. Memory is taken only where each number of the list is read.
fn rejudge_line(alloc: Global, who: Name, rest: &[u8]) -> Result<Option<Event>, NoMemory>
    ensures read { IfOk result (λ read. read ≡ rejudge_line who (words rest.now)) }
    ensures wanted { OnErr result (0 < length (listed (rejudge_line who (words rest.now)))) }
{
    let Some((list, rest)) = next_word(rest) else {
        let list = Numbers::new(alloc);
        return Ok(Some(Event::Rejudge { who, list }));
    };
    if next_word(rest).is_some() {
        return Ok(None);
    }
    match read_list(alloc, list)? {
        Some(list) => Ok(Some(Event::Rejudge { who, list })),
        None => Ok(None),
    }
}

/// What `apply R` asks.
#[tactic(auto, using(crate::proofs::LineLemmas::number_line_by))]
fn apply_line(who: Name, rest: &[u8]) -> Option<Event>
    ensures { result ≡ number_line (event.Apply who) (words rest.now) }
{
    let rejudging = number_alone(rest)?;
    Some(Event::Apply { who, rejudging })
}

/// What `cancel R` asks.
#[tactic(auto, using(crate::proofs::LineLemmas::number_line_by))]
fn cancel_line(who: Name, rest: &[u8]) -> Option<Event>
    ensures { result ≡ number_line (event.Cancel who) (words rest.now) }
{
    let rejudging = number_alone(rest)?;
    Some(Event::Cancel { who, rejudging })
}

/// What `verify J` asks.
#[tactic(auto, using(crate::proofs::LineLemmas::number_line_by))]
fn verify_line(who: Name, rest: &[u8]) -> Option<Event>
    ensures { result ≡ number_line (event.Verify who) (words rest.now) }
{
    let judging = number_alone(rest)?;
    Some(Event::Verify { who, judging })
}

/// What `ask J` asks.
#[tactic(auto, using(crate::proofs::LineLemmas::number_line_by))]
fn ask_line(who: Name, rest: &[u8]) -> Option<Event>
    ensures { result ≡ number_line (event.Ask who) (words rest.now) }
{
    let judging = number_alone(rest)?;
    Some(Event::Ask { who, judging })
}

/// The event of a line of the jury that begins with this word.
pub fn jury_event_of(
    alloc: Global,
    who: Name,
    word: &[u8],
    rest: &[u8],
) -> Result<Option<Event>, NoMemory>
    ensures read { IfOk result (λ read. read ≡ jury_event_of who word.now (words rest.now)) }
    ensures wanted { OnErr result (0 < length (listed (jury_event_of who word.now (words rest.now)))) }
{
    if word == b"problem".as_slice() {
        Ok(problem_line(who, rest))
    } else if word == b"replace".as_slice() {
        Ok(replace_line(who, rest))
    } else if word == b"rejudge".as_slice() {
        rejudge_line(alloc, who, rest)
    } else if word == b"apply".as_slice() {
        Ok(apply_line(who, rest))
    } else if word == b"cancel".as_slice() {
        Ok(cancel_line(who, rest))
    } else if word == b"verify".as_slice() {
        Ok(verify_line(who, rest))
    } else if word == b"ask".as_slice() {
        Ok(ask_line(who, rest))
    } else {
        Ok(None)
    }
}
