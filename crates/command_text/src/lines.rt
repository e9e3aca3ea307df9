ghost use Rattle.std.specs.Prelude.{◌≡◌, ◌≢◌, ◌<◌, List, ℕ, length, Result, Err, IfOk, OnErr, false, codes};
ghost use Rattle.std.specs.Str.{bytes_eq};
ghost use Rattle.farm_kinds.specs.Names.{jury};
ghost use Rattle.farm_kinds.specs.declared.events.Event.TheVariants as event;
ghost use Rattle.farm_kinds.specs.declared.events.LineFault.TheVariants as fault;
ghost use Rattle.farm_model.specs.Words.{words};
ghost use Rattle.farm_model.specs.Grammar.{class_named, broken_words, submit_words, submit_line, tick_line, number_line, host_event_of, other_event_of, unnamed_event_of, named_event_of, event_of, is_comment, event_or_bad, line_read};
ghost use Rattle.command_text.specs.Recorded.{recorded_of, entry_of};
ghost use Rattle.command_text.specs.Listed.{listed, ListsSome};

use crate::alone::{bare_line, kind_alone, number_alone};
use crate::fronts::next_number;
use crate::hosts::host_event_of;
use crate::jury::jury_event_of;
use crate::numbers::read_moment;
use crate::words::next_word;
use farm_kinds::{Class, Event, Kind, LineFault, Name, NoMemory};
use std::alloc::Global;

/// The class of this name.
fn class_named(word: &[u8]) -> Option<Class>
    ensures { result ≡ class_named word.now }
{
    if word == b"high".as_slice() {
        Some(Class::High)
    } else if word == b"normal".as_slice() {
        Some(Class::Normal)
    } else if word == b"low".as_slice() {
        Some(Class::Low)
    } else {
        None
    }
}

/// Whether the line says `broken`. None where it says anything else.
fn broken_words(rest: &[u8]) -> Option<bool>
    ensures { result ≡ broken_words (words rest.now) }
{
    let Some((word, rest)) = next_word(rest) else {
        return Some(false);
    };
    if next_word(rest).is_some() {
        return None;
    }
    if word == b"broken".as_slice() {
        Some(true)
    } else {
        None
    }
}

/// The class, `normal` where none is said, and whether the image is broken.
fn submit_words(text: &[u8]) -> Option<(Class, bool)>
    ensures { result ≡ submit_words (words text.now) }
{
    let Some((word, rest)) = next_word(text) else {
        return Some((Class::Normal, false));
    };
    match class_named(word) {
        Some(class) => Some((class, broken_words(rest)?)),
        None => Some((Class::Normal, broken_words(text)?)),
    }
}

/// What `submit NAME [high or normal or low] [broken]` asks.
fn submit_line(rest: &[u8]) -> Option<Event>
    ensures { result ≡ submit_line (words rest.now) }
{
    let (name, rest) = next_word(rest)?;
    let problem = Name::read(name)?;
    let (class, broken) = submit_words(rest)?;
    Some(Event::Submit {
        problem,
        class,
        broken,
    })
}

/// A result from outside.
#[derive(Clone, Copy)]
struct Recorded {
    judging: u32,
    test: u32,
    kind: Kind,
}

impl Recorded {
    /// The event that it is.
    fn event(self) -> Event
        ensures { result ≡ entry_of self }
    {
        Event::Entry {
            judging: self.judging,
            test: self.test,
            kind: self.kind,
        }
    }
}

/// What `record J T KIND` says.
fn read_recorded(rest: &[u8]) -> Option<Recorded>
    ensures { result ≡ recorded_of (words rest.now) }
{
    let (judging, rest) = next_number(rest)?;
    let (test, rest) = next_number(rest)?;
    let kind = kind_alone(rest)?;
    Some(Recorded {
        judging,
        test,
        kind,
    })
}

/// What `tick N` asks.
fn tick_line(rest: &[u8]) -> Option<Event>
    ensures { result ≡ tick_line (words rest.now) }
{
    let (moment, rest) = next_word(rest)?;
    if next_word(rest).is_some() {
        return None;
    }
    let moment = read_moment(moment)?;
    Some(Event::Tick { moment })
}

/// What `owner J` asks.
#[tactic(auto, using(crate::proofs::LineLemmas::number_line_by))]
fn owner_line(rest: &[u8]) -> Option<Event>
    ensures { result ≡ number_line event.Owner (words rest.now) }
{
    let judging = number_alone(rest)?;
    Some(Event::Owner { judging })
}

/// What `matrix R` asks.
#[tactic(auto, using(crate::proofs::LineLemmas::number_line_by))]
fn matrix_line(rest: &[u8]) -> Option<Event>
    ensures { result ≡ number_line event.Matrix (words rest.now) }
{
    let rejudging = number_alone(rest)?;
    Some(Event::Matrix { rejudging })
}

/// The event of a line that begins with this word, and is no host's and none of the jury's. `record` and `show` are
/// read before.
fn other_event_of(word: &[u8], rest: &[u8]) -> Option<Event>
    requires no_record { bytes_eq word.now (codes "record") ≡ false }
    requires no_show { bytes_eq word.now (codes "show") ≡ false }
    ensures { result ≡ other_event_of word.now (words rest.now) }
{
    if word == b"submit".as_slice() {
        submit_line(rest)
    } else if word == b"tick".as_slice() {
        tick_line(rest)
    } else if word == b"owner".as_slice() {
        owner_line(rest)
    } else if word == b"board".as_slice() {
        bare_line(Event::Board, rest)
    } else if word == b"matrix".as_slice() {
        matrix_line(rest)
    } else if word == b"audit".as_slice() {
        bare_line(Event::Audit, rest)
    } else {
        None
    }
}

/// The event of a line without `@NAME` that begins with this word. Where it is the jury's, `jury` acts.
///
/// No word begins lines of two kinds, so the most frequent lines are read first.
#[tactic(auto, using(crate::proofs::LineLemmas::other_first, crate::proofs::LineLemmas::host_then, crate::proofs::LineLemmas::jury_last))]
fn unnamed_event_of(alloc: Global, word: &[u8], rest: &[u8]) -> Result<Option<Event>, NoMemory>
    requires no_record { bytes_eq word.now (codes "record") ≡ false }
    requires no_show { bytes_eq word.now (codes "show") ≡ false }
    ensures read { IfOk result (λ read. read ≡ unnamed_event_of word.now (words rest.now)) }
    ensures wanted { OnErr result (0 < length (listed (unnamed_event_of word.now (words rest.now)))) }
{
    let other = other_event_of(word, rest);
    if other.is_some() {
        return Ok(other);
    }
    let host = host_event_of(word, rest);
    if host.is_some() {
        return Ok(host);
    }
    jury_event_of(alloc, Name::jury(), word, rest)
}

/// The event of a line of the jury behind the name of who acts.
fn named_event_of(alloc: Global, name: &[u8], rest: &[u8]) -> Result<Option<Event>, NoMemory>
    ensures read { IfOk result (λ read. read ≡ named_event_of name.now (words rest.now)) }
    ensures wanted { OnErr result (0 < length (listed (named_event_of name.now (words rest.now)))) }
{
    let Some((word, rest)) = next_word(rest) else {
        return Ok(None);
    };
    let Some(who) = Name::read(name) else {
        return Ok(None);
    };
    jury_event_of(alloc, who, word, rest)
}

/// The event of a line that begins with this word.
fn event_of(alloc: Global, word: &[u8], rest: &[u8]) -> Result<Option<Event>, NoMemory>
    requires no_record { bytes_eq word.now (codes "record") ≡ false }
    requires no_show { bytes_eq word.now (codes "show") ≡ false }
    ensures read { IfOk result (λ read. read ≡ event_of word.now (words rest.now)) }
    ensures wanted { OnErr result (0 < length (listed (event_of word.now (words rest.now)))) }
{
    match word {
        [] => Ok(None),
        [b'@', name @ ..] => named_event_of(alloc, name, rest),
        _ => unnamed_event_of(alloc, word, rest),
    }
}

/// Whether the word begins a comment.
fn is_comment(word: &[u8]) -> bool
    ensures { result ≡ is_comment word.now }
{
    match word {
        [] => false,
        [first, ..] => *first == b'#',
    }
}

/// What a line asks that begins with this word, and is no comment.
fn read_event(alloc: Global, word: &[u8], rest: &[u8]) -> Result<Option<Event>, LineFault>
    requires no_record { bytes_eq word.now (codes "record") ≡ false }
    requires no_show { bytes_eq word.now (codes "show") ≡ false }
    ensures read { result ≢ Err fault.NoMemory → result ≡ event_or_bad (event_of word.now (words rest.now)) }
    ensures wanted { result ≡ Err fault.NoMemory → 0 < length (listed (event_of word.now (words rest.now))) }
{
    match event_of(alloc, word, rest) {
        Ok(Some(event)) => Ok(Some(event)),
        Ok(None) => Err(LineFault::BadLine),
        Err(NoMemory) => Err(LineFault::NoMemory),
    }
}

/// What the line asks: None for an empty line or a comment. The most frequent lines are read first.
///
/// Memory is taken for the list of a rejudging only, once each of its numbers is read.
#[tactic(auto, using(crate::proofs::LineLemmas::record_first, crate::proofs::LineLemmas::show_first))]
pub fn read_line(alloc: Global, text: &[u8]) -> Result<Option<Event>, LineFault>
    ensures read { result ≢ Err fault.NoMemory → result ≡ line_read text.now }
    ensures wanted { result ≡ Err fault.NoMemory → ListsSome (line_read text.now) }
{
    let Some((word, rest)) = next_word(text) else {
        return Ok(None);
    };
    if word == b"record".as_slice() {
        let Some(said) = read_recorded(rest) else {
            return Err(LineFault::BadLine);
        };
        return Ok(Some(said.event()));
    }
    if word == b"show".as_slice() {
        let Some(judging) = number_alone(rest) else {
            return Err(LineFault::BadLine);
        };
        return Ok(Some(Event::Show { judging }));
    }
    if is_comment(word) {
        return Ok(None);
    }
    read_event(alloc, word, rest)
}
