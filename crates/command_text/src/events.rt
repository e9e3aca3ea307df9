ghost use Rattle.std.specs.Prelude.{◌≡◌, ◌++◌, ◌∷◌, [], ℕ, List, length, take, OnOk, OnErr, IfOk, codes};
ghost use Rattle.std.specs.Fmt.{decimal};
ghost use Rattle.std.specs.List.{join_with_byte};
ghost use Rattle.farm_kinds.specs.Kinds.{name_of};
ghost use Rattle.farm_model.specs.Texts.{class_words, image_words, list_words, event_words, event_text};
ghost use Rattle.command_text.specs.Actor.{actor_text};
ghost use Rattle.command_text.specs.WordGroups.{jury_words};
ghost use Rattle.command_text.specs.WordList.{word_bytes, spaced, commas};

use crate::texts::{push, push_behind_comma, push_decimal, push_number, push_spaced, push_words};
use farm_kinds::{Class, Event, Kind, Name, NoMemory, Numbers, Text};
use itoa::Buffer;
use std::alloc::Global;

/// Puts who acts, with a space behind it, where it is not the jury.
/// At `NoMemory` a part of it may be there.
#[tactic(auto, using(crate::proofs::Joining::front_stays))]
fn push_actor(out: &mut Vec<u8>, who: Name) -> Result<(), NoMemory>
    ensures ok { OnOk result (out.new.items ≡ out.old.items ++ actor_text who) }
    ensures err { OnErr result (take (length out.old.items) out.new.items ≡ out.old.items) }
{
    if who.as_bytes() == Name::jury().as_bytes() {
        return Ok(());
    }
    push(out, b"@")?;
    push(out, who.as_bytes())?;
    push(out, b" ")
}

/// The word that a class is written as.
fn class_words(class: Class) -> &'static [&'static [u8]]
    ensures { word_bytes result.now ≡ class_words class }
{
    match class {
        Class::High => &[b"high"],
        Class::Normal => &[],
        Class::Low => &[b"low"],
    }
}

/// The word of a broken image.
fn image_words(broken: bool) -> &'static [&'static [u8]]
    ensures { word_bytes result.now ≡ image_words broken }
{
    if broken { &[b"broken"] } else { &[] }
}

/// Puts the words of a submission. At `NoMemory` a part of them may be there.
#[tactic(auto, using(crate::proofs::Joining::front_stays, crate::proofs::Joining::joined_more))]
fn push_submit(
    out: &mut Vec<u8>,
    problem: &Name,
    class: Class,
    broken: bool,
) -> Result<(), NoMemory>
    ensures ok { OnOk result (out.new.items ≡ out.old.items
        ++ join_with_byte 32 (codes "submit" ∷ problem.now ∷ class_words class ++ image_words broken)) }
    ensures err { OnErr result (take (length out.old.items) out.new.items ≡ out.old.items) }
{
    push_words(out, &[b"submit", problem.as_bytes()])?;
    push_spaced(out, class_words(class))?;
    push_spaced(out, image_words(broken))
}

/// Puts a word, a problem's name and how many tests it has.
fn push_tests(out: &mut Vec<u8>, word: &[u8], name: &Name, tests: u32) -> Result<(), NoMemory>
    ensures ok { OnOk result (out.new.items ≡ out.old.items
        ++ join_with_byte 32 (word.now ∷ name.now ∷ decimal tests ∷ [])) }
    ensures err { OnErr result (out.new.items ≡ out.old.items) }
{
    let mut digits = Buffer::new();
    push_words(
        out,
        &[word, name.as_bytes(), digits.format(tests).as_bytes()],
    )
}

/// Puts a word, a host and the numbers of a judging and a test.
fn push_task(
    out: &mut Vec<u8>,
    word: &[u8],
    host: &Name,
    judging: u32,
    test: u32,
) -> Result<(), NoMemory>
    ensures ok { OnOk result (out.new.items ≡ out.old.items
        ++ join_with_byte 32 (word.now ∷ host.now ∷ decimal judging ∷ decimal test ∷ [])) }
    ensures err { OnErr result (out.new.items ≡ out.old.items) }
{
    let mut first = Buffer::new();
    let mut second = Buffer::new();
    push_words(
        out,
        &[
            word,
            host.as_bytes(),
            first.format(judging).as_bytes(),
            second.format(test).as_bytes(),
        ],
    )
}

/// Puts a host's result of a test. At `NoMemory` a part of it may be there.
#[tactic(auto, using(crate::proofs::Joining::front_stays, crate::proofs::Joining::joined_more))]
fn push_result(
    out: &mut Vec<u8>,
    host: &Name,
    judging: u32,
    test: u32,
    kind: Kind,
) -> Result<(), NoMemory>
    ensures ok { OnOk result (out.new.items ≡ out.old.items
        ++ join_with_byte 32 (codes "result" ∷ host.now ∷ decimal judging ∷ decimal test ∷ name_of kind ∷ [])) }
    ensures err { OnErr result (take (length out.old.items) out.new.items ≡ out.old.items) }
{
    push_task(out, b"result", host, judging, test)?;
    push_spaced(out, &[kind.name().as_bytes()])
}

/// Puts a result from outside.
fn push_entry(out: &mut Vec<u8>, judging: u32, test: u32, kind: Kind) -> Result<(), NoMemory>
    ensures ok { OnOk result (out.new.items ≡ out.old.items
        ++ join_with_byte 32 (codes "record" ∷ decimal judging ∷ decimal test ∷ name_of kind ∷ [])) }
    ensures err { OnErr result (out.new.items ≡ out.old.items) }
{
    let mut first = Buffer::new();
    let mut second = Buffer::new();
    push_words(
        out,
        &[
            b"record",
            first.format(judging).as_bytes(),
            second.format(test).as_bytes(),
            kind.name().as_bytes(),
        ],
    )
}

/// Puts each number, with a comma before it. At `NoMemory` a part of them may be there.
#[tactic(auto, using(crate::proofs::Joining::commas_more, crate::proofs::Joining::kept_behind))]
fn push_commas(out: &mut Vec<u8>, numbers: &[u32]) -> Result<(), NoMemory>
    ensures ok { OnOk result (out.new.items ≡ out.old.items ++ commas numbers.now) }
    ensures err { OnErr result (take (length out.old.items) out.new.items ≡ out.old.items) }
{
    for number in numbers {
        push_behind_comma(out, *number)?;
    }
    Ok(())
}

/// Puts a space and the numbers joined by single commas, where there are any.
/// At `NoMemory` a part of them may be there.
#[tactic(auto, using(crate::proofs::Joining::front_stays))]
fn push_list(out: &mut Vec<u8>, numbers: &[u32]) -> Result<(), NoMemory>
    ensures ok { OnOk result (out.new.items ≡ out.old.items ++ spaced (list_words numbers.now)) }
    ensures err { OnErr result (take (length out.old.items) out.new.items ≡ out.old.items) }
{
    let Some((first, rest)) = numbers.split_first() else {
        return Ok(());
    };
    push(out, b" ")?;
    push_decimal(out, *first)?;
    push_commas(out, rest)
}

/// Puts the words of a rejudging. At `NoMemory` a part of them may be there.
#[tactic(auto, using(crate::proofs::Joining::front_stays, crate::proofs::Joining::joined_more))]
fn push_rejudge(out: &mut Vec<u8>, list: &Numbers) -> Result<(), NoMemory>
    ensures ok { OnOk result (out.new.items ≡ out.old.items
        ++ join_with_byte 32 (codes "rejudge" ∷ list_words list.now)) }
    ensures err { OnErr result (take (length out.old.items) out.new.items ≡ out.old.items) }
{
    push_words(out, &[b"rejudge"])?;
    push_list(out, list.as_slice())
}

/// Puts the words of a fetch.
fn push_fetch(out: &mut Vec<u8>, host: &Name, most: u8) -> Result<(), NoMemory>
    ensures ok { OnOk result (out.new.items ≡ out.old.items
        ++ join_with_byte 32 (codes "fetch" ∷ host.now ∷ decimal most ∷ [])) }
    ensures err { OnErr result (out.new.items ≡ out.old.items) }
{
    let mut digits = Buffer::new();
    push_words(
        out,
        &[b"fetch", host.as_bytes(), digits.format(most).as_bytes()],
    )
}

/// Puts the words of an event of the jury, without the name of who acts.
/// At `NoMemory` a part of them may be there.
fn push_jury_words(out: &mut Vec<u8>, event: &Event) -> Result<(), NoMemory>
    ensures ok { OnOk result (out.new.items ≡ out.old.items
        ++ join_with_byte 32 (jury_words event.now)) }
    ensures err { OnErr result (take (length out.old.items) out.new.items ≡ out.old.items) }
{
    match event {
        Event::Problem { name, tests, .. } => push_tests(out, b"problem", name, *tests),
        Event::Replace { name, tests, .. } => push_tests(out, b"replace", name, *tests),
        Event::Rejudge { list, .. } => push_rejudge(out, list),
        Event::Apply { rejudging, .. } => push_number(out, b"apply", u64::from(*rejudging)),
        Event::Cancel { rejudging, .. } => push_number(out, b"cancel", u64::from(*rejudging)),
        Event::Verify { judging, .. } => push_number(out, b"verify", u64::from(*judging)),
        Event::Ask { judging, .. } => push_number(out, b"ask", u64::from(*judging)),
        _ => Ok(()),
    }
}

/// Puts the words of an event, without the name of who acts.
/// At `NoMemory` a part of them may be there.
fn push_event_words(out: &mut Vec<u8>, event: &Event) -> Result<(), NoMemory>
    ensures ok { OnOk result (out.new.items ≡ out.old.items
        ++ join_with_byte 32 (event_words event.now)) }
    ensures err { OnErr result (take (length out.old.items) out.new.items ≡ out.old.items) }
{
    match event {
        Event::Host { name } => push_words(out, &[b"host", name.as_bytes()]),
        Event::Submit {
            problem,
            class,
            broken,
        } => push_submit(out, problem, *class, *broken),
        Event::Claim { host } => push_words(out, &[b"claim", host.as_bytes()]),
        Event::Fetch { host, most } => push_fetch(out, host, *most),
        Event::Result {
            host,
            judging,
            test,
            kind,
        } => push_result(out, host, *judging, *test, *kind),
        Event::Entry {
            judging,
            test,
            kind,
        } => push_entry(out, *judging, *test, *kind),
        Event::Renew {
            host,
            judging,
            test,
        } => push_task(out, b"renew", host, *judging, *test),
        Event::Tick { moment } => push_number(out, b"tick", *moment),
        Event::Down { host } => push_words(out, &[b"down", host.as_bytes()]),
        Event::Show { judging } => push_number(out, b"show", u64::from(*judging)),
        Event::Owner { judging } => push_number(out, b"owner", u64::from(*judging)),
        Event::Board => push_words(out, &[b"board"]),
        Event::Matrix { rejudging } => push_number(out, b"matrix", u64::from(*rejudging)),
        Event::Audit => push_words(out, &[b"audit"]),
        _ => push_jury_words(out, event),
    }
}

/// Puts who acts, and the words of an event. At `NoMemory` a part of them may be there.
#[tactic(auto, using(crate::proofs::Joining::front_stays, crate::proofs::ActorLemmas::event_text_by))]
fn push_actor_and_words(out: &mut Vec<u8>, event: &Event) -> Result<(), NoMemory>
    ensures ok { OnOk result (out.new.items ≡ out.old.items ++ event_text event.now) }
    ensures err { OnErr result (take (length out.old.items) out.new.items ≡ out.old.items) }
{
    push_actor(out, event.jury_actor().unwrap_or(Name::jury()))?;
    push_event_words(out, event)
}

/// Puts an event as a line, without its line feed, behind what is there.
/// At `NoMemory` nothing changes.
pub fn push_event(out: &mut Vec<u8>, event: &Event) -> Result<(), NoMemory>
    ensures ok { OnOk result (out.new.items ≡ out.old.items ++ event_text event.now) }
    ensures err { OnErr result (out.new.items ≡ out.old.items) }
{
    let kept = out.len();
    let pushed = push_actor_and_words(out, event);
    if pushed.is_err() {
        out.truncate(kept);
    }
    pushed
}

/// An event as a line, without its line feed.
pub fn write_event(alloc: Global, event: &Event) -> Result<Text, NoMemory>
    ensures { IfOk result (λ text. text ≡ event_text event.now) }
{
    let mut text = Vec::new(alloc);
    push_event(&mut text, event)?;
    Ok(Text::from_vec(text))
}

/// The words of an event joined by single spaces, without the name of who acts.
pub fn write_event_words(alloc: Global, event: &Event) -> Result<Text, NoMemory>
    ensures { IfOk result (λ text. text ≡ join_with_byte 32 (event_words event.now)) }
{
    let mut text = Vec::new(alloc);
    push_event_words(&mut text, event)?;
    Ok(Text::from_vec(text))
}
