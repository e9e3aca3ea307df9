//! Notes on `problem.yaml` and `domjudge-problem.ini`.
ghost use Rattle.std.specs.Prelude.{◌≡◌, ◌≤◌, ◌++◌, ◌∷◌, [], IfOk, IfSome, OnOk, length, option_map};
ghost use Rattle.package_notes.specs.Notes.{ini_note, ini_notes, ini_notes_in, limit_notes, memory_notes, output_notes, time_notes, yaml_note, yaml_notes};
ghost use Rattle.package_notes.specs.Package.{yaml_notes_in};

use crate::notes::Note;
use farm_kinds::NoMemory;
use problem_settings::{
    Section, Sizes, SkippedKey, has_limit, ini_skipped, said_limits, yaml_skipped,
};
use std::alloc::Global;

/// The notes on the text of `problem.yaml`, where it is there.
pub(crate) fn yaml_notes_in(alloc: Global, text: Option<&[u8]>) -> Result<Vec<Note>, NoMemory>
    requires { IfSome text (λ text. length text.now ≤ 16777216) }
    ensures { IfOk result (λ notes. notes.items ≡ yaml_notes_in (option_map (λ text. text.now) text.entry)) }
{
    match text {
        Some(text) => yaml_notes(alloc, text),
        None => Ok(Vec::new(alloc)),
    }
}

/// The notes on the text of `problem.yaml`: each key that is not read, in the order of the lines, and then the limits that
/// are cut down.
fn yaml_notes(alloc: Global, text: &[u8]) -> Result<Vec<Note>, NoMemory>
    requires { length text.now ≤ 16777216 }
    ensures { IfOk result (λ notes. notes.items ≡ yaml_notes text.now) }
{
    let mut notes = Vec::new(alloc);
    for skipped in yaml_skipped(alloc, text)? {
        push_note(&mut notes, yaml_note(skipped))?;
    }
    push_limits(&mut notes, said_limits(text))?;
    Ok(notes)
}

/// The notes on the text of `domjudge-problem.ini`, which need not be there: each key that is not read, in the order of the
/// lines, and then that nothing sets the time limit, where nothing does.
pub(crate) fn ini_notes(alloc: Global, text: Option<&[u8]>) -> Result<Vec<Note>, NoMemory>
    requires { IfSome text (λ text. length text.now ≤ 16777216) }
    ensures { IfOk result (λ notes. notes.items ≡ ini_notes_in (option_map (λ text. text.now) text.entry)) }
{
    match text {
        Some(text) => notes_on(alloc, text),
        None => {
            let mut notes = Vec::new(alloc);
            push_note(&mut notes, Note::StandardTime)?;
            Ok(notes)
        }
    }
}

/// The notes on the text of `domjudge-problem.ini`.
fn notes_on(alloc: Global, text: &[u8]) -> Result<Vec<Note>, NoMemory>
    requires { length text.now ≤ 16777216 }
    ensures { IfOk result (λ notes. notes.items ≡ ini_notes text.now) }
{
    let mut notes = Vec::new(alloc);
    for skipped in ini_skipped(alloc, text)? {
        push_note(&mut notes, ini_note(skipped))?;
    }
    push_time(&mut notes, has_limit(text))?;
    Ok(notes)
}

/// Adds a note.
pub(crate) fn push_note(notes: &mut Vec<Note>, note: Note) -> Result<(), NoMemory>
    ensures { OnOk result (notes.new.items ≡ notes.old.items ++ note ∷ []) }
{
    notes.push(note).map_err(|_| NoMemory)
}

/// The note on a key of `problem.yaml`.
fn yaml_note(skipped: SkippedKey) -> Note
    ensures { result ≡ yaml_note skipped }
{
    let SkippedKey { line, section, key } = skipped;
    match section {
        Section::Top => Note::YamlKey { line, key },
        Section::Limits => Note::LimitKey { line, key },
    }
}

/// The note on a key of `domjudge-problem.ini`.
fn ini_note(skipped: SkippedKey) -> Note
    ensures { result ≡ ini_note skipped }
{
    let SkippedKey { line, key, .. } = skipped;
    Note::IniKey { line, key }
}

/// Adds the notes on limits that are cut down.
fn push_limits(notes: &mut Vec<Note>, said: Sizes) -> Result<(), NoMemory>
    ensures { OnOk result (notes.new.items ≡ notes.old.items ++ limit_notes said) }
{
    push_memory(notes, said.memory)?;
    push_output(notes, said.output)
}

fn push_memory(notes: &mut Vec<Note>, said: Option<u32>) -> Result<(), NoMemory>
    ensures { OnOk result (notes.new.items ≡ notes.old.items ++ memory_notes said) }
{
    let Some(said) = said else {
        return Ok(());
    };
    if said <= 256 {
        return Ok(());
    }
    push_note(notes, Note::Memory { said })
}

fn push_output(notes: &mut Vec<Note>, said: Option<u32>) -> Result<(), NoMemory>
    ensures { OnOk result (notes.new.items ≡ notes.old.items ++ output_notes said) }
{
    let Some(said) = said else {
        return Ok(());
    };
    if said <= 64 {
        return Ok(());
    }
    push_note(notes, Note::Output { said })
}

/// Adds the note that nothing sets the time limit, where nothing does.
fn push_time(notes: &mut Vec<Note>, is_set: bool) -> Result<(), NoMemory>
    ensures { OnOk result (notes.new.items ≡ notes.old.items ++ time_notes is_set) }
{
    if is_set {
        return Ok(());
    }
    push_note(notes, Note::StandardTime)
}
