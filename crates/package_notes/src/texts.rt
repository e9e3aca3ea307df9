//! The texts of notes.
use crate::notes::Note;
use farm_kinds::Text;
use std::alloc::{AllocError, Global};
use std::str;

/// What a person is told of a note: the file, and its line where there is one, a colon and the rest, without a line end.
pub fn note_text(alloc: Global, note: &Note) -> Result<String, AllocError> {
    match note {
        Note::YamlKey { line, key } => skipped(alloc, "problem.yaml", *line, key),
        Note::LimitKey { line, key } => skipped_limit(alloc, *line, key),
        Note::Memory { said } => cut_down(alloc, "memory", *said, 256),
        Note::Output { said } => cut_down(alloc, "output", *said, 64),
        Note::IniKey { line, key } => skipped(alloc, "domjudge-problem.ini", *line, key),
        Note::StandardTime => String::from_str(
            alloc,
            "domjudge-problem.ini: nothing sets timelimit, so it is 1 second",
        ),
        Note::LoneAnswer { name } => unread(alloc, name, "there is no input beside this answer"),
        Note::OtherFile { name } => unread(alloc, name, "it ends neither in .in nor in .ans"),
        Note::OutsideFile { name } => {
            unread(
                alloc,
                name,
                "it lies neither in data/sample nor in data/secret",
            )
        }
        Note::OtherFolder { name } => {
            let name = shown(alloc, name)?;
            format!(in alloc;
                "data/{name}: it is neither data/sample nor data/secret, so it is not read"
            )
        }
        Note::ElfValidator { name } => {
            let name = shown(alloc, name)?;
            format!(in alloc; "{name}: it begins as an ELF file, and is run as a raw image")
        }
        Note::Validators => String::from_str(
            alloc,
            "output_validators: problem.yaml does not set validation to custom, so it is not read",
        ),
    }
}

/// That a key of a file is not read.
fn skipped(alloc: Global, file: &str, line: u32, key: &Text) -> Result<String, AllocError> {
    let key = shown(alloc, key)?;
    format!(in alloc; "{file} line {line}: {key} is not read")
}

/// That a key under `limits` is not read.
fn skipped_limit(alloc: Global, line: u32, key: &Text) -> Result<String, AllocError> {
    let key = shown(alloc, key)?;
    format!(in alloc; "problem.yaml line {line}: limits: {key} is not read")
}

/// That a limit of `said` MiB is cut down to `most`, the most that there is.
fn cut_down(alloc: Global, limit: &str, said: u32, most: u32) -> Result<String, AllocError> {
    format!(in alloc;
        "problem.yaml: {limit} of {said} MiB is cut down to {most}, the most that there is"
    )
}

/// That a file is not read, and why.
fn unread(alloc: Global, name: &Text, why: &str) -> Result<String, AllocError> {
    let name = shown(alloc, name)?;
    format!(in alloc; "{name}: {why}, so it is not read")
}

/// A name or a key as text, in which each control character is `?`.
pub(crate) fn shown(alloc: Global, bytes: &Text) -> Result<String, AllocError> {
    let Ok(name) = str::from_utf8(bytes.as_slice()) else {
        return String::from_str(alloc, "a name that is no UTF-8");
    };
    let mut text = String::new(alloc);
    for c in name.chars() {
        text.push(if c.is_control() { '?' } else { c })?;
    }
    Ok(text)
}
