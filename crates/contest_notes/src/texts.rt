//! What a person is told of a note.
use crate::mistakes::shown;
use crate::notes::ContestNote;
use farm_kinds::{Name, Text};
use package_notes::{Note, note_text};
use program_notes::{ProgramFault, program_fault_text};
use std::alloc::{AllocError, Global};

/// What is told of the note, without a line end.
pub(crate) fn contest_note_text(alloc: Global, note: &ContestNote) -> Result<String, AllocError> {
    match note {
        ContestNote::Package { short, note } => package_text(alloc, short, note),
        ContestNote::LostMode { name } => mode_text(alloc, *name),
        ContestNote::NoProgram {
            number,
            file,
            fault,
            head,
        } => program_text(alloc, number, file, *fault, head),
    }
}

fn package_text(alloc: Global, short: &Text, note: &Note) -> Result<String, AllocError> {
    let short = shown(short.as_slice());
    let text = note_text(alloc, note)?;
    format!(in alloc; "problem {short}: {text}")
}

fn mode_text(alloc: Global, name: Name) -> Result<String, AllocError> {
    let name = shown(name.as_bytes());
    format!(in alloc; "farm.json: problem_modes: there is no problem \"{name}\" in problems/")
}

fn program_text(
    alloc: Global,
    number: &Text,
    file: &Text,
    fault: ProgramFault,
    head: &Text,
) -> Result<String, AllocError> {
    let (number, file) = (shown(number.as_slice()), shown(file.as_slice()));
    let fault = program_fault_text(alloc, fault, head.as_slice())?;
    format!(in alloc; "submission {number}: submissions/{file} {fault}; it is a compiler-error")
}
