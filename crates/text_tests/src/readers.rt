//! What is told of the rows of tests, by what reads them.

use crate::command_line_tests::command_told;
use crate::command_text_tests::{event_told, line_told};
use crate::farm_settings_tests::{copy_told, fault_told, lease_told, settings_told};
use crate::problem_settings_tests::{ini_told, limits_told, yaml_told};
use crate::rows::{bytes_of, check_told, parts_of};
use crate::wire_json_tests::body_told;
use farm_kinds::NoMemory;
use std::alloc::Global;
use std::process::Abort;

/// What reads the first part of a row.
#[derive(Clone, Copy)]
pub(crate) enum Reader {
    /// Words behind `farm`: the command.
    Command,
    /// A line: its event, written again.
    Line,
    /// A line: which event it is.
    Event,
    /// A body of a request, behind the word of its route and a bar: what it says.
    Body,
    /// A number of milliseconds and the instructions of a second: the limits of a run.
    Limits,
    /// The text of `farm.json`: its fault.
    SettingsFault,
    /// The text of `farm.json`: what the settings say.
    Settings,
    /// The text of `farm.json`: what a copy of the settings says.
    SettingsCopy,
    /// The text of `farm.json`: how long it is, and the lease.
    Lease,
    /// The text of `problem.yaml`: what it says.
    Yaml,
    /// The text of `domjudge-problem.ini`: the time limit.
    Ini,
}

/// What is told of the first part of a row.
fn told(alloc: Global, part: &str, reader: Reader) -> Result<Vec<u8>, NoMemory> {
    match reader {
        Reader::Command => command_told(alloc, part),
        Reader::Line => line_told(alloc, part),
        Reader::Event => event_told(alloc, part),
        Reader::Body => body_told(alloc, part),
        Reader::Limits => limits_told(alloc, part),
        _ => told_of_file(alloc, bytes_of(alloc, part)?.as_slice(), reader),
    }
}

/// What is told of the text of a file.
fn told_of_file(alloc: Global, text: &[u8], reader: Reader) -> Result<Vec<u8>, NoMemory> {
    match reader {
        Reader::SettingsFault => fault_told(alloc, text),
        Reader::Settings => settings_told(alloc, text),
        Reader::SettingsCopy => copy_told(alloc, text),
        Reader::Lease => lease_told(alloc, text),
        Reader::Yaml => yaml_told(alloc, text),
        _ => ini_told(alloc, text),
    }
}

fn check_row(rt: &impl Abort, alloc: Global, row: &str, reader: Reader) -> Result<(), NoMemory> {
    let (part, want) = parts_of(row);
    let want = bytes_of(alloc, want)?;
    let told = told(alloc, part, reader)?;
    check_told(rt, told.as_slice(), want.as_slice(), row);
    Ok(())
}

/// Compares what is told of the first part of each row with the second one. Both stand there as `bytes_of` reads them.
pub(crate) fn check_rows<R: Abort + AllocGlobal>(rt: &R, rows: &str, reader: Reader) {
    for row in rows.lines() {
        if check_row(rt, rt.alloc(), row, reader).is_err() {
            panic!(rt; "nothing is told of {row}");
        }
    }
}
