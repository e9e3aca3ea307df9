//! `package_info FOLDER`: reads a problem package and says what it has, with notes on what of it is skipped, or its first
//! fault.
#![tactic(auto)]

mod report;
mod words;

use crate::report::report;
use crate::words::{Asked, read_words};
use farm_kinds::Text;
use farm_tree::Tree;
use package_folder::{Package, PackageFault, in_folder, read_package};
use package_notes::{fault_text, note_text, package_notes};
use people::Plain;
use std::alloc::AllocError;
use std::io::Write;
use std::process::ExitCode;
use std::{env, io};
use watched_tree::{Watched, unread_reason};

/// How many instructions a second of time limit stands for, by the standard settings of a contest.
const INSTRUCTIONS_PER_SECOND: u32 = 10_000_000;

fn main(rt: HostRuntime) -> ExitCode {
    match run(&rt) {
        Ok(status) => ExitCode::from(status),
        Err(error) => {
            let _ = eprintln!(rt; "package_info: {error}");
            ExitCode::from(1)
        }
    }
}

/// Reads the package that the words name, and gives the status.
fn run(rt: &HostRuntime) -> io::Result<u8> {
    let words = env::args(rt)?.collect::<Vec<String>>(rt.alloc())?;
    match read_words(rt.alloc(), words.as_slice())? {
        Asked::Package(folder) => tell(rt, folder),
        Asked::Help(text) => {
            io::writer(rt).write_all(text.as_bytes())?;
            Ok(0)
        }
        Asked::Wrong(text) => {
            rt.eprint(text.as_str())?;
            Ok(2)
        }
    }
}

/// Reads the package in the folder at the path, tells what it has, and gives the status.
fn tell(rt: &HostRuntime, path: &str) -> io::Result<u8> {
    let mut tree = Watched::new(rt, rt.alloc());
    match read_package(rt.alloc(), &mut tree, path, INSTRUCTIONS_PER_SECOND) {
        Ok(package) => {
            tell_package(rt, &package)?;
            tell_notes(rt, &mut tree, path)?;
            Ok(0)
        }
        Err(fault) => tell_fault(rt, &mut tree, path, &fault),
    }
}

/// Prints what a package has.
fn tell_package(rt: &HostRuntime, package: &Package) -> io::Result<()> {
    let text = report(rt.alloc(), package)?;
    io::writer(rt).write_all(text.as_slice())
}

/// Says on standard error what of the package at the path is skipped.
fn tell_notes<'a>(
    rt: &'a HostRuntime,
    tree: &mut Watched<&'a HostRuntime>,
    path: &str,
) -> io::Result<()> {
    let notes = match package_notes(rt.alloc(), tree, path) {
        Ok(notes) => notes,
        Err(fault) => {
            let text = text_of(rt, tree, &fault, &[])?;
            return tell_note(rt, text.as_str());
        }
    };
    for note in &notes {
        let text = note_text(rt.alloc(), note)?;
        tell_note(rt, text.as_str())?;
    }
    Ok(())
}

fn tell_note(rt: &HostRuntime, note: &str) -> io::Result<()> {
    let note = Plain(note);
    eprintln!(rt; "note: {note}")
}

/// Says why the folder at the path is no package.
fn tell_fault<'a>(
    rt: &'a HostRuntime,
    tree: &mut Watched<&'a HostRuntime>,
    path: &str,
    fault: &PackageFault,
) -> io::Result<u8> {
    let file = in_folder(rt.alloc(), path, "problem.yaml").map_err(|_| AllocError)?;
    let yaml = tree.read(file.as_str()).unwrap_or(Text::new(rt.alloc()));
    let text = text_of(rt, tree, fault, yaml.as_slice())?;
    let (path, text) = (Plain(path), Plain(text.as_str()));
    eprintln!(rt; "package_info: {path}: {text}")?;
    Ok(1)
}

/// What is told of a fault: of a file or folder that could not be read which one it is, and why.
fn text_of<'a>(
    rt: &'a HostRuntime,
    tree: &Watched<&'a HostRuntime>,
    fault: &PackageFault,
    yaml: &[u8],
) -> Result<String, AllocError> {
    let text = fault_text(rt.alloc(), fault, yaml)?;
    let (PackageFault::Tree, Some(path)) = (fault, tree.failed()) else {
        return Ok(text);
    };
    match unread_reason(&rt, rt.alloc(), path)? {
        Some(reason) => format!(in rt.alloc(); "{text}: {reason}"),
        None => Ok(text),
    }
}
