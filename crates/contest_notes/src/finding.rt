//! The notes on a contest: those on its packages, on its modes, and on its submissions.
ghost use Rattle.std.specs.Prelude.{◌≡◌, ◌≤◌, ◌∷◌, [], ◌++◌, IfOk, IfErr, OnOk, codes, map, string_bytes};
ghost use Rattle.std.specs.Str.{bytes_eq};
ghost use Rattle.std.specs.List.{cons_option, filter_map, list_any};
ghost use Rattle.farm_io.specs.Streams.{Rose};
ghost use Rattle.farm_tree.specs.Listing.{in_folder};
ghost use Rattle.package_folder.specs.Paths.{texts};
ghost use Rattle.package_folder.specs.Told.{WhereTold};
ghost use Rattle.package_notes.specs.Package.{package_notes};
ghost use Rattle.contest_folder.specs.Contest.{settings_in};
ghost use Rattle.contest_folder.specs.Telling.{IsStop};
ghost use Rattle.contest_notes.specs.Notes.{contest_notes, modes_said, note_of_mode, notes_of_modes, notes_of_package, notes_of_packages};
ghost use Rattle.contest_notes.specs.declared.notes.ContestNote.TheVariants as note;

use crate::notes::ContestNote;
use crate::programs::notes_of_list;
use contest_folder::{ContestFault, read_contest_settings, read_shorts};
use farm_kinds::{NamedMode, NoMemory};
use farm_tree::Tree;
use package_folder::{PackageFault, copy, in_folder};
use package_notes::{Note, package_notes};
use std::alloc::Global;

/// The notes on the contest in the folder at the path: those on its packages in the order of their names, then on the names in
/// `problem_modes` that no problem has, and then on the submissions whose files are no programs, in the order of their lines. Of
/// a folder that is no contest there are the same, and none that stand on what is faulty.
///
/// Of the faults only `Tree` and `NoMemory` come.
#[tactic(auto, unfolding(crate::specs::Notes::contest_notes))]
pub fn contest_notes<T: Tree>(
    alloc: Global,
    tree: &mut T,
    path: &str,
) -> Result<Vec<ContestNote>, ContestFault>
    ensures notes { WhereTold (T.files tree.old) (λ files. IfOk result (λ notes. notes.items ≡ contest_notes files path.now)) }
    ensures stopped { IfErr result IsStop }
    ensures same { T.files tree.new ≡ T.files tree.old }
    ensures later { T.faults tree.old ≤ T.faults tree.new }
    ensures cause { result ≡ Err ContestFault.Tree → Rose (T.faults tree.old) (T.faults tree.new) }
{
    let problems = in_folder(alloc, path, "problems")?;
    let shorts = read_shorts(alloc, tree, problems.as_str())?;
    let mut notes = notes_of_packages(alloc, tree, problems.as_str(), shorts.as_slice())?;
    let modes = notes_of_modes(alloc, tree, path, shorts.as_slice())?;
    append(&mut notes, modes)?;
    let programs = notes_of_list(alloc, tree, path)?;
    append(&mut notes, programs)?;
    Ok(notes)
}

/// The notes on the packages of these names in the folder, one package after another.
fn notes_of_packages<T: Tree>(
    alloc: Global,
    tree: &mut T,
    folder: &str,
    shorts: &[String],
) -> Result<Vec<ContestNote>, ContestFault>
    ensures notes { WhereTold (T.files tree.old) (λ files. IfOk result (λ notes. notes.items ≡ notes_of_packages files folder.now (texts shorts.now))) }
    ensures stopped { IfErr result IsStop }
    ensures same { T.files tree.new ≡ T.files tree.old }
    ensures later { T.faults tree.old ≤ T.faults tree.new }
    ensures cause { result ≡ Err ContestFault.Tree → Rose (T.faults tree.old) (T.faults tree.new) }
{
    let mut notes = Vec::new(alloc);
    for short in shorts {
        let more = notes_of_package(alloc, tree, folder, short.as_str())?;
        append(&mut notes, more)?;
    }
    Ok(notes)
}

/// The notes on the package of this name in the folder.
fn notes_of_package<T: Tree>(
    alloc: Global,
    tree: &mut T,
    folder: &str,
    short: &str,
) -> Result<Vec<ContestNote>, ContestFault>
    ensures notes { WhereTold (T.files tree.old) (λ files. IfOk result (λ notes. notes.items ≡ notes_of_package files folder.now short.now)) }
    ensures stopped { IfErr result IsStop }
    ensures same { T.files tree.new ≡ T.files tree.old }
    ensures later { T.faults tree.old ≤ T.faults tree.new }
    ensures cause { result ≡ Err ContestFault.Tree → Rose (T.faults tree.old) (T.faults tree.new) }
{
    let path = in_folder(alloc, folder, short)?;
    let notes = found_in(alloc, tree, path.as_str())?;
    Ok(named(alloc, short, notes)?)
}

/// The notes on the package in the folder at the path.
fn found_in<T: Tree>(alloc: Global, tree: &mut T, path: &str) -> Result<Vec<Note>, ContestFault>
    ensures notes { WhereTold (T.files tree.old) (λ files. IfOk result (λ notes. notes.items ≡ package_notes files path.now)) }
    ensures stopped { IfErr result IsStop }
    ensures same { T.files tree.new ≡ T.files tree.old }
    ensures later { T.faults tree.old ≤ T.faults tree.new }
    ensures cause { result ≡ Err ContestFault.Tree → Rose (T.faults tree.old) (T.faults tree.new) }
{
    match package_notes(alloc, tree, path) {
        Ok(notes) => Ok(notes),
        Err(PackageFault::Tree) => Err(ContestFault::Tree),
        // no other fault comes than this one
        Err(_) => Err(ContestFault::NoMemory),
    }
}

/// The notes on a package as those on the problem of this name.
fn named(alloc: Global, short: &str, notes: Vec<Note>) -> Result<Vec<ContestNote>, NoMemory>
    ensures { IfOk result (λ all. all.items ≡ map (note.Package short.now) notes.items) }
{
    let mut all = Vec::new(alloc);
    for note in notes {
        let short = copy(alloc, short.as_bytes())?;
        push_note(&mut all, ContestNote::Package { short, note })?;
    }
    Ok(all)
}

/// The notes on the modes that `farm.json` says, where these are the problems.
fn notes_of_modes<T: Tree>(
    alloc: Global,
    tree: &mut T,
    path: &str,
    shorts: &[String],
) -> Result<Vec<ContestNote>, ContestFault>
    ensures notes { WhereTold (T.files tree.old) (λ files. IfOk result (λ notes. notes.items ≡ notes_of_modes (texts shorts.now) (modes_said (settings_in files path.now)))) }
    ensures stopped { IfErr result IsStop }
    ensures same { T.files tree.new ≡ T.files tree.old }
    ensures later { T.faults tree.old ≤ T.faults tree.new }
    ensures cause { result ≡ Err ContestFault.Tree → Rose (T.faults tree.old) (T.faults tree.new) }
{
    match read_contest_settings(alloc, tree, path) {
        Ok(settings) => Ok(lost_modes(alloc, settings.modes().as_slice(), shorts)?),
        Err(ContestFault::Tree) => Err(ContestFault::Tree),
        Err(ContestFault::NoMemory) => Err(ContestFault::NoMemory),
        Err(_) => Ok(Vec::new(alloc)),
    }
}

/// The notes on those of the modes that are of none of the problems.
fn lost_modes(
    alloc: Global,
    modes: &[NamedMode],
    shorts: &[String],
) -> Result<Vec<ContestNote>, NoMemory>
    ensures { IfOk result (λ notes. notes.items ≡ notes_of_modes (texts shorts.now) modes.now) }
{
    let mut notes = Vec::new(alloc);
    for mode in modes {
        push_some(&mut notes, note_of_mode(shorts, mode))?;
    }
    Ok(notes)
}

/// The note on the mode of a problem, where there is none of this name.
#[tactic(auto, using(package_folder::proofs::Strings::any_texts))]
fn note_of_mode(shorts: &[String], mode: &NamedMode) -> Option<ContestNote>
    ensures { result ≡ note_of_mode (texts shorts.now) mode.now }
{
    if has_name(shorts, mode.name.as_bytes()) {
        return None;
    }
    Some(ContestNote::LostMode { name: mode.name })
}

/// Whether one of the problems has the name.
fn has_name(shorts: &[String], name: &[u8]) -> bool
    ensures { result ≡ list_any (λ short. bytes_eq name.now (string_bytes short)) shorts.now }
{
    shorts.iter().any(|short| is_named(short.as_str(), name))
}

fn is_named(short: &str, name: &[u8]) -> bool
    ensures { result ≡ bytes_eq name.now short.now }
{
    name == short.as_bytes()
}

/// Adds a note.
fn push_note(notes: &mut Vec<ContestNote>, note: ContestNote) -> Result<(), NoMemory>
    ensures { OnOk result (notes.new.items ≡ notes.old.items ++ note ∷ []) }
{
    notes.push(note).map_err(|_| NoMemory)
}

/// Adds a note, where there is one.
pub(crate) fn push_some(
    notes: &mut Vec<ContestNote>,
    note: Option<ContestNote>,
) -> Result<(), NoMemory>
    ensures { OnOk result (notes.new.items ≡ notes.old.items ++ cons_option note []) }
{
    match note {
        Some(note) => push_note(notes, note),
        None => Ok(()),
    }
}

/// Adds notes behind the others.
fn append(notes: &mut Vec<ContestNote>, mut more: Vec<ContestNote>) -> Result<(), NoMemory>
    ensures { OnOk result (notes.new.items ≡ notes.old.items ++ more.items) }
{
    notes.append(&mut more).map_err(|_| NoMemory)
}
