//! Notes on the files and folders of `data`.
ghost use Rattle.std.specs.Prelude.{◌≡◌, ◌++◌, [], IfOk, OnOk, Some, is_some, option_map};
ghost use Rattle.std.specs.Str.{bytes_eq};
ghost use Rattle.std.specs.List.{cons_option, filter_map, list_any, position};
ghost use Rattle.farm_tree.specs.Listing.{is_slash};
ghost use Rattle.package_folder.specs.Names.{name_below, without_in};
ghost use Rattle.package_folder.specs.Order.{IsRising};
ghost use Rattle.package_folder.specs.Paths.{texts};
ghost use Rattle.package_folder.specs.Reading.{data_of};
ghost use Rattle.package_notes.specs.Files.{answer_note, file_note, file_notes, folder_notes, has_tests, other_folder, other_folders_from, test_file_note, top_folder, with_name, without_ans};

use crate::notes::Note;
use crate::settings::push_note;
use farm_kinds::{NoMemory, Text};
use package_folder::{Paths, copy, name_below, with_ending};
use std::alloc::Global;

/// The notes on the files below `data` of the package's folder that are not read: these are the paths of all files there.
pub(crate) fn file_notes(
    alloc: Global,
    folder: &str,
    root: &str,
    paths: &Paths,
) -> Result<Vec<Note>, NoMemory>
    requires root { root.now ≡ data_of folder.now }
    requires rising { IsRising paths.now }
    ensures { IfOk result (λ notes. notes.items ≡ file_notes folder.now paths.now) }
{
    notes_among(alloc, folder, root, paths, paths.as_slice())
}

/// The notes on some of the files.
fn notes_among(
    alloc: Global,
    folder: &str,
    root: &str,
    all: &Paths,
    paths: &[String],
) -> Result<Vec<Note>, NoMemory>
    requires root { root.now ≡ data_of folder.now }
    requires rising { IsRising all.now }
    ensures { IfOk result (λ notes. notes.items ≡ filter_map (file_note folder.now all.now) (texts paths.now)) }
{
    let mut notes = Vec::new(alloc);
    for path in paths {
        let note = file_note(alloc, folder, root, all, path.as_str())?;
        push_some(&mut notes, note)?;
    }
    Ok(notes)
}

/// Adds a note, where there is one.
pub(crate) fn push_some(notes: &mut Vec<Note>, note: Option<Note>) -> Result<(), NoMemory>
    ensures { OnOk result (notes.new.items ≡ notes.old.items ++ cons_option note []) }
{
    match note {
        Some(note) => push_note(notes, note),
        None => Ok(()),
    }
}

/// The note on a file below `data`.
fn file_note(
    alloc: Global,
    folder: &str,
    root: &str,
    all: &Paths,
    path: &str,
) -> Result<Option<Note>, NoMemory>
    requires root { root.now ≡ data_of folder.now }
    requires rising { IsRising all.now }
    ensures { IfOk result (λ note. note ≡ file_note folder.now all.now path.now) }
{
    let name = name_below(alloc, folder, path)?;
    match top_folder(rest_below(root, path)) {
        None => Ok(Some(Note::OutsideFile { name })),
        Some(top) => match has_tests(top) {
            true => test_file_note(alloc, all, name, path),
            false => Ok(None),
        },
    }
}

/// The note on a file of a folder that has tests.
fn test_file_note(
    alloc: Global,
    all: &Paths,
    name: Text,
    path: &str,
) -> Result<Option<Note>, NoMemory>
    requires { IsRising all.now }
    ensures { IfOk result (λ note. note ≡ test_file_note all.now name path.now) }
{
    if is_input(path) {
        return Ok(None);
    }
    match without_ans(path) {
        Some(stem) => answer_note(alloc, all, name, stem),
        None => Ok(Some(Note::OtherFile { name })),
    }
}

/// Whether the file is an input.
fn is_input(path: &str) -> bool
    ensures { result ≡ is_some (without_in path.now) }
{
    path.ends_with(".in")
}

/// The note on an answer that has this path without its ending.
fn answer_note(alloc: Global, all: &Paths, name: Text, stem: &str) -> Result<Option<Note>, NoMemory>
    requires { IsRising all.now }
    ensures { IfOk result (λ note. note ≡ answer_note all.now name (Some stem.now)) }
{
    let input = with_ending(alloc, stem, ".in")?;
    if all.has(input.as_str()) {
        return Ok(None);
    }
    Ok(Some(Note::LoneAnswer { name }))
}

/// The path of a file that ends in `.ans`, without that.
fn without_ans(path: &str) -> Option<&str>
    ensures { option_map (λ stem. stem.now) result ≡ without_ans path.now }
{
    path.strip_suffix(".ans")
}

/// What the path is called below the folder, or nothing where it does not lie there.
fn rest_below<'a>(folder: &str, path: &'a str) -> &'a [u8]
    ensures { result.now ≡ name_below folder.now path.now }
{
    match farm_tree::below(folder, path.as_bytes()) {
        Some(rest) => rest,
        None => &[],
    }
}

/// The folder of `data` in which a file lies that has this path below `data`.
fn top_folder(rest: &[u8]) -> Option<&[u8]>
    ensures { option_map (λ name. name.now) result ≡ top_folder rest.now }
{
    match first_slash(rest) {
        Some(end) => Some(&rest[..end]),
        None => None,
    }
}

fn first_slash(rest: &[u8]) -> Option<usize>
    ensures { result ≡ position is_slash rest.now }
{
    rest.iter().position(|b| *b == b'/')
}

/// Whether the folder of `data` with this name has tests.
fn has_tests(name: &[u8]) -> bool
    ensures { result ≡ has_tests name.now }
{
    name == b"sample".as_slice() || name == b"secret".as_slice()
}

/// The notes on the folders of `data` that have no tests, where these are the paths of all files below it.
pub(crate) fn folder_notes(alloc: Global, root: &str, paths: &Paths) -> Result<Vec<Note>, NoMemory>
    ensures { IfOk result (λ notes. notes.items ≡ folder_notes root.now paths.now) }
{
    let mut notes = Vec::new(alloc);
    for name in other_folders(alloc, root, paths.as_slice())? {
        push_note(&mut notes, Note::OtherFolder { name })?;
    }
    Ok(notes)
}

/// The names of the folders in which the files lie and that have no tests, each once.
fn other_folders(alloc: Global, root: &str, paths: &[String]) -> Result<Vec<Text>, NoMemory>
    ensures { IfOk result (λ names. names.items ≡ other_folders_from root.now [] (texts paths.now)) }
{
    let mut names = Vec::new(alloc);
    for path in paths {
        add_name(alloc, &mut names, other_folder(root, path.as_str()))?;
    }
    Ok(names)
}

/// The folder of `data` in which the file lies, where that has no tests.
fn other_folder<'a>(root: &str, path: &'a str) -> Option<&'a [u8]>
    ensures { option_map (λ name. name.now) result ≡ other_folder root.now path.now }
{
    match top_folder(rest_below(root, path)) {
        None => None,
        Some(top) => match has_tests(top) {
            true => None,
            false => Some(top),
        },
    }
}

/// Adds a name, where there is one that is not among the names.
fn add_name(alloc: Global, names: &mut Vec<Text>, name: Option<&[u8]>) -> Result<(), NoMemory>
    ensures { OnOk result (names.new.items ≡ with_name names.old.items (option_map (λ name. name.now) name.entry)) }
{
    let Some(name) = name else {
        return Ok(());
    };
    if is_among(names.as_slice(), name) {
        return Ok(());
    }
    let name = copy(alloc, name)?;
    names.push(name).map_err(|_| NoMemory)
}

/// Whether the name is among the names.
fn is_among(names: &[Text], name: &[u8]) -> bool
    ensures { result ≡ list_any (bytes_eq name.now) names.now }
{
    names.iter().any(|other| name == other.as_slice())
}
