//! The notes on submissions whose files are no programs.
ghost use Rattle.std.specs.Prelude.{◌≡◌, ◌≤◌, ◌<◌, ℕ, List, take, length, IfOk, IfErr, IfSome, codes, option_map};
ghost use Rattle.std.specs.Str.{IsUtf8};
ghost use Rattle.farm_io.specs.Streams.{Rose};
ghost use Rattle.farm_tree.specs.Reading.{file_at, file_limit};
ghost use Rattle.package_folder.specs.Told.{WhereTold};
ghost use Rattle.problem_settings.specs.Lines.{parts};
ghost use Rattle.contest_folder.specs.Images.{held_or_none, images_of};
ghost use Rattle.contest_folder.specs.Telling.{IsStop};
ghost use Rattle.contest_notes.specs.Notes.{note_of_file, note_of_line, notes_of_lines, notes_of_list, program_note, said_by};

use crate::finding::push_some;
use crate::notes::ContestNote;
use contest_folder::{ContestFault, cut, is_comment, is_file_name};
use farm_kinds::{NoMemory, Text};
use farm_tree::{Tree, TreeErr};
use package_folder::{copy, in_folder};
use program_notes::{ProgramFault, program_fault};
use std::alloc::Global;
use std::str;

/// How many bytes of a file a note keeps: those up to `e_machine` of an ELF header.
const HEAD: usize = 20;

/// The notes on the lines of `submissions.txt` in the folder at the path.
pub(crate) fn notes_of_list<T: Tree>(
    alloc: Global,
    tree: &mut T,
    path: &str,
) -> Result<Vec<ContestNote>, ContestFault>
    ensures notes { WhereTold (T.files tree.old) (λ files. IfOk result (λ notes. notes.items ≡ notes_of_list files path.now)) }
    ensures stopped { IfErr result IsStop }
    ensures same { T.files tree.new ≡ T.files tree.old }
    ensures later { T.faults tree.old ≤ T.faults tree.new }
    ensures cause { result ≡ Err ContestFault.Tree → Rose (T.faults tree.old) (T.faults tree.new) }
{
    let list = in_folder(alloc, path, "submissions.txt")?;
    let text = read_text(alloc, tree, list.as_str())?;
    let folder = in_folder(alloc, path, "submissions")?;
    notes_of_lines(alloc, tree, folder.as_str(), text.as_slice())
}

/// The bytes of the file at the path, or none where it is not there or too large.
fn read_text<T: Tree>(alloc: Global, tree: &mut T, path: &str) -> Result<Text, ContestFault>
    ensures text { WhereTold (T.files tree.old) (λ files. IfOk result (λ text. text ≡ held_or_none (file_at files path.now))) }
    ensures stopped { IfErr result IsStop }
    ensures same { T.files tree.new ≡ T.files tree.old }
    ensures later { T.faults tree.old ≤ T.faults tree.new }
    ensures cause { result ≡ Err ContestFault.Tree → Rose (T.faults tree.old) (T.faults tree.new) }
{
    match tree.read(path) {
        Ok(bytes) => Ok(bytes),
        Err(TreeErr::Absent) => Ok(Text::new(alloc)),
        Err(TreeErr::TooLarge { .. }) => Ok(Text::new(alloc)),
        Err(TreeErr::Failed) => Err(ContestFault::Tree),
        Err(TreeErr::NoMemory) => Err(ContestFault::NoMemory),
    }
}

/// The notes on the lines of the text, where files are in this folder.
fn notes_of_lines<T: Tree>(
    alloc: Global,
    tree: &mut T,
    folder: &str,
    text: &[u8],
) -> Result<Vec<ContestNote>, ContestFault>
    ensures notes { WhereTold (T.files tree.old) (λ files. IfOk result (λ notes. notes.items ≡ notes_of_lines files folder.now text.now)) }
    ensures stopped { IfErr result IsStop }
    ensures same { T.files tree.new ≡ T.files tree.old }
    ensures later { T.faults tree.old ≤ T.faults tree.new }
    ensures cause { result ≡ Err ContestFault.Tree → Rose (T.faults tree.old) (T.faults tree.new) }
{
    let mut notes = Vec::new(alloc);
    let mut left = Some(text);
    while let Some(text) = left {
        let (line, behind) = cut(b'\n', text);
        let note = note_of_line(alloc, tree, folder, line)?;
        push_some(&mut notes, note)?;
        left = behind;
    }
    Ok(notes)
}

/// The note on a line.
fn note_of_line<T: Tree>(
    alloc: Global,
    tree: &mut T,
    folder: &str,
    line: &[u8],
) -> Result<Option<ContestNote>, ContestFault>
    ensures note { WhereTold (T.files tree.old) (λ files. IfOk result (λ note. note ≡ note_of_line files folder.now line.now)) }
    ensures stopped { IfErr result IsStop }
    ensures same { T.files tree.new ≡ T.files tree.old }
    ensures later { T.faults tree.old ≤ T.faults tree.new }
    ensures cause { result ≡ Err ContestFault.Tree → Rose (T.faults tree.old) (T.faults tree.new) }
{
    if is_comment(line) {
        return Ok(None);
    }
    match said_in(line) {
        Some((number, file)) => note_of_file(alloc, tree, folder, number, file),
        None => Ok(None),
    }
}

/// The number and the file that a line says, where it has four words and the last of them is the name of a file.
fn said_in(line: &[u8]) -> Option<(&[u8], &[u8])>
    ensures said { option_map (λ said. (said.0.now, said.1.now)) result ≡ said_by (parts 32 line.now) }
    ensures file { IfSome result (λ said. IsUtf8 said.1.now) }
{
    let (number, left) = cut(b' ', line);
    let (_team, left) = cut(b' ', left?);
    let (_problem, left) = cut(b' ', left?);
    let (file, left) = cut(b' ', left?);
    if left.is_some() {
        return None;
    }
    if !is_file_name(file) {
        return None;
    }
    Some((number, file))
}

/// The note on the file of this name in the folder, where it is there.
fn note_of_file<T: Tree>(
    alloc: Global,
    tree: &mut T,
    folder: &str,
    number: &[u8],
    file: &[u8],
) -> Result<Option<ContestNote>, ContestFault>
    requires { IsUtf8 file.now }
    ensures note { WhereTold (T.files tree.old) (λ files. IfOk result (λ note. note ≡ note_of_file files folder.now (number.now, file.now))) }
    ensures stopped { IfErr result IsStop }
    ensures same { T.files tree.new ≡ T.files tree.old }
    ensures later { T.faults tree.old ≤ T.faults tree.new }
    ensures cause { result ≡ Err ContestFault.Tree → Rose (T.faults tree.old) (T.faults tree.new) }
{
    let name = str::from_utf8(file).unwrap();
    let path = in_folder(alloc, folder, name)?;
    match tree.read(path.as_str()) {
        Ok(bytes) => Ok(program_note(alloc, number, file, bytes.as_slice())?),
        Err(TreeErr::Absent) => Ok(None),
        Err(TreeErr::TooLarge { len }) => Ok(Some(large_note(alloc, number, file, len)?)),
        Err(TreeErr::Failed) => Err(ContestFault::Tree),
        Err(TreeErr::NoMemory) => Err(ContestFault::NoMemory),
    }
}

/// The note on a file with these bytes, where they are no program.
fn program_note(
    alloc: Global,
    number: &[u8],
    file: &[u8],
    bytes: &[u8],
) -> Result<Option<ContestNote>, NoMemory>
    requires { length bytes.now ≤ file_limit }
    ensures { IfOk result (λ note. note ≡ program_note number.now file.now bytes.now) }
{
    let Some(fault) = program_fault(bytes) else {
        return Ok(None);
    };
    Ok(Some(ContestNote::NoProgram {
        number: copy(alloc, number)?,
        file: copy(alloc, file)?,
        fault,
        head: copy(alloc, first_of(bytes))?,
    }))
}

/// How the bytes begin.
fn first_of(bytes: &[u8]) -> &[u8]
    ensures { result.now ≡ take 20 bytes.now }
{
    if bytes.len() > HEAD {
        return &bytes[..HEAD];
    }
    bytes
}

/// The note on a file of so many bytes, which is too large to be read.
fn large_note(alloc: Global, number: &[u8], file: &[u8], len: u64) -> Result<ContestNote, NoMemory>
    ensures { (bytes : List ℕ) → length bytes ≡ len → file_limit < len → IfOk result (λ note. Some note ≡ program_note number.now file.now bytes) }
{
    Ok(ContestNote::NoProgram {
        number: copy(alloc, number)?,
        file: copy(alloc, file)?,
        fault: ProgramFault::Size(len),
        head: Text::new(alloc),
    })
}
