//! The notes on a package.
ghost use Rattle.std.specs.Prelude.{◌≡◌, ◌≤◌, ◌++◌, ◌&&◌, IfOk, IfErr, IfSome, OnOk, length, option_map};
ghost use Rattle.std.specs.List.{filter_map};
ghost use Rattle.farm_io.specs.Streams.{Rose};
ghost use Rattle.farm_tree.specs.Listing.{entries_below};
ghost use Rattle.farm_tree.specs.Reading.{file_at, file_limit};
ghost use Rattle.package_folder.specs.Order.{IsRising};
ghost use Rattle.package_folder.specs.Paths.{texts};
ghost use Rattle.package_folder.specs.Reading.{data_of, validators_of};
ghost use Rattle.package_folder.specs.Told.{IsStop, WhereTold};
ghost use Rattle.package_notes.specs.Files.{begins_as_elf, elf_note_on, has_entries, is_custom, is_default, says_custom, says_default, validator_notes};
ghost use Rattle.package_notes.specs.Package.{elf_note, elf_notes, notes_from, package_notes, skipped_notes, text_in, text_of};

use crate::files::{file_notes, folder_notes, push_some};
use crate::notes::Note;
use crate::settings::{ini_notes, push_note, yaml_notes_in};
use farm_kinds::{NoMemory, Text};
use farm_tree::{Tree, TreeErr};
use package_folder::{PackageFault, Paths, in_folder, name_below, paths_below};
use problem_settings::{Validation, YamlFault, read_yaml};
use std::alloc::Global;

/// The notes on the package in the folder at the path: on `problem.yaml` and on `domjudge-problem.ini` in the order of their
/// lines, on the files and then on the folders of `data` in the order of their paths, on `output_validators`, and on a validator
/// there that is run though it begins as an ELF file. Of a folder that is no package some are given, and none that stand on what
/// is faulty.
///
/// Of the faults only `Tree` and `NoMemory` come.
pub fn package_notes<T: Tree>(
    alloc: Global,
    tree: &mut T,
    path: &str,
) -> Result<Vec<Note>, PackageFault>
    ensures notes { WhereTold (T.files tree.old) (λ files. IfOk result (λ notes. notes.items ≡ package_notes files path.now)) }
    ensures stopped { IfErr result IsStop }
    ensures same { T.files tree.new ≡ T.files tree.old }
    ensures later { T.faults tree.old ≤ T.faults tree.new }
    ensures cause { result ≡ Err PackageFault.Tree → Rose (T.faults tree.old) (T.faults tree.new) }
{
    let mut notes = skipped_notes(alloc, tree, path)?;
    let more = elf_notes(alloc, tree, path)?;
    append(&mut notes, more)?;
    Ok(notes)
}

/// The notes on what is skipped.
fn skipped_notes<T: Tree>(
    alloc: Global,
    tree: &mut T,
    path: &str,
) -> Result<Vec<Note>, PackageFault>
    ensures notes { WhereTold (T.files tree.old) (λ files. IfOk result (λ notes. notes.items ≡ skipped_notes files path.now)) }
    ensures stopped { IfErr result IsStop }
    ensures same { T.files tree.new ≡ T.files tree.old }
    ensures later { T.faults tree.old ≤ T.faults tree.new }
    ensures cause { result ≡ Err PackageFault.Tree → Rose (T.faults tree.old) (T.faults tree.new) }
{
    let yaml = read_text(alloc, tree, path, "problem.yaml")?;
    let ini = read_text(alloc, tree, path, "domjudge-problem.ini")?;
    let root = in_folder(alloc, path, "data")?;
    let paths = paths_below(alloc, tree, root.as_str())?;
    let has = has_validators(alloc, tree, path)?;
    let (yaml, ini) = (bytes_of(&yaml), bytes_of(&ini));
    Ok(notes_from(alloc, path, root.as_str(), yaml, ini, &paths, has)?)
}

/// The bytes of the file with this name in the package, where it is there and not too large.
fn read_text<T: Tree>(
    alloc: Global,
    tree: &mut T,
    path: &str,
    name: &str,
) -> Result<Option<Text>, PackageFault>
    ensures text { WhereTold (T.files tree.old) (λ files. IfOk result (λ text. text ≡ text_in files path.now name.now)) }
    ensures short { IfOk result (λ text. IfSome text (λ bytes. length bytes ≤ file_limit)) }
    ensures stopped { IfErr result IsStop }
    ensures same { T.files tree.new ≡ T.files tree.old }
    ensures later { T.faults tree.old ≤ T.faults tree.new }
    ensures cause { result ≡ Err PackageFault.Tree → Rose (T.faults tree.old) (T.faults tree.new) }
{
    let file = in_folder(alloc, path, name)?;
    read_at(tree, file.as_str())
}

/// The bytes of the file at the path, where it is there and not too large.
fn read_at<T: Tree>(tree: &mut T, path: &str) -> Result<Option<Text>, PackageFault>
    ensures text { WhereTold (T.files tree.old) (λ files. IfOk result (λ text. text ≡ text_of (file_at files path.now))) }
    ensures short { IfOk result (λ text. IfSome text (λ bytes. length bytes ≤ file_limit)) }
    ensures stopped { IfErr result IsStop }
    ensures same { T.files tree.new ≡ T.files tree.old }
    ensures later { T.faults tree.old ≤ T.faults tree.new }
    ensures cause { result ≡ Err PackageFault.Tree → Rose (T.faults tree.old) (T.faults tree.new) }
{
    match tree.read(path) {
        Ok(bytes) => Ok(Some(bytes)),
        Err(TreeErr::Absent) => Ok(None),
        Err(TreeErr::TooLarge { .. }) => Ok(None),
        Err(TreeErr::Failed) => Err(PackageFault::Tree),
        Err(TreeErr::NoMemory) => Err(PackageFault::NoMemory),
    }
}

fn bytes_of(text: &Option<Text>) -> Option<&[u8]>
    ensures { option_map (λ bytes. bytes.now) result ≡ text.now }
{
    match text {
        Some(text) => Some(text.as_slice()),
        None => None,
    }
}

/// Whether something lies in the folder of validators.
fn has_validators<T: Tree>(alloc: Global, tree: &mut T, path: &str) -> Result<bool, PackageFault>
    ensures has { WhereTold (T.files tree.old) (λ files. IfOk result (λ has. has ≡ has_entries (entries_below (validators_of path.now) files))) }
    ensures stopped { IfErr result IsStop }
    ensures same { T.files tree.new ≡ T.files tree.old }
    ensures later { T.faults tree.old ≤ T.faults tree.new }
    ensures cause { result ≡ Err PackageFault.Tree → Rose (T.faults tree.old) (T.faults tree.new) }
{
    let folder = in_folder(alloc, path, "output_validators")?;
    match tree.list(folder.as_str()) {
        Ok(_) => Ok(true),
        Err(TreeErr::Absent) => Ok(false),
        // no listing is too large
        Err(TreeErr::TooLarge { .. }) => Ok(false),
        Err(TreeErr::Failed) => Err(PackageFault::Tree),
        Err(TreeErr::NoMemory) => Err(PackageFault::NoMemory),
    }
}

/// The notes that follow from the texts of the two files, from the paths of the files below `data`, and from whether
/// something lies in the folder of validators.
fn notes_from(
    alloc: Global,
    path: &str,
    root: &str,
    yaml: Option<&[u8]>,
    ini: Option<&[u8]>,
    paths: &Paths,
    has: bool,
) -> Result<Vec<Note>, NoMemory>
    requires root { root.now ≡ data_of path.now }
    requires rising { IsRising paths.now }
    requires yaml { IfSome yaml (λ text. length text.now ≤ 16777216) }
    requires ini { IfSome ini (λ text. length text.now ≤ 16777216) }
    ensures { IfOk result (λ notes. notes.items ≡ notes_from path.now (option_map (λ text. text.now) yaml.entry) (option_map (λ text. text.now) ini.entry) paths.now (validator_notes (says_default (option_map (λ text. text.now) yaml.entry) && has))) }
{
    let mut notes = yaml_notes_in(alloc, yaml)?;
    append(&mut notes, ini_notes(alloc, ini)?)?;
    append(&mut notes, file_notes(alloc, path, root, paths)?)?;
    append(&mut notes, folder_notes(alloc, root, paths)?)?;
    let is_read = says_default(alloc, yaml)?;
    push_validators(&mut notes, is_read && has)?;
    Ok(notes)
}

/// Adds notes behind the others.
fn append(notes: &mut Vec<Note>, mut more: Vec<Note>) -> Result<(), NoMemory>
    ensures { OnOk result (notes.new.items ≡ notes.old.items ++ more.items) }
{
    notes.append(&mut more).map_err(|_| NoMemory)
}

/// Whether the text of `problem.yaml` asks for the default validator.
#[tactic(auto, unfolding(crate::specs::Files::says_default))]
fn says_default(alloc: Global, text: Option<&[u8]>) -> Result<bool, NoMemory>
    requires { IfSome text (λ text. length text.now ≤ 16777216) }
    ensures { IfOk result (λ says. says ≡ says_default (option_map (λ text. text.now) text.entry)) }
{
    let Some(text) = text else {
        return Ok(false);
    };
    match read_yaml(alloc, text) {
        Ok(yaml) => Ok(is_default(yaml.validation)),
        Err(YamlFault::Bad { .. }) => Ok(false),
        Err(YamlFault::NoMemory) => Err(NoMemory),
    }
}

fn is_default(validation: Validation) -> bool
    ensures { result ≡ is_default validation }
{
    match validation {
        Validation::Default => true,
        Validation::Custom => false,
    }
}

/// Adds the note on validators that nothing asks for, where there are some.
fn push_validators(notes: &mut Vec<Note>, is_idle: bool) -> Result<(), NoMemory>
    ensures { OnOk result (notes.new.items ≡ notes.old.items ++ validator_notes is_idle) }
{
    if is_idle {
        return push_note(notes, Note::Validators);
    }
    Ok(())
}

/// The notes on the files of `output_validators` that begin as ELF files, where `problem.yaml` asks for one.
fn elf_notes<T: Tree>(alloc: Global, tree: &mut T, path: &str) -> Result<Vec<Note>, PackageFault>
    ensures notes { WhereTold (T.files tree.old) (λ files. IfOk result (λ notes. notes.items ≡ elf_notes files path.now)) }
    ensures stopped { IfErr result IsStop }
    ensures same { T.files tree.new ≡ T.files tree.old }
    ensures later { T.faults tree.old ≤ T.faults tree.new }
    ensures cause { result ≡ Err PackageFault.Tree → Rose (T.faults tree.old) (T.faults tree.new) }
{
    let yaml = read_text(alloc, tree, path, "problem.yaml")?;
    if !says_custom(alloc, bytes_of(&yaml))? {
        return Ok(Vec::new(alloc));
    }
    let root = in_folder(alloc, path, "output_validators")?;
    let files = paths_below(alloc, tree, root.as_str())?;
    elf_notes_among(alloc, tree, path, files.as_slice())
}

/// The notes on those of the files that begin as ELF files.
fn elf_notes_among<T: Tree>(
    alloc: Global,
    tree: &mut T,
    path: &str,
    files: &[String],
) -> Result<Vec<Note>, PackageFault>
    ensures notes { WhereTold (T.files tree.old) (λ held. IfOk result (λ notes. notes.items ≡ filter_map (elf_note held path.now) (texts files.now))) }
    ensures stopped { IfErr result IsStop }
    ensures same { T.files tree.new ≡ T.files tree.old }
    ensures later { T.faults tree.old ≤ T.faults tree.new }
    ensures cause { result ≡ Err PackageFault.Tree → Rose (T.faults tree.old) (T.faults tree.new) }
{
    let mut notes = Vec::new(alloc);
    for file in files {
        let note = elf_note(alloc, tree, path, file.as_str())?;
        push_some(&mut notes, note)?;
    }
    Ok(notes)
}

/// The note on a file, where it begins as an ELF file.
fn elf_note<T: Tree>(
    alloc: Global,
    tree: &mut T,
    path: &str,
    file: &str,
) -> Result<Option<Note>, PackageFault>
    ensures note { WhereTold (T.files tree.old) (λ held. IfOk result (λ note. note ≡ elf_note held path.now file.now)) }
    ensures stopped { IfErr result IsStop }
    ensures same { T.files tree.new ≡ T.files tree.old }
    ensures later { T.faults tree.old ≤ T.faults tree.new }
    ensures cause { result ≡ Err PackageFault.Tree → Rose (T.faults tree.old) (T.faults tree.new) }
{
    let text = read_at(tree, file)?;
    let name = name_below(alloc, path, file)?;
    Ok(elf_note_on(name, bytes_of(&text)))
}

/// The note on a validator of this name with these bytes.
fn elf_note_on(name: Text, bytes: Option<&[u8]>) -> Option<Note>
    ensures { result ≡ elf_note_on name (option_map (λ bytes. bytes.now) bytes.entry) }
{
    match bytes {
        Some(bytes) => match begins_as_elf(bytes) {
            true => Some(Note::ElfValidator { name }),
            false => None,
        },
        None => None,
    }
}

fn begins_as_elf(bytes: &[u8]) -> bool
    ensures { result ≡ begins_as_elf bytes.now }
{
    bytes.starts_with(b"\x7fELF")
}

/// Whether the text of `problem.yaml` asks for a validator of the package.
#[tactic(auto, unfolding(crate::specs::Files::says_custom))]
fn says_custom(alloc: Global, text: Option<&[u8]>) -> Result<bool, NoMemory>
    requires { IfSome text (λ text. length text.now ≤ 16777216) }
    ensures { IfOk result (λ says. says ≡ says_custom (option_map (λ text. text.now) text.entry)) }
{
    let Some(text) = text else {
        return Ok(false);
    };
    match read_yaml(alloc, text) {
        Ok(yaml) => Ok(is_custom(yaml.validation)),
        Err(YamlFault::Bad { .. }) => Ok(false),
        Err(YamlFault::NoMemory) => Err(NoMemory),
    }
}

fn is_custom(validation: Validation) -> bool
    ensures { result ≡ is_custom validation }
{
    match validation {
        Validation::Default => false,
        Validation::Custom => true,
    }
}
