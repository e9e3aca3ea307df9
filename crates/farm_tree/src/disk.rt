ghost use Rattle.std.specs.Prelude.{◌≡◌, ◌≢◌, ◌≤◌, ◌<◌, ◌↔◌, ℕ, IsTrue, length, take, None, IfOk, IfSome, All};
ghost use Rattle.std.specs.Str.{IsUtf8};
ghost use Rattle.std.specs.IoError.{error_kind};
ghost use Rattle.farm_tree.specs.declared.entries.Entry.{Entry};
ghost use Rattle.farm_tree.specs.Reading.{HasCause, CountsFault, file_limit, path_limit};
ghost use Rattle.farm_tree.specs.Disk.{meaning, IsSpecial, IsRefusal};

use crate::entries::{Entries, Entry};
use crate::reads::{FILE_LIMIT, PATH_LIMIT, Tree, TreeErr};
use farm_kinds::Text;
use std::alloc::Global;
use std::fs::{DirEntry, File, Files, Metadata, OpenFile};
use std::io::{ErrorKind, Read};
use std::os::unix::fs::MetadataExt;
use std::path::Path;
use std::{fs, io};

/// The files of `std` as a tree. It tells nothing of what they hold.
///
/// Each error of a call raises the count, which stands still at the end of its type. A listing of a path of more
/// than 4,096 bytes, or of a folder in which a name is no UTF-8, is an error. That no file is there, or a folder
/// is, that a file is too large, and want of memory are no errors. Links are followed; one that leads nowhere is
/// listed as a file, which is absent.
///
/// A pipe, a socket and a device are no files, and a read of one is an error at once: to open them could wait. A
/// listing of a link to a folder that the path itself goes through, as `data/a` where it is a link to `data`, is an
/// error, so that a walk comes to an end where links lead back.
#[derive(Drop)]
pub struct DiskTree<R> {
    pub files: R,
    pub alloc: Global,
    /// How often a call has failed.
    pub faults: u64,
}

impl<R> DiskTree<R> {
    /// A tree over the files, whose count is 0.
    pub fn new(files: R, alloc: Global) -> DiskTree<R>
        ensures files { result.files ≡ files }
        ensures faults { result.faults ≡ 0 }
    {
        DiskTree {
            files,
            alloc,
            faults: 0,
        }
    }
}

impl<R: Files + Alloc<A = Global> + Clone + Drop> Tree for DiskTree<R> {
    ghost files = { λ _. None };

    ghost faults = { λ t. t.faults };

    fn read(&mut self, path: &str) -> Result<Text, TreeErr>
        ensures cause { HasCause self.old.faults self.new.faults result }
        ensures counts { CountsFault self.old.faults self.new.faults result }
        ensures short { IfOk result (λ bytes. length bytes ≤ file_limit) }
        ensures kept { (self.new.files ≡ self.old.files) × (self.new.alloc ≡ self.old.alloc) }
    {
        let answer = read_file(&self.files, self.alloc, path);
        count_fault(&mut self.faults, &answer);
        answer
    }

    fn list(&mut self, path: &str) -> Result<Entries, TreeErr>
        ensures cause { HasCause self.old.faults self.new.faults result }
        ensures counts { CountsFault self.old.faults self.new.faults result }
        ensures not_large { (len : ℕ) → result ≢ Err (TreeErr.TooLarge len) }
        ensures within { IfOk result (λ _. length path.now ≤ path_limit) }
        ensures text { IfOk result (λ entries. All (λ (entry : Entry). IsUtf8 entry.name) entries) }
        ensures kept { (self.new.files ≡ self.old.files) × (self.new.alloc ≡ self.old.alloc) }
    {
        let answer = list_folder(&self.files, self.alloc, path);
        count_fault(&mut self.faults, &answer);
        answer
    }

    fn fault_count(&self) -> u64 {
        self.faults
    }
}

/// Raises the count where the call has failed.
fn count_fault<A>(faults: &mut u64, answer: &Result<A, TreeErr>)
    ensures counts { CountsFault faults.old faults.new answer.now }
    ensures cause { HasCause faults.old faults.new answer.now }
{
    if let Err(TreeErr::Failed) = answer {
        *faults = faults.saturating_add(1);
    }
}

/// What the folder at the path holds.
fn list_folder<R: Files + Alloc<A = Global> + Clone + Drop>(
    files: &R,
    alloc: Global,
    path: &str,
) -> Result<Entries, TreeErr>
    ensures not_large { (len : ℕ) → result ≢ Err (TreeErr.TooLarge len) }
    ensures within { IfOk result (λ _. length path.now ≤ path_limit) }
    ensures text { IfOk result (λ entries. All (λ (entry : Entry). IsUtf8 entry.name) entries) }
{
    if path.len() > PATH_LIMIT || leads_back(files, path).map_err(meaning)? {
        return Err(TreeErr::Failed);
    }
    let mut entries = Entries::new(alloc);
    for entry in fs::read_dir(files, path).map_err(meaning)? {
        let entry = entry_of(files, alloc, &entry.map_err(meaning)?)?;
        entries.push(entry).map_err(|_| TreeErr::NoMemory)?;
    }
    Ok(entries)
}

/// Whether the path is a link to a folder that it goes through. A link can lead back further only where a walk goes
/// through it twice, and then the second time is such a path.
fn leads_back<R: Files>(files: &R, path: &str) -> io::Result<bool> {
    if !fs::symlink_metadata(files, path)?.is_symlink() {
        return Ok(false);
    }
    let target = fs::metadata(files, path)?;
    for above in Path::new(path).ancestors().skip(1) {
        if !above.as_str().is_empty() && is_same(&fs::metadata(files, above)?, &target) {
            return Ok(true);
        }
    }
    Ok(false)
}

/// Whether both tell of one file or folder of the system.
fn is_same(first: &Metadata, second: &Metadata) -> bool {
    first.dev() == second.dev() && first.ino() == second.ino()
}

/// The entry of a folder: its name, and whether it is a folder.
fn entry_of<R: Files>(
    files: &R,
    alloc: Global,
    entry: &DirEntry<R, Global>,
) -> Result<Entry, TreeErr>
    ensures not_large { (len : ℕ) → result ≢ Err (TreeErr.TooLarge len) }
    ensures text { IfOk result (λ found. IsUtf8 found.name) }
{
    let folder = match fs::metadata(files, entry.path()) {
        Ok(about) => about.is_dir(),
        Err(error) => match meaning(error) {
            TreeErr::Absent => false,
            failed => return Err(failed),
        },
    };
    let name = entry.file_name().as_bytes();
    let name = name.to_vec(alloc).map_err(|_| TreeErr::NoMemory)?;
    Ok(Entry {
        name: Text::from_vec(name),
        folder,
    })
}

/// The bytes of the file at the path. What it is is asked before it is opened, since the opening of a pipe waits for
/// a writer, and again of what was opened.
fn read_file<R: Files>(files: &R, alloc: Global, path: &str) -> Result<Text, TreeErr>
    ensures { IfOk result (λ bytes. length bytes ≤ file_limit) }
{
    if is_special(&fs::metadata(files, path).map_err(meaning)?) {
        return Err(TreeErr::Failed);
    }
    let file = File::open(files, path).map_err(meaning)?;
    let about = file.metadata().map_err(meaning)?;
    match refusal(&about) {
        Some(refused) => Err(refused),
        None => read_whole(file, about.len(), alloc),
    }
}

/// Whether the metadata tells of no file and no folder: a pipe, a socket or a device.
fn is_special(about: &Metadata) -> bool
    ensures { IsTrue result ↔ IsSpecial about.now }
{
    !about.is_file() && !about.is_dir()
}

/// Why what the metadata tells of is not read.
fn refusal(about: &Metadata) -> Option<TreeErr>
    ensures { IsRefusal about.now result }
{
    if about.is_dir() {
        return Some(TreeErr::Absent);
    }
    if !about.is_file() {
        return Some(TreeErr::Failed);
    }
    let len = about.len();
    if len > FILE_LIMIT as u64 {
        return Some(TreeErr::TooLarge { len });
    }
    None
}

/// All bytes of a file, which may have grown since its metadata told this length. Any other reader is read as if it
/// were one.
///
/// - `TooLarge` with 16,777,217 bytes: it has more than 16 MiB, and no more than that many are read.
/// - `NoMemory`: there is no room for the bytes.
/// - `Absent` or `Failed`: a read failed, with what the system says of it.
pub fn read_whole<F: Read + Drop>(file: F, len: u64, alloc: Global) -> Result<Text, TreeErr>
    ensures short { IfOk result (λ bytes. length bytes ≤ file_limit) }
    ensures whole { IfOk result (λ bytes. IfSome (F.remaining file) (λ left. bytes ≡ left)) }
    ensures large { (len : ℕ) → result ≡ Err (TreeErr.TooLarge len) → IfSome (F.remaining file) (λ left. file_limit < length left) }
{
    let limit = FILE_LIMIT as u64 + 1;
    let bytes = read_prefix(file, len, limit, alloc)?;
    let len = bytes.len() as u64;
    if len > FILE_LIMIT as u64 {
        return Err(TreeErr::TooLarge { len });
    }
    Ok(Text::from_vec(bytes))
}

/// So many bytes of a file, or all where it has no more. They are read into place where it has the length that was
/// told: the room for one byte more is where its end is met.
fn read_prefix<F: Read + Drop>(
    file: F,
    told: u64,
    limit: u64,
    alloc: Global,
) -> Result<Vec<u8>, TreeErr>
    ensures prefix { IfOk result (λ bytes. IfSome (F.remaining file) (λ left. bytes.items ≡ take limit left)) }
    ensures not_large { (len : ℕ) → result ≢ Err (TreeErr.TooLarge len) }
{
    let room = told.saturating_add(1).min(limit);
    let mut bytes = Vec::with_capacity(alloc, room as usize).map_err(|_| TreeErr::NoMemory)?;
    match file.take(limit).read_to_end(&mut bytes) {
        Ok(_) => Ok(bytes),
        Err(error) => Err(meaning(error)),
    }
}

/// What an error of the system means.
fn meaning(error: io::Error) -> TreeErr
    ensures { result ≡ meaning (error_kind error) }
{
    match error.kind() {
        ErrorKind::NotFound | ErrorKind::NotADirectory | ErrorKind::IsADirectory => TreeErr::Absent,
        ErrorKind::OutOfMemory => TreeErr::NoMemory,
        _ => TreeErr::Failed,
    }
}
