ghost use Rattle.std.specs.Prelude.{◌≡◌, ◌≢◌, ◌≤◌, ◌↔◌, ℕ, length, IsTrue, if◌then◌else◌, Some, IfOk, OnOk, OnErr, All, Contains, option_map};
ghost use Rattle.std.specs.Str.{bytes_eq, IsUtf8};
ghost use Rattle.std.specs.List.{position};
ghost use Rattle.farm_io.specs.MemoryValue.{raised};
ghost use Rattle.farm_tree.specs.declared.reads.TreeFile.{TreeFile};
ghost use Rattle.farm_tree.specs.declared.entries.Entry.{Entry};
ghost use Rattle.farm_tree.specs.Reading.{IsReadAnswer, HasCause, CountsFault, IsPath, file_at, file_limit, path_limit};
ghost use Rattle.farm_tree.specs.Listing.{IsListAnswer};
ghost use Rattle.farm_tree.specs.MemoryValue.{with_file, SetsFile};

use crate::entries::{Entries, TreeFiles};
use crate::listing::list_files;
use crate::reads::{FILE_LIMIT, Tree, TreeErr, TreeFile};
use farm_kinds::{NoMemory, Text};
use std::alloc::{AllocError, Global};
use std::marker::Model;

/// Files in memory, as a tree that never fails. Contracts see the list of the files.
#[derive(Drop)]
pub struct ReliableTree {
    alloc: Global,
    files: Vec<TreeFile>,
}

impl Model for ReliableTree {
    ghost use Rattle.std.specs.Prelude.{List, All};
    ghost use Rattle.farm_tree.specs.declared.reads.TreeFile.{TreeFile};
    ghost use Rattle.farm_tree.specs.Reading.{IsPath};

    ghost Value = { List TreeFile };

    ghost view = { λ t. t.files.items };

    ghost invariant = { λ t. All (λ (file : TreeFile). IsPath file.path) t.files.items };
}

impl ReliableTree {
    /// A tree of these files. Where two have one path, the first counts.
    pub fn new(alloc: Global, files: TreeFiles) -> ReliableTree
        ensures { result ≡ files }
    {
        ReliableTree {
            alloc,
            files: files.into_vec(),
        }
    }

    /// Sets what the file at the path holds. At `NoMemory` nothing changes.
    pub fn add(&mut self, path: &str, bytes: &[u8]) -> Result<(), NoMemory>
        requires { length path.now ≤ 4096 }
        ensures ok { OnOk result (self.new ≡ with_file path.now bytes.now self.old) }
        ensures err { OnErr result (self.new ≡ self.old) }
        ensures sets { OnOk result (SetsFile self.old self.new path.now bytes.now) }
    {
        let file = TreeFile {
            path: copy(self.alloc, path.as_bytes())?,
            bytes: copy(self.alloc, bytes)?,
        };
        set(&mut self.files, path, file)
    }
}

impl Tree for ReliableTree {
    ghost files = { λ t. Some t };

    ghost faults = { λ _. 0 };

    fn read(&mut self, path: &str) -> Result<Text, TreeErr> {
        match bytes_at(&self.files, path) {
            Some(bytes) => answer(self.alloc, bytes),
            None => Err(TreeErr::Absent),
        }
    }

    fn list(&mut self, path: &str) -> Result<Entries, TreeErr> {
        list_files(self.alloc, &self.files, path)
    }

    fn fault_count(&self) -> u64 {
        0
    }
}

/// Puts the file, whose path is this one, in the place of the one at its path, or behind the others.
fn set(files: &mut Vec<TreeFile>, path: &str, file: TreeFile) -> Result<(), NoMemory>
    requires path { file.path ≡ path.now }
    requires fits { IsPath file.path }
    requires paths { All (λ (file : TreeFile). IsPath file.path) files.old.items }
    ensures paths { All (λ (file : TreeFile). IsPath file.path) files.new.items }
    ensures ok { OnOk result (files.new.items ≡ with_file path.now file.bytes files.old.items) }
    ensures err { OnErr result (files.new.items ≡ files.old.items) }
{
    let Some(at) = place_of(files, path) else {
        return files.push(file).map_err(|_| NoMemory);
    };
    files[at] = file;
    Ok(())
}

/// The bytes of the file at the path.
fn bytes_at<'a>(files: &'a [TreeFile], path: &str) -> Option<&'a [u8]>
    ensures { option_map (λ bytes. bytes.now) result ≡ file_at files.now path.now }
{
    let at = place_of(files, path)?;
    Some(files[at].bytes.as_slice())
}

/// The place of the file at the path.
fn place_of(files: &[TreeFile], path: &str) -> Option<usize>
    ensures { result ≡ position (λ file. bytes_eq path.now file.path) files.now }
{
    files
        .iter()
        .position(|file| path.as_bytes() == file.path.as_slice())
}

/// What a read of a file of these bytes gives.
fn answer(alloc: Global, bytes: &[u8]) -> Result<Text, TreeErr>
    ensures answer { IsReadAnswer (Some bytes.now) result }
    ensures not_failed { result ≢ Err TreeErr.Failed }
    ensures short { IfOk result (λ text. length text ≤ file_limit) }
{
    if bytes.len() > FILE_LIMIT {
        return Err(TreeErr::TooLarge {
            len: bytes.len() as u64,
        });
    }
    copy(alloc, bytes).map_err(|_| TreeErr::NoMemory)
}

/// The bytes again.
fn copy(alloc: Global, bytes: &[u8]) -> Result<Text, NoMemory>
    ensures { IfOk result (λ text. text ≡ bytes.now) }
{
    Ok(Text::from_vec(bytes.to_vec(alloc)?))
}

/// Files in memory, where the calls with the listed numbers fail. Calls of `read` and of `list` are numbered
/// together, from 0.
#[derive(Drop)]
pub struct MemoryTree {
    tree: ReliableTree,
    failing: Vec<u64>,
    calls: u64,
    faults: u64,
}

impl Model for MemoryTree {
    ghost use Rattle.farm_tree.specs.MemoryValue.{MemoryValue};

    ghost Value = { MemoryValue };

    ghost view = { λ t. record { files = t.tree; failing = t.failing.items; calls = t.calls; faults = t.faults } };
}

impl MemoryTree {
    /// A tree of these files, of which the calls with the numbers in `failing` fail. Where two files have one
    /// path, the first counts.
    pub fn new(alloc: Global, files: TreeFiles, failing: Vec<u64>) -> MemoryTree
        ensures { result ≡ record { files = files; failing = failing.items; calls = 0; faults = 0 } }
    {
        MemoryTree {
            tree: ReliableTree::new(alloc, files),
            failing,
            calls: 0,
            faults: 0,
        }
    }

    /// Sets what the file at the path holds. At `NoMemory` nothing changes.
    pub fn add(&mut self, path: &str, bytes: &[u8]) -> Result<(), NoMemory>
        requires { length path.now ≤ 4096 }
        ensures ok { OnOk result (self.new.files ≡ with_file path.now bytes.now self.old.files) }
        ensures err { OnErr result (self.new.files ≡ self.old.files) }
        ensures sets { OnOk result (SetsFile self.old.files self.new.files path.now bytes.now) }
        ensures failing { self.new.failing ≡ self.old.failing }
        ensures calls { self.new.calls ≡ self.old.calls }
        ensures faults { self.new.faults ≡ self.old.faults }
    {
        self.tree.add(path, bytes)
    }

    /// Counts a call, and says whether it fails.
    fn fails_now(&mut self) -> bool
        ensures listed { IsTrue result ↔ Contains self.old.failing self.old.calls }
        ensures calls { self.new.calls ≡ raised self.old.calls }
        ensures later { self.old.faults ≤ self.new.faults }
        ensures faults { self.new.faults ≡ (if result then raised self.old.faults else self.old.faults) }
        ensures files { self.new.files ≡ self.old.files }
        ensures failing { self.new.failing ≡ self.old.failing }
    {
        let call = self.calls;
        self.calls = call.saturating_add(1);
        if !self.failing.contains(&call) {
            return false;
        }
        self.faults = self.faults.saturating_add(1);
        true
    }
}

impl Tree for MemoryTree {
    ghost files = { λ t. Some t.files };

    ghost faults = { λ t. t.faults };

    fn read(&mut self, path: &str) -> Result<Text, TreeErr>
        ensures answer { IsReadAnswer (file_at self.old.files path.now) result }
        ensures same { self.new.files ≡ self.old.files }
        ensures cause { HasCause self.old.faults self.new.faults result }
        ensures short { IfOk result (λ bytes. length bytes ≤ file_limit) }
        ensures listed { (result ≡ Err TreeErr.Failed) ↔ Contains self.old.failing self.old.calls }
        ensures calls { self.new.calls ≡ raised self.old.calls }
        ensures counts { CountsFault self.old.faults self.new.faults result }
        ensures failing { self.new.failing ≡ self.old.failing }
    {
        if self.fails_now() {
            return Err(TreeErr::Failed);
        }
        self.tree.read(path)
    }

    fn list(&mut self, path: &str) -> Result<Entries, TreeErr>
        ensures answer { IsListAnswer path.now self.old.files result }
        ensures same { self.new.files ≡ self.old.files }
        ensures cause { HasCause self.old.faults self.new.faults result }
        ensures not_large { (len : ℕ) → result ≢ Err (TreeErr.TooLarge len) }
        ensures within { IfOk result (λ _. length path.now ≤ path_limit) }
        ensures text { IfOk result (λ entries. All (λ (entry : Entry). IsUtf8 entry.name) entries) }
        ensures listed { (result ≡ Err TreeErr.Failed) ↔ Contains self.old.failing self.old.calls }
        ensures calls { self.new.calls ≡ raised self.old.calls }
        ensures counts { CountsFault self.old.faults self.new.faults result }
        ensures failing { self.new.failing ≡ self.old.failing }
    {
        if self.fails_now() {
            return Err(TreeErr::Failed);
        }
        self.tree.list(path)
    }

    fn fault_count(&self) -> u64 {
        self.faults
    }
}
