ghost use Rattle.std.specs.Prelude.{◌≡◌, ◌++◌, ◌∷◌, [], OnOk, OnErr, All};
ghost use Rattle.farm_tree.specs.declared.reads.TreeFile.{TreeFile};
ghost use Rattle.farm_tree.specs.Reading.{IsPath};

use crate::reads::TreeFile;
use farm_kinds::{NoMemory, Text};
use std::alloc::Global;
use std::marker::Model;

/// What a folder holds under one name.
#[derive(Debug, Drop)]
pub struct Entry {
    /// The name, which has no slash.
    pub name: Text,
    /// Whether it is a folder.
    pub folder: bool,
}

/// What a folder holds. Contracts see a list.
#[derive(Debug, Drop)]
pub struct Entries {
    entries: Vec<Entry>,
}

impl Model for Entries {
    ghost use Rattle.std.specs.Prelude.{List};
    ghost use Rattle.farm_tree.specs.declared.entries.Entry.{Entry};

    ghost Value = { List Entry };

    ghost view = { λ t. t.entries.items };
}

impl Entries {
    /// No entries.
    pub fn new(alloc: Global) -> Entries
        ensures { result ≡ [] }
    {
        Entries {
            entries: Vec::new(alloc),
        }
    }

    /// The entries of a vector, without taking memory.
    pub fn from_vec(entries: Vec<Entry>) -> Entries
        ensures { result ≡ entries.items }
    {
        Entries { entries }
    }

    /// Gives the entries back, without taking memory.
    pub fn into_vec(self) -> Vec<Entry>
        ensures { result.items ≡ self }
    {
        self.entries
    }

    /// Adds an entry at the end. At `NoMemory` nothing changes.
    pub fn push(&mut self, entry: Entry) -> Result<(), NoMemory>
        ensures ok { OnOk result (self.new ≡ self.old ++ entry ∷ []) }
        ensures err { OnErr result (self.new ≡ self.old) }
    {
        self.entries.push(entry).map_err(|_| NoMemory)
    }

    /// The entries in order.
    pub fn as_slice(&self) -> &[Entry]
        ensures { result.now ≡ self.now }
    {
        self.entries.as_slice()
    }
}

/// Files, of which each path has at most 4,096 bytes. Contracts see a list.
#[derive(Debug, Drop)]
pub struct TreeFiles {
    files: Vec<TreeFile>,
}

impl Model for TreeFiles {
    ghost use Rattle.std.specs.Prelude.{List, All};
    ghost use Rattle.farm_tree.specs.declared.reads.TreeFile.{TreeFile};
    ghost use Rattle.farm_tree.specs.Reading.{IsPath};

    ghost Value = { List TreeFile };

    ghost view = { λ t. t.files.items };

    ghost invariant = { λ t. All (λ (file : TreeFile). IsPath file.path) t.files.items };
}

impl TreeFiles {
    /// No files.
    pub fn new(alloc: Global) -> TreeFiles
        ensures { result ≡ [] }
    {
        TreeFiles {
            files: Vec::new(alloc),
        }
    }

    /// The files of a vector, without taking memory.
    pub fn from_vec(files: Vec<TreeFile>) -> TreeFiles
        requires { All (λ (file : TreeFile). IsPath file.path) files.items }
        ensures { result ≡ files.items }
    {
        TreeFiles { files }
    }

    /// Gives the files back, without taking memory.
    pub fn into_vec(self) -> Vec<TreeFile>
        ensures files { result.items ≡ self }
        ensures paths { All (λ (file : TreeFile). IsPath file.path) result.items }
    {
        self.files
    }

    /// Adds a file at the end. At `NoMemory` nothing changes.
    pub fn push(&mut self, file: TreeFile) -> Result<(), NoMemory>
        requires { IsPath file.path }
        ensures ok { OnOk result (self.new ≡ self.old ++ file ∷ []) }
        ensures err { OnErr result (self.new ≡ self.old) }
    {
        self.files.push(file).map_err(|_| NoMemory)
    }

    /// The files in order.
    pub fn as_slice(&self) -> &[TreeFile]
        ensures files { result.now ≡ self.now }
        ensures paths { All (λ (file : TreeFile). IsPath file.path) result.now }
    {
        self.files.as_slice()
    }
}
