ghost use Rattle.std.specs.Prelude.{◌≡◌, ◌≢◌, ◌≤◌, List, ℕ, length, Option, IfOk, IfSome, All, string_bytes};
ghost use Rattle.std.specs.Str.{IsUtf8};
ghost use Rattle.farm_tree.specs.declared.reads.TreeFile.{TreeFile};
ghost use Rattle.farm_tree.specs.declared.entries.Entry.{Entry};
ghost use Rattle.farm_tree.specs.Reading.{IsReadAnswer, HasCause, IsPath, file_at, file_limit, path_limit};
ghost use Rattle.farm_tree.specs.Listing.{IsListAnswer};

use crate::entries::Entries;
use farm_kinds::Text;

/// How many bytes a file has at most: 16 MiB.
pub const FILE_LIMIT: usize = 16_777_216;

/// How many bytes a path has at most.
pub const PATH_LIMIT: usize = 4096;

/// One file of a tree.
#[derive(Debug, Drop)]
pub struct TreeFile {
    /// Where it is.
    pub path: Text,
    /// What it holds.
    pub bytes: Text,
}

impl TreeFile {
    /// The file at the path, without taking memory.
    pub fn new(path: String, bytes: Text) -> TreeFile
        requires { length (string_bytes path) ≤ path_limit }
        ensures path { result.path ≡ string_bytes path }
        ensures bytes { result.bytes ≡ bytes }
        ensures fits { IsPath result.path }
    {
        TreeFile {
            path: Text::from_vec(path.into_bytes()),
            bytes,
        }
    }
}

/// Why [`Tree::read`] gives no bytes, and [`Tree::list`] no entries.
#[derive(Clone, Copy, Debug, PartialEq, Eq)]
pub enum TreeErr {
    /// No file, or no folder, has the path.
    Absent,
    /// The file has so many bytes, which are more than 16 MiB.
    TooLarge { len: u64 },
    /// The tree failed.
    Failed,
    /// No memory was left.
    NoMemory,
}

/// Files, each at a path.
///
/// A path names a file byte by byte: `a/b` is the file `b` of the folder `a`, and a folder is where the path of
/// some file goes on with a slash. No path is special: the folder `` holds the paths that begin with a slash, and
/// `a/` is another folder than `a`, whose entries lie behind `a//`. (Over a disk the system decides what
/// such paths name.)
pub trait Tree {
    /// The files, where the tree tells them.
    ghost files: { Self → Option (List TreeFile) };
    /// How often the tree has failed.
    ghost faults: { Self → ℕ };

    /// The bytes of the file at the path.
    fn read(&mut self, path: &str) -> Result<Text, TreeErr>
        ensures answer { IfSome (files self.old) (λ held. IsReadAnswer (file_at held path.now) result) }
        ensures same { files self.new ≡ files self.old }
        ensures cause { HasCause (faults self.old) (faults self.new) result }
        ensures short { IfOk result (λ bytes. length bytes ≤ file_limit) };

    /// What the folder holds: the first component of each path below it, once, in any order. It is a folder where
    /// the path goes on. `Absent` comes where no file lies below the path, and `TooLarge` never.
    fn list(&mut self, path: &str) -> Result<Entries, TreeErr>
        ensures answer { IfSome (files self.old) (λ held. IsListAnswer path.now held result) }
        ensures same { files self.new ≡ files self.old }
        ensures cause { HasCause (faults self.old) (faults self.new) result }
        ensures not_large { (len : ℕ) → result ≢ Err (TreeErr.TooLarge len) }
        ensures within { IfOk result (λ _. length path.now ≤ path_limit) }
        ensures text { IfOk result (λ entries. All (λ (entry : Entry). IsUtf8 entry.name) entries) };

    /// How often the tree has failed: a caller that is given no answer of a call can find out by it that the call failed.
    fn fault_count(&self) -> u64
        ensures { result ≡ faults self.now };
}
