ghost use Rattle.std.specs.Prelude.{◌≡◌, ◌++◌, ◌∷◌, [], ◌==◌, length, OnOk, string_bytes};
ghost use Rattle.std.specs.Str.{bytes_eq};
ghost use Rattle.std.specs.List.{list_any};
ghost use Rattle.package_folder.specs.Order.{compare_bytes, in_order, IsRising};
ghost use Rattle.package_folder.specs.Paths.{texts};

use farm_kinds::NoMemory;
use std::alloc::Global;
use std::cmp::Ordering;
use std::marker::Model;

/// Paths or names of files, each a text. Contracts see a list of their bytes.
#[derive(Debug, Drop)]
pub struct Paths {
    paths: Vec<String>,
}

impl Model for Paths {
    ghost use Rattle.std.specs.Prelude.{ℕ, List};
    ghost use Rattle.package_folder.specs.Paths.{texts};

    ghost Value = { List (List ℕ) };

    ghost view = { λ t. texts t.paths.items };
}

impl Paths {
    /// No paths.
    pub fn new(alloc: Global) -> Paths
        ensures { result ≡ [] }
    {
        Paths {
            paths: Vec::new(alloc),
        }
    }

    /// Adds a path at the end.
    pub fn push(&mut self, path: String) -> Result<(), NoMemory>
        ensures { OnOk result (self.new ≡ self.old ++ string_bytes path ∷ []) }
    {
        self.paths.push(path).map_err(|_| NoMemory)
    }

    /// Whether there are none.
    pub(crate) fn is_empty(&self) -> bool
        ensures { result ≡ (length self.now == 0) }
    {
        self.paths.is_empty()
    }

    /// How many there are.
    pub fn len(&self) -> usize
        ensures { result ≡ length self.now }
    {
        self.paths.len()
    }

    /// The paths in order.
    pub fn as_slice(&self) -> &[String]
        ensures { texts result.now ≡ self.now }
    {
        self.paths.as_slice()
    }

    /// Whether the path is among them, which are in the order of their bytes.
    pub fn has(&self, path: &str) -> bool
        requires { IsRising self.now }
        ensures { result ≡ list_any (bytes_eq path.now) self.now }
    {
        has_text(&self.paths, path)
    }

    /// Puts the paths in the order of their bytes, each once.
    pub fn put_in_order(&mut self)
        ensures order { self.new ≡ in_order self.old }
        ensures rising { IsRising self.new }
    {
        self.paths.sort_unstable();
        self.paths.dedup();
    }
}

/// Whether one of the strings is the text, where they are in the order of their bytes.
fn has_text(strings: &[String], text: &str) -> bool
    requires { IsRising (texts strings.now) }
    ensures { result ≡ list_any (bytes_eq text.now) (texts strings.now) }
{
    strings
        .binary_search_by(|string| compare(string, text))
        .is_ok()
}

/// How the bytes of the string stand to those of the text.
fn compare(string: &String, text: &str) -> Ordering
    ensures { result ≡ compare_bytes (string_bytes string.now) text.now }
{
    string.as_str().cmp(text)
}
