ghost use Rattle.std.specs.Prelude.{◌≡◌, None};

use farm_kinds::Text;
use farm_tree::{DiskTree, Entries, Tree, TreeErr};
use std::alloc::Global;
use std::fs::Files;

/// The files of the disk, and the path of the last call that failed, by which a person can be told which one it was.
#[derive(Drop)]
pub struct Watched<R> {
    tree: DiskTree<R>,
    failed: Option<String>,
}

impl<R> Watched<R> {
    /// A tree over the files, of which no call has failed yet.
    pub fn new(files: R, alloc: Global) -> Watched<R>
        ensures { result.tree.faults ≡ 0 }
    {
        Watched {
            tree: DiskTree::new(files, alloc),
            failed: None,
        }
    }

    /// The path of the last call that failed. None where none has, or where no memory was left to remember it.
    pub fn failed(&self) -> Option<&str> {
        match &self.failed {
            Some(path) => Some(path.as_str()),
            None => None,
        }
    }

    /// Remembers the path where the call has failed.
    fn keep<A>(&mut self, path: &str, answer: &Result<A, TreeErr>)
        ensures { self.new.tree ≡ self.old.tree }
    {
        if let Err(TreeErr::Failed) = answer {
            self.failed = String::from_str(self.tree.alloc, path).ok();
        }
    }
}

impl<R: Files + Alloc<A = Global> + Clone + Drop> Tree for Watched<R> {
    ghost files = { λ _. None };

    ghost faults = { λ t. t.tree.faults };

    fn read(&mut self, path: &str) -> Result<Text, TreeErr> {
        let answer = self.tree.read(path);
        self.keep(path, &answer);
        answer
    }

    fn list(&mut self, path: &str) -> Result<Entries, TreeErr> {
        let answer = self.tree.list(path);
        self.keep(path, &answer);
        answer
    }

    fn fault_count(&self) -> u64 {
        self.tree.fault_count()
    }
}
