use farm_kinds::{NoMemory, Text};
use farm_tree::{
    DiskTree, Entries, FILE_LIMIT, MemoryTree, ReliableTree, Tree, TreeErr, TreeFile, TreeFiles,
    read_whole,
};
use std::alloc::{AllocError, Global};
use std::fs::{Files, OpenFile};
use std::io::{ErrorKind, Read};
use std::process::Abort;
use std::test::Fail;
use std::{fs, io};

/// Whether the read gave these bytes.
fn holds(answer: &Result<Text, TreeErr>, bytes: &[u8]) -> bool {
    match answer {
        Ok(text) => text.as_slice() == bytes,
        Err(_) => false,
    }
}

/// Whether the call gave this error.
fn fails<A>(answer: &Result<A, TreeErr>, error: TreeErr) -> bool {
    match answer {
        Ok(_) => false,
        Err(given) => *given == error,
    }
}

/// A tree in memory without a file.
fn empty(alloc: Global) -> ReliableTree {
    ReliableTree::new(alloc, TreeFiles::new(alloc))
}

#[test]
fn gives_the_files_that_were_added(rt: HostRuntime) -> Result<(), Fail> {
    let alloc = rt.alloc();
    let mut files = TreeFiles::new(alloc);
    let settings = Text::from_vec(b"{}".to_vec(alloc)?);
    files.push(TreeFile::new(String::from_str(alloc, "farm.json")?, settings))?;
    let mut tree = ReliableTree::new(alloc, files);
    let added = add_files(&rt, &mut tree);
    drop(tree);
    added
}

/// Adds files to a tree with one file, and looks at what it gives then.
fn add_files(rt: &impl Abort, tree: &mut ReliableTree) -> Result<(), Fail> {
    assert!(rt; fails(&tree.read("a/b"), TreeErr::Absent));
    assert_eq!(rt; tree.add("a/b", b""), Ok(()));
    assert!(rt; holds(&tree.read("farm.json"), b"{}"));
    assert!(rt; holds(&tree.read("a/b"), b""));
    assert!(rt; fails(&tree.read("a"), TreeErr::Absent));
    assert_eq!(rt; tree.add("farm.json", b"[]"), Ok(()));
    assert!(rt; holds(&tree.read("farm.json"), b"[]"));
    assert!(rt; holds(&tree.read("a/b"), b""));
    Ok(())
}

#[test]
fn a_file_has_at_most_16_mebibytes(rt: HostRuntime) -> Result<(), Fail> {
    let mut bytes = vec![in rt.alloc(); b'x'; FILE_LIMIT]?;
    assert_eq!(rt; read_back(rt.alloc(), bytes.as_slice()), Ok(()));
    bytes.push(b'x')?;
    let error = TreeErr::TooLarge { len: 16_777_217 };
    assert_eq!(rt; read_back(rt.alloc(), bytes.as_slice()), Err(error));
    Ok(())
}

/// Adds a file with these bytes to a tree, and says why it does not give them.
fn read_back(alloc: Global, bytes: &[u8]) -> Result<(), TreeErr> {
    let mut tree = empty(alloc);
    let added = tree.add("file", bytes);
    let answer = tree.read("file");
    drop(tree);
    added.map_err(|_| TreeErr::NoMemory)?;
    match answer {
        Ok(text) if text.as_slice() == bytes => Ok(()),
        Ok(_) => Err(TreeErr::Failed),
        Err(error) => Err(error),
    }
}

/// Call 0 is a read, call 1 a listing, and so on in turn.
#[test]
fn each_listed_call_fails(rt: HostRuntime) -> Result<(), Fail> {
    let alloc = rt.alloc();
    for failing in 0..4u64 {
        let mut tree = MemoryTree::new(alloc, TreeFiles::new(alloc), [failing].to_vec(alloc)?);
        let called = call_each(&rt, &mut tree, failing);
        drop(tree);
        called?;
    }
    Ok(())
}

/// Calls a tree without a file whose call of this number fails.
fn call_each(rt: &impl Abort, tree: &mut MemoryTree, failing: u64) -> Result<(), Fail> {
    tree.add("a/file", b"text")?;
    for call in 0..4u64 {
        let (held, failed) = call_one(tree, call);
        assert_eq!(rt; failed, call == failing, "{call} of {failing}");
        assert_eq!(rt; held, call != failing, "{call} of {failing}");
    }
    assert!(rt; fails(&tree.read("a"), TreeErr::Absent));
    assert!(rt; fails(&tree.list("a/file"), TreeErr::Absent));
    Ok(())
}

/// Whether a call of this number gives what the tree holds, and whether it fails.
fn call_one(tree: &mut MemoryTree, call: u64) -> (bool, bool) {
    if call % 2 == 0 {
        let answer = tree.read("a/file");
        return (holds(&answer, b"text"), fails(&answer, TreeErr::Failed));
    }
    let answer = tree.list("a");
    (has_one(&answer, b"file"), fails(&answer, TreeErr::Failed))
}

/// Whether the listing gave one file with this name.
fn has_one(answer: &Result<Entries, TreeErr>, name: &[u8]) -> bool {
    match answer {
        Ok(entries) => match entries.as_slice() {
            [entry] => entry.name.as_slice() == name && !entry.folder,
            _ => false,
        },
        Err(_) => false,
    }
}

/// The files of the trees that are listed. Each holds its own path.
const PATHS: [&str; 6] = [
    "listed/b.in",
    "listed/b/c/deep",
    "listed/b/c/.hidden",
    "listed/a b/x",
    "listed/b/b",
    "listed/\u{e9}",
];

/// What each folder of them holds, a slash behind the folders.
const LISTINGS: [(&str, &str); 8] = [
    ("listed", "a b/ b.in b/ \u{e9}"),
    ("listed/b", "b c/"),
    ("listed/b/c", ".hidden deep"),
    ("listed/a b", "x"),
    ("listed/b/b", "absent"),
    ("listed/a", "absent"),
    ("listed/b/c/d", "absent"),
    ("", "absent"),
];

/// The names of a listing in order, a slash behind the folders.
fn names<T: Tree>(alloc: Global, tree: &mut T, path: &str) -> Result<String, AllocError> {
    let entries = match tree.list(path) {
        Ok(entries) => entries,
        Err(TreeErr::Absent) => return String::from_str(alloc, "absent"),
        Err(_) => return String::from_str(alloc, "fault"),
    };
    let mut names = Vec::new(alloc);
    for entry in entries.as_slice() {
        let name = std::str::from_utf8(entry.name.as_slice()).unwrap_or("?");
        let mut shown = String::from_str(alloc, name)?;
        if entry.folder {
            shown.push('/')?;
        }
        names.push(shown)?;
    }
    names.sort_unstable();
    let mut text = String::new(alloc);
    for name in &names {
        if !text.is_empty() {
            text.push(' ')?;
        }
        text.push_str(name.as_str())?;
    }
    Ok(text)
}

#[test]
fn both_trees_list_the_same(rt: HostRuntime) -> Result<(), Fail> {
    fs::create_dir_all(&rt, "listed/b/c")?;
    fs::create_dir_all(&rt, "listed/a b")?;
    for path in PATHS {
        fs::write(&rt, path, path)?;
    }
    let mut memory = empty(rt.alloc());
    let listed = list_memory(&rt, rt.alloc(), &mut memory);
    drop(memory);
    listed?;
    let mut disk = DiskTree::new(&rt, rt.alloc());
    list_all(&rt, rt.alloc(), &mut disk)?;
    assert_eq!(rt; disk.faults, 0);
    fs::remove_dir_all(&rt, "listed")?;
    Ok(())
}

/// Adds the files, and looks at each listing.
fn list_memory(rt: &impl Abort, alloc: Global, memory: &mut ReliableTree) -> Result<(), Fail> {
    for path in PATHS {
        memory.add(path, path.as_bytes())?;
    }
    list_all(rt, alloc, memory)
}

/// Looks at each listing.
fn list_all<T: Tree>(rt: &impl Abort, alloc: Global, tree: &mut T) -> Result<(), Fail> {
    for (folder, expected) in LISTINGS {
        let listed = names(alloc, tree, folder)?;
        assert_eq!(rt; listed.as_str(), expected, "{folder}");
    }
    Ok(())
}

#[test]
fn a_longer_path_is_no_folder_of_a_disk(rt: HostRuntime) -> Result<(), Fail> {
    let path = ["./"; 2048].concat(rt.alloc())?;
    let mut disk = DiskTree::new(&rt, rt.alloc());
    let longer = format!(in rt.alloc(); "{path}.")?;
    assert!(rt; fails(&disk.list(longer.as_str()), TreeErr::Failed));
    assert_eq!(rt; disk.faults, 1);
    Ok(())
}

/// Files of a folder of the disk, and the bytes that each gives.
const TEXTS: [(&str, &[u8]); 2] = [("text", b"alpha\nbeta\n"), ("folder/empty", b"")];

/// Paths of that folder at which there is no file.
const ABSENT: [&str; 5] = ["other", "folder", "folder/", "folder/other", "text/other"];

#[test]
fn reads_the_disk(rt: HostRuntime) -> Result<(), Fail> {
    fs::create_dir_all(&rt, "tree_of_test/folder")?;
    for (path, text) in TEXTS {
        fs::write(&rt, in_folder(rt.alloc(), path)?.as_str(), text)?;
    }
    fs::create(&rt, "tree_of_test/large")?.set_len(16_777_217)?;
    let mut tree = DiskTree::new(&rt, rt.alloc());
    read_disk(&rt, rt.alloc(), &mut tree)?;
    fs::remove_dir_all(&rt, "tree_of_test")?;
    Ok(())
}

/// The path of a file of the folder.
fn in_folder(alloc: Global, path: &str) -> Result<String, AllocError> {
    format!(in alloc; "tree_of_test/{path}")
}

/// Reads what is in the folder, and what is not.
fn read_disk<R: Files + Alloc<A = Global> + Clone + Drop>(
    rt: &impl Abort,
    alloc: Global,
    tree: &mut DiskTree<R>,
) -> Result<(), Fail> {
    for (path, text) in TEXTS {
        let answer = tree.read(in_folder(alloc, path)?.as_str());
        assert!(rt; holds(&answer, text), "{path}");
    }
    let large = tree.read("tree_of_test/large");
    assert!(rt; fails(&large, TreeErr::TooLarge { len: 16_777_217 }));
    for path in ABSENT {
        let answer = tree.read(in_folder(alloc, path)?.as_str());
        assert!(rt; fails(&answer, TreeErr::Absent), "{path}");
    }
    assert!(rt; fails(&tree.read(""), TreeErr::Absent));
    assert_eq!(rt; tree.faults, 0);
    assert!(rt; fails(&tree.read("tree_of_test/text\0"), TreeErr::Failed));
    assert_eq!(rt; tree.faults, 1);
    assert!(rt; holds(&tree.read("tree_of_test/text"), b"alpha\nbeta\n"));
    assert_eq!(rt; tree.faults, 1);
    Ok(())
}

/// A reader whose second read fails.
#[derive(Drop)]
struct Torn {
    reads: u32,
}

impl Read for Torn {
    fn read(&mut self, room: &mut [u8]) -> io::Result<usize> {
        self.reads = self.reads.saturating_add(1);
        if self.reads == 2 {
            return Err(io::Error::from(ErrorKind::Other));
        }
        let count = room.len().min(3);
        Ok(count)
    }
}

#[test]
fn a_file_that_tears_is_not_given(rt: HostRuntime) -> Result<(), Fail> {
    assert!(rt;
        fails(
            &read_whole(Torn { reads: 0 }, 100, rt.alloc()),
            TreeErr::Failed
        )
    );
    Ok(())
}

#[test]
fn a_file_that_grows_is_too_large(rt: HostRuntime) -> Result<(), Fail> {
    let endless = read_whole(io::repeat(b'x'), 100, rt.alloc());
    assert!(rt; fails(&endless, TreeErr::TooLarge { len: 16_777_217 }));
    Ok(())
}
