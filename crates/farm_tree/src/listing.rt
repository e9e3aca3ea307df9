ghost use Rattle.std.specs.Prelude.{◌≡◌, ◌≢◌, ◌≤◌, IfOk, OnOk, OnErr, All, option_map, length};
ghost use Rattle.std.specs.Str.{IsUtf8};
ghost use Rattle.std.specs.List.{before_first, list_any, position};
ghost use Rattle.farm_tree.specs.declared.reads.TreeFile.{TreeFile};
ghost use Rattle.farm_tree.specs.declared.entries.Entry.{Entry};
ghost use Rattle.farm_tree.specs.Reading.{IsPath, path_limit};
ghost use Rattle.farm_tree.specs.Listing.{IsListAnswer, below, entry_to, is_slash, with_entry, same_entry};

use crate::entries::{Entries, Entry};
use crate::reads::{TreeErr, TreeFile};
use farm_kinds::{NoMemory, Text};
use std::alloc::Global;

/// What the folder holds of these files.
pub(crate) fn list_files(
    alloc: Global,
    files: &[TreeFile],
    folder: &str,
) -> Result<Entries, TreeErr>
    requires { All (λ (file : TreeFile). IsPath file.path) files.now }
    ensures answer { IsListAnswer folder.now files.now result }
    ensures not_failed { result ≢ Err TreeErr.Failed }
    ensures within { IfOk result (λ _. length folder.now ≤ path_limit) }
    ensures text { IfOk result (λ entries. All (λ (entry : Entry). IsUtf8 entry.name) entries) }
{
    let mut entries = Entries::new(alloc);
    for file in files {
        if let Some(rest) = below(folder, file.path.as_slice()) {
            add_entry(alloc, &mut entries, rest).map_err(|_| TreeErr::NoMemory)?;
        }
    }
    if entries.as_slice().is_empty() {
        return Err(TreeErr::Absent);
    }
    Ok(entries)
}

/// What follows the folder's path and a slash, where the path begins so.
pub fn below<'a>(folder: &str, path: &'a [u8]) -> Option<&'a [u8]>
    ensures { option_map (λ rest. rest.now) result ≡ below folder.now path.now }
{
    let rest = path.strip_prefix(folder.as_bytes())?;
    let (first, after) = rest.split_first()?;
    if *first == b'/' { Some(after) } else { None }
}

/// Adds the entry that leads to what lies below the folder, where it is not among the entries.
fn add_entry(alloc: Global, entries: &mut Entries, rest: &[u8]) -> Result<(), NoMemory>
    ensures { OnOk result (entries.new ≡ with_entry (entry_to rest.now) entries.old) }
{
    let (name, folder) = first_component(rest);
    if is_among(entries.as_slice(), name, folder) {
        return Ok(());
    }
    let name = Text::from_vec(name.to_vec(alloc)?);
    entries.push(Entry { name, folder })
}

/// The first component, and whether more follows.
fn first_component(rest: &[u8]) -> (&[u8], bool)
    ensures name { result.0.now ≡ before_first is_slash rest.now }
    ensures folder { result.1 ≡ list_any is_slash rest.now }
{
    match first_slash(rest) {
        Some(end) => (&rest[..end], true),
        None => (rest, false),
    }
}

fn first_slash(rest: &[u8]) -> Option<usize>
    ensures { result ≡ position is_slash rest.now }
{
    rest.iter().position(|b| *b == b'/')
}

/// Whether an entry with this name and kind is there.
fn is_among(entries: &[Entry], name: &[u8], folder: bool) -> bool
    ensures { result ≡ list_any (same_entry (record { name = name.now; folder = folder })) entries.now }
{
    entries.iter().any(|entry| entry.folder == folder && entry.name.as_slice() == name)
}
