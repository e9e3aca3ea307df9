ghost use Rattle.std.specs.Prelude.{◌≡◌, ◌≢◌, ◌≤◌, ◌++◌, [], ◌∷◌, ℕ, List, IfOk, IfErr, OnOk, All, string_bytes};
ghost use Rattle.std.specs.Str.{IsUtf8};
ghost use Rattle.farm_io.specs.Streams.{Rose};
ghost use Rattle.farm_tree.specs.declared.entries.Entry.{Entry};
ghost use Rattle.farm_tree.specs.Listing.{in_folder};
ghost use Rattle.package_folder.specs.Told.{WhereTold, IsStop};
ghost use Rattle.package_folder.specs.Names.{paths_below};
ghost use Rattle.package_folder.specs.Order.{IsRising};
ghost use Rattle.package_folder.specs.Walk.{Reaches, Visits, Deepens, DeepensBy, files_among, folders_among};

use crate::files::in_folder;
use crate::order::Paths;
use crate::package::PackageFault;
use farm_kinds::NoMemory;
use farm_tree::{Entry, Tree, TreeErr};
use std::alloc::Global;
use std::str;

/// The paths of all files below the folder, in the order of their bytes, each once.
///
/// It lists folders level by level. A folder whose path is as long as a path can be is refused by the tree, so
/// the levels come to an end whatever the tree tells.
pub fn paths_below<T: Tree>(
    alloc: Global,
    tree: &mut T,
    folder: &str,
) -> Result<Paths, PackageFault>
    ensures paths { WhereTold (T.files tree.old) (λ files. IfOk result (λ paths. paths ≡ paths_below folder.now files)) }
    ensures rising { IfOk result IsRising }
    ensures same { T.files tree.new ≡ T.files tree.old }
    ensures later { T.faults tree.old ≤ T.faults tree.new }
    ensures stopped { IfErr result IsStop }
    ensures cause { result ≡ Err PackageFault.Tree → Rose (T.faults tree.old) (T.faults tree.new) }
    ensures first { result ≢ Err PackageFault.Tree → T.faults tree.new ≡ T.faults tree.old }
{
    let mut found = Paths::new(alloc);
    let mut folders = Paths::new(alloc);
    folders.push(String::from_str(alloc, folder).map_err(|_| PackageFault::NoMemory)?)?;
    'levels: while !folders.is_empty() {
        folders = list_level(alloc, tree, &folders, &mut found)?;
    }
    found.put_in_order();
    Ok(found)
}

/// Lists each of these folders, adds the files that they hold to what was found, and gives the folders.
fn list_level<T: Tree>(
    alloc: Global,
    tree: &mut T,
    folders: &Paths,
    found: &mut Paths,
) -> Result<Paths, PackageFault>
    ensures reaches { WhereTold (T.files tree.old) (λ files. (root : List ℕ) → Reaches files root found.old folders.now → IfOk result (λ inner. Reaches files root found.new inner)) }
    ensures deepens { IfOk result (λ inner. Deepens folders.now inner) }
    ensures same { T.files tree.new ≡ T.files tree.old }
    ensures later { T.faults tree.old ≤ T.faults tree.new }
    ensures stopped { IfErr result IsStop }
    ensures cause { result ≡ Err PackageFault.Tree → Rose (T.faults tree.old) (T.faults tree.new) }
    ensures first { result ≢ Err PackageFault.Tree → T.faults tree.new ≡ T.faults tree.old }
{
    let mut inner = Paths::new(alloc);
    for folder in folders.as_slice() {
        list_folder(alloc, tree, folder.as_str(), found, &mut inner)?;
    }
    Ok(inner)
}

/// Lists a folder, and adds what it holds to the files that were found and to the folders.
fn list_folder<T: Tree>(
    alloc: Global,
    tree: &mut T,
    folder: &str,
    found: &mut Paths,
    folders: &mut Paths,
) -> Result<(), PackageFault>
    ensures visits { WhereTold (T.files tree.old) (λ files. OnOk result (Visits files folder.now found.old found.new folders.old folders.new)) }
    ensures deepens { OnOk result (DeepensBy folder.now folders.old folders.new) }
    ensures same { T.files tree.new ≡ T.files tree.old }
    ensures later { T.faults tree.old ≤ T.faults tree.new }
    ensures stopped { IfErr result IsStop }
    ensures cause { result ≡ Err PackageFault.Tree → Rose (T.faults tree.old) (T.faults tree.new) }
    ensures first { result ≢ Err PackageFault.Tree → T.faults tree.new ≡ T.faults tree.old }
{
    match tree.list(folder) {
        Ok(entries) => Ok(add_entries(alloc, folder, entries.as_slice(), found, folders)?),
        Err(TreeErr::Absent) => Ok(()),
        // no listing is too large
        Err(TreeErr::TooLarge { .. }) => Ok(()),
        Err(TreeErr::Failed) => Err(PackageFault::Tree),
        Err(TreeErr::NoMemory) => Err(PackageFault::NoMemory),
    }
}

/// Adds the paths of the folder's entries to the files and to the folders.
fn add_entries(
    alloc: Global,
    folder: &str,
    entries: &[Entry],
    files: &mut Paths,
    folders: &mut Paths,
) -> Result<(), NoMemory>
    requires { All (λ (entry : Entry). IsUtf8 entry.name) entries.now }
    ensures files { OnOk result (files.new ≡ files.old ++ files_among folder.now entries.now) }
    ensures folders { OnOk result (folders.new ≡ folders.old ++ folders_among folder.now entries.now) }
{
    for entry in entries {
        let path = entry_path(alloc, folder, entry)?;
        if entry.folder {
            folders.push(path)?;
        } else {
            files.push(path)?;
        }
    }
    Ok(())
}

/// The path of an entry of the folder.
fn entry_path(alloc: Global, folder: &str, entry: &Entry) -> Result<String, NoMemory>
    requires { IsUtf8 entry.now.name }
    ensures { IfOk result (λ path. string_bytes path ≡ in_folder folder.now entry.now.name) }
{
    let name = str::from_utf8(entry.name.as_slice()).unwrap();
    in_folder(alloc, folder, name)
}
