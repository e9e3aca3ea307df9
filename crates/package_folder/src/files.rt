ghost use Rattle.std.specs.Prelude.{◌≡◌, ◌≢◌, ◌≤◌, ◌++◌, ◌∷◌, IfOk, IfSome, string_bytes, length};
ghost use Rattle.farm_io.specs.Streams.{Rose};
ghost use Rattle.farm_tree.specs.Reading.{file_at, file_limit};
ghost use Rattle.farm_tree.specs.Listing.{in_folder};
ghost use Rattle.package_folder.specs.Told.{WhereTold, Answers};
ghost use Rattle.package_folder.specs.Reading.{file_within};

use crate::package::PackageFault;
use farm_kinds::{NoMemory, Text};
use farm_tree::{Tree, TreeErr};
use std::alloc::Global;

/// The path of what has this name in the folder.
pub fn in_folder(alloc: Global, folder: &str, name: &str) -> Result<String, NoMemory>
    ensures { IfOk result (λ path. string_bytes path ≡ in_folder folder.now name.now) }
{
    let mut path = String::from_str(alloc, folder)?;
    path.push('/')?;
    path.push_str(name)?;
    Ok(path)
}

/// The text with this ending.
pub fn with_ending(alloc: Global, text: &str, ending: &str) -> Result<String, NoMemory>
    ensures { IfOk result (λ path. string_bytes path ≡ text.now ++ ending.now) }
{
    let mut path = String::from_str(alloc, text)?;
    path.push_str(ending)?;
    Ok(path)
}

/// The bytes again.
pub fn copy(alloc: Global, bytes: &[u8]) -> Result<Text, NoMemory>
    ensures { IfOk result (λ text. text ≡ bytes.now) }
{
    Ok(Text::from_vec(bytes.to_vec(alloc)?))
}

/// The file at the path, which has this name in the package, or None where there is none.
pub fn read_file<T: Tree>(
    alloc: Global,
    tree: &mut T,
    path: &str,
    name: &[u8],
) -> Result<Option<Text>, PackageFault>
    ensures file { WhereTold (T.files tree.old) (λ files. Answers result (file_within name.now (file_at files path.now))) }
    ensures short { IfOk result (λ file. IfSome file (λ bytes. length bytes ≤ file_limit)) }
    ensures same { T.files tree.new ≡ T.files tree.old }
    ensures later { T.faults tree.old ≤ T.faults tree.new }
    ensures cause { result ≡ Err PackageFault.Tree → Rose (T.faults tree.old) (T.faults tree.new) }
    ensures first { result ≢ Err PackageFault.Tree → T.faults tree.new ≡ T.faults tree.old }
{
    match tree.read(path) {
        Ok(bytes) => Ok(Some(bytes)),
        Err(TreeErr::Absent) => Ok(None),
        Err(TreeErr::TooLarge { len }) => Err(PackageFault::TooLarge {
            name: copy(alloc, name)?,
            len,
        }),
        Err(TreeErr::Failed) => Err(PackageFault::Tree),
        Err(TreeErr::NoMemory) => Err(PackageFault::NoMemory),
    }
}
