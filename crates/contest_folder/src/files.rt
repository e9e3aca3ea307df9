ghost use Rattle.std.specs.Prelude.{◌≡◌, ◌≢◌, ◌≤◌, IfOk, IfSome, length};
ghost use Rattle.farm_io.specs.Streams.{Rose};
ghost use Rattle.farm_tree.specs.Reading.{file_at, file_limit};
ghost use Rattle.package_folder.specs.Told.{WhereTold};
ghost use Rattle.contest_folder.specs.Telling.{Answers, file_within, file_in};

use crate::faults::ContestFault;
use farm_kinds::Text;
use farm_tree::{Tree, TreeErr};
use package_folder::{copy, in_folder};
use std::alloc::Global;

/// The file of this name in the folder, or None where there is none.
pub(crate) fn read_file<T: Tree>(
    alloc: Global,
    tree: &mut T,
    path: &str,
    name: &str,
) -> Result<Option<Text>, ContestFault>
    ensures file { WhereTold (T.files tree.old) (λ files. Answers result (file_in files path.now name.now)) }
    ensures short { IfOk result (λ file. IfSome file (λ bytes. length bytes ≤ file_limit)) }
    ensures same { T.files tree.new ≡ T.files tree.old }
    ensures later { T.faults tree.old ≤ T.faults tree.new }
    ensures cause { result ≡ Err ContestFault.Tree → Rose (T.faults tree.old) (T.faults tree.new) }
    ensures first { result ≢ Err ContestFault.Tree → T.faults tree.new ≡ T.faults tree.old }
{
    let file = in_folder(alloc, path, name)?;
    read_path(alloc, tree, file.as_str(), name)
}

/// The file at the path, which has this name in the contest.
fn read_path<T: Tree>(
    alloc: Global,
    tree: &mut T,
    path: &str,
    name: &str,
) -> Result<Option<Text>, ContestFault>
    ensures file { WhereTold (T.files tree.old) (λ files. Answers result (file_within name.now (file_at files path.now))) }
    ensures short { IfOk result (λ file. IfSome file (λ bytes. length bytes ≤ file_limit)) }
    ensures same { T.files tree.new ≡ T.files tree.old }
    ensures later { T.faults tree.old ≤ T.faults tree.new }
    ensures cause { result ≡ Err ContestFault.Tree → Rose (T.faults tree.old) (T.faults tree.new) }
    ensures first { result ≢ Err ContestFault.Tree → T.faults tree.new ≡ T.faults tree.old }
{
    match tree.read(path) {
        Ok(bytes) => Ok(Some(bytes)),
        Err(TreeErr::Absent) => Ok(None),
        Err(TreeErr::TooLarge { len }) => Err(ContestFault::TooLarge {
            name: copy(alloc, name.as_bytes())?,
            len,
        }),
        Err(TreeErr::Failed) => Err(ContestFault::Tree),
        Err(TreeErr::NoMemory) => Err(ContestFault::NoMemory),
    }
}
