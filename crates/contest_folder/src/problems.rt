ghost use Rattle.std.specs.Prelude.{◌≡◌, ◌≢◌, ◌≤◌, ◌++◌, ◌∷◌, [], List, ℕ, length, map, All, IfOk, IfErr, OnOk, None, false, string_bytes, find, option_map};
ghost use Rattle.std.specs.Str.{IsUtf8};
ghost use Rattle.farm_io.specs.Streams.{Rose};
ghost use Rattle.farm_tree.specs.declared.entries.Entry.{Entry};
ghost use Rattle.package_folder.specs.Told.{WhereTold};
ghost use Rattle.farm_tree.specs.Listing.{entries_below};
ghost use Rattle.package_folder.specs.Order.{IsRising, in_order};
ghost use Rattle.package_folder.specs.Package.{IsPackage};
ghost use Rattle.package_folder.specs.Paths.{texts};
ghost use Rattle.contest_folder.specs.declared.roster.Problem.{Problem};
ghost use Rattle.contest_folder.specs.Telling.{Answers, IsStop, listed};
ghost use Rattle.contest_folder.specs.RosterShape.{names_of, problem_limit};
ghost use Rattle.contest_folder.specs.Problems.{problems_in, shorts_in, shorts_checked, shorts_counted, folders_of, is_bad_name, packages_in, problem_at, problems_of};

use crate::faults::ContestFault;
use crate::roster::Problem;
use farm_kinds::{Name, NoMemory};
use farm_tree::{Entry, Tree, TreeErr};
use package_folder::{PackageFault, Paths, copy, in_folder, read_package};
use std::alloc::Global;
use std::str;

/// How many problems a contest has at most.
const PROBLEM_LIMIT: usize = 1000;

/// The problems of the contest in the folder at the path, where a second of time limit stands for `ips` instructions.
pub(crate) fn read_problems<T: Tree>(
    alloc: Global,
    tree: &mut T,
    path: &str,
    ips: u32,
) -> Result<Vec<Problem>, ContestFault>
    ensures problems { WhereTold (T.files tree.old) (λ files. Answers (listed result) (problems_in files path.now ips)) }
    ensures few { IfOk result (λ problems. length problems.items ≤ problem_limit) }
    ensures rising { IfOk result (λ problems. IsRising (names_of problems.items)) }
    ensures packages { IfOk result (λ problems. All (λ (problem : Problem). IsPackage problem.contents) problems.items) }
    ensures same { T.files tree.new ≡ T.files tree.old }
    ensures later { T.faults tree.old ≤ T.faults tree.new }
    ensures cause { result ≡ Err ContestFault.Tree → Rose (T.faults tree.old) (T.faults tree.new) }
    ensures first { result ≢ Err ContestFault.Tree → T.faults tree.new ≡ T.faults tree.old }
{
    let folder = in_folder(alloc, path, "problems")?;
    let shorts = checked(alloc, read_shorts(alloc, tree, folder.as_str())?)?;
    read_packages(alloc, tree, folder.as_str(), ips, shorts.as_slice())
}

/// The names of the folders in the folder, in the order of their bytes. Of the faults only `Tree` and `NoMemory` come.
pub fn read_shorts<T: Tree>(
    alloc: Global,
    tree: &mut T,
    folder: &str,
) -> Result<Paths, ContestFault>
    ensures shorts { WhereTold (T.files tree.old) (λ files. IfOk result (λ shorts. shorts ≡ in_order (folders_of (entries_below folder.now files)))) }
    ensures rising { IfOk result IsRising }
    ensures stopped { IfErr result IsStop }
    ensures same { T.files tree.new ≡ T.files tree.old }
    ensures later { T.faults tree.old ≤ T.faults tree.new }
    ensures cause { result ≡ Err ContestFault.Tree → Rose (T.faults tree.old) (T.faults tree.new) }
    ensures first { result ≢ Err ContestFault.Tree → T.faults tree.new ≡ T.faults tree.old }
{
    let mut shorts = list_folders(alloc, tree, folder)?;
    shorts.put_in_order();
    Ok(shorts)
}

/// The names of the folders in the folder, in any order.
fn list_folders<T: Tree>(alloc: Global, tree: &mut T, folder: &str) -> Result<Paths, ContestFault>
    ensures names { WhereTold (T.files tree.old) (λ files. IfOk result (λ names. in_order names ≡ in_order (folders_of (entries_below folder.now files)))) }
    ensures stopped { IfErr result IsStop }
    ensures same { T.files tree.new ≡ T.files tree.old }
    ensures later { T.faults tree.old ≤ T.faults tree.new }
    ensures cause { result ≡ Err ContestFault.Tree → Rose (T.faults tree.old) (T.faults tree.new) }
    ensures first { result ≢ Err ContestFault.Tree → T.faults tree.new ≡ T.faults tree.old }
{
    match tree.list(folder) {
        Ok(entries) => Ok(names_of_folders(alloc, entries.as_slice())?),
        Err(TreeErr::Absent) => Ok(Paths::new(alloc)),
        // no listing is too large
        Err(TreeErr::TooLarge { .. }) => Ok(Paths::new(alloc)),
        Err(TreeErr::Failed) => Err(ContestFault::Tree),
        Err(TreeErr::NoMemory) => Err(ContestFault::NoMemory),
    }
}

/// The names of the entries that are folders.
fn names_of_folders(alloc: Global, entries: &[Entry]) -> Result<Paths, NoMemory>
    requires { All (λ (entry : Entry). IsUtf8 entry.name) entries.now }
    ensures { IfOk result (λ names. names ≡ folders_of entries.now) }
{
    let mut names = Paths::new(alloc);
    for entry in entries {
        add_folder(alloc, entry, &mut names)?;
    }
    Ok(names)
}

/// Adds the name of an entry that is a folder.
fn add_folder(alloc: Global, entry: &Entry, names: &mut Paths) -> Result<(), NoMemory>
    requires { IsUtf8 entry.now.name }
    ensures { OnOk result (names.new ≡ names.old ++ folders_of (entry.now ∷ [])) }
{
    if !entry.folder {
        return Ok(());
    }
    names.push(name_of(alloc, entry)?)
}

/// The name of an entry.
fn name_of(alloc: Global, entry: &Entry) -> Result<String, NoMemory>
    requires { IsUtf8 entry.now.name }
    ensures { IfOk result (λ name. string_bytes name ≡ entry.now.name) }
{
    let name = str::from_utf8(entry.name.as_slice()).unwrap();
    Ok(String::from_str(alloc, name)?)
}

/// The names, where each is a name of a problem and they are not too many.
fn checked(alloc: Global, shorts: Paths) -> Result<Paths, ContestFault>
    ensures shorts { Answers result (shorts_checked shorts) }
    ensures kept { IfOk result (λ kept. kept ≡ shorts) }
    ensures few { IfOk result (λ kept. length kept ≤ problem_limit) }
    ensures named { IfOk result (λ kept. find is_bad_name kept ≡ None) }
    ensures not_tree { result ≢ Err ContestFault.Tree }
{
    if let Some(name) = first_bad_name(shorts.as_slice()) {
        return Err(ContestFault::BadName {
            name: copy(alloc, name.as_bytes())?,
        });
    }
    counted(shorts)
}

/// The names, where they are not too many.
fn counted(shorts: Paths) -> Result<Paths, ContestFault>
    ensures shorts { result ≡ shorts_counted shorts }
    ensures kept { IfOk result (λ kept. kept ≡ shorts) }
    ensures few { IfOk result (λ kept. length kept ≤ problem_limit) }
    ensures not_tree { result ≢ Err ContestFault.Tree }
{
    let count = shorts.len();
    if count > PROBLEM_LIMIT {
        return Err(ContestFault::TooManyProblems {
            count: count as u64,
        });
    }
    Ok(shorts)
}

/// The first of the names that is no name of a problem.
fn first_bad_name(shorts: &[String]) -> Option<&str>
    ensures { option_map (λ name. name.now) result ≡ find is_bad_name (texts shorts.now) }
{
    for short in shorts {
        if Name::read(short.as_str().as_bytes()).is_none() {
            return Some(short.as_str());
        }
    }
    None
}

/// The packages of these names in the folder.
fn read_packages<T: Tree>(
    alloc: Global,
    tree: &mut T,
    folder: &str,
    ips: u32,
    shorts: &[String],
) -> Result<Vec<Problem>, ContestFault>
    requires { find is_bad_name (texts shorts.now) ≡ None }
    ensures problems { WhereTold (T.files tree.old) (λ files. Answers (listed result) (packages_in files folder.now ips (texts shorts.now))) }
    ensures named { IfOk result (λ problems. names_of problems.items ≡ texts shorts.now) }
    ensures packages { IfOk result (λ problems. All (λ (problem : Problem). IsPackage problem.contents) problems.items) }
    ensures same { T.files tree.new ≡ T.files tree.old }
    ensures later { T.faults tree.old ≤ T.faults tree.new }
    ensures cause { result ≡ Err ContestFault.Tree → Rose (T.faults tree.old) (T.faults tree.new) }
    ensures first { result ≢ Err ContestFault.Tree → T.faults tree.new ≡ T.faults tree.old }
{
    let mut problems = Vec::new(alloc);
    for short in shorts {
        let problem = read_problem(alloc, tree, folder, ips, short.as_str())?;
        problems.push(problem).map_err(|_| ContestFault::NoMemory)?;
    }
    Ok(problems)
}

/// The package of this name in the folder.
fn read_problem<T: Tree>(
    alloc: Global,
    tree: &mut T,
    folder: &str,
    ips: u32,
    short: &str,
) -> Result<Problem, ContestFault>
    requires { is_bad_name short.now ≡ false }
    ensures problem { WhereTold (T.files tree.old) (λ files. Answers result (problem_at files folder.now ips short.now)) }
    ensures named { IfOk result (λ problem. problem.name ≡ short.now) }
    ensures sound { IfOk result (λ problem. IsPackage problem.contents) }
    ensures same { T.files tree.new ≡ T.files tree.old }
    ensures later { T.faults tree.old ≤ T.faults tree.new }
    ensures cause { result ≡ Err ContestFault.Tree → Rose (T.faults tree.old) (T.faults tree.new) }
    ensures first { result ≢ Err ContestFault.Tree → T.faults tree.new ≡ T.faults tree.old }
{
    let Some(name) = Name::read(short.as_bytes()) else {
        // the names were looked at before
        return Err(ContestFault::BadName {
            name: copy(alloc, short.as_bytes())?,
        });
    };
    let path = in_folder(alloc, folder, short)?;
    match read_package(alloc, tree, path.as_str(), ips) {
        Ok(contents) => Ok(Problem { name, contents }),
        Err(PackageFault::Tree) => Err(ContestFault::Tree),
        Err(PackageFault::NoMemory) => Err(ContestFault::NoMemory),
        Err(fault) => Err(ContestFault::Package {
            short: copy(alloc, short.as_bytes())?,
            fault,
        }),
    }
}
