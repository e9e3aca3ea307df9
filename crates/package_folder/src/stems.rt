ghost use Rattle.std.specs.Prelude.{◌≡◌, ◌≢◌, ◌≤◌, ℕ, List, IfOk, find, length, option_map, codes};
ghost use Rattle.farm_tree.specs.Listing.{in_folder};
ghost use Rattle.package_folder.specs.Told.{Answers};
ghost use Rattle.package_folder.specs.Order.{IsRising};
ghost use Rattle.package_folder.specs.Paths.{texts};
ghost use Rattle.package_folder.specs.Names.{name_below, is_below, is_groups, stem_of, stems_among, stems_of, lacks_answer, few_enough, without_in, test_limit};

use crate::files::{copy, in_folder, with_ending};
use crate::order::Paths;
use crate::package::PackageFault;
use farm_kinds::{NoMemory, Text};
use std::alloc::Global;

/// How many tests a problem has at most.
const TEST_LIMIT: usize = 1000;

/// The tests that the files below the folder make, or the first fault among their paths.
pub(crate) fn stems_of(alloc: Global, folder: &str, paths: &Paths) -> Result<Paths, PackageFault>
    requires { IsRising paths.now }
    ensures stems { Answers result (stems_of folder.now paths.now) }
    ensures some { IfOk result (λ stems. 1 ≤ length stems) }
    ensures few { IfOk result (λ stems. length stems ≤ test_limit) }
    ensures not_tree { result ≢ Err PackageFault.Tree }
{
    if let Some(path) = first_groups(paths.as_slice()) {
        return Err(PackageFault::Groups {
            name: name_below(alloc, folder, path)?,
        });
    }
    let stems = stems_among(alloc, folder, paths.as_slice())?;
    if let Some(stem) = first_lacking(alloc, paths, stems.as_slice())? {
        return Err(PackageFault::MissingAnswer {
            name: name_below(alloc, folder, stem)?,
        });
    }
    few_enough(stems)
}

/// The tests, where they are from 1 to 1,000.
fn few_enough(stems: Paths) -> Result<Paths, PackageFault>
    ensures stems { result ≡ few_enough stems }
    ensures some { IfOk result (λ stems. 1 ≤ length stems) }
    ensures few { IfOk result (λ stems. length stems ≤ test_limit) }
    ensures not_tree { result ≢ Err PackageFault.Tree }
{
    let count = stems.len();
    if count == 0 {
        return Err(PackageFault::NoTests);
    }
    if count > TEST_LIMIT {
        return Err(PackageFault::TooManyTests {
            count: count as u64,
        });
    }
    Ok(stems)
}

/// The first file of test groups.
fn first_groups(paths: &[String]) -> Option<&str>
    ensures { option_map (λ path. path.now) result ≡ find is_groups (texts paths.now) }
{
    for path in paths {
        if path.as_str().ends_with("/testdata.yaml") {
            return Some(path.as_str());
        }
    }
    None
}

/// What the path is called below the folder.
pub fn name_below(alloc: Global, folder: &str, path: &str) -> Result<Text, NoMemory>
    ensures { IfOk result (λ name. name ≡ name_below folder.now path.now) }
{
    match farm_tree::below(folder, path.as_bytes()) {
        Some(name) => copy(alloc, name),
        None => Ok(Text::new(alloc)),
    }
}

/// The tests whose inputs are among the paths, in order.
fn stems_among(alloc: Global, folder: &str, paths: &[String]) -> Result<Paths, NoMemory>
    ensures { IfOk result (λ stems. stems ≡ stems_among folder.now (texts paths.now)) }
{
    let sample = in_folder(alloc, folder, "sample")?;
    let secret = in_folder(alloc, folder, "secret")?;
    let mut stems = Paths::new(alloc);
    for path in paths {
        if let Some(stem) = stem_of(sample.as_str(), secret.as_str(), path.as_str()) {
            stems.push(String::from_str(alloc, stem)?)?;
        }
    }
    stems.put_in_order();
    Ok(stems)
}

/// The path of an input without its ending.
fn stem_of<'a>(sample: &str, secret: &str, path: &'a str) -> Option<&'a str>
    ensures { (folder : List ℕ) → sample.now ≡ in_folder folder (codes "sample") → secret.now ≡ in_folder folder (codes "secret") → option_map (λ stem. stem.now) result ≡ stem_of folder path.now }
{
    let stem = without_ending(path)?;
    if is_below(sample, path) || is_below(secret, path) {
        Some(stem)
    } else {
        None
    }
}

/// The path of a file that ends in `.in`, without that.
fn without_ending(path: &str) -> Option<&str>
    ensures { option_map (λ stem. stem.now) result ≡ without_in path.now }
{
    path.strip_suffix(".in")
}

/// Whether the path lies below the folder.
fn is_below(folder: &str, path: &str) -> bool
    ensures { result ≡ is_below folder.now path.now }
{
    farm_tree::below(folder, path.as_bytes()).is_some()
}

/// The first test without an answer among the paths.
fn first_lacking<'a>(
    alloc: Global,
    paths: &Paths,
    stems: &'a [String],
) -> Result<Option<&'a str>, NoMemory>
    requires { IsRising paths.now }
    ensures { IfOk result (λ stem. option_map (λ text. text.now) stem ≡ find (lacks_answer paths.now) (texts stems.now)) }
{
    for stem in stems {
        let answer = with_ending(alloc, stem.as_str(), ".ans")?;
        if !paths.has(answer.as_str()) {
            return Ok(Some(stem.as_str()));
        }
    }
    Ok(None)
}
