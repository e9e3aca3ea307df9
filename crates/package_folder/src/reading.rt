ghost use Rattle.std.specs.Prelude.{◌≡◌, ◌≢◌, ◌≤◌, length, IfOk};
ghost use Rattle.farm_io.specs.Streams.{Rose};
ghost use Rattle.package_folder.specs.Told.{WhereTold, Answers};
ghost use Rattle.package_folder.specs.Paths.{texts};
ghost use Rattle.package_folder.specs.Names.{test_limit};
ghost use Rattle.package_folder.specs.Package.{package_of, data_in, IsPackage};
ghost use Rattle.package_folder.specs.Reading.{yaml_in, limit_in, flags_by, data_of, tests_in, test_at, held_at, total_limit, total_or, total_with_bytes, total_with_test};

use crate::checking::check_by;
use crate::files::{copy, in_folder, read_file, with_ending};
use crate::package::{Package, PackageFault, Test, Tests};
use crate::stems::{name_below, stems_of};
use crate::walk::paths_below;
use default_validator::Flags;
use farm_kinds::Text;
use farm_tree::Tree;
use problem_settings::{IniFault, Validation, Yaml, YamlFault, limits, read_ini, read_yaml};
use std::alloc::Global;

/// How many bytes the test files of a package have at most: 256 MiB.
const TOTAL_LIMIT: u64 = 268_435_456;

/// Reads the package in the folder at the path, where a second of time limit stands for `ips` instructions.
///
/// It reads `problem.yaml`, `domjudge-problem.ini`, the test files below `data` and, with custom validation, the one
/// file of `output_validators`. Nothing else is looked at. Where the tree fails, that is the answer, at once.
pub fn read_package<T: Tree>(
    alloc: Global,
    tree: &mut T,
    path: &str,
    ips: u32,
) -> Result<Package, PackageFault>
    ensures package { WhereTold (T.files tree.old) (λ files. Answers result (package_of files path.now ips)) }
    ensures sound { IfOk result IsPackage }
    ensures same { T.files tree.new ≡ T.files tree.old }
    ensures later { T.faults tree.old ≤ T.faults tree.new }
    ensures cause { result ≡ Err PackageFault.Tree → Rose (T.faults tree.old) (T.faults tree.new) }
    ensures first { result ≢ Err PackageFault.Tree → T.faults tree.new ≡ T.faults tree.old }
{
    let yaml = read_settings(alloc, tree, path)?;
    let ms = read_limit(alloc, tree, path)?;
    let flags = read_flags(&yaml)?;
    let tests = read_data(alloc, tree, path)?;
    let limits = limits(&yaml, ms, ips);
    let Yaml {
        name,
        flags: text,
        ..
    } = yaml;
    let check = check_by(alloc, tree, path, text, flags, &tests)?;
    Ok(Package {
        name,
        tests,
        limits,
        check,
    })
}

/// What `problem.yaml` says.
fn read_settings<T: Tree>(alloc: Global, tree: &mut T, path: &str) -> Result<Yaml, PackageFault>
    ensures yaml { WhereTold (T.files tree.old) (λ files. Answers result (yaml_in files path.now)) }
    ensures memory { IfOk result (λ yaml. yaml.memory ≤ 256) }
    ensures output { IfOk result (λ yaml. yaml.output ≤ 64) }
    ensures same { T.files tree.new ≡ T.files tree.old }
    ensures later { T.faults tree.old ≤ T.faults tree.new }
    ensures cause { result ≡ Err PackageFault.Tree → Rose (T.faults tree.old) (T.faults tree.new) }
    ensures first { result ≢ Err PackageFault.Tree → T.faults tree.new ≡ T.faults tree.old }
{
    let file = in_folder(alloc, path, "problem.yaml")?;
    let Some(bytes) = read_file(alloc, tree, file.as_str(), b"problem.yaml")? else {
        return Err(PackageFault::NoYaml);
    };
    match read_yaml(alloc, bytes.as_slice()) {
        Ok(yaml) => Ok(yaml),
        Err(YamlFault::Bad { line, why }) => Err(PackageFault::Yaml { line, why }),
        Err(YamlFault::NoMemory) => Err(PackageFault::NoMemory),
    }
}

/// The time limit that `domjudge-problem.ini` says, in milliseconds.
fn read_limit<T: Tree>(alloc: Global, tree: &mut T, path: &str) -> Result<u32, PackageFault>
    ensures limit { WhereTold (T.files tree.old) (λ files. Answers result (limit_in files path.now)) }
    ensures same { T.files tree.new ≡ T.files tree.old }
    ensures later { T.faults tree.old ≤ T.faults tree.new }
    ensures cause { result ≡ Err PackageFault.Tree → Rose (T.faults tree.old) (T.faults tree.new) }
    ensures first { result ≢ Err PackageFault.Tree → T.faults tree.new ≡ T.faults tree.old }
{
    let file = in_folder(alloc, path, "domjudge-problem.ini")?;
    let Some(bytes) = read_file(alloc, tree, file.as_str(), b"domjudge-problem.ini")? else {
        return Ok(1000);
    };
    match read_ini(bytes.as_slice()) {
        Ok(ms) => Ok(ms),
        Err(IniFault::BadLimit { line }) => Err(PackageFault::Ini { line }),
    }
}

/// The flags of the default validator, where that is the one.
fn read_flags(yaml: &Yaml) -> Result<Option<Flags>, PackageFault>
    ensures flags { result ≡ flags_by yaml.now.validation yaml.now.flags }
    ensures not_tree { result ≢ Err PackageFault.Tree }
{
    match yaml.validation {
        Validation::Custom => Ok(None),
        Validation::Default => match Flags::read(yaml.flags.as_slice()) {
            Ok(flags) => Ok(Some(flags)),
            Err(fault) => Err(PackageFault::Flags(fault)),
        },
    }
}

/// The tests of the folder `data`.
fn read_data<T: Tree>(alloc: Global, tree: &mut T, path: &str) -> Result<Tests, PackageFault>
    ensures tests { WhereTold (T.files tree.old) (λ files. Answers result (data_in files path.now)) }
    ensures some { IfOk result (λ tests. 1 ≤ length tests) }
    ensures few { IfOk result (λ tests. length tests ≤ test_limit) }
    ensures same { T.files tree.new ≡ T.files tree.old }
    ensures later { T.faults tree.old ≤ T.faults tree.new }
    ensures cause { result ≡ Err PackageFault.Tree → Rose (T.faults tree.old) (T.faults tree.new) }
    ensures first { result ≢ Err PackageFault.Tree → T.faults tree.new ≡ T.faults tree.old }
{
    let folder = in_folder(alloc, path, "data")?;
    let paths = paths_below(alloc, tree, folder.as_str())?;
    let stems = stems_of(alloc, folder.as_str(), &paths)?;
    read_tests(alloc, tree, path, folder.as_str(), stems.as_slice())
}

/// The tests, with the bytes of their files.
fn read_tests<T: Tree>(
    alloc: Global,
    tree: &mut T,
    path: &str,
    folder: &str,
    stems: &[String],
) -> Result<Tests, PackageFault>
    requires { folder.now ≡ data_of path.now }
    ensures tests { WhereTold (T.files tree.old) (λ files. Answers result (tests_in files path.now (texts stems.now))) }
    ensures all { IfOk result (λ tests. length tests ≡ length stems.now) }
    ensures same { T.files tree.new ≡ T.files tree.old }
    ensures later { T.faults tree.old ≤ T.faults tree.new }
    ensures cause { result ≡ Err PackageFault.Tree → Rose (T.faults tree.old) (T.faults tree.new) }
    ensures first { result ≢ Err PackageFault.Tree → T.faults tree.new ≡ T.faults tree.old }
{
    let mut tests = Tests::new(alloc);
    let mut total = 0;
    for stem in stems {
        let test = read_test(alloc, tree, path, folder, stem.as_str(), &mut total)?;
        tests.push(test)?;
    }
    Ok(tests)
}

/// A test with the bytes of its files, which are counted.
fn read_test<T: Tree>(
    alloc: Global,
    tree: &mut T,
    path: &str,
    folder: &str,
    stem: &str,
    total: &mut u64,
) -> Result<Test, PackageFault>
    requires folder { folder.now ≡ data_of path.now }
    requires total { total.old ≤ total_limit }
    ensures test { WhereTold (T.files tree.old) (λ files. IfOk result (λ test. test ≡ test_at files path.now stem.now)) }
    ensures total { WhereTold (T.files tree.old) (λ files. Answers (total_or total.new result) (total_with_test files path.now total.old stem.now)) }
    ensures bound { IfOk result (λ _. total.new ≤ total_limit) }
    ensures same { T.files tree.new ≡ T.files tree.old }
    ensures later { T.faults tree.old ≤ T.faults tree.new }
    ensures cause { result ≡ Err PackageFault.Tree → Rose (T.faults tree.old) (T.faults tree.new) }
    ensures first { result ≢ Err PackageFault.Tree → T.faults tree.new ≡ T.faults tree.old }
{
    let name = name_below(alloc, folder, stem)?;
    let input = with_ending(alloc, stem, ".in")?;
    let input = read_test_file(alloc, tree, path, input.as_str(), &name, total)?;
    let answer = with_ending(alloc, stem, ".ans")?;
    let answer = read_test_file(alloc, tree, path, answer.as_str(), &name, total)?;
    Ok(Test {
        name,
        input,
        answer,
    })
}

/// The bytes of a file of the test with this name, which are counted.
fn read_test_file<T: Tree>(
    alloc: Global,
    tree: &mut T,
    path: &str,
    file: &str,
    test: &Text,
    total: &mut u64,
) -> Result<Text, PackageFault>
    requires { total.old ≤ total_limit }
    ensures bytes { WhereTold (T.files tree.old) (λ files. IfOk result (λ bytes. bytes ≡ held_at files file.now)) }
    ensures total { WhereTold (T.files tree.old) (λ files. Answers (total_or total.new result) (total_with_bytes files path.now test.now total.old file.now)) }
    ensures bound { IfOk result (λ _. total.new ≤ total_limit) }
    ensures same { T.files tree.new ≡ T.files tree.old }
    ensures later { T.faults tree.old ≤ T.faults tree.new }
    ensures cause { result ≡ Err PackageFault.Tree → Rose (T.faults tree.old) (T.faults tree.new) }
    ensures first { result ≢ Err PackageFault.Tree → T.faults tree.new ≡ T.faults tree.old }
{
    let name = name_below(alloc, path, file)?;
    let Some(bytes) = read_file(alloc, tree, file, name.as_slice())? else {
        return Err(PackageFault::MissingAnswer {
            name: copy(alloc, test.as_slice())?,
        });
    };
    *total += bytes.as_slice().len() as u64;
    if *total > TOTAL_LIMIT {
        return Err(PackageFault::TooMuch { total: *total });
    }
    Ok(bytes)
}
