ghost use Rattle.std.specs.Prelude.{◌≡◌, ◌≢◌, ◌≤◌, IfOk};
ghost use Rattle.std.specs.Str.{IsUtf8};
ghost use Rattle.farm_io.specs.Streams.{Rose};
ghost use Rattle.package_folder.specs.Told.{WhereTold, Answers};
ghost use Rattle.package_folder.specs.Package.{IsChecked, HasImage};
ghost use Rattle.package_folder.specs.Reading.{check_by, default_check, custom_check, validator_at, program_at};

use crate::files::{copy, in_folder, read_file};
use crate::package::{Checker, PackageFault, Tests};
use default_validator::{Flags, wide_token};
use farm_kinds::{Text, raw_image};
use farm_tree::{Entry, Tree, TreeErr};
use std::alloc::Global;
use std::str;

/// How the outputs of a problem with these flags are checked.
pub(crate) fn check_by<T: Tree>(
    alloc: Global,
    tree: &mut T,
    path: &str,
    text: Text,
    flags: Option<Flags>,
    tests: &Tests,
) -> Result<Checker, PackageFault>
    ensures check { WhereTold (T.files tree.old) (λ files. Answers result (check_by files path.now text flags tests.now)) }
    ensures checked { IfOk result (λ check. IsChecked check tests.now) }
    ensures same { T.files tree.new ≡ T.files tree.old }
    ensures later { T.faults tree.old ≤ T.faults tree.new }
    ensures cause { result ≡ Err PackageFault.Tree → Rose (T.faults tree.old) (T.faults tree.new) }
    ensures first { result ≢ Err PackageFault.Tree → T.faults tree.new ≡ T.faults tree.old }
{
    match flags {
        Some(flags) => default_check(alloc, flags, tests),
        None => custom_check(alloc, tree, path, text),
    }
}

/// By the default validator, where no answer has a wide token.
fn default_check(alloc: Global, flags: Flags, tests: &Tests) -> Result<Checker, PackageFault>
    ensures check { Answers result (default_check flags tests.now) }
    ensures checked { IfOk result (λ check. IsChecked check tests.now) }
    ensures not_tree { result ≢ Err PackageFault.Tree }
{
    for test in tests.as_slice() {
        if let Some(at) = wide_token(&flags, test.answer.as_slice()) {
            return Err(PackageFault::WideAnswer {
                name: copy(alloc, test.name.as_slice())?,
                at,
            });
        }
    }
    Ok(Checker::Default(flags))
}

/// By the one validator of the package.
fn custom_check<T: Tree>(
    alloc: Global,
    tree: &mut T,
    path: &str,
    flags: Text,
) -> Result<Checker, PackageFault>
    ensures check { WhereTold (T.files tree.old) (λ files. Answers result (custom_check files path.now flags)) }
    ensures raw { IfOk result HasImage }
    ensures same { T.files tree.new ≡ T.files tree.old }
    ensures later { T.faults tree.old ≤ T.faults tree.new }
    ensures cause { result ≡ Err PackageFault.Tree → Rose (T.faults tree.old) (T.faults tree.new) }
    ensures first { result ≢ Err PackageFault.Tree → T.faults tree.new ≡ T.faults tree.old }
{
    let folder = in_folder(alloc, path, "output_validators")?;
    let entries = match tree.list(folder.as_str()) {
        Ok(entries) => entries,
        Err(TreeErr::Absent) => return Err(PackageFault::NoValidator),
        // no listing is too large
        Err(TreeErr::TooLarge { .. }) => return Err(PackageFault::NoValidator),
        Err(TreeErr::Failed) => return Err(PackageFault::Tree),
        Err(TreeErr::NoMemory) => return Err(PackageFault::NoMemory),
    };
    match entries.as_slice() {
        [] => Err(PackageFault::NoValidator),
        [entry] => validator_at(alloc, tree, path, flags, entry),
        many => Err(PackageFault::ManyValidators {
            count: many.len() as u64,
        }),
    }
}

/// By the validator that this entry of `output_validators` is.
fn validator_at<T: Tree>(
    alloc: Global,
    tree: &mut T,
    path: &str,
    flags: Text,
    entry: &Entry,
) -> Result<Checker, PackageFault>
    requires { IsUtf8 entry.now.name }
    ensures check { WhereTold (T.files tree.old) (λ files. Answers result (validator_at files path.now flags entry.now)) }
    ensures raw { IfOk result HasImage }
    ensures same { T.files tree.new ≡ T.files tree.old }
    ensures later { T.faults tree.old ≤ T.faults tree.new }
    ensures cause { result ≡ Err PackageFault.Tree → Rose (T.faults tree.old) (T.faults tree.new) }
    ensures first { result ≢ Err PackageFault.Tree → T.faults tree.new ≡ T.faults tree.old }
{
    if entry.folder || !entry.name.as_slice().ends_with(b".rv32") {
        return Err(PackageFault::SourceValidator {
            name: copy(alloc, entry.name.as_slice())?,
        });
    }
    read_validator(alloc, tree, path, flags, entry)
}

/// By the program that is this file of `output_validators`.
fn read_validator<T: Tree>(
    alloc: Global,
    tree: &mut T,
    path: &str,
    flags: Text,
    entry: &Entry,
) -> Result<Checker, PackageFault>
    requires { IsUtf8 entry.now.name }
    ensures check { WhereTold (T.files tree.old) (λ files. Answers result (program_at files path.now flags entry.now)) }
    ensures raw { IfOk result HasImage }
    ensures same { T.files tree.new ≡ T.files tree.old }
    ensures later { T.faults tree.old ≤ T.faults tree.new }
    ensures cause { result ≡ Err PackageFault.Tree → Rose (T.faults tree.old) (T.faults tree.new) }
    ensures first { result ≢ Err PackageFault.Tree → T.faults tree.new ≡ T.faults tree.old }
{
    let text = str::from_utf8(entry.name.as_slice()).unwrap();
    let below = in_folder(alloc, "output_validators", text)?;
    let file = in_folder(alloc, path, below.as_str())?;
    let Some(image) = read_file(alloc, tree, file.as_str(), below.as_str().as_bytes())? else {
        return Err(PackageFault::NoValidator);
    };
    if !raw_image(image.as_slice()) {
        let name = copy(alloc, entry.name.as_slice())?;
        return Err(PackageFault::BadValidator { name });
    }
    Ok(Checker::Custom { image, flags })
}
