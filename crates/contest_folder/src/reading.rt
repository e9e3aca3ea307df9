ghost use Rattle.std.specs.Prelude.{◌≡◌, ◌≢◌, ◌≤◌};
ghost use Rattle.farm_io.specs.Streams.{Rose};
ghost use Rattle.package_folder.specs.Told.{WhereTold};
ghost use Rattle.contest_folder.specs.Telling.{Answers};
ghost use Rattle.contest_folder.specs.Contest.{contest_of, settings_in};

use crate::faults::ContestFault;
use crate::files::read_file;
use crate::images::read_submissions;
use crate::lines::read_entries;
use crate::problems::read_problems;
use crate::roster::Roster;
use farm_settings::{Settings, SettingsErr, read_settings};
use farm_tree::Tree;
use std::alloc::Global;

/// Reads the contest in the folder at the path: `farm.json`, a package for each folder of `problems`, and
/// `submissions.txt` with the images in `submissions` that it names. Nothing else is looked at. Where the tree fails, that
/// is the answer, at once.
pub fn read_contest<T: Tree>(
    alloc: Global,
    tree: &mut T,
    path: &str,
) -> Result<Roster, ContestFault>
    ensures contest { WhereTold (T.files tree.old) (λ files. Answers result (contest_of files path.now)) }
    ensures same { T.files tree.new ≡ T.files tree.old }
    ensures later { T.faults tree.old ≤ T.faults tree.new }
    ensures cause { result ≡ Err ContestFault.Tree → Rose (T.faults tree.old) (T.faults tree.new) }
    ensures first { result ≢ Err ContestFault.Tree → T.faults tree.new ≡ T.faults tree.old }
{
    let settings = read_contest_settings(alloc, tree, path)?;
    let problems = read_problems(alloc, tree, path, settings.ips())?;
    let Some(text) = read_file(alloc, tree, path, "submissions.txt")? else {
        return Err(ContestFault::NoList);
    };
    let entries = read_entries(alloc, problems.as_slice(), text.as_slice())?;
    let submissions = read_submissions(alloc, tree, path, problems.as_slice(), entries.as_slice())?;
    Ok(Roster::new(settings, problems, submissions))
}

/// The settings that `farm.json` says in the folder at the path, or its first fault.
pub fn read_contest_settings<T: Tree>(
    alloc: Global,
    tree: &mut T,
    path: &str,
) -> Result<Settings, ContestFault>
    ensures settings { WhereTold (T.files tree.old) (λ files. Answers result (settings_in files path.now)) }
    ensures same { T.files tree.new ≡ T.files tree.old }
    ensures later { T.faults tree.old ≤ T.faults tree.new }
    ensures cause { result ≡ Err ContestFault.Tree → Rose (T.faults tree.old) (T.faults tree.new) }
    ensures first { result ≢ Err ContestFault.Tree → T.faults tree.new ≡ T.faults tree.old }
{
    let Some(text) = read_file(alloc, tree, path, "farm.json")? else {
        return Ok(Settings::standard(alloc));
    };
    match read_settings(alloc, text.as_slice()) {
        Ok(settings) => Ok(settings),
        Err(SettingsErr::Bad(fault)) => Err(ContestFault::Settings(fault)),
        Err(SettingsErr::NoMemory) => Err(ContestFault::NoMemory),
    }
}
