//! Why a folder is no contest, and where it is to be mended.
ghost use Rattle.std.specs.Prelude.{◌≡◌, ◌≤◌};

use crate::lines::{Line, line_of, word_of};
use crate::mistakes::{mistake_in, mistake_text, shown};
use contest_folder::ContestFault;
use farm_kinds::{Kind, Text};
use farm_settings::{Setting, SettingsFault};
use farm_tree::{Tree, TreeErr};
use package_folder::PackageFault;
use package_notes::{fault_text, large_text};
use std::alloc::{AllocError, Global};

/// What a person is told of the fault of the contest in the folder. None where the tree failed, or no memory was left.
pub(crate) fn fault_reason<T: Tree>(
    alloc: Global,
    tree: &mut T,
    folder: &str,
    fault: &ContestFault,
) -> Result<Option<String>, AllocError>
    ensures same { T.files tree.new ≡ T.files tree.old }
    ensures later { T.faults tree.old ≤ T.faults tree.new }
{
    match fault {
        ContestFault::Tree | ContestFault::NoMemory => Ok(None),
        fault => Ok(Some(reason_of(alloc, tree, folder, fault)?)),
    }
}

/// What a person is told of a fault of the folder itself.
fn reason_of<T: Tree>(
    alloc: Global,
    tree: &mut T,
    folder: &str,
    fault: &ContestFault,
) -> Result<String, AllocError>
    ensures same { T.files tree.new ≡ T.files tree.old }
    ensures later { T.faults tree.old ≤ T.faults tree.new }
{
    match fault {
        ContestFault::Settings(fault) => {
            let text = settings_reason(alloc, fault)?;
            format!(in alloc; "farm.json: {text}")
        }
        ContestFault::Package { short, fault } => {
            package_reason(alloc, tree, folder, shown(short.as_slice()), fault)
        }
        ContestFault::NoList => list_reason(alloc, tree, folder),
        ContestFault::BadLine { line } => line_reason(alloc, tree, folder, *line, Wrong::Form),
        ContestFault::NoProblem { line } => {
            line_reason(alloc, tree, folder, *line, Wrong::Problem)
        }
        ContestFault::NoImage { line } => line_reason(alloc, tree, folder, *line, Wrong::File),
        fault => limit_reason(alloc, fault),
    }
}

/// What is told of a fault that needs no file to be looked at again.
fn limit_reason(alloc: Global, fault: &ContestFault) -> Result<String, AllocError> {
    match fault {
        ContestFault::BadName { name } => {
            let name = shown(name.as_slice());
            format!(in alloc;
                "problems/{name}: the name of a problem has 1 to 32 letters, digits, _ and -"
            )
        }
        ContestFault::TooManyProblems { count } => format!(in alloc;
            "problems has {count} folders, and a contest has at most 1000 problems"
        ),
        ContestFault::TooManySubmissions { count } => format!(in alloc;
            "submissions.txt has {count} submissions, and a contest has at most 100000"
        ),
        ContestFault::TooMuch { total } => format!(in alloc;
            "the files of tests and submissions have {total} bytes and more, and at most 1073741824 are held"
        ),
        ContestFault::TooLarge { name, len } => large_text(alloc, name, *len),
        _ => String::from_str(alloc, "it cannot be read"),
    }
}

/// What is told of a problem whose folder is no package.
fn package_reason<T: Tree>(
    alloc: Global,
    tree: &mut T,
    folder: &str,
    short: &str,
    fault: &PackageFault,
) -> Result<String, AllocError>
    ensures same { T.files tree.new ≡ T.files tree.old }
    ensures later { T.faults tree.old ≤ T.faults tree.new }
{
    let path = format!(in alloc; "{folder}/problems/{short}/problem.yaml")?;
    let yaml = read_or_nothing(alloc, tree, path.as_str());
    let text = fault_text(alloc, fault, yaml.as_slice())?;
    format!(in alloc; "problem {short}: {text}")
}

/// What is told where there is no `submissions.txt`.
fn list_reason<T: Tree>(alloc: Global, tree: &mut T, folder: &str) -> Result<String, AllocError>
    ensures same { T.files tree.new ≡ T.files tree.old }
    ensures later { T.faults tree.old ≤ T.faults tree.new }
{
    match tree.list(folder) {
        Err(TreeErr::Absent) => format!(in alloc; "there is no folder {folder}"),
        _ => String::from_str(alloc, "there is no submissions.txt"),
    }
}

/// What is wrong with a line of `submissions.txt`.
#[derive(Clone, Copy)]
enum Wrong {
    /// It is not `NUMBER TEAM PROBLEM FILE`.
    Form,
    /// Its problem is not there.
    Problem,
    /// Its file is not there.
    File,
}

/// What is told of a line of `submissions.txt`.
fn line_reason<T: Tree>(
    alloc: Global,
    tree: &mut T,
    folder: &str,
    line: u32,
    wrong: Wrong,
) -> Result<String, AllocError>
    ensures same { T.files tree.new ≡ T.files tree.old }
    ensures later { T.faults tree.old ≤ T.faults tree.new }
{
    let path = format!(in alloc; "{folder}/submissions.txt")?;
    let text = read_or_nothing(alloc, tree, path.as_str());
    let said = match line_of(text.as_slice(), line) {
        Some(found) => wrong_text(alloc, found, wrong)?,
        None => String::from_str(alloc, "is no submission")?,
    };
    format!(in alloc; "submissions.txt line {line}: {said}")
}

fn wrong_text(alloc: Global, found: Line<'_>, wrong: Wrong) -> Result<String, AllocError> {
    let Line { number, text } = found;
    match wrong {
        Wrong::Form => mistake_text(alloc, mistake_in(number, text), number, text),
        Wrong::Problem => {
            let problem = shown(word_of(text, 2));
            format!(in alloc; "there is no problem \"{problem}\" in problems/")
        }
        Wrong::File => {
            let file = shown(word_of(text, 3));
            format!(in alloc; "there is no file submissions/{file}")
        }
    }
}

/// The bytes of a file, or none where it cannot be read.
pub(crate) fn read_or_nothing<T: Tree>(alloc: Global, tree: &mut T, path: &str) -> Text
    ensures same { T.files tree.new ≡ T.files tree.old }
    ensures later { T.faults tree.old ≤ T.faults tree.new }
{
    match tree.read(path) {
        Ok(text) => text,
        Err(_) => Text::new(alloc),
    }
}

/// What a person is told of a fault of `farm.json`, or of another file that sets the same.
pub fn settings_reason(alloc: Global, fault: &SettingsFault) -> Result<String, AllocError> {
    match fault {
        SettingsFault::NotJson => {
            String::from_str(alloc, "it is no JSON object, or is nested deeper than 127")
        }
        SettingsFault::UnknownKey { key } => {
            let key = shown(key.as_slice());
            format!(in alloc; "no setting, kind of result or problem can have the key \"{key}\"")
        }
        SettingsFault::BadValue { key } => {
            let wanted = wanted_at(key.as_slice());
            let key = shown(key.as_slice());
            format!(in alloc; "the value of {key} is not {wanted}")
        }
    }
}

/// What may stand at the key.
fn wanted_at(key: &[u8]) -> &'static str {
    match Setting::read(key) {
        Some(Setting::InstructionsPerSecond) => "a whole number from 1000 to 100000000",
        Some(Setting::LazyEvalResults) => "true or false",
        Some(Setting::Lease) => "a whole number from 1 to 1000000",
        Some(Setting::ProblemModes) => "an object from names of problems to their modes",
        Some(Setting::ResultsPrio) => "an object from kinds of results to numbers",
        Some(Setting::ResultsRemap) => "an object from kinds of results to kinds",
        Some(Setting::VerificationRequired) => "true or false",
        None => wanted_inside(key),
    }
}

/// What may stand at a key within the object of a setting.
fn wanted_inside(key: &[u8]) -> &'static str {
    match Kind::read(key) {
        Some(_) => "a whole number from 0 to 999 in results_prio, or a kind in results_remap",
        None => "lazy, full or on-demand",
    }
}
