ghost use Rattle.std.specs.Prelude.{◌≡◌, ◌≢◌, ◌≤◌, ◌<◌, ◌++◌, ◌∷◌, [], ◌+◌, ℕ, List, length, map, find, All, IfOk, OnOk, None, true};
ghost use Rattle.std.specs.Str.{IsUtf8};
ghost use Rattle.farm_io.specs.Streams.{Rose};
ghost use Rattle.package_folder.specs.Told.{WhereTold};
ghost use Rattle.contest_folder.specs.declared.lines.Entry.{Entry};
ghost use Rattle.contest_folder.specs.RosterShape.{IsPlaced, submission_limit};
ghost use Rattle.contest_folder.specs.SubmissionLines.{lacks_problem};
ghost use Rattle.contest_folder.specs.Telling.{Answers, listed};
ghost use Rattle.contest_folder.specs.Images.{added, added_all, test_sizes, problem_sizes, total_limit, images_of, image_in, submissions_in};
ghost use Rattle.contest_folder.specs.HeldImages.{held_within};

use crate::faults::ContestFault;
use crate::lines::Entry;
use crate::roster::{Problem, Submission};
use crate::submitted::SubmittedFile;
use farm_kinds::{NoMemory, Text};
use farm_tree::{Tree, TreeErr};
use package_folder::{Test, in_folder};
use std::alloc::Global;
use std::str;

/// How many submissions a contest has at most.
const SUBMISSION_LIMIT: usize = 100_000;

/// How many bytes the test files of a contest and its images have at most: 1 GiB.
const TOTAL_LIMIT: u64 = 1_073_741_824;

/// The submissions that the entries say, with the images in the folder.
///
/// The files are all looked for, since one that is missing is an earlier fault than what is too much. Images are held
/// up to the limits alone.
pub(crate) fn read_submissions<T: Tree>(
    alloc: Global,
    tree: &mut T,
    path: &str,
    problems: &[Problem],
    entries: &[Entry],
) -> Result<Vec<Submission>, ContestFault>
    requires placed { find (lacks_problem problems.now) entries.now ≡ None }
    requires files { All (λ (entry : Entry). IsUtf8 entry.file) entries.now }
    ensures submissions { WhereTold (T.files tree.old) (λ files. Answers (listed result) (submissions_in files (images_of path.now) problems.now entries.now)) }
    ensures few { IfOk result (λ submissions. length submissions.items ≤ submission_limit) }
    ensures placed { IfOk result (λ submissions. All (IsPlaced problems.now) submissions.items) }
    ensures same { T.files tree.new ≡ T.files tree.old }
    ensures later { T.faults tree.old ≤ T.faults tree.new }
    ensures cause { result ≡ Err ContestFault.Tree → Rose (T.faults tree.old) (T.faults tree.new) }
    ensures first { result ≢ Err ContestFault.Tree → T.faults tree.new ≡ T.faults tree.old }
{
    let folder = in_folder(alloc, path, "submissions")?;
    let mut held = Held {
        total: total_of(problems),
        submissions: Vec::new(alloc),
    };
    for entry in entries {
        let image = read_image(alloc, tree, folder.as_str(), entry)?;
        held.add(entry, image)?;
    }
    within(held, entries.len())
}

/// The submissions, where their number and the bytes of their contest are within the limits.
fn within(held: Held, count: usize) -> Result<Vec<Submission>, ContestFault>
    ensures submissions { listed result ≡ held_within held count }
    ensures kept { IfOk result (λ submissions. submissions.items ≡ held.submissions.items) }
    ensures few { IfOk result (λ _. count ≤ submission_limit) }
{
    if count > SUBMISSION_LIMIT {
        return Err(ContestFault::TooManySubmissions {
            count: count as u64,
        });
    }
    if held.total > TOTAL_LIMIT {
        return Err(ContestFault::TooMuch { total: held.total });
    }
    Ok(held.submissions)
}

/// The submissions that are held, and the bytes of the contest up to the file that passed the limit.
#[derive(Drop)]
pub(crate) struct Held {
    pub total: u64,
    pub submissions: Vec<Submission>,
}

impl Held {
    /// Counts the image of an entry's submission, and holds it where the limit is not passed.
    fn add(&mut self, entry: &Entry, image: Text) -> Result<(), NoMemory>
        ensures total { OnOk result (self.new.total ≡ added self.old.total (length image)) }
        ensures held { OnOk result (self.new.total ≤ total_limit → self.new.submissions.items ≡ self.old.submissions.items ++ record { team = entry.now.team; problem = entry.now.problem; image = image } ∷ []) }
        ensures past { OnOk result (total_limit < self.new.total → self.new.submissions.items ≡ self.old.submissions.items) }
    {
        self.total = added(self.total, image.as_slice());
        if self.total > TOTAL_LIMIT {
            return Ok(());
        }
        let submission = Submission {
            team: entry.team,
            problem: entry.problem,
            image: SubmittedFile::new(image),
        };
        self.submissions.push(submission).map_err(|_| NoMemory)
    }
}

/// The bytes of the entry's file in the folder, or none where these are too many.
fn read_image<T: Tree>(
    alloc: Global,
    tree: &mut T,
    folder: &str,
    entry: &Entry,
) -> Result<Text, ContestFault>
    requires { IsUtf8 entry.now.file }
    ensures image { WhereTold (T.files tree.old) (λ files. Answers result (image_in files folder.now entry.now)) }
    ensures same { T.files tree.new ≡ T.files tree.old }
    ensures later { T.faults tree.old ≤ T.faults tree.new }
    ensures cause { result ≡ Err ContestFault.Tree → Rose (T.faults tree.old) (T.faults tree.new) }
    ensures first { result ≢ Err ContestFault.Tree → T.faults tree.new ≡ T.faults tree.old }
{
    let name = str::from_utf8(entry.file.as_slice()).unwrap();
    let file = in_folder(alloc, folder, name)?;
    match tree.read(file.as_str()) {
        Ok(bytes) => Ok(bytes),
        Err(TreeErr::Absent) => Err(ContestFault::NoImage { line: entry.line }),
        Err(TreeErr::TooLarge { .. }) => Ok(Text::new(alloc)),
        Err(TreeErr::Failed) => Err(ContestFault::Tree),
        Err(TreeErr::NoMemory) => Err(ContestFault::NoMemory),
    }
}

/// The bytes of the problems' test files, up to the one that passed the limit.
fn total_of(problems: &[Problem]) -> u64
    ensures { result ≡ added_all 0 (problem_sizes problems.now) }
{
    let mut total = 0;
    for problem in problems {
        total = added_tests(total, problem.contents.tests.as_slice());
    }
    total
}

/// The total with the files of these tests.
fn added_tests(total: u64, tests: &[Test]) -> u64
    ensures { result ≡ added_all total (test_sizes tests.now) }
{
    let mut total = total;
    for test in tests {
        total = added(total, test.input.as_slice());
        total = added(total, test.answer.as_slice());
    }
    total
}

/// The total with a file more, where the limit is not passed yet.
fn added(total: u64, file: &[u8]) -> u64
    ensures { result ≡ added total (length file.now) }
{
    if total <= TOTAL_LIMIT {
        total + file.len() as u64
    } else {
        total
    }
}
