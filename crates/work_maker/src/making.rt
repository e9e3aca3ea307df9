ghost use Rattle.std.specs.Prelude.{◌≡◌, ◌++◌, ◌≤◌, ◌<◌, OnOk, IfOk};
ghost use Rattle.std.specs.List.{flat_map};
ghost use Rattle.work_maker.specs.Draws.{next, after};
ghost use Rattle.work_maker.specs.Made.{problem_by, after_problem, problems_from, after_problems, submissions_from};
ghost use Rattle.work_maker.specs.Files.{problem_files, submission_files, made_files, tree_of};
ghost use Rattle.work_maker.specs.Reading.{IsContestFolder};

use crate::draws::Draws;
use crate::files::{add_image, add_list, add_settings, add_test, push_line};
use crate::submission::draw_submission;
use farm_kinds::NoMemory;
use farm_tree::{MemoryTree, TreeFiles};
use std::alloc::Global;

/// The path of a made contest's folder.
pub const FOLDER: &str = "contest";

/// The tree of the contest of this number, with `problems` problems and `submissions` submissions. No call of it fails,
/// and its folder is read as a contest, without a fault.
pub fn make_contest(
    alloc: Global,
    number: u32,
    problems: u16,
    submissions: u16,
) -> Result<MemoryTree, NoMemory>
    requires problems { (1 ≤ problems) × (problems ≤ 50) }
    requires submissions { (1 ≤ submissions) × (submissions ≤ 2000) }
    ensures made { IfOk result (λ tree. tree ≡ tree_of (made_files number problems submissions)) }
    ensures contest { IfOk result (λ tree. IsContestFolder tree.files) }
{
    let files = make_files(alloc, number, problems, submissions)?;
    Ok(MemoryTree::new(alloc, files, Vec::new(alloc)))
}

/// The files of the contest of this number, with `problems` problems and `submissions` submissions: those of a
/// contest's folder without a fault.
pub fn make_files(
    alloc: Global,
    number: u32,
    problems: u16,
    submissions: u16,
) -> Result<TreeFiles, NoMemory>
    requires problems { (1 ≤ problems) × (problems ≤ 50) }
    requires submissions { (1 ≤ submissions) × (submissions ≤ 2000) }
    ensures made { IfOk result (λ files. files ≡ made_files number problems submissions) }
    ensures contest { IfOk result (λ files. IsContestFolder files) }
{
    let mut draws = Draws::new(number);
    let mut files = TreeFiles::new(alloc);
    add_problems(alloc, &mut files, problems, &mut draws)?;
    add_submissions(alloc, &mut files, problems, submissions, &mut draws)?;
    Ok(files)
}

/// Draws `problems` problems, and adds their files. At `NoMemory` a part of them may be there.
fn add_problems(
    alloc: Global,
    files: &mut TreeFiles,
    problems: u16,
    draws: &mut Draws,
) -> Result<(), NoMemory>
    requires { problems ≤ 50 }
    ensures files { OnOk result (files.new ≡ files.old ++ flat_map problem_files (problems_from problems 1 draws.old.state)) }
    ensures draws { OnOk result (draws.new.state ≡ after_problems problems draws.old.state) }
{
    for at in 0..problems {
        add_problem(alloc, files, at + 1, draws)?;
    }
    Ok(())
}

/// Draws the problem of this number, and adds its files. At `NoMemory` a part of them may be there.
fn add_problem(
    alloc: Global,
    files: &mut TreeFiles,
    number: u16,
    draws: &mut Draws,
) -> Result<(), NoMemory>
    ensures files { OnOk result (files.new ≡ files.old ++ problem_files (problem_by number (next draws.old.state))) }
    ensures draws { OnOk result (draws.new.state ≡ after_problem draws.old.state) }
{
    let tests = 1 + draws.draw() % 5;
    add_settings(alloc, files, number)?;
    for at in 0..tests {
        let input = draws.draw() % 1000;
        add_test(alloc, files, number, at + 1, input)?;
    }
    Ok(())
}

/// Draws `submissions` submissions, and adds their images and the list of them. At `NoMemory` a part of them may be
/// there.
fn add_submissions(
    alloc: Global,
    files: &mut TreeFiles,
    problems: u16,
    submissions: u16,
    draws: &mut Draws,
) -> Result<(), NoMemory>
    requires problems { 0 < problems }
    requires submissions { submissions ≤ 2000 }
    ensures { OnOk result (files.new ≡ files.old ++ submission_files (submissions_from submissions problems draws.old.state)) }
{
    let mut list = Vec::new(alloc);
    for at in 0..submissions {
        let submission = draw_submission(draws, problems);
        add_image(alloc, files, at + 1, submission.program)?;
        push_line(alloc, &mut list, at + 1, &submission)?;
    }
    add_list(alloc, files, list)?;
    Ok(())
}
