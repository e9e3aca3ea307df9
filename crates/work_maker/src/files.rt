ghost use Rattle.std.specs.Prelude.{◌≡◌, ◌++◌, ◌∷◌, [], ◌≤◌, ◌<◌, OnOk, IfOk, length, string_bytes, codes};
ghost use Rattle.work_maker.specs.Programs.{image_of};
ghost use Rattle.work_maker.specs.Made.{submission_value};
ghost use Rattle.work_maker.specs.Files.{file_with, problem_path, test_path, yaml_text, limit_text, input_text, image_path, submission_line, list_path};

use crate::programs::Program;
use crate::submission::Submission;
use farm_kinds::{NoMemory, Text};
use farm_tree::{TreeFile, TreeFiles};
use std::alloc::Global;

/// Adds the settings of a problem, and its time limit. At `NoMemory` a part of them may be there.
pub fn add_settings(alloc: Global, files: &mut TreeFiles, problem: u16) -> Result<(), NoMemory>
    ensures { OnOk result (files.new ≡ files.old ++ file_with (problem_path problem (codes "problem.yaml")) (yaml_text problem)
        ∷ file_with (problem_path problem (codes "domjudge-problem.ini")) limit_text ∷ []) }
{
    let yaml = format!(in alloc; "name: p{problem}\nlimits:\n  memory: 1\n")?;
    let limit = b"timelimit=0.01\n".to_vec(alloc)?;
    add_problem_file(
        alloc,
        files,
        problem,
        "problem.yaml",
        Text::from_vec(yaml.into_bytes()),
    )?;
    add_problem_file(
        alloc,
        files,
        problem,
        "domjudge-problem.ini",
        Text::from_vec(limit),
    )?;
    Ok(())
}

/// Adds a test, whose answer is its input. At `NoMemory` a part of it may be there.
pub fn add_test(
    alloc: Global,
    files: &mut TreeFiles,
    problem: u16,
    test: u32,
    input: u32,
) -> Result<(), NoMemory>
    ensures { OnOk result (files.new ≡ files.old ++ file_with (test_path problem test (codes ".in")) (input_text input)
        ∷ file_with (test_path problem test (codes ".ans")) (input_text input) ∷ []) }
{
    let text = input_text(alloc, input)?;
    let answer = input_text(alloc, input)?;
    add_test_file(alloc, files, problem, test, ".in", text)?;
    add_test_file(alloc, files, problem, test, ".ans", answer)?;
    Ok(())
}

/// Adds the file of a test whose name ends as `ending`.
fn add_test_file(
    alloc: Global,
    files: &mut TreeFiles,
    problem: u16,
    test: u32,
    ending: &str,
    bytes: Text,
) -> Result<(), NoMemory>
    requires { length ending.now ≤ 4 }
    ensures { OnOk result (files.new ≡ files.old ++ file_with (test_path problem test ending.now) bytes ∷ []) }
{
    let name = format!(in alloc; "data/secret/0{test}{ending}")?;
    add_problem_file(alloc, files, problem, name.as_str(), bytes)?;
    Ok(())
}

/// Adds the file of this name below a problem's folder.
fn add_problem_file(
    alloc: Global,
    files: &mut TreeFiles,
    problem: u16,
    name: &str,
    bytes: Text,
) -> Result<(), NoMemory>
    requires { length name.now ≤ 100 }
    ensures { OnOk result (files.new ≡ files.old ++ file_with (problem_path problem name.now) bytes ∷ []) }
{
    let path = format!(in alloc; "contest/problems/p{problem}/{name}")?;
    add_file(files, path, bytes)?;
    Ok(())
}

/// The number on a line.
fn input_text(alloc: Global, input: u32) -> Result<Text, NoMemory>
    ensures { IfOk result (λ text. text ≡ input_text input) }
{
    let line = format!(in alloc; "{input}\n")?;
    Ok(Text::from_vec(line.into_bytes()))
}

/// Adds the image of a submission.
pub fn add_image(
    alloc: Global,
    files: &mut TreeFiles,
    number: u16,
    program: Program,
) -> Result<(), NoMemory>
    ensures { OnOk result (files.new ≡ files.old ++ file_with (image_path number) (image_of program) ∷ []) }
{
    let path = format!(in alloc; "contest/submissions/{number}.rv32")?;
    add_file(files, path, program.image(alloc)?)?;
    Ok(())
}

/// Puts the line of a submission behind the others. At `NoMemory` nothing changes.
pub fn push_line(
    alloc: Global,
    list: &mut Vec<u8>,
    number: u16,
    submission: &Submission,
) -> Result<(), NoMemory>
    ensures { OnOk result (list.new.items ≡ list.old.items ++ submission_line number (submission_value submission.now)) }
{
    let team = submission.team;
    let problem = submission.problem;
    let line = format!(in alloc; "{number} t{team} p{problem} {number}.rv32\n")?;
    list.extend_from_slice(line.as_bytes())?;
    Ok(())
}

/// Adds the list of the submissions.
pub fn add_list(alloc: Global, files: &mut TreeFiles, list: Vec<u8>) -> Result<(), NoMemory>
    ensures { OnOk result (files.new ≡ files.old ++ file_with list_path list.items ∷ []) }
{
    let path = String::from_str(alloc, "contest/submissions.txt")?;
    add_file(files, path, Text::from_vec(list))?;
    Ok(())
}

/// Adds a file.
fn add_file(files: &mut TreeFiles, path: String, bytes: Text) -> Result<(), NoMemory>
    requires { length (string_bytes path) ≤ 4096 }
    ensures { OnOk result (files.new ≡ files.old ++ file_with (string_bytes path) bytes ∷ []) }
{
    files.push(TreeFile::new(path, bytes))
}
