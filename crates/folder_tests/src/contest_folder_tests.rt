ghost use Rattle.std.specs.Prelude.{None};

use crate::rows::check_text;
use case_run::{Cases, Check};
use contest_folder::{
    ContestFault, Roster, RosterProblem, RosterSubmission, push_contest_fault, read_contest,
};
use farm_kinds::{Task, Text};
use farm_tree::{
    Entries, FILE_LIMIT, MemoryTree, ReliableTree, Tree, TreeErr, TreeFile, TreeFiles,
};
use std::alloc::{AllocError, Global};
use std::process::Abort;
use std::str;
use std::test::Fail;

/// The files of a contest with two problems and seven submissions.
const CONTEST: &str = concat!(
    "c/problems/echo/problem.yaml=name: Echo~validator_flags: float_tolerance 1e-6~\n",
    "c/problems/echo/domjudge-problem.ini=timelimit='0.01'~\n",
    "c/problems/echo/data/sample/1.in=3.14~\n",
    "c/problems/echo/data/sample/1.ans=3.140~\n",
    "c/problems/echo/data/secret/01.in=7~\n",
    "c/problems/echo/data/secret/01.ans=7~\n",
    "c/problems/guess/problem.yaml=validation: custom~validator_flags: by hand~\n",
    "c/problems/guess/domjudge-problem.ini=timelimit='0.01'~\n",
    "c/problems/guess/output_validators/guess.rv32=validate\n",
    "c/problems/guess/data/sample/1.in=4~\n",
    "c/problems/guess/data/sample/1.ans=4~\n",
    "c/problems/guess/data/secret/01.in=5~\n",
    "c/problems/guess/data/secret/01.ans=5~\n",
    "c/submissions.txt=1 alpha echo echo.rv32~2 beta echo silent.rv32~3 gamma echo loop.rv32~4 delta echo broken.rv32~5 alpha guess echo.rv32~6 beta guess 9.rv32~7 gamma guess 3.rv32~\n",
    "c/submissions/echo.rv32=echo\n",
    "c/submissions/silent.rv32=silently\n",
    "c/submissions/loop.rv32=loop\n",
    "c/submissions/broken.rv32=bad\n",
    "c/submissions/9.rv32=nine\n",
    "c/submissions/3.rv32=three...\n",
);

/// What is read of these files.
const READ: &str =
    "10000000 echo/2 guess/2 alpha:echo beta:echo gamma:echo delta:echo! alpha:guess beta:guess gamma:guess";

/// What to change in these files, and what is then read: `PATH=TEXT` for a file with this text, and `PATH` alone for one
/// that is left out. `READ` is what is read of them unchanged.
const ROWS: &str = concat!(
    " => READ\n",
    // farm.json
    "c/farm.json={} => READ\n",
    "c/farm.json={\"instructions_per_second\":2000}|c/submissions.txt= => 2000 echo/2 guess/2\n",
    "c/farm.json=[] => farm.json: not json\n",
    "c/farm.json={\"hosts\":1} => farm.json: unknown key hosts\n",
    "c/farm.json={\"lease\":0} => farm.json: bad value lease\n",
    // problems
    "c/problems/note=|c/problem/a b/x= => READ\n",
    "c/problems/b.c/x=|c/problems/a^b/x= => bad name a?b\n",
    "c/problems/b.c/x=|c/problems/B c/x= => bad name B c\n",
    "c/problems/a b/x=|c/problems/echo/problem.yaml => bad name a b\n",
    "c/problems/a1/x= => problem a1: no problem.yaml\n",
    "c/problems/zeta/problem.yaml=x|c/submissions.txt => problem zeta: problem.yaml line 1\n",
    "c/problems/guess/problem.yaml|c/problems/echo/data/secret/01.ans => problem echo: missing answer secret/01\n",
    "c/problems/echo/domjudge-problem.ini=timelimit=0 => problem echo: domjudge-problem.ini line 1\n",
    "c/problems/echo/problem.yaml=validator_flags: fast => problem echo: flags word 1\n",
    "c/problems/echo/data/secret/testdata.yaml= => problem echo: groups secret/testdata.yaml\n",
    "c/problems/echo/data/sample/1.in|c/problems/echo/data/secret/01.in => problem echo: no tests\n",
    "c/problems/echo/data/sample/1.ans=1e12~ => problem echo: wide answer sample/1 token 0\n",
    "c/problems/guess/output_validators/guess.rv32 => problem guess: no validator\n",
    "c/problems/guess/output_validators/b.rv32= => problem guess: many validators 2\n",
    "c/problems/guess/output_validators/guess.rv32=|c/submissions.txt => problem guess: bad validator guess.rv32\n",
    "c/problems/guess/output_validators/guess.rv32|c/problems/guess/output_validators/check.cpp= => problem guess: source validator check.cpp\n",
    // submissions.txt
    "c/submissions.txt => no submissions.txt\n",
    "c/submissions.txt= => 10000000 echo/2 guess/2\n",
    "c/submissions.txt=1 a echo echo.rv32 => 10000000 echo/2 guess/2 a:echo\n",
    "c/submissions.txt=# x~~   ~1 a-1 echo echo.rv32~#~2 b_2 guess 9.rv32~~ => 10000000 echo/2 guess/2 a-1:echo b_2:guess\n",
    "c/submissions.txt=1 a echo echo.rv32~ # x~ => line 2: bad line\n",
    "c/submissions.txt=1 a echo  echo.rv32~ => line 1: bad line\n",
    "c/submissions.txt=1 a echo echo.rv32 ~ => line 1: bad line\n",
    "c/submissions.txt=1 a echo echo.rv32^~ => line 1: bad line\n",
    "c/submissions.txt=~^~1 a echo echo.rv32~ => line 2: bad line\n",
    "c/submissions.txt=1 a echo~ => line 1: bad line\n",
    "c/submissions.txt=2 a echo echo.rv32~ => line 1: bad line\n",
    "c/submissions.txt=01 a echo echo.rv32~ => line 1: bad line\n",
    "c/submissions.txt=1 a echo echo.rv32~1 a echo echo.rv32~ => line 2: bad line\n",
    "c/submissions.txt=1 a. echo echo.rv32~ => line 1: bad line\n",
    "c/submissions.txt=1 a echo .rv32~ => line 1: bad line\n",
    "c/submissions.txt=1 a echo x/echo.rv32~ => line 1: bad line\n",
    "c/submissions.txt=1 a echo 2.345678901234567890123456789012345678901234567890123456789012345~ => line 1: bad line\n",
    "c/submissions.txt=1 a echo 2.34567890123456789012345678901234567890123456789012345678901234~ => line 1: no image\n",
    "c/submissions.txt=1 a echo echo.rv32~2 a nope echo.rv32~ => line 2: no problem\n",
    "c/submissions.txt=1 a echo none~ => line 1: no image\n",
    "c/submissions.txt=1 a nope none~2 x~ => line 2: bad line\n",
    "c/submissions.txt=1 a echo none~~2 a nope echo.rv32~ => line 3: no problem\n",
    "c/submissions/echo.rv32= => 10000000 echo/2 guess/2 alpha:echo! beta:echo gamma:echo delta:echo! alpha:guess! beta:guess gamma:guess\n",
);

/// The files with these changes.
fn changed(alloc: Global, changes: &str) -> Result<TreeFiles, Fail> {
    let mut files = TreeFiles::new(alloc);
    put_changed(alloc, &mut files, changes)?;
    Ok(files)
}

/// Adds the files with these changes.
fn put_changed(alloc: Global, files: &mut TreeFiles, changes: &str) -> Result<(), Fail> {
    for file in CONTEST.lines() {
        if !is_changed(changes, path_of(file)) {
            put_change(alloc, files, file)?;
        }
    }
    for change in changes.split('|') {
        put_change(alloc, files, change)?;
    }
    Ok(())
}

/// Whether one of the changes is of this path.
fn is_changed(changes: &str, path: &str) -> bool {
    changes.split('|').any(|change| path_of(change) == path)
}

/// The path of a change.
fn path_of(change: &str) -> &str {
    match change.split_once('=') {
        Some((path, _)) => path,
        None => change,
    }
}

/// Adds the file of a change, if it is not one that is left out.
fn put_change(alloc: Global, files: &mut TreeFiles, change: &str) -> Result<(), Fail> {
    if let Some((path, text)) = change.split_once('=') {
        let path = path.replace(alloc, '^', "\r")?;
        put_text(alloc, files, path.as_str(), text)?;
    }
    Ok(())
}

/// Adds a file with the text, in which line feeds and carriage returns are written otherwise.
fn put_text(alloc: Global, files: &mut TreeFiles, path: &str, text: &str) -> Result<(), Fail> {
    let text = text.replace(alloc, '~', "\n")?;
    put_lines(alloc, files, path, text.as_str())
}

/// Adds a file with the text, in which only carriage returns are written otherwise.
fn put_lines(alloc: Global, files: &mut TreeFiles, path: &str, text: &str) -> Result<(), Fail> {
    let text = text.replace(alloc, '^', "\r")?;
    put(alloc, files, path, text.as_str().as_bytes())
}

fn put(alloc: Global, files: &mut TreeFiles, path: &str, bytes: &[u8]) -> Result<(), Fail> {
    if path.len() <= 4096 {
        let bytes = Text::from_vec(bytes.to_vec(alloc)?);
        files.push(TreeFile::new(String::from_str(alloc, path)?, bytes))?;
    }
    Ok(())
}

/// What is read of the tree, in words.
fn read_told<T: Tree>(alloc: Global, tree: &mut T, path: &str) -> Result<String, Fail> {
    let answer = read_contest(alloc, tree, path);
    told(alloc, &answer)
}

/// What is read of the files, in words.
fn files_told(alloc: Global, files: TreeFiles, path: &str) -> Result<String, Fail> {
    let mut tree = ReliableTree::new(alloc, files);
    read_told(alloc, &mut tree, path)
}

/// What was read, in words.
fn told(alloc: Global, answer: &Result<Roster, ContestFault>) -> Result<String, Fail> {
    match answer {
        Ok(roster) => Ok(roster_told(alloc, roster)?),
        Err(ContestFault::Tree) => Ok(String::from_str(alloc, "tree")?),
        Err(fault) => fault_told(alloc, fault),
    }
}

fn fault_told(alloc: Global, fault: &ContestFault) -> Result<String, Fail> {
    let mut text = Vec::new(alloc);
    push_contest_fault(&mut text, fault)?;
    Ok(String::from_str(alloc, text_of(text.as_slice()))?)
}

/// The text of bytes that are one.
fn text_of(bytes: &[u8]) -> &str {
    str::from_utf8(bytes).unwrap_or("?")
}

fn roster_told(alloc: Global, roster: &Roster) -> Result<String, AllocError> {
    let mut shown = format!(in alloc; "{}", roster.settings().ips())?;
    push_roster(alloc, &mut shown, roster)?;
    Ok(shown)
}

/// Appends the problems and the submissions of a roster.
fn push_roster(alloc: Global, shown: &mut String, roster: &Roster) -> Result<(), AllocError> {
    for number in 1..=roster.problems() {
        push_problem(alloc, shown, &roster.problem(number))?;
    }
    for number in 1..=roster.submissions() {
        push_submission(alloc, shown, &roster.submission(number))?;
    }
    Ok(())
}

fn push_problem(
    alloc: Global,
    shown: &mut String,
    problem: &RosterProblem,
) -> Result<(), AllocError> {
    let name = text_of(problem.name.as_bytes());
    let line = format!(in alloc; " {name}/{}", problem.tests)?;
    shown.push_str(line.as_str())
}

fn push_submission(
    alloc: Global,
    shown: &mut String,
    submission: &RosterSubmission,
) -> Result<(), AllocError> {
    let team = text_of(submission.team.as_bytes());
    let problem = text_of(submission.problem.as_bytes());
    let mark = if submission.broken { "!" } else { "" };
    let line = format!(in alloc; " {team}:{problem}{mark}")?;
    shown.push_str(line.as_str())
}

/// What is read of the files with these changes, in words.
fn changed_told(alloc: Global, changes: &str) -> Result<String, Fail> {
    files_told(alloc, changed(alloc, changes)?, "c")
}

fn check_row(rt: &impl Abort, alloc: Global, row: &str) -> Result<(), Fail> {
    let (changes, expected) = row.split_once(" => ").unwrap_or((row, ""));
    let expected = if expected == "READ" { READ } else { expected };
    let shown = changed_told(alloc, changes)?;
    check_text(rt, shown.as_str(), expected, changes);
    Ok(())
}

#[test]
fn each_fault_beside_a_near_miss(rt: HostRuntime) -> Result<(), Fail> {
    for row in ROWS.lines() {
        check_row(&rt, rt.alloc(), row)?;
    }
    Ok(())
}

/// The files in a tree whose call of this number fails.
fn failing_tree(alloc: Global, failing: u64) -> Result<MemoryTree, Fail> {
    let failing = [failing].to_vec(alloc)?;
    Ok(MemoryTree::new(alloc, changed(alloc, "")?, failing))
}

/// What is read where the call of this number fails, in words.
fn failing_told(alloc: Global, failing: u64) -> Result<String, Fail> {
    let mut tree = failing_tree(alloc, failing)?;
    read_told(alloc, &mut tree, "c")
}

fn check_failing(rt: &impl Abort, alloc: Global, failing: u64) -> Result<(), Fail> {
    let expected = if failing < 30 { "tree" } else { READ };
    let shown = failing_told(alloc, failing)?;
    assert_eq!(rt; shown.as_str(), expected, "{failing}");
    Ok(())
}

/// Each call of the contest's tree fails in turn: that is the answer.
#[test]
fn each_call_of_the_tree_fails(rt: HostRuntime) -> Result<(), Fail> {
    for failing in 0..31u64 {
        check_failing(&rt, rt.alloc(), failing)?;
    }
    Ok(())
}

/// What a case holds, in words, or `none`.
fn case_told(
    alloc: Global,
    roster: &Roster,
    judging: u32,
    test: u16,
) -> Result<String, AllocError> {
    let Some(case) = roster.case_of(Task { judging, test }) else {
        return String::from_str(alloc, "none");
    };
    let check = check_told(alloc, &case.check)?;
    format!(in alloc;
        "{} {} {} {} {}",
        text_of(case.image),
        text_of(case.input).trim(),
        text_of(case.answer).trim(),
        case.limits.instructions,
        check.as_str()
    )
}

fn check_told(alloc: Global, check: &Check<'_>) -> Result<String, AllocError> {
    match check {
        Check::Default(flags) => format!(in alloc;
            "default {}",
            flags.tolerance.relative.unwrap_or(0)
        ),
        Check::Custom { image, flags } => format!(in alloc;
            "{} {}",
            text_of(image),
            text_of(flags)
        ),
    }
}

/// A judging, a test, and the case.
const CASES: &str = concat!(
    "1 1 echo 3.14 3.140 100000 default 1000000\n",
    "1 2 echo 7 7 100000 default 1000000\n",
    "2 1 silently 3.14 3.140 100000 default 1000000\n",
    "5 1 echo 4 4 100000 validate by hand\n",
    "7 2 three... 5 5 100000 validate by hand\n",
    "0 1 none\n",
    "1 0 none\n",
    "1 3 none\n",
    "4 1 none\n",
    "8 1 none\n",
);

fn check_case(rt: &impl Abort, alloc: Global, roster: &Roster, row: &str) -> Result<(), Fail> {
    let (judging, rest) = row.split_once(' ').unwrap_or((row, ""));
    let (test, expected) = rest.split_once(' ').unwrap_or((rest, ""));
    let judging = judging.parse::<u32>().unwrap_or(0);
    let test = test.parse::<u16>().unwrap_or(0);
    let case = case_told(alloc, roster, judging, test)?;
    check_text(rt, case.as_str(), expected, row);
    Ok(())
}

fn check_cases(rt: &impl Abort, alloc: Global, roster: &Roster) -> Result<(), Fail> {
    for row in CASES.lines() {
        check_case(rt, alloc, roster, row)?;
    }
    Ok(())
}

/// Compares the cases of the contest that is read of the files.
fn check_cases_of(rt: &impl Abort, alloc: Global, files: TreeFiles) -> Result<(), Fail> {
    match read_contest(alloc, &mut ReliableTree::new(alloc, files), "c") {
        Ok(roster) => check_cases(rt, alloc, &roster),
        Err(_) => Err(Fail::from("no roster")),
    }
}

#[test]
fn each_judging_and_test_has_its_case(rt: HostRuntime) -> Result<(), Fail> {
    let alloc = rt.alloc();
    check_cases_of(&rt, alloc, changed(alloc, "")?)
}

/// A file, what is read where it is too large, and what is read where it is just not. `READ` and `NINE_BROKEN` stand for
/// the texts of these names.
const LARGE: &str = concat!(
    "c/farm.json => too large farm.json => farm.json: not json\n",
    "c/submissions.txt => too large submissions.txt => 10000000 echo/2 guess/2\n",
    "c/problems/echo/problem.yaml => problem echo: too large problem.yaml => READ\n",
    "c/submissions/9.rv32 => NINE_BROKEN => NINE_BROKEN\n",
);

/// What is read where the sixth submission is broken too.
const NINE_BROKEN: &str =
    "10000000 echo/2 guess/2 alpha:echo beta:echo gamma:echo delta:echo! alpha:guess beta:guess! gamma:guess";

/// The files with this one.
fn with_file(alloc: Global, path: &str, bytes: &[u8]) -> Result<TreeFiles, Fail> {
    let mut files = changed(alloc, path)?;
    put(alloc, &mut files, path, bytes)?;
    Ok(files)
}

/// Compares what is read of the files with this one.
fn check_file(
    rt: &impl Abort,
    alloc: Global,
    path: &str,
    bytes: &[u8],
    expected: &str,
) -> Result<(), Fail> {
    let expected = match expected {
        "READ" => READ,
        "NINE_BROKEN" => NINE_BROKEN,
        _ => expected,
    };
    let shown = files_told(alloc, with_file(alloc, path, bytes)?, "c")?;
    check_text(rt, shown.as_str(), expected, path);
    Ok(())
}

fn check_large(rt: &impl Abort, alloc: Global, row: &str, large: &[u8]) -> Result<(), Fail> {
    let (path, rest) = row.split_once(" => ").unwrap_or((row, ""));
    let (over, within) = rest.split_once(" => ").unwrap_or((rest, ""));
    let just = large.get(1..).unwrap_or(b"");
    check_file(rt, alloc, path, large, over)?;
    check_file(rt, alloc, path, just, within)
}

fn check_large_rows(rt: &impl Abort, alloc: Global, large: &[u8]) -> Result<(), Fail> {
    for row in LARGE.lines() {
        check_large(rt, alloc, row, large)?;
    }
    Ok(())
}

/// Files that are too large, beside files that are just not.
#[test]
fn a_file_has_at_most_16_mebibytes(rt: HostRuntime) -> Result<(), Fail> {
    let alloc = rt.alloc();
    let large = vec![in alloc; b' '; FILE_LIMIT + 1]?;
    check_large_rows(&rt, alloc, large.as_slice())
}

/// A tree in which each file of submissions has 16 MiB.
#[derive(Drop)]
struct Heavy {
    alloc: Global,
    tree: ReliableTree,
}

impl Tree for Heavy {
    ghost files = { λ _. None };

    ghost faults = { λ _. 0 };

    fn read(&mut self, path: &str) -> Result<Text, TreeErr> {
        if !path.ends_with(".heavy") {
            return self.tree.read(path);
        }
        match vec![in self.alloc; b'x'; FILE_LIMIT] {
            Ok(bytes) => Ok(Text::from_vec(bytes)),
            Err(_) => Err(TreeErr::NoMemory),
        }
    }

    fn list(&mut self, path: &str) -> Result<Entries, TreeErr> {
        self.tree.list(path)
    }

    fn fault_count(&self) -> u64 {
        0
    }
}

/// Appends `count` submissions of one file to a list.
fn push_submissions(alloc: Global, list: &mut String, count: u32, file: &str) -> Result<(), Fail> {
    for number in 1..=count {
        push_line(alloc, list, number, file)?;
    }
    Ok(())
}

fn push_line(alloc: Global, list: &mut String, number: u32, file: &str) -> Result<(), Fail> {
    let line = format!(in alloc; "{number} a echo {file}\n")?;
    Ok(list.push_str(line.as_str())?)
}

/// The list of `count` submissions of one file.
fn list_of(alloc: Global, count: u32, file: &str) -> Result<String, Fail> {
    let mut list = String::new(alloc);
    push_submissions(alloc, &mut list, count, file)?;
    Ok(list)
}

/// The files with `count` submissions of one file.
fn with_submissions(alloc: Global, count: u32, file: &str) -> Result<TreeFiles, Fail> {
    let list = list_of(alloc, count, file)?;
    with_file(alloc, "c/submissions.txt", list.as_str().as_bytes())
}

/// How many submissions are read of the tree, in words, or what is at fault.
fn count_told<T: Tree>(alloc: Global, tree: &mut T) -> Result<String, Fail> {
    let answer = read_contest(alloc, tree, "c");
    submissions_told(alloc, &answer)
}

fn submissions_told(alloc: Global, answer: &Result<Roster, ContestFault>) -> Result<String, Fail> {
    match answer {
        Ok(roster) => Ok(format!(in alloc; "{} submissions", roster.submissions())?),
        Err(_) => told(alloc, answer),
    }
}

fn check_heavy(rt: &impl Abort, alloc: Global, count: u32, expected: &str) -> Result<(), Fail> {
    let tree = ReliableTree::new(alloc, with_submissions(alloc, count, "x.heavy")?);
    let shown = count_told(alloc, &mut Heavy { alloc, tree })?;
    check_text(rt, shown.as_str(), expected, "x.heavy");
    Ok(())
}

/// Submissions of one file, each of 16 MiB, behind 23 bytes in test files.
#[test]
fn a_contest_has_at_most_1_gibibyte(rt: HostRuntime) -> Result<(), Fail> {
    check_heavy(&rt, rt.alloc(), 63, "63 submissions")?;
    check_heavy(&rt, rt.alloc(), 65, "too much 1073741847")
}

fn check_many(rt: &impl Abort, alloc: Global, count: u32, expected: &str) -> Result<(), Fail> {
    let mut tree = ReliableTree::new(alloc, with_submissions(alloc, count, "9.rv32")?);
    let shown = count_told(alloc, &mut tree)?;
    check_text(rt, shown.as_str(), expected, "9.rv32");
    Ok(())
}

#[test]
fn a_contest_has_at_most_100000_submissions(rt: HostRuntime) -> Result<(), Fail> {
    check_many(&rt, rt.alloc(), 100_000, "100000 submissions")?;
    check_many(&rt, rt.alloc(), 100_001, "too many submissions 100001")
}

/// Adds the folders of `count` more problems, with one file each that is not read.
fn put_problems(alloc: Global, files: &mut TreeFiles, count: u32) -> Result<(), Fail> {
    for number in 1..=count {
        put_problem(alloc, files, number)?;
    }
    Ok(())
}

fn put_problem(alloc: Global, files: &mut TreeFiles, number: u32) -> Result<(), Fail> {
    let path = format!(in alloc; "c/problems/p{number}/x")?;
    put(alloc, files, path.as_str(), b"")
}

/// The files with `count` more problems.
fn with_problems(alloc: Global, count: u32) -> Result<TreeFiles, Fail> {
    let mut files = changed(alloc, "")?;
    put_problems(alloc, &mut files, count)?;
    Ok(files)
}

fn check_problems(rt: &impl Abort, alloc: Global, count: u32, expected: &str) -> Result<(), Fail> {
    let shown = files_told(alloc, with_problems(alloc, count)?, "c")?;
    check_text(rt, shown.as_str(), expected, "problems");
    Ok(())
}

#[test]
fn a_contest_has_at_most_1000_problems(rt: HostRuntime) -> Result<(), Fail> {
    check_problems(&rt, rt.alloc(), 998, "problem p1: no problem.yaml")?;
    check_problems(&rt, rt.alloc(), 999, "too many problems 1001")
}

/// Without a folder there is no list of submissions.
#[test]
fn an_absent_folder_has_no_list(rt: HostRuntime) -> Result<(), Fail> {
    let alloc = rt.alloc();
    let shown = files_told(alloc, changed(alloc, "")?, "d")?;
    assert_eq!(rt; shown.as_str(), "no submissions.txt");
    Ok(())
}
