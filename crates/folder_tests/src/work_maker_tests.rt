use crate::files::bytes_of;
use farm_tree::{MemoryTree, Tree, TreeErr};
use std::alloc::Global;
use std::process::Abort;
use std::test::Fail;
use work_maker::{FOLDER, Program, make_contest};

/// The bytes of a file of the tree, where it is there.
fn holds(tree: &mut MemoryTree, path: &str, bytes: &[u8]) -> bool {
    match tree.read(path) {
        Ok(text) => text.as_slice() == bytes,
        Err(_) => false,
    }
}

/// How many entries the folder has.
fn entries(tree: &mut MemoryTree, path: &str) -> Result<usize, TreeErr> {
    Ok(tree.list(path)?.as_slice().len())
}

/// The files of the contest of number 1 with three problems and twenty submissions, a line each: the path, and behind `|`
/// what the file holds. The draws were worked out apart from the program.
const FILES: &str = concat!(
    "contest/problems/p2/problem.yaml|name: p2~limits:~  memory: 1~\n",
    "contest/problems/p2/domjudge-problem.ini|timelimit=0.01~\n",
    "contest/problems/p1/data/secret/01.in|200~\n",
    "contest/problems/p1/data/secret/02.ans|46~\n",
    "contest/problems/p3/data/secret/01.ans|774~\n",
    "contest/submissions/2.rv32|#130500009308d00573000000\n",
    "contest/submissions/3.rv32|#000000\n",
    "contest/submissions.txt|1 t3 p1 1.rv32~2 t9 p3 2.rv32~3 t9 p1 3.rv32~4 t9 p3 4.rv32~5 t3 p1 5.rv32~6 t0 p1 6.rv32~7 t2 p2 7.rv32~8 t7 p3 8.rv32~9 t6 p2 9.rv32~10 t5 p1 10.rv32~11 t5 p3 11.rv32~12 t7 p1 12.rv32~13 t6 p2 13.rv32~14 t6 p3 14.rv32~15 t9 p3 15.rv32~16 t7 p3 16.rv32~17 t4 p2 17.rv32~18 t0 p3 18.rv32~19 t3 p1 19.rv32~20 t2 p3 20.rv32~\n",
);

/// Its folders, and how many entries each has.
const FOLDERS: &str = concat!(
    "contest/problems|3\n",
    "contest/submissions|20\n",
    "contest/problems/p1/data/secret|4\n",
    "contest/problems/p2/data/secret|2\n",
    "contest/problems/p3/data/secret|4\n",
);

/// Compares the number of entries of each folder.
fn check_folders(rt: &impl Abort, tree: &mut MemoryTree, folders: &str) {
    for row in folders.lines() {
        let (folder, count) = row.split_once('|').unwrap_or((row, ""));
        let count = count.parse::<usize>().unwrap_or(0);
        assert_eq!(rt; entries(tree, folder), Ok(count), "{folder}");
    }
}

/// Compares each file.
fn check_files(rt: &impl Abort, alloc: Global, tree: &mut MemoryTree) -> Result<(), Fail> {
    for row in FILES.lines() {
        let (path, content) = row.split_once('|').unwrap_or((row, ""));
        let bytes = bytes_of(alloc, content)?;
        assert!(rt; holds(tree, path, bytes.as_slice()), "{path}");
    }
    Ok(())
}

#[test]
fn the_contest_of_number_one(rt: HostRuntime) -> Result<(), Fail> {
    let mut tree = make_contest(rt.alloc(), 1, 3, 20)?;
    assert_eq!(rt; entries(&mut tree, FOLDER), Ok(3));
    check_folders(&rt, &mut tree, FOLDERS);
    check_files(&rt, rt.alloc(), &mut tree)
}

/// The folders of the largest contest, which has as many files as its numbers say.
const LARGEST: &str = concat!("contest/problems|50\n", "contest/submissions|2000\n");

#[test]
fn the_largest_contest(rt: HostRuntime) -> Result<(), Fail> {
    let mut tree = make_contest(rt.alloc(), 4_294_967_295, 50, 2000)?;
    check_folders(&rt, &mut tree, LARGEST);
    Ok(())
}

/// Compares the image of a program.
fn check_bytes(rt: &impl Abort, found: &[u8], expected: &[u8], program: Program) {
    assert_eq!(rt; found, expected, "{program:?}");
}

/// Compares the image of a program with the one that GNU as 2.40 assembles, in hexadecimal digits.
fn check_image(rt: &impl Abort, alloc: Global, program: Program, image: &str) -> Result<(), Fail> {
    let expected = bytes_of(alloc, image)?;
    let found = program.image(alloc)?;
    check_bytes(rt, found.as_slice(), expected.as_slice(), program);
    Ok(())
}

const ECHO: &str =
    "#b705020013050000130600049308f0037300000013060500130510009308000473000000130500009308d00573000000";

const SILENT: &str = "#130500009308d00573000000";

const LOOP: &str = "#6f000000";

const FAIL: &str = "#130510009308d00573000000";

const HALF: &str =
    "#b705020013050000130600049308f0037300000083c605001307500363e4e6006f00000013060500130510009308000473000000130500009308d00573000000";

const GREEDY: &str = "#b7051000b717000023800500b385f5006ff09fff";

const BROKEN: &str = "#000000";

#[test]
fn images_are_as_they_are_assembled(rt: HostRuntime) -> Result<(), Fail> {
    let alloc: Global = rt.alloc();
    check_image(&rt, alloc, Program::Echo, ECHO)?;
    check_image(&rt, alloc, Program::Silent, SILENT)?;
    check_image(&rt, alloc, Program::Loop, LOOP)?;
    check_image(&rt, alloc, Program::Fail, FAIL)?;
    check_image(&rt, alloc, Program::Half, HALF)?;
    check_image(&rt, alloc, Program::Greedy, GREEDY)?;
    check_image(&rt, alloc, Program::Broken, BROKEN)
}
