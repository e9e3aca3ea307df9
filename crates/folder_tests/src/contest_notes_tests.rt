use crate::files::{bytes_of, files_of};
use crate::recorder::Recorder;
use crate::rows::check_text;
use contest_notes::read_told_contest;
use farm_tree::{MemoryTree, ReliableTree, Tree};
use std::alloc::Global;
use std::process::Abort;
use std::str;
use std::test::Fail;

/// A contest of which nothing is told.
const CONTEST: &str = concat!(
    "c/problems/echo/problem.yaml|name: Echo~\n",
    "c/problems/echo/domjudge-problem.ini|timelimit='0.01'~\n",
    "c/problems/echo/data/sample/1.in|7~\n",
    "c/problems/echo/data/sample/1.ans|7~\n",
    "c/submissions.txt|1 otters echo a.rv32~\n",
    "c/submissions/a.rv32|#13000000\n",
);

/// What to change in its files, and what a person is then told: `PATH=CONTENT` for a file that holds this, and `PATH` alone for
/// one that is left out.
const ROWS: &str = concat!(
    " => \n",
    // what is skipped, or otherwise than one may think
    "c/problems/echo/problem.yaml=name: Echo~memroy: 64~ => note: problem echo: problem.yaml line 2: memroy is not read~\n",
    "c/problems/echo/problem.yaml=name: Echo~# memroy: 64~ => \n",
    "c/problems/echo/domjudge-problem.ini => note: problem echo: domjudge-problem.ini: nothing sets timelimit, so it is 1 second~\n",
    "c/problems/echo/data/secret/1.IN= => note: problem echo: data/secret/1.IN: it ends neither in .in nor in .ans, so it is not read~\n",
    "c/problems/notes.txt= => \n",
    "c/farm.json={\"problem_modes\":{\"echoo\":\"full\"}} => note: farm.json: problem_modes: there is no problem \"echoo\" in problems/~\n",
    "c/farm.json={\"problem_modes\":{\"echo\":\"full\"}} => \n",
    "c/farm.json={\"problem_modes\":{\"add\":\"full\",\"echo\":\"lazy\",\"zoo\":\"lazy\"}} => note: farm.json: problem_modes: there is no problem \"add\" in problems/~note: farm.json: problem_modes: there is no problem \"zoo\" in problems/~\n",
    "c/submissions/a.rv32=print(7)~ => note: submission 1: submissions/a.rv32 is text, and nothing is compiled here; it is a compiler-error~\n",
    "c/submissions/a.rv32=#7f454c46 => note: submission 1: submissions/a.rv32 is an ELF file that is cut off in its header; it is a compiler-error~\n",
    "c/submissions/unlisted= => \n",
    "c/submissions/a.rv32= => note: submission 1: submissions/a.rv32 is empty; it is a compiler-error~\n",
    // why it is no contest
    "c/farm.json={\"leese\":7} => refused: c is no contest: farm.json: no setting, kind of result or problem can have the key \"leese\"; nothing was judged~\n",
    "c/problems/echo/problem.yaml=limits:~  memory: many~ => refused: c is no contest: problem echo: problem.yaml line 2: memory is no whole number of MiB from 1 to 1000000; nothing was judged~\n",
    "c/submissions.txt => refused: c is no contest: there is no submissions.txt; nothing was judged~\n",
    "c/submissions.txt=1 otters echo a.rv32~3 newts echo a.rv32~ => refused: c is no contest: submissions.txt line 2: the number is 3, but the next one is 2; nothing was judged~\n",
    "c/submissions.txt=1 otters ad a.rv32~ => refused: c is no contest: submissions.txt line 1: there is no problem \"ad\" in problems/; nothing was judged~\n",
    "c/submissions/a.rv32 => refused: c is no contest: submissions.txt line 1: there is no file submissions/a.rv32; nothing was judged~\n",
    "c/submissions.txt=1 otters echo b.rv32~ => refused: c is no contest: submissions.txt line 1: there is no file submissions/b.rv32; nothing was judged~\n",
);

/// Lets the recorder be told of the contest in the tree.
fn tell<T: Tree>(alloc: Global, tree: &mut T, person: &mut Recorder) {
    let answer = read_told_contest(alloc, tree, "c", "nothing was judged", person);
    drop(answer);
}

/// What is told of the contest with this change.
fn told(alloc: Global, change: &str) -> Result<Recorder, Fail> {
    let mut tree = ReliableTree::new(alloc, files_of(alloc, CONTEST, change)?);
    let mut person = Recorder::new(alloc);
    tell(alloc, &mut tree, &mut person);
    Ok(person)
}

fn check_row(rt: &impl Abort, alloc: Global, row: &str) -> Result<(), Fail> {
    let (change, expected) = row.split_once(" => ").unwrap_or((row, ""));
    let expected = bytes_of(alloc, expected)?;
    let person = told(alloc, change)?;
    check_text(
        rt,
        person.told.as_str(),
        str::from_utf8(expected.as_slice()).unwrap_or("?"),
        change,
    );
    Ok(())
}

#[test]
fn each_note_and_each_reason_beside_a_near_miss(rt: HostRuntime) -> Result<(), Fail> {
    for row in ROWS.lines() {
        check_row(&rt, rt.alloc(), row)?;
    }
    Ok(())
}

/// What is told of the contest where the call of this number fails.
fn told_where_it_fails(alloc: Global, failing: u64) -> Result<Recorder, Fail> {
    let failing = [failing].to_vec(alloc)?;
    let mut tree = MemoryTree::new(alloc, files_of(alloc, CONTEST, "")?, failing);
    let mut person = Recorder::new(alloc);
    tell(alloc, &mut tree, &mut person);
    Ok(person)
}

/// What cannot be read is no note and no reason.
#[test]
fn each_call_of_the_tree_fails(rt: HostRuntime) -> Result<(), Fail> {
    for failing in 0..40u64 {
        let person = told_where_it_fails(rt.alloc(), failing)?;
        assert_eq!(&rt; person.told.as_str(), "", "{failing}");
    }
    Ok(())
}
