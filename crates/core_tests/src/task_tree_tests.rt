ghost use Rattle.std.specs.Prelude.{◌≡◌, ◌<◌};

use crate::rows::check_row;
use farm_kinds::{Class, MAX_JUDGINGS, MAX_TESTS, Task};
use std::alloc::Global;
use std::marker::Brand;
use std::sync::ledger::{Blank, Ledger};
use std::test::Fail;
use task_tree::{Steps, TaskTree};

/// What is done to a tree of no judgings, and then the tasks in the order in which they are found and hidden.
/// `n64x2` adds 64 judgings of two tests to the class normal, `+3.1` shows test 1 of judging 3, `-3.1` hides it, and
/// `>3.1` hides all behind it. Each judging that is added is answered its number, from 1.
const ROWS: &str = concat!(
    "n1x3 => \n",
    "l1x1000 h1x0 => \n",
    "l1x1 n1x1 h1x1 +1.1 +2.1 +3.1 => 3.1 2.1 1.1\n",
    "n3x3 +3.1 +2.2 +2.1 +1.3 => 1.3 2.1 2.2 3.1\n",
    "n1x1 h1x2 l1x1 h1x2 +4.1 +3.1 +2.2 +1.1 => 2.2 4.1 1.1 3.1\n",
    "n2x2 +1.1 +1.2 +2.1 -1.1 -1.2 +1.2 => 1.2 2.1\n",
    "n1x2 -1.1 +1.2 +1.2 +1.1 => 1.1 1.2\n",
    "n1x3 +0.1 +1.0 +1.4 +2.1 => \n",
    "n1x0 n1x1 +1.1 +2.1 => 2.1\n",
    "n1x1000 +1.1000 +1.65 +1.64 +1.999 => 1.64 1.65 1.999 1.1000\n",
    "n65x1 +65.1 h1x2 +66.2 => 66.2 65.1\n",
    "n1x1000 n1x2 +1.64 +1.65 +1.66 +1.128 +1.1000 +2.2 >1.65 => 1.64 1.65 2.2\n",
    "n2x1000 +1.64 +1.65 +1.1000 +2.64 +2.1000 >1.64 >2.63 => 1.64\n",
    "h1x70 n1x1 +1.1 +1.70 +2.1 >1.0 >2.1 => 2.1\n",
    "n1x2 +1.1 +1.2 >1.1000 >0.1 >2.1 => 1.1 1.2\n",
    "n64x1 +64.1 +1.1 => 1.1 64.1\n",
    "n65x1 +65.1 +64.1 -64.1 => 65.1\n",
    "n4096x1 +4096.1 +65.1 +64.1 => 64.1 65.1 4096.1\n",
    "n4097x1 +4097.1 +4096.1 +1.1 -1.1 => 4096.1 4097.1\n",
    "l400000x1 +400000.1 +262145.1 +262144.1 => 262144.1 262145.1 400000.1\n",
);

/// The task of `3.1`.
fn task_of(text: &str) -> Task {
    let (judging, test) = text.split_once('.').unwrap_or((text, ""));
    Task {
        judging: judging.parse::<u32>().unwrap_or(0),
        test: test.parse::<u16>().unwrap_or(0),
    }
}

/// Shows or hides the task, if there is one.
fn set_shown(tree: &mut TaskTree, task: Task, shown: bool) {
    if !tree.has_task(task) {
        return;
    }
    if shown {
        tree.show_task(task);
    } else {
        tree.hide_task(task);
    }
}

/// Hides what is shown of the judging behind the test `last`, if there is that judging.
fn hide_behind(tree: &mut TaskTree, last: Task) {
    if last.judging == 0 || last.judging as usize > tree.judging_count() {
        return;
    }
    tree.hide_behind(last.judging, last.test);
}

/// Adds a judging, where there is room for it. Whether it is answered its number.
fn add_one(tree: &mut TaskTree, class: Class, tests: u16) -> bool {
    if tests as u32 > MAX_TESTS || tree.judging_count() >= MAX_JUDGINGS as usize {
        return false;
    }
    match tree.add(class, tests) {
        Ok(number) => number as usize == tree.judging_count(),
        Err(_) => false,
    }
}

/// Adds the judgings of `64x2`.
fn add(tree: &mut TaskTree, class: Class, text: &str) -> bool {
    let (count, tests) = text.split_once('x').unwrap_or((text, ""));
    let tests = tests.parse::<u16>().unwrap_or(u16::MAX);
    for _ in 0..count.parse::<u32>().unwrap_or(1) {
        if !add_one(tree, class, tests) {
            return false;
        }
    }
    true
}

/// Does what one word says.
fn change(tree: &mut TaskTree, word: &str) -> bool {
    match word.split_at_checked(1) {
        Some(("+", rest)) => {
            set_shown(tree, task_of(rest), true);
            true
        }
        Some(("-", rest)) => {
            set_shown(tree, task_of(rest), false);
            true
        }
        Some((">", rest)) => {
            hide_behind(tree, task_of(rest));
            true
        }
        Some(("h", rest)) => add(tree, Class::High, rest),
        Some(("n", rest)) => add(tree, Class::Normal, rest),
        Some(("l", rest)) => add(tree, Class::Low, rest),
        _ => false,
    }
}

/// The least shown task, which is hidden then.
fn take_first(tree: &mut TaskTree) -> Option<Task> {
    take_first_with::<Brand>(tree, Blank::new(1))
}

fn take_first_with<L: Ledger>(tree: &mut TaskTree, blank: Blank) -> Option<Task>
    requires name { blank.name ≡ L.name }
    requires parts { blank.parts ≡ L.parts }
    requires one { blank.parts ≡ 1 }
{
    let mut steps = Steps::<L>::new(blank);
    let task = tree.first(&mut steps)?;
    tree.hide_task(task);
    Some(task)
}

/// Does what the words say.
fn change_all(tree: &mut TaskTree, words: &str) -> bool {
    for word in words.split(' ') {
        if !change(tree, word) {
            return false;
        }
    }
    true
}

/// Whether these tasks are found in this order, and no other.
fn are_found(tree: &mut TaskTree, tasks: &str) -> bool {
    for word in tasks.split(' ') {
        if !word.is_empty() && take_first(tree) != Some(task_of(word)) {
            return false;
        }
    }
    take_first(tree).is_none()
}

/// Whether what the row says of a tree is so.
fn is_right(alloc: Global, row: &str) -> bool {
    let (words, tasks) = row.split_once(" => ").unwrap_or((row, ""));
    let mut tree = TaskTree::new(alloc);
    let right = change_all(&mut tree, words) && are_found(&mut tree, tasks);
    drop(tree);
    right
}

#[test]
fn tasks_are_found_by_class_judging_and_test(rt: HostRuntime) -> Result<(), Fail> {
    for row in ROWS.lines() {
        let wrong = if is_right(rt.alloc(), row) {
            ""
        } else {
            "not so"
        };
        check_row(&rt, row, wrong);
    }
    Ok(())
}
