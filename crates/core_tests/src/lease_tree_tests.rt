use crate::rows::{check_row, is_said, moment, number, parts_of, rank, word};
use farm_kinds::Task;
use farm_model::Lease;
use lease_tree::{Key, LeaseTree, Order};
use std::alloc::Global;
use std::test::Fail;

/// Leases, each as its host, its judging, its test and its end.
const LEASES: &str = "2 3 1 60~1 3 2 60~2 1 10 61~1 1 9 59~3 2 1 60~3 3 10 59";

/// Trees, a row each: what is shown, behind `|` the order of the tree, and behind the next `|` the steps, each before a
/// `~`, with what is answered behind `=`.
///
/// `fill` makes room for 10 leases and puts in the leases above. A key stands there as its group, and its task as its
/// judging and its test. `take` asks whether the lease is the first, is found by its key, and is removed once.
const ROWS: &str = concat!(
    "leases come out in the order of judgings|judging|",
    "fill = yes~",
    "len = 6~",
    "spare = 4~",
    "take 1 1 9 59 = yes~",
    "take 2 1 10 61 = yes~",
    "take 3 2 1 60 = yes~",
    "take 2 3 1 60 = yes~",
    "take 1 3 2 60 = yes~",
    "take 3 3 10 59 = yes~",
    "len = 0~",
    "spare = 10~",
    "depth = 0~",
    "\n",
    "leases come out in the order of hosts|host|",
    "fill = yes~",
    "len = 6~",
    "spare = 4~",
    "take 1 1 9 59 = yes~",
    "take 1 3 2 60 = yes~",
    "take 2 1 10 61 = yes~",
    "take 2 3 1 60 = yes~",
    "take 3 2 1 60 = yes~",
    "take 3 3 10 59 = yes~",
    "len = 0~",
    "spare = 10~",
    "depth = 0~",
    "\n",
    "leases come out in the order of ends|end|",
    "fill = yes~",
    "len = 6~",
    "spare = 4~",
    "take 1 1 9 59 = yes~",
    "take 3 3 10 59 = yes~",
    "take 3 2 1 60 = yes~",
    "take 2 3 1 60 = yes~",
    "take 1 3 2 60 = yes~",
    "take 2 1 10 61 = yes~",
    "len = 0~",
    "spare = 10~",
    "depth = 0~",
    "\n",
    "what stands at a group|host|",
    "fill = yes~",
    "first-of 2 = 2 1 10 61~",
    "first-of 4 = none~",
    "count 0 = 0~",
    "count 1 = 2~",
    "count 2 = 2~",
    "count 3 = 2~",
    "count 4 = 0~",
    "find 2 3 2 = none~",
    "find 1 3 2 = 1 3 2 60~",
    "\n",
    "what stands first from a key on|host|",
    "fill = yes~",
    "from 1 3 2 = 1 3 2 60~",
    "behind 1 3 2 = 2 1 10 61~",
    "from 2 2 0 = 2 3 1 60~",
    "behind 2 2 0 = 2 3 1 60~",
    "from 3 3 10 = 3 3 10 59~",
    "behind 3 3 10 = none~",
    "from 3 3 65535 = none~",
    "behind 3 3 65535 = none~",
    "\n",
);

/// The lease of four words.
fn lease_of(words: &str) -> Lease {
    Lease {
        host: number(words, 0),
        task: Task {
            judging: number(words, 1),
            test: rank(words, 2),
        },
        until: moment(words, 3),
    }
}

/// The key behind the first word.
fn key_of(words: &str) -> Key {
    Key {
        group: number(words, 1) as u64,
        task: Task {
            judging: number(words, 2),
            test: rank(words, 3),
        },
    }
}

/// Whether this lease is answered.
fn is_lease(lease: Option<Lease>, wanted: &str) -> bool {
    match lease {
        Some(lease) => {
            let wanted = lease_of(wanted);
            lease.host == wanted.host && lease.task == wanted.task && lease.until == wanted.until
        }
        None => wanted == "none",
    }
}

/// Puts in the lease, where there is room for it and none stands at its key.
fn insert(tree: &mut LeaseTree, lease: Lease) -> bool {
    if tree.spare() == 0 || tree.len() == u32::MAX {
        return false;
    }
    if let Some(_) = tree.find(tree.order().key(lease)) {
        return false;
    }
    tree.insert(lease);
    true
}

/// Makes room for 10 leases, and puts in those above.
fn fill(tree: &mut LeaseTree) -> bool {
    if tree.reserve(10).is_err() {
        return false;
    }
    for lease in LEASES.split('~') {
        if !insert(tree, lease_of(lease)) {
            return false;
        }
    }
    true
}

/// Whether the lease is the first, is found by its key, and is removed once.
fn take(tree: &mut LeaseTree, wanted: &str) -> bool {
    let key = tree.order().key(lease_of(wanted));
    is_lease(tree.first(), wanted)
        && is_lease(tree.find(key), wanted)
        && is_lease(tree.remove(key), wanted)
        && tree.remove(key).is_none()
}

/// Whether the tree answers the step as it should.
fn is_answered(tree: &mut LeaseTree, step: &str) -> bool {
    let (asked, wanted) = parts_of(step, " = ");
    match parts_of(asked, " ") {
        ("fill", _) => is_said(fill(tree), wanted),
        ("take", lease) => is_said(take(tree, lease), wanted),
        _ => is_told(tree, asked, wanted),
    }
}

/// Whether the tree answers a step that only looks as it should.
fn is_told(tree: &LeaseTree, asked: &str, wanted: &str) -> bool {
    let first = number(asked, 1) as u64;
    match word(asked, 0) {
        "find" => is_lease(tree.find(key_of(asked)), wanted),
        "from" => is_lease(tree.first_from(key_of(asked)), wanted),
        "behind" => is_lease(tree.first_behind(key_of(asked)), wanted),
        "first-of" => is_lease(tree.first_of(first), wanted),
        "count" => tree.count_of(first) == number(wanted, 0),
        "len" => tree.len() == number(wanted, 0),
        "spare" => tree.spare() == number(wanted, 0) as usize,
        "depth" => tree.depth() == number(wanted, 0),
        _ => false,
    }
}

/// Has a tree take the steps: the first that it does not answer as it should, or nothing.
fn play<'a>(tree: &mut LeaseTree, steps: &'a str) -> &'a str {
    for step in steps.split('~') {
        if !step.is_empty() && !is_answered(tree, step) {
            return step;
        }
    }
    ""
}

/// Has a new tree of the order take the steps: the first that it does not answer as it should, or nothing.
fn wrong_step<'a>(alloc: Global, order: &str, steps: &'a str) -> &'a str {
    let order = match order {
        "judging" => Order::Judging,
        "host" => Order::Host,
        _ => Order::End,
    };
    let mut tree = LeaseTree::new(alloc, order);
    let wrong = play(&mut tree, steps);
    drop(tree);
    wrong
}

#[test]
fn trees_answer_as_they_should(rt: HostRuntime) -> Result<(), Fail> {
    for row in ROWS.lines() {
        let (shown, row) = parts_of(row, "|");
        let (order, steps) = parts_of(row, "|");
        check_row(&rt, shown, wrong_step(rt.alloc(), order, steps));
    }
    Ok(())
}
