use crate::rows::{check_row, is_said, moment, number, parts_of, rank, word};
use farm_kinds::Task;
use lease_book::{Lease, LeaseBook};
use std::alloc::Global;
use std::test::Fail;

/// Books, a row each: what is shown, and behind `|` the steps, each before a `~`, with what is answered behind `=`.
///
/// A lease stands there as its host, its judging, its test and its end, and a task as its judging and its test. `room`
/// asks whether as many more leases as it says can be granted. `grant-all`, `renew-first`, `end-hosts` and
/// `due-in-order` are of many leases, and are answered whether each of them went well.
const ROWS: &str = concat!(
    "one before the end|",
    "reserve 64 = yes~",
    "grant 1 1 1 60 = yes~",
    "due 59 = none~",
    "find 1 1 = 1 1 1 60~",
    "due 60 = 1 1 1 60~",
    "find 1 1 = none~",
    "due 60 = none~",
    "\n",
    "the lesser task first at one moment|",
    "reserve 64 = yes~",
    "grant 1 2 1 60 = yes~",
    "grant 2 1 2 60 = yes~",
    "grant 1 1 10 60 = yes~",
    "grant 2 3 1 59 = yes~",
    "due 60 = 2 3 1 59~",
    "due 60 = 2 1 2 60~",
    "due 60 = 1 1 10 60~",
    "due 60 = 1 2 1 60~",
    "empty = yes~",
    "\n",
    "renewed and granted again|",
    "reserve 64 = yes~",
    "grant 1 1 1 60 = yes~",
    "grant 2 1 2 100 = yes~",
    "renew 1 1 119 = yes~",
    "renew 1 3 119 = no~",
    "find 1 1 = 1 1 1 119~",
    "due 118 = 2 1 2 100~",
    "end 1 1 = yes~",
    "end 1 1 = no~",
    "grant 2 1 1 179 = yes~",
    "find 1 1 = 2 1 1 179~",
    "\n",
    "ends of a host and of a judging are counted|",
    "reserve 64 = yes~",
    "grant 1 1 1 60 = yes~",
    "grant 2 1 2 60 = yes~",
    "grant 1 2 1 60 = yes~",
    "grant 2 3 1 60 = yes~",
    "spare = 60~",
    "len = 4~",
    "held 1 = 2~",
    "held 3 = 0~",
    "end-host 1 = 2~",
    "end-host 1 = 0~",
    "find 2 1 = none~",
    "end-judging 1 = 1~",
    "end-judging 1 = 0~",
    "due 60 = 2 3 1 60~",
    "spare = 64~",
    "\n",
    "renewed are those of the host on the judging|",
    "reserve 64 = yes~",
    "grant 1 2 1 60 = yes~",
    "grant 2 2 2 60 = yes~",
    "grant 1 2 65535 60 = yes~",
    "grant 1 1 1 60 = yes~",
    "grant 1 3 1 60 = yes~",
    "grant 1 2 9 60 = yes~",
    "renew-of 1 2 119~",
    "renew-of 3 2 200~",
    "due 118 = 1 1 1 60~",
    "due 118 = 2 2 2 60~",
    "due 118 = 1 3 1 60~",
    "due 119 = 1 2 1 119~",
    "due 119 = 1 2 9 119~",
    "due 119 = 1 2 65535 119~",
    "\n",
    "ended are those behind the test|",
    "reserve 64 = yes~",
    "grant 1 2 3 60 = yes~",
    "grant 2 2 65535 60 = yes~",
    "grant 1 2 4 60 = yes~",
    "grant 1 3 9 60 = yes~",
    "grant 1 1 9 60 = yes~",
    "end-behind 2 65535 = 0~",
    "end-behind 2 3 = 2~",
    "end-behind 2 3 = 0~",
    "due 60 = 1 1 9 60~",
    "due 60 = 1 2 3 60~",
    "due 60 = 1 3 9 60~",
    "empty = yes~",
    "\n",
    "reserve makes room|",
    "spare = 0~",
    "reserve 64 = yes~",
    "room 64 = yes~",
    "len = 0~",
    "\n",
    "as many leases as 1,000 hosts can hold, with one end, granted from the last task to the first|",
    "reserve 64000 = yes~",
    "grant-all = yes~",
    "len = 64000~",
    "held 1 = 64~",
    "held 1000 = 64~",
    "renew-first = yes~",
    "due 59 = none~",
    "end-hosts = yes~",
    "end-judging 64 = 1000~",
    "due-in-order = yes~",
    "len = 36400~",
    "spare = 27600~",
    "\n",
);

/// The task behind the first word.
fn task_of(words: &str) -> Task {
    Task {
        judging: number(words, 1),
        test: rank(words, 2),
    }
}

/// The lease behind the first word.
fn lease_of(words: &str) -> Lease {
    Lease {
        host: number(words, 1),
        task: Task {
            judging: number(words, 2),
            test: rank(words, 3),
        },
        until: moment(words, 4),
    }
}

/// Whether this lease is answered.
fn is_lease(lease: Option<Lease>, wanted: &str) -> bool {
    match lease {
        Some(lease) => {
            lease.host == number(wanted, 0)
                && lease.task == task_of(wanted)
                && lease.until == moment(wanted, 3)
        }
        None => wanted == "none",
    }
}

/// Grants the lease where there is room for it and none is held on its task.
fn grant(book: &mut LeaseBook, lease: Lease) -> bool {
    if book.spare() == 0 || book.len() > 100_000 {
        return false;
    }
    if let Some(_) = book.find(lease.task) {
        return false;
    }
    book.grant(lease.host, lease.task, lease.until);
    true
}

/// The lease with that number, from 0: 64 for each host, 1,000 for each judging.
fn numbered(number: u32, until: u64) -> Lease {
    let task = Task {
        judging: number / 1_000 + 1,
        test: (number % 1_000) as u16 + 1,
    };
    Lease {
        host: number / 64 + 1,
        task,
        until,
    }
}

/// Whether it is the lease with that number.
fn is_numbered(lease: Option<Lease>, number: u32) -> bool {
    let wanted = numbered(number, 60);
    match lease {
        Some(lease) => {
            lease.host == wanted.host && lease.task == wanted.task && lease.until == wanted.until
        }
        None => false,
    }
}

/// Grants 64,000 leases, from the last task to the first.
fn grant_all(book: &mut LeaseBook) -> bool {
    for number in 0..64_000 {
        if !grant(book, numbered(63_999 - number, 60)) {
            return false;
        }
    }
    true
}

/// Renews the first 6,400 of them.
fn renew_first(book: &mut LeaseBook) -> bool {
    for number in 0..6_400 {
        let lease = numbered(number, 120);
        if !book.renew(lease.task, lease.until) {
            return false;
        }
    }
    true
}

/// Ends the leases of 400 hosts.
fn end_hosts(book: &mut LeaseBook) -> bool {
    for host in 101..501 {
        if book.end_host(host) != 64 {
            return false;
        }
    }
    true
}

/// Whether 1,000 of the leases end in their order.
fn are_due_in_order(book: &mut LeaseBook) -> bool {
    for number in 32_000..33_000 {
        if !is_numbered(book.due(60), number) {
            return false;
        }
    }
    true
}

/// Whether the book answers the step as it should.
fn is_answered(book: &mut LeaseBook, step: &str) -> bool {
    let (asked, wanted) = parts_of(step, " = ");
    let first = number(asked, 1);
    match word(asked, 0) {
        "reserve" => is_said(book.reserve(first).is_ok(), wanted),
        "grant" => is_said(grant(book, lease_of(asked)), wanted),
        "renew" => is_said(book.renew(task_of(asked), moment(asked, 3)), wanted),
        "renew-of" => {
            book.renew_of(first, number(asked, 2), moment(asked, 3));
            true
        }
        _ => is_ended(book, asked, wanted),
    }
}

/// Whether the book answers a step that ends leases as it should.
fn is_ended(book: &mut LeaseBook, asked: &str, wanted: &str) -> bool {
    let first = number(asked, 1);
    match word(asked, 0) {
        "due" => is_lease(book.due(moment(asked, 1)), wanted),
        "end" => is_said(book.end(task_of(asked)), wanted),
        "end-host" => book.end_host(first) == number(wanted, 0),
        "end-judging" => book.end_judging(first) == number(wanted, 0),
        "end-behind" => book.end_behind(first, rank(asked, 2)) == number(wanted, 0),
        _ => is_done(book, asked, wanted),
    }
}

/// Whether the book answers a step that is of many leases as it should.
fn is_done(book: &mut LeaseBook, asked: &str, wanted: &str) -> bool {
    match asked {
        "grant-all" => is_said(grant_all(book), wanted),
        "renew-first" => is_said(renew_first(book), wanted),
        "end-hosts" => is_said(end_hosts(book), wanted),
        "due-in-order" => is_said(are_due_in_order(book), wanted),
        _ => is_told(book, asked, wanted),
    }
}

/// Whether the book answers a step that only looks as it should.
fn is_told(book: &LeaseBook, asked: &str, wanted: &str) -> bool {
    match word(asked, 0) {
        "find" => is_lease(book.find(task_of(asked)), wanted),
        "held" => book.held(number(asked, 1)) == number(wanted, 0),
        "len" => book.len() == number(wanted, 0),
        "empty" => is_said(book.is_empty(), wanted),
        "spare" => book.spare() == number(wanted, 0) as usize,
        "room" => is_said(book.spare() >= number(asked, 1) as usize, wanted),
        _ => false,
    }
}

/// Has a book take the steps: the first that it does not answer as it should, or nothing.
fn play<'a>(book: &mut LeaseBook, steps: &'a str) -> &'a str {
    for step in steps.split('~') {
        if !step.is_empty() && !is_answered(book, step) {
            return step;
        }
    }
    ""
}

/// Has a new book take the steps: the first that it does not answer as it should, or nothing.
fn wrong_step(alloc: Global, steps: &str) -> &str {
    let mut book = LeaseBook::new(alloc);
    let wrong = play(&mut book, steps);
    drop(book);
    wrong
}

#[test]
fn books_answer_as_they_should(rt: HostRuntime) -> Result<(), Fail> {
    for row in ROWS.lines() {
        let (shown, steps) = parts_of(row, "|");
        check_row(&rt, shown, wrong_step(rt.alloc(), steps));
    }
    Ok(())
}
