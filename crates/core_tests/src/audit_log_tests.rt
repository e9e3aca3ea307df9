use crate::rows::{check_row, number, parts_of, word};
use audit_log::{Audit, Entry, check};
use farm_kinds::{Name, Text};
use std::alloc::{AllocError, Global};
use std::test::Fail;

/// The SHA-256 of the empty text.
const EMPTY: &str = "e3b0c44298fc1c149afbf4c8996fb92427ae41e4649b934ca495991b7852b855";

/// Entries, a row each: who acted, the words, the entry's text, and its digest as `sha256sum` computes it from the digest
/// before and the text.
const CASES: &str = concat!(
    "jury|problem A 1|jury problem A 1|3e52ab297b4c3536c40d23a0058825ecd07923db2f1024a04330ac85bb4925dd\n",
    "ann|verify 1|ann verify 1|47aa9ae7d892b24ea54a73319637fe8ca5786a7313b6ca92757be9d2a8012b3a\n",
    "jury|rejudge 1,2|jury rejudge 1,2|4e66867c0e64e47e2f7ce0312975f150c97e5a123d20e54182b7b5e6518778de\n",
    "jury||jury |e2ed87b2eccba369ede5704a6a02e4ac42a49073fde404383d72dfb6c11b80e7\n",
);

/// A part of a case, from 0.
fn part(case: &str, at: usize) -> &str {
    case.split('|').nth(at).unwrap_or("")
}

/// A digest as text.
fn hex(digest: &[u8; 32]) -> [u8; 64] {
    let digits = *b"0123456789abcdef";
    let mut text = [0; 64];
    for (at, byte) in digest.iter().enumerate() {
        text[2 * at] = digits[(byte / 16) as usize];
        text[2 * at + 1] = digits[(byte % 16) as usize];
    }
    text
}

fn is_digest(digest: &[u8; 32], want: &str) -> bool {
    hex(digest).as_slice() == want.as_bytes()
}

/// Whether the entry is that of the case.
fn is_entry(entry: &Entry, case: &str) -> bool {
    entry.text.as_slice() == part(case, 2).as_bytes() && is_digest(&entry.digest, part(case, 3))
}

/// Whether these are the entries of the cases.
fn are_entries(entries: &[Entry]) -> bool {
    let mut cases = CASES.lines();
    for entry in entries {
        let Some(case) = cases.next() else {
            return false;
        };
        if !is_entry(entry, case) {
            return false;
        }
    }
    cases.next().is_none()
}

/// Adds the entry of the case. False where the case names no one, or no memory is left.
fn add(audit: &mut Audit, case: &str) -> bool {
    match Name::read(part(case, 0).as_bytes()) {
        Some(who) => audit.add(&who, part(case, 1).as_bytes()).is_ok(),
        None => false,
    }
}

/// Whether the head of a new log, and then of one that takes the entries of the cases, is their digest: the first case
/// whose is not, or nothing.
fn chain(audit: &mut Audit) -> &'static str {
    if !is_digest(&audit.head(), EMPTY) {
        return "empty";
    }
    for case in CASES.lines() {
        if !add(audit, case) || !is_digest(&audit.head(), part(case, 3)) {
            return case;
        }
    }
    if audit.len() != 4 || !are_entries(audit.entries()) {
        return "entries";
    }
    ""
}

/// Whether room is made for the entry of the case, and is taken by it.
fn reserves_one(audit: &mut Audit, case: &str) -> bool {
    let wanted = part(case, 2).len();
    let Ok(len) = u32::try_from(wanted) else {
        return false;
    };
    audit.reserve(len).is_ok()
        && audit.reserved() >= wanted
        && audit.reserve(1).is_ok()
        && audit.reserved() >= wanted
        && add(audit, case)
        && audit.reserved() == 0
        && is_digest(&audit.head(), part(case, 3))
}

/// Has a new log make room for each case's entry and take it: the first case for which it does not, or nothing.
fn reserve(audit: &mut Audit) -> &'static str {
    if audit.reserved() != 0 {
        return "empty";
    }
    for case in CASES.lines() {
        if !reserves_one(audit, case) {
            return case;
        }
    }
    ""
}

/// Whether a new log takes 70,000 entries of the first case: what is wrong, or nothing.
fn fill(audit: &mut Audit) -> &'static str {
    let case = CASES.lines().next().unwrap_or("");
    for _ in 0..70_000 {
        if !add(audit, case) {
            return case;
        }
    }
    if audit.len() != 70_000 || check(audit.entries()) != Ok(()) {
        return "entries";
    }
    ""
}

/// What is wrong of a new log, or nothing.
fn wrong_of(alloc: Global, shown: &str) -> &'static str {
    let mut audit = Audit::new(alloc);
    let wrong = match shown {
        "digests are chained" => chain(&mut audit),
        "reserve makes room for one entry" => reserve(&mut audit),
        _ => fill(&mut audit),
    };
    drop(audit);
    wrong
}

#[test]
fn logs_take_entries(rt: HostRuntime) -> Result<(), Fail> {
    for shown in [
        "digests are chained",
        "reserve makes room for one entry",
        "a log takes 70,000 entries",
    ] {
        check_row(&rt, shown, wrong_of(rt.alloc(), shown));
    }
    Ok(())
}

/// What is changed in the entries of the cases: at a place, from 0, another text stands there, or one bit of the digest is
/// turned, or an entry is missing. How many entries there are then, and where the first stands that is found to be
/// changed.
const CHANGES: &str = concat!(
    " => 4 none\n",
    "digest=0 => 4 0\n",
    "digest=3 => 4 3\n",
    "text=0 => 4 0\n",
    "text=2 => 4 2\n",
    "text=2 digest=1 => 4 1\n",
    "text=1 digest=2 => 4 1\n",
    "last-missing => 3 none\n",
    "last-missing first-missing => 2 0\n",
    "all-missing => 0 none\n",
);

/// A copy of an entry.
fn copy_of(alloc: Global, entry: &Entry) -> Result<Entry, AllocError> {
    let text = Vec::from_slice(alloc, entry.text.as_slice())?;
    Ok(Entry {
        text: Text::from_vec(text),
        digest: entry.digest,
    })
}

/// Adds copies of the entries.
fn push_copies(
    alloc: Global,
    copies: &mut Vec<Entry>,
    entries: &[Entry],
) -> Result<(), AllocError> {
    for entry in entries {
        copies.push(copy_of(alloc, entry)?)?;
    }
    Ok(())
}

/// Puts another text in an entry.
fn change_text(entry: Option<&mut Entry>) -> bool {
    match entry {
        Some(entry) => entry.text.push(b'2').is_ok(),
        None => false,
    }
}

/// Turns one bit of an entry's digest.
fn change_digest(entry: Option<&mut Entry>) -> bool {
    match entry {
        Some(entry) => {
            entry.digest[31] ^= 1;
            true
        }
        None => false,
    }
}

/// Makes a change, where there is an entry to change.
fn change(entries: &mut Vec<Entry>, change: &str) -> bool {
    let (what, at) = parts_of(change, "=");
    let at = number(at, 0) as usize;
    match what {
        "text" => change_text(entries.get_mut(at)),
        "digest" => change_digest(entries.get_mut(at)),
        "all-missing" => {
            entries.truncate(0);
            true
        }
        "last-missing" => entries.pop().is_some(),
        "first-missing" => {
            entries.reverse();
            let taken = entries.pop().is_some();
            entries.reverse();
            taken
        }
        _ => what.is_empty(),
    }
}

/// Whether the check of the entries finds what it should.
fn is_found(entries: &[Entry], wanted: &str) -> bool {
    let found = match check(entries) {
        Ok(()) => word(wanted, 1) == "none",
        Err(at) => at == number(wanted, 1) as usize,
    };
    found && entries.len() == number(wanted, 0) as usize
}

/// Whether the check of copies of a log's entries with these changes finds what it should.
fn finds(alloc: Global, copies: &mut Vec<Entry>, entries: &[Entry], row: &str) -> bool {
    let (changes, wanted) = parts_of(row, " => ");
    if push_copies(alloc, copies, entries).is_err() {
        return false;
    }
    for word in changes.split(' ') {
        if !change(copies, word) {
            return false;
        }
    }
    is_found(copies.as_slice(), wanted)
}

/// The first row for which it is not so, or nothing.
fn wrong_row(alloc: Global, audit: &mut Audit) -> &'static str {
    let wrong = chain(audit);
    if !wrong.is_empty() {
        return wrong;
    }
    for row in CHANGES.lines() {
        let mut copies = Vec::new(alloc);
        let found = finds(alloc, &mut copies, audit.entries(), row);
        drop(copies);
        if !found {
            return row;
        }
    }
    ""
}

#[test]
fn check_finds_the_first_change(rt: HostRuntime) -> Result<(), Fail> {
    let mut audit = Audit::new(rt.alloc());
    let wrong = wrong_row(rt.alloc(), &mut audit);
    drop(audit);
    check_row(&rt, "changes", wrong);
    Ok(())
}
