//! Rows of texts that tests are written with.

use farm_kinds::{Answer, Kind, Rule, Verdict};
use std::process::Abort;

/// Ends a test where something is wrong of what it shows.
pub(crate) fn check_row(rt: &impl Abort, shown: &str, wrong: &str) {
    assert!(rt; wrong.is_empty(), "{shown}: {wrong}");
}

/// The parts of a row, or of a step: before the first of these marks and behind it.
pub(crate) fn parts_of<'a>(row: &'a str, mark: &str) -> (&'a str, &'a str) {
    row.split_once(mark).unwrap_or((row, ""))
}

/// The word at that place, from 0. Empty where there is none.
pub(crate) fn word(words: &str, at: usize) -> &str {
    words.split(' ').nth(at).unwrap_or("")
}

/// The number at that place. The greatest where there is none.
pub(crate) fn number(words: &str, at: usize) -> u32 {
    word(words, at).parse::<u32>().unwrap_or(u32::MAX)
}

/// The rank of a test, or the number of tests, at that place.
pub(crate) fn rank(words: &str, at: usize) -> u16 {
    word(words, at).parse::<u16>().unwrap_or(u16::MAX)
}

/// The moment at that place.
pub(crate) fn moment(words: &str, at: usize) -> u64 {
    word(words, at).parse::<u64>().unwrap_or(u64::MAX)
}

/// Whether it is so that this is said.
pub(crate) fn is_said(said: bool, wanted: &str) -> bool {
    wanted == if said { "yes" } else { "no" }
}

/// Whether this is what is reported of a judging.
pub(crate) fn is_reported(answer: Answer, wanted: &str) -> bool {
    let (what, kind) = match answer {
        Answer::Pending => ("pending", ""),
        Answer::Final(Verdict::CompilerError) => ("final", "compiler-error"),
        Answer::Final(Verdict::Tests(kind)) => ("final", kind.name()),
    };
    are_words(wanted, what, kind)
}

/// Whether these are the first two words. A word that is missing is empty.
pub(crate) fn are_words(words: &str, first: &str, second: &str) -> bool {
    word(words, 0) == first && word(words, 1) == second
}

/// The rule of this name.
pub(crate) fn rule_of(name: &str) -> Option<Rule> {
    match name {
        "standard" => Some(Rule::standard()),
        "one-greatest" => Rule::new([1, 30, 100, 99, 10, 99, 99, 99], Kind::ALL).ok(),
        "one-kind" => Rule::new([1, 30, 99, 99, 10, 99, 99, 99], [Kind::RunError; 8]).ok(),
        "equal" => Rule::new([7; 8], Kind::ALL).ok(),
        _ => None,
    }
}
