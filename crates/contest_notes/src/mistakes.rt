//! What is wrong with a line of `submissions.txt`.
ghost use Rattle.std.specs.Prelude.{◌≡◌, ◌∷◌, []};
ghost use Rattle.std.specs.Fmt.{decimal};
ghost use Rattle.std.specs.Str.{bytes_eq};
ghost use Rattle.farm_kinds.specs.Names.{is_name};
ghost use Rattle.problem_settings.specs.Lines.{parts};
ghost use Rattle.contest_notes.specs.Mistakes.{begins_with, ends_in, has_mark, has_tab, has_two_spaces, mistake_in, mistake_of_words};

use crate::lines::word_of;
use contest_folder::cut;
use farm_kinds::Name;
use itoa::Buffer;
use std::alloc::{AllocError, Global};
use std::str;

/// The first mistake of a line that is not `NUMBER TEAM PROBLEM FILE`, as one who mends it wants to know it.
#[derive(Clone, Copy, Debug, PartialEq, Eq)]
pub(crate) enum Mistake {
    /// It begins with the byte order mark of UTF-8.
    Mark,
    /// It ends in a carriage return.
    Return,
    /// A tab stands in it.
    Tab,
    /// It begins with a space.
    SpaceInFront,
    /// It ends in a space.
    SpaceAtEnd,
    /// Two spaces stand together.
    TwoSpaces,
    /// It has not four words.
    Words,
    /// The first word is not the number of the submission.
    Number,
    /// The second word is no name.
    Team,
    /// The third word is no name.
    Problem,
    /// The fourth word is no name of a file.
    File,
}

/// The mistake of a line that is not the one of the submission of this number.
pub(crate) fn mistake_in(number: u32, text: &[u8]) -> Mistake
    ensures { result ≡ mistake_in number text.now }
{
    if has_mark(text) {
        return Mistake::Mark;
    }
    if ends_in(b'\r', text) {
        return Mistake::Return;
    }
    if has_tab(text) {
        return Mistake::Tab;
    }
    if begins_with_space(text) {
        return Mistake::SpaceInFront;
    }
    if ends_in(b' ', text) {
        return Mistake::SpaceAtEnd;
    }
    if has_two_spaces(text) {
        return Mistake::TwoSpaces;
    }
    mistake_of_words(number, text)
}

/// Whether the byte order mark of UTF-8 stands in front.
fn has_mark(text: &[u8]) -> bool
    ensures { result ≡ has_mark text.now }
{
    text.starts_with(b"\xef\xbb\xbf")
}

/// Whether the byte is the last one.
fn ends_in(byte: u8, text: &[u8]) -> bool
    ensures { result ≡ ends_in byte text.now }
{
    text.ends_with(&[byte])
}

fn has_tab(text: &[u8]) -> bool
    ensures { result ≡ has_tab text.now }
{
    text.iter().any(|b| *b == b'\t')
}

fn begins_with_space(text: &[u8]) -> bool
    ensures { result ≡ begins_with 32 text.now }
{
    match text {
        [first, ..] => *first == b' ',
        [] => false,
    }
}

/// Whether two spaces stand together.
fn has_two_spaces(text: &[u8]) -> bool
    ensures { result ≡ has_two_spaces text.now }
{
    let mut before = false;
    for b in text {
        if *b != b' ' {
            before = false;
        } else if before {
            return true;
        } else {
            before = true;
        }
    }
    false
}

/// What is wrong with the words of a line.
fn mistake_of_words(number: u32, text: &[u8]) -> Mistake
    ensures { result ≡ mistake_of_words number (parts 32 text.now) }
{
    let (first, left) = cut(b' ', text);
    let Some(left) = left else {
        return Mistake::Words;
    };
    let (team, left) = cut(b' ', left);
    let Some(left) = left else {
        return Mistake::Words;
    };
    let (problem, left) = cut(b' ', left);
    let Some(left) = left else {
        return Mistake::Words;
    };
    let (file, left) = cut(b' ', left);
    if left.is_some() {
        return Mistake::Words;
    }
    mistake_of_four(number, first, team, problem, file)
}

/// What is wrong with four words.
fn mistake_of_four(number: u32, first: &[u8], team: &[u8], problem: &[u8], file: &[u8]) -> Mistake
    ensures { result ≡ mistake_of_words number (first.now ∷ team.now ∷ problem.now ∷ file.now ∷ []) }
{
    if !is_number(first, number) {
        return Mistake::Number;
    }
    if !is_name(team) {
        return Mistake::Team;
    }
    if !is_name(problem) {
        return Mistake::Problem;
    }
    Mistake::File
}

/// Whether the word is the number.
fn is_number(word: &[u8], number: u32) -> bool
    ensures { result ≡ bytes_eq word.now (decimal number) }
{
    let mut buffer = Buffer::new();
    word == buffer.format(number).as_bytes()
}

/// Whether the word is a name.
fn is_name(word: &[u8]) -> bool
    ensures { result ≡ is_name word.now }
{
    Name::read(word).is_some()
}

/// What a person is told of the mistake of a line, which is to be the submission of this number.
pub(crate) fn mistake_text(
    alloc: Global,
    mistake: Mistake,
    number: u32,
    text: &[u8],
) -> Result<String, AllocError> {
    match mistake {
        Mistake::Mark => String::from_str(alloc, "begins with a byte order mark"),
        Mistake::Return => String::from_str(alloc, "ends in a carriage return (CRLF line ends)"),
        Mistake::Tab => String::from_str(alloc, "has a tab, where single spaces are wanted"),
        Mistake::SpaceInFront => String::from_str(alloc, "begins with a space"),
        Mistake::SpaceAtEnd => String::from_str(alloc, "ends in a space"),
        Mistake::TwoSpaces => String::from_str(alloc, "has two spaces between words"),
        Mistake::Words => {
            let count = text.split(|b| *b == b' ').count();
            format!(in alloc; "has {count} words, where NUMBER TEAM PROBLEM FILE are wanted")
        }
        Mistake::Number => number_text(alloc, number, word_of(text, 0)),
        Mistake::Team => name_text(alloc, "the team", word_of(text, 1)),
        Mistake::Problem => name_text(alloc, "the problem", word_of(text, 2)),
        Mistake::File => file_text(alloc, word_of(text, 3)),
    }
}

fn number_text(alloc: Global, number: u32, word: &[u8]) -> Result<String, AllocError> {
    let word = shown(word);
    format!(in alloc; "the number is {word}, but the next one is {number}")
}

/// What is wrong with a name of a team or a problem.
fn name_text(alloc: Global, what: &str, word: &[u8]) -> Result<String, AllocError> {
    let word = shown(word);
    if word.len() > 32 {
        return format!(in alloc; "{what} {word} has more than 32 characters");
    }
    match first_other(word, "_-") {
        Some(c) => format!(in alloc; "{what} {word} has the character {c:?}"),
        None => format!(in alloc; "{what} {word} is no name"),
    }
}

/// What is wrong with the name of a file.
fn file_text(alloc: Global, word: &[u8]) -> Result<String, AllocError> {
    let word = shown(word);
    if word.starts_with('.') {
        return format!(in alloc; "the file {word} begins with a point");
    }
    if word.len() > 64 {
        return format!(in alloc; "the file {word} has more than 64 characters");
    }
    match first_other(word, "_-.") {
        Some(c) => format!(in alloc; "the file {word} has the character {c:?}"),
        None => format!(in alloc; "{word} is no name of a file"),
    }
}

/// The first character that is no letter, no digit and none of these.
fn first_other(word: &str, others: &str) -> Option<char> {
    for c in word.chars() {
        if !c.is_ascii_alphanumeric() && !others.contains(c) {
            return Some(c);
        }
    }
    None
}

/// A word as text.
pub(crate) fn shown(word: &[u8]) -> &str {
    str::from_utf8(word).unwrap_or("(which is no UTF-8)")
}
