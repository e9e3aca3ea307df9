ghost use Rattle.std.specs.Prelude.{◌≡◌, ◌≤◌, ◌∷◌, ◌++◌, ℕ, List, [], ◌≢◌, ◌||◌, length, find, option_map, IfOk, IfSome, All, None, true};
ghost use Rattle.std.specs.Fmt.{decimal};
ghost use Rattle.std.specs.List.{list_all};
ghost use Rattle.std.specs.Str.{bytes_eq, IsUtf8};
ghost use Rattle.farm_tree.specs.Reading.{file_limit};
ghost use Rattle.package_folder.specs.Order.{IsRising};
ghost use Rattle.problem_settings.specs.Lines.{parts, parts_behind, size_behind};
ghost use Rattle.contest_folder.specs.declared.lines.Entry.{Entry};
ghost use Rattle.contest_folder.specs.RosterShape.{names_of};
ghost use Rattle.contest_folder.specs.Telling.{Answers, listed};
ghost use Rattle.contest_folder.specs.SubmissionLines.{is_blank, is_comment, is_file_byte, is_file_name, is_hidden, entry_of, entry_of_words, entry_or_fault, entries_of, entries_in, lacks_problem};

use crate::faults::ContestFault;
use crate::roster::{Problem, problem_named};
use farm_kinds::{Name, NoMemory, Text};
use itoa::Buffer;
use package_folder::copy;
use std::alloc::Global;

/// What a line of `submissions.txt` says.
#[derive(Debug, Drop)]
pub(crate) struct Entry {
    /// The line's number, from 1.
    pub line: u32,
    pub team: Name,
    pub problem: Name,
    /// The name of the file in the folder of submissions.
    pub file: Text,
}

/// What the lines of a text say, each of which is one of a submission to one of the problems.
pub(crate) fn read_entries(
    alloc: Global,
    problems: &[Problem],
    text: &[u8],
) -> Result<Vec<Entry>, ContestFault>
    requires rising { IsRising (names_of problems.now) }
    requires short { length text.now ≤ file_limit }
    ensures entries { Answers (listed result) (entries_in problems.now text.now) }
    ensures placed { IfOk result (λ entries. find (lacks_problem problems.now) entries.items ≡ None) }
    ensures files { IfOk result (λ entries. All (λ (entry : Entry). IsUtf8 entry.file) entries.items) }
    ensures not_tree { result ≢ Err ContestFault.Tree }
{
    let entries = entries_of(alloc, text)?;
    match first_lost(problems, entries.as_slice()) {
        Some(line) => Err(ContestFault::NoProblem { line }),
        None => Ok(entries),
    }
}

/// The line of the first entry whose problem is not there.
fn first_lost(problems: &[Problem], entries: &[Entry]) -> Option<u32>
    requires { IsRising (names_of problems.now) }
    ensures { result ≡ option_map (λ (entry : Entry). entry.line) (find (lacks_problem problems.now) entries.now) }
{
    for entry in entries {
        if problem_named(problems, entry.problem.as_bytes()).is_none() {
            return Some(entry.line);
        }
    }
    None
}

/// What the lines of a text say.
fn entries_of(alloc: Global, text: &[u8]) -> Result<Vec<Entry>, ContestFault>
    requires { length text.now ≤ file_limit }
    ensures entries { Answers (listed result) (entries_of text.now) }
    ensures files { IfOk result (λ entries. All (λ (entry : Entry). IsUtf8 entry.file) entries.items) }
    ensures not_tree { result ≢ Err ContestFault.Tree }
{
    let mut entries = Vec::new(alloc);
    let mut line: u32 = 1;
    let mut number: u32 = 1;
    let mut left = Some(text);
    while let Some(text) = left {
        let (first, behind) = cut(b'\n', text);
        if !is_skipped(first) {
            let entry = read_entry(alloc, line, number, first)?;
            entries.push(entry).map_err(|_| ContestFault::NoMemory)?;
            number += 1;
        }
        line += 1;
        left = behind;
    }
    Ok(entries)
}

/// Whether the line is blank or a comment.
fn is_skipped(line: &[u8]) -> bool
    ensures { result ≡ (is_blank line.now || is_comment line.now) }
{
    is_blank(line) || is_comment(line)
}

/// Whether nothing but spaces stands there.
fn is_blank(line: &[u8]) -> bool
    ensures { result ≡ is_blank line.now }
{
    line.iter().all(|b| *b == b' ')
}

/// Whether the line is a comment: `#` stands in front.
pub fn is_comment(line: &[u8]) -> bool
    ensures { result ≡ is_comment line.now }
{
    match line {
        [first, ..] => *first == b'#',
        [] => false,
    }
}

/// What the line says that is to be this submission.
fn read_entry(alloc: Global, line: u32, number: u32, text: &[u8]) -> Result<Entry, ContestFault>
    ensures entry { Answers result (entry_or_fault line (entry_of line number text.now)) }
    ensures file { IfOk result (λ entry. IsUtf8 entry.file) }
    ensures not_tree { result ≢ Err ContestFault.Tree }
{
    match words_of(number, text) {
        Some(words) => Ok(Entry {
            line,
            team: words.team,
            problem: words.problem,
            file: copy(alloc, words.file)?,
        }),
        None => Err(ContestFault::BadLine { line }),
    }
}

/// The words of a line behind its number.
#[derive(Clone, Copy)]
struct Words<'a> {
    team: Name,
    problem: Name,
    file: &'a [u8],
}

/// The words of the line, where it is one of the submission of this number.
fn words_of<'a>(number: u32, text: &'a [u8]) -> Option<Words<'a>>
    ensures words { (line : ℕ) → option_map (λ w. record { line = line; team = w.team; problem = w.problem; file = w.file.now }) result ≡ entry_of line number text.now }
    ensures file { IfSome result (λ w. IsUtf8 w.file.now) }
{
    let (first, left) = cut(b' ', text);
    let (team, left) = cut(b' ', left?);
    let (problem, left) = cut(b' ', left?);
    let (file, left) = cut(b' ', left?);
    if left.is_some() {
        return None;
    }
    words_from(number, first, team, problem, file)
}

/// The words, where they are those of the submission of this number.
fn words_from<'a>(
    number: u32,
    first: &[u8],
    team: &[u8],
    problem: &[u8],
    file: &'a [u8],
) -> Option<Words<'a>>
    ensures words { (line : ℕ) → option_map (λ w. record { line = line; team = w.team; problem = w.problem; file = w.file.now }) result ≡ entry_of_words line number (first.now ∷ team.now ∷ problem.now ∷ file.now ∷ []) }
    ensures file { IfSome result (λ w. IsUtf8 w.file.now) }
{
    if !is_number(first, number) {
        return None;
    }
    let team = Name::read(team)?;
    let problem = Name::read(problem)?;
    if !is_file_name(file) {
        return None;
    }
    Some(Words {
        team,
        problem,
        file,
    })
}

/// Whether the word is the number.
fn is_number(word: &[u8], number: u32) -> bool
    ensures { result ≡ bytes_eq word.now (decimal number) }
{
    let mut buffer = Buffer::new();
    word == buffer.format(number).as_bytes()
}

/// Whether the word is the name of a file of a submission.
#[tactic(auto, using(crate::proofs::FileNames::text_of_name))]
pub fn is_file_name(word: &[u8]) -> bool
    ensures name { result ≡ is_file_name word.now }
    ensures text { result ≡ true → IsUtf8 word.now }
{
    if word.is_empty() || word.len() > 64 {
        return false;
    }
    !is_hidden(word) && has_file_bytes(word)
}

/// Whether `.` stands in front.
fn is_hidden(word: &[u8]) -> bool
    ensures { result ≡ is_hidden word.now }
{
    match word {
        [first, ..] => *first == b'.',
        [] => false,
    }
}

fn has_file_bytes(word: &[u8]) -> bool
    ensures { result ≡ list_all is_file_byte word.now }
{
    word.iter().all(|b| is_file_byte(*b))
}

fn is_file_byte(b: u8) -> bool
    ensures { result ≡ is_file_byte b }
{
    b.is_ascii_alphanumeric() || b == b'_' || b == b'-' || b == b'.'
}

/// The part before the first separator, and what stands behind that, where there is one.
#[tactic(auto, using(problem_settings::proofs::PartLemmas::part_more, problem_settings::proofs::PartLemmas::cut_at, problem_settings::proofs::PartLemmas::uncut))]
pub fn cut(sep: u8, text: &[u8]) -> (&[u8], Option<&[u8]>)
    ensures parts { parts sep text.now ≡ result.0.now ∷ parts_behind sep result.1 }
    ensures shorter { size_behind result.1 ≤ length text.now }
{
    for (i, b) in text.iter().enumerate() {
        if *b == sep {
            return (&text[..i], Some(&text[i + 1..]));
        }
    }
    (text, None)
}
