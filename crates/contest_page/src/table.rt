ghost use Rattle.std.specs.Prelude.{◌≡◌, ◌++◌, IfOk, option_map, string_bytes};
ghost use Rattle.std.specs.List.{slice_get};
ghost use Rattle.farm_model.specs.Texts.{answer_text, verdict_text};
ghost use Rattle.contest_page.specs.Page.{escaped, row_with, row_of, row_at, rows_from};

use crate::view::SubmissionRow;
use farm_kinds::{Answer, Name, Verdict};
use std::alloc::{AllocError, Global};
use wire_json::name_text;

/// The word of a verdict.
fn verdict_text(verdict: Verdict) -> &'static str
    ensures { result.now ≡ verdict_text verdict }
{
    match verdict {
        Verdict::Tests(kind) => kind.name(),
        Verdict::CompilerError => "compiler-error",
    }
}

/// The word of the verdict, or that it is pending.
fn answer_text(answer: Answer) -> &'static str
    ensures { result.now ≡ answer_text answer }
{
    match answer {
        Answer::Final(verdict) => verdict_text(verdict),
        Answer::Pending => "pending",
    }
}

/// A name as it stands in a page: none of its bytes is one that has to be escaped.
#[tactic(auto, using(crate::proofs::Names::plain_name))]
fn shown_name(name: &Name) -> &str
    ensures { result.now ≡ escaped name.now }
{
    // For the proof alone: that they are the bytes of a name is known behind it.
    let _bytes = name.as_bytes();
    name_text(name)
}

/// A row of these texts.
fn row_with(
    alloc: Global,
    number: usize,
    team: &str,
    problem: &str,
    word: &str,
) -> Result<String, AllocError>
    ensures { IfOk result (λ text. string_bytes text ≡ row_with number team.now problem.now word.now) }
{
    format!(in alloc;
        "<tr><th scope=\"row\">{number}</th><td>{team}</td><td>{problem}</td><td class=\"{word}\">{word}</td></tr>\n"
    )
}

/// The row of the submission of this number.
fn row_of(
    alloc: Global,
    number: usize,
    entry: &SubmissionRow,
    answer: Answer,
) -> Result<String, AllocError>
    ensures { IfOk result (λ text. string_bytes text ≡ row_of number entry.now answer) }
{
    row_with(
        alloc,
        number,
        shown_name(&entry.team),
        shown_name(&entry.problem),
        answer_text(answer),
    )
}

/// Appends the row of the submission of this number, if it is known whose that is.
fn push_row(
    alloc: Global,
    page: &mut Vec<u8>,
    number: usize,
    entry: Option<&SubmissionRow>,
    answer: Answer,
) -> Result<(), AllocError>
    ensures { IfOk result (λ _. page.new.items ≡ page.old.items ++ row_at number (option_map (λ e. e.now) entry.entry) answer) }
{
    match entry {
        None => Ok(()),
        Some(entry) => {
            let row = row_of(alloc, number, entry, answer)?;
            page.extend_from_slice(row.as_bytes())
        }
    }
}

/// The submission behind `before` others.
fn entry_at(entries: &[SubmissionRow], before: usize) -> Option<&SubmissionRow>
    ensures { option_map (λ e. e.now) result ≡ slice_get entries.now before }
{
    entries.get(before)
}

/// Appends the rows of these submissions and their answers.
pub(crate) fn push_rows(
    alloc: Global,
    page: &mut Vec<u8>,
    entries: &[SubmissionRow],
    answers: &[Answer],
) -> Result<(), AllocError>
    ensures { IfOk result (λ _. page.new.items ≡ page.old.items ++ rows_from 0 entries.now answers.now) }
{
    for (i, answer) in answers.iter().enumerate() {
        push_row(alloc, page, i + 1, entry_at(entries, i), *answer)?;
    }
    Ok(())
}
