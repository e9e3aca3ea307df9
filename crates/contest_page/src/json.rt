ghost use Rattle.std.specs.Prelude.{◌≡◌, map, IfOk};
ghost use Rattle.serde_json.specs.Data.{string};
ghost use Rattle.serde_json.specs.View.{view};
ghost use Rattle.contest_page.specs.Views.{entry_row, entry_rows, json_of_view, view_text};

use crate::view::SubmissionRow;
use farm_kinds::{Name, NoMemory, Text};
use serde_json::{Value, json};
use std::alloc::{AllocError, Global};
use wire_json::name_text;

/// A name, as a JSON value.
fn name_value(alloc: Global, name: &Name) -> Result<Value, AllocError>
    ensures { IfOk result (λ v. view v ≡ string name.now) }
{
    Ok(Value::String(String::from_str(alloc, name_text(name))?))
}

/// The names, in order.
#[tactic(auto, using(crate::proofs::Rows::names_more))]
fn name_values(alloc: Global, names: &[Name]) -> Result<Vec<Value>, AllocError>
    ensures { IfOk result (λ values. map view values.items ≡ map string names.now) }
{
    let mut values = Vec::new(alloc);
    for name in names {
        let value = name_value(alloc, name)?;
        values.push(value)?;
    }
    Ok(values)
}

/// What is told of the submission of this number.
fn entry_row(alloc: Global, number: usize, entry: &SubmissionRow) -> Result<Value, AllocError>
    ensures { IfOk result (λ v. view v ≡ entry_row number entry.now) }
{
    let problem = name_text(&entry.problem);
    let team = name_text(&entry.team);
    json!(in alloc; {"problem": problem, "submission": number, "team": team})
}

/// What is told of each submission, numbered from 1 on.
#[tactic(auto, using(crate::proofs::Rows::entries_more))]
fn entry_rows(alloc: Global, entries: &[SubmissionRow]) -> Result<Vec<Value>, AllocError>
    ensures { IfOk result (λ rows. map view rows.items ≡ entry_rows 1 entries.now) }
{
    let mut rows = Vec::new(alloc);
    for (i, entry) in entries.iter().enumerate() {
        let row = entry_row(alloc, i + 1, entry)?;
        rows.push(row)?;
    }
    Ok(rows)
}

/// The JSON of these problems and submissions.
fn contest_value(
    alloc: Global,
    problems: &[Name],
    entries: &[SubmissionRow],
) -> Result<Value, AllocError>
    ensures { IfOk result (λ v. view v ≡ json_of_view problems.now entries.now) }
{
    let problems = name_values(alloc, problems)?;
    let submissions = entry_rows(alloc, entries)?;
    json!(in alloc; {"problems": problems, "reply": "contest", "submissions": submissions})
}

/// The JSON of these problems and submissions as text: compact, its keys in the order of their bytes.
#[tactic(auto, using(crate::proofs::Plain::view_is_whole), unfolding(crate::specs::Views::view_text))]
pub(crate) fn contest_json(
    alloc: Global,
    problems: &[Name],
    entries: &[SubmissionRow],
) -> Result<Text, NoMemory>
    ensures { IfOk result (λ text. text ≡ view_text problems.now entries.now) }
{
    let value = contest_value(alloc, problems, entries)?;
    Ok(Text::from_vec(value.to_vec(alloc)?))
}
