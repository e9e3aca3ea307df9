ghost use Rattle.std.specs.Prelude.{◌≡◌, map, IfOk};
ghost use Rattle.serde_json.specs.View.{view};
ghost use Rattle.wire_json.specs.Objects.{whole};
ghost use Rattle.wire_json.specs.Replies.{board_row, board_rows, matrix_row};

use crate::answers::answer_text;
use farm_kinds::{Answer, MatrixRow};
use serde_json::{Value, json};
use std::alloc::{AllocError, Global};

/// A row of a board: the number of a submission, and what the public sees of it.
fn board_row(alloc: Global, number: usize, answer: Answer) -> Result<Value, AllocError>
    ensures { IfOk result (λ v. view v ≡ board_row number answer) }
{
    let verdict = answer_text(answer);
    json!(in alloc; {"submission": number, "verdict": verdict})
}

/// A row for each answer, numbered from 1 on.
#[tactic(auto, using(crate::proofs::RowLists::board_more))]
pub fn board_rows(alloc: Global, answers: &[Answer]) -> Result<Vec<Value>, AllocError>
    ensures { IfOk result (λ rows. map view rows.items ≡ board_rows 1 answers.now) }
{
    let mut rows = Vec::new(alloc);
    for (i, answer) in answers.iter().enumerate() {
        let row = board_row(alloc, i + 1, *answer)?;
        rows.push(row)?;
    }
    Ok(rows)
}

/// A test, by its rank.
fn rank_value(rank: u16) -> Value
    ensures { view result ≡ whole rank }
{
    Value::from(rank)
}

/// The ranks of tests.
#[tactic(auto, using(crate::proofs::RowLists::ranks_more))]
pub fn rank_values(alloc: Global, ranks: &[u16]) -> Result<Vec<Value>, AllocError>
    ensures { IfOk result (λ values. map view values.items ≡ map whole ranks.now) }
{
    let mut values = Vec::new(alloc);
    for rank in ranks {
        values.push(rank_value(*rank))?;
    }
    Ok(values)
}

/// A row of a matrix: the old answer, the new one, and how many members have the pair.
fn matrix_row(alloc: Global, row: &MatrixRow) -> Result<Value, AllocError>
    ensures { IfOk result (λ v. view v ≡ matrix_row row.now) }
{
    let new = answer_text(row.new);
    let old = answer_text(row.old);
    json!(in alloc; {"count": row.count, "new": new, "old": old})
}

/// The rows of a matrix.
#[tactic(auto, using(crate::proofs::RowLists::matrix_more))]
pub fn matrix_rows(alloc: Global, matrix: &[MatrixRow]) -> Result<Vec<Value>, AllocError>
    ensures { IfOk result (λ rows. map view rows.items ≡ map matrix_row matrix.now) }
{
    let mut rows = Vec::new(alloc);
    for row in matrix {
        let value = matrix_row(alloc, row)?;
        rows.push(value)?;
    }
    Ok(rows)
}
