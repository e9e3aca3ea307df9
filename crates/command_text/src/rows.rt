ghost use Rattle.std.specs.Prelude.{◌≡◌, ◌++◌, ◌∷◌, [], ℕ, List, length, take, OnOk, OnErr};
ghost use Rattle.std.specs.Fmt.{decimal};
ghost use Rattle.std.specs.List.{flat_map, join_with_byte};
ghost use Rattle.farm_model.specs.Texts.{verdict_text, answer_text, board_lines, matrix_line, rows_text, line_of};

use crate::texts::{push, push_line};
use farm_kinds::{Answer, MatrixRow, NoMemory, Reply, Verdict};
use itoa::Buffer;

/// The name of a verdict.
pub fn verdict_text(verdict: Verdict) -> &'static str
    ensures { result.now ≡ verdict_text verdict }
{
    match verdict {
        Verdict::Tests(kind) => kind.name(),
        Verdict::CompilerError => "compiler-error",
    }
}

/// The name of the verdict, or that it is pending.
fn answer_text(answer: Answer) -> &'static str
    ensures { result.now ≡ answer_text answer }
{
    match answer {
        Answer::Final(verdict) => verdict_text(verdict),
        Answer::Pending => "pending",
    }
}

/// Puts a row of a board: the number of a submission, and its answer.
/// At `NoMemory` a part of it may be there.
fn push_board_row(out: &mut Vec<u8>, number: usize, answer: Answer) -> Result<(), NoMemory>
    ensures ok { OnOk result (out.new.items ≡ out.old.items
        ++ line_of (decimal number ∷ answer_text answer ∷ [])) }
    ensures err { OnErr result (take (length out.old.items) out.new.items ≡ out.old.items) }
{
    let mut digits = Buffer::new();
    push_line(
        out,
        &[
            digits.format(number).as_bytes(),
            answer_text(answer).as_bytes(),
        ],
    )
}

/// Puts a row for each answer, numbered from 1 on. At `NoMemory` a part of them may be there.
#[tactic(auto, using(crate::proofs::Joining::kept_behind))]
fn push_board(out: &mut Vec<u8>, answers: &[Answer]) -> Result<(), NoMemory>
    ensures ok { OnOk result (out.new.items ≡ out.old.items ++ board_lines 1 answers.now) }
    ensures err { OnErr result (take (length out.old.items) out.new.items ≡ out.old.items) }
{
    for (i, answer) in answers.iter().enumerate() {
        push_board_row(out, i + 1, *answer)?;
    }
    Ok(())
}

/// Puts a row of a matrix: the old answer, the new one, and how many members have the pair.
/// At `NoMemory` a part of it may be there.
fn push_matrix_row(out: &mut Vec<u8>, row: &MatrixRow) -> Result<(), NoMemory>
    ensures ok { OnOk result (out.new.items ≡ out.old.items ++ matrix_line row.now) }
    ensures err { OnErr result (take (length out.old.items) out.new.items ≡ out.old.items) }
{
    let mut count = Buffer::new();
    push_line(
        out,
        &[
            answer_text(row.old).as_bytes(),
            answer_text(row.new).as_bytes(),
            count.format(row.count).as_bytes(),
        ],
    )
}

/// Puts the rows of a matrix. At `NoMemory` a part of them may be there.
#[tactic(auto, using(crate::proofs::RowLemmas::matrix_more, crate::proofs::Joining::kept_behind))]
fn push_matrix(out: &mut Vec<u8>, rows: &[MatrixRow]) -> Result<(), NoMemory>
    ensures ok { OnOk result (out.new.items ≡ out.old.items ++ flat_map matrix_line rows.now) }
    ensures err { OnErr result (take (length out.old.items) out.new.items ≡ out.old.items) }
{
    for row in rows {
        push_matrix_row(out, row)?;
    }
    Ok(())
}

/// Puts the lines of a reply before its last one. At `NoMemory` a part of them may be there.
pub fn push_rows(out: &mut Vec<u8>, reply: &Reply) -> Result<(), NoMemory>
    ensures ok { OnOk result (out.new.items ≡ out.old.items ++ rows_text reply.now) }
    ensures err { OnErr result (take (length out.old.items) out.new.items ≡ out.old.items) }
{
    match reply {
        Reply::Board { rows } => push_board(out, rows.as_slice()),
        Reply::Matrix { rows, .. } => push_matrix(out, rows.as_slice()),
        _ => Ok(()),
    }
}
