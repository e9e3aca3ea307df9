ghost use Rattle.std.specs.Prelude.{◌≡◌, ◌++◌, IfOk};
ghost use Rattle.serde_json.specs.Written.{compact_text};
ghost use Rattle.farm_model.specs.Texts.{answer_text};
ghost use Rattle.farm_api.specs.Published.{json_of_rows, before_number, row_text, rows_text};

use farm_kinds::{Answer, Verdict};
use itoa::Buffer;
use std::alloc::{AllocError, Global};

/// Puts five pieces behind what is there.
fn push_pieces(
    out: &mut Vec<u8>,
    first: &[u8],
    second: &[u8],
    third: &[u8],
    fourth: &[u8],
    fifth: &[u8],
) -> Result<(), AllocError>
    ensures { IfOk result (λ _. out.new.items ≡ out.old.items ++ (first.now ++ (second.now ++ (third.now ++ (fourth.now ++ fifth.now))))) }
{
    out.extend_from_slice(first)?;
    out.extend_from_slice(second)?;
    out.extend_from_slice(third)?;
    out.extend_from_slice(fourth)?;
    out.extend_from_slice(fifth)
}

/// The word of the verdict, or that it is pending.
fn answer_text(answer: Answer) -> &'static str
    ensures { result.now ≡ answer_text answer }
{
    match answer {
        Answer::Final(Verdict::Tests(kind)) => kind.name(),
        Answer::Final(Verdict::CompilerError) => "compiler-error",
        Answer::Pending => "pending",
    }
}

/// What stands in a row before the number of the submission.
fn before_number(later: bool) -> &'static [u8]
    ensures { result.now ≡ before_number later }
{
    if later {
        return b",{\"submission\":";
    }
    b"{\"submission\":"
}

/// Puts the row of the submission of this number.
fn push_row(out: &mut Vec<u8>, number: usize, answer: Answer) -> Result<(), AllocError>
    ensures { IfOk result (λ _. out.new.items ≡ out.old.items ++ row_text number answer) }
{
    push_pieces(
        out,
        before_number(number > 1),
        Buffer::new().format(number).as_bytes(),
        b",\"verdict\":\"",
        answer_text(answer).as_bytes(),
        b"\"}",
    )
}

/// Puts the rows of these answers, from submission 1 on.
fn push_rows(out: &mut Vec<u8>, answers: &[Answer]) -> Result<(), AllocError>
    ensures { IfOk result (λ _. out.new.items ≡ out.old.items ++ rows_text 1 answers.now) }
{
    for (i, answer) in answers.iter().enumerate() {
        push_row(out, i + 1, *answer)?;
    }
    Ok(())
}

/// What the public sees as JSON.
#[tactic(auto, using(crate::proofs::RowTexts::rows_done))]
pub(crate) fn rows_json(alloc: Global, answers: &[Answer]) -> Result<Vec<u8>, AllocError>
    ensures { IfOk result (λ text. text.items ≡ compact_text (json_of_rows answers.now)) }
{
    let mut text = Vec::from_slice(alloc, b"{\"reply\":\"public\",\"rows\":[")?;
    push_rows(&mut text, answers)?;
    text.extend_from_slice(b"]}")?;
    Ok(text)
}
