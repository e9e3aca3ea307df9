ghost use Rattle.std.specs.Prelude.{◌≡◌, ◌++◌, ◌<◌, ◌^◌, length, IfOk, OnOk};
ghost use Rattle.std.specs.List.{flat_map};
ghost use Rattle.farm_kinds.specs.Rules.{place_of};
ghost use Rattle.farm_model.specs.Matrix.{answer_place, matrix_of};
ghost use Rattle.rejudge_book.specs.Counts.{AreCounts, matrix_rows_of, pair_place};

use farm_kinds::{Answer, Kind, MatrixRow, MatrixRows, NoMemory, Verdict};
use std::alloc::Global;

/// The answers in the order of a matrix: the eight kinds, `compiler-error` and `pending`.
const ANSWERS: [Answer; 10] = [
    Answer::Final(Verdict::Tests(Kind::Correct)),
    Answer::Final(Verdict::Tests(Kind::WrongAnswer)),
    Answer::Final(Verdict::Tests(Kind::RunError)),
    Answer::Final(Verdict::Tests(Kind::TimeLimit)),
    Answer::Final(Verdict::Tests(Kind::NoOutput)),
    Answer::Final(Verdict::Tests(Kind::OutputLimit)),
    Answer::Final(Verdict::Tests(Kind::MemoryLimit)),
    Answer::Final(Verdict::Tests(Kind::JudgingError)),
    Answer::Final(Verdict::CompilerError),
    Answer::Pending,
];

/// How often each old answer became each new one, where it did: by the old and then by the new answer,
/// which stand in the order of the eight kinds, `compiler-error` and `pending`.
pub fn matrix(alloc: Global, pairs: &[(Answer, Answer)]) -> Result<MatrixRows, NoMemory>
    requires few { length pairs.now < 2 ^ 32 }
    ensures { IfOk result (λ rows. rows ≡ matrix_of pairs.now) }
{
    let counts = pair_counts(pairs);
    let mut rows = MatrixRows::new(alloc);
    push_all(&mut rows, &ANSWERS, &counts)?;
    Ok(rows)
}

/// Adds the rows of each of the answers to each of them.
fn push_all(rows: &mut MatrixRows, answers: &[Answer], counts: &[u32; 100]) -> Result<(), NoMemory>
    requires whole { length counts.now ≡ 100 }
    ensures { OnOk result (rows.new ≡ rows.old ++ flat_map (matrix_rows_of counts.now answers.now) answers.now) }
{
    for old in answers {
        push_rows(rows, *old, answers, counts)?;
    }
    Ok(())
}

/// Adds the rows of the old answer to each of the answers.
fn push_rows(
    rows: &mut MatrixRows,
    old: Answer,
    answers: &[Answer],
    counts: &[u32; 100],
) -> Result<(), NoMemory>
    requires whole { length counts.now ≡ 100 }
    ensures { OnOk result (rows.new ≡ rows.old ++ matrix_rows_of counts.now answers.now old) }
{
    for new in answers {
        let count = counts[pair_place(old, *new)];
        if count > 0 {
            rows.push(MatrixRow {
                old,
                new: *new,
                count,
            })?;
        }
    }
    Ok(())
}

/// How often each pair of answers stands in the list.
fn pair_counts(pairs: &[(Answer, Answer)]) -> [u32; 100]
    requires few { length pairs.now < 2 ^ 32 }
    ensures { AreCounts result pairs.now }
{
    let mut counts = [0; 100];
    for (old, new) in pairs {
        counts[pair_place(*old, *new)] += 1;
    }
    counts
}

/// The place of a pair of answers among the hundred.
fn pair_place(old: Answer, new: Answer) -> usize
    ensures place { result ≡ pair_place (old, new) }
    ensures within { result < 100 }
{
    10 * answer_place(old) + answer_place(new)
}

/// An answer's place among the ten.
fn answer_place(answer: Answer) -> usize
    ensures place { result ≡ answer_place answer }
    ensures within { result < 10 }
{
    match answer {
        Answer::Final(Verdict::Tests(kind)) => kind_place(kind),
        Answer::Final(Verdict::CompilerError) => 8,
        Answer::Pending => 9,
    }
}

/// A kind's place among the eight.
fn kind_place(kind: Kind) -> usize
    ensures place { result ≡ place_of kind }
    ensures within { result < 8 }
{
    kind as usize
}
