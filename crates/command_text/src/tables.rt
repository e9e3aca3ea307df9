ghost use Rattle.std.specs.Prelude.{◌≡◌, ◌++◌, ◌∷◌, [], ℕ, List, length, take, OnOk, OnErr, IfOk};
ghost use Rattle.std.specs.List.{flat_map};
ghost use Rattle.farm_model.specs.Texts.{table_line, table_text};

use crate::rows::verdict_text;
use crate::texts::push_line;
use farm_kinds::{NoMemory, TableRow, TableRows, Text};
use itoa::Buffer;
use std::alloc::Global;

/// Puts a row of a table: the number of the submission, its team, its problem and its verdict.
/// At `NoMemory` a part of it may be there.
fn push_table_row(out: &mut Vec<u8>, row: &TableRow) -> Result<(), NoMemory>
    ensures ok { OnOk result (out.new.items ≡ out.old.items ++ table_line row.now) }
    ensures err { OnErr result (take (length out.old.items) out.new.items ≡ out.old.items) }
{
    let mut digits = Buffer::new();
    let TableRow {
        number,
        team,
        problem,
        verdict,
    } = *row;
    push_line(
        out,
        &[
            digits.format(number).as_bytes(),
            team.as_bytes(),
            problem.as_bytes(),
            verdict_text(verdict).as_bytes(),
        ],
    )
}

/// Puts the rows of a table. At `NoMemory` a part of them may be there.
#[tactic(auto, using(crate::proofs::RowLemmas::table_more, crate::proofs::Joining::front_stays))]
fn push_table(out: &mut Vec<u8>, rows: &[TableRow]) -> Result<(), NoMemory>
    ensures ok { OnOk result (out.new.items ≡ out.old.items ++ table_text rows.now) }
    ensures err { OnErr result (take (length out.old.items) out.new.items ≡ out.old.items) }
{
    for row in rows {
        push_table_row(out, row)?;
    }
    Ok(())
}

/// A line for each row of a table of verdicts, each with its line feed.
pub fn write_table(alloc: Global, rows: &TableRows) -> Result<Text, NoMemory>
    ensures { IfOk result (λ text. text ≡ table_text rows.now) }
{
    let mut text = Vec::new(alloc);
    push_table(&mut text, rows.as_slice())?;
    Ok(Text::from_vec(text))
}
