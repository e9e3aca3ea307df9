ghost use Rattle.std.specs.Prelude.{◌≡◌, ◌++◌, ◌∷◌, [], OnOk, IfOk, codes, length};
ghost use Rattle.hex.specs.Hex.{encode_lower};
ghost use Rattle.farm_model.specs.Texts.{verdict_text};
ghost use Rattle.judge_commands.specs.Making.{verdict_count, count_line, kind_lines, digest_line, summary_text};

use command_text::write_table;
use farm_kinds::{Kind, NoMemory, TableRow, TableRows, Verdict};
use sha2::{Digest, Sha256};
use std::alloc::Global;

/// The name of the verdict of a submission that has no image.
const COMPILER_ERROR: &str = "compiler-error";

/// How many rows of a table have each verdict, a line each, and the digest of the table.
pub fn summary_text(alloc: Global, table: &TableRows) -> Result<Vec<u8>, NoMemory>
    ensures { IfOk result (λ text. text.items ≡ summary_text table.now) }
{
    let mut text = Vec::new(alloc);
    let rows = table.as_slice();
    push_kinds(alloc, &mut text, rows, &Kind::ALL)?;
    push_count(alloc, &mut text, rows, COMPILER_ERROR)?;
    push_digest(alloc, &mut text, table)?;
    Ok(text)
}

/// Puts a line for each of these kinds. At `NoMemory` a part of them may be there.
#[tactic(auto, using(crate::proofs::Summaries::kinds_more))]
fn push_kinds(
    alloc: Global,
    text: &mut Vec<u8>,
    rows: &[TableRow],
    kinds: &[Kind],
) -> Result<(), NoMemory>
    ensures { OnOk result (text.new.items ≡ text.old.items ++ kind_lines rows.now kinds.now) }
{
    for kind in kinds {
        push_count(alloc, text, rows, kind.name())?;
    }
    Ok(())
}

/// Puts a line with the name of a verdict, and how many rows have it.
fn push_count(
    alloc: Global,
    text: &mut Vec<u8>,
    rows: &[TableRow],
    name: &str,
) -> Result<(), NoMemory>
    ensures { OnOk result (text.new.items ≡ text.old.items ++ count_line rows.now name.now) }
{
    let count = count_of(rows, name);
    let line = format!(in alloc; "{name} {count}\n")?;
    text.extend_from_slice(line.as_bytes())?;
    Ok(())
}

/// How many rows have the verdict of this name.
fn count_of(rows: &[TableRow], name: &str) -> usize
    ensures { result ≡ verdict_count rows.now name.now }
{
    rows.iter()
        .filter(|row| verdict_name(row.verdict) == name)
        .count()
}

/// A verdict's name.
fn verdict_name(verdict: Verdict) -> &'static str
    ensures { result.now ≡ verdict_text verdict }
{
    match verdict {
        Verdict::Tests(kind) => kind.name(),
        Verdict::CompilerError => COMPILER_ERROR,
    }
}

/// Puts the line with the digest of a table. At `NoMemory` a part of it may be there.
fn push_digest(alloc: Global, text: &mut Vec<u8>, table: &TableRows) -> Result<(), NoMemory>
    ensures { OnOk result (text.new.items ≡ text.old.items ++ digest_line table.now) }
{
    let rows = write_table(alloc, table)?;
    let digits = hex_of(&Sha256::digest(rows.as_slice()));
    push(text, b"table ")?;
    push(text, digits.as_slice())?;
    push(text, b"\n")
}

/// The hexadecimal digits of a digest.
fn hex_of(digest: &[u8; 32]) -> [u8; 64]
    ensures { result ≡ encode_lower digest.now }
{
    let mut digits = [0u8; 64];
    let _written = hex::encode_to_slice(digest, &mut digits);
    digits
}

/// Puts the bytes behind what is there.
fn push(text: &mut Vec<u8>, bytes: &[u8]) -> Result<(), NoMemory>
    ensures { OnOk result (text.new.items ≡ text.old.items ++ bytes.now) }
{
    text.extend_from_slice(bytes).map_err(|_| NoMemory)
}
