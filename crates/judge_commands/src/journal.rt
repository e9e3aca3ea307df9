ghost use Rattle.std.specs.Prelude.{◌≡◌, ◌++◌, OnOk};
ghost use Rattle.judge_commands.specs.Judged.{journal_line, journal_text};

use command_text::{push_event, push_reply};
use farm_board::Call;
use farm_kinds::NoMemory;
use std::alloc::Global;

/// Puts a line for each call of a journal: the number of the pass that made it, its event, and its reply.
/// At `NoMemory` a part of them may be there.
#[tactic(auto, using(crate::proofs::JournalLines::journal_more))]
pub fn push_journal(alloc: Global, out: &mut Vec<u8>, calls: &[Call]) -> Result<(), NoMemory>
    ensures { OnOk result (out.new.items ≡ out.old.items ++ journal_text calls.now) }
{
    for call in calls {
        push_journal_line(alloc, out, call)?;
    }
    Ok(())
}

/// Puts the line of a call. At `NoMemory` a part of it may be there.
fn push_journal_line(alloc: Global, out: &mut Vec<u8>, call: &Call) -> Result<(), NoMemory>
    ensures { OnOk result (out.new.items ≡ out.old.items ++ journal_line call.now) }
{
    let number = call.number;
    let beginning = format!(in alloc; "journal {number} ")?;
    push(out, beginning.as_bytes())?;
    push_event(out, &call.event)?;
    push(out, b" => ")?;
    push_reply(out, &call.reply)
}

/// Puts the bytes behind what is there.
fn push(out: &mut Vec<u8>, bytes: &[u8]) -> Result<(), NoMemory>
    ensures { OnOk result (out.new.items ≡ out.old.items ++ bytes.now) }
{
    out.extend_from_slice(bytes).map_err(|_| NoMemory)
}
