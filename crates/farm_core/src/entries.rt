ghost use Rattle.std.specs.Prelude.{◌≡◌, ◌≤◌, ◌<◌, IsSome, IfOk, OnOk, length};
ghost use Rattle.farm_kinds.specs.Actors.{jury_actor};
ghost use Rattle.farm_model.specs.Chain.{audit_text};
ghost use Rattle.farm_model.specs.Texts.{logged_text};

use audit_log::Audit;
use command_text::write_event_words;
use farm_kinds::{Event, Name, NoMemory, Text};
use std::alloc::Global;

/// The most entries that the audit log may have.
const MAX_ENTRIES: usize = 4_294_967_295;
/// The most bytes that the words of an entry may have.
const MAX_WORDS: usize = 4_294_967_000;

/// What the audit log is to hold of an event of the jury.
#[derive(Debug, Drop)]
pub struct JuryEntry {
    pub who: Name,
    pub words: Text,
}

/// Writes what the audit log is to hold of an event of the jury, and makes room for it there.
pub fn make_entry(audit: &mut Audit, alloc: Global, event: &Event) -> Result<JuryEntry, NoMemory>
    requires { IsSome (jury_actor event.now) }
    ensures text { IfOk result (λ entry. audit_text entry.who entry.words ≡ logged_text event.now) }
    ensures enough { IfOk result (λ entry. length (audit_text entry.who entry.words) ≤ audit.new.reserved) }
    ensures few { OnOk result (length audit.new.texts < 4294967295) }
    ensures texts { audit.new.texts ≡ audit.old.texts }
{
    let who = event.jury_actor().unwrap_or(Name::jury());
    let words = write_event_words(alloc, event)?;
    let len = words.as_slice().len();
    if len > MAX_WORDS || audit.len() >= MAX_ENTRIES {
        return Err(NoMemory);
    }
    audit.reserve((who.as_bytes().len() + 1 + len) as u32)?;
    Ok(JuryEntry { who, words })
}
