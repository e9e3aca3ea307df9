ghost use Rattle.std.specs.Prelude.{◌≡◌, ◌⊎◌};
ghost use Rattle.farm_io.specs.Streams.{Rose};
ghost use Rattle.script_session.specs.Session.{IsShort, EndsAs};
ghost use Rattle.script_session.specs.Firsts.{ScriptCameFirst};

use crate::end::{ScriptEnd, StoredEnd};
use crate::keeper::NoKeeper;
use crate::session::run_session;
use farm_core::Farm;
use farm_io::{Sink, Source};
use std::alloc::Global;

/// Reads lines to the input's end, answers each, and writes the replies. The replies to the lines that one
/// take of the input brought are written together.
///
/// `ends` says for each end which lines were answered, so how the farm stands and what was written, and that
/// from the empty farm this keeps the promise, line by line.
pub fn run_script<S: Source, K: Sink>(
    alloc: Global,
    farm: &mut Farm,
    input: &mut S,
    out: &mut K,
) -> ScriptEnd
    ensures ends { EndsAs result
        (record { farm = farm.old; left = S.left input.old; held = K.held out.old })
        (record { farm = farm.new; left = S.left input.new; held = K.held out.new }) }
    // Where several things would end it, the first that happened does.
    ensures first { ScriptCameFirst result
        (record { farm = farm.old; left = S.left input.old; held = K.held out.old })
        (record { farm = farm.new; left = S.left input.new; held = K.held out.new }) }

    // Why it ended.
    ensures read_fault { result ≡ ScriptEnd.ReadFault → Rose (S.faults input.old) (S.faults input.new) }
    ensures write_fault { result ≡ ScriptEnd.WriteFault → Rose (K.faults out.old) (K.faults out.new) }
    ensures complete { IsShort (S.left input.old)
        → ¬ Rose (S.faults input.old) (S.faults input.new) → ¬ Rose (K.faults out.old) (K.faults out.new)
        → (result ≡ ScriptEnd.Done) ⊎ (result ≡ ScriptEnd.NoMemory) }
{
    match run_session(alloc, farm, &mut NoKeeper, &mut (), input, out) {
        StoredEnd::Done => ScriptEnd::Done,
        StoredEnd::ReadFault => ScriptEnd::ReadFault,
        StoredEnd::WriteFault => ScriptEnd::WriteFault,
        StoredEnd::InputLimit => ScriptEnd::InputLimit,
        // What keeps nothing does not fail.
        StoredEnd::StoreFault | StoredEnd::StoreFull { .. } => ScriptEnd::NoMemory,
        StoredEnd::NoMemory => ScriptEnd::NoMemory,
    }
}
