ghost use Rattle.std.specs.Prelude.{◌≡◌, IfOk};
ghost use Rattle.farm_io.specs.Streams.{Rose};
ghost use Rattle.script_commands.specs.Stored.{bad_store_line, FlawEnds};

use exit_status::{Exit, StoreFlaw};
use farm_io::{PutEnd, Sink};
use farm_kinds::NoMemory;
use std::alloc::Global;

/// Writes the line that says what is wrong with the file of a store.
pub(crate) fn refuse_store<K: Sink>(alloc: Global, flaw: StoreFlaw, out: &mut K) -> Exit
    ensures ends { FlawEnds flaw (K.held out.old) (K.held out.new) (out.new ≡ out.old) result }
    ensures write_fault { result ≡ Exit.WriteFault → Rose (K.faults out.old) (K.faults out.new) }
{
    match bad_store_line(alloc, flaw) {
        Ok(line) => match out.put(line.as_slice()) {
            PutEnd::Done => Exit::BadStore { flaw },
            PutEnd::Failed => Exit::WriteFault,
        },
        Err(_) => Exit::Memory,
    }
}

/// The line that says what is wrong with the file of a store.
fn bad_store_line(alloc: Global, flaw: StoreFlaw) -> Result<Vec<u8>, NoMemory>
    ensures { IfOk result (λ line. line.items ≡ bad_store_line flaw) }
{
    match flaw {
        StoreFlaw::OtherConfig { .. } => {
            let line = b"bad store: other config\n".to_vec(alloc)?;
            Ok(line)
        }
        StoreFlaw::Record { number } => {
            let mut line = b"bad store: record ".to_vec(alloc)?;
            let told = format!(in alloc; "{number}\n")?;
            line.extend_from_slice(told.as_bytes())?;
            Ok(line)
        }
    }
}
