//! A line that is read and written again, for tests of what is left out on the way.

ghost use Rattle.std.specs.Prelude.{◌≡◌, [], Ok, Err, Some, None, IfOk};
ghost use Rattle.farm_kinds.specs.declared.events.Event.{Event as EventValue};
ghost use Rattle.farm_kinds.specs.declared.events.LineFault.TheVariants as fault;
ghost use Rattle.farm_model.specs.Grammar.{line_read};
ghost use Rattle.farm_model.specs.Texts.{event_text};

use command_text::{read_line, write_event};
use farm_kinds::{LineFault, NoMemory, Text};
use std::alloc::Global;

/// What the line is read as, written again. Empty where the line gives no event.
pub fn read_and_written(alloc: Global, line: &[u8]) -> Result<Text, NoMemory>
    ensures event { (event : EventValue) → line_read line.now ≡ Ok (Some event) → IfOk result (λ text. text ≡ event_text event) }
    ensures none { line_read line.now ≡ Ok None → IfOk result (λ text. text ≡ []) }
    ensures bad { line_read line.now ≡ Err fault.BadLine → IfOk result (λ text. text ≡ []) }
{
    match read_line(alloc, line) {
        Ok(Some(event)) => write_event(alloc, &event),
        Ok(None) | Err(LineFault::BadLine) => Ok(Text::new(alloc)),
        Err(LineFault::NoMemory) => Err(NoMemory),
    }
}
