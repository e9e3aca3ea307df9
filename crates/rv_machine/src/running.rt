ghost use Rattle.std.specs.Prelude.{ℕ, ◌≡◌, ◌+◌, ◌-◌, ◌*◌, ◌/◌, ◌%◌, ◌<◌, ◌≤◌, IfOk, IfErr, OnOk, OnErr, Some, None, true, length, get_or};
ghost use Rattle.rv_machine.specs.Decoded as decoded;
ghost use Rattle.rv_machine.specs.Executing.{Enters, Fetches};
ghost use Rattle.rv_machine.specs.Running as running;
ghost use Rattle.rv_machine.specs.Stepping as stepping;
ghost use Rattle.rv_machine.specs.Storage.{hart_of};
ghost use Rattle.rv_word.specs.Table.{instruction_of};
ghost use Rattle.rv_memory.specs.Paged as memory;

use crate::code::{
    Code, decoded_page, is_decoded, is_stale, keep, operation_at, step_at, step_of, steps_at,
};
use crate::ending::{Ending, Trap};
use crate::processor::{Flow, Processor, ProgramCounter, Stop, Stored, next_pc};
use rv_memory::MemFault;
use rv_word::decode;

/// Where a run comes to the end of its page, to a word that is not decoded, to a store that changes a decoded word, or
/// stops.
#[derive(Clone, Copy)]
pub struct Pause {
    pub pc: u32,
    /// How many instructions are left to the limit.
    pub left: u64,
    pub stop: Option<Stop>,
    pub stale: Option<Stored>,
}

/// What comes of a fetch in a decoded page.
#[derive(Clone, Copy)]
pub enum Fetch {
    Ready,
    Break,
    Illegal,
    OutOfMemory,
}

/// Touches the page of pc, and sees that the word there is decoded; gives the place of the decoded page.
#[inline(never)]
pub fn fetch_page(processor: &mut Processor, code: &mut Code, pc: u32) -> Result<usize, Stop>
    requires aligned { pc % 4 ≡ 0 }
    requires code { decoded.IsCode processor.old.memory code.old }
    ensures code { decoded.IsCode processor.new.memory code.new }
    ensures ready { IfOk result (λ here. decoded.IsReady code.new here pc) }
    ensures enters { Enters result (hart_of processor.old pc) processor.new }
{
    let place = match processor.place(pc) {
        Ok(place) => place,
        Err(MemFault::OverLimit { .. }) => return Err(Stop::Ended(Ending::Memory)),
        Err(_) => return Err(Stop::NoMemory),
    };
    let Ok(here) = decoded_page(code, place, pc / 4096) else {
        return Err(Stop::NoMemory);
    };
    match decode_word(processor, code, here, pc) {
        Fetch::Ready => Ok(here),
        Fetch::Break => Err(Stop::Ended(Ending::Trap(Trap::Break))),
        Fetch::Illegal => Err(Stop::Ended(Ending::Trap(Trap::Illegal))),
        Fetch::OutOfMemory => Err(Stop::NoMemory),
    }
}

// Sees that the word at pc is decoded, which lies in a decoded page.
fn decode_word(processor: &mut Processor, code: &mut Code, here: usize, pc: u32) -> Fetch
    requires aligned { pc % 4 ≡ 0 }
    requires code { decoded.IsCode processor.old.memory code.old }
    requires some { here < length code.old.numbers.items }
    requires page { get_or code.old.numbers.items here 0 ≡ pc / 4096 }
    ensures code { decoded.IsCode processor.old.memory code.new }
    ensures numbers { code.new.numbers ≡ code.old.numbers }
    ensures unchanged { processor.new ≡ processor.old }
    ensures fetches { Fetches result processor.old.memory pc (decoded.step_of code.new here (pc / 4 % 1024)) }
{
    if is_decoded(operation_at(code, here, pc)) {
        return Fetch::Ready;
    }
    let Ok(word) = processor.word(pc) else {
        return Fetch::OutOfMemory;
    };
    match decode(word) {
        Some(i) => {
            if !is_decoded(i.op) {
                return Fetch::Break;
            }
            keep(code, here, pc, step_of(i));
            Fetch::Ready
        }
        None => Fetch::Illegal,
    }
}

/// Runs in the page of pc, which is decoded, while the words are decoded and stay so.
#[inline(never)]
pub fn run_in_page(
    processor: &mut Processor,
    code: &Code,
    here: usize,
    pc: u32,
    cost: u64,
    limit: u64,
) -> Pause
    requires aligned { pc % 4 ≡ 0 }
    requires code { decoded.IsCode processor.old.memory code.now }
    requires here { decoded.IsReady code.now here pc }
    requires time { cost < limit }
    ensures aligned { result.pc % 4 ≡ 0 }
    ensures within { result.left ≤ limit }
    ensures code { decoded.IsKept result.stale processor.new.memory code.now }
    ensures pauses { (s : stepping.State) → running.IsStateOf s processor.old pc cost limit → running.Pauses result.stop s (running.moved s processor.new result.pc (limit - result.left)) }
{
    let steps = steps_at(&code.steps, here);
    let page = pc / 4096 * 4096;
    let mut word = (pc / 4 % 1024) as usize;
    let mut left = limit - cost;
    while left > 0 {
        if word == 1024 {
            return paused(page.wrapping_add(4096), left, None, None);
        }
        let now = ProgramCounter { page, word };
        let i = step_at(steps, word);
        let next = match processor.operate(now, i) {
            Flow::Next => word + 1,
            Flow::Stored(stored) => {
                if is_stale(code, here, stored.place, stored.at) {
                    return paused(next_pc(now.address()), left - 1, None, Some(stored));
                }
                word + 1
            }
            Flow::Within(to) => to,
            Flow::Jump(to) => return paused(to, left - 1, None, None),
            Flow::Stopped(stop) => {
                // EBREAK stands for a word that is not decoded.
                if !is_decoded(i.op) {
                    return paused(now.address(), left, None, None);
                }
                return paused(now.address(), left, Some(stop), None);
            }
        };
        word = next;
        left -= 1;
    }
    let now = ProgramCounter { page, word };
    paused(now.address(), left, Some(Stop::Ended(Ending::Time)), None)
}

#[cold]
#[inline(never)]
fn paused(pc: u32, left: u64, stop: Option<Stop>, stale: Option<Stored>) -> Pause
    ensures { result ≡ record { pc = pc; left = left; stop = stop; stale = stale } }
{
    Pause {
        pc,
        left,
        stop,
        stale,
    }
}
