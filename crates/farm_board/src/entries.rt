ghost use Rattle.std.specs.Prelude.{◌≡◌, []};
ghost use Rattle.farm_board.specs.Passes.{Noted};

use crate::copies::{copy_event, copy_reply};
use farm_core::Farm;
use farm_kinds::{Event, Reply};
use std::alloc::Global;
use std::marker::Model;

/// A call of a board, with its reply.
#[derive(Debug, Drop)]
pub struct Call {
    /// The number of the pass that made the call.
    pub number: u64,
    pub event: Event,
    pub reply: Reply,
}

/// An entry of a board's history. No value of it is made.
pub enum HistoryEntry {
    /// A call of the board.
    Call(Call),
    /// The pass split off one with the number `new`.
    Split { number: u64, new: u64 },
    /// The pass took in the one with the number `old`.
    Join { number: u64, old: u64 },
}

/// The calls that took effect, in their order. Contracts see a list.
#[derive(Debug, Drop)]
pub struct CallJournal {
    alloc: Global,
    calls: Vec<Call>,
}

impl Model for CallJournal {
    ghost use Rattle.std.specs.Prelude.{List};
    ghost use Rattle.farm_board.specs.declared.entries.Call.{Call};

    ghost Value = { List Call };

    ghost view = { λ h. h.calls.items };
}

impl CallJournal {
    /// No calls.
    pub(crate) fn new(alloc: Global) -> CallJournal
        ensures { result ≡ [] }
    {
        CallJournal {
            alloc,
            calls: Vec::new(alloc),
        }
    }

    /// The calls in order.
    pub fn as_slice(&self) -> &[Call]
        ensures { result.now ≡ self.now }
    {
        self.calls.as_slice()
    }

    /// Lets the farm answer the event, and notes the call. Where memory runs out, neither changes: a copy of the reply
    /// takes memory only where the event changes nothing.
    pub fn note(&mut self, farm: &mut Farm, number: u64, event: &Event) -> Reply
        ensures { Noted farm.old self.old number event.now result farm.new self.new }
    {
        let Ok(noted) = copy_event(self.alloc, event) else {
            return Reply::NoMemory;
        };
        if self.calls.try_reserve(1).is_err() {
            return Reply::NoMemory;
        }
        let reply = farm.step(event);
        if matches!(reply, Reply::NoMemory) {
            return Reply::NoMemory;
        }
        let Ok(copy) = copy_reply(self.alloc, &reply) else {
            return Reply::NoMemory;
        };
        self.calls.push_reserved(Call {
            number,
            event: noted,
            reply: copy,
        });
        reply
    }
}
