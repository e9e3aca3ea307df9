//! A farm that several threads call, each with a pass of its own. Calls take turns by tickets, so that all of them stand
//! in one history, in which each reply is the farm's at that point.
//!
//! Where things stand: `board.rt` has the board, its passes and their calls, `trust.rt` which results are admitted;
//! `calls.rt` makes a call in one turn, which may be kept for the next, `turn.rt` draws the ticket and waits,
//! `rule.rt` has the atomic steps of the table, `view.rt` what a seat of it knows, `contents.rt` what lies in its
//! slot, `entries.rt` the journal, `copies.rt` copies of events and replies, `local_bench.rt` the bench of a host
//! in this process. `specs/Histories.antt` says which histories are legal, `Passes.antt` what each call does to a
//! pass, `Rules.antt` what holds between any two steps. `proofs/Callers.antt` is for whoever has to say something
//! of a whole history.
#![tactic(auto)]

mod board;
mod calls;
mod contents;
mod copies;
mod entries;
mod local_bench;
mod rule;
mod trust;
mod turn;
mod view;

pub use board::{Board, BoardOf, Pass, PassOf};
pub use entries::{Call, CallJournal};
pub use local_bench::LocalBench;
pub use trust::{Admission, Anyone, Proved, Trust};
