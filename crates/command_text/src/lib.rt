//! The grammar of event lines, and the texts of events and replies.
//!
//! Where things stand: `lines.rt` reads a line, by `jury.rt` and `hosts.rt` for theirs, over `words.rt`,
//! `fronts.rt` (the name or number that stands first), `alone.rt` (lines of one name, number or kind), `lists.rt`
//! and `numbers.rt`; `replies.rt` writes replies, `rows.rt` the rows of boards and matrices, `tables.rt` tables of
//! verdicts, `events.rt` events, over `texts.rt`; `laws.rt` says that what is written of an event is read back.
#![tactic(auto)]

mod alone;
mod events;
mod fronts;
mod hosts;
mod jury;
mod laws;
mod lines;
mod lists;
mod numbers;
mod replies;
mod rows;
mod tables;
mod texts;
mod words;

pub use events::{push_event, write_event, write_event_words};
pub use laws::written_event_is_read;
pub use lines::read_line;
pub use numbers::{read_moment, read_number};
pub use replies::{push_bad_line, push_reply, push_too_long, write_reply};
pub use tables::write_table;
