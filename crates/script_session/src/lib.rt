//! A session over the lines of a script: each is read, answered by the farm, and its reply is written. Its events may be
//! stored, each before its reply is written.
//!
//! Where things stand: `session.rt` is the session, over whatever keeps its events (`keeper.rt`); `script.rt` keeps none,
//! `stored.rt` stores them, and `end.rt` says how they end; `specs/Session.antt` says where a session may stand and how it
//! ends, `Keeping.antt` the same of one that keeps its events, and `Storing.antt` what is left in a store.
#![tactic(auto)]

mod end;
mod keeper;
mod script;
mod session;
mod stored;

pub use end::{ScriptEnd, StoredEnd};
pub use script::run_script;
pub use stored::run_stored;
