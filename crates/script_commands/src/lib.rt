//! The commands that need no contest: `farm script`, and `farm store`.
//!
//! Where things stand: `answering.rt` is the command `script`, `config.rt` reads the settings' file, `stored.rt` is `script` with
//! a store, `listing.rt` the command `store`, and `flaw.rt` writes what is wrong with a store's file; `specs/Scripted.antt` and
//! `Stored.antt` say how each command ends, and `Config.antt` what a settings' file gives.
#![tactic(auto)]

mod answering;
mod config;
mod flaw;
mod listing;
mod stored;

pub use answering::script;
pub use listing::list;
pub use stored::script_stored;
