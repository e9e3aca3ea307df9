//! What a store holds of a farm: the events that are kept, and the state to which its records lead.
//!
//! Where things stand: `kept.rt` which events are stored, with the law that they lead where the whole run leads; `config.rt`
//! the first record of a store; `faults.rt` why a store is not opened; `specs/Opening.antt` what opening a file answers, as a
//! function of what it holds.
#![tactic(auto)]

mod again;
mod config;
mod faults;
mod kept;
mod texts;

pub use again::a_store_is_opened_again;
pub use config::{config_line, config_of, looks_unborn};
pub use faults::OpenFault;
pub use kept::{is_kept, kept_events_lead_to_the_state};
pub use texts::texts_of_lines_are_short;
