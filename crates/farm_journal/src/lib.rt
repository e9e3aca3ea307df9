//! A store of a farm's events: what was acknowledged survives a crash at any moment.
//!
//! Where things stand: `journal.rt` has the calls, `opening.rt` reads a store record by record and closes its end,
//! `player.rt` is the trait of what plays the events, and `faults.rt` why an event is not added.
#![tactic(auto)]

mod faults;
mod journal;
mod opening;
mod player;

pub use faults::AddFault;
pub use journal::{Journal, STORE_LIMIT};
pub use opening::is_unborn;
pub use player::Player;
