//! People: who is told things by the program, and how a text is shown to them.
//!
//! `person.rt` is who is told, and `plain.rt` a text by which nobody speaks to a terminal.
#![tactic(auto)]

mod person;
mod plain;

pub use person::{Nobody, Person};
pub use plain::Plain;
