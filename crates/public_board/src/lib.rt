//! Rows that one thread publishes and others read without waiting, as versions of which a reader never goes back.
//!
//! Where things stand: `publisher.rt` has `open`, the publisher and its notes, `readers.rt` the readers, `row.rt` what a
//! row is, `answers.rt` that answers are rows, `rows.rt` what lies in the two copies and how a change is taken in, `rule.rt`
//! what holds of them and of what each side knows. `specs/Versions.antt` says what the rule keeps, `Values.antt` what
//! contracts see.
#![tactic(auto)]

mod answers;
mod publisher;
mod readers;
mod row;
mod rows;
mod rule;

pub use publisher::{Note, Publisher, open};
pub use readers::{Reader, Readers, Version};
pub use row::Row;
pub use rule::Publication;
