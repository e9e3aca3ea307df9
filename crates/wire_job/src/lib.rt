//! A job, as the judge server hands it to a judgehost on another machine: a task and its case, as JSON whose bytes are in
//! Base64. For a host that has the image of the submission it is written without that (`parts.rt`).
//!
//! Where things stand: `job.rt` a job, which can be run; `reading.rt` reads one, over `fields.rt` (one field), `units.rt`
//! (the units of a tolerance), `checking.rt` (whether the case can be run) and `faults.rt`; `writing.rt` writes
//! one.
#![tactic(auto)]

mod checking;
mod faults;
mod fields;
mod job;
mod parts;
mod reading;
mod units;
mod worked;
mod writing;

pub use faults::{JobFault, JobField};
pub use job::{Job, OwnCheck};
pub use parts::JobPart;
pub use reading::read_job;
pub use writing::write_job;
