//! Contests: what the files of a folder say of a contest's settings, problems and submissions, or the first fault
//! among them; and the case of each judging and test.
//!
//! Where things stand: `reading.rt` has `read_contest`; `problems.rt` the packages, `lines.rt` the lines of
//! `submissions.txt`, `images.rt` the images, `submitted.rt` a submission's file, `files.rt` a file of the folder,
//! `roster.rt` what was read, `cases.rt` the case of each task, `texts.rt` the text of each fault.
//!
//! To add a fault, write it in `faults.rt`, in the file of `specs/` that has its subject, and in
//! the file above that looks for it.
#![tactic(auto)]

mod cases;
mod faults;
mod files;
mod images;
mod lines;
mod problems;
mod reading;
mod roster;
mod submitted;
mod texts;
mod worked;

pub use faults::ContestFault;
pub use lines::{cut, is_comment, is_file_name};
pub use problems::read_shorts;
pub use reading::{read_contest, read_contest_settings};
pub use roster::{Roster, RosterProblem, RosterSubmission};
pub use texts::{push_contest_fault, push_settings_fault};
pub use worked::{worked_folder, worked_lines, worked_totals};
