//! What of a problem package is skipped: keys that are not read, limits that are cut down, a time limit that nothing sets,
//! files that belong to no test, folders and validators that nothing asks for. None of it is a fault: a package of another
//! judge often has more than this program reads. It is told so that nobody is surprised.
//!
//! Where things stand: `package.rt` has `package_notes`; `settings.rt` the notes on the two files that set something,
//! `files.rt` those on `data`, `texts.rt` what a person is told of a note, and `faults.rt` of a fault.
#![tactic(auto)]

mod faults;
mod files;
mod notes;
mod package;
mod settings;
mod texts;
mod worked;

pub use faults::{NO_RAW_IMAGE, fault_text, flag_text, large_text, wide_token_text};
pub use notes::Note;
pub use package::package_notes;
pub use texts::note_text;
pub use worked::{worked_files, worked_notes};
