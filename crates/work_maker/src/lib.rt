//! Made contests: problems and submissions that are drawn from a number, for runs and measurements without a folder.
//!
//! [`make_contest`] gives the tree of a contest's folder: problems with a few tests, whose answer is their input, and
//! submissions of seven small programs. The same numbers make the same contest.
//!
//! Where things stand: `making.rt` has `make_files` and `make_contest`; `draws.rt` the draws, `submission.rt` what
//! is drawn of a submission, `programs.rt` the programs, `files.rt` each file. `specs/Made.antt` is the order of
//! the draws, `Programs.antt` the programs as instructions, `Files.antt` the files.
//!
//! To add a program write its instructions in `specs/Programs.antt` and its words in `programs.rt`.
//!
//! That a made contest is one goes by layers: `proofs/Digits.antt` what stands around a number in a text,
//! `Listed.antt` the lines of the submissions, `Cases.antt` a fact of each kind of file, `ProblemTests.antt` and
//! `Packages.antt` a problem's package, `Contests.antt` the whole. What depends on the number of a problem alone is
//! computed for all 50 (`Computed.antt`, `Stems.antt`).
#![tactic(auto)]

mod draws;
mod files;
mod making;
mod programs;
mod submission;
mod worked;

pub use making::{FOLDER, make_contest, make_files};
pub use programs::Program;
pub use worked::{worked_contest, worked_programs};
