//! A machine that runs RV32IM programs and counts their instructions, pages and bytes of output.
//!
//! Where things stand: `specs/Operations.antt` for an operation, `specs/Stepping.antt` for the order of checks, the
//! system calls and the run; `processor.rt` carries an instruction out, `running.rt` is the fast loop over a
//! decoded page, `code.rt` the decoded pages and how one is found, `files.rt` what a program reads, `machine.rt`
//! the meter and the system calls, `ending.rt` how a run ends; `blank` and `place` make a machine from parts, and
//! `load` is both for a raw image.
#![tactic(auto)]

mod code;
mod ending;
mod files;
mod laws;
mod machine;
mod processor;
mod running;

pub use ending::{Ending, Trap};
pub use files::{Extra, Files};
pub use laws::{an_image_is_placed, finish_is_the_first_ending};
pub use machine::Machine;
