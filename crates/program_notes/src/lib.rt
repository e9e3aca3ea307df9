//! Why a file is no program that can be run, as one who built it wants to know it.
//!
//! Where things stand: `faults.rt` has `program_fault`, which finds the fault of a file, and `texts.rt` what a person is told of
//! it.
#![tactic(auto)]

mod faults;
mod texts;

pub use faults::{ProgramFault, program_fault};
pub use texts::program_fault_text;
