//! The words of the command line, and the command that they say.
//!
//! Where things stand: `checks.rt` looks at each word before `clap` does, `grammar.rt` is the grammar that `clap`
//! reads by (`specs/Commands.antt`), `parsing.rt` calls it, and `reading.rt` makes a `Command` (`words.rt`) of what
//! it found, with the numbers of `host_count.rt`, `serving.rt` and `made_size.rt`, and with the address that
//! `address.rt` reads. `asking.rt` says what words ask for that may also ask for help, `refusing.rt` what is wrong with
//! them, and `programs.rt` does the same for the small programs. What help says of a command, an operand or an option,
//! its value's name and a number's range stand in `described.rt` alone.
//!
//! To add a command or an option write it in `specs/Commands.antt` and `specs/CommandLine.antt`, its words in
//! `worked.rt`, and then in the files above.
#![tactic(auto)]

mod address;
mod asking;
mod checks;
mod described;
mod grammar;
mod host_count;
mod made_size;
mod parsing;
mod programs;
mod reading;
mod refusing;
mod serving;
mod words;
mod worked;

pub use asking::{Asked, read_words};
pub use grammar::{Grammar, VERSION};
pub use host_count::HostCount;
pub use made_size::MadeSize;
pub use programs::{ProgramWords, no_number, number_from, read_program};
pub use reading::read_command;
pub use serving::{Connections, Lanes, Patience};
pub use words::{Command, Login};
