//! What definitions that are loops say, in plain words.
//!
//! Each function has an empty body, and its contract is the law. Nothing stands on this crate.
//!
//! Where things stand: a file of `src` for each subject; `specs` has the words that a law needs besides those of the
//! definition, and `proofs` a file for each law.
#![tactic(auto)]

mod contests;
mod executables;
mod leases;
mod packages;
mod settings;

pub use contests::{
    a_contest_is_too_large_at_its_first_file_past_the_limit, each_line_is_one_submission,
};
pub use executables::an_executable_fits_by_its_pages;
pub use leases::the_due_lease_ends_first;
pub use packages::{
    a_package_is_too_large_at_its_first_file_past_the_limit, each_input_is_one_test,
};
pub use settings::{a_quoted_text_is_read_back, the_first_faulty_line_is_told};
