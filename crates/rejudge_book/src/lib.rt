//! The rejudge book: which submissions are judged anew out of sight, in which rejudging, and how each
//! rejudging was closed.
//!
//! Where things stand: `book.rt` has the calls, `lists.rt` what stands twice and what is marked, `matrices.rt` the
//! matrix, `faults.rt` why a rejudging is not prepared or closed.
#![tactic(auto)]

mod book;
mod faults;
mod lists;
mod matrices;

pub use book::RejudgeBook;
pub use faults::{BookFault, CloseFault};
pub use matrices::matrix;
