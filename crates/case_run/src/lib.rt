//! One test of one submission: its program is run on the test's input within limits, and its output is checked, by the
//! default output validator or by a program of the problem's own.
//!
//! Where things stand: `case.rt` a case and the trait `Cases`, `image.rt` what is an image and how it is loaded,
//! `running.rt` is `run_case`; `specs/Values.antt` says what a run gives.
#![tactic(auto)]

mod case;
mod image;
mod laws;
mod running;

pub use case::{Case, Cases, Check};
pub use image::{image_ok, open};
pub use laws::an_executable_is_opened;
pub use running::run_case;
