//! Problem packages: what the files of a folder say of a problem (Kattis problem package format, legacy), or the
//! first fault among them.
//!
//! Where things stand: `reading.rt` has `read_package` and the files' steps, `walk.rt` finds files level by level,
//! `order.rt` puts paths in order, `stems.rt` finds the tests, `files.rt` names and endings, `checking.rt` the
//! validator.
//!
//! To add a fault, write it in `package.rt`, in `specs/Names.antt` or `specs/Reading.antt`, and then in the file above that
//! looks for it.
#![tactic(auto)]

mod checking;
mod files;
mod order;
mod package;
mod reading;
mod stems;
mod walk;
mod worked;

pub use files::{copy, in_folder, read_file, with_ending};
pub use order::Paths;
pub use package::{Checker, Package, PackageFault, Test, Tests};
pub use reading::read_package;
pub use stems::name_below;
pub use walk::paths_below;
pub use worked::{worked_folder, worked_package, worked_tests, worked_validators};
