//! The files of the disk as a tree that remembers which path could not be read, and why a path cannot be read: what the system
//! says of it.
//!
//! `watched.rt` is the tree, and `reasons.rt` the reasons.
#![tactic(auto)]

mod reasons;
mod watched;

pub use reasons::{said, unread_reason};
pub use watched::Watched;
