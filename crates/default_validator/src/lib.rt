//! The default output validator of the Kattis problem package format (legacy), section "Default
//! Output Validator Specification": which outputs are accepted for an answer. It compares token by
//! token. Numbers are compared exactly, with no floating point.
//!
//! White space is space, tab, LF, VT, FF and CR. Case folding maps A to Z to a to z. No call takes
//! memory.
//!
//! Where things stand: `cuts.rt` (white space and tokens), `flags.rt`, `agreement.rt` (one pair of tokens),
//! `walk.rt` (both texts).
#![tactic(auto)]

mod agreement;
mod cuts;
mod flags;
mod walk;

pub use flags::{FlagFault, Flags};
pub use walk::{accepts, wide_token};
