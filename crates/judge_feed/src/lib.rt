//! The feed of a public board: what the public sees of a contest that is judged on a board, published by looks at it on a
//! pass of its own.
//!
//! Where things stand: `feed.rt` has the feed, `asking.rt` its looks at the board, `naming.rt` which board it shows and what
//! it publishes, `refreshed.rt` what comes of a refresh. `specs/Showing.antt` says what it is that versions are shown by a
//! history, `Refreshing.antt` what a feed keeps and what its calls do.
#![tactic(auto)]

mod asking;
mod feed;
mod naming;
mod refreshed;

pub use feed::Feed;
pub use naming::{Moments, Naming};
pub use refreshed::Refreshed;
