//! A judgehost that works over a connection to a judge server.
//!
//! What it asks is a function of the responses that it takes: `talk` of `specs/Talk.antt`. A [`RemoteBench`] is the bench
//! of such a host, and [`work_over`] runs the host over a connection. A host keeps the image of the job that it ran last,
//! and asks for a further job of that judging without it (`kept.rt`). To a proxy that asks for it, each request says who
//! the host is by one more line ([`authorization`]).
#![tactic(auto)]

mod asks;
mod bench;
mod bodies;
mod exchange;
mod host;
mod kept;
mod passwords;
mod pause;
mod requests;
mod talker;
mod worked;

pub use asks::{Ask, Caller, Fetched, Kept, TalkEnd, Wrong};
pub use bench::RemoteBench;
pub use host::{HOST, Worked, work_over};
pub use passwords::{BadPassword, PASSWORD_LIMIT, authorization, password_in};
pub use pause::{NoPause, Pause, SystemPause};
