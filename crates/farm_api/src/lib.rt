//! The judge server: what the requests of a connection ask of the farm, and what they are answered.
//!
//! [`read_request`] finds the event of a request by the table of [`Paths`], and [`serve_on`] answers the requests of a
//! connection by a [`Replier`], until it ends as a [`ConnEnd`] says. [`serve_conn`] does so on a running board.
//!
//! Where things stand: `paths.rt` the table of paths and its router, `routes.rt` the route of a request, `asking.rt`
//! its event, `answering.rt` responses, `jobs.rt` those that give a job, `publishing.rt` those that give what the
//! public sees, over `rows_text.rt`, `showing.rt` the page for people and the names of the contest; `replier.rt` what
//! answers events, and how those of a request are entered, `serving.rt` is `serve_on`, which answers a connection by
//! whatever answers events, and `calling.rt` is `serve_conn`, which does so by calls of a board, on a pass; `lane.rt`
//! is `serve_lane`, which does so with a reader of the public board besides (`access.rt`), which keeps the response
//! that it gave last (`public_reader.rt`), and `following.rt` has the feed publish what follows from an answer;
//! `ends.rt` how a connection ends.
//! `specs/Exchanges.antt` is what is entered and answered for a request, `specs/Serving.antt` what for a connection,
//! `specs/PassCalls.antt` what that makes of a pass, `specs/LaneCalls.antt` what of a pass and a reader,
//! `specs/Reads.antt` what a reader gives, and `specs/Putting.antt` what is put and kept of it.
//!
//! To add a route, write its path in `specs/Table.antt` and `paths.rt`, its method and id in `specs/Routes.antt`
//! and `routes.rt`, and its event in `specs/Conversation.antt` and `asking.rt`.
#![tactic(auto)]

mod access;
mod answering;
mod asking;
mod calling;
mod ends;
mod following;
mod jobs;
mod lane;
mod paths;
mod public_reader;
mod publishing;
mod replier;
mod routes;
mod rows_text;
mod serving;
mod showing;
mod worked;

pub use access::{Access, AccessOf};
pub use answering::{answer_fault, answer_reply, status_of};
pub use asking::{Asked, RequestFault, read_request};
pub use calling::serve_conn;
pub use ends::{ConnEnd, ConnHow};
pub use lane::serve_lane;
pub use paths::{Paths, Place};
pub use public_reader::{PublicReader, PublicReaders};
pub use publishing::put_look;
pub use replier::Replier;
pub use routes::{Routed, find_route};
pub use serving::serve_on;
pub use worked::{worked_events, worked_responses, worked_routes, worked_targets};
