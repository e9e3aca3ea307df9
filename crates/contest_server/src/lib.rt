//! A contest that is served over the connections of a door.
//!
//! [`serve_contest`] enters the contest into a farm, lets workers answer the connections by calls of one board, gives the
//! connections back in the order in which they came, and writes a line for each and behind these the board.
//!
//! Where things stand: `contest.rt` is `serve_contest`, which enters the contest and opens the board; `service.rt` is
//! what stays the same from then on, and what is watched by it; `public.rt` what the public sees, and who reads it;
//! `boards.rt` serves in a scope of threads and asks for the last `board`; `serving.rt` serves connections one behind
//! the other; `accepting.rt` makes room for one and lets it in, `freeing.rt` waits for a free worker, and
//! `returning.rt` takes in the passes of those whose turn has come, gives them back and writes their lines; `lanes.rt`
//! begins, joins and ends a worker, `bell.rt` tells which workers are done, `lines.rt` has the line, `shown.rt` the
//! names that anybody is shown, and `ends.rt` how the serving ends. `specs/Visits.antt` is what is said of one
//! connection and its line, `Beside.antt` what the opening pass knows while passes of connections are out,
//! `Serving.antt` where the serving stands, call by call, and `Served.antt` what is known in the end: the visits, the
//! one history behind them and the last `board`, and what was written.
#![tactic(auto)]

mod accepting;
mod bell;
mod boards;
mod contest;
mod desk;
mod ends;
mod freeing;
mod lanes;
mod lines;
mod public;
mod returning;
mod service;
mod serving;
mod shown;

pub use contest::serve_contest;
pub use ends::ServeEnd;
