//! The judge: judgings, each a row of cells that results fill, and hosts, which claim open tasks and hold
//! leases on them.
//!
//! It judges in one of two modes. Lazily a judging is final once no result of its empty cells can change
//! its verdict, and hosts are given only tasks whose result can; lazy evaluation is DOMjudge's (its manual,
//! `lazy_eval_results`), and the exact place where judging stops is this project's own profile. In full a
//! judging is final once every cell is filled, and hosts are given the task of each empty cell.
//!
//! Where things stand: `judge.rt` has the calls, `judgings.rt` the judgings and why a result does not count,
//! `answers.rt` what is reported of each, which is kept beside them (`proofs/Reported.antt`), `filling.rt` puts a result that counts
//! into its cell, `prepared.rt`
//! judgings that are made ahead, `marks.rt` which tasks were handed out, a bit for each, `open.rt` which tasks are
//! open, `listing.rt` what puts tasks on the list of a claim and takes them off, and what ends leases, `room.rt`
//! how much room is made for leases; `specs/Listed.antt` says that the open tasks are listed and no others,
//! `proofs/Listed.antt` that each change keeps it, `proofs/Wider.antt` that there is room on the list for the tests
//! of all judgings, and `proofs/OpenTasks.antt` that the first listed task is then the first open one;
//! `proofs/Batches.antt` that after a claim the next open task of its judging is again the first open one, which is
//! how a batch is handed out; `specs/Holding.antt`, `proofs/Held.antt` and `Cells.antt` say how many leases hosts
//! hold and on which cells, `CellCount.antt` that they are fewer than the cells while one is open, and `Vain.antt`
//! which of them a result ends, and which tasks it takes off the list.
#![tactic(auto)]

mod answers;
mod filling;
mod judge;
mod judgings;
mod listing;
mod marks;
mod open;
mod prepared;
mod room;

pub use judge::Judge;
pub use task_tree::Steps;
