//! The top call of the program: it carries out the command of the words.
//!
//! Where things stand: `top.rt` is the top call, which hands `script` and `store` to `script_commands`, and `judge` and `make` to
//! `judge_commands`; `serving.rt` is the command `serve`, and `hosting.rt` the command `host`, whose person is told of
//! a wrong answer by `wrong_answers.rt`; `specs/ServedContest.antt` and
//! `Hosting.antt` say how these two end, and `Commands.antt` puts all commands together.
#![tactic(auto)]

mod hosting;
mod serving;
mod top;
mod wrong_answers;

pub use top::farm_main;
