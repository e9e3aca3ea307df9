//! The task tree: which tasks of judgings are shown, and the least of them by class, judging and test, found
//! in a few readings of words however many judgings there are.
//!
//! Where things stand: `tree.rt` has the calls, `classes.rt` the judgings of each class, `numbers.rt` a set of
//! numbers in three levels, `words.rt` a set of numbers in words, over `bits.rt`, which is where steps are counted
//! (`steps.rt`); `specs/TreeLayout.antt` says how a tree lies in memory.
#![tactic(auto)]

mod bits;
mod classes;
mod numbers;
mod steps;
mod tree;
mod words;

pub use steps::Steps;
pub use tree::TaskTree;
pub use words::Words;
