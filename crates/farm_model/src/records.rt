use crate::members::Members;
use farm_kinds::{Mode, Name, Task};

/// A problem. Its version rises with each replacement.
#[derive(Clone, Copy, Debug)]
pub struct Problem {
    pub name: Name,
    /// From 1.
    pub version: u32,
    /// How many tests it has, from 1 to 1,000.
    pub tests: u16,
    /// How far its judgings are judged.
    pub mode: Mode,
    /// Whether a judging is asked for from the start: hosts are given no task of another.
    pub asked: bool,
}

/// A judgehost, and whether it is up.
#[derive(Clone, Copy, Debug)]
pub struct Host {
    pub name: Name,
    pub up: bool,
}

/// A submission.
#[derive(Clone, Copy, Debug)]
pub struct Submission {
    /// The number of its problem.
    pub problem: u32,
    /// Whether it has no image that could run.
    pub broken: bool,
    /// The number of its current judging, whose answer counts.
    pub current: u32,
}

/// What is known of a judging beside its row.
#[derive(Clone, Copy, Debug)]
pub struct JudgingDetails {
    /// The number of its submission.
    pub submission: u32,
    /// The number of the rejudging that it belongs to.
    pub rejudging: Option<u32>,
    /// Whether someone verified it.
    pub verified: bool,
}

/// A task that a host holds until a moment.
#[derive(Clone, Copy, Debug)]
pub struct Lease {
    /// The number of the host.
    pub host: u32,
    pub task: Task,
    /// The moment at which the lease ends, in seconds.
    pub until: u64,
}

/// A submission of a rejudging.
#[derive(Clone, Copy, Debug)]
pub struct Member {
    pub submission: u32,
    /// The judging that was current when the rejudging was prepared.
    pub old: u32,
    /// The judging that the rejudging made.
    pub new: u32,
}

/// Where a rejudging stands.
#[derive(Clone, Copy, Debug, PartialEq, Eq)]
pub enum RejudgeState {
    Open,
    Applied,
    Cancelled,
}

/// A rejudging: a set of submissions that is judged anew out of sight.
#[derive(Debug, Drop)]
pub struct Rejudging {
    pub members: Members,
    pub state: RejudgeState,
}
