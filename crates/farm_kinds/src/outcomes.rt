use crate::few::Few;
use crate::kinds::Kind;
use crate::names::Name;
use std::alloc::AllocError;

/// No memory was left. What the call would have changed is as before.
#[derive(Clone, Copy, Debug, PartialEq, Eq)]
pub struct NoMemory;

impl From<AllocError> for NoMemory {
    fn from(_: AllocError) -> NoMemory {
        NoMemory
    }
}

/// What is known of a submission once its judging is final.
#[derive(Clone, Copy, Debug, PartialEq, Eq)]
pub enum Verdict {
    /// The kind that decides among the results of its tests.
    Tests(Kind),
    /// The submission has no image that could run (DOMjudge's compiler error).
    CompilerError,
}

/// What is reported of a judging.
#[derive(Clone, Copy, Debug, PartialEq, Eq)]
pub enum Answer {
    /// No outcome of the tests that are not judged yet can change the verdict.
    Final(Verdict),
    /// The verdict is not known yet.
    Pending,
}

/// Which judgings are judged first.
#[derive(Clone, Copy, Debug, PartialEq, Eq)]
pub enum Class {
    /// Before the others.
    High,
    /// As a submission is judged where nothing else is said.
    Normal,
    /// After the others.
    Low,
}

/// Whether judging stops once the verdict is known (DOMjudge manual, `lazy_eval_results`).
#[derive(Clone, Copy, Debug, PartialEq, Eq)]
pub enum Mode {
    /// A judging is final once its verdict can no longer change.
    Lazy,
    /// A judging is final once every test is judged.
    Full,
}

/// How the submissions of a problem are judged (DOMjudge manual, "Lazy judging").
#[derive(Clone, Copy, Debug, PartialEq, Eq)]
pub enum ProblemMode {
    /// A judging is final once its verdict can no longer change.
    Lazy,
    /// A judging is final once every test is judged.
    Full,
    /// As `Lazy`, and no task of a judging is handed out before it is asked for.
    OnDemand,
}

/// How the submissions of the problem of a name are judged.
#[derive(Clone, Copy, Debug)]
pub struct NamedMode {
    /// The problem.
    pub name: Name,
    /// How its submissions are judged.
    pub mode: ProblemMode,
}

/// One test of one judging (DOMjudge's judge task).
#[derive(Clone, Copy, Debug, PartialEq, Eq)]
pub struct Task {
    /// The judging's number, from 1.
    pub judging: u32,
    /// The test's rank, from 1.
    pub test: u16,
}

/// What becomes of a result of one test.
#[derive(Clone, Copy, Debug, PartialEq, Eq)]
pub enum Count {
    /// No judging has the number.
    NoJudging,
    /// The judging has no test of this rank.
    NoTest,
    /// The task was never handed out.
    NotHanded,
    /// The test's cell holds the kind `kept` already, which the result repeats.
    Repeat { kept: Kind },
    /// The test's cell holds the kind `kept`, which stays, and not the kind `given`.
    Differs { kept: Kind, given: Kind },
    /// The judging was dropped, and takes no more results.
    Dropped,
    /// The result counts.
    Counted,
}

/// What a host's claim of a task is answered.
#[derive(Clone, Copy, Debug, PartialEq, Eq)]
pub enum Claim {
    /// The host holds as many leases as it may.
    Holding,
    /// No task is open.
    Nothing,
    /// The host holds the task until the moment `until`, in seconds.
    Handed { task: Task, until: u64 },
}

/// What a host's fetch of tasks is answered.
#[derive(Clone, Copy, Debug)]
pub enum Fetched {
    /// The host holds as many leases as it may.
    Holding,
    /// No task is open.
    Nothing,
    /// The host holds the tests `tests` of the judging until the moment `until`, in seconds.
    Batch {
        judging: u32,
        tests: Few,
        until: u64,
    },
}

/// What becomes of the leases that a host asks to hold for longer.
#[derive(Clone, Copy, Debug, PartialEq, Eq)]
pub enum Renewed {
    /// No judging has the number.
    NoJudging,
    /// The judging has no test of this rank.
    NoTest,
    /// The host holds no lease on the task.
    NoLease,
    /// The host holds the task, and the other tasks of the judging that it holds, until the moment `until`, in seconds.
    Until { until: u64 },
}

/// What becomes of a judging that the jury asks for.
#[derive(Clone, Copy, Debug, PartialEq, Eq)]
pub enum AskEnd {
    /// No judging has the number.
    NoJudging,
    /// The judging was dropped, and takes no results.
    Dropped,
    /// It was asked for before, or from the start.
    Already,
    /// Its tasks are handed out from now on.
    Done,
}

/// How a rejudging was closed.
#[derive(Clone, Copy, Debug, PartialEq, Eq)]
pub enum How {
    /// Its judgings became the current ones.
    Applied,
    /// Its judgings were dropped.
    Cancelled,
}

/// How often an answer became another one in a rejudging.
#[derive(Clone, Copy, Debug, PartialEq, Eq)]
pub struct MatrixRow {
    /// What is reported of the member's old judging.
    pub old: Answer,
    /// What is reported of the member's new judging.
    pub new: Answer,
    /// How many members have this pair.
    pub count: u32,
}

/// The verdict of a submission, as a table of verdicts lists it.
#[derive(Clone, Copy, Debug)]
pub struct TableRow {
    /// The number of the submission.
    pub number: u32,
    /// The team that submitted it.
    pub team: Name,
    /// The problem that it was submitted to.
    pub problem: Name,
    /// What is known of it.
    pub verdict: Verdict,
}
