ghost use Rattle.std.specs.Prelude.{◌≡◌};
ghost use Rattle.farm_kinds.specs.Actors.{jury_actor};

use crate::few::Few;
use crate::kinds::Kind;
use crate::lists::{Answers, MatrixRows, Numbers};
use crate::names::Name;
use crate::outcomes::{Answer, Class, How, Task};

/// What a line, a host or a request asks of the farm.
#[derive(Debug, Drop)]
pub enum Event {
    /// Someone adds a problem with `tests` tests.
    Problem {
        who: Name,
        name: Name,
        tests: u32,
    },
    /// Someone gives a problem `tests` tests, in a version of its own. Judgings that are there keep their
    /// cells.
    Replace {
        who: Name,
        name: Name,
        tests: u32,
    },
    /// A judgehost comes up, for the first time or again.
    Host {
        name: Name,
    },
    /// A submission to a problem. It is broken where it has no image that could run.
    Submit {
        problem: Name,
        class: Class,
        broken: bool,
    },
    /// A host asks for a task.
    Claim {
        host: Name,
    },
    /// A host asks for at most `most` tasks of one judging, from 1 to 16. A number below 1 counts as 1, and one
    /// over 16 as 16.
    Fetch {
        host: Name,
        most: u8,
    },
    /// A host's result of a task that was handed out.
    Result {
        host: Name,
        judging: u32,
        test: u32,
        kind: Kind,
    },
    /// A result from outside.
    Entry {
        judging: u32,
        test: u32,
        kind: Kind,
    },
    /// A host asks to hold the task, and the other tasks of its judging that it holds, for longer.
    Renew {
        host: Name,
        judging: u32,
        test: u32,
    },
    /// Time goes on to `moment`, in seconds.
    Tick {
        moment: u64,
    },
    /// A host goes down, and its leases end.
    Down {
        host: Name,
    },
    /// What the jury sees of a judging.
    Show {
        judging: u32,
    },
    /// Which submission a judging is of.
    Owner {
        judging: u32,
    },
    /// What the public sees of each submission.
    Board,
    /// Someone has submissions judged anew, out of the public's sight.
    Rejudge {
        who: Name,
        list: Numbers,
    },
    /// How the verdicts of a rejudging differ from the old ones.
    Matrix {
        rejudging: u32,
    },
    /// Someone makes all judgings of a rejudging the current ones.
    Apply {
        who: Name,
        rejudging: u32,
    },
    /// Someone gives a rejudging up.
    Cancel {
        who: Name,
        rejudging: u32,
    },
    /// Someone lets the public see a judging.
    Verify {
        who: Name,
        judging: u32,
    },
    /// Someone asks for a judging: hosts are given its tasks from then on.
    Ask {
        who: Name,
        judging: u32,
    },
    /// How many entries the audit log has, and its last digest.
    Audit,
}

impl Event {
    /// Who acts, where the event is the jury's. The jury's events are entered in the audit log where they are
    /// accepted, and no others.
    pub fn jury_actor(&self) -> Option<Name>
        ensures { result ≡ jury_actor self.now }
    {
        match self {
            Event::Problem { who, .. } | Event::Replace { who, .. } => Some(*who),
            Event::Rejudge { who, .. } | Event::Verify { who, .. } => Some(*who),
            Event::Apply { who, .. } | Event::Cancel { who, .. } | Event::Ask { who, .. } => {
                Some(*who)
            }
            Event::Host { .. } | Event::Submit { .. } | Event::Claim { .. } => None,
            Event::Fetch { .. } | Event::Result { .. } | Event::Entry { .. } => None,
            Event::Renew { .. } | Event::Tick { .. } | Event::Down { .. } => None,
            Event::Show { .. } | Event::Owner { .. } | Event::Board => None,
            Event::Matrix { .. } | Event::Audit => None,
        }
    }
}

/// What an event is answered.
#[derive(Debug, Drop)]
pub enum Reply {
    /// The problem is known, in the version `version`.
    Problem {
        name: Name,
        version: u32,
    },
    /// The host is up.
    Host {
        name: Name,
    },
    /// The submission has the number `submission`, and its judging the number `judging`.
    Submitted {
        submission: u32,
        judging: u32,
    },
    /// The host holds the task until the moment `until`, in seconds.
    Handed {
        task: Task,
        until: u64,
    },
    /// The host holds the tests `tests` of the judging until the moment `until`, in seconds.
    Batch {
        judging: u32,
        tests: Few,
        until: u64,
    },
    /// No task is open.
    Nothing,
    /// The result counts.
    Counted,
    /// The cell holds the kind `kept` already, which was given again.
    Repeat {
        kept: Kind,
    },
    /// The cell holds the kind `kept`, which stays, and not the kind `given`.
    Differs {
        kept: Kind,
        given: Kind,
    },
    /// The judging was dropped, and takes no more results.
    Dropped,
    /// The host holds the task, and the other tasks of its judging that it holds, until the moment `until`, in seconds.
    Until {
        until: u64,
    },
    /// `count` leases ended.
    Ended {
        count: u32,
    },
    /// What is reported of the judging.
    Shown(Answer),
    /// The judging is of the submission `submission`.
    Owned {
        submission: u32,
    },
    /// What the public sees of each submission, from the first on.
    Board {
        rows: Answers,
    },
    /// The rejudging has the number `number`, and its judgings are numbered from `first` to `last`.
    Rejudging {
        number: u32,
        first: u32,
        last: u32,
    },
    /// How often an old answer became a new one, and how many members the rejudging has.
    Matrix {
        rows: MatrixRows,
        members: u32,
    },
    /// The new judgings of the rejudging's `members` members are the current ones now.
    Applied {
        members: u32,
    },
    /// The new judgings of the rejudging's `members` members were dropped.
    Cancelled {
        members: u32,
    },
    /// The judging is verified.
    Verified {
        judging: u32,
    },
    /// The audit log has `count` entries, and `head` is its last digest.
    Audit {
        count: u32,
        head: [u8; 32],
    },
    /// A problem has from 1 to 1,000 tests, and not `tests`.
    BadTests {
        tests: u32,
    },
    /// The problem's name is known, or the host is up already.
    Known {
        name: Name,
    },
    /// No problem has the name.
    NoProblem {
        name: Name,
    },
    /// No host that is up has the name.
    NoHost {
        name: Name,
    },
    /// There may be no more than `limit` of what would be added.
    Full {
        limit: u32,
    },
    /// The host holds as many leases as it may: `limit`.
    Holding {
        limit: u32,
    },
    /// No judging has the number.
    NoJudging {
        judging: u32,
    },
    /// The judging has no test of the rank `test`.
    NoTest {
        test: u32,
    },
    /// The task was never handed out.
    NotHanded,
    /// The host holds no lease on the task.
    NoLease,
    /// A rejudging has at least one submission.
    EmptySet,
    /// No submission has the number.
    NoSubmission {
        submission: u32,
    },
    /// The submission stands in the list more than once.
    Twice {
        submission: u32,
    },
    /// The current judging of the submission of this number is not final, or the judging of this number.
    NotFinal {
        number: u32,
    },
    /// The submission is in the rejudging `rejudging`, which is open.
    Busy {
        submission: u32,
        rejudging: u32,
    },
    /// No rejudging has the number.
    NoRejudging {
        rejudging: u32,
    },
    /// The rejudging is closed: `how` says in which way.
    Closed {
        how: How,
    },
    /// The judging `judging` of the rejudging is not final.
    Unfinished {
        judging: u32,
    },
    /// The judging is verified already, or it was asked for already.
    Already {
        judging: u32,
    },
    /// No memory was left, and the event changed nothing.
    NoMemory,
}

/// Why a line gives no event.
#[derive(Clone, Copy, Debug, PartialEq, Eq)]
pub enum LineFault {
    /// The line is none of the grammar's.
    BadLine,
    /// No memory was left for what the line says.
    NoMemory,
}
