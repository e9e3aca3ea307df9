use farm_kinds::{Kind, Name, Numbers};

/// What the body of a request says: a variant for each list of fields that a route's body has.
///
/// Which judgings, tests and submissions there are is not looked at: every number of 32 bits is read.
#[derive(Debug, Drop)]
pub enum Body {
    /// Nothing. The route's body has no fields.
    Empty,
    /// The judgehost that comes up or goes down.
    Host {
        hostname: Name,
    },
    /// The judgehost that asks for tasks, and how many tests of one judging it takes at most, from 1 to 16.
    /// None where it asks for one task.
    Fetch {
        hostname: Name,
        max: Option<u8>,
    },
    /// The result of one test.
    Run {
        hostname: Name,
        judging: u32,
        test: u32,
        kind: Kind,
    },
    /// The task that a judgehost holds.
    Held {
        hostname: Name,
        judging: u32,
        test: u32,
    },
    /// Who acts; `jury` where the body does not say it.
    Actor {
        who: Name,
    },
    /// The submissions that are to be judged anew, and who acts; `jury` where the body does not say it.
    Rejudge {
        submissions: Numbers,
        who: Name,
    },
}
