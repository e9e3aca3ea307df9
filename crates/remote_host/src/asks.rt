use farm_kinds::{Kind, Name, Task, Text};

/// A judgehost that works over a connection.
#[derive(Debug, Drop)]
pub struct Caller {
    /// Its name.
    pub name: Name,
    /// Whether it asks again where no task is open.
    pub waits: bool,
    /// Further lines of the head of each request, each with its end.
    pub lines: Text,
}

/// What a remote host keeps of the job that it ran last.
#[derive(Debug, Drop)]
pub struct Kept {
    /// The job's judging.
    pub judging: u32,
    /// The image of the submission.
    pub image: Text,
}

/// What a remote host asks of the server, a request each.
#[derive(Clone, Copy, Debug, PartialEq, Eq)]
pub enum Ask {
    /// That the host comes up.
    Enter,
    /// For a task.
    Fetch,
    /// For the case of a task.
    Job(Task),
    /// For the case of a task without the image of the submission.
    JobRest(Task),
    /// That the result of a task is taken.
    Post(Task, Kind),
}

/// A response that is no lawful answer.
#[derive(Clone, Copy, Debug, PartialEq, Eq)]
pub enum Wrong {
    /// The bytes ended before the response did.
    Cut,
    /// The head has a fault.
    BadHead,
    /// The head says a length over the limit.
    TooLong { len: u64 },
    /// The code is none of 200, 404 and 409.
    Status { code: u16 },
    /// The body is none of the answers that the request may have.
    BadBody,
    /// The job is of another task.
    OtherTask { task: Task },
}

/// How a talk stands.
#[derive(Clone, Copy, Debug, PartialEq, Eq)]
pub enum TalkEnd {
    /// The next response is wanted.
    Wants,
    /// As many turns were made as were to be.
    Spent,
    /// No task is open.
    Idle,
    /// The host is not up.
    NoHost,
    /// The host holds as many leases as it may.
    Holding,
    /// The last response is a wrong one.
    Wronged(Wrong),
}

/// What a response to `fetch-work` says.
#[derive(Clone, Copy, Debug, PartialEq, Eq)]
pub enum Fetched {
    Task(Task),
    Nothing,
    NoHost,
    Holding,
}
