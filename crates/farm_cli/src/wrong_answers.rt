//! What a person is told where a server gives a wrong answer: to which request, what is wrong with it, and what was wanted.
use people::Person;
use remote_host::{Ask, Wrong};
use std::alloc::{AllocError, Global};

/// A request, by its first line.
fn request_text(alloc: Global, request: Ask) -> Result<String, AllocError> {
    match request {
        Ask::Enter => String::from_str(alloc, "POST /judgehosts"),
        Ask::Fetch => String::from_str(alloc, "POST /judgehosts/fetch-work"),
        Ask::Job(task) => {
            let judging = task.judging;
            let test = task.test;
            format!(in alloc; "GET /judgehosts/job/{judging}/{test}")
        }
        Ask::JobRest(task) => {
            let judging = task.judging;
            let test = task.test;
            format!(in alloc; "GET /judgehosts/job/{judging}/{test}/rest")
        }
        Ask::Post(task, _) => {
            let judging = task.judging;
            let test = task.test;
            format!(in alloc;
                "POST /judgehosts/add-judging-run of test {test} of judging {judging}"
            )
        }
    }
}

/// What a status says that is none of the farm's: 401 and 403 are those of a proxy that gives no leave.
fn status_text(alloc: Global, code: u16, has_login: bool) -> Result<String, AllocError> {
    let reason = match (code, has_login) {
        (401 | 403, true) => "a proxy there refuses the user or the password",
        (401 | 403, false) => "a proxy there wants a user and a password (--user, --password-file)",
        _ => "200, 404 or 409 is wanted; is 'farm serve' running there?",
    };
    format!(in alloc; "its status is {code}: {reason}")
}

/// What is wrong with an answer, and what was wanted.
fn reason_text(alloc: Global, wrong: Wrong, has_login: bool) -> Result<String, AllocError> {
    match wrong {
        Wrong::Cut => String::from_str(
            alloc,
            "the connection was closed before the whole answer came",
        ),
        Wrong::BadHead => String::from_str(
            alloc,
            "its head is not one of HTTP/1.1 with one content-length; is 'farm serve' running there?",
        ),
        Wrong::TooLong { len } => {
            format!(in alloc; "its content-length is {len}, and at most 100663296 is wanted")
        }
        Wrong::Status { code } => status_text(alloc, code, has_login),
        Wrong::BadBody => String::from_str(
            alloc,
            "its body is none that 'farm serve' writes to this request; is 'farm serve' running there?",
        ),
        Wrong::OtherTask { task } => {
            let judging = task.judging;
            let test = task.test;
            format!(in alloc;
                "the job is of test {test} of judging {judging}, which was not handed out"
            )
        }
    }
}

/// The line that a person is told.
fn answer_text(
    alloc: Global,
    address: &str,
    port: u16,
    request: Ask,
    wrong: Wrong,
    has_login: bool,
) -> Result<String, AllocError> {
    let request = request_text(alloc, request)?;
    let reason = reason_text(alloc, wrong, has_login)?;
    let request = request.as_str();
    let reason = reason.as_str();
    format!(in alloc; "a wrong answer from port {port} of {address} to {request}: {reason}")
}

/// Tells a person of the wrong answer to a request, if one came. Where no memory is left to say which it was, only that it
/// came is told.
pub(crate) fn tell_answer<P: Person>(
    alloc: Global,
    address: &str,
    port: u16,
    request: Ask,
    wrong: Option<Wrong>,
    has_login: bool,
    person: &mut P,
) {
    let Some(wrong) = wrong else {
        return;
    };
    match answer_text(alloc, address, port, request, wrong, has_login) {
        Ok(line) => person.refuses(line.as_str()),
        Err(_) => person.refuses("a wrong answer from the server"),
    }
}
