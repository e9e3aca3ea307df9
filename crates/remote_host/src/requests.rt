ghost use Rattle.std.specs.Prelude.{◌≡◌, ◌++◌, codes, length, IfOk, string_bytes};
ghost use Rattle.farm_kinds.specs.Kinds.{name_of};
ghost use Rattle.remote_host.specs.Requests.{first_lines, length_and_body, get_text, post_text, host_body, result_body, job_path, rest_path, spell};

use crate::asks::{Ask, Caller};
use farm_kinds::{Kind, Name, NoMemory, Task};
use std::alloc::{AllocError, Global};
use wire_json::name_text;

/// The first line of a request, and its field `host`.
fn first_lines(alloc: Global, method: &str, path: &str) -> Result<String, AllocError>
    ensures { IfOk result (λ text. string_bytes text ≡ first_lines method.now path.now) }
{
    format!(in alloc; "{method} {path} HTTP/1.1\r\nhost: farm\r\n")
}

/// The field `content-length`, the empty line and the body.
fn length_and_body(alloc: Global, body: &str) -> Result<String, AllocError>
    ensures { IfOk result (λ text. string_bytes text ≡ length_and_body body.now) }
{
    let len = body.len();
    format!(in alloc; "content-length: {len}\r\n\r\n{body}")
}

/// The three pieces, one behind the other.
fn joined(first: String, lines: &[u8], rest: &[u8]) -> Result<Vec<u8>, AllocError>
    ensures { IfOk result (λ text. text.items ≡ string_bytes first ++ (lines.now ++ rest.now)) }
{
    let mut text = first.into_bytes();
    text.extend_from_slice(lines)?;
    text.extend_from_slice(rest)?;
    Ok(text)
}

/// A request without a body.
fn get_text(alloc: Global, lines: &[u8], path: &str) -> Result<Vec<u8>, AllocError>
    ensures { IfOk result (λ text. text.items ≡ get_text lines.now path.now) }
{
    let first = first_lines(alloc, "GET", path)?;
    joined(first, lines, b"\r\n".as_slice())
}

/// A request with this body.
fn post_text(alloc: Global, lines: &[u8], path: &str, body: &str) -> Result<Vec<u8>, AllocError>
    ensures { IfOk result (λ text. text.items ≡ post_text lines.now path.now body.now) }
{
    let first = first_lines(alloc, "POST", path)?;
    let rest = length_and_body(alloc, body)?;
    joined(first, lines, rest.as_bytes())
}

/// The body that says a host's name.
fn host_body(alloc: Global, name: &str) -> Result<String, AllocError>
    ensures { IfOk result (λ text. string_bytes text ≡ host_body name.now) }
{
    format!(in alloc; "{{\"hostname\":\"{name}\"}}")
}

/// The body that says a result.
fn result_body(
    alloc: Global,
    name: &str,
    judging: u32,
    test: u16,
    kind: &str,
) -> Result<String, AllocError>
    ensures { IfOk result (λ text. string_bytes text ≡ result_body name.now judging test kind.now) }
{
    format!(in alloc;
        "{{\"hostname\":\"{name}\",\"judging\":{judging},\"result\":\"{kind}\",\"test\":{test}}}"
    )
}

/// The path of a task's job.
fn job_path(alloc: Global, judging: u32, test: u16) -> Result<String, AllocError>
    ensures { IfOk result (λ text. string_bytes text ≡ job_path judging test) }
{
    format!(in alloc; "/judgehosts/job/{judging}/{test}")
}

/// The path of a task's job without its image.
fn rest_path(alloc: Global, judging: u32, test: u16) -> Result<String, AllocError>
    ensures { IfOk result (λ text. string_bytes text ≡ rest_path judging test) }
{
    format!(in alloc; "/judgehosts/job/{judging}/{test}/rest")
}

/// A request whose body says the host's name.
fn named_text(alloc: Global, caller: &Caller, path: &str) -> Result<Vec<u8>, AllocError>
    ensures { IfOk result (λ text. text.items ≡ post_text caller.now.lines path.now (host_body caller.now.name)) }
{
    let body = host_body(alloc, name_text(&caller.name))?;
    post_text(alloc, caller.lines.as_slice(), path, body.as_str())
}

/// The request for a task's job.
fn job_text(alloc: Global, caller: &Caller, task: Task) -> Result<Vec<u8>, AllocError>
    ensures { IfOk result (λ text. text.items ≡ get_text caller.now.lines (job_path task.judging task.test)) }
{
    let path = job_path(alloc, task.judging, task.test)?;
    get_text(alloc, caller.lines.as_slice(), path.as_str())
}

/// The request for a task's job without its image.
fn rest_text(alloc: Global, caller: &Caller, task: Task) -> Result<Vec<u8>, AllocError>
    ensures { IfOk result (λ text. text.items ≡ get_text caller.now.lines (rest_path task.judging task.test)) }
{
    let path = rest_path(alloc, task.judging, task.test)?;
    get_text(alloc, caller.lines.as_slice(), path.as_str())
}

/// The body that says the result of a task.
fn posted_body(alloc: Global, name: &Name, task: Task, kind: Kind) -> Result<String, AllocError>
    ensures { IfOk result (λ text. string_bytes text ≡ result_body name.now task.judging task.test (name_of kind)) }
{
    result_body(alloc, name_text(name), task.judging, task.test, kind.name())
}

/// The request that a result is taken.
fn result_text(
    alloc: Global,
    caller: &Caller,
    task: Task,
    kind: Kind,
) -> Result<Vec<u8>, AllocError>
    ensures { IfOk result (λ text. text.items ≡ post_text caller.now.lines (codes "/judgehosts/add-judging-run")
        (result_body caller.now.name task.judging task.test (name_of kind))) }
{
    let body = posted_body(alloc, &caller.name, task, kind)?;
    post_text(
        alloc,
        caller.lines.as_slice(),
        "/judgehosts/add-judging-run",
        body.as_str(),
    )
}

/// The bytes of a request.
#[tactic(auto, unfolding(crate::specs::Requests::spell))]
fn ask_text(alloc: Global, caller: &Caller, ask: Ask) -> Result<Vec<u8>, AllocError>
    ensures { IfOk result (λ text. text.items ≡ spell caller.now ask) }
{
    match ask {
        Ask::Enter => named_text(alloc, caller, "/judgehosts"),
        Ask::Fetch => named_text(alloc, caller, "/judgehosts/fetch-work"),
        Ask::Job(task) => job_text(alloc, caller, task),
        Ask::JobRest(task) => rest_text(alloc, caller, task),
        Ask::Post(task, kind) => result_text(alloc, caller, task, kind),
    }
}

/// Writes a request.
pub fn write_ask(alloc: Global, caller: &Caller, ask: Ask) -> Result<Vec<u8>, NoMemory>
    ensures { IfOk result (λ text. text.items ≡ spell caller.now ask) }
{
    let text = ask_text(alloc, caller, ask)?;
    Ok(text)
}
