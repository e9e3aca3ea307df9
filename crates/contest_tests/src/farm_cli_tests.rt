use crate::calling::end_with;
use crate::rejudging_rows::REJUDGINGS;
use crate::script_rows::SCRIPTS;
use exit_status::Exit;
use farm_io::{
    MemoryLink, MemorySink, MemorySource, ReliableDoor, ReliableSink, ReliableSource, Sink, Source,
};
use farm_kinds::NoMemory;
use farm_tree::{MemoryTree, ReliableTree, Tree, TreeFiles};
use judgehost::{AlwaysOn, Gate};
use record_store::MemoryDisk;
use std::alloc::{AllocError, Global};
use std::process::Abort;
use std::sync::Wait;
use std::test::Fail;
use std::thread::Threads;

/// How many bytes a sink of these tests holds.
const ROOM: usize = 4_194_304;

const SMALLEST: &[u8] = b"problem A 2\nsubmit A\nrecord 1 1 correct\nshow 1\n";

/// The words of a command line, with one space between two of them.
pub(crate) fn words_of(alloc: Global, line: &str) -> Result<Vec<String>, AllocError> {
    let mut words = Vec::new(alloc);
    if line.is_empty() {
        return Ok(words);
    }
    for word in line.split(' ') {
        words.push(String::from_str(alloc, word)?)?;
    }
    Ok(words)
}

/// The bytes that a part of a row writes.
pub(crate) fn bytes_of(alloc: Global, text: &str) -> Result<Vec<u8>, AllocError> {
    let text = text.replace(alloc, '~', "\n")?;
    Ok(text.replace(alloc, '^', "\r")?.into_bytes())
}

/// A tree of this one file.
pub(crate) fn tree_of(alloc: Global, path: &str, text: &[u8]) -> Result<ReliableTree, NoMemory> {
    let mut tree = ReliableTree::new(alloc, TreeFiles::new(alloc));
    if path.len() <= 4096 {
        tree.add(path, text)?;
    }
    Ok(tree)
}

/// How a command line ends, where no connection is to come.
pub(crate) fn end_of<T: Tree, S: Source, K: Sink, G: Gate + Sync>(
    rt: &(impl Threads + Wait + Sync),
    alloc: Global,
    line: &str,
    tree: &mut T,
    input: &mut S,
    out: &mut K,
    gate: &G,
) -> Result<Exit, AllocError> {
    let mut disk = MemoryDisk::new(alloc, Vec::new(alloc), Vec::new(alloc))?;
    end_on(rt, alloc, line, tree, input, out, gate, &mut disk)
}

/// How a command line ends on this disk, where no connection is to come.
pub(crate) fn end_on<T: Tree, S: Source, K: Sink, G: Gate + Sync>(
    rt: &(impl Threads + Wait + Sync),
    alloc: Global,
    line: &str,
    tree: &mut T,
    input: &mut S,
    out: &mut K,
    gate: &G,
    disk: &mut MemoryDisk,
) -> Result<Exit, AllocError> {
    let words = words_of(alloc, line)?;
    let mut door = ReliableDoor::new(alloc, Vec::new(alloc))?;
    let mut link = MemoryLink::new(alloc, Vec::new(alloc), Vec::new(alloc))?;
    Ok(end_with(
        rt,
        alloc,
        words.as_slice(),
        tree,
        input,
        out,
        &mut door,
        gate,
        &mut link,
        disk,
    ))
}

/// What a command line writes for the input, where nothing fails, and how it ends.
fn run(
    rt: &(impl Threads + Wait + Sync),
    alloc: Global,
    line: &str,
    tree: &mut ReliableTree,
    input: &[u8],
) -> Result<(Exit, ReliableSink), NoMemory> {
    let mut source = ReliableSource::new(input.to_vec(alloc)?);
    let mut sink = ReliableSink::new(Vec::with_capacity(alloc, ROOM)?);
    let exit = end_of(rt, alloc, line, tree, &mut source, &mut sink, &AlwaysOn)?;
    Ok((exit, sink))
}

/// What `farm script` writes for the input, and how it ends; by the settings of this text unless it is empty.
fn script(
    rt: &(impl Threads + Wait + Sync),
    alloc: Global,
    settings: &[u8],
    input: &[u8],
) -> Result<(Exit, ReliableSink), NoMemory> {
    let line = if settings.is_empty() {
        "farm script"
    } else {
        "farm script --config farm.json"
    };
    let mut tree = tree_of(alloc, "farm.json", settings)?;
    run(rt, alloc, line, &mut tree, input)
}

/// Compares how a command line ended with how it is to end, and what it wrote with a text.
pub(crate) fn check_ended(
    rt: &impl Abort,
    exit: Exit,
    wanted: Exit,
    written: &[u8],
    text: &[u8],
    name: &str,
) {
    assert_eq!(rt; (exit, written), (wanted, text), "{name}");
}

/// Compares what `farm script` writes for the input.
fn check_script(
    rt: &(impl Threads + Wait + Sync + Abort),
    alloc: Global,
    name: &str,
    settings: &[u8],
    input: &[u8],
    output: &[u8],
) -> Result<(), Fail> {
    let (exit, out) = script(rt, alloc, settings, input)?;
    check_ended(rt, exit, Exit::Done, out.bytes(), output, name);
    Ok(())
}

/// Compares what is written for the script of a row.
fn check_row(
    rt: &(impl Threads + Wait + Sync + Abort),
    alloc: Global,
    row: &str,
) -> Result<(), Fail> {
    let (given, output) = row.split_once(" => ").unwrap_or((row, ""));
    let (name, given) = given.split_once('|').unwrap_or((given, ""));
    let (settings, input) = given.split_once('|').unwrap_or((given, ""));
    let input = bytes_of(alloc, input)?;
    let output = bytes_of(alloc, output)?;
    check_script(
        rt,
        alloc,
        name,
        settings.as_bytes(),
        input.as_slice(),
        output.as_slice(),
    )
}

#[test]
fn scripts(rt: HostRuntime) -> Result<(), Fail> {
    for row in SCRIPTS.lines() {
        check_row(&rt, rt.alloc(), row)?;
    }
    Ok(())
}

#[test]
fn rejudgings(rt: HostRuntime) -> Result<(), Fail> {
    for row in REJUDGINGS.lines() {
        check_row(&rt, rt.alloc(), row)?;
    }
    Ok(())
}

/// Comments, returns and bytes that are no text.
const BYTES: &[u8] =
    b"# first\r\n\r\n  \n problem  A 1 \r\n#submit A\nsubmit A\0\n\xff\xfe\nsubmit A";

#[test]
fn comments_returns_and_bytes_that_are_no_text(rt: HostRuntime) -> Result<(), Fail> {
    let output = b"problem A version 1\nbad-line\nbad-line\nsubmission 1 judging 1\n";
    check_script(&rt, rt.alloc(), "bytes", b"", BYTES, output)
}

/// Scripts with a line that comes many times, with the number of the time in place of `#`, a line each: the name, the
/// first and the last number, the head, the repeated line and the tail, and behind `=>` what is written for the three.
const LIMITS: &str = concat!(
    "the_65th_lease|1|64|problem A 70~host h~submit A~|claim h~|claim h~result h 1 3 correct~claim h~claim h~",
    " => problem A version 1~host h~submission 1 judging 1~|task 1 # until 60~|holding 64~counted~task 1 65 until 60~holding 64~\n",
    "a_thousand_hosts_and_the_next|1|1000||host h#~|host h1001~host h7~down h7~host h1001~host h7~",
    " => |host h#~|full 1000~known h7~ended 0~full 1000~host h7~\n",
    "a_thousand_problems_and_the_next|1|1000||problem p# 1~|problem p1001 1~problem p7 1~",
    " => |problem p# version 1~|full 1000~known p7~\n",
    "a_thousand_versions_and_the_next|2|1000|problem A 1~|replace A 2~|replace A 2~",
    " => problem A version 1~|problem A version #~|full 1000~\n",
    "a_hundred_thousand_submissions_and_the_next|1|100000|problem A 1~|submit A~|submit A~",
    " => problem A version 1~|submission # judging #~|full 100000~\n",
);

/// Appends a line with this number in place of `#`.
fn push_numbered(
    alloc: Global,
    text: &mut String,
    line: &str,
    number: u32,
) -> Result<(), AllocError> {
    let number = format!(in alloc; "{number}")?;
    text.push_str(line.replace(alloc, '#', number.as_str())?.as_str())
}

/// Appends a line with each of these numbers.
fn push_repeated(
    alloc: Global,
    text: &mut String,
    line: &str,
    from: u32,
    to: u32,
) -> Result<(), AllocError> {
    for number in from..=to {
        push_numbered(alloc, text, line, number)?;
    }
    Ok(())
}

/// The text of a head, a line that comes with each of these numbers, and a tail, which stand with `|` between them.
fn repeated(alloc: Global, parts: &str, from: u32, to: u32) -> Result<Vec<u8>, AllocError> {
    let (head, parts) = parts.split_once('|').unwrap_or((parts, ""));
    let (line, tail) = parts.split_once('|').unwrap_or((parts, ""));
    let mut text = String::from_str(alloc, head)?;
    push_repeated(alloc, &mut text, line, from, to)?;
    text.push_str(tail)?;
    bytes_of(alloc, text.as_str())
}

/// Compares what is written for the script of a row of repeated lines.
fn check_limit(
    rt: &(impl Threads + Wait + Sync + Abort),
    alloc: Global,
    row: &str,
) -> Result<(), Fail> {
    let (given, output) = row.split_once(" => ").unwrap_or((row, ""));
    let (name, given) = given.split_once('|').unwrap_or((given, ""));
    let (from, given) = given.split_once('|').unwrap_or((given, ""));
    let (to, input) = given.split_once('|').unwrap_or((given, ""));
    let from = from.parse::<u32>().unwrap_or(0);
    let to = to.parse::<u32>().unwrap_or(0);
    let input = repeated(alloc, input, from, to)?;
    let output = repeated(alloc, output, from, to)?;
    check_script(rt, alloc, name, b"", input.as_slice(), output.as_slice())
}

#[test]
fn limits(rt: HostRuntime) -> Result<(), Fail> {
    for row in LIMITS.lines() {
        check_limit(&rt, rt.alloc(), row)?;
    }
    Ok(())
}

/// The line that rejudges the submissions from 1 to the last one.
fn rejudge_to(alloc: Global, last: u32) -> Result<Vec<u8>, AllocError> {
    let mut line = String::from_str(alloc, "rejudge 1")?;
    push_repeated(alloc, &mut line, ",#", 2, last)?;
    line.push_str("\n")?;
    Ok(line.into_bytes())
}

/// Broken submissions, which are final at once.
fn broken_submissions(alloc: Global, count: u32) -> Result<Vec<u8>, AllocError> {
    repeated(alloc, "problem A 1~|submit A broken~|", 1, count)
}

/// A line holds 999 submissions, whose verdicts change together.
fn many_members(alloc: Global) -> Result<Vec<u8>, AllocError> {
    let mut input = broken_submissions(alloc, 999)?;
    input.extend_from_slice(rejudge_to(alloc, 999)?.as_slice())?;
    input.extend_from_slice(b"matrix 1\napply 1\n")?;
    Ok(input)
}

fn many_rejudgings(alloc: Global) -> Result<Vec<u8>, AllocError> {
    let parts = "problem A 1~submit A broken~|rejudge 1~apply #~|rejudge 1,1~rejudge 2~";
    repeated(alloc, parts, 1, 10_000)
}

/// Appends 300 rejudgings of 999 submissions, each of which is cancelled.
fn push_cancelled(alloc: Global, input: &mut Vec<u8>) -> Result<(), AllocError> {
    let many = rejudge_to(alloc, 999)?;
    for number in 1..301 {
        input.extend_from_slice(many.as_slice())?;
        input.extend_from_slice(format!(in alloc; "cancel {number}\n")?.as_bytes())?;
    }
    Ok(())
}

/// 99,999 judgings of submissions, and 300 times 999 of rejudgings that are cancelled, leave room for 301.
fn many_judgings(alloc: Global) -> Result<Vec<u8>, AllocError> {
    let mut input = broken_submissions(alloc, 99_999)?;
    push_cancelled(alloc, &mut input)?;
    input.extend_from_slice(rejudge_to(alloc, 302)?.as_slice())?;
    input.extend_from_slice(rejudge_to(alloc, 301)?.as_slice())?;
    input.extend_from_slice(b"rejudge 302\nsubmit A\n")?;
    Ok(input)
}

/// Checks that a text is the back of what is written.
fn check_back(rt: &impl Abort, written: &[u8], back: &[u8], name: &str) {
    assert!(rt; written.ends_with(back), "{name}");
}

/// Compares the end of what is written for a script.
fn check_end(
    rt: &(impl Threads + Wait + Sync + Abort),
    alloc: Global,
    name: &str,
    input: Vec<u8>,
    end: &[u8],
) -> Result<(), Fail> {
    let (_, out) = script(rt, alloc, b"", input.as_slice())?;
    check_back(rt, out.bytes(), end, name);
    Ok(())
}

#[test]
fn limits_of_rejudgings(rt: HostRuntime) -> Result<(), Fail> {
    let alloc = rt.alloc();
    let name = "a_rejudging_of_999_submissions";
    let end =
        b"rejudging 1 judgings 1000 to 1998\ncompiler-error compiler-error 999\nmatrix 999\napplied 999\n";
    check_end(&rt, alloc, name, many_members(alloc)?, end)?;
    let name = "ten_thousand_rejudgings_and_the_next";
    let end = b"rejudging 10000 judgings 10001 to 10001\napplied 1\nfull 10000\nno-submission 2\n";
    check_end(&rt, alloc, name, many_rejudgings(alloc)?, end)?;
    let name = "four_hundred_thousand_judgings_and_the_next";
    let end =
        b"cancelled 999\nfull 400000\nrejudging 301 judgings 399700 to 400000\nfull 400000\nfull 400000\n";
    check_end(&rt, alloc, name, many_judgings(alloc)?, end)
}

#[test]
fn a_line_of_4097_letters_is_too_long(rt: HostRuntime) -> Result<(), Fail> {
    let mut input = vec![in rt.alloc(); b'a'; 4097]?;
    input.extend_from_slice(b"\nshow 1")?;
    let output = b"too-long 4097\nno-judging 1\n";
    check_script(&rt, rt.alloc(), "letters", b"", input.as_slice(), output)
}

/// How a command line ends where the tree has this file, and what it writes.
fn run_with_file(
    rt: &(impl Threads + Wait + Sync),
    alloc: Global,
    line: &str,
    path: &str,
    text: &[u8],
) -> Result<(Exit, ReliableSink), NoMemory> {
    let mut tree = tree_of(alloc, path, text)?;
    run(rt, alloc, line, &mut tree, SMALLEST)
}

/// Command lines that are no command, with one space between two words.
const NO_COMMANDS: &str = concat!(
    "\n",
    "farm\n",
    "script\n",
    "farm serve\n",
    "farm serve f --port=0 --lanes=0 --connections=1\n",
    "farm judge f --hosts=17\n",
    "farm make 1 51 1\n",
    "farm Script\n",
    "farm judge c\n",
    "farm script more\n",
    "farm script \n",
    "farm script --config\n",
    "farm script --config=\n",
    "farm script --config=-f\n",
    "farm script --config \n",
    "farm script --config -\n",
    "farm script --Config f\n",
    "farm script --config f more\n",
    "farm --config f script\n",
    "farm script --config=f --config=f\n",
);

/// Compares how a command line ends that is no command, and that it writes nothing.
fn check_no_command(
    rt: &(impl Threads + Wait + Sync + Abort),
    alloc: Global,
    line: &str,
) -> Result<(), Fail> {
    let (exit, out) = run_with_file(rt, alloc, line, "f", b"{}")?;
    check_ended(rt, exit, Exit::Usage, out.bytes(), b"", line);
    Ok(())
}

#[test]
fn other_words_are_no_command(rt: HostRuntime) -> Result<(), Fail> {
    for line in NO_COMMANDS.lines() {
        check_no_command(&rt, rt.alloc(), line)?;
    }
    Ok(())
}

/// Each fault of a file of settings: its text, and the line that tells the fault.
const BAD_SETTINGS: &str = concat!(
    " => not json\n",
    "[] => not json\n",
    "\u{feff}{} => not json\n",
    "{\"lease\":60 => not json\n",
    "{\"leases\":60} => unknown key leases\n",
    "{\"a\\tb\x7f\":60} => unknown key a?b?\n",
    "{\"results_prio\":{\"fine\":1}} => unknown key fine\n",
    "{\"lease\":0} => bad value lease\n",
    "{\"lease\":60,\"lease\":null} => bad value lease\n",
    "{\"instructions_per_second\":999} => bad value instructions_per_second\n",
    "{\"verification_required\":\"yes\"} => bad value verification_required\n",
    "{\"results_prio\":[]} => bad value results_prio\n",
    "{\"results_remap\":1} => bad value results_remap\n",
    "{\"results_remap\":{\"fine\":\"correct\"}} => unknown key fine\n",
    "{\"lease\":-0} => bad value lease\n",
    "{\"lazy_eval_results\":1} => bad value lazy_eval_results\n",
    "{\"results_prio\":{\"correct\":1000}} => bad value correct\n",
    "{\"results_remap\":{\"correct\":\"fine\"}} => bad value correct\n",
);

/// Compares the status of an end.
fn check_status(rt: &impl Abort, exit: Exit, status: u8) {
    assert_eq!(rt; exit.status(), status);
}

/// Compares how a command line ends where the tree has this file, and the fault that it tells.
fn check_refused(
    rt: &(impl Threads + Wait + Sync + Abort),
    alloc: Global,
    line: &str,
    path: &str,
    text: &[u8],
    fault: &str,
) -> Result<(), Fail> {
    let told = format!(in alloc; "bad contest: {fault}\n")?;
    let (exit, out) = run_with_file(rt, alloc, line, path, text)?;
    check_ended(
        rt,
        exit,
        Exit::BadContest,
        out.bytes(),
        told.as_bytes(),
        fault,
    );
    check_status(rt, exit, 3);
    Ok(())
}

/// Compares how `farm script` ends where `farm.json` has these settings, and the fault that it tells.
fn check_settings(
    rt: &(impl Threads + Wait + Sync + Abort),
    alloc: Global,
    settings: &[u8],
    fault: &str,
) -> Result<(), Fail> {
    let fault = format!(in alloc; "farm.json: {fault}")?;
    let line = "farm script --config farm.json";
    check_refused(rt, alloc, line, "farm.json", settings, fault.as_str())
}

#[test]
fn bad_settings_are_named(rt: HostRuntime) -> Result<(), Fail> {
    for row in BAD_SETTINGS.lines() {
        let (settings, fault) = row.split_once(" => ").unwrap_or((row, ""));
        check_settings(&rt, rt.alloc(), settings.as_bytes(), fault)?;
    }
    Ok(())
}

/// Settings with `levels` levels in an object.
fn nested(alloc: Global, levels: usize) -> Result<Vec<u8>, AllocError> {
    let mut settings = b"{\"lease\":".to_vec(alloc)?;
    settings.extend_from_slice(vec![in alloc; b'['; levels]?.as_slice())?;
    settings.extend_from_slice(vec![in alloc; b']'; levels]?.as_slice())?;
    settings.push(b'}')?;
    Ok(settings)
}

/// A text nested 127 levels deep is JSON, and one level more is none.
#[test]
fn nesting_of_127_and_128_levels(rt: HostRuntime) -> Result<(), Fail> {
    let alloc = rt.alloc();
    check_settings(
        &rt,
        alloc,
        nested(alloc, 126)?.as_slice(),
        "bad value lease",
    )?;
    check_settings(&rt, alloc, nested(alloc, 127)?.as_slice(), "not json")
}

#[test]
fn a_file_that_is_not_there_or_too_large(rt: HostRuntime) -> Result<(), Fail> {
    let alloc = rt.alloc();
    let line = "farm script --config=a\nb.json";
    check_refused(&rt, alloc, line, "b.json", b"{}", "no config")?;
    let large = vec![in alloc; b' '; 16_777_217]?;
    let line = "farm script --config a\nb.json";
    let fault = "too large a?b.json";
    check_refused(&rt, alloc, line, "a\nb.json", large.as_slice(), fault)
}

/// Objects whose calls of these numbers fail, a line each: the name, the calls of the input, of the output and of the tree
/// with one space between them, or `-` where none fails, the words of the command line, and behind `=>` how the program
/// ends, its status, and what it writes.
const FAULTS: &str = concat!(
    "a_source_that_fails_in_mid_line|1 - 0|farm script => ReadFault 4|problem A version 1~\n",
    "a_sink_whose_first_put_fails|- 0 0|farm script => WriteFault 5|\n",
    "a_tree_that_fails|- - 0|farm script --config farm.json => TreeFault 7|\n",
    "bad_settings_and_a_sink_that_fails|- 0 -|farm script --config none.json => WriteFault 5|\n",
);

/// The list of this call, where it is one.
fn failing(alloc: Global, call: &str) -> Result<Vec<u64>, AllocError> {
    match call.parse::<u64>() {
        Ok(call) => [call].to_vec(alloc),
        Err(_) => Ok(Vec::new(alloc)),
    }
}

/// A tree with a file of settings, whose call of this number fails.
fn failing_tree(alloc: Global, call: &str) -> Result<MemoryTree, NoMemory> {
    let calls = failing(alloc, call)?;
    let mut tree = MemoryTree::new(alloc, TreeFiles::new(alloc), calls);
    tree.add("farm.json", b"{}")?;
    Ok(tree)
}

/// A source of a script that is cut, whose call of this number fails.
fn failing_source(alloc: Global, call: &str) -> Result<MemorySource, AllocError> {
    let calls = failing(alloc, call)?;
    Ok(MemorySource::new(b"problem A 2\nsub".to_vec(alloc)?, calls))
}

/// A sink whose call of this number fails.
fn failing_sink(alloc: Global, call: &str) -> Result<MemorySink, AllocError> {
    let calls = failing(alloc, call)?;
    Ok(MemorySink::new(Vec::with_capacity(alloc, ROOM)?, calls))
}

/// How a command line ends where these calls of the input, the output and the tree fail, and what it writes.
fn run_failing(
    rt: &(impl Threads + Wait + Sync),
    alloc: Global,
    line: &str,
    calls: &str,
) -> Result<(Exit, MemorySink), NoMemory> {
    let (input, calls) = calls.split_once(' ').unwrap_or((calls, ""));
    let (output, tree) = calls.split_once(' ').unwrap_or((calls, ""));
    let mut source = failing_source(alloc, input)?;
    let mut sink = failing_sink(alloc, output)?;
    let mut tree = failing_tree(alloc, tree)?;
    let exit = end_of(
        rt,
        alloc,
        line,
        &mut tree,
        &mut source,
        &mut sink,
        &AlwaysOn,
    )?;
    Ok((exit, sink))
}

/// Compares what was written.
fn check_written(rt: &impl Abort, written: &[u8], text: &[u8], name: &str) {
    assert_eq!(rt; written, text, "{name}");
}

/// Compares how the command line of a row ends, and what it writes.
fn check_fault(
    rt: &(impl Threads + Wait + Sync + Abort),
    alloc: Global,
    row: &str,
) -> Result<(), Fail> {
    let (given, expected) = row.split_once(" => ").unwrap_or((row, ""));
    let (name, given) = given.split_once('|').unwrap_or((given, ""));
    let (calls, line) = given.split_once('|').unwrap_or((given, ""));
    let (end, output) = expected.split_once('|').unwrap_or((expected, ""));
    let output = bytes_of(alloc, output)?;
    let (exit, sink) = run_failing(rt, alloc, line, calls)?;
    let ended = format!(in alloc; "{exit:?} {}", exit.status())?;
    assert_eq!(rt; ended.as_str(), end, "{name}");
    check_written(rt, sink.bytes(), output.as_slice(), name);
    Ok(())
}

#[test]
fn faults(rt: HostRuntime) -> Result<(), Fail> {
    for row in FAULTS.lines() {
        check_fault(&rt, rt.alloc(), row)?;
    }
    Ok(())
}
