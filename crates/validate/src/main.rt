//! `validate INPUT ANSWER FEEDBACK_FOLDER [FLAGS ..]`: the default output validator of the Kattis problem package
//! format (legacy), section "Default Output Validator Specification", with the interface that section "Output
//! Validators" gives every validator.
//!
//! The team's output is read from standard input. The status is 42 where it is accepted and 43 where it is not; any
//! other status is a judge's error, with a line on standard error. Why an output is not accepted stands in
//! `judgemessage.txt` in the feedback folder.
#![tactic(auto)]

mod judgement;
mod message;
mod words;

use crate::judgement::{Judgement, judge};
use crate::message::{error_text, reason};
use crate::words::{Asked, Command, read_words};
use default_validator::Flags;
use people::Plain;
use std::io::{Read, Write};
use std::process::ExitCode;
use std::{env, fs, io};

fn main(rt: HostRuntime) -> ExitCode {
    match run(&rt) {
        Ok(status) => ExitCode::from(status),
        Err(error) => {
            let _ = eprintln!(rt; "validate: {error}");
            ExitCode::from(1)
        }
    }
}

/// Judges the output that the words ask for, and gives the status.
fn run(rt: &HostRuntime) -> io::Result<u8> {
    let words = env::args(rt)?.collect::<Vec<String>>(rt.alloc())?;
    match read_words(rt.alloc(), words.as_slice())? {
        Asked::Judgement(command) => judge_command(rt, &command),
        Asked::Help(text) => {
            io::writer(rt).write_all(text.as_bytes())?;
            Ok(0)
        }
        Asked::Wrong(text) => {
            rt.eprint(text.as_str())?;
            Ok(2)
        }
    }
}

/// Judges an output, says why it is not accepted, and gives the status.
fn judge_command(rt: &HostRuntime, command: &Command<'_>) -> io::Result<u8> {
    let flags = command.flags.join(rt.alloc(), " ")?;
    let answer = match fs::read(rt, command.answer) {
        Ok(answer) => answer,
        Err(error) => {
            let path = Plain(command.answer);
            eprintln!(rt; "validate: cannot read the answer {path}: {error}")?;
            return Ok(1);
        }
    };
    let mut output = Vec::new(rt.alloc());
    rt.reader().read_to_end(&mut output)?;
    let judgement = judge(flags.as_bytes(), answer.as_slice(), output.as_slice());
    tell(
        rt,
        command,
        judgement,
        flags.as_bytes(),
        answer.as_slice(),
        output.as_slice(),
    )?;
    Ok(judgement.status())
}

/// Says why an output is not accepted, or why nothing could be judged.
fn tell(
    rt: &HostRuntime,
    command: &Command<'_>,
    judgement: Judgement,
    flags: &[u8],
    answer: &[u8],
    output: &[u8],
) -> io::Result<()> {
    if let Some(text) = error_text(rt.alloc(), judgement, command.answer)? {
        let text = Plain(text.as_str());
        return eprintln!(rt; "validate: {text}");
    }
    let (Judgement::Rejected, Ok(flags)) = (judgement, Flags::read(flags)) else {
        return Ok(());
    };
    let text = reason(rt.alloc(), &flags, answer, output)?;
    let folder = command.feedback;
    let path = format!(in rt.alloc(); "{folder}/judgemessage.txt")?;
    if let Err(error) = fs::write(rt, path.as_str(), text.as_slice()) {
        let path = Plain(path.as_str());
        eprintln!(rt; "validate: cannot write {path}: {error}")?;
    }
    Ok(())
}
