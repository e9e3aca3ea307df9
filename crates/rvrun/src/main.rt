//! `rvrun [OPTIONS] IMAGE`: runs an RV32IM program on the metered machine, within limits, as `farm judge` does.
//!
//! Standard input is the program's descriptor 0, and what the program writes to descriptor 1 goes to standard output. A
//! line on standard error says how the run ended, its cost, its pages, and how long loading and running took, in
//! nanoseconds. With a judge's answer another line says the verdict.
#![tactic(auto)]

ghost use Rattle.std.specs.Prelude.{◌≡◌, true};
ghost use Rattle.case_run.specs.Images.{is_image};

mod checking;
mod report;
mod words;

use crate::checking::judge;
use crate::report::{Report, run_to_end};
use crate::words::{Asked, Run, read_words};
use case_run::open;
use farm_kinds::Limits;
use people::Plain;
use program_notes::{ProgramFault, program_fault, program_fault_text};
use rv_machine::{Ending, Files, Machine, Trap};
use std::alloc::{AllocError, Global};
use std::io::{Read, Write};
use std::process::ExitCode;
use std::time::Instant;
use std::{env, fs, io};

fn main(rt: HostRuntime) -> ExitCode {
    match run(&rt) {
        Ok(status) => ExitCode::from(status),
        Err(error) => {
            let _ = eprintln!(rt; "rvrun: {error}");
            ExitCode::from(1)
        }
    }
}

/// Runs the image that the words name, and gives the status.
fn run(rt: &HostRuntime) -> io::Result<u8> {
    let words = env::args(rt)?.collect::<Vec<String>>(rt.alloc())?;
    match read_words(rt.alloc(), words.as_slice())? {
        Asked::Run(command) => run_command(rt, &command),
        Asked::Help(text) => {
            io::writer(rt).write_all(text.as_bytes())?;
            Ok(0)
        }
        Asked::Wrong(text) => {
            rt.eprint(text.as_str())?;
            Ok(2)
        }
    }
}

/// Runs the image that the command names, and gives the status.
fn run_command(rt: &HostRuntime, command: &Run<'_>) -> io::Result<u8> {
    let path = command.image;
    let image = match fs::read(rt, path) {
        Ok(image) => image,
        Err(error) => {
            let path = Plain(path);
            eprintln!(rt; "rvrun: cannot read the image {path}: {error}")?;
            return Ok(1);
        }
    };
    if let Some(fault) = program_fault(image.as_slice()) {
        tell_fault(rt, path, fault, image.as_slice())?;
        return Ok(1);
    }
    let mut stdin = Vec::new(rt.alloc());
    rt.reader().read_to_end(&mut stdin)?;
    run_on(rt, command.limits, image.as_slice(), stdin.as_slice())?;
    match &command.check {
        Some(check) => judge(
            rt,
            command.limits,
            image.as_slice(),
            stdin.as_slice(),
            check,
        ),
        None => Ok(0),
    }
}

/// Says why the file at the path is no program.
fn tell_fault(rt: &HostRuntime, path: &str, fault: ProgramFault, image: &[u8]) -> io::Result<()> {
    let path = Plain(path);
    let fault = program_fault_text(rt.alloc(), fault, image)?;
    eprintln!(rt; "rvrun: {path} is no program: it {fault}")
}

/// Runs an image on this input, writes its output and says how it ended.
fn run_on(rt: &HostRuntime, limits: Limits, image: &[u8], stdin: &[u8]) -> io::Result<()>
    requires { is_image image.now ≡ true }
{
    let files = Files { stdin, extra: None };
    let start = Instant::now(rt)?;
    let loaded = open(rt.alloc(), image, limits, files);
    let load = start.elapsed(rt)?.as_nanos();
    match loaded {
        Ok(mut machine) => run_machine(rt, &mut machine, load),
        Err(_) => rt.eprintln("ending nomemory"),
    }
}

/// Runs a machine that took `load` nanoseconds to load, writes its output and says how it ended.
fn run_machine(rt: &HostRuntime, machine: &mut Machine<'_>, load: u128) -> io::Result<()> {
    let start = Instant::now(rt)?;
    let ended = run_to_end(machine);
    let run = start.elapsed(rt)?.as_nanos();
    io::writer(rt).write_all(machine.output())?;
    match ended {
        Ok(report) => tell(rt, report, load, run),
        Err(_) => rt.eprintln("ending nomemory"),
    }
}

/// Writes the line on standard error.
fn tell(rt: &HostRuntime, report: Report, load: u128, run: u128) -> io::Result<()> {
    let Report {
        ending,
        cost,
        pages,
    } = report;
    let word = word_of(rt.alloc(), ending)?;
    eprintln!(rt; "ending {word} cost {cost} pages {pages} load {load} run {run}")
}

fn word_of(alloc: Global, ending: Ending) -> Result<String, AllocError> {
    let word = match ending {
        Ending::Exit(code) => return format!(in alloc; "exit={code}"),
        Ending::Trap(trap) => trap_word(trap),
        Ending::Time => "time",
        Ending::Memory => "memory",
        Ending::Output => "output",
    };
    String::from_str(alloc, word)
}

fn trap_word(trap: Trap) -> &'static str {
    match trap {
        Trap::Illegal => "trap=illegal",
        Trap::Jump => "trap=jump",
        Trap::Misaligned => "trap=misaligned",
        Trap::Break => "trap=break",
        Trap::Call => "trap=call",
        Trap::Range => "trap=range",
    }
}
