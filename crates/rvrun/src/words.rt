//! The words of `rvrun`.
use clap::{Arg, ArgMatches, Command};
use command_line::{Grammar, ProgramWords, VERSION, no_number, number_from, read_program};
use farm_kinds::Limits;
use std::alloc::{AllocError, Global};

/// What a run may use where no option says it.
const STANDARD: Limits = Limits {
    instructions: 10_000_000_000,
    pages: 16_384,
    output: 16_777_216,
};

/// What is run: the path of an image, what it may use, and how its output is checked, where it is.
#[derive(Clone, Copy)]
pub struct Run<'a> {
    pub image: &'a str,
    pub limits: Limits,
    pub check: Option<Checked<'a>>,
}

/// How an output is checked.
#[derive(Clone, Copy)]
pub struct Checked<'a> {
    /// The path of the judge's answer.
    pub answer: &'a str,
    /// The path of a validator's image. None for the default validator.
    pub validator: Option<&'a str>,
    /// The flags of the validator.
    pub flags: &'a str,
}

/// What the words ask for.
#[derive(Drop)]
pub enum Asked<'a> {
    /// A run.
    Run(Run<'a>),
    /// This text is to be printed.
    Help(String),
    /// Nothing, for the reason of this text.
    Wrong(String),
}

const REMARKS: &str = "\
What the program writes to descriptor 1 goes to standard output. A line on
standard error says how the run ended, and how long loading and running took:
  ending WORD cost C pages P load NANOSECONDS run NANOSECONDS
WORD: exit=CODE, time, memory, output, nomemory, or trap=illegal, jump,
misaligned, break, call or range. With --answer another line says how the run is
judged:
  verdict KIND

Status: 0 the image was run, however it ended; 1 it could not be read or run, or
its output not be written; 2 usage.";

/// Reads the program's words: the path of an image, and options.
pub fn read_words<'a>(alloc: Global, words: &'a [String]) -> Result<Asked<'a>, AllocError> {
    let found = match read_program::<RunWords>(alloc, words, words.len())? {
        ProgramWords::Found(found) => found,
        ProgramWords::Help(text) => return Ok(Asked::Help(text)),
        ProgramWords::Wrong(text) => return Ok(Asked::Wrong(text)),
    };
    run_of(alloc, &found)
}

/// The run that was found, where its numbers are in range.
fn run_of<'a>(alloc: Global, found: &ArgMatches<'a>) -> Result<Asked<'a>, AllocError> {
    let instructions = limit(found, "instructions", STANDARD.instructions, u64::MAX);
    let pages = small(limit(found, "pages", STANDARD.pages as u64, u32::MAX as u64));
    let output = small(limit(found, "output", STANDARD.output as u64, u32::MAX as u64));
    match (found.get_str("image"), instructions, pages, output) {
        (Some(image), Some(instructions), Some(pages), Some(output)) => Ok(Asked::Run(Run {
            image,
            limits: Limits {
                instructions,
                pages,
                output,
            },
            check: check_of(found),
        })),
        (_, None, _, _) => refused(alloc, found, "instructions", u64::MAX),
        (_, _, None, _) => refused(alloc, found, "pages", u32::MAX as u64),
        _ => refused(alloc, found, "output", u32::MAX as u64),
    }
}

/// How the output is checked. None where no answer is said.
fn check_of<'a>(found: &ArgMatches<'a>) -> Option<Checked<'a>> {
    Some(Checked {
        answer: found.get_str("answer")?,
        validator: found.get_str("validator"),
        flags: found.get_str("flags").unwrap_or(""),
    })
}

/// What is said of an option whose value is no number up to the most.
fn refused<'a>(
    alloc: Global,
    found: &ArgMatches<'a>,
    id: &str,
    most: u64,
) -> Result<Asked<'a>, AllocError> {
    let value = found.get_str(id).unwrap_or("");
    let option = format!(in alloc; "--{id} <N>")?;
    let text = no_number::<RunWords>(alloc, option.as_str(), value, 0, most)?;
    Ok(Asked::Wrong(text))
}

/// The number of an option, or the standard one where it is not said. None where it is none up to the most.
fn limit(found: &ArgMatches<'_>, id: &str, standard: u64, most: u64) -> Option<u64> {
    match found.get_str(id) {
        Some(value) => number_from(value, 0, most),
        None => Some(standard),
    }
}

/// The number of 32 bits.
fn small(number: Option<u64>) -> Option<u32> {
    u32::try_from(number?).ok()
}

/// The words of `rvrun`.
struct RunWords;

impl Grammar for RunWords {
    /// `rvrun [--instructions N] [--pages N] [--output N] [--answer FILE [--validator IMAGE] [--flags TEXT]] IMAGE`
    fn grammar<'g>(alloc: Global) -> Result<Command<'g>, AllocError> {
        let image = Arg::new(alloc, "image")
            .required(true)
            .value_name("IMAGE")
            .help("An ELF32 executable for RISC-V or a raw RV32IM image, at most 1048576 bytes");
        Command::new(alloc, "rvrun")
            .bin_name("rvrun")?
            .version(VERSION)
            .about("Runs an RV32IM image on standard input, within limits")
            .after_help(REMARKS)
            .arg(image)?
            .arg(option(
                alloc,
                "instructions",
                "How many instructions it may cost, 0 to 18446744073709551615; standard 10000000000",
            ))?
            .arg(option(
                alloc,
                "pages",
                "How many pages of 4096 bytes it may touch, 0 to 4294967295; standard 16384",
            ))?
            .arg(option(
                alloc,
                "output",
                "How many bytes it may write, 0 to 4294967295; standard 16777216",
            ))?
            .arg(file(
                alloc,
                "answer",
                "FILE",
                "The judge's answer, by which the output is checked",
            ))?
            .arg(file(
                alloc,
                "validator",
                "IMAGE",
                "A raw image that checks the output, in place of the default validator",
            )
            .requires_arg("answer")?)?
            .arg(file(
                alloc,
                "flags",
                "TEXT",
                "The validator's flags, as validator_flags has them",
            )
            .requires_arg("answer")?)
    }
}

/// `--NAME N`
fn option<'a>(alloc: Global, name: &'a str, help: &'a str) -> Arg<'a> {
    Arg::new(alloc, name).long(name).value_name("N").help(help)
}

/// `--NAME VALUE`
fn file<'a>(alloc: Global, name: &'a str, value: &'a str, help: &'a str) -> Arg<'a> {
    Arg::new(alloc, name)
        .long(name)
        .value_name(value)
        .help(help)
}
