//! The words of `validate`.
use clap::Arg;
use command_line::{Grammar, ProgramWords, VERSION, read_program};
use std::alloc::{AllocError, Global};

/// What is judged: the path of a test's answer, where to say why an output is not accepted, and the flags.
#[derive(Clone, Copy)]
pub struct Command<'a> {
    pub answer: &'a str,
    pub feedback: &'a str,
    pub flags: &'a [String],
}

/// What the words ask for.
#[derive(Drop)]
pub enum Asked<'a> {
    /// That an output is judged.
    Judgement(Command<'a>),
    /// This text is to be printed.
    Help(String),
    /// Nothing, for the reason of this text.
    Wrong(String),
}

const REMARKS: &str = "\
The team's output is read from standard input. The flags: case_sensitive,
space_change_sensitive, float_tolerance E, float_relative_tolerance E,
float_absolute_tolerance E.

Status: 42 accepted, 43 wrong answer (FEEDBACK_FOLDER/judgemessage.txt says
why), 1 judge's error, 2 usage.";

/// Reads the program's words: the paths of a test's input and answer and of the feedback folder, and the words of the
/// flags, which may be any.
pub fn read_words<'a>(alloc: Global, words: &'a [String]) -> Result<Asked<'a>, AllocError> {
    match read_program::<ValidateWords>(alloc, words, 3)? {
        ProgramWords::Found(_) => {}
        ProgramWords::Help(text) => return Ok(Asked::Help(text)),
        ProgramWords::Wrong(text) => return Ok(Asked::Wrong(text)),
    }
    match words {
        [_, _, answer, feedback, flags @ ..] => Ok(Asked::Judgement(Command {
            answer: answer.as_str(),
            feedback: feedback.as_str(),
            flags,
        })),
        // The grammar has found three operands.
        _ => Ok(Asked::Wrong(ValidateWords::grammar(alloc)?.render_usage()?)),
    }
}

/// The words of `validate`.
struct ValidateWords;

impl Grammar for ValidateWords {
    /// `validate INPUT ANSWER FEEDBACK_FOLDER [FLAGS ..]`
    fn grammar<'g>(alloc: Global) -> Result<clap::Command<'g>, AllocError> {
        let flags = Arg::new(alloc, "flags")
            .value_name("FLAGS")
            .num_args(0..)
            .trailing_var_arg(true)
            .allow_hyphen_values(true)
            .help("Words of flags, as they stand behind validator_flags in problem.yaml");
        clap::Command::new(alloc, "validate")
            .bin_name("validate")?
            .version(VERSION)
            .about(
                "Compares a team's output with the answer of a test, as Kattis' default output validator does",
            )
            .after_help(REMARKS)
            .arg(operand(
                alloc,
                "input",
                "INPUT",
                "The test's input, which is not looked at",
            ))?
            .arg(operand(alloc, "answer", "ANSWER", "The test's answer"))?
            .arg(operand(
                alloc,
                "feedback",
                "FEEDBACK_FOLDER",
                "Where judgemessage.txt says why an output is not accepted",
            ))?
            .arg(flags)
    }
}

/// A word, which has to be there.
fn operand<'a>(alloc: Global, id: &'a str, value: &'a str, help: &'a str) -> Arg<'a> {
    Arg::new(alloc, id)
        .required(true)
        .value_name(value)
        .help(help)
}
