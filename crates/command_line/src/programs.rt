//! The words of the small programs, by the same rules: each has one grammar, and no commands.
ghost use Rattle.std.specs.Prelude.{◌≤◌, IfSome};

use crate::grammar::Grammar;
use crate::refusing::{odd_word, refused_by, said_of, with_usage};
use clap::error::ErrorKind;
use clap::{ArgMatches, Command};
use people::Plain;
use std::alloc::{AllocError, Global};

/// What the words of a program are.
#[derive(Debug, Drop)]
pub enum ProgramWords<'a> {
    /// What the grammar found in them.
    Found(ArgMatches<'a>),
    /// They ask for help or for the version: its text, which is for standard output.
    Help(String),
    /// They are wrong: which word is, what was wanted in its place, and the usage. Each control character of a word stands in
    /// it as `?`.
    Wrong(String),
}

/// Reads the words by the program's grammar. The first word is the program's name, and the first `checked` words
/// behind it must not be empty, `-` or `--`, and have no value that is empty or begins with `-`.
pub fn read_program<'a, G: Grammar>(
    alloc: Global,
    words: &'a [String],
    checked: usize,
) -> Result<ProgramWords<'a>, AllocError> {
    match G::grammar(alloc)?.try_get_matches_from(words) {
        Ok(matches) => match odd_word(alloc, words, checked)? {
            Some(message) => Ok(ProgramWords::Wrong(refused::<G>(alloc, message.as_str())?)),
            None => Ok(ProgramWords::Found(matches)),
        },
        Err(error) => match error.kind() {
            ErrorKind::OutOfMemory => Err(AllocError),
            ErrorKind::DisplayHelp | ErrorKind::DisplayVersion => {
                Ok(ProgramWords::Help(format!(in alloc; "{error}")?))
            }
            _ => Ok(ProgramWords::Wrong(refusal::<G>(alloc, words)?)),
        },
    }
}

/// What `clap` says of words that it refuses, with the usage of the program.
fn refusal<G: Grammar>(alloc: Global, words: &[String]) -> Result<String, AllocError> {
    let text = said_of::<G>(alloc, words)?;
    with_usage(alloc, &mut G::grammar(alloc)?, text)
}

/// A message, with the usage of the program.
fn refused<G: Grammar>(alloc: Global, message: &str) -> Result<String, AllocError> {
    refused_by(alloc, &mut G::grammar(alloc)?, message)
}

/// The number that the text is, from the least to the greatest: digits without a sign or a leading zero.
pub fn number_from(text: &str, least: u64, most: u64) -> Option<u64>
    ensures { IfSome result (λ number. (least ≤ number) × (number ≤ most)) }
{
    if text.starts_with('+') || (text.len() > 1 && text.starts_with('0')) {
        return None;
    }
    let number = text.parse::<u64>().ok()?;
    if number < least || number > most {
        return None;
    }
    Some(number)
}

/// What is said of an option's value that is no number from the least to the greatest.
pub fn no_number<G: Grammar>(
    alloc: Global,
    option: &str,
    value: &str,
    least: u64,
    most: u64,
) -> Result<String, AllocError> {
    let value = Plain(value);
    let message = format!(in alloc;
        "invalid value '{value}' for '{option}': wanted is a number from {least} to {most}, without a sign or a leading zero"
    )?;
    refused::<G>(alloc, message.as_str())
}
