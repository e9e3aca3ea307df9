//! What the words of the command line ask for, where they may also ask for help.
ghost use Rattle.std.specs.Prelude.{◌≡◌, ◌≢◌, ◌⊎◌, IfOk, None, map, string_bytes, true};
ghost use Rattle.clap.specs.Words.{kind_of};
ghost use Rattle.clap.specs.declared.error.kind.ErrorKind.TheVariants as kind;
ghost use Rattle.command_line.specs.CommandLine.{command_of};
ghost use Rattle.command_line.specs.Helping.{MayAsk, MustAsk, answers_to, asked_command, is_help, is_wrong};

use crate::grammar::helping_command;
use crate::reading::read_command;
use crate::refusing::{refusal, unfit};
use crate::words::Command;
use clap::Error;
use clap::error::ErrorKind;
use farm_kinds::NoMemory;
use std::alloc::Global;

/// What the words of the command line ask for.
#[derive(Debug, Drop)]
pub enum Asked<'a> {
    /// A command is to be carried out.
    Command(Command<'a>),
    /// Help, or the version: its text, which is for standard output.
    Help(String),
    /// Nothing: which word is wrong, what was wanted in its place, and the usage of the command. Each control character of
    /// a word stands in it as `?`, so that no word speaks to a terminal.
    Wrong(String),
}

/// Reads the words of the command line, of which the first is not looked at. `farm help`, `farm COMMAND --help`, `-h`,
/// `--version` and `-V` ask for help or for the version; words of a command never do.
pub fn read_words<'a>(alloc: Global, words: &'a [String]) -> Result<Asked<'a>, NoMemory>
    ensures command { IfOk result (λ asked. asked_command asked ≡ command_of (map string_bytes words.entry.now)) }
    ensures help { IfOk result (λ asked. is_help asked ≡ true → MayAsk (answers_to (map string_bytes words.entry.now))) }
    ensures wrong { IfOk result (λ asked. is_wrong asked ≡ true → ¬ MustAsk (answers_to (map string_bytes words.entry.now))) }
{
    match read_command(alloc, words) {
        Ok(Some(command)) => Ok(Asked::Command(command)),
        Ok(None) => told(alloc, words),
        Err(NoMemory) => Err(NoMemory),
    }
}

/// The answer to words that are no command.
#[tactic(auto, unfolding(crate::specs::Helping::answers_to))]
fn told<'a>(alloc: Global, words: &'a [String]) -> Result<Asked<'a>, NoMemory>
    ensures command { IfOk result (λ asked. asked_command asked ≡ None) }
    ensures help { IfOk result (λ asked. is_help asked ≡ true → MayAsk (answers_to (map string_bytes words.entry.now))) }
    ensures wrong { IfOk result (λ asked. is_wrong asked ≡ true → ¬ MustAsk (answers_to (map string_bytes words.entry.now))) }
{
    let program = helping_command(alloc)?;
    match program.try_get_matches_from(words) {
        Ok(matches) => Ok(Asked::Wrong(unfit(alloc, words, &matches)?)),
        Err(error) => answered(alloc, words, &error),
    }
}

/// The answer to words that the grammar answers so.
fn answered<'a>(alloc: Global, words: &[String], error: &Error) -> Result<Asked<'a>, NoMemory>
    ensures command { IfOk result (λ asked. asked_command asked ≡ None) }
    ensures help { IfOk result (λ asked. is_help asked ≡ true
        → (kind_of error.now ≡ kind.DisplayHelp) ⊎ (kind_of error.now ≡ kind.DisplayVersion)) }
    ensures wrong { IfOk result (λ asked. is_wrong asked ≡ true
        → (kind_of error.now ≢ kind.OutOfMemory) × (kind_of error.now ≢ kind.DisplayHelp)
        × (kind_of error.now ≢ kind.DisplayVersion)) }
{
    match error.kind() {
        ErrorKind::OutOfMemory => Err(NoMemory),
        ErrorKind::DisplayHelp | ErrorKind::DisplayVersion => {
            Ok(Asked::Help(format!(in alloc; "{error}")?))
        }
        _ => Ok(Asked::Wrong(refusal(alloc, words)?)),
    }
}
