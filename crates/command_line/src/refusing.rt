//! What is wrong with words that are no command. A word is shown with `?` in place of each control character, so that it speaks
//! to no terminal.
use crate::address::read_address;
use crate::checks::{is_plain, is_user, joined_value};
use crate::described::described;
use crate::grammar::{FarmWords, Grammar, command_named, helping_command};
use clap::error::ErrorKind;
use clap::{Arg, ArgMatches, Command, Error};
use command_text::read_number;
use farm_kinds::Name;
use people::Plain;
use std::alloc::{AllocError, Global};

/// What `clap` says of words that it refuses, with the usage of the command that they name.
pub(crate) fn refusal(alloc: Global, words: &[String]) -> Result<String, AllocError> {
    let text = said_of::<FarmWords>(alloc, words)?;
    let mut command = named_by(alloc, words)?;
    with_usage(alloc, &mut command, text)
}

/// What `clap` says of words that it refuses. It is asked of the words as they are shown: none that a grammar knows has a
/// control character or a `?`, so it finds the same fault in them.
pub(crate) fn said_of<G: Grammar>(alloc: Global, words: &[String]) -> Result<String, AllocError> {
    let shown = shown_words(alloc, words)?;
    let program = G::grammar(alloc)?;
    match program.try_get_matches_from(shown.as_slice()) {
        Ok(_matches) => String::from_str(alloc, "error: these words are no command"),
        Err(error) => text_of(alloc, &error),
    }
}

fn text_of(alloc: Global, error: &Error) -> Result<String, AllocError> {
    if error.kind() == ErrorKind::OutOfMemory {
        return Err(AllocError);
    }
    format!(in alloc; "{error}")
}

/// The words as they are shown.
fn shown_words(alloc: Global, words: &[String]) -> Result<Vec<String>, AllocError> {
    let mut shown = Vec::new(alloc);
    for word in words {
        let word = Plain(word.as_str());
        shown.push(format!(in alloc; "{word}")?)?;
    }
    Ok(shown)
}

/// Why words that the grammar accepts are no command: one of them is not plain, or a number is not in its range.
pub(crate) fn unfit(
    alloc: Global,
    words: &[String],
    found: &ArgMatches<'_>,
) -> Result<String, AllocError> {
    let mut command = named_by(alloc, words)?;
    let message = match odd_word(alloc, words, words.len())? {
        Some(message) => message,
        None => odd_value(alloc, &command, found)?,
    };
    refused_by(alloc, &mut command, message.as_str())
}

/// The text of an error of `clap`, with the usage of the command where it has none.
pub(crate) fn with_usage(
    alloc: Global,
    command: &mut Command<'_>,
    text: String,
) -> Result<String, AllocError> {
    if text.as_str().contains("Usage: ") {
        return Ok(text);
    }
    refused_by(alloc, command, message_of(text.as_str()))
}

/// What the text of an error says, without what stands around it.
fn message_of(text: &str) -> &str {
    let message = match text.split_once("\n\nFor more") {
        Some((message, _)) => message,
        None => text,
    };
    match message.strip_prefix("error: ") {
        Some(rest) => rest,
        None => message,
    }
}

/// A message, with the usage of the command.
pub(crate) fn refused_by(
    alloc: Global,
    command: &mut Command<'_>,
    message: &str,
) -> Result<String, AllocError> {
    let error = command.error(ErrorKind::ValueValidation, message)?;
    format!(in alloc; "{error}")
}

/// What is wrong with the first word that is not plain, of the first `checked` words behind the program's name.
pub(crate) fn odd_word(
    alloc: Global,
    words: &[String],
    checked: usize,
) -> Result<Option<String>, AllocError> {
    for word in words.iter().skip(1).take(checked) {
        if !is_plain(word.as_str()) {
            return Ok(Some(odd_text(alloc, word.as_str())?));
        }
    }
    Ok(None)
}

/// What is wrong with a word that is not plain.
fn odd_text(alloc: Global, word: &str) -> Result<String, AllocError> {
    if word.is_empty() {
        return String::from_str(alloc, "an empty word found, and none is taken");
    }
    let word = Plain(word);
    match joined_value(word.0) {
        Some(value) => {
            let value = Plain(value);
            format!(in alloc;
                "invalid value '{value}' in '{word}': a value is not empty and does not begin with '-'"
            )
        }
        None => format!(in alloc; "unexpected argument '{word}' found"),
    }
}

/// Which value of the command that was found is no name, no address, no user, or a number that is not in its range; or which
/// option lacks another one.
fn odd_value(
    alloc: Global,
    command: &Command<'_>,
    found: &ArgMatches<'_>,
) -> Result<String, AllocError> {
    if let Some((name, found)) = found.subcommand() {
        for arg in command.get_arguments() {
            if let Some(text) = name_text(alloc, arg, found)? {
                return Ok(text);
            }
            if let Some(text) = address_text(alloc, name, arg, found)? {
                return Ok(text);
            }
            if let Some(text) = login_text(alloc, arg, found)? {
                return Ok(text);
            }
            if let Some(text) = number_text(alloc, name, arg, found)? {
                return Ok(text);
            }
        }
    }
    String::from_str(alloc, "these words are no command")
}

/// What is wrong with the name that this option is to have, if it is to have one and anything is.
fn name_text(
    alloc: Global,
    arg: &Arg<'_>,
    found: &ArgMatches<'_>,
) -> Result<Option<String>, AllocError> {
    let id = arg.get_id();
    let Some(value) = found.get_str(id) else {
        return Ok(None);
    };
    if id != "name" || Name::read(value.as_bytes()).is_some() {
        return Ok(None);
    }
    let value = Plain(value);
    let text = format!(in alloc;
        "invalid value '{value}' for '{arg}': wanted are 1 to 32 letters, digits, '_' and '-'"
    )?;
    Ok(Some(text))
}

/// What is wrong with the address at which a server is to listen, if this option of a command is one and anything is.
fn address_text(
    alloc: Global,
    of: &str,
    arg: &Arg<'_>,
    found: &ArgMatches<'_>,
) -> Result<Option<String>, AllocError> {
    let id = arg.get_id();
    let Some(value) = found.get_str(id) else {
        return Ok(None);
    };
    if of != "serve" || id != "address" || read_address(value).is_some() {
        return Ok(None);
    }
    let value = Plain(value);
    let text = format!(in alloc;
        "invalid value '{value}' for '{arg}': wanted is an IPv4 or IPv6 address, as 0.0.0.0 or ::1"
    )?;
    Ok(Some(text))
}

/// What is wrong with the user whom a proxy asks for, or which option is not there beside this one, if this is an option of
/// a login and anything is.
fn login_text(
    alloc: Global,
    arg: &Arg<'_>,
    found: &ArgMatches<'_>,
) -> Result<Option<String>, AllocError> {
    let id = arg.get_id();
    let Some(value) = found.get_str(id) else {
        return Ok(None);
    };
    if id == "user" && !is_user(value) {
        let value = Plain(value);
        let text = format!(in alloc;
            "invalid value '{value}' for '{arg}': wanted is a name without ':' and without control characters"
        )?;
        return Ok(Some(text));
    }
    if id == "user" && found.get_str("password-file").is_none() {
        let text = format!(in alloc; "'{arg}' is given without '--password-file <FILE>'")?;
        return Ok(Some(text));
    }
    if id == "password-file" && found.get_str("user").is_none() {
        let text = format!(in alloc; "'{arg}' is given without '--user <USER>'")?;
        return Ok(Some(text));
    }
    Ok(None)
}

/// What is wrong with the number of this operand or option of a command, if anything is.
fn number_text(
    alloc: Global,
    of: &str,
    arg: &Arg<'_>,
    found: &ArgMatches<'_>,
) -> Result<Option<String>, AllocError> {
    let id = arg.get_id();
    let (Some((least, most)), Some(value)) = (described(of, id).range, found.get_str(id)) else {
        return Ok(None);
    };
    if let Some(number) = read_number(value.as_bytes()) {
        if number >= least && number <= most {
            return Ok(None);
        }
    }
    let value = Plain(value);
    let text = format!(in alloc;
        "invalid value '{value}' for '{arg}': wanted is a number from {least} to {most}, without a sign or a leading zero"
    )?;
    Ok(Some(text))
}

/// The command that the words name, or the whole program.
fn named_by<'a>(alloc: Global, words: &[String]) -> Result<Command<'a>, AllocError> {
    if let [_, name, ..] = words {
        if let Some(command) = command_named(alloc, name.as_str())? {
            let shown = format!(in alloc; "farm {name}")?;
            return command.bin_name(shown.as_str());
        }
    }
    helping_command(alloc)
}
