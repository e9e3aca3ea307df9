//! The words of `package_info`.
use clap::{Arg, Command};
use command_line::{Grammar, ProgramWords, VERSION, read_program};
use std::alloc::{AllocError, Global};

/// What the words ask for.
#[derive(Drop)]
pub enum Asked<'a> {
    /// The package in the folder at this path.
    Package(&'a str),
    /// This text is to be printed.
    Help(String),
    /// Nothing, for the reason of this text.
    Wrong(String),
}

const REMARKS: &str = "\
Printed are the name, the limits, how outputs are checked, and the tests in
order, each with the bytes of its input and its answer. A folder that is no
package is told on standard error, by its first fault.

Status: 0 a package, 1 no package, or it could not be read or printed, 2 usage.";

/// Reads the program's words: the path of a folder.
pub fn read_words<'a>(alloc: Global, words: &'a [String]) -> Result<Asked<'a>, AllocError> {
    match read_program::<FolderWord>(alloc, words, words.len())? {
        ProgramWords::Found(found) => match found.get_str("folder") {
            Some(folder) => Ok(Asked::Package(folder)),
            None => Ok(Asked::Wrong(FolderWord::grammar(alloc)?.render_usage()?)),
        },
        ProgramWords::Help(text) => Ok(Asked::Help(text)),
        ProgramWords::Wrong(text) => Ok(Asked::Wrong(text)),
    }
}

/// The words of `package_info`.
struct FolderWord;

impl Grammar for FolderWord {
    /// `package_info FOLDER`
    fn grammar<'g>(alloc: Global) -> Result<Command<'g>, AllocError> {
        let folder = Arg::new(alloc, "folder")
            .required(true)
            .value_name("FOLDER")
            .help("The folder of the package");
        Command::new(alloc, "package_info")
            .bin_name("package_info")?
            .version(VERSION)
            .about(
                "Reads a problem package (Kattis problem package format, legacy) and prints what it has",
            )
            .after_help(REMARKS)
            .arg(folder)
    }
}
