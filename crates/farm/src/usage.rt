//! What is said where no command is carried out: the help that was asked for, or what is wrong with the words. The latter has
//! several lines, as they were made; no word in them has a control character.
//!
//! Where standard error cannot be written, nobody can be told.
ghost use Rattle.std.specs.Prelude.{◌≡◌, ◌⊎◌};

use exit_status::Exit;
use std::io;
use std::io::Write;

const UNREAD: &str = "\
error: a word of the command line is no UTF-8

Usage: farm <COMMAND>

For more information, try '--help'.
";

/// Prints the help on standard output.
pub(crate) fn print_help(rt: &HostRuntime, help: &str) -> Exit
    ensures { (result ≡ Exit.Done) ⊎ (result ≡ Exit.WriteFault) }
{
    match io::writer(rt).write_all(help.as_bytes()) {
        Ok(()) => Exit::Done,
        Err(_) => {
            let _ = rt.eprintln(
                "farm: standard output could not be written (is the disk full, or its reader gone?)",
            );
            Exit::WriteFault
        }
    }
}

/// Says what is wrong with the words.
pub(crate) fn refuse_words(rt: &HostRuntime, wrong: &str) -> Exit
    ensures { result ≡ Exit.Usage }
{
    let _ = rt.eprint(wrong);
    Exit::Usage
}

/// Says that no memory was left to read the words.
pub(crate) fn without_memory(rt: &HostRuntime) -> Exit
    ensures { result ≡ Exit.Memory }
{
    let _ = rt.eprintln("farm: out of memory. Run it again with more memory");
    Exit::Memory
}

/// Says why the words could not be had: no memory was left for them, or one is no UTF-8.
pub(crate) fn unread_words(rt: &HostRuntime, fault: &io::Error) -> Exit {
    if fault.kind() == io::ErrorKind::OutOfMemory {
        return without_memory(rt);
    }
    refuse_words(rt, UNREAD)
}
