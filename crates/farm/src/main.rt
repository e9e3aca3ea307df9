//! `farm`: the judging back end of a programming contest.
//!
//! Each file beside this one has one subject: `name.rt` the words with the program's name, `usage.rt` what is said where these are no
//! command, `person.rt` what a person is told by the commands, `progress.rt` how far it is, `port.rt` where it listens,
//! `explanations.rt` why it ended, and `stores.rt` what is wrong with a store.
//!
//! Why a command ended is told here and not by `farm_main`, to the same person: it follows from the exit, and from what the system
//! says of the file, the folder or the store that failed when that is looked at once more. `farm_main` works over any tree and any
//! disk, and these do not say why they failed.
#![tactic(auto)]

ghost use Rattle.std.specs.Prelude.{◌≡◌, ◌≢◌, ◌⊎◌, Some, None, map, string_bytes};
ghost use Rattle.command_line.specs.CommandLine.{command_of, command_value};
ghost use Rattle.command_line.specs.Helping.{MayAsk, MustAsk, answers_to};

mod explanations;
mod name;
mod person;
mod port;
mod progress;
mod stores;
mod usage;

use crate::explanations::explain;
use crate::name::own_words;
use crate::person::Told;
use crate::port::Announced;
use crate::progress::Meter;
use crate::usage::{print_help, refuse_words, unread_words, without_memory};
use command_line::{Asked, Command, read_words};
use exit_status::Exit;
use farm_cli::farm_main;
use farm_io::{ReadSource, SystemClock, TcpLink, WriteSink};
use record_store::FileDisk;
use remote_host::SystemPause;
use std::io;
use std::process::ExitCode;
use std::sync::Wait;
use std::thread::Threads;
use watched_tree::Watched;

fn main(rt: HostRuntime) -> ExitCode {
    let exit = match own_words(&rt) {
        Ok(words) => answer(&rt, &rt, words.as_slice()),
        Err(fault) => unread_words(&rt, &fault),
    };
    ExitCode::from(exit.status())
}

/// Carries out the command of the words, or prints the help that they ask for, or says what is wrong with them.
fn answer(rt: &HostRuntime, threads: &(impl Threads + Wait + Sync), words: &[String]) -> Exit
    // `Usage` comes for words alone that are no command and do not ask for help; such words have no other end, unless memory
    // is wanting.
    ensures usage { result ≡ Exit.Usage → (command_of (map string_bytes words.now) ≡ None) × (¬ MustAsk (answers_to (map string_bytes words.now))) }
    ensures refused { command_of (map string_bytes words.now) ≡ None → ¬ MayAsk (answers_to (map string_bytes words.now)) → (result ≡ Exit.Usage) ⊎ (result ≡ Exit.Memory) }
{
    match read_words(rt.alloc(), words) {
        Ok(Asked::Command(command)) => run(rt, threads, words, &command),
        Ok(Asked::Help(text)) => print_help(rt, text.as_str()),
        Ok(Asked::Wrong(text)) => refuse_words(rt, text.as_str()),
        Err(_) => without_memory(rt),
    }
}

/// For how many seconds a host pauses before it asks again. 0 where it does not.
fn pause_seconds(command: &Command<'_>) -> u64 {
    match command {
        Command::Host {
            wait: Some(seconds),
            ..
        } => u64::from(*seconds),
        _ => 0,
    }
}

/// Whether the command judges a contest by itself, so that how far it is may be shown.
fn judges(command: &Command<'_>) -> bool {
    matches!(command, Command::Judge { .. } | Command::Make { .. })
}

/// Runs the command of the words over the files, standard input and output and the sockets of the machine, with hosts as
/// threads that `threads` starts, and tells the person why it is not done where the command itself has not said it. The words are
/// handed on beside what was read in them, since the promise of `farm_main` is one over words.
fn run(
    rt: &HostRuntime,
    threads: &(impl Threads + Wait + Sync),
    words: &[String],
    command: &Command<'_>,
) -> Exit
    requires command { command_of (map string_bytes words.now) ≡ Some (command_value command.now) }
    ensures usage { result ≢ Exit.Usage }
{
    let alloc = rt.alloc();
    let mut input = ReadSource::new(rt.reader());
    let mut out = WriteSink::new(io::writer(rt));
    let mut tree = Watched::new(rt, alloc);
    let meter = Meter::new(rt, judges(command));
    let mut person = Told::new(rt, &meter);
    let exit = farm_main(
        threads,
        alloc,
        words,
        &mut tree,
        &mut input,
        &mut out,
        &SystemClock::new(rt),
        &mut Announced::new(rt, threads),
        &meter,
        &mut person,
        &mut TcpLink::new(rt, alloc),
        &SystemPause::new(rt, pause_seconds(command)),
        &mut FileDisk::new(alloc, rt),
    );
    explain(rt, exit, command, tree.failed(), &mut person);
    exit
}
