//! The grammar of the command line.
ghost use Rattle.std.specs.Prelude.{◌≡◌, IfOk, false, true};
ghost use Rattle.clap.specs.Words.{app_of, new_app, rule_of, with_rule, with_subcommand};
ghost use Rattle.clap.specs.declared.builder.command.Command.TheViews.{out-Command as fields_of};
ghost use Rattle.command_line.specs.Commands.{option, flag, operand, judge, script, store, make, serve, plain_serve, host, plain_host, bare, farm, helping};

use crate::described::{about, described, remarks};
use clap::{Arg, ArgAction, Command};
use std::alloc::{AllocError, Global};

/// What `--version` prints behind the name of each program.
pub const VERSION: &str = "0.1.0";

/// The grammar of a program's words. It is made anew for each reading, since words have to live as long as what reads them.
pub trait Grammar {
    fn grammar<'g>(alloc: Global) -> Result<Command<'g>, AllocError>;
}

/// The words of `farm`, with those that ask for help and for the version.
pub(crate) struct FarmWords;

impl Grammar for FarmWords {
    fn grammar<'g>(alloc: Global) -> Result<Command<'g>, AllocError> {
        helping_command(alloc)
    }
}

/// The program with its commands.
pub(crate) fn farm_command<'a>(alloc: Global) -> Result<Command<'a>, AllocError>
    ensures { IfOk result (λ command. app_of command ≡ farm) }
{
    let program = with_judge(alloc, bare_command(alloc))?;
    let program = with_serve(alloc, program)?;
    let program = with_host(alloc, program)?;
    let program = with_script(alloc, program)?;
    let program = with_store(alloc, program)?;
    with_make(alloc, program)
}

/// The program with its commands, which also knows the words that ask for help and for the version.
pub(crate) fn helping_command<'a>(alloc: Global) -> Result<Command<'a>, AllocError>
    ensures { IfOk result (λ command. app_of command ≡ helping) }
{
    let program = farm_command(alloc)?;
    Ok(
        program
            .disable_help_flag(false)
            .disable_help_subcommand(false)
            .disable_version_flag(false)
            .version(VERSION),
    )
}

/// The command of the program with this name.
pub(crate) fn command_named<'a>(
    alloc: Global,
    name: &str,
) -> Result<Option<Command<'a>>, AllocError> {
    match name {
        "judge" => Ok(Some(judge_command(alloc)?)),
        "serve" => Ok(Some(serve_command(alloc)?)),
        "host" => Ok(Some(host_command(alloc)?)),
        "script" => Ok(Some(script_command(alloc)?)),
        "store" => Ok(Some(store_command(alloc)?)),
        "make" => Ok(Some(make_command(alloc)?)),
        _ => Ok(None),
    }
}

/// The program with the command `judge`.
fn with_judge<'a>(alloc: Global, program: Command<'a>) -> Result<Command<'a>, AllocError>
    requires { (fields_of program).has_globals ≡ false }
    ensures app { IfOk result (λ with. app_of with ≡ with_subcommand (app_of program.entry) judge.top) }
    ensures globals { IfOk result (λ with. (fields_of with).has_globals ≡ false) }
{
    program.subcommand(judge_command(alloc)?)
}

/// The program with the command `serve`.
fn with_serve<'a>(alloc: Global, program: Command<'a>) -> Result<Command<'a>, AllocError>
    requires { (fields_of program).has_globals ≡ false }
    ensures app { IfOk result (λ with. app_of with ≡ with_subcommand (app_of program.entry) serve.top) }
    ensures globals { IfOk result (λ with. (fields_of with).has_globals ≡ false) }
{
    program.subcommand(serve_command(alloc)?)
}

/// The program with the command `host`.
fn with_host<'a>(alloc: Global, program: Command<'a>) -> Result<Command<'a>, AllocError>
    requires { (fields_of program).has_globals ≡ false }
    ensures app { IfOk result (λ with. app_of with ≡ with_subcommand (app_of program.entry) host.top) }
    ensures globals { IfOk result (λ with. (fields_of with).has_globals ≡ false) }
{
    program.subcommand(host_command(alloc)?)
}

/// The program with the command `script`.
fn with_script<'a>(alloc: Global, program: Command<'a>) -> Result<Command<'a>, AllocError>
    requires { (fields_of program).has_globals ≡ false }
    ensures app { IfOk result (λ with. app_of with ≡ with_subcommand (app_of program.entry) script.top) }
    ensures globals { IfOk result (λ with. (fields_of with).has_globals ≡ false) }
{
    program.subcommand(script_command(alloc)?)
}

/// The program with the command `store`.
fn with_store<'a>(alloc: Global, program: Command<'a>) -> Result<Command<'a>, AllocError>
    requires { (fields_of program).has_globals ≡ false }
    ensures app { IfOk result (λ with. app_of with ≡ with_subcommand (app_of program.entry) store.top) }
    ensures globals { IfOk result (λ with. (fields_of with).has_globals ≡ false) }
{
    program.subcommand(store_command(alloc)?)
}

/// The program with the command `make`.
fn with_make<'a>(alloc: Global, program: Command<'a>) -> Result<Command<'a>, AllocError>
    requires { (fields_of program).has_globals ≡ false }
    ensures app { IfOk result (λ with. app_of with ≡ with_subcommand (app_of program.entry) make.top) }
    ensures globals { IfOk result (λ with. (fields_of with).has_globals ≡ false) }
{
    program.subcommand(make_command(alloc)?)
}

/// The program without its commands: one has to be named, and there are no words for help or the version.
fn bare_command<'a>(alloc: Global) -> Command<'a>
    ensures app { app_of result ≡ bare }
    ensures globals { (fields_of result).has_globals ≡ false }
{
    new_command(alloc, "farm")
        .disable_help_flag(true)
        .disable_help_subcommand(true)
        .disable_version_flag(true)
        .subcommand_required(true)
}

/// `judge FOLDER --hosts N [--journal]`
fn judge_command<'a>(alloc: Global) -> Result<Command<'a>, AllocError>
    ensures app { IfOk result (λ command. app_of command ≡ judge) }
    ensures globals { IfOk result (λ command. (fields_of command).has_globals ≡ false) }
{
    let with_folder = with_operand(alloc, new_command(alloc, "judge"), "judge", "folder")?;
    let with_hosts = with_option(alloc, with_folder, "judge", "hosts")?;
    with_hosts.arg(flag(alloc, "judge", "journal"))
}

/// `script [--config FILE] [--store FILE]`
fn script_command<'a>(alloc: Global) -> Result<Command<'a>, AllocError>
    ensures app { IfOk result (λ command. app_of command ≡ script) }
    ensures globals { IfOk result (λ command. (fields_of command).has_globals ≡ false) }
{
    let with_config = new_command(alloc, "script").arg(option(alloc, "script", "config", false))?;
    with_config.arg(option(alloc, "script", "store", false))
}

/// `store FILE`
fn store_command<'a>(alloc: Global) -> Result<Command<'a>, AllocError>
    ensures app { IfOk result (λ command. app_of command ≡ store) }
    ensures globals { IfOk result (λ command. (fields_of command).has_globals ≡ false) }
{
    with_operand(alloc, new_command(alloc, "store"), "store", "file")
}

/// `make NUMBER PROBLEMS SUBMISSIONS`
fn make_command<'a>(alloc: Global) -> Result<Command<'a>, AllocError>
    ensures app { IfOk result (λ command. app_of command ≡ make) }
    ensures globals { IfOk result (λ command. (fields_of command).has_globals ≡ false) }
{
    let with_number = with_operand(alloc, new_command(alloc, "make"), "make", "number")?;
    let with_problems = with_operand(alloc, with_number, "make", "problems")?;
    with_operand(alloc, with_problems, "make", "submissions")
}

/// `serve FOLDER --port P --lanes N [--connections M] [--address A] [--patience SECONDS] [--until-input-ends]`
fn serve_command<'a>(alloc: Global) -> Result<Command<'a>, AllocError>
    ensures app { IfOk result (λ command. app_of command ≡ serve) }
    ensures globals { IfOk result (λ command. (fields_of command).has_globals ≡ false) }
{
    let with_address = with_choice(alloc, plain_serve_command(alloc)?, "serve", "address")?;
    let with_patience = with_choice(alloc, with_address, "serve", "patience")?;
    with_patience.arg(flag(alloc, "serve", "until-input-ends"))
}

/// `serve FOLDER --port P --lanes N [--connections M]`
fn plain_serve_command<'a>(alloc: Global) -> Result<Command<'a>, AllocError>
    ensures app { IfOk result (λ command. app_of command ≡ plain_serve) }
    ensures globals { IfOk result (λ command. (fields_of command).has_globals ≡ false) }
{
    let with_folder = with_operand(alloc, new_command(alloc, "serve"), "serve", "folder")?;
    let with_port = with_option(alloc, with_folder, "serve", "port")?;
    let with_lanes = with_option(alloc, with_port, "serve", "lanes")?;
    with_choice(alloc, with_lanes, "serve", "connections")
}

/// `host ADDRESS --port P --name NAME --fuel F [--wait SECONDS] [--user USER --password-file FILE]`
fn host_command<'a>(alloc: Global) -> Result<Command<'a>, AllocError>
    ensures app { IfOk result (λ command. app_of command ≡ host) }
    ensures globals { IfOk result (λ command. (fields_of command).has_globals ≡ false) }
{
    let with_wait = with_choice(alloc, plain_host_command(alloc)?, "host", "wait")?;
    let with_user = with_choice(alloc, with_wait, "host", "user")?;
    with_choice(alloc, with_user, "host", "password-file")
}

/// `host ADDRESS --port P --name NAME --fuel F`
fn plain_host_command<'a>(alloc: Global) -> Result<Command<'a>, AllocError>
    ensures app { IfOk result (λ command. app_of command ≡ plain_host) }
    ensures globals { IfOk result (λ command. (fields_of command).has_globals ≡ false) }
{
    let with_address = with_operand(alloc, new_command(alloc, "host"), "host", "address")?;
    let with_port = with_option(alloc, with_address, "host", "port")?;
    let with_name = with_option(alloc, with_port, "host", "name")?;
    with_option(alloc, with_name, "host", "fuel")
}

/// The command of this name, with what help says of it.
fn new_command<'a>(alloc: Global, name: &'a str) -> Command<'a>
    ensures app { app_of result ≡ new_app name.entry.now }
    ensures globals { (fields_of result).has_globals ≡ false }
{
    Command::new(alloc, name)
        .about(about(name))
        .after_help(remarks(name))
}

/// The command with one more option, which has to be there; help says of it what it says in the command `of`.
fn with_option<'a>(
    alloc: Global,
    command: Command<'a>,
    of: &str,
    name: &'a str,
) -> Result<Command<'a>, AllocError>
    requires { (fields_of command).has_globals ≡ false }
    ensures app { IfOk result (λ with. app_of with ≡ with_rule (app_of command.entry) (option name.entry.now true)) }
    ensures globals { IfOk result (λ with. (fields_of with).has_globals ≡ false) }
{
    command.arg(option(alloc, of, name, true))
}

/// The command with one more option, which may be left out; help says of it what it says in the command `of`.
fn with_choice<'a>(
    alloc: Global,
    command: Command<'a>,
    of: &str,
    name: &'a str,
) -> Result<Command<'a>, AllocError>
    requires { (fields_of command).has_globals ≡ false }
    ensures app { IfOk result (λ with. app_of with ≡ with_rule (app_of command.entry) (option name.entry.now false)) }
    ensures globals { IfOk result (λ with. (fields_of with).has_globals ≡ false) }
{
    command.arg(option(alloc, of, name, false))
}

/// The command with one more operand, which has to be there; help says of it what it says in the command `of`.
fn with_operand<'a>(
    alloc: Global,
    command: Command<'a>,
    of: &str,
    name: &'a str,
) -> Result<Command<'a>, AllocError>
    requires { (fields_of command).has_globals ≡ false }
    ensures app { IfOk result (λ with. app_of with ≡ with_rule (app_of command.entry) (operand name.entry.now)) }
    ensures globals { IfOk result (λ with. (fields_of with).has_globals ≡ false) }
{
    command.arg(operand(alloc, of, name))
}

/// `--NAME VALUE` or `--NAME=VALUE`, in the command `of`.
fn option<'a>(alloc: Global, of: &str, name: &'a str, required: bool) -> Arg<'a>
    ensures rule { rule_of result ≡ option name.entry.now required }
    ensures global { result.global ≡ false }
{
    let described = described(of, name);
    Arg::new(alloc, name)
        .long(name)
        .action(ArgAction::Set)
        .required(required)
        .value_name(described.value)
        .help(described.help)
}

/// `--NAME`, in the command `of`.
fn flag<'a>(alloc: Global, of: &str, name: &'a str) -> Arg<'a>
    ensures rule { rule_of result ≡ flag name.entry.now }
    ensures global { result.global ≡ false }
{
    let described = described(of, name);
    Arg::new(alloc, name)
        .long(name)
        .action(ArgAction::SetTrue)
        .help(described.help)
}

/// A word of the command `of`, which has to be there.
fn operand<'a>(alloc: Global, of: &str, name: &'a str) -> Arg<'a>
    ensures rule { rule_of result ≡ operand name.entry.now }
    ensures global { result.global ≡ false }
{
    let described = described(of, name);
    Arg::new(alloc, name)
        .action(ArgAction::Set)
        .required(true)
        .value_name(described.value)
        .help(described.help)
}
