//! The command that the words say.
ghost use Rattle.std.specs.Prelude.{◌≡◌, IfOk, codes, map, option_map, string_bytes};
ghost use Rattle.std.specs.Option.{option_and_then};
ghost use Rattle.clap.specs.Words.{first_of, found_of, rows_of, subcommand_rows_of};
ghost use Rattle.farm_model.specs.Numbers.{at_most, number_of};
ghost use Rattle.command_line.specs.Addresses.{address_with};
ghost use Rattle.command_line.specs.Ranges.{from_1_to};
ghost use Rattle.command_line.specs.CommandLine.{command_of, command_value, connections_with, host_of, is_said, judge_of, login_value, login_with, make_of, patience_with, said_of, script_of, serve_of, size_of, size_value, store_of, wait_with};

use crate::address::read_address;
use crate::checks::{are_plain, is_user};
use crate::host_count::HostCount;
use crate::made_size::MadeSize;
use crate::parsing::parse;
use crate::serving::{Connections, Lanes, Patience};
use crate::words::{Command, Login};
use clap::ArgMatches;
use command_text::read_number;
use farm_kinds::{Name, NoMemory};
use std::alloc::Global;
use std::net::{IpAddr, Ipv4Addr};

/// Reads the words of the command line. None where they are no command.
pub fn read_command<'a>(alloc: Global, words: &'a [String]) -> Result<Option<Command<'a>>, NoMemory>
    ensures { IfOk result (λ said. option_map command_value said ≡ command_of (map string_bytes words.entry.now)) }
{
    if !are_plain(words) {
        return Ok(None);
    }
    match parse(alloc, words)? {
        Some(matches) => Ok(said(&matches)),
        None => Ok(None),
    }
}

/// The command that was found, where its numbers are in range.
fn said<'a>(matches: &ArgMatches<'a>) -> Option<Command<'a>>
    ensures { option_map command_value result
        ≡ option_and_then (λ named. said_of named.0 named.1) (subcommand_rows_of matches.now) }
{
    let (name, found) = matches.subcommand()?;
    said_of(name, found)
}

/// What was found of the command with this name.
fn said_of<'a>(name: &str, found: &ArgMatches<'a>) -> Option<Command<'a>>
    ensures { option_map command_value result ≡ said_of name.now (rows_of (found_of found.now)) }
{
    if name == "judge" {
        return judge(found);
    }
    if name == "script" {
        return Some(script(found));
    }
    if name == "store" {
        return store(found);
    }
    if name == "make" {
        return make(found);
    }
    if name == "serve" {
        return serve(found);
    }
    if name == "host" {
        return host(found);
    }
    None
}

fn judge<'a>(found: &ArgMatches<'a>) -> Option<Command<'a>>
    ensures { option_map command_value result ≡ judge_of (rows_of (found_of found.now)) }
{
    let folder = text(found, "folder")?;
    let hosts = HostCount::new(number(found, "hosts")?)?;
    let journal = is_said(found, "journal");
    Some(Command::Judge {
        folder,
        hosts,
        journal,
    })
}

fn script<'a>(found: &ArgMatches<'a>) -> Command<'a>
    ensures { Some (command_value result) ≡ script_of (rows_of (found_of found.now)) }
{
    Command::Script {
        config: text(found, "config"),
        store: text(found, "store"),
    }
}

fn store<'a>(found: &ArgMatches<'a>) -> Option<Command<'a>>
    ensures { option_map command_value result ≡ store_of (rows_of (found_of found.now)) }
{
    let path = text(found, "file")?;
    Some(Command::Store { path })
}

fn make<'a>(found: &ArgMatches<'a>) -> Option<Command<'a>>
    ensures { option_map command_value result ≡ make_of (rows_of (found_of found.now)) }
{
    let number = number(found, "number")?;
    let size = size(found)?;
    Some(Command::Make { number, size })
}

/// How many problems and submissions the words ask for.
fn size(found: &ArgMatches<'_>) -> Option<MadeSize>
    ensures { option_map size_value result ≡ size_of (rows_of (found_of found.now)) }
{
    let problems = number(found, "problems")?;
    let submissions = number(found, "submissions")?;
    MadeSize::new(problems, submissions)
}

fn serve<'a>(found: &ArgMatches<'a>) -> Option<Command<'a>>
    ensures { option_map command_value result ≡ serve_of (rows_of (found_of found.now)) }
{
    let folder = text(found, "folder")?;
    let address = address(found)?;
    let port = port(number(found, "port")?)?;
    let lanes = Lanes::new(number(found, "lanes")?)?;
    let connections = connections(found)?;
    let patience = patience(found)?;
    let until_input_ends = is_said(found, "until-input-ends");
    Some(Command::Serve {
        folder,
        address,
        port,
        lanes,
        connections,
        patience,
        until_input_ends,
    })
}

/// The address that is said, or that of the machine itself. None where what is said is no address.
fn address(found: &ArgMatches<'_>) -> Option<IpAddr>
    ensures { result ≡ address_with (first_of (codes "address") (rows_of (found_of found.now))) }
{
    let Some(said) = text(found, "address") else {
        return Some(IpAddr::V4(Ipv4Addr::LOCALHOST));
    };
    read_address(said)
}

/// The number of connections that is said; a server that is told none serves on. None where what is said is no number
/// from 1 to 100,000.
fn connections(found: &ArgMatches<'_>) -> Option<Connections>
    ensures { option_map (λ connections. connections.count) result
        ≡ connections_with (first_of (codes "connections") (rows_of (found_of found.now))) }
{
    let Some(said) = text(found, "connections") else {
        return Some(Connections::unlimited());
    };
    Connections::new(read_number(said.as_bytes())?)
}

/// The patience that is said, or that of a minute. None where what is said is no number from 1 to 3,600.
fn patience(found: &ArgMatches<'_>) -> Option<Patience>
    ensures { option_map (λ patience. patience.seconds) result
        ≡ patience_with (first_of (codes "patience") (rows_of (found_of found.now))) }
{
    let Some(said) = text(found, "patience") else {
        return Patience::new(60);
    };
    Patience::new(read_number(said.as_bytes())?)
}

fn host<'a>(found: &ArgMatches<'a>) -> Option<Command<'a>>
    ensures { option_map command_value result ≡ host_of (rows_of (found_of found.now)) }
{
    let address = text(found, "address")?;
    let port = port_in_use(number(found, "port")?)?;
    let name = Name::read(text(found, "name")?.as_bytes())?;
    let fuel = fuel(number(found, "fuel")?)?;
    let wait = wait(found)?;
    let login = login(found)?;
    Some(Command::Host {
        address,
        port,
        name,
        fuel,
        wait,
        login,
    })
}

/// As whom a host asks a proxy, where it is said. None where only one of the two options is there, or the user is none.
fn login<'a>(found: &ArgMatches<'a>) -> Option<Option<Login<'a>>>
    ensures { option_map (λ login. option_map login_value login) result
        ≡ login_with (first_of (codes "user") (rows_of (found_of found.now))) (first_of (codes "password-file") (rows_of (found_of found.now))) }
{
    login_of(text(found, "user"), text(found, "password-file"))
}

/// As whom a host asks a proxy, by what the two options say. None where only one of them is there, or the user is none.
fn login_of<'a>(user: Option<&'a str>, file: Option<&'a str>) -> Option<Option<Login<'a>>>
    ensures { option_map (λ login. option_map login_value login) result
        ≡ login_with (option_map (λ text. text.now) user.entry) (option_map (λ text. text.now) file.entry) }
{
    match user {
        None => match file {
            None => Some(None),
            Some(_) => None,
        },
        Some(user) => match file {
            None => None,
            Some(password_file) => {
                if !is_user(user) {
                    return None;
                }
                Some(Some(Login {
                    user,
                    password_file,
                }))
            }
        },
    }
}

/// For how many seconds a host pauses, where it is said. None where what is said is no number from 1 to 60.
fn wait(found: &ArgMatches<'_>) -> Option<Option<u16>>
    ensures { result ≡ wait_with (first_of (codes "wait") (rows_of (found_of found.now))) }
{
    let Some(said) = text(found, "wait") else {
        return Some(None);
    };
    let seconds = seconds(read_number(said.as_bytes())?)?;
    Some(Some(seconds))
}

/// A number of seconds up to a minute, where the number is one.
fn seconds(number: u32) -> Option<u16>
    ensures { result ≡ from_1_to 60 number }
{
    if number < 1 || number > 60 {
        return None;
    }
    Some(number as u16)
}

/// A number of claims, where the number is one.
fn fuel(number: u32) -> Option<u32>
    ensures { result ≡ from_1_to 4294967295 number }
{
    if number < 1 {
        return None;
    }
    Some(number)
}

/// A port at which a server may listen, where the number is one.
fn port_in_use(number: u32) -> Option<u16>
    ensures { result ≡ from_1_to 65535 number }
{
    if number < 1 {
        return None;
    }
    port(number)
}

/// A port of a machine, where the number is one.
fn port(number: u32) -> Option<u16>
    ensures { result ≡ at_most 65535 number }
{
    if number > 65535 {
        return None;
    }
    Some(number as u16)
}

/// The number of an operand or an option: digits without a sign or a leading zero.
fn number(found: &ArgMatches<'_>, name: &str) -> Option<u32>
    ensures { result ≡ option_and_then number_of (first_of name.now (rows_of (found_of found.now))) }
{
    read_number(text(found, name)?.as_bytes())
}

/// Whether the flag was given.
fn is_said(found: &ArgMatches<'_>, name: &str) -> bool
    ensures { result ≡ is_said name.now (rows_of (found_of found.now)) }
{
    match text(found, name) {
        Some(word) => word == "true",
        None => false,
    }
}

/// The text of an operand or an option.
fn text<'a>(found: &ArgMatches<'a>, name: &str) -> Option<&'a str>
    ensures { option_map (λ word. word.now) result ≡ first_of name.now (rows_of (found_of found.now)) }
{
    found.get_str(name)
}
