use crate::readers::{Reader, check_rows};
use command_line::{Command, read_command};
use farm_kinds::{Name, NoMemory};
use std::alloc::{AllocError, Global};

/// Words behind `farm`, with a space between two of them, and what is read of them, as `told` says it.
const ROWS: &str = concat!(
    "judge c --hosts 0 => judge c 0 false\n",
    "judge c --hosts=0 => judge c 0 false\n",
    "judge --hosts 16 c => judge c 16 false\n",
    "judge --hosts=16 c => judge c 16 false\n",
    "judge c --hosts 1 --journal => judge c 1 true\n",
    "judge c --journal --hosts 9 => judge c 9 true\n",
    "judge --journal c --hosts 10 => judge c 10 true\n",
    "judge --hosts 2 c --journal => judge c 2 true\n",
    "judge --hosts=3 --journal c => judge c 3 true\n",
    "judge --journal --hosts=4 c => judge c 4 true\n",
    "judge => none\n",
    "judge c => none\n",
    "judge --hosts 1 => none\n",
    "judge --hosts=1 => none\n",
    "judge c --journal => none\n",
    "judge --hosts 1 --journal => none\n",
    "judge c --hosts => none\n",
    "judge c --hosts= => none\n",
    "judge c --hosts  => none\n",
    "judge c --hosts 17 => none\n",
    "judge c --hosts=17 => none\n",
    "judge c --hosts 4294967296 => none\n",
    "judge c --hosts 00 => none\n",
    "judge c --hosts 01 => none\n",
    "judge c --hosts=01 => none\n",
    "judge c --hosts +1 => none\n",
    "judge c --hosts -1 => none\n",
    "judge c --hosts 1\t => none\n",
    "judge c --hosts one => none\n",
    "judge c --hosts --journal => none\n",
    "judge c --hosts 1 --hosts 1 => none\n",
    "judge c --hosts=1 --hosts=1 => none\n",
    "judge c --hosts=1 --hosts => none\n",
    "judge c --hosts 1 --journal --journal => none\n",
    "judge c --hosts 1 --journal= => none\n",
    "judge c --hosts 1 --journals => none\n",
    "judge c c --hosts 1 => none\n",
    "judge c --hosts 1  => none\n",
    "judge - --hosts 1 => none\n",
    "judge -- --hosts 1 => none\n",
    "judge --journal --hosts=16 a/b => judge a/b 16 true\n",
    "judge judge --hosts 1 => judge judge 1 false\n",
    "script => script - -\n",
    "script --config f => script f -\n",
    "script --config=f=g => script f=g -\n",
    "script --store=s --config f => script f s\n",
    "script --store s --store s => none\n",
    "script --store= => none\n",
    "script x => none\n",
    "script  => none\n",
    "script -- => none\n",
    "script --config => none\n",
    "script --config= => none\n",
    "script --config=-f => none\n",
    "store s => store s\n",
    "store => none\n",
    "store s t => none\n",
    "make 4294967295 50 2000 => make 4294967295 50 2000\n",
    "make 4294967296 50 2000 => none\n",
    "make 0 0 3 => none\n",
    "make 0 1 => none\n",
    "serve c --port 65535 --lanes 16 --connections 100000 => serve c 127.0.0.1 65535 16 100000 60 false\n",
    "serve --until-input-ends --patience=3600 --connections=1 --lanes=1 --port=0 --address=::1 c => serve c ::1 0 1 1 3600 true\n",
    "serve c --address 0.0.0.0 --port 0 --lanes 1 --connections 1 => serve c 0.0.0.0 0 1 1 60 false\n",
    "serve c --address localhost --port 0 --lanes 1 --connections 1 => none\n",
    "serve c --address 127.0.0.01 --port 0 --lanes 1 --connections 1 => none\n",
    "serve c --address ::1 --address ::1 --port 0 --lanes 1 --connections 1 => none\n",
    "serve c --port 65536 --lanes 1 --connections 1 => none\n",
    "serve c --port 0 --lanes 1 => serve c 127.0.0.1 0 1 4294967295 60 false\n",
    "serve c --port 0 --lanes 1 --connections 0 => none\n",
    "serve c --port 0 --lanes 1 --connections 100001 => none\n",
    "serve c --port 0 --lanes 1 --connections 4294967295 => none\n",
    "serve c --port 0 --lanes 1 --connections 1 --patience 0 => none\n",
    "serve c --port 0 --lanes 1 --connections 1 --patience 3601 => none\n",
    "serve c --port 0 --lanes 1 --connections 1 --until-input-ends=true => none\n",
    "host a.example --port 65535 --name north-1 --fuel 4294967295 => host a.example 65535 north-1 4294967295 0 - -\n",
    "host --wait=60 --fuel=1 --name=h --port=1 ::1 => host ::1 1 h 1 60 - -\n",
    "host a --port 1 --name h --fuel 1 --user u@v --password-file p/q => host a 1 h 1 0 u@v p/q\n",
    "host --password-file=q --user=u --wait=5 --fuel=1 --name=h --port=1 a => host a 1 h 1 5 u q\n",
    "host a --port 1 --name h --fuel 1 --user u => none\n",
    "host a --port 1 --name h --fuel 1 --password-file q => none\n",
    "host a --port 1 --name h --fuel 1 --user u:v --password-file q => none\n",
    "host a --port 1 --name h --fuel 1 --user u\x7f --password-file q => none\n",
    "host a --port 0 --name h --fuel 1 => none\n",
    "host a --port 1 --name h --fuel 0 => none\n",
    "host a --port 1 --name h --fuel 4294967296 => none\n",
    "host a --port 1 --name h.1 --fuel 1 => none\n",
    "host a --port 1 --name h --fuel 1 --wait 0 => none\n",
    "host a --port 1 --name h --fuel 1 --wait 61 => none\n",
    "host a --port 1 --name h --fuel 1 --wait => none\n",
    "host a --port 1 --name h => none\n",
    "host --port 1 --name h --fuel 1 => none\n",
    " => none\n",
    "help => none\n",
    "--help => none\n",
    "judge --help => none\n",
    "-- script => none\n",
);

/// The name of the program, and the words of the line between single spaces.
fn words(alloc: Global, line: &str) -> Result<Vec<String>, AllocError> {
    let mut words = Vec::new(alloc);
    push_word(alloc, &mut words, "farm")?;
    for word in line.split(' ') {
        push_word(alloc, &mut words, word)?;
    }
    Ok(words)
}

fn push_word(alloc: Global, words: &mut Vec<String>, word: &str) -> Result<(), AllocError> {
    Ok(words.push(String::from_str(alloc, word)?)?)
}

/// What is told of the words of a line.
pub(crate) fn command_told(alloc: Global, line: &str) -> Result<Vec<u8>, NoMemory> {
    let words = words(alloc, line)?;
    Ok(told_of(alloc, words.as_slice())?.into_bytes())
}

/// What is read of the words.
fn told_of(alloc: Global, words: &[String]) -> Result<String, NoMemory> {
    match read_command(alloc, words) {
        Ok(Some(command)) => Ok(told(alloc, &command)?),
        Ok(None) => Ok(String::from_str(alloc, "none")?),
        Err(NoMemory) => Err(NoMemory),
    }
}

/// The command and what it says, in the order of its fields and with a space between two of them. An option that was left
/// out is `-`, and a wait 0.
fn told(alloc: Global, command: &Command<'_>) -> Result<String, AllocError> {
    match command {
        Command::Script { config, store } => {
            format!(in alloc; "script {} {}", config.unwrap_or("-"), store.unwrap_or("-"))
        }
        Command::Store { path } => format!(in alloc; "store {path}"),
        Command::Judge {
            folder,
            hosts,
            journal,
        } => format!(in alloc; "judge {folder} {} {journal}", hosts.get()),
        Command::Make { number, size } => {
            format!(in alloc; "make {number} {} {}", size.problems(), size.submissions())
        }
        Command::Serve {
            folder,
            address,
            port,
            lanes,
            connections,
            patience,
            until_input_ends,
        } => format!(in alloc;
            "serve {folder} {address} {port} {} {} {} {until_input_ends}",
            lanes.get(),
            connections.get(),
            patience.get()
        ),
        Command::Host {
            address,
            port,
            name,
            fuel,
            wait,
            login,
        } => {
            let (user, file) = match login {
                Some(login) => (login.user, login.password_file),
                None => ("-", "-"),
            };
            format!(in alloc;
                "host {address} {port} {} {fuel} {} {user} {file}",
                name_text(name),
                wait.unwrap_or(0)
            )
        }
    }
}

/// The name as text.
fn name_text(name: &Name) -> &str {
    str::from_utf8(name.as_bytes()).unwrap_or("no text")
}

#[test]
fn rows(rt: HostRuntime) {
    check_rows(&rt, ROWS, Reader::Command);
}
