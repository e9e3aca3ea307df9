use crate::host_count::HostCount;
use crate::made_size::MadeSize;
use crate::serving::{Connections, Lanes, Patience};
use farm_kinds::Name;
use std::net::IpAddr;

/// The user whom a proxy asks for, and the file that holds the password.
#[derive(Clone, Copy, Debug, PartialEq, Eq)]
pub struct Login<'a> {
    pub user: &'a str,
    pub password_file: &'a str,
}

/// What the words of the command line ask for.
#[derive(Clone, Copy, Debug, PartialEq, Eq)]
pub enum Command<'a> {
    /// The lines of a script, by the settings of the file at this path, or by the standard ones; over the store at this
    /// path, if there is to be one.
    Script {
        config: Option<&'a str>,
        store: Option<&'a str>,
    },
    /// The lines of the store at this path.
    Store {
        path: &'a str,
    },
    /// The contest in this folder, by as many hosts as `hosts` says, and whether a journal is asked for.
    Judge {
        folder: &'a str,
        hosts: HostCount,
        journal: bool,
    },
    /// The contest that is made of this number, with as many problems and submissions as `size` says.
    Make {
        number: u32,
        size: MadeSize,
    },
    /// The contest in this folder, at this address and port of the machine, where 0 is any port that is free; and whether
    /// no connection comes any more once the standard input has ended.
    Serve {
        folder: &'a str,
        address: IpAddr,
        port: u16,
        lanes: Lanes,
        connections: Connections,
        patience: Patience,
        until_input_ends: bool,
    },
    /// As the judgehost of this name at the server of this address and port, with at most `fuel` claims; where no task
    /// is open, with a pause of `wait` seconds before the next one, if there is to be one; and as whom it asks a
    /// proxy, if one is there.
    Host {
        address: &'a str,
        port: u16,
        name: Name,
        fuel: u32,
        wait: Option<u16>,
        login: Option<Login<'a>>,
    },
}
