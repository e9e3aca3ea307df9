//! Why the program ended as it did, as a person is told it. Why a folder is no contest, why a file gives no
//! settings, and which answer of a server was a wrong one, was told by the command.
use crate::stores::{explain_flaw, explain_full, explain_listing, explain_store_fault};
use command_line::{Command, Login};
use exit_status::Exit;
use people::Person;
use record_store::Access;
use std::alloc::AllocError;
use std::net::IpAddr;
use watched_tree::unread_reason;

/// Tells the person why the command is not done, and what can be done about it. `failed` is the path of the last file or folder
/// that could not be read. What no memory is left to say is left out.
pub(crate) fn explain<P: Person>(
    rt: &HostRuntime,
    exit: Exit,
    command: &Command<'_>,
    failed: Option<&str>,
    person: &mut P,
) {
    match command {
        Command::Judge { folder, .. } => explain_judging(rt, exit, folder, failed, person),
        Command::Script { config, store } => explain_script(
            rt,
            exit,
            config.unwrap_or(""),
            store.unwrap_or(""),
            failed,
            person,
        ),
        Command::Store { path } => explain_listing(rt, exit, path, person),
        Command::Make { .. } => explain_making(exit, person),
        Command::Serve {
            folder,
            address,
            port,
            ..
        } => explain_serving(rt, exit, folder, *address, *port, failed, person),
        Command::Host {
            address,
            port,
            login,
            ..
        } => explain_hosting(rt, exit, address, *port, *login, person),
    }
}

/// Tells the person the reason, where there was memory to make it.
pub(crate) fn refuse<P: Person>(person: &mut P, reason: Result<String, AllocError>) {
    if let Ok(reason) = reason {
        person.refuses(reason.as_str());
    }
}

/// Which file of the contest cannot be read. `end` is what came of it.
fn contest_text(
    rt: &HostRuntime,
    folder: &str,
    failed: Option<&str>,
    end: &str,
) -> Result<String, AllocError> {
    match unread(rt, failed)? {
        Some(reason) => format!(in rt.alloc(); "{folder} cannot be read: {reason}; {end}"),
        None => format!(in rt.alloc();
            "{folder} could not be read, for a reason that is gone by now; {end}"
        ),
    }
}

/// Why the file of settings cannot be read.
fn settings_text(rt: &HostRuntime, file: &str, failed: Option<&str>) -> Result<String, AllocError> {
    match unread(rt, failed)? {
        Some(reason) => format!(in rt.alloc();
            "the settings cannot be read: {reason}; no line was read"
        ),
        None => format!(in rt.alloc();
            "{file} could not be read, for a reason that is gone by now; no line was read"
        ),
    }
}

/// Why the file or folder at the path that failed cannot be read.
fn unread(rt: &HostRuntime, failed: Option<&str>) -> Result<Option<String>, AllocError> {
    match failed {
        Some(path) => unread_reason(&rt, rt.alloc(), path),
        None => Ok(None),
    }
}

fn explain_judging<P: Person>(
    rt: &HostRuntime,
    exit: Exit,
    folder: &str,
    failed: Option<&str>,
    person: &mut P,
) {
    match exit {
        Exit::TreeFault => refuse(
            person,
            contest_text(rt, folder, failed, "nothing was judged"),
        ),
        Exit::WriteFault => person.refuses(
            "standard output could not be written (is the disk full, or its reader gone?); lines are missing",
        ),
        Exit::Memory => person.refuses(
            "out of memory; nothing was written. Run it again with more memory, or with fewer hosts",
        ),
        _ => {}
    }
}

fn explain_serving<P: Person>(
    rt: &HostRuntime,
    exit: Exit,
    folder: &str,
    address: IpAddr,
    port: u16,
    failed: Option<&str>,
    person: &mut P,
) {
    match exit {
        Exit::TreeFault => refuse(
            person,
            contest_text(rt, folder, failed, "nobody was served"),
        ),
        Exit::WriteFault => person.refuses(
            "standard output could not be written (is the disk full, or its reader gone?); who was connected was served to the end",
        ),
        Exit::Memory => person.refuses(
            "out of memory; who was connected was served to the end. Run it again with more memory, or with fewer lanes",
        ),
        Exit::DoorFault => refuse(person, door_text(rt, address, port)),
        _ => {}
    }
}

/// Why no connection came.
fn door_text(rt: &HostRuntime, address: IpAddr, port: u16) -> Result<String, AllocError> {
    format!(in rt.alloc();
        "no connection can be had at port {port} of {address}: it is taken or may not be used, the address is not this machine's, or the system has no connection left; who was connected was served to the end"
    )
}

fn explain_hosting<P: Person>(
    rt: &HostRuntime,
    exit: Exit,
    address: &str,
    port: u16,
    login: Option<Login<'_>>,
    person: &mut P,
) {
    match exit {
        Exit::BadContest | Exit::TreeFault => explain_password(rt, exit, login, person),
        Exit::WriteFault => person.refuses(
            "standard output could not be written (is the disk full, or its reader gone?); what was run was posted",
        ),
        Exit::Memory => person.refuses(
            "out of memory; the server hands out again what was not posted. Run it again with more memory",
        ),
        Exit::LinkFault => refuse(person, link_text(rt, address, port)),
        _ => {}
    }
}

/// Why no answer came from a server.
fn link_text(rt: &HostRuntime, address: &str, port: u16) -> Result<String, AllocError> {
    format!(in rt.alloc();
        "no connection to port {port} of {address}, or it broke off or was silent for a minute: is 'farm serve' running there, and can it be reached?"
    )
}

/// Says why the file of a login gives no password. The password itself is never told.
fn explain_password<P: Person>(
    rt: &HostRuntime,
    exit: Exit,
    login: Option<Login<'_>>,
    person: &mut P,
) {
    let Some(login) = login else {
        return;
    };
    let file = login.password_file;
    if let Exit::BadContest = exit {
        refuse(person, no_password_text(rt, file));
    } else {
        refuse(person, unread_password_text(rt, file));
    }
}

fn no_password_text(rt: &HostRuntime, file: &str) -> Result<String, AllocError> {
    format!(in rt.alloc();
        "{file} holds no password: wanted are 1 to 1024 bytes without control characters, and perhaps a line end; nothing was connected"
    )
}

fn unread_password_text(rt: &HostRuntime, file: &str) -> Result<String, AllocError> {
    match unread_reason(&rt, rt.alloc(), file)? {
        Some(reason) => format!(in rt.alloc();
            "the password cannot be read: {reason}; nothing was connected"
        ),
        None => format!(in rt.alloc();
            "{file} could not be read, for a reason that is gone by now; nothing was connected"
        ),
    }
}

fn explain_making<P: Person>(exit: Exit, person: &mut P) {
    match exit {
        Exit::WriteFault => person.refuses(
            "standard output could not be written (is the disk full, or its reader gone?); lines are missing",
        ),
        Exit::Memory => person.refuses(
            "out of memory; nothing was written. Run it again with more memory, or with a smaller contest",
        ),
        _ => {}
    }
}

fn explain_script<P: Person>(
    rt: &HostRuntime,
    exit: Exit,
    file: &str,
    store: &str,
    failed: Option<&str>,
    person: &mut P,
) {
    match exit {
        Exit::TreeFault => refuse(person, settings_text(rt, file, failed)),
        Exit::ReadFault => person.refuses(
            "standard input could not be read on; all complete lines before that were answered",
        ),
        Exit::WriteFault => person.refuses(
            "standard output could not be written (is the disk full, or its reader gone?); replies are missing",
        ),
        Exit::Memory => person.refuses(
            "out of memory; the replies on standard output end early. Run it again with more memory",
        ),
        Exit::InputLimit => person.refuses(
            "standard input has 2^40 bytes or more, and no more are read; all complete lines before that were answered",
        ),
        Exit::StoreFault => explain_store_fault(rt, store, Access::Change, person),
        Exit::BadStore { flaw } => explain_flaw(rt, flaw, store, person),
        Exit::StoreFull { end } => explain_full(rt, store, end, person),
        _ => {}
    }
}
