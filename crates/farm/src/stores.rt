//! What is wrong with a store, and what stands behind its records, as a person is told it.
ghost use Rattle.std.specs.Prelude.{None};
ghost use Rattle.farm_io.specs.Beside.{one_sided};

use crate::explanations::refuse;
use exit_status::{Exit, StoreFlaw};
use farm_io::{PutEnd, Sink};
use people::Person;
use record_store::{Access, Disk, FileDisk};
use std::alloc::AllocError;
use std::fs::{File, OpenFile, OpenOptions, TryLockError};
use std::{fs, io};
use store_listing::list_store;
use watched_tree::said;

/// The SHA-256 digest of no bytes, of which a store without a file of settings is.
const OF_NO_BYTES: &[u8; 64] = b"e3b0c44298fc1c149afbf4c8996fb92427ae41e4649b934ca495991b7852b855";

/// Tells the person why the disk of the store at the path failed: what was found is looked for once more.
pub(crate) fn explain_store_fault<P: Person>(
    rt: &HostRuntime,
    path: &str,
    access: Access,
    person: &mut P,
) {
    let behind = match access {
        Access::Change =>
            "; what was answered is stored, and the next call with this store goes on from there",
        Access::Read => "; nothing was written to it",
    };
    refuse(person, store_text(rt, path, access, behind));
}

fn store_text(
    rt: &HostRuntime,
    path: &str,
    access: Access,
    behind: &str,
) -> Result<String, AllocError> {
    match store_reason(rt, path, access)? {
        Some(reason) => format!(in rt.alloc(); "the store cannot be used: {reason}{behind}"),
        None => format!(in rt.alloc();
            "the store {path} could not be read or written (is the disk full?){behind}"
        ),
    }
}

/// Tells the person what is wrong with the file at the path.
pub(crate) fn explain_flaw<P: Person>(
    rt: &HostRuntime,
    flaw: StoreFlaw,
    path: &str,
    person: &mut P,
) {
    refuse(person, flaw_text(rt, flaw, path));
}

fn flaw_text(rt: &HostRuntime, flaw: StoreFlaw, path: &str) -> Result<String, AllocError> {
    match flaw {
        StoreFlaw::OtherConfig { kept } => other_text(rt, &kept, path),
        StoreFlaw::Record { number: 1 } => format!(in rt.alloc();
            "{path} is no store: it does not begin with the record of a configuration; nothing was written to it"
        ),
        StoreFlaw::Record { number } => format!(in rt.alloc();
            "record {number} of {path} is no event that this farm would have stored there, so the file was changed; 'farm store {path}' writes its records, the {number}th as line {number}; nothing was written to it, and no line was read"
        ),
    }
}

/// Of which configuration a store is.
fn other_text(rt: &HostRuntime, kept: &[u8; 32], path: &str) -> Result<String, AllocError> {
    let mut digits = [0u8; 64];
    // There is room for 64 digits.
    let _written = hex::encode_to_slice(kept, &mut digits);
    if &digits == OF_NO_BYTES {
        return format!(in rt.alloc();
            "{path} was begun without --config, and goes on without it alone; nothing was written to it, and no line was read"
        );
    }
    let digits = str::from_utf8(&digits).unwrap_or("");
    format!(in rt.alloc();
        "{path} was begun with another --config FILE: one whose SHA-256 digest is {digits} (compare 'sha256sum FILE'); nothing was written to it, and no line was read"
    )
}

/// Tells the person that the store at the path is full.
pub(crate) fn explain_full<P: Person>(rt: &HostRuntime, path: &str, end: u64, person: &mut P) {
    refuse(person, full_text(rt, path, end));
}

fn full_text(rt: &HostRuntime, path: &str, end: u64) -> Result<String, AllocError> {
    format!(in rt.alloc();
        "the store {path} is full: the record of the next event would end at byte {end}, and 1073741824 is the last; what was answered is stored"
    )
}

/// Tells the person how the listing of the store at the path ended.
pub(crate) fn explain_listing<P: Person>(rt: &HostRuntime, exit: Exit, path: &str, person: &mut P) {
    match exit {
        Exit::Done => tell_rest(rt, path, person),
        Exit::StoreFault => explain_store_fault(rt, path, Access::Read, person),
        Exit::BadStore { .. } => explain_flaw(rt, StoreFlaw::Record { number: 1 }, path, person),
        Exit::WriteFault => person.refuses(
            "standard output could not be written (is the disk full, or its reader gone?); lines are missing",
        ),
        Exit::Memory => person.refuses(
            "out of memory; lines are missing. Run it again with more memory",
        ),
        _ => {}
    }
}

/// Tells the person how many bytes of a record that was not finished stand behind the records of the store at the path.
fn tell_rest<P: Person>(rt: &HostRuntime, path: &str, person: &mut P) {
    let mut disk = FileDisk::new(rt.alloc(), rt);
    if disk.open(path, Access::Read).is_err() {
        return;
    }
    match list_store(rt.alloc(), &mut disk, &mut Unseen) {
        // Behind a record stands a gate.
        Ok(rest) if rest > 1 => {
            if let Ok(text) = rest_text(rt, path, rest - 1) {
                person.notes(text.as_str());
            }
        }
        _ => {}
    }
}

fn rest_text(rt: &HostRuntime, path: &str, rest: u64) -> Result<String, AllocError> {
    format!(in rt.alloc();
        "{path}: behind its last record stand {rest} bytes of one that was not finished, and that is not held"
    )
}

/// Where bytes are let go.
#[derive(Drop)]
struct Unseen;

impl Sink for Unseen {
    ghost held = { λ _. None };

    ghost faults = { λ _. 0 };

    ghost beside = { λ _. one_sided };

    fn put(&mut self, _piece: &[u8]) -> PutEnd {
        PutEnd::Done
    }
}

/// Why the file at the path cannot be opened as a store, with the path. None where it can.
fn store_reason(
    rt: &HostRuntime,
    path: &str,
    access: Access,
) -> Result<Option<String>, AllocError> {
    match fs::metadata(rt, path) {
        Ok(about) => {
            if about.is_dir() {
                return told(rt, path, "it is a folder, and a file is wanted");
            }
            if !about.is_file() {
                return told(
                    rt,
                    path,
                    "it is a pipe, a socket or a device, and a file is wanted",
                );
            }
        }
        Err(error) => return said(rt.alloc(), path, &error),
    }
    match open_again(rt, path, access) {
        Ok(file) => lock_reason(rt, path, &file, access),
        Err(error) => said(rt.alloc(), path, &error),
    }
}

/// The file at the path, which is there.
fn open_again(rt: &HostRuntime, path: &str, access: Access) -> io::Result<File> {
    OpenOptions::new()
        .read(true)
        .write(access == Access::Change)
        .open(rt, path)
}

/// Why the file cannot be locked. None where it can.
fn lock_reason(
    rt: &HostRuntime,
    path: &str,
    file: &File,
    access: Access,
) -> Result<Option<String>, AllocError> {
    let locked = match access {
        Access::Change => file.try_lock(),
        Access::Read => file.try_lock_shared(),
    };
    match locked {
        Ok(()) => Ok(None),
        Err(TryLockError::WouldBlock) => told(rt, path, "another program has it open as a store"),
        Err(TryLockError::Error(error)) => said(rt.alloc(), path, &error),
    }
}

/// The path, with what is told of it.
fn told(rt: &HostRuntime, path: &str, reason: &str) -> Result<Option<String>, AllocError> {
    Ok(Some(format!(in rt.alloc(); "{path}: {reason}")?))
}
