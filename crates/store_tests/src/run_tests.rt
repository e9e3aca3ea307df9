use crate::playing::{Ran, played};
use farm_kinds::NoMemory;
use record_store::{MemoryDisk, push_record};
use script_session::StoredEnd;
use std::alloc::Global;
use std::process::Abort;
use std::test::Fail;
use stored_events::{OpenFault, config_line};

const CONFIG: [u8; 32] = [7; 32];

const OTHER: [u8; 32] = [8; 32];

const FIRST: &[u8] = b"problem A 1\nsubmit A\nrecord 1 1 correct\nshow 1\n";

const SECOND: &[u8] = b"show 1\nrecord 1 1 correct\n";

/// Compares what a run came to and what it wrote.
fn check(rt: &impl Abort, ran: Ran, wanted: Ran, written: &[u8], text: &[u8], name: &str) {
    assert_eq!(rt; (ran, written), (wanted, text), "{name}");
}

/// Plays lines on the disk, and compares what that comes to.
fn check_played(
    rt: &impl Abort,
    alloc: Global,
    disk: &mut MemoryDisk,
    config: &[u8; 32],
    lines: &[u8],
    wanted: Ran,
    text: &[u8],
    name: &str,
) -> Result<(), NoMemory> {
    let (ran, out) = played(alloc, disk, config, lines)?;
    check(rt, ran, wanted, out.bytes(), text, name);
    Ok(())
}

/// The file of a store with these lines, and a closed gate behind them.
fn file_of(alloc: Global, config: &[u8; 32], lines: &[&[u8]]) -> Result<Vec<u8>, NoMemory> {
    let mut file = Vec::new(alloc);
    push_record(&mut file, &config_line(config))?;
    for line in lines {
        if line.len() < 100 {
            push_record(&mut file, line)?;
        }
    }
    file.extend_from_slice(&[0])?;
    Ok(file)
}

#[test]
fn a_store_is_played_on(rt: HostRuntime) -> Result<(), Fail> {
    let alloc = rt.alloc();
    let mut disk = MemoryDisk::new(alloc, Vec::new(alloc), Vec::new(alloc))?;
    let done = Ran::Ended(StoredEnd::Done);
    let first = b"problem A version 1\nsubmission 1 judging 1\ncounted\nfinal correct\n";
    check_played(&rt, alloc, &mut disk, &CONFIG, FIRST, done, first, "first")?;
    let file = file_of(
        alloc,
        &CONFIG,
        &[b"problem A 1", b"submit A", b"record 1 1 correct"],
    )?;
    assert_eq!(rt; disk.bytes(), file.as_slice());
    let second = b"final correct\nrepeat correct\n";
    check_played(
        &rt, alloc, &mut disk, &CONFIG, SECOND, done, second, "second",
    )?;
    assert_eq!(rt; disk.bytes(), file.as_slice());
    let other = Ran::NotOpened(OpenFault::OtherConfig { kept: CONFIG });
    check_played(
        &rt,
        alloc,
        &mut disk,
        &OTHER,
        SECOND,
        other,
        b"",
        "another configuration",
    )?;
    assert_eq!(rt; disk.bytes(), file.as_slice());
    Ok(())
}

/// A disk whose sync fails ends the run, and the reply to what it did not store is not written.
#[test]
fn a_sync_that_fails_ends_the_run(rt: HostRuntime) -> Result<(), Fail> {
    let alloc = rt.alloc();
    let mut disk = MemoryDisk::new(alloc, Vec::new(alloc), Vec::new(alloc))?;
    let done = Ran::Ended(StoredEnd::Done);
    let version = b"problem A version 1\n";
    check_played(
        &rt,
        alloc,
        &mut disk,
        &CONFIG,
        b"problem A 1\n",
        done,
        version,
        "a problem",
    )?;
    let bytes = disk.bytes().to_vec(alloc)?;
    // The store is opened by a sync, a length and three readings. Then come a write and its sync, the seventh call.
    let failing = [6u64].as_slice().to_vec(alloc)?;
    let mut faulty = MemoryDisk::new(alloc, bytes, failing)?;
    let fault = Ran::Ended(StoredEnd::StoreFault);
    check_played(
        &rt,
        alloc,
        &mut faulty,
        &CONFIG,
        b"submit A\n",
        fault,
        b"",
        "a submission",
    )?;
    Ok(())
}
