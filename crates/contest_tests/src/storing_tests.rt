use crate::farm_cli_tests::{bytes_of, end_on, tree_of};
use farm_io::{ReliableSink, ReliableSource};
use farm_kinds::NoMemory;
use judgehost::AlwaysOn;
use record_store::MemoryDisk;
use std::alloc::Global;
use std::process::Abort;
use std::sync::Wait;
use std::test::Fail;
use std::thread::Threads;

/// How many bytes a sink of these tests holds.
const ROOM: usize = 65_536;

/// Runs on one disk, one behind the other: words, the input, the status and the output.
const RUNS: &str = concat!(
    "farm store s||0|\n",
    "farm script --store s --config none.json|show 1~|3|bad contest: no config~\n",
    "farm script --store s|problem A 1~submit A~record 1 1 correct~show 1~|0|",
    "problem A version 1~submission 1 judging 1~counted~final correct~\n",
    "farm script --store s|show 1~record 1 1 correct~|0|final correct~repeat correct~\n",
    "farm script --store s --config farm.json|show 1~|13|bad store: other config~\n",
    "farm store s||0|# config e3b0c44298fc1c149afbf4c8996fb92427ae41e4649b934ca495991b7852b855~",
    "problem A 1~submit A~record 1 1 correct~\n",
);

/// Runs the words of a row on the disk, and compares the status and the output with those of the row.
fn check_run(
    rt: &(impl Abort + Threads + Wait + Sync),
    alloc: Global,
    row: &str,
    disk: &mut MemoryDisk,
) -> Result<(), NoMemory> {
    let mut parts = row.split('|');
    let line = parts.next().unwrap_or("");
    let lines = bytes_of(alloc, parts.next().unwrap_or(""))?;
    let status = parts.next().unwrap_or("");
    let text = bytes_of(alloc, parts.next().unwrap_or(""))?;
    let mut tree = tree_of(alloc, "farm.json", b"{}")?;
    let mut input = ReliableSource::new(lines);
    let mut out = ReliableSink::new(Vec::with_capacity(alloc, ROOM)?);
    let exit = end_on(
        rt, alloc, line, &mut tree, &mut input, &mut out, &AlwaysOn, disk,
    )?;
    let told = format!(in alloc; "{}", exit.status())?;
    assert_eq!(rt;
        (told.as_str(), out.bytes()),
        (status, text.as_slice()),
        "{row}"
    );
    Ok(())
}

#[test]
fn a_store_is_played_on_and_listed(rt: HostRuntime) -> Result<(), Fail> {
    let alloc = rt.alloc();
    let mut disk = MemoryDisk::new(alloc, Vec::new(alloc), Vec::new(alloc))?;
    for row in RUNS.lines() {
        check_run(&rt, alloc, row, &mut disk)?;
    }
    Ok(())
}
