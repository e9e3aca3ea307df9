//! A store is stopped at each call of its disk, and opened on what a crash may leave there.

use crate::playing::{Ran, played};
use farm_kinds::NoMemory;
use record_store::{Call, MemoryDisk};
use script_session::StoredEnd;
use std::alloc::{AllocError, Global};
use std::process::Abort;
use std::test::Fail;

const CONFIG: [u8; 32] = [7; 32];

/// How many calls of the disk the rows below take: 54 writes and syncs, and 46 others.
const CALLS: u64 = 100;

/// Lines of a rejudging, a row each, and behind `=>` the board once the line and those before it were answered.
const ROWS: &str = concat!(
    "problem A 1=>board 0~\n",
    "submit A=>1 pending~board 1~\n",
    "submit A=>1 pending~2 pending~board 2~\n",
    "record 1 1 correct=>1 correct~2 pending~board 2~\n",
    "record 2 1 wrong-answer=>1 correct~2 wrong-answer~board 2~\n",
    "rejudge 1,2=>1 correct~2 wrong-answer~board 2~\n",
    "record 3 1 wrong-answer=>1 correct~2 wrong-answer~board 2~\n",
    "apply 1=>1 correct~2 wrong-answer~board 2~\n",
    "board=>1 correct~2 wrong-answer~board 2~\n",
    "record 4 1 correct=>1 correct~2 wrong-answer~board 2~\n",
    "matrix 1=>1 correct~2 wrong-answer~board 2~\n",
    "apply 1=>1 wrong-answer~2 correct~board 2~\n",
);

/// The board once `answered` rows were answered. Nothing where there are not as many.
fn board_after(alloc: Global, answered: usize) -> Result<String, AllocError> {
    let row = match answered.checked_sub(1) {
        Some(last) => ROWS.lines().nth(last).unwrap_or(""),
        None => "=>board 0~",
    };
    let (_, board) = row.split_once("=>").unwrap_or((row, ""));
    board.replace(alloc, '~', "\n")
}

/// Plays the rows one by one, each on the store opened anew, until that is stopped. Says how many were answered.
fn answered_on(alloc: Global, disk: &mut MemoryDisk) -> Result<usize, NoMemory> {
    let mut answered = 0usize;
    for row in ROWS.lines() {
        let (line, _) = row.split_once("=>").unwrap_or((row, ""));
        let (ran, _out) = played(alloc, disk, &CONFIG, line.as_bytes())?;
        if ran != Ran::Ended(StoredEnd::Done) {
            return Ok(answered);
        }
        answered = answered.saturating_add(1);
    }
    Ok(answered)
}

/// What stands on a disk: the bytes at its last sync, and the write behind it.
#[derive(Drop)]
struct Standing {
    synced: Vec<u8>,
    at: usize,
    written: Vec<u8>,
}

/// Puts bytes in place of those from the offset on, and behind the end.
fn overlay(file: &mut Vec<u8>, at: usize, bytes: &[u8]) -> Result<(), AllocError> {
    let mut place = at;
    for byte in bytes.iter() {
        if place < file.len() {
            file[place] = *byte;
        } else {
            file.push(*byte)?;
        }
        place = place.saturating_add(1);
    }
    Ok(())
}

/// What stands on an empty disk behind these calls, of which the last one failed.
fn standing_after(alloc: Global, calls: &[Call]) -> Result<Standing, AllocError> {
    let mut standing = Standing {
        synced: Vec::new(alloc),
        at: 0,
        written: Vec::new(alloc),
    };
    let mut left = calls.len();
    for call in calls.iter() {
        left = left.saturating_sub(1);
        match call {
            Call::Write { at, bytes } => {
                standing.at = *at as usize;
                standing.written = bytes.as_slice().to_vec(alloc)?;
            }
            Call::Sync => {
                if left > 0 {
                    overlay(
                        &mut standing.synced,
                        standing.at,
                        standing.written.as_slice(),
                    )?;
                    standing.written.clear();
                }
            }
            _ => {}
        }
    }
    Ok(standing)
}

/// How a crash leaves a write that was not synced.
#[derive(Clone, Copy)]
enum Fill {
    Old,
    New,
    Zeros,
    Ones,
    Drawn,
}

const FILLS: [Fill; 5] = [Fill::Old, Fill::New, Fill::Zeros, Fill::Ones, Fill::Drawn];

/// Puts bytes that are drawn, from this number on, in place of these.
fn draw(bytes: &mut Vec<u8>, number: usize) {
    let mut drawn = (number % 65_536) as u32;
    for byte in bytes.iter_mut() {
        drawn = drawn.wrapping_mul(1_664_525).wrapping_add(1_013_904_223);
        *byte = (drawn / 16_777_216) as u8;
    }
}

/// What a crash may leave, of this length.
fn image_of(
    alloc: Global,
    standing: &Standing,
    fill: Fill,
    len: usize,
) -> Result<Vec<u8>, AllocError> {
    let mut image = standing.synced.as_slice().to_vec(alloc)?;
    let mut filled = standing.written.as_slice().to_vec(alloc)?;
    match fill {
        Fill::Old => filled.clear(),
        Fill::New => {}
        Fill::Zeros => filled.fill(0),
        Fill::Ones => filled.fill(1),
        Fill::Drawn => draw(&mut filled, len),
    }
    overlay(&mut image, standing.at, filled.as_slice())?;
    image.resize(len, 0)?;
    Ok(image)
}

/// Opens a store on what a crash left, and compares its board with those behind `answered` rows and behind one
/// more.
fn check_image(
    rt: &impl Abort,
    alloc: Global,
    image: Vec<u8>,
    answered: usize,
) -> Result<(), NoMemory> {
    let mut disk = MemoryDisk::new(alloc, image, Vec::new(alloc))?;
    let (ran, out) = played(alloc, &mut disk, &CONFIG, b"board\n")?;
    let before = board_after(alloc, answered)?;
    let behind = board_after(alloc, answered.saturating_add(1))?;
    let board = out.bytes();
    let kept = board == before.as_bytes() || board == behind.as_bytes();
    assert!(rt;
        ran == Ran::Ended(StoredEnd::Done) && kept,
        "{answered} rows: {ran:?}"
    );
    Ok(())
}

/// Checks all images of what stands on a disk.
fn check_standing(
    rt: &impl Abort,
    alloc: Global,
    standing: &Standing,
    answered: usize,
) -> Result<(), NoMemory> {
    let end = standing.at.saturating_add(standing.written.len());
    let longest = end.max(standing.synced.len());
    for fill in FILLS.iter() {
        for len in standing.synced.len()..longest.saturating_add(1) {
            let image = image_of(alloc, standing, *fill, len)?;
            check_image(rt, alloc, image, answered)?;
        }
    }
    Ok(())
}

/// Stops a store at this call of its disk, and checks what is left. Says whether it was stopped.
fn check_stopped_at(rt: &impl Abort, alloc: Global, call: u64) -> Result<bool, NoMemory> {
    let failing = [call].as_slice().to_vec(alloc)?;
    let mut disk = MemoryDisk::new(alloc, Vec::new(alloc), failing)?;
    let answered = answered_on(alloc, &mut disk)?;
    if disk.calls().len() as u64 != call.saturating_add(1) {
        return Ok(false);
    }
    let standing = standing_after(alloc, disk.calls())?;
    check_standing(rt, alloc, &standing, answered)?;
    Ok(true)
}

#[test]
fn every_crash_opens_to_a_prefix(rt: HostRuntime) -> Result<(), Fail> {
    let mut stopped = 0u64;
    for call in 0..CALLS.saturating_add(1) {
        if check_stopped_at(&rt, rt.alloc(), call)? {
            stopped = stopped.saturating_add(1);
        }
    }
    assert_eq!(rt; stopped, CALLS, "stopped at {stopped} calls");
    Ok(())
}
