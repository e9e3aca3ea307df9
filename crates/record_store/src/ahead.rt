//! Bytes of a file that are read ahead, so that a file of small records is read in few calls of its disk.
ghost use Rattle.std.specs.Prelude.{◌≡◌, ◌≤◌, ◌<◌, ◌+◌, ◌-◌, ◌^◌, true, ℕ, List, length, take, drop, IsTrue, OnOk};
ghost use Rattle.record_store.specs.Reading.{HasReadCause, IsAhead};

use crate::disk::Disk;
use crate::records::ReadFault;
use std::alloc::Global;

/// How many bytes are read ahead at most. No line of a record is longer.
const AHEAD: u64 = 65_536;

/// Bytes of a file, from an offset on, that were read ahead.
#[derive(Drop)]
pub struct Ahead {
    from: u64,
    bytes: Vec<u8>,
}

impl Ahead {
    /// None were read yet.
    pub fn new(alloc: Global) -> Ahead
        ensures { (file : List ℕ) → IsAhead file result }
    {
        Ahead {
            from: 0,
            bytes: Vec::new(alloc),
        }
    }
}

/// Fills the room with the bytes from the offset on: those that were read ahead, or else more are.
pub(crate) fn read_ahead<Y: Disk>(
    disk: &mut Y,
    ahead: &mut Ahead,
    at: u64,
    len: u64,
    room: &mut [u8],
) -> Result<(), ReadFault>
    requires few { length room.old < 2 ^ 16 }
    requires within { at + length room.old ≤ len }
    requires len { IsTrue (Y.tells disk.old) → len ≡ length (Y.time disk.old).now.seen }
    requires ahead { IsTrue (Y.tells disk.old) → IsAhead (Y.time disk.old).now.seen ahead.old }
    ensures answer { IsTrue (Y.tells disk.old)
        → OnOk result (room.new ≡ take (length room.old) (drop at (Y.time disk.old).now.seen)) }
    ensures ahead { IsTrue (Y.tells disk.old) → OnOk result (IsAhead (Y.time disk.old).now.seen ahead.new) }
    ensures path { Y.opened disk.new ≡ Y.opened disk.old }
    ensures tells { Y.tells disk.new ≡ Y.tells disk.old }
    ensures still { IsTrue (Y.tells disk.old) → Y.time disk.new ≡ Y.time disk.old }
    ensures cause { HasReadCause (Y.faults disk.old) (Y.faults disk.new) result }
{
    if has(ahead, at, room.len()) {
        copy_out(ahead, at, room);
        return Ok(());
    }
    fill(disk, ahead, at, len)?;
    copy_out(ahead, at, room);
    Ok(())
}

/// Whether `size` bytes from the offset on were read ahead.
fn has(ahead: &Ahead, at: u64, size: usize) -> bool
    ensures from { result ≡ true → ahead.now.from ≤ at }
    ensures room { result ≡ true → at + size ≤ ahead.now.from + length ahead.now.bytes.items }
{
    let len = ahead.bytes.len() as u64;
    ahead.from <= at && at - ahead.from <= len && size as u64 <= len - (at - ahead.from)
}

/// Reads ahead from the offset on.
fn fill<Y: Disk>(disk: &mut Y, ahead: &mut Ahead, at: u64, len: u64) -> Result<(), ReadFault>
    requires within { at ≤ len }
    requires len { IsTrue (Y.tells disk.old) → len ≡ length (Y.time disk.old).now.seen }
    ensures from { OnOk result (ahead.new.from ≡ at) }
    ensures size { (size : ℕ) → size < 2 ^ 16 → at + size ≤ len → OnOk result (size ≤ length ahead.new.bytes.items) }
    ensures ahead { IsTrue (Y.tells disk.old) → OnOk result (IsAhead (Y.time disk.old).now.seen ahead.new) }
    ensures path { Y.opened disk.new ≡ Y.opened disk.old }
    ensures tells { Y.tells disk.new ≡ Y.tells disk.old }
    ensures still { IsTrue (Y.tells disk.old) → Y.time disk.new ≡ Y.time disk.old }
    ensures cause { HasReadCause (Y.faults disk.old) (Y.faults disk.new) result }
{
    let size = (len - at).min(AHEAD) as usize;
    ahead.from = at;
    if ahead.bytes.resize(size, 0).is_err() {
        return Err(ReadFault::NoMemory);
    }
    disk.read_at(at, ahead.bytes.as_mut_slice())?;
    Ok(())
}

/// Fills the room with bytes that were read ahead.
fn copy_out(ahead: &Ahead, at: u64, room: &mut [u8])
    requires from { ahead.now.from ≤ at }
    requires room { at + length room.old ≤ ahead.now.from + length ahead.now.bytes.items }
    ensures { (file : List ℕ) → IsAhead file ahead.now → room.new ≡ take (length room.old) (drop at file) }
{
    let start = (at - ahead.from) as usize;
    let end = start + room.len();
    room.copy_from_slice(&ahead.bytes[start..end]);
}
