//! Records are read from the start of the file on, and added behind the last of them.
ghost use Rattle.std.specs.Prelude.{◌≡◌, ◌≢◌, ◌≤◌, ◌<◌, ◌+◌, ◌-◌, ◌*◌, ◌^◌, ◌++◌, [], ◌∷◌, ℕ, List, length, take, drop, slice_index, true, false, IsTrue, IfOk, IfSome, OnOk, OnErr};
ghost use Rattle.record_store.specs.Model.{AtEachMoment, IsQuiet, HasCause};
ghost use Rattle.record_store.specs.Held.{held, records_of, ReadsNext, IsRead, IsClosedAt, Rests, HoldsStill, IsBeforeOrAfter};
ghost use Rattle.record_store.specs.Reading.{HasReadCause, IsAhead};
ghost use Rattle.record_store.specs.declared.records.ReadFault.TheVariants as fault;

use crate::ahead::{Ahead, read_ahead};
use crate::disk::{Disk, DiskErr};
use crate::durable::write_durably;
use std::alloc::AllocError;

/// Why a record was not read.
#[derive(Clone, Copy, Debug, PartialEq, Eq)]
pub enum ReadFault {
    /// The disk failed, and its count of faults rose.
    Disk,
    /// No memory was left for the line.
    NoMemory,
}

impl From<DiskErr> for ReadFault {
    ghost from_gives = { λ _ given. given ≡ fault.Disk };

    fn from(_: DiskErr) -> Self {
        ReadFault::Disk
    }
}

/// Three bytes from the offset on.
fn read_header<Y: Disk>(
    disk: &mut Y,
    ahead: &mut Ahead,
    at: u64,
    len: u64,
) -> Result<(u8, u8, u8), ReadFault>
    requires within { at + 3 ≤ len }
    requires len { IsTrue (Y.tells disk.old) → len ≡ length (Y.time disk.old).now.seen }
    requires ahead { IsTrue (Y.tells disk.old) → IsAhead (Y.time disk.old).now.seen ahead.old }
    ensures answer { IsTrue (Y.tells disk.old)
        → IfOk result (λ h. take 3 (drop at (Y.time disk.old).now.seen) ≡ h.0 ∷ h.1 ∷ h.2 ∷ []) }
    ensures ahead { IsTrue (Y.tells disk.old) → OnOk result (IsAhead (Y.time disk.old).now.seen ahead.new) }
    ensures path { Y.opened disk.new ≡ Y.opened disk.old }
    ensures tells { Y.tells disk.new ≡ Y.tells disk.old }
    ensures still { IsTrue (Y.tells disk.old) → Y.time disk.new ≡ Y.time disk.old }
    ensures cause { HasReadCause (Y.faults disk.old) (Y.faults disk.new) result }
{
    let mut header = [0u8; 3];
    read_ahead(disk, ahead, at, len, &mut header)?;
    Ok((header[0], header[1], header[2]))
}

/// The byte at the offset.
fn read_gate<Y: Disk>(disk: &mut Y, at: u64) -> Result<u8, DiskErr>
    requires { IsTrue (Y.tells disk.old) → at < length (Y.time disk.old).now.seen }
    ensures answer { IsTrue (Y.tells disk.old) → IfOk result (λ gate. slice_index (Y.time disk.old).now.seen at ≡ gate) }
    ensures path { Y.opened disk.new ≡ Y.opened disk.old }
    ensures tells { Y.tells disk.new ≡ Y.tells disk.old }
    ensures still { IsTrue (Y.tells disk.old) → Y.time disk.new ≡ Y.time disk.old }
    ensures cause { HasCause (Y.faults disk.old) (Y.faults disk.new) result }
{
    let mut gate = [0u8; 1];
    disk.read_at(at, &mut gate)?;
    Ok(gate[0])
}

/// Reads `size` bytes from the offset on into `line`, in place of what it was.
fn read_line<Y: Disk>(
    disk: &mut Y,
    ahead: &mut Ahead,
    at: u64,
    len: u64,
    size: usize,
    line: &mut Vec<u8>,
) -> Result<(), ReadFault>
    requires few { size < 2 ^ 16 }
    requires within { at + size ≤ len }
    requires len { IsTrue (Y.tells disk.old) → len ≡ length (Y.time disk.old).now.seen }
    requires ahead { IsTrue (Y.tells disk.old) → IsAhead (Y.time disk.old).now.seen ahead.old }
    ensures size { OnOk result (length line.new.items ≡ size) }
    ensures answer { IsTrue (Y.tells disk.old) → OnOk result (line.new.items ≡ take size (drop at (Y.time disk.old).now.seen)) }
    ensures ahead { IsTrue (Y.tells disk.old) → OnOk result (IsAhead (Y.time disk.old).now.seen ahead.new) }
    ensures path { Y.opened disk.new ≡ Y.opened disk.old }
    ensures tells { Y.tells disk.new ≡ Y.tells disk.old }
    ensures still { IsTrue (Y.tells disk.old) → Y.time disk.new ≡ Y.time disk.old }
    ensures cause { HasReadCause (Y.faults disk.old) (Y.faults disk.new) result }
{
    if line.resize(size, 0).is_err() {
        return Err(ReadFault::NoMemory);
    }
    read_ahead(disk, ahead, at, len, line.as_mut_slice())
}

/// Reads the line of the record at the offset, and says whether there is one that is held. What is behind it begins
/// three bytes and the line further on. What was read ahead is of this file, as it stands: nothing was written since.
pub fn read_record<Y: Disk>(
    disk: &mut Y,
    ahead: &mut Ahead,
    at: u64,
    len: u64,
    line: &mut Vec<u8>,
) -> Result<bool, ReadFault>
    requires within { at ≤ len }
    requires len { IsTrue (Y.tells disk.old) → len ≡ length (Y.time disk.old).now.seen }
    requires ahead { IsTrue (Y.tells disk.old) → IsAhead (Y.time disk.old).now.seen ahead.old }
    ensures inside { IfOk result (λ found. found ≡ true → at + 3 + length line.new.items < len) }
    ensures short { IfOk result (λ found. found ≡ true → length line.new.items < 2 ^ 16) }
    ensures next { IsTrue (Y.tells disk.old)
        → IfOk result (λ found. ReadsNext found (Y.time disk.old).now.seen at line.new.items) }
    ensures ahead { IsTrue (Y.tells disk.old) → OnOk result (IsAhead (Y.time disk.old).now.seen ahead.new) }
    ensures path { Y.opened disk.new ≡ Y.opened disk.old }
    ensures tells { Y.tells disk.new ≡ Y.tells disk.old }
    ensures still { IsTrue (Y.tells disk.old) → Y.time disk.new ≡ Y.time disk.old }
    ensures cause { HasReadCause (Y.faults disk.old) (Y.faults disk.new) result }
{
    if len - at < 3 {
        return Ok(false);
    }
    let (gate, low, high) = read_header(disk, ahead, at, len)?;
    if gate != 1 {
        return Ok(false);
    }
    let size = low as usize + 256 * high as usize;
    if len - at - 3 <= size as u64 {
        return Ok(false);
    }
    read_line(disk, ahead, at + 3, len, size, line)?;
    Ok(true)
}

/// Closes the gate behind the held records, at the offset. In an empty file it is written. One that is open has a record
/// that the file's end cuts off, and is closed. Any other gate is closed, and nothing is written.
pub fn close_records<Y: Disk>(disk: &mut Y, at: u64, len: u64) -> Result<(), DiskErr>
    requires within { at ≤ len }
    requires len { IsTrue (Y.tells disk.old) → len ≡ length (Y.time disk.old).now.seen }
    requires quiet { IsTrue (Y.tells disk.old) → IsQuiet (Y.time disk.old).now }
    requires read { IsTrue (Y.tells disk.old) → IsRead (Y.time disk.old).now.seen at (held (Y.time disk.old).now.seen) }
    ensures moments { IsTrue (Y.tells disk.old)
        → AtEachMoment (HoldsStill (Y.time disk.old).now.seen) (Y.time disk.old) (Y.time disk.new) }
    ensures done { IsTrue (Y.tells disk.old) → OnOk result (Rests (Y.time disk.new).now (held (Y.time disk.old).now.seen) at) }
    ensures path { Y.opened disk.new ≡ Y.opened disk.old }
    ensures tells { Y.tells disk.new ≡ Y.tells disk.old }
    ensures cause { HasCause (Y.faults disk.old) (Y.faults disk.new) result }
{
    if at == len {
        return write_durably(disk, at, &[0]);
    }
    if read_gate(disk, at)? == 1 {
        return write_durably(disk, at, &[0]);
    }
    Ok(())
}

/// Adds a record to a batch, with its gate open. Without memory the batch is as before.
pub fn push_record(batch: &mut Vec<u8>, line: &[u8]) -> Result<(), AllocError>
    requires { length line.now < 2 ^ 16 }
    ensures ok { (lines : List (List ℕ)) → batch.old.items ≡ records_of lines
        → OnOk result (batch.new.items ≡ records_of (lines ++ line.now ∷ [])) }
    ensures err { OnErr result (batch.new.items ≡ batch.old.items) }
{
    let kept = batch.len();
    let pushed = push_parts(batch, line);
    if pushed.is_err() {
        batch.truncate(kept);
    }
    pushed
}

/// Adds a gate that is open, the length of the line and the line.
fn push_parts(batch: &mut Vec<u8>, line: &[u8]) -> Result<(), AllocError>
    requires { length line.now < 2 ^ 16 }
    ensures ok { OnOk result (batch.new.items ≡ batch.old.items ++ records_of (line.now ∷ [])) }
    ensures err { OnErr result (take (length batch.old.items) batch.new.items ≡ batch.old.items) }
{
    let header = [1, (line.len() % 256) as u8, (line.len() / 256) as u8];
    batch.extend_from_slice(&header)?;
    batch.extend_from_slice(line)?;
    Ok(())
}

/// Adds the records of a batch behind the closed gate at the offset: all or none of them are held at each moment of a
/// crash. The batch has at least one record, and a closed gate behind the last one. All but its first gate is written,
/// and synced, before that gate is opened.
pub fn append_records<Y: Disk>(disk: &mut Y, end: u64, batch: &[u8]) -> Result<(), DiskErr>
    requires low { end < 2 ^ 63 }
    requires some { 0 < length batch.now }
    requires rests { IsTrue (Y.tells disk.old) → Rests (Y.time disk.old).now (held (Y.time disk.old).now.seen) end }
    ensures moments { (line : List ℕ) (others : List (List ℕ)) → IsTrue (Y.tells disk.old)
        → batch.now ≡ records_of (line ∷ others) ++ 0 ∷ []
        → AtEachMoment (IsBeforeOrAfter (held (Y.time disk.old).now.seen) (line ∷ others)) (Y.time disk.old) (Y.time disk.new) }
    ensures done { (line : List ℕ) (others : List (List ℕ)) → IsTrue (Y.tells disk.old)
        → batch.now ≡ records_of (line ∷ others) ++ 0 ∷ []
        → OnOk result (Rests (Y.time disk.new).now (held (Y.time disk.old).now.seen ++ line ∷ others)
        (end + length (records_of (line ∷ others)))) }
    ensures path { Y.opened disk.new ≡ Y.opened disk.old }
    ensures tells { Y.tells disk.new ≡ Y.tells disk.old }
    ensures cause { HasCause (Y.faults disk.old) (Y.faults disk.new) result }
{
    write_durably(disk, end + 1, &batch[1..])?;
    write_durably(disk, end, &[1])
}
