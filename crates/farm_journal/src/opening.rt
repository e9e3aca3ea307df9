//! A store is opened: what a crash left is read into the farm, and its end is closed.
ghost use Rattle.std.specs.Prelude.{◌≡◌, ◌≢◌, ◌≤◌, ◌<◌, ◌+◌, ◌⊎◌, ◌++◌, ◌∷◌, [], ◌^◌, ◌==◌, ◌&&◌, ℕ, List, length, take, drop, slice_index, true, false, IsTrue, IfOk, IfErr, IsErrOf, OnOk, OnErr, Ok, Err, Some, None, nat_le, Option};
ghost use Rattle.hex.specs.Hex.{IsBytes};
ghost use Rattle.record_store.specs.Model.{AtEachMoment, IsQuiet, OnlySynced, Rose};
ghost use Rattle.record_store.specs.Held.{held, IsRecordPrefix, IsRead, Rests};
ghost use Rattle.record_store.specs.Reading.{IsAhead};
ghost use Rattle.farm_model.specs.Farm.{farm_step};
ghost use Rattle.farm_model.specs.State.{State};
ghost use Rattle.stored_events.specs.Opening.{stored_step, stored_read, replayed, is_unborn, is_first_record, config_line, opened_of, config_of, opened_by, opened_lines, HoldsOrBegins};
ghost use Rattle.stored_events.specs.Replaying.{ReplaysTo, FailsAt};
ghost use Rattle.farm_journal.specs.Meeting.{Meets};
ghost use Rattle.farm_journal.specs.Faults.{HasOpenCause, IsTold, IsOfFile};
ghost use Rattle.stored_events.specs.declared.faults.OpenFault.TheVariants as fault;

use crate::faults::open_fault;
use crate::journal::make_batch;
use crate::player::Player;
use command_text::{push_event, read_line};
use farm_kinds::{Event, LineFault, NoMemory, Reply};
use record_store::{Ahead, Disk, append_records, close_records, read_record};
use std::alloc::Global;
use stored_events::{OpenFault, config_line, config_of, is_kept, looks_unborn};

/// Plays the event of a line, where the line is what is written of it and it is stored, and says whether it is. What was
/// in the text is replaced.
fn replay_event<P: Player>(
    farm: &mut P,
    event: &Event,
    line: &[u8],
    text: &mut Vec<u8>,
) -> Result<bool, NoMemory>
    ensures stored { IfOk result (λ stored. stored ≡ true → stored_read (P.state farm.old) line.now (Ok (Some event.now)) ≡ Some (P.state farm.new)) }
    ensures other { IfOk result (λ stored. stored ≡ false → stored_read (P.state farm.old) line.now (Ok (Some event.now)) ≡ None) }
{
    text.clear();
    push_event(text, event)?;
    if text.as_slice() != line {
        return Ok(false);
    }
    let reply = farm.step(event);
    match &reply {
        Reply::NoMemory => Err(NoMemory),
        _ => Ok(is_kept(event, &reply)),
    }
}

/// Plays the event of a stored line, and says whether the line is one.
fn replay_line<P: Player>(
    alloc: Global,
    farm: &mut P,
    line: &[u8],
    text: &mut Vec<u8>,
) -> Result<bool, NoMemory>
    ensures stored { IfOk result (λ stored. stored ≡ true → stored_step (P.state farm.old) line.now ≡ Some (P.state farm.new)) }
    ensures other { IfOk result (λ stored. stored ≡ false → stored_step (P.state farm.old) line.now ≡ None) }
{
    match read_line(alloc, line) {
        Ok(Some(ref event)) => replay_event(farm, event, line, text),
        Ok(None) | Err(LineFault::BadLine) => Ok(false),
        Err(LineFault::NoMemory) => Err(NoMemory),
    }
}

/// What the place behind the records so far has.
enum Next {
    /// A record whose event was played.
    Played,
    /// A record whose line is no event that is stored.
    Other,
    /// No record that is held.
    End,
}

/// Plays the event of the record at the offset, and says what stands there.
fn next_event<Y: Disk, P: Player>(
    alloc: Global,
    disk: &mut Y,
    ahead: &mut Ahead,
    farm: &mut P,
    at: u64,
    len: u64,
    line: &mut Vec<u8>,
    text: &mut Vec<u8>,
) -> Result<Next, OpenFault>
    requires within { at ≤ len }
    requires len { IsTrue (Y.tells disk.old) → len ≡ length (Y.time disk.old).now.seen }
    requires ahead { IsTrue (Y.tells disk.old) → IsAhead (Y.time disk.old).now.seen ahead.old }
    ensures ahead { IsTrue (Y.tells disk.old) → OnOk result (IsAhead (Y.time disk.old).now.seen ahead.new) }
    ensures inside { IfOk result (λ next. next ≡ Next.Played → at + 3 + length line.new.items < len) }
    ensures meets { IsTrue (Y.tells disk.old)
        → IfOk result (Meets (Y.time disk.old).now.seen at line.new.items (P.state farm.old) (P.state farm.new)) }
    ensures told { IfErr result (λ f. ¬ IsOfFile f) }
    ensures path { Y.opened disk.new ≡ Y.opened disk.old }
    ensures tells { Y.tells disk.new ≡ Y.tells disk.old }
    ensures still { IsTrue (Y.tells disk.old) → Y.time disk.new ≡ Y.time disk.old }
    ensures cause { HasOpenCause (Y.faults disk.old) (Y.faults disk.new) result }
{
    match read_record(disk, ahead, at, len, line) {
        Err(read) => Err(open_fault(read)),
        Ok(false) => Ok(Next::End),
        Ok(true) => match replay_line(alloc, farm, line.as_slice(), text) {
            Err(NoMemory) => Err(OpenFault::NoMemory),
            Ok(false) => Ok(Next::Other),
            Ok(true) => Ok(Next::Played),
        },
    }
}

/// Plays the events of the records from the offset on, and gives where the last of them ends. The first of them has the
/// number 2.
fn replay_records<Y: Disk, P: Player>(
    alloc: Global,
    disk: &mut Y,
    farm: &mut P,
    from: u64,
    len: u64,
) -> Result<u64, OpenFault>
    requires some { 3 ≤ from }
    requires within { from < len }
    requires len { IsTrue (Y.tells disk.old) → len ≡ length (Y.time disk.old).now.seen }
    ensures within { IfOk result (λ end. end < len) }
    ensures read { IsTrue (Y.tells disk.old) → (prefix : List (List ℕ)) → IsRecordPrefix (take from (Y.time disk.old).now.seen) prefix
        → IfOk result (ReplaysTo (Y.time disk.old).now.seen prefix (P.state farm.old) (P.state farm.new)) }
    ensures bad { IsTrue (Y.tells disk.old) → (prefix : List (List ℕ)) → IsRecordPrefix (take from (Y.time disk.old).now.seen) prefix
        → IfErr result (FailsAt (Y.time disk.old).now.seen prefix (P.state farm.old)) }
    ensures path { Y.opened disk.new ≡ Y.opened disk.old }
    ensures tells { Y.tells disk.new ≡ Y.tells disk.old }
    ensures still { IsTrue (Y.tells disk.old) → Y.time disk.new ≡ Y.time disk.old }
    ensures cause { HasOpenCause (Y.faults disk.old) (Y.faults disk.new) result }
{
    let mut ahead = Ahead::new(alloc);
    let mut line = Vec::new(alloc);
    let mut text = Vec::new(alloc);
    let mut at = from;
    let mut number = 2u64;
    'records: loop {
        match next_event(alloc, disk, &mut ahead, farm, at, len, &mut line, &mut text) {
            Err(fault) => return Err(fault),
            Ok(Next::End) => return Ok(at),
            Ok(Next::Other) => return Err(OpenFault::BadRecord { number }),
            Ok(Next::Played) => {
                at += 3 + line.len() as u64;
                number += 1;
            }
        }
    }
}

/// Goes on with a store whose first record has this line.
fn go_on<Y: Disk, P: Player>(
    alloc: Global,
    disk: &mut Y,
    digest: &[u8; 32],
    farm: &mut P,
    line: &[u8],
    len: u64,
) -> Result<u64, OpenFault>
    requires inside { 3 + length line.now < len }
    requires len { IsTrue (Y.tells disk.old) → len ≡ length (Y.time disk.old).now.seen }
    requires quiet { IsTrue (Y.tells disk.old) → IsQuiet (Y.time disk.old).now }
    requires first { IsTrue (Y.tells disk.old) → IsRecordPrefix (take (3 + length line.now) (Y.time disk.old).now.seen) (line.now ∷ []) }
    ensures opened { IsTrue (Y.tells disk.old) → IfOk result (λ end. (opened_of digest.now (P.state farm.old) (Y.time disk.old).now.seen ≡ Ok (P.state farm.new))
        × Rests (Y.time disk.new).now (opened_lines digest.now (held (Y.time disk.old).now.seen)) end) }
    ensures bad { IsTrue (Y.tells disk.old) → IfErr result (λ f. IsTold f (opened_of digest.now (P.state farm.old) (Y.time disk.old).now.seen)) }
    ensures unwritten { IsTrue (Y.tells disk.old) → IfErr result (λ f. IsOfFile f → Y.time disk.new ≡ Y.time disk.old) }
    ensures moments { IsTrue (Y.tells disk.old)
        → AtEachMoment (HoldsOrBegins digest.now (held (Y.time disk.old).now.seen)) (Y.time disk.old) (Y.time disk.new) }
    ensures path { Y.opened disk.new ≡ Y.opened disk.old }
    ensures tells { Y.tells disk.new ≡ Y.tells disk.old }
    ensures cause { HasOpenCause (Y.faults disk.old) (Y.faults disk.new) result }
{
    match config_of(line) {
        None => Err(OpenFault::BadRecord { number: 1 }),
        Some(kept) => go_on_as(alloc, disk, digest, farm, line, len, &kept),
    }
}

/// Goes on with a store whose first record says this digest.
fn go_on_as<Y: Disk, P: Player>(
    alloc: Global,
    disk: &mut Y,
    digest: &[u8; 32],
    farm: &mut P,
    line: &[u8],
    len: u64,
    kept: &[u8; 32],
) -> Result<u64, OpenFault>
    requires config { config_of line.now ≡ Some kept.now }
    requires inside { 3 + length line.now < len }
    requires len { IsTrue (Y.tells disk.old) → len ≡ length (Y.time disk.old).now.seen }
    requires quiet { IsTrue (Y.tells disk.old) → IsQuiet (Y.time disk.old).now }
    requires first { IsTrue (Y.tells disk.old) → IsRecordPrefix (take (3 + length line.now) (Y.time disk.old).now.seen) (line.now ∷ []) }
    ensures opened { IsTrue (Y.tells disk.old) → IfOk result (λ end. (opened_of digest.now (P.state farm.old) (Y.time disk.old).now.seen ≡ Ok (P.state farm.new))
        × Rests (Y.time disk.new).now (opened_lines digest.now (held (Y.time disk.old).now.seen)) end) }
    ensures bad { IsTrue (Y.tells disk.old) → IfErr result (λ f. IsTold f (opened_of digest.now (P.state farm.old) (Y.time disk.old).now.seen)) }
    ensures unwritten { IsTrue (Y.tells disk.old) → IfErr result (λ f. IsOfFile f → Y.time disk.new ≡ Y.time disk.old) }
    ensures moments { IsTrue (Y.tells disk.old)
        → AtEachMoment (HoldsOrBegins digest.now (held (Y.time disk.old).now.seen)) (Y.time disk.old) (Y.time disk.new) }
    ensures path { Y.opened disk.new ≡ Y.opened disk.old }
    ensures tells { Y.tells disk.new ≡ Y.tells disk.old }
    ensures cause { HasOpenCause (Y.faults disk.old) (Y.faults disk.new) result }
{
    if kept.as_slice() != digest.as_slice() {
        return Err(OpenFault::OtherConfig { kept: *kept });
    }
    match replay_records(alloc, disk, farm, 3 + line.len() as u64, len) {
        Err(fault) => Err(fault),
        Ok(end) => match close_records(disk, end, len) {
            Ok(()) => Ok(end),
            Err(_) => Err(OpenFault::Disk),
        },
    }
}

/// Whether the file, which has `len` bytes, is one that a crash of a first opening leaves.
pub fn is_unborn<Y: Disk>(disk: &mut Y, len: u64) -> Result<bool, OpenFault>
    requires { IsTrue (Y.tells disk.old) → len ≡ length (Y.time disk.old).now.seen }
    ensures answer { IsTrue (Y.tells disk.old) → IfOk result (λ unborn. unborn ≡ is_unborn (Y.time disk.old).now.seen) }
    ensures told { IfErr result (λ f. ¬ IsOfFile f) }
    ensures path { Y.opened disk.new ≡ Y.opened disk.old }
    ensures tells { Y.tells disk.new ≡ Y.tells disk.old }
    ensures still { IsTrue (Y.tells disk.old) → Y.time disk.new ≡ Y.time disk.old }
    ensures cause { HasOpenCause (Y.faults disk.old) (Y.faults disk.new) result }
{
    if len > 75 {
        return Ok(false);
    }
    let mut room = [0u8; 75];
    let file = &mut room[..len as usize];
    match disk.read_at(0, file) {
        Ok(()) => Ok(looks_unborn(file)),
        Err(_) => Err(OpenFault::Disk),
    }
}

/// Closes the first gate of a file without a record, and appends the first one.
fn begin<Y: Disk>(
    alloc: Global,
    disk: &mut Y,
    digest: &[u8; 32],
    len: u64,
) -> Result<u64, OpenFault>
    requires len { IsTrue (Y.tells disk.old) → len ≡ length (Y.time disk.old).now.seen }
    requires quiet { IsTrue (Y.tells disk.old) → IsQuiet (Y.time disk.old).now }
    requires none { IsTrue (Y.tells disk.old) → held (Y.time disk.old).now.seen ≡ [] }
    ensures opened { IsTrue (Y.tells disk.old) → IfOk result (λ end. IsTrue (is_unborn (Y.time disk.old).now.seen)
        × Rests (Y.time disk.new).now (config_line digest.now ∷ []) end) }
    ensures bad { IsTrue (Y.tells disk.old) → (s : State) → IfErr result (λ f. IsTold f (opened_by digest.now s (Y.time disk.old).now.seen [])) }
    ensures unwritten { IsTrue (Y.tells disk.old) → IfErr result (λ f. IsOfFile f → Y.time disk.new ≡ Y.time disk.old) }
    ensures moments { IsTrue (Y.tells disk.old)
        → AtEachMoment (HoldsOrBegins digest.now []) (Y.time disk.old) (Y.time disk.new) }
    ensures path { Y.opened disk.new ≡ Y.opened disk.old }
    ensures tells { Y.tells disk.new ≡ Y.tells disk.old }
    ensures cause { HasOpenCause (Y.faults disk.old) (Y.faults disk.new) result }
{
    if !is_unborn(disk, len)? {
        return Err(OpenFault::BadRecord { number: 1 });
    }
    let mut batch = Vec::new(alloc);
    make_batch(&mut batch, &config_line(digest))?;
    close_records(disk, 0, len)?;
    append_records(disk, 0, batch.as_slice())?;
    Ok(batch.len() as u64 - 1)
}

/// Opens the file that the disk holds: plays its events into the farm, closes its end, and says where that is.
pub(crate) fn open_file<Y: Disk, P: Player>(
    alloc: Global,
    disk: &mut Y,
    digest: &[u8; 32],
    farm: &mut P,
) -> Result<u64, OpenFault>
    ensures opened { IsTrue (Y.tells disk.old) → IfOk result (λ end. (opened_of digest.now (P.state farm.old) (Y.time disk.old).now.seen ≡ Ok (P.state farm.new))
        × Rests (Y.time disk.new).now (opened_lines digest.now (held (Y.time disk.old).now.seen)) end) }
    ensures bad { IsTrue (Y.tells disk.old) → IfErr result (λ f. IsTold f (opened_of digest.now (P.state farm.old) (Y.time disk.old).now.seen)) }
    ensures unwritten { IsTrue (Y.tells disk.old) → IfErr result (λ f. IsOfFile f → OnlySynced (Y.time disk.old) (Y.time disk.new)) }
    ensures moments { IsTrue (Y.tells disk.old) → IsQuiet (Y.time disk.old).now
        → AtEachMoment (HoldsOrBegins digest.now (held (Y.time disk.old).now.seen)) (Y.time disk.old) (Y.time disk.new) }
    ensures path { Y.opened disk.new ≡ Y.opened disk.old }
    ensures tells { Y.tells disk.new ≡ Y.tells disk.old }
    ensures cause { HasOpenCause (Y.faults disk.old) (Y.faults disk.new) result }
{
    disk.sync()?;
    let len = disk.len()?;
    open_synced(alloc, disk, digest, farm, len)
}

/// Opens the file, which has `len` bytes, once all of it is on the disk.
fn open_synced<Y: Disk, P: Player>(
    alloc: Global,
    disk: &mut Y,
    digest: &[u8; 32],
    farm: &mut P,
    len: u64,
) -> Result<u64, OpenFault>
    requires len { IsTrue (Y.tells disk.old) → len ≡ length (Y.time disk.old).now.seen }
    requires quiet { IsTrue (Y.tells disk.old) → IsQuiet (Y.time disk.old).now }
    ensures opened { IsTrue (Y.tells disk.old) → IfOk result (λ end. (opened_of digest.now (P.state farm.old) (Y.time disk.old).now.seen ≡ Ok (P.state farm.new))
        × Rests (Y.time disk.new).now (opened_lines digest.now (held (Y.time disk.old).now.seen)) end) }
    ensures bad { IsTrue (Y.tells disk.old) → IfErr result (λ f. IsTold f (opened_of digest.now (P.state farm.old) (Y.time disk.old).now.seen)) }
    ensures unwritten { IsTrue (Y.tells disk.old) → IfErr result (λ f. IsOfFile f → Y.time disk.new ≡ Y.time disk.old) }
    ensures moments { IsTrue (Y.tells disk.old)
        → AtEachMoment (HoldsOrBegins digest.now (held (Y.time disk.old).now.seen)) (Y.time disk.old) (Y.time disk.new) }
    ensures path { Y.opened disk.new ≡ Y.opened disk.old }
    ensures tells { Y.tells disk.new ≡ Y.tells disk.old }
    ensures cause { HasOpenCause (Y.faults disk.old) (Y.faults disk.new) result }
{
    let mut ahead = Ahead::new(alloc);
    let mut line = Vec::new(alloc);
    match read_record(disk, &mut ahead, 0, len, &mut line) {
        Err(read) => Err(open_fault(read)),
        Ok(found) => {
            if found {
                return go_on(alloc, disk, digest, farm, line.as_slice(), len);
            }
            begin(alloc, disk, digest, len)
        }
    }
}
