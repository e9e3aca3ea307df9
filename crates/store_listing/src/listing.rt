//! The lines of a store as text.
ghost use Rattle.std.specs.Prelude.{◌≡◌, ◌≢◌, ◌≤◌, ◌<◌, ◌+◌, ◌++◌, ◌∷◌, [], ◌⊎◌, ℕ, List, Option, length, take, true, false, IsTrue, IfOk, IfErr, IsErrOf, OnOk, OnErr, codes};
ghost use Rattle.std.specs.Io.KnownBytes.{Appends};
ghost use Rattle.farm_io.specs.Streams.{Rose};
ghost use Rattle.record_store.specs.Held.{held, records_of, IsRecordPrefix};
ghost use Rattle.stored_events.specs.Opening.{is_unborn, config_of};
ghost use Rattle.store_listing.specs.Listing.{store_text, is_store, size_behind, PutsPrefix, Shows, IsListed, HasListCause};

use crate::faults::{ListFault, not_looked_at, not_read};
use farm_io::{PutEnd, Sink};
use farm_journal::is_unborn;
use record_store::{Ahead, Disk, read_record};
use std::alloc::Global;
use stored_events::config_of;

/// How many bytes are pending at least where they are put, but for the last ones.
const PIECE: usize = 65_536;

/// Puts what is pending.
fn put<K: Sink>(pending: &mut Vec<u8>, out: &mut K) -> Result<(), ListFault>
    ensures put { (first : Option (List ℕ)) (whole : List ℕ) → Shows first (K.held out.old) pending.old.items whole
        → OnOk result (Appends first (K.held out.new) whole × (pending.new.items ≡ [])) }
    ensures failed { (first : Option (List ℕ)) (whole : List ℕ) → Shows first (K.held out.old) pending.old.items whole
        → OnErr result (PutsPrefix first (K.held out.new) whole) }
    ensures only { OnErr result (IsErrOf result ListFault.WriteFault) }
    ensures later { K.faults out.old ≤ K.faults out.new }
    ensures cause { IsErrOf result ListFault.WriteFault → Rose (K.faults out.old) (K.faults out.new) }
{
    let end = out.put(pending.as_slice());
    pending.clear();
    match end {
        PutEnd::Done => Ok(()),
        PutEnd::Failed => Err(ListFault::WriteFault),
    }
}

/// Adds a line and its line feed to what is pending.
fn add_line(pending: &mut Vec<u8>, line: &[u8]) -> Result<(), ListFault>
    ensures ok { OnOk result (pending.new.items ≡ pending.old.items ++ line.now ++ 10 ∷ []) }
    ensures only { OnErr result (IsErrOf result ListFault.NoMemory) }
{
    if pending.extend_from_slice(line).is_err() || pending.push(b'\n').is_err() {
        return Err(ListFault::NoMemory);
    }
    Ok(())
}

/// Shows a line behind what was shown: adds it to what is pending, and puts all of that where it is much.
fn show_line<K: Sink>(pending: &mut Vec<u8>, line: &[u8], out: &mut K) -> Result<(), ListFault>
    ensures shows { (first : Option (List ℕ)) (whole : List ℕ) → Shows first (K.held out.old) pending.old.items whole
        → OnOk result (Shows first (K.held out.new) pending.new.items (whole ++ line.now ++ 10 ∷ [])) }
    ensures failed { (first : Option (List ℕ)) (whole : List ℕ) → Shows first (K.held out.old) pending.old.items whole
        → OnErr result (PutsPrefix first (K.held out.new) (whole ++ line.now ++ 10 ∷ [])) }
    ensures only { OnErr result (IsErrOf result ListFault.WriteFault ⊎ IsErrOf result ListFault.NoMemory) }
    ensures later { K.faults out.old ≤ K.faults out.new }
    ensures cause { IsErrOf result ListFault.WriteFault → Rose (K.faults out.old) (K.faults out.new) }
{
    add_line(pending, line)?;
    if pending.len() < PIECE {
        return Ok(());
    }
    put(pending, out)
}

/// Shows the lines of the records from the offset on, and gives where the last of them ends.
fn show_lines<Y: Disk, K: Sink>(
    alloc: Global,
    disk: &mut Y,
    from: u64,
    len: u64,
    pending: &mut Vec<u8>,
    out: &mut K,
) -> Result<u64, ListFault>
    requires within { from < len }
    requires len { IsTrue (Y.tells disk.old) → len ≡ length (Y.time disk.old).now.seen }
    ensures within { IfOk result (λ end. end < len) }
    ensures shows { IsTrue (Y.tells disk.old) → (first : Option (List ℕ)) (config : List ℕ)
        → IsListed (Y.time disk.old).now.seen from (config ∷ []) → Shows first (K.held out.old) pending.old.items (store_text (config ∷ []))
        → IfOk result (λ end. Shows first (K.held out.new) pending.new.items (store_text (held (Y.time disk.old).now.seen))
        × (length (records_of (held (Y.time disk.old).now.seen)) ≡ end)) }
    ensures failed { IsTrue (Y.tells disk.old) → (first : Option (List ℕ)) (config : List ℕ)
        → IsListed (Y.time disk.old).now.seen from (config ∷ []) → Shows first (K.held out.old) pending.old.items (store_text (config ∷ []))
        → OnErr result (PutsPrefix first (K.held out.new) (store_text (held (Y.time disk.old).now.seen))) }
    ensures told { ¬ (IsErrOf result ListFault.NoStore) }
    ensures path { Y.opened disk.new ≡ Y.opened disk.old }
    ensures tells { Y.tells disk.new ≡ Y.tells disk.old }
    ensures still { IsTrue (Y.tells disk.old) → Y.time disk.new ≡ Y.time disk.old }
    ensures cause { HasListCause (Y.faults disk.old) (Y.faults disk.new) (K.faults out.old) (K.faults out.new) result }
{
    let mut ahead = Ahead::new(alloc);
    let mut line = Vec::new(alloc);
    let mut at = from;
    'records: loop {
        match read_record(disk, &mut ahead, at, len, &mut line) {
            Err(read) => return Err(not_read(read)),
            Ok(found) => {
                if !found {
                    return Ok(at);
                }
                show_line(pending, line.as_slice(), out)?;
                at += 3 + line.len() as u64;
            }
        }
    }
}

/// Lists a store whose first record has this line.
fn list_from<Y: Disk, K: Sink>(
    alloc: Global,
    disk: &mut Y,
    config: &[u8],
    len: u64,
    out: &mut K,
) -> Result<u64, ListFault>
    requires inside { 3 + length config.now < len }
    requires len { IsTrue (Y.tells disk.old) → len ≡ length (Y.time disk.old).now.seen }
    requires first { IsTrue (Y.tells disk.old) → IsRecordPrefix (take (3 + length config.now) (Y.time disk.old).now.seen) (config.now ∷ []) }
    ensures listed { IsTrue (Y.tells disk.old) → IfOk result (λ rest. IsTrue (is_store (Y.time disk.old).now.seen)
        × Appends (K.held out.old) (K.held out.new) (store_text (held (Y.time disk.old).now.seen)) × (rest ≡ size_behind (Y.time disk.old).now.seen)) }
    ensures failed { IsTrue (Y.tells disk.old) → OnErr result (PutsPrefix (K.held out.old) (K.held out.new) (store_text (held (Y.time disk.old).now.seen))) }
    ensures none { IsErrOf result ListFault.NoStore → out.new ≡ out.old }
    ensures no_store { IsTrue (Y.tells disk.old) → IsErrOf result ListFault.NoStore → is_store (Y.time disk.old).now.seen ≡ false }
    ensures path { Y.opened disk.new ≡ Y.opened disk.old }
    ensures tells { Y.tells disk.new ≡ Y.tells disk.old }
    ensures still { IsTrue (Y.tells disk.old) → Y.time disk.new ≡ Y.time disk.old }
    ensures cause { HasListCause (Y.faults disk.old) (Y.faults disk.new) (K.faults out.old) (K.faults out.new) result }
{
    match config_of(config) {
        None => Err(ListFault::NoStore),
        Some(_) => list_known(alloc, disk, config, len, out),
    }
}

/// Lists a store whose first record is known to be a configuration's.
fn list_known<Y: Disk, K: Sink>(
    alloc: Global,
    disk: &mut Y,
    config: &[u8],
    len: u64,
    out: &mut K,
) -> Result<u64, ListFault>
    requires inside { 3 + length config.now < len }
    requires len { IsTrue (Y.tells disk.old) → len ≡ length (Y.time disk.old).now.seen }
    requires first { IsTrue (Y.tells disk.old) → IsRecordPrefix (take (3 + length config.now) (Y.time disk.old).now.seen) (config.now ∷ []) }
    ensures listed { IsTrue (Y.tells disk.old) → IfOk result (λ rest.
        Appends (K.held out.old) (K.held out.new) (store_text (held (Y.time disk.old).now.seen)) × (rest ≡ size_behind (Y.time disk.old).now.seen)) }
    ensures failed { IsTrue (Y.tells disk.old) → OnErr result (PutsPrefix (K.held out.old) (K.held out.new) (store_text (held (Y.time disk.old).now.seen))) }
    ensures told { ¬ (IsErrOf result ListFault.NoStore) }
    ensures path { Y.opened disk.new ≡ Y.opened disk.old }
    ensures tells { Y.tells disk.new ≡ Y.tells disk.old }
    ensures still { IsTrue (Y.tells disk.old) → Y.time disk.new ≡ Y.time disk.old }
    ensures cause { HasListCause (Y.faults disk.old) (Y.faults disk.new) (K.faults out.old) (K.faults out.new) result }
{
    let mut pending = Vec::new(alloc);
    start(&mut pending, config)?;
    let end = show_lines(alloc, disk, 3 + config.len() as u64, len, &mut pending, out)?;
    put(&mut pending, out)?;
    Ok(len - end)
}

/// Puts the first line down as a comment.
fn start(pending: &mut Vec<u8>, config: &[u8]) -> Result<(), ListFault>
    ensures ok { pending.old.items ≡ [] → OnOk result (pending.new.items ≡ store_text (config.now ∷ [])) }
    ensures only { OnErr result (IsErrOf result ListFault.NoMemory) }
{
    if pending.extend_from_slice(b"# ").is_err() {
        return Err(ListFault::NoMemory);
    }
    add_line(pending, config)
}

/// Lists a file that holds no record: there is no line to put.
fn list_unborn<Y: Disk>(disk: &mut Y, len: u64) -> Result<u64, ListFault>
    requires len { IsTrue (Y.tells disk.old) → len ≡ length (Y.time disk.old).now.seen }
    ensures rest { IfOk result (λ rest. rest ≡ len) }
    ensures born { IsTrue (Y.tells disk.old) → OnOk result (IsTrue (is_unborn (Y.time disk.old).now.seen)) }
    ensures no_store { IsTrue (Y.tells disk.old) → IsErrOf result ListFault.NoStore → is_unborn (Y.time disk.old).now.seen ≡ false }
    ensures no_put { ¬ (IsErrOf result ListFault.WriteFault) }
    ensures path { Y.opened disk.new ≡ Y.opened disk.old }
    ensures tells { Y.tells disk.new ≡ Y.tells disk.old }
    ensures still { IsTrue (Y.tells disk.old) → Y.time disk.new ≡ Y.time disk.old }
    ensures later { Y.faults disk.old ≤ Y.faults disk.new }
    ensures cause { IsErrOf result ListFault.Disk → Rose (Y.faults disk.old) (Y.faults disk.new) }
{
    match is_unborn(disk, len) {
        Ok(true) => Ok(len),
        Ok(false) => Err(ListFault::NoStore),
        Err(fault) => Err(not_looked_at(fault)),
    }
}

/// Writes a store as text, and gives how many bytes stand behind its records: the closed gate, and more where a record was
/// not finished. The first line, which says of which configuration the store is, becomes a comment; each other line is an
/// event. So what was written for a store is a script that leads where the store leads.
///
/// Nothing is written to the disk. A file that is no store is told, and then nothing is put.
pub fn list_store<Y: Disk, K: Sink>(
    alloc: Global,
    disk: &mut Y,
    out: &mut K,
) -> Result<u64, ListFault>
    ensures listed { IsTrue (Y.tells disk.old) → IfOk result (λ rest. IsTrue (is_store (Y.time disk.old).now.seen)
        × Appends (K.held out.old) (K.held out.new) (store_text (held (Y.time disk.old).now.seen)) × (rest ≡ size_behind (Y.time disk.old).now.seen)) }
    ensures failed { IsTrue (Y.tells disk.old) → OnErr result (PutsPrefix (K.held out.old) (K.held out.new) (store_text (held (Y.time disk.old).now.seen))) }
    ensures none { IsErrOf result ListFault.NoStore → out.new ≡ out.old }
    ensures no_store { IsTrue (Y.tells disk.old) → IsErrOf result ListFault.NoStore → is_store (Y.time disk.old).now.seen ≡ false }
    ensures path { Y.opened disk.new ≡ Y.opened disk.old }
    ensures tells { Y.tells disk.new ≡ Y.tells disk.old }
    ensures still { IsTrue (Y.tells disk.old) → Y.time disk.new ≡ Y.time disk.old }
    ensures cause { HasListCause (Y.faults disk.old) (Y.faults disk.new) (K.faults out.old) (K.faults out.new) result }
{
    match disk.len() {
        Ok(len) => list_sized(alloc, disk, len, out),
        Err(_) => Err(ListFault::Disk),
    }
}

/// Lists the store of a file of `len` bytes.
fn list_sized<Y: Disk, K: Sink>(
    alloc: Global,
    disk: &mut Y,
    len: u64,
    out: &mut K,
) -> Result<u64, ListFault>
    requires len { IsTrue (Y.tells disk.old) → len ≡ length (Y.time disk.old).now.seen }
    ensures listed { IsTrue (Y.tells disk.old) → IfOk result (λ rest. IsTrue (is_store (Y.time disk.old).now.seen)
        × Appends (K.held out.old) (K.held out.new) (store_text (held (Y.time disk.old).now.seen)) × (rest ≡ size_behind (Y.time disk.old).now.seen)) }
    ensures failed { IsTrue (Y.tells disk.old) → OnErr result (PutsPrefix (K.held out.old) (K.held out.new) (store_text (held (Y.time disk.old).now.seen))) }
    ensures none { IsErrOf result ListFault.NoStore → out.new ≡ out.old }
    ensures no_store { IsTrue (Y.tells disk.old) → IsErrOf result ListFault.NoStore → is_store (Y.time disk.old).now.seen ≡ false }
    ensures path { Y.opened disk.new ≡ Y.opened disk.old }
    ensures tells { Y.tells disk.new ≡ Y.tells disk.old }
    ensures still { IsTrue (Y.tells disk.old) → Y.time disk.new ≡ Y.time disk.old }
    ensures cause { HasListCause (Y.faults disk.old) (Y.faults disk.new) (K.faults out.old) (K.faults out.new) result }
{
    let mut ahead = Ahead::new(alloc);
    let mut config = Vec::new(alloc);
    match read_record(disk, &mut ahead, 0, len, &mut config) {
        Err(read) => Err(not_read(read)),
        Ok(found) => {
            if found {
                return list_from(alloc, disk, config.as_slice(), len, out);
            }
            list_unborn(disk, len)
        }
    }
}
