//! Runs on a store, from its opening on.

use farm_core::Farm;
use farm_io::{ReliableSink, ReliableSource};
use farm_journal::{Journal, STORE_LIMIT};
use farm_kinds::NoMemory;
use farm_settings::Settings;
use record_store::Disk;
use script_session::{StoredEnd, run_stored};
use std::alloc::Global;
use stored_events::OpenFault;

/// How many bytes a sink of these tests holds.
const ROOM: usize = 65_536;

/// What a run came to.
#[derive(Clone, Copy, Debug, PartialEq, Eq)]
pub(crate) enum Ran {
    /// The store was not opened.
    NotOpened(OpenFault),
    /// It was, and lines were played on it.
    Ended(StoredEnd),
}

/// Opens the store of the disk, and plays lines on it.
fn play<Y: Disk>(
    alloc: Global,
    disk: &mut Y,
    config: &[u8; 32],
    farm: &mut Farm,
    input: &mut ReliableSource,
    out: &mut ReliableSink,
) -> Ran {
    match Journal::open(alloc, disk, config, farm, STORE_LIMIT) {
        Ok(mut journal) => Ran::Ended(run_stored(alloc, farm, &mut journal, disk, input, out)),
        Err(fault) => Ran::NotOpened(fault),
    }
}

/// Opens the store of the disk on a farm of its own, and plays lines on it.
fn play_anew<Y: Disk>(
    alloc: Global,
    disk: &mut Y,
    config: &[u8; 32],
    input: &mut ReliableSource,
    out: &mut ReliableSink,
) -> Ran {
    let mut farm = Farm::new(alloc, Settings::standard(alloc));
    let ran = play(alloc, disk, config, &mut farm, input, out);
    drop(farm);
    ran
}

/// What lines come to that are played on the store of the disk, and what is written for them.
pub(crate) fn played<Y: Disk>(
    alloc: Global,
    disk: &mut Y,
    config: &[u8; 32],
    lines: &[u8],
) -> Result<(Ran, ReliableSink), NoMemory> {
    let mut input = ReliableSource::new(lines.to_vec(alloc)?);
    let mut out = ReliableSink::new(Vec::with_capacity(alloc, ROOM)?);
    let ran = play_anew(alloc, disk, config, &mut input, &mut out);
    Ok((ran, out))
}
