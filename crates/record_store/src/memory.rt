//! A disk in memory, which tells its moments and keeps a record of its calls.
ghost use Rattle.std.specs.Prelude.{◌≡◌, ◌≤◌, ◌<◌, ◌+◌, ◌^◌, true, List, ℕ, length, IfOk, IfSome, OnOk, take, drop, None};
ghost use Rattle.record_store.specs.Model.{Rose, overlaid, Writes, Syncs, Passes, HasCause};
ghost use Rattle.record_store.specs.MemoryValue.{quiet_time};

use crate::disk::{Access, Disk, DiskErr};
use http_server::Log;
use std::alloc::{AllocError, Global};
use std::marker::Model;

/// What a disk in memory was asked.
#[derive(Debug, Drop)]
pub enum Call {
    Open,
    Len,
    Read { at: u64, len: usize },
    Write { at: u64, bytes: Vec<u8> },
    Sync,
}

/// Where a write stands.
#[derive(Clone, Copy)]
pub(crate) struct Span {
    at: u64,
    len: usize,
}

/// What a disk has at one moment.
#[derive(Drop)]
pub(crate) struct Moment {
    seen: Vec<u8>,
    synced: Vec<u8>,
    /// What was written since, which takes no bytes: contracts see it.
    pending: Log<Span, ()>,
}

/// A disk in memory, on which the calls with the listed numbers fail, and those for which no memory is left. Calls are
/// numbered from 0.
#[derive(Drop)]
pub struct MemoryDisk {
    alloc: Global,
    state: Moment,
    /// The moments so far, which take no bytes: contracts see them.
    past: Log<Moment, ()>,
    path: Option<String>,
    access: Access,
    calls: Vec<Call>,
    failing: Vec<u64>,
    faults: u64,
}

impl Model for MemoryDisk {
    ghost use Rattle.record_store.specs.MemoryValue.{DiskValue};

    ghost Value = { DiskValue };

    ghost use Rattle.record_store.specs.MemoryLayout.{disk_value, IsDiskLayout};

    ghost view = { disk_value };

    ghost invariant = { IsDiskLayout };
}

impl MemoryDisk {
    /// A disk whose file holds these bytes.
    pub fn new(alloc: Global, bytes: Vec<u8>, failing: Vec<u64>) -> Result<MemoryDisk, AllocError>
        ensures { IfOk result (λ disk. disk ≡ record { time = quiet_time bytes.items; opened = None; faults = 0; failing = failing.items; calls = 0 }) }
    {
        let synced = bytes.as_slice().to_vec(alloc)?;
        Ok(MemoryDisk {
            alloc,
            state: Moment {
                seen: bytes,
                synced,
                pending: Log::new(),
            },
            past: Log::new(),
            path: None,
            access: Access::Change,
            calls: Vec::new(alloc),
            failing,
            faults: 0,
        })
    }

    /// The calls so far.
    pub fn calls(&self) -> &[Call]
        ensures { length result.now ≡ self.now.calls }
    {
        self.calls.as_slice()
    }

    /// What a read gives.
    pub fn bytes(&self) -> &[u8]
        ensures { result.now ≡ self.now.time.now.seen }
    {
        self.state.seen.as_slice()
    }
}

/// Writes a call down, and says whether it goes on.
fn begin(calls: &mut Vec<Call>, failing: &Vec<u64>, call: Call) -> bool {
    let number = calls.len() as u64;
    calls.push(call).is_ok() && !failing.contains(&number)
}

/// Counts a failure.
fn count(faults: &mut u64) -> DiskErr
    ensures rose { Rose faults.old faults.new }
    ensures later { faults.old ≤ faults.new }
{
    *faults = faults.saturating_add(1);
    DiskErr::Failed
}

/// The bytes with these in place of what was at the offset.
fn overlay(alloc: Global, file: &[u8], at: usize, bytes: &[u8]) -> Result<Vec<u8>, AllocError>
    requires { at ≤ length file.now }
    ensures { IfOk result (λ new. new.items ≡ overlaid file.now at bytes.now) }
{
    let end = file.len().min(at.saturating_add(bytes.len()));
    let mut new = Vec::new(alloc);
    new.extend_from_slice(&file[..at])?;
    new.extend_from_slice(bytes)?;
    new.extend_from_slice(&file[end..])?;
    Ok(new)
}

impl Disk for MemoryDisk {
    ghost tells = { λ _. true };

    ghost time = { λ d. d.time };

    ghost opened = { λ d. d.opened };

    ghost faults = { λ d. d.faults };

    fn open(&mut self, path: &str, access: Access) -> Result<(), DiskErr> {
        if begin(&mut self.calls, &self.failing, Call::Open) {
            if let Ok(copied) = String::from_str(self.alloc, path) {
                self.path = Some(copied);
                self.access = access;
                return Ok(());
            }
        }
        Err(count(&mut self.faults))
    }

    fn len(&mut self) -> Result<u64, DiskErr> {
        if begin(&mut self.calls, &self.failing, Call::Len) {
            return Ok(self.state.seen.len() as u64);
        }
        Err(count(&mut self.faults))
    }

    fn read_at(&mut self, at: u64, room: &mut [u8]) -> Result<(), DiskErr> {
        let len = room.len();
        if begin(&mut self.calls, &self.failing, Call::Read { at, len }) {
            let from = at as usize;
            room.copy_from_slice(&self.state.seen[from..from + len]);
            return Ok(());
        }
        Err(count(&mut self.faults))
    }

    fn write_at(&mut self, at: u64, bytes: &[u8]) -> Result<(), DiskErr> {
        let written = overlay(self.alloc, self.state.seen.as_slice(), at as usize, bytes);
        self.past = self.past.and(&self.state, &());
        let span = Span {
            at,
            len: bytes.len(),
        };
        self.state.pending = self.state.pending.and(&span, &());
        if let (Ok(new), Ok(bytes)) = (written, bytes.to_vec(self.alloc)) {
            if begin(&mut self.calls, &self.failing, Call::Write { at, bytes }) {
                self.state.seen = new;
                return Ok(());
            }
        }
        Err(count(&mut self.faults))
    }

    fn sync(&mut self) -> Result<(), DiskErr> {
        let synced = self.state.seen.as_slice().to_vec(self.alloc);
        self.past = self.past.and(&self.state, &());
        if let Ok(synced) = synced {
            if begin(&mut self.calls, &self.failing, Call::Sync) {
                self.state.synced = synced;
                self.state.pending = Log::new();
                return Ok(());
            }
        }
        Err(count(&mut self.faults))
    }
}
