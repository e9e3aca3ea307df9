ghost use Rattle.std.specs.Prelude.{◌≡◌, ◌≢◌, ◌+◌, ◌<◌, ◌≤◌, ◌↔◌, ◌++◌, [], length, vec_len, vec_capacity, drop, take, Some, Contains, IsTrue};
ghost use Rattle.std.specs.Bool.{OnTrue, OnFalse};
ghost use Rattle.farm_io.specs.Streams.{Takes, Puts, HasCauseTaken, HasCausePut};
ghost use Rattle.farm_io.specs.MemoryValue.{raised, Fits};
ghost use Rattle.farm_io.specs.Beside.{one_sided};

use crate::streams::{PutEnd, Sink, Source, Taken};
use std::marker::Model;

/// Bytes in memory, where the calls with the listed numbers fail. Calls are numbered from 0.
#[derive(Drop)]
pub struct MemorySource {
    bytes: Vec<u8>,
    at: usize,
    failing: Vec<u64>,
    calls: u64,
    faults: u64,
}

impl Model for MemorySource {
    ghost use Rattle.farm_io.specs.MemoryValue.{SourceValue};

    ghost Value = { SourceValue };

    ghost use Rattle.std.specs.Prelude.{◌≤◌, drop, vec_len};

    ghost view = { λ s. record { left = drop s.at s.bytes.items; failing = s.failing.items; calls = s.calls; faults = s.faults } };

    ghost invariant = { λ s. s.at ≤ vec_len s.bytes };
}

impl MemorySource {
    /// A source of these bytes, of which the calls with the numbers in `failing` fail.
    pub fn new(bytes: Vec<u8>, failing: Vec<u64>) -> MemorySource
        ensures { result ≡ record { left = bytes.items; failing = failing.items; calls = 0; faults = 0 } }
    {
        MemorySource {
            bytes,
            at: 0,
            failing,
            calls: 0,
            faults: 0,
        }
    }
}

impl Source for MemorySource {
    ghost left = { λ s. Some s.left };

    ghost faults = { λ s. s.faults };

    ghost beside = { λ _. one_sided };

    fn take(&mut self, room: &mut [u8]) -> Taken
        requires { 0 < length room.old }
        ensures bytes { Takes (Some self.old.left) (Some self.new.left) result room.new }
        ensures cause { HasCauseTaken self.old.faults self.new.faults result }
        ensures listed { (result ≡ Taken.Failed) ↔ Contains self.old.failing self.old.calls }
        ensures calls { self.new.calls ≡ raised self.old.calls }
        ensures failing { self.new.failing ≡ self.old.failing }
    {
        let call = self.calls;
        self.calls = call.saturating_add(1);
        if self.failing.contains(&call) {
            self.faults = self.faults.saturating_add(1);
            return Taken::Failed;
        }
        take_from(&self.bytes, &mut self.at, room)
    }
}

/// Bytes in memory, as a source that never fails.
#[derive(Drop)]
pub struct ReliableSource {
    bytes: Vec<u8>,
    at: usize,
}

impl Model for ReliableSource {
    ghost use Rattle.std.specs.Prelude.{◌≤◌, ℕ, List, drop, vec_len};

    ghost Value = { List ℕ };

    ghost view = { λ s. drop s.at s.bytes.items };

    ghost invariant = { λ s. s.at ≤ vec_len s.bytes };
}

impl ReliableSource {
    /// A source of these bytes.
    pub fn new(bytes: Vec<u8>) -> ReliableSource
        ensures { result ≡ bytes.items }
    {
        ReliableSource { bytes, at: 0 }
    }
}

impl Source for ReliableSource {
    ghost left = { λ s. Some s };

    ghost faults = { λ _. 0 };

    ghost beside = { λ _. one_sided };

    fn take(&mut self, room: &mut [u8]) -> Taken {
        take_from(&self.bytes, &mut self.at, room)
    }
}

/// Moves bytes from the place `at` on into the room.
fn take_from(bytes: &[u8], at: &mut usize, room: &mut [u8]) -> Taken
    requires within { at.old ≤ length bytes.now }
    requires some { 0 < length room.old }
    ensures bytes { Takes (Some (drop at.old bytes.now)) (Some (drop at.new bytes.now)) result room.new }
    ensures within { at.new ≤ length bytes.now }
    ensures not_failed { result ≢ Taken.Failed }
{
    let rest = &bytes[*at..];
    if rest.is_empty() {
        return Taken::End;
    }
    let count = copy_prefix(rest, room);
    *at += count;
    Taken::Bytes(count)
}

/// Copies as much as there is and as there is room for.
fn copy_prefix(rest: &[u8], room: &mut [u8]) -> usize
    requires rest { 0 < length rest.now }
    requires room { 0 < length room.old }
    ensures least { 1 ≤ result }
    ensures room { result ≤ length room.new }
    ensures rest { result ≤ length rest.now }
    ensures bytes { take result room.new ≡ take result rest.now }
{
    let count = rest.len().min(room.len());
    room[..count].copy_from_slice(&rest[..count]);
    count
}

/// Bytes that were put into memory, where the calls with the listed numbers fail, and those whose piece
/// has no room. Calls are numbered from 0.
///
/// A call takes no memory: the room is the capacity of the `Vec` that the sink was made of.
#[derive(Drop)]
pub struct MemorySink {
    bytes: Vec<u8>,
    failing: Vec<u64>,
    calls: u64,
    faults: u64,
}

impl Model for MemorySink {
    ghost use Rattle.farm_io.specs.MemoryValue.{SinkValue};

    ghost Value = { SinkValue };

    ghost use Rattle.std.specs.Prelude.{vec_capacity};

    ghost view = { λ s. record { held = s.bytes.items; room = vec_capacity s.bytes; failing = s.failing.items; calls = s.calls; faults = s.faults } };
}

impl MemorySink {
    /// A sink that holds these bytes at first, of which the calls with the numbers in `failing` fail.
    pub fn new(held: Vec<u8>, failing: Vec<u64>) -> MemorySink
        ensures { result ≡ record { held = held.items; room = vec_capacity held; failing = failing.items; calls = 0; faults = 0 } }
    {
        MemorySink {
            bytes: held,
            failing,
            calls: 0,
            faults: 0,
        }
    }

    /// The bytes that it holds.
    pub fn bytes(&self) -> &[u8]
        ensures { result.now ≡ self.now.held }
    {
        self.bytes.as_slice()
    }
}

impl Sink for MemorySink {
    ghost held = { λ s. Some s.held };

    ghost faults = { λ s. s.faults };

    ghost beside = { λ _. one_sided };

    fn put(&mut self, piece: &[u8]) -> PutEnd
        ensures bytes { Puts (Some self.old.held) (Some self.new.held) result piece.now }
        ensures cause { HasCausePut self.old.faults self.new.faults result }
        ensures done { (result ≡ PutEnd.Done) ↔ (¬ Contains self.old.failing self.old.calls) × Fits self.old.held self.old.room piece.now }
        ensures calls { self.new.calls ≡ raised self.old.calls }
        ensures failing { self.new.failing ≡ self.old.failing }
        ensures room { self.old.room ≤ self.new.room }
    {
        let call = self.calls;
        self.calls = call.saturating_add(1);
        if self.failing.contains(&call) {
            self.faults = self.faults.saturating_add(1);
            return PutEnd::Failed;
        }
        if !append(&mut self.bytes, piece) {
            self.faults = self.faults.saturating_add(1);
            return PutEnd::Failed;
        }
        PutEnd::Done
    }
}

/// Bytes that were put into memory, as a sink that never fails while its room lasts.
///
/// A call takes no memory: the room is the capacity of the `Vec` that the sink was made of.
#[derive(Drop)]
pub struct ReliableSink {
    bytes: Vec<u8>,
    faults: u64,
}

impl Model for ReliableSink {
    ghost use Rattle.farm_io.specs.MemoryValue.{RoomValue};

    ghost Value = { RoomValue };

    ghost use Rattle.std.specs.Prelude.{vec_capacity};

    ghost view = { λ s. record { held = s.bytes.items; room = vec_capacity s.bytes; faults = s.faults } };
}

impl ReliableSink {
    /// A sink that holds these bytes at first.
    pub fn new(held: Vec<u8>) -> ReliableSink
        ensures { result ≡ record { held = held.items; room = vec_capacity held; faults = 0 } }
    {
        ReliableSink {
            bytes: held,
            faults: 0,
        }
    }

    /// The bytes that it holds.
    pub fn bytes(&self) -> &[u8]
        ensures { result.now ≡ self.now.held }
    {
        self.bytes.as_slice()
    }
}

impl Sink for ReliableSink {
    ghost held = { λ s. Some s.held };

    ghost faults = { λ s. s.faults };

    ghost beside = { λ _. one_sided };

    fn put(&mut self, piece: &[u8]) -> PutEnd
        ensures bytes { Puts (Some self.old.held) (Some self.new.held) result piece.now }
        ensures cause { HasCausePut self.old.faults self.new.faults result }
        ensures done { (result ≡ PutEnd.Done) ↔ Fits self.old.held self.old.room piece.now }
        ensures room { self.old.room ≤ self.new.room }
    {
        if !append(&mut self.bytes, piece) {
            self.faults = self.faults.saturating_add(1);
            return PutEnd::Failed;
        }
        PutEnd::Done
    }
}

/// Appends the piece where it has room, and takes no memory.
fn append(bytes: &mut Vec<u8>, piece: &[u8]) -> bool
    ensures fits { IsTrue result ↔ Fits bytes.old.items (vec_capacity bytes.old) piece.now }
    ensures appended { OnTrue result (bytes.new.items ≡ bytes.old.items ++ piece.now) }
    ensures kept { OnFalse result (bytes.new.items ≡ bytes.old.items) }
    ensures room { vec_capacity bytes.old ≤ vec_capacity bytes.new }
{
    if bytes.capacity() - bytes.len() < piece.len() {
        return false;
    }
    bytes.extend_from_slice(piece).is_ok()
}
