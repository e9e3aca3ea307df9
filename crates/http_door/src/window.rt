ghost use Rattle.std.specs.Prelude.{◌≡◌, ◌+◌, ◌-◌, ◌<◌, ◌≤◌, [], length, drop, take, slice_range, None, Some, IsNone, IsSome, IfOk, OnOk, max, OnErr};
ghost use Rattle.farm_io.specs.Lines.{input_limit};
ghost use Rattle.farm_io.specs.Streams.{Takes, HasCauseTaken};
ghost use Rattle.farm_io.specs.BlockValue.{IsEnded};
ghost use Rattle.http_door.specs.WindowValue.{Fills, Refills, CountWithin, HasCauseFill};

use farm_io::{INPUT_LIMIT, Source, Stop, Taken};
use farm_kinds::NoMemory;
use std::alloc::Global;
use std::marker::Model;

/// The bytes of a source that were taken and not given out yet, in one piece. What is given out is moved
/// over at the next take, so no byte is copied beyond the window.
#[derive(Drop)]
pub struct Window {
    bytes: Vec<u8>,
    from: usize,
    to: usize,
    taken: u64,
}

impl Model for Window {
    ghost use Rattle.http_door.specs.WindowValue.{WindowValue};

    ghost Value = { WindowValue };

    ghost use Rattle.http_door.specs.WindowShape.{window_value, IsWindowShape};

    ghost view = { window_value };

    ghost invariant = { IsWindowShape };
}

impl Window {
    /// A window that can hold so many bytes, before the first take.
    pub fn new(alloc: Global, size: usize) -> Result<Window, NoMemory>
        ensures { IfOk result (λ w. w ≡ record { ahead = []; taken = 0; size = size }) }
    {
        let bytes = Vec::from_elem(alloc, 0u8, size)?;
        Ok(Window {
            bytes,
            from: 0,
            to: 0,
            taken: 0,
        })
    }

    /// A window that holds no bytes and has no memory.
    pub fn empty(alloc: Global) -> Window
        ensures { result ≡ record { ahead = []; taken = 0; size = 0 } }
    {
        Window {
            bytes: Vec::new(alloc),
            from: 0,
            to: 0,
            taken: 0,
        }
    }

    /// The bytes that were not given out yet.
    pub fn ahead(&self) -> &[u8]
        ensures { result.now ≡ self.now.ahead }
    {
        &self.bytes[self.from..self.to]
    }

    /// Makes it hold at least so many bytes. At `NoMemory` it holds as many as before.
    pub fn grow(&mut self, size: usize) -> Result<(), NoMemory>
        ensures ok { OnOk result (size ≤ self.new.size) }
        ensures ahead { self.new.ahead ≡ self.old.ahead }
        ensures taken { self.new.taken ≡ self.old.taken }
        ensures more { self.old.size ≤ self.new.size }
        ensures no_more { self.new.size ≤ max self.old.size size }
    {
        if self.bytes.len() < size {
            lengthen(&mut self.bytes, size)?;
        }
        Ok(())
    }

    /// Counts the bytes that are taken from here on.
    pub fn count_anew(&mut self)
        ensures { self.new ≡ record self.old { taken = 0 } }
    {
        self.taken = 0;
    }

    /// Gives out so many bytes.
    pub fn drop_front(&mut self, count: usize)
        requires { count ≤ length self.old.ahead }
        ensures { self.new ≡ record self.old { ahead = drop count self.old.ahead } }
    {
        self.from += count;
    }

    /// Takes what one call of the source gives behind the bytes that it holds, or says why no more is taken.
    pub fn fill<S: Source>(&mut self, source: &mut S) -> Option<Stop>
        requires { length self.old.ahead < self.old.size }
        ensures fills { Fills (S.left source.old) (S.left source.new) self.old self.new }
        ensures size { self.new.size ≡ self.old.size }
        ensures grows { IsNone result → self.old.taken < self.new.taken }
        ensures kept { IsSome result → self.new ≡ self.old }
        ensures few { self.new.taken ≤ input_limit }
        ensures end { IsEnded result (S.left source.new) }
        ensures limit { result ≡ Some Stop.InputLimit → self.new.taken ≡ input_limit }
        ensures cause { HasCauseFill (S.faults source.old) (S.faults source.new) result }
        ensures beside { S.beside source.new ≡ S.beside source.old }
    {
        if self.taken >= INPUT_LIMIT {
            return Some(Stop::InputLimit);
        }
        let most = INPUT_LIMIT - self.taken;
        let taken = refill(&mut self.bytes, self.from, self.to, most, source);
        self.to -= self.from;
        self.from = 0;
        match taken {
            Taken::Bytes(count) => {
                self.taken += count as u64;
                self.to += count;
                None
            }
            Taken::End => Some(Stop::End),
            Taken::Failed => Some(Stop::ReadFault),
        }
    }
}

/// Moves the bytes between `from` and `to` to the front, and takes at most so many behind them.
fn refill<S: Source>(bytes: &mut [u8], from: usize, to: usize, most: u64, source: &mut S) -> Taken
    requires order { from ≤ to }
    requires within { to ≤ length bytes.old }
    requires space { to - from < length bytes.old }
    requires some { 0 < most }
    ensures refills { let ahead = slice_range bytes.old from to in
        Refills (S.left source.old) (S.left source.new) ahead result (to - from) bytes.new }
    ensures within { CountWithin result (length bytes.old - (to - from)) most }
    ensures cause { HasCauseTaken (S.faults source.old) (S.faults source.new) result }
    ensures beside { S.beside source.new ≡ S.beside source.old }
{
    move_to_front(bytes, from, to);
    let held = to - from;
    let room = most.min((bytes.len() - held) as u64) as usize;
    take_behind(bytes, held, room, source)
}

/// Takes at most `room` bytes behind the first `at`.
fn take_behind<S: Source>(bytes: &mut [u8], at: usize, room: usize, source: &mut S) -> Taken
    requires some { 0 < room }
    requires within { at + room ≤ length bytes.old }
    ensures prefix { take at bytes.new ≡ take at bytes.old }
    ensures bytes { Takes (S.left source.old) (S.left source.new) result (slice_range bytes.new at (at + room)) }
    ensures cause { HasCauseTaken (S.faults source.old) (S.faults source.new) result }
    ensures beside { S.beside source.new ≡ S.beside source.old }
{
    source.take(&mut bytes[at..at + room])
}

/// Moves a part of the bytes to their front.
fn move_to_front(bytes: &mut [u8], from: usize, to: usize)
    requires order { from ≤ to }
    requires within { to ≤ length bytes.old }
    ensures { take (to - from) bytes.new ≡ slice_range bytes.old from to }
{
    if from > 0 {
        bytes.copy_within(from..to, 0);
    }
}

/// Lengthens the bytes by zeros.
fn lengthen(bytes: &mut Vec<u8>, size: usize) -> Result<(), NoMemory>
    requires { length bytes.old.items < size }
    ensures ok { OnOk result (length bytes.new.items ≡ size) }
    ensures err { OnErr result (length bytes.new.items ≡ length bytes.old.items) }
    ensures prefix { take (length bytes.old.items) bytes.new.items ≡ bytes.old.items }
    ensures more { length bytes.old.items ≤ length bytes.new.items }
{
    bytes.reserve_exact(size - bytes.len())?;
    bytes.resize(size, 0)?;
    Ok(())
}
