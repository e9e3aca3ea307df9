ghost use Rattle.std.specs.Prelude.{◌≡◌, ◌<◌, List, ℕ, length, Option};
ghost use Rattle.farm_io.specs.Streams.{Takes, Puts, HasCauseTaken, HasCausePut};
ghost use Rattle.farm_io.specs.Beside.{Side};

/// What [`Source::take`] did.
#[derive(Clone, Copy, Debug, PartialEq, Eq)]
pub enum Taken {
    /// This number of bytes was moved, at least one.
    Bytes(usize),
    /// Nothing is left.
    End,
    /// The source failed, and nothing was taken.
    Failed,
}

/// What [`Sink::put`] did.
#[derive(Clone, Copy, Debug, PartialEq, Eq)]
pub enum PutEnd {
    /// The whole piece was put.
    Done,
    /// The sink failed, and perhaps a prefix of the piece was put.
    Failed,
}

/// Where bytes come from.
pub trait Source {
    /// The bytes that are left, where the source tells them.
    ghost left: { Self → Option (List ℕ) };
    /// How often the source has failed.
    ghost faults: { Self → ℕ };
    /// What it holds and how often it has failed as a sink, where it is one too.
    ghost beside: { Self → Side };

    /// Moves bytes from the front of what is left into the front of the room, as many as it likes.
    /// At `End` and `Failed` the room holds anything.
    fn take(&mut self, room: &mut [u8]) -> Taken
        requires { 0 < length room.old }
        ensures bytes { Takes (left self.old) (left self.new) result room.new }
        ensures cause { HasCauseTaken (faults self.old) (faults self.new) result }
        ensures beside { beside self.new ≡ beside self.old };
}

/// Where bytes go.
pub trait Sink {
    /// The bytes that it holds, where the sink tells them.
    ghost held: { Self → Option (List ℕ) };
    /// How often the sink has failed.
    ghost faults: { Self → ℕ };
    /// What it has left and how often it has failed as a source, where it is one too.
    ghost beside: { Self → Side };

    /// Puts the piece behind what the sink holds.
    fn put(&mut self, piece: &[u8]) -> PutEnd
        ensures bytes { Puts (held self.old) (held self.new) result piece.now }
        ensures cause { HasCausePut (faults self.old) (faults self.new) result }
        ensures beside { beside self.new ≡ beside self.old };
}
