//! A source for tests of what reads in pieces.

ghost use Rattle.std.specs.Prelude.{Some};
ghost use Rattle.farm_io.specs.Beside.{one_sided};

use farm_io::{ReliableSource, Source, Taken};

/// A source that gives a byte at a time.
#[derive(Drop)]
pub struct Slow {
    pub inner: ReliableSource,
}

impl Source for Slow {
    ghost left = { λ s. Some s.inner };

    ghost faults = { λ _. 0 };

    ghost beside = { λ _. one_sided };

    fn take(&mut self, room: &mut [u8]) -> Taken {
        self.inner.take(&mut room[..1])
    }
}
