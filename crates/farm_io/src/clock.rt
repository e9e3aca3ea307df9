ghost use Rattle.std.specs.Prelude.{◌≡◌, ℕ, Bool, true};
ghost use Rattle.farm_io.specs.Clocks.{shows_only, shows_any};

use std::rt;

/// What tells the time, in seconds.
pub trait Clock {
    /// Whether it may show this number.
    ghost shows: { Self → ℕ → Bool };

    /// The time in seconds.
    fn now(&self) -> u64
        ensures { shows self.now result ≡ true };
}

/// A clock that stands still.
#[derive(Clone, Copy, Debug)]
pub struct FixedClock {
    /// What it shows.
    pub moment: u64,
}

impl FixedClock {
    /// A clock that shows this number.
    pub fn new(moment: u64) -> FixedClock
        ensures { result.moment ≡ moment }
    {
        FixedClock { moment }
    }
}

impl Clock for FixedClock {
    ghost shows = { λ c. shows_only c.moment };

    fn now(&self) -> u64
        ensures { result ≡ self.now.moment }
    {
        self.moment
    }
}

/// The clock of the system, in seconds since 1970. It shows 0 where the system tells no time.
#[derive(Drop)]
pub struct SystemClock<R> {
    pub runtime: R,
}

impl<R> SystemClock<R> {
    /// The clock of this runtime.
    pub fn new(runtime: R) -> SystemClock<R>
        ensures { result.runtime ≡ runtime }
    {
        SystemClock { runtime }
    }
}

impl<R: rt::Clock> Clock for SystemClock<R> {
    ghost shows = { λ _. shows_any };

    fn now(&self) -> u64 {
        match self.runtime.since_1970() {
            Ok(passed) => passed.as_secs(),
            Err(_) => 0,
        }
    }
}
