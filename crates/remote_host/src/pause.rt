ghost use Rattle.std.specs.Prelude.{◌≡◌};

use std::time::Duration;
use std::{rt, thread};

/// What passes the time until a host asks again.
pub trait Pause {
    /// Waits.
    fn pause(&self);
}

/// Passes no time.
#[derive(Clone, Copy, Debug)]
pub struct NoPause;

impl Pause for NoPause {
    fn pause(&self) {}
}

/// Passes so many seconds by the system's clock.
#[derive(Drop)]
pub struct SystemPause<R> {
    pub runtime: R,
    pub seconds: u64,
}

impl<R> SystemPause<R> {
    /// A pause of so many seconds.
    pub fn new(runtime: R, seconds: u64) -> SystemPause<R>
        ensures runtime { result.runtime ≡ runtime }
        ensures seconds { result.seconds ≡ seconds }
    {
        SystemPause { runtime, seconds }
    }
}

impl<R: rt::Clock> Pause for SystemPause<R> {
    fn pause(&self) {
        thread::sleep(&self.runtime, Duration::from_secs(self.seconds));
    }
}
