//! How far the judging is, on a terminal.
use judgehost::{Gate, Go, Point};
use std::io::IsTerminal;
use std::sync::atomic::{AtomicU64, Ordering};
use std::time::Instant;

/// How long the line of progress stays as it is.
const PAUSE_MILLISECONDS: u128 = 100;

/// How many tests were run, by hosts and by the program itself, as a line on standard error that is written over: where
/// that is a terminal, and at most ten times a second. As a gate it lets every host go on.
#[derive(Drop)]
pub(crate) struct Meter<'a> {
    rt: &'a HostRuntime,
    /// Since when the pauses are counted. None where nothing is to be shown.
    begun: Option<Instant>,
    tests: AtomicU64,
    /// The pause in which the line was written last. The first one is 1, and 0 stands where no line was written.
    written: AtomicU64,
}

impl<'a> Meter<'a> {
    /// Shows the tests where the command judges a contest, standard error is a terminal and the time is known.
    pub(crate) fn new(rt: &'a HostRuntime, judges: bool) -> Meter<'a> {
        let begun = if judges && rt.stderr().is_terminal() {
            Instant::now(rt).ok()
        } else {
            None
        };
        Meter {
            rt,
            begun,
            tests: AtomicU64::new(0),
            written: AtomicU64::new(0),
        }
    }

    /// One more test was run.
    pub(crate) fn count(&self) {
        let Some(begun) = self.begun else {
            return;
        };
        let tests = self.tests.fetch_add(1, Ordering::Relaxed).wrapping_add(1);
        if self.is_due(begun) {
            let _ = eprint!(self.rt; "\r\x1b[K{tests} tests run");
        }
    }

    /// Whether the line is due again, and this thread is the one to write it.
    fn is_due(&self, begun: Instant) -> bool {
        let Ok(now) = Instant::now(self.rt) else {
            return false;
        };
        let pauses = now.saturating_duration_since(begun).as_millis() / PAUSE_MILLISECONDS;
        let Ok(pauses) = u64::try_from(pauses) else {
            return false;
        };
        let pause = pauses.wrapping_add(1);
        let last = self.written.load(Ordering::Relaxed);
        last < pause
            && self
                .written
                .compare_exchange(last, pause, Ordering::Relaxed, Ordering::Relaxed)
                .is_ok()
    }

    /// Takes the line away.
    pub(crate) fn clear(&self) {
        if self.written.load(Ordering::Relaxed) > 0 {
            let _ = self.rt.eprint("\r\x1b[K");
        }
    }
}

impl Gate for Meter<'_> {
    ghost use Rattle.judgehost.specs.Gates.{is_on};

    ghost may_answer = { λ gate host point turn go. is_on go };

    fn pass(&self, _host: u32, point: Point, _turn: u64) -> Go {
        if point == Point::BeforePost {
            self.count();
        }
        Go::On
    }
}
