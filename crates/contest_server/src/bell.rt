use std::sync::{Mutex, Wait};
use std::thread::Parker;
use std::time::Duration;

/// How many workers there can be at the same time.
pub(crate) const PLACES: usize = 16;

/// For how long a connection that was asked to close is waited for before another one is asked.
const MOMENT_MILLISECONDS: u64 = 50;

/// Where workers say that their connection has ended, each by the place that it was given, and where one thread waits
/// for them.
#[derive(Drop)]
pub(crate) struct Bell {
    rung: Mutex<[bool; PLACES]>,
    waiting: Parker,
}

impl Bell {
    /// A bell that nobody has rung.
    pub fn new() -> Bell {
        Bell {
            rung: Mutex::new([false; PLACES]),
            waiting: Parker::new(),
        }
    }

    /// Says that the worker in this place is done.
    pub fn ring<W: Wait>(&self, rt: &W, place: usize) {
        let mut rung = self.rung.lock(rt);
        if place < PLACES {
            rung[place] = true;
        }
        drop(rung);
        self.waiting.unpark();
    }

    /// Which workers are done since this was last asked.
    pub fn heard<W: Wait>(&self, rt: &W) -> [bool; PLACES] {
        let mut rung = self.rung.lock(rt);
        let done = *rung;
        *rung = [false; PLACES];
        done
    }

    /// Which workers are done since this was last asked, once a moment has gone by, or one of them is done.
    pub fn heard_soon<W: Wait>(&self, rt: &W) -> [bool; PLACES] {
        self.waiting
            .park_timeout(rt, Duration::from_millis(MOMENT_MILLISECONDS));
        self.heard(rt)
    }

    /// Which workers are done since this was last asked, once one of them is.
    pub fn await_any<W: Wait>(&self, rt: &W) -> [bool; PLACES] {
        for _ in rt.forever() {
            let done = self.heard(rt);
            if done.contains(&true) {
                return done;
            }
            self.waiting.park(rt);
        }
        unreachable!()
    }
}

/// The places of workers, and the connection that each serves: how many came before it.
#[derive(Clone, Copy, Debug)]
pub(crate) struct Places {
    served: [Option<u64>; PLACES],
}

impl Places {
    /// Places that are all free.
    pub fn new() -> Places {
        Places {
            served: [None; PLACES],
        }
    }

    /// How many workers are at work.
    pub fn count(&self) -> usize {
        self.served.iter().filter(|served| served.is_some()).count()
    }

    /// The first connection behind `others` others that is being served: how many came before it.
    pub fn first_behind(&self, others: u64) -> Option<u64> {
        let served = self.served.iter().flatten().copied();
        served.filter(|before| *before >= others).min()
    }

    /// Gives a free place to the connection behind `before` others, and says which.
    pub fn take(&mut self, before: u64) -> usize {
        for place in 0..PLACES {
            if self.served[place].is_none() {
                self.served[place] = Some(before);
                return place;
            }
        }
        PLACES
    }

    /// Frees a place, and says which connection had it.
    pub fn leave(&mut self, place: usize) -> Option<u64> {
        if place < PLACES {
            return self.served[place].take();
        }
        None
    }
}
