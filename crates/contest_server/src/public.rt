ghost use Rattle.judge_feed.specs.Refreshing.{KeepsPass};

use farm_api::{PublicReader, PublicReaders};
use farm_board::{Admission, Pass};
use farm_kinds::Answer;
use judge_feed::{Feed, Moments, Naming};
use public_board::Readers;
use std::alloc::Global;
use std::sync::{Mutex, MutexGuard, Wait};

/// What the public sees while a contest is served: the feed that publishes it, which all workers share, and the readers of
/// those that are not at work, of which there is one for each. A reader keeps the response that it gave last.
pub(crate) struct Public<A: Admission, J: Naming> {
    pub feed: Mutex<Feed<A, J>>,
    readers: Mutex<PublicReaders<J>>,
}

impl<A: Admission, J: Naming> Public<A, J> {
    /// The feed and all its readers.
    pub fn new(
        alloc: Global,
        feed: Feed<A, J>,
        readers: Readers<Answer, Moments<J>>,
    ) -> Public<A, J> {
        Public {
            feed: Mutex::new(feed),
            readers: Mutex::new(PublicReaders::new(alloc, readers)),
        }
    }

    /// A reader for a worker that goes to work. None where all are at work.
    pub fn take_reader<W: Wait>(&self, rt: &W, alloc: Global) -> Option<PublicReader<J>> {
        let mut readers = self.readers.lock(rt);
        let reader = readers.take(alloc);
        MutexGuard::unlock(readers);
        reader
    }

    /// Keeps the reader of a worker that is done for the next one.
    pub fn put_reader<W: Wait>(&self, rt: &W, reader: PublicReader<J>) {
        let mut readers = self.readers.lock(rt);
        readers.put(reader);
        MutexGuard::unlock(readers);
    }

    /// Ends the feed, and gives its pass back.
    pub fn end<W: Wait>(self, rt: &W) -> Pass<A>
        ensures kept { KeepsPass J.board J.start J.number result }
    {
        let Public { feed, readers } = self;
        drop(readers);
        feed.into_inner().end(rt)
    }
}
