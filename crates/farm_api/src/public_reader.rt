ghost use Rattle.std.specs.Prelude.{◌≡◌, false, MatchResult, OnOk};
ghost use Rattle.farm_kinds.specs.declared.events.Reply.TheVariants as reply;
ghost use Rattle.http_door.specs.Responses.{HasCauseWritten};
ghost use Rattle.public_board.specs.Values.{with_note, Looks, Gives};
ghost use Rattle.public_board.specs.Versions.{last_of};
ghost use Rattle.judge_feed.specs.Showing.{AreShown};
ghost use Rattle.farm_api.specs.Conversation.{rows_response};
ghost use Rattle.farm_api.specs.Putting.{PutsRead, IsKept};

use crate::publishing::{put_rows, rows_response};
use farm_io::Sink;
use farm_kinds::{Answer, NoMemory};
use http_door::{ResponseFault, put_response};
use judge_feed::{Moments, Naming};
use public_board::{Note, Reader, Readers};
use std::alloc::Global;
use std::marker::Model;

/// Reads, and makes the response anew where it is not that of the last version.
#[tactic(auto, using(crate::proofs::Kept::kept_looks, crate::proofs::Kept::kept_gives, crate::proofs::Kept::kept_same, crate::proofs::Kept::kept_anew, crate::proofs::Kept::gives_last, crate::proofs::Kept::made_last))]
fn renew<J: Naming>(
    alloc: Global,
    reader: &mut Reader<Answer, Moments<J>>,
    number: &mut u64,
    response: &mut Vec<u8>,
) -> Result<(), NoMemory>
    requires kept { IsKept reader.old.seen number.old response.old.items }
    ensures kept { IsKept reader.new.seen number.new response.new.items }
    ensures reads { MatchResult result (λ _. Gives (AreShown J.start) reader.old reader.new (last_of reader.new.seen)) (λ _. Looks reader.old reader.new) }
    ensures gives { OnOk result (response.new.items ≡ rows_response false (reply.Board (last_of reader.new.seen))) }
{
    let Some(version) = reader.newer(alloc, *number)? else {
        return Ok(());
    };
    *response = rows_response(alloc, version.rows.as_slice())?;
    *number = version.number;
    Ok(())
}

/// Reads, and puts the response that gives the rows: the one that is kept, or, where the server asks to close the
/// connection behind it, another one.
fn put_read<J: Naming, K: Sink>(
    alloc: Global,
    reader: &mut Reader<Answer, Moments<J>>,
    number: &mut u64,
    response: &mut Vec<u8>,
    closing: bool,
    sink: &mut K,
) -> Result<(), ResponseFault>
    requires kept { IsKept reader.old.seen number.old response.old.items }
    ensures kept { IsKept reader.new.seen number.new response.new.items }
    ensures puts { PutsRead J.start closing reader.old reader.new (K.held sink.old) (K.held sink.new) result }
    ensures cause { HasCauseWritten (K.faults sink.old) (K.faults sink.new) result }
    ensures beside { K.beside sink.new ≡ K.beside sink.old }
{
    if closing {
        return match reader.rows(alloc) {
            Ok(rows) => put_rows(alloc, sink, closing, rows.as_slice()),
            Err(_) => Err(ResponseFault::NoMemory),
        };
    }
    match renew(alloc, reader, number, response) {
        Ok(()) => put_response(sink, response.as_slice()),
        Err(_) => Err(ResponseFault::NoMemory),
    }
}

/// Reads what the public sees, and keeps the response that gave it last: that is put again while nothing newer is
/// published. Contracts see the reader. What it keeps is the text of one version at the most.
#[derive(Drop)]
pub struct PublicReader<J: Naming> {
    reader: Reader<Answer, Moments<J>>,
    /// The number of the version that the response gives; 0 while there is none.
    number: u64,
    response: Vec<u8>,
}

impl<J: Naming> Model for PublicReader<J> {
    ghost use Rattle.farm_api.specs.Putting.{PublicReaderValue};

    ghost Value = { PublicReaderValue };

    ghost use Rattle.farm_api.specs.Putting.{IsKept};

    ghost view = { λ r. r.reader };

    ghost invariant = { λ r. IsKept r.reader.seen r.number r.response.items };
}

impl<J: Naming> PublicReader<J> {
    /// A reader that keeps no response yet.
    pub fn new(alloc: Global, reader: Reader<Answer, Moments<J>>) -> PublicReader<J>
        ensures { result ≡ reader }
    {
        PublicReader {
            reader,
            number: 0,
            response: Vec::new(alloc),
        }
    }

    /// The reader alone.
    pub fn into_reader(self) -> Reader<Answer, Moments<J>>
        ensures { result ≡ self }
    {
        let PublicReader {
            reader,
            number: _,
            response: _,
        } = self;
        reader
    }

    /// From now on this reader gives no version before the one that the note tells of.
    pub(crate) fn learn(&mut self, note: &Note)
        ensures { self.new ≡ with_note self.old note.now.number }
    {
        self.reader.learn(note);
    }

    /// The rows of one published version, as [`Reader::rows`] gives them.
    pub(crate) fn rows(&mut self, alloc: Global) -> Result<Vec<Answer>, NoMemory>
        ensures { MatchResult result (λ rows. Gives (AreShown J.start) self.old self.new rows.items) (λ _. Looks self.old self.new) }
    {
        self.reader.rows(alloc)
    }

    /// Puts the response that gives the rows of one published version. It waits for nobody, and takes no memory where it
    /// is the version that was put before, unless the server asks to close the connection.
    pub(crate) fn put<K: Sink>(
        &mut self,
        alloc: Global,
        closing: bool,
        sink: &mut K,
    ) -> Result<(), ResponseFault>
        ensures puts { PutsRead J.start closing self.old self.new (K.held sink.old) (K.held sink.new) result }
        ensures cause { HasCauseWritten (K.faults sink.old) (K.faults sink.new) result }
        ensures beside { K.beside sink.new ≡ K.beside sink.old }
    {
        put_read(
            alloc,
            &mut self.reader,
            &mut self.number,
            &mut self.response,
            closing,
            sink,
        )
    }
}

/// The readers that nobody has taken. One that was used keeps its response, and is taken first.
#[derive(Drop)]
pub struct PublicReaders<J: Naming> {
    used: Vec<PublicReader<J>>,
    unused: Readers<Answer, Moments<J>>,
}

impl<J: Naming> PublicReaders<J> {
    /// Readers of which none was used yet.
    pub fn new(alloc: Global, unused: Readers<Answer, Moments<J>>) -> PublicReaders<J> {
        PublicReaders {
            used: Vec::new(alloc),
            unused,
        }
    }

    /// A reader. None where all were taken.
    pub fn take(&mut self, alloc: Global) -> Option<PublicReader<J>> {
        if let Some(reader) = self.used.pop() {
            return Some(reader);
        }
        let reader = self.unused.take()?;
        Some(PublicReader::new(alloc, reader))
    }

    /// Puts a reader back, for another thread to take it. Where no memory is left it keeps no response.
    pub fn put(&mut self, reader: PublicReader<J>) {
        if self.used.reserve(1).is_err() {
            self.unused.put(reader.into_reader());
            return;
        }
        self.used.push_reserved(reader);
    }
}
