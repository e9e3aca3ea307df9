ghost use Rattle.std.specs.Prelude.{◌≡◌, ◌≤◌};
ghost use Rattle.farm_io.specs.Streams.{Puts};
ghost use Rattle.farm_io.specs.Beside.{one_sided};

use crate::streams::{PutEnd, Sink, Source, Taken};
use std::io::{Read, Write};

/// A reader of `std` as a source, as standard input, a file or a socket.
///
/// Each error of the reader raises the count, which stands still at the end of its type.
#[derive(Drop)]
pub struct ReadSource<R> {
    pub reader: R,
    /// How often the reader has failed.
    pub faults: u64,
}

impl<R> ReadSource<R> {
    /// A source over the reader, whose count is 0.
    pub fn new(reader: R) -> ReadSource<R>
        ensures reader { result.reader ≡ reader }
        ensures faults { result.faults ≡ 0 }
    {
        ReadSource { reader, faults: 0 }
    }
}

impl<R: Read> Source for ReadSource<R> {
    ghost left = { λ s. R.remaining s.reader };

    ghost faults = { λ s. s.faults };

    ghost beside = { λ _. one_sided };

    fn take(&mut self, room: &mut [u8]) -> Taken {
        match self.reader.read(room) {
            Ok(0) => Taken::End,
            Ok(count) => Taken::Bytes(count),
            Err(_) => {
                self.faults = self.faults.saturating_add(1);
                Taken::Failed
            }
        }
    }
}

/// A writer of `std` as a sink, as standard output, a file or a socket.
///
/// Each error of the writer, as a closed pipe, raises the count, which stands still at the end of its type.
/// So does a write that takes no byte.
#[derive(Drop)]
pub struct WriteSink<W> {
    pub writer: W,
    /// How often the writer has failed.
    pub faults: u64,
}

impl<W> WriteSink<W> {
    /// A sink over the writer, whose count is 0.
    pub fn new(writer: W) -> WriteSink<W>
        ensures writer { result.writer ≡ writer }
        ensures faults { result.faults ≡ 0 }
    {
        WriteSink { writer, faults: 0 }
    }
}

impl<W: Write> Sink for WriteSink<W> {
    ghost held = { λ s. W.contents s.writer };

    ghost faults = { λ s. s.faults };

    ghost beside = { λ _. one_sided };

    fn put(&mut self, piece: &[u8]) -> PutEnd {
        let end = write_whole(&mut self.writer, piece);
        if end == PutEnd::Failed {
            self.faults = self.faults.saturating_add(1);
        }
        end
    }
}

/// Puts the whole piece, or a prefix of it up to the first error. That no byte is taken is an error too.
pub fn write_whole<W: Write>(writer: &mut W, piece: &[u8]) -> PutEnd
    ensures { Puts (W.contents writer.old) (W.contents writer.new) result piece.now }
{
    let mut from = 0;
    while from < piece.len() {
        match writer.write(&piece[from..]) {
            Ok(count) if count > 0 => from += count,
            _ => return PutEnd::Failed,
        }
    }
    PutEnd::Done
}
