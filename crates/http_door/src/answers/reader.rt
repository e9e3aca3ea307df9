ghost use Rattle.std.specs.Prelude.{◌≡◌, ◌≤◌, ◌<◌, [], length, Err, IfErr};
ghost use Rattle.http_door.specs.Heads.{head_limit};
ghost use Rattle.http_door.specs.Answers.{HoldsAnswer};
ghost use Rattle.http_door.specs.AnswerFinding.{room_limit};
ghost use Rattle.http_door.specs.AnswerReading.{Reads, ReadsIn, HasCauseRead};

use super::ending::AnswerEnding;
use super::finding::{Whole, take_answer};
use crate::finding::HEAD_LIMIT;
use crate::window::Window;
use farm_io::Source;
use std::alloc::Global;
use std::marker::Model;

/// Cuts the bytes that come back on a connection into responses.
///
/// It takes memory for 32 KiB at the first call, and more only for a body that does not fit: for that it
/// grows once, to at most [`HEAD_LIMIT`] and [`ANSWER_LIMIT`](crate::ANSWER_LIMIT) bytes together.
#[derive(Drop)]
pub struct AnswerReader {
    window: Window,
    body: usize,
}

impl Model for AnswerReader {
    ghost use Rattle.http_door.specs.AnswerReaderValue.{ReaderValue};

    ghost Value = { ReaderValue };

    ghost use Rattle.http_door.specs.AnswerReaderShape.{reader_value, IsReaderShape};

    ghost view = { reader_value };

    ghost invariant = { IsReaderShape };
}

impl AnswerReader {
    /// A reader that has taken nothing yet.
    pub fn new(alloc: Global) -> AnswerReader
        ensures { result ≡ record { ahead = []; body = [] } }
    {
        AnswerReader {
            window: Window::empty(alloc),
            body: 0,
        }
    }

    /// The body of the response that the last call of [`AnswerReader::next_answer`] gave. It is empty where
    /// that call gave none.
    pub fn body(&self) -> &[u8]
        ensures { result.now ≡ self.now.body }
    {
        &self.window.ahead()[..self.body]
    }

    /// Reads the next response, and gives its code. After an error the bytes that were taken are still there.
    pub fn next_answer<S: Source>(&mut self, source: &mut S) -> Result<u16, AnswerEnding>
        ensures reads { Reads (S.left source.old) (S.left source.new) self.old self.new result }
        ensures cause { HasCauseRead (S.faults source.old) (S.faults source.new) result }
        ensures beside { S.beside source.new ≡ S.beside source.old }

        // A response that is held whole is given without asking the source; only want of memory keeps it back.
        ensures held { HoldsAnswer self.old.ahead
            → (source.new ≡ source.old) × IfErr result (λ e. e ≡ AnswerEnding.NoMemory) }
    {
        self.window.drop_front(self.body);
        self.window.count_anew();
        self.body = 0;
        match give_next(&mut self.window, source) {
            Ok(whole) => {
                self.body = whole.len;
                Ok(whole.seen.code)
            }
            Err(ending) => Err(ending),
        }
    }
}

/// Gives the response at the front of the window, with its body left there.
fn give_next<S: Source>(window: &mut Window, source: &mut S) -> Result<Whole, AnswerEnding>
    requires small { window.old.size ≤ room_limit }
    requires few { window.old.taken ≤ length window.old.ahead }
    ensures reads { ReadsIn (S.left source.old) (S.left source.new) window.old window.new result }
    ensures small { window.new.size ≤ room_limit }
    ensures cause { HasCauseRead (S.faults source.old) (S.faults source.new) result }
    ensures beside { S.beside source.new ≡ S.beside source.old }
    ensures held { HoldsAnswer window.old.ahead
        → (source.new ≡ source.old) × IfErr result (λ e. e ≡ AnswerEnding.NoMemory) }
{
    if let Err(_) = window.grow(2 * HEAD_LIMIT) {
        return Err(AnswerEnding::NoMemory);
    }
    match take_answer(window, source) {
        Err(ending) => Err(ending),
        Ok(whole) => {
            window.drop_front(whole.seen.len);
            Ok(whole)
        }
    }
}
