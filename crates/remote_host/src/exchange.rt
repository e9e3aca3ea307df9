ghost use Rattle.std.specs.Prelude.{◌≡◌, ◌≢◌, ◌+◌, ◌≤◌, ℕ, IfOk, IfErr, Err};
ghost use Rattle.farm_io.specs.Streams.{Puts, Rose, HasCausePut};
ghost use Rattle.farm_io.specs.Beside.{side};
ghost use Rattle.http_door.specs.AnswerReading.{Reads, HasCauseRead, answer_with};
ghost use Rattle.remote_host.specs.Standing.{Exchanged, Stopped};
ghost use Rattle.remote_host.specs.Halts.{halt_of, head_wrong};

use crate::asks::Wrong;
use farm_io::{PutEnd, Sink, Source};
use http_door::{AnswerEnding, AnswerReader};

/// Why a request has no response.
#[derive(Clone, Copy)]
pub enum Halt {
    /// The connection failed.
    Failed,
    /// No memory was left.
    NoMemory,
    /// No response stands in the bytes.
    Wrong(Wrong),
}

/// Why a reader gives no response.
fn halt_of(ending: AnswerEnding) -> Halt
    ensures { result ≡ halt_of ending }
{
    match ending {
        AnswerEnding::Cut => Halt::Wrong(Wrong::Cut),
        AnswerEnding::BadHead => Halt::Wrong(Wrong::BadHead),
        AnswerEnding::TooLong { len } => Halt::Wrong(Wrong::TooLong { len }),
        AnswerEnding::Status { code } => Halt::Wrong(Wrong::Status { code }),
        AnswerEnding::ReadFault => Halt::Failed,
        AnswerEnding::NoMemory => Halt::NoMemory,
    }
}

/// Puts a request.
fn put_request<N: Source + Sink>(conn: &mut N, request: &[u8]) -> PutEnd
    requires sink { (n : N) → N.Sink.beside n ≡ side (N.left n) (N.Source.faults n) }
    ensures puts { Puts (N.held conn.old) (N.held conn.new) result request.now }
    ensures left { N.left conn.new ≡ N.left conn.old }
    ensures reads { N.Source.faults conn.new ≡ N.Source.faults conn.old }
    ensures cause { HasCausePut (N.Sink.faults conn.old) (N.Sink.faults conn.new) result }
{
    conn.put(request)
}

/// Takes a response.
fn take_answer<N: Source + Sink>(
    conn: &mut N,
    reader: &mut AnswerReader,
) -> Result<u16, AnswerEnding>
    requires source { (n : N) → N.Source.beside n ≡ side (N.held n) (N.Sink.faults n) }
    ensures reads { Reads (N.left conn.old) (N.left conn.new) reader.old reader.new result }
    ensures held { N.held conn.new ≡ N.held conn.old }
    ensures writes { N.Sink.faults conn.new ≡ N.Sink.faults conn.old }
    ensures cause { HasCauseRead (N.Source.faults conn.old) (N.Source.faults conn.new) result }
{
    reader.next_answer(conn)
}

/// Puts a request and takes its response, whose code is of no matter.
pub fn exchange<N: Source + Sink>(
    conn: &mut N,
    reader: &mut AnswerReader,
    request: &[u8],
) -> Result<(), Halt>
    requires source { (n : N) → N.Source.beside n ≡ side (N.held n) (N.Sink.faults n) }
    requires sink { (n : N) → N.Sink.beside n ≡ side (N.left n) (N.Source.faults n) }
    ensures ok { IfOk result (λ _. (code : ℕ) × Exchanged
        (record { held = N.held conn.old; left = N.left conn.old; ahead = reader.old.ahead })
        (record { held = N.held conn.new; left = N.left conn.new; ahead = reader.new.ahead })
        request.now (answer_with code reader.new.body)) }
    ensures err { IfErr result (λ halt. Stopped
        (record { held = N.held conn.old; left = N.left conn.old; ahead = reader.old.ahead })
        (record { held = N.held conn.new; left = N.left conn.new; ahead = reader.new.ahead })
        request.now (head_wrong halt)) }
    ensures later { N.Source.faults conn.old + N.Sink.faults conn.old ≤ N.Source.faults conn.new + N.Sink.faults conn.new }
    ensures fault { result ≡ Err Halt.Failed
        → Rose (N.Source.faults conn.old + N.Sink.faults conn.old) (N.Source.faults conn.new + N.Sink.faults conn.new) }

    // The count rises at nothing else, unless the source failed behind bytes that no head begins with: these are told.
    ensures kept { result ≢ Err Halt.Failed → result ≢ Err (Halt.Wrong Wrong.BadHead)
        → N.Source.faults conn.new + N.Sink.faults conn.new ≡ N.Source.faults conn.old + N.Sink.faults conn.old }
{
    match put_request(conn, request) {
        PutEnd::Failed => Err(Halt::Failed),
        PutEnd::Done => match take_answer(conn, reader) {
            Ok(_) => Ok(()),
            Err(ending) => Err(halt_of(ending)),
        },
    }
}
