ghost use Rattle.std.specs.Prelude.{◌≡◌, ◌++◌, OnOk};
ghost use Rattle.contest_server.specs.Visits.{how_word, conn_line};
ghost use Rattle.contest_server.specs.Texts.{PutsText, HasCauseTold};

use farm_api::{ConnEnd, ConnHow};
use farm_io::{PutEnd, Sink};
use farm_kinds::NoMemory;
use std::alloc::Global;

/// Why a text was not written whole.
#[derive(Clone, Copy, Debug, PartialEq, Eq)]
pub(crate) enum TextFault {
    WriteFault,
    NoMemory,
}

/// The word that a line has for the end of a connection.
fn how_word(how: ConnHow) -> &'static str
    ensures { result.now ≡ how_word how }
{
    match how {
        ConnHow::End => "end",
        ConnHow::Closed => "closed",
        ConnHow::Cut => "cut",
        ConnHow::BadRequest => "bad-request",
        ConnHow::ReadFault => "read-fault",
        ConnHow::WriteFault => "write-fault",
        ConnHow::InputLimit => "input-limit",
        ConnHow::NoMemory => "memory",
    }
}

/// Puts the line of a connection behind what is there.
fn push_conn_line(
    alloc: Global,
    text: &mut Vec<u8>,
    number: u64,
    end: ConnEnd,
) -> Result<(), NoMemory>
    ensures { OnOk result (text.new.items ≡ text.old.items ++ conn_line number end.requests end.how) }
{
    let ConnEnd { requests, how } = end;
    let word = how_word(how);
    let line = format!(in alloc; "conn {number} requests {requests} {word}\n")?;
    text.extend_from_slice(line.as_bytes())?;
    Ok(())
}

/// Puts a text.
pub(crate) fn put_text<K: Sink>(out: &mut K, text: &[u8]) -> Result<(), TextFault>
    ensures puts { PutsText (K.held out.old) (K.held out.new) text.now result }
    ensures cause { HasCauseTold (K.faults out.old) (K.faults out.new) result }
{
    match out.put(text) {
        PutEnd::Done => Ok(()),
        PutEnd::Failed => Err(TextFault::WriteFault),
    }
}

/// Writes the line of a connection.
pub(crate) fn write_line<K: Sink>(
    alloc: Global,
    out: &mut K,
    number: u64,
    end: ConnEnd,
) -> Result<(), TextFault>
    ensures puts { PutsText (K.held out.old) (K.held out.new) (conn_line number end.requests end.how) result }
    ensures cause { HasCauseTold (K.faults out.old) (K.faults out.new) result }
{
    let mut text = Vec::new(alloc);
    if push_conn_line(alloc, &mut text, number, end).is_err() {
        return Err(TextFault::NoMemory);
    }
    put_text(out, text.as_slice())
}
