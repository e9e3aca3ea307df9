use crate::computed::computed_lines;
use crate::slow::Slow;
use crate::talks::bytes_of;
use farm_io::{
    Line, LineReader, MemorySink, MemorySource, PutEnd, ReadSource, ReliableSink, ReliableSource,
    Sink, Source, Taken, WriteSink,
};
use std::alloc::{AllocError, Global};
use std::process::Abort;
use std::test::Fail;

#[test]
fn computes_lines() {
    computed_lines();
}

/// The lines of the source, each with a bar behind it, of a long one its length, and why no more came.
fn read_all<S: Source>(alloc: Global, source: &mut S) -> Result<(Vec<u8>, Line), AllocError> {
    let mut shown = Vec::new(alloc);
    let mut reader = LineReader::new();
    for _ in 0..100u64 {
        match reader.next_line(source) {
            Line::Text => shown.extend_from_slice(reader.text())?,
            Line::TooLong { len } => shown.extend_from_slice(len.to_string(alloc)?.as_bytes())?,
            stop => return Ok((shown, stop)),
        }
        shown.push(b'|')?;
    }
    Ok((shown, Line::Text))
}

/// Compares lines that are shown, and why no more came.
fn check_shown(rt: &impl Abort, shown: &[u8], want: &[u8], stop: Line, end: Line) {
    assert_eq!(rt; (shown, stop), (want, end));
}

/// Compares the lines of the source, as `read_all` shows them, and why no more came.
fn check_lines<S: Source>(
    rt: &impl Abort,
    alloc: Global,
    source: &mut S,
    want: &[u8],
    end: Line,
) -> Result<(), AllocError> {
    let (shown, stop) = read_all(alloc, source)?;
    check_shown(rt, shown.as_slice(), want, stop, end);
    Ok(())
}

/// Texts, and their lines as `read_all` shows them, a line each.
const TEXTS: &str = concat!(
    " => \n",
    "a => a|\n",
    "a~ => a|\n",
    "a~bc~~d => a|bc||d|\n",
    "~~ => ||\n",
    "a^~b^~ => a|b|\n",
    "a^^~ => a^|\n",
    "a^b~ => a^b|\n",
    "^~ => |\n",
    "a~^ => a||\n",
    "a^ => a|\n",
);

/// Compares the lines of bytes that come at once, and one by one.
fn check_text(rt: &impl Abort, alloc: Global, text: &[u8], want: &[u8]) -> Result<(), AllocError> {
    let mut source = ReliableSource::new(text.to_vec(alloc)?);
    check_lines(rt, alloc, &mut source, want, Line::End)?;
    let inner = ReliableSource::new(text.to_vec(alloc)?);
    check_lines(rt, alloc, &mut Slow { inner }, want, Line::End)
}

/// Compares the lines of the text of a row.
fn check_row(rt: &impl Abort, alloc: Global, row: &str) -> Result<(), AllocError> {
    let (text, want) = row.split_once(" => ").unwrap_or((row, ""));
    let text = bytes_of(alloc, text)?;
    let want = bytes_of(alloc, want)?;
    check_text(rt, alloc, text.as_slice(), want.as_slice())
}

#[test]
fn cuts_lines(rt: HostRuntime) -> Result<(), Fail> {
    for row in TEXTS.lines() {
        check_row(&rt, rt.alloc(), row)?;
    }
    let want = b"\xff\x00\xfe|\x80|";
    Ok(check_text(&rt, rt.alloc(), b"\xff\x00\xfe\n\x80", want)?)
}

/// `count` letters, an end of the line, and one more line.
fn letters(alloc: Global, count: usize, end: &[u8]) -> Result<Vec<u8>, AllocError> {
    let mut text = vec![in alloc; b'a'; count]?;
    text.extend_from_slice(end)?;
    text.extend_from_slice(b"b\n")?;
    Ok(text)
}

const LONG: [(usize, &[u8], &[u8]); 6] = [
    (4097, b"\n", b"4097|b|"),
    (4096, b"\r\n", b"4097|b|"),
    (65_535, b"\n", b"65535|b|"),
    (65_536, b"\n", b"65536|b|"),
    (200_000, b"\r\n", b"200001|b|"),
    (200_000, b"", b"200001|"),
];

#[test]
fn skips_long_lines(rt: HostRuntime) -> Result<(), Fail> {
    let alloc = rt.alloc();
    for (count, end, want) in LONG {
        let mut source = ReliableSource::new(letters(alloc, count, end)?);
        check_lines(&rt, alloc, &mut source, want, Line::End)?;
    }
    Ok(())
}

#[test]
fn keeps_lines_within_the_limit(rt: HostRuntime) -> Result<(), Fail> {
    let alloc = rt.alloc();
    for (count, end) in [(4096, b"\n".as_slice()), (4095, b"\r\n".as_slice())] {
        let mut want = vec![in alloc; b'a'; count]?;
        want.extend_from_slice(b"|b|")?;
        let mut source = ReliableSource::new(letters(alloc, count, end)?);
        check_lines(&rt, alloc, &mut source, want.as_slice(), Line::End)?;
    }
    Ok(())
}

/// A source whose calls with these numbers fail.
fn failing(alloc: Global, text: &[u8], calls: &[u64]) -> Result<MemorySource, AllocError> {
    Ok(MemorySource::new(text.to_vec(alloc)?, calls.to_vec(alloc)?))
}

/// Whether a line needed no read, the next one, and how long its text is.
fn next<S: Source>(reader: &mut LineReader, source: &mut S) -> (bool, Line, usize) {
    let held = reader.has_line();
    let line = reader.next_line(source);
    (held, line, reader.text().len())
}

/// Compares the next line, as `next` gives it.
fn check_next<S: Source>(
    rt: &impl Abort,
    reader: &mut LineReader,
    source: &mut S,
    wanted: (bool, Line, usize),
) {
    assert_eq!(rt; next(reader, source), wanted);
}

#[test]
fn a_read_that_fails_within_a_line_is_answered_again(rt: HostRuntime) -> Result<(), Fail> {
    let mut reader = LineReader::new();
    let mut source = failing(rt.alloc(), b"a\nb", &[1])?;
    check_next(&rt, &mut reader, &mut source, (false, Line::Text, 1));
    for _ in 0..3 {
        check_next(&rt, &mut reader, &mut source, (false, Line::ReadFault, 0));
    }
    Ok(())
}

#[test]
fn each_failing_read_ends_the_lines(rt: HostRuntime) -> Result<(), Fail> {
    let alloc = rt.alloc();
    let mut text = letters(alloc, 65_530, b"\n")?;
    text.extend_from_slice(letters(alloc, 70_000, b"\n")?.as_slice())?;
    let whole = b"65530|b|70000|b|".as_slice();
    for (call, want) in [
        (0, b"".as_slice()),
        (1, b"65530|b|"),
        (2, b"65530|b|"),
        (3, whole),
    ] {
        let mut source = failing(alloc, text.as_slice(), &[call])?;
        check_lines(&rt, alloc, &mut source, want, Line::ReadFault)?;
    }
    Ok(())
}

#[test]
fn a_held_line_needs_no_read(rt: HostRuntime) -> Result<(), Fail> {
    let mut reader = LineReader::new();
    let mut source = failing(rt.alloc(), b"a\nb\nc", &[1])?;
    check_next(&rt, &mut reader, &mut source, (false, Line::Text, 1));
    check_next(&rt, &mut reader, &mut source, (true, Line::Text, 1));
    Ok(())
}

/// What the sink answers to each of these.
fn put_each<K: Sink>(sink: &mut K, pieces: [&[u8]; 4]) -> [PutEnd; 4] {
    let [a, b, c, d] = pieces;
    [sink.put(a), sink.put(b), sink.put(c), sink.put(d)]
}

/// Compares how puts ended, and what the sink holds.
fn check_puts(rt: &impl Abort, ends: [PutEnd; 4], wanted: [PutEnd; 4], held: &[u8], text: &[u8]) {
    assert_eq!(rt; (ends, held), (wanted, text));
}

/// Checks that no call failed.
fn check_faults(rt: &impl Abort, faults: u64) {
    assert_eq!(rt; faults, 0);
}

#[test]
fn a_sink_holds_what_was_put(rt: HostRuntime) -> Result<(), Fail> {
    let alloc = rt.alloc();
    let mut sink = MemorySink::new(Vec::with_capacity(alloc, 4)?, [1].to_vec(alloc)?);
    let ends = put_each(&mut sink, [b"ab", b"c", b"de", b"f"]);
    let wanted = [PutEnd::Done, PutEnd::Failed, PutEnd::Done, PutEnd::Failed];
    check_puts(&rt, ends, wanted, sink.bytes(), b"abde");
    Ok(())
}

#[test]
fn a_sink_without_faults_holds_what_has_room(rt: HostRuntime) -> Result<(), Fail> {
    let mut sink = ReliableSink::new(Vec::with_capacity(rt.alloc(), 4)?);
    let ends = put_each(&mut sink, [b"ab", b"cde", b"fg", b""]);
    let wanted = [PutEnd::Done, PutEnd::Failed, PutEnd::Done, PutEnd::Done];
    check_puts(&rt, ends, wanted, sink.bytes(), b"abfg");
    Ok(())
}

#[test]
fn a_reader_is_a_source(rt: HostRuntime) -> Result<(), Fail> {
    let mut source = ReadSource::new(b"a\nb".as_slice());
    check_lines(&rt, rt.alloc(), &mut source, b"a|b|", Line::End)?;
    check_faults(&rt, source.faults);
    Ok(())
}

#[test]
fn a_writer_is_a_sink(rt: HostRuntime) {
    let mut sink = WriteSink::new(Vec::new(rt.alloc()));
    let ends = put_each(&mut sink, [b"ab", b"", b"c", b""]);
    check_puts(&rt, ends, [PutEnd::Done; 4], sink.writer.as_slice(), b"abc");
    check_faults(&rt, sink.faults);
}
