//! Rows of texts that tests are written with.

use farm_kinds::{NoMemory, Text};
use std::alloc::{AllocError, Global};
use std::process::Abort;

/// The bytes that a part of a row writes.
pub(crate) fn bytes_of(alloc: Global, part: &str) -> Result<Vec<u8>, AllocError> {
    let mut bytes = Vec::new(alloc);
    for piece in part.split('«') {
        push_piece(alloc, &mut bytes, piece)?;
    }
    Ok(bytes)
}

/// Appends what stands before `»` as often as its number says, and what stands behind it.
fn push_piece(alloc: Global, bytes: &mut Vec<u8>, piece: &str) -> Result<(), AllocError> {
    let (repeated, behind) = piece.split_once('»').unwrap_or(("", piece));
    let (repeated, times) = repeated.split_once('*').unwrap_or((repeated, ""));
    let times = times.parse::<usize>().unwrap_or(0);
    push_copies(bytes, meant_of(alloc, repeated)?.as_slice(), times)?;
    push_copies(bytes, meant_of(alloc, behind)?.as_slice(), 1)
}

fn push_copies(bytes: &mut Vec<u8>, piece: &[u8], times: usize) -> Result<(), AllocError> {
    for _ in 0..times {
        bytes.extend_from_slice(piece)?;
    }
    Ok(())
}

fn meant_of(alloc: Global, text: &str) -> Result<Vec<u8>, AllocError> {
    let mut bytes = Vec::new(alloc);
    for byte in text.bytes() {
        bytes.push(meant(byte))?;
    }
    Ok(bytes)
}

fn meant(byte: u8) -> u8 {
    match byte {
        b'~' => b'\n',
        b'^' => b'\r',
        b'$' => 0xff,
        _ => byte,
    }
}

/// The two parts of a row, between which ` => ` stands. A row without one stands for both.
pub(crate) fn parts_of(row: &str) -> (&str, &str) {
    row.split_once(" => ").unwrap_or((row, row))
}

/// Compares what is told of a row with what is wanted.
pub(crate) fn check_told(rt: &impl Abort, told: &[u8], want: &[u8], row: &str) {
    assert_eq!(rt; told, want, "{row}");
}

/// Compares a text that is written with what is wanted, where there is memory for it.
pub(crate) fn check_written(rt: &impl Abort, written: Result<Text, NoMemory>, want: &str) {
    match written {
        Ok(text) => check_told(rt, text.as_slice(), want.as_bytes(), want),
        Err(NoMemory) => panic!(rt; "no memory for {want}"),
    }
}
