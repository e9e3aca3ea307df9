//! Rows of texts that tests are written with.

use std::alloc::{AllocError, Global};
use std::process::Abort;

/// Ends a test where something is wrong of a row.
pub(crate) fn check_row(rt: &impl Abort, row: &str, wrong: &str) {
    assert!(rt; wrong.is_empty(), "{row}: {wrong}");
}

/// The parts of a row: before the first of these marks and behind it.
pub(crate) fn parts_of<'a>(row: &'a str, mark: &str) -> (&'a str, &'a str) {
    row.split_once(mark).unwrap_or((row, ""))
}

/// The word at that place, from 0. Empty where there is none.
pub(crate) fn word(words: &str, at: usize) -> &str {
    words.split(' ').nth(at).unwrap_or("")
}

/// The number at that place. The greatest where there is none.
pub(crate) fn number(words: &str, at: usize) -> u32 {
    word(words, at).parse::<u32>().unwrap_or(u32::MAX)
}

/// The bytes that a part of a row writes.
pub(crate) fn bytes_of(alloc: Global, part: &str) -> Result<Vec<u8>, AllocError> {
    let mut bytes = Vec::new(alloc);
    for byte in part.bytes() {
        bytes.push(if byte == b'~' { b'\n' } else { byte })?;
    }
    Ok(bytes)
}

/// The bytes of these instructions.
pub(crate) fn image_of(alloc: Global, words: &[u32]) -> Result<Vec<u8>, AllocError> {
    let mut image = Vec::new(alloc);
    for word in words {
        image.extend_from_slice(word.to_le_bytes().as_slice())?;
    }
    Ok(image)
}
