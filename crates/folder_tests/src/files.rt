//! The files of tests, as lines of text.
use farm_kinds::{NoMemory, Text};
use farm_tree::{TreeFile, TreeFiles};
use std::alloc::{AllocError, Global};

/// The bytes of a file's content.
pub fn bytes_of(alloc: Global, content: &str) -> Result<Vec<u8>, AllocError> {
    match content.strip_prefix("#") {
        Some(digits) => bytes_of_digits(alloc, digits.as_bytes()),
        None => Ok(content.replace(alloc, '~', "\n")?.into_bytes()),
    }
}

fn bytes_of_digits(alloc: Global, digits: &[u8]) -> Result<Vec<u8>, AllocError> {
    let mut bytes = Vec::new(alloc);
    for pair in digits.chunks(2) {
        let byte = pair.iter().fold(
            0u8,
            |value, digit| value.wrapping_mul(16).wrapping_add(value_of(*digit)),
        );
        bytes.push(byte)?;
    }
    Ok(bytes)
}

fn value_of(digit: u8) -> u8 {
    if digit < b'a' {
        digit.wrapping_sub(b'0')
    } else {
        digit.wrapping_sub(b'a' - 10)
    }
}

/// The path of a change.
fn path_of(change: &str) -> &str {
    match change.split_once('=') {
        Some((path, _)) => path,
        None => change,
    }
}

/// A contest's files with this change.
pub fn files_of(alloc: Global, contest: &str, change: &str) -> Result<TreeFiles, NoMemory> {
    let mut files = TreeFiles::new(alloc);
    for line in contest.lines() {
        if let Some((path, content)) = line.split_once('|') {
            if path != path_of(change) {
                put(alloc, &mut files, path, content)?;
            }
        }
    }
    if let Some((path, content)) = change.split_once('=') {
        put(alloc, &mut files, path, content)?;
    }
    Ok(files)
}

fn put(alloc: Global, files: &mut TreeFiles, path: &str, content: &str) -> Result<(), NoMemory> {
    if path.len() <= 4096 {
        let bytes = Text::from_vec(bytes_of(alloc, content)?);
        files.push(TreeFile::new(String::from_str(alloc, path)?, bytes))?;
    }
    Ok(())
}
