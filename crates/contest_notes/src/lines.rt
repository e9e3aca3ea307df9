//! The lines of `submissions.txt`.
/// A line, and the number of the submission that it is to be.
#[derive(Clone, Copy)]
pub(crate) struct Line<'a> {
    pub number: u32,
    pub text: &'a [u8],
}

/// The line of this number, from 1. None where the text has no such line.
pub(crate) fn line_of(text: &[u8], line: u32) -> Option<Line<'_>> {
    let mut at: u32 = 1;
    let mut number: u32 = 1;
    for part in text.split(|b| *b == b'\n') {
        if at == line {
            return Some(Line { number, text: part });
        }
        if !is_skipped(part) {
            number = number.saturating_add(1);
        }
        at = at.saturating_add(1);
    }
    None
}

/// Whether a line is blank or a comment.
fn is_skipped(line: &[u8]) -> bool {
    line.starts_with(b"#") || line.iter().all(|b| *b == b' ')
}

/// The word at this place of a line, from 0, or nothing where it has fewer words.
pub(crate) fn word_of(line: &[u8], place: usize) -> &[u8] {
    for (at, word) in line.split(|b| *b == b' ').enumerate() {
        if at == place {
            return word;
        }
    }
    &[]
}
