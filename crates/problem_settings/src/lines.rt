ghost use Rattle.std.specs.Prelude.{◌≡◌, ◌≤◌, ◌+◌, ◌∷◌, IfSome, length};
ghost use Rattle.problem_settings.specs.Lines.{size_behind, parts_behind, lines_from, parts, is_read};

use crate::bytes::{cut, is_blank, without_cr};
use crate::yaml::{BadLine, YamlWhy};

/// A line, without its end.
#[derive(Clone, Copy)]
pub(crate) struct Line<'a> {
    /// Its number, from 1.
    pub number: u32,
    pub text: &'a [u8],
}

impl Line<'_> {
    /// That something is wrong with the line.
    pub(crate) fn bad(&self, why: YamlWhy) -> BadLine
        ensures { result ≡ record { line = self.now.number; why = why } }
    {
        BadLine {
            line: self.number,
            why,
        }
    }

    /// Whether the line is neither blank, nor a comment, nor the start of the document.
    fn is_read(&self) -> bool
        ensures { result ≡ is_read record { number = self.now.number; text = self.now.text.now } }
    {
        !(is_blank(self.text) || self.number == 1 && self.text == b"---".as_slice())
    }
}

/// The lines of a text that are left to be read.
#[derive(Clone, Copy)]
pub(crate) struct Lines<'a> {
    /// The first of them.
    pub first: Option<Line<'a>>,
    /// The number of the line behind that.
    number: u32,
    /// The text behind the first one.
    behind: Option<&'a [u8]>,
    ghost short: { number + size_behind behind ≤ 16777218 },
}

impl<'a> Lines<'a> {
    ghost use Rattle.problem_settings.specs.Views.{lines_at, line_value};

    /// The lines of a text that are read, the first of which has this number.
    fn seek(number: u32, text: Option<&'a [u8]>) -> Lines<'a>
        requires { number + size_behind text ≤ 16777218 }
        ensures { lines_at result ≡ lines_from number (parts_behind 10 text.entry) }
    {
        let mut number = number;
        let mut left = text;
        while let Some(text) = left {
            let (whole, behind) = cut(b'\n', text);
            let line = Line {
                number,
                text: without_cr(whole),
            };
            number += 1;
            left = behind;
            if line.is_read() {
                return Lines {
                    first: Some(line),
                    number,
                    behind,
                };
            }
        }
        Lines {
            first: None,
            number: 0,
            behind: None,
        }
    }

    /// The lines of a text that are read.
    pub(crate) fn new(text: &'a [u8]) -> Lines<'a>
        requires { length text.now ≤ 16777216 }
        ensures { lines_at result ≡ lines_from 1 (parts 10 text.now) }
    {
        Lines::seek(1, Some(text))
    }

    /// The lines behind the first one.
    pub(crate) fn next(&self) -> Lines<'a>
        ensures { IfSome self.now.first (λ line. lines_at self.now ≡ line_value line ∷ lines_at result) }
    {
        Lines::seek(self.number, self.behind)
    }
}
