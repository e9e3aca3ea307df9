ghost use Rattle.std.specs.Prelude.{◌≡◌, ◌≤◌, IfOk, IfSome, is_none};
ghost use Rattle.std.specs.Option.{option_map};
ghost use Rattle.problem_settings.specs.Fields.{content_of, field_of, trimmed, after_spaces};
ghost use Rattle.problem_settings.specs.Lines.{parts};
ghost use Rattle.problem_settings.specs.Sizes.{size_named, no_sizes, said_of, with_number, mebibytes_of, with_value, is_unknown_size, with_line, before_brace, is_plain, with_item, items_from, line_sizes};
ghost use Rattle.problem_settings.specs.Views.{scalar_text, HasSizes};

use crate::bytes::{after_spaces, content_of, cut, has_tab, indent_of, place_of, trimmed};
use crate::fields::field_of;
use crate::scalars::{Scalar, begins_form, plain_text, read_scalar};
use crate::yaml::YamlWhy;

/// The keys under `limits` that are read.
#[derive(Clone, Copy, Debug, PartialEq, Eq)]
pub(crate) enum Size {
    Memory,
    Output,
}

impl Size {
    fn named(key: &[u8]) -> Option<Size>
        ensures { result ≡ size_named key.now }
    {
        if key == b"memory".as_slice() {
            Some(Size::Memory)
        } else if key == b"output".as_slice() {
            Some(Size::Output)
        } else {
            None
        }
    }
}

/// The sizes that are said so far, in MiB: from 1 to 1,000,000.
#[derive(Clone, Copy, Debug, PartialEq, Eq)]
pub struct Sizes {
    /// The memory of a run, where it is said.
    pub memory: Option<u32>,
    /// The output of a run, where it is said.
    pub output: Option<u32>,
}

/// The number of MiB that a text is.
#[tactic(auto, using(crate::proofs::NumberLemmas::held_within))]
fn mebibytes(text: &Scalar) -> Option<u32>
    ensures value { result ≡ mebibytes_of (scalar_text text.now) }
    ensures some { IfSome result (λ n. 1 ≤ n) }
{
    let number = text.number()?;
    if number < 1 || number > 1_000_000 {
        return None;
    }
    Some(number)
}

/// Whether a value begins neither a quoted scalar nor another form.
fn is_plain(value: &[u8]) -> bool
    ensures { result ≡ is_plain value.now }
{
    match value {
        [] => true,
        [first, ..] => !(*first == b'\'' || *first == b'"' || begins_form(*first)),
    }
}

/// What stands between the opening brace and the closing one, which ends the text.
pub(crate) fn before_brace(text: &[u8]) -> Option<&[u8]>
    ensures { option_map (λ inner. inner.now) result ≡ before_brace text.now }
{
    let at = place_of(b'}', text)?;
    if at + 1 != text.len() {
        return None;
    }
    Some(&text[..at])
}

/// Whether the key names no size.
pub(crate) fn names_no_size(key: &[u8]) -> bool
    ensures { result ≡ is_none (size_named key.now) }
{
    Size::named(key).is_none()
}

/// Whether the key of a line names no size.
pub(crate) fn is_unknown_size(line: &[u8]) -> bool
    ensures { result ≡ is_unknown_size (field_of (content_of line.now)) }
{
    match field_of(content_of(line)) {
        None => false,
        Some(field) => Size::named(field.key).is_none(),
    }
}

impl Sizes {
    pub(crate) const NONE: Sizes = Sizes {
        memory: None,
        output: None,
    };

    fn said(self, size: Size) -> Option<u32>
        ensures { result ≡ said_of size self }
    {
        match size {
            Size::Memory => self.memory,
            Size::Output => self.output,
        }
    }

    fn with_number(self, size: Size, number: u32) -> Sizes
        requires some { 1 ≤ number }
        requires others { HasSizes self }
        ensures value { result ≡ with_number size number self }
        ensures sound { HasSizes result }
    {
        match size {
            Size::Memory => Sizes {
                memory: Some(number),
                output: self.output,
            },
            Size::Output => Sizes {
                memory: self.memory,
                output: Some(number),
            },
        }
    }

    /// The sizes with this value too. A key that names no size is skipped.
    fn with_value(self, size: Option<Size>, value: &[u8]) -> Result<Sizes, YamlWhy>
        requires { HasSizes self }
        ensures value { result ≡ with_value size self value.now }
        ensures sound { IfOk result HasSizes }
    {
        let Some(size) = size else {
            return Ok(self);
        };
        if self.said(size).is_some() {
            return Err(YamlWhy::Repeated);
        }
        let text = read_scalar(value)?;
        match mebibytes(&text) {
            None => Err(YamlWhy::BadValue),
            Some(number) => Ok(self.with_number(size, number)),
        }
    }

    /// The sizes with those of a line of a block, whose lines are indented so deep.
    pub(crate) fn with_line(self, depth: usize, line: &[u8]) -> Result<Sizes, YamlWhy>
        requires { HasSizes self }
        ensures value { result ≡ with_line depth self line.now }
        ensures sound { IfOk result HasSizes }
    {
        if has_tab(line) {
            return Err(YamlWhy::Tab);
        }
        if indent_of(line) != depth {
            return Err(YamlWhy::Indent);
        }
        match field_of(content_of(line)) {
            None => Err(YamlWhy::NoColon),
            Some(field) => self.with_value(Size::named(field.key), field.value),
        }
    }

    /// The sizes with those of an item in braces.
    fn with_item(self, item: &[u8]) -> Result<Sizes, YamlWhy>
        requires { HasSizes self }
        ensures value { result ≡ with_item self (field_of (trimmed (after_spaces item.now))) }
        ensures sound { IfOk result HasSizes }
    {
        match field_of(trimmed(after_spaces(item))) {
            None => Err(YamlWhy::Form),
            Some(field) => {
                if !is_plain(field.value) {
                    return Err(YamlWhy::Form);
                }
                self.with_value(Size::named(field.key), field.value)
            }
        }
    }

    /// The sizes of the items between braces.
    fn of_items(items: &[u8]) -> Result<Sizes, YamlWhy>
        ensures value { result ≡ items_from no_sizes (parts 44 items.now) }
        ensures sound { IfOk result HasSizes }
    {
        let mut sizes = Sizes::NONE;
        let mut left = Some(items);
        while let Some(text) = left {
            let (item, behind) = cut(b',', text);
            sizes = sizes.with_item(item)?;
            left = behind;
        }
        Ok(sizes)
    }

    /// The sizes of a value that stands behind `limits:`.
    pub(crate) fn of_value(value: &[u8]) -> Result<Sizes, YamlWhy>
        ensures value { result ≡ line_sizes value.now }
        ensures sound { IfOk result HasSizes }
    {
        let [first, rest @ ..] = value else {
            return Err(YamlWhy::BadValue);
        };
        if *first != b'{' {
            read_scalar(value)?;
            return Err(YamlWhy::BadValue);
        }
        let Some(inner) = before_brace(plain_text(false, rest)) else {
            return Err(YamlWhy::Form);
        };
        if after_spaces(inner).is_empty() {
            return Ok(Sizes::NONE);
        }
        Sizes::of_items(inner)
    }
}
