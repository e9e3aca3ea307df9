ghost use Rattle.std.specs.Prelude.{◌≡◌, Some, IfOk, IfSome};
ghost use Rattle.problem_settings.specs.ProblemYaml.{nothing, name_said, validation_said, flags_said, sizes_said, with_key, with_entry};
ghost use Rattle.problem_settings.specs.Views.{said_value, scalar_text, entry_at, known_at, HasSizes, Says};

use crate::below::{name_below, sizes_below, stray, stray_below};
use crate::bytes::{is_blank, is_indented};
use crate::fields::field_of;
use crate::keys::Key;
use crate::lines::{Line, Lines};
use crate::scalars::{Scalar, read_scalar};
use crate::sizes::Sizes;
use crate::values::validation_of;
use crate::yaml::{BadLine, Validation, YamlWhy};

/// What the entries of `problem.yaml` say so far.
#[derive(Clone, Copy)]
pub(crate) struct Said<'a> {
    pub name: Option<Scalar<'a>>,
    pub validation: Option<Validation>,
    pub flags: Option<Scalar<'a>>,
    pub sizes: Option<Sizes>,
}

/// The text that an entry says, below which no lines stand.
fn flags_said<'a>(head: &Line, value: &'a [u8], lines: &Lines) -> Result<Scalar<'a>, BadLine>
    ensures { Says scalar_text (flags_said (known_at head.now lines.now) value.now) result }
{
    match read_scalar(value) {
        Err(why) => Err(head.bad(why)),
        Ok(text) => match stray_below(lines) {
            Some(bad) => Err(bad),
            None => Ok(text),
        },
    }
}

/// The name that an entry says.
fn name_said<'a>(head: &Line, value: &'a [u8], lines: &Lines<'a>) -> Result<Scalar<'a>, BadLine>
    ensures { Says scalar_text (name_said (known_at head.now lines.now) value.now) result }
{
    if is_blank(value) {
        return name_below(lines);
    }
    flags_said(head, value, lines)
}

/// The validation that an entry says.
fn validation_said(head: &Line, value: &[u8], lines: &Lines) -> Result<Validation, BadLine>
    ensures { result ≡ validation_said (known_at head.now lines.now) value.now }
{
    match validation_of(value) {
        Err(why) => Err(head.bad(why)),
        Ok(validation) => match stray_below(lines) {
            Some(bad) => Err(bad),
            None => Ok(validation),
        },
    }
}

/// The sizes that an entry says.
fn sizes_said(head: &Line, value: &[u8], lines: &Lines) -> Result<Sizes, BadLine>
    ensures value { result ≡ sizes_said (known_at head.now lines.now) value.now }
    ensures sound { IfOk result HasSizes }
{
    if is_blank(value) {
        return sizes_below(lines);
    }
    match Sizes::of_value(value) {
        Err(why) => Err(head.bad(why)),
        Ok(sizes) => match stray_below(lines) {
            Some(bad) => Err(bad),
            None => Ok(sizes),
        },
    }
}

impl<'a> Said<'a> {
    pub(crate) fn nothing() -> Said<'a>
        ensures value { said_value result ≡ nothing }
        ensures sound { IfSome result.sizes HasSizes }
    {
        Said {
            name: None,
            validation: None,
            flags: None,
            sizes: None,
        }
    }

    /// With what the entry of a known key says.
    fn with_key(
        &self,
        key: Key,
        head: &Line<'a>,
        value: &'a [u8],
        lines: &Lines<'a>,
    ) -> Result<Said<'a>, BadLine>
        requires { IfSome self.now.sizes HasSizes }
        ensures cases { Says said_value (with_key (Some key) (said_value self.now) (known_at head.now lines.now) value.now) result }
        ensures sound { IfOk result (λ said. IfSome said.sizes HasSizes) }
    {
        let mut said = *self;
        match key {
            Key::Name => {
                if self.name.is_some() {
                    return Err(head.bad(YamlWhy::Repeated));
                }
                said.name = Some(name_said(head, value, lines)?);
            }
            Key::Validation => {
                if self.validation.is_some() {
                    return Err(head.bad(YamlWhy::Repeated));
                }
                said.validation = Some(validation_said(head, value, lines)?);
            }
            Key::Flags => {
                if self.flags.is_some() {
                    return Err(head.bad(YamlWhy::Repeated));
                }
                said.flags = Some(flags_said(head, value, lines)?);
            }
            Key::Limits => {
                if self.sizes.is_some() {
                    return Err(head.bad(YamlWhy::Repeated));
                }
                said.sizes = Some(sizes_said(head, value, lines)?);
            }
        }
        Ok(said)
    }

    /// With what an entry says, whose lines begin with its head and go on with these.
    pub(crate) fn with_entry(&self, head: &Line<'a>, lines: &Lines<'a>) -> Result<Said<'a>, BadLine>
        requires { IfSome self.now.sizes HasSizes }
        ensures cases { Says said_value (with_entry (said_value self.now) (entry_at head.now lines.now)) result }
        ensures sound { IfOk result (λ said. IfSome said.sizes HasSizes) }
    {
        if is_indented(head.text) {
            return Err(head.bad(stray(head.text)));
        }
        let Some(field) = field_of(head.text) else {
            return Err(head.bad(YamlWhy::NoColon));
        };
        match Key::named(field.key) {
            None => Ok(*self),
            Some(key) => self.with_key(key, head, field.value, lines),
        }
    }
}
