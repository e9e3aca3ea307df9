ghost use Rattle.std.specs.Prelude.{◌≡◌, Some};
ghost use Rattle.people.specs.Plain.{plain, shown};

use std::fmt;

/// A text that prints with `?` in place of each control character, so that no name and no file can forge a line or a colour
/// where it is shown. It takes no memory.
#[derive(Clone, Copy)]
pub struct Plain<'a>(pub &'a str);

impl<'a> Plain<'a> {
    fn text(&self) -> &'a str
        ensures { result.now ≡ self.now.0.now }
    {
        self.0
    }
}

impl fmt::Display for Plain<'_> {
    ghost output = { λ text. Some (plain text.0.now) };

    fn fmt<W: fmt::Write>(&self, f: &mut fmt::Formatter<W>) -> fmt::Result {
        for c in self.text().chars() {
            f.write_char(shown(c))?;
        }
        Ok(())
    }
}

/// A character as it is shown.
fn shown(c: char) -> char
    ensures { result ≡ shown c }
{
    if c.is_control() { '?' } else { c }
}
