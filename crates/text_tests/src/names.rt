//! Names that tests are written with.

ghost use Rattle.std.specs.Prelude.{◌≡◌, Some};
ghost use Rattle.farm_kinds.specs.Names.{name_read};

use farm_kinds::Name;

/// The name of these bytes, and the jury's where they are no name.
pub fn name(word: &[u8]) -> Name
    ensures { name_read word.now ≡ Some word.now → result ≡ word.now }
{
    Name::read(word).unwrap_or(Name::jury())
}
