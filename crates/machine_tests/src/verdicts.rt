//! The verdict of the default validator on texts, for tests of what it says.

ghost use Rattle.std.specs.Prelude.{◌≡◌, Ok, Err, Some, None};
ghost use Rattle.default_validator.specs.declared.flags.FlagFault.{FlagFault as FaultValue};
ghost use Rattle.default_validator.specs.declared.flags.Flags.{Flags as FlagsValue};
ghost use Rattle.default_validator.specs.Accepts.{accepts_of, wide_token_of};
ghost use Rattle.default_validator.specs.Flags.{flags_of};

use default_validator::{Flags, accepts, wide_token};

/// What the validator says, where the flags are good and the answer has no wide token.
pub fn verdict(flags: &[u8], answer: &[u8], output: &[u8]) -> Option<bool>
    ensures says { (read : FlagsValue) → flags_of flags.now ≡ Ok read → wide_token_of read answer.now ≡ None →
        result ≡ Some (accepts_of read answer.now output.now) }
    ensures bad { (fault : FaultValue) → flags_of flags.now ≡ Err fault → result ≡ None }
{
    let Ok(flags) = Flags::read(flags) else {
        return None;
    };
    if wide_token(&flags, answer).is_some() {
        return None;
    }
    Some(accepts(&flags, answer, output))
}
