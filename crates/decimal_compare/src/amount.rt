ghost use Rattle.std.specs.Prelude.{◌≡◌, Some, None, IfOk, OnErr};
ghost use Rattle.decimal_compare.specs.Amount.{amount_of, is_in_bounds};

use crate::numeral::numeral_of;
use crate::size::{is_exact, size_of};

/// Which tolerance an amount is for.
#[derive(Clone, Copy, Debug, PartialEq, Eq)]
pub enum Part {
    /// A share of the judge's value, at most 1.
    Relative,
    /// A distance, below 10^12.
    Absolute,
    /// Both at once, within both bounds.
    Both,
}

/// The word is no amount for its part of a tolerance.
#[derive(Clone, Copy, Debug, PartialEq, Eq)]
pub struct BadTolerance;

/// The largest relative amount, which is 1, in units.
const RELATIVE_MOST: u128 = 1_000_000_000_000;

/// An absolute amount is below this, which is 10^12, in units.
const ABSOLUTE_LIMIT: u128 = 1_000_000_000_000_000_000_000_000;

fn is_in_bounds(part: Part, size: u128) -> bool
    ensures { result ≡ is_in_bounds part size }
{
    let relative = size <= RELATIVE_MOST;
    let absolute = size < ABSOLUTE_LIMIT;
    match part {
        Part::Relative => relative,
        Part::Absolute => absolute,
        Part::Both => relative && absolute,
    }
}

/// Reads the amount of a tolerance, in units of 10^-12: a decimal without `-` that is a whole
/// number of units and within the bounds of its part.
pub fn read_amount(part: Part, word: &[u8]) -> Result<i128, BadTolerance>
    ensures amount { IfOk result (λ e. amount_of part word.now ≡ Some e) }
    ensures refused { OnErr result (amount_of part word.now ≡ None) }
{
    let Some(parts) = numeral_of(word) else {
        return Err(BadTolerance);
    };
    let size = size_of(&parts);
    if parts.negative || !is_exact(&parts) || !is_in_bounds(part, size) {
        return Err(BadTolerance);
    }
    Ok(size as i128)
}
