ghost use Rattle.std.specs.Prelude.{◌≡◌, ◌<◌, ◌-◌, min, ◌*◌, ◌^◌, unsigned_abs};
ghost use Rattle.decimal_compare.specs.Within.{is_within, is_within_relative, is_within_absolute};

/// How far a team's number may be from the judge's, in units of 10^-12.
///
/// A part that is not set takes no number. `read_amount` gives amounts in their bounds; any other
/// number is taken as it is.
#[derive(Clone, Copy, Debug, PartialEq, Eq)]
pub struct Tolerance {
    /// The share of the judge's size that the difference may be.
    pub relative: Option<i128>,
    /// The difference that there may be.
    pub absolute: Option<i128>,
}

/// One whole, in units.
const ONE: u128 = 1_000_000_000_000;

/// The largest amount whose product with a judge's size is sure to fit.
const SMALL: u128 = 100_000_000_000_000;

/// The product, or the largest number that fits.
fn product(amount: u128, size: u128) -> u128
    requires { size < 10 ^ 24 }
    ensures { result ≡ min (amount * size) (2 ^ 128 - 1) }
{
    if amount <= SMALL {
        amount * size
    } else {
        amount.saturating_mul(size)
    }
}

fn is_within_relative(amount: Option<i128>, team: i128, judge: i128) -> bool
    requires team { unsigned_abs team < 10 ^ 25 }
    requires judge { unsigned_abs judge < 10 ^ 24 }
    ensures { result ≡ is_within_relative amount team judge }
{
    let Some(amount) = amount else {
        return false;
    };
    let difference = team.abs_diff(judge);
    let size = judge.unsigned_abs();
    if amount < 0 {
        return difference == 0 && size == 0;
    }
    difference * ONE <= product(amount as u128, size)
}

fn is_within_absolute(amount: Option<i128>, team: i128, judge: i128) -> bool
    requires team { unsigned_abs team < 10 ^ 25 }
    requires judge { unsigned_abs judge < 10 ^ 24 }
    ensures { result ≡ is_within_absolute amount team judge }
{
    let Some(amount) = amount else {
        return false;
    };
    team.abs_diff(judge) as i128 <= amount
}

/// Whether the team's number is within the tolerance of the judge's. Both are in units of
/// 10^-12. The answer is exact at every amount.
pub fn within(tolerance: &Tolerance, team: i128, judge: i128) -> bool
    requires team { unsigned_abs team < 10 ^ 25 }
    requires judge { unsigned_abs judge < 10 ^ 24 }
    ensures { result ≡ is_within tolerance.now team judge }
{
    is_within_relative(tolerance.relative, team, judge)
        || is_within_absolute(tolerance.absolute, team, judge)
}
