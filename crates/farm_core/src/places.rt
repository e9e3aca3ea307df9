ghost use Rattle.std.specs.Prelude.{◌≡◌, ◌≤◌};
ghost use Rattle.farm_model.specs.Limits.{max_tests};
ghost use Rattle.farm_model.specs.Numbered.{with_change};
ghost use Rattle.farm_model.specs.State.{is_verified, owner_of};
ghost use Rattle.farm_model.specs.Changes.{cells_for, mark_verified};
ghost use Rattle.farm_core.specs.FarmShape.{AreShort};

use farm_model::{JudgingDetails, Problem, item_of};

/// Whether the judging of this number is verified.
pub fn is_verified(details: &[JudgingDetails], judging: u32) -> bool
    ensures { result ≡ is_verified details.now judging }
{
    match item_of(details, judging) {
        Some(judged) => judged.verified,
        None => false,
    }
}

/// The submission that the judging of this number is of. 0 where no judging has the number.
pub fn owner_of(details: &[JudgingDetails], judging: u32) -> u32
    ensures { result ≡ owner_of details.now judging }
{
    match item_of(details, judging) {
        Some(judged) => judged.submission,
        None => 0,
    }
}

/// Marks a judging as verified.
pub fn mark_verified(details: &mut [JudgingDetails], judging: u32)
    ensures { details.new ≡ with_change details.old judging mark_verified }
{
    if judging == 0 || judging as usize > details.len() {
        return;
    }
    details[judging as usize - 1].verified = true;
}

/// How many cells a judging of the problem has.
pub fn cells_for(problems: &[Problem], problem: u32, broken: bool) -> u16
    ensures cells { result ≡ cells_for problems.now problem broken }
    ensures short { AreShort problems.now → result ≤ max_tests }
{
    if broken {
        return 0;
    }
    match item_of(problems, problem) {
        Some(problem) => problem.tests,
        None => 0,
    }
}
