ghost use Rattle.std.specs.Prelude.{◌≡◌, ◌<◌};
ghost use Rattle.work_maker.specs.Draws.{after};
ghost use Rattle.work_maker.specs.Made.{submission_value, submission_from};

use crate::draws::Draws;
use crate::programs::Program;

/// What is drawn of a submission.
#[derive(Clone, Copy)]
pub struct Submission {
    /// The number of its problem, from 1.
    pub problem: u32,
    pub program: Program,
    /// The number of its team.
    pub team: u32,
}

/// Draws a submission to one of `problems` problems.
pub fn draw_submission(draws: &mut Draws, problems: u16) -> Submission
    requires { 0 < problems }
    ensures submission { submission_value result ≡ submission_from problems draws.old.state }
    ensures draws { draws.new.state ≡ after 3 draws.old.state }
{
    let problem = 1 + draws.draw() % u32::from(problems);
    let program = Program::numbered(draws.draw() % 7);
    let team = draws.draw() % 10;
    Submission {
        problem,
        program,
        team,
    }
}
