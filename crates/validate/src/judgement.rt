ghost use Rattle.std.specs.Prelude.{◌≡◌};
ghost use Rattle.validate.specs.Judgements.{judgement_of, status_of};

use default_validator::{FlagFault, Flags, accepts, wide_token};

/// What the validator says of an output.
#[derive(Clone, Copy)]
pub enum Judgement {
    /// The output is accepted.
    Accepted,
    /// The output is not accepted.
    Rejected,
    /// The flags have a faulty word.
    BadFlags(FlagFault),
    /// This token of the answer, from 0, is a floating point number of 10^12 or more, which is not compared.
    WideAnswer(usize),
}

impl Judgement {
    /// The exit status: 42 and 43 as the package format has them, and 1 for a judge's error.
    pub fn status(self) -> u8
        ensures { result ≡ status_of self }
    {
        match self {
            Judgement::Accepted => 42,
            Judgement::Rejected => 43,
            Judgement::BadFlags(_) | Judgement::WideAnswer(_) => 1,
        }
    }
}

/// Judges an output by the words of the flags and the answer.
pub fn judge(flags: &[u8], answer: &[u8], output: &[u8]) -> Judgement
    ensures { result ≡ judgement_of flags.now answer.now output.now }
{
    let flags = match Flags::read(flags) {
        Ok(flags) => flags,
        Err(fault) => return Judgement::BadFlags(fault),
    };
    if let Some(at) = wide_token(&flags, answer) {
        return Judgement::WideAnswer(at);
    }
    if accepts(&flags, answer, output) {
        Judgement::Accepted
    } else {
        Judgement::Rejected
    }
}
