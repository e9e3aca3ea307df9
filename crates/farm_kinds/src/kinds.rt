ghost use Rattle.std.specs.Prelude.{◌≡◌};
ghost use Rattle.farm_kinds.specs.Kinds.{name_of, kind_named};

/// What one test of a submission gave (DOMjudge manual, "Judging": the outcomes of a test case).
///
/// The variants stand in the order in which tables, matrices and counts list them.
#[derive(Clone, Copy, Debug, PartialEq, Eq)]
pub enum Kind {
    /// The output was accepted.
    Correct,
    /// The output was refused.
    WrongAnswer,
    /// The program trapped, or ended with a status other than 0.
    RunError,
    /// The program reached its instruction limit.
    TimeLimit,
    /// The output was refused, and is empty.
    NoOutput,
    /// The program wrote more than its output limit.
    OutputLimit,
    /// The program touched more pages than its limit.
    MemoryLimit,
    /// The output validator neither accepted nor refused.
    JudgingError,
}

impl Kind {
    /// The eight kinds in their order.
    pub const ALL: [Kind; 8] = [
        Kind::Correct,
        Kind::WrongAnswer,
        Kind::RunError,
        Kind::TimeLimit,
        Kind::NoOutput,
        Kind::OutputLimit,
        Kind::MemoryLimit,
        Kind::JudgingError,
    ];

    /// The kind's name, as lines and replies write it.
    pub fn name(self) -> &'static str
        ensures { result.now ≡ name_of self }
    {
        match self {
            Kind::Correct => "correct",
            Kind::WrongAnswer => "wrong-answer",
            Kind::RunError => "run-error",
            Kind::TimeLimit => "timelimit",
            Kind::NoOutput => "no-output",
            Kind::OutputLimit => "output-limit",
            Kind::MemoryLimit => "memory-limit",
            Kind::JudgingError => "judging-error",
        }
    }

    /// The kind of this name. None where no kind has it.
    pub fn read(word: &[u8]) -> Option<Kind>
        ensures { result ≡ kind_named word.now }
    {
        Kind::ALL
            .iter()
            .copied()
            .find(|kind| word == kind.name().as_bytes())
    }
}
