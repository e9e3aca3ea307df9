ghost use Rattle.std.specs.Prelude.{◌≡◌, IfOk, true};
ghost use Rattle.farm_kinds.specs.Limits.{is_raw_image};
ghost use Rattle.case_run.specs.Cases.{CanRun, CanCheck, test_case, checking_of};
ghost use Rattle.case_run.specs.Values.{case_value, ending_judges, ending_gives, output_judged, judged, validator_run};

use crate::case::{Case, Check};
use crate::image::open;
use default_validator::accepts;
use farm_kinds::{Kind, Limits, NoMemory};
use rv_machine::{Ending, Extra, Files, Machine};
use std::alloc::Global;

/// What the run of a validator may use: 100,000,000 instructions, 64 MiB of memory and 8 MiB of output.
const VALIDATOR_LIMITS: Limits = Limits {
    instructions: 100_000_000,
    pages: 16_384,
    output: 8_388_608,
};

/// Runs a test and gives its result. `NoMemory` says nothing of the test.
#[tactic(auto, unfolding(crate::specs::Values::case_value))]
pub fn run_case(alloc: Global, case: &Case<'_>) -> Result<Kind, NoMemory>
    requires { CanRun (test_case case.now) }
    ensures { IfOk result (λ kind. kind ≡ case_value (test_case case.now)) }
{
    let files = Files {
        stdin: case.input,
        extra: None,
    };
    let mut machine = open(alloc, case.image, case.limits, files)?;
    let ending = machine.run()?;
    result_of(alloc, case, ending, machine.output())
}

/// The result of a test whose run ended as `ending`, with the output `output`.
fn result_of(
    alloc: Global,
    case: &Case<'_>,
    ending: Ending,
    output: &[u8],
) -> Result<Kind, NoMemory>
    requires { CanCheck (checking_of case.now.check) case.now.answer.now }
    ensures { IfOk result (λ kind. kind ≡ ending_gives (test_case case.now) output.now ending) }
{
    match ending {
        Ending::Exit(0) => check_output(alloc, case, output),
        Ending::Exit(_) | Ending::Trap(_) => Ok(Kind::RunError),
        Ending::Time => Ok(Kind::TimeLimit),
        Ending::Memory => Ok(Kind::MemoryLimit),
        Ending::Output => Ok(Kind::OutputLimit),
    }
}

/// The result of a test whose program exited with 0 and wrote this output.
fn check_output(alloc: Global, case: &Case<'_>, output: &[u8]) -> Result<Kind, NoMemory>
    requires { CanCheck (checking_of case.now.check) case.now.answer.now }
    ensures { IfOk result (λ kind. kind ≡ output_judged (checking_of case.now.check) case.now.input.now case.now.answer.now output.now) }
{
    match case.check {
        Check::Default(flags) => Ok(judged(output, accepts(&flags, case.answer, output))),
        Check::Custom { image, flags } => {
            let ending = run_validator(alloc, image, flags, case, output)?;
            Ok(ending_judges(output, ending))
        }
    }
}

/// How a validator ends that looks at this output.
fn run_validator(
    alloc: Global,
    image: &[u8],
    flags: &[u8],
    case: &Case<'_>,
    output: &[u8],
) -> Result<Ending, NoMemory>
    requires { is_raw_image image.now ≡ true }
    ensures { IfOk result (λ ending. ending ≡ (validator_run image.now flags.now case.now.input.now case.now.answer.now output.now).ending) }
{
    let files = Files {
        stdin: output,
        extra: Some(Extra {
            input: case.input,
            answer: case.answer,
            flags,
        }),
    };
    let mut machine = Machine::load(alloc, image, VALIDATOR_LIMITS, files)?;
    machine.run()
}

/// The result of a test whose validator ended as `ending`, with the output `output`.
fn ending_judges(output: &[u8], ending: Ending) -> Kind
    ensures { result ≡ ending_judges output.now ending }
{
    match ending {
        Ending::Exit(42) => judged(output, true),
        Ending::Exit(43) => judged(output, false),
        _ => Kind::JudgingError,
    }
}

/// The result of a test whose output was accepted or rejected.
fn judged(output: &[u8], accepted: bool) -> Kind
    ensures { result ≡ judged output.now accepted }
{
    if accepted {
        Kind::Correct
    } else if output.is_empty() {
        Kind::NoOutput
    } else {
        Kind::WrongAnswer
    }
}
