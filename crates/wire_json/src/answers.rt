ghost use Rattle.std.specs.Prelude.{◌≡◌};
ghost use Rattle.farm_model.specs.Texts.{verdict_text, answer_text, how_text};

use farm_kinds::{Answer, How, Name, Verdict};

/// The name of a verdict.
pub fn verdict_text(verdict: Verdict) -> &'static str
    ensures { result.now ≡ verdict_text verdict }
{
    match verdict {
        Verdict::Tests(kind) => kind.name(),
        Verdict::CompilerError => "compiler-error",
    }
}

/// The name of the verdict, or that it is pending.
pub fn answer_text(answer: Answer) -> &'static str
    ensures { result.now ≡ answer_text answer }
{
    match answer {
        Answer::Final(verdict) => verdict_text(verdict),
        Answer::Pending => "pending",
    }
}

/// The word for how a rejudging was closed.
pub fn how_text(how: How) -> &'static str
    ensures { result.now ≡ how_text how }
{
    match how {
        How::Applied => "applied",
        How::Cancelled => "cancelled",
    }
}

/// A name as text. Its bytes are ASCII.
#[tactic(auto, using(crate::proofs::NameTexts::name_is_text))]
pub fn name_text(name: &Name) -> &str
    ensures { result.now ≡ name.now }
{
    match str::from_utf8(name.as_bytes()) {
        Ok(text) => text,
        Err(_) => unreachable!(),
    }
}
