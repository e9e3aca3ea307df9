ghost use Rattle.std.specs.Prelude.{◌≡◌, IfSome};
ghost use Rattle.farm_kinds.specs.declared.events.Reply.TheVariants as reply;
ghost use Rattle.farm_model.specs.Refusals.{verify_refusal};
ghost use Rattle.farm_model.specs.Changes.{verified};
ghost use Rattle.farm_core.specs.FarmShape.{HadMemory};

use super::ContestState;
use crate::places::{is_verified, mark_verified};
use farm_kinds::{Answer, Reply};

impl ContestState {
    /// Why the judging is not verified.
    pub fn verify_refusal(&self, judging: u32) -> Option<Reply>
        ensures refusal { result ≡ verify_refusal self.now judging }
        ensures answers { IfSome result HadMemory }
    {
        let Some(answer) = self.judge.answer(judging) else {
            return Some(Reply::NoJudging { judging });
        };
        if self.judge.dropped(judging) {
            return Some(Reply::Dropped);
        }
        if answer == Answer::Pending {
            return Some(Reply::NotFinal { number: judging });
        }
        if is_verified(&self.details, judging) {
            return Some(Reply::Already { judging });
        }
        None
    }

    /// Marks a judging as verified.
    pub fn verify(&mut self, judging: u32) -> Reply
        ensures reply { result ≡ Reply.Verified judging }
        ensures done { self.new ≡ verified self.old judging }
    {
        mark_verified(&mut self.details, judging);
        Reply::Verified { judging }
    }
}
