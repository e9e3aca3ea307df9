ghost use Rattle.std.specs.Prelude.{◌≡◌, option_map, IfSome};
ghost use Rattle.farm_model.specs.Judge.{ask_refusal};
ghost use Rattle.farm_model.specs.State.{answer_at};
ghost use Rattle.farm_model.specs.Refusals.{ask_reply};
ghost use Rattle.farm_model.specs.Changes.{asked};
ghost use Rattle.farm_core.specs.FarmShape.{HadMemory};

use super::ContestState;
use farm_kinds::Reply;

impl ContestState {
    /// Why the judging is not asked for.
    pub fn ask_refusal(&self, judging: u32) -> Option<Reply>
        ensures refusal { result ≡ option_map (ask_reply self.now judging) (ask_refusal self.now.judge.judgings judging) }
        ensures answers { IfSome result HadMemory }
    {
        if self.judge.answer(judging).is_none() {
            return Some(Reply::NoJudging { judging });
        }
        if self.judge.dropped(judging) {
            return Some(Reply::Dropped);
        }
        if self.judge.asked(judging) {
            return Some(Reply::Already { judging });
        }
        None
    }

    /// Asks for a judging: hosts are given its tasks from now on. The reply is what is reported of it.
    pub fn ask(&mut self, judging: u32) -> Reply
        ensures reply { result ≡ Reply.Shown (answer_at self.old judging) }
        ensures done { self.new ≡ asked self.old judging }
    {
        let answer = self.answer_at(judging);
        self.judge.ask(judging);
        Reply::Shown(answer)
    }
}
