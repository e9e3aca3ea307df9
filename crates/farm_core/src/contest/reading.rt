ghost use Rattle.std.specs.Prelude.{◌≡◌, IfOk};
ghost use Rattle.farm_kinds.specs.declared.events.Event.TheVariants as events;
ghost use Rattle.farm_model.specs.State.{answer_at, public_answer, public_answers};
ghost use Rattle.farm_model.specs.Farm.{Stepped};

use super::ContestState;
use crate::places::{is_verified, owner_of};
use farm_kinds::{Answer, Answers, NoMemory, Reply};

impl ContestState {
    /// What the jury sees of a judging.
    pub fn show(&self, judging: u32) -> Reply
        ensures { Stepped self.now (events.Show judging) self.now result }
    {
        match self.judge.answer(judging) {
            Some(answer) => Reply::Shown(answer),
            None => Reply::NoJudging { judging },
        }
    }

    /// The submission that a judging is of.
    pub fn owner(&self, judging: u32) -> Reply
        ensures { Stepped self.now (events.Owner judging) self.now result }
    {
        if self.judge.answer(judging).is_none() {
            return Reply::NoJudging { judging };
        }
        Reply::Owned {
            submission: owner_of(&self.details, judging),
        }
    }

    /// What the public sees of each submission. `NoMemory` where its rows find no room.
    pub fn board(&self) -> Reply
        ensures { Stepped self.now events.Board self.now result }
    {
        match self.public_answers() {
            Ok(rows) => Reply::Board { rows },
            Err(NoMemory) => Reply::NoMemory,
        }
    }

    /// What the public sees of each submission.
    fn public_answers(&self) -> Result<Answers, NoMemory>
        ensures { IfOk result (λ rows. rows ≡ public_answers self.now) }
    {
        let mut rows = Vec::new(self.alloc);
        rows.reserve(self.submissions.len())?;
        for submission in &self.submissions {
            rows.push_reserved(self.public_answer(submission.current));
        }
        Ok(Answers::from_vec(rows))
    }

    /// What the public sees of a current judging.
    pub fn public_answer(&self, judging: u32) -> Answer
        ensures { result ≡ public_answer self.now judging }
    {
        if self.verification && !is_verified(&self.details, judging) {
            return Answer::Pending;
        }
        self.answer_at(judging)
    }

    /// What the jury sees of a judging. Pending where no judging has the number.
    pub fn answer_at(&self, judging: u32) -> Answer
        ensures { result ≡ answer_at self.now judging }
    {
        self.judge.answer(judging).unwrap_or(Answer::Pending)
    }
}
