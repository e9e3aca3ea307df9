ghost use Rattle.std.specs.Prelude.{◌≡◌, option_map, ◌+◌, ◌≤◌, ◌<◌, length, map, find, not, IfOk, IfSome, IfNone, OnOk, OnErr, None, Some};
ghost use Rattle.farm_kinds.specs.declared.events.Event.TheVariants as events;
ghost use Rattle.farm_model.specs.Limits.{max_judgings, max_rejudgings};
ghost use Rattle.farm_model.specs.State.{answer_at, is_final};
ghost use Rattle.farm_model.specs.Rejudgings.{members_in, new_judgings};
ghost use Rattle.farm_model.specs.Refusals.{apply_refusal, close_refusal, has_final, is_submission, rejudge_refusal};
ghost use Rattle.farm_model.specs.Changes.{answer_pairs, applied, cancelled, rejudged, rejudging_reply};
ghost use Rattle.farm_model.specs.Farm.{Stepped};
ghost use Rattle.rejudge_book.specs.Refusals.{AreKnown, reserve_refusal};
ghost use Rattle.farm_core.specs.FarmShape.{HadMemory, fault_reply, list_refusal};

use super::ContestState;
use crate::lists::{add_details, add_judgings, cells_of, currents_of, drop_judgings, make_current};
use crate::replies::fault_reply;
use farm_kinds::{Answer, How, MAX_JUDGINGS, MAX_REJUDGINGS, NoMemory, Reply};
use farm_model::{Member, RejudgeState, item_of};
use rejudge_book::{RejudgeBook, matrix};

impl ContestState {
    /// Why no rejudging of these submissions is prepared. Nothing changes.
    pub fn rejudge_refusal(&mut self, list: &[u32]) -> Option<Reply>
        ensures refusal { result ≡ rejudge_refusal self.old list.now }
        ensures answers { IfSome result HadMemory }
        ensures unchanged { self.new ≡ self.old }
    {
        if let Some(refusal) = self.list_refusal(list) {
            return Some(refusal);
        }
        self.book_refusal(list)
    }

    /// Why no rejudging of these submissions, which are all there, is prepared by the book.
    fn book_refusal(&mut self, list: &[u32]) -> Option<Reply>
        requires known { AreKnown (length self.old.submissions) list.now }
        ensures refusal { result ≡ option_map fault_reply (reserve_refusal self.old.rejudgings list.now) }
        ensures unchanged { self.new ≡ self.old }
    {
        let fault = self.book.refusal(list)?;
        Some(fault_reply(fault))
    }

    /// Why no rejudging of these submissions is prepared, but for those that stand in the list twice or
    /// are busy.
    fn list_refusal(&self, list: &[u32]) -> Option<Reply>
        ensures refusal { result ≡ list_refusal self.now list.now }
        ensures answers { IfSome result HadMemory }
        ensures known { IfNone result (AreKnown (length self.now.submissions) list.now) }
    {
        if list.is_empty() {
            return Some(Reply::EmptySet);
        }
        if let Some(submission) = self.first_unknown(list) {
            return Some(Reply::NoSubmission { submission });
        }
        if let Some(number) = self.first_pending(list) {
            return Some(Reply::NotFinal { number });
        }
        if self.book.rejudgings() >= MAX_REJUDGINGS as usize {
            return Some(Reply::Full {
                limit: MAX_REJUDGINGS,
            });
        }
        if list.len() > (MAX_JUDGINGS as usize).saturating_sub(self.judge.judgings()) {
            return Some(Reply::Full {
                limit: MAX_JUDGINGS,
            });
        }
        None
    }

    /// The first number of the list that no submission has.
    fn first_unknown(&self, list: &[u32]) -> Option<u32>
        ensures { result ≡ find (λ n. not (is_submission self.now n)) list.now }
    {
        for number in list {
            if item_of(&self.submissions, *number).is_none() {
                return Some(*number);
            }
        }
        None
    }

    /// The first submission of the list whose current judging is not final.
    fn first_pending(&self, list: &[u32]) -> Option<u32>
        ensures { result ≡ find (λ n. not (has_final self.now n)) list.now }
    {
        for number in list {
            if !self.has_final(*number) {
                return Some(*number);
            }
        }
        None
    }

    /// Whether the current judging of the submission is final.
    fn has_final(&self, submission: u32) -> bool
        ensures { result ≡ has_final self.now submission }
    {
        match item_of(&self.submissions, submission) {
            Some(submission) => self.is_final(submission.current),
            None => self.is_final(0),
        }
    }

    /// Whether the judging is final.
    fn is_final(&self, judging: u32) -> bool
        ensures { result ≡ is_final (answer_at self.now judging) }
    {
        match self.answer_at(judging) {
            Answer::Final(_) => true,
            Answer::Pending => false,
        }
    }

    /// Prepares a rejudging of these submissions, with its judgings. All that it needs is there before
    /// anything changes. At `NoMemory` nothing changes.
    pub fn rejudge(&mut self, list: &[u32]) -> Result<Reply, NoMemory>
        requires some { 0 < length list.now }
        requires known { AreKnown (length self.old.submissions) list.now }
        requires accepted { reserve_refusal self.old.rejudgings list.now ≡ None }
        requires few { length self.old.rejudgings < max_rejudgings }
        requires room { length self.old.judge.judgings + length list.now ≤ max_judgings }
        ensures reply { IfOk result (λ reply. reply ≡ rejudging_reply self.old list.now) }
        ensures prepared { OnOk result (self.new ≡ rejudged self.old list.now) }
        ensures unchanged { OnErr result (self.new ≡ self.old) }
    {
        self.book.reserve_members(list.len())?;
        let olds = currents_of(self.alloc, &self.submissions, list)?;
        let tests = cells_of(self.alloc, &self.problems, &self.submissions, list)?;
        self.judge.reserve(&tests)?;
        self.details.reserve(list.len())?;
        let first = self.judge.judgings() as u32 + 1;
        add_judgings(&mut self.judge, &self.problems, &self.submissions, list);
        let number = self.book.prepare_reserved(list, olds.as_slice(), first);
        add_details(&mut self.details, number, list);
        Ok(Reply::Rejudging {
            number,
            first,
            last: first - 1 + list.len() as u32,
        })
    }

    /// How the answers of a rejudging differ from the old ones. `NoMemory` where its rows find no room.
    pub fn matrix(&self, rejudging: u32) -> Reply
        ensures { Stepped self.now (events.Matrix rejudging) self.now result }
    {
        if self.book.state(rejudging).is_none() {
            return Reply::NoRejudging { rejudging };
        }
        let Ok(pairs) = self.answer_pairs(rejudging) else {
            return Reply::NoMemory;
        };
        match matrix(self.alloc, pairs.as_slice()) {
            Ok(rows) => Reply::Matrix {
                rows,
                members: pairs.len() as u32,
            },
            Err(NoMemory) => Reply::NoMemory,
        }
    }

    /// What the jury sees of the old and of the new judging of each member.
    fn answer_pairs(&self, rejudging: u32) -> Result<Vec<(Answer, Answer)>, NoMemory>
        ensures pairs { IfOk result (λ pairs. pairs.items ≡ answer_pairs self.now rejudging) }
        ensures count { IfOk result (λ pairs. length pairs.items ≡ length (members_in self.now.rejudgings rejudging)) }
        ensures few { IfOk result (λ pairs. length pairs.items ≤ max_judgings) }
    {
        let members = members_in(&self.book, rejudging);
        let mut pairs = Vec::new(self.alloc);
        pairs.reserve(members.len())?;
        for member in members {
            pairs.push_reserved((self.answer_at(member.old), self.answer_at(member.new)));
        }
        Ok(pairs)
    }

    /// Why the rejudging is not applied.
    pub fn apply_refusal(&self, rejudging: u32) -> Option<Reply>
        ensures refusal { result ≡ apply_refusal self.now rejudging }
        ensures answers { IfSome result HadMemory }
    {
        if let Some(refusal) = self.close_refusal(rejudging) {
            return Some(refusal);
        }
        let judging = self.first_unfinished(members_in(&self.book, rejudging))?;
        Some(Reply::Unfinished { judging })
    }

    /// The first new judging of the members that is not final.
    fn first_unfinished(&self, members: &[Member]) -> Option<u32>
        ensures { result ≡ find (λ j. not (is_final (answer_at self.now j))) (new_judgings members.now) }
    {
        for member in members {
            if !self.is_final(member.new) {
                return Some(member.new);
            }
        }
        None
    }

    /// Why the rejudging is not closed.
    pub fn close_refusal(&self, rejudging: u32) -> Option<Reply>
        ensures refusal { result ≡ close_refusal self.now.rejudgings rejudging }
        ensures answers { IfSome result HadMemory }
    {
        match self.book.state(rejudging) {
            None => Some(Reply::NoRejudging { rejudging }),
            Some(RejudgeState::Open) => None,
            Some(RejudgeState::Applied) => Some(Reply::Closed { how: How::Applied }),
            Some(RejudgeState::Cancelled) => Some(Reply::Closed {
                how: How::Cancelled,
            }),
        }
    }

    /// Makes all judgings of an open rejudging the current ones.
    pub fn apply(&mut self, rejudging: u32) -> Reply
        requires is_open { close_refusal self.old.rejudgings rejudging ≡ None }
        ensures reply { result ≡ Reply.Applied (length (members_in self.old.rejudgings rejudging)) }
        ensures done { self.new ≡ applied self.old rejudging }
    {
        let members = members_in(&self.book, rejudging);
        let count = members.len() as u32;
        make_current(&mut self.submissions, members);
        self.book.close_open(rejudging, How::Applied);
        Reply::Applied { members: count }
    }

    /// Drops all judgings of an open rejudging.
    pub fn cancel(&mut self, rejudging: u32) -> Reply
        requires is_open { close_refusal self.old.rejudgings rejudging ≡ None }
        ensures reply { result ≡ Reply.Cancelled (length (members_in self.old.rejudgings rejudging)) }
        ensures done { self.new ≡ cancelled self.old rejudging }
    {
        let members = members_in(&self.book, rejudging);
        let count = members.len() as u32;
        drop_judgings(&mut self.judge, members);
        self.book.close_open(rejudging, How::Cancelled);
        Reply::Cancelled { members: count }
    }
}

/// The members of a rejudging. None where no rejudging has the number.
fn members_in(book: &RejudgeBook, rejudging: u32) -> &[Member]
    ensures { result.now ≡ members_in book.now.rejudgings rejudging }
{
    match book.members(rejudging) {
        Some(members) => members.as_slice(),
        None => &[],
    }
}
