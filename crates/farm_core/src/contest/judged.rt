ghost use Rattle.farm_kinds.specs.declared.events.Event.TheVariants as events;
ghost use Rattle.farm_model.specs.Farm.{Stepped};
ghost use Rattle.farm_model.specs.Judge.{judge_claim, judge_fetch};
ghost use Rattle.judging_core.specs.JudgeValue.{in_state};
ghost use Rattle.std.specs.Prelude.{◌≡◌, ◌≤◌};

use super::ContestState;
use crate::replies::{claim_reply, count_reply, fetch_reply, renewed_reply};
use farm_kinds::{Claim, Fetched, Kind, Name, Reply};
use judging_core::{Judge, Steps};
use std::marker::Brand;
use std::sync::ledger::{Blank, Ledger};

impl ContestState {
    /// A host asks for a task, which it then holds for as long as the settings say.
    pub fn claim(&mut self, host: Name) -> Reply
        ensures { Stepped self.old (events.Claim host) self.new result }
    {
        match self.up_number(&host) {
            Some(number) => claim_reply(claim_by::<Brand>(&mut self.judge, number, Blank::new(1))),
            None => Reply::NoHost { name: host },
        }
    }

    /// A host asks for tasks of one judging, which it then holds for as long as the settings say.
    pub fn fetch(&mut self, host: Name, most: u8) -> Reply
        ensures { Stepped self.old (events.Fetch host most) self.new result }
    {
        match self.up_number(&host) {
            Some(number) => fetch_reply(fetch_by::<Brand>(
                &mut self.judge,
                number,
                most,
                Blank::new(1),
            )),
            None => Reply::NoHost { name: host },
        }
    }

    /// A host's result of a task that was handed out; it counts also after the host's lease ended.
    pub fn result(&mut self, host: Name, judging: u32, test: u32, kind: Kind) -> Reply
        ensures { Stepped self.old (events.Result host judging test kind) self.new result }
    {
        match self.up_number(&host) {
            Some(_) => count_reply(judging, test, self.judge.result(judging, test, kind)),
            None => Reply::NoHost { name: host },
        }
    }

    /// A result from outside, also of a task that was never handed out.
    pub fn enter(&mut self, judging: u32, test: u32, kind: Kind) -> Reply
        ensures { Stepped self.old (events.Entry judging test kind) self.new result }
    {
        count_reply(judging, test, self.judge.enter(judging, test, kind))
    }

    /// A host asks to hold its task, and the others of its judging that it holds, for as long again, from now on.
    pub fn renew(&mut self, host: Name, judging: u32, test: u32) -> Reply
        ensures { Stepped self.old (events.Renew host judging test) self.new result }
    {
        match self.up_number(&host) {
            Some(number) => renewed_reply(judging, test, self.judge.renew(number, judging, test)),
            None => Reply::NoHost { name: host },
        }
    }

    /// Time goes on to this moment, in seconds, and leases end. Time does not go back.
    pub fn tick(&mut self, moment: u64) -> Reply
        ensures { Stepped self.old (events.Tick moment) self.new result }
    {
        Reply::Ended {
            count: self.judge.tick(moment),
        }
    }
}

/// The judge's claim with a counter of its own, which nobody is told of.
fn claim_by<L: Ledger>(judge: &mut Judge, host: u32, blank: Blank) -> Claim
    requires name { blank.name ≡ L.name }
    requires parts { blank.parts ≡ L.parts }
    requires one { blank.parts ≡ 1 }
    requires numbered { 1 ≤ host }
    requires known { host ≤ judge.old.hosts }
    ensures state { judge.new ≡ in_state judge.old (judge_claim judge.old.state host).0 }
    ensures answer { result ≡ (judge_claim judge.old.state host).1 }
{
    let mut steps = Steps::<L>::new(blank);
    judge.claim(host, &mut steps)
}

/// The judge's fetch with a counter of its own.
fn fetch_by<L: Ledger>(judge: &mut Judge, host: u32, most: u8, blank: Blank) -> Fetched
    requires name { blank.name ≡ L.name }
    requires parts { blank.parts ≡ L.parts }
    requires one { blank.parts ≡ 1 }
    requires numbered { 1 ≤ host }
    requires known { host ≤ judge.old.hosts }
    ensures state { judge.new ≡ in_state judge.old (judge_fetch judge.old.state host most).0 }
    ensures answer { result ≡ (judge_fetch judge.old.state host most).1 }
{
    let mut steps = Steps::<L>::new(blank);
    judge.fetch(host, most, &mut steps)
}
