ghost use Rattle.std.specs.Prelude.{◌≡◌, ◌≢◌, List, None, IsSome, IfOk, OnErr, length};
ghost use Rattle.farm_kinds.specs.Actors.{jury_actor};
ghost use Rattle.farm_kinds.specs.declared.events.Event.{Event};
ghost use Rattle.farm_kinds.specs.declared.events.Event.TheVariants as events;
ghost use Rattle.farm_model.specs.State.{SettingsValue, start, public_of};
ghost use Rattle.farm_model.specs.Refusals.{refusal_of};
ghost use Rattle.farm_model.specs.Changes.{accepted};
ghost use Rattle.farm_model.specs.Farm.{Stepped};
ghost use Rattle.farm_laws.specs.Laws.{reached, StepKeepsPromise};
ghost use Rattle.farm_core.specs.FarmShape.{HadMemory};

use crate::contest::ContestState;
use crate::entries::make_entry;
use audit_log::Audit;
use farm_kinds::{Answer, Event, NoMemory, Reply};
use farm_settings::Settings;
use std::alloc::Global;
use std::marker::Model;

/// The problems, the hosts, the submissions with their judgings and rejudgings, and the audit log.
#[derive(Drop)]
pub struct Farm {
    alloc: Global,
    contest: ContestState,
    audit: Audit,
}

impl Model for Farm {
    ghost use Rattle.farm_model.specs.State.{State};

    ghost Value = { State };

    ghost use Rattle.farm_core.specs.FarmLayout.{farm_value, IsFarmLayout};

    ghost view = { farm_value };

    ghost invariant = { IsFarmLayout };
}

impl Farm {
    /// The empty farm with these settings.
    pub fn new(alloc: Global, settings: Settings) -> Farm
        ensures { result ≡ start settings }
    {
        Farm {
            alloc,
            contest: ContestState::new(alloc, settings),
            audit: Audit::new(alloc),
        }
    }

    /// Answers one event. One that is refused, and one for which no memory was left, changes nothing.
    ///
    /// `promise` says, of a farm that some events led to from an empty one, what this step keeps.
    pub fn step(&mut self, event: &Event) -> Reply
        ensures stepped { Stepped self.old event.now self.new result }
        ensures promise { (settings : SettingsValue) (es : List Event) → self.old ≡ reached settings es
            → result ≢ Reply.NoMemory → StepKeepsPromise settings es event.now self.new result }
    {
        // The most frequent events return at once: the reply of another arm is copied once more.
        match event {
            Event::Problem { .. } | Event::Replace { .. } | Event::Rejudge { .. } =>
                self.answer_jury(event),
            Event::Apply { .. } | Event::Cancel { .. } | Event::Verify { .. } | Event::Ask { .. } =>
                self.answer_jury(event),
            Event::Host { name } => self.contest.bring_up(*name),
            Event::Submit {
                problem,
                class,
                broken,
            } => self.contest.submit(*problem, *class, *broken),
            Event::Claim { host } => return self.contest.claim(*host),
            Event::Fetch { host, most } => self.contest.fetch(*host, *most),
            Event::Result {
                host,
                judging,
                test,
                kind,
            } => return self.contest.result(*host, *judging, *test, *kind),
            Event::Entry {
                judging,
                test,
                kind,
            } => return self.contest.enter(*judging, *test, *kind),
            Event::Renew {
                host,
                judging,
                test,
            } => self.contest.renew(*host, *judging, *test),
            Event::Tick { moment } => self.contest.tick(*moment),
            Event::Down { host } => self.contest.bring_down(*host),
            Event::Show { judging } => return self.contest.show(*judging),
            Event::Owner { judging } => self.contest.owner(*judging),
            Event::Board => self.contest.board(),
            Event::Matrix { rejudging } => self.contest.matrix(*rejudging),
            Event::Audit => self.audit_head(),
        }
    }

    /// How many submissions there are.
    pub fn submissions(&self) -> u32
        ensures { result ≡ length self.now.submissions }
    {
        self.contest.submissions()
    }

    /// What the public sees of a submission. None where no submission has the number.
    pub fn public(&self, submission: u32) -> Option<Answer>
        ensures { result ≡ public_of self.now submission }
    {
        self.contest.public(submission)
    }

    /// The audit log: what the jury did, in order.
    pub fn audit(&self) -> &Audit
        ensures { result.now.texts ≡ self.now.texts }
    {
        &self.audit
    }

    /// Answers an event of the jury: it is refused, or it is done and entered in the audit log.
    fn answer_jury(&mut self, event: &Event) -> Reply
        requires { IsSome (jury_actor event.now) }
        ensures { Stepped self.old event.now self.new result }
    {
        if let Some(refusal) = self.contest.jury_refusal(event) {
            return refusal;
        }
        match self.change(event) {
            Ok(reply) => reply,
            Err(NoMemory) => Reply::NoMemory,
        }
    }

    /// Does what an event of the jury asks, which is not refused, and enters it in the audit log. Its entry
    /// is made ready first, so that nothing can fail any more once the contest has changed.
    fn change(&mut self, event: &Event) -> Result<Reply, NoMemory>
        requires jurys { IsSome (jury_actor event.now) }
        requires accepted { refusal_of self.old event.now ≡ None }
        ensures done { IfOk result (λ reply. accepted self.old event.now ≡ (self.new, reply)) }
        ensures answers { IfOk result HadMemory }
        ensures unchanged { OnErr result (self.new ≡ self.old) }
    {
        let entry = make_entry(&mut self.audit, self.alloc, event)?;
        let reply = self.contest.change(event)?;
        self.audit.add_reserved(&entry.who, entry.words.as_slice());
        Ok(reply)
    }

    /// How many entries the audit log has, and its last digest.
    fn audit_head(&self) -> Reply
        ensures { Stepped self.now events.Audit self.now result }
    {
        Reply::Audit {
            count: self.audit.len() as u32,
            head: self.audit.head(),
        }
    }
}
