ghost use Rattle.std.specs.Prelude.{◌≡◌, ◌≢◌, ◌+◌, ◌<◌, ◌≤◌, ◌∷◌, [], ℕ, IfOk};
ghost use Rattle.farm_api.specs.Jobs.{Gives, IsJobText};
ghost use Rattle.farm_api.specs.Conversation.{tick, down_after};
ghost use Rattle.http_door.specs.Responses.{HasCauseWritten};
ghost use Rattle.farm_api.specs.Entering.{Entered, with_reply, with_look, EntersAside, is_no_memory, Enters};
ghost use Rattle.farm_api.specs.Putting.{PutsLook};

use contest_page::ContestView;
use farm_io::Sink;
use farm_kinds::{Event, NoMemory, Reply, Text};
use http_door::ResponseFault;
use std::alloc::Global;
use wire_job::JobPart;

/// What answers events, one after the other, looks at what the public sees, and gives jobs and the names of the contest.
pub trait Replier {
    /// What events and looks change.
    type State;

    /// Whether it answers events in this state.
    ghost suits: { Self → Self.State → Type 0 };
    /// From a state, by an event with its reply or by a look, into a state.
    ghost steps: { Self.State → Entered → Self.State → Type 0 };
    /// How many events may still be answered.
    ghost left: { Self.State → ℕ };
    /// What may be given: cases, and the names of the contest.
    ghost gives: { Self → Gives };

    /// Answers an event.
    fn step(&self, state: &mut Self::State, event: &Event) -> Reply
        requires suits { suits self.now state.old }
        requires left { 0 < left state.old }
        ensures steps { steps state.old (with_reply event.now result) state.new }
        ensures left { left state.old ≤ left state.new + 1 }
        ensures suits { suits self.now state.new };

    /// Looks at what the public sees. It is `Board`, or another reply where nothing is to be had.
    fn look(&self, alloc: Global, state: &mut Self::State) -> Reply
        requires suits { suits self.now state.old }
        requires left { 0 < left state.old }
        ensures steps { steps state.old (with_look result) state.new }
        ensures left { left state.old ≤ left state.new + 1 }
        ensures suits { suits self.now state.new };

    /// Looks at what the public sees, and puts the response that gives it: `put_look` makes it of what `look` gives.
    fn show<K: Sink>(
        &self,
        alloc: Global,
        state: &mut Self::State,
        closing: bool,
        sink: &mut K,
    ) -> Result<(), ResponseFault>
        requires suits { suits self.now state.old }
        requires left { 0 < left state.old }
        ensures puts { PutsLook steps closing state.old state.new (K.held sink.old) (K.held sink.new) result }
        ensures cause { HasCauseWritten (K.faults sink.old) (K.faults sink.new) result }
        ensures beside { K.beside sink.new ≡ K.beside sink.old }
        ensures left { left state.old ≤ left state.new + 1 }
        ensures suits { suits self.now state.new };

    /// The text of so much of the job of a test of a judging of this submission. None where there is no case of it.
    fn job(
        &self,
        alloc: Global,
        part: JobPart,
        submission: u32,
        judging: u32,
        test: u32,
    ) -> Result<Option<Text>, NoMemory>
        ensures { IfOk result (λ text. IsJobText ((gives self.now).case submission test) part judging test text) };

    /// The names of the contest.
    fn contest(&self) -> &ContestView
        ensures { result.now ≡ (gives self.now).contest };
}

/// Whether the reply says that memory ran out.
fn is_no_memory(reply: &Reply) -> bool
    ensures { result ≡ is_no_memory reply.now }
{
    matches!(reply, Reply::NoMemory)
}

/// Enters an event whose reply says nothing else than whether memory ran out.
#[tactic(auto, using(crate::proofs::Enterings::one_aside))]
fn enter_aside<A: Replier>(replier: &A, state: &mut A::State, event: &Event) -> Result<(), NoMemory>
    requires suits { A.suits replier.now state.old }
    requires left { 0 < A.left state.old }
    ensures enters { EntersAside A.steps (event.now ∷ []) state.old state.new result }
    ensures left { A.left state.old ≤ A.left state.new + 1 }
    ensures suits { A.suits replier.now state.new }
{
    let reply = replier.step(state, event);
    if is_no_memory(&reply) {
        return Err(NoMemory);
    }
    Ok(())
}

/// Lets time go on to the moment, where it is to.
#[tactic(auto, using(crate::proofs::Enterings::none_aside))]
fn enter_tick<A: Replier>(
    replier: &A,
    state: &mut A::State,
    ticks: bool,
    moment: u64,
) -> Result<(), NoMemory>
    requires suits { A.suits replier.now state.old }
    requires left { 0 < A.left state.old }
    ensures enters { EntersAside A.steps (tick ticks moment) state.old state.new result }
    ensures left { A.left state.old ≤ A.left state.new + 1 }
    ensures suits { A.suits replier.now state.new }
{
    if ticks {
        return enter_aside(replier, state, &Event::Tick { moment });
    }
    Ok(())
}

/// Puts the host down whose result differs from the one that is kept.
#[tactic(auto, using(crate::proofs::Enterings::none_aside))]
fn enter_down<A: Replier>(
    replier: &A,
    state: &mut A::State,
    event: &Event,
    reply: &Reply,
) -> Result<(), NoMemory>
    requires suits { A.suits replier.now state.old }
    requires left { 0 < A.left state.old }
    ensures enters { EntersAside A.steps (down_after event.now reply.now) state.old state.new result }
    ensures left { A.left state.old ≤ A.left state.new + 1 }
    ensures suits { A.suits replier.now state.new }
{
    match event {
        Event::Result { host, .. } => match reply {
            Reply::Differs { .. } => enter_aside(replier, state, &Event::Down { host: *host }),
            _ => Ok(()),
        },
        _ => Ok(()),
    }
}

/// Enters an event, behind the moment where time goes on first, and what follows from its reply.
#[tactic(auto, using(crate::proofs::Enterings::begun_tick, crate::proofs::Enterings::begun_down))]
pub fn enter<A: Replier>(
    replier: &A,
    state: &mut A::State,
    ticks: bool,
    moment: u64,
    event: &Event,
) -> Result<Reply, NoMemory>
    requires suits { A.suits replier.now state.old }
    requires left { 3 ≤ A.left state.old }
    ensures enters { Enters A.steps ticks moment event.now state.old state.new result }
    ensures left { A.left state.old ≤ A.left state.new + 3 }
    ensures suits { A.suits replier.now state.new }
    ensures told { IfOk result (λ r. r ≢ Reply.NoMemory) }
{
    enter_tick(replier, state, ticks, moment)?;
    let reply = replier.step(state, event);
    if is_no_memory(&reply) {
        return Err(NoMemory);
    }
    enter_down(replier, state, event, &reply)?;
    Ok(reply)
}
