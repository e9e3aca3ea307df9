ghost use Rattle.std.specs.Prelude.{◌≡◌, ◌<◌, MatchResult};
ghost use Rattle.judge_feed.specs.Refreshing.{KeepsFeed, KeepsPass, IsFresh, HasOpened, HasRefreshed, HasFollowed, AsksRows};

use crate::asking::{ask_rows, is_pending};
use crate::naming::{Moments, Naming};
use crate::refreshed::Refreshed;
use farm_board::{Admission, Anyone, Board, Pass};
use farm_kinds::{Answer, MAX_SUBMISSIONS};
use public_board::{Publisher, Readers, open};
use std::alloc::Global;
use std::marker::Model;
use std::sync::Wait;

/// Publishes what the public sees of each submission, by looks at a board on a pass of its own. Contracts see what was
/// published, and what the pass knows. It is not `Drop`: end it by `end`.
pub struct Feed<A: Admission, J: Naming> {
    publisher: Publisher<Answer, Moments<J>>,
    pass: Pass<A>,
}

impl<A: Admission, J: Naming> Model for Feed<A, J> {
    ghost use Rattle.judge_feed.specs.Refreshing.{FeedValue};

    ghost Value = { FeedValue };

    ghost use Rattle.judge_feed.specs.Refreshing.{KeepsFeed};

    ghost view = { λ f. record { versions = f.publisher; pass = f.pass } };

    ghost invariant = { λ f. KeepsFeed J.board J.start J.number f.publisher f.pass };
}

/// Publishes what the public sees now. For the proof alone: a function of its own, which is lent the parts of the feed.
fn refresh_by<W: Wait, A: Admission, J: Naming>(
    rt: &W,
    alloc: Global,
    board: &Board<Anyone, A>,
    publisher: &mut Publisher<Answer, Moments<J>>,
    pass: &mut Pass<A>,
) -> Refreshed
    requires board { board.now.id ≡ J.board }
    requires keeps { KeepsFeed J.board J.start J.number publisher.old pass.old }
    ensures keeps { KeepsFeed J.board J.start J.number publisher.new pass.new }
    ensures refreshed { HasRefreshed (record { versions = publisher.old; pass = pass.old }) (record { versions = publisher.new; pass = pass.new }) result }
{
    if pass.left() == 0 {
        return Refreshed::Spent;
    }
    match ask_rows(rt, board, pass) {
        Err(_) => Refreshed::NoMemory,
        Ok(rows) => match publisher.publish(rt, alloc, rows.as_slice()) {
            Err(_) => Refreshed::NoMemory,
            Ok(note) => Refreshed::Done(note),
        },
    }
}

/// Publishes what the public sees now, unless the judging is pending. For the proof alone: a function of its own,
/// which is lent the parts of the feed.
fn follow_by<W: Wait, A: Admission, J: Naming>(
    rt: &W,
    alloc: Global,
    board: &Board<Anyone, A>,
    publisher: &mut Publisher<Answer, Moments<J>>,
    pass: &mut Pass<A>,
    judging: u32,
) -> Option<Refreshed>
    requires board { board.now.id ≡ J.board }
    requires keeps { KeepsFeed J.board J.start J.number publisher.old pass.old }
    ensures keeps { KeepsFeed J.board J.start J.number publisher.new pass.new }
    ensures followed { HasFollowed (record { versions = publisher.old; pass = pass.old }) (record { versions = publisher.new; pass = pass.new }) judging result }
{
    if pass.left() == 0 {
        return Some(Refreshed::Spent);
    }
    if is_pending(rt, board, pass, judging) {
        return None;
    }
    Some(refresh_by(rt, alloc, board, publisher, pass))
}

impl<A: Admission, J: Naming> Feed<A, J> {
    /// A feed that has published what the public sees now, and `readers` readers, each of which was told of it. Where
    /// no memory is left the pass comes back. `open` makes one call on the pass.
    pub fn open<W: Wait>(
        rt: &W,
        alloc: Global,
        board: &Board<Anyone, A>,
        pass: Pass<A>,
        readers: u16,
    ) -> Result<(Feed<A, J>, Readers<Answer, Moments<J>>), Pass<A>>
        requires board { board.now.id ≡ J.board }
        requires some { 0 < readers }
        requires fresh { IsFresh J.board J.start J.number pass }
        ensures opened { MatchResult result (λ r. HasOpened pass r.0 r.1 readers) (λ back. KeepsPass J.board J.start J.number back) }
    {
        let mut pass = pass;
        let Ok(rows) = ask_rows(rt, board, &mut pass) else {
            return Err(pass);
        };
        match open(rt, alloc, rows.as_slice(), MAX_SUBMISSIONS, readers) {
            Err(_) => Err(pass),
            Ok((publisher, readers)) => Ok((Feed { publisher, pass }, readers)),
        }
    }

    /// Publishes what the public sees now, by one call of `Board`. `Spent` comes exactly where the pass has no call left.
    pub fn refresh<W: Wait>(&mut self, rt: &W, alloc: Global, board: &Board<Anyone, A>) -> Refreshed
        requires board { board.now.id ≡ J.board }
        ensures refreshed { HasRefreshed self.old self.new result }
    {
        refresh_by(rt, alloc, board, &mut self.publisher, &mut self.pass)
    }

    /// Publishes what the public sees now where the judging may be final: behind a counted result nothing else changes
    /// for the public. It asks for the judging by one call of `Show`, whose cost is the same whatever the contest's size.
    /// None where the judging is pending.
    pub fn follow<W: Wait>(
        &mut self,
        rt: &W,
        alloc: Global,
        board: &Board<Anyone, A>,
        judging: u32,
    ) -> Option<Refreshed>
        requires board { board.now.id ≡ J.board }
        ensures followed { HasFollowed self.old self.new judging result }
    {
        follow_by(
            rt,
            alloc,
            board,
            &mut self.publisher,
            &mut self.pass,
            judging,
        )
    }

    /// Gives the pass back. Readers take nothing from now on. It waits for those that are within a call.
    pub fn end<W: Wait>(self, rt: &W) -> Pass<A>
        ensures pass { result ≡ self.pass }
        ensures kept { KeepsFeed J.board J.start J.number self.versions result }
    {
        let Feed { publisher, pass } = self;
        publisher.end(rt);
        pass
    }
}
