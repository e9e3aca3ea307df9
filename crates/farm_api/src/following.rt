ghost use Rattle.std.specs.Prelude.{◌≡◌};

use farm_board::{Admission, Anyone, Board};
use farm_kinds::{Event, Reply};
use judge_feed::{Feed, Naming, Refreshed};
use public_board::Note;
use std::alloc::Global;
use std::sync::{Mutex, MutexGuard, Wait};

/// What the public may see otherwise than before, once an event was answered.
#[derive(Clone, Copy, Debug, PartialEq, Eq)]
pub(crate) enum Change {
    /// Nothing.
    None,
    /// The answer of a judging, once it is final.
    Judging(u32),
    /// Any answer.
    Any,
}

/// What may be seen otherwise for this reply to the event.
pub(crate) fn change_by(event: &Event, reply: &Reply) -> Change {
    match reply {
        Reply::Counted => match event {
            Event::Result { judging, .. } => Change::Judging(*judging),
            _ => Change::Any,
        },
        Reply::Applied { .. } | Reply::Verified { .. } => Change::Any,
        _ => Change::None,
    }
}

/// The note of a refresh, where it published.
fn note_of(refreshed: Refreshed) -> Option<Note> {
    match refreshed {
        Refreshed::Done(note) => Some(note),
        Refreshed::NoMemory | Refreshed::Spent => None,
    }
}

/// Has the feed publish what the public sees now.
fn refresh<W: Wait, A: Admission, J: Naming>(
    rt: &W,
    alloc: Global,
    board: &Board<Anyone, A>,
    feed: &Mutex<Feed<A, J>>,
) -> Option<Note>
    requires named { board.now.id ≡ J.board }
{
    let mut held = feed.lock(rt);
    let refreshed = held.refresh(rt, alloc, board);
    MutexGuard::unlock(held);
    note_of(refreshed)
}

/// The same, unless the judging is pending.
fn follow<W: Wait, A: Admission, J: Naming>(
    rt: &W,
    alloc: Global,
    board: &Board<Anyone, A>,
    feed: &Mutex<Feed<A, J>>,
    judging: u32,
) -> Option<Note>
    requires named { board.now.id ≡ J.board }
{
    let mut held = feed.lock(rt);
    let followed = held.follow(rt, alloc, board, judging);
    MutexGuard::unlock(held);
    match followed {
        Some(refreshed) => note_of(refreshed),
        None => None,
    }
}

/// Has the feed publish what may be seen otherwise now. The note tells of the last version, where it published.
pub(crate) fn publish<W: Wait, A: Admission, J: Naming>(
    rt: &W,
    alloc: Global,
    board: &Board<Anyone, A>,
    feed: &Mutex<Feed<A, J>>,
    change: Change,
) -> Option<Note>
    requires named { board.now.id ≡ J.board }
{
    match change {
        Change::None => None,
        Change::Judging(judging) => follow(rt, alloc, board, feed, judging),
        Change::Any => refresh(rt, alloc, board, feed),
    }
}
