ghost use Rattle.std.specs.Prelude.{◌≡◌, ◌<◌, false};
ghost use Rattle.farm_board.specs.Passes.{Calls};
ghost use Rattle.judge_feed.specs.Refreshing.{AsksRows, AsksJudging};

use farm_board::{Admission, Anyone, Board, Pass};
use farm_kinds::{Answer, Answers, Event, NoMemory, Reply};
use std::sync::Wait;

/// What the public sees of each submission.
pub(crate) fn ask_rows<W: Wait, A: Admission>(
    rt: &W,
    board: &Board<Anyone, A>,
    pass: &mut Pass<A>,
) -> Result<Answers, NoMemory>
    requires board { pass.old.board ≡ board.now.id }
    requires left { 0 < pass.old.left }
    ensures asks { AsksRows pass.old pass.new result }
    ensures turn { pass.new.kept ≡ false }
{
    match board.step(rt, pass, &Event::Board) {
        Reply::Board { rows } => Ok(rows),
        _ => Err(NoMemory),
    }
}

/// Whether the judging is pending. Where the board does not say, it may be final.
pub(crate) fn is_pending<W: Wait, A: Admission>(
    rt: &W,
    board: &Board<Anyone, A>,
    pass: &mut Pass<A>,
    judging: u32,
) -> bool
    requires board { pass.old.board ≡ board.now.id }
    requires left { 0 < pass.old.left }
    ensures asks { AsksJudging pass.old pass.new judging result }
    ensures turn { pass.new.kept ≡ false }
{
    match board.step(rt, pass, &Event::Show { judging }) {
        Reply::Shown(Answer::Pending) => true,
        _ => false,
    }
}
