ghost use Rattle.std.specs.Prelude.{ℕ, [], false};
ghost use Rattle.farm_model.specs.State.{start, standard_settings};
ghost use Rattle.farm_board.specs.BoardState.{BoardState};
ghost use Rattle.farm_board.specs.Histories.{opening_board};
ghost use Rattle.farm_board.specs.Passes.{BoardId};
ghost use Rattle.judge_feed.specs.Showing.{AreShown};

use farm_kinds::Answer;
use public_board::Publication;
use std::marker::{Brand, PhantomData};

/// Which board a feed shows, and by which pass, as part of a type. The function that opens the feed picks it, by `Brand`.
pub trait Naming {
    /// What tells the board apart.
    ghost board: { BoardId };
    /// What the board began with.
    ghost start: { BoardState };
    /// The number of the feed's pass.
    ghost number: { ℕ };
}

impl Naming for Brand {
    ghost board = { record { words = 0; slots = 0; views_name = 0; atom = 0; block = 0; offset = 0; slot_names = [] } };

    ghost start = { opening_board (start standard_settings) 1 false };

    ghost number = { 0 };
}

/// What a feed publishes: what the public sees of each submission, at moments of one legal history of the board that is
/// named, later versions at later moments.
pub struct Moments<J> {
    of: PhantomData<J>,
}

impl<J: Naming> Publication<Answer> for Moments<J> {
    ghost allows = { AreShown J.start };
}
