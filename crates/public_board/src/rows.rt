ghost use Rattle.std.specs.Prelude.{◌≤◌};
ghost use Rattle.std.specs.Vec.{vec_capacity};
ghost use Rattle.public_board.specs.Shown.{shown, replaced};

use crate::row::Row;
use left_right::Absorb;
use std::alloc::AllocError;
use std::collections::LinkedList;

/// The rows that readers take, and `count`, how many versions there were. There is room for `room` rows, so a change
/// to no more rows takes no memory.
#[derive(Drop)]
pub struct Rows<R> {
    pub rows: Vec<R>,
    pub count: u64,
    pub room: usize,
    ghost roomy: { room ≤ vec_capacity rows },
}

/// For the proof alone: what [`Rows`] has, as plain data. No value of it is made.
pub struct Shown<R> {
    pub rows: LinkedList<R>,
    pub count: u64,
    pub room: u64,
}

/// The rows of the next version.
#[derive(Drop)]
pub struct Change<R> {
    pub rows: Vec<R>,
}

impl<R: Row> Absorb<Change<R>> for Rows<R> {
    type State = Shown<R>;

    ghost state = { λ r. shown r.rows.items r.count r.room };

    ghost applied = { λ s c. replaced s c.rows.items };

    ghost never_fails = { Unit {0} };

    fn absorb_first(&mut self, change: &Change<R>, _other: &Rows<R>) -> Result<(), AllocError> {
        if change.rows.len() > self.room || self.count == u64::MAX {
            return Ok(());
        }
        self.rows.clear();
        // There is room.
        let _copied = self.rows.extend_from_slice(change.rows.as_slice());
        self.count += 1;
        Ok(())
    }
}
