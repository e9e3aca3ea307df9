ghost use Rattle.std.specs.Prelude.{List};
ghost use Rattle.public_board.specs.Versions.{Keeps, newcomer, informed, Sees, Publishes};

use crate::row::Row;
use crate::rows::{Change, Rows};
use atomic_table::{Join, Split};
use crossbeam_utils::rule::{Outcome, Protocol};
use left_right::reader;
use left_right::writer::Writer;
use std::collections::LinkedList;
use std::marker::PhantomData;

/// What is published: which lists of versions may come to be, from the first version on. Each read tells that the
/// versions so far are one of these lists.
pub trait Publication<R> {
    ghost allows: { List (List R) → Type 0 };
}

/// What is known of the versions: those that were seen, those that were told of, and how many rows each has at least.
/// No value of it is made.
pub struct View<R> {
    pub seen: LinkedList<LinkedList<R>>,
    pub told: LinkedList<LinkedList<R>>,
    pub least: u64,
}

/// What holds of the rows and of what is known of them.
pub struct Published<R, J> {
    of: PhantomData<(R, J)>,
}

impl<R: Row, J: Publication<R>> Protocol<Rows<R>, View<R>> for Published<R, J> {
    ghost holds = { Keeps J.allows };

    ghost first = { newcomer };
}

/// A reader sees the last version.
pub struct Look<R, J> {
    of: PhantomData<(R, J)>,
}

impl<R: Row, J: Publication<R>> Outcome<Rows<R>, View<R>> for Look<R, J> {
    ghost then = { Sees J.allows };
}

/// The publisher makes the next version.
pub struct Replace;

impl<R: Row> Outcome<Rows<R>, View<R>> for Replace {
    ghost then = { Publishes };
}

/// What the publisher has seen, for a new reader.
pub struct Notes;

impl<R> Split<View<R>> for Notes {
    ghost left = { λ v. v };

    ghost right = { λ v. v };
}

impl<R> Join<View<R>> for Notes {
    ghost both = { informed };

    ghost spent = { newcomer };
}

/// A reader of the two copies, under the rule.
pub(crate) type RowsReader<R, J> = reader::Reader<Rows<R>, View<R>, Published<R, J>>;

/// The writer of the two copies, under the rule.
pub(crate) type RowsWriter<R, J> = Writer<Rows<R>, Change<R>, View<R>, Published<R, J>>;
