use crate::contents::Contents;
use crate::entries::HistoryEntry;
use std::collections::LinkedList;
use std::snapshot::Snapshot;

/// What a seat of the board's table knows, and where it is in its turn. No value of it is made.
pub struct View {
    /// What the board began with.
    pub start: Snapshot<Contents>,
    pub number: u64,
    /// The history as far as the pass knows it.
    pub seen: LinkedList<HistoryEntry>,
    /// The pass's own entries.
    pub mine: LinkedList<HistoryEntry>,
    /// How many passes it may split off.
    pub spare: u64,
    /// How many calls it may still make.
    pub left: u64,
    pub ticket: Option<u64>,
    /// It is the ticket's turn.
    pub turn: bool,
    /// An entry joined the history in the ticket's turn, which goes on.
    pub kept: bool,
    /// The entry that is about to join the history.
    pub coming: Option<HistoryEntry>,
    /// The number that it has to give to a new pass.
    pub to_give: Option<u64>,
    /// The number of a pass that it has taken in.
    pub taken_in: Option<u64>,
    /// That pass's own entries.
    pub taken_in_mine: LinkedList<HistoryEntry>,
    /// What that pass had seen.
    pub taken_in_seen: LinkedList<HistoryEntry>,
    /// What this pass had seen before it took that one in.
    pub seen_before: LinkedList<HistoryEntry>,
    /// It was taken in by another.
    pub ended: bool,
}
