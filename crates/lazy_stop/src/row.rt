ghost use Rattle.std.specs.Prelude.{ℕ, ◌≡◌, ◌≢◌, ◌<◌, ◌≤◌, ◌-◌, ◌↔◌, IsTrue, Some, None, length, replicate, slice_get, slice_set, List, Option, IfOk, nat_le, nat_lt};
ghost use Rattle.farm_kinds.specs.declared.kinds.Kind.{Kind};
ghost use Rattle.farm_kinds.specs.RuleValue.{RuleValue};
ghost use Rattle.farm_model.specs.Rows.{answer_of, is_settled, matters};
ghost use Rattle.lazy_stop.specs.Matters.{IsPossible, Matters};
ghost use Rattle.lazy_stop.specs.RowFacts.{IsFirstEmpty, BestIs, IsRow};

use crate::cells::Cells;
use crate::extremes::{Extremes, extremes_of};
use farm_kinds::{Answer, Kind, Mode, NoMemory, Rule, Verdict};
use std::alloc::Global;
use std::marker::Model;

/// The filled cell that decides among the filled ones: of the greatest priority, the earliest there.
#[derive(Clone, Copy, Debug)]
pub struct Best {
    kind: Kind,
    at: u16,
}

/// The results of one judging: a cell for each test in rank order, empty or with the kind that its
/// result counts as.
///
/// Contracts see the rule and the list of cells. Ranks count from 1.
#[derive(Drop)]
pub struct Row {
    rule: Rule,
    extremes: Extremes,
    best: Option<Best>,
    first_empty: u16,
    cells: Cells,
}

impl Model for Row {
    ghost use Rattle.lazy_stop.specs.RowValue.{RowValue};

    ghost Value = { RowValue };

    ghost use Rattle.lazy_stop.specs.RowShape.{row_value, IsRowShape};

    ghost view = { row_value };

    ghost invariant = { IsRowShape };
}

/// What became of a result.
#[derive(Clone, Copy, Debug, PartialEq, Eq)]
pub enum Put {
    /// The cell was empty, and now holds the result.
    First,
    /// The cell held this kind, whether the result equals it or not, and still does.
    Kept(Kind),
}

impl Row {
    /// A row of n empty cells. The farm's rows have at most 1,000, and a broken submission's has none.
    pub fn new(alloc: Global, rule: Rule, n: u16) -> Result<Row, NoMemory>
        ensures { IfOk result (λ row. row ≡ record { rule = rule; cells = replicate n None }) }
    {
        let cells = Cells::new(alloc, n)?;
        let extremes = extremes_of(&rule);
        Ok(Row {
            rule,
            extremes,
            best: None,
            first_empty: 0,
            cells,
        })
    }

    /// Fills the cell of a test where it is empty. A cell that holds a kind keeps it.
    ///
    /// The kind is one that results count as, after `Rule::remap`; `remapped_is_possible` says so of
    /// it. Over all calls the row is walked at most once.
    pub fn put(&mut self, rank: u16, kind: Kind) -> Put
        requires low { 0 < rank }
        requires high { rank ≤ length self.old.cells }
        requires possible { IsPossible self.old.rule kind }
        ensures first { slice_get self.old.cells (rank - 1) ≡ Some None
            → (result ≡ Put.First) × (self.new ≡ record self.old { cells = slice_set self.old.cells (rank - 1) (Some kind) }) }
        ensures kept { (kept : Kind) → slice_get self.old.cells (rank - 1) ≡ Some (Some kept)
            → (result ≡ Put.Kept kept) × (self.new ≡ self.old) }
        ensures same_rule { self.new.rule ≡ self.old.rule }
    {
        let at = rank - 1;
        if let Some(kept) = self.cells.get(at) {
            return Put::Kept(kept);
        }
        self.cells.fill(at, kind);
        self.best = Some(best_with(&self.rule, self.best, kind, at));
        self.first_empty = first_empty(&self.cells, self.first_empty);
        Put::First
    }

    /// What the cell of a test holds. None where it is empty.
    pub fn cell(&self, rank: u16) -> Option<Kind>
        requires low { 0 < rank }
        requires high { rank ≤ length self.now.cells }
        ensures { slice_get self.now.cells (rank - 1) ≡ Some result }
    {
        self.cells.get(rank - 1)
    }

    /// Whether the result of this test, whose cell is empty, can decide the verdict: two ways to fill
    /// the empty cells that differ here alone have different verdicts. Lazy judging runs no other test.
    pub fn matters(&self, rank: u16) -> bool
        requires low { 0 < rank }
        requires empty { slice_get self.now.cells (rank - 1) ≡ Some None }
        ensures { result ≡ matters self.now.rule self.now.cells rank }
    {
        rank as usize <= self.matters_up_to()
    }

    /// The rank up to which empty cells matter: each of this rank or a lesser one does, and none of a
    /// greater rank. 0 where none matters.
    pub fn matters_up_to(&self) -> usize
        ensures { (rank : ℕ) → 1 ≤ rank → slice_get self.now.cells (rank - 1) ≡ Some None
            → matters self.now.rule self.now.cells rank ≡ nat_le rank result }
    {
        matters_before(&self.rule, self.extremes, self.best, self.cells.len()) as usize
    }

    /// What is reported of the judging. Lazily, `Final` comes as soon as no outcome of the empty cells can
    /// change the verdict, and in full mode once no cell is empty.
    pub fn answer(&self, mode: Mode) -> Answer
        requires { 0 < length self.now.cells }
        ensures { result ≡ answer_of self.now.rule mode self.now.cells }
    {
        if self.first_empty == self.cells.len() {
            return Answer::Final(Verdict::Tests(deciding_kind(self.extremes, self.best)));
        }
        match mode {
            Mode::Full => return Answer::Pending,
            Mode::Lazy => {}
        }
        // where any empty cell matters, the first one does
        let end = matters_before(&self.rule, self.extremes, self.best, self.cells.len());
        if self.first_empty < end {
            return Answer::Pending;
        }
        Answer::Final(Verdict::Tests(deciding_kind(self.extremes, self.best)))
    }
}

/// The better of the best cell so far and a cell that was filled.
fn best_with(rule: &Rule, best: Option<Best>, kind: Kind, at: u16) -> Best
    ensures { (cells : List (Option Kind)) → slice_get cells at ≡ Some None → BestIs rule.now cells best
        → BestIs rule.now (slice_set cells at (Some kind)) (Some result) }
{
    match best {
        None => Best { kind, at },
        Some(best) => {
            let (old, new) = (rule.prio(best.kind), rule.prio(kind));
            if old < new || (old == new && at < best.at) {
                Best { kind, at }
            } else {
                best
            }
        }
    }
}

/// The place of the first empty cell, at this place or behind it. The row's length where none is.
fn first_empty(cells: &Cells, from: u16) -> u16
    requires within { from ≤ length cells.now }
    requires filled { (i : ℕ) → i < from → slice_get cells.now i ≢ Some None }
    ensures { IsFirstEmpty cells.now result }
{
    let mut at = from;
    while at < cells.len() {
        if cells.get(at).is_none() {
            return at;
        }
        at += 1;
    }
    at
}

/// The place before which each empty cell matters, and from which on none does.
///
/// Where all possible kinds have one priority, the first cell decides alone. Else each empty cell matters
/// while the best one is below the greatest priority, and after that those before the best one, where they
/// could tie with it by another kind.
fn matters_before(rule: &Rule, extremes: Extremes, best: Option<Best>, tests: u16) -> u16
    // of each row of which these are kept
    ensures { (cells : List (Option Kind)) (first_empty at : ℕ) → IsRow rule.now extremes best first_empty cells
        → length cells ≡ tests → slice_get cells at ≡ Some None → IsTrue (nat_lt at result) ↔ Matters rule.now cells at }
{
    if rule.prio(extremes.least) == rule.prio(extremes.greatest) {
        return u16::from(extremes.rival.is_some());
    }
    let Some(best) = best else {
        return tests;
    };
    if rule.prio(best.kind) < rule.prio(extremes.greatest) {
        return tests;
    }
    match extremes.rival {
        Some(_) => best.at,
        None => 0,
    }
}

/// The verdict, where one is settled. With no filled cell only the sole possible kind can be.
fn deciding_kind(extremes: Extremes, best: Option<Best>) -> Kind
    ensures { (rule : RuleValue) (cells : List (Option Kind)) (first_empty : ℕ) (v : Kind)
        → IsRow rule extremes best first_empty cells → 0 < length cells → IsTrue (is_settled rule cells v) → result ≡ v }
{
    match best {
        None => extremes.greatest,
        Some(best) => best.kind,
    }
}
