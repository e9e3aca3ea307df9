ghost use Rattle.std.specs.Prelude.{◌≡◌, ◌<◌, ℕ, None, Some, IfOk, length, replicate, slice_get, slice_set};
ghost use Rattle.lazy_stop.specs.CellKinds.{kind_in};

use farm_kinds::{Kind, NoMemory};
use std::alloc::Global;
use std::marker::Model;

/// A cell in one byte: an `Option<Kind>` takes two.
#[derive(Clone, Copy, Debug)]
pub enum Cell {
    Empty,
    Correct,
    WrongAnswer,
    RunError,
    TimeLimit,
    NoOutput,
    OutputLimit,
    MemoryLimit,
    JudgingError,
}

impl Cell {
    /// The cell that holds the kind.
    fn filled(kind: Kind) -> Cell
        ensures { kind_in result ≡ Some kind }
    {
        match kind {
            Kind::Correct => Cell::Correct,
            Kind::WrongAnswer => Cell::WrongAnswer,
            Kind::RunError => Cell::RunError,
            Kind::TimeLimit => Cell::TimeLimit,
            Kind::NoOutput => Cell::NoOutput,
            Kind::OutputLimit => Cell::OutputLimit,
            Kind::MemoryLimit => Cell::MemoryLimit,
            Kind::JudgingError => Cell::JudgingError,
        }
    }

    /// What the cell holds.
    fn kind(self) -> Option<Kind>
        ensures { result ≡ kind_in self }
    {
        match self {
            Cell::Empty => None,
            Cell::Correct => Some(Kind::Correct),
            Cell::WrongAnswer => Some(Kind::WrongAnswer),
            Cell::RunError => Some(Kind::RunError),
            Cell::TimeLimit => Some(Kind::TimeLimit),
            Cell::NoOutput => Some(Kind::NoOutput),
            Cell::OutputLimit => Some(Kind::OutputLimit),
            Cell::MemoryLimit => Some(Kind::MemoryLimit),
            Cell::JudgingError => Some(Kind::JudgingError),
        }
    }
}

/// The cells of a judging, a byte each. Contracts see a list of what they hold.
///
/// There are at most 2^16 - 1 of them, so that a place takes two bytes.
#[derive(Drop)]
pub struct Cells {
    cells: Vec<Cell>,
}

impl Model for Cells {
    ghost use Rattle.std.specs.Prelude.{◌<◌, ◌^◌, length};
    ghost use Rattle.lazy_stop.specs.CellKinds.{kinds_in};
    ghost use Rattle.farm_model.specs.Rows.{Row};

    ghost Value = { Row };

    ghost view = { λ c. kinds_in c.cells.items };

    ghost invariant = { λ c. length c.cells.items < 2 ^ 16 };
}

impl Cells {
    /// `count` empty cells.
    pub fn new(alloc: Global, count: u16) -> Result<Cells, NoMemory>
        ensures { IfOk result (λ cells. cells ≡ replicate count None) }
    {
        let cells = vec![in alloc; Cell::Empty; count as usize].map_err(|_| NoMemory)?;
        Ok(Cells { cells })
    }

    /// How many cells there are.
    pub fn len(&self) -> u16
        ensures { result ≡ length self.now }
    {
        self.cells.len() as u16
    }

    /// What the cell at the place holds.
    pub fn get(&self, at: u16) -> Option<Kind>
        requires { at < length self.now }
        ensures { slice_get self.now at ≡ Some result }
    {
        self.cells[at as usize].kind()
    }

    /// Puts the kind into the cell at the place.
    pub fn fill(&mut self, at: u16, kind: Kind)
        requires { at < length self.old }
        ensures { self.new ≡ slice_set self.old at (Some kind) }
    {
        self.cells[at as usize] = Cell::filled(kind);
    }
}
