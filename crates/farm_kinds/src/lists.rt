ghost use Rattle.std.specs.Prelude.{◌≡◌, ◌++◌, ◌∷◌, [], ℕ, List, OnOk, OnErr};

use crate::outcomes::{Answer, MatrixRow, NamedMode, NoMemory, TableRow};
use std::alloc::Global;
use std::marker::Model;

/// Bytes, as of a file or of a name in a folder. Contracts see a list.
#[derive(Debug, Drop)]
pub struct Text {
    bytes: Vec<u8>,
}

impl Model for Text {
    ghost Value = { List ℕ };

    ghost view = { λ t. t.bytes.items };
}

impl Text {
    /// No bytes.
    pub fn new(alloc: Global) -> Text
        ensures { result ≡ [] }
    {
        Text {
            bytes: Vec::new(alloc),
        }
    }

    /// The bytes of a vector, without taking memory.
    pub fn from_vec(bytes: Vec<u8>) -> Text
        ensures { result ≡ bytes.items }
    {
        Text { bytes }
    }

    /// Gives the bytes back, without taking memory.
    pub fn into_vec(self) -> Vec<u8>
        ensures { result.items ≡ self }
    {
        self.bytes
    }

    /// Adds a byte at the end. At `NoMemory` nothing changes.
    pub fn push(&mut self, byte: u8) -> Result<(), NoMemory>
        ensures ok { OnOk result (self.new ≡ self.old ++ byte ∷ []) }
        ensures err { OnErr result (self.new ≡ self.old) }
    {
        self.bytes.push(byte).map_err(|_| NoMemory)
    }

    /// The bytes in order.
    pub fn as_slice(&self) -> &[u8]
        ensures { result.now ≡ self.now }
    {
        self.bytes.as_slice()
    }
}

/// Numbers, in the order in which they were given. Contracts see a list.
#[derive(Debug, Drop)]
pub struct Numbers {
    numbers: Vec<u32>,
}

impl Model for Numbers {
    ghost Value = { List ℕ };

    ghost view = { λ t. t.numbers.items };
}

impl Numbers {
    /// No numbers.
    pub fn new(alloc: Global) -> Numbers
        ensures { result ≡ [] }
    {
        Numbers {
            numbers: Vec::new(alloc),
        }
    }

    /// The numbers of a vector, without taking memory.
    pub fn from_vec(numbers: Vec<u32>) -> Numbers
        ensures { result ≡ numbers.items }
    {
        Numbers { numbers }
    }

    /// Gives the numbers back, without taking memory.
    pub fn into_vec(self) -> Vec<u32>
        ensures { result.items ≡ self }
    {
        self.numbers
    }

    /// Adds a number at the end. At `NoMemory` nothing changes.
    pub fn push(&mut self, number: u32) -> Result<(), NoMemory>
        ensures ok { OnOk result (self.new ≡ self.old ++ number ∷ []) }
        ensures err { OnErr result (self.new ≡ self.old) }
    {
        self.numbers.push(number).map_err(|_| NoMemory)
    }

    /// The numbers in order.
    pub fn as_slice(&self) -> &[u32]
        ensures { result.now ≡ self.now }
    {
        self.numbers.as_slice()
    }
}

/// Answers, one for each submission from the first on. Contracts see a list.
#[derive(Debug, Drop)]
pub struct Answers {
    answers: Vec<Answer>,
}

impl Model for Answers {
    ghost use Rattle.std.specs.Prelude.{List};
    ghost use Rattle.farm_kinds.specs.declared.outcomes.Answer.{Answer};

    ghost Value = { List Answer };

    ghost view = { λ t. t.answers.items };
}

impl Answers {
    /// No answers.
    pub fn new(alloc: Global) -> Answers
        ensures { result ≡ [] }
    {
        Answers {
            answers: Vec::new(alloc),
        }
    }

    /// The answers of a vector, without taking memory.
    pub fn from_vec(answers: Vec<Answer>) -> Answers
        ensures { result ≡ answers.items }
    {
        Answers { answers }
    }

    /// Gives the answers back, without taking memory.
    pub fn into_vec(self) -> Vec<Answer>
        ensures { result.items ≡ self }
    {
        self.answers
    }

    /// Adds an answer at the end. At `NoMemory` nothing changes.
    pub fn push(&mut self, answer: Answer) -> Result<(), NoMemory>
        ensures ok { OnOk result (self.new ≡ self.old ++ answer ∷ []) }
        ensures err { OnErr result (self.new ≡ self.old) }
    {
        self.answers.push(answer).map_err(|_| NoMemory)
    }

    /// The answers in order.
    pub fn as_slice(&self) -> &[Answer]
        ensures { result.now ≡ self.now }
    {
        self.answers.as_slice()
    }
}

/// The rows of a rejudging's matrix. Contracts see a list.
#[derive(Debug, Drop)]
pub struct MatrixRows {
    rows: Vec<MatrixRow>,
}

impl Model for MatrixRows {
    ghost use Rattle.std.specs.Prelude.{List};
    ghost use Rattle.farm_kinds.specs.declared.outcomes.MatrixRow.{MatrixRow};

    ghost Value = { List MatrixRow };

    ghost view = { λ t. t.rows.items };
}

impl MatrixRows {
    /// No rows.
    pub fn new(alloc: Global) -> MatrixRows
        ensures { result ≡ [] }
    {
        MatrixRows {
            rows: Vec::new(alloc),
        }
    }

    /// The rows of a vector, without taking memory.
    pub fn from_vec(rows: Vec<MatrixRow>) -> MatrixRows
        ensures { result ≡ rows.items }
    {
        MatrixRows { rows }
    }

    /// Gives the rows back, without taking memory.
    pub fn into_vec(self) -> Vec<MatrixRow>
        ensures { result.items ≡ self }
    {
        self.rows
    }

    /// Adds a row at the end. At `NoMemory` nothing changes.
    pub fn push(&mut self, row: MatrixRow) -> Result<(), NoMemory>
        ensures ok { OnOk result (self.new ≡ self.old ++ row ∷ []) }
        ensures err { OnErr result (self.new ≡ self.old) }
    {
        self.rows.push(row).map_err(|_| NoMemory)
    }

    /// The rows in order.
    pub fn as_slice(&self) -> &[MatrixRow]
        ensures { result.now ≡ self.now }
    {
        self.rows.as_slice()
    }
}

/// The rows of a table of verdicts. Contracts see a list.
#[derive(Debug, Drop)]
pub struct TableRows {
    rows: Vec<TableRow>,
}

impl Model for TableRows {
    ghost use Rattle.std.specs.Prelude.{List};
    ghost use Rattle.farm_kinds.specs.declared.outcomes.TableRow.{TableRow};

    ghost Value = { List TableRow };

    ghost view = { λ t. t.rows.items };
}

impl TableRows {
    /// No rows.
    pub fn new(alloc: Global) -> TableRows
        ensures { result ≡ [] }
    {
        TableRows {
            rows: Vec::new(alloc),
        }
    }

    /// The rows of a vector, without taking memory.
    pub fn from_vec(rows: Vec<TableRow>) -> TableRows
        ensures { result ≡ rows.items }
    {
        TableRows { rows }
    }

    /// Gives the rows back, without taking memory.
    pub fn into_vec(self) -> Vec<TableRow>
        ensures { result.items ≡ self }
    {
        self.rows
    }

    /// Adds a row at the end. At `NoMemory` nothing changes.
    pub fn push(&mut self, row: TableRow) -> Result<(), NoMemory>
        ensures ok { OnOk result (self.new ≡ self.old ++ row ∷ []) }
        ensures err { OnErr result (self.new ≡ self.old) }
    {
        self.rows.push(row).map_err(|_| NoMemory)
    }

    /// The rows in order.
    pub fn as_slice(&self) -> &[TableRow]
        ensures { result.now ≡ self.now }
    {
        self.rows.as_slice()
    }
}

/// The modes of problems by their names, in the order in which they were given. Contracts see a list.
#[derive(Debug, Drop)]
pub struct Modes {
    modes: Vec<NamedMode>,
}

impl Model for Modes {
    ghost use Rattle.std.specs.Prelude.{List};
    ghost use Rattle.farm_kinds.specs.declared.outcomes.NamedMode.{NamedMode};

    ghost Value = { List NamedMode };

    ghost view = { λ t. t.modes.items };
}

impl Modes {
    /// No modes.
    pub fn new(alloc: Global) -> Modes
        ensures { result ≡ [] }
    {
        Modes {
            modes: Vec::new(alloc),
        }
    }

    /// The modes of a vector, without taking memory.
    pub fn from_vec(modes: Vec<NamedMode>) -> Modes
        ensures { result ≡ modes.items }
    {
        Modes { modes }
    }

    /// Gives the modes back, without taking memory.
    pub fn into_vec(self) -> Vec<NamedMode>
        ensures { result.items ≡ self }
    {
        self.modes
    }

    /// Adds a mode at the end. At `NoMemory` nothing changes.
    pub fn push(&mut self, mode: NamedMode) -> Result<(), NoMemory>
        ensures ok { OnOk result (self.new ≡ self.old ++ mode ∷ []) }
        ensures err { OnErr result (self.new ≡ self.old) }
    {
        self.modes.push(mode).map_err(|_| NoMemory)
    }

    /// The modes in order.
    pub fn as_slice(&self) -> &[NamedMode]
        ensures { result.now ≡ self.now }
    {
        self.modes.as_slice()
    }
}
