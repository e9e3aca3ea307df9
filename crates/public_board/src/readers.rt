ghost use Rattle.std.specs.Prelude.{◌≡◌, ◌≢◌, ◌⊎◌, ◌≤◌, ◌-◌, ◌++◌, ◌∷◌, [], max, MatchResult, IsNone, IfSome, ◌↔◌, replicate, ℕ};
ghost use Rattle.std.specs.Option.{option_to_list};
ghost use Rattle.left_right.specs.Sides.{view};
ghost use Rattle.public_board.specs.Reading.{LooksAt, SeesRows, SeesNewer, SeesRow};
ghost use Rattle.public_board.specs.Values.{ReaderValue, with_note, Looks, Gives, GivesNewer, GivesRow};

use crate::publisher::Note;
use crate::row::Row;
use crate::rule::{Look, Publication, RowsReader};
use farm_kinds::NoMemory;
use std::alloc::Global;
use std::marker::Model;

/// A version: its number, of which the first one's is 1, and its rows.
#[derive(Drop)]
pub struct Version<R> {
    pub number: u64,
    pub rows: Vec<R>,
}

/// The rows of the last version, where there are at least `told` versions.
fn read_rows<R: Row, J: Publication<R>>(
    alloc: Global,
    reader: RowsReader<R, J>,
    told: u64,
) -> (RowsReader<R, J>, Result<Vec<R>, NoMemory>)
    requires { (view reader.place).told ≢ [] }
    ensures { MatchResult result.1 (λ rows. SeesRows J.allows (view reader.place) (view result.0.place) told rows.items) (λ _. LooksAt (view reader.place) (view result.0.place)) }
{
    match reader.enter_as::<Look<R, J>>() {
        Ok(reading) => {
            let rows = Vec::from_slice(alloc, reading.get().rows.as_slice());
            let count = reading.get().count;
            let reader = reading.leave();
            match rows {
                Ok(rows) if told <= count => (reader, Ok(rows)),
                _ => (reader, Err(NoMemory)),
            }
        }
        Err(reader) => (reader, Err(NoMemory)),
    }
}

/// The last version, where there are at least `told` versions, or none where its number is `known`.
fn read_newer<R: Row, J: Publication<R>>(
    alloc: Global,
    reader: RowsReader<R, J>,
    told: u64,
    known: u64,
) -> (RowsReader<R, J>, Result<Option<Version<R>>, NoMemory>)
    requires { (view reader.place).told ≢ [] }
    ensures { MatchResult result.1 (λ newer. SeesNewer J.allows (view reader.place) (view result.0.place) told known newer) (λ _. LooksAt (view reader.place) (view result.0.place)) }
{
    match reader.enter_as::<Look<R, J>>() {
        Ok(reading) => {
            let number = reading.get().count;
            if number < told {
                return (reading.leave(), Err(NoMemory));
            }
            if number == known {
                return (reading.leave(), Ok(None));
            }
            let rows = Vec::from_slice(alloc, reading.get().rows.as_slice());
            let reader = reading.leave();
            match rows {
                Ok(rows) => (reader, Ok(Some(Version { number, rows }))),
                Err(_) => (reader, Err(NoMemory)),
            }
        }
        Err(reader) => (reader, Err(NoMemory)),
    }
}

/// The row `number` of the last version, where there are at least `told` versions.
fn read_row<R: Row, J: Publication<R>>(
    reader: RowsReader<R, J>,
    told: u64,
    number: u32,
) -> (RowsReader<R, J>, Result<R, NoMemory>)
    requires first { (view reader.place).told ≢ [] }
    requires number { (1 ≤ number) × (number ≤ (view reader.place).least) }
    ensures { MatchResult result.1 (λ row. SeesRow J.allows (view reader.place) (view result.0.place) told (number - 1) row) (λ _. LooksAt (view reader.place) (view result.0.place)) }
{
    match reader.enter_as::<Look<R, J>>() {
        Ok(reading) => {
            let row = reading.get().rows[(number - 1) as usize];
            let count = reading.get().count;
            let reader = reading.leave();
            if told <= count {
                return (reader, Ok(row));
            }
            (reader, Err(NoMemory))
        }
        Err(reader) => (reader, Err(NoMemory)),
    }
}

/// Reads the published rows without waiting. Contracts see the versions that it has seen, of how many it was told, and how
/// many rows each has at least.
#[derive(Drop)]
pub struct Reader<R: Row, J: Publication<R>> {
    pub(crate) reader: Option<RowsReader<R, J>>,
    pub(crate) told: u64,
}

impl<R: Row, J: Publication<R>> Model for Reader<R, J> {
    ghost use Rattle.std.specs.Prelude.{◌≢◌, [], IsSome, IfSome};
    ghost use Rattle.std.specs.Option.{option_map, unwrap_or};
    ghost use Rattle.left_right.specs.Sides.{view as known_at};
    ghost use Rattle.public_board.specs.Values.{ReaderValue, reader_of, nobody};

    ghost Value = { ReaderValue R };

    ghost view = { λ r. unwrap_or (option_map (λ x. reader_of (known_at x.place) r.told) r.reader) nobody };

    ghost invariant = { λ r. IsSome r.reader × IfSome r.reader (λ x. (known_at x.place).told ≢ []) };
}

impl<R: Row, J: Publication<R>> Reader<R, J> {
    /// From now on this reader gives no version before the one that the note tells of.
    pub fn learn(&mut self, note: &Note)
        ensures { self.new ≡ with_note self.old note.now.number }
    {
        self.told = self.told.max(note.number);
    }

    /// The rows of one published version, which is not before any that this reader gave or was told of. It waits for
    /// nobody. `NoMemory` comes for want of memory, and once the publisher has ended: then it may have seen more versions,
    /// and gives none.
    pub fn rows(&mut self, alloc: Global) -> Result<Vec<R>, NoMemory>
        ensures { MatchResult result (λ rows. Gives J.allows self.old self.new rows.items) (λ _. Looks self.old self.new) }
    {
        let Some(reader) = self.reader.take() else {
            unreachable!()
        };
        let (reader, rows) = read_rows(alloc, reader, self.told);
        self.reader = Some(reader);
        rows
    }

    /// A version as `rows` gives it, with its number. None where that is the number of the version that the caller has: then
    /// nothing newer is published, and no row is read.
    pub fn newer(&mut self, alloc: Global, known: u64) -> Result<Option<Version<R>>, NoMemory>
        ensures { MatchResult result (λ newer. GivesNewer J.allows self.old self.new known newer) (λ _. Looks self.old self.new) }
    {
        let Some(reader) = self.reader.take() else {
            unreachable!()
        };
        let (reader, newer) = read_newer(alloc, reader, self.told, known);
        self.reader = Some(reader);
        newer
    }

    /// The row of one number, counted from 1, in one published version: as `rows` gives it. The number is one that each
    /// version has, from the first on.
    pub fn row(&mut self, number: u32) -> Result<R, NoMemory>
        requires number { (1 ≤ number) × (number ≤ self.old.least) }
        ensures { MatchResult result (λ row. GivesRow J.allows self.old self.new (number - 1) row) (λ _. Looks self.old self.new) }
    {
        let Some(reader) = self.reader.take() else {
            unreachable!()
        };
        let (reader, row) = read_row(reader, self.told, number);
        self.reader = Some(reader);
        row
    }
}

/// The readers that were not taken yet. Contracts see a list.
#[derive(Drop)]
pub struct Readers<R: Row, J: Publication<R>> {
    pub(crate) readers: Vec<Reader<R, J>>,
}

impl<R: Row, J: Publication<R>> Model for Readers<R, J> {
    ghost use Rattle.std.specs.Prelude.{List};
    ghost use Rattle.public_board.specs.Values.{ReaderValue};

    ghost Value = { List (ReaderValue R) };

    ghost view = { λ r. r.readers.items };
}

impl<R: Row, J: Publication<R>> Readers<R, J> {
    /// A reader. None where all were taken.
    pub fn take(&mut self) -> Option<Reader<R, J>>
        ensures takes { self.old ≡ self.new ++ option_to_list result }
        ensures none { IsNone result ↔ (self.old ≡ []) }
        ensures same { (n : ℕ) (r : ReaderValue R) → self.old ≡ replicate n r → IfSome result (λ x. (x ≡ r) × (self.new ≡ replicate (n - 1) r)) }
    {
        self.readers.pop()
    }

    /// Puts a reader back, for another thread to take it. There is room for all that were taken: without room it is let go.
    pub fn put(&mut self, reader: Reader<R, J>)
        ensures puts { (self.new ≡ self.old ++ reader ∷ []) ⊎ (self.new ≡ self.old) }
    {
        let _kept = self.readers.push(reader);
    }
}
