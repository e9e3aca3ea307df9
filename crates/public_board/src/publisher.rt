ghost use Rattle.std.specs.Prelude.{◌≡◌, ◌≢◌, ◌+◌, ◌^◌, ◌<◌, ◌≤◌, [], ◌∷◌, ◌++◌, length, drop, IfOk, MatchResult, replicate};
ghost use Rattle.left_right.specs.Sides.{view};
ghost use Rattle.public_board.specs.Versions.{last_of, newcomer};
ghost use Rattle.public_board.specs.Values.{IsUpToDate, HasPublished, new_reader};

use crate::readers::{Reader, Readers};
use crate::row::{Row, same_rows};
use crate::rows::{Change, Rows, Shown};
use crate::rule::{Notes, Publication, Published, Replace, RowsWriter, View};
use crossbeam_utils::rule::Protocol;
use farm_kinds::NoMemory;
use left_right::Absorb;
use left_right::writer::Writer;
use std::alloc::Global;
use std::marker::Model;
use std::mem;
use std::sync::Wait;

/// A version, by its number: the first one is 1.
#[derive(Clone, Copy, Debug, PartialEq, Eq)]
pub struct Note {
    pub number: u64,
}

/// Makes the rows the next version.
fn show_rows<R: Row, J: Publication<R>, W: Wait>(
    rt: &W,
    mut writer: RowsWriter<R, J>,
    rows: Vec<R>,
) -> (RowsWriter<R, J>, Result<(), NoMemory>)
    requires current { IsUpToDate (view writer.desk.place) writer.desk.shown.value.rows.items writer.desk.shown.value.count (drop writer.behind writer.log.items) }
    requires room { length rows.items ≤ writer.desk.shown.value.room }
    requires count { writer.desk.shown.value.count + 1 < 2 ^ 64 }
    requires long { length writer.desk.shown.value.rows.items ≤ length rows.items }
    requires allowed { J.allows ((view writer.desk.place).seen ++ rows.items ∷ []) }
    ensures versions { MatchResult result.1 (λ _. (view result.0.desk.place).seen ≡ (view writer.desk.place).seen ++ rows.items ∷ []) (λ _. (view result.0.desk.place).seen ≡ (view writer.desk.place).seen) }
    ensures current { IsUpToDate (view result.0.desk.place) result.0.desk.shown.value.rows.items result.0.desk.shown.value.count (drop result.0.behind result.0.log.items) }
{
    if writer.append(Change { rows }).is_err() {
        return (writer, Err(NoMemory));
    }
    let (writer, _shown) = writer.publish_as::<Replace, W>(rt);
    (writer, Ok(()))
}

/// Makes the rows the next version, unless they are those of the last one.
fn publish_rows<R: Row, J: Publication<R>, W: Wait>(
    rt: &W,
    alloc: Global,
    writer: RowsWriter<R, J>,
    now: &[R],
) -> (RowsWriter<R, J>, Result<(), NoMemory>)
    requires current { IsUpToDate (view writer.desk.place) writer.desk.shown.value.rows.items writer.desk.shown.value.count (drop writer.behind writer.log.items) }
    requires long { length (last_of (view writer.desk.place).seen) ≤ length now.now }
    requires allowed { J.allows ((view writer.desk.place).seen ++ now.now ∷ []) }
    ensures versions { MatchResult result.1 (λ _. HasPublished (view writer.desk.place).seen (view result.0.desk.place).seen now.now) (λ _. (view result.0.desk.place).seen ≡ (view writer.desk.place).seen) }
    ensures current { IsUpToDate (view result.0.desk.place) result.0.desk.shown.value.rows.items result.0.desk.shown.value.count (drop result.0.behind result.0.log.items) }
{
    let published = writer.published();
    if same_rows(published.rows.as_slice(), now) {
        return (writer, Ok(()));
    }
    if now.len() > published.room || published.count == u64::MAX {
        return (writer, Err(NoMemory));
    }
    match Vec::from_slice(alloc, now) {
        Ok(rows) => show_rows(rt, writer, rows),
        Err(_) => (writer, Err(NoMemory)),
    }
}

/// No rows, with room for `room` rows.
fn no_rows<R: Row>(alloc: Global, room: usize) -> Result<Rows<R>, NoMemory>
    ensures { IfOk result (λ rows. (rows.rows.items ≡ []) × (rows.count ≡ 0) × (rows.room ≡ room)) }
{
    let rows = Vec::with_capacity(alloc, room)?;
    Ok(Rows {
        rows,
        count: 0,
        room,
    })
}

/// A writer that has published nothing, with room for `room` rows and `readers` readers.
fn new_writer<R: Row, J: Publication<R>>(
    alloc: Global,
    room: usize,
    readers: u16,
) -> Result<RowsWriter<R, J>, NoMemory>
    requires some { 0 < readers }
    requires allowed { J.allows [] }
    ensures view { IfOk result (λ w. view w.desk.place ≡ newcomer) }
    ensures current { IfOk result (λ w. IsUpToDate (view w.desk.place) w.desk.shown.value.rows.items w.desk.shown.value.count (drop w.behind w.log.items)) }
    ensures room { IfOk result (λ w. (w.desk.shown.value.room ≡ room) × (w.desk.shown.value.count ≡ 0) × (w.desk.shown.value.rows.items ≡ [])) }
{
    let first = no_rows(alloc, room)?;
    let second = no_rows(alloc, room)?;
    Ok(Writer::new(alloc, first, second, usize::from(readers))?)
}

/// A reader that knows what was published.
fn new_reader<R: Row, J: Publication<R>>(
    writer: &mut RowsWriter<R, J>,
) -> Result<Reader<R, J>, NoMemory>
    requires some { (view writer.old.desk.place).seen ≢ [] }
    requires current { IsUpToDate (view writer.old.desk.place) writer.old.desk.shown.value.rows.items writer.old.desk.shown.value.count (drop writer.old.behind writer.old.log.items) }
    ensures kept { (view writer.new.desk.place ≡ view writer.old.desk.place) × (writer.new.desk.shown ≡ writer.old.desk.shown) }
    ensures current { IsUpToDate (view writer.new.desk.place) writer.new.desk.shown.value.rows.items writer.new.desk.shown.value.count (drop writer.new.behind writer.new.log.items) }
    ensures reader { IfOk result (λ r. r ≡ new_reader (view writer.old.desk.place).seen) }
{
    let told = writer.published().count;
    let Ok(mut reader) = writer.factory().reader() else {
        return Err(NoMemory);
    };
    reader.learn::<Notes>(writer.tell::<Notes>());
    Ok(Reader {
        reader: Some(reader),
        told,
    })
}

/// As many readers as `readers` says, which know what was published.
fn new_readers<R: Row, J: Publication<R>>(
    alloc: Global,
    writer: &mut RowsWriter<R, J>,
    readers: u16,
) -> Result<Readers<R, J>, NoMemory>
    requires some { (view writer.old.desk.place).seen ≢ [] }
    requires current { IsUpToDate (view writer.old.desk.place) writer.old.desk.shown.value.rows.items writer.old.desk.shown.value.count (drop writer.old.behind writer.old.log.items) }
    ensures kept { view writer.new.desk.place ≡ view writer.old.desk.place }
    ensures current { IsUpToDate (view writer.new.desk.place) writer.new.desk.shown.value.rows.items writer.new.desk.shown.value.count (drop writer.new.behind writer.new.log.items) }
    ensures readers { IfOk result (λ all. all ≡ replicate readers (new_reader (view writer.old.desk.place).seen)) }
{
    let mut all = Vec::with_capacity(alloc, usize::from(readers))?;
    for _ in 0..readers {
        match new_reader(writer) {
            Ok(reader) => all.push_reserved(reader),
            Err(_) => return Err(NoMemory),
        }
    }
    Ok(Readers { readers: all })
}

/// A publisher of the rows `first`, and `readers` readers, each of which was told of them. There is room for `most`
/// rows, or for `first` where it has more; a version of more rows is answered `NoMemory` later.
pub fn open<R: Row, J: Publication<R>, W: Wait>(
    rt: &W,
    alloc: Global,
    first: &[R],
    most: u32,
    readers: u16,
) -> Result<(Publisher<R, J>, Readers<R, J>), NoMemory>
    requires some { 0 < readers }
    requires allowed { J.allows [] × J.allows (first.now ∷ []) }
    ensures publisher { IfOk result (λ r. r.0 ≡ first.now ∷ []) }
    ensures readers { IfOk result (λ r. r.1 ≡ replicate readers (new_reader (first.now ∷ []))) }
{
    let rows = Vec::from_slice(alloc, first)?;
    let room = rows.len().max(most as usize);
    let writer = new_writer(alloc, room, readers)?;
    let (mut writer, shown) = show_rows(rt, writer, rows);
    if shown.is_err() {
        drop(writer.take(rt));
        return Err(NoMemory);
    }
    match new_readers(alloc, &mut writer, readers) {
        Ok(all) => Ok((
            PublisherOf {
                writer: Some(writer),
            },
            all,
        )),
        Err(_) => {
            drop(writer.take(rt));
            Err(NoMemory)
        }
    }
}

/// Publishes rows. Contracts see the versions so far. It is not `Drop`: end it by `end`.
pub type Publisher<R, J> = PublisherOf<R, Rows<R>, Change<R>, Published<R, J>>;

/// `Publisher`, for any type of the copies and of what changes them.
pub struct PublisherOf<R, T: Absorb<O, State = Shown<R>> + Drop, O: Drop, P: Protocol<T, View<R>>> {
    writer: Option<Writer<T, O, View<R>, P>>,
}

impl<R, T: Absorb<O, State = Shown<R>> + Drop, O: Drop, P: Protocol<T, View<R>>> Model
    for PublisherOf<R, T, O, P> {
    ghost use Rattle.std.specs.Prelude.{List, [], drop, IsSome, IfSome};
    ghost use Rattle.std.specs.Option.{option_map, unwrap_or};
    ghost use Rattle.left_right.specs.Sides.{view as known_at};
    ghost use Rattle.public_board.specs.declared.rows.Shown.{Shown as PlainRows};
    ghost use Rattle.public_board.specs.declared.rule.View.{View as Known};
    ghost use Rattle.public_board.specs.Values.{IsUpToDate};

    ghost Value = { List (List R) };

    ghost view = { λ p. unwrap_or (option_map (λ w. let v : Known R = known_at w.desk.place in v.seen) p.writer) [] };

    ghost invariant = { λ p. IsSome p.writer × IfSome p.writer (λ w. let s : PlainRows R = T.state w.desk.shown.value in
        IsUpToDate (known_at w.desk.place) s.rows s.count (drop w.behind w.log.items)) };
}

impl<R: Row, J: Publication<R>> Publisher<R, J> {
    /// Publishes the rows as the next version, as one change, or nothing where they are those of the last one. The note
    /// tells of the last version. At `NoMemory` nothing is published, now or later. It comes for want of memory, and where
    /// there are more rows than `open` made room for. It waits for readers that are within a call.
    #[tactic(auto, using(crate::proofs::Publishing::published_last))]
    pub fn publish<W: Wait>(&mut self, rt: &W, alloc: Global, now: &[R]) -> Result<Note, NoMemory>
        requires long { length (last_of self.old) ≤ length now.now }
        requires allowed { J.allows (self.old ++ now.now ∷ []) }
        ensures versions { MatchResult result (λ _. HasPublished self.old self.new now.now) (λ _. self.new ≡ self.old) }
        ensures last { IfOk result (λ _. last_of self.new ≡ now.now) }
        ensures note { IfOk result (λ note. note.number ≡ length self.new) }
    {
        let Some(writer) = self.writer.take() else {
            unreachable!()
        };
        let (writer, done) = publish_rows(rt, alloc, writer, now);
        let number = writer.published().count;
        match mem::replace(&mut self.writer, Some(writer)) {
            None => {}
            // The writer was taken out.
            Some(old) => drop(old.take(rt)),
        }
        done?;
        Ok(Note { number })
    }

    /// Readers take nothing from now on. It waits for those that are reading.
    pub fn end<W: Wait>(self, rt: &W) {
        let PublisherOf { writer } = self;
        match writer {
            Some(writer) => drop(writer.take(rt)),
            None => {}
        }
    }
}
