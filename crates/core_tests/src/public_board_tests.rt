ghost use Rattle.std.specs.Prelude.{◌≡◌, ◌≤◌, length};
ghost use Rattle.public_board.specs.Versions.{last_of};

use farm_kinds::{Answer, Kind, Verdict};
use public_board::{Note, Publication, Publisher, Reader, Row, open};
use std::alloc::Global;
use std::sync::{Mutex, Wait};
use std::test::Fail;

/// Any versions may be published.
struct Any;

impl<R> Publication<R> for Any {
    ghost allows = { λ versions. Unit {0} };
}

const CORRECT: Answer = Answer::Final(Verdict::Tests(Kind::Correct));

/// Publishes two rows.
fn publish_two<W: Wait>(
    rt: &W,
    alloc: Global,
    publisher: &mut Publisher<Answer, Any>,
    rows: &[Answer; 2],
) -> Option<Note>
    requires { length (last_of publisher.old) ≤ 2 }
    ensures { length (last_of publisher.new) ≤ 2 }
{
    match publisher.publish(rt, alloc, rows.as_slice()) {
        Ok(note) => Some(note),
        Err(_) => None,
    }
}

/// What the reader gives by `rows`: how many there are, and the first two.
fn read(alloc: Global, reader: &mut Reader<Answer, Any>) -> Option<(usize, Answer, Answer)> {
    let rows = reader.rows(alloc).ok()?;
    let first = rows.as_slice().first().copied()?;
    let second = rows.as_slice().get(1).copied()?;
    Some((rows.len(), first, second))
}

#[test]
fn both_rows_change_at_once(rt: HostRuntime) -> Result<(), Fail> {
    let first = [Answer::Pending, Answer::Pending];
    let (mut publisher, mut readers) = open::<Answer, Any, _>(
        &rt,
        rt.alloc(),
        first.as_slice(),
        2,
        1,
    )?;
    let taken = readers.take();
    let none = readers.take().is_none();
    let equal = publish_two(&rt, rt.alloc(), &mut publisher, &first);
    let Some(mut reader) = taken else {
        publisher.end(&rt);
        return Ok(());
    };
    let before = read(rt.alloc(), &mut reader);
    let noted = publish_two(&rt, rt.alloc(), &mut publisher, &[CORRECT, CORRECT]);
    if let Some(note) = noted {
        reader.learn(&note);
    }
    let after = read(rt.alloc(), &mut reader);
    publisher.end(&rt);
    let ended = read(rt.alloc(), &mut reader);
    assert!(rt; none);
    assert_eq!(rt; equal.map(|note| note.number), Some(1));
    assert_eq!(rt; noted.map(|note| note.number), Some(2));
    assert_eq!(rt; before, Some((2, Answer::Pending, Answer::Pending)));
    assert_eq!(rt; after, Some((2, CORRECT, CORRECT)));
    assert_eq!(rt; ended, None);
    Ok(())
}

/// A row of a type of its own.
#[derive(Clone, Copy, Debug, PartialEq, Eq)]
struct Points {
    team: u8,
    points: u16,
}

impl Row for Points {
    fn is_same(&self, other: &Points) -> bool {
        *self == *other
    }
}

#[test]
fn a_row_is_read_by_its_number(rt: HostRuntime) -> Result<(), Fail> {
    let first = [Points { team: 1, points: 0 }, Points { team: 2, points: 7 }];
    let (publisher, mut readers) = open::<Points, Any, _>(&rt, rt.alloc(), first.as_slice(), 2, 1)?;
    let mut row = None;
    if let Some(mut reader) = readers.take() {
        row = reader.row(2).ok();
    }
    publisher.end(&rt);
    assert_eq!(rt; row, Some(Points { team: 2, points: 7 }));
    Ok(())
}

/// The value, which may go to another thread.
fn is_sent<T: Send>(value: T) -> T {
    value
}

/// Threads may share the value.
fn is_shared<T: Sync>(_value: &T) {}

#[test]
fn both_sides_may_go_to_threads(rt: HostRuntime) -> Result<(), Fail> {
    let first = [Answer::Pending];
    let (publisher, mut readers) = open::<Answer, Any, _>(&rt, rt.alloc(), first.as_slice(), 1, 1)?;
    let mut taken = None;
    if let Some(reader) = readers.take() {
        taken = Some(is_sent(reader));
    }
    let shared = Mutex::new(is_sent(publisher));
    is_shared(&shared);
    shared.into_inner().end(&rt);
    assert!(rt; taken.is_some());
    Ok(())
}
