//! A contest is read, and a person is told of it.
ghost use Rattle.std.specs.Prelude.{◌≡◌, ◌≤◌, false};
ghost use Rattle.farm_io.specs.Streams.{Rose};
ghost use Rattle.package_folder.specs.Told.{WhereTold};
ghost use Rattle.contest_folder.specs.Telling.{Answers};
ghost use Rattle.contest_folder.specs.Contest.{contest_of};

use crate::finding::contest_notes;
use crate::reason::fault_reason;
use crate::texts::contest_note_text;
use contest_folder::{ContestFault, Roster, read_contest};
use farm_tree::Tree;
use people::Person;
use std::alloc::Global;

/// Reads the contest in the folder at the path, as `read_contest` does, and then tells the person the notes on it, and behind
/// them, where the folder is no contest, why, and what comes of it: `end`. Where the tree fails or no memory is left while the
/// contest is read, the person is told nothing here; where that comes while the notes are looked for, none is told, and a text
/// that no memory is left to make is left out.
///
/// For the notes the folder is read a second time: they stand on names of files, on keys and on lines that a contest does not
/// keep, and of a folder that is no contest there is nothing else that they could stand on.
pub fn read_told_contest<T: Tree, P: Person>(
    alloc: Global,
    tree: &mut T,
    path: &str,
    end: &str,
    person: &mut P,
) -> Result<Roster, ContestFault>
    ensures contest { WhereTold (T.files tree.old) (λ files. Answers result (contest_of files path.now)) }
    ensures same { T.files tree.new ≡ T.files tree.old }
    ensures later { T.faults tree.old ≤ T.faults tree.new }
    ensures cause { result ≡ Err ContestFault.Tree → Rose (T.faults tree.old) (T.faults tree.new) }
    ensures first { result ≡ Err ContestFault.NoMemory → T.faults tree.new ≡ T.faults tree.old }
{
    // The contest is read first, so that a tree that fails then is not asked in vain for notes.
    let answer = read_contest(alloc, tree, path);
    if is_told(&answer) {
        tell_notes(alloc, tree, path, person);
        tell_answer(alloc, tree, path, &answer, end, person);
    }
    answer
}

/// Whether the folder could be read.
fn is_told(answer: &Result<Roster, ContestFault>) -> bool
    ensures { answer.now ≡ Err ContestFault.NoMemory → result ≡ false }
{
    !matches!(
        answer,
        Err(ContestFault::Tree) | Err(ContestFault::NoMemory)
    )
}

/// Tells the notes on the contest in the folder.
fn tell_notes<T: Tree, P: Person>(alloc: Global, tree: &mut T, folder: &str, person: &mut P)
    ensures same { T.files tree.new ≡ T.files tree.old }
    ensures later { T.faults tree.old ≤ T.faults tree.new }
{
    let Ok(notes) = contest_notes(alloc, tree, folder) else {
        return;
    };
    for note in &notes {
        if let Ok(text) = contest_note_text(alloc, note) {
            person.notes(text.as_str());
        }
    }
}

/// Says why the folder is no contest, and what comes of it, where that is the answer.
fn tell_answer<T: Tree, P: Person>(
    alloc: Global,
    tree: &mut T,
    folder: &str,
    answer: &Result<Roster, ContestFault>,
    end: &str,
    person: &mut P,
)
    ensures same { T.files tree.new ≡ T.files tree.old }
    ensures later { T.faults tree.old ≤ T.faults tree.new }
{
    let Err(fault) = answer else {
        return;
    };
    let Ok(Some(reason)) = fault_reason(alloc, tree, folder, fault) else {
        return;
    };
    if let Ok(text) = format!(in alloc; "{folder} is no contest: {reason}; {end}") {
        person.refuses(text.as_str());
    }
}
