ghost use Rattle.std.specs.Prelude.{◌≡◌, ◌≢◌, ◌⊎◌, IfOk, Ok};
ghost use Rattle.farm_io.specs.Streams.{Rose};
ghost use Rattle.contest_folder.specs.Contest.{contest_of};
ghost use Rattle.parallel_judge.specs.Table.{table_rows};
ghost use Rattle.work_maker.specs.Files.{contest_folder, made_files};
ghost use Rattle.command_line.specs.CommandLine.{size_value};
ghost use Rattle.judge_commands.specs.Making.{IsSummary, MakeEnds, summary_text};

use crate::summary::summary_text;
use command_line::MadeSize;
use contest_folder::{ContestFault, Roster, read_contest};
use exit_status::Exit;
use farm_io::{PutEnd, Sink};
use farm_kinds::NoMemory;
use farm_tree::ReliableTree;
use judgehost::Gate;
use parallel_judge::judge_all;
use people::Person;
use std::alloc::Global;
use std::sync::Wait;
use std::thread::Threads;
use work_maker::{FOLDER, make_files};

/// How many host threads judge a made contest.
const HOSTS: u16 = 2;

/// `farm make`: makes a contest, judges it by two host threads, and writes how many submissions have each verdict, and
/// the digest of its table. Nothing is written before all of this is made: where memory runs out the output was not asked
/// for anything, and where the output fails the summary had been made.
pub fn make<R: Threads + Wait + Sync, K: Sink, G: Gate + Sync, P: Person>(
    rt: &R,
    alloc: Global,
    number: u32,
    size: MadeSize,
    out: &mut K,
    gate: &G,
    person: &mut P,
) -> Exit
    ensures ends { MakeEnds number (size_value size) (K.held out.old) (K.held out.new) (out.new ≡ out.old) result }
    ensures command { result ≢ Exit.Usage }
    ensures door_fault { result ≢ Exit.DoorFault }
    ensures read_fault { result ≢ Exit.ReadFault }
    ensures tree_fault { result ≢ Exit.TreeFault }
    ensures write_fault { result ≡ Exit.WriteFault → Rose (K.faults out.old) (K.faults out.new) }
    // An output that failed is told as nothing else.
    ensures output { result ≢ Exit.WriteFault → K.faults out.new ≡ K.faults out.old }
    ensures all { (result ≡ Exit.Done) ⊎ (result ≡ Exit.WriteFault) ⊎ (result ≡ Exit.Memory) }
{
    match summarize(rt, alloc, number, size, gate, person) {
        Ok(text) => match out.put(text.as_slice()) {
            PutEnd::Done => Exit::Done,
            PutEnd::Failed => Exit::WriteFault,
        },
        Err(NoMemory) => Exit::Memory,
    }
}

/// What is written of the contest.
fn summarize<R: Threads + Wait + Sync, G: Gate + Sync, P: Person>(
    rt: &R,
    alloc: Global,
    number: u32,
    size: MadeSize,
    gate: &G,
    person: &mut P,
) -> Result<Vec<u8>, NoMemory>
    ensures { IfOk result (λ text. IsSummary number (size_value size) text.items) }
{
    let roster = made_roster(alloc, number, size)?;
    summary_of(rt, alloc, &roster, gate, person)
}

/// What is written of the contest that was made.
fn summary_of<R: Threads + Wait + Sync, G: Gate + Sync, P: Person>(
    rt: &R,
    alloc: Global,
    roster: &Roster,
    gate: &G,
    person: &mut P,
) -> Result<Vec<u8>, NoMemory>
    ensures { IfOk result (λ text. text.items ≡ summary_text (table_rows roster.now)) }
{
    let outcome = judge_all(rt, alloc, roster, HOSTS, gate, false, person)?;
    summary_text(alloc, &outcome.table)
}

/// The contest, as it is read from its files.
fn made_roster(alloc: Global, number: u32, size: MadeSize) -> Result<Roster, NoMemory>
    ensures { IfOk result (λ roster. contest_of (made_files number size.problems size.submissions) contest_folder ≡ Ok roster) }
{
    let files = make_files(alloc, number, size.problems(), size.submissions())?;
    let mut tree = ReliableTree::new(alloc, files);
    match read_contest(alloc, &mut tree, FOLDER) {
        Ok(roster) => Ok(roster),
        Err(fault) => Err(want_of_memory(&fault)),
    }
}

/// That memory was wanting: nothing else can be wrong with a made contest, in a tree that does not fail.
fn want_of_memory(fault: &ContestFault) -> NoMemory
    requires { fault.now ≡ ContestFault.NoMemory }
{
    NoMemory
}
