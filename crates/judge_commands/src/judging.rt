ghost use Rattle.std.specs.Prelude.{◌≡◌, ◌≢◌, ◌⊎◌, ◌≤◌, ◌++◌, ℕ, Option, List, IfOk, Ok, Err};
ghost use Rattle.farm_io.specs.Streams.{Rose};
ghost use Rattle.farm_tree.specs.declared.reads.TreeFile.{TreeFile};
ghost use Rattle.farm_model.specs.Texts.{table_text};
ghost use Rattle.contest_folder.specs.Telling.{IsStop};
ghost use Rattle.judge_commands.specs.Judged.{ContestIs, HasContest, IsReport, NoContestEnds, JudgeEnds, contest_line, history_text};

use crate::journal::push_journal;
use command_text::write_table;
use contest_folder::{ContestFault, Roster, push_contest_fault};
use contest_notes::read_told_contest;
use exit_status::Exit;
use farm_io::{PutEnd, Sink};
use farm_kinds::NoMemory;
use farm_tree::Tree;
use judgehost::Gate;
use parallel_judge::{Outcome, judge_all};
use people::Person;
use std::alloc::Global;
use std::sync::Wait;
use std::thread::Threads;

/// `farm judge`: judges the contest in the folder by so many host threads, and writes its table, and behind it the
/// journal where one is asked for. The person is told what of the folder is skipped, why it is no contest, and how far it
/// is.
///
/// Where the tree fails while notes on the contest are looked for, they are left out; if memory runs out behind that, the
/// failure is the end, since it came first.
pub fn judge<R: Threads + Wait + Sync, T: Tree, K: Sink, G: Gate + Sync, P: Person>(
    rt: &R,
    alloc: Global,
    folder: &str,
    hosts: u16,
    journal: bool,
    tree: &mut T,
    out: &mut K,
    gate: &G,
    person: &mut P,
) -> Exit
    requires hosts { hosts ≤ 16 }
    ensures command { result ≢ Exit.Usage }
    ensures door_fault { result ≢ Exit.DoorFault }
    ensures read_fault { result ≢ Exit.ReadFault }
    ensures ends { JudgeEnds (T.files tree.old) folder.now hosts journal (K.held out.old) (K.held out.new) (out.new ≡ out.old) result }
    ensures files { T.files tree.new ≡ T.files tree.old }
    ensures write_fault { result ≡ Exit.WriteFault → Rose (K.faults out.old) (K.faults out.new) }
    // An output that failed is told as nothing else.
    ensures output { result ≢ Exit.WriteFault → K.faults out.new ≡ K.faults out.old }
    ensures tree_fault { result ≡ Exit.TreeFault → Rose (T.faults tree.old) (T.faults tree.new) }
    ensures first { result ≡ Exit.Memory → T.faults tree.new ≡ T.faults tree.old }
    ensures complete { HasContest (T.files tree.old) folder.now
        → ¬ Rose (T.faults tree.old) (T.faults tree.new) → ¬ Rose (K.faults out.old) (K.faults out.new)
        → (result ≡ Exit.Done) ⊎ (result ≡ Exit.Memory) }
{
    let faults = tree.fault_count();
    let exit = judge_told(rt, alloc, folder, hosts, journal, tree, out, gate, person);
    if exit == Exit::Memory && tree.fault_count() > faults {
        return Exit::TreeFault;
    }
    exit
}

/// Judges the contest in the folder, whatever comes of the notes on it.
fn judge_told<R: Threads + Wait + Sync, T: Tree, K: Sink, G: Gate + Sync, P: Person>(
    rt: &R,
    alloc: Global,
    folder: &str,
    hosts: u16,
    journal: bool,
    tree: &mut T,
    out: &mut K,
    gate: &G,
    person: &mut P,
) -> Exit
    requires hosts { hosts ≤ 16 }
    ensures command { result ≢ Exit.Usage }
    ensures door_fault { result ≢ Exit.DoorFault }
    ensures read_fault { result ≢ Exit.ReadFault }
    ensures ends { JudgeEnds (T.files tree.old) folder.now hosts journal (K.held out.old) (K.held out.new) (out.new ≡ out.old) result }
    ensures files { T.files tree.new ≡ T.files tree.old }
    ensures later { T.faults tree.old ≤ T.faults tree.new }
    ensures write_fault { result ≡ Exit.WriteFault → Rose (K.faults out.old) (K.faults out.new) }
    ensures output { result ≢ Exit.WriteFault → K.faults out.new ≡ K.faults out.old }
    ensures tree_fault { result ≡ Exit.TreeFault → Rose (T.faults tree.old) (T.faults tree.new) }
    ensures complete { HasContest (T.files tree.old) folder.now
        → ¬ Rose (T.faults tree.old) (T.faults tree.new) → ¬ Rose (K.faults out.old) (K.faults out.new)
        → (result ≡ Exit.Done) ⊎ (result ≡ Exit.Memory) }
{
    match read_told_contest(alloc, tree, folder, "nothing was judged", person) {
        Ok(roster) => judge_roster(rt, alloc, &roster, hosts, journal, out, gate, person),
        Err(fault) => refuse_contest(alloc, &fault, out),
    }
}

/// Judges a contest, and writes what is reported of it.
fn judge_roster<R: Threads + Wait + Sync, K: Sink, G: Gate + Sync, P: Person>(
    rt: &R,
    alloc: Global,
    roster: &Roster,
    hosts: u16,
    journal: bool,
    out: &mut K,
    gate: &G,
    person: &mut P,
) -> Exit
    requires hosts { hosts ≤ 16 }
    ensures ends { (files : Option (List TreeFile)) (folder : List ℕ) → ContestIs files folder (Ok roster.now)
        → JudgeEnds files folder hosts journal (K.held out.old) (K.held out.new) (out.new ≡ out.old) result }
    ensures write_fault { result ≡ Exit.WriteFault → Rose (K.faults out.old) (K.faults out.new) }
    ensures output { result ≢ Exit.WriteFault → K.faults out.new ≡ K.faults out.old }
    ensures all { (result ≡ Exit.Done) ⊎ (result ≡ Exit.WriteFault) ⊎ (result ≡ Exit.Memory) }
{
    match report(rt, alloc, roster, hosts, journal, gate, person) {
        Ok(text) => match out.put(text.as_slice()) {
            PutEnd::Done => Exit::Done,
            PutEnd::Failed => Exit::WriteFault,
        },
        Err(NoMemory) => Exit::Memory,
    }
}

/// The text of a contest's table, and behind it the journal where one is asked for.
fn report<R: Threads + Wait + Sync, G: Gate + Sync, P: Person>(
    rt: &R,
    alloc: Global,
    roster: &Roster,
    hosts: u16,
    journal: bool,
    gate: &G,
    person: &mut P,
) -> Result<Vec<u8>, NoMemory>
    requires hosts { hosts ≤ 16 }
    ensures { IfOk result (λ text. IsReport roster.now hosts journal text.items) }
{
    let outcome = judge_all(rt, alloc, roster, hosts, gate, journal, person)?;
    text_of(alloc, &outcome)
}

/// The text of the table, and behind it that of the journal where there is one.
#[tactic(auto, using(crate::proofs::Reports::table_alone))]
fn text_of(alloc: Global, outcome: &Outcome) -> Result<Vec<u8>, NoMemory>
    ensures { IfOk result (λ text. text.items ≡ table_text outcome.now.table ++ history_text outcome.now.history) }
{
    let mut text = write_table(alloc, &outcome.table)?.into_vec();
    let Some(history) = &outcome.history else {
        return Ok(text);
    };
    push_journal(alloc, &mut text, history.as_slice())?;
    Ok(text)
}

/// Ends where the folder is no contest, or could not be read.
pub fn refuse_contest<K: Sink>(alloc: Global, fault: &ContestFault, out: &mut K) -> Exit
    ensures command { result ≢ Exit.Usage }
    ensures door_fault { result ≢ Exit.DoorFault }
    ensures read_fault { result ≢ Exit.ReadFault }
    ensures tree { result ≡ Exit.TreeFault → fault.now ≡ ContestFault.Tree }
    ensures first { fault.now ≡ ContestFault.Tree → result ≡ Exit.TreeFault }
    ensures memory { fault.now ≡ ContestFault.NoMemory → result ≡ Exit.Memory }
    ensures write_fault { result ≡ Exit.WriteFault → Rose (K.faults out.old) (K.faults out.new) }
    ensures output { result ≢ Exit.WriteFault → K.faults out.new ≡ K.faults out.old }
    ensures ends { (files : Option (List TreeFile)) (folder : List ℕ) → (¬ IsStop fault.now → ContestIs files folder (Err fault.now))
        → NoContestEnds files folder (K.held out.old) (K.held out.new) (out.new ≡ out.old) result }
{
    match fault {
        ContestFault::Tree => Exit::TreeFault,
        ContestFault::NoMemory => Exit::Memory,
        _ => write_fault(alloc, fault, out),
    }
}

/// Writes the line that says why the folder is no contest.
fn write_fault<K: Sink>(alloc: Global, fault: &ContestFault, out: &mut K) -> Exit
    ensures ends { (files : Option (List TreeFile)) (folder : List ℕ) → ContestIs files folder (Err fault.now)
        → NoContestEnds files folder (K.held out.old) (K.held out.new) (out.new ≡ out.old) result }
    ensures write_fault { result ≡ Exit.WriteFault → Rose (K.faults out.old) (K.faults out.new) }
    ensures output { result ≢ Exit.WriteFault → K.faults out.new ≡ K.faults out.old }
    ensures all { (result ≡ Exit.BadContest) ⊎ (result ≡ Exit.WriteFault) ⊎ (result ≡ Exit.Memory) }
{
    match line_of(alloc, fault) {
        Ok(line) => match out.put(line.as_slice()) {
            PutEnd::Done => Exit::BadContest,
            PutEnd::Failed => Exit::WriteFault,
        },
        Err(NoMemory) => Exit::Memory,
    }
}

/// The line of a fault of the folder.
fn line_of(alloc: Global, fault: &ContestFault) -> Result<Vec<u8>, NoMemory>
    ensures { IfOk result (λ line. line.items ≡ contest_line fault.now) }
{
    let mut line = b"bad contest: ".to_vec(alloc)?;
    push_contest_fault(&mut line, fault)?;
    line.push(b'\n').map_err(|_| NoMemory)?;
    Ok(line)
}
