ghost use Rattle.std.specs.Prelude.{◌≡◌, ◌≢◌, ◌⊎◌, ◌≤◌, ℕ, Option, List, Ok, Err, true, false};
ghost use Rattle.farm_io.specs.Doors.{DoesListen};
ghost use Rattle.farm_io.specs.Streams.{Rose};
ghost use Rattle.farm_tree.specs.declared.reads.TreeFile.{TreeFile};
ghost use Rattle.farm_api.specs.Exchanges.{around_of};
ghost use Rattle.contest_server.specs.Visits.{watch};
ghost use Rattle.contest_folder.specs.Telling.{IsStop};
ghost use Rattle.judge_commands.specs.Judged.{ContestIs, HasContest, NoContestEnds};
ghost use Rattle.farm_cli.specs.ServedContest.{DoorUse, ServeEnds, exit_of};

use contest_folder::{ContestFault, Roster};
use contest_notes::read_told_contest;
use contest_server::{ServeEnd, serve_contest};
use exit_status::Exit;
use farm_io::{Clock, Door, Listening, Sink};
use farm_tree::Tree;
use judge_commands::refuse_contest;
use people::Person;
use std::alloc::Global;
use std::sync::Wait;
use std::thread::Threads;

/// `farm serve`: serves the contest in the folder to at most `connections` connections that come where the door is to
/// listen, at most `lanes` of them at the same time. A line is written for each connection, and behind them the board.
/// The person is told what of the folder is skipped, and why it is no contest.
///
/// Where the tree fails while notes on the folder are looked for, they are left out; if memory for the line of its fault
/// runs out behind that, the failure is the end, since it came first.
pub fn serve<R: Threads + Wait + Sync, T: Tree, K: Sink, C: Clock + Sync, D: Door, P: Person>(
    rt: &R,
    alloc: Global,
    folder: &str,
    at: Listening,
    lanes: u16,
    connections: u32,
    tree: &mut T,
    out: &mut K,
    clock: &C,
    door: &mut D,
    person: &mut P,
) -> Exit
where
    D::Conn: Drop,
    requires lanes { (1 ≤ lanes) × (lanes ≤ 16) }
    requires door { (D.state door.old).returned ≤ (D.state door.old).accepted }
    ensures command { result ≢ Exit.Usage }
    ensures read_fault { result ≢ Exit.ReadFault }
    ensures ends { ServeEnds (T.files tree.old) folder.now at lanes connections
        (record { watch = watch D.Conn.left D.Conn.held D.Conn.Source.faults D.Conn.Sink.faults (around_of (C.shows clock.now) D.Conn.Peer.asks); old = D.state door.old; new = D.state door.new })
        (K.held out.old) (K.held out.new) (out.new ≡ out.old) result }
    ensures files { T.files tree.new ≡ T.files tree.old }
    ensures write_fault { result ≡ Exit.WriteFault → Rose (K.faults out.old) (K.faults out.new) }
    // An output that failed is told as nothing else, so as no want of memory behind it.
    ensures output { result ≢ Exit.WriteFault → K.faults out.new ≡ K.faults out.old }
    ensures tree_fault { result ≡ Exit.TreeFault → Rose (T.faults tree.old) (T.faults tree.new) }
    ensures door_fault { result ≡ Exit.DoorFault → Rose (D.faults door.old) (D.faults door.new) }
    // A folder that cannot be read, and a door that cannot listen, are not told as want of memory.
    ensures first { result ≡ Exit.Memory
        → ((T.faults tree.new ≡ T.faults tree.old) × (D.faults door.new ≡ D.faults door.old)) ⊎ DoesListen (D.state door.new) }
    ensures complete { HasContest (T.files tree.old) folder.now
        → ¬ Rose (T.faults tree.old) (T.faults tree.new) → ¬ Rose (D.faults door.old) (D.faults door.new) → ¬ Rose (K.faults out.old) (K.faults out.new)
        → (result ≡ Exit.Done) ⊎ (result ≡ Exit.Memory) }
{
    let faults = tree.fault_count();
    match read_told_contest(alloc, tree, folder, "nobody was served", person) {
        Ok(roster) => serve_roster(rt, alloc, &roster, at, lanes, connections, out, clock, door),
        Err(fault) => refuse(alloc, &fault, tree.fault_count() > faults, out),
    }
}

/// Ends where the folder is no contest, or could not be read. Where its tree has failed and memory runs out behind that,
/// the failure is the end.
fn refuse<K: Sink>(alloc: Global, fault: &ContestFault, has_failed: bool, out: &mut K) -> Exit
    ensures command { result ≢ Exit.Usage }
    ensures read_fault { result ≢ Exit.ReadFault }
    ensures door_fault { result ≢ Exit.DoorFault }
    ensures tree { result ≡ Exit.TreeFault → (fault.now ≡ ContestFault.Tree) ⊎ (has_failed ≡ true) }
    ensures first { result ≡ Exit.Memory → has_failed ≡ false }
    ensures write_fault { result ≡ Exit.WriteFault → Rose (K.faults out.old) (K.faults out.new) }
    ensures output { result ≢ Exit.WriteFault → K.faults out.new ≡ K.faults out.old }
    ensures ends { (files : Option (List TreeFile)) (folder : List ℕ) → (¬ IsStop fault.now → ContestIs files folder (Err fault.now))
        → NoContestEnds files folder (K.held out.old) (K.held out.new) (out.new ≡ out.old) result }
{
    let exit = refuse_contest(alloc, fault, out);
    if exit == Exit::Memory && has_failed {
        return Exit::TreeFault;
    }
    exit
}

/// Listens, and serves a contest to the connections that come.
fn serve_roster<R: Threads + Wait + Sync, K: Sink, C: Clock + Sync, D: Door>(
    rt: &R,
    alloc: Global,
    roster: &Roster,
    at: Listening,
    lanes: u16,
    connections: u32,
    out: &mut K,
    clock: &C,
    door: &mut D,
) -> Exit
where
    D::Conn: Drop,
    requires lanes { (1 ≤ lanes) × (lanes ≤ 16) }
    requires door { (D.state door.old).returned ≤ (D.state door.old).accepted }
    ensures ends { (files : Option (List TreeFile)) (folder : List ℕ) → ContestIs files folder (Ok roster.now)
        → ServeEnds files folder at lanes connections
        (record { watch = watch D.Conn.left D.Conn.held D.Conn.Source.faults D.Conn.Sink.faults (around_of (C.shows clock.now) D.Conn.Peer.asks); old = D.state door.old; new = D.state door.new })
        (K.held out.old) (K.held out.new) (out.new ≡ out.old) result }
    ensures write_fault { result ≡ Exit.WriteFault → Rose (K.faults out.old) (K.faults out.new) }
    ensures output { result ≢ Exit.WriteFault → K.faults out.new ≡ K.faults out.old }
    ensures door_fault { result ≡ Exit.DoorFault → Rose (D.faults door.old) (D.faults door.new) }
    ensures first { result ≡ Exit.Memory → DoesListen (D.state door.new) }
    ensures all { (result ≡ Exit.Done) ⊎ (result ≡ Exit.DoorFault) ⊎ (result ≡ Exit.WriteFault) ⊎ (result ≡ Exit.Memory) }
{
    let Ok(()) = door.listen(at) else {
        return Exit::DoorFault;
    };
    exit_of(serve_contest(rt, alloc, roster, lanes, connections, clock, door, out))
}

/// How the program ends where the serving of a contest ends as `end`.
fn exit_of(end: ServeEnd) -> Exit
    ensures { result ≡ exit_of end }
{
    match end {
        ServeEnd::Done => Exit::Done,
        ServeEnd::DoorFault => Exit::DoorFault,
        ServeEnd::WriteFault => Exit::WriteFault,
        ServeEnd::NoMemory => Exit::Memory,
    }
}
