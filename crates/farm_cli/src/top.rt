ghost use Rattle.std.specs.Prelude.{◌≡◌, ◌≢◌, ◌↔◌, ◌≤◌, ◌+◌, None, IfSome, map, string_bytes};
ghost use Rattle.farm_io.specs.Streams.{Rose};
ghost use Rattle.command_line.specs.CommandLine.{command_of};
ghost use Rattle.farm_api.specs.Exchanges.{around_of};
ghost use Rattle.contest_server.specs.Visits.{watch};
ghost use Rattle.farm_cli.specs.Commands.{file_of, UnlessServing, UnlessHosting, UnlessStoring, CommandEnds, CommandIsDone};

use crate::hosting::host;
use crate::serving::serve;
use command_line::{Command, read_command};
use exit_status::Exit;
use farm_io::{Clock, Door, Link, Listening, Sink, Source};
use farm_tree::Tree;
use judge_commands::{judge, make};
use judgehost::{Gate, Go};
use people::Person;
use record_store::Disk;
use remote_host::Pause;
use script_commands::{list, script, script_stored};
use std::alloc::Global;
use std::sync::Wait;
use std::thread::Threads;

/// The whole program. The first word is its name, which is not looked at. The person is told how far it is, what is skipped, and
/// why a contest or settings are refused, and is asked nothing.
///
/// `farm script` starts an empty farm with the standard settings, or with those of a file, reads lines to the
/// end of the input, and writes a reply to each line that is no comment. With a store it starts with the farm that the store
/// holds, and stores each event that changes the farm before it writes the reply.
///
/// `farm store` writes the lines of a store as a script.
///
/// `farm judge` reads the contest in a folder, judges each of its submissions by host threads and the caller, and
/// writes a line for each with its verdict; where a journal is asked for, then a line for each call by which the
/// contest was judged. The gate decides at which points a host dies.
///
/// `farm make` makes a contest of a number, judges it in the same way by two host threads and the caller, and writes how
/// many submissions have each verdict, and the digest of its table.
///
/// `farm serve` reads the contest in a folder, listens at a port, and answers judgehosts and the jury by HTTP, each connection
/// in a thread of its own; it writes a line for each connection and behind them the board.
///
/// `farm host` works as a judgehost over a connection of the link: it enters its name, claims one task after the other, runs
/// its case and posts the result, and writes a line on what it did. Where it is to wait, the pause passes the time.
pub fn farm_main<
    R: Threads + Wait + Sync,
    T: Tree,
    S: Source,
    K: Sink,
    C: Clock + Sync,
    D: Door,
    G: Gate + Sync,
    P: Person,
    N: Link,
    Q: Pause,
    Y: Disk,
>(
    rt: &R,
    alloc: Global,
    words: &[String],
    tree: &mut T,
    input: &mut S,
    out: &mut K,
    clock: &C,
    door: &mut D,
    gate: &G,
    person: &mut P,
    link: &mut N,
    pause: &Q,
    disk: &mut Y,
) -> Exit
where
    D::Conn: Drop,
    // Of the connections that the door let in and that the link made, no more were given back than came.
    requires door { (D.state door.old).returned ≤ (D.state door.old).accepted }
    requires link { (N.state link.old).returned ≤ (N.state link.old).accepted }

    // `Usage` comes for other words alone, and for all of them, unless memory is wanting while they are read. Whatever
    // comes for them, nothing is read, and nothing is written.
    ensures usage { (result ≡ Exit.Usage) ↔ ((command_of (map string_bytes words.now) ≡ None) × (result ≢ Exit.Memory)) }
    ensures silent { command_of (map string_bytes words.now) ≡ None → (tree.new ≡ tree.old) × (input.new ≡ input.old) × (out.new ≡ out.old) × (door.new ≡ door.old) × (link.new ≡ link.old) × (disk.new ≡ disk.old) }

    // How each command ends: what was read and what was written, which keeps the promise. Whatever lines come,
    // and so whatever hosts claim, answer, repeat, lose leases or die, a judging is reported final exactly where
    // no outcome of its unjudged tests could change its verdict, or with full judging where every test is judged;
    // that verdict is what running every test in rank order on one thread gives; final stays; each result counts
    // once. A contest's verdicts are the same whatever the number of its hosts, the gate and the schedule. What a host on
    // another machine asks and posts is its talk, in which each result is the value of the case that it was sent. Where events
    // are stored, a crash at any moment leaves those that the store held and a prefix of this run's, and with the end those
    // of each reply of which a part was written; the file that is opened is the one that the words name.
    ensures ends { IfSome (command_of (map string_bytes words.now)) (λ command. CommandEnds (T.files tree.old) command
        (record { watch = watch D.Conn.left D.Conn.held D.Conn.Source.faults D.Conn.Sink.faults (around_of (C.shows clock.now) D.Conn.Peer.asks); old = D.state door.old; new = D.state door.new })
        (record { held = N.Conn.held; left = N.Conn.left; faults = (λ c. N.Conn.Source.faults c + N.Conn.Sink.faults c); may_die = (λ point turn. G.may_answer gate.now 1 point turn Go.Die); old = N.state link.old; new = N.state link.new; before = N.faults link.old; now = N.faults link.new })
        (record { tells = Y.tells disk.old; old = record { time = Y.time disk.old; opened = Y.opened disk.old; faults = Y.faults disk.old }; new = record { time = Y.time disk.new; opened = Y.opened disk.new; faults = Y.faults disk.new } })
        (record { left = S.left input.old; held = K.held out.old }) (record { left = S.left input.new; held = K.held out.new })
        (input.new ≡ input.old) (out.new ≡ out.old) result) }

    // A command that reads no file leaves the tree as it was, and no command changes a file.
    ensures tree { IfSome (command_of (map string_bytes words.now)) (λ command. file_of command ≡ None → tree.new ≡ tree.old) }
    ensures files { T.files tree.new ≡ T.files tree.old }

    // The door is as it was unless the command serves, the link unless it works as a host, and the disk unless it opens a
    // store.
    ensures door { IfSome (command_of (map string_bytes words.now)) (λ command. UnlessServing command (door.new ≡ door.old)) }
    ensures link { IfSome (command_of (map string_bytes words.now)) (λ command. UnlessHosting command (link.new ≡ link.old)) }
    ensures disk { IfSome (command_of (map string_bytes words.now)) (λ command. UnlessStoring command (disk.new ≡ disk.old)) }

    // Each fault has its cause, and without one the command is done unless memory is wanting.
    ensures read_fault { result ≡ Exit.ReadFault → Rose (S.faults input.old) (S.faults input.new) }
    ensures write_fault { result ≡ Exit.WriteFault → Rose (K.faults out.old) (K.faults out.new) }
    ensures tree_fault { result ≡ Exit.TreeFault → Rose (T.faults tree.old) (T.faults tree.new) }
    ensures door_fault { result ≡ Exit.DoorFault → Rose (D.faults door.old) (D.faults door.new) }
    ensures store_fault { result ≡ Exit.StoreFault → Rose (Y.faults disk.old) (Y.faults disk.new) }
    ensures complete { IfSome (command_of (map string_bytes words.now)) (λ command. CommandIsDone (T.files tree.old) command
        (record { held = N.Conn.held; left = N.Conn.left; faults = (λ c. N.Conn.Source.faults c + N.Conn.Sink.faults c); may_die = (λ point turn. G.may_answer gate.now 1 point turn Go.Die); old = N.state link.old; new = N.state link.new; before = N.faults link.old; now = N.faults link.new })
        (record { tells = Y.tells disk.old; old = record { time = Y.time disk.old; opened = Y.opened disk.old; faults = Y.faults disk.old }; new = record { time = Y.time disk.new; opened = Y.opened disk.new; faults = Y.faults disk.new } })
        (S.left input.old)
        (¬ Rose (T.faults tree.old) (T.faults tree.new) × ¬ Rose (S.faults input.old) (S.faults input.new) × ¬ Rose (K.faults out.old) (K.faults out.new)
        × ¬ Rose (D.faults door.old) (D.faults door.new) × ¬ Rose (N.faults link.old) (N.faults link.new) × ¬ Rose (Y.faults disk.old) (Y.faults disk.new)) result) }
{
    let Ok(command) = read_command(alloc, words) else {
        return Exit::Memory;
    };
    let Some(command) = command else {
        return Exit::Usage;
    };
    match command {
        Command::Script { config, store } => match store {
            None => script(alloc, config, tree, input, out, person),
            Some(path) => script_stored(alloc, config, path, tree, input, out, disk, person),
        },
        Command::Store { path } => list(alloc, path, out, disk),
        Command::Judge {
            folder,
            hosts,
            journal,
        } => judge(
            rt,
            alloc,
            folder,
            hosts.get(),
            journal,
            tree,
            out,
            gate,
            person,
        ),
        Command::Make { number, size } => make(rt, alloc, number, size, out, gate, person),
        Command::Serve {
            folder,
            address,
            port,
            lanes,
            connections,
            patience,
            until_input_ends,
        } => serve(
            rt,
            alloc,
            folder,
            Listening {
                address,
                port,
                patience: patience.get(),
                until_input_ends,
            },
            lanes.get(),
            connections.get(),
            tree,
            out,
            clock,
            door,
            person,
        ),
        Command::Host {
            address,
            port,
            name,
            fuel,
            wait,
            login,
        } => host(
            alloc, address, port, name, fuel, wait, login, tree, out, gate, link, pause, person,
        ),
    }
}
