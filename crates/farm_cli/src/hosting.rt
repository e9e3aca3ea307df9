ghost use Rattle.std.specs.Prelude.{◌≡◌, ◌≢◌, ◌<◌, ◌≤◌, ◌⊎◌, ◌+◌, ◌++◌, ℕ, List, Option, None, Ok, Err, IfOk, OnOk, option_map};
ghost use Rattle.farm_io.specs.Streams.{Rose};
ghost use Rattle.farm_tree.specs.declared.reads.TreeFile.{TreeFile};
ghost use Rattle.command_line.specs.CommandLine.{login_value};
ghost use Rattle.remote_host.specs.Passwords.{password_in, authorization};
ghost use Rattle.case_run.specs.Cases.{CanRun, test_case};
ghost use Rattle.case_run.specs.Values.{case_value};
ghost use Rattle.farm_cli.specs.Hosting.{CallerEnds, HostEnds, NoPasswordEnds, PasswordIs, ToldEnds, FaultEnds, bad_password_line, end_word, host_line, host_of};

use crate::wrong_answers::tell_answer;
use case_run::{Case, run_case};
use command_line::Login;
use exit_status::Exit;
use farm_io::{Link, PutEnd, Sink};
use farm_kinds::{Kind, Name, NoMemory, Text};
use farm_tree::{Tree, TreeErr};
use judgehost::{BenchFault, Gate, Go, HostEnd, Runner};
use people::Person;
use remote_host::{
    BadPassword, Caller, Pause, Worked, Wrong, authorization, password_in, work_over,
};
use std::alloc::Global;

/// `farm host`: works as the judgehost of this name over a connection to the server at this port of an address, and writes a
/// line on how that ended. With a login, each request says its user, and the password of its file; where the file gives
/// none, one line says why, and nothing is connected.
pub fn host<T: Tree, K: Sink, G: Gate, N: Link, Q: Pause, P: Person>(
    alloc: Global,
    address: &str,
    port: u16,
    name: Name,
    fuel: u32,
    wait: Option<u16>,
    login: Option<Login<'_>>,
    tree: &mut T,
    out: &mut K,
    gate: &G,
    link: &mut N,
    pause: &Q,
    person: &mut P,
) -> Exit
    requires link { (N.state link.old).returned ≤ (N.state link.old).accepted }
    ensures ends { HostEnds (T.files tree.old)
        (record { held = N.Conn.held; left = N.Conn.left; faults = (λ c. N.Conn.Source.faults c + N.Conn.Sink.faults c); may_die = (λ point turn. G.may_answer gate.now 1 point turn Go.Die); old = N.state link.old; new = N.state link.new; before = N.faults link.old; now = N.faults link.new })
        name wait (option_map login_value login.entry) fuel (K.held out.old) (K.held out.new) (out.new ≡ out.old) result }
    ensures tree { option_map (λ l. l.password_file) (option_map login_value login.entry) ≡ None → tree.new ≡ tree.old }
    ensures files { T.files tree.new ≡ T.files tree.old }
    ensures tree_fault { result ≡ Exit.TreeFault → Rose (T.faults tree.old) (T.faults tree.new) }
    ensures write_fault { result ≡ Exit.WriteFault → Rose (K.faults out.old) (K.faults out.new) }
    // An output that failed is told as nothing else.
    ensures output { result ≢ Exit.WriteFault → K.faults out.new ≡ K.faults out.old }
    // A password that cannot be read, and a connection that cannot be made, are not told as want of memory.
    ensures first { result ≡ Exit.Memory → (T.faults tree.new ≡ T.faults tree.old)
        × ((N.faults link.new ≡ N.faults link.old) ⊎ ((N.state link.old).accepted < (N.state link.new).accepted)) }
{
    let Some(login) = login else {
        let caller = caller_of(name, wait, Text::new(alloc));
        return work(
            alloc, address, port, caller, fuel, out, gate, link, pause, person,
        );
    };
    match read_login(alloc, tree, login) {
        Ok(line) => {
            let caller = caller_of(name, wait, line);
            work(
                alloc, address, port, caller, fuel, out, gate, link, pause, person,
            )
        }
        Err(LoginEnd::Bad(bad)) => refuse(bad, out),
        Err(LoginEnd::TreeFault) => Exit::TreeFault,
        Err(LoginEnd::NoMemory) => Exit::Memory,
    }
}

/// How the reading of a login's password ends without one.
#[derive(Clone, Copy, Debug, PartialEq, Eq)]
enum LoginEnd {
    /// The file gives none.
    Bad(BadPassword),
    /// The tree failed.
    TreeFault,
    /// No memory was left.
    NoMemory,
}

/// The line of a request's head that says the login's user, and the password of its file.
fn read_login<T: Tree>(alloc: Global, tree: &mut T, login: Login<'_>) -> Result<Text, LoginEnd>
    ensures line { IfOk result (λ line. (password : List ℕ) × PasswordIs (T.files tree.old) login.entry.password_file.now (Ok password)
        × (line ≡ authorization login.entry.user.now password)) }
    ensures bad { (fault : BadPassword) → result ≡ Err (LoginEnd.Bad fault) → PasswordIs (T.files tree.old) login.entry.password_file.now (Err fault) }
    ensures cause { result ≡ Err LoginEnd.TreeFault → Rose (T.faults tree.old) (T.faults tree.new) }
    ensures first { result ≢ Err LoginEnd.TreeFault → T.faults tree.new ≡ T.faults tree.old }
    ensures files { T.files tree.new ≡ T.files tree.old }
{
    match tree.read(login.password_file) {
        Ok(text) => line_with(alloc, login.user, text.as_slice()),
        Err(TreeErr::Absent) => Err(LoginEnd::Bad(BadPassword::NoFile)),
        Err(TreeErr::TooLarge { .. }) => Err(LoginEnd::Bad(BadPassword::TooLong)),
        Err(TreeErr::Failed) => Err(LoginEnd::TreeFault),
        Err(TreeErr::NoMemory) => Err(LoginEnd::NoMemory),
    }
}

/// The line that says this user, and the password of a file of these bytes.
fn line_with(alloc: Global, user: &str, bytes: &[u8]) -> Result<Text, LoginEnd>
    ensures line { IfOk result (λ line. (password : List ℕ) × (password_in bytes.now ≡ Ok password) × (line ≡ authorization user.now password)) }
    ensures bad { (fault : BadPassword) → result ≡ Err (LoginEnd.Bad fault) → password_in bytes.now ≡ Err fault }
    ensures sound { result ≢ Err LoginEnd.TreeFault }
{
    match password_in(bytes) {
        Ok(password) => match authorization(alloc, user, password) {
            Ok(line) => Ok(line),
            Err(_) => Err(LoginEnd::NoMemory),
        },
        Err(bad) => Err(LoginEnd::Bad(bad)),
    }
}

/// Writes the line that says why a file gives no password.
fn refuse<K: Sink>(bad: BadPassword, out: &mut K) -> Exit
    ensures ends { (files : Option (List TreeFile)) (path : List ℕ) → PasswordIs files path (Err bad)
        → NoPasswordEnds files path (K.held out.old) (K.held out.new) (out.new ≡ out.old) result }
    ensures tree_fault { result ≢ Exit.TreeFault }
    ensures write_fault { result ≡ Exit.WriteFault → Rose (K.faults out.old) (K.faults out.new) }
    ensures output { result ≢ Exit.WriteFault → K.faults out.new ≡ K.faults out.old }
{
    match out.put(bad_password_line(bad)) {
        PutEnd::Done => Exit::BadContest,
        PutEnd::Failed => Exit::WriteFault,
    }
}

/// The line that says why a file gives no password.
fn bad_password_line(bad: BadPassword) -> &'static [u8]
    ensures { result.now ≡ bad_password_line bad }
{
    match bad {
        BadPassword::NoFile => b"bad password: no file\n",
        BadPassword::Empty => b"bad password: empty\n",
        BadPassword::TooLong => b"bad password: too long\n",
        BadPassword::Control => b"bad password: control character\n",
    }
}

/// Works as this judgehost over a connection to the server at this port of an address, and writes a line on how that ended.
/// The connection goes back to the link, whatever its end.
fn work<K: Sink, G: Gate, N: Link, Q: Pause, P: Person>(
    alloc: Global,
    address: &str,
    port: u16,
    caller: Caller,
    fuel: u32,
    out: &mut K,
    gate: &G,
    link: &mut N,
    pause: &Q,
    person: &mut P,
) -> Exit
    requires link { (N.state link.old).returned ≤ (N.state link.old).accepted }
    ensures ends { CallerEnds
        (record { held = N.Conn.held; left = N.Conn.left; faults = (λ c. N.Conn.Source.faults c + N.Conn.Sink.faults c); may_die = (λ point turn. G.may_answer gate.now 1 point turn Go.Die); old = N.state link.old; new = N.state link.new; before = N.faults link.old; now = N.faults link.new })
        caller fuel (K.held out.old) (K.held out.new) (out.new ≡ out.old) result }
    ensures tree_fault { result ≢ Exit.TreeFault }
    ensures write_fault { result ≡ Exit.WriteFault → Rose (K.faults out.old) (K.faults out.new) }
    ensures output { result ≢ Exit.WriteFault → K.faults out.new ≡ K.faults out.old }
    ensures first { result ≡ Exit.Memory → (N.faults link.new ≡ N.faults link.old) ⊎ ((N.state link.old).accepted < (N.state link.new).accepted) }
{
    let name = caller.name;
    let has_login = !caller.lines.as_slice().is_empty();
    let Ok(run) = Box::new(
        alloc,
        move |case: &Case<'_>| -> Result<Kind, NoMemory>
            requires { CanRun (test_case case.now) }
            ensures { IfOk result (λ kind. kind ≡ case_value (test_case case.now)) }
        { run_case(alloc, case) },
    ) else {
        return Exit::Memory;
    };
    let runner = Runner::new(run);
    let Ok(conn) = link.connect(address, port) else {
        return Exit::LinkFault;
    };
    let Worked {
        conn,
        end,
        wrong,
        last,
        claims,
        posts,
    } = work_over(alloc, conn, caller, &runner, gate, pause, u64::from(fuel));
    link.give_back(conn);
    tell_answer(alloc, address, port, last, wrong, has_login, person);
    tell(alloc, name, claims, posts, wrong, end, out)
}

/// The judgehost of this name, which waits where it is said for how long, and whose requests have these further lines.
fn caller_of(name: Name, wait: Option<u16>, lines: Text) -> Caller
    ensures { result ≡ host_of name wait lines }
{
    Caller {
        name,
        waits: wait.is_some(),
        lines,
    }
}

/// Writes the line of a host that ended as `end`, or answers why there is none.
fn tell<K: Sink>(
    alloc: Global,
    name: Name,
    claims: u64,
    posts: u64,
    wrong: Option<Wrong>,
    end: HostEnd,
    out: &mut K,
) -> Exit
    ensures ends { (faults : ℕ) → (end ≡ HostEnd.Bench BenchFault.Link → wrong ≡ None → 1 ≤ faults)
        → ToldEnds name claims posts wrong end faults (K.held out.old) (K.held out.new) (out.new ≡ out.old) result }
    ensures tree_fault { result ≢ Exit.TreeFault }
    ensures write_fault { result ≡ Exit.WriteFault → Rose (K.faults out.old) (K.faults out.new) }
    ensures output { result ≢ Exit.WriteFault → K.faults out.new ≡ K.faults out.old }
{
    let Some(word) = end_word(end) else {
        return fault_of(end, wrong);
    };
    match line_of(alloc, name, claims, posts, word) {
        Ok(line) => match out.put(line.as_slice()) {
            PutEnd::Done => Exit::Done,
            PutEnd::Failed => Exit::WriteFault,
        },
        Err(NoMemory) => Exit::Memory,
    }
}

/// How a host's end is called, where its line is written.
fn end_word(end: HostEnd) -> Option<&'static str>
    ensures { option_map (λ word. word.now) result ≡ end_word end }
{
    match end {
        HostEnd::Idle => Some("idle"),
        HostEnd::Died { .. } => Some("died"),
        HostEnd::Fuel => Some("fuel"),
        HostEnd::Bench(fault) => match fault {
            BenchFault::Holding => Some("holding"),
            BenchFault::NoHost => Some("no-host"),
            BenchFault::Link | BenchFault::NoCase { .. } | BenchFault::NoMemory => None,
        },
        HostEnd::NoMemory => None,
    }
}

/// How a command ends whose host did not come to an end that has a line.
fn fault_of(end: HostEnd, wrong: Option<Wrong>) -> Exit
    ensures tree_fault { result ≢ Exit.TreeFault }
    ensures ends { (faults : ℕ) → (end ≡ HostEnd.Bench BenchFault.Link → wrong ≡ None → 1 ≤ faults) → FaultEnds wrong end faults result }
{
    match end {
        HostEnd::Bench(BenchFault::Link) => match wrong {
            Some(wrong) => Exit::BadAnswer { wrong },
            None => Exit::LinkFault,
        },
        _ => Exit::Memory,
    }
}

/// The line of a host: what it did, and how it ended.
fn line_of(
    alloc: Global,
    name: Name,
    claims: u64,
    posts: u64,
    word: &str,
) -> Result<Vec<u8>, NoMemory>
    ensures { IfOk result (λ line. line.items ≡ host_line name claims posts word.now) }
{
    let mut line = b"host ".to_vec(alloc)?;
    push(&mut line, name.as_bytes())?;
    let counts = format!(in alloc; " claims {claims} posted {posts} ")?;
    push(&mut line, counts.as_bytes())?;
    push(&mut line, word.as_bytes())?;
    push(&mut line, b"\n")?;
    Ok(line)
}

/// Puts the bytes behind what is there.
fn push(line: &mut Vec<u8>, bytes: &[u8]) -> Result<(), NoMemory>
    ensures { OnOk result (line.new.items ≡ line.old.items ++ bytes.now) }
{
    line.extend_from_slice(bytes).map_err(|_| NoMemory)
}
