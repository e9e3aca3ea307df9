//! What help says of each command, operand and option: its text, the name of its value, and the range of a number. This
//! is the one place where they stand; the grammar takes them from here by name.

/// What help says of an operand or an option.
#[derive(Clone, Copy)]
pub(crate) struct Description<'a> {
    /// How help names the value.
    pub value: &'a str,
    /// One line, which says the range too.
    pub help: &'a str,
    /// The least and the greatest number, where the value is one.
    pub range: Option<(u32, u32)>,
}

/// What help says of the operand or the option of this name in this command.
pub(crate) fn described(command: &str, id: &str) -> Description<'static> {
    match command {
        "judge" => of_judge(id),
        "make" => of_make(id),
        "serve" => of_serve(id),
        "host" => of_host(id),
        "store" => text(
            "FILE",
            "The file of a store, as 'farm script --store FILE' makes it",
        ),
        _ => of_script(id),
    }
}

fn of_judge(id: &str) -> Description<'static> {
    match id {
        "folder" => text("FOLDER", FOLDER),
        "hosts" => number(
            "N",
            (0, 16),
            "How many hosts run at the same time, 0 to 16; with 0 the program runs the tests by itself",
        ),
        _ => text(
            "",
            "Writes a line for each call of the farm behind the table",
        ),
    }
}

fn of_script(id: &str) -> Description<'static> {
    match id {
        "config" => text(
            "FILE",
            "Settings in JSON: priorities, remapping, lazy evaluation, modes, leases, verification",
        ),
        _ => text(
            "FILE",
            "Goes on from the events that this file keeps, and keeps in it those that follow",
        ),
    }
}

fn of_make(id: &str) -> Description<'static> {
    match id {
        "number" => number(
            "NUMBER",
            (0, u32::MAX),
            "Which contest is made, 0 to 4294967295",
        ),
        "problems" => number("PROBLEMS", (1, 50), "How many problems it has, 1 to 50"),
        _ => number(
            "SUBMISSIONS",
            (1, 2000),
            "How many submissions it has, 1 to 2000",
        ),
    }
}

fn of_serve(id: &str) -> Description<'static> {
    match id {
        "folder" => text("FOLDER", FOLDER),
        "port" => number(
            "P",
            (0, 65535),
            "The port, 0 to 65535; 0 is any port that is free",
        ),
        "lanes" => number(
            "N",
            (1, 16),
            "How many connections are answered at the same time, 1 to 16",
        ),
        "connections" => number(
            "M",
            (1, 100_000),
            "Ends after so many connections, 1 to 100000; if it is left out, as many are answered as come",
        ),
        "patience" => number(
            "SECONDS",
            (1, 3600),
            "Ends a connection that says or takes nothing for so long, 1 to 3600; 60 if it is left out",
        ),
        "address" => text(
            "ADDRESS",
            "The IPv4 or IPv6 address at which it listens; 127.0.0.1 if it is left out",
        ),
        _ => text(
            "",
            "Accepts no connection any more once standard input has ended",
        ),
    }
}

fn of_host(id: &str) -> Description<'static> {
    match id {
        "address" => text("ADDRESS", "The server: an IPv4 or IPv6 address, or a name"),
        "port" => number("P", (1, 65535), "The server's port, 1 to 65535"),
        "name" => text(
            "NAME",
            "The judgehost's name: 1 to 32 letters, digits, '_' and '-'",
        ),
        "fuel" => number(
            "F",
            (1, u32::MAX),
            "How often it asks for a task at most, 1 to 4294967295",
        ),
        "wait" => number(
            "SECONDS",
            (1, 60),
            "Pauses so long where no task is open, 1 to 60, and asks again",
        ),
        "user" => text(
            "USER",
            "The user whom a proxy before the server asks for, without ':'",
        ),
        _ => text(
            "FILE",
            "The file that holds the user's password: 1 to 1024 bytes, and perhaps a line end",
        ),
    }
}

/// One line of help on the command of this name.
pub(crate) fn about(command: &str) -> &'static str {
    match command {
        "judge" =>
            "Judges the contest in a folder, and writes a line NUMBER TEAM PROBLEM VERDICT for each submission",
        "script" => "Reads event lines from standard input, and writes the reply to each",
        "store" => "Writes the events that a store keeps, as event lines",
        "make" =>
            "Makes a contest of a number, judges it on two hosts, and writes how many submissions have each verdict",
        "serve" => "Answers judgehosts and the jury by HTTP, on the contest in a folder",
        "host" =>
            "Works as a judgehost for 'farm serve' on another machine: runs tests, and posts their results",
        _ => "The judging back end of a programming contest",
    }
}

/// What stands behind the help on the command of this name.
pub(crate) fn remarks(command: &str) -> &'static str {
    match command {
        "judge" => JUDGE,
        "script" => SCRIPT,
        "store" => STORE,
        "make" => MAKE,
        "serve" => SERVE,
        "host" => HOST,
        _ => STATUSES,
    }
}

fn text<'a>(value: &'a str, help: &'a str) -> Description<'a> {
    Description {
        value,
        help,
        range: None,
    }
}

fn number<'a>(value: &'a str, range: (u32, u32), help: &'a str) -> Description<'a> {
    Description {
        value,
        help,
        range: Some(range),
    }
}

/// What help says of a contest's folder.
const FOLDER: &str =
    "The contest: problems/NAME/ for each package, submissions.txt, submissions/, farm.json";

const STATUSES: &str = "\
Status: 0 done, 2 usage, 3 bad settings, contest or password, 4 read fault, 5 write
fault, 6 no memory, 7 file fault, 8 port or connection fault, 9 input limit, 10 no
connection to the server, 11 wrong answer of the server, 12 a store that failed,
13 no store of this configuration, 14 a full store.";

const JUDGE: &str = "\
With --journal a line 'journal PASS LINE => REPLY' follows for each call that was
made of the farm: PASS is 0 for farm itself, LINE is a line of 'farm script', and
REPLY what is written for it.";

const MAKE: &str = "\
Written are the counts and the SHA-256 digest of the table that 'farm judge' would
write. They are the same in every run.";

const SERVE: &str = "\
Standard error says at which port it listens. Standard output gets a line
'conn I requests R END' for each connection when it ended, and then the board:
after M connections, where --connections says so, or with --until-input-ends once
standard input has ended and those who were let in are done. It asks for no
passwords: put a proxy before it that does.";

const HOST: &str = "\
Written is one line 'host NAME claims C posted R END': how often it asked for a
task, how many results it posted, and why it stopped. END is idle (no task is
open), fuel (it asked F times), no-host (the server does not know it, or has
brought it down) or holding (it holds as many tasks as it may). With --wait it
does not end as idle. A server that does not answer for a minute ends it.
Where a proxy before the server asks for a user and a password, give both --user
and --password-file: each request says them, in Base64 (RFC 7617). Everyone on the
way can read them, so let the connection go through a tunnel (ssh, stunnel).";

const SCRIPT: &str = "\
Lines:
  problem NAME N                 a problem with N tests
  replace NAME N                 its next version, with N tests
  host NAME                      a judgehost comes up
  submit NAME [CLASS] [broken]   a submission; CLASS is high, normal or low
  claim HOST                     the host asks for a task
  fetch HOST B                   the host asks for up to B tests of one judging
  result HOST J T KIND           the host's result of test T of judging J
  record J T KIND                a result from outside
  renew HOST J T                 the host asks to hold what it has of J for longer
  tick N                         time goes on to moment N, in seconds
  down HOST                      the host goes down
  show J                         what is reported of judging J
  owner J                        the submission that judging J is of
  board                          what the public sees of each submission
  rejudge S,S,..                 has submissions judged anew, out of sight
  matrix R                       old and new answers of rejudging R
  apply R, cancel R              makes its judgings the current ones; drops them
  verify J                       lets the public see judging J
  ask J                          has hosts judge a judging that waits
  audit                          the audit log's length and last digest
problem, replace, rejudge, apply, cancel, verify and ask may begin with @NAME,
which says who acts. Empty lines, and lines whose first word begins with #, have
no reply.
With --store each event that changes something is on the disk before its reply is
written: a machine that fails loses no event that was answered. FILE is made
where it is missing, and a later run with the same settings goes on from it. The
status is 12 where the disk failed, 13 where FILE is no store of these settings,
and 14 where it is full, at 1 GiB.";

const STORE: &str = "\
The first line is a comment, which says of which settings the store is. The
others are events in their order: 'farm script' with the same settings leads by
them to what the store holds. Nothing is written to FILE. The status is 12 where
the disk failed, and 13 where FILE is no store.";
