ghost use Rattle.std.specs.Prelude.{◌≡◌, ◌∷◌, [], ◌≤◌, ◌<◌, length, true, IfOk, OnOk, OnErr};

use crate::rows::{
    are_words, check_row, is_reported, is_said, moment, number, parts_of, rank, rule_of, word,
};
use farm_kinds::{
    AskEnd, Claim, Class, Count, Fetched, Kind, Mode, NoMemory, Numbers, Renewed, Rule, Task,
};
use judging_core::{Judge, Steps};
use std::alloc::Global;
use std::marker::Brand;
use std::sync::ledger::{Blank, Ledger};
use std::test::Fail;

/// Judges with leases of a minute, a row each: what is shown of the judge, behind `|` its rule, behind the next `|` in
/// which mode it judges (in each of the two behind `each`), and behind the last `|` what it is asked, each step before
/// a `~` and what it should answer behind `=`. Numbers of a step are, in this order, those of a host, of a judging and
/// of a test, as far as it has them.
///
/// `set-up` adds a judging, of as many tests as it says, and two hosts. `host`, `add` and `add-waiting` are answered
/// the number of what they add, the last two a judging of the class normal, of as many tests as they say; that of
/// `add-waiting` waits to be asked for. `reserve` makes room ahead for judgings of these numbers of tests, and
/// `add-reserved` makes it and adds them: the first of the class low, the second of the class high, and the third of
/// the class normal. A claim is `handed` a judging, a test and until when; the host that does `claim-each` claims once
/// for each test from one to another of judging 1, and is handed them in turn. A `fetch`, which says behind its host
/// how many tasks it takes at most, is handed a `batch`: a judging, its tests from one to another, and until when.
/// `tick`, with a moment, and `down` are answered how many leases end.
const ROWS: &str = concat!(
    "final once every cell is filled|standard|each|",
    "set-up 2~",
    "enter 1 2 run-error = counted~",
    "answer 1 = pending~",
    "enter 1 1 correct = counted~",
    "answer 1 = final run-error~",
    "judgings = 1~",
    "answer 2 = none~",
    "\n",
    "lazy judging ends once the verdict is known|standard|lazy|",
    "set-up 2~",
    "enter 1 1 run-error = counted~",
    "answer 1 = final run-error~",
    "claim 1 = nothing~",
    "\n",
    "full judging goes on once the verdict is known|standard|full|",
    "set-up 2~",
    "enter 1 1 run-error = counted~",
    "answer 1 = pending~",
    "claim 1 = handed 1 2 60~",
    "result 1 2 correct = counted~",
    "answer 1 = final run-error~",
    "\n",
    "what cannot change a verdict is not before the next judging|standard|lazy|",
    "set-up 1000~",
    "add 1000 = 2~",
    "add 1 = 3~",
    "claim 1 = handed 1 1 60~",
    "result 1 1 run-error = counted~",
    "answer 1 = final run-error~",
    // of the second judging the first two tests still matter
    "enter 2 3 run-error = counted~",
    "claim 1 = handed 2 1 60~",
    "claim 2 = handed 2 2 60~",
    "claim 2 = handed 3 1 60~",
    "claim 2 = nothing~",
    "\n",
    "a tie waits for an earlier rank|standard|lazy|",
    "set-up 3~",
    "enter 1 2 run-error = counted~",
    "answer 1 = pending~",
    "claim 1 = handed 1 1 60~",
    "claim 2 = nothing~",
    "result 1 1 correct = counted~",
    "answer 1 = final run-error~",
    "claim 1 = nothing~",
    // a result that comes all the same is kept, and the verdict stays
    "enter 1 3 timelimit = counted~",
    "answer 1 = final run-error~",
    "\n",
    "a middle priority does not stop|standard|lazy|",
    "set-up 2~",
    "enter 1 1 wrong-answer = counted~",
    "answer 1 = pending~",
    "claim 1 = handed 1 2 60~",
    "\n",
    "a unique greatest priority stops|one-greatest|lazy|",
    "set-up 3~",
    "enter 1 3 run-error = counted~",
    "answer 1 = final run-error~",
    "claim 1 = nothing~",
    "\n",
    "one possible kind needs no test|one-kind|lazy|",
    "set-up 2~",
    "answer 1 = final run-error~",
    "claim 1 = nothing~",
    "\n",
    "with equal priorities the first test decides|equal|lazy|",
    "set-up 3~",
    "enter 1 2 correct = counted~",
    "answer 1 = pending~",
    "claim 1 = handed 1 1 60~",
    "claim 2 = nothing~",
    "result 1 1 run-error = counted~",
    "answer 1 = final run-error~",
    "\n",
    "a judging waits until it is asked for|standard|each|",
    "set-up 1~",
    "add-waiting 2 = 2~",
    "claim 1 = handed 1 1 60~",
    "claim 2 = nothing~",
    "asked 1 = yes~",
    "asked 2 = no~",
    "ask 3 = no-judging~",
    "ask 1 = already~",
    "answer 2 = pending~",
    "ask 2 = done~",
    "ask 2 = already~",
    "asked 2 = yes~",
    "claim 2 = handed 2 1 60~",
    "claim 1 = handed 2 2 60~",
    // one that is dropped is not asked for, and one that waits takes results from outside
    "add-waiting 1 = 3~",
    "drop 3~",
    "ask 3 = dropped~",
    "add-waiting 1 = 4~",
    "enter 4 1 correct = counted~",
    "answer 4 = final correct~",
    "\n",
    "a broken submission is final at once|standard|each|",
    "set-up 0~",
    "answer 1 = final compiler-error~",
    "claim 1 = nothing~",
    "\n",
    "a late result counts|standard|each|",
    "set-up 2~",
    "claim 1 = handed 1 1 60~",
    "tick 60 = 1~",
    "renew 1 1 1 = no-lease~",
    "result 1 1 correct = counted~",
    "claim 2 = handed 1 2 120~",
    "\n",
    "the first result stays|standard|each|",
    "set-up 2~",
    "result 1 1 correct = not-handed~",
    "claim 1 = handed 1 1 60~",
    "result 1 1 correct = counted~",
    "result 1 1 correct = repeat correct~",
    "result 1 1 run-error = differs correct run-error~",
    "enter 1 1 run-error = differs correct run-error~",
    "enter 1 3 run-error = no-test~",
    "result 2 1 run-error = no-judging~",
    "\n",
    "one before the end|standard|lazy|",
    "set-up 3~",
    "claim 1 = handed 1 1 60~",
    "tick 59 = 0~",
    "claim 2 = handed 1 2 119~",
    "tick 60 = 1~",
    "claim 2 = handed 1 1 120~",
    "renew 2 1 2 = until 120~",
    "renew 1 1 2 = no-lease~",
    "tick 119 = 0~",
    "tick 120 = 2~",
    "\n",
    "a host dies and returns|standard|lazy|",
    "set-up 2~",
    "claim 1 = handed 1 1 60~",
    "down 2 = 0~",
    "down 1 = 1~",
    "down 1 = 0~",
    "claim 2 = handed 1 1 60~",
    "claim 1 = handed 1 2 60~",
    "claim 1 = nothing~",
    "down 2 = 1~",
    "host = 3~",
    "claim 3 = handed 1 1 60~",
    "\n",
    "a host holds at most 64|standard|lazy|",
    "set-up 66~",
    "claim-each 1 1 64~",
    "claim 1 = holding~",
    "claim 2 = handed 1 65 60~",
    "result 1 7 correct = counted~",
    "claim 1 = handed 1 66 60~",
    "claim 2 = nothing~",
    "\n",
    "leases end where nothing is left to judge|standard|lazy|",
    "set-up 3~",
    "fetch 1 2 = batch 1 1 2 60~",
    "fetch 2 16 = batch 1 3 3 60~",
    "fetch 2 1 = nothing~",
    "tick 10 = 0~",
    "renew 1 1 2 = until 70~",
    "tick 60 = 1~",
    "claim 2 = handed 1 3 120~",
    // the first test decides: the leases on the others end
    "result 1 1 run-error = counted~",
    "renew 1 1 2 = no-lease~",
    "down 2 = 0~",
    "result 1 2 correct = counted~",
    "\n",
    "leases stay where all is left to judge|standard|full|",
    "set-up 3~",
    "fetch 1 3 = batch 1 1 3 60~",
    "result 1 1 run-error = counted~",
    "renew 1 1 3 = until 60~",
    "down 1 = 2~",
    "\n",
    "a batch is of at most 16|standard|each|",
    "set-up 65~",
    "fetch 1 0 = batch 1 1 1 60~",
    "fetch 1 255 = batch 1 2 17 60~",
    "claim-each 1 18 60~",
    "fetch 1 16 = batch 1 61 64 60~",
    "fetch 1 1 = holding~",
    "fetch 2 16 = batch 1 65 65 60~",
    "fetch 2 16 = nothing~",
    "\n",
    "a batch is of one judging|standard|each|",
    "set-up 3~",
    "add 2 = 2~",
    "claim 1 = handed 1 1 60~",
    "fetch 2 16 = batch 1 2 3 60~",
    "fetch 2 16 = batch 2 1 2 60~",
    "fetch 2 16 = nothing~",
    "\n",
    // a lease from the last moment ends a minute behind it
    "time stops at its last moment|standard|lazy|",
    "set-up 2~",
    "claim 1 = handed 1 1 60~",
    "tick 1000000000000000000 = 1~",
    "claim 1 = handed 1 1 1000000000000000059~",
    "tick 18446744073709551615 = 0~",
    "tick 0 = 0~",
    "renew 1 1 1 = until 1000000000000000059~",
    "claim 2 = handed 1 2 1000000000000000059~",
    "\n",
    "a judging that is dropped takes no more results, keeps its cells, and holds no lease|standard|lazy|",
    "set-up 2~",
    "claim 1 = handed 1 1 60~",
    "claim 2 = handed 1 2 60~",
    "result 1 2 correct = counted~",
    "dropped 1 = no~",
    "drop 1~",
    "dropped 1 = yes~",
    "result 1 1 correct = dropped~",
    "enter 1 1 correct = dropped~",
    "enter 1 2 correct = repeat correct~",
    "claim 1 = nothing~",
    "tick 60 = 0~",
    "answer 1 = pending~",
    "\n",
    "room that is made ahead is taken in order, and a judging that is made ahead is like another|standard|lazy|",
    "host = 1~",
    "add-reserved 2 0 3~",
    "judgings = 3~",
    "answer 1 = pending~",
    "answer 2 = final compiler-error~",
    // the third is of the class normal, and the first of the class low
    "claim 1 = handed 3 1 60~",
    "claim 1 = handed 3 2 60~",
    "claim 1 = handed 3 3 60~",
    "claim 1 = handed 1 1 60~",
    "claim 1 = handed 1 2 60~",
    "claim 1 = nothing~",
    "result 3 3 run-error = counted~",
    "result 3 4 run-error = no-test~",
    "enter 1 3 run-error = no-test~",
    "\n",
    "a judging with another number of tests ends what was reserved, and is as it was asked for|standard|full|",
    "reserve 2 0 3~",
    "add 2 = 1~",
    "add 1 = 2~",
    "add 0 = 3~",
    "enter 2 1 correct = counted~",
    "answer 2 = final correct~",
    "answer 3 = final compiler-error~",
    "\n",
    "what is reserved again replaces what was reserved before|standard|lazy|",
    "reserve 2 0 3~",
    "add-reserved 0 1 1~",
    "judgings = 3~",
    "answer 1 = final compiler-error~",
    "answer 2 = pending~",
    "enter 2 2 correct = no-test~",
    "enter 2 1 correct = counted~",
    "enter 3 1 run-error = counted~",
    "add 2 = 4~",
    "\n",
);

/// Whether a claim is answered as `wanted`.
fn is_claim(claim: Claim, wanted: &str) -> bool {
    let what = match claim {
        Claim::Holding => "holding",
        Claim::Nothing => "nothing",
        Claim::Handed { task, until } => {
            if !is_task(task, wanted) || until != moment(wanted, 3) {
                return false;
            }
            "handed"
        }
    };
    word(wanted, 0) == what
}

/// Whether the task is that of the judging and the test behind the first word.
fn is_task(task: Task, wanted: &str) -> bool {
    task.judging == number(wanted, 1) && task.test == rank(wanted, 2)
}

/// Whether a fetch is answered as `wanted`.
fn is_fetched(answer: &Fetched, wanted: &str) -> bool {
    match answer {
        Fetched::Holding => wanted == "holding",
        Fetched::Nothing => wanted == "nothing",
        Fetched::Batch {
            judging,
            tests,
            until,
        } => {
            word(wanted, 0) == "batch"
                && *judging == number(wanted, 1)
                && are_all(tests.as_slice(), rank(wanted, 2), rank(wanted, 3))
                && *until == moment(wanted, 4)
        }
    }
}

/// Whether these are the tests from one to another.
fn are_all(tests: &[u16], first: u16, last: u16) -> bool {
    let mut next = first;
    for test in tests {
        if *test != next {
            return false;
        }
        next = next.saturating_add(1);
    }
    next == last.saturating_add(1)
}

/// Whether a result is answered as `wanted`.
fn is_count(count: Count, wanted: &str) -> bool {
    let (what, kept, given) = match count {
        Count::NoJudging => ("no-judging", "", ""),
        Count::NoTest => ("no-test", "", ""),
        Count::NotHanded => ("not-handed", "", ""),
        Count::Repeat { kept } => ("repeat", kept.name(), ""),
        Count::Differs { kept, given } => ("differs", kept.name(), given.name()),
        Count::Dropped => ("dropped", "", ""),
        Count::Counted => ("counted", "", ""),
    };
    are_words(wanted, what, kept) && word(wanted, 2) == given
}

/// Whether a host that renews its leases is answered as `wanted`.
fn is_renewed(renewed: Renewed, wanted: &str) -> bool {
    let what = match renewed {
        Renewed::NoJudging => "no-judging",
        Renewed::NoTest => "no-test",
        Renewed::NoLease => "no-lease",
        Renewed::Until { until } => {
            if until != moment(wanted, 1) {
                return false;
            }
            "until"
        }
    };
    word(wanted, 0) == what
}

/// Whether the jury that asks for a judging is answered as `wanted`.
fn is_ask_end(end: AskEnd, wanted: &str) -> bool {
    let what = match end {
        AskEnd::NoJudging => "no-judging",
        AskEnd::Dropped => "dropped",
        AskEnd::Already => "already",
        AskEnd::Done => "done",
    };
    wanted == what
}

/// Whether what is wanted is said of a judging that is there.
fn is_known(said: Option<bool>, wanted: &str) -> bool {
    match said {
        Some(said) => is_said(said, wanted),
        None => false,
    }
}

/// Whether `host`, where it is one of the `hosts`, claims a task and is answered as `wanted`.
fn claims(judge: &mut Judge, hosts: u32, host: u32, wanted: &str) -> bool
    requires { judge.old.hosts ≡ hosts }
    ensures { judge.new.hosts ≡ hosts }
{
    if host == 0 || host > hosts {
        return false;
    }
    is_claim(claim(judge, host), wanted)
}

/// Whether `host`, where it is one of the `hosts`, claims once for each test from `first` to `last`, and is handed
/// them in turn.
fn claims_each(judge: &mut Judge, hosts: u32, host: u32, first: u16, last: u16) -> bool
    requires { judge.old.hosts ≡ hosts }
    ensures { judge.new.hosts ≡ hosts }
{
    if host == 0 || host > hosts {
        return false;
    }
    for test in first..=last {
        let task = Task { judging: 1, test };
        if claim(judge, host) != (Claim::Handed { task, until: 60 }) {
            return false;
        }
    }
    true
}

/// Whether `host`, where it is one of the `hosts`, fetches at most `most` tasks and is answered as `wanted`.
fn fetches(judge: &mut Judge, hosts: u32, host: u32, most: &str, wanted: &str) -> bool
    requires { judge.old.hosts ≡ hosts }
    ensures { judge.new.hosts ≡ hosts }
{
    if host == 0 || host > hosts {
        return false;
    }
    let Ok(most) = most.parse::<u8>() else {
        return false;
    };
    is_fetched(&fetch(judge, host, most), wanted)
}

/// Claims a task for a host that is one of these.
fn claim(judge: &mut Judge, host: u32) -> Claim
    requires numbered { 1 ≤ host }
    requires known { host ≤ judge.old.hosts }
    ensures { judge.new.hosts ≡ judge.old.hosts }
{
    claim_by::<Brand>(judge, host, Blank::new(1))
}

/// Claims a task for a host that is one of these, by a counter of steps that is there for the proof alone: it begins at
/// nothing, and the claim takes at most 58.
fn claim_by<L: Ledger>(judge: &mut Judge, host: u32, blank: Blank) -> Claim
    requires name { blank.name ≡ L.name }
    requires parts { blank.parts ≡ L.parts }
    requires one { blank.parts ≡ 1 }
    requires numbered { 1 ≤ host }
    requires known { host ≤ judge.old.hosts }
    ensures { judge.new.hosts ≡ judge.old.hosts }
{
    let mut steps = Steps::<L>::new(blank);
    let claim = judge.claim(host, &mut steps);
    few_steps(&steps);
    claim
}

/// For the proof alone: the count is at most 58 steps.
fn few_steps<L: Ledger>(_steps: &Steps<L>)
    requires { _steps.now ≤ 58 }
{}

/// Fetches tasks for a host that is one of these.
fn fetch(judge: &mut Judge, host: u32, most: u8) -> Fetched
    requires numbered { 1 ≤ host }
    requires known { host ≤ judge.old.hosts }
    ensures { judge.new.hosts ≡ judge.old.hosts }
{
    fetch_by::<Brand>(judge, host, most, Blank::new(1))
}

/// Fetches tasks for a host that is one of these, by a counter of steps that is there for the proof alone.
fn fetch_by<L: Ledger>(judge: &mut Judge, host: u32, most: u8, blank: Blank) -> Fetched
    requires name { blank.name ≡ L.name }
    requires parts { blank.parts ≡ L.parts }
    requires one { blank.parts ≡ 1 }
    requires numbered { 1 ≤ host }
    requires known { host ≤ judge.old.hosts }
    ensures { judge.new.hosts ≡ judge.old.hosts }
{
    let mut steps = Steps::<L>::new(blank);
    judge.fetch(host, most, &mut steps)
}

/// Adds a host where there are not too many, and counts it.
fn add_host(judge: &mut Judge, hosts: &mut u32) -> Result<u32, NoMemory>
    requires { judge.old.hosts ≡ hosts.old }
    ensures { judge.new.hosts ≡ hosts.new }
{
    if *hosts >= 1000 {
        return Err(NoMemory);
    }
    let host = judge.add_host()?;
    *hosts += 1;
    Ok(host)
}

/// Adds a judging where there are not too many.
fn add(judge: &mut Judge, tests: u16, mode: Mode, asked: bool) -> Result<u32, NoMemory>
    ensures { judge.new.hosts ≡ judge.old.hosts }
{
    if judge.judgings() >= 1000 || tests > 1000 {
        return Err(NoMemory);
    }
    judge.add_judging(Class::Normal, tests, mode, asked)
}

/// Makes room ahead for judgings of these three numbers of tests.
fn reserve(
    alloc: Global,
    judge: &mut Judge,
    first: u16,
    second: u16,
    third: u16,
) -> Result<(), NoMemory>
    requires first { first ≤ 1000 }
    requires second { second ≤ 1000 }
    requires third { third ≤ 1000 }
    ensures ok { OnOk result (judge.new ≡ record judge.old { reserved = first ∷ second ∷ third ∷ [] }) }
    ensures err { OnErr result (judge.new ≡ judge.old) }
{
    let mut tests = Numbers::new(alloc);
    tests.push(u32::from(first))?;
    tests.push(u32::from(second))?;
    tests.push(u32::from(third))?;
    judge.reserve(&tests)
}

/// Makes room ahead for three judgings, and adds them. It answers whether none of the three wanted memory,
/// and is proved to answer true.
fn add_reserved(
    alloc: Global,
    judge: &mut Judge,
    mode: Mode,
    first: u16,
    second: u16,
    third: u16,
) -> Result<bool, NoMemory>
    requires few { length judge.old.state.judgings < 1000 }
    requires first { first ≤ 1000 }
    requires second { second ≤ 1000 }
    requires third { third ≤ 1000 }
    ensures added { IfOk result (λ added. added ≡ true) }
    ensures hosts { judge.new.hosts ≡ judge.old.hosts }
{
    reserve(alloc, judge, first, second, third)?;
    if judge.add_judging(Class::Low, first, mode, true).is_err() {
        return Ok(false);
    }
    if judge.add_judging(Class::High, second, mode, true).is_err() {
        return Ok(false);
    }
    Ok(judge.add_judging(Class::Normal, third, mode, true).is_ok())
}

/// Makes room ahead, where the numbers are not too large.
fn reserve_few(alloc: Global, judge: &mut Judge, tests: &str) -> bool
    ensures { judge.new.hosts ≡ judge.old.hosts }
{
    let (first, second, third) = (rank(tests, 1), rank(tests, 2), rank(tests, 3));
    if first > 1000 || second > 1000 || third > 1000 {
        return false;
    }
    reserve(alloc, judge, first, second, third).is_ok()
}

/// Makes room ahead and adds, where there are not too many and the numbers are not too large.
fn add_few_reserved(alloc: Global, judge: &mut Judge, mode: Mode, tests: &str) -> bool
    ensures { judge.new.hosts ≡ judge.old.hosts }
{
    let (first, second, third) = (rank(tests, 1), rank(tests, 2), rank(tests, 3));
    if judge.judgings() >= 1000 || first > 1000 || second > 1000 || third > 1000 {
        return false;
    }
    add_reserved(alloc, judge, mode, first, second, third) == Ok(true)
}

/// Adds a judging of `tests` tests and two hosts.
fn set_up(judge: &mut Judge, hosts: &mut u32, tests: u16, mode: Mode) -> bool
    requires { judge.old.hosts ≡ hosts.old }
    ensures { judge.new.hosts ≡ hosts.new }
{
    add(judge, tests, mode, true).is_ok()
        && add_host(judge, hosts).is_ok()
        && add_host(judge, hosts).is_ok()
}

/// Drops a judging, if it is there.
fn drop_judging(judge: &mut Judge, judging: u32) -> bool
    ensures { judge.new.hosts ≡ judge.old.hosts }
{
    if judging == 0 || judging as usize > judge.judgings() {
        return false;
    }
    judge.drop_judging(judging);
    true
}

/// Whether a judging was dropped that is there.
fn dropped(judge: &Judge, judging: u32) -> Option<bool> {
    if judging == 0 || judging as usize > judge.judgings() {
        return None;
    }
    Some(judge.dropped(judging))
}

/// Whether a judging was asked for that is there.
fn asked(judge: &Judge, judging: u32) -> Option<bool> {
    if judging == 0 || judging as usize > judge.judgings() {
        return None;
    }
    Some(judge.asked(judging))
}

/// Counts a result of a host, where it has a kind.
fn result(judge: &mut Judge, asked: &str, wanted: &str) -> bool
    ensures { judge.new.hosts ≡ judge.old.hosts }
{
    let Some(kind) = Kind::read(word(asked, 3).as_bytes()) else {
        return false;
    };
    is_count(
        judge.result(number(asked, 1), number(asked, 2), kind),
        wanted,
    )
}

/// Counts a result from outside, where it has a kind.
fn enter(judge: &mut Judge, asked: &str, wanted: &str) -> bool
    ensures { judge.new.hosts ≡ judge.old.hosts }
{
    let Some(kind) = Kind::read(word(asked, 3).as_bytes()) else {
        return false;
    };
    is_count(
        judge.enter(number(asked, 1), number(asked, 2), kind),
        wanted,
    )
}

/// Whether a judge of a mode, which has `hosts` hosts, takes a step that adds to it as it should.
fn is_answered(alloc: Global, judge: &mut Judge, hosts: &mut u32, mode: Mode, step: &str) -> bool
    requires { judge.old.hosts ≡ hosts.old }
    ensures { judge.new.hosts ≡ hosts.new }
{
    let (asked, wanted) = parts_of(step, " = ");
    match word(asked, 0) {
        "set-up" => set_up(judge, hosts, rank(asked, 1), mode),
        "host" => add_host(judge, hosts) == Ok(number(wanted, 0)),
        "add" => add(judge, rank(asked, 1), mode, true) == Ok(number(wanted, 0)),
        "add-waiting" => add(judge, rank(asked, 1), mode, false) == Ok(number(wanted, 0)),
        "reserve" => reserve_few(alloc, judge, asked),
        "add-reserved" => add_few_reserved(alloc, judge, mode, asked),
        _ => is_judged(judge, *hosts, asked, wanted),
    }
}

/// Whether a judge with `hosts` hosts takes a step of judging as it should.
fn is_judged(judge: &mut Judge, hosts: u32, asked: &str, wanted: &str) -> bool
    requires { judge.old.hosts ≡ hosts }
    ensures { judge.new.hosts ≡ hosts }
{
    let first = number(asked, 1);
    match word(asked, 0) {
        "claim" => claims(judge, hosts, first, wanted),
        "claim-each" => claims_each(judge, hosts, first, rank(asked, 2), rank(asked, 3)),
        "fetch" => fetches(judge, hosts, first, word(asked, 2), wanted),
        "result" => result(judge, asked, wanted),
        "enter" => enter(judge, asked, wanted),
        "renew" => is_renewed(
            judge.renew(first, number(asked, 2), number(asked, 3)),
            wanted,
        ),
        "tick" => judge.tick(moment(asked, 1)) == number(wanted, 0),
        "down" => judge.down(first) == number(wanted, 0),
        "ask" => is_ask_end(judge.ask(first), wanted),
        "drop" => drop_judging(judge, first),
        _ => is_told(judge, asked, wanted),
    }
}

/// Whether the judge answers a step that only looks as it should.
fn is_told(judge: &Judge, asked: &str, wanted: &str) -> bool {
    let first = number(asked, 1);
    match word(asked, 0) {
        "asked" => is_known(self::asked(judge, first), wanted),
        "dropped" => is_known(dropped(judge, first), wanted),
        "answer" => match judge.answer(first) {
            Some(answer) => is_reported(answer, wanted),
            None => wanted == "none",
        },
        "judgings" => judge.judgings() == number(wanted, 0) as usize,
        _ => false,
    }
}

/// Has a judge without hosts take the steps: the first that it does not answer as it should, or nothing.
fn play<'a>(alloc: Global, judge: &mut Judge, mode: Mode, steps: &'a str) -> &'a str
    requires { judge.old.hosts ≡ 0 }
{
    let mut hosts = 0;
    for step in steps.split('~') {
        if !step.is_empty() && !is_answered(alloc, judge, &mut hosts, mode, step) {
            return step;
        }
    }
    ""
}

/// Has an empty judge of leases of a minute take the steps: the first that it does not answer as it should, or nothing.
/// No other function here owns a judge: each way out of one that does has to be proved to drop it, and so all that it
/// holds.
fn play_by(alloc: Global, rule: Rule, mode: Mode, steps: &str) -> &str {
    let mut judge = Judge::new(alloc, rule, 60);
    let wrong = play(alloc, &mut judge, mode, steps);
    drop(judge);
    wrong
}

/// Has an empty judge take the steps lazily, and then one in full: the first that is not answered as it should, or
/// nothing.
fn play_in_each_mode(alloc: Global, rule: Rule, steps: &str) -> &str {
    let wrong = play_by(alloc, rule, Mode::Lazy, steps);
    if !wrong.is_empty() {
        return wrong;
    }
    play_by(alloc, rule, Mode::Full, steps)
}

/// The first step of a row that is not answered as it should be, or nothing.
fn wrong_step(alloc: Global, row: &str) -> &str {
    let (rule, rest) = parts_of(row, "|");
    let (mode, steps) = parts_of(rest, "|");
    let Some(rule) = rule_of(rule) else {
        return row;
    };
    match mode {
        "lazy" => play_by(alloc, rule, Mode::Lazy, steps),
        "full" => play_by(alloc, rule, Mode::Full, steps),
        _ => play_in_each_mode(alloc, rule, steps),
    }
}

#[test]
fn judges_answer_as_they_should(rt: HostRuntime) -> Result<(), Fail> {
    for row in ROWS.lines() {
        let (shown, row) = parts_of(row, "|");
        check_row(&rt, shown, wrong_step(rt.alloc(), row));
    }
    Ok(())
}
