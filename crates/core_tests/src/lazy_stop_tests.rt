ghost use Rattle.std.specs.Prelude.{◌≡◌, ◌<◌, length};

use crate::rows::{
    are_words, check_row, is_reported, is_said, number, parts_of, rank, rule_of, word,
};
use farm_kinds::{Kind, Mode, Rule};
use lazy_stop::{Put, Row, remapped_is_possible};
use std::alloc::Global;
use std::test::Fail;

/// Rows of cells, a line each: what is shown, behind `|` the rule and how many tests there are, and behind the next `|`
/// the steps, each before a `~`, with what is answered behind `=`. A kind is put as the rule has it.
const ROWS: &str = concat!(
    "a tie goes to the earlier rank|standard 2|",
    "put 2 run-error = first~",
    "lazily = pending~",
    "matters 1 = yes~",
    "up-to = 1~",
    "put 1 timelimit = first~",
    "up-to = 0~",
    "lazily = final timelimit~",
    "\n",
    "a unique greatest priority stops from any rank|one-greatest 3|",
    "put 3 run-error = first~",
    "lazily = final run-error~",
    "matters 1 = no~",
    "\n",
    "one possible kind is final at once|one-kind 2|",
    "lazily = final run-error~",
    "matters 1 = no~",
    "\n",
    "with equal priorities the first test decides|equal 3|",
    "put 2 correct = first~",
    "lazily = pending~",
    "matters 1 = yes~",
    "matters 3 = no~",
    "put 1 run-error = first~",
    "lazily = final run-error~",
    "\n",
    "a middle priority does not stop|standard 2|",
    "put 1 wrong-answer = first~",
    "lazily = pending~",
    "matters 2 = yes~",
    "up-to = 2~",
    "\n",
    "full mode waits for every test|standard 2|",
    "put 1 run-error = first~",
    "put 1 correct = kept run-error~",
    "cell 1 = run-error~",
    "lazily = final run-error~",
    "in-full = pending~",
    "put 2 correct = first~",
    "in-full = final run-error~",
    "\n",
);

/// Whether a kind that is put is answered as `wanted`.
fn is_put(put: Put, wanted: &str) -> bool {
    let (what, kept) = match put {
        Put::First => ("first", ""),
        Put::Kept(kind) => ("kept", kind.name()),
    };
    are_words(wanted, what, kept)
}

/// Whether the kind, as the rule has it, is put in the cell of a test that is there, and is answered as `wanted`.
fn puts(row: &mut Row, rule: Rule, tests: u16, asked: &str, wanted: &str) -> bool
    requires rule { row.old.rule ≡ rule }
    requires tests { length row.old.cells ≡ tests }
    ensures rule { row.new.rule ≡ rule }
    ensures tests { length row.new.cells ≡ tests }
{
    let test = rank(asked, 1);
    if test == 0 || test > tests {
        return false;
    }
    let Some(kind) = Kind::read(word(asked, 2).as_bytes()) else {
        return false;
    };
    remapped_is_possible(&rule, kind);
    is_put(row.put(test, rule.remap(kind)), wanted)
}

/// Whether the empty cell of a test that is there matters, as it should.
fn matters(row: &Row, tests: u16, test: u16, wanted: &str) -> bool
    requires { length row.now.cells ≡ tests }
{
    if test == 0 || test > tests {
        return false;
    }
    match row.cell(test) {
        Some(_) => false,
        None => is_said(row.matters(test), wanted),
    }
}

/// Whether the cell of a test that is there holds what it should.
fn holds(row: &Row, tests: u16, test: u16, wanted: &str) -> bool
    requires { length row.now.cells ≡ tests }
{
    if test == 0 || test > tests {
        return false;
    }
    let held = match row.cell(test) {
        Some(kind) => kind.name(),
        None => "none",
    };
    wanted == held
}

/// Whether the row of the rule, which has `tests` tests, answers the step as it should.
fn is_answered(row: &mut Row, rule: Rule, tests: u16, step: &str) -> bool
    requires rule { row.old.rule ≡ rule }
    requires tests { length row.old.cells ≡ tests }
    requires some { 0 < tests }
    ensures rule { row.new.rule ≡ rule }
    ensures tests { length row.new.cells ≡ tests }
{
    let (asked, wanted) = parts_of(step, " = ");
    match word(asked, 0) {
        "put" => puts(row, rule, tests, asked, wanted),
        "matters" => matters(row, tests, rank(asked, 1), wanted),
        "cell" => holds(row, tests, rank(asked, 1), wanted),
        "up-to" => row.matters_up_to() == number(wanted, 0) as usize,
        "lazily" => is_reported(row.answer(Mode::Lazy), wanted),
        "in-full" => is_reported(row.answer(Mode::Full), wanted),
        _ => false,
    }
}

/// Has a row take the steps: the first that it does not answer as it should, or nothing.
fn play<'a>(row: &mut Row, rule: Rule, tests: u16, steps: &'a str) -> &'a str
    requires rule { row.old.rule ≡ rule }
    requires tests { length row.old.cells ≡ tests }
    requires some { 0 < tests }
{
    for step in steps.split('~') {
        if !step.is_empty() && !is_answered(row, rule, tests, step) {
            return step;
        }
    }
    ""
}

/// Has a row of empty cells take the steps: the first that it does not answer as it should, or nothing.
fn wrong_step<'a>(alloc: Global, made: &str, steps: &'a str) -> &'a str {
    let Some(rule) = rule_of(word(made, 0)) else {
        return "no rule";
    };
    let tests = rank(made, 1);
    if tests == 0 {
        return "no test";
    }
    let Ok(mut row) = Row::new(alloc, rule, tests) else {
        return "no memory";
    };
    let wrong = play(&mut row, rule, tests, steps);
    drop(row);
    wrong
}

#[test]
fn rows_answer_as_they_should(rt: HostRuntime) -> Result<(), Fail> {
    for line in ROWS.lines() {
        let (shown, rest) = parts_of(line, "|");
        let (made, steps) = parts_of(rest, "|");
        check_row(&rt, shown, wrong_step(rt.alloc(), made, steps));
    }
    Ok(())
}
