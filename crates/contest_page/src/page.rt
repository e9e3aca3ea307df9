ghost use Rattle.std.specs.Prelude.{◌≡◌, ◌++◌, IfOk};
ghost use Rattle.contest_page.specs.Page.{rows_from, page_text};

use crate::table::push_rows;
use crate::view::{ContestView, SubmissionRow};
use farm_kinds::{Answer, NoMemory, Text};
use std::alloc::Global;

/// What stands before the rows of the page.
pub const BEFORE: &str = r##"<!DOCTYPE html>
<html lang="en">
<head>
<meta charset="utf-8">
<meta name="viewport" content="width=device-width, initial-scale=1">
<title>Submissions</title>
<noscript><meta http-equiv="refresh" content="30"></noscript>
<style>
:root { color-scheme: light dark; --ink: #1b1f24; --dim: #57606a; --paper: #fff; --line: #d0d7de; --good: #116329; --bad: #a40e26; --limit: #7a4100; --other: #6639ba; }
@media (prefers-color-scheme: dark) { :root { --ink: #e6edf3; --dim: #9ea7b3; --paper: #0d1117; --line: #30363d; --good: #56d364; --bad: #ff8a80; --limit: #f0b429; --other: #d2a8ff; } }
body { margin: 0 auto; max-width: 56rem; padding: 1rem; font: 1rem/1.5 system-ui, sans-serif; color: var(--ink); background: var(--paper); }
h1 { margin: 0; font-size: 1.5rem; }
p { margin: .5rem 0; color: var(--dim); }
#filter { display: flex; flex-wrap: wrap; gap: .5rem 1rem; margin: .5rem 0; }
#filter[hidden] { display: none; }
label { flex: 1 1 12rem; }
input, select { box-sizing: border-box; width: 100%; height: 2.5rem; padding: .4rem; font: inherit; color: inherit; background: var(--paper); border: 1px solid var(--dim); border-radius: .3rem; }
table { width: 100%; border-collapse: collapse; }
th, td { padding: .3rem .5rem; text-align: left; vertical-align: top; overflow-wrap: anywhere; border-bottom: 1px solid var(--line); }
thead th { position: sticky; top: 0; overflow-wrap: normal; background: var(--paper); border-bottom: 2px solid var(--dim); }
.verdict { padding-left: 1.6em; }
tbody th { font-weight: normal; font-variant-numeric: tabular-nums; overflow-wrap: normal; color: var(--dim); }
td:last-child { padding-left: 1.6em; font-weight: 600; overflow-wrap: normal; color: var(--limit); }
td:last-child::before { display: inline-block; width: 1.3em; margin-left: -1.3em; content: "\25b2"; content: "\25b2" / ""; }
td.correct { color: var(--good); }
td.correct::before { content: "\2713"; content: "\2713" / ""; }
td.wrong-answer, td.run-error { color: var(--bad); }
td.wrong-answer::before, td.run-error::before { content: "\2717"; content: "\2717" / ""; }
td.judging-error, td.compiler-error { color: var(--other); }
td.judging-error::before, td.compiler-error::before { content: "!"; content: "!" / ""; }
td.pending { font-weight: normal; color: var(--dim); }
td.pending::before { content: "\2026"; content: "\2026" / ""; }
#none { display: none; }
table:has(tbody:empty) + #none { display: block; }
@media (max-width: 30rem) { body { padding: .5rem; } th, td { padding: .3rem .2rem; } }
</style>
</head>
<body>
<h1 id="title">Submissions</h1>
<p id="state" role="status"></p>
<div id="filter" role="search" hidden>
<label>Team <input id="team" type="search" list="teams" autocomplete="off" spellcheck="false"></label>
<label>Problem <select id="problem"><option value="">All problems</option></select></label>
<datalist id="teams"></datalist>
</div>
<p id="count" role="status"></p>
<table aria-labelledby="title">
<thead><tr><th scope="col">No.</th><th scope="col">Team</th><th scope="col">Problem</th><th scope="col" class="verdict">Verdict</th></tr></thead>
<tbody id="rows">"##;

/// What stands behind the rows of the page.
pub const BEHIND: &str = r##"</tbody>
</table>
<p id="none">There are no submissions.</p>
<script>
"use strict";
const at = id => document.getElementById(id);
const rows = at("rows").rows;
const say = (id, text) => { if (at(id).textContent !== text) at(id).textContent = text; };

function filter() {
  const team = at("team").value.trim().toLowerCase(), problem = at("problem").value;
  let shown = 0;
  for (const row of rows) {
    const fits = row.cells[1].textContent.toLowerCase().includes(team) && (!problem || row.cells[2].textContent === problem);
    row.hidden = !fits;
    shown += fits;
  }
  say("count", team || problem ? `${shown} of ${rows.length} are shown.` : "");
}

function choices(cell) {
  return [...new Set(Array.from(rows, row => row.cells[cell].textContent))].sort();
}

function offer() {
  const chosen = at("problem").value;
  at("teams").replaceChildren(...choices(1).map(name => new Option(name, name)));
  at("problem").replaceChildren(new Option("All problems", ""), ...choices(2).map(name => new Option(name, name)));
  at("problem").value = chosen;
  if (at("problem").value !== chosen) at("problem").value = "";
}

function build(submissions) {
  const made = document.createDocumentFragment();
  for (const { submission, team, problem } of submissions) {
    const row = document.createElement("tr"), number = document.createElement("th");
    number.scope = "row";
    number.textContent = submission;
    row.append(number);
    for (const text of [team, problem, ""]) row.insertCell().textContent = text;
    made.append(row);
  }
  at("rows").replaceChildren(made);
  offer();
}

function judge(cell, word) {
  if (cell.textContent === word) return;
  cell.textContent = word;
  cell.className = word;
}

async function ask(path) {
  const answer = await fetch(path, { cache: "no-store" });
  if (!answer.ok) throw new Error(answer.status);
  return answer.json();
}

async function refresh() {
  try {
    const seen = (await ask("public")).rows;
    if (seen.length !== rows.length) build((await ask("contest")).submissions);
    for (const { submission, verdict } of seen) if (rows[submission - 1]) judge(rows[submission - 1].cells[3], verdict);
    filter();
    say("state", "The table is refreshed every 5 seconds.");
  } catch {
    say("state", "The server does not answer. The table may be old; it is asked again.");
  }
  setTimeout(refresh, 5000);
}

offer();
at("filter").hidden = false;
at("filter").addEventListener("input", filter);
refresh();
</script>
</body>
</html>
"##;

/// A page of what stands before its rows, the rows, and what stands behind them.
fn page_with(
    alloc: Global,
    before: &str,
    entries: &[SubmissionRow],
    answers: &[Answer],
    behind: &str,
) -> Result<Text, NoMemory>
    ensures { IfOk result (λ text. text ≡ before.now ++ (rows_from 0 entries.now answers.now ++ behind.now)) }
{
    let mut page = Vec::from_slice(alloc, before.as_bytes())?;
    push_rows(alloc, &mut page, entries, answers)?;
    page.extend_from_slice(behind.as_bytes())?;
    Ok(Text::from_vec(page))
}

/// The page of a contest where the public sees these answers, one for each submission from the first on.
pub fn write_page(alloc: Global, view: &ContestView, answers: &[Answer]) -> Result<Text, NoMemory>
    ensures { IfOk result (λ text. text ≡ page_text view.now answers.now) }
{
    page_with(alloc, BEFORE, view.entries(), answers, BEHIND)
}
