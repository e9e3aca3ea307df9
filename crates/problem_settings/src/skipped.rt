//! What is skipped of `problem.yaml` and `domjudge-problem.ini`.
ghost use Rattle.std.specs.Prelude.{◌≡◌, ◌≤◌, ◌++◌, ◌∷◌, [], ℕ, IfOk, OnOk, length};
ghost use Rattle.std.specs.Option.{option_map};
ghost use Rattle.problem_settings.specs.Entries.{entries};
ghost use Rattle.problem_settings.specs.Fields.{field_of};
ghost use Rattle.problem_settings.specs.Lines.{parts};
ghost use Rattle.problem_settings.specs.ProblemYaml.{belongs};
ghost use Rattle.problem_settings.specs.Sizes.{is_deeper};
ghost use Rattle.problem_settings.specs.Skipped.{yaml_skipped, skipped_from, skipped_at, limits_skipped, braces_skipped, items_skipped, block_skipped, size_skipped, said_limits};
ghost use Rattle.problem_settings.specs.Views.{below, entry_at, field_value, known_at, line_value, lines_at};

use crate::below::{past_entry, past_item};
use crate::bytes::{after_spaces, content_of, cut, is_blank, is_indented, trimmed, without_mark};
use crate::fields::{Field, field_of};
use crate::keys::Key;
use crate::lines::{Line, Lines};
use crate::reading::said_in;
use crate::scalars::plain_text;
use crate::sizes::{Sizes, before_brace, names_no_size};
use farm_kinds::{NoMemory, Text};
use std::alloc::Global;

/// Where a key stands.
#[derive(Clone, Copy, Debug, PartialEq, Eq)]
pub enum Section {
    /// At the beginning of a line.
    Top,
    /// Under `limits`.
    Limits,
}

/// A key that is not read.
#[derive(Debug, Drop)]
pub struct SkippedKey {
    /// The number of its line, from 1.
    pub line: u32,
    /// Where it stands.
    pub section: Section,
    /// The key.
    pub key: Text,
}

/// The keys of `problem.yaml` that are not read, in the order of their lines: those that no rule of this part of the
/// format names, also under `limits`. The lines that belong to a skipped key are skipped with it.
#[tactic(auto, unfolding(crate::specs::Skipped::yaml_skipped))]
pub fn yaml_skipped(alloc: Global, bytes: &[u8]) -> Result<Vec<SkippedKey>, NoMemory>
    requires { length bytes.now ≤ 16777216 }
    ensures { IfOk result (λ keys. keys.items ≡ yaml_skipped bytes.now) }
{
    let mut keys = Vec::new(alloc);
    push_entries(alloc, &mut keys, &Lines::new(without_mark(bytes)))?;
    Ok(keys)
}

/// The limits that `problem.yaml` says, in MiB, before they are cut down to the most that there is. None where it has a
/// faulty line.
#[tactic(auto, unfolding(crate::specs::Skipped::said_limits))]
pub fn said_limits(bytes: &[u8]) -> Sizes
    requires { length bytes.now ≤ 16777216 }
    ensures { result ≡ said_limits bytes.now }
{
    match said_in(&Lines::new(without_mark(bytes))) {
        Ok(said) => said.sizes.unwrap_or(Sizes::NONE),
        Err(_) => Sizes::NONE,
    }
}

/// Adds the keys of the entries of these lines that are not read.
#[tactic(auto, using(crate::proofs::SkippedLemmas::entry_step))]
fn push_entries(alloc: Global, keys: &mut Vec<SkippedKey>, lines: &Lines) -> Result<(), NoMemory>
    ensures { OnOk result (keys.new.items ≡ keys.old.items ++ skipped_from (entries belongs (lines_at lines.now))) }
{
    let mut left = *lines;
    while let Some(head) = left.first {
        let behind = left.next();
        push_entry(alloc, keys, &head, &behind)?;
        left = past_entry(&head, &behind);
    }
    Ok(())
}

/// Adds the keys of an entry, whose lines begin with its head and go on with these, that are not read.
#[tactic(auto, using(crate::proofs::SkippedLemmas::limits_entry))]
fn push_entry(
    alloc: Global,
    keys: &mut Vec<SkippedKey>,
    head: &Line,
    lines: &Lines,
) -> Result<(), NoMemory>
    ensures { OnOk result (keys.new.items ≡ keys.old.items ++ skipped_at (entry_at head.now lines.now) (field_of head.now.text.now)) }
{
    let Some(field) = field_of(head.text) else {
        return Ok(());
    };
    match Key::named(field.key) {
        None => push_key(alloc, keys, head, Section::Top, field.key),
        Some(Key::Limits) => push_limits(alloc, keys, head, field.value, lines),
        Some(Key::Name) => Ok(()),
        Some(Key::Validation) => Ok(()),
        Some(Key::Flags) => Ok(()),
    }
}

/// Adds a key.
pub(crate) fn push_key(
    alloc: Global,
    keys: &mut Vec<SkippedKey>,
    line: &Line,
    section: Section,
    key: &[u8],
) -> Result<(), NoMemory>
    ensures { OnOk result (keys.new.items ≡ keys.old.items ++ record { line = line.now.number; section = section; key = key.now } ∷ []) }
{
    let key = Text::from_vec(key.to_vec(alloc)?);
    let line = line.number;
    keys.push(SkippedKey { line, section, key })
        .map_err(|_| NoMemory)
}

/// Adds the keys under `limits` that are not read, with this value behind it and these lines below.
fn push_limits(
    alloc: Global,
    keys: &mut Vec<SkippedKey>,
    head: &Line,
    value: &[u8],
    lines: &Lines,
) -> Result<(), NoMemory>
    ensures { OnOk result (keys.new.items ≡ keys.old.items ++ limits_skipped (known_at head.now lines.now) value.now) }
{
    if is_blank(value) {
        return push_block(alloc, keys, lines);
    }
    push_braces(alloc, keys, head, value)
}

/// Adds the keys of the indented lines in front that name no size.
#[tactic(auto, using(crate::proofs::SkippedLemmas::block_step, crate::proofs::SkippedLemmas::block_end))]
fn push_block(alloc: Global, keys: &mut Vec<SkippedKey>, lines: &Lines) -> Result<(), NoMemory>
    ensures { OnOk result (keys.new.items ≡ keys.old.items ++ block_skipped (entries is_deeper (below (lines_at lines.now)))) }
{
    let mut left = *lines;
    while let Some(line) = left.first {
        if !is_indented(line.text) {
            return Ok(());
        }
        push_size(alloc, keys, &line, field_of(content_of(line.text)))?;
        left = past_item(&line, &left.next());
    }
    Ok(())
}

/// Adds the key of a field, where it names no size.
fn push_size(
    alloc: Global,
    keys: &mut Vec<SkippedKey>,
    line: &Line,
    field: Option<Field>,
) -> Result<(), NoMemory>
    ensures { OnOk result (keys.new.items ≡ keys.old.items ++ size_skipped (line_value line.now) (option_map field_value field.entry)) }
{
    let Some(field) = field else {
        return Ok(());
    };
    if names_no_size(field.key) {
        return push_key(alloc, keys, line, Section::Limits, field.key);
    }
    Ok(())
}

/// Adds the keys between braces that name no size.
fn push_braces(
    alloc: Global,
    keys: &mut Vec<SkippedKey>,
    line: &Line,
    value: &[u8],
) -> Result<(), NoMemory>
    ensures { OnOk result (keys.new.items ≡ keys.old.items ++ braces_skipped (line_value line.now) value.now) }
{
    let [first, rest @ ..] = value else {
        return Ok(());
    };
    if *first != b'{' {
        return Ok(());
    }
    match before_brace(plain_text(false, rest)) {
        None => Ok(()),
        Some(inner) => push_items(alloc, keys, line, inner),
    }
}

/// Adds the keys of items, with commas between them, that name no size.
#[tactic(auto, using(crate::proofs::SkippedLemmas::item_step))]
fn push_items(
    alloc: Global,
    keys: &mut Vec<SkippedKey>,
    line: &Line,
    items: &[u8],
) -> Result<(), NoMemory>
    ensures { OnOk result (keys.new.items ≡ keys.old.items ++ items_skipped (line_value line.now) (parts 44 items.now)) }
{
    let mut left = Some(items);
    while let Some(text) = left {
        let (item, behind) = cut(b',', text);
        push_size(alloc, keys, line, field_of(trimmed(after_spaces(item))))?;
        left = behind;
    }
    Ok(())
}
