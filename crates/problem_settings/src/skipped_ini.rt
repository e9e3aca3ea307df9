//! What is skipped of `domjudge-problem.ini`.
ghost use Rattle.std.specs.Prelude.{◌≡◌, ◌≤◌, ◌++◌, IfOk, OnOk, length};
ghost use Rattle.std.specs.Option.{option_map};
ghost use Rattle.problem_settings.specs.DomjudgeIni.{setting_of};
ghost use Rattle.problem_settings.specs.Skipped.{ini_skipped, has_limit, is_remark, is_limit_key, setting_skipped, sets_limit};
ghost use Rattle.problem_settings.specs.Views.{field_value, line_value};

use crate::bytes::{after_spaces, cut, without_cr, without_mark};
use crate::ini::setting_of;
use crate::lines::Line;
use crate::skipped::{Section, SkippedKey, push_key};
use farm_kinds::NoMemory;
use std::alloc::Global;

/// Whether the line is a comment: it begins with `#` or `;` past spaces.
fn is_remark(text: &[u8]) -> bool
    ensures { result ≡ is_remark text.now }
{
    match after_spaces(text) {
        [] => false,
        [first, ..] => *first == b'#' || *first == b';',
    }
}

/// Whether the key is that of the time limit.
fn is_limit_key(key: &[u8]) -> bool
    ensures { result ≡ is_limit_key key.now }
{
    key == b"timelimit".as_slice()
}

/// The keys of `domjudge-problem.ini` that are not read, in the order of their lines: all but `timelimit`. A comment has
/// none.
#[tactic(auto, unfolding(crate::specs::Skipped::ini_skipped), using(crate::proofs::SkippedLemmas::setting_step))]
pub fn ini_skipped(alloc: Global, bytes: &[u8]) -> Result<Vec<SkippedKey>, NoMemory>
    requires { length bytes.now ≤ 16777216 }
    ensures { IfOk result (λ keys. keys.items ≡ ini_skipped bytes.now) }
{
    let mut keys = Vec::new(alloc);
    let mut number = 1;
    let mut left = Some(without_mark(bytes));
    while let Some(text) = left {
        let (whole, behind) = cut(b'\n', text);
        let line = Line {
            number,
            text: without_cr(whole),
        };
        push_setting(alloc, &mut keys, &line)?;
        number += 1;
        left = behind;
    }
    Ok(keys)
}

/// Adds the key of a line, where it is not read.
fn push_setting(alloc: Global, keys: &mut Vec<SkippedKey>, line: &Line) -> Result<(), NoMemory>
    ensures { OnOk result (keys.new.items ≡ keys.old.items ++ setting_skipped (line_value line.now) (setting_of line.now.text.now)) }
{
    let Some(field) = setting_of(line.text) else {
        return Ok(());
    };
    if is_remark(line.text) || is_limit_key(field.key) {
        return Ok(());
    }
    push_key(alloc, keys, line, Section::Top, field.key)
}

/// Whether a line of `domjudge-problem.ini` sets the time limit.
#[tactic(auto, unfolding(crate::specs::Skipped::has_limit))]
pub fn has_limit(bytes: &[u8]) -> bool
    requires { length bytes.now ≤ 16777216 }
    ensures { result ≡ has_limit bytes.now }
{
    let mut left = Some(without_mark(bytes));
    while let Some(text) = left {
        let (whole, behind) = cut(b'\n', text);
        if sets_limit(without_cr(whole)) {
            return true;
        }
        left = behind;
    }
    false
}

/// Whether the line sets the time limit.
fn sets_limit(line: &[u8]) -> bool
    ensures { result ≡ sets_limit (setting_of line.now) }
{
    match setting_of(line) {
        None => false,
        Some(field) => is_limit_key(field.key),
    }
}
