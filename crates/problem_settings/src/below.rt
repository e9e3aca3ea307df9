ghost use Rattle.std.specs.Prelude.{◌≡◌, ◌≤◌, length, IfOk};
ghost use Rattle.problem_settings.specs.Entries.{entries, stray, stray_in};
ghost use Rattle.problem_settings.specs.Fields.{field_of};
ghost use Rattle.problem_settings.specs.ProblemYaml.{name_below, shallow_in, belongs, is_unknown_key};
ghost use Rattle.problem_settings.specs.Sizes.{no_sizes, block_sizes, block_from, is_deeper};
ghost use Rattle.problem_settings.specs.Views.{line_value, lines_at, scalar_text, below, past, HasSizes, Says};

use crate::bytes::{has_tab, indent_of, is_indented, is_item};
use crate::fields::field_of;
use crate::keys::Key;
use crate::lines::{Line, Lines};
use crate::scalars::Scalar;
use crate::sizes::{Sizes, is_unknown_size};
use crate::values::name_in;
use crate::yaml::{BadLine, YamlWhy};

/// Why an indented line may not stand there.
pub(crate) fn stray(line: &[u8]) -> YamlWhy
    ensures { result ≡ stray line.now }
{
    if has_tab(line) {
        YamlWhy::Tab
    } else {
        YamlWhy::Indent
    }
}

/// The fault of the indented lines in front, of which none may stand there.
pub(crate) fn stray_below(lines: &Lines) -> Option<BadLine>
    ensures { result ≡ stray_in (below (lines_at lines.now)) }
{
    let line = lines.first?;
    if !is_indented(line.text) {
        return None;
    }
    Some(line.bad(stray(line.text)))
}

/// The name that the indented lines in front say.
pub(crate) fn name_below<'a>(lines: &Lines<'a>) -> Result<Scalar<'a>, BadLine>
    ensures { Says scalar_text (name_below (below (lines_at lines.now))) result }
{
    let Some(first) = lines.first else {
        return Ok(Scalar::Plain(b""));
    };
    if !is_indented(first.text) {
        return Ok(Scalar::Plain(b""));
    }
    match name_in(first.text) {
        Err(why) => Err(first.bad(why)),
        Ok(name) => match shallow_below(indent_of(first.text), &lines.next()) {
            Some(bad) => Err(bad),
            None => Ok(name),
        },
    }
}

/// The first fault of the indented lines in front: a tab, or an indentation of less than `depth`.
fn shallow_below(depth: usize, lines: &Lines) -> Option<BadLine>
    ensures { result ≡ shallow_in depth (below (lines_at lines.now)) }
{
    let mut left = *lines;
    while let Some(line) = left.first {
        if !is_indented(line.text) {
            return None;
        }
        if has_tab(line.text) {
            return Some(line.bad(YamlWhy::Tab));
        }
        if indent_of(line.text) < depth {
            return Some(line.bad(YamlWhy::Indent));
        }
        left = left.next();
    }
    None
}

/// The lines behind those that belong to an item of a block.
#[tactic(auto, using(crate::proofs::EntryLemmas::past_none))]
pub(crate) fn past_item<'a>(head: &Line, lines: &Lines<'a>) -> Lines<'a>
    ensures lines { lines_at result ≡ past (is_deeper (line_value head.now)) (lines_at lines.now) }
    ensures shorter { length (lines_at result) ≤ length (lines_at lines.now) }
{
    let mut left = *lines;
    if !is_unknown_size(head.text) {
        return left;
    }
    let depth = indent_of(head.text);
    while let Some(line) = left.first {
        if indent_of(line.text) <= depth {
            return left;
        }
        left = left.next();
    }
    left
}

/// The sizes that the indented lines in front say.
pub(crate) fn sizes_below(lines: &Lines) -> Result<Sizes, BadLine>
    ensures value { result ≡ block_sizes (below (lines_at lines.now)) }
    ensures sound { IfOk result HasSizes }
{
    let Some(first) = lines.first else {
        return Ok(Sizes::NONE);
    };
    if !is_indented(first.text) {
        return Ok(Sizes::NONE);
    }
    block(indent_of(first.text), lines)
}

/// The sizes of a block whose lines are indented by `depth`.
#[tactic(auto, using(crate::proofs::EntryLemmas::block_step, crate::proofs::EntryLemmas::block_stop))]
fn block(depth: usize, lines: &Lines) -> Result<Sizes, BadLine>
    ensures value { result ≡ block_from depth no_sizes (entries is_deeper (below (lines_at lines.now))) }
    ensures sound { IfOk result HasSizes }
{
    let mut sizes = Sizes::NONE;
    let mut left = *lines;
    while let Some(line) = left.first {
        if !is_indented(line.text) {
            return Ok(sizes);
        }
        match sizes.with_line(depth, line.text) {
            Err(why) => return Err(line.bad(why)),
            Ok(more) => sizes = more,
        }
        left = past_item(&line, &left.next());
    }
    Ok(sizes)
}

/// Whether the key of a line is not known.
fn is_unknown_key(line: &[u8]) -> bool
    ensures { result ≡ is_unknown_key (field_of line.now) }
{
    match field_of(line) {
        None => false,
        Some(field) => Key::named(field.key).is_none(),
    }
}

/// The lines behind those that belong to an entry.
pub(crate) fn past_entry<'a>(head: &Line, lines: &Lines<'a>) -> Lines<'a>
    ensures lines { lines_at result ≡ past (belongs (line_value head.now)) (lines_at lines.now) }
    ensures shorter { length (lines_at result) ≤ length (lines_at lines.now) }
{
    let unknown = is_unknown_key(head.text);
    let mut left = *lines;
    while let Some(line) = left.first {
        if !(is_indented(line.text) || unknown && is_item(line.text)) {
            return left;
        }
        left = left.next();
    }
    left
}
