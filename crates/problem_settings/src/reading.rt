ghost use Rattle.std.specs.Prelude.{◌≡◌, ◌≤◌, ◌<◌, ◌+◌, IfOk, IfSome, OnErr, length, unwrap_or, []};
ghost use Rattle.std.specs.Option.{option_map};
ghost use Rattle.problem_settings.specs.Entries.{entries};
ghost use Rattle.problem_settings.specs.ProblemYaml.{nothing, said_from, belongs, capped, yaml_in, yaml_of, Reads};
ghost use Rattle.problem_settings.specs.Views.{said_value, scalar_text, lines_at, HasSizes, Says};

use crate::below::past_entry;
use crate::bytes::without_mark;
use crate::lines::Lines;
use crate::said::Said;
use crate::scalars::Scalar;
use crate::sizes::Sizes;
use crate::yaml::{BadLine, Validation, Yaml, YamlFault};
use farm_kinds::{NoMemory, Text};
use std::alloc::Global;

/// What the text of `problem.yaml` says, or its first faulty line.
///
/// Only the name and the flags take memory, each once, after the whole text was looked at.
#[tactic(auto, unfolding(crate::specs::ProblemYaml::yaml_of))]
pub fn read_yaml(alloc: Global, bytes: &[u8]) -> Result<Yaml, YamlFault>
    requires { length bytes.now ≤ 16777216 }
    ensures said { Reads (yaml_of bytes.now) result }
    ensures some_memory { IfOk result (λ yaml. 1 ≤ yaml.memory) }
    ensures most_memory { IfOk result (λ yaml. yaml.memory ≤ 256) }
    ensures some_output { IfOk result (λ yaml. 1 ≤ yaml.output) }
    ensures most_output { IfOk result (λ yaml. yaml.output ≤ 64) }
{
    match said_in(&Lines::new(without_mark(bytes))) {
        Err(BadLine { line, why }) => Err(YamlFault::Bad { line, why }),
        Ok(said) => match keep(alloc, &said) {
            Err(NoMemory) => Err(YamlFault::NoMemory),
            Ok(yaml) => Ok(yaml),
        },
    }
}

/// What the entries of these lines say.
#[tactic(auto, using(crate::proofs::EntryLemmas::said_step, crate::proofs::EntryLemmas::said_stop))]
pub(crate) fn said_in<'a>(lines: &Lines<'a>) -> Result<Said<'a>, BadLine>
    ensures cases { Says said_value (said_from nothing (entries belongs (lines_at lines.now))) result }
    ensures sound { IfOk result (λ said. IfSome said.sizes HasSizes) }
{
    let mut said = Said::nothing();
    let mut left = *lines;
    loop {
        let Some(head) = left.first else {
            return Ok(said);
        };
        let behind = left.next();
        match said.with_entry(&head, &behind) {
            Err(bad) => return Err(bad),
            Ok(more) => said = more,
        }
        left = past_entry(&head, &behind);
    }
}

/// What is said, kept, with the defaults of what is not.
fn keep(alloc: Global, said: &Said) -> Result<Yaml, NoMemory>
    requires { IfSome said.now.sizes HasSizes }
    ensures value { IfOk result (λ yaml. yaml ≡ yaml_in (said_value said.now)) }
    ensures wanted { OnErr result (0 < length (yaml_in (said_value said.now)).name + length (yaml_in (said_value said.now)).flags) }
    ensures some_memory { IfOk result (λ yaml. 1 ≤ yaml.memory) }
    ensures most_memory { IfOk result (λ yaml. yaml.memory ≤ 256) }
    ensures some_output { IfOk result (λ yaml. 1 ≤ yaml.output) }
    ensures most_output { IfOk result (λ yaml. yaml.output ≤ 64) }
{
    let sizes = said.sizes.unwrap_or(Sizes::NONE);
    let name = keep_text(alloc, said.name)?;
    let flags = keep_text(alloc, said.flags)?;
    Ok(Yaml {
        name,
        validation: said.validation.unwrap_or(Validation::Default),
        flags,
        memory: capped(256, 64, sizes.memory),
        output: capped(64, 8, sizes.output),
    })
}

/// A text that may be said, kept.
fn keep_text(alloc: Global, said: Option<Scalar>) -> Result<Text, NoMemory>
    ensures value { IfOk result (λ text. text ≡ unwrap_or (option_map scalar_text said.entry) []) }
    ensures wanted { OnErr result (1 ≤ length (unwrap_or (option_map scalar_text said.entry) [])) }
{
    match said {
        None => Ok(Text::new(alloc)),
        Some(text) => text.to_text(alloc),
    }
}

/// A size in MiB: the default where none is said, and never more than the most.
fn capped(most: u32, default: u32, said: Option<u32>) -> u32
    requires some_said { IfSome said (λ n. 1 ≤ n) }
    requires some { 1 ≤ default }
    requires room { default ≤ most }
    ensures value { result ≡ capped most default said }
    ensures least { 1 ≤ result }
    ensures most { result ≤ most }
{
    most.min(said.unwrap_or(default))
}
