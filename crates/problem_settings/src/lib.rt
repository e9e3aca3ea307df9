//! What two files of a problem package set: `problem.yaml` (Kattis problem package format, legacy, "Problem Metadata")
//! and `domjudge-problem.ini` (DOMjudge manual, "Problem package format").
//!
//! Where things stand: `lines.rt` the lines, `fields.rt` key and value, `scalars.rt` quoted and plain values,
//! `words.rt` what their texts are, `sizes.rt` memory and output, `below.rt` the lines under a key, `said.rt` one
//! entry, `values.rt` what values say, `bytes.rt` marks and ends of lines, `reading.rt` is `read_yaml`, which gives
//! what `yaml.rt` has; `ini.rt` and `run_limits.rt` stand alone.
//!
//! To add a key, write it in `specs/ProblemYaml.antt`, then in `keys.rt` and `said.rt`.
#![tactic(auto)]

mod below;
mod bytes;
mod fields;
mod ini;
mod keys;
mod lines;
mod reading;
mod run_limits;
mod said;
mod scalars;
mod sizes;
mod skipped;
mod skipped_ini;
mod values;
mod words;
mod worked;
mod yaml;

pub use ini::{IniFault, read_ini};
pub use reading::read_yaml;
pub use run_limits::limits;
pub use sizes::Sizes;
pub use skipped::{Section, SkippedKey, said_limits, yaml_skipped};
pub use skipped_ini::{has_limit, ini_skipped};
pub use worked::{worked_ini, worked_settings, worked_yaml_faults};
pub use yaml::{BadLine, Validation, Yaml, YamlFault, YamlWhy};
