use crate::readers::{Reader, check_rows};
use farm_kinds::{Kind, NamedMode, NoMemory, Rule};
use farm_settings::{
    Setting, Settings, SettingsErr, SettingsFault, read_settings, worked_faults, worked_texts,
    worked_values,
};
use std::alloc::{AllocError, Global};

#[test]
fn computes_settings() {
    worked_values();
    worked_faults();
    worked_texts();
}

/// The fault in a word, with its key behind a blank. None where there is none.
fn fault_text(alloc: Global, text: &[u8]) -> Result<Vec<u8>, AllocError> {
    let (word, key) = match read_settings(alloc, text) {
        Ok(_) => return b"none".to_vec(alloc),
        Err(SettingsErr::Bad(SettingsFault::NotJson)) => return b"not json".to_vec(alloc),
        Err(SettingsErr::NoMemory) => return b"no memory".to_vec(alloc),
        Err(SettingsErr::Bad(SettingsFault::UnknownKey { key })) => (b"unknown ".as_slice(), key),
        Err(SettingsErr::Bad(SettingsFault::BadValue { key })) => (b"bad ".as_slice(), key),
    };
    joined(alloc, word, key.as_slice())
}

/// The fault as `fault_text` tells it, for the rows.
pub(crate) fn fault_told(alloc: Global, text: &[u8]) -> Result<Vec<u8>, NoMemory> {
    Ok(fault_text(alloc, text)?)
}

fn joined(alloc: Global, word: &[u8], key: &[u8]) -> Result<Vec<u8>, AllocError> {
    let mut text = word.to_vec(alloc)?;
    text.extend_from_slice(key)?;
    Ok(text)
}

/// Texts and their faults.
const FAULTS: &str = concat!(
    " => not json\n",
    "  => not json\n",
    "lease => not json\n",
    "{\"lease\":60 => not json\n",
    "{\"lease\":60,} => not json\n",
    "{\"lease\":060} => not json\n",
    "{} {} => not json\n",
    "[] => not json\n",
    "60 => not json\n",
    "null => not json\n",
    "\u{feff}{} => not json\n",
    "{\"$\":1} => not json\n",
    "{} => none\n",
    " {~\t} ^~ => none\n",
    "{\"leases\":60} => unknown leases\n",
    "{\"Lease\":60} => unknown Lease\n",
    "{\"\":60} => unknown \n",
    "{\"results_prio\":{\"compiler-error\":1}} => unknown compiler-error\n",
    "{\"results_remap\":{\"Correct\":\"correct\"}} => unknown Correct\n",
    "{\"lease\":0} => bad lease\n",
    "{\"lease\":1} => none\n",
    "{\"lease\":1000000} => none\n",
    "{\"lease\":1000001} => bad lease\n",
    "{\"lease\":-1} => bad lease\n",
    "{\"lease\":-0} => bad lease\n",
    "{\"lease\":60.0} => bad lease\n",
    "{\"lease\":6e1} => bad lease\n",
    "{\"lease\":18446744073709551676} => bad lease\n",
    "{\"lease\":\"60\"} => bad lease\n",
    "{\"lease\":null} => bad lease\n",
    "{\"instructions_per_second\":999} => bad instructions_per_second\n",
    "{\"instructions_per_second\":1000} => none\n",
    "{\"instructions_per_second\":100000000} => none\n",
    "{\"instructions_per_second\":100000001} => bad instructions_per_second\n",
    "{\"lazy_eval_results\":1} => bad lazy_eval_results\n",
    "{\"lazy_eval_results\":null} => bad lazy_eval_results\n",
    "{\"verification_required\":\"true\"} => bad verification_required\n",
    "{\"results_prio\":[]} => bad results_prio\n",
    "{\"results_prio\":{\"correct\":0,\"timelimit\":999}} => none\n",
    "{\"results_prio\":{\"correct\":1000}} => bad correct\n",
    "{\"results_prio\":{\"run-error\":null}} => bad run-error\n",
    "{\"results_remap\":null} => bad results_remap\n",
    "{\"results_remap\":{\"run-error\":\"wrong-answer\"}} => none\n",
    "{\"results_remap\":{\"run-error\":\"fine\"}} => bad run-error\n",
    "{\"results_remap\":{\"run-error\":1}} => bad run-error\n",
    "{\"problem_modes\":[]} => bad problem_modes\n",
    "{\"problem_modes\":{\"A\":\"on-demand\",\"b-2\":\"full\",\"c_\":\"lazy\"}} => none\n",
    "{\"problem_modes\":{\"A\":\"ondemand\"}} => bad A\n",
    "{\"problem_modes\":{\"A\":null}} => bad A\n",
    "{\"problem_modes\":{\"A b\":\"lazy\"}} => unknown A b\n",
    "{\"problem_modes\":{\"\":\"lazy\"}} => unknown \n",
    "{\"lease\":0,\"lease\":60} => none\n",
    "{\"lease\":60,\"lease\":0} => bad lease\n",
    "{\"results_prio\":{\"correct\":1000,\"correct\":1}} => none\n",
    "{\"results_prio\":{\"fine\":1},\"lease\":0} => bad lease\n",
    "{\"results_prio\":{\"z\":1,\"correct\":-1},\"z\":0} => bad correct\n",
    "{\"lease\":0,\"instructions_per_second\":0,\"a\":1} => unknown a\n",
    "{\"deep\":«[*126»«]*126»} => unknown deep\n",
    "{\"deep\":«[*127»«]*127»} => not json\n",
);

/// The last two have an array of 127 and of 128 levels, the object counted.
#[test]
fn answers_the_first_fault(rt: HostRuntime) {
    check_rows(&rt, FAULTS, Reader::SettingsFault);
}

/// The settings of a text that has no fault.
fn settings(alloc: Global, text: &[u8]) -> Result<Settings, NoMemory> {
    read_settings(alloc, text).map_err(|_| NoMemory)
}

/// What settings say: the mode, the lease, whether judgings are verified, the instructions of a second, then each
/// problem with a mode of its own, and then the priority of each kind and the kind that it counts as.
fn settings_text(alloc: Global, settings: &Settings) -> Result<String, AllocError> {
    let mode = settings.mode();
    let (lease, verification, ips) = (settings.lease(), settings.verification(), settings.ips());
    let mut text = format!(in alloc; "{mode:?} {lease} {verification} {ips}")?;
    push_modes(alloc, &mut text, settings.modes().as_slice())?;
    push_rule(alloc, &mut text, settings.rule())?;
    Ok(text)
}

fn push_modes(alloc: Global, text: &mut String, modes: &[NamedMode]) -> Result<(), AllocError> {
    for mode in modes {
        push_mode(alloc, text, mode)?;
    }
    Ok(())
}

fn push_mode(alloc: Global, text: &mut String, mode: &NamedMode) -> Result<(), AllocError> {
    let name = str::from_utf8(mode.name.as_bytes()).unwrap_or("");
    let part = format!(in alloc; ", {name} {:?}", mode.mode)?;
    text.push_str(part.as_str())
}

fn push_rule(alloc: Global, text: &mut String, rule: Rule) -> Result<(), AllocError> {
    for kind in Kind::ALL {
        push_kind(alloc, text, rule, kind)?;
    }
    Ok(())
}

fn push_kind(alloc: Global, text: &mut String, rule: Rule, kind: Kind) -> Result<(), AllocError> {
    let part = format!(in alloc; ", {} {}", rule.prio(kind), rule.remap(kind).name())?;
    text.push_str(part.as_str())
}

/// What the settings of a text say.
pub(crate) fn settings_told(alloc: Global, text: &[u8]) -> Result<Vec<u8>, NoMemory> {
    let settings = settings(alloc, text)?;
    Ok(settings_text(alloc, &settings)?.into_bytes())
}

/// What a copy of them says.
pub(crate) fn copy_told(alloc: Global, text: &[u8]) -> Result<Vec<u8>, NoMemory> {
    let copy = copy_of(alloc, text)?;
    Ok(settings_text(alloc, &copy)?.into_bytes())
}

/// A copy of the settings of a text.
fn copy_of(alloc: Global, text: &[u8]) -> Result<Settings, NoMemory> {
    settings(alloc, text)?.copy()
}

#[test]
fn says_nothing(rt: HostRuntime) {
    check_rows(
        &rt,
        "{} => Lazy 60 false 10000000, 1 correct, 30 wrong-answer, 99 run-error, 99 timelimit, 10 no-output, 99 output-limit, 99 memory-limit, 99 judging-error",
        Reader::Settings,
    );
}

/// A text that sets all, with what it says.
const ALL: &str = concat!(
    "{\"verification_required\": true, \"results_remap\": {\"no-output\": \"wrong-answer\"},~",
    "        \"results_prio\": {\"timelimit\": 100, \"correct\": 0}, \"lease\": 5,~",
    "        \"problem_modes\": {\"B\": \"full\", \"A\": \"on-demand\"},~",
    "        \"lazy_eval_results\": false, \"instructions_per_second\": 2000}",
    " => Full 5 true 2000, A OnDemand, B Full, 0 correct, 30 wrong-answer, 99 run-error, 100 timelimit, 10 wrong-answer, 99 output-limit, 99 memory-limit, 99 judging-error\n",
);

#[test]
fn says_all(rt: HostRuntime) {
    check_rows(&rt, ALL, Reader::SettingsCopy);
}

/// Whether the key of a setting stands before the other one's, and is read as this setting.
fn stands_before(first: Setting, second: Setting) -> bool {
    let key = first.key();
    key < second.key() && Setting::read(key.as_bytes()) == Some(first)
}

#[test]
fn keys_stand_in_their_order(rt: HostRuntime) {
    for pair in Setting::ALL.windows(2) {
        assert!(rt; stands_before(pair[0], pair[1]), "{}", pair[0].key());
    }
}

/// How long a text is, and the lease that it sets.
pub(crate) fn lease_told(alloc: Global, text: &[u8]) -> Result<Vec<u8>, NoMemory> {
    let lease = settings(alloc, text)?.lease();
    Ok(format!(in alloc; "{} bytes, lease {lease}", text.len())?.into_bytes())
}

/// A text of 200 KiB: entries of one key, of which the last counts, and white space.
#[test]
fn settings_of_200_kib(rt: HostRuntime) {
    check_rows(
        &rt,
        "{«\"lease\":5,*10000»« *104789»\"lease\":7} => 204800 bytes, lease 7",
        Reader::Lease,
    );
}
