use crate::readers::{Reader, check_rows};
use farm_kinds::{Limits, NoMemory};
use problem_settings::{
    IniFault, Validation, Yaml, YamlFault, YamlWhy, limits, read_ini, read_yaml, worked_ini,
    worked_settings, worked_yaml_faults,
};
use std::alloc::{AllocError, Global};

#[test]
fn computes_what_files_say() {
    worked_settings();
    worked_yaml_faults();
    worked_ini();
}

/// The word of a fault.
fn word(why: YamlWhy) -> &'static str {
    match why {
        YamlWhy::Tab => "tab",
        YamlWhy::Indent => "indent",
        YamlWhy::NoColon => "no-colon",
        YamlWhy::Repeated => "repeated",
        YamlWhy::Open => "open",
        YamlWhy::BadEscape => "bad-escape",
        YamlWhy::Form => "form",
        YamlWhy::BadValue => "bad-value",
        YamlWhy::Interactive => "interactive",
        YamlWhy::Score => "score",
    }
}

/// The validation, memory and output, and then the name and the flags between bars.
fn shown_yaml(alloc: Global, yaml: &Yaml) -> Result<Vec<u8>, AllocError> {
    let validation = match yaml.validation {
        Validation::Default => "default",
        Validation::Custom => "custom",
    };
    let (memory, output) = (yaml.memory, yaml.output);
    let mut shown = format!(in alloc; "{validation} {memory} {output} |")?.into_bytes();
    push_between_bars(&mut shown, yaml.name.as_slice(), yaml.flags.as_slice())?;
    Ok(shown)
}

fn push_between_bars(shown: &mut Vec<u8>, name: &[u8], flags: &[u8]) -> Result<(), AllocError> {
    shown.extend_from_slice(name)?;
    shown.push(b'|')?;
    shown.extend_from_slice(flags)?;
    shown.push(b'|')?;
    Ok(())
}

/// The line and the word of a fault.
fn fault_told(alloc: Global, line: u32, why: YamlWhy) -> Result<Vec<u8>, AllocError> {
    let why = word(why);
    Ok(format!(in alloc; "{line} {why}")?.into_bytes())
}

/// What a text says, or the line and the word of its fault.
pub(crate) fn yaml_told(alloc: Global, text: &[u8]) -> Result<Vec<u8>, NoMemory> {
    if text.len() > 16_777_216 {
        return Ok(b"too long".to_vec(alloc)?);
    }
    let told = match read_yaml(alloc, text) {
        Ok(yaml) => shown_yaml(alloc, &yaml),
        Err(YamlFault::NoMemory) => b"no memory".to_vec(alloc),
        Err(YamlFault::Bad { line, why }) => fault_told(alloc, line, why),
    };
    Ok(told?)
}

/// Texts of `problem.yaml` and what is told of them: lines.
const LINES: &str = concat!(
    " => default 64 8 |||\n",
    "\u{feff}---^~name: a^~ => default 64 8 |a||\n",
    "~---~ => 2 no-colon\n",
    "--- ~ => 1 no-colon\n",
    "  # c~   ~name: a => default 64 8 |a||\n",
    " \t~ => 1 tab\n",
    "\t\t~name: a => 1 tab\n",
    "name: a~\t# c => 2 tab\n",
    "a:~\t\t~\tx~name: b => default 64 8 |b||\n",
    " name: a => 1 indent\n",
    "name: a~ b: c => 2 indent\n",
    "source: a~ b~- c~-~ d~name: e => default 64 8 |e||\n",
    "source: a~-c~ => 2 no-colon\n",
    "name: a~- b => 2 no-colon\n",
    "name: a~- b: c~ - d~- e => default 64 8 |a||\n",
    "name:a => 1 no-colon\n",
    "name:a: b => default 64 8 |||\n",
    "name : a => default 64 8 |||\n",
    "Name: a => default 64 8 |||\n",
    ": a~ b~name: c => default 64 8 |c||\n",
    "name: a~name: b => 2 repeated\n",
    "name:~name: b => 2 repeated\n",
    "x: a~x: b => default 64 8 |||\n",
    "a: |~ {[~~name: b => default 64 8 |b||\n",
);

/// Texts of `problem.yaml` and what is told of them: values.
const VALUES: &str = concat!(
    "name: a b   => default 64 8 |a b||\n",
    "name:   a # b => default 64 8 |a||\n",
    "name: a# b => default 64 8 |a# b||\n",
    "name: a: b => default 64 8 |a: b||\n",
    "name: # a => default 64 8 |||\n",
    "name: $\0 => default 64 8 |$\0||\n",
    "name: 'It''s' # c => default 64 8 |It's||\n",
    "name: '' => default 64 8 |||\n",
    "name: ''''  => default 64 8 |'||\n",
    "name: ' => 1 open\n",
    "name: 'a'' => 1 open\n",
    "name: 'a'b => 1 form\n",
    "name: 'a'#c => 1 form\n",
    "name: 'a' b => 1 form\n",
    "name: \"a\\\"\\\\\\n\\t' #\" => default 64 8 |a\"\\~\t' #||\n",
    "name: \"a => 1 open\n",
    "name: \"a\\\" => 1 open\n",
    "name: \"a\\ => 1 open\n",
    "name: \"\\r\" => 1 bad-escape\n",
    "name: '\\r' => default 64 8 |\\r||\n",
    "name: \"a\" \" => 1 form\n",
    "name: | => 1 form\n",
    "name: >- => 1 form\n",
    "name: [a] => 1 form\n",
    "name: &a b => 1 form\n",
    "name: *a => 1 form\n",
    "name: !a => 1 form\n",
    "name: {a: b} => 1 form\n",
    "name: a|>[&*!{ => default 64 8 |a|>[&*!{||\n",
    "name:~  en: a~  sv: b => default 64 8 |a||\n",
    "name:~  a~   b~  - c => default 64 8 |a||\n",
    "name:~  en: 'a~ => 2 open\n",
    "name:~  en: a~ b => 3 indent\n",
    "name:~  en: a~\tb => 3 tab\n",
    "name: ''~  en: a => 2 indent\n",
    "validator_flags:~ a => 2 indent\n",
    "validator_flags: a \"b\" => default 64 8 ||a \"b\"|\n",
    "validator_flags: \"a\\tb\" => default 64 8 ||a\tb|\n",
    "validator_flags: a~validator_flags: a => 2 repeated\n",
    "validator_flags: [a => 1 form\n",
);

/// Texts of `problem.yaml` and what is told of them: `validation`.
const VALIDATIONS: &str = concat!(
    "validation: => default 64 8 |||\n",
    "validation: '' => default 64 8 |||\n",
    "validation: default => default 64 8 |||\n",
    "validation: 'default' => default 64 8 |||\n",
    "validation: default a => 1 bad-value\n",
    "validation: ' default' => 1 bad-value\n",
    "validation: defaul => 1 bad-value\n",
    "validation: Custom => 1 bad-value\n",
    "validation: customs => 1 bad-value\n",
    "validation: \"custom\\tscore\" => 1 bad-value\n",
    "validation: custom => custom 64 8 |||\n",
    "validation: custom a score => custom 64 8 |||\n",
    "validation: custom scores => custom 64 8 |||\n",
    "validation: custom  score interactive => 1 score\n",
    "validation: \"custom interactive\" => 1 interactive\n",
    "validation: custom # score => custom 64 8 |||\n",
);

/// Texts of `problem.yaml` and what is told of them: `limits`.
const SIZES: &str = concat!(
    "limits: => default 64 8 |||\n",
    "limits:~ memory: 256~ output: 64 => default 256 64 |||\n",
    "limits:~ memory: 257~ output: 65 => default 256 64 |||\n",
    "limits:~ memory: 1000000~ output: 1 => default 256 1 |||\n",
    "limits:~ memory: 1000001 => 2 bad-value\n",
    "limits:~ memory: 0 => 2 bad-value\n",
    "limits:~ memory: 4294967297 => 2 bad-value\n",
    "limits:~ memory: => 2 bad-value\n",
    "limits:~ memory: -1 => 2 bad-value\n",
    "limits:~ memory: 1.0 => 2 bad-value\n",
    "limits:~ memory: 1 MB => 2 bad-value\n",
    "limits:~ memory: '0064' # c => default 64 8 |||\n",
    "limits:~ memory: 00000000000000000000007 => default 7 8 |||\n",
    "limits:~ memory: \"7 => 2 open\n",
    "limits:~ memory: [7] => 2 form\n",
    "limits:~ memory: 7~ memory: 7 => 3 repeated\n",
    "limits:~ time: 7~ time: 7 => default 64 8 |||\n",
    "limits:~ memory => 2 no-colon\n",
    "limits:~ memory: 7~\toutput: 7 => 3 tab\n",
    "limits:~ memory: 7~  output: 7 => 3 indent\n",
    "limits:~  memory: 7~ output: 7 => 3 indent\n",
    "limits:~ a: 1~  b~ \t\tc~ memory: 7 => default 7 8 |||\n",
    "limits:~ a: 1~- b => 3 no-colon\n",
    "limits:~ memory: 7~limits: {} => 3 repeated\n",
    "limits: {} => default 64 8 |||\n",
    "limits: {  } # c => default 64 8 |||\n",
    "limits: {memory: 7 ,a: b,output:  9 } => default 7 9 |||\n",
    "limits: {memory: 7}~ output: 9 => 2 indent\n",
    "limits: {memory: 7, memory: 7} => 1 repeated\n",
    "limits: {memory: 0} => 1 bad-value\n",
    "limits: {memory: } => 1 bad-value\n",
    "limits: {memory: '7'} => 1 form\n",
    "limits: {a: [7]} => 1 form\n",
    "limits: {memory: 7,} => 1 form\n",
    "limits: {,} => 1 form\n",
    "limits: {memory:7} => 1 form\n",
    "limits: {memory: 7 => 1 form\n",
    "limits: {memory: 7} a => 1 form\n",
    "limits: {memory: 7}} => 1 form\n",
    "limits: {memory: 7 # } => 1 form\n",
    "limits: 7 => 1 bad-value\n",
    "limits: '' => 1 bad-value\n",
    "limits: '7 => 1 open\n",
    "limits: | => 1 form\n",
);

#[test]
fn reads_lines_values_and_sizes(rt: HostRuntime) {
    check_rows(&rt, LINES, Reader::Yaml);
    check_rows(&rt, VALUES, Reader::Yaml);
    check_rows(&rt, VALIDATIONS, Reader::Yaml);
    check_rows(&rt, SIZES, Reader::Yaml);
}

/// Texts of `domjudge-problem.ini`, and the milliseconds that they set or the line of the fault.
const LIMITS: &str = concat!(
    " => 1000\n",
    "# no = limit~~[a]~name = b~ => 1000\n",
    "timelimit=0.001 => 1\n",
    "timelimit=1000 => 1000000\n",
    "timelimit=1000.000 => 1000000\n",
    "timelimit=1000.001 => line 1\n",
    "timelimit=1001 => line 1\n",
    "timelimit=4294968 => line 1\n",
    "timelimit=18446744073709551617 => line 1\n",
    "timelimit=0 => line 1\n",
    "timelimit=0.000 => line 1\n",
    "timelimit=0.0001 => line 1\n",
    "timelimit=0.1000 => line 1\n",
    "timelimit=.5 => line 1\n",
    "timelimit=1. => line 1\n",
    "timelimit= => line 1\n",
    "timelimit=-1 => line 1\n",
    "timelimit=1e0 => line 1\n",
    "timelimit=1.2.3 => line 1\n",
    "timelimit=007.5 => 7500\n",
    "timelimit=0.05 => 50\n",
    "  timelimit  =  1.5  ^~ => 1500\n",
    "\u{feff}timelimit = \"1.5\" => 1500\n",
    "timelimit = '2' => 2000\n",
    "timelimit = '2\" => line 1\n",
    "timelimit = ''2'' => line 1\n",
    "timelimit = ' 2' => line 1\n",
    "timelimit = ' => line 1\n",
    "timelimit = 2 # a => line 1\n",
    "timelimit=2~timelimit=3~ => 3000\n",
    "a~timelimit=2~timelimit=x~timelimit=3 => line 3\n",
    "timelimit~timelimits=x~Timelimit=x~#timelimit=x => 1000\n",
    "timelimit=2=3 => line 1\n",
    "timelimit=2\r\r => line 1\n",
);

/// The milliseconds that a text sets, or the line of its fault.
pub(crate) fn ini_told(alloc: Global, text: &[u8]) -> Result<Vec<u8>, NoMemory> {
    if text.len() > 16_777_216 {
        return Ok(b"too long".to_vec(alloc)?);
    }
    let (word, number) = match read_ini(text) {
        Ok(ms) => ("", ms),
        Err(IniFault::BadLimit { line }) => ("line ", line),
    };
    Ok(format!(in alloc; "{word}{number}")?.into_bytes())
}

#[test]
fn reads_time_limits(rt: HostRuntime) {
    check_rows(&rt, LIMITS, Reader::Ini);
}

/// Milliseconds and the instructions of a second, and the instructions, pages and bytes of output of a run.
const RUNS: &str = concat!(
    "1 1000 => 1 65536 67108864\n",
    "1 999 => 0 65536 67108864\n",
    "1500 10000000 => 15000000 65536 67108864\n",
    "1000000 100000000 => 100000000000 65536 67108864\n",
    "4294967295 4294967295 => 18446744065119617 65536 67108864\n",
);

/// The limits where a file limits memory and output to more than there may be.
fn limits_of(alloc: Global, ms: u32, ips: u32) -> Result<Limits, NoMemory> {
    match read_yaml(alloc, b"limits: {memory: 300, output: 100}") {
        Ok(yaml) => Ok(limits(&yaml, ms, ips)),
        Err(_) => Err(NoMemory),
    }
}

/// The limits of a run of the milliseconds and with the instructions of a second that `numbers` says.
pub(crate) fn limits_told(alloc: Global, numbers: &str) -> Result<Vec<u8>, NoMemory> {
    let (ms, ips) = numbers.split_once(' ').unwrap_or((numbers, ""));
    let (ms, ips) = (
        ms.parse::<u32>().unwrap_or(0),
        ips.parse::<u32>().unwrap_or(0),
    );
    let limits = limits_of(alloc, ms, ips)?;
    let (instructions, pages, output) = (limits.instructions, limits.pages, limits.output);
    Ok(format!(in alloc; "{instructions} {pages} {output}")?.into_bytes())
}

#[test]
fn gives_limits(rt: HostRuntime) {
    check_rows(&rt, RUNS, Reader::Limits);
}

#[test]
fn keeps_the_name_and_the_flags(rt: HostRuntime) {
    check_rows(
        &rt,
        "name: 'a''b'~validator_flags: \"c\\\"d\" => default 64 8 |a'b|c\"d|",
        Reader::Yaml,
    );
}

/// Large texts of `problem.yaml`, and what is told of them.
const LARGE: &str = concat!(
    "«-*16777216» => 1 no-colon\n",
    "« *100000» => default 64 8 |||\n",
    "«\t*100000» => 1 tab\n",
    "«:*100000» => default 64 8 |||\n",
    "«~*100000» => default 64 8 |||\n",
    "«- a~*100000» => 1 no-colon\n",
    "«a: b~*1000000» => default 64 8 |||\n",
    "« a: b~*100000» => 1 indent\n",
    "«a:~ - b~- c~*100000» => default 64 8 |||\n",
    "«name: 'a~*100000» => 1 open\n",
    "«name: a~*100000» => 2 repeated\n",
    "«limits:~ a: b~  c~*100000» => 4 repeated\n",
    "«limits: {a: b, *100000» => 1 form\n",
    "«validation: \"custom\\n*100000» => 1 form\n",
    "name: «abcdefgh*1000000» => default 64 8 |«abcdefgh*1000000»||\n",
);

#[test]
fn reads_or_refuses_large_texts(rt: HostRuntime) {
    check_rows(&rt, LARGE, Reader::Yaml);
}
