//! Why a folder is no package, as one who mends it wants to know it.
use crate::texts::shown;
use default_validator::FlagFault;
use farm_kinds::Text;
use package_folder::PackageFault;
use problem_settings::YamlWhy;
use std::alloc::{AllocError, Global};
use std::str;

/// What a person is told of a fault: the file, and its line where there is one, a colon and the rest, without a line end.
/// `yaml` is the text of `problem.yaml`, in which the line of a fault names what has a bad value.
pub fn fault_text(alloc: Global, fault: &PackageFault, yaml: &[u8]) -> Result<String, AllocError> {
    match fault {
        PackageFault::NoYaml => String::from_str(alloc, "there is no problem.yaml"),
        PackageFault::Yaml { line, why } => yaml_text(alloc, *line, *why, yaml),
        PackageFault::Ini { line } => {
            format!(in alloc;
                "domjudge-problem.ini line {line}: timelimit is no number of seconds from 0.001 to 1000"
            )
        }
        PackageFault::Flags(fault) => {
            let text = flag_text(alloc, *fault)?;
            format!(in alloc; "problem.yaml: validator_flags: {text}")
        }
        PackageFault::Groups { name } => {
            about(alloc, "data/", name, "groups of tests are not judged")
        }
        PackageFault::MissingAnswer { name } => {
            about(
                alloc,
                "data/",
                name,
                "there is no .ans file beside the .in file",
            )
        }
        PackageFault::NoTests => String::from_str(
            alloc,
            "there are no tests, which are .in files below data/sample and data/secret",
        ),
        PackageFault::TooManyTests { count } => {
            format!(in alloc; "there are {count} tests, and at most 1000 are judged")
        }
        PackageFault::TooMuch { total } => format!(in alloc;
            "the files of the tests have {total} bytes and more, and at most 268435456 are read"
        ),
        PackageFault::WideAnswer { name, at } => wide_text(alloc, name, *at),
        PackageFault::NoValidator => String::from_str(
            alloc,
            "there is no validator in output_validators, for which validation: custom asks",
        ),
        PackageFault::ManyValidators { count } => format!(in alloc;
            "there are {count} files and folders in output_validators, where one validator is wanted"
        ),
        PackageFault::SourceValidator { name } => {
            about(
                alloc,
                "output_validators/",
                name,
                "source text is not built: a raw image NAME.rv32 is wanted",
            )
        }
        PackageFault::BadValidator { name } => {
            about(alloc, "output_validators/", name, NO_RAW_IMAGE)
        }
        PackageFault::TooLarge { name, len } => large_text(alloc, name, *len),
        PackageFault::Tree => String::from_str(alloc, "a file or folder could not be read"),
        PackageFault::NoMemory => String::from_str(alloc, "out of memory"),
    }
}

/// What is wrong with the flags of the default validator.
pub fn flag_text(alloc: Global, fault: FlagFault) -> Result<String, AllocError> {
    match fault {
        FlagFault::Unknown(n) => format!(in alloc; "word {n} of the flags is no flag"),
        FlagFault::NoValue(n) => {
            format!(in alloc; "word {n} of the flags wants a value behind it")
        }
        FlagFault::BadTolerance(n) => format!(in alloc; "word {n} of the flags is no tolerance"),
    }
}

/// What is wrong with an answer whose token of this number, from 0, is too wide for a tolerance.
pub fn wide_token_text(alloc: Global, at: usize) -> Result<String, AllocError> {
    format!(in alloc;
        "token {at} (from 0) is a number of 10^12 or more, which a tolerance cannot be used with"
    )
}

/// What is wrong with a validator that is no raw image.
pub const NO_RAW_IMAGE: &str = "it is no raw image, which has 1 to 262144 words of 4 bytes";

/// What is wrong with a file of this name behind this folder.
fn about(alloc: Global, folder: &str, name: &Text, wrong: &str) -> Result<String, AllocError> {
    let name = shown(alloc, name)?;
    format!(in alloc; "{folder}{name}: {wrong}")
}

fn wide_text(alloc: Global, name: &Text, at: usize) -> Result<String, AllocError> {
    let name = shown(alloc, name)?;
    let text = wide_token_text(alloc, at)?;
    format!(in alloc; "data/{name}.ans: {text}")
}

/// What is wrong with a file of `len` bytes, which are too many.
pub fn large_text(alloc: Global, name: &Text, len: u64) -> Result<String, AllocError> {
    let name = shown(alloc, name)?;
    format!(in alloc; "{name}: the file has {len} bytes, and at most 16777216 are read")
}

/// What is wrong with a line of `problem.yaml`.
fn yaml_text(alloc: Global, line: u32, why: YamlWhy, yaml: &[u8]) -> Result<String, AllocError> {
    let wrong = match why {
        YamlWhy::Tab => "a tab stands in the indentation",
        YamlWhy::Indent => "it is indented, and no such line may stand there",
        YamlWhy::NoColon => "there is no colon behind a key",
        YamlWhy::Repeated => "its key stood before",
        YamlWhy::Open => "a quote is not closed",
        YamlWhy::BadEscape => "a backslash stands before another character than \", \\, n and t",
        YamlWhy::Form => {
            "the value has a form of YAML that is not read, or goes on behind its closing quote"
        }
        YamlWhy::BadValue => return value_text(alloc, line, key_of(line_of(yaml, line))),
        YamlWhy::Interactive => "the problem is interactive, and such problems are not judged",
        YamlWhy::Score => "the validator gives scores, and such problems are not judged",
    };
    format!(in alloc; "problem.yaml line {line}: {wrong}")
}

/// What is wrong with a value at this key.
fn value_text(alloc: Global, line: u32, key: &str) -> Result<String, AllocError> {
    let wrong = match key {
        "memory" => "memory is no whole number of MiB from 1 to 1000000",
        "output" => "output is no whole number of MiB from 1 to 1000000",
        "limits" => "memory or output is no whole number of MiB from 1 to 1000000",
        "validation" => "validation is neither default nor custom",
        _ => "its key takes no such value",
    };
    format!(in alloc; "problem.yaml line {line}: {wrong}")
}

/// The line of this number, from 1.
fn line_of(text: &[u8], number: u32) -> &[u8] {
    let mut at: u32 = 1;
    for line in text.split(|b| *b == b'\n') {
        if at == number {
            return line;
        }
        at = at.saturating_add(1);
    }
    &[]
}

/// What stands in front of the first colon, without spaces around it.
fn key_of(line: &[u8]) -> &str {
    let line = str::from_utf8(line).unwrap_or("");
    match line.split_once(':') {
        Some((key, _)) => key.trim(),
        None => "",
    }
}
