ghost use Rattle.std.specs.Prelude.{◌≡◌, ◌++◌, ◌∷◌, [], codes, OnOk};
ghost use Rattle.std.specs.Fmt.{decimal};
ghost use Rattle.contest_folder.specs.FaultTexts.{contest_fault_text, settings_fault_text, package_fault_text, flag_word, printed};

use crate::faults::ContestFault;
use default_validator::FlagFault;
use farm_kinds::NoMemory;
use farm_settings::SettingsFault;
use itoa::Buffer;
use package_folder::PackageFault;

/// Puts what is printed of the fault behind what is there, as one who mends the contest wants to know it. At `NoMemory`
/// a part of it may be there. A failure of the tree and want of memory are no faults of the folder, and print nothing.
pub fn push_contest_fault(text: &mut Vec<u8>, fault: &ContestFault) -> Result<(), NoMemory>
    ensures { OnOk result (text.new.items ≡ text.old.items ++ contest_fault_text fault.now) }
{
    match fault {
        ContestFault::Settings(fault) => push_settings_fault(text, fault),
        ContestFault::BadName { name } => push_named(text, b"bad name ", name.as_slice()),
        ContestFault::TooManyProblems { count } => push_counted(
            text,
            b"too many problems ",
            *count,
        ),
        ContestFault::Package { short, fault } => {
            push_named(text, b"problem ", short.as_slice())?;
            push(text, b": ")?;
            push_package_fault(text, fault)
        }
        ContestFault::NoList => push(text, b"no submissions.txt"),
        ContestFault::BadLine { line } => push_line(text, *line, b": bad line"),
        ContestFault::NoProblem { line } => push_line(text, *line, b": no problem"),
        ContestFault::NoImage { line } => push_line(text, *line, b": no image"),
        ContestFault::TooManySubmissions { count } => {
            push_counted(text, b"too many submissions ", *count)
        }
        ContestFault::TooMuch { total } => push_counted(text, b"too much ", *total),
        ContestFault::TooLarge { name, .. } => push_named(text, b"too large ", name.as_slice()),
        ContestFault::Tree | ContestFault::NoMemory => Ok(()),
    }
}

/// Puts what is printed of a fault of `farm.json` behind what is there. At `NoMemory` a part of it may be there.
pub fn push_settings_fault(text: &mut Vec<u8>, fault: &SettingsFault) -> Result<(), NoMemory>
    ensures { OnOk result (text.new.items ≡ text.old.items ++ settings_fault_text fault.now) }
{
    match fault {
        SettingsFault::NotJson => push(text, b"farm.json: not json"),
        SettingsFault::UnknownKey { key } => {
            push_named(text, b"farm.json: unknown key ", key.as_slice())
        }
        SettingsFault::BadValue { key } => push_named(
            text,
            b"farm.json: bad value ",
            key.as_slice(),
        ),
    }
}

/// The same of a fault of a package.
fn push_package_fault(text: &mut Vec<u8>, fault: &PackageFault) -> Result<(), NoMemory>
    ensures { OnOk result (text.new.items ≡ text.old.items ++ package_fault_text fault.now) }
{
    match fault {
        PackageFault::NoYaml => push(text, b"no problem.yaml"),
        PackageFault::Yaml { line, .. } => push_counted(text, b"problem.yaml line ", *line as u64),
        PackageFault::Ini { line } => {
            push_counted(text, b"domjudge-problem.ini line ", *line as u64)
        }
        PackageFault::Flags(fault) => push_counted(text, b"flags word ", flag_word(*fault)),
        PackageFault::Groups { name } => push_named(text, b"groups ", name.as_slice()),
        PackageFault::MissingAnswer { name } => push_named(
            text,
            b"missing answer ",
            name.as_slice(),
        ),
        PackageFault::NoTests => push(text, b"no tests"),
        PackageFault::TooManyTests { count } => push_counted(text, b"too many tests ", *count),
        PackageFault::TooMuch { total } => push_counted(text, b"too much ", *total),
        PackageFault::WideAnswer { name, at } => push_wide(text, name.as_slice(), *at as u64),
        PackageFault::NoValidator => push(text, b"no validator"),
        PackageFault::ManyValidators { count } => push_counted(text, b"many validators ", *count),
        PackageFault::SourceValidator { name } => {
            push_named(text, b"source validator ", name.as_slice())
        }
        PackageFault::BadValidator { name } => push_named(text, b"bad validator ", name.as_slice()),
        PackageFault::TooLarge { name, .. } => push_named(text, b"too large ", name.as_slice()),
        PackageFault::Tree | PackageFault::NoMemory => Ok(()),
    }
}

/// The number of the word that is at fault, from 1.
fn flag_word(fault: FlagFault) -> u64
    ensures { result ≡ flag_word fault }
{
    match fault {
        FlagFault::Unknown(word) | FlagFault::NoValue(word) | FlagFault::BadTolerance(word) => word,
    }
}

/// Puts the name of a test and the token of its answer that is too wide behind what is there.
fn push_wide(text: &mut Vec<u8>, name: &[u8], at: u64) -> Result<(), NoMemory>
    ensures { OnOk result (text.new.items ≡ text.old.items ++ (codes "wide answer " ++ printed name.now ++ codes " token " ++ decimal at)) }
{
    push_named(text, b"wide answer ", name)?;
    push_counted(text, b" token ", at)
}

/// Puts `line N` and what is wrong with it behind what is there.
fn push_line(text: &mut Vec<u8>, line: u32, wrong: &[u8]) -> Result<(), NoMemory>
    ensures { OnOk result (text.new.items ≡ text.old.items ++ (codes "line " ++ decimal line ++ wrong.now)) }
{
    push_counted(text, b"line ", line as u64)?;
    push(text, wrong)
}

/// Puts words and a number behind what is there.
fn push_counted(text: &mut Vec<u8>, prefix: &[u8], count: u64) -> Result<(), NoMemory>
    ensures { OnOk result (text.new.items ≡ text.old.items ++ (prefix.now ++ decimal count)) }
{
    push(text, prefix)?;
    let mut buffer = Buffer::new();
    push(text, buffer.format(count).as_bytes())
}

/// Puts words and a name behind what is there, in which each control character is `?`.
fn push_named(text: &mut Vec<u8>, prefix: &[u8], name: &[u8]) -> Result<(), NoMemory>
    ensures { OnOk result (text.new.items ≡ text.old.items ++ (prefix.now ++ printed name.now)) }
{
    push(text, prefix)?;
    for b in name {
        text.push(printed(*b)).map_err(|_| NoMemory)?;
    }
    Ok(())
}

/// Puts the bytes behind what is there.
fn push(text: &mut Vec<u8>, bytes: &[u8]) -> Result<(), NoMemory>
    ensures { OnOk result (text.new.items ≡ text.old.items ++ bytes.now) }
{
    text.extend_from_slice(bytes).map_err(|_| NoMemory)
}

/// A byte of a name as it is printed.
fn printed(b: u8) -> u8
    ensures { result ∷ [] ≡ printed (b ∷ []) }
{
    if b < 0x20 || b == 0x7f { b'?' } else { b }
}
