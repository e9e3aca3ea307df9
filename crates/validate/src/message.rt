use crate::judgement::Judgement;
use default_validator::{Flags, accepts, wide_token};
use package_notes::{flag_text, wide_token_text};
use std::alloc::{AllocError, Global};

/// How many bytes of a token are shown.
const SHOWN: usize = 40;

/// Why nothing could be judged by the answer at the path. None where something was.
pub fn error_text(
    alloc: Global,
    judgement: Judgement,
    path: &str,
) -> Result<Option<String>, AllocError> {
    match judgement {
        Judgement::Accepted | Judgement::Rejected => Ok(None),
        Judgement::BadFlags(fault) => Ok(Some(flag_text(alloc, fault)?)),
        Judgement::WideAnswer(at) => {
            let text = wide_token_text(alloc, at)?;
            Ok(Some(format!(in alloc; "{path}: {text}")?))
        }
    }
}

/// Why an output is not accepted: the first place where it differs from the answer.
pub fn reason(
    alloc: Global,
    flags: &Flags,
    answer: &[u8],
    output: &[u8],
) -> Result<Vec<u8>, AllocError> {
    let mut judges = answer
        .split(|b| is_space(*b))
        .filter(|token| !token.is_empty());
    let mut teams = output
        .split(|b| is_space(*b))
        .filter(|token| !token.is_empty());
    for number in 1..u64::MAX {
        match (judges.next(), teams.next()) {
            (Some(judge), Some(team)) if agrees(flags, judge, team) => {}
            (Some(judge), Some(team)) => return different(alloc, number, judge, team),
            (Some(judge), None) => return missing(alloc, number, judge),
            (None, Some(team)) => return extra(alloc, number, team),
            (None, None) => break,
        }
    }
    [b"Wrong answer: the white space differs\n".as_slice()].concat(alloc)
}

/// Whether a token of the answer takes a token of the output.
fn agrees(flags: &Flags, judge: &[u8], team: &[u8]) -> bool {
    wide_token(flags, judge).is_none() && accepts(flags, judge, team)
}

/// The validator's white space.
fn is_space(b: u8) -> bool {
    b == b' ' || (b >= 9 && b <= 13)
}

/// The output ends before this token of the answer.
fn missing(alloc: Global, number: u64, judge: &[u8]) -> Result<Vec<u8>, AllocError> {
    let prefix = format!(in alloc;
        "Wrong answer: the output ends before token {number}, and the answer has "
    )?;
    let mut text = prefix.into_bytes();
    push_token(&mut text, judge)?;
    text.push(b'\n')?;
    Ok(text)
}

/// The output goes on with this token where the answer has ended.
fn extra(alloc: Global, number: u64, team: &[u8]) -> Result<Vec<u8>, AllocError> {
    let prefix = format!(in alloc;
        "Wrong answer: the answer ends before token {number}, and the output has "
    )?;
    let mut text = prefix.into_bytes();
    push_token(&mut text, team)?;
    text.push(b'\n')?;
    Ok(text)
}

/// These tokens do not agree.
fn different(alloc: Global, number: u64, judge: &[u8], team: &[u8]) -> Result<Vec<u8>, AllocError> {
    let prefix = format!(in alloc; "Wrong answer: token {number} of the answer is ")?;
    let mut text = prefix.into_bytes();
    push_token(&mut text, judge)?;
    text.extend_from_slice(b", and the output has ")?;
    push_token(&mut text, team)?;
    text.push(b'\n')?;
    Ok(text)
}

/// Puts a token between backquotes, or the prefix of one that is long.
fn push_token(text: &mut Vec<u8>, token: &[u8]) -> Result<(), AllocError> {
    text.push(b'`')?;
    for b in &token[..token.len().min(SHOWN)] {
        text.push(shown(*b))?;
    }
    if token.len() > SHOWN {
        text.extend_from_slice(b"..")?;
    }
    text.push(b'`')?;
    Ok(())
}

/// A byte of a token as it is shown: a control character is `?`.
fn shown(b: u8) -> u8 {
    if b < 0x20 || b == 0x7f { b'?' } else { b }
}
