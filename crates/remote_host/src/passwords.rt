//! How a host says who it is to a proxy that asks for it (RFC 7617).
ghost use Rattle.std.specs.Prelude.{◌≡◌, ◌++◌, codes, Ok, Err, IfOk, IfErr, string_bytes, not};
ghost use Rattle.std.specs.Io.BufRead.{strip_last};
ghost use Rattle.std.specs.List.{list_all};
ghost use Rattle.base64.specs.GeneralPurpose.{encode_of};
ghost use Rattle.base64.specs.Engines.{standard};
ghost use Rattle.remote_host.specs.Passwords.{is_control, without_line_end, checked_password, password_in, authorization};

use base64::engine::general_purpose::STANDARD;
use farm_kinds::{NoMemory, Text};
use std::alloc::{AllocError, Global};

/// How many bytes a password has at most.
pub const PASSWORD_LIMIT: usize = 1024;

/// Why a file gives no password.
#[derive(Clone, Copy, Debug, PartialEq, Eq)]
pub enum BadPassword {
    /// No file has the path.
    NoFile,
    /// It has no bytes, but for a line's end.
    Empty,
    /// It has more than 1,024 bytes without a line's end.
    TooLong,
    /// One of its bytes is a control character.
    Control,
}

/// Whether the byte is a control character.
fn is_control(b: u8) -> bool
    ensures { result ≡ is_control b }
{
    b < 0x20 || b == 0x7f
}

/// The bytes without a carriage return at their end.
fn without_return(text: &[u8]) -> &[u8]
    ensures { result.now ≡ strip_last 13 text.now }
{
    match text {
        [prefix @ .., b'\r'] => prefix,
        _ => text,
    }
}

/// The bytes without a line's end at their end.
fn without_line_end(bytes: &[u8]) -> &[u8]
    ensures { result.now ≡ without_line_end bytes.now }
{
    match bytes {
        [prefix @ .., b'\n'] => without_return(prefix),
        _ => bytes,
    }
}

/// Whether one of the bytes is a control character.
fn is_plain(text: &[u8]) -> bool
    ensures { result ≡ list_all (λ b. not (is_control b)) text.now }
{
    text.iter().all(|b| !is_control(*b))
}

/// The bytes, where they are a password.
fn checked_password(text: &[u8]) -> Result<&[u8], BadPassword>
    ensures ok { IfOk result (λ password. checked_password text.now ≡ Ok password.now) }
    ensures err { IfErr result (λ bad. checked_password text.now ≡ Err bad) }
{
    if text.is_empty() {
        return Err(BadPassword::Empty);
    }
    if text.len() > PASSWORD_LIMIT {
        return Err(BadPassword::TooLong);
    }
    if is_plain(text) {
        return Ok(text);
    }
    Err(BadPassword::Control)
}

/// The password that a file of these bytes holds: they are it, but for one line end at their end.
pub fn password_in(bytes: &[u8]) -> Result<&[u8], BadPassword>
    ensures ok { IfOk result (λ password. password_in bytes.now ≡ Ok password.now) }
    ensures err { IfErr result (λ bad. password_in bytes.now ≡ Err bad) }
{
    checked_password(without_line_end(bytes))
}

/// The user and the password, with a colon between them.
fn pair(alloc: Global, user: &[u8], password: &[u8]) -> Result<Vec<u8>, AllocError>
    ensures { IfOk result (λ text. text.items ≡ user.now ++ (codes ":" ++ password.now)) }
{
    let mut text = user.to_vec(alloc)?;
    text.extend_from_slice(b":".as_slice())?;
    text.extend_from_slice(password)?;
    Ok(text)
}

/// The field of this user and password in Base64.
fn field(alloc: Global, coded: &str) -> Result<String, AllocError>
    ensures { IfOk result (λ text. string_bytes text ≡ codes "authorization: Basic " ++ (coded.now ++ codes "\r\n")) }
{
    format!(in alloc; "authorization: Basic {coded}\r\n")
}

/// The same of the two bytes' texts.
fn coded_field(alloc: Global, text: &[u8]) -> Result<String, AllocError>
    ensures { IfOk result (λ line. string_bytes line ≡ codes "authorization: Basic " ++ (encode_of standard text.now ++ codes "\r\n")) }
{
    let coded = STANDARD.encode(alloc, text)?;
    field(alloc, coded.as_str())
}

/// The line of a request's head that says this user and password.
pub fn authorization(alloc: Global, user: &str, password: &[u8]) -> Result<Text, NoMemory>
    ensures { IfOk result (λ line. line ≡ authorization user.now password.now) }
{
    let text = pair(alloc, user.as_bytes(), password)?;
    let line = coded_field(alloc, text.as_slice())?;
    Ok(Text::from_vec(line.into_bytes()))
}
