//! The fault of a file that is no program.
ghost use Rattle.std.specs.Prelude.{◌≡◌, IfNone, IfSome, true, false};
ghost use Rattle.std.specs.List.{list_all};
ghost use Rattle.std.specs.Str.{is_utf8};
ghost use Rattle.elf_image.specs.Header.{has_magic};
ghost use Rattle.case_run.specs.Images.{is_image};
ghost use Rattle.program_notes.specs.Faults.{is_source, is_written, no_raw_image, program_fault, raw_fault};

use elf_image::{ElfFault, read_elf};
use farm_kinds::raw_image;
use std::str;

/// How many bytes a program has at most: 1 MiB.
const LIMIT: usize = 1_048_576;

/// Why the bytes of a file are no program: the first fault in this order.
#[derive(Clone, Copy, Debug, PartialEq, Eq)]
pub enum ProgramFault {
    /// There are this many bytes, more than 1 MiB.
    Size(u64),
    /// The bytes begin as an ELF file, which has this fault.
    Elf(ElfFault),
    /// There are no bytes.
    Empty,
    /// The bytes are a text, such as a source.
    Source,
    /// There are this many bytes, which is no multiple of 4.
    Length(u64),
}

/// The fault of the bytes of a file. None where they are a program, as those who judge it have it.
#[tactic(auto, unfolding(case_run::specs::Images::is_image))]
pub fn program_fault(bytes: &[u8]) -> Option<ProgramFault>
    ensures fault { result ≡ program_fault bytes.now }
    ensures program { IfNone result (is_image bytes.now ≡ true) }
    ensures none { IfSome result (λ _. is_image bytes.now ≡ false) }
{
    if bytes.len() > LIMIT {
        return Some(ProgramFault::Size(bytes.len() as u64));
    }
    if !has_magic(bytes) {
        return raw_fault(bytes);
    }
    match read_elf(bytes) {
        Ok(_) => None,
        Err(fault) => Some(ProgramFault::Elf(fault)),
    }
}

/// Whether the bytes begin as an ELF file.
fn has_magic(bytes: &[u8]) -> bool
    ensures { result ≡ has_magic bytes.now }
{
    bytes.len() >= 4 && bytes[0] == 0x7F && bytes[1] == b'E' && bytes[2] == b'L' && bytes[3] == b'F'
}

/// The fault of bytes that do not begin as an ELF file.
fn raw_fault(bytes: &[u8]) -> Option<ProgramFault>
    ensures { result ≡ raw_fault bytes.now }
{
    if raw_image(bytes) {
        return None;
    }
    Some(no_raw_image(bytes))
}

/// The fault of bytes that are no raw image.
fn no_raw_image(bytes: &[u8]) -> ProgramFault
    ensures { result ≡ no_raw_image bytes.now }
{
    if bytes.is_empty() {
        return ProgramFault::Empty;
    }
    if is_source(bytes) {
        return ProgramFault::Source;
    }
    ProgramFault::Length(bytes.len() as u64)
}

/// Whether the bytes are a text without control characters other than white space.
fn is_source(bytes: &[u8]) -> bool
    ensures { result ≡ is_source bytes.now }
{
    is_utf8(bytes) && are_written(bytes)
}

/// Whether the bytes are UTF-8.
fn is_utf8(bytes: &[u8]) -> bool
    ensures { result ≡ is_utf8 bytes.now }
{
    match str::from_utf8(bytes) {
        Ok(_) => true,
        Err(_) => false,
    }
}

/// Whether no byte is a control character other than white space.
fn are_written(bytes: &[u8]) -> bool
    ensures { result ≡ list_all is_written bytes.now }
{
    bytes.iter().all(|b| is_written(*b))
}

fn is_written(b: u8) -> bool
    ensures { result ≡ is_written b }
{
    b >= 32 || (b >= 9 && b <= 13)
}
