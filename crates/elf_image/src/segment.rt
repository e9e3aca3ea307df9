ghost use Rattle.std.specs.Prelude.{◌≡◌, ◌+◌, ◌*◌, ◌≤◌, ◌^◌, ◌<◌, length, take, OnOk, IfErr, Some, None, true};
ghost use Rattle.std.specs.List.{list_any};
ghost use Rattle.elf_image.specs.Header as header;
ghost use Rattle.elf_image.specs.Segments as segments;
ghost use Rattle.elf_image.specs.Loads.{AreLoads};

use crate::fault::ElfFault;
use crate::fields::word;

/// A part of memory that is loaded from the file: the `size` bytes from the address `at` on, of which the first `len`
/// are those of the file from `offset` on, and the others 0.
#[derive(Clone, Copy, Debug, PartialEq, Eq)]
pub struct Segment {
    pub at: u32,
    pub offset: u32,
    pub len: u32,
    pub size: u32,
}

/// The segments of the first entries of a program header table.
#[derive(Clone, Copy)]
pub struct Loads {
    pub segments: [Segment; 16],
    pub count: u16,
    /// How many entries were of type PT_LOAD.
    pub index: u16,
}

/// The segments of no entries.
pub fn no_loads() -> Loads
    ensures count { result.count ≡ 0 }
    ensures index { result.index ≡ 0 }
{
    let none = Segment {
        at: 0,
        offset: 0,
        len: 0,
        size: 0,
    };
    Loads {
        segments: [none; 16],
        count: 0,
        index: 0,
    }
}

/// Reads entry k of the program header table behind the entries before it.
pub fn add_entry(loads: &mut Loads, file: &[u8], k: u16) -> Result<(), ElfFault>
    requires size { 52 ≤ length file.now }
    requires table { segments.entry_at file.now (k + 1) ≤ length file.now }
    requires few { k < 16 }
    requires before { AreLoads file.now k loads.old }
    ensures ok { OnOk result (segments.entry_fault file.now k ≡ None) }
    ensures after { OnOk result (AreLoads file.now (k + 1) loads.new) }
    ensures refused { IfErr result (λ fault. segments.entry_fault file.now k ≡ Some fault) }
{
    let start = word(file, 28) as usize + 32 * k as usize;
    if word(file, start) != 1 {
        return Ok(());
    }
    let segment = Segment {
        at: word(file, start + 8),
        offset: word(file, start + 4),
        len: word(file, start + 16),
        size: word(file, start + 20),
    };
    check_load(loads, file, segment)?;
    add_load(loads, segment);
    Ok(())
}

// What is wrong with the segment of an entry of type PT_LOAD.
fn check_load(loads: &Loads, file: &[u8], s: Segment) -> Result<(), ElfFault>
    requires { loads.now.count ≤ 16 }
    ensures ok { OnOk result (segments.load_fault (length file.now) (take loads.now.count loads.now.segments) loads.now.index s ≡ None) }
    ensures refused { IfErr result (λ fault. segments.load_fault (length file.now) (take loads.now.count loads.now.segments) loads.now.index s ≡ Some fault) }
{
    let index = loads.index;
    if s.offset as u64 + s.len as u64 > file.len() as u64 {
        return Err(ElfFault::PastFile { index });
    }
    if s.len > s.size {
        return Err(ElfFault::FileOverSize { index });
    }
    if s.at as u64 + s.size as u64 > 1 << 32 {
        return Err(ElfFault::PastMemory { index });
    }
    if meets_one(s, &loads.segments[..loads.count as usize]) {
        return Err(ElfFault::Overlap { index });
    }
    Ok(())
}

fn meets_one(s: Segment, others: &[Segment]) -> bool
    ensures { result ≡ list_any (segments.meets s) others.now }
{
    others.iter().any(|other| meets(s, *other))
}

// Whether an address lies in the memory of both.
fn meets(s: Segment, t: Segment) -> bool
    ensures { result ≡ segments.meets s t }
{
    let start = s.at.max(t.at);
    let end = (s.at as u64 + s.size as u64).min(t.at as u64 + t.size as u64);
    (start as u64) < end
}

// Counts an entry of type PT_LOAD, which is a segment where it has memory.
fn add_load(loads: &mut Loads, segment: Segment)
    requires room { loads.old.count < 16 }
    requires few { loads.old.index < 16 }
    ensures index { loads.new.index ≡ loads.old.index + 1 }
    ensures segments { take loads.new.count loads.new.segments ≡ segments.with_load (take loads.old.count loads.old.segments) segment }
    ensures count { loads.new.count ≤ loads.old.count + 1 }
{
    loads.index += 1;
    if segment.size > 0 {
        loads.segments[loads.count as usize] = segment;
        loads.count += 1;
    }
}
