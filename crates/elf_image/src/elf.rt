ghost use Rattle.std.specs.Prelude.{ℕ, List, ◌≡◌, ◌+◌, ◌*◌, ◌%◌, ◌^◌, ◌<◌, ◌≤◌, IfOk, IfErr, OnOk, Some, None, Ok, Err, length, take};
ghost use Rattle.elf_image.specs.Header as header;
ghost use Rattle.elf_image.specs.Segments as segments;
ghost use Rattle.elf_image.specs.Loads.{AreLoads};
ghost use Rattle.elf_image.specs.Image.{Image, elf_of, segment_at, IsPlaced, IsSound};

use crate::fault::ElfFault;
use crate::fields::{check_identification, check_table, check_target, word};
use crate::segment::{Loads, Segment, add_entry, no_loads};
use std::marker::Model;

/// What an executable says: where the program begins, and its segments.
#[derive(Drop)]
pub struct Elf {
    entry: u32,
    count: u16,
    segments: [Segment; 16],
}

impl Model for Elf {
    ghost use Rattle.std.specs.Prelude.{◌≡◌, ◌≤◌, length, take};
    ghost use Rattle.elf_image.specs.Image.{Image};

    ghost Value = { Image };

    ghost view = { λ e. record { entry = e.entry; segments = take e.count e.segments } };

    ghost invariant = { λ e. (e.count ≤ 16) × (length e.segments ≡ 16) };
}

/// Reads the ELF header and the program header table of a file. Only their fields that are named in `ElfFault`,
/// `Segment` and `Elf::entry` are looked at.
pub fn read_elf(bytes: &[u8]) -> Result<Elf, ElfFault>
    ensures ok { IfOk result (λ e. elf_of bytes.now ≡ Ok e) }
    ensures refused { IfErr result (λ fault. elf_of bytes.now ≡ Err fault) }
    ensures sound { IfOk result (λ e. IsSound bytes.now e) }
{
    check_identification(bytes)?;
    check_target(bytes)?;
    let count = check_table(bytes)?;
    let loads = read_entries(bytes, count)?;
    if loads.count == 0 {
        return Err(ElfFault::NoSegment);
    }
    let entry = word(bytes, 24);
    if entry % 4 != 0 {
        return Err(ElfFault::BadStart { entry });
    }
    let segments = loads.segments;
    Ok(Elf {
        entry,
        count: loads.count,
        segments,
    })
}

impl Elf {
    /// The address where the program begins, a multiple of 4.
    pub fn entry(&self) -> u32
        ensures { result ≡ self.now.entry }
    {
        self.entry
    }

    /// The number of segments, 1 to 16.
    pub fn count(&self) -> u16
        ensures { result ≡ length self.now.segments }
    {
        self.count
    }

    /// Segment i, from 0, in the order of the file.
    pub fn segment(&self, i: u16) -> Segment
        requires { i < length self.now.segments }
        ensures value { result ≡ segment_at self.now i }
        ensures placed { (file : List ℕ) → IsSound file self.now → IsPlaced file result }
    {
        self.segments[i as usize]
    }
}

// Reads the entries of the program header table.
#[tactic(auto, using(crate::proofs::Sound::fault_found))]
fn read_entries(file: &[u8], count: u16) -> Result<Loads, ElfFault>
    requires size { 52 ≤ length file.now }
    requires few { count ≤ 16 }
    requires table { segments.entry_at file.now count ≤ length file.now }
    ensures ok { OnOk result (segments.first_fault file.now count ≡ None) }
    ensures loads { IfOk result (λ loads. AreLoads file.now count loads) }
    ensures refused { IfErr result (λ fault. segments.first_fault file.now count ≡ Some fault) }
{
    let mut loads = no_loads();
    for k in 0..count {
        add_entry(&mut loads, file, k)?;
    }
    Ok(loads)
}
