ghost use Rattle.std.specs.Prelude.{◌≡◌, IfOk, true, fold, take};
ghost use Rattle.elf_image.specs.Header.{has_magic};
ghost use Rattle.elf_image.specs.Image.{IsSound};
ghost use Rattle.rv_machine.specs.Inputs.{inputs_of};
ghost use Rattle.case_run.specs.Images.{is_image, opened, with_segments};

use elf_image::{Elf, read_elf};
use farm_kinds::{Limits, NoMemory, raw_image};
use rv_machine::{Files, Machine};
use std::alloc::Global;

/// How many bytes an image has at most: 1 MiB.
const IMAGE_LIMIT: usize = 1_048_576;

/// Whether the bytes are an image of a program: at most 1 MiB, and where they begin as an ELF file an ELF32 executable
/// for RISC-V without a fault, else a raw image. A submission of other bytes is broken.
#[tactic(auto, unfolding(crate::specs::Images::is_image))]
pub fn image_ok(bytes: &[u8]) -> bool
    ensures { result ≡ is_image bytes.now }
{
    if bytes.len() > IMAGE_LIMIT {
        return false;
    }
    if has_magic(bytes) {
        read_elf(bytes).is_ok()
    } else {
        raw_image(bytes)
    }
}

/// Whether the bytes begin as an ELF file.
fn has_magic(bytes: &[u8]) -> bool
    ensures { result ≡ has_magic bytes.now }
{
    bytes.len() >= 4 && bytes[0] == 0x7F && bytes[1] == b'E' && bytes[2] == b'L' && bytes[3] == b'F'
}

/// A machine with the program of an image, before its run: the state from which a test begins.
#[tactic(auto, unfolding(crate::specs::Images::opened, crate::specs::Images::is_image))]
pub fn open<'a>(
    alloc: Global,
    image: &[u8],
    limits: Limits,
    files: Files<'a>,
) -> Result<Machine<'a>, NoMemory>
    requires { is_image image.now ≡ true }
    ensures { IfOk result (λ machine. machine ≡ opened image.now limits (inputs_of files.entry)) }
{
    if !has_magic(image) {
        return Machine::load(alloc, image, limits, files);
    }
    match read_elf(image) {
        Ok(elf) => load_segments(alloc, image, &elf, limits, files),
        // an image that begins as an ELF file has no fault
        Err(_) => Ok(Machine::blank(alloc, limits, files, 0)),
    }
}

/// A machine with the segments of an executable.
#[tactic(auto, using(std::proofs::lemmas::List::Sums::fold_more))]
fn load_segments<'a>(
    alloc: Global,
    file: &[u8],
    elf: &Elf,
    limits: Limits,
    files: Files<'a>,
) -> Result<Machine<'a>, NoMemory>
    requires { IsSound file.now elf.now }
    ensures { IfOk result (λ machine. machine ≡ with_segments file.now elf.now limits (inputs_of files.entry)) }
{
    let mut machine = Machine::blank(alloc, limits, files, elf.entry());
    for i in 0..elf.count() {
        let segment = elf.segment(i);
        let start = segment.offset as usize;
        machine.place(segment.at, &file[start..start + segment.len as usize])?;
    }
    Ok(machine)
}
