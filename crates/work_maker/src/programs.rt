ghost use Rattle.std.specs.Prelude.{◌≡◌, IfOk};
ghost use Rattle.work_maker.specs.Programs.{words_of, image_with, image_of, program_numbered};

use farm_kinds::{NoMemory, Text};
use std::alloc::Global;

/// A program that submissions of a made contest have.
#[derive(Clone, Copy, Debug, PartialEq, Eq)]
pub enum Program {
    /// Writes what it reads.
    Echo,
    /// Writes nothing.
    Silent,
    /// Runs for ever.
    Loop,
    /// Exits with 1.
    Fail,
    /// Writes what it reads where this begins with a byte below `5`, and runs for ever where it does not.
    Half,
    /// Writes to one page after the other.
    Greedy,
    /// Is no image.
    Broken,
}

/// The instructions of `Echo`.
const ECHO: [u32; 12] = [
    0x0002_05B7, // lui x11,0x20
    0x0000_0513, // addi x10,x0,0
    0x0400_0613, // addi x12,x0,64
    0x03F0_0893, // addi x17,x0,63
    0x0000_0073, // ecall
    0x0005_0613, // addi x12,x10,0
    0x0010_0513, // addi x10,x0,1
    0x0400_0893, // addi x17,x0,64
    0x0000_0073, // ecall
    0x0000_0513, // addi x10,x0,0
    0x05D0_0893, // addi x17,x0,93
    0x0000_0073, // ecall
];

/// The instructions of `Silent`.
const SILENT: [u32; 3] = [
    0x0000_0513, // addi x10,x0,0
    0x05D0_0893, // addi x17,x0,93
    0x0000_0073, // ecall
];

/// The instructions of `Loop`.
const LOOP: [u32; 1] = [
    0x0000_006F, // jal x0,0
];

/// The instructions of `Fail`.
const FAIL: [u32; 3] = [
    0x0010_0513, // addi x10,x0,1
    0x05D0_0893, // addi x17,x0,93
    0x0000_0073, // ecall
];

/// The instructions of `Half`.
const HALF: [u32; 16] = [
    0x0002_05B7, // lui x11,0x20
    0x0000_0513, // addi x10,x0,0
    0x0400_0613, // addi x12,x0,64
    0x03F0_0893, // addi x17,x0,63
    0x0000_0073, // ecall
    0x0005_C683, // lbu x13,0(x11)
    0x0350_0713, // addi x14,x0,53
    0x00E6_E463, // bltu x13,x14,8
    0x0000_006F, // jal x0,0
    0x0005_0613, // addi x12,x10,0
    0x0010_0513, // addi x10,x0,1
    0x0400_0893, // addi x17,x0,64
    0x0000_0073, // ecall
    0x0000_0513, // addi x10,x0,0
    0x05D0_0893, // addi x17,x0,93
    0x0000_0073, // ecall
];

/// The instructions of `Greedy`.
const GREEDY: [u32; 5] = [
    0x0010_05B7, // lui x11,0x100
    0x0000_17B7, // lui x15,1
    0x0005_8023, // sb x0,0(x11)
    0x00F5_85B3, // add x11,x11,x15
    0xFF9F_F06F, // jal x0,-8
];

impl Program {
    /// The program with this number: they are numbered from 0 to 6.
    pub fn numbered(number: u32) -> Program
        ensures { result ≡ program_numbered number }
    {
        match number {
            0 => Program::Echo,
            1 => Program::Silent,
            2 => Program::Loop,
            3 => Program::Fail,
            4 => Program::Half,
            5 => Program::Greedy,
            _ => Program::Broken,
        }
    }

    /// The words of its instructions.
    pub fn words(self) -> &'static [u32]
        ensures { result.now ≡ words_of self }
    {
        match self {
            Program::Echo => &ECHO,
            Program::Silent => &SILENT,
            Program::Loop => &LOOP,
            Program::Fail => &FAIL,
            Program::Half => &HALF,
            Program::Greedy => &GREEDY,
            Program::Broken => &[],
        }
    }

    /// The file of its image.
    pub fn image(self, alloc: Global) -> Result<Text, NoMemory>
        ensures { IfOk result (λ image. image ≡ image_of self) }
    {
        match self {
            Program::Broken => Ok(Text::from_vec(b"\0\0\0".to_vec(alloc)?)),
            _ => image_with(alloc, self.words()),
        }
    }
}

/// These words, the least byte of each first.
fn image_with(alloc: Global, words: &[u32]) -> Result<Text, NoMemory>
    ensures { IfOk result (λ image. image ≡ image_with words.now) }
{
    let mut image = Vec::new(alloc);
    for word in words {
        image.extend_from_slice(&word.to_le_bytes())?;
    }
    Ok(Text::from_vec(image))
}
