use crate::rows::{check_row, image_of, number, parts_of, word};
use farm_kinds::{Limits, raw_image};
use rv_machine::{Ending, Extra, Files, Machine, Trap};
use std::alloc::Global;
use std::test::Fail;

/// Programs that are run, a row each: the program, how many instructions, pages and bytes of output it may use, and what
/// it reads; and how it ends, what it cost, how many pages it touched, and what it wrote. Behind `/` stand what the
/// descriptors 3, 4 and 5 have.
const ROWS: &str = concat!(
    // what instructions cost
    "exit 2 100 100 _ => exit 0 2 1 _\n",
    "exit 1 100 100 _ => time _ 1 1 _\n",
    "exit 0 100 100 _ => time _ 0 1 _\n",
    "loop 1 100 100 _ => time _ 1 1 _\n",
    "loop 1000 100 100 _ => time _ 1000 1 _\n",
    "zero 1 100 100 _ => trap illegal 0 1 _\n",
    // each limit
    "echo 16 2 2 7~ => exit 0 16 2 7~\n",
    "echo 15 2 2 7~ => time _ 15 2 7~\n",
    "echo 16 1 2 7~ => memory _ 4 1 _\n",
    "echo 16 0 2 7~ => memory _ 0 0 _\n",
    "echo 16 2 1 7~ => output _ 10 2 _\n",
    // traps
    "jump 1000 100 100 _ => trap jump 0 1 _\n",
    "misaligned 1000 100 100 _ => trap misaligned 0 1 _\n",
    "break 1000 100 100 _ => trap break 0 1 _\n",
    "call 1000 100 100 _ => trap call 0 1 _\n",
    "past-memory 1000 100 100 _ => trap range 4 1 _\n",
    // code that changes
    "ahead 1000 1 100 _ => exit 5 6 1 _\n",
    "back 1000 1 100 _ => exit 6 13 1 _\n",
    "byte 1000 1 100 _ => exit 51 20 1 _\n",
    "half 1000 1 100 _ => exit 8 13 1 _\n",
    "edge 1000 3 100 _ => exit 3 24 3 _\n",
    "edge 15 3 100 _ => time _ 15 3 _\n",
    "edge 1000 2 100 _ => memory _ 5 2 _\n",
    "many 1000 61 100 _ => exit 0 368 61 _\n",
    "many 1000 30 100 _ => memory _ 179 30 _\n",
    "many 100 61 100 _ => time _ 100 17 _\n",
    "turn 1000 2 100 _ => exit 8 21 2 _\n",
    "turn 12 2 100 _ => time _ 12 2 _\n",
    "read-code 1000 100 100 code => exit 17 25 1 _\n",
    // descriptors
    "unknown 1000 100 100 a => exit 4294967295 6 1 _\n",
    "validator 1000 100 100 s/iaf => exit 42 30 2 iaf\n",
);

/// Programs of which words are placed at two addresses, a row each: where it begins, the two addresses and what is placed
/// there, and how many pages it may use; and how it ends, what it cost and how many pages it touched. Addresses are
/// hexadecimal.
const PLACED: &str = concat!(
    "10054 10054 exit 10054 none 1 => exit 0 2 1\n",
    "10054 10058 exit-end 10054 exit-begin 1 => exit 0 2 1\n",
    "10054 30000 none 10054 exit 1 => exit 0 2 1\n",
    "10054 10054 exit 11000 exit 1 => memory _ 0 1\n",
    "10054 11000 exit 10ffc exit 1 => memory _ 0 1\n",
    "10054 10ffc exit 10054 exit 1 => memory _ 0 0\n",
    "10ffc 10ffc exit 0 none 2 => exit 0 2 2\n",
    "fffffff8 fffffff8 exit 0 none 1 => exit 0 2 1\n",
    "10054 10054 exit 0 exit 2 => exit 0 2 2\n",
    "20000 10054 exit 0 none 2 => trap illegal 0 2\n",
    "20000 10054 exit 0 none 1 => memory _ 0 1\n",
);

/// Exits with 0.
const EXIT: [u32; 2] = [0x05D0_0893, 0x0000_0073];

/// Jumps to itself.
const LOOP: [u32; 1] = [0x0000_006F];

/// Instructions of which each is a trap.
const ZERO: [u32; 1] = [0x0000_0000];

const JUMP: [u32; 1] = [0x0020_006F];

const MISALIGNED: [u32; 1] = [0x0010_2003];

const BREAK: [u32; 1] = [0x0010_0073];

const CALL: [u32; 1] = [0x0000_0073];

/// Reads up to 64 bytes, writes them and exits with 0.
const ECHO: [u32; 12] = [
    0x0002_05B7,
    0x0000_0513,
    0x0400_0613,
    0x03F0_0893,
    0x0000_0073,
    0x0005_0613,
    0x0010_0513,
    0x0400_0893,
    0x0000_0073,
    0x0000_0513,
    0x05D0_0893,
    0x0000_0073,
];

/// Puts an instruction that counts by 5 in place of the next one, which counts by 1.
const AHEAD: [u32; 7] = [
    0x0000_0297,
    0x0182_A303,
    0x0062_A623,
    0x0015_0513,
    0x05D0_0893,
    0x0000_0073,
    0x0055_0513,
];

/// Counts by 1, puts an instruction that counts by 5 in place of the one before, and counts again.
const BACK: [u32; 10] = [
    0x0000_0297,
    0x0242_A303,
    0x0020_0393,
    0x0015_0513,
    0x0062_A623,
    0xFFF3_8393,
    0xFE03_9AE3,
    0x05D0_0893,
    0x0000_0073,
    0x0055_0513,
];

/// Counts by 1, 17 and 33, by the highest byte of the instruction.
const BYTE: [u32; 10] = [
    0x0000_0297,
    0x0030_0393,
    0x0010_0313,
    0x0015_0513,
    0x0062_87A3,
    0x0013_0313,
    0xFFF3_8393,
    0xFE03_98E3,
    0x05D0_0893,
    0x0000_0073,
];

/// Counts by 1 and 7, by the upper half of the instruction.
const HALF: [u32; 9] = [
    0x0000_0297,
    0x0020_0393,
    0x0750_0313,
    0x0015_0513,
    0x0062_9723,
    0xFFF3_8393,
    0xFE03_9AE3,
    0x05D0_0893,
    0x0000_0073,
];

/// Puts a loop over the end of a page, which counts to 3, and runs it.
const EDGE: [u32; 18] = [
    0x0001_22B7,
    0x0000_0497,
    0x02C4_A303,
    0xFE62_AE23,
    0x0304_A303,
    0x0062_A023,
    0x0344_A303,
    0x0062_A223,
    0x0384_A303,
    0x0062_A423,
    0x0030_0393,
    0xFFC2_8067,
    0x0015_0513,
    0xFFF3_8393,
    0xFE03_9CE3,
    0x03C4_8067,
    0x05D0_0893,
    0x0000_0073,
];

/// Puts an instruction that returns into each of 60 pages, and calls it.
const MANY: [u32; 14] = [
    0x0002_02B7,
    0x0000_0497,
    0x0284_A303,
    0x03C0_0393,
    0x0000_1E37,
    0x0062_A023,
    0x0002_80E7,
    0x01C2_82B3,
    0xFFF3_8393,
    0xFE03_98E3,
    0x0080_006F,
    0x0000_8067,
    0x05D0_0893,
    0x0000_0073,
];

/// A word counts by 1, then it is the number 5, which is added, and then it counts by 2.
const TURN: [u32; 20] = [
    0x0002_02B7,
    0x0000_0497,
    0x03C4_A303,
    0x0062_A223,
    0x0344_A303,
    0x0062_A023,
    0x0002_80E7,
    0x0050_0313,
    0x0062_A023,
    0x0002_A303,
    0x0065_0533,
    0x0384_A303,
    0x0062_A023,
    0x0100_006F,
    0x0015_0513,
    0x0025_0513,
    0x0000_8067,
    0x0002_80E7,
    0x05D0_0893,
    0x0000_0073,
];

/// Counts by 1, reads an instruction in place of that, and carries it out.
const READ_CODE: [u32; 13] = [
    0x0000_0297,
    0x0020_0313,
    0x0017_0713,
    0x0000_0513,
    0x0082_8593,
    0x0040_0613,
    0x03F0_0893,
    0x0000_0073,
    0xFFF3_0313,
    0xFE03_12E3,
    0x0007_0513,
    0x05D0_0893,
    0x0000_0073,
];

/// Reads a byte from each of the descriptors 3, 4 and 5, writes the three and exits with 42.
const VALIDATOR: [u32; 24] = [
    0x0002_05B7,
    0x0030_0513,
    0x0010_0613,
    0x03F0_0893,
    0x0000_0073,
    0x0015_8593,
    0x0040_0513,
    0x0010_0613,
    0x03F0_0893,
    0x0000_0073,
    0x0015_8593,
    0x0050_0513,
    0x0010_0613,
    0x03F0_0893,
    0x0000_0073,
    0x0015_8593,
    0xFFD5_8593,
    0x0030_0613,
    0x0010_0513,
    0x0400_0893,
    0x0000_0073,
    0x02A0_0513,
    0x05D0_0893,
    0x0000_0073,
];

/// Writes two bytes of which one lies past the last address.
const PAST_MEMORY: [u32; 5] = [
    0xFFF0_0593,
    0x0020_0613,
    0x0010_0513,
    0x0400_0893,
    0x0000_0073,
];

/// Reads from descriptor 3, and exits with the answer.
const UNKNOWN: [u32; 6] = [
    0x0030_0513,
    0x0010_0613,
    0x03F0_0893,
    0x0000_0073,
    0x05D0_0893,
    0x0000_0073,
];

/// The words of a program, or of a part of one.
fn words_of(program: &str) -> &'static [u32] {
    match program {
        "exit" => EXIT.as_slice(),
        "exit-begin" => &EXIT[..1],
        "exit-end" => &EXIT[1..],
        "none" => &EXIT[..0],
        "loop" => LOOP.as_slice(),
        "zero" => ZERO.as_slice(),
        "jump" => JUMP.as_slice(),
        "misaligned" => MISALIGNED.as_slice(),
        "break" => BREAK.as_slice(),
        "call" => CALL.as_slice(),
        "past-memory" => PAST_MEMORY.as_slice(),
        _ => long_words_of(program),
    }
}

/// The words of a program that is longer.
fn long_words_of(program: &str) -> &'static [u32] {
    match program {
        "echo" => ECHO.as_slice(),
        "ahead" => AHEAD.as_slice(),
        "back" => BACK.as_slice(),
        "byte" => BYTE.as_slice(),
        "half" => HALF.as_slice(),
        "edge" => EDGE.as_slice(),
        "many" => MANY.as_slice(),
        "turn" => TURN.as_slice(),
        "read-code" => READ_CODE.as_slice(),
        "unknown" => UNKNOWN.as_slice(),
        "validator" => VALIDATOR.as_slice(),
        _ => ZERO.as_slice(),
    }
}

/// What a program reads or writes.
fn text_of(word: &str) -> &'static [u8] {
    match word {
        "7~" => b"7\n",
        "code" => b"\x13\x07\x07\x01",
        "a" => b"a",
        "s/iaf" => b"s",
        "iaf" => b"iaf",
        _ => b"",
    }
}

/// What a program can read.
fn files_of(word: &str) -> Files<'static> {
    let extra = match word {
        "s/iaf" => Some(Extra {
            input: b"i",
            answer: b"a",
            flags: b"f",
        }),
        _ => None,
    };
    Files {
        stdin: text_of(word),
        extra,
    }
}

/// What a program may use.
fn limits_of(row: &str) -> Limits {
    Limits {
        instructions: number(row, 1) as u64,
        pages: number(row, 2),
        output: number(row, 3),
    }
}

fn name_of(trap: Trap) -> &'static str {
    match trap {
        Trap::Illegal => "illegal",
        Trap::Jump => "jump",
        Trap::Misaligned => "misaligned",
        Trap::Break => "break",
        Trap::Call => "call",
        Trap::Range => "range",
    }
}

/// Whether the ending of a program is as `wanted`.
fn is_ending(ending: Ending, wanted: &str) -> bool {
    let (what, trap) = match ending {
        Ending::Exit(code) => return word(wanted, 0) == "exit" && number(wanted, 1) == code,
        Ending::Trap(trap) => ("trap", name_of(trap)),
        Ending::Time => ("time", "_"),
        Ending::Memory => ("memory", "_"),
        Ending::Output => ("output", "_"),
    };
    word(wanted, 0) == what && word(wanted, 1) == trap
}

/// Whether the machine ends with the ending, the cost and the number of pages that `wanted` says.
fn ends(machine: &mut Machine<'_>, wanted: &str) -> bool {
    let Ok(ending) = machine.run() else {
        return false;
    };
    is_ending(ending, wanted)
        && machine.cost() == number(wanted, 2) as u64
        && machine.pages() == number(wanted, 3)
}

/// Whether it also has written this. A machine that has ended answers its ending again.
fn ends_twice(machine: &mut Machine<'_>, wanted: &str) -> bool {
    let output = text_of(word(wanted, 4));
    ends(machine, wanted)
        && machine.output() == output
        && ends(machine, wanted)
        && machine.output() == output
}

/// Whether the program is run as it should.
fn is_run(alloc: Global, image: &[u8], row: &str, wanted: &str) -> bool {
    if !raw_image(image) {
        return false;
    }
    let loaded = Machine::load(alloc, image, limits_of(row), files_of(word(row, 4)));
    let Ok(mut machine) = loaded else {
        return false;
    };
    let right = ends_twice(&mut machine, wanted);
    drop(machine);
    right
}

/// What is wrong of a row, or nothing.
fn wrong_of(alloc: Global, row: &str) -> &str {
    let (row, wanted) = parts_of(row, " => ");
    let Ok(image) = image_of(alloc, words_of(word(row, 0))) else {
        return "no memory";
    };
    let right = is_run(alloc, image.as_slice(), row, wanted);
    drop(image);
    if right { "" } else { wanted }
}

#[test]
fn programs_are_run(rt: HostRuntime) -> Result<(), Fail> {
    for row in ROWS.lines() {
        check_row(&rt, row, wrong_of(rt.alloc(), row));
    }
    Ok(())
}

/// The address at that place of a row.
fn address(row: &str, at: usize) -> u32 {
    u32::from_str_radix(word(row, at), 16).unwrap_or(1)
}

/// Places bytes at an address, from which on there is room for them.
fn place_bytes(machine: &mut Machine<'_>, at: u32, bytes: &[u8]) -> bool {
    if at as u64 + bytes.len() as u64 > 1 << 32 {
        return false;
    }
    machine.place(at, bytes).is_ok()
}

/// Places the words of a program.
fn place(alloc: Global, machine: &mut Machine<'_>, at: u32, words: &[u32]) -> bool {
    let Ok(bytes) = image_of(alloc, words) else {
        return false;
    };
    let placed = place_bytes(machine, at, bytes.as_slice());
    drop(bytes);
    placed
}

/// What is wrong of a row of what is placed, or nothing.
fn wrong_placed(alloc: Global, row: &str) -> &str {
    let (row, wanted) = parts_of(row, " => ");
    let entry = address(row, 0);
    if entry % 4 != 0 {
        return "entry";
    }
    let limits = Limits {
        instructions: 1000,
        pages: number(row, 5),
        output: 100,
    };
    let mut machine = Machine::blank(alloc, limits, files_of("_"), entry);
    let right = place(alloc, &mut machine, address(row, 1), words_of(word(row, 2)))
        && place(alloc, &mut machine, address(row, 3), words_of(word(row, 4)))
        && ends(&mut machine, wanted);
    drop(machine);
    if right { "" } else { wanted }
}

#[test]
fn placed_bytes_are_run(rt: HostRuntime) -> Result<(), Fail> {
    for row in PLACED.lines() {
        check_row(&rt, row, wrong_placed(rt.alloc(), row));
    }
    Ok(())
}
