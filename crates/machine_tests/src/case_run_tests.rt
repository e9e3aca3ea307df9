ghost use Rattle.std.specs.Prelude.{◌≡◌, true};
ghost use Rattle.case_run.specs.Images.{is_image};

use crate::rows::{bytes_of, check_row, image_of, parts_of};
use case_run::{Case, Check, image_ok, run_case};
use default_validator::{Flags, wide_token};
use farm_kinds::{Kind, Limits, NoMemory, raw_image};
use std::alloc::{AllocError, Global};
use std::test::Fail;

/// Exits with 0.
const SILENT: [u32; 3] = [0x0000_0513, 0x05D0_0893, 0x0000_0073];

/// Exits with 1.
const FAIL: [u32; 3] = [0x0010_0513, 0x05D0_0893, 0x0000_0073];

/// Exits with what x10 holds at the start, which is 0.
const EXIT: [u32; 2] = [0x05D0_0893, 0x0000_0073];

/// Jumps to itself.
const LOOP: [u32; 1] = [0x0000_006F];

/// No instruction.
const ZERO: [u32; 1] = [0];

/// Reads up to 64 bytes, writes them and exits with 0.
const ECHO: [u32; 12] = [
    0x0002_05B7,
    0x0000_0513,
    0x0400_0613,
    0x03F0_0893,
    0x0000_0073,
    0x0005_0613,
    0x0010_0513,
    0x0400_0893,
    0x0000_0073,
    0x0000_0513,
    0x05D0_0893,
    0x0000_0073,
];

/// Touches one page after the other.
const GREEDY: [u32; 5] = [
    0x0010_05B7,
    0x0000_17B7,
    0x0005_8023,
    0x00F5_85B3,
    0xFF9F_F06F,
];

/// A validator: exits with 42 where the output begins with `4`, with 43 where it begins with `3`, and else with 1.
const GUESS: [u32; 15] = [
    0x0002_05B7,
    0x0000_0513,
    0x0010_0613,
    0x03F0_0893,
    0x0000_0073,
    0x0005_C683,
    0x0010_0513,
    0x0340_0713,
    0x00E6_9463,
    0x02A0_0513,
    0x0330_0713,
    0x00E6_9463,
    0x02B0_0513,
    0x05D0_0893,
    0x0000_0073,
];

/// The ELF executable of 92 bytes that exits with what x10 holds at the start: its instructions stand at 0x10054 in one
/// segment of 8 bytes in the file and 16 in memory.
const ELF: [u32; 23] = [
    // the ELF header: e_entry is 0x10054, e_phoff 52, e_phentsize 32 and e_phnum 1
    0x464C_457F,
    0x0001_0101,
    0,
    0,
    0x00F3_0002,
    1,
    0x0001_0054,
    52,
    0,
    0,
    0x0020_0034,
    0x0028_0001,
    0,
    // the program header: PT_LOAD, p_offset 84, p_vaddr 0x10054, p_filesz 8, p_memsz 16
    1,
    84,
    0x0001_0054,
    0,
    8,
    16,
    5,
    4,
    // the instructions
    0x05D0_0893,
    0x0000_0073,
];

/// The program, its input, the answer, what checks the output (the default validator, behind `-` with no flag and
/// behind `tolerant` with a tolerance, or a validator behind `@`), and the limits of instructions, pages and output.
const ROWS: &str = concat!(
    "exit _ _ - 2 1 0 => correct\n",
    "exit _ x - 2 1 0 => no-output\n",
    "exit _ _ - 1 1 0 => timelimit\n",
    "elf _ _ - 2 1 0 => correct\n",
    "elf _ _ - 1 1 0 => timelimit\n",
    "elf _ _ - 2 0 0 => memory-limit\n",
    "fail _ _ - 9 1 0 => run-error\n",
    "loop _ _ - 1000 1 0 => timelimit\n",
    "loop _ _ - 0 1 0 => timelimit\n",
    "zero _ _ - 9 1 0 => run-error\n",
    "zero _ _ - 9 0 0 => memory-limit\n",
    "greedy _ _ - 100000 256 0 => memory-limit\n",
    "echo 7~ 7 - 16 2 64 => correct\n",
    "echo 7~ 7 - 15 2 64 => timelimit\n",
    "echo 7~ 7 - 16 1 64 => memory-limit\n",
    "echo 7~ 7 - 16 2 1 => output-limit\n",
    "echo 7~ 8 - 16 2 64 => wrong-answer\n",
    "echo 3.14 3.1400001 tolerant 99 2 64 => correct\n",
    "echo 3.14 3.1401 tolerant 99 2 64 => wrong-answer\n",
    "silent _ 7 - 99 2 64 => no-output\n",
    "echo 4~ x @guess 99 2 64 => correct\n",
    "echo 3~ x @guess 99 2 64 => wrong-answer\n",
    "echo 9~ x @guess 99 2 64 => judging-error\n",
    "silent 4~ x @guess 99 2 64 => judging-error\n",
    "echo 4~ x @zero 99 2 64 => judging-error\n",
    "echo 4~ x @greedy 99 2 64 => judging-error\n",
    "fail 4~ x @guess 99 2 64 => run-error\n",
    "loop 4~ x @guess 99 2 64 => timelimit\n",
);

/// The words of a program.
fn words_of(program: &str) -> &'static [u32] {
    match program {
        "silent" => SILENT.as_slice(),
        "fail" => FAIL.as_slice(),
        "exit" => EXIT.as_slice(),
        "elf" => ELF.as_slice(),
        "loop" => LOOP.as_slice(),
        "echo" => ECHO.as_slice(),
        "greedy" => GREEDY.as_slice(),
        "guess" => GUESS.as_slice(),
        _ => ZERO.as_slice(),
    }
}

/// What a field of a row stands for.
fn text_of(alloc: Global, field: &str) -> Result<Vec<u8>, AllocError> {
    let text = if field == "_" { "" } else { field };
    bytes_of(alloc, text)
}

/// The flags of a row's check.
fn flags_of(check: &str) -> &'static [u8] {
    match check {
        "tolerant" => b"float_tolerance 0.000001",
        _ => b"",
    }
}

/// A row's program, its texts, its check, and its limits.
#[derive(Drop)]
struct Row<'a> {
    image: Vec<u8>,
    input: Vec<u8>,
    answer: Vec<u8>,
    check: &'a str,
    limits: Limits,
}

fn row_of(alloc: Global, row: &str) -> Result<Row<'_>, AllocError> {
    let mut fields = row.split(' ');
    let image = image_of(alloc, words_of(fields.next().unwrap_or("")))?;
    let input = text_of(alloc, fields.next().unwrap_or(""))?;
    let answer = text_of(alloc, fields.next().unwrap_or(""))?;
    let check = fields.next().unwrap_or("");
    let limits = Limits {
        instructions: number(fields.next()) as u64,
        pages: number(fields.next()),
        output: number(fields.next()),
    };
    Ok(Row {
        image,
        input,
        answer,
        check,
        limits,
    })
}

fn number(field: Option<&str>) -> u32 {
    field.unwrap_or("").parse::<u32>().unwrap_or(0)
}

/// The result of a row's test. None where it cannot be run.
fn result_of(alloc: Global, row: &Row<'_>) -> Result<Option<Kind>, NoMemory> {
    if !image_ok(row.image.as_slice()) {
        return Ok(None);
    }
    match row.check.strip_prefix("@") {
        Some(validator) => result_by_program(alloc, row, validator),
        None => result_by_default(alloc, row),
    }
}

fn result_by_default(alloc: Global, row: &Row<'_>) -> Result<Option<Kind>, NoMemory>
    requires { is_image row.now.image.items ≡ true }
{
    let Ok(flags) = Flags::read(flags_of(row.check)) else {
        return Ok(None);
    };
    if wide_token(&flags, row.answer.as_slice()).is_some() {
        return Ok(None);
    }
    let case = Case {
        image: row.image.as_slice(),
        input: row.input.as_slice(),
        answer: row.answer.as_slice(),
        check: Check::Default(flags),
        limits: row.limits,
    };
    Ok(Some(run_case(alloc, &case)?))
}

fn result_by_program(
    alloc: Global,
    row: &Row<'_>,
    validator: &str,
) -> Result<Option<Kind>, NoMemory>
    requires { is_image row.now.image.items ≡ true }
{
    let validator = image_of(alloc, words_of(validator))?;
    if !raw_image(validator.as_slice()) {
        return Ok(None);
    }
    let case = Case {
        image: row.image.as_slice(),
        input: row.input.as_slice(),
        answer: row.answer.as_slice(),
        check: Check::Custom {
            image: validator.as_slice(),
            flags: b"",
        },
        limits: row.limits,
    };
    Ok(Some(run_case(alloc, &case)?))
}

fn name_of(kind: Option<Kind>) -> &'static str {
    match kind {
        Some(kind) => kind.name(),
        None => "not run",
    }
}

/// What is wrong of a row, or nothing.
fn wrong_of(alloc: Global, line: &str) -> &str {
    let (fields, expected) = parts_of(line, " => ");
    let Ok(row) = row_of(alloc, fields) else {
        return "no memory";
    };
    let result = result_of(alloc, &row);
    drop(row);
    let Ok(kind) = result else {
        return "no memory";
    };
    if name_of(kind) == expected {
        ""
    } else {
        expected
    }
}

#[test]
fn results_of_tests(rt: HostRuntime) -> Result<(), Fail> {
    for line in ROWS.lines() {
        check_row(&rt, line, wrong_of(rt.alloc(), line));
    }
    Ok(())
}
