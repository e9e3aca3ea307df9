use crate::rows::{check_row, parts_of};
use elf_image::{ElfFault, Segment, read_elf, worked_faults, worked_image};
use std::alloc::{AllocError, Global};

/// An executable with two segments: the first has two instructions, the second has zeros alone.
const TWO: [u8; 124] = [
    0x7F, 0x45, 0x4C, 0x46, 0x01, 0x01, 0x01, 0x00, 0x00, 0x00, 0x00, 0x00, 0x00, 0x00, 0x00, 0x00,
    0x02, 0x00, 0xF3, 0x00, 0x01, 0x00, 0x00, 0x00, 0x74, 0x00, 0x01, 0x00, 0x34, 0x00, 0x00, 0x00,
    0x00, 0x00, 0x00, 0x00, 0x00, 0x00, 0x00, 0x00, 0x34, 0x00, 0x20, 0x00, 0x02, 0x00, 0x28, 0x00,
    0x00, 0x00, 0x00, 0x00, 0x01, 0x00, 0x00, 0x00, 0x74, 0x00, 0x00, 0x00, 0x74, 0x00, 0x01, 0x00,
    0x00, 0x00, 0x05, 0x00, 0x08, 0x00, 0x00, 0x00, 0x10, 0x00, 0x00, 0x00, 0x05, 0x00, 0x00, 0x00,
    0x04, 0x00, 0x00, 0x00, 0x01, 0x00, 0x00, 0x00, 0x7C, 0x00, 0x00, 0x00, 0x00, 0x00, 0x02, 0x00,
    0x00, 0x00, 0x05, 0x00, 0x00, 0x00, 0x00, 0x00, 0x00, 0x10, 0x00, 0x00, 0x05, 0x00, 0x00, 0x00,
    0x04, 0x00, 0x00, 0x00, 0x93, 0x08, 0xD0, 0x05, 0x73, 0x00, 0x00, 0x00,
];

/// Bytes that are changed, or to how many bytes the file is cut, and what is then read: the entry and, for each
/// segment, its address, offset, length and size.
const ROWS: &str = concat!(
    " => 65652: 65652 116 8 16, 131072 124 0 4096\n",
    // the identification
    "0=126 => NotElf\n",
    "3=71 => NotElf\n",
    "cut=51 => NotElf\n",
    "cut=52 => Truncated { need: 116 }\n",
    "4=2 => WrongClass { class: 2 }\n",
    "5=2 => WrongOrder { order: 2 }\n",
    "4=2|5=2|18=1 => WrongClass { class: 2 }\n",
    "6=9|7=3|8=1|20=7|32=9|36=1|40=64|46=1 => 65652: 65652 116 8 16, 131072 124 0 4096\n",
    // the target
    "16=3 => WrongKind { kind: 3 }\n",
    "17=1 => WrongKind { kind: 258 }\n",
    "18=62 => WrongMachine { machine: 62 }\n",
    "19=1 => WrongMachine { machine: 499 }\n",
    // the program header table
    "42=56 => BadEntrySize { size: 56 }\n",
    "43=1 => BadEntrySize { size: 288 }\n",
    "44=17 => TooMany { count: 17 }\n",
    "44=16 => Truncated { need: 564 }\n",
    "cut=115 => Truncated { need: 116 }\n",
    "28=125|44=0 => Truncated { need: 125 }\n",
    "28=124|44=0 => NoSegment\n",
    // the bytes of a segment in the file
    "cut=116 => PastFile { index: 0 }\n",
    "cut=123 => PastFile { index: 0 }\n",
    "88=125 => PastFile { index: 1 }\n",
    "88=255|89=255|90=255|91=255|100=1 => PastFile { index: 1 }\n",
    "52=6|88=125 => PastFile { index: 0 }\n",
    "68=0|72=0|88=125 => PastFile { index: 1 }\n",
    "72=7 => FileOverSize { index: 0 }\n",
    "72=0 => FileOverSize { index: 0 }\n",
    "72=8 => 65652: 65652 116 8 8, 131072 124 0 4096\n",
    // the memory of a segment
    "93=240|94=255|95=255 => 65652: 65652 116 8 16, 4294963200 124 0 4096\n",
    "93=240|94=255|95=255|104=1 => PastMemory { index: 1 }\n",
    "92=132|94=1 => 65652: 65652 116 8 16, 65668 124 0 4096\n",
    "92=131|94=1 => Overlap { index: 1 }\n",
    "92=116|93=240|94=0 => 65652: 65652 116 8 16, 61556 124 0 4096\n",
    "92=117|93=240|94=0 => Overlap { index: 1 }\n",
    "60=16|61=0|62=2|68=0|72=0 => 65652: 131072 124 0 4096\n",
    "60=16|61=0|62=2 => Overlap { index: 1 }\n",
    // the whole
    "52=0|84=4 => NoSegment\n",
    "52=0|84=4|24=118 => NoSegment\n",
    "44=0 => NoSegment\n",
    "24=118 => BadStart { entry: 65654 }\n",
    "24=120|84=4 => 65656: 65652 116 8 16\n",
);

#[test]
fn computes_what_a_file_says() {
    worked_image();
    worked_faults();
    elf_image::bytes_stand_at_their_addresses();
}

/// Whether this is read of a file.
fn is_told(alloc: Global, file: &[u8], wanted: &str) -> bool {
    let Ok(told) = told(alloc, file) else {
        return false;
    };
    let right = told.as_str() == wanted;
    drop(told);
    right
}

/// What is wrong of a row, or nothing.
fn wrong_of(alloc: Global, row: &str) -> &str {
    let (changes, wanted) = parts_of(row, " => ");
    let Ok(file) = changed(alloc, changes) else {
        return "no memory";
    };
    let right = is_told(alloc, file.as_slice(), wanted);
    drop(file);
    if right { "" } else { wanted }
}

#[test]
fn tells_each_fault_and_no_near_miss(rt: HostRuntime) {
    for row in ROWS.lines() {
        check_row(&rt, row, wrong_of(rt.alloc(), row));
    }
}

/// The file with these changes.
fn changed(alloc: Global, changes: &str) -> Result<Vec<u8>, AllocError> {
    let mut file = TWO.to_vec(alloc)?;
    change_all(&mut file, changes);
    Ok(file)
}

fn change_all(file: &mut Vec<u8>, changes: &str) {
    for change in changes.split('|') {
        if let Some((place, value)) = change.split_once('=') {
            let value = value.parse::<u8>().unwrap_or(0);
            match place.parse::<usize>() {
                Ok(at) => put(file, at, value),
                Err(_) => file.truncate(value as usize),
            }
        }
    }
}

fn put(file: &mut Vec<u8>, at: usize, value: u8) {
    if let Some(byte) = file.get_mut(at) {
        *byte = value;
    }
}

/// What was read, in words.
fn told(alloc: Global, file: &[u8]) -> Result<String, AllocError> {
    let elf = match read_elf(file) {
        Ok(elf) => elf,
        Err(fault) => return format!(in alloc; "{fault:?}"),
    };
    let mut told = format!(in alloc; "{}:", elf.entry())?;
    for i in 0..elf.count() {
        let mark = if i == 0 { "" } else { "," };
        push_segment(alloc, &mut told, mark, elf.segment(i))?;
    }
    Ok(told)
}

fn push_segment(
    alloc: Global,
    told: &mut String,
    mark: &str,
    s: Segment,
) -> Result<(), AllocError> {
    let part = format!(in alloc; "{mark} {} {} {} {}", s.at, s.offset, s.len, s.size)?;
    told.push_str(part.as_str())
}

/// The bytes of a file at the first address that has one.
fn first_bytes(file: &[u8]) -> Result<&[u8], ElfFault> {
    let elf = read_elf(file)?;
    let s = elf.segment(0);
    Ok(&file[s.offset as usize..][..s.len as usize])
}

#[test]
fn gives_the_bytes_of_a_segment(rt: HostRuntime) {
    match first_bytes(&TWO) {
        Ok(bytes) => assert!(rt; bytes == b"\x93\x08\xD0\x05\x73\0\0\0".as_slice()),
        Err(_) => assert!(rt; false),
    }
}
