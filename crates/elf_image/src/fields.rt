ghost use Rattle.std.specs.Prelude.{◌≡◌, ◌+◌, ◌*◌, ◌≤◌, ◌^◌, ◌<◌, length, OnOk, IfErr, IfOk, Some, None};
ghost use Rattle.elf_image.specs.Header as header;

use crate::fault::ElfFault;

/// The two bytes from an offset on as a number, the lowest first.
pub fn half(file: &[u8], offset: usize) -> u32
    requires { offset + 2 ≤ length file.now }
    ensures { result ≡ header.half_at file.now offset }
{
    file[offset] as u32 + 0x100 * file[offset + 1] as u32
}

/// The four bytes from an offset on as a number, the lowest first.
pub fn word(file: &[u8], offset: usize) -> u32
    requires { offset + 4 ≤ length file.now }
    ensures { result ≡ header.word_at file.now offset }
{
    file[offset] as u32
        + 0x100 * file[offset + 1] as u32
        + 0x1_0000 * file[offset + 2] as u32
        + 0x100_0000 * file[offset + 3] as u32
}

/// Whether the file is an ELF32 file with the lowest bytes of numbers first, which has a whole ELF header.
pub fn check_identification(file: &[u8]) -> Result<(), ElfFault>
    ensures ok { OnOk result (header.identification_fault file.now ≡ None) }
    ensures size { OnOk result (52 ≤ length file.now) }
    ensures refused { IfErr result (λ fault. header.identification_fault file.now ≡ Some fault) }
{
    if file.len() < 52 || !has_magic(file) {
        return Err(ElfFault::NotElf);
    }
    let class = file[4];
    if class != 1 {
        return Err(ElfFault::WrongClass { class });
    }
    let order = file[5];
    if order != 1 {
        return Err(ElfFault::WrongOrder { order });
    }
    Ok(())
}

fn has_magic(file: &[u8]) -> bool
    requires { 52 ≤ length file.now }
    ensures { result ≡ header.has_magic file.now }
{
    file[0] == 0x7F && file[1] == 0x45 && file[2] == 0x4C && file[3] == 0x46
}

/// Whether the file is an executable for RISC-V.
pub fn check_target(file: &[u8]) -> Result<(), ElfFault>
    requires { 52 ≤ length file.now }
    ensures ok { OnOk result (header.target_fault file.now ≡ None) }
    ensures refused { IfErr result (λ fault. header.target_fault file.now ≡ Some fault) }
{
    let kind = half(file, 16);
    if kind != 2 {
        return Err(ElfFault::WrongKind { kind });
    }
    let machine = half(file, 18);
    if machine != 243 {
        return Err(ElfFault::WrongMachine { machine });
    }
    Ok(())
}

/// The number of entries of the program header table, which lies in the file.
pub fn check_table(file: &[u8]) -> Result<u16, ElfFault>
    requires { 52 ≤ length file.now }
    ensures ok { OnOk result (header.table_fault file.now ≡ None) }
    ensures count { IfOk result (λ count. (count ≡ header.e_phnum file.now) × (count ≤ 16)) }
    ensures within { OnOk result (header.table_end file.now ≤ length file.now) }
    ensures refused { IfErr result (λ fault. header.table_fault file.now ≡ Some fault) }
{
    let size = half(file, 42);
    if size != 32 {
        return Err(ElfFault::BadEntrySize { size });
    }
    let count = half(file, 44);
    if count > 16 {
        return Err(ElfFault::TooMany { count });
    }
    let need = word(file, 28) as u64 + 32 * count as u64;
    if need > file.len() as u64 {
        return Err(ElfFault::Truncated { need });
    }
    Ok(count as u16)
}
