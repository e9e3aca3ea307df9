ghost use Rattle.std.specs.Prelude.{◌≡◌, ◌+◌, ◌*◌, ◌/◌, ◌%◌, ◌<◌, ◌≤◌, length, slice_index, slice_set};
ghost use Rattle.rv_memory.specs.Paged as paged;
ghost use Rattle.rv_memory.specs.PageBytes.{set_bytes};

/// A page: its number, which is the address of its first byte divided by 4,096, and its bytes.
#[derive(Drop)]
pub struct Page {
    pub number: u32,
    pub bytes: [u8; 4096],
}

/// The bytes of a page that was touched and not stored to.
#[tactic(auto, unfolding(crate::specs::Paged::zeros))]
pub fn blank() -> [u8; 4096]
    ensures { result ≡ paged.zeros }
{
    [0; 4096]
}

/// The byte at the place of an address in its page, from 0 to 255.
#[inline(always)]
pub fn read8(bytes: &[u8; 4096], at: u32) -> u32
    ensures value { result ≡ slice_index bytes.now (at % 4096) }
    ensures byte { result < 0x100 }
{
    bytes[(at % 4096) as usize] as u32
}

/// The two bytes at the place of an even address in its page, the lowest first.
#[inline(always)]
pub fn read16(bytes: &[u8; 4096], at: u32) -> u32
    requires { at % 2 ≡ 0 }
    ensures value { let o = at % 4096 in result ≡ slice_index bytes.now o + 0x100 * slice_index bytes.now (o + 1) }
    ensures half { result < 0x10000 }
{
    let offset = (at % 4096) as usize;
    u16::from_le_bytes([bytes[offset], bytes[offset + 1]]) as u32
}

/// The four bytes at the place of an address that is a multiple of 4, the lowest first.
#[inline(always)]
pub fn read32(bytes: &[u8; 4096], at: u32) -> u32
    requires { at % 4 ≡ 0 }
    ensures { let o = at % 4096 in result ≡ slice_index bytes.now o + 0x100 * slice_index bytes.now (o + 1) + 0x10000 * slice_index bytes.now (o + 2) + 0x1000000 * slice_index bytes.now (o + 3) }
{
    let offset = (at % 4096) as usize;
    u32::from_le_bytes([
        bytes[offset],
        bytes[offset + 1],
        bytes[offset + 2],
        bytes[offset + 3],
    ])
}

/// Stores the low 8 bits of the value at the place of an address in its page.
#[inline(always)]
pub fn write8(bytes: &mut [u8; 4096], at: u32, value: u32)
    ensures { bytes.new ≡ slice_set bytes.old (at % 4096) (value % 0x100) }
{
    bytes[(at % 4096) as usize] = (value % 0x100) as u8;
}

/// Stores the low 16 bits of the value at the place of an even address, the lowest byte first.
#[inline(always)]
pub fn write16(bytes: &mut [u8; 4096], at: u32, value: u32)
    requires { at % 2 ≡ 0 }
    ensures { bytes.new ≡ set_bytes (at % 4096) (paged.half_bytes value) bytes.old }
{
    let offset = (at % 4096) as usize;
    bytes[offset] = (value % 0x100) as u8;
    bytes[offset + 1] = (value / 0x100 % 0x100) as u8;
}

/// Stores the value at the place of an address that is a multiple of 4, the lowest byte first.
#[inline(always)]
pub fn write32(bytes: &mut [u8; 4096], at: u32, value: u32)
    requires { at % 4 ≡ 0 }
    ensures { bytes.new ≡ set_bytes (at % 4096) (paged.word_bytes value) bytes.old }
{
    let offset = (at % 4096) as usize;
    bytes[offset] = (value % 0x100) as u8;
    bytes[offset + 1] = (value / 0x100 % 0x100) as u8;
    bytes[offset + 2] = (value / 0x10000 % 0x100) as u8;
    bytes[offset + 3] = (value / 0x1000000 % 0x100) as u8;
}

/// Writes the bytes from an offset on.
pub fn write_all(bytes: &mut [u8; 4096], offset: usize, from: &[u8])
    requires { offset + length from.now ≤ 4096 }
    ensures { bytes.new ≡ set_bytes offset from.now bytes.old }
{
    for (k, byte) in from.iter().enumerate() {
        bytes[offset + k] = *byte;
    }
}
