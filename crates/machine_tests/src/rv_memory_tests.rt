use rv_memory::{MemFault, Memory};
use std::alloc::Global;

const AT: u32 = 0x0001_0000;

// Two pages: bytes of each width, the lowest first, and what a fault leaves.
#[test]
fn what_is_stored_is_loaded(rt: HostRuntime) {
    let mut memory = Memory::new(rt.alloc(), 2);
    assert!(rt; memory.load32(AT) == Ok(0));
    assert!(rt; memory.store32(AT, 0x1234_5678) == Ok(0));
    assert!(rt; memory.load8(AT) == Ok(0x78));
    assert!(rt; memory.load16(AT + 2) == Ok(0x1234));
    assert!(rt; memory.store16(AT, 0xFFFF_ABCD) == Ok(0));
    assert!(rt; memory.store8(AT + 3, 0x1FF) == Ok(0));
    assert!(rt; memory.load32(AT) == Ok(0xFF34_ABCD));
    assert!(rt; memory.pages() == 1);
    assert!(rt; memory.load16(AT + 1) == Err(MemFault::Misaligned));
    assert!(rt; memory.store32(AT + 2, 7) == Err(MemFault::Misaligned));
    assert!(rt; memory.load8(0x7FFF_FFF0) == Ok(0));
    assert!(rt; memory.store8(AT + 4096, 7) == Err(MemFault::OverLimit { pages: 2 }));
    assert!(rt; memory.pages() == 2);
    assert!(rt; memory.load32(AT) == Ok(0xFF34_ABCD));
}

// Three bytes across the edge of two pages.
#[test]
fn a_range_lies_in_each_of_its_pages(rt: HostRuntime) {
    let mut memory = Memory::new(rt.alloc(), 2);
    assert!(rt; memory.fits(AT, 0));
    assert!(rt; memory.fits(AT + 4094, 4098));
    assert!(rt; !memory.fits(AT + 4094, 4099));
    assert!(rt; edge(&mut memory, rt.alloc()));
    assert!(rt; memory.pages() == 2);
    assert!(rt; memory.load16(AT + 4094) == Ok(0x0201));
    assert!(rt; memory.load8(AT + 4096) == Ok(3));
}

// Whether the three bytes come back.
fn edge(memory: &mut Memory, alloc: Global) -> bool {
    let bytes = [1u8, 2, 3];
    let mut back = Vec::new(alloc);
    if !memory.fits(AT + 4094, 3) || memory.touch_range(AT + 4094, 3).is_err() {
        return false;
    }
    memory.copy_in(AT + 4094, &bytes);
    if memory.copy_out(AT + 4094, 3, &mut back).is_err() {
        return false;
    }
    back.as_slice() == bytes.as_slice()
}
