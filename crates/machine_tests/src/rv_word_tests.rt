use rv_word::{Instr, Op, alu, decode, encode};

const fn instr(op: Op, rd: u8, rs1: u8, rs2: u8, imm: i32) -> Instr {
    Instr {
        op,
        rd,
        rs1,
        rs2,
        imm,
    }
}

// Words as GNU as 2.40 assembles them.
#[test]
fn words_decode_as_they_are_assembled(rt: HostRuntime) {
    for (word, want) in [
        (0x0200_0033, instr(Op::Mul, 0, 0, 0, 0)),
        (0xFFDF_F06F, instr(Op::Jal, 0, 0, 0, -4)),
        (0x05D0_0893, instr(Op::Addi, 17, 0, 0, 93)),
        (0xFEE6_AE23, instr(Op::Sw, 0, 13, 14, -4)),
        (0x41F3_5293, instr(Op::Srai, 5, 6, 0, 31)),
        (0x0000_0073, instr(Op::Ecall, 0, 0, 0, 0)),
    ] {
        assert!(rt; decode(word) == Some(want));
    }
    assert!(rt; decode(0) == None);
    assert!(rt; decode(0xFFFF_FFFF) == None);
}

#[test]
fn division_has_its_corners(rt: HostRuntime) {
    assert_eq!(rt; alu(Op::Div, 7, 0), 0xFFFF_FFFF);
    assert_eq!(rt; alu(Op::Rem, 7, 0), 7);
    assert_eq!(rt; alu(Op::Div, 0x8000_0000, 0xFFFF_FFFF), 0x8000_0000);
    assert_eq!(rt; alu(Op::Rem, 0x8000_0000, 0xFFFF_FFFF), 0);
    assert_eq!(rt; alu(Op::Divu, 7, 0), 0xFFFF_FFFF);
    assert_eq!(rt; alu(Op::Remu, 7, 0), 7);
}

#[test]
fn an_instruction_is_encoded_as_its_word(rt: HostRuntime) {
    match decode(0xFFDF_F06F) {
        Some(jump) => assert_eq!(rt; encode(jump), 0xFFDF_F06F),
        None => assert!(rt; false),
    }
}
