ghost use Rattle.std.specs.Prelude.{ℕ, List, ◌≡◌, ◌≢◌, ◌+◌, ◌-◌, ◌*◌, ◌/◌, ◌%◌, ◌^◌, ◌<◌, ◌≤◌, ◌++◌, IfOk, IfErr, IfSome, OnOk, OnErr, if◌then◌else◌, Some, true, false, [], length, get_or, nat_eq, int_lt, slice_index, slice_set};
ghost use Rattle.std.specs.Int.{cast_signed, w8, w16};
ghost use Rattle.rv_machine.specs.Hart as hart;
ghost use Rattle.rv_machine.specs.Operations as operations;
ghost use Rattle.rv_machine.specs.Storage.{hart_of};
ghost use Rattle.rv_machine.specs.Executing.{Does, IsInPage, address_of, stop_of};
ghost use Rattle.rv_machine.specs.Decoded.{IsCode, IsStep, instr_of};
ghost use Rattle.rv_machine.specs.declared.code.Code.{Code};
ghost use Rattle.rv_word.specs.Effect as effect;
ghost use Rattle.rv_memory.specs.Paged as memory;

use crate::code::{Code, SINK, forget_all};
use crate::ending::{Ending, Trap};
use farm_kinds::NoMemory;
use rv_memory::{MemFault, Memory};
use rv_word::{Instr, Op, alu};
use std::marker::Model;

/// Why the processor does not go on by itself.
#[derive(Clone, Copy)]
pub enum Stop {
    Ended(Ending),
    Call,
    NoMemory,
}

/// What comes after an instruction: the next word, also after a store, a word of the same page, another address, or a
/// stop.
#[derive(Clone, Copy)]
pub enum Flow {
    Next,
    Stored(Stored),
    Within(usize),
    Jump(u32),
    Stopped(Stop),
}

/// Where an instruction stands: the address of its page, and the number of its word there.
#[derive(Clone, Copy)]
pub struct ProgramCounter {
    pub page: u32,
    pub word: usize,
}

impl ProgramCounter {
    ghost use Rattle.rv_machine.specs.Executing.{IsInPage, address_of};

    /// The address; that behind the last word is the next page's.
    #[inline(always)]
    pub fn address(self) -> u32
        requires { self.word ≤ 1024 }
        ensures { result ≡ address_of self }
    {
        self.page.wrapping_add(4 * self.word as u32)
    }

    /// The number of the word at an address, if it is one of this page.
    #[inline(always)]
    fn word_at(self, to: u32) -> Option<usize>
        requires { IsInPage self }
        ensures { IfSome result (λ k. (k < 1024) × (to ≡ address_of self / 4096 * 4096 + 4 * k) × (to % 4 ≡ 0)) }
    {
        let offset = to.wrapping_sub(self.page);
        if offset % 4 == 0 && offset < 4096 {
            Some((offset / 4) as usize)
        } else {
            None
        }
    }
}

/// Where an instruction stored: the place of the page in memory, and the address.
#[derive(Clone, Copy)]
pub struct Stored {
    pub place: usize,
    pub at: u32,
}

/// The registers and the memory. The last register takes what is written to x0.
#[derive(Drop)]
pub struct Processor {
    regs: [u32; 33],
    memory: Memory,
}

impl Model for Processor {
    ghost use Rattle.std.specs.Prelude.{take};
    ghost use Rattle.rv_machine.specs.Storage.{Storage};

    ghost Value = { Storage };

    ghost view = { λ p. record { regs = take 32 p.regs; memory = p.memory } };
}

impl Processor {
    /// A processor over a memory, with the registers of the start: x2, the stack pointer, is 0x7FFFFFF0.
    pub fn new(memory: Memory) -> Processor
        ensures { result ≡ record { regs = hart.first_regs; memory = memory } }
    {
        let mut regs = [0; 33];
        regs[2] = 0x7FFF_FFF0;
        Processor { regs, memory }
    }

    /// How many pages were touched.
    pub fn pages(&self) -> u32
        ensures { result ≡ memory.page_count self.now.memory }
    {
        self.memory.pages()
    }

    /// What a register holds, of x0 to x31. x0 holds 0.
    pub fn register(&self, r: u8) -> u32
        requires { r < 32 }
        ensures { result ≡ slice_index self.now.regs r }
    {
        self.reg(r)
    }

    /// Puts a value into a register. A value for x0 is let go (RISC-V Unprivileged ISA, "Programmers' Model").
    pub fn set_register(&mut self, r: u8, v: u32)
        requires { r < 32 }
        ensures { self.new ≡ record self.old { regs = hart.written self.old.regs r v } }
    {
        self.write(if r == 0 { SINK } else { r }, v);
    }

    /// Whether the pages of n bytes at an address are within the limit, with those that were touched.
    pub fn fits(&self, at: u32, n: u64) -> bool
        requires { at + n ≤ 2 ^ 32 }
        ensures { result ≡ memory.fits self.now.memory at n }
    {
        self.memory.fits(at, n)
    }

    /// Touches the pages of n bytes at an address.
    pub fn touch(&mut self, at: u32, n: u32) -> Result<(), NoMemory>
        requires space { at + n ≤ 2 ^ 32 }
        requires room { memory.fits self.old.memory at n ≡ true }
        ensures ok { OnOk result (self.new ≡ record self.old { memory = memory.touch_range self.old.memory at n }) }
        ensures code { (c : Code) → IsCode self.old.memory c → IsCode self.new.memory c }
        ensures unchanged { OnErr result (self.new ≡ self.old) }
    {
        match self.memory.touch_range(at, n as u64) {
            Ok(()) => Ok(()),
            Err(_) => Err(NoMemory),
        }
    }

    /// Puts bytes from an address on, whose pages are touched. The steps of their words are forgotten.
    pub fn copy_in(&mut self, code: &mut Code, at: u32, bytes: &[u8]) -> Result<(), NoMemory>
        requires space { at + length bytes.now ≤ 2 ^ 32 }
        requires room { memory.fits self.old.memory at (length bytes.now) ≡ true }
        requires code { IsCode self.old.memory code.old }
        ensures ok { OnOk result (self.new ≡ record self.old { memory = memory.store_bytes (memory.touch_range self.old.memory at (length bytes.now)) at bytes.now }) }
        ensures code { IsCode self.new.memory code.new }
        ensures unchanged { OnErr result (self.new ≡ self.old) }
    {
        match self.memory.touch_range(at, bytes.len() as u64) {
            Ok(()) => {
                self.memory.copy_in(at, bytes);
                forget_all(code, at, bytes);
                Ok(())
            }
            Err(_) => Err(NoMemory),
        }
    }

    /// The place of the page of an address in memory; the page is touched.
    pub fn place(&mut self, at: u32) -> Result<usize, MemFault>
        ensures place { IfOk result (λ k. k ≡ memory.place self.new.memory.pages (at / 4096)) }
        ensures touched { OnOk result (self.new ≡ record self.old { memory = memory.touch self.old.memory (at / 4096) }) }
        ensures allowed { OnOk result (memory.is_over self.old.memory (at / 4096) ≡ false) }
        ensures refused { IfErr result (memory.Refuses 1 self.old.memory at) }
        ensures unchanged { OnErr result (self.new ≡ self.old) }
    {
        self.memory.place(at)
    }

    /// The word at an address, whose page was touched.
    pub fn word(&mut self, at: u32) -> Result<u32, MemFault>
        requires { memory.is_touched self.old.memory (at / 4096) ≡ true }
        ensures value { IfOk result (λ v. v ≡ memory.word_at self.old.memory at) }
        ensures refused { IfErr result (memory.Refuses 4 self.old.memory at) }
        ensures unchanged { self.new ≡ self.old }
    {
        self.memory.load32(at)
    }

    /// Appends the n bytes from an address on, which are the same once their pages are touched.
    #[tactic(auto, using(crate::proofs::Outputs::bytes_at_touch_range))]
    pub fn copy_out(&self, at: u32, n: u32, out: &mut Vec<u8>) -> Result<(), NoMemory>
        requires { at + n ≤ 2 ^ 32 }
        ensures ok { OnOk result (out.new.items ≡ out.old.items ++ memory.bytes_at (memory.touch_range self.now.memory at n) at n) }
        ensures unchanged { OnErr result (out.new.items ≡ out.old.items) }
    {
        match self.memory.copy_out(at, n, out) {
            Ok(()) => Ok(()),
            Err(_) => Err(NoMemory),
        }
    }

    #[inline(always)]
    #[tactic(auto, using(crate::proofs::Registers::read_first))]
    fn reg(&self, r: u8) -> u32
        requires { r < 32 }
        ensures { result ≡ slice_index self.now.regs r }
    {
        self.regs[r as usize]
    }

    // Writes the register of a step.
    #[inline(always)]
    #[tactic(auto, using(crate::proofs::Registers::written_step))]
    fn write(&mut self, r: u8, v: u32)
        requires some { 0 < r }
        requires within { r < 33 }
        ensures { self.new ≡ record self.old { regs = hart.written self.old.regs (if nat_eq r 32 then 0 else r) v } }
    {
        self.regs[r as usize] = v;
    }

    #[inline(always)]
    fn address(&self, i: Instr, pc: ProgramCounter) -> u32
        requires { IsStep i }
        ensures { result ≡ hart.address (hart_of self.now (address_of pc)) (instr_of i) }
    {
        self.reg(i.rs1).wrapping_add(i.imm.cast_unsigned())
    }

    // Gives rd a value (RISC-V Unprivileged ISA, "Integer Computational Instructions").
    #[inline(always)]
    fn give(&mut self, pc: ProgramCounter, i: Instr, v: u32) -> Flow
        requires step { IsStep i }
        requires position { IsInPage pc }
        ensures does { Does (hart_of self.old (address_of pc)) result (hart.gives (hart_of self.old (address_of pc)) (instr_of i) v) self.new }
        ensures next { result ≡ Flow.Next }
    {
        self.write(i.rd, v);
        Flow::Next
    }

    // RISC-V Unprivileged ISA, "Control Transfer Instructions".
    #[inline(always)]
    fn jump(&mut self, pc: ProgramCounter, i: Instr, to: u32) -> Flow
        requires step { IsStep i }
        requires position { IsInPage pc }
        ensures does { Does (hart_of self.old (address_of pc)) result (hart.jumps (hart_of self.old (address_of pc)) (instr_of i) to) self.new }
    {
        let link = next_pc(pc.address());
        if let Some(word) = pc.word_at(to) {
            self.write(i.rd, link);
            return Flow::Within(word);
        }
        if to % 4 != 0 {
            return Flow::Stopped(Stop::Ended(Ending::Trap(Trap::Jump)));
        }
        self.write(i.rd, link);
        Flow::Jump(to)
    }

    #[inline(always)]
    fn branch(&mut self, pc: ProgramCounter, i: Instr, taken: bool) -> Flow
        requires position { IsInPage pc }
        ensures does { Does (hart_of self.old (address_of pc)) result (hart.branches (hart_of self.old (address_of pc)) (instr_of i) taken) self.new }
    {
        if !taken {
            return Flow::Next;
        }
        let to = relative(pc.address(), i);
        if let Some(word) = pc.word_at(to) {
            return Flow::Within(word);
        }
        if to % 4 != 0 {
            return Flow::Stopped(Stop::Ended(Ending::Trap(Trap::Jump)));
        }
        Flow::Jump(to)
    }

    #[inline(always)]
    fn compute(&mut self, pc: ProgramCounter, i: Instr, op: Op) -> Flow
        requires step { IsStep i }
        requires position { IsInPage pc }
        requires op { effect.HasEffect op }
        ensures does { Does (hart_of self.old (address_of pc)) result (operations.computes op (hart_of self.old (address_of pc)) (instr_of i)) self.new }
    {
        let v = alu(op, self.reg(i.rs1), self.reg(i.rs2));
        self.give(pc, i, v)
    }

    #[inline(always)]
    fn compute_imm(&mut self, pc: ProgramCounter, i: Instr, op: Op) -> Flow
        requires step { IsStep i }
        requires position { IsInPage pc }
        requires op { effect.HasEffect op }
        ensures does { Does (hart_of self.old (address_of pc)) result (operations.computes_imm op (hart_of self.old (address_of pc)) (instr_of i)) self.new }
    {
        let v = alu(op, self.reg(i.rs1), i.imm.cast_unsigned());
        self.give(pc, i, v)
    }
}

impl Processor {
    #[inline(always)]
    #[tactic(auto, using(crate::proofs::Kept::kept_touch))]
    fn load_byte(&mut self, pc: ProgramCounter, i: Instr) -> Flow
        requires step { IsStep i }
        requires position { IsInPage pc }
        ensures does { Does (hart_of self.old (address_of pc)) result (operations.loads 1 operations.signed_byte (hart_of self.old (address_of pc)) (instr_of i)) self.new }
    {
        let at = self.address(i, pc);
        match self.memory.load8(at) {
            Ok(v) => self.give(pc, i, signed_byte(v)),
            Err(fault) => Flow::Stopped(of_fault(fault)),
        }
    }

    #[inline(always)]
    #[tactic(auto, using(crate::proofs::Kept::kept_touch))]
    fn load_byte_unsigned(&mut self, pc: ProgramCounter, i: Instr) -> Flow
        requires step { IsStep i }
        requires position { IsInPage pc }
        ensures does { Does (hart_of self.old (address_of pc)) result (operations.loads 1 memory.byte_at (hart_of self.old (address_of pc)) (instr_of i)) self.new }
    {
        let at = self.address(i, pc);
        match self.memory.load8(at) {
            Ok(v) => self.give(pc, i, v),
            Err(fault) => Flow::Stopped(of_fault(fault)),
        }
    }

    #[inline(always)]
    #[tactic(auto, using(crate::proofs::Kept::kept_touch))]
    fn load_half(&mut self, pc: ProgramCounter, i: Instr) -> Flow
        requires step { IsStep i }
        requires position { IsInPage pc }
        ensures does { Does (hart_of self.old (address_of pc)) result (operations.loads 2 operations.signed_half (hart_of self.old (address_of pc)) (instr_of i)) self.new }
    {
        let at = self.address(i, pc);
        match self.memory.load16(at) {
            Ok(v) => self.give(pc, i, signed_half(v)),
            Err(fault) => Flow::Stopped(of_fault(fault)),
        }
    }

    #[inline(always)]
    #[tactic(auto, using(crate::proofs::Kept::kept_touch))]
    fn load_half_unsigned(&mut self, pc: ProgramCounter, i: Instr) -> Flow
        requires step { IsStep i }
        requires position { IsInPage pc }
        ensures does { Does (hart_of self.old (address_of pc)) result (operations.loads 2 memory.half_at (hart_of self.old (address_of pc)) (instr_of i)) self.new }
    {
        let at = self.address(i, pc);
        match self.memory.load16(at) {
            Ok(v) => self.give(pc, i, v),
            Err(fault) => Flow::Stopped(of_fault(fault)),
        }
    }

    #[inline(always)]
    #[tactic(auto, using(crate::proofs::Kept::kept_touch))]
    fn load_word(&mut self, pc: ProgramCounter, i: Instr) -> Flow
        requires step { IsStep i }
        requires position { IsInPage pc }
        ensures does { Does (hart_of self.old (address_of pc)) result (operations.loads 4 memory.word_at (hart_of self.old (address_of pc)) (instr_of i)) self.new }
    {
        let at = self.address(i, pc);
        match self.memory.load32(at) {
            Ok(v) => self.give(pc, i, v),
            Err(fault) => Flow::Stopped(of_fault(fault)),
        }
    }

    #[inline(always)]
    fn store8(&mut self, pc: ProgramCounter, i: Instr) -> Flow
        requires step { IsStep i }
        requires position { IsInPage pc }
        ensures does { Does (hart_of self.old (address_of pc)) result (operations.stores 1 memory.store8 (hart_of self.old (address_of pc)) (instr_of i)) self.new }
    {
        let at = self.address(i, pc);
        let v = self.reg(i.rs2);
        let place = match self.memory.store8(at, v) {
            Ok(place) => place,
            Err(fault) => return Flow::Stopped(of_fault(fault)),
        };
        Flow::Stored(Stored { place, at })
    }

    #[inline(always)]
    fn store16(&mut self, pc: ProgramCounter, i: Instr) -> Flow
        requires step { IsStep i }
        requires position { IsInPage pc }
        ensures does { Does (hart_of self.old (address_of pc)) result (operations.stores 2 memory.store16 (hart_of self.old (address_of pc)) (instr_of i)) self.new }
    {
        let at = self.address(i, pc);
        let v = self.reg(i.rs2);
        let place = match self.memory.store16(at, v) {
            Ok(place) => place,
            Err(fault) => return Flow::Stopped(of_fault(fault)),
        };
        Flow::Stored(Stored { place, at })
    }

    #[inline(always)]
    fn store32(&mut self, pc: ProgramCounter, i: Instr) -> Flow
        requires step { IsStep i }
        requires position { IsInPage pc }
        ensures does { Does (hart_of self.old (address_of pc)) result (operations.stores 4 memory.store32 (hart_of self.old (address_of pc)) (instr_of i)) self.new }
    {
        let at = self.address(i, pc);
        let v = self.reg(i.rs2);
        let place = match self.memory.store32(at, v) {
            Ok(place) => place,
            Err(fault) => return Flow::Stopped(of_fault(fault)),
        };
        Flow::Stored(Stored { place, at })
    }
}

impl Processor {
    /// Carries out an instruction that stands at pc.
    #[inline(always)]
    pub fn operate(&mut self, pc: ProgramCounter, i: Instr) -> Flow
        requires step { IsStep i }
        requires position { IsInPage pc }
        ensures does { Does (hart_of self.old (address_of pc)) result (operations.operation i.op (hart_of self.old (address_of pc)) (instr_of i)) self.new }
    {
        match i.op {
            Op::Lui => self.give(pc, i, i.imm.cast_unsigned()),
            Op::Auipc => self.give(pc, i, relative(pc.address(), i)),
            Op::Jal => self.jump(pc, i, relative(pc.address(), i)),
            Op::Jalr => self.jump(pc, i, self.address(i, pc) / 2 * 2),
            Op::Beq => self.branch(pc, i, self.reg(i.rs1) == self.reg(i.rs2)),
            Op::Bne => self.branch(pc, i, self.reg(i.rs1) != self.reg(i.rs2)),
            Op::Blt => self.branch(pc, i, less(self.reg(i.rs1), self.reg(i.rs2))),
            Op::Bge => self.branch(pc, i, !less(self.reg(i.rs1), self.reg(i.rs2))),
            Op::Bltu => self.branch(pc, i, self.reg(i.rs1) < self.reg(i.rs2)),
            Op::Bgeu => self.branch(pc, i, self.reg(i.rs1) >= self.reg(i.rs2)),
            Op::Lb => self.load_byte(pc, i),
            Op::Lh => self.load_half(pc, i),
            Op::Lw => self.load_word(pc, i),
            Op::Lbu => self.load_byte_unsigned(pc, i),
            Op::Lhu => self.load_half_unsigned(pc, i),
            Op::Sb => self.store8(pc, i),
            Op::Sh => self.store16(pc, i),
            Op::Sw => self.store32(pc, i),
            Op::Addi => self.compute_imm(pc, i, Op::Addi),
            Op::Slti => self.compute_imm(pc, i, Op::Slti),
            Op::Sltiu => self.compute_imm(pc, i, Op::Sltiu),
            Op::Xori => self.compute_imm(pc, i, Op::Xori),
            Op::Ori => self.compute_imm(pc, i, Op::Ori),
            Op::Andi => self.compute_imm(pc, i, Op::Andi),
            Op::Slli => self.compute_imm(pc, i, Op::Slli),
            Op::Srli => self.compute_imm(pc, i, Op::Srli),
            Op::Srai => self.compute_imm(pc, i, Op::Srai),
            Op::Add => self.compute(pc, i, Op::Add),
            Op::Sub => self.compute(pc, i, Op::Sub),
            Op::Sll => self.compute(pc, i, Op::Sll),
            Op::Slt => self.compute(pc, i, Op::Slt),
            Op::Sltu => self.compute(pc, i, Op::Sltu),
            Op::Xor => self.compute(pc, i, Op::Xor),
            Op::Srl => self.compute(pc, i, Op::Srl),
            Op::Sra => self.compute(pc, i, Op::Sra),
            Op::Or => self.compute(pc, i, Op::Or),
            Op::And => self.compute(pc, i, Op::And),
            Op::Mul => self.compute(pc, i, Op::Mul),
            Op::Mulh => self.compute(pc, i, Op::Mulh),
            Op::Mulhsu => self.compute(pc, i, Op::Mulhsu),
            Op::Mulhu => self.compute(pc, i, Op::Mulhu),
            Op::Div => self.compute(pc, i, Op::Div),
            Op::Divu => self.compute(pc, i, Op::Divu),
            Op::Rem => self.compute(pc, i, Op::Rem),
            Op::Remu => self.compute(pc, i, Op::Remu),
            Op::Fence => Flow::Next,
            Op::Ecall => Flow::Stopped(Stop::Call),
            Op::Ebreak => Flow::Stopped(Stop::Ended(Ending::Trap(Trap::Break))),
        }
    }
}

#[inline(always)]
fn less(a: u32, b: u32) -> bool
    ensures { result ≡ int_lt (effect.signed a) (effect.signed b) }
{
    a.cast_signed() < b.cast_signed()
}

// A byte and a half-word with their sign.
#[inline(always)]
fn signed_byte(v: u32) -> u32
    requires { v < 2 ^ 8 }
    ensures { result ≡ effect.bits (cast_signed w8 v) }
{
    i32::from((v as u8).cast_signed()).cast_unsigned()
}

#[inline(always)]
fn signed_half(v: u32) -> u32
    requires { v < 2 ^ 16 }
    ensures { result ≡ effect.bits (cast_signed w16 v) }
{
    i32::from((v as u16).cast_signed()).cast_unsigned()
}

/// The address of the next instruction, which is 0 behind the last word of the address space.
#[inline(always)]
pub fn next_pc(pc: u32) -> u32
    ensures value { result ≡ (pc + 4) % 2 ^ 32 }
    ensures aligned { pc % 4 ≡ 0 → result % 4 ≡ 0 }
{
    pc.wrapping_add(4)
}

#[inline(always)]
fn relative(pc: u32, i: Instr) -> u32
    ensures { result ≡ (pc + effect.bits i.imm) % 2 ^ 32 }
{
    pc.wrapping_add(i.imm.cast_unsigned())
}

// Why the machine stops at a fault of its memory.
fn of_fault(fault: MemFault) -> Stop
    ensures { result ≡ stop_of fault }
{
    match fault {
        MemFault::Misaligned => Stop::Ended(Ending::Trap(Trap::Misaligned)),
        MemFault::OverLimit { .. } => Stop::Ended(Ending::Memory),
        MemFault::NoMemory => Stop::NoMemory,
    }
}
