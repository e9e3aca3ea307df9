ghost use Rattle.std.specs.Prelude.{ℕ, List, ◌≡◌, ◌≢◌, ◌+◌, ◌-◌, ◌*◌, ◌/◌, ◌%◌, ◌^◌, ◌<◌, ◌≤◌, ◌↔◌, [], IfOk, IfErr, IfSome, IfNone, OnOk, IsTrue, true, false, length, get_or, set};
ghost use Rattle.rv_machine.specs.Decoded as decoded;
ghost use Rattle.rv_memory.specs.Paged as paged;

use crate::processor::Stored;
use rv_word::{Instr, Op};
use std::alloc::{AllocError, Global};

/// The register that takes what is written to x0. No instruction reads it.
pub const SINK: u8 = 32;

// Stands for a word that is not decoded. No EBREAK is kept, since it ends the run.
const UNDECODED: Instr = Instr {
    op: Op::Ebreak,
    rd: SINK,
    rs1: 0,
    rs2: 0,
    imm: 0,
};

// A page of which no word is decoded. It is copied as it stands; one that is made on the spot is filled and then copied.
static BLANK: [Instr; 1024] = [UNDECODED; 1024];

/// The decoded pages: those to which control came, word by word as it comes to them. A page that is not decoded takes
/// nothing here.
#[derive(Drop)]
pub struct Code {
    /// The number of each decoded page, in ascending order.
    pub numbers: Vec<u32>,
    /// The steps of each decoded page, one for each word.
    pub steps: Vec<Box<[Instr; 1024]>>,
    /// No decoded page stands in memory at a place behind this one.
    pub last: usize,
}

impl Code {
    /// No decoded page; it takes no memory.
    pub fn new(alloc: Global) -> Code
        ensures code { (m : paged.State) → decoded.IsCode m result }
        ensures none { result.numbers.items ≡ [] }
    {
        Code {
            numbers: Vec::new(alloc),
            steps: Vec::new(alloc),
            last: 0,
        }
    }
}

/// The step of an instruction.
pub fn step_of(i: Instr) -> Instr
    requires rd { i.rd < 32 }
    requires rs1 { i.rs1 < 32 }
    requires rs2 { i.rs2 < 32 }
    ensures value { decoded.instr_of result ≡ i }
    ensures small { decoded.IsStep result }
{
    Instr {
        op: i.op,
        rd: if i.rd == 0 { SINK } else { i.rd },
        rs1: i.rs1,
        rs2: i.rs2,
        imm: i.imm,
    }
}

/// Whether a step with this operation is decoded.
#[inline(always)]
pub fn is_decoded(op: Op) -> bool
    ensures { result ≡ decoded.is_decoded op }
{
    match op {
        Op::Ebreak => false,
        _ => true,
    }
}

/// The steps of a decoded page.
#[inline(always)]
pub fn steps_at(steps: &Vec<Box<[Instr; 1024]>>, here: usize) -> &[Instr; 1024]
    requires { here < length steps.now.items }
    ensures { result.now ≡ get_or (decoded.pages steps.now.items) here [] }
{
    &steps[here]
}

/// The operation of the step of the word at an address in a decoded page.
#[inline(always)]
pub fn operation_at(code: &Code, here: usize, pc: u32) -> Op
    requires here { here < length code.now.steps.items }
    requires whole { length (get_or (decoded.pages code.now.steps.items) here []) ≡ 1024 }
    ensures { result ≡ (decoded.step_of code.now here (pc / 4 % 1024)).op }
{
    steps_at(&code.steps, here)[(pc / 4 % 1024) as usize].op
}

/// The step at a place in a page.
#[inline(always)]
pub fn step_at(page: &[Instr; 1024], word: usize) -> Instr
    requires whole { length page.now ≡ 1024 }
    requires within { word < 1024 }
    requires step { decoded.IsStep (get_or page.now word decoded.undecoded) }
    ensures { result ≡ get_or page.now word decoded.undecoded }
{
    let step = &page[word];
    // Field by field, so that each is read from its byte.
    Instr {
        op: step.op,
        rd: step.rd,
        rs1: step.rs1,
        rs2: step.rs2,
        imm: step.imm,
    }
}

/// Whether the word that has the address is decoded, whose page stands at a place in memory. The page that runs is looked
/// at first.
#[inline(always)]
pub fn is_stale(code: &Code, here: usize, place: usize, at: u32) -> bool
    requires count { length code.now.steps.items ≡ length code.now.numbers.items }
    requires whole { (k : ℕ) → k < length code.now.numbers.items → length (get_or (decoded.pages code.now.steps.items) k []) ≡ 1024 }
    requires here { here < length code.now.numbers.items }
    ensures decoded { result ≡ true → (k : ℕ) × decoded.IsReady code.now k at }
    ensures kept { result ≡ false → (m n : paged.State) → decoded.IsCode m code.now → decoded.DiffersAt m n (at / 4 * 4) → place ≡ paged.place n.pages (at / 4096) → decoded.IsCode n code.now }
{
    if place > code.last {
        return false;
    }
    match find_near(code, here, at / 4096) {
        Some(k) => is_decoded(operation_at(code, k, at)),
        None => false,
    }
}

/// Keeps the step of the word at an address in a decoded page.
pub fn keep(code: &mut Code, here: usize, pc: u32, step: Instr)
    requires here { here < length code.old.steps.items }
    requires aligned { pc % 4 ≡ 0 }
    ensures kept { length (get_or (decoded.pages code.old.steps.items) here []) ≡ 1024 → decoded.step_of code.new here (pc / 4 % 1024) ≡ step }
    ensures fresh { (m : paged.State) → decoded.IsCode m code.old → get_or code.old.numbers.items here 0 ≡ pc / 4096 → decoded.IsFresh (paged.word_at m pc) step → decoded.IsCode m code.new }
    ensures numbers { code.new.numbers ≡ code.old.numbers }
{
    set_step(&mut code.steps, here, (pc / 4 % 1024) as usize, step);
}

// Sets the step of a word in a decoded page.
fn set_step(steps: &mut Vec<Box<[Instr; 1024]>>, k: usize, word: usize, step: Instr)
    requires some { k < length steps.old.items }
    requires within { word < 1024 }
    ensures { decoded.pages steps.new.items ≡ set (decoded.pages steps.old.items) k (set (get_or (decoded.pages steps.old.items) k []) word step) }
{
    steps[k][word] = step;
}

/// The decoded page of the page with a number, which stands at a place in memory; a new one where it is not decoded.
pub fn decoded_page(code: &mut Code, place: usize, number: u32) -> Result<usize, AllocError>
    requires { length code.old.steps.items ≡ length code.old.numbers.items }
    ensures here { IfOk result (λ here. (here < length code.new.numbers.items) × (get_or code.new.numbers.items here 0 ≡ number)) }
    ensures code { (m : paged.State) → decoded.IsCode m code.old → paged.is_touched m number ≡ true → place ≡ paged.place m.pages number → decoded.IsCode m code.new }
{
    match search(&code.numbers, number) {
        Ok(here) => Ok(here),
        Err(here) => {
            add(code, here, place, number)?;
            Ok(here)
        }
    }
}

/// Forgets the step of the word that has the address.
pub fn forget(code: &mut Code, at: u32)
    ensures fresh { (m n : paged.State) → decoded.IsCode m code.old → decoded.DiffersAt m n (at / 4 * 4) → decoded.IsCode n code.new }
    ensures numbers { code.new.numbers ≡ code.old.numbers }
{
    match find(&code.numbers, at / 4096) {
        Some(k) => clear(&mut code.steps, k, at),
        None => {}
    }
}

/// Forgets the step of the word that the store `stale` changed, if there was one.
pub fn forget_stale(code: &mut Code, stale: Option<Stored>)
    ensures { (m : paged.State) → decoded.IsKept stale m code.old → decoded.IsCode m code.new }
{
    match stale {
        Some(stored) => forget(code, stored.at),
        None => {}
    }
}

// Forgets the step of the word at the address on the decoded page `k`, where there is that page.
fn clear(steps: &mut Vec<Box<[Instr; 1024]>>, k: usize, at: u32)
    ensures count { length steps.new.items ≡ length steps.old.items }
    ensures whole { (i : ℕ) → length (get_or (decoded.pages steps.new.items) i []) ≡ length (get_or (decoded.pages steps.old.items) i []) }
    ensures there { get_or (get_or (decoded.pages steps.new.items) k []) (at / 4 % 1024) decoded.undecoded ≡ decoded.undecoded }
    ensures others { (i j : ℕ) → decoded.IsClearedAt (decoded.pages steps.old.items) (decoded.pages steps.new.items) i j }
{
    if k < steps.len() {
        set_step(steps, k, (at / 4 % 1024) as usize, UNDECODED);
    }
}

// The decoded page with the number. The page that is named is looked at first.
#[inline(always)]
fn find_near(code: &Code, here: usize, number: u32) -> Option<usize>
    requires { here < length code.now.numbers.items }
    ensures some { IfSome result (λ k. (k < length code.now.numbers.items) × (get_or code.now.numbers.items k 0 ≡ number)) }
    ensures none { IfNone result (decoded.IsAscending code.now.numbers.items → (k : ℕ) → k < length code.now.numbers.items → get_or code.now.numbers.items k 0 ≢ number) }
{
    if code.numbers[here] == number {
        return Some(here);
    }
    find(&code.numbers, number)
}

// The place of a number among those of the decoded pages, if it is there.
#[inline(never)]
fn find(numbers: &Vec<u32>, number: u32) -> Option<usize>
    ensures some { IfSome result (λ k. (k < length numbers.now.items) × (get_or numbers.now.items k 0 ≡ number)) }
    ensures none { IfNone result (decoded.IsAscending numbers.now.items → (k : ℕ) → k < length numbers.now.items → get_or numbers.now.items k 0 ≢ number) }
{
    match search(numbers, number) {
        Ok(k) => Some(k),
        Err(_) => None,
    }
}

// The place of a number among those of the decoded pages, or where it is to be put.
fn search(numbers: &Vec<u32>, number: u32) -> Result<usize, usize>
    ensures there { IfOk result (λ k. (k < length numbers.now.items) × (get_or numbers.now.items k 0 ≡ number)) }
    ensures within { IfErr result (λ k. k ≤ length numbers.now.items) }
    ensures between { IfErr result (λ k. decoded.IsAscending numbers.now.items → decoded.IsBetween numbers.now.items k number) }
{
    let guess = guess(numbers, number);
    if is_at(numbers, guess, number) {
        return Ok(guess);
    }
    numbers.as_slice().binary_search(&number)
}

// The place of a number where the pages from the first one up to it are all decoded; any number where they are not.
#[inline(always)]
fn guess(numbers: &Vec<u32>, number: u32) -> usize
    ensures { 0 < length numbers.now.items → get_or numbers.now.items 0 0 ≤ number → result ≡ number - get_or numbers.now.items 0 0 }
{
    match numbers.get(0) {
        Some(first) => number.wrapping_sub(*first) as usize,
        None => 0,
    }
}

#[inline(always)]
fn is_at(numbers: &Vec<u32>, k: usize, number: u32) -> bool
    ensures { IsTrue result ↔ ((k < length numbers.now.items) × (get_or numbers.now.items k 0 ≡ number)) }
{
    match numbers.get(k) {
        Some(n) => *n == number,
        None => false,
    }
}

// Adds a page of which no word is decoded, at its place among the others.
fn add(code: &mut Code, here: usize, place: usize, number: u32) -> Result<(), AllocError>
    requires count { length code.old.steps.items ≡ length code.old.numbers.items }
    requires within { here ≤ length code.old.numbers.items }
    ensures here { OnOk result ((here < length code.new.numbers.items) × (get_or code.new.numbers.items here 0 ≡ number)) }
    ensures code { (m : paged.State) → decoded.IsCode m code.old → paged.is_touched m number ≡ true → place ≡ paged.place m.pages number → decoded.IsBetween code.old.numbers.items here number → decoded.IsCode m code.new }
{
    let steps = Box::new(*code.steps.allocator(), *blank())?;
    code.numbers.reserve(1)?;
    code.steps.insert(here, steps)?;
    code.numbers.insert(here, number)?;
    code.last = code.last.max(place);
    Ok(())
}

#[tactic(auto, unfolding(crate::specs::Decoded::blank))]
fn blank() -> &'static [Instr; 1024]
    ensures { result.now ≡ decoded.blank }
{
    &BLANK
}

/// Forgets the steps of the words of the bytes that were put into memory from an address on.
pub fn forget_all(code: &mut Code, at: u32, bytes: &[u8])
    requires space { at + length bytes.now ≤ 2 ^ 32 }
    ensures fresh { (m : paged.State) → decoded.IsCode m code.old → decoded.IsCode (paged.store_bytes m at bytes.now) code.new }
    ensures numbers { code.new.numbers ≡ code.old.numbers }
{
    let mut done = 0;
    while done < bytes.len() {
        let here = at + done as u32;
        let piece = forget_piece(code, here);
        done = bytes.len().min(done + piece);
    }
}

// Forgets the step of the word that has the address; gives how many bytes from there on have no step any more: those up
// to the end of the word, or of a page that is not decoded.
fn forget_piece(code: &mut Code, at: u32) -> usize
    ensures some { 0 < result }
    ensures within { at % 4096 + result ≤ 4096 }
    ensures fresh { (m : paged.State) (bytes : List ℕ) → decoded.IsCode m code.old → length bytes ≤ result → decoded.IsCode (paged.store_bytes m at bytes) code.new }
    ensures numbers { code.new.numbers ≡ code.old.numbers }
{
    match find(&code.numbers, at / 4096) {
        Some(k) => {
            clear(&mut code.steps, k, at);
            4 - at as usize % 4
        }
        None => 4096 - at as usize % 4096,
    }
}
