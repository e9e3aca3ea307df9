ghost use Rattle.std.specs.Prelude.{ℕ, ◌≡◌, ◌+◌, ◌-◌, ◌*◌, ◌/◌, ◌%◌, ◌^◌, ◌<◌, ◌≤◌, ◌++◌, IfOk, IfErr, IfSome, IfNone, OnOk, OnErr, Option, Some, None, Result, Ok, Err, true, false, min, length};
ghost use Rattle.farm_kinds.specs.Limits.{is_raw_image};
ghost use Rattle.rv_memory.specs.Paged as memory;
ghost use Rattle.rv_machine.specs.Running as running;
ghost use Rattle.rv_machine.specs.Stepping as stepping;

use crate::code::{Code, forget_stale};
use crate::ending::{Ending, Trap};
use crate::files::Files;
use crate::processor::{Processor, Stop, next_pc};
use crate::running::{fetch_page, run_in_page};
use farm_kinds::{Limits, NoMemory};
use rv_memory::Memory;
use std::alloc::Global;
use std::marker::Model;

/// Where the image stands, and where the program begins.
const BASE: u32 = 0x1_0000;

/// A machine with a program, what the program may use, and what it reads.
#[derive(Drop)]
pub struct Machine<'a> {
    limits: Limits,
    processor: Processor,
    code: Code,
    pc: u32,
    cost: u64,
    files: Files<'a>,
    output: Vec<u8>,
    answer: Option<Result<Ending, NoMemory>>,
}

impl<'a> Model for Machine<'a> {
    ghost use Rattle.std.specs.Prelude.{◌≡◌, ◌≤◌, ◌%◌, length};
    ghost use Rattle.rv_machine.specs.Storage.{hart_of};
    ghost use Rattle.rv_machine.specs.Inputs.{inputs_of};
    ghost use Rattle.rv_machine.specs.Running.{Run};
    ghost use Rattle.rv_machine.specs.Decoded.{IsCode};

    ghost Value = { Run };

    ghost view = { λ m. record { state = record { limits = m.limits; hart = hart_of m.processor m.pc; inputs = inputs_of m.files; output = m.output.items; cost = m.cost }; answer = m.answer } };

    ghost invariant = { λ m. (m.pc % 4 ≡ 0) × (length m.output.items ≤ m.limits.output) × IsCode m.processor.memory m.code };
}

impl<'a> Machine<'a> {
    ghost use Rattle.rv_machine.specs.Inputs.{inputs_of};

    /// A machine at the start of a run: the image stands at 0x10000, where the program begins, and the stack pointer
    /// is 0x7FFFFFF0. An image of more pages than the limit is not loaded, and its run ends as `Ending::Memory`.
    #[tactic(auto, using(crate::proofs::Placing::loads_by_placing))]
    pub fn load(
        alloc: Global,
        image: &[u8],
        limits: Limits,
        files: Files<'a>,
    ) -> Result<Machine<'a>, NoMemory>
        requires { is_raw_image image.now ≡ true }
        ensures value { IfOk result (λ m. m ≡ running.loaded image.now limits (inputs_of files.entry)) }
        ensures run { IfOk result (λ m. running.finish_of m ≡ stepping.run_of image.now limits (inputs_of files.entry)) }
    {
        let mut machine = Machine::blank(alloc, limits, files, BASE);
        machine.place(BASE, image)?;
        Ok(machine)
    }

    /// A machine with nothing in memory, whose program begins at `entry`; the stack pointer is 0x7FFFFFF0.
    pub fn blank(alloc: Global, limits: Limits, files: Files<'a>, entry: u32) -> Machine<'a>
        requires { entry % 4 ≡ 0 }
        ensures { result ≡ running.blank entry limits (inputs_of files.entry) }
    {
        Machine {
            limits,
            processor: Processor::new(Memory::new(alloc, limits.pages)),
            code: Code::new(alloc),
            pc: entry,
            cost: 0,
            files,
            output: Vec::new(alloc),
            answer: None,
        }
    }

    /// Puts bytes at an address, and touches their pages. Where these are more than the limit nothing is put, and the
    /// run ends as `Ending::Memory` before its first instruction; after `NoMemory` it ends as that. A machine that has
    /// ended, by its run or by an earlier call of `place`, stays as it is.
    pub fn place(&mut self, at: u32, bytes: &[u8]) -> Result<(), NoMemory>
        requires { at + length bytes.now ≤ 2 ^ 32 }
        ensures placed { OnOk result (self.new ≡ running.placed at bytes.now self.old) }
        ensures refused { IfErr result (λ error. self.new ≡ record self.old { answer = Some (Err error) }) }
        ensures waits { OnErr result (self.old.answer ≡ None) }
    {
        if let Some(_) = self.answer {
            return Ok(());
        }
        if !self.processor.fits(at, bytes.len() as u64) {
            self.answer = Some(Ok(Ending::Memory));
            return Ok(());
        }
        let placed = self.processor.copy_in(&mut self.code, at, bytes);
        if let Err(error) = placed {
            self.answer = Some(Err(error));
        }
        placed
    }

    /// Runs the program to its end. Called again, it gives the same answer and changes nothing: after `NoMemory` it is
    /// `NoMemory` again, and the output, the cost and the pages are those of a run that was not finished: going on from
    /// there would end as the whole run ends.
    pub fn run(&mut self) -> Result<Ending, NoMemory>
        ensures ok { IfOk result (λ e. running.finish_of self.old ≡ record { ending = e; state = self.new.state }) }
        ensures kept { self.new.answer ≡ Some result }
        ensures onward { running.finish_of self.new ≡ running.finish_of self.old }
        ensures again { IfSome self.old.answer (λ answer. (result ≡ answer) × (self.new ≡ self.old)) }
    {
        if let Some(answer) = self.answer {
            return answer;
        }
        let answer = self.finish();
        self.answer = Some(answer);
        answer
    }

    /// What the program wrote to descriptor 1.
    pub fn output(&self) -> &[u8]
        ensures value { result.now ≡ self.now.state.output }
        ensures within { length result.now ≤ self.now.state.limits.output }
    {
        self.output.as_slice()
    }

    /// What the run cost: 1 for each instruction, and 1 for each byte that a read or write call moved.
    pub fn cost(&self) -> u64
        ensures { result ≡ self.now.state.cost }
    {
        self.cost
    }

    /// How many pages of 4,096 bytes the run touched.
    pub fn pages(&self) -> u32
        ensures { result ≡ memory.page_count self.now.state.hart.memory }
    {
        self.processor.pages()
    }

    fn finish(&mut self) -> Result<Ending, NoMemory>
        ensures ok { IfOk result (λ e. stepping.finish self.old.state ≡ record { ending = e; state = self.new.state }) }
        ensures unfinished { OnErr result (stepping.finish self.old.state ≡ stepping.finish self.new.state) }
    {
        loop {
            match self.run_to_stop() {
                Stop::Ended(ending) => return Ok(ending),
                Stop::NoMemory => return Err(NoMemory),
                Stop::Call => match self.call() {
                    Ok(()) => {}
                    Err(Stop::Ended(ending)) => return Ok(ending),
                    Err(_) => return Err(NoMemory),
                },
            }
        }
    }

    // Runs up to an instruction that is a system call or does not go on.
    fn run_to_stop(&mut self) -> Stop
        ensures stops { running.Stops result self.old.state self.new.state }
        ensures later { running.IsLater self.old.state self.new.state }
        ensures time { result ≡ Stop.Call → self.new.state.cost < self.new.state.limits.instructions }
    {
        let limit = self.limits.instructions;
        loop {
            if self.cost >= limit {
                return Stop::Ended(Ending::Time);
            }
            let here = match fetch_page(&mut self.processor, &mut self.code, self.pc) {
                Ok(here) => here,
                Err(stop) => return stop,
            };
            let pause = run_in_page(
                &mut self.processor,
                &self.code,
                here,
                self.pc,
                self.cost,
                limit,
            );
            self.pc = pause.pc;
            self.cost = limit - pause.left;
            forget_stale(&mut self.code, pause.stale);
            match pause.stop {
                Some(stop) => return stop,
                None => {}
            }
        }
    }
}

// ---- system calls

impl<'a> Machine<'a> {
    // Carries out the system call at pc, whose number is in x17.
    fn call(&mut self) -> Result<(), Stop>
        requires time { self.old.state.cost < self.old.state.limits.instructions }
        ensures gives { running.Gives result (stepping.system_call self.old.state) self.new.state }
        ensures unchanged { result ≡ Err Stop.NoMemory → self.new.state ≡ self.old.state }
    {
        match self.processor.register(17) {
            93 => {
                let _limit = self.limits.instructions;
                self.cost += 1;
                Err(Stop::Ended(Ending::Exit(self.processor.register(10))))
            }
            63 => self.read(),
            64 => self.write(),
            _ => Err(Stop::Ended(Ending::Trap(Trap::Call))),
        }
    }

    // Reads up to x12 bytes from the descriptor in x10 to x11.
    fn read(&mut self) -> Result<(), Stop>
        requires time { self.old.state.cost < self.old.state.limits.instructions }
        ensures gives { running.Gives result (stepping.read_call self.old.state) self.new.state }
        ensures unchanged { result ≡ Err Stop.NoMemory → self.new.state ≡ self.old.state }
    {
        let descriptor = self.processor.register(10);
        match self.files.left(descriptor) {
            Some(left) => {
                let at = self.processor.register(11);
                let room = self.processor.register(12);
                self.read_left(descriptor, at, room, left)
            }
            None => {
                self.resume(u32::MAX, 0);
                Ok(())
            }
        }
    }

    // Reads what is left at a descriptor, as far as there is room for it.
    fn read_left(&mut self, descriptor: u32, at: u32, room: u32, left: &'a [u8]) -> Result<(), Stop>
        requires time { self.old.state.cost < self.old.state.limits.instructions }
        ensures gives { running.Gives result (stepping.reads self.old.state descriptor at room (Some left.entry.now)) self.new.state }
        ensures unchanged { result ≡ Err Stop.NoMemory → self.new.state ≡ self.old.state }
    {
        let n = at_most(room, left);
        self.admit(at, n)?;
        let (bytes, rest) = left.split_at(n as usize);
        match self.processor.copy_in(&mut self.code, at, bytes) {
            Ok(()) => {}
            Err(_) => return Err(Stop::NoMemory),
        }
        self.files.set_left(descriptor, rest);
        self.resume(n, n);
        Ok(())
    }

    // Writes the x12 bytes at x11 to the descriptor in x10.
    fn write(&mut self) -> Result<(), Stop>
        requires time { self.old.state.cost < self.old.state.limits.instructions }
        ensures gives { running.Gives result (stepping.write_call self.old.state) self.new.state }
        ensures unchanged { result ≡ Err Stop.NoMemory → self.new.state ≡ self.old.state }
    {
        let at = self.processor.register(11);
        let n = self.processor.register(12);
        match self.processor.register(10) {
            1 => self.write_output(at, n),
            2 => self.write_nothing(at, n),
            _ => {
                self.resume(u32::MAX, 0);
                Ok(())
            }
        }
    }

    // Appends n bytes of memory to the output.
    fn write_output(&mut self, at: u32, n: u32) -> Result<(), Stop>
        requires time { self.old.state.cost < self.old.state.limits.instructions }
        ensures gives { running.Gives result (stepping.writes self.old.state 1 at n) self.new.state }
        ensures unchanged { result ≡ Err Stop.NoMemory → self.new.state ≡ self.old.state }
    {
        self.admit(at, n)?;
        if self.output.len() as u64 + n as u64 > self.limits.output as u64 {
            return Err(Stop::Ended(Ending::Output));
        }
        let written = self.output.len();
        match self.processor.copy_out(at, n, &mut self.output) {
            Ok(()) => {}
            Err(_) => return Err(Stop::NoMemory),
        }
        match self.processor.touch(at, n) {
            Ok(()) => {}
            Err(_) => {
                self.output.truncate(written);
                return Err(Stop::NoMemory);
            }
        }
        self.resume(n, n);
        Ok(())
    }

    // Lets n bytes of memory go.
    fn write_nothing(&mut self, at: u32, n: u32) -> Result<(), Stop>
        requires time { self.old.state.cost < self.old.state.limits.instructions }
        ensures gives { running.Gives result (stepping.writes self.old.state 2 at n) self.new.state }
        ensures unchanged { result ≡ Err Stop.NoMemory → self.new.state ≡ self.old.state }
    {
        self.admit(at, n)?;
        match self.processor.touch(at, n) {
            Ok(()) => {}
            Err(_) => return Err(Stop::NoMemory),
        }
        self.resume(n, n);
        Ok(())
    }

    // Whether n bytes at an address may move: they lie below 2^32, and there is time for them and room for their pages.
    fn admit(&self, at: u32, n: u32) -> Result<(), Stop>
        requires time { self.now.state.cost < self.now.state.limits.instructions }
        ensures ok { OnOk result (running.Admitted self.now.state at n) }
        ensures refused { IfErr result (λ stop. (o : stepping.Outcome) → running.Gives (Err stop) (stepping.transfers self.now.state at n o) self.now.state) }
    {
        if at as u64 + n as u64 > 1 << 32 {
            return Err(Stop::Ended(Ending::Trap(Trap::Range)));
        }
        if n as u64 > self.limits.instructions - self.cost - 1 {
            return Err(Stop::Ended(Ending::Time));
        }
        if !self.processor.fits(at, n as u64) {
            return Err(Stop::Ended(Ending::Memory));
        }
        Ok(())
    }

    // Goes on after a system call that answered a number in x10 and moved n bytes.
    fn resume(&mut self, value: u32, n: u32)
        requires time { self.old.state.cost + 1 + n ≤ self.old.state.limits.instructions }
        ensures { stepping.Next self.new.state ≡ stepping.answers self.old.state value n }
    {
        // A number that was read is known to fit its type, and so does a cost up to the limit.
        let _limit = self.limits.instructions;
        self.processor.set_register(10, value);
        self.pc = next_pc(self.pc);
        self.cost += 1 + n as u64;
    }
}

// How many of the bytes there is room for.
fn at_most(room: u32, bytes: &[u8]) -> u32
    ensures { result ≡ min room (length bytes.now) }
{
    if bytes.len() < room as usize {
        bytes.len() as u32
    } else {
        room
    }
}
