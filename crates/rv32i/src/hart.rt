//! A hart, and its steps.

ghost use Rattle.std.specs.Prelude.{◌≡◌, slice_index};

use crate::Instr;
use crate::decoding::decode;
use crate::performing::{Halt, perform};
use crate::stepped::{Cause, Stepped};
use image::{MemFault, Memory};
use std::alloc::AllocError;

// The registers of an environment call: what it is, and its argument.
const A7: usize = 17;

const A0: usize = 10;

// The calls: to end the program, and to print.
const EXIT: u32 = 93;

const PRINT: u32 = 1;

/// One hardware thread of RV32I (RISC-V Unprivileged ISA 20191213, section 2.1).
#[derive(Clone, Copy, Debug, PartialEq, Eq)]
pub struct Hart {
    /// The address of the next instruction.
    pub pc: u32,
    /// The registers x0 to x31.
    pub x: [u32; 32],
    /// x0 is 0.
    pub ghost zero: { slice_index x 0 ≡ 0 },
}

impl Hart {
    ghost use Rattle.std.specs.Prelude.{[], slice_set, replicate, OnErr, OnOk};
    ghost use Rattle.rv32i.specs.Machine.{calls, machine_of, IsDecodedAtPc, IsMove, Keeps, MoveNeedsPage};
    ghost use Rattle.rv32i.specs.Steps.{settles, CarriesOut};

    /// A hart at an entry, with the stack pointer (x2) set and all other registers 0.
    pub fn new(entry: u32, sp: u32) -> Hart
        ensures pc { result.pc ≡ entry }
        ensures x { result.x ≡ slice_set (replicate 32 0) 2 sp }
    {
        let mut x = [0; 32];
        x[2] = sp;
        Hart { pc: entry, x }
    }

    /// One step: fetches the word at pc, decodes it, and does what the instruction says. After a trap
    /// or an exit the hart and memory are as they were. `Err`: no memory was left for a page of
    /// zeros into which the instruction stores, and all is as it was.
    pub fn step(&mut self, memory: &mut Memory) -> Result<Stepped, AllocError>
        ensures moves { OnOk result (IsMove (machine_of self.old memory.old)
            (record { answer = result; machine = machine_of self.new memory.new })) }

        // A trap and an exit change nothing, nor does a step without memory, and pc stays a multiple of 4.
        ensures keeps { Keeps (machine_of self.old memory.old)
            (record { answer = result; machine = machine_of self.new memory.new }) }
        ensures lacks { OnErr result (MoveNeedsPage (machine_of self.old memory.old)) }
    {
        let word = match memory.word(self.pc) {
            Ok(word) => word,
            Err(MemFault::Misaligned) => return Ok(Stepped::Trap(Cause::JumpMisaligned)),
            Err(MemFault::Outside) => return Ok(Stepped::Trap(Cause::FetchOutside)),
            Err(MemFault::NoMemory) => unreachable!(),
        };
        self.execute(decode(word), memory)
    }

    /// A step, where the word at pc lies in memory and is decoded already: `instr` is what `decode`
    /// makes of it. It answers and leaves what `step` does.
    #[inline]
    pub fn execute(
        &mut self,
        instr: Option<Instr>,
        memory: &mut Memory,
    ) -> Result<Stepped, AllocError>
        requires { IsDecodedAtPc (machine_of self.old memory.old) instr }
        ensures moves { OnOk result (IsMove (machine_of self.old memory.old)
            (record { answer = result; machine = machine_of self.new memory.new })) }
        ensures keeps { Keeps (machine_of self.old memory.old)
            (record { answer = result; machine = machine_of self.new memory.new }) }
        ensures lacks { OnErr result (MoveNeedsPage (machine_of self.old memory.old)) }
    {
        match instr {
            Some(instr) => self.carry_out(&instr, memory),
            None => Ok(Stepped::Trap(Cause::Illegal)),
        }
    }

    // Does what an instruction says.
    #[inline]
    fn carry_out(&mut self, instr: &Instr, memory: &mut Memory) -> Result<Stepped, AllocError>
        ensures { CarriesOut instr.now (machine_of self.old memory.old)
            result (machine_of self.new memory.new) }
    {
        match perform(&mut self.x, self.pc, instr, memory) {
            Ok(pc) => {
                self.pc = pc;
                Ok(Stepped::Retired)
            }
            Err(halt) => self.settle(halt),
        }
    }

    /// What a step answers where `perform` finds no next pc, for this reason: a trap, an exit and a lack of
    /// memory leave the hart as it is; a call that prints and EBREAK move it to the following instruction.
    #[cold]
    #[inline(never)]
    pub fn settle(&mut self, halt: Halt) -> Result<Stepped, AllocError>
        ensures pc { settles halt self.old.pc self.old.x result self.new.pc }
        ensures x { self.new.x ≡ self.old.x }
    {
        match halt {
            Halt::Stopped(cause) => Ok(Stepped::Trap(cause)),
            Halt::NoMemory => Err(AllocError),
            Halt::Calls => Ok(self.call()),
            Halt::Breaks => {
                self.pc = self.pc.wrapping_add(4);
                Ok(Stepped::Break)
            }
        }
    }

    // The environment call, by a7.
    fn call(&mut self) -> Stepped
        ensures { record { answer = Ok result; machine = machine_of self.new [] }
            ≡ calls (machine_of self.old []) }
    {
        let argument = self.x[A0].cast_signed();
        match self.x[A7] {
            EXIT => Stepped::Exit(argument),
            PRINT => {
                self.pc = self.pc.wrapping_add(4);
                Stepped::Printed(argument)
            }
            _ => Stepped::Trap(Cause::UnknownCall),
        }
    }
}
