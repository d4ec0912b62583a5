//! A machine with its past: what undoes its last moves is kept.

ghost use Rattle.std.specs.Prelude.{◌≡◌, ◌-◌, ◌^◌, ◌<◌, ◌≤◌, [], length, IfOk, Ok, OnErr, OnOk};
ghost use Rattle.image.specs.Memory.{WritesOrLacks};
ghost use Rattle.rv32i.specs.Steps.{settles};
ghost use Rattle.rv32i.specs.Undoing.{retires};
ghost use Rattle.course.specs.Positions.{GoesOn, Halts, UndoNeedsPage, gone_back, past_after, past_left, position_at, start_of};

use crate::calls::Calls;
use crate::machine::Machine;
use crate::moves::Move;
use crate::undo_log::UndoLog;
use image::{MemFault, Memory};
use rv32i::{Halt, Hart, Stepped};
use std::alloc::{AllocError, Global};
use std::marker::Model;

/// A hart in its memory, and the calls of the program that it runs, with what undoes the last moves: at most 65,536 are
/// recorded. A contract sees the position now, and those before these moves, the newest first.
#[derive(Drop)]
pub struct Course {
    machine: Machine,
    log: UndoLog,
}

impl Model for Course {
    ghost use Rattle.course.specs.Private.Moves.{AllAreKept, course_of, moves_of};
    ghost use Rattle.course.specs.Positions as positions;

    ghost Value = { positions.Course };

    ghost view = { λ c. course_of c.machine (moves_of c.log) };

    ghost invariant = { λ c. AllAreKept (moves_of c.log) c.machine };
}

impl Course {
    /// A hart in its memory, before the first instruction of its program retires. `Err`: no memory was left.
    pub fn new(alloc: Global, hart: Hart, memory: Memory) -> Result<Course, AllocError>
        ensures { IfOk result (λ course. course ≡ start_of hart memory) }
    {
        let machine = Machine::new(alloc, hart, memory)?;
        let log = UndoLog::new(alloc)?;
        Ok(Course { machine, log })
    }

    /// The instruction at an address. `Ok`: it retired, its move is recorded, and the next one is at this
    /// address. `Err`: it did not, for this reason, and nothing has changed. The hart's pc is not looked at,
    /// and stays: a caller that runs many instructions keeps the pc apart meanwhile, and sets it at the end. The depth
    /// of the calls is below 2^64 - 1 before it.
    #[inline(always)]
    pub fn quick(&mut self, pc: u32) -> Result<u32, Halt>
        requires { self.old.now.calls.depth < 2 ^ 64 - 1 }
        ensures { GoesOn pc self.old result self.new }
    {
        self.machine.quick(pc, &mut self.log)
    }

    /// What a step answers where the instruction at the hart's pc halts, for this reason, as `quick` has said, and the pc
    /// after it: a trap, an exit and a lack of memory leave the hart as it is; a call that prints and EBREAK
    /// move it to the following instruction, which is recorded.
    #[cold]
    #[inline(never)]
    pub fn settle(&mut self, halt: Halt) -> Result<Stepped, AllocError>
        requires { Halts self.old.now.hart.pc halt self.old.now }
        ensures pc { settles halt self.old.now.hart.pc self.old.now.hart.x
            result self.new.now.hart.pc }
        ensures rest { self.new ≡ record {
          now = position_at self.new.now.hart.pc self.old.now;
          past = past_after result self.old;
        } }
    {
        let pc = self.machine.hart().pc;
        let stepped = match self.machine.settle(halt) {
            Ok(stepped) => stepped,
            Err(error) => return Err(error),
        };
        if has_retired(stepped) {
            self.log.push(Move::of_pc(pc));
        }
        Ok(stepped)
    }

    /// Undoes the newest of the recorded moves, if there is one. `Err`: it was a store, no memory was left for a page
    /// of zeros into which a byte is put back, and nothing has changed.
    pub fn go_back(&mut self) -> Result<(), AllocError>
        ensures ok { OnOk result (self.new ≡ gone_back self.old) }
        ensures err { OnErr result (self.new ≡ self.old) }
        ensures lacks { OnErr result (UndoNeedsPage self.old.past self.old.now.memory) }
    {
        let Some(made) = self.log.newest() else {
            return Ok(());
        };
        self.machine.undo(&made)?;
        self.log.drop_newest();
        Ok(())
    }

    /// How many moves are recorded, 65,536 at most.
    #[inline]
    pub fn recorded(&self) -> usize
        ensures recorded { result ≡ length self.now.past }
        ensures few { result ≤ 65536 }
    {
        self.log.len()
    }

    /// Begins again, with another hart and another memory: no instruction retired yet.
    pub fn restart(&mut self, hart: Hart, memory: Memory)
        ensures { self.new ≡ start_of hart memory }
    {
        self.log.clear();
        self.machine.restart(hart, memory);
    }

    /// Writes bytes to memory, and forgets the recorded moves. `Outside`: one of the addresses has no byte;
    /// `NoMemory`: no memory was left for a page that is written first. Then nothing is written, and nothing
    /// forgotten.
    pub fn write(&mut self, addr: u32, bytes: &[u8]) -> Result<(), MemFault>
        ensures writes { WritesOrLacks 1 self.old.now.memory addr bytes.now
            result self.new.now.memory }
        ensures rest { self.new ≡ record {
          now = record self.old.now { memory = self.new.now.memory };
          past = past_left result self.old.past;
        } }
    {
        match self.machine.write(addr, bytes) {
            Ok(()) => {
                self.log.clear();
                Ok(())
            }
            Err(fault) => Err(fault),
        }
    }

    /// Gives the hart other registers and another pc, and forgets the recorded moves.
    pub fn set_hart(&mut self, hart: Hart)
        ensures { self.new ≡ record { now = record self.old.now { hart = hart }; past = [] } }
    {
        self.log.clear();
        self.machine.set_hart(hart);
    }

    /// Gives the hart another pc: where it is after instructions in a row, which is the address that `quick` answered
    /// last. The recorded moves stay, whatever the address is; a caller that continues elsewhere calls `set_hart`, which
    /// forgets them.
    #[inline]
    pub fn set_pc(&mut self, pc: u32)
        ensures { self.new ≡ record { now = position_at pc self.old.now; past = self.old.past } }
    {
        self.machine.set_pc(pc);
    }

    /// The hart.
    #[inline]
    pub fn hart(&self) -> &Hart
        ensures { result.now ≡ self.now.now.hart }
    {
        self.machine.hart()
    }

    /// Memory.
    #[inline]
    pub fn memory(&self) -> &Memory
        ensures { result.now ≡ self.now.now.memory }
    {
        self.machine.memory()
    }

    /// The calls of the program.
    #[inline]
    pub fn calls(&self) -> &Calls
        ensures { result.now ≡ self.now.now.calls }
    {
        self.machine.calls()
    }
}

// Whether an instruction has retired.
fn has_retired(stepped: Stepped) -> bool
    ensures { result ≡ retires (Ok stepped) }
{
    matches!(
        stepped,
        Stepped::Retired | Stepped::Printed(_) | Stepped::Break
    )
}
