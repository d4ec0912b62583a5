//! A hart in its memory, which executes words that were decoded once, and undoes what they did.

ghost use Rattle.std.specs.Prelude.{◌≡◌, ◌-◌, ◌^◌, ◌<◌, ◌≤◌, length, IfOk, OnErr, OnOk};
ghost use Rattle.image.specs.Memory.{WritesOrLacks};
ghost use Rattle.rv32i.specs.Steps.{settles};
ghost use Rattle.course.specs.Marks.Mark.{Pop, Push};
ghost use Rattle.course.specs.Private.Moves.{CanBeKept, CanBeUnmade, GoesBy, NotesJump, PutsInBlank, moves_of, undo_in, unmade};
ghost use Rattle.course.specs.Positions.{begun, position_at};
ghost use Rattle.course.specs.Private.Words.{with_mark_if};

use crate::calls::Calls;
use crate::entry::{Entry, stored_at};
use crate::moves::Move;
use crate::places::{PLACES, forget, forget_words, ready};
use crate::undo_log::UndoLog;
use image::{MemFault, Memory};
use rv32i::{Halt, Hart, Stepped, perform};
use std::alloc::{AllocError, Global};
use std::marker::Model;

/// A hart in its memory, and the calls of the program that it runs. A contract sees the hart, the bytes
/// of memory and the calls.
#[derive(Drop)]
pub(crate) struct Machine {
    hart: Hart,
    memory: Memory,
    calls: Calls,
    /// Words that are remembered decoded, each at its place. All the room for these is made at the
    /// start; the places are made as words are remembered.
    entries: Vec<Entry>,
}

impl Model for Machine {
    ghost use Rattle.std.specs.Prelude.{vec_capacity};
    ghost use Rattle.course.specs.Positions.{Position};

    ghost Value = { Position };

    ghost use Rattle.course.specs.Private.Moves.{CanBeKept};
    ghost use Rattle.course.specs.Private.Words.{IsCached};

    ghost view = { λ c. record { hart = c.hart; memory = c.memory; calls = c.calls } };

    ghost invariant = { λ c. IsCached c.memory c.entries.items (vec_capacity c.entries)
        × CanBeKept c.calls };
}

impl Machine {
    /// A hart in its memory, before the first instruction of its program retires. `Err`: no memory was left.
    pub fn new(alloc: Global, hart: Hart, memory: Memory) -> Result<Machine, AllocError>
        ensures { IfOk result (λ machine. machine ≡ begun hart memory) }
    {
        let calls = Calls::new(alloc)?;
        let entries = Vec::with_capacity(alloc, PLACES)?;
        Ok(Machine {
            hart,
            memory,
            calls,
            entries,
        })
    }

    /// The instruction at an address. `Ok`: it retired, the next one is at this address, and its move is
    /// recorded. `Err`: it did not, for this reason, and nothing has changed. The hart's pc is not looked at,
    /// and stays. The depth of the calls is below 2^64 - 1 before it.
    ///
    /// The move is put down before it is made, so that nothing of it has to be kept meanwhile.
    #[inline(always)]
    pub fn quick(&mut self, pc: u32, log: &mut UndoLog) -> Result<u32, Halt>
        requires { self.old.calls.depth < 2 ^ 64 - 1 }
        ensures { GoesBy pc self.old (moves_of log.old) result self.new (moves_of log.new) }
    {
        match ready(&mut self.entries, &self.memory, pc) {
            Ok(()) => {}
            Err(cause) => return Err(Halt::Stopped(cause)),
        }
        let entry = &self.entries[(pc / 4 % 16384) as usize];
        let was = entry.overwritten(&self.hart.x, &self.memory);
        let deed = entry.deed;
        log.push(Move { pc, was, deed });
        let next = match perform(&mut self.hart.x, pc, &entry.instr, &mut self.memory) {
            Ok(next) => next,
            Err(halt) => {
                log.take_back();
                return Err(halt);
            }
        };
        if entry.is_plain {
            return Ok(next);
        }
        if entry.stores {
            let at = stored_at(&self.hart.x, &entry.instr);
            forget(&mut self.entries, at as usize / 4 * 4);
            log.place(at);
            return Ok(next);
        }
        note_jump(log, &mut self.calls, entry, pc);
        Ok(next)
    }

    /// Undoes a move that was made. `Err`: no memory was left, and nothing has changed.
    pub fn undo(&mut self, made: &Move) -> Result<(), AllocError>
        requires { CanBeUnmade made.now self.old }
        ensures ok { OnOk result (self.new ≡ unmade made.now self.old) }
        ensures err { OnErr result (self.new ≡ self.old) }
        ensures lacks { OnErr result (PutsInBlank (undo_in made.now) self.old.memory) }
    {
        let undo = made.undo();
        self.hart.undo(&mut self.memory, &undo)?;
        forget_words(&mut self.entries, undo.address, undo.stored());
        self.calls.unnote(&made.called());
        Ok(())
    }

    /// What a step answers where the instruction at the hart's pc halts, for this reason, and the pc after
    /// it: a trap, an exit and a lack of memory leave the hart as it is; a call that prints and EBREAK
    /// move it to the following instruction.
    #[cold]
    #[inline(never)]
    pub fn settle(&mut self, halt: Halt) -> Result<Stepped, AllocError>
        ensures pc { settles halt self.old.hart.pc self.old.hart.x result self.new.hart.pc }
        ensures rest { self.new ≡ position_at self.new.hart.pc self.old }
        ensures kept { CanBeKept self.old.calls }
    {
        self.hart.settle(halt)
    }

    /// Begins again, with another hart and another memory: no instruction retired yet.
    pub fn restart(&mut self, hart: Hart, memory: Memory)
        ensures { self.new ≡ begun hart memory }
    {
        self.calls.clear();
        self.entries.clear();
        self.hart = hart;
        self.memory = memory;
    }

    /// Writes bytes to memory. `Outside`: one of the addresses has no byte; `NoMemory`: no memory was
    /// left for a page that is written first. Then nothing is written.
    pub fn write(&mut self, addr: u32, bytes: &[u8]) -> Result<(), MemFault>
        ensures writes { WritesOrLacks 1 self.old.memory addr bytes.now result self.new.memory }
        ensures rest { self.new ≡ record self.old { memory = self.new.memory } }
    {
        match self.memory.write(addr, bytes) {
            Ok(()) => {
                forget_words(&mut self.entries, addr, bytes.len());
                Ok(())
            }
            Err(fault) => Err(fault),
        }
    }

    /// Gives the hart other registers and another pc.
    pub fn set_hart(&mut self, hart: Hart)
        ensures { self.new ≡ record self.old { hart = hart } }
    {
        self.hart = hart;
    }

    /// Gives the hart another pc.
    #[inline]
    pub fn set_pc(&mut self, pc: u32)
        ensures { self.new ≡ position_at pc self.old }
    {
        self.hart.pc = pc;
    }

    /// The hart.
    #[inline]
    pub fn hart(&self) -> &Hart
        ensures { result.now ≡ self.now.hart }
    {
        &self.hart
    }

    /// Memory.
    #[inline]
    pub fn memory(&self) -> &Memory
        ensures { result.now ≡ self.now.memory }
    {
        &self.memory
    }

    /// The calls of the program.
    #[inline]
    pub fn calls(&self) -> &Calls
        ensures { result.now ≡ self.now.calls }
    {
        &self.calls
    }
}

// Notes a jump that returns or calls, or does both, in this order; the rest of its move is recorded.
#[inline(always)]
fn note_jump(log: &mut UndoLog, calls: &mut Calls, entry: &Entry, pc: u32)
    requires deep { calls.old.depth < 2 ^ 64 - 1 }
    requires some { 1 ≤ length log.old.newest }
    ensures marks { calls.new
        ≡ with_mark_if entry.now.pushes (Push pc) (with_mark_if entry.now.pops Pop calls.old) }
    ensures notes { NotesJump calls.old calls.new log.old log.new }
{
    match (entry.pops, entry.pushes) {
        (false, false) => {}
        (true, false) => log.note(calls.pop()),
        (false, true) => log.note(calls.push(pc)),
        (true, true) => log.note(calls.swap(pc)),
    }
}
