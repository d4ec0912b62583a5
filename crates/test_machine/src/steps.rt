//! A hart that steps, and steps back.
//!
//! - `new ENTRY SP`: a hart at an entry, with a stack pointer.
//! - `set NUMBER VALUE`: sets a register, 1 to 31; `go ADDRESS`: sets pc.
//! - `step`: the outcome of a step.
//! - `keep`: what undoes the next move; `keep_at WORD ADDRESS`: what undoes that of a word's instruction at an address;
//!   `keep_pc ADDRESS`: of one that changes pc alone. Each keeps it.
//! - `stored`: how many bytes what is kept puts back; `undo`: undoes the move. `once undo`: the same, and not made again where it found
//!   no memory.
//! - `pc`; `x NUMBER`: the value of a register; `registers`: the values of all.

ghost use Rattle.std.specs.Prelude.{◌≡◌};

use image::Memory;
use rv32i::{Hart, Undo, decode, undo_at, undo_of};
use std::alloc::Global;
use testing::{Fault, called, once, parsed, shown};

/// A hart, and what undoes one of its moves.
#[derive(Clone, Copy)]
pub(crate) struct Stepper {
    pub(crate) hart: Hart,
    kept: Undo,
}

impl Stepper {
    /// A hart at an entry, with a stack pointer, whose next move changes pc alone.
    pub(crate) fn new(entry: u32, sp: u32) -> Stepper
        ensures { result.hart.pc ≡ entry }
    {
        Stepper {
            hart: Hart::new(entry, sp),
            kept: Undo::of_pc(entry),
        }
    }

    /// What a hart answers.
    pub(crate) fn answer(
        &mut self,
        alloc: Global,
        memory: &mut Memory,
        arguments: &[&str],
    ) -> Result<String, Fault> {
        match arguments {
            ["new", entry, sp] => {
                *self = Stepper::new(parsed(entry)?, parsed(sp)?);
                shown(alloc, "ok")
            }
            ["set", register, value] => set(alloc, &mut self.hart, register, parsed(value)?),
            ["go", address] => {
                self.hart.pc = parsed(address)?;
                shown(alloc, "ok")
            }
            ["step"] => {
                let stepped = called(self.hart.step(memory))?;
                Ok(format!(in alloc; "{stepped:?}")?)
            }
            ["undo"] => self.undo(alloc, memory),
            ["once", "undo"] => once(alloc, self.undo(alloc, memory)),
            ["stored"] => shown(alloc, self.kept.stored()),
            ["pc"] => shown(alloc, self.hart.pc),
            ["x", register] => value(alloc, &self.hart, register),
            ["registers"] => registers(alloc, &self.hart),
            arguments => self.keep(alloc, memory, arguments),
        }
    }

    fn undo(&mut self, alloc: Global, memory: &mut Memory) -> Result<String, Fault> {
        called(self.hart.undo(memory, &self.kept))?;
        shown(alloc, "ok")
    }

    fn keep(
        &mut self,
        alloc: Global,
        memory: &Memory,
        arguments: &[&str],
    ) -> Result<String, Fault> {
        let kept = match arguments {
            ["keep"] => next_undone(&self.hart, memory)?,
            ["keep_at", word, address] => {
                let instr = decode(parsed(word)?).ok_or(Fault::NoCommand)?;
                undo_at(&self.hart.x, parsed(address)?, &instr, memory)
            }
            ["keep_pc", address] => Undo::of_pc(parsed(address)?),
            _ => return Err(Fault::NoCommand),
        };
        self.kept = kept;
        Ok(format!(in alloc; "{kept:?}")?)
    }
}

// What undoes the move that comes next, where there is a word at pc.
fn next_undone(hart: &Hart, memory: &Memory) -> Result<Undo, Fault> {
    match memory.word(hart.pc) {
        Ok(word) => Ok(undo_of(hart, memory, decode(word))),
        Err(_) => Err(Fault::NoCommand),
    }
}

fn set(alloc: Global, hart: &mut Hart, register: &str, value: u32) -> Result<String, Fault> {
    let register: u32 = parsed(register)?;
    if register == 0 || register >= 32 {
        return Err(Fault::NoCommand);
    }
    hart.x[register as usize] = value;
    shown(alloc, "ok")
}

fn value(alloc: Global, hart: &Hart, register: &str) -> Result<String, Fault> {
    let register: u32 = parsed(register)?;
    if register >= 32 {
        return Err(Fault::NoCommand);
    }
    shown(alloc, hart.x[register as usize])
}

fn registers(alloc: Global, hart: &Hart) -> Result<String, Fault> {
    let mut answer = shown(alloc, hart.x[0])?;
    for value in &hart.x[1..] {
        answer.push(' ')?;
        answer.push_str(shown(alloc, *value)?.as_str())?;
    }
    Ok(answer)
}
