//! Plays the machine: memory, a line table, words with their disassembly, a hart that steps, and steps back, and expressions and
//! breakpoints on it.
//!
//! The first argument of a command is the part that it is for; each part's file has its commands. `value BYTES` is the value of an
//! expression, as `values` says. At the start there are 65,536 bytes of memory.
#![tactic(auto)]

ghost use Rattle.std.specs.Prelude.{◌≡◌, IfOk};

mod breaks;
mod lists;
mod memories;
mod names;
mod steps;
mod tables;
mod values;
mod words;

use breakpoints::Breaks;
use breaks::answer_breaks;
use image::Memory;
use memories::{answer_memory, new_memory};
use names::answer_register;
use std::alloc::Global;
use std::process::ExitCode;
use steps::Stepper;
use tables::Tables;
use testing::{Fault, Player, play};
use values::value_of;
use words::answer_word;

/// All that is played.
#[derive(Drop)]
struct Machine {
    memory: Memory,
    stepper: Stepper,
    tables: Tables,
    breaks: Breaks,
}

impl Player for Machine {
    fn answer(&mut self, alloc: Global, arguments: &[&str]) -> Result<String, Fault> {
        match arguments {
            ["memory", "new", size] => {
                self.memory = new_memory(alloc, size)?;
                Ok(String::from_str(alloc, "ok")?)
            }
            ["memory", rest @ ..] => answer_memory(alloc, &mut self.memory, rest),
            ["hart", rest @ ..] => self.stepper.answer(alloc, &mut self.memory, rest),
            ["lines", rest @ ..] => self.tables.answer(alloc, rest),
            ["word", rest @ ..] => answer_word(alloc, rest),
            ["register", rest @ ..] => answer_register(alloc, rest),
            arguments => self.debugged(alloc, arguments),
        }
    }
}

impl Machine {
    // What is answered of breakpoints and expressions.
    fn debugged(&mut self, alloc: Global, arguments: &[&str]) -> Result<String, Fault> {
        match arguments {
            ["breaks", rest @ ..] => answer_breaks(
                alloc,
                &mut self.breaks,
                &self.stepper.hart,
                &self.memory,
                rest,
            ),
            ["value", bytes] => value_of(alloc, &self.stepper.hart, &self.memory, bytes),
            _ => Err(Fault::NoCommand),
        }
    }
}

fn main(rt: HostRuntime) -> ExitCode {
    match new_machine(rt.alloc()) {
        Ok(mut machine) => play(&rt, &mut machine),
        Err(fault) => ExitCode::from(fault.status()),
    }
}

fn new_machine(alloc: Global) -> Result<Machine, Fault>
    ensures { IfOk result (λ machine. machine.stepper.hart.pc ≡ 65536) }
{
    Ok(Machine {
        memory: Memory::new(alloc, 65536, 65536)?,
        stepper: Stepper::new(65536, 0),
        tables: Tables::new(alloc),
        breaks: Breaks::new(alloc),
    })
}
