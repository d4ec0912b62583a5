//! A machine with its program.
//!
//! - `reload`: loads the program anew.
//! - `begin GOAL`, `first GOAL`: begins a run, a first one or another; `goals.rt` has the goals.
//! - `tick`: what it printed, if it did, and the outcome; `run COUNT`: how many ticks went, and what ended them.
//! - `source LIST`, `instructions LIST`, `functions LIST`: sets breakpoints; `breaks.rt` has the lists. `clear`: takes all away. `ids`: which
//!   stopped; `logs`: the places of the logpoints that have something to say.
//! - `pc`; `x NUMBER`; `word ADDRESS`; `depth`; `kept`; `entry NUMBER`; `retired`; `recorded`: what there is. `turns_back`: whether
//!   the run goes back.
//! - `set NUMBER VALUE`: sets a register, 1 to 31; `write ADDRESS BYTES`: writes memory.

ghost use Rattle.std.specs.Bool.{OnTrue};
ghost use Rattle.stepping.specs.Loading.{CanBeLoaded};

use crate::breaks::list_of;
use crate::goals::goal_of;
use image::Image;
use std::alloc::Global;
use stepping::{RunEnd, Runner, Tick};
use testing::{Fault, bytes_of, called, parsed, shown};

/// How many instructions may have retired before a tick.
const LIMIT: u64 = 1 << 62;

/// A machine and its program.
#[derive(Drop)]
pub(crate) struct Machine {
    runner: Runner,
    image: Image,
}

impl Machine {
    /// A machine into which an image was loaded.
    pub(crate) fn new(alloc: Global, image: Image, size: u32) -> Result<Machine, Fault> {
        if !can_be_loaded(&image, size) {
            return Err(Fault::NoCommand);
        }
        let runner = called(Runner::new(alloc, &image, size))?;
        Ok(Machine { runner, image })
    }

    /// What it answers.
    pub(crate) fn answer(&mut self, alloc: Global, arguments: &[&str]) -> Result<String, Fault> {
        match arguments {
            ["begin", goal @ ..] => self.begin(alloc, goal, false),
            ["first", goal @ ..] => self.begin(alloc, goal, true),
            ["reload"] => self.reload(alloc),
            ["tick"] => self.tick(alloc),
            ["run", count] => self.run(alloc, parsed(count)?),
            ["source", list @ ..] => {
                let specs = list_of(alloc, list)?;
                called(self.runner.breaks_mut().set_source(specs))?;
                shown(alloc, "ok")
            }
            ["instructions", list @ ..] => {
                let specs = list_of(alloc, list)?;
                called(self.runner.breaks_mut().set_instructions(specs))?;
                shown(alloc, "ok")
            }
            ["functions", list @ ..] => {
                let specs = list_of(alloc, list)?;
                called(self.runner.breaks_mut().set_functions(specs))?;
                shown(alloc, "ok")
            }
            ["clear"] => {
                self.runner.breaks_mut().clear();
                shown(alloc, "ok")
            }
            ["set", register, value] => self.set(alloc, parsed(register)?, parsed(value)?),
            ["write", address, bytes] => self.write(alloc, parsed(address)?, bytes),
            arguments => self.look(alloc, arguments),
        }
    }

    fn reload(&mut self, alloc: Global) -> Result<String, Fault> {
        if !can_be_loaded(&self.image, self.runner.size()) {
            return Err(Fault::NoCommand);
        }
        called(self.runner.reload(&self.image))?;
        shown(alloc, "ok")
    }

    fn begin(&mut self, alloc: Global, goal: &[&str], first: bool) -> Result<String, Fault> {
        self.runner.begin(goal_of(goal)?, first);
        shown(alloc, "ok")
    }

    fn tick(&mut self, alloc: Global) -> Result<String, Fault> {
        if self.runner.retired() >= LIMIT {
            return Err(Fault::NoCommand);
        }
        let tick = called(self.runner.tick())?;
        tick_shown(alloc, tick)
    }

    fn run(&mut self, alloc: Global, count: u32) -> Result<String, Fault> {
        if self.runner.retired() > LIMIT - u64::from(count) {
            return Err(Fault::NoCommand);
        }
        let ran = self.runner.run(count);
        let went = ran.went;
        match ran.ending {
            RunEnd::Spent => Ok(format!(in alloc; "{went} Spent")?),
            RunEnd::Ticked(tick) => {
                let tick = tick_shown(alloc, tick)?;
                Ok(format!(in alloc; "{went} {tick}")?)
            }
            RunEnd::NoMemory => Ok(format!(in alloc; "{went} NoMemory")?),
        }
    }

    fn set(&mut self, alloc: Global, register: u32, value: u32) -> Result<String, Fault> {
        if register == 0 || register >= 32 {
            return Err(Fault::NoCommand);
        }
        let mut hart = *self.runner.hart();
        hart.x[register as usize] = value;
        self.runner.set_hart(hart);
        shown(alloc, "ok")
    }

    fn write(&mut self, alloc: Global, address: u32, bytes: &str) -> Result<String, Fault> {
        let bytes = bytes_of(alloc, bytes)?;
        match self.runner.write(address, &bytes) {
            Ok(()) => shown(alloc, "ok"),
            Err(fault) => Ok(format!(in alloc; "{fault:?}")?),
        }
    }

    fn look(&self, alloc: Global, arguments: &[&str]) -> Result<String, Fault> {
        match arguments {
            ["pc"] => shown(alloc, self.runner.hart().pc),
            ["x", register] => self.register(alloc, parsed(register)?),
            ["word", address] => {
                let word = self.runner.memory().word(parsed(address)?);
                Ok(format!(in alloc; "{word:?}")?)
            }
            ["depth"] => shown(alloc, self.runner.calls().depth()),
            ["kept"] => shown(alloc, self.runner.calls().kept()),
            ["entry", number] => {
                let entry = self.runner.calls().entry(parsed(number)?);
                Ok(format!(in alloc; "{entry:?}")?)
            }
            ["retired"] => shown(alloc, self.runner.retired()),
            ["recorded"] => shown(alloc, self.runner.recorded()),
            ["turns_back"] => shown(alloc, self.runner.turns_back()),
            ["ids"] => {
                let ids = self.runner.breaks().ids();
                Ok(format!(in alloc; "{ids:?}")?)
            }
            ["logs"] => {
                let logs = self.runner.breaks().logs();
                Ok(format!(in alloc; "{logs:?}")?)
            }
            _ => Err(Fault::NoCommand),
        }
    }

    fn register(&self, alloc: Global, register: u32) -> Result<String, Fault> {
        if register >= 32 {
            return Err(Fault::NoCommand);
        }
        shown(alloc, self.runner.hart().x[register as usize])
    }
}

// A tick: what it printed, if it did, and the outcome.
fn tick_shown(alloc: Global, tick: Tick) -> Result<String, Fault> {
    let outcome = tick.outcome;
    match tick.printed {
        Some(number) => Ok(format!(in alloc; "{number} {outcome:?}")?),
        None => Ok(format!(in alloc; "{outcome:?}")?),
    }
}

// Whether an image can be loaded into a memory of this size.
fn can_be_loaded(image: &Image, size: u32) -> bool
    ensures { OnTrue result (CanBeLoaded image.now size) }
{
    size % 4096 == 0
        && size >= 4096
        && size <= 16_777_216
        && image.bytes.as_slice().len() <= size as usize
        && image.entry % 4 == 0
}
