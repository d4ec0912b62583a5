//! Plays a debugged machine: a program that is assembled and loaded, its breakpoints, and its ticks.
//!
//! - `load SIZE BYTES`: assembles a text for a memory of SIZE bytes, and loads its image; `reload`: loads it anew.
//! - what else there is, `machine.rt` says.
#![tactic(auto)]

mod breaks;
mod goals;
mod machine;

use assembler::{AsmErrorKind, assemble};
use image::Image;
use machine::Machine;
use std::alloc::Global;
use std::process::ExitCode;
use testing::{Fault, Player, bytes_of, parsed, play, shown};

/// A machine with its program, once one was loaded.
#[derive(Drop)]
struct Debugged {
    machine: Option<Machine>,
}

impl Player for Debugged {
    fn answer(&mut self, alloc: Global, arguments: &[&str]) -> Result<String, Fault> {
        match arguments {
            ["load", size, text] => {
                let image = image_of(alloc, size, text)?;
                self.machine = Some(Machine::new(alloc, image, parsed(size)?)?);
                shown(alloc, "ok")
            }
            arguments => match &mut self.machine {
                Some(machine) => machine.answer(alloc, arguments),
                None => Err(Fault::NoCommand),
            },
        }
    }
}

fn main(rt: HostRuntime) -> ExitCode {
    play(&rt, &mut Debugged { machine: None })
}

// The image of a text, which has no error.
fn image_of(alloc: Global, size: &str, text: &str) -> Result<Image, Fault> {
    let text = bytes_of(alloc, text)?;
    match assemble(alloc, &text, parsed(size)?) {
        Ok(image) => Ok(image),
        Err(error) if error.kind == AsmErrorKind::NoMemory => Err(Fault::NoMemoryInCall),
        Err(_) => Err(Fault::NoCommand),
    }
}
