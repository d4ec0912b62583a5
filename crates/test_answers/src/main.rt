//! Plays what requests about the machine answer, and the variables and numbers that they are made of.
//!
//! - `row LINE ADDRESS WORDS`: a row of the next program's line table; the rows have to rise.
//! - `label NAME ADDRESS`: a label of the next program.
//! - `program END SIZE PATH`: the program of these rows and labels, whose bytes end there, in a memory of SIZE bytes; the path as
//!   bytes.
//! - `bases LINE COLUMN`: the numbers of the editor's first line and column, 0 or 1; 1 at the start.
//! - `breaks NEXT REQUEST`: what a request, as bytes, answers where the next breakpoint has this number: the message of number 1, and
//!   then what `lists` says of the list.
//! - `write ADDRESS BYTES`: writes bytes to the program's memory.
//! - `set NUMBER VALUE`, `go ADDRESS`: sets a register, 1 to 31, and pc; `run COUNT`: makes at most COUNT moves.
//! - what is asked of variables, and of the numbers of frames and scopes, `scopes` and `numbers` say.
//! - `look REQUEST`: what a request that looks into the machine, as bytes, answers: the message of number 1, and then `targets` and the
//!   targets, if there are some.
//! - `change REQUEST`: what a request that changes the machine, as bytes, answers, and it is changed: the message of number 1, and of a
//!   write then its address and how many bytes are written.
#![tactic(auto)]

mod lists;
mod looks;
mod numbers;
mod program;
mod scopes;

use indexmap::IndexMap;
use program::Program;
use std::alloc::{AllocError, Global};
use std::process::ExitCode;
use testing::{Fault, Line, Player, bytes_of, parsed, play, shown};

/// A program, once one was loaded, the rows and labels of the next one, and how the editor counts.
#[derive(Drop)]
struct Asked {
    rows: Vec<(u32, u32, u32)>,
    labels: Vec<(String, u32)>,
    program: Option<Program>,
    bases: (u32, u32),
}

impl Player for Asked {
    fn answer(&mut self, alloc: Global, arguments: &[&str]) -> Result<String, Fault> {
        match arguments {
            ["row", line, address, words] => {
                let row = (parsed(line)?, parsed(address)?, parsed(words)?);
                self.rows.push(row).map_err(AllocError::from)?;
                shown(alloc, "ok")
            }
            ["label", name, address] => {
                self.label(alloc, name, parsed(address)?)?;
                shown(alloc, "ok")
            }
            ["program", end, size, path] => {
                self.load(alloc, parsed(end)?, parsed(size)?, path)?;
                shown(alloc, "ok")
            }
            ["bases", line, column] => {
                self.bases = (parsed(line)?, parsed(column)?);
                shown(alloc, "ok")
            }
            ["breaks", next, request] => self.breaks(alloc, parsed(next)?, request),
            arguments => self.ask(alloc, arguments),
        }
    }
}

impl Asked {
    fn label(&mut self, alloc: Global, name: &str, address: u32) -> Result<(), AllocError> {
        let label = (String::from_str(alloc, name)?, address);
        self.labels.push(label).map_err(AllocError::from)
    }

    fn breaks(&mut self, alloc: Global, next: u32, request: &str) -> Result<String, Fault> {
        let request = bytes_of(alloc, request)?;
        let Some(program) = &mut self.program else {
            return Err(Fault::NoCommand);
        };
        program.set_bases(self.bases);
        let mut line = Line::new(alloc);
        program.show_breaks(alloc, next, &request, &mut line)?;
        Ok(line.into_string())
    }

    fn load(&mut self, alloc: Global, end: u32, size: u32, path: &str) -> Result<(), Fault> {
        let rows = self.rows.clone()?;
        let labels = named(alloc, &self.labels)?;
        let path = bytes_of(alloc, path)?;
        self.program = Some(Program::new(alloc, rows, labels, end, size, path)?);
        self.rows.clear();
        self.labels.clear();
        Ok(())
    }

    // What the machine of the program answers.
    fn ask(&mut self, alloc: Global, arguments: &[&str]) -> Result<String, Fault> {
        let Some(program) = &mut self.program else {
            return Err(Fault::NoCommand);
        };
        program.set_bases(self.bases);
        let mut line = Line::new(alloc);
        program.answer(alloc, arguments, &mut line)?;
        Ok(line.into_string())
    }
}

// Labels as an image has them.
fn named(alloc: Global, labels: &[(String, u32)]) -> Result<IndexMap<String, u32>, AllocError> {
    let mut map = IndexMap::new(alloc);
    for (name, address) in labels {
        map.insert(String::from_str(alloc, name.as_str())?, *address)?;
    }
    Ok(map)
}

fn main(rt: HostRuntime) -> ExitCode {
    let mut asked = Asked {
        rows: Vec::new(rt.alloc()),
        labels: Vec::new(rt.alloc()),
        program: None,
        bases: (1, 1),
    };
    play(&rt, &mut asked)
}
