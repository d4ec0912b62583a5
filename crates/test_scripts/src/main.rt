//! Plays `scripts`, and `prompt` by `typed`.
//!
//! - `script BYTES`: what the script that these bytes are lists, and what it watches; or its fault.
//! - `recorded BYTES`: the same of a recording, which may watch nothing.
//! - `written BYTES`: what is written of the events of a recording, line by line, and of the connection that it watches.
//! - `record BYTES ROOM KEPT`: tells the events of a recording to a recorder, and finishes for connection 1. A turn with a file is given the
//!   file's path as its text, and KEPT texts are kept: each with its number, then what a script with room for ROOM bytes got, and whether it is
//!   `whole`.
//! - `typed BYTES`: what a line that somebody types asks for, or its first error.
//! - `no-line`: of some events, whether no line says them.
#![tactic(auto)]

mod prompting;
mod recorders;

use prompting::typed;
use recorders::{Script, Words, told};
use scripts::{
    Cut, ScriptFault, Step, StepRef, Watch, read_recorded, read_script, step_line, watch_line,
};
use std::alloc::Global;
use std::process::ExitCode;
use testing::{Fault, Line, Player, bytes_of, parsed, play};

/// What is played: it keeps nothing.
#[derive(Drop)]
struct Reader {
    scripts: u64,
}

fn main(rt: HostRuntime) -> ExitCode {
    play(&rt, &mut Reader { scripts: 0 })
}

impl Player for Reader {
    fn answer(&mut self, alloc: Global, arguments: &[&str]) -> Result<String, Fault> {
        self.scripts = self.scripts.saturating_add(1);
        match arguments {
            ["script", bytes] => read(alloc, &bytes_of(alloc, bytes)?),
            ["script"] => read(alloc, b""),
            ["recorded", bytes] => recorded(alloc, &bytes_of(alloc, bytes)?),
            ["recorded"] => recorded(alloc, b""),
            ["written", bytes] => written(alloc, &bytes_of(alloc, bytes)?),
            ["record", bytes, room, kept] => {
                let (room, kept) = (parsed::<u32>(room)?, parsed::<u32>(kept)?);
                record(alloc, &bytes_of(alloc, bytes)?, room as usize, kept)
            }
            ["typed", bytes] => typed(alloc, &bytes_of(alloc, bytes)?),
            ["typed"] => typed(alloc, b""),
            ["no-line"] => no_line(alloc),
            _ => Err(Fault::NoCommand),
        }
    }
}

fn read(alloc: Global, text: &[u8]) -> Result<String, Fault> {
    let mut line = Line::new(alloc);
    match read_script(alloc, text) {
        Ok(script) => {
            add_steps(&mut line, &script.steps)?;
            add_watch(&mut line, script.watch)?;
        }
        Err(fault) => add_fault(&mut line, fault)?,
    }
    Ok(line.into_string())
}

fn recorded(alloc: Global, text: &[u8]) -> Result<String, Fault> {
    let mut line = Line::new(alloc);
    match read_recorded(alloc, text) {
        Ok(all) => {
            add_steps(&mut line, &all.steps)?;
            if let Some(watch) = all.watch {
                add_watch(&mut line, watch)?;
            }
        }
        Err(fault) => add_fault(&mut line, fault)?,
    }
    Ok(line.into_string())
}

fn written(alloc: Global, text: &[u8]) -> Result<String, Fault> {
    let mut line = Line::new(alloc);
    match read_recorded(alloc, text) {
        Ok(all) => {
            for step in &all.steps {
                add_line(alloc, &mut line, step)?;
            }
            if let Some(watch) = all.watch {
                add_watch_line(alloc, &mut line, watch)?;
            }
        }
        Err(fault) => add_fault(&mut line, fault)?,
    }
    Ok(line.into_string())
}

fn record(alloc: Global, text: &[u8], room: usize, kept: u32) -> Result<String, Fault> {
    let Ok(all) = read_recorded(alloc, text) else {
        return Err(Fault::NoCommand);
    };
    let mut line = Line::new(alloc);
    let mut script = Script::new(alloc, room)?;
    let words = Words {
        line: &mut line,
        room: kept,
    };
    let is_whole = told(alloc, &all.steps, &mut script, words, 1);
    line.bytes(script.bytes.as_slice())?;
    line.word(if is_whole { "whole" } else { "part" })?;
    Ok(line.into_string())
}

fn add_line(alloc: Global, line: &mut Line, step: &Step) -> Result<(), Fault> {
    match step_line(alloc, lent(step)) {
        Ok(Some(text)) => line.bytes(text.as_slice()),
        Ok(None) => line.word("none"),
        Err(_) => Err(Fault::NoMemoryInCall),
    }
}

fn add_watch_line(alloc: Global, line: &mut Line, watch: Watch) -> Result<(), Fault> {
    match watch_line(alloc, watch.connection) {
        Ok(text) => line.bytes(text.as_slice()),
        Err(_) => Err(Fault::NoMemoryInCall),
    }
}

/// An event, lent.
pub(crate) fn lent(step: &Step) -> StepRef<'_> {
    match step {
        Step::Connect => StepRef::Connect,
        Step::Recv(piece) => StepRef::Recv(piece.as_slice()),
        Step::Turn(None) => StepRef::Turn(None),
        Step::Turn(Some(path)) => StepRef::Turn(Some(path.as_str())),
        Step::Slice(moves) => StepRef::Slice(*moves),
        Step::Hold => StepRef::Hold,
        Step::Sent(count) => StepRef::Sent(*count),
        Step::DropConnection => StepRef::DropConnection,
    }
}

fn no_line(alloc: Global) -> Result<String, Fault> {
    let mut line = Line::new(alloc);
    line.value(has_none(alloc, StepRef::Recv(b""))?)?;
    line.value(has_none(alloc, StepRef::Turn(Some("a\nb")))?)?;
    line.value(has_none(alloc, StepRef::Turn(Some("a\r")))?)?;
    line.value(has_none(alloc, StepRef::Turn(Some("")))?)?;
    line.value(has_none(alloc, StepRef::Turn(Some("a\rb")))?)?;
    Ok(line.into_string())
}

fn has_none(alloc: Global, step: StepRef<'_>) -> Result<bool, Fault> {
    match step_line(alloc, step) {
        Ok(text) => Ok(text.is_none()),
        Err(_) => Err(Fault::NoMemoryInCall),
    }
}

fn add_fault(line: &mut Line, fault: ScriptFault) -> Result<(), Fault> {
    match fault {
        ScriptFault::NoMemory => Err(Fault::NoMemoryInCall),
        other => line.value(other),
    }
}

fn add_steps(line: &mut Line, steps: &[Step]) -> Result<(), Fault> {
    for step in steps {
        add_step(line, step)?;
    }
    Ok(())
}

fn add_step(line: &mut Line, step: &Step) -> Result<(), Fault> {
    match step {
        Step::Connect => line.word("connect"),
        Step::Recv(piece) => add_piece(line, piece.as_slice()),
        Step::Turn(None) => line.word("turn"),
        Step::Turn(Some(path)) => add_file(line, path.as_str()),
        Step::Slice(moves) => add_number(line, "slice", u64::from(*moves)),
        Step::Hold => line.word("hold"),
        Step::Sent(count) => add_number(line, "sent", *count),
        Step::DropConnection => line.word("drop"),
    }
}

fn add_piece(line: &mut Line, piece: &[u8]) -> Result<(), Fault> {
    line.word("recv")?;
    line.bytes(piece)
}

fn add_file(line: &mut Line, path: &str) -> Result<(), Fault> {
    line.word("turn-with")?;
    line.bytes(path.as_bytes())
}

fn add_number(line: &mut Line, name: &str, number: u64) -> Result<(), Fault> {
    line.word(name)?;
    line.value(number)
}

fn add_watch(line: &mut Line, watch: Watch) -> Result<(), Fault> {
    line.word("watch")?;
    line.value(watch.connection)?;
    match watch.cut {
        Cut::At(count) => line.value(count),
        Cut::All => line.word("all"),
    }
}
