//! A script.
ghost use Rattle.std.specs.Prelude.{◌≡◌, IfErr, OnErr, OnOk};
ghost use Rattle.scripts.specs.Lines as spec;
ghost use Rattle.scripts.specs.Scripts.{Reads, last, script_of};
ghost use Rattle.scripts.specs.Private.Steps.{Adds, Refuses, following};

use crate::fault::ScriptFault;
use crate::line::first_line;
use crate::step::{Step, step_of};
use crate::watch::{Watch, watch_of};
use std::alloc::{AllocError, Global};

/// A script: each of its lines but the last is an event, and the last says what is watched.
#[derive(Debug, Drop)]
pub struct Script {
    /// The events, in order.
    pub steps: Vec<Step>,
    /// What is watched.
    pub watch: Watch,
}

/// Reads a script.
///
/// - `Line`: the line of this number is the first that is not what it is to be.
/// - `NoMemory`: no memory was left.
pub fn read_script(alloc: Global, text: &[u8]) -> Result<Script, ScriptFault>
    ensures { Reads result (script_of text.now) }
{
    let mut steps = Vec::new(alloc);
    let mut number: u64 = 1;
    let mut rest = text;
    loop {
        let (line, after) = first_line(rest);
        if after.is_empty() {
            return ended(steps, number, line);
        }
        if let Err(fault) = add_step(alloc, &mut steps, number, line) {
            return Err(fault);
        }
        number += 1;
        rest = after;
    }
}

// The end of a script: its last line says what is watched.
fn ended(steps: Vec<Step>, number: u64, line: &[u8]) -> Result<Script, ScriptFault>
    ensures { Reads result (following steps.items (last number (spec.watch_of line.now))) }
{
    match watch_of(line) {
        Some(watch) => Ok(Script { steps, watch }),
        None => Err(ScriptFault::Line(number)),
    }
}

/// A line more.
pub(crate) fn add_step(
    alloc: Global,
    steps: &mut Vec<Step>,
    number: u64,
    line: &[u8],
) -> Result<(), ScriptFault>
    ensures ok { OnOk result (Adds steps.old.items (spec.step_of line.now) steps.new.items) }
    ensures err { IfErr result (λ fault. Refuses fault number (spec.step_of line.now)) }
    ensures kept { OnErr result (steps.new.items ≡ steps.old.items) }
{
    match step_of(alloc, line)? {
        Some(step) => {
            steps.push(step).map_err(AllocError::from)?;
            Ok(())
        }
        None => Err(ScriptFault::Line(number)),
    }
}
