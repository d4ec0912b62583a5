//! What is said on standard error of a program that was run.

use crate::ending::say;
use crate::run_end::{cause_of, place_of, reason_of};
use crate::sources::Sources;
use assembler::AsmError;
use diagnostics::told;
use execution::{
    ExecutionEnd, Loaded, Stop, beginning_text, fault_of, fault_text, odd_beginning,
    registers_text, stop_text, trace_text,
};
use rv32i::Cause;
use std::alloc::AllocError;

/// What is wrong with texts that do not assemble.
pub(crate) fn tell_error(
    rt: &HostRuntime,
    sources: &Sources,
    error: AsmError,
) -> Result<(), AllocError> {
    let place = sources.place(error.line);
    let own = AsmError {
        line: place.line,
        kind: error.kind,
    };
    let lines = told(rt.alloc(), place.file, place.text, own)?;
    say(rt, lines);
    Ok(())
}

/// Where and why a program stopped, and what it did wrong, unless it ended by itself.
pub(crate) fn tell_stop(
    rt: &HostRuntime,
    sources: &Sources,
    loaded: &Loaded,
    end: ExecutionEnd,
) -> Result<(), AllocError> {
    let Some(why) = reason_of(end) else {
        return Ok(());
    };
    match cause_of(end) {
        None => say_stop(
            rt,
            sources,
            loaded,
            why,
            place_of(end, loaded.runner.hart().pc),
            None,
        ),
        Some(cause) => tell_trap(rt, sources, loaded, why, cause),
    }
}

// The same of a trap.
fn tell_trap(
    rt: &HostRuntime,
    sources: &Sources,
    loaded: &Loaded,
    why: &str,
    cause: Cause,
) -> Result<(), AllocError> {
    let pc = loaded.runner.hart().pc;
    let word = loaded.runner.memory().word(pc).unwrap_or(0);
    match fault_of(loaded, cause) {
        None => say_stop(rt, sources, loaded, why, pc, None)?,
        Some(fault) => {
            let fault = fault_text(rt.alloc(), fault, pc, word)?;
            say_stop(rt, sources, loaded, why, pc, Some(fault.as_str()))?;
        }
    }
    tell_beginning(rt, sources, loaded)
}

fn say_stop(
    rt: &HostRuntime,
    sources: &Sources,
    loaded: &Loaded,
    why: &str,
    pc: u32,
    fault: Option<&str>,
) -> Result<(), AllocError> {
    let line = loaded.lines.line_of(pc);
    let place = sources.place(line.unwrap_or(0));
    let stop = Stop {
        file: place.file,
        line: place.number(),
        source: place.source(),
        why,
        fault,
    };
    let text = stop_text(rt.alloc(), &stop, &loaded.lines, pc)?;
    say(rt, text);
    Ok(())
}

// That it began at a label which is neither `_start` nor `main`.
fn tell_beginning(rt: &HostRuntime, sources: &Sources, loaded: &Loaded) -> Result<(), AllocError> {
    let Some(label) = odd_beginning(&loaded.lines, loaded.entry) else {
        return Ok(());
    };
    let Some(line) = loaded.lines.line_of(loaded.entry) else {
        return Ok(());
    };
    let place = sources.place(line);
    let text = beginning_text(rt.alloc(), place.file, label, place.line)?;
    say(rt, text);
    Ok(())
}

// A machine with more retired instructions than this is not traced: none gets that far.
const MOST_TRACED: u64 = 1 << 61;

/// Tells the last instructions that retired, at most `count`.
pub(crate) fn tell_trace(
    rt: &HostRuntime,
    loaded: &mut Loaded,
    count: u32,
) -> Result<(), AllocError> {
    if loaded.runner.retired() > MOST_TRACED {
        return Ok(());
    }
    let text = trace_text(rt.alloc(), &mut loaded.runner, count)?;
    say(rt, text);
    Ok(())
}

/// pc and the registers.
pub(crate) fn tell_registers(rt: &HostRuntime, loaded: &Loaded) -> Result<(), AllocError> {
    let text = registers_text(rt.alloc(), loaded.runner.hart())?;
    say(rt, text);
    Ok(())
}
