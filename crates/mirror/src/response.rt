//! What a success makes of the facts.
ghost use Rattle.std.specs.Prelude.{◌≡◌, OnOk};
ghost use Rattle.mirror.specs.Folding as spec;
ghost use Rattle.mirror.specs.Kept.{facts_of};

use crate::asked::Asked;
use crate::breakpoints::Breaks;
use crate::known::Known;
use crate::registers::register_of;
use facts::RunState;
use replies::{InstructionBreakpoint, ResponseBody, SourceBreakpoint, StackFrame, Variable};
use std::alloc::{AllocError, Global};

/// The facts after a success with this body, by what was asked. Where no memory is left, they may be any.
pub(crate) fn succeed(
    alloc: Global,
    known: &mut Known,
    asked: &Asked,
    body: &ResponseBody,
) -> Result<(), AllocError>
    ensures { OnOk result (facts_of known.new
        ≡ spec.succeeded body.now asked.now (facts_of known.old)) }
{
    match body {
        ResponseBody::Empty => {
            acknowledge(alloc, known, asked);
            Ok(())
        }
        ResponseBody::Continue => {
            go_on(alloc, known, asked);
            Ok(())
        }
        ResponseBody::SetBreakpoints(b) => {
            set_source(alloc, known, asked, b.breakpoints.as_slice())
        }
        ResponseBody::SetFunctionBreakpoints(b) => {
            set_functions(alloc, known, asked, b.breakpoints.as_slice())
        }
        ResponseBody::SetInstructionBreakpoints(b) => {
            set_instructions(alloc, known, asked, b.breakpoints.as_slice())
        }
        ResponseBody::StackTrace(b) => tell_frames(alloc, known, asked, b.stack_frames.as_slice()),
        ResponseBody::Variables(b) => {
            tell_variables(known, asked, b.variables.as_slice());
            Ok(())
        }
        ResponseBody::SetVariable(b) => {
            set_variable(known, asked, b.value);
            Ok(())
        }
        ResponseBody::ReadMemory(b) => tell_bytes(known, asked, b.address, b.bytes.as_slice()),
        ResponseBody::WriteMemory(b) => write_bytes(known, asked, b.bytes_written),
        ResponseBody::Initialize => Ok(()),
        ResponseBody::Threads => Ok(()),
        ResponseBody::Scopes(_) => Ok(()),
        ResponseBody::Evaluate(_) => Ok(()),
        ResponseBody::Disassemble(_) => Ok(()),
    }
}

// A success with no body.
fn acknowledge(alloc: Global, known: &mut Known, asked: &Asked)
    ensures { facts_of known.new ≡ spec.acknowledged asked.now (facts_of known.old) }
{
    match asked {
        Asked::Resume => known.enter(alloc, RunState::Running),
        Asked::ConfigurationDone => {
            if known.launched {
                known.enter(alloc, RunState::Running);
            }
        }
        Asked::Launch => known.launched = true,
        Asked::Terminate => known.end(),
        Asked::Disconnect => *known = Known::new(alloc),
        _ => {}
    }
}

// A success of `continue`.
fn go_on(alloc: Global, known: &mut Known, asked: &Asked)
    ensures { facts_of known.new ≡ spec.gone_on asked.now (facts_of known.old) }
{
    if let Asked::Continue = asked {
        known.enter(alloc, RunState::Running);
    }
}

// A success of `setBreakpoints`. A request with no path tells nothing.
fn set_source(
    alloc: Global,
    known: &mut Known,
    asked: &Asked,
    entries: &[SourceBreakpoint],
) -> Result<(), AllocError>
    ensures { OnOk result (facts_of known.new
        ≡ spec.source_set entries.now asked.now (facts_of known.old)) }
{
    if let Asked::SetBreakpoints(Some(path)) = asked {
        let breaks = Breaks::of_source(alloc, entries)?;
        known.sources.tell(alloc, path.as_slice(), breaks)?;
    }
    Ok(())
}

// A success of `setFunctionBreakpoints`.
fn set_functions(
    alloc: Global,
    known: &mut Known,
    asked: &Asked,
    entries: &[InstructionBreakpoint],
) -> Result<(), AllocError>
    ensures { OnOk result (facts_of known.new
        ≡ spec.functions_set entries.now asked.now (facts_of known.old)) }
{
    if let Asked::SetFunctionBreakpoints = asked {
        known.functions = Breaks::at_instructions(alloc, entries)?;
    }
    Ok(())
}

// A success of `setInstructionBreakpoints`.
fn set_instructions(
    alloc: Global,
    known: &mut Known,
    asked: &Asked,
    entries: &[InstructionBreakpoint],
) -> Result<(), AllocError>
    ensures { OnOk result (facts_of known.new
        ≡ spec.instructions_set entries.now asked.now (facts_of known.old)) }
{
    if let Asked::SetInstructionBreakpoints = asked {
        known.instructions = Breaks::at_instructions(alloc, entries)?;
    }
    Ok(())
}

// A success of `stackTrace`.
fn tell_frames(
    alloc: Global,
    known: &mut Known,
    asked: &Asked,
    frames: &[StackFrame],
) -> Result<(), AllocError>
    ensures { OnOk result (facts_of known.new
        ≡ spec.frames_told frames.now asked.now (facts_of known.old)) }
{
    if let Asked::StackTrace(start) = asked {
        known.frames.tell(alloc, *start, frames)?;
    }
    Ok(())
}

// A success of `variables`.
fn tell_variables(known: &mut Known, asked: &Asked, variables: &[Variable])
    ensures { facts_of known.new
        ≡ spec.variables_told variables.now asked.now (facts_of known.old) }
{
    if let Asked::Variables = asked {
        known.registers.tell(variables);
    }
}

// A success of `readMemory`.
fn tell_bytes(
    known: &mut Known,
    asked: &Asked,
    address: u32,
    bytes: &[u8],
) -> Result<(), AllocError>
    ensures { OnOk result (facts_of known.new
        ≡ spec.bytes_read address bytes.now asked.now (facts_of known.old)) }
{
    if let Asked::ReadMemory = asked {
        known.bytes.tell(address, bytes)?;
    }
    Ok(())
}

// A success of `setVariable`.
fn set_variable(known: &mut Known, asked: &Asked, value: u32)
    ensures { facts_of known.new ≡ spec.variable_set value asked.now (facts_of known.old) }
{
    if let Asked::SetVariable(name) = asked {
        known.registers.set(register_of(name.as_slice()), value);
    }
}

// A success of `writeMemory`.
fn write_bytes(known: &mut Known, asked: &Asked, count: u32) -> Result<(), AllocError>
    ensures { OnOk result (facts_of known.new
        ≡ spec.bytes_written count asked.now (facts_of known.old)) }
{
    if let Asked::WriteMemory(Some(place), bytes) = asked {
        let bytes = bytes.as_slice();
        let count = bytes.len().min(count as usize);
        known.bytes.tell(*place, &bytes[..count])?;
    }
    Ok(())
}
