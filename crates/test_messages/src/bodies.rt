//! The bodies of responses as they are shown.

use protocol::Text;
use replies::{
    Disassemble, Instruction, InstructionBreakpoint, ReadMemory, ResponseBody, Scope, Scopes,
    SetBreakpoints, Source, SourceBreakpoint, StackFrame, StackTrace, Variables,
};
use testing::{Fault, Line};

/// The name of a body, and its parts.
pub(crate) fn show_body(line: &mut Line, body: &ResponseBody) -> Result<(), Fault> {
    match body {
        ResponseBody::Initialize => line.word("Initialize"),
        ResponseBody::Threads => line.word("Threads"),
        ResponseBody::Continue => line.word("Continue"),
        ResponseBody::Empty => line.word("Empty"),
        ResponseBody::SetBreakpoints(body) => source_breakpoints(line, body),
        ResponseBody::SetFunctionBreakpoints(body) => {
            line.word("SetFunctionBreakpoints")?;
            instruction_breakpoints(line, body.breakpoints.as_slice())
        }
        ResponseBody::SetInstructionBreakpoints(body) => {
            line.word("SetInstructionBreakpoints")?;
            instruction_breakpoints(line, body.breakpoints.as_slice())
        }
        ResponseBody::StackTrace(body) => stack_trace(line, body),
        ResponseBody::Scopes(body) => scopes(line, body),
        ResponseBody::Variables(body) => variables(line, body),
        ResponseBody::SetVariable(body) => named(line, "SetVariable", body.value),
        ResponseBody::Evaluate(body) => named(line, "Evaluate", body.result),
        ResponseBody::Disassemble(body) => disassemble(line, body),
        ResponseBody::ReadMemory(body) => read_memory(line, body),
        ResponseBody::WriteMemory(body) => named(line, "WriteMemory", body.bytes_written),
    }
}

/// A name and a number.
fn named(line: &mut Line, name: &str, number: u32) -> Result<(), Fault> {
    line.word(name)?;
    line.value(number)
}

fn source_breakpoints(line: &mut Line, body: &SetBreakpoints) -> Result<(), Fault> {
    line.word("SetBreakpoints")?;
    for breakpoint in body.breakpoints.as_slice() {
        source_breakpoint(line, breakpoint)?;
    }
    Ok(())
}

fn source_breakpoint(line: &mut Line, breakpoint: &SourceBreakpoint) -> Result<(), Fault> {
    match breakpoint {
        SourceBreakpoint::Verified {
            id,
            instruction_reference,
            line: at,
        } => {
            named(line, "set", *id)?;
            line.value(*instruction_reference)?;
            line.value(*at)
        }
        SourceBreakpoint::Unverified { line: at, message } => {
            named(line, "unset", *at)?;
            text(line, message)
        }
    }
}

fn instruction_breakpoints(
    line: &mut Line,
    breakpoints: &[InstructionBreakpoint],
) -> Result<(), Fault> {
    for breakpoint in breakpoints {
        instruction_breakpoint(line, breakpoint)?;
    }
    Ok(())
}

fn instruction_breakpoint(
    line: &mut Line,
    breakpoint: &InstructionBreakpoint,
) -> Result<(), Fault> {
    match breakpoint {
        InstructionBreakpoint::Verified {
            id,
            instruction_reference,
        } => {
            named(line, "set", *id)?;
            line.value(*instruction_reference)
        }
        InstructionBreakpoint::Unverified { message } => {
            line.word("unset")?;
            text(line, message)
        }
    }
}

fn stack_trace(line: &mut Line, body: &StackTrace) -> Result<(), Fault> {
    named(line, "StackTrace", body.total_frames)?;
    for frame in body.stack_frames.as_slice() {
        stack_frame(line, frame)?;
    }
    Ok(())
}

fn stack_frame(line: &mut Line, frame: &StackFrame) -> Result<(), Fault> {
    line.value(frame.id)?;
    text(line, &frame.name)?;
    line.value(frame.instruction_pointer_reference)?;
    line.value(frame.line)?;
    line.value(frame.column)?;
    source(line, &frame.source)
}

fn source(line: &mut Line, source: &Option<Source>) -> Result<(), Fault> {
    match source {
        Some(source) => {
            text(line, &source.name)?;
            text(line, &source.path)
        }
        None => line.word("none"),
    }
}

fn scopes(line: &mut Line, body: &Scopes) -> Result<(), Fault> {
    line.word("Scopes")?;
    for scope in body.scopes.as_slice() {
        show_scope(line, scope)?;
    }
    Ok(())
}

fn show_scope(line: &mut Line, scope: &Scope) -> Result<(), Fault> {
    match scope {
        Scope::Registers {
            variables_reference,
        } => named(line, "registers", *variables_reference),
        Scope::Stack {
            variables_reference,
        } => named(line, "stack", *variables_reference),
    }
}

fn variables(line: &mut Line, body: &Variables) -> Result<(), Fault> {
    line.word("Variables")?;
    for variable in body.variables.as_slice() {
        text(line, &variable.name)?;
        line.value(variable.value)?;
    }
    Ok(())
}

fn disassemble(line: &mut Line, body: &Disassemble) -> Result<(), Fault> {
    line.word("Disassemble")?;
    for instruction in body.instructions.as_slice() {
        show_instruction(line, instruction)?;
    }
    Ok(())
}

fn show_instruction(line: &mut Line, entry: &Instruction) -> Result<(), Fault> {
    match entry {
        Instruction::Valid {
            address,
            instruction,
            instruction_bytes,
        } => {
            named(line, "valid", *address)?;
            text(line, instruction)?;
            line.value(*instruction_bytes)
        }
        Instruction::Invalid { address } => named(line, "invalid", *address),
    }
}

fn read_memory(line: &mut Line, body: &ReadMemory) -> Result<(), Fault> {
    named(line, "ReadMemory", body.address)?;
    line.bytes(body.bytes.as_slice())?;
    line.value(body.unreadable_bytes)
}

/// The bytes of a text.
fn text(line: &mut Line, text: &Text) -> Result<(), Fault> {
    line.bytes(text.as_str().as_bytes())
}
