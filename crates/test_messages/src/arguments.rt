//! The arguments of requests as they are shown.

use protocol::{
    CancelArguments, DisassembleArguments, DisconnectArguments, EvaluateArguments,
    FunctionBreakpoint, Granularity, InitializeArguments, InstructionBreakpoint, LaunchArguments,
    ReadMemoryArguments, SetBreakpointsArguments, SetFunctionBreakpointsArguments,
    SetInstructionBreakpointsArguments, SetVariableArguments, SourceBreakpoint,
    StackTraceArguments, Text, VariablesArguments, WriteMemoryArguments,
};
use std::fmt::Debug;
use testing::{Fault, Line};

pub(crate) fn initialize(line: &mut Line, given: &InitializeArguments) -> Result<(), Fault> {
    line.value(given.lines_start_at1)?;
    line.value(given.columns_start_at1)
}

pub(crate) fn launch(line: &mut Line, given: &LaunchArguments) -> Result<(), Fault> {
    text(line, &given.program)?;
    line.value(given.stop_on_entry)
}

pub(crate) fn cancel(line: &mut Line, given: &CancelArguments) -> Result<(), Fault> {
    line.optional(given.request_id)
}

pub(crate) fn disconnect(line: &mut Line, given: &DisconnectArguments) -> Result<(), Fault> {
    line.optional(given.terminate_debuggee)?;
    line.optional(given.suspend_debuggee)
}

pub(crate) fn set_breakpoints(
    line: &mut Line,
    given: &SetBreakpointsArguments,
) -> Result<(), Fault> {
    optional_text(line, &given.source.path)?;
    for breakpoint in given.breakpoints.as_slice() {
        source_breakpoint(line, breakpoint)?;
    }
    Ok(())
}

fn source_breakpoint(line: &mut Line, given: &SourceBreakpoint) -> Result<(), Fault> {
    line.value(given.line)?;
    optional_text(line, &given.condition)?;
    optional_text(line, &given.hit_condition)?;
    optional_text(line, &given.log_message)
}

pub(crate) fn set_function_breakpoints(
    line: &mut Line,
    given: &SetFunctionBreakpointsArguments,
) -> Result<(), Fault> {
    for breakpoint in given.breakpoints.as_slice() {
        function_breakpoint(line, breakpoint)?;
    }
    Ok(())
}

fn function_breakpoint(line: &mut Line, given: &FunctionBreakpoint) -> Result<(), Fault> {
    text(line, &given.name)?;
    optional_text(line, &given.condition)?;
    optional_text(line, &given.hit_condition)
}

pub(crate) fn set_instruction_breakpoints(
    line: &mut Line,
    given: &SetInstructionBreakpointsArguments,
) -> Result<(), Fault> {
    for breakpoint in given.breakpoints.as_slice() {
        instruction_breakpoint(line, breakpoint)?;
    }
    Ok(())
}

fn instruction_breakpoint(line: &mut Line, given: &InstructionBreakpoint) -> Result<(), Fault> {
    text(line, &given.instruction_reference)?;
    line.value(given.offset)?;
    optional_text(line, &given.condition)?;
    optional_text(line, &given.hit_condition)
}

pub(crate) fn step(line: &mut Line, thread_id: i32, granularity: Granularity) -> Result<(), Fault> {
    line.value(thread_id)?;
    line.name(granularity)
}

pub(crate) fn stack_trace(line: &mut Line, given: &StackTraceArguments) -> Result<(), Fault> {
    line.value(given.thread_id)?;
    line.value(given.start_frame)?;
    line.optional(given.levels)
}

pub(crate) fn variables(line: &mut Line, given: &VariablesArguments) -> Result<(), Fault> {
    line.value(given.variables_reference)?;
    optional_name(line, given.filter)?;
    line.value(given.start)?;
    line.optional(given.count)
}

pub(crate) fn set_variable(line: &mut Line, given: &SetVariableArguments) -> Result<(), Fault> {
    line.value(given.variables_reference)?;
    text(line, &given.name)?;
    text(line, &given.value)
}

pub(crate) fn evaluate(line: &mut Line, given: &EvaluateArguments) -> Result<(), Fault> {
    text(line, &given.expression)?;
    line.optional(given.frame_id)
}

pub(crate) fn disassemble(line: &mut Line, given: &DisassembleArguments) -> Result<(), Fault> {
    text(line, &given.memory_reference)?;
    line.value(given.offset)?;
    line.value(given.instruction_offset)?;
    line.value(given.instruction_count)
}

pub(crate) fn read_memory(line: &mut Line, given: &ReadMemoryArguments) -> Result<(), Fault> {
    text(line, &given.memory_reference)?;
    line.value(given.offset)?;
    line.value(given.count)
}

pub(crate) fn write_memory(line: &mut Line, given: &WriteMemoryArguments) -> Result<(), Fault> {
    text(line, &given.memory_reference)?;
    line.value(given.offset)?;
    line.bytes(given.bytes.as_slice())?;
    line.value(given.allow_partial)
}

/// A text in hexadecimal digits.
fn text(line: &mut Line, text: &Text) -> Result<(), Fault> {
    line.bytes(text.as_str().as_bytes())
}

/// A text in hexadecimal digits, or `none`.
fn optional_text(line: &mut Line, value: &Option<Text>) -> Result<(), Fault> {
    match value {
        Some(value) => text(line, value),
        None => line.word("none"),
    }
}

/// The name of a variant, or `none`.
fn optional_name<D: Debug + Drop>(line: &mut Line, value: Option<D>) -> Result<(), Fault> {
    match value {
        Some(value) => line.name(value),
        None => line.word("none"),
    }
}
