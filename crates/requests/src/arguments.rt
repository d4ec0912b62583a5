//! The arguments of each request, written member by member. Each function fails where no memory is left, and then the
//! writer is of no more use.
ghost use Rattle.std.specs.Prelude.{OnOk};
ghost use Rattle.serde_json.specs.Data.{no_members};
ghost use Rattle.message_parts.specs.Forms.{member_if, signed, truth, one_of};
ghost use Rattle.message_parts.specs.Written.{AreWritten};
ghost use Rattle.requests.specs.Arguments as spec;

use crate::entry::{write_list, write_one};
use crate::names::{ADAPTER_ID, FILTERS, RVDAP, filter_name, granularity_name};
use json::Writer;
use message_parts::{encoded_bytes, member};
use protocol::cancel::REQUEST_ID;
use protocol::disassemble::{INSTRUCTION_COUNT, INSTRUCTION_OFFSET};
use protocol::disconnect::{SUSPEND_DEBUGGEE, TERMINATE_DEBUGGEE};
use protocol::evaluate::EXPRESSION;
use protocol::granularity::GRANULARITY;
use protocol::initialize::{COLUMNS_START_AT1, LINES_START_AT1};
use protocol::launch::{PROGRAM, STOP_ON_ENTRY};
use protocol::members::{
    BREAKPOINTS, COUNT, FRAME_ID, MEMORY_REFERENCE, OFFSET, THREAD_ID, VARIABLES_REFERENCE,
};
use protocol::set_breakpoints::SOURCE;
use protocol::set_variable::{VALUE, VARIABLE_NAME};
use protocol::stack_trace::{LEVELS, START_FRAME};
use protocol::variables::{FILTER, START};
use protocol::write_memory::{ALLOW_PARTIAL, DATA};
use protocol::{
    CancelArguments, DisassembleArguments, DisconnectArguments, EvaluateArguments, Filter,
    InitializeArguments, LaunchArguments, ReadMemoryArguments, ScopesArguments,
    SetBreakpointsArguments, SetFunctionBreakpointsArguments, SetInstructionBreakpointsArguments,
    SetVariableArguments, StackTraceArguments, StepArguments, ThreadArguments, VariablesArguments,
    WriteMemoryArguments,
};
use std::alloc::{AllocError, Global};

/// Those of `initialize`.
pub(crate) fn initialize(out: &mut Writer, a: &InitializeArguments) -> Result<(), AllocError>
    ensures { OnOk result (AreWritten out.old out.new
        (spec.initialize.members (a.now.columns_start_at1, (a.now.lines_start_at1, tt)))) }
{
    member::text(out, ADAPTER_ID, RVDAP)?;
    member::truth(out, COLUMNS_START_AT1, a.columns_start_at1)?;
    member::truth(out, LINES_START_AT1, a.lines_start_at1)
}

/// Those of `launch`.
pub(crate) fn launch(out: &mut Writer, a: &LaunchArguments) -> Result<(), AllocError>
    ensures { OnOk result (AreWritten out.old out.new
        (spec.launch.members (a.now.program, (a.now.stop_on_entry, tt)))) }
{
    member::part(out, PROGRAM, &a.program)?;
    member::truth(out, STOP_ON_ENTRY, a.stop_on_entry)
}

/// Those of `cancel`.
pub(crate) fn cancel(out: &mut Writer, a: &CancelArguments) -> Result<(), AllocError>
    ensures { OnOk result (AreWritten out.old out.new (spec.cancel.members (a.now.request_id, tt))) }
{
    signed_if(out, REQUEST_ID, a.request_id)
}

/// Those of `disconnect`.
pub(crate) fn disconnect(out: &mut Writer, a: &DisconnectArguments) -> Result<(), AllocError>
    ensures { OnOk result (AreWritten out.old out.new
        (spec.disconnect.members (a.now.suspend_debuggee, (a.now.terminate_debuggee, tt)))) }
{
    truth_if(out, SUSPEND_DEBUGGEE, a.suspend_debuggee)?;
    truth_if(out, TERMINATE_DEBUGGEE, a.terminate_debuggee)
}

/// Those of `setBreakpoints`.
pub(crate) fn set_breakpoints(
    out: &mut Writer,
    a: &SetBreakpointsArguments,
) -> Result<(), AllocError>
    ensures { OnOk result (AreWritten out.old out.new
        (spec.set_breakpoints.members (a.now.breakpoints, (a.now.source, tt)))) }
{
    write_list(out, BREAKPOINTS, &a.breakpoints)?;
    write_one(out, SOURCE, &a.source)
}

/// Those of `setFunctionBreakpoints`.
pub(crate) fn set_function_breakpoints(
    out: &mut Writer,
    a: &SetFunctionBreakpointsArguments,
) -> Result<(), AllocError>
    ensures { OnOk result (AreWritten out.old out.new
        (spec.set_function_breakpoints.members (a.now.breakpoints, tt))) }
{
    write_list(out, BREAKPOINTS, &a.breakpoints)
}

/// Those of `setInstructionBreakpoints`.
pub(crate) fn set_instruction_breakpoints(
    out: &mut Writer,
    a: &SetInstructionBreakpointsArguments,
) -> Result<(), AllocError>
    ensures { OnOk result (AreWritten out.old out.new
        (spec.set_instruction_breakpoints.members (a.now.breakpoints, tt))) }
{
    write_list(out, BREAKPOINTS, &a.breakpoints)
}

/// Those of `setExceptionBreakpoints`.
pub(crate) fn set_exception_breakpoints(out: &mut Writer) -> Result<(), AllocError>
    ensures { OnOk result (AreWritten out.old out.new (spec.set_exception_breakpoints.members tt)) }
{
    out.key(FILTERS)?;
    out.begin_array()?;
    out.end_array()
}

/// Those of a request that names a thread alone.
pub(crate) fn thread(out: &mut Writer, a: &ThreadArguments) -> Result<(), AllocError>
    ensures { OnOk result (AreWritten out.old out.new (spec.thread.members (a.now.thread_id, tt))) }
{
    write_one(out, THREAD_ID, &a.thread_id)
}

/// Those of a step.
pub(crate) fn step(out: &mut Writer, a: &StepArguments) -> Result<(), AllocError>
    ensures { OnOk result (AreWritten out.old out.new
        (spec.step.members (a.now.granularity, (a.now.thread_id, tt)))) }
{
    member::text(out, GRANULARITY, granularity_name(a.granularity))?;
    write_one(out, THREAD_ID, &a.thread_id)
}

/// Those of `stackTrace`.
pub(crate) fn stack_trace(out: &mut Writer, a: &StackTraceArguments) -> Result<(), AllocError>
    ensures { OnOk result (AreWritten out.old out.new
        (spec.stack_trace.members (a.now.levels, (a.now.start_frame, (a.now.thread_id, tt))))) }
{
    member::part_if(out, LEVELS, &a.levels)?;
    member::part(out, START_FRAME, &a.start_frame)?;
    write_one(out, THREAD_ID, &a.thread_id)
}

/// Those of `scopes`.
pub(crate) fn scopes(out: &mut Writer, a: &ScopesArguments) -> Result<(), AllocError>
    ensures { OnOk result (AreWritten out.old out.new (spec.scopes.members (a.now.frame_id, tt))) }
{
    write_one(out, FRAME_ID, &a.frame_id)
}

/// Those of `variables`.
pub(crate) fn variables(out: &mut Writer, a: &VariablesArguments) -> Result<(), AllocError>
    ensures { OnOk result (AreWritten out.old out.new (spec.variables.members
        (a.now.count, (a.now.filter, (a.now.start, (a.now.variables_reference, tt)))))) }
{
    member::part_if(out, COUNT, &a.count)?;
    filter_if(out, a.filter)?;
    member::part(out, START, &a.start)?;
    write_one(out, VARIABLES_REFERENCE, &a.variables_reference)
}

/// Those of `setVariable`.
pub(crate) fn set_variable(out: &mut Writer, a: &SetVariableArguments) -> Result<(), AllocError>
    ensures { OnOk result (AreWritten out.old out.new
        (spec.set_variable.members (a.now.name, (a.now.value, (a.now.variables_reference, tt))))) }
{
    member::part(out, VARIABLE_NAME, &a.name)?;
    member::part(out, VALUE, &a.value)?;
    write_one(out, VARIABLES_REFERENCE, &a.variables_reference)
}

/// Those of `evaluate`.
pub(crate) fn evaluate(out: &mut Writer, a: &EvaluateArguments) -> Result<(), AllocError>
    ensures { OnOk result (AreWritten out.old out.new
        (spec.evaluate.members (a.now.expression, (a.now.frame_id, tt)))) }
{
    member::part(out, EXPRESSION, &a.expression)?;
    signed_if(out, FRAME_ID, a.frame_id)
}

/// Those of `disassemble`.
pub(crate) fn disassemble(out: &mut Writer, a: &DisassembleArguments) -> Result<(), AllocError>
    ensures { OnOk result (AreWritten out.old out.new (spec.disassemble.members
        (a.now.instruction_count, (a.now.instruction_offset, (a.now.memory_reference, (a.now.offset, tt)))))) }
{
    member::part(out, INSTRUCTION_COUNT, &a.instruction_count)?;
    write_one(out, INSTRUCTION_OFFSET, &a.instruction_offset)?;
    member::part(out, MEMORY_REFERENCE, &a.memory_reference)?;
    write_one(out, OFFSET, &a.offset)
}

/// Those of `readMemory`.
pub(crate) fn read_memory(out: &mut Writer, a: &ReadMemoryArguments) -> Result<(), AllocError>
    ensures { OnOk result (AreWritten out.old out.new
        (spec.read_memory.members (a.now.count, (a.now.memory_reference, (a.now.offset, tt))))) }
{
    member::part(out, COUNT, &a.count)?;
    member::part(out, MEMORY_REFERENCE, &a.memory_reference)?;
    write_one(out, OFFSET, &a.offset)
}

/// Those of `writeMemory`.
pub(crate) fn write_memory(
    alloc: Global,
    out: &mut Writer,
    a: &WriteMemoryArguments,
) -> Result<(), AllocError>
    ensures { OnOk result (AreWritten out.old out.new (spec.write_memory.members
        (a.now.allow_partial, (a.now.bytes, (a.now.memory_reference, (a.now.offset, tt)))))) }
{
    member::truth(out, ALLOW_PARTIAL, a.allow_partial)?;
    encoded_bytes::member(alloc, out, DATA, &a.bytes)?;
    member::part(out, MEMORY_REFERENCE, &a.memory_reference)?;
    write_one(out, OFFSET, &a.offset)
}

// A member that is a whole number, where it is there.
fn signed_if(out: &mut Writer, name: &str, value: Option<i32>) -> Result<(), AllocError>
    ensures { OnOk result (AreWritten out.old out.new
        (member_if name.now signed.value value no_members)) }
{
    match value {
        Some(number) => member::signed(out, name, number),
        None => Ok(()),
    }
}

// A member that is a truth value, where it is there.
fn truth_if(out: &mut Writer, name: &str, value: Option<bool>) -> Result<(), AllocError>
    ensures { OnOk result (AreWritten out.old out.new
        (member_if name.now truth.value value no_members)) }
{
    match value {
        Some(truth) => member::truth(out, name, truth),
        None => Ok(()),
    }
}

// The kind of variables, where one is asked for.
fn filter_if(out: &mut Writer, filter: Option<Filter>) -> Result<(), AllocError>
    ensures { OnOk result (AreWritten out.old out.new
        (member_if FILTER.now (one_of spec.filter_name spec.filters).value filter no_members)) }
{
    match filter {
        Some(kind) => member::text(out, FILTER, filter_name(kind)),
        None => Ok(()),
    }
}
