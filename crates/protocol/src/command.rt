//! The requests that the adapter has, in one list.
ghost use Rattle.std.specs.Prelude.{◌≡◌, ◌++◌, None, option_map, Some};
ghost use Rattle.serde_json.specs.View.{view, members_view};
ghost use Rattle.protocol.specs.Commands.{command_among, command_of, name_of, requests, Finds};
ghost use Rattle.protocol.specs.Commands.{execution_requests, inspection_requests};

use crate::step_arguments::{StepArguments, step_arguments};
use crate::thread_arguments::{ThreadArguments, thread_arguments};
use crate::unread::Unread;
use crate::{
    attach, cancel, configuration_done, continue_, disassemble, disconnect, evaluate, initialize,
    launch, next, pause, read_memory, restart, reverse_continue, scopes, set_breakpoints,
    set_exception_breakpoints, set_function_breakpoints, set_instruction_breakpoints, set_variable,
    stack_trace, step_back, step_in, step_out, terminate, threads, variables, write_memory,
};
use serde_json::{Map, Value};
use std::alloc::Global;

/// A request with its arguments.
#[derive(Drop)]
pub enum Command {
    /// The first request of a connection (`InitializeRequest`).
    Initialize(initialize::InitializeArguments),
    /// A program is started (`LaunchRequest`).
    Launch(launch::LaunchArguments),
    /// The editor joins the program that is debugged (`AttachRequest`).
    Attach,
    /// The editor has said all before the program runs (`ConfigurationDoneRequest`).
    ConfigurationDone,
    /// Which threads there are (`ThreadsRequest`).
    Threads,
    /// The cancellation of an earlier request (`CancelRequest`).
    Cancel(cancel::CancelArguments),
    /// The program starts again (`RestartRequest`).
    Restart,
    /// The program is to end (`TerminateRequest`).
    Terminate,
    /// The end of the session (`DisconnectRequest`).
    Disconnect(disconnect::DisconnectArguments),
    /// The breakpoints at the lines of a source (`SetBreakpointsRequest`).
    SetBreakpoints(set_breakpoints::SetBreakpointsArguments),
    /// The breakpoints at functions (`SetFunctionBreakpointsRequest`).
    SetFunctionBreakpoints(set_function_breakpoints::SetFunctionBreakpointsArguments),
    /// The breakpoints at addresses (`SetInstructionBreakpointsRequest`).
    SetInstructionBreakpoints(set_instruction_breakpoints::SetInstructionBreakpointsArguments),
    /// The exceptions to stop at (`SetExceptionBreakpointsRequest`).
    SetExceptionBreakpoints,
    /// A thread runs on (`ContinueRequest`).
    Continue(ThreadArguments),
    /// A step over calls (`NextRequest`).
    Next(StepArguments),
    /// A step into calls (`StepInRequest`).
    StepIn(StepArguments),
    /// A step out of the running call (`StepOutRequest`).
    StepOut(StepArguments),
    /// A step back (`StepBackRequest`).
    StepBack(StepArguments),
    /// A thread runs backward (`ReverseContinueRequest`).
    ReverseContinue(ThreadArguments),
    /// A thread is to stop (`PauseRequest`).
    Pause(ThreadArguments),
    /// The frames of the call stack (`StackTraceRequest`).
    StackTrace(stack_trace::StackTraceArguments),
    /// The scopes of a frame (`ScopesRequest`).
    Scopes(scopes::ScopesArguments),
    /// The variables of a scope (`VariablesRequest`).
    Variables(variables::VariablesArguments),
    /// Another value for a variable (`SetVariableRequest`).
    SetVariable(set_variable::SetVariableArguments),
    /// The value of an expression (`EvaluateRequest`).
    Evaluate(evaluate::EvaluateArguments),
    /// The instructions at an address (`DisassembleRequest`).
    Disassemble(disassemble::DisassembleArguments),
    /// Bytes of memory are read (`ReadMemoryRequest`).
    ReadMemory(read_memory::ReadMemoryArguments),
    /// Bytes of memory are written (`WriteMemoryRequest`).
    WriteMemory(write_memory::WriteMemoryArguments),
}

impl Command {
    /// The request's name, as `Request.command` gives it.
    pub fn name(&self) -> &'static str
        ensures { result.now ≡ name_of self.now }
    {
        match self {
            Command::Initialize(_) => initialize::NAME,
            Command::Launch(_) => launch::NAME,
            Command::Attach => attach::NAME,
            Command::ConfigurationDone => configuration_done::NAME,
            Command::Threads => threads::NAME,
            Command::Cancel(_) => cancel::NAME,
            Command::Restart => restart::NAME,
            Command::Terminate => terminate::NAME,
            Command::Disconnect(_) => disconnect::NAME,
            Command::SetBreakpoints(_) => set_breakpoints::NAME,
            Command::SetFunctionBreakpoints(_) => set_function_breakpoints::NAME,
            Command::SetInstructionBreakpoints(_) => set_instruction_breakpoints::NAME,
            Command::SetExceptionBreakpoints => set_exception_breakpoints::NAME,
            Command::Continue(_) => continue_::NAME,
            Command::Next(_) => next::NAME,
            Command::StepIn(_) => step_in::NAME,
            Command::StepOut(_) => step_out::NAME,
            Command::StepBack(_) => step_back::NAME,
            Command::ReverseContinue(_) => reverse_continue::NAME,
            Command::Pause(_) => pause::NAME,
            Command::StackTrace(_) => stack_trace::NAME,
            Command::Scopes(_) => scopes::NAME,
            Command::Variables(_) => variables::NAME,
            Command::SetVariable(_) => set_variable::NAME,
            Command::Evaluate(_) => evaluate::NAME,
            Command::Disassemble(_) => disassemble::NAME,
            Command::ReadMemory(_) => read_memory::NAME,
            Command::WriteMemory(_) => write_memory::NAME,
        }
    }
}

/// The command of that name with those arguments; `None` where the adapter has no request of that
/// name, whatever the arguments are. Else `Bad` where these are no object, or one that is required
/// is absent, or one that is looked at has another type than the schema's or is a number out of
/// range.
pub(crate) fn command_named(
    alloc: Global,
    name: &str,
    arguments: Option<&Value>,
) -> Result<Option<Command>, Unread>
    ensures { Finds result (command_of name.now
        (option_map (λ value. view value.now) arguments.entry)) }
{
    match arguments {
        Some(value) => match value.as_object() {
            Some(members) => command_with(alloc, name, members),
            None => command_without(alloc, name),
        },
        None => command_with(alloc, name, &Map::new(alloc)),
    }
}

// Where the arguments are no object, a name that the adapter has is one whose arguments are bad.
fn command_without(alloc: Global, name: &str) -> Result<Option<Command>, Unread>
    ensures { Finds result (command_among requests name.now None) }
{
    match command_with(alloc, name, &Map::new(alloc)) {
        Ok(None) => Ok(None),
        Ok(Some(command)) => {
            drop(command);
            Err(Unread::Bad)
        }
        Err(why) => Err(why),
    }
}

/// The command of that name with arguments of these members.
fn command_with(
    alloc: Global,
    name: &str,
    members: &Map<String, Value>,
) -> Result<Option<Command>, Unread>
    ensures { Finds result (command_among requests name.now
        (Some (members_view members.now.entries))) }
{
    match name {
        initialize::NAME => Ok(Some(Command::Initialize(initialize::arguments(alloc, members)?))),
        launch::NAME => Ok(Some(Command::Launch(launch::arguments(alloc, members)?))),
        attach::NAME => Ok(Some(Command::Attach)),
        configuration_done::NAME => Ok(Some(Command::ConfigurationDone)),
        threads::NAME => Ok(Some(Command::Threads)),
        cancel::NAME => Ok(Some(Command::Cancel(cancel::arguments(alloc, members)?))),
        restart::NAME => Ok(Some(Command::Restart)),
        terminate::NAME => Ok(Some(Command::Terminate)),
        disconnect::NAME => Ok(Some(Command::Disconnect(disconnect::arguments(alloc, members)?))),
        _ => execution_command(alloc, name, members),
    }
}

/// The command of that name among those that set breakpoints, run the program or look into it.
#[tactic(auto, unfolding(crate::specs::Commands::execution_requests))]
fn execution_command(
    alloc: Global,
    name: &str,
    members: &Map<String, Value>,
) -> Result<Option<Command>, Unread>
    ensures { Finds result (command_among (execution_requests ++ inspection_requests) name.now
        (Some (members_view members.now.entries))) }
{
    match name {
        set_breakpoints::NAME => Ok(Some(Command::SetBreakpoints(set_breakpoints::arguments(
            alloc, members,
        )?))),
        set_function_breakpoints::NAME => Ok(Some(Command::SetFunctionBreakpoints(
            set_function_breakpoints::arguments(alloc, members)?,
        ))),
        set_instruction_breakpoints::NAME => Ok(Some(Command::SetInstructionBreakpoints(
            set_instruction_breakpoints::arguments(alloc, members)?,
        ))),
        set_exception_breakpoints::NAME => Ok(Some(Command::SetExceptionBreakpoints)),
        continue_::NAME => Ok(Some(Command::Continue(thread_arguments(alloc, members)?))),
        next::NAME => Ok(Some(Command::Next(step_arguments(alloc, members)?))),
        step_in::NAME => Ok(Some(Command::StepIn(step_arguments(alloc, members)?))),
        step_out::NAME => Ok(Some(Command::StepOut(step_arguments(alloc, members)?))),
        step_back::NAME => Ok(Some(Command::StepBack(step_arguments(alloc, members)?))),
        reverse_continue::NAME => Ok(Some(Command::ReverseContinue(thread_arguments(
            alloc, members,
        )?))),
        pause::NAME => Ok(Some(Command::Pause(thread_arguments(alloc, members)?))),
        _ => inspection_command(alloc, name, members),
    }
}

/// The command of that name among those that look into the program or change its registers and memory.
#[tactic(auto, unfolding(crate::specs::Commands::inspection_requests))]
fn inspection_command(
    alloc: Global,
    name: &str,
    members: &Map<String, Value>,
) -> Result<Option<Command>, Unread>
    ensures { Finds result (command_among inspection_requests name.now
        (Some (members_view members.now.entries))) }
{
    match name {
        stack_trace::NAME => Ok(Some(Command::StackTrace(stack_trace::arguments(alloc, members)?))),
        scopes::NAME => Ok(Some(Command::Scopes(scopes::arguments(alloc, members)?))),
        variables::NAME => Ok(Some(Command::Variables(variables::arguments(alloc, members)?))),
        set_variable::NAME => Ok(Some(Command::SetVariable(set_variable::arguments(
            alloc, members,
        )?))),
        evaluate::NAME => Ok(Some(Command::Evaluate(evaluate::arguments(alloc, members)?))),
        disassemble::NAME => Ok(Some(Command::Disassemble(disassemble::arguments(
            alloc, members,
        )?))),
        read_memory::NAME => Ok(Some(Command::ReadMemory(read_memory::arguments(alloc, members)?))),
        write_memory::NAME => Ok(Some(Command::WriteMemory(write_memory::arguments(
            alloc, members,
        )?))),
        _ => Ok(None),
    }
}
