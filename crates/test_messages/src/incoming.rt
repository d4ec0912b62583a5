//! Requests as they are shown.

use crate::arguments as of;
use protocol::{Command, Incoming, MessageError, Request, read_request};
use std::alloc::Global;
use testing::{Fault, Line, parsed};

/// What a body is to the adapter.
pub(crate) fn show_incoming(line: &mut Line, incoming: &Incoming) -> Result<(), Fault> {
    match incoming {
        Incoming::Request(Request { seq, command }) => {
            line.value(*seq)?;
            line.word(command.name())?;
            show_arguments(line, command)
        }
        Incoming::Bad {
            seq,
            command,
            refusal,
        } => {
            line.word("bad")?;
            line.value(*seq)?;
            line.bytes(command.as_str().as_bytes())?;
            line.name(*refusal)
        }
        Incoming::Ignored => line.word("ignored"),
    }
}

/// The arguments: a number, a switch or a name as it is written, a text or bytes in hexadecimal digits,
/// `none` for what is absent. A list has its entries one after the other.
fn show_arguments(line: &mut Line, command: &Command) -> Result<(), Fault> {
    match command {
        Command::Initialize(arguments) => of::initialize(line, arguments),
        Command::Launch(arguments) => of::launch(line, arguments),
        Command::Cancel(arguments) => of::cancel(line, arguments),
        Command::Disconnect(arguments) => of::disconnect(line, arguments),
        Command::SetBreakpoints(arguments) => of::set_breakpoints(line, arguments),
        Command::SetFunctionBreakpoints(arguments) => of::set_function_breakpoints(line, arguments),
        Command::SetInstructionBreakpoints(arguments) => {
            of::set_instruction_breakpoints(line, arguments)
        }
        Command::Continue(arguments) => line.value(arguments.thread_id),
        Command::Next(arguments) => of::step(line, arguments.thread_id, arguments.granularity),
        Command::StepIn(arguments) => of::step(line, arguments.thread_id, arguments.granularity),
        Command::StepOut(arguments) => of::step(line, arguments.thread_id, arguments.granularity),
        Command::StepBack(arguments) => of::step(line, arguments.thread_id, arguments.granularity),
        Command::ReverseContinue(arguments) => line.value(arguments.thread_id),
        Command::Pause(arguments) => line.value(arguments.thread_id),
        Command::StackTrace(arguments) => of::stack_trace(line, arguments),
        Command::Scopes(arguments) => line.value(arguments.frame_id),
        Command::Variables(arguments) => of::variables(line, arguments),
        Command::SetVariable(arguments) => of::set_variable(line, arguments),
        Command::Evaluate(arguments) => of::evaluate(line, arguments),
        Command::Disassemble(arguments) => of::disassemble(line, arguments),
        Command::ReadMemory(arguments) => of::read_memory(line, arguments),
        Command::WriteMemory(arguments) => of::write_memory(line, arguments),
        Command::Attach
        | Command::ConfigurationDone
        | Command::Threads
        | Command::Restart
        | Command::Terminate
        | Command::SetExceptionBreakpoints => Ok(()),
    }
}

/// The least that a request needs of its arguments, of all requests at once: others are passed over.
const NEEDED: &str =
    "{\"breakpoints\":[],\"count\":0,\"data\":\"\",\"expression\":\"\",\"frameId\":0,\
    \"instructionCount\":0,\"memoryReference\":\"\",\"name\":\"\",\"program\":\"\",\"source\":{},\
    \"threadId\":0,\"value\":\"\",\"variablesReference\":0}";

/// A request of this number and name, whose arguments say nothing.
pub(crate) fn request_named(alloc: Global, seq: &str, name: &str) -> Result<Request, Fault> {
    let seq = parsed(seq)?;
    Ok(Request {
        seq,
        command: command_named(alloc, name)?,
    })
}

fn command_named(alloc: Global, name: &str) -> Result<Command, Fault> {
    let body = body_of(alloc, name)?;
    match read_request(alloc, body.as_bytes()) {
        Ok(Incoming::Request(request)) => Ok(request.command),
        Err(MessageError::NoMemory) => Err(Fault::NoMemoryInCall),
        _ => Err(Fault::NoCommand),
    }
}

/// The body of a request of this name.
fn body_of(alloc: Global, name: &str) -> Result<String, Fault> {
    let mut body = String::from_str(alloc, "{\"seq\":1,\"type\":\"request\",\"command\":\"")?;
    body.push_str(name)?;
    body.push_str("\",\"arguments\":")?;
    body.push_str(NEEDED)?;
    body.push_str("}")?;
    Ok(body)
}
