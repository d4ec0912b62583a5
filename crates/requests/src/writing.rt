//! Requests written as compact JSON, member by member into one buffer.
ghost use Rattle.std.specs.Prelude.{◌≡◌, IfOk, OnOk, Ok, Some, codes, true};
ghost use Rattle.serde_json.specs.Data.{member, no_members, object};
ghost use Rattle.message_parts.specs.Forms.{member_if};
ghost use Rattle.message_parts.specs.Written.{AreWritten, IsWritten};
ghost use Rattle.protocol.specs.Json.{json_of};
ghost use Rattle.protocol.specs.Reading.{incoming_of};
ghost use Rattle.protocol.specs.declared.request.Incoming.TheVariants.{Request};
ghost use Rattle.requests.specs.Arguments as spec;
ghost use Rattle.requests.specs.Requests.{arguments_of, is_in_range, is_natural, request_data, request_text};

use crate::arguments;
use json::Writer;
use message_parts::member;
use protocol::Command;
use protocol::members::{ARGUMENTS, COMMAND, REQUEST, SEQ, TYPE};
use std::alloc::{AllocError, Global};

/// The bytes that most requests fit in.
const USUAL_LEN: usize = 128;

/// A request with this number and command (`Request`) as the body of a frame: compact JSON. `protocol::read_request` reads it as that
/// request, where its number is at most 2,147,483,647 and its numbers are in the ranges that `protocol` gives for them. It fails where
/// no memory is left.
pub fn write_request(alloc: Global, seq: u32, command: &Command) -> Result<Vec<u8>, AllocError>
    ensures text { IfOk result (λ b. b.items ≡ request_text seq command.now) }
    ensures value { IfOk result (λ b. json_of b.items ≡ Some (request_data seq command.now)) }
    ensures read { is_natural seq ≡ true → is_in_range command.now ≡ true → IfOk result (λ b.
        incoming_of b.items ≡ Ok (Request (record { seq = seq; command = command.now }))) }
{
    let mut out = Writer::new(Vec::with_capacity(alloc, USUAL_LEN)?);
    write(alloc, &mut out, seq, command)?;
    Ok(out.into_inner())
}

/// The request, written. As each function below, it fails where no memory is left, and then the writer is of no more use.
fn write(alloc: Global, out: &mut Writer, seq: u32, command: &Command) -> Result<(), AllocError>
    ensures { OnOk result (IsWritten out.old out.new (request_data seq command.now)) }
{
    out.begin_object()?;
    write_arguments(alloc, out, command)?;
    member::text(out, COMMAND, command.name())?;
    member::number(out, SEQ, seq)?;
    member::text(out, TYPE, REQUEST)?;
    out.end_object()
}

/// The member that is its arguments, if it has any.
fn write_arguments(alloc: Global, out: &mut Writer, command: &Command) -> Result<(), AllocError>
    ensures { OnOk result (AreWritten out.old out.new
        (member_if (codes "arguments") (λ ms. object ms) (arguments_of command.now) no_members)) }
{
    if has_arguments(command) {
        write_member(alloc, out, command)
    } else {
        Ok(())
    }
}

/// The member that is its arguments.
fn write_member(alloc: Global, out: &mut Writer, command: &Command) -> Result<(), AllocError>
    ensures { OnOk result (AreWritten out.old out.new
        (member (codes "arguments") (object (spec.members_of command.now)) no_members)) }
{
    out.key(ARGUMENTS)?;
    write_object(alloc, out, command)
}

/// Whether a request has arguments.
fn has_arguments(command: &Command) -> bool
    ensures { result ≡ spec.has_arguments command.now }
{
    !matches!(
        command,
        Command::ConfigurationDone | Command::Threads | Command::Restart | Command::Terminate
    )
}

/// Its arguments.
fn write_object(alloc: Global, out: &mut Writer, command: &Command) -> Result<(), AllocError>
    ensures { OnOk result (IsWritten out.old out.new (object (spec.members_of command.now))) }
{
    out.begin_object()?;
    write_members(alloc, out, command)?;
    out.end_object()
}

/// The members of its arguments.
fn write_members(alloc: Global, out: &mut Writer, command: &Command) -> Result<(), AllocError>
    ensures { OnOk result (AreWritten out.old out.new (spec.members_of command.now)) }
{
    match command {
        Command::Initialize(a) => arguments::initialize(out, a),
        Command::Launch(a) => arguments::launch(out, a),
        Command::Attach
        | Command::ConfigurationDone
        | Command::Threads
        | Command::Restart
        | Command::Terminate => Ok(()),
        Command::Cancel(a) => arguments::cancel(out, a),
        Command::Disconnect(a) => arguments::disconnect(out, a),
        Command::SetBreakpoints(a) => arguments::set_breakpoints(out, a),
        Command::SetFunctionBreakpoints(a) => arguments::set_function_breakpoints(out, a),
        Command::SetInstructionBreakpoints(a) => arguments::set_instruction_breakpoints(out, a),
        Command::SetExceptionBreakpoints => arguments::set_exception_breakpoints(out),
        Command::Continue(a) | Command::ReverseContinue(a) | Command::Pause(a) => {
            arguments::thread(out, a)
        }
        Command::Next(a) | Command::StepIn(a) | Command::StepOut(a) | Command::StepBack(a) => {
            arguments::step(out, a)
        }
        Command::StackTrace(a) => arguments::stack_trace(out, a),
        Command::Scopes(a) => arguments::scopes(out, a),
        Command::Variables(a) => arguments::variables(out, a),
        Command::SetVariable(a) => arguments::set_variable(out, a),
        Command::Evaluate(a) => arguments::evaluate(out, a),
        Command::Disassemble(a) => arguments::disassemble(out, a),
        Command::ReadMemory(a) => arguments::read_memory(out, a),
        Command::WriteMemory(a) => arguments::write_memory(alloc, out, a),
    }
}
