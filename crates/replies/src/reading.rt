//! Messages found in JSON values.
ghost use Rattle.std.specs.Prelude.{◌≡◌, ◌≤◌, IfOk, codes, option_and_then, option_map};
ghost use Rattle.std.specs.List.{list_any};
ghost use Rattle.std.specs.Str.{bytes_eq};
ghost use Rattle.protocol.specs.Arguments.{Reads};
ghost use Rattle.serde_json.specs.Data.{depth};
ghost use Rattle.serde_json.specs.Read.{max_depth};
ghost use Rattle.serde_json.specs.View.{view};
ghost use Rattle.replies.specs.Bodies.{body_in, without_body};
ghost use Rattle.replies.specs.Claims.{claim_in, error_in, message_of, number_at, outcome_in, refusal_in, refused_in, response_in, seq_in, text_at};
ghost use Rattle.replies.specs.Messages.{message_data};
ghost use Rattle.replies.specs.Reading.{message_in};
ghost use Rattle.replies.specs.Same.{is_same};

use crate::{Message, Outcome, Response, ResponseBody, event, writing};
use message_parts::members::{
    BODY, COMMAND, ERROR, EVENT, FORMAT, ID, REQUEST_SEQ, RESPONSE, SEQ, SUCCESS, TYPE,
};
use message_parts::{find, read_memory};
use protocol::{
    Refusal, Text, Unread, attach, cancel, configuration_done, continue_, disassemble, disconnect,
    evaluate, initialize, launch, next, pause, restart, reverse_continue, scopes, set_breakpoints,
    set_exception_breakpoints, set_function_breakpoints, set_instruction_breakpoints, set_variable,
    stack_trace, step_back, step_in, step_out, terminate, threads, variables, write_memory,
};
use serde_json::Value;
use std::alloc::{AllocError, Global};

/// The whole number of this name.
fn number_at(value: &Value, name: &str) -> Option<u64>
    ensures { result ≡ number_at name.now (view value.now) }
{
    value.get(name).and_then(Value::as_u64)
}

/// The message's number, from 1 to 2,147,483,647.
fn seq_in(value: &Value) -> Option<u32>
    ensures { result ≡ seq_in (view value.now) }
{
    let n = number_at(value, SEQ)?;
    if n > 0 && n < 1 << 31 {
        Some(n as u32)
    } else {
        None
    }
}

/// Whether a success of this command has no body.
fn is_without_body(command: &str) -> bool
    ensures { result ≡ list_any (bytes_eq command.now) without_body }
{
    matches!(
        command,
        attach::NAME
            | cancel::NAME
            | configuration_done::NAME
            | disconnect::NAME
            | launch::NAME
            | next::NAME
            | pause::NAME
            | restart::NAME
            | reverse_continue::NAME
            | set_exception_breakpoints::NAME
            | step_back::NAME
            | step_in::NAME
            | step_out::NAME
            | terminate::NAME
    )
}

/// The body that a success of this command claims to have.
fn body_in(alloc: Global, command: &str, value: &Value) -> Result<ResponseBody, Unread>
    ensures { Reads result (body_in command.now (view value.now)) }
{
    match command {
        initialize::NAME => Ok(ResponseBody::Initialize),
        threads::NAME => Ok(ResponseBody::Threads),
        continue_::NAME => Ok(ResponseBody::Continue),
        set_breakpoints::NAME => Ok(ResponseBody::SetBreakpoints(find::part(alloc, value, BODY)?)),
        set_function_breakpoints::NAME => Ok(ResponseBody::SetFunctionBreakpoints(find::part(
            alloc, value, BODY,
        )?)),
        set_instruction_breakpoints::NAME => Ok(ResponseBody::SetInstructionBreakpoints(find::part(
            alloc, value, BODY,
        )?)),
        stack_trace::NAME => Ok(ResponseBody::StackTrace(find::part(alloc, value, BODY)?)),
        scopes::NAME => Ok(ResponseBody::Scopes(find::part(alloc, value, BODY)?)),
        variables::NAME => Ok(ResponseBody::Variables(find::part(alloc, value, BODY)?)),
        set_variable::NAME => Ok(ResponseBody::SetVariable(find::part(alloc, value, BODY)?)),
        evaluate::NAME => Ok(ResponseBody::Evaluate(find::part(alloc, value, BODY)?)),
        disassemble::NAME => Ok(ResponseBody::Disassemble(find::part(alloc, value, BODY)?)),
        protocol::read_memory::NAME => Ok(ResponseBody::ReadMemory(read_memory::find(
            alloc, value, BODY,
        )?)),
        write_memory::NAME => Ok(ResponseBody::WriteMemory(find::part(alloc, value, BODY)?)),
        name if is_without_body(name) => Ok(ResponseBody::Empty),
        _ => Err(Unread::Bad),
    }
}

/// What a response says of a refusal.
fn error_in(value: &Value) -> Option<&Value>
    ensures { option_map (λ error. view error.now) result ≡ error_in (view value.now) }
{
    value.get(BODY)?.get(ERROR)
}

/// The refusal that a response says.
fn refusal_in(value: &Value) -> Option<Refusal>
    ensures { result ≡ refusal_in (view value.now) }
{
    Refusal::from_id(number_at(error_in(value)?, ID)?)
}

/// The text that a response says for people.
fn format_in(value: &Value) -> Option<&str>
    ensures { option_map (λ text. text.now) result
        ≡ option_and_then (text_at (codes "format")) (error_in (view value.now)) }
{
    error_in(value)?.get(FORMAT)?.as_str()
}

/// The refusal that a response says, with its text.
fn refused_in(alloc: Global, value: &Value) -> Result<Outcome, Unread>
    ensures { Reads result (refused_in (view value.now)) }
{
    let refusal = refusal_in(value).ok_or(Unread::Bad)?;
    if !refusal.has_text() {
        return Ok(Outcome::Refused(refusal, None));
    }
    let text = format_in(value).ok_or(Unread::Bad)?;
    let text = Text::from_string(String::from_str(alloc, text)?);
    Ok(Outcome::Refused(refusal, Some(text)))
}

/// What became of a request of this command.
fn outcome_in(alloc: Global, command: &str, value: &Value, success: bool) -> Result<Outcome, Unread>
    ensures { Reads result (outcome_in command.now (view value.now) success) }
{
    if success {
        Ok(Outcome::Done(body_in(alloc, command, value)?))
    } else {
        refused_in(alloc, value)
    }
}

/// The response that a value claims to be.
fn response_in(alloc: Global, value: &Value) -> Result<Response, Unread>
    ensures { Reads result (response_in (view value.now)) }
{
    let request_seq = find::number(value, REQUEST_SEQ)?;
    let command = value
        .get(COMMAND)
        .and_then(Value::as_str)
        .ok_or(Unread::Bad)?;
    let success = value
        .get(SUCCESS)
        .and_then(Value::as_bool)
        .ok_or(Unread::Bad)?;
    let outcome = outcome_in(alloc, command, value, success)?;
    Ok(Response {
        request_seq,
        command: Text::from_string(String::from_str(alloc, command)?),
        outcome,
    })
}

/// The message of this type that a value claims to be.
fn message_of(alloc: Global, kind: &str, value: &Value) -> Result<Message, Unread>
    ensures { Reads result (message_of kind.now (view value.now)) }
{
    match kind {
        RESPONSE => Ok(Message::Response(response_in(alloc, value)?)),
        EVENT => Ok(Message::Event(event::read(alloc, value)?)),
        _ => Err(Unread::Bad),
    }
}

/// The number and the message that a value claims to be.
fn claim_in(alloc: Global, value: &Value) -> Result<(u32, Message), Unread>
    ensures { Reads result (claim_in (view value.now)) }
{
    let seq = seq_in(value).ok_or(Unread::Bad)?;
    let kind = value.get(TYPE).and_then(Value::as_str).ok_or(Unread::Bad)?;
    let message = message_of(alloc, kind, value)?;
    Ok((seq, message))
}

/// Whether the value is that of the message with this number. It is exactly where their compact
/// texts are one.
fn is_same(alloc: Global, value: &Value, seq: u32, message: &Message) -> Result<bool, AllocError>
    requires { depth (view value.now) ≤ max_depth }
    ensures { IfOk result (λ b. b ≡ is_same (view value.now) (message_data seq message.now)) }
{
    let text = value.to_vec(alloc)?;
    let written = writing::message(alloc, seq, message)?;
    Ok(text.as_slice() == written.as_slice())
}

/// The number and the message that a value is; `Bad` where it is none.
pub(crate) fn message(alloc: Global, value: &Value) -> Result<(u32, Message), Unread>
    requires { depth (view value.now) ≤ max_depth }
    ensures { Reads result (message_in (view value.now)) }
{
    let (seq, message) = claim_in(alloc, value)?;
    match is_same(alloc, value, seq, &message) {
        Ok(true) => Ok((seq, message)),
        Ok(false) => {
            drop(message);
            Err(Unread::Bad)
        }
        Err(AllocError) => {
            drop(message);
            Err(Unread::NoMemory)
        }
    }
}
