//! Messages written as compact JSON, member by member into one buffer.
ghost use Rattle.std.specs.Prelude.{◌≡◌, Some, IfOk, OnOk, codes};
ghost use Rattle.serde_json.specs.Data.{no_members};
ghost use Rattle.message_parts.specs.Forms.{member_if};
ghost use Rattle.message_parts.specs.Written.{AreWritten, IsWritten};
ghost use Rattle.protocol.specs.Json.{json_of};
ghost use Rattle.replies.specs.Messages.{message_data, text_of};
ghost use Rattle.replies.specs.Bodies.{body_data};
ghost use Rattle.replies.specs.Responses.{response_data, outcome_data, error_data, format_of, last_members};

use crate::{Message, Outcome, Response, ResponseBody, event};
use json::Writer;
use message_parts::members::{
    BODY, COMMAND, ERROR, FORMAT, ID, MESSAGE, REQUEST_SEQ, RESPONSE, SEQ, SUCCESS, TYPE,
};
use message_parts::{continue_, initialize, member, read_memory, threads};
use protocol::{Refusal, Text};
use std::alloc::{AllocError, Global};

/// The bytes that most messages fit in.
const USUAL_LEN: usize = 256;

/// The message with this number as compact JSON. It fails where no memory is left.
pub(crate) fn message(alloc: Global, seq: u32, message: &Message) -> Result<Vec<u8>, AllocError>
    ensures text { IfOk result (λ b. b.items ≡ text_of seq message.now) }
    ensures value { IfOk result (λ b. json_of b.items ≡ Some (message_data seq message.now)) }
{
    let mut out = Writer::new(Vec::with_capacity(alloc, USUAL_LEN)?);
    write(alloc, &mut out, seq, message)?;
    Ok(out.into_inner())
}

/// The message with this number, written. As each function below, it fails where no memory is
/// left, and then the writer is of no more use.
fn write(alloc: Global, out: &mut Writer, seq: u32, message: &Message) -> Result<(), AllocError>
    ensures { OnOk result (IsWritten out.old out.new (message_data seq message.now)) }
{
    match message {
        Message::Response(response) => write_response(alloc, out, seq, response),
        Message::Event(event) => event::write(out, seq, event),
    }
}

/// The response with this number.
fn write_response(
    alloc: Global,
    out: &mut Writer,
    seq: u32,
    response: &Response,
) -> Result<(), AllocError>
    ensures { OnOk result (IsWritten out.old out.new (response_data seq response.now)) }
{
    let request_seq = response.request_seq;
    let command = response.command.as_str();
    match &response.outcome {
        Outcome::Done(body) => success(alloc, out, seq, request_seq, command, body),
        Outcome::Refused(refusal, text) => {
            refused(out, seq, request_seq, command, *refusal, text)
        }
    }
}

/// The response with this number to the request of this number and command, which succeeded.
fn success(
    alloc: Global,
    out: &mut Writer,
    seq: u32,
    request_seq: u32,
    command: &str,
    body: &ResponseBody,
) -> Result<(), AllocError>
    ensures { OnOk result (IsWritten out.old out.new
        (outcome_data seq request_seq command.now (Outcome.Done body.now))) }
{
    out.begin_object()?;
    write_body(alloc, out, body)?;
    member::text(out, COMMAND, command)?;
    last_members(out, seq, request_seq, true)?;
    out.end_object()
}

/// The response with this number to the request of this number and command, which was refused.
fn refused(
    out: &mut Writer,
    seq: u32,
    request_seq: u32,
    command: &str,
    refusal: Refusal,
    text: &Option<Text>,
) -> Result<(), AllocError>
    ensures { OnOk result (IsWritten out.old out.new
        (outcome_data seq request_seq command.now (Outcome.Refused refusal text.now))) }
{
    out.begin_object()?;
    out.key(BODY)?;
    error(out, refusal, text)?;
    member::text(out, COMMAND, command)?;
    member::text(out, MESSAGE, refusal.name())?;
    last_members(out, seq, request_seq, false)?;
    out.end_object()
}

/// The members of every response that stand after the others.
fn last_members(
    out: &mut Writer,
    seq: u32,
    request_seq: u32,
    success: bool,
) -> Result<(), AllocError>
    ensures { OnOk result (AreWritten out.old out.new (last_members seq request_seq success)) }
{
    member::number(out, REQUEST_SEQ, request_seq)?;
    member::number(out, SEQ, seq)?;
    member::truth(out, SUCCESS, success)?;
    member::text(out, TYPE, RESPONSE)
}

/// The member that is the body, if there is one.
fn write_body(alloc: Global, out: &mut Writer, body: &ResponseBody) -> Result<(), AllocError>
    ensures { OnOk result (AreWritten out.old out.new
        (member_if (codes "body") (λ d. d) (body_data body.now) no_members)) }
{
    match body {
        ResponseBody::Initialize => {
            out.key(BODY)?;
            initialize::body(out)
        }
        ResponseBody::Threads => {
            out.key(BODY)?;
            threads::body(out)
        }
        ResponseBody::Continue => {
            out.key(BODY)?;
            continue_::body(out)
        }
        ResponseBody::SetBreakpoints(body) => member::part(out, BODY, body),
        ResponseBody::SetFunctionBreakpoints(body) => member::part(out, BODY, body),
        ResponseBody::SetInstructionBreakpoints(body) => member::part(out, BODY, body),
        ResponseBody::StackTrace(body) => member::part(out, BODY, body),
        ResponseBody::Scopes(body) => member::part(out, BODY, body),
        ResponseBody::Variables(body) => member::part(out, BODY, body),
        ResponseBody::SetVariable(body) => member::part(out, BODY, body),
        ResponseBody::Evaluate(body) => member::part(out, BODY, body),
        ResponseBody::Disassemble(body) => member::part(out, BODY, body),
        ResponseBody::ReadMemory(body) => {
            out.key(BODY)?;
            read_memory::body(alloc, out, body)
        }
        ResponseBody::WriteMemory(body) => member::part(out, BODY, body),
        ResponseBody::Empty => Ok(()),
    }
}

/// The body of a refusal.
fn error(out: &mut Writer, refusal: Refusal, text: &Option<Text>) -> Result<(), AllocError>
    ensures { OnOk result (IsWritten out.old out.new (error_data refusal text.now)) }
{
    out.begin_object()?;
    out.key(ERROR)?;
    out.begin_object()?;
    member::text(out, FORMAT, format_of(refusal, text))?;
    member::number(out, ID, refusal.id())?;
    out.end_object()?;
    out.end_object()
}

/// The text of a refusal for people: its own if it has one, else its name.
fn format_of(refusal: Refusal, text: &Option<Text>) -> &str
    ensures { result.now ≡ format_of refusal text.now }
{
    match text {
        Some(text) => text.as_str(),
        None => refusal.name(),
    }
}
