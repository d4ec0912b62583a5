//! Responses as they are shown.

use crate::bodies::show_body;
use crate::errors::refusal_named;
use crate::incoming::request_named;
use protocol::{Request, Text};
use replies::{Outcome, Response, ResponseBody};
use std::alloc::Global;
use testing::{Fault, Line, bytes_of, called, parsed};

/// The parts of a response: the request's number and name, and what became of it.
pub(crate) fn show_response(line: &mut Line, response: &Response) -> Result<(), Fault> {
    line.value(response.request_seq)?;
    line.bytes(response.command.as_str().as_bytes())?;
    match &response.outcome {
        Outcome::Done(body) => {
            line.word("done")?;
            show_body(line, body)
        }
        Outcome::Refused(refusal, text) => {
            line.word("refused")?;
            line.name(*refusal)?;
            match text {
                Some(text) => line.bytes(text.as_str().as_bytes()),
                None => line.word("none"),
            }
        }
    }
}

/// The response that a request of this number and name succeeded, with this body.
pub(crate) fn success(alloc: Global, seq: &str, name: &str, body: &str) -> Result<Response, Fault> {
    success_of(alloc, &request_named(alloc, seq, name)?, body)
}

fn success_of(alloc: Global, request: &Request, body: &str) -> Result<Response, Fault> {
    called(Response::success(alloc, request, body_named(body)?))
}

/// The response that a request of this number and name is refused.
pub(crate) fn refuse(
    alloc: Global,
    seq: &str,
    name: &str,
    refusal: &str,
) -> Result<Response, Fault> {
    refuse_with(alloc, &request_named(alloc, seq, name)?, refusal)
}

fn refuse_with(alloc: Global, request: &Request, refusal: &str) -> Result<Response, Fault> {
    called(Response::error(alloc, request, refusal_named(refusal)?))
}

/// The response that a request of this number and name succeeded, with no body.
pub(crate) fn ack(alloc: Global, seq: &str, name: &str) -> Result<Response, Fault> {
    called(Response::ack(alloc, &request_named(alloc, seq, name)?))
}

/// The response that names any request, which succeeded with this body.
pub(crate) fn done(alloc: Global, seq: &str, name: &str, body: &str) -> Result<Response, Fault> {
    let request_seq = parsed(seq)?;
    let command = text_of(alloc, name)?;
    Ok(Response {
        request_seq,
        command,
        outcome: Outcome::Done(body_named(body)?),
    })
}

/// The response that names any request, which is refused with this text or `none`.
pub(crate) fn refused(
    alloc: Global,
    seq: &str,
    name: &str,
    refusal: &str,
    text: &str,
) -> Result<Response, Fault> {
    let request_seq = parsed(seq)?;
    let refusal = refusal_named(refusal)?;
    let command = text_of(alloc, name)?;
    let text = optional_text_of(alloc, text)?;
    Ok(Response {
        request_seq,
        command,
        outcome: Outcome::Refused(refusal, text),
    })
}

/// The body of this name, of those that are always the same.
pub(crate) fn body_named(name: &str) -> Result<ResponseBody, Fault> {
    match name {
        "Initialize" => Ok(ResponseBody::Initialize),
        "Threads" => Ok(ResponseBody::Threads),
        "Continue" => Ok(ResponseBody::Continue),
        "Empty" => Ok(ResponseBody::Empty),
        _ => Err(Fault::NoCommand),
    }
}

/// The text whose bytes an argument gives.
pub(crate) fn text_of(alloc: Global, argument: &str) -> Result<Text, Fault> {
    match String::from_utf8(bytes_of(alloc, argument)?) {
        Ok(string) => Ok(Text::from_string(string)),
        Err(_) => Err(Fault::NoCommand),
    }
}

/// The text whose bytes an argument gives, or none.
pub(crate) fn optional_text_of(alloc: Global, argument: &str) -> Result<Option<Text>, Fault> {
    match argument {
        "none" => Ok(None),
        argument => Ok(Some(text_of(alloc, argument)?)),
    }
}
