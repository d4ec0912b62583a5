//! Responses: what the adapter answers to requests.
ghost use Rattle.std.specs.Prelude.{◌≡◌, None, IfOk};
ghost use Rattle.protocol.specs.Commands.{name_of};

use message_parts::{
    Disassemble, Evaluate, ReadMemory, Scopes, SetBreakpoints, SetFunctionBreakpoints,
    SetInstructionBreakpoints, SetVariable, StackTrace, Variables, WriteMemory,
};
use protocol::{Refusal, Request, Text};
use std::alloc::{AllocError, Global};

/// The body of a success, one variant for each body and named by its request. What the protocol's
/// profile fixes has no fields.
#[derive(Drop)]
pub enum ResponseBody {
    /// What the adapter can do (`InitializeResponse`).
    Initialize,
    /// Which threads there are (`ThreadsResponse`).
    Threads,
    /// Every thread continues (`ContinueResponse`).
    Continue,
    /// What became of the breakpoints of a source (`SetBreakpointsResponse`).
    SetBreakpoints(SetBreakpoints),
    /// What became of the breakpoints at functions (`SetFunctionBreakpointsResponse`).
    SetFunctionBreakpoints(SetFunctionBreakpoints),
    /// What became of the breakpoints at instructions (`SetInstructionBreakpointsResponse`).
    SetInstructionBreakpoints(SetInstructionBreakpoints),
    /// The frames of a stopped program (`StackTraceResponse`).
    StackTrace(StackTrace),
    /// The groups of variables of a frame (`ScopesResponse`).
    Scopes(Scopes),
    /// Variables (`VariablesResponse`).
    Variables(Variables),
    /// The value of a variable that was set (`SetVariableResponse`).
    SetVariable(SetVariable),
    /// The value of an expression (`EvaluateResponse`).
    Evaluate(Evaluate),
    /// The instructions at an address (`DisassembleResponse`).
    Disassemble(Disassemble),
    /// Bytes of memory (`ReadMemoryResponse`).
    ReadMemory(ReadMemory),
    /// How much was written to memory (`WriteMemoryResponse`).
    WriteMemory(WriteMemory),
    /// No body: an acknowledgement.
    Empty,
}

/// What became of a request.
#[derive(Drop)]
pub enum Outcome {
    /// It succeeded, with this body.
    Done(ResponseBody),
    /// It was refused, and the refusal may have a text of its own.
    Refused(Refusal, Option<Text>),
}

/// An answer to a request (`Response`).
#[derive(Drop)]
pub struct Response {
    /// The number of the request.
    pub request_seq: u32,
    /// The name of the request.
    pub command: Text,
    /// What became of it.
    pub outcome: Outcome,
}

impl Response {
    /// The answer that the request succeeded, with this body. It fails where no memory is left.
    pub fn success(
        alloc: Global,
        request: &Request,
        body: ResponseBody,
    ) -> Result<Response, AllocError>
        ensures { IfOk result (λ r. r ≡ record {
          request_seq = request.now.seq;
          command = name_of request.now.command;
          outcome = Outcome.Done body;
        }) }
    {
        answer(alloc, request, Outcome::Done(body))
    }

    /// The answer that the request is refused, with no text but the refusal's name. It fails where
    /// no memory is left.
    pub fn error(alloc: Global, request: &Request, refusal: Refusal) -> Result<Response, AllocError>
        ensures { IfOk result (λ r. r ≡ record {
          request_seq = request.now.seq;
          command = name_of request.now.command;
          outcome = Outcome.Refused refusal None;
        }) }
    {
        answer(alloc, request, Outcome::Refused(refusal, None))
    }

    /// The answer that the request succeeded, with no body. It fails where no memory is left.
    pub fn ack(alloc: Global, request: &Request) -> Result<Response, AllocError>
        ensures { IfOk result (λ r. r ≡ record {
          request_seq = request.now.seq;
          command = name_of request.now.command;
          outcome = Outcome.Done ResponseBody.Empty;
        }) }
    {
        Response::success(alloc, request, ResponseBody::Empty)
    }
}

/// The answer to this request, whose name is copied.
fn answer(alloc: Global, request: &Request, outcome: Outcome) -> Result<Response, AllocError>
    ensures { IfOk result (λ r. r ≡ record {
      request_seq = request.now.seq;
      command = name_of request.now.command;
      outcome = outcome;
    }) }
{
    let command = String::from_str(alloc, request.command.name())?;
    Ok(Response {
        request_seq: request.seq,
        command: Text::from_string(command),
        outcome,
    })
}
