//! What an editor sends, message by message: what is wrong with it is told, or kept until the request is answered.

use crate::ending::say;
use crate::verbose::arguments::slip_in;
use crate::verbose::reasons::{Reason, Reasons};
use crate::verbose::stream::Stream;
use breakpoints::{Expr, ExprError};
use framing::FrameError;
use protocol::{Command, Incoming, MessageError, Refusal, read_request};
use serde_json::Value;
use std::alloc::Global;
use std::fmt::{Debug, Display};
use std::str;

/// What an editor sends.
#[derive(Drop)]
pub(crate) struct Hearing {
    stream: Stream,
    is_open: bool,
}

// What a byte brings.
enum Heard {
    // Nothing to tell.
    Nothing,
    // A request of this number that will be refused.
    Bad(u32, Reason),
    // The stream continues as no frame can.
    NoFrame(FrameError),
    // A body that is no message.
    NoMessage(MessageError),
    // No memory was left.
    NoMemory,
}

impl Hearing {
    /// Nothing was sent yet. Messages have at most `longest` bytes.
    pub(crate) fn new(alloc: Global, longest: u32) -> Hearing {
        Hearing {
            stream: Stream::new(alloc, longest),
            is_open: true,
        }
    }

    /// Hears a piece. The first fault of the stream is told: the session closes the connection for it.
    pub(crate) fn hear(&mut self, rt: &HostRuntime, piece: &[u8], reasons: &mut Reasons) {
        for byte in piece {
            if self.is_open {
                self.hear_byte(rt, *byte, reasons);
            }
        }
    }

    fn hear_byte(&mut self, rt: &HostRuntime, byte: u8, reasons: &mut Reasons) {
        match heard_with(rt.alloc(), &mut self.stream, byte) {
            Heard::Nothing => {}
            Heard::Bad(number, reason) => reasons.add(number, reason),
            Heard::NoFrame(fault) => self.end(rt, fault),
            Heard::NoMessage(fault) => self.end(rt, fault),
            Heard::NoMemory => self.is_open = false,
        }
    }

    fn end<E: Debug + Display + Drop>(&mut self, rt: &HostRuntime, fault: E) {
        self.is_open = false;
        let place = self.stream.place();
        say(
            rt,
            format_args!(
                "rvdap: message {}, byte {}: {fault:?}: {fault}\n",
                place.number, place.byte
            ),
        );
    }
}

fn heard_with(alloc: Global, stream: &mut Stream, byte: u8) -> Heard {
    match stream.take(byte) {
        Ok(Some(body)) => heard_in(alloc, body),
        Ok(None) => Heard::Nothing,
        Err(FrameError::NoMemory) => Heard::NoMemory,
        Err(fault) => Heard::NoFrame(fault),
    }
}

fn heard_in(alloc: Global, body: &[u8]) -> Heard {
    match read_request(alloc, body) {
        Ok(Incoming::Request(request)) => heard_command(alloc, request.seq, &request.command),
        Ok(
            Incoming::Bad {
                seq,
                command,
                refusal: Refusal::BadArguments,
            },
        ) => match bad_argument(alloc, command.as_str(), body) {
            Some(reason) => Heard::Bad(seq, reason),
            None => Heard::Nothing,
        },
        Ok(_) => Heard::Nothing,
        Err(MessageError::NoMemory) => Heard::NoMemory,
        Err(fault) => Heard::NoMessage(fault),
    }
}

fn heard_command(alloc: Global, number: u32, command: &Command) -> Heard {
    let Command::Evaluate(arguments) = command else {
        return Heard::Nothing;
    };
    match Expr::parse(alloc, arguments.expression.as_str()) {
        Ok(_) | Err(ExprError::NoMemory) => Heard::Nothing,
        Err(error) => Heard::Bad(number, Reason::Expression(error)),
    }
}

fn bad_argument(alloc: Global, command: &str, body: &[u8]) -> Option<Reason> {
    let Ok(text) = str::from_utf8(body) else {
        return None;
    };
    let Ok(value) = Value::from_str(alloc, text) else {
        return None;
    };
    let slip = slip_in(command, value.as_object()?.get("arguments"))?;
    Some(Reason::Argument(slip))
}
