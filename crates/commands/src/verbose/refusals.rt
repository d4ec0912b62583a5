//! What an editor is refused, response by response.

use crate::ending::say;
use crate::verbose::reasons::{Reason, Reasons};
use crate::verbose::stream::Stream;
use protocol::Refusal;
use serde_json::{Map, Value};
use std::alloc::Global;
use std::str;

/// What is sent to an editor.
#[derive(Drop)]
pub(crate) struct Answers {
    stream: Stream,
}

impl Answers {
    /// Nothing was sent.
    pub(crate) fn new(alloc: Global) -> Answers {
        Answers {
            stream: Stream::new(alloc, u32::MAX),
        }
    }

    /// Looks at a piece that was sent, and tells the refusals in it.
    pub(crate) fn look(&mut self, rt: &HostRuntime, piece: &[u8], reasons: &mut Reasons) {
        for byte in piece {
            if let Ok(Some(body)) = self.stream.take(*byte) {
                look_at(rt, body, reasons);
            }
        }
    }
}

fn look_at(rt: &HostRuntime, body: &[u8], reasons: &mut Reasons) {
    let Ok(text) = str::from_utf8(body) else {
        return;
    };
    let Ok(value) = Value::from_str(rt.alloc(), text) else {
        return;
    };
    if let Some(members) = value.as_object() {
        look_at_members(rt, members, reasons);
    }
}

// An event has no number of a request.
fn look_at_members(rt: &HostRuntime, members: &Map<String, Value>, reasons: &mut Reasons) {
    let Some(number) = number_in(members, "request_seq") else {
        return;
    };
    let reason = reasons.take(number);
    if let (Some(command), Some(name)) = (
        text_in(members, "command"),
        text_in(members, "message"),
    ) {
        tell(rt, number, command, name, reason);
    }
}

fn tell(rt: &HostRuntime, number: u32, command: &str, name: &str, reason: Option<Reason>) {
    match reason {
        Some(Reason::Argument(slip)) => say(
            rt,
            format_args!(
                "rvdap: request {number}, {command}: {name}: {}{} {}\n",
                slip.place, slip.name, slip.wrong
            ),
        ),
        Some(Reason::Expression(error)) => say(
            rt,
            format_args!("rvdap: request {number}, {command}: {name}: {error}\n"),
        ),
        None if name == Refusal::BadExpression.name() => say(
            rt,
            format_args!(
                "rvdap: request {number}, {command}: {name}: it reads a word outside memory\n"
            ),
        ),
        None => say(
            rt,
            format_args!("rvdap: request {number}, {command}: {name}\n"),
        ),
    }
}

fn number_in(members: &Map<String, Value>, name: &str) -> Option<u32> {
    let number = members.get(name)?.as_u64()?;
    if number <= u32::MAX as u64 {
        Some(number as u32)
    } else {
        None
    }
}

fn text_in<'v>(members: &'v Map<String, Value>, name: &str) -> Option<&'v str> {
    members.get(name)?.as_str()
}
