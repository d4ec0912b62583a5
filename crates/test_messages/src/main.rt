//! Plays `framing`, `protocol`, `requests` and `replies`: frames of bodies, bodies that are read as requests, these as an editor
//! writes them, and responses and events that are made, written and read.
#![tactic(auto)]

mod arguments;
mod bodies;
mod errors;
mod events;
mod frames;
mod incoming;
mod responses;

use errors::{error_named, refusal_named, show_error, show_refusal};
use events::{event_of, show_event};
use frames::Frames;
use incoming::show_incoming;
use protocol::json::json_value;
use protocol::{Incoming, MessageError, Request, Text, read_request};
use replies::{Message, Response, read_message, write_message};
use requests::write_request;
use responses::{ack, done, refuse, refused, show_response, success, text_of};
use std::alloc::Global;
use std::process::ExitCode;
use testing::{Fault, Line, Player, bytes_of, called, parsed, play};

/// What is played: frames, and the message that was made or read last.
#[derive(Drop)]
struct Messages {
    frames: Frames,
    last: Option<Message>,
}

fn main(rt: HostRuntime) -> ExitCode {
    let mut messages = Messages {
        frames: Frames::new(rt.alloc()),
        last: None,
    };
    play(&rt, &mut messages)
}

impl Player for Messages {
    fn answer(&mut self, alloc: Global, arguments: &[&str]) -> Result<String, Fault> {
        match self.frames.answer(alloc, arguments) {
            Err(Fault::NoCommand) => self.answer_of_messages(alloc, arguments),
            answer => answer,
        }
    }
}

impl Messages {
    /// Makes a call that is about messages, and says what it answered.
    fn answer_of_messages(&mut self, alloc: Global, arguments: &[&str]) -> Result<String, Fault> {
        let mut line = Line::new(alloc);
        self.show(alloc, arguments, &mut line)?;
        Ok(line.into_string())
    }

    /// Makes the call, and shows what it answered. Each command is one call, since a way out of one of
    /// many is proved beside all others.
    fn show(&mut self, alloc: Global, arguments: &[&str], line: &mut Line) -> Result<(), Fault> {
        match arguments {
            ["write", seq] => self.write(alloc, seq, line),
            ["read", body] => self.read(alloc, body, line),
            ["event", parts @ ..] => self.tell(alloc, parts, line),
            [command, argument] => show_call(alloc, command, argument, line),
            _ => self.make(alloc, arguments, line),
        }
    }

    /// Makes the response, and keeps it.
    fn make(&mut self, alloc: Global, arguments: &[&str], line: &mut Line) -> Result<(), Fault> {
        let response = response(alloc, arguments)?;
        self.keep(Message::Response(response), line)
    }

    /// Makes the event, and keeps it.
    fn tell(&mut self, alloc: Global, parts: &[&str], line: &mut Line) -> Result<(), Fault> {
        let event = event_of(alloc, parts)?;
        self.keep(Message::Event(event), line)
    }

    /// Keeps the message, and says what it is.
    fn keep(&mut self, message: Message, line: &mut Line) -> Result<(), Fault> {
        let shown = show_message(line, &message);
        self.last = Some(message);
        shown
    }

    fn write(&self, alloc: Global, seq: &str, line: &mut Line) -> Result<(), Fault> {
        match &self.last {
            Some(message) => write(alloc, parsed(seq)?, message, line),
            None => Err(Fault::NoCommand),
        }
    }

    fn read(&mut self, alloc: Global, body: &str, line: &mut Line) -> Result<(), Fault> {
        let body = bytes_of(alloc, body)?;
        match read_message(alloc, &body) {
            Ok((seq, message)) => {
                line.value(seq)?;
                self.keep(message, line)
            }
            Err(error) => show_error(line, error),
        }
    }
}

fn show_message(line: &mut Line, message: &Message) -> Result<(), Fault> {
    match message {
        Message::Response(response) => show_response(line, response),
        Message::Event(event) => show_event(line, event),
    }
}

fn write(alloc: Global, seq: u32, message: &Message, line: &mut Line) -> Result<(), Fault> {
    line.bytes(&called(write_message(alloc, seq, message))?)
}

/// Makes a call that keeps nothing, and shows what it answered.
fn show_call(alloc: Global, command: &str, argument: &str, line: &mut Line) -> Result<(), Fault> {
    match command {
        "request" => request(line, read_request(alloc, &bytes_of(alloc, argument)?)),
        "asked" => asked(alloc, argument, line),
        "json" => json(alloc, argument, line),
        "text" => text(text_of(alloc, argument)?, line),
        "refusal" => show_refusal(line, refusal_named(argument)?),
        "error" => line.value(error_named(argument)?),
        _ => Err(Fault::NoCommand),
    }
}

fn request(line: &mut Line, read: Result<Incoming, MessageError>) -> Result<(), Fault> {
    match read {
        Ok(incoming) => show_incoming(line, &incoming),
        Err(error) => show_error(line, error),
    }
}

/// A body that is a request, as an editor writes it.
fn asked(alloc: Global, body: &str, line: &mut Line) -> Result<(), Fault> {
    match read_request(alloc, &bytes_of(alloc, body)?) {
        Ok(Incoming::Request(Request { seq, command })) => {
            line.bytes(&called(write_request(alloc, seq, &command))?)
        }
        Ok(_) => Err(Fault::NoCommand),
        Err(error) => show_error(line, error),
    }
}

/// The JSON value of a body, as its compact text.
fn json(alloc: Global, body: &str, line: &mut Line) -> Result<(), Fault> {
    match json_value(alloc, &bytes_of(alloc, body)?) {
        Ok(value) => line.bytes(&value.to_vec(alloc)?),
        Err(error) => show_error(line, error),
    }
}

/// A text as it is lent, and as the `String` that it holds.
fn text(text: Text, line: &mut Line) -> Result<(), Fault> {
    line.bytes(text.as_str().as_bytes())?;
    line.bytes(text.into_string().as_bytes())
}

/// The response that a command makes: to a request, or of its parts.
fn response(alloc: Global, arguments: &[&str]) -> Result<Response, Fault> {
    match arguments {
        ["success", seq, name, body] => success(alloc, seq, name, body),
        ["refuse", seq, name, refusal] => refuse(alloc, seq, name, refusal),
        ["ack", seq, name] => ack(alloc, seq, name),
        ["done", seq, name, body] => done(alloc, seq, name, body),
        ["refused", seq, name, refusal, text] => refused(alloc, seq, name, refusal, text),
        _ => Err(Fault::NoCommand),
    }
}
