//! A server over streams.

use crate::streams::{Drip, Pace, Sink};
use protocol::{Command, Incoming, LAST_SEQ, Request};
use replies::{Event, Response, ResponseBody};
use std::alloc::{AllocError, Global};
use testing::{Fault, bytes_of, called, hexadecimal, parsed, shown};
use transport::{Server, ServerError};

/// The streams of a server. At first they give and take all at once.
#[derive(Drop)]
pub(crate) struct Streams {
    reader: Drip,
    writer: Sink,
}

impl Streams {
    pub(crate) fn new(alloc: Global) -> Result<Streams, AllocError> {
        Ok(Streams {
            reader: Drip::new(Vec::new(alloc)),
            writer: Sink::new(alloc)?,
        })
    }

    /// Sets or shows a stream, or makes calls of a server over them, as the words say.
    pub(crate) fn answer(&mut self, alloc: Global, words: &[&str]) -> Result<String, Fault> {
        match words {
            ["input", bytes] => {
                self.reader = Drip::new(bytes_of(alloc, bytes)?);
                shown(alloc, "ok")
            }
            ["reader", most, calls, interruptions] => {
                self.reader.pace = pace_of(most, calls, interruptions)?;
                shown(alloc, "ok")
            }
            ["writer", most, calls, interruptions] => {
                self.writer.pace = pace_of(most, calls, interruptions)?;
                shown(alloc, "ok")
            }
            ["server", calls @ ..] => {
                let server = Server::new(alloc, &mut self.reader, &mut self.writer);
                polled(alloc, server, calls)
            }
            ["continuing", written, calls @ ..] => {
                let written = parsed(written)?;
                if written > LAST_SEQ {
                    return Err(Fault::NoCommand);
                }
                let (reader, writer) = (&mut self.reader, &mut self.writer);
                let server = Server::continuing(alloc, reader, writer, written);
                polled(alloc, server, calls)
            }
            ["written"] => hexadecimal(alloc, self.writer.bytes.as_slice()),
            ["left"] => hexadecimal(alloc, self.reader.left()),
            _ => Err(Fault::NoCommand),
        }
    }
}

fn pace_of(most: &str, calls: &str, interruptions: &str) -> Result<Pace, Fault> {
    Ok(Pace {
        most: parsed(most)?,
        calls_left: parsed(calls)?,
        interruptions: parsed(interruptions)?,
        interrupted: 0,
    })
}

/// Makes calls of a server, and says what each answered: `poll`, `reads`, `threads=N` (the success of a
/// `threads` request with that number), `ack=N` (its bare success), `initialized` (the event). A call that
/// found no memory is reported on a line before, and made again.
fn polled(
    alloc: Global,
    mut server: Server<&mut Drip, &mut Sink>,
    calls: &[&str],
) -> Result<String, Fault> {
    let mut lines = String::new(alloc);
    let mut answers = String::new(alloc);
    for call in calls {
        let mut answer = one_call(alloc, &mut server, call);
        if matches!(&answer, Err(Fault::NoMemoryInCall)) {
            lines.push_str("NoMemory\n")?;
            answer = one_call(alloc, &mut server, call);
        }
        answers.push(' ')?;
        answers.push_str(answer?.as_str())?;
    }
    lines.push_str(answers.trim_start())?;
    Ok(lines)
}

fn one_call(
    alloc: Global,
    server: &mut Server<&mut Drip, &mut Sink>,
    call: &str,
) -> Result<String, Fault> {
    match call.split_once('=') {
        None if call == "poll" => polled_of(alloc, server.poll_request()),
        None if call == "reads" => shown(alloc, server.reads()),
        None if call == "initialized" => said_of(alloc, server.send_event(Event::Initialized)),
        Some(("threads", number)) => {
            let request = threads(number)?;
            let response = called(Response::success(alloc, &request, ResponseBody::Threads))?;
            said_of(alloc, server.respond(response))
        }
        Some(("ack", number)) => {
            let request = threads(number)?;
            let response = called(Response::ack(alloc, &request))?;
            said_of(alloc, server.respond(response))
        }
        _ => Err(Fault::NoCommand),
    }
}

fn threads(number: &str) -> Result<Request, Fault> {
    Ok(Request {
        seq: parsed(number)?,
        command: Command::Threads,
    })
}

fn polled_of(
    alloc: Global,
    polled: Result<Option<Incoming>, ServerError>,
) -> Result<String, Fault> {
    match polled {
        Ok(None) => Ok("none".to_string(alloc)?),
        Ok(Some(Incoming::Request(request))) => {
            Ok(format!(in alloc; "{}:{}", request.seq, request.command.name())?)
        }
        Ok(Some(Incoming::Bad { seq, refusal, .. })) => {
            Ok(format!(in alloc; "bad {seq} {refusal:?}")?)
        }
        Ok(Some(Incoming::Ignored)) => Ok("ignored".to_string(alloc)?),
        Err(error) => error_of(alloc, error),
    }
}

fn said_of(alloc: Global, said: Result<(), ServerError>) -> Result<String, Fault> {
    match said {
        Ok(()) => Ok("ok".to_string(alloc)?),
        Err(error) => error_of(alloc, error),
    }
}

fn error_of(alloc: Global, error: ServerError) -> Result<String, Fault> {
    match error {
        ServerError::NoMemory => Err(Fault::NoMemoryInCall),
        error => Ok(format!(in alloc; "{error:?}")?),
    }
}
