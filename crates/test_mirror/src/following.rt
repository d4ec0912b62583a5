//! Plays `client`: a client of a session with a program of its own, and what its mirror then knows.

use crate::{query, request_of};
use client::{Client, SendError};
use replies::{Event, Message, Outcome};
use session::{EventError, SliceEnd, Turned};
use std::alloc::Global;
use testing::{Fault, Line, bytes_of, parsed, shown};

/// A client that was begun, if one was.
#[derive(Drop)]
pub(crate) struct Follower {
    client: Option<Client>,
}

impl Follower {
    pub(crate) fn new() -> Follower {
        Follower { client: None }
    }

    /// Begins a client of a session with this much memory, in bytes.
    pub(crate) fn begin(&mut self, alloc: Global, size: &str) -> Result<String, Fault> {
        match Client::new(alloc, parsed(size)?) {
            Ok(client) => {
                self.client = Some(client);
                shown(alloc, "ok")
            }
            Err(error) => shown(alloc, error),
        }
    }

    /// What is asked of the client.
    pub(crate) fn call(&mut self, alloc: Global, arguments: &[&str]) -> Result<String, Fault> {
        let Some(client) = &mut self.client else {
            return Err(Fault::NoCommand);
        };
        match arguments {
            ["send", body] => sent(alloc, client, body),
            ["turn"] => turned(alloc, client.turn(None)),
            ["turn", file] => {
                let file = bytes_of(alloc, file)?;
                turned(alloc, client.turn(Some(&file)))
            }
            ["slice", moves] => sliced(alloc, client, parsed(moves)?),
            ["take"] => taken(alloc, client),
            ["last"] => shown(alloc, client.last()),
            ["pending"] => shown(alloc, client.pending()),
            ["wants-file"] => shown(alloc, client.wants_file().unwrap_or("none")),
            other => query(alloc, client.mirror(), other),
        }
    }
}

fn sent(alloc: Global, client: &mut Client, body: &str) -> Result<String, Fault> {
    let request = request_of(alloc, body)?;
    match client.send(&request) {
        Ok(()) => shown(alloc, "ok"),
        Err(SendError::NoMemory | SendError::Session(EventError::NoMemory)) => {
            Err(Fault::NoMemoryInCall)
        }
        Err(error) => shown(alloc, error),
    }
}

fn turned(alloc: Global, answer: Result<Turned, EventError>) -> Result<String, Fault> {
    match answer {
        Ok(Turned::Answered) => shown(alloc, "answered"),
        Ok(Turned::Nothing) => shown(alloc, "nothing"),
        Ok(Turned::Full) => shown(alloc, "full"),
        Err(EventError::NoMemory) => Err(Fault::NoMemoryInCall),
        Err(error) => shown(alloc, error),
    }
}

fn sliced(alloc: Global, client: &mut Client, moves: u32) -> Result<String, Fault> {
    let sliced = client.slice(moves);
    if let SliceEnd::NoMemory = sliced.ending {
        return Err(Fault::NoMemoryInCall);
    }
    shown(alloc, sliced.moved)
}

/// Each message by its name, and a response by what came of it.
fn taken(alloc: Global, client: &mut Client) -> Result<String, Fault> {
    let Ok(messages) = client.take() else {
        return Err(Fault::NoMemoryInCall);
    };
    let mut line = Line::new(alloc);
    line.value(messages.len())?;
    for message in messages.as_slice() {
        add_message(&mut line, message)?;
    }
    Ok(line.into_string())
}

fn add_message(line: &mut Line, message: &Message) -> Result<(), Fault> {
    match message {
        Message::Response(response) => {
            line.word(response.command.as_str())?;
            line.word(match response.outcome {
                Outcome::Done(_) => "done",
                Outcome::Refused(_, _) => "refused",
            })
        }
        Message::Event(event) => line.word(event_name(event)),
    }
}

fn event_name(event: &Event) -> &'static str {
    match event {
        Event::Initialized => "initialized",
        Event::Stopped(_) => "stopped",
        Event::Continued => "continued",
        Event::Output(_) => "output",
        Event::Exited(_) => "exited",
        Event::Terminated => "terminated",
    }
}
