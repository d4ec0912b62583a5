//! What an editor knows after a message.
ghost use Rattle.std.specs.Prelude.{◌≡◌, ◌++◌, OnOk};
ghost use Rattle.watch_command.specs.Conversing as spec;
ghost use Rattle.watch_command.specs.Private.Conversing as inner;
ghost use Rattle.watch_command.specs.Private.Conversing.{SaysTold};
ghost use Rattle.watch_command.specs.Playing.{HasShortPath};

use crate::asked::Asked;
use crate::configs::copy_of;
use crate::events::within;
use crate::fed::bodies_of;
use crate::lines::lines_of;
use crate::shown::{add_bodies, add_line};
use framing::{Unframer, frame};
use session::{Applied, Config, Event, EventError, Limits};
use std::alloc::{AllocError, Global};
use std::cmp;
use watch_events::watch;

/// What it takes to say what an editor knows after a message: what the session is made of, its events, the newest connection,
/// and how many bytes were queued for it.
#[derive(Drop)]
pub(crate) struct Knowing<'a> {
    alloc: Global,
    config: Config,
    events: &'a [Event],
    connection: u32,
    queued: usize,
}

impl<'a> Knowing<'a> {
    /// Before anything happened.
    pub(crate) fn new(alloc: Global, config: Config, events: &'a [Event]) -> Knowing<'a>
        ensures { result.config ≡ config }
    {
        Knowing {
            alloc,
            config,
            events,
            connection: 0,
            queued: 0,
        }
    }

    /// Keeps in mind which connection there is, by what an event was answered.
    pub(crate) fn note(&mut self, answer: Result<Applied, EventError>)
        ensures { self.new.config ≡ self.old.config }
    {
        if let Ok(Applied::Connect(connection)) = answer {
            self.connection = connection;
            self.queued = 0;
        }
    }

    /// Appends the bodies of the frames in bytes that were queued, and what an editor knows after each of them where that is asked for.
    /// `Err`: no memory was left.
    pub(crate) fn add_told(
        &mut self,
        text: &mut Vec<u8>,
        asked: Asked,
        number: u64,
        bytes: &[u8],
    ) -> Result<(), AllocError>
        requires { HasShortPath self.old.config }
        ensures lines { OnOk result
            (SaysTold asked number bytes.now text.old.items text.new.items) }
        ensures same { self.new.config ≡ self.old.config }
    {
        let mut unframer = bodies_of(self.alloc, bytes)?;
        if asked.facts && is_asked(asked, number) {
            self.add_messages(text, number, &mut unframer)?;
            return Ok(());
        }
        self.queued = self.queued.saturating_add(bytes.len());
        add_bodies(self.alloc, text, number, b" <- ", &mut unframer)?;
        Ok(())
    }

    fn add_messages(
        &mut self,
        text: &mut Vec<u8>,
        number: u64,
        unframer: &mut Unframer,
    ) -> Result<(), AllocError>
        requires { HasShortPath self.old.config }
        ensures lines { OnOk result
            (inner.SaysEach number unframer.old.waiting text.old.items text.new.items) }
        ensures same { self.new.config ≡ self.old.config }
    {
        while let Some(body) = unframer.next_body() {
            self.add_message(text, number, body)?;
        }
        Ok(())
    }

    // A message, and what is known after it.
    fn add_message(
        &mut self,
        text: &mut Vec<u8>,
        number: u64,
        body: &[u8],
    ) -> Result<(), AllocError>
        requires { HasShortPath self.old.config }
        ensures lines { OnOk result
            (inner.SaysOne number body.now text.old.items text.new.items) }
        ensures same { self.new.config ≡ self.old.config }
    {
        add_line(self.alloc, text, number, b" <- ", body)?;
        self.queued = self.queued.saturating_add(frame(self.alloc, body)?.len());
        let known = self.known_at(number)?;
        text.extend_from_slice(&known)
    }

    // What an editor knows by the bytes that were queued so far, by the event of this number.
    fn known_at(&self, number: u64) -> Result<Vec<u8>, AllocError>
        requires { HasShortPath self.now.config }
    {
        let config = copy_of(self.alloc, &self.config)?;
        let events = first(self.events, within(number));
        match watch(
            self.alloc,
            config,
            Limits::greatest(),
            events,
            self.connection,
            self.queued,
        ) {
            Ok(watched) => {
                let lines = lines_of(self.alloc, &watched, self.config.memory_size);
                drop(watched);
                indented(self.alloc, lines?)
            }
            Err(_) => Err(AllocError),
        }
    }
}

// Lines, with two blanks before each.
fn indented(alloc: Global, lines: String) -> Result<Vec<u8>, AllocError> {
    let mut text = Vec::new(alloc);
    let added = indent(&mut text, lines.as_bytes());
    drop(lines);
    match added {
        Ok(()) => Ok(text),
        Err(error) => {
            drop(text);
            Err(error)
        }
    }
}

fn indent(text: &mut Vec<u8>, lines: &[u8]) -> Result<(), AllocError> {
    let mut begins = true;
    for byte in lines {
        if begins {
            text.extend_from_slice(b"  ")?;
        }
        text.push(*byte)?;
        begins = *byte == b'\n';
    }
    Ok(())
}

// The first `count` events.
fn first(events: &[Event], count: usize) -> &[Event] {
    &events[..cmp::min(count, events.len())]
}

/// Whether the lines of an event are asked for.
pub(crate) fn is_asked(asked: Asked, number: u64) -> bool
    ensures { result ≡ spec.is_asked asked number }
{
    asked.from <= number && number <= asked.to
}
