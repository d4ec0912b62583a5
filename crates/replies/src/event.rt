//! Events: what the adapter tells the editor, with no request that asks for it.
ghost use Rattle.std.specs.Prelude.{◌≡◌, OnOk, codes};
ghost use Rattle.message_parts.specs.Forms.{member_if};
ghost use Rattle.message_parts.specs.Written.{AreWritten, IsWritten};
ghost use Rattle.protocol.specs.Arguments.{Reads};
ghost use Rattle.serde_json.specs.Data.{no_members};
ghost use Rattle.serde_json.specs.View.{view};
ghost use Rattle.replies.specs.Claims.{event_in};
ghost use Rattle.replies.specs.Events.{event_body, event_data, event_name, event_named};

use json::Writer;
use message_parts::members::{BODY, EVENT, EVENT_NAME, SEQ, TYPE};
use message_parts::{Exited, Output, Stopped, continued, find, member};
use protocol::Unread;
use serde_json::Value;
use std::alloc::{AllocError, Global};

/// What the adapter tells (`Event`), one variant for each event. What the protocol's profile fixes
/// has no fields.
#[derive(Drop)]
pub enum Event {
    /// The adapter is ready for the editor's settings (`InitializedEvent`).
    Initialized,
    /// The machine stopped (`StoppedEvent`).
    Stopped(Stopped),
    /// The machine continues (`ContinuedEvent`).
    Continued,
    /// The program printed something, or the adapter has something to say (`OutputEvent`).
    Output(Output),
    /// The program exited (`ExitedEvent`).
    Exited(Exited),
    /// The machine has ended (`TerminatedEvent`).
    Terminated,
}

/// The name of the event that the adapter is ready for settings.
const INITIALIZED: &str = "initialized";
/// The name of the event that the machine stopped.
const STOPPED: &str = "stopped";
/// The name of the event that the machine continues.
const CONTINUED: &str = "continued";
/// The name of the event with a text to show.
const OUTPUT: &str = "output";
/// The name of the event that the program exited.
const EXITED: &str = "exited";
/// The name of the event that the machine has ended.
const TERMINATED: &str = "terminated";

impl Event {
    /// Its name (`Event.event`).
    pub fn name(&self) -> &'static str
        ensures { result.now ≡ event_name self.now }
    {
        match self {
            Event::Initialized => INITIALIZED,
            Event::Stopped(_) => STOPPED,
            Event::Continued => CONTINUED,
            Event::Output(_) => OUTPUT,
            Event::Exited(_) => EXITED,
            Event::Terminated => TERMINATED,
        }
    }
}

/// The event with this number, written. It fails where no memory is left, and then the writer is of
/// no more use.
pub(crate) fn write(out: &mut Writer, seq: u32, event: &Event) -> Result<(), AllocError>
    ensures { OnOk result (IsWritten out.old out.new (event_data seq event.now)) }
{
    out.begin_object()?;
    write_body(out, event)?;
    member::text(out, EVENT_NAME, event.name())?;
    member::number(out, SEQ, seq)?;
    member::text(out, TYPE, EVENT)?;
    out.end_object()
}

/// The member that is the body, if there is one, written. It fails as `write` does.
fn write_body(out: &mut Writer, event: &Event) -> Result<(), AllocError>
    ensures { OnOk result (AreWritten out.old out.new
        (member_if (codes "body") (λ d. d) (event_body event.now) no_members)) }
{
    match event {
        Event::Initialized => Ok(()),
        Event::Stopped(body) => member::part(out, BODY, body),
        Event::Continued => {
            out.key(BODY)?;
            continued::body(out)
        }
        Event::Output(body) => member::part(out, BODY, body),
        Event::Exited(body) => member::part(out, BODY, body),
        Event::Terminated => Ok(()),
    }
}

/// The event that a value claims to be: `Bad` where it claims to be none, `NoMemory` where no memory
/// is left.
pub(crate) fn read(alloc: Global, value: &Value) -> Result<Event, Unread>
    ensures { Reads result (event_in (view value.now)) }
{
    let name = value
        .get(EVENT_NAME)
        .and_then(Value::as_str)
        .ok_or(Unread::Bad)?;
    named(alloc, name, value)
}

/// The event of this name that a value claims to be.
fn named(alloc: Global, name: &str, value: &Value) -> Result<Event, Unread>
    ensures { Reads result (event_named name.now (view value.now)) }
{
    match name {
        INITIALIZED => Ok(Event::Initialized),
        STOPPED => Ok(Event::Stopped(find::part(alloc, value, BODY)?)),
        CONTINUED => Ok(Event::Continued),
        OUTPUT => Ok(Event::Output(find::part(alloc, value, BODY)?)),
        EXITED => Ok(Event::Exited(find::part(alloc, value, BODY)?)),
        TERMINATED => Ok(Event::Terminated),
        _ => Err(Unread::Bad),
    }
}
