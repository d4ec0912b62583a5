//! Messages that are written before any of them is queued.
ghost use Rattle.std.specs.Prelude.{◌≡◌, ◌++◌, IfOk, OnOk};
ghost use Rattle.replies.specs.declared.message.Message.TheVariants as a_message;
ghost use Rattle.handlers.specs.Changes.{events_of};
ghost use Rattle.session.specs.Kept.{draft_on, drafted, drafted_all};

use crate::limits::Limits;
use crate::link::Link;
use queues::framed;
use replies::{Event, Message};
use std::alloc::{AllocError, Global};
use std::marker::Model;

/// Messages that are written before any of them is queued, so that all of them are or none. A
/// contract sees their bytes, and the number of the last.
#[derive(Drop)]
pub struct Draft {
    alloc: Global,
    bytes: Vec<u8>,
    seq: u32,
}

impl Model for Draft {
    ghost use Rattle.session.specs.Kept.{Drafted};

    ghost Value = { Drafted };

    ghost view = { λ d. record { bytes = d.bytes.items; seq = d.seq } };
}

impl Draft {
    /// No message yet. Without a connection no number is left for one.
    pub(crate) fn new(alloc: Global, limits: Limits, link: Option<Link>) -> Draft
        ensures { result ≡ draft_on limits link }
    {
        Draft {
            alloc,
            bytes: Vec::new(alloc),
            seq: match link {
                Some(link) => link.seq,
                None => limits.last_seq,
            },
        }
    }

    /// One message more, if a number is left for it.
    pub(crate) fn add(&mut self, limits: Limits, message: Message) -> Result<(), AllocError>
        ensures { OnOk result (self.new ≡ drafted limits message self.old) }
    {
        self.write(limits, &message)
    }

    // One message more, which is lent, if a number is left for it.
    fn write(&mut self, limits: Limits, message: &Message) -> Result<(), AllocError>
        ensures { OnOk result (self.new ≡ drafted limits message.now self.old) }
    {
        if self.seq < limits.last_seq {
            let frame = framed(self.alloc, self.seq + 1, message)?;
            put(&mut self.bytes, frame)?;
            self.seq += 1;
        }
        Ok(())
    }

    /// One event more, if a number is left for it.
    pub(crate) fn add_event(&mut self, limits: Limits, event: Event) -> Result<(), AllocError>
        ensures { OnOk result (self.new ≡ drafted limits (a_message.Event event) self.old) }
    {
        self.add(limits, Message::Event(event))
    }

    /// This with one event more, if there is one and a number is left for it.
    pub(crate) fn with_event(
        mut self,
        limits: Limits,
        event: Option<Event>,
    ) -> Result<Draft, AllocError>
        ensures { IfOk result (λ d. d ≡ drafted_all limits (events_of event) self) }
    {
        if let Some(event) = event {
            self.add_event(limits, event)?;
        }
        Ok(self)
    }

    /// Their frames.
    pub(crate) fn bytes(&self) -> &[u8]
        ensures { result.now ≡ self.now.bytes }
    {
        self.bytes.as_slice()
    }

    /// The number of the last, or of the last that was queued.
    pub(crate) fn seq(&self) -> u32
        ensures { result ≡ self.now.seq }
    {
        self.seq
    }
}

// A frame after those that are there; the first is not copied.
fn put(bytes: &mut Vec<u8>, frame: Vec<u8>) -> Result<(), AllocError>
    ensures { OnOk result (bytes.new.items ≡ bytes.old.items ++ frame.items) }
{
    if bytes.is_empty() {
        *bytes = frame;
        return Ok(());
    }
    bytes.extend_from_slice(frame.as_slice())
}
