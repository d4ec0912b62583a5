//! A server for programs that answer by themselves: requests are polled, and responses and events written.
ghost use Rattle.std.specs.Prelude.{◌≡◌, ◌+◌, ◌<◌, ◌≤◌, ◌↔◌, [], None, Some, Err, Option, IfSome, OnOk, OnErr, IsErrOf};
ghost use Rattle.std.specs.Io.KnownBytes.{Appends};
ghost use Rattle.replies.specs.declared.message.Message.TheVariants as messages;
ghost use Rattle.queues.specs.Writing.{frame_of};
ghost use Rattle.transport.specs.Heard.{Heard, HasRead};
ghost use Rattle.transport.specs.Laws.{Polled, Said};
ghost use Rattle.transport.specs.Servers.{Polls, ReadSoOften, Writes, lasting};

use crate::inbox::Inbox;
use crate::outbox::{Outbox, QueueError};
use protocol::{Incoming, LAST_SEQ};
use replies::{Event, Message, Response};
use std::alloc::Global;
use std::io::{Read, Write};
use thiserror::Error;

/// The most reads that one call of `poll_request` makes.
pub const MOST_READS: u32 = 2_097_152;

/// Why a server gives no request, or wrote no message.
#[derive(Clone, Copy, Debug, PartialEq, Eq, Error)]
pub enum ServerError {
    /// What was read is no frame.
    #[error("not a frame")]
    Frame,
    /// What was read is no message.
    #[error("not a message")]
    Message,
    /// A read failed.
    #[error("read fault")]
    Read,
    /// A write failed.
    #[error("write fault")]
    Write,
    /// One call made 2,097,152 reads, and none made a request whole. A later call continues.
    #[error("too many reads")]
    TooManyReads,
    /// No memory was left. A later call continues.
    #[error("no memory")]
    NoMemory,
    /// All numbers for messages are used.
    #[error("no sequence number is left")]
    SeqSpent,
}

/// A server over a reader and a writer. It knows nothing of what is answered.
#[derive(Drop)]
pub struct Server<R, W> {
    reader: R,
    writer: W,
    inbox: Inbox,
    outbox: Outbox,
    fault: Option<ServerError>,
    reads: u32,
}

impl<R: Read, W: Write> Server<R, W> {
    /// A server that has read and written nothing. It takes no memory.
    pub fn new(alloc: Global, reader: R, writer: W) -> Server<R, W>
        ensures reads { HasRead result.inbox (record { read = []; given = [] }) }
        ensures streams { (result.reader ≡ reader) × (result.writer ≡ writer) }
        ensures writes { result.outbox ≡ record { count = 0; waiting = [] } }
        ensures sound { result.fault ≡ None }
        ensures counts { result.reads ≡ 0 }
    {
        Server::continuing(alloc, reader, writer, 0)
    }

    /// A server that has read nothing, on a connection to which `written` messages were written before: its
    /// first message has the number after that. It takes no memory.
    pub fn continuing(alloc: Global, reader: R, writer: W, written: u32) -> Server<R, W>
        requires { written ≤ LAST_SEQ }
        ensures reads { HasRead result.inbox (record { read = []; given = [] }) }
        ensures streams { (result.reader ≡ reader) × (result.writer ≡ writer) }
        ensures writes { result.outbox ≡ record { count = written; waiting = [] } }
        ensures sound { result.fault ≡ None }
        ensures counts { result.reads ≡ 0 }
    {
        Server {
            reader,
            writer,
            inbox: Inbox::new(alloc),
            outbox: Outbox::after(alloc, written),
            fault: None,
            reads: 0,
        }
    }

    /// The next request, read from the stream: `None` at its end, where an unfinished message is
    /// dropped. Responses and events are passed over. It does not read while one that has come is left to give.
    pub fn poll_request(&mut self) -> Result<Option<Incoming>, ServerError>
        ensures stays { IfSome self.old.fault (λ e. (result ≡ Err e) × (self.new ≡ self.old)) }
        ensures polls { self.old.fault ≡ None → (heard : Heard) → HasRead self.old.inbox heard
            → Polls (R.remaining self.old.reader)
            (R.remaining self.new.reader) heard result self.new.reads self.new.inbox }
        ensures fault { self.old.fault ≡ None → self.new.fault ≡ lasting result }
        ensures counts { self.old.fault ≡ None → ReadSoOften result self.new.reads }
        ensures writes_nothing { (self.new.writer ≡ self.old.writer)
            × (self.new.outbox ≡ self.old.outbox) }
        ensures did { Polled (record {
          fault = self.old.fault;
          outbox = self.old.outbox;
          held = W.contents self.old.writer;
        }) result
            (record {
              fault = self.new.fault;
              outbox = self.new.outbox;
              held = W.contents self.new.writer;
            }) }
    {
        if let Some(fault) = self.fault {
            return Err(fault);
        }
        let mut reads = 0;
        let polled = poll(&mut self.inbox, &mut self.reader, &mut reads);
        self.reads = reads;
        if let Err(error) = polled {
            self.fault = lasting(error);
        }
        polled
    }

    /// How many reads the last call of `poll_request` made. A call that only repeats a lasting error makes
    /// none, and leaves this number.
    pub fn reads(&self) -> u32
        ensures { result ≡ self.now.reads }
    {
        self.reads
    }

    /// Writes a response, as the next message of the connection: the first has number 1. Responses and
    /// events are numbered together.
    pub fn respond(&mut self, response: Response) -> Result<(), ServerError>
        ensures stays { IfSome self.old.fault (λ e. (result ≡ Err e) × (self.new ≡ self.old)) }
        ensures writes { self.old.fault ≡ None → self.old.outbox.waiting ≡ []
            → Writes (W.contents self.old.writer) (W.contents self.new.writer) self.old.outbox
            (messages.Response response) result
            self.new.outbox self.new.fault }
        ensures spent { self.old.fault ≡ None
            → (IsErrOf result ServerError.SeqSpent ↔ (self.old.outbox.count ≡ LAST_SEQ)) }
        ensures reads_nothing { (self.new.reader ≡ self.old.reader)
            × (self.new.inbox ≡ self.old.inbox) }
        ensures did { Said (record {
          fault = self.old.fault;
          outbox = self.old.outbox;
          held = W.contents self.old.writer;
        }) (messages.Response response) result
            (record {
              fault = self.new.fault;
              outbox = self.new.outbox;
              held = W.contents self.new.writer;
            }) }
    {
        self.say(&Message::Response(response))
    }

    /// Writes an event, as the next message of the connection.
    pub fn send_event(&mut self, event: Event) -> Result<(), ServerError>
        ensures stays { IfSome self.old.fault (λ e. (result ≡ Err e) × (self.new ≡ self.old)) }
        ensures writes { self.old.fault ≡ None → self.old.outbox.waiting ≡ []
            → Writes (W.contents self.old.writer) (W.contents self.new.writer) self.old.outbox
            (messages.Event event) result
            self.new.outbox self.new.fault }
        ensures spent { self.old.fault ≡ None
            → (IsErrOf result ServerError.SeqSpent ↔ (self.old.outbox.count ≡ LAST_SEQ)) }
        ensures reads_nothing { (self.new.reader ≡ self.old.reader)
            × (self.new.inbox ≡ self.old.inbox) }
        ensures did { Said (record {
          fault = self.old.fault;
          outbox = self.old.outbox;
          held = W.contents self.old.writer;
        }) (messages.Event event) result
            (record {
              fault = self.new.fault;
              outbox = self.new.outbox;
              held = W.contents self.new.writer;
            }) }
    {
        self.say(&Message::Event(event))
    }

    // Writes a message with the next number.
    fn say(&mut self, message: &Message) -> Result<(), ServerError>
        ensures stays { IfSome self.old.fault (λ e. (result ≡ Err e) × (self.new ≡ self.old)) }
        ensures writes { self.old.fault ≡ None → self.old.outbox.waiting ≡ []
            → Writes (W.contents self.old.writer)
            (W.contents self.new.writer) self.old.outbox message.now result
            self.new.outbox self.new.fault }
        ensures spent { self.old.fault ≡ None
            → (IsErrOf result ServerError.SeqSpent ↔ (self.old.outbox.count ≡ LAST_SEQ)) }
        ensures reads_nothing { (self.new.reader ≡ self.old.reader)
            × (self.new.inbox ≡ self.old.inbox) }
        ensures did { Said (record {
          fault = self.old.fault;
          outbox = self.old.outbox;
          held = W.contents self.old.writer;
        }) message.now result
            (record {
              fault = self.new.fault;
              outbox = self.new.outbox;
              held = W.contents self.new.writer;
            }) }
    {
        if let Some(fault) = self.fault {
            return Err(fault);
        }
        match self.outbox.queue(message) {
            Ok(()) => {}
            Err(QueueError::SeqSpent) => return Err(ServerError::SeqSpent),
            Err(QueueError::NoMemory) => return Err(ServerError::NoMemory),
        }
        if self.outbox.send_all(&mut self.writer) {
            Ok(())
        } else {
            self.fault = Some(ServerError::Write);
            Err(ServerError::Write)
        }
    }
}

// The errors that a server answers from then on.
fn lasting(error: ServerError) -> Option<ServerError>
    ensures { result ≡ lasting (Err error) }
{
    match error {
        ServerError::Frame | ServerError::Message | ServerError::Read | ServerError::Write => {
            Some(error)
        }
        ServerError::TooManyReads | ServerError::NoMemory | ServerError::SeqSpent => None,
    }
}

// Polls a request, and counts the reads.
fn poll<R: Read>(
    inbox: &mut Inbox,
    reader: &mut R,
    reads: &mut u32,
) -> Result<Option<Incoming>, ServerError>
    requires { reads.old ≡ 0 }
    ensures polls { (heard : Heard) → HasRead inbox.old heard
        → Polls (R.remaining reader.old) (R.remaining reader.new) heard result reads.new inbox.new }
    ensures counts { ReadSoOften result reads.new }
{
    'reading: while *reads < MOST_READS {
        match inbox.next() {
            Ok(Some(incoming)) => return Ok(Some(incoming)),
            Ok(None) => {}
            Err(error) => return Err(error),
        }
        match inbox.read(reader, reads) {
            Ok(true) => {}
            Ok(false) => return Ok(None),
            Err(error) => return Err(error),
        }
    }
    match inbox.next() {
        Ok(Some(incoming)) => Ok(Some(incoming)),
        Ok(None) => Err(ServerError::TooManyReads),
        Err(error) => Err(error),
    }
}
