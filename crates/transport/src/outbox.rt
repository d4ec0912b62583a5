//! What waits to be written: numbered messages, framed.
ghost use Rattle.std.specs.Prelude.{◌≡◌, ◌≢◌, ◌+◌, ◌==◌, ◌<◌, ◌≤◌, ◌++◌, ◌↔◌, [], List, ℕ, IsOk, OnOk, OnErr, IfOk, IsErrOf, IfErr, IsTrue, drop, false, length};
ghost use Rattle.std.specs.IoError.{error_kind};
ghost use Rattle.std.specs.declared.io.ErrorKind.TheVariants.{Interrupted};
ghost use Rattle.std.specs.Io.KnownBytes.{Keeps, Appends};
ghost use Rattle.transport.specs.Private.Outbox.{queued, Sends, SendsPrefix};

use blocking_io::write_some;
use protocol::LAST_SEQ;
use replies::Message;
use session::{Buffer, framed};
use std::alloc::Global;
use std::io;
use std::io::Write;
use std::marker::Model;

/// Why a message was not queued.
#[derive(Clone, Copy, Debug, PartialEq, Eq)]
pub enum QueueError {
    /// All numbers are used.
    SeqSpent,
    /// No memory was left.
    NoMemory,
}

/// The messages of a connection as they are written: each framed, with the number after that of the
/// one before. A contract sees how many there were, and the bytes that still wait.
#[derive(Drop)]
pub struct Outbox {
    alloc: Global,
    count: u32,
    buffer: Buffer,
}

impl Model for Outbox {
    ghost use Rattle.std.specs.Prelude.{◌≤◌};
    ghost use Rattle.transport.specs.Outbox.{Queued};
    ghost use Rattle.protocol.specs.declared.properties.TheConstants.{LAST_SEQ};

    ghost Value = { Queued };

    ghost view = { λ o. record { count = o.count; waiting = o.buffer } };

    ghost invariant = { λ o. o.count ≤ LAST_SEQ };
}

impl Outbox {
    /// Nothing waits, after `count` messages.
    pub(crate) fn after(alloc: Global, count: u32) -> Outbox
        requires { count ≤ LAST_SEQ }
        ensures { result ≡ record { count = count; waiting = [] } }
    {
        Outbox {
            alloc,
            count,
            buffer: Buffer::new(alloc),
        }
    }

    /// Whether nothing waits.
    pub(crate) fn is_empty(&self) -> bool
        ensures { result ≡ (length self.now.waiting == 0) }
    {
        self.buffer.len() == 0
    }

    /// Puts the frame of a message, with the next number, after what waits.
    pub(crate) fn queue(&mut self, message: &Message) -> Result<(), QueueError>
        ensures ok { OnOk result (self.new ≡ queued self.old message.now) }
        ensures err { OnErr result (self.new ≡ self.old) }
        ensures spent { IsErrOf result QueueError.SeqSpent ↔ (self.old.count ≡ LAST_SEQ) }
    {
        if self.count >= LAST_SEQ {
            return Err(QueueError::SeqSpent);
        }
        let Ok(framed) = framed(self.alloc, self.count + 1, message) else {
            return Err(QueueError::NoMemory);
        };
        if self.buffer.push(&framed).is_err() {
            return Err(QueueError::NoMemory);
        }
        self.count += 1;
        Ok(())
    }

    /// Writes what waits, or a prefix of it, by one write, which is made again where a signal interrupted it.
    pub(crate) fn send<W: Write>(&mut self, writer: &mut W) -> io::Result<usize>
        ensures sends { Sends (W.contents writer.old) (W.contents writer.new)
            self.old result self.new }
        ensures again { IfErr result (λ e. error_kind e ≢ Interrupted) }
    {
        let count = write_some(writer, self.buffer.as_slice())?;
        self.buffer.take(count);
        Ok(count)
    }

    /// Writes what waits, by as many writes as it takes, and answers whether all was written. A write that
    /// a signal interrupted is made again.
    pub(crate) fn send_all<W: Write>(&mut self, writer: &mut W) -> bool
        ensures prefix { SendsPrefix (W.contents writer.old)
            (W.contents writer.new) self.old self.new }
        ensures all { IsTrue result → self.new.waiting ≡ [] }
        ensures left { result ≡ false → self.new.waiting ≢ [] }
    {
        'sending: while !self.is_empty() {
            match self.send(writer) {
                Ok(0) => return false,
                Ok(_) => {}
                Err(_) => return false,
            }
        }
        true
    }
}
